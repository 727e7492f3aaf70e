//! Exclusions: what becomes of a thread that is disturbed inside a restartable section.
#![tactic(auto)]

pub mod abort;
pub mod grace;
pub mod masking;
pub mod meaning;
mod parts;
pub mod rollback;
pub mod sections;
