//! The image of a job: its sizes, its text and its descriptor table, and the checks by which it is accepted or refused.
#![tactic(auto)]

pub mod checks;
pub mod fields;
pub mod layout;
pub mod text;
