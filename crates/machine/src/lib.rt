//! The machine: boot, the calls and the questions.
#![tactic(auto)]

mod asking;
mod boot;
mod disturb;
pub mod machine;
mod perform;
mod works;
