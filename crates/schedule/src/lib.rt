//! Schedules: a job and the calls to make on it, as bytes.
#![tactic(auto)]

pub mod body;
pub mod header;
pub mod job;
