//! Runs of the machine on the sample job, with the answers that they should get, worked out apart from the code.
#![tactic(auto)]

#[cfg(test)]
mod tests;
