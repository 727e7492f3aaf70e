//! The worked examples: one theorem on the definitions of numbers, exclusions and the machine.
#![tactic(auto)]

ghost use Rattle.worked.specs.Worked.{SignalSendsToTheAbortFirst, WorkedExamples};

/// The worked examples hold of the definitions.
pub fn worked_examples()
    ensures the_worked_examples_hold { WorkedExamples }
    ensures a_signal_after_three_runs_sends_to_the_abort_first { SignalSendsToTheAbortFirst }
{}
