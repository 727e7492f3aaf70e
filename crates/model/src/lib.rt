//! The model: what every call of the stepping machine does, the ledger, lives, and the claims.
#![tactic(auto)]

ghost use Rattle.model.specs.Laws.{AgreeingQuestionsTell, NewAgrees, OneOutcome, OnlyItsOwnThread, OnlyTheStructuresOfQ, RefusedChangesNothing, SomeOutcome};

use exclusion::meaning::Exclusion;

pub mod state;

/// Laws that show the definitions of the calls sane, over any exclusion.
pub fn call_laws<E: Exclusion>(_exclusion: &E)
    ensures a_refused_call_changes_nothing { RefusedChangesNothing E.Exclusion.told E.Exclusion.answers }
    ensures an_instruction_changes_only_the_structures_of_q { OnlyTheStructuresOfQ }
    ensures an_instruction_changes_only_its_own_thread { OnlyItsOwnThread }
    ensures a_call_has_an_outcome_over_an_exclusion_that_reacts { SomeOutcome E.Exclusion.told E.Exclusion.answers }
    ensures a_call_has_one_outcome_over_a_determined_exclusion { OneOutcome E.Exclusion.told E.Exclusion.answers }
{}

/// A newly booted machine agrees with the newly begun ledger.
pub fn boot_law()
    ensures a_new_machine_agrees_with_a_new_ledger { NewAgrees }
{}

/// Where the structures and the hands are the ledger's and each ring begins at a slot, the questions tell what the ledger holds.
pub fn question_law()
    ensures the_questions_tell_what_the_ledger_holds { AgreeingQuestionsTell }
{}
