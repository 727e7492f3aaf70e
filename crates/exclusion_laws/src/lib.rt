//! What holds of every exclusion, of the two classic ways together, and of grace 0.
#![tactic(auto)]

ghost use Rattle.exclusion_laws.specs.Laws.{AgreeOnWhen, masking_after};
ghost use Rattle.exclusion.specs.Meaning.{NotHeldWithoutPatience, NotOutsideWhenArmed, ToldAll};
ghost use Rattle.exclusion.specs.Ours.{abort_restarts, rolls_back};
ghost use Rattle.image.specs.Layout.{sections_of};
ghost use Rattle.std.specs.Prelude.{◌≡◌};

use exclusion::abort::AbortRestart;
use exclusion::grace::Grace;
use exclusion::masking::Masking;
pub use exclusion::meaning::tell;
use exclusion::meaning::{Exclusion, Notice, Standing, Verdict};
use exclusion::rollback::AddressRollback;

/// Tells an exclusion one thing after another.
#[tactic(auto, using(crate::proofs::Told::told_more, crate::proofs::Told::told_whole))]
fn tell_all<E: Exclusion>(exclusion: &mut E, notices: &[Notice])
    ensures told_so { ToldAll E.Exclusion.told exclusion.old notices.now exclusion.new }
{
    for notice in notices {
        tell(exclusion, *notice);
    }
}

/// Asks an exclusion. At a question that is not free, no exclusion says Outside in the armed section, and none says Held
/// without patience, so one that never lets go has not the meaning.
#[tactic(auto, using(crate::proofs::Shut::never_outside, crate::proofs::Shut::never_held))]
pub fn ask<E: Exclusion>(exclusion: &E, standing: Standing) -> Verdict
    ensures as_it_answers { E.Exclusion.answers exclusion.now standing.cpu standing.armed standing.place result }
    ensures never_outside_in_the_armed_section { NotOutsideWhenArmed (E.Exclusion.meaning exclusion.now) standing.armed standing.place result }
    ensures never_held_without_patience { NotHeldWithoutPatience (E.Exclusion.meaning exclusion.now) standing.cpu standing.armed standing.place result }
{
    exclusion.disturbed(standing)
}

// stays: what is told and what is asked are two values; one of both would be taken apart at once, here and in the three below
/// Tells an exclusion one thing after another, and then asks it.
pub fn tell_and_ask<E: Exclusion>(
    exclusion: &mut E,
    notices: &[Notice],
    standing: Standing,
) -> Verdict
    ensures told_so { ToldAll E.Exclusion.told exclusion.old notices.now exclusion.new }
    ensures as_it_answers { E.Exclusion.answers exclusion.new standing.cpu standing.armed standing.place result }
{
    tell_all(exclusion, notices);
    ask(exclusion, standing)
}

/// Makes both classic exclusions from one table, tells them the same things, and asks both. They agree on when a thread is
/// sent back, and differ only in where to.
pub fn ask_both_classic(table: &[u8], notices: &[Notice], standing: Standing) -> (Verdict, Verdict)
    ensures the_first_restarts_by_abort { result.0 ≡ abort_restarts (sections_of table.now) standing.armed standing.place }
    ensures the_second_rolls_back { result.1 ≡ rolls_back (sections_of table.now) standing.place }
    ensures they_agree_on_when { AgreeOnWhen (sections_of table.now) standing.armed standing.place result.0 result.1 }
{
    let mut abort = AbortRestart::new(table);
    let mut rollback = AddressRollback::new(table);
    let by_abort = tell_and_ask(&mut abort, notices, standing);
    let by_rollback = tell_and_ask(&mut rollback, notices, standing);
    (by_abort, by_rollback)
}

/// Puts grace 0 over an exclusion, tells it things and asks it. It answers every question, free or not, as the exclusion
/// alone does.
pub fn ask_grace_zero<E: Exclusion>(
    lower: E,
    notices: &[Notice],
    standing: Standing,
) -> (Verdict, Grace<E>)
    ensures the_lower_is_told_the_same { ToldAll E.Exclusion.told lower notices.now result.1.lower }
    ensures as_the_lower_answers { E.Exclusion.answers result.1.lower standing.cpu standing.armed standing.place result.0 }
{
    let mut layer = Grace::new(0, lower);
    let verdict = tell_and_ask(&mut layer, notices, standing);
    (verdict, layer)
}

/// Makes masking from a table, tells it things and asks it. What generic code promises of any exclusion determines its
/// answer here.
pub fn ask_masking(table: &[u8], notices: &[Notice], standing: Standing) -> Verdict
    ensures determined { result ≡ masking_after (sections_of table.now) notices.now standing.cpu standing.place }
{
    let mut masking = Masking::new(table);
    tell_and_ask(&mut masking, notices, standing)
}
