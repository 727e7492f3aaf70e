//! The proof that whatever calls a machine has had, it holds what the ledger holds, loses nothing, and makes progress.
#![tactic(auto)]

ghost use Rattle.lives.specs.Apart.{TakenApart};
ghost use Rattle.lives.specs.Whole.{LivesAreWhollyFaithful};

use exclusion::meaning::Exclusion;

/// Every life of a machine, over any exclusion, is faithful: structures, hands and settlings are the ledger's, no operation
/// and no node is lost or doubled, of eight instructions one settles, and only questions that the exclusion answers are put. The
/// definitions that the proof takes apart are the model's.
pub fn life_law<E: Exclusion>(_exclusion: &E)
    ensures every_life_is_wholly_faithful { LivesAreWhollyFaithful E.Exclusion.meaning E.Exclusion.told E.Exclusion.answers }
    ensures the_calls_taken_apart_are_the_calls { TakenApart E.Exclusion.told E.Exclusion.answers }
{}
