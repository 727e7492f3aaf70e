//! What the exclusions share besides the sections: the patience of eight CPUs.
ghost use Rattle.std.specs.Prelude.{◌≡◌, ℕ, List, replicate, slice_set};
ghost use Rattle.exclusion.specs.Parts.{held_while, patience_at, stepped_down};

use super::meaning::Verdict;
use std::marker::Model;

/// While there is patience, the disturber waits in place of sending the thread back.
pub(crate) fn held_while(patience: u8, verdict: Verdict) -> Verdict
    ensures defined { result ≡ held_while patience verdict }
{
    match verdict {
        Verdict::Back(_) if patience > 0 => Verdict::Held,
        _ => verdict,
    }
}

/// The patience of each of eight CPUs: how many more instructions of the section that was entered there a disturber has to
/// wait for.
#[derive(Clone, Copy)]
pub(crate) struct Patience {
    remaining: [u8; 8],
}

impl Model for Patience {
    ghost Value = { List ℕ };

    ghost view = { λ patience. patience.remaining };

    ghost inverse = { λ remaining. record { remaining = remaining } };
}

impl Patience {
    /// No patience on any CPU.
    pub(crate) fn none() -> Patience
        ensures defined { result ≡ replicate 8 0 }
    {
        Patience { remaining: [0; 8] }
    }

    /// The patience of a CPU; one above 7 has none.
    pub(crate) fn at(&self, cpu: usize) -> u8
        ensures defined { result ≡ patience_at self.now cpu }
    {
        self.remaining.get(cpu).copied().unwrap_or(0)
    }

    // stays: tried with `get_mut`, and the proof didn't close: its contract does not say what a write through it leaves behind
    /// Gives a CPU a patience; one above 7 keeps none.
    #[tactic(auto, using(std::proofs::lemmas::List::set_past))]
    pub(crate) fn set(&mut self, cpu: usize, patience: u8)
        ensures defined { self.new ≡ slice_set self.old cpu patience }
    {
        if cpu < self.remaining.len() {
            self.remaining[cpu] = patience;
        }
    }

    /// Takes one instruction off the patience of a CPU, if it has any.
    pub(crate) fn step(&mut self, cpu: usize)
        ensures defined { self.new ≡ stepped_down self.old cpu }
    {
        self.set(cpu, self.at(cpu).saturating_sub(1));
    }
}
