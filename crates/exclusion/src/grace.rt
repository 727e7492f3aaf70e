//! Grace: a layer over any exclusion that gives every section that is entered at least a stated patience.
ghost use Rattle.std.specs.Prelude.{◌≡◌, ℕ, replicate};
ghost use Rattle.exclusion.specs.Ours.{grace_choice};
ghost use Rattle.exclusion.specs.Parts.{counted, held_while, layered, patience_at};
ghost use Rattle.exclusion.specs.declared.meaning.Verdict.{Verdict};
ghost use Rattle.exclusion.specs.Layers.{Graced};
ghost use Rattle.exclusion.specs.Counting.{layered_obeys, layered_says};
ghost use Rattle.std.proofs.Common.{rules};

use super::meaning::{Exclusion, Standing, Verdict};
use super::parts::{Patience, held_while};
use image::layout::Section;
use std::marker::Model;

// stays: apart from masking, whose choice goes by the section; one type for both needs a trait of choices with laws, longer than what they share
/// Grace over a lower exclusion, which it holds: chooses the larger of its own number and the lower choice, and takes the
/// lower way back.
#[derive(Drop)]
pub struct Grace<E: Exclusion> {
    lower: E,
    grace: u8,
    patience: Patience,
}

impl<E: Exclusion> Model for Grace<E> {
    ghost Value = { Graced E };

    ghost view = { λ layer. record { lower = layer.lower; grace = layer.grace; patience = layer.patience } };
}

impl<E: Exclusion> Grace<E> {
    /// Grace of so many instructions over an exclusion, with no patience of its own.
    pub fn new(grace: u8, lower: E) -> Grace<E>
        ensures over_the_lower { result.lower ≡ lower }
        ensures of_the_number { result.grace ≡ grace }
        ensures without_patience { result.patience ≡ replicate 8 0 }
    {
        Grace {
            lower,
            grace,
            patience: Patience::none(),
        }
    }
}

impl<E: Exclusion> Exclusion for Grace<E> {
    ghost meaning = { λ e. layered (E.Exclusion.meaning e.lower) e.patience };

    ghost told = { λ e n f. (f.grace ≡ e.grace) × (f.patience ≡ counted (grace_choice e.grace) e.patience n) × E.Exclusion.told e.lower n f.lower };

    ghost answers = { λ e cpu armed place v. (w : Verdict) × E.Exclusion.answers e.lower cpu armed place w × (v ≡ held_while (patience_at e.patience cpu) w) };

    ghost shaped = { Prim.search rules };

    ghost obeys = { λ e n f told.
        rw told.1
        (layered_obeys (E.Exclusion.meaning e.lower) (E.Exclusion.meaning f.lower) e.patience (grace_choice e.grace) n
        (E.Exclusion.obeys e.lower n f.lower told.2)) };

    ghost says = { λ e cpu armed place v answer.
        rw answer.2
        (layered_says (E.Exclusion.meaning e.lower) e.patience cpu armed place answer.0 (E.Exclusion.says e.lower cpu armed place answer.0 answer.1)) };

    fn section(&self, d: usize) -> Section {
        self.lower.section(d)
    }

    fn entered(&mut self, cpu: usize, d: usize) {
        self.lower.entered(cpu, d);
        self.patience.set(cpu, self.grace);
    }

    fn stepped(&mut self, cpu: usize) {
        self.lower.stepped(cpu);
        self.patience.step(cpu);
    }

    fn left(&mut self, cpu: usize) {
        self.lower.left(cpu);
        self.patience.set(cpu, 0);
    }

    fn disturbed(&self, standing: Standing) -> Verdict {
        held_while(
            self.patience.at(standing.cpu),
            self.lower.disturbed(standing),
        )
    }
}
