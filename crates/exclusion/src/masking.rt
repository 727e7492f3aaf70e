//! Masking: rollback that lets a disturber wait for the end of the section.
ghost use Rattle.std.specs.Prelude.{◌≡◌, ℕ, replicate, refl};
ghost use Rattle.exclusion.specs.Ours.{impatient, masking_choice, rolls_back};
ghost use Rattle.exclusion.specs.Parts.{counted, held_while, layered, patience_at};
ghost use Rattle.image.specs.Layout.{sections_of};
ghost use Rattle.exclusion.specs.Layers.{Masked};
ghost use Rattle.exclusion.specs.Counting.{impatient_obeys, layered_obeys, layered_says};
ghost use Rattle.exclusion.specs.Walking.{rollback_says};
ghost use Rattle.std.proofs.Common.{rules};

use super::meaning::{Exclusion, Standing, Verdict};
use super::parts::{Patience, held_while};
use super::rollback::AddressRollback;
use image::layout::Section;
use std::marker::Model;

// stays: apart from grace, which has the reason beside it
/// Masking: rollback that chooses as patience the instructions that are left in the section.
#[derive(Clone, Copy)]
pub struct Masking {
    rollback: AddressRollback,
    patience: Patience,
}

impl Model for Masking {
    ghost Value = { Masked };

    ghost view = { λ masking. record { sections = masking.rollback; patience = masking.patience } };

    ghost inverse = { λ masked. record { rollback = masked.sections; patience = masked.patience } };
}

impl Masking {
    /// Made from a table of any bytes, with no patience.
    pub fn new(table: &[u8]) -> Masking
        ensures made_from_the_table { result.sections ≡ sections_of table.now }
        ensures without_patience { result.patience ≡ replicate 8 0 }
    {
        Masking {
            rollback: AddressRollback::new(table),
            patience: Patience::none(),
        }
    }
}

impl Exclusion for Masking {
    ghost meaning = { λ e. layered (impatient e.sections) e.patience };

    ghost told = { λ e n f. (f.sections ≡ e.sections) × (f.patience ≡ counted (masking_choice e.sections) e.patience n) };

    ghost answers = { λ e cpu armed place v. v ≡ held_while (patience_at e.patience cpu) (rolls_back e.sections place) };

    ghost shaped = { Prim.search rules };

    ghost obeys = { λ e n f told.
        let sections = e.sections in
        let made = layered_obeys (impatient sections) (impatient sections) e.patience (masking_choice sections) n (impatient_obeys sections n) in
        rw (told.0, told.1) made };

    ghost says = { λ e cpu armed place v answer.
        let sections = e.sections in
        rw answer (layered_says (impatient sections) e.patience cpu armed place (rolls_back sections place) (rollback_says sections cpu armed place (rolls_back sections place) refl)) };

    fn section(&self, d: usize) -> Section {
        self.rollback.section(d)
    }

    fn entered(&mut self, cpu: usize, d: usize) {
        let instructions = self.rollback.section(d).length / 4;
        let choice = instructions.saturating_sub(1).min(255);
        self.patience.set(cpu, choice as u8);
    }

    fn stepped(&mut self, cpu: usize) {
        self.patience.step(cpu);
    }

    fn left(&mut self, cpu: usize) {
        self.patience.set(cpu, 0);
    }

    fn disturbed(&self, standing: Standing) -> Verdict {
        held_while(
            self.patience.at(standing.cpu),
            self.rollback.disturbed(standing),
        )
    }
}
