//! Address rollback: the first restartable sequences.
ghost use Rattle.exclusion.specs.Ours.{impatient, rolls_back};
ghost use Rattle.image.specs.Layout.{sections_of};
ghost use Rattle.std.specs.Prelude.{◌≡◌, List};
ghost use Rattle.image.specs.declared.layout.Section.{Section};
ghost use Rattle.exclusion.specs.Walking.{rollback_says};
ghost use Rattle.std.proofs.Common.{rules};

use super::meaning::{Exclusion, Standing, Verdict};
use super::sections::{holding, section_at};
use image::layout::{Section, sections};
use std::marker::Model;

// stays: apart from abort restart, which has another rule; one type over both needs a type for each rule, and is no plainer
/// Address rollback, the oldest way: looks at all sections and goes back to the start of the one that the place is inside, the
/// first if it is inside several.
#[derive(Clone, Copy)]
pub struct AddressRollback {
    sections: [Section; 5],
}

impl Model for AddressRollback {
    ghost Value = { List Section };

    ghost view = { λ exclusion. exclusion.sections };

    ghost inverse = { λ sections. record { sections = sections } };
}

impl AddressRollback {
    /// Made from a table of any bytes.
    pub fn new(table: &[u8]) -> AddressRollback
        ensures made_from_the_table { result ≡ sections_of table.now }
    {
        AddressRollback {
            sections: sections(table),
        }
    }
}

impl Exclusion for AddressRollback {
    ghost meaning = { impatient };

    ghost told = { λ e n f. f ≡ e };

    ghost answers = { λ e cpu armed place v. v ≡ rolls_back e place };

    ghost shaped = { Prim.search rules };

    ghost obeys = { Prim.search rules };

    ghost says = { λ e cpu armed place v answer. rollback_says e cpu armed place v answer };

    fn section(&self, d: usize) -> Section {
        section_at(&self.sections, d)
    }

    fn entered(&mut self, _cpu: usize, _d: usize) {}

    fn stepped(&mut self, _cpu: usize) {}

    fn left(&mut self, _cpu: usize) {}

    fn disturbed(&self, standing: Standing) -> Verdict {
        match holding(&self.sections, standing.place) {
            Some(section) => Verdict::Back(section.start),
            None => Verdict::Outside,
        }
    }
}
