//! Abort restart: the way of Linux.
ghost use Rattle.exclusion.specs.Ours.{abort_restarts, impatient};
ghost use Rattle.image.specs.Layout.{sections_of};
ghost use Rattle.std.specs.Prelude.{◌≡◌, List};
ghost use Rattle.image.specs.declared.layout.Section.{Section};
ghost use Rattle.std.proofs.Common.{rules};

use super::meaning::{Exclusion, Standing, Verdict};
use super::sections::section_at;
use image::layout::{Section, sections};
use std::marker::Model;

// stays: apart from rollback, which has the reason beside it
/// Abort restart, as Linux has it: looks only at the armed section and goes back to its abort.
#[derive(Clone, Copy)]
pub struct AbortRestart {
    sections: [Section; 5],
}

impl Model for AbortRestart {
    ghost Value = { List Section };

    ghost view = { λ exclusion. exclusion.sections };

    ghost inverse = { λ sections. record { sections = sections } };
}

impl AbortRestart {
    /// Made from a table of any bytes.
    pub fn new(table: &[u8]) -> AbortRestart
        ensures made_from_the_table { result ≡ sections_of table.now }
    {
        AbortRestart {
            sections: sections(table),
        }
    }
}

impl Exclusion for AbortRestart {
    ghost meaning = { impatient };

    ghost told = { λ e n f. f ≡ e };

    ghost answers = { λ e cpu armed place v. v ≡ abort_restarts e armed place };

    ghost shaped = { Prim.search rules };

    ghost obeys = { Prim.search rules };

    ghost says = { Prim.search rules };

    fn section(&self, d: usize) -> Section {
        section_at(&self.sections, d)
    }

    fn entered(&mut self, _cpu: usize, _d: usize) {}

    fn stepped(&mut self, _cpu: usize) {}

    fn left(&mut self, _cpu: usize) {}

    fn disturbed(&self, standing: Standing) -> Verdict {
        let section = section_at(&self.sections, standing.armed);
        if section.contains(standing.place) {
            Verdict::Back(section.abort)
        } else {
            Verdict::Outside
        }
    }
}
