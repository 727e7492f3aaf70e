//! Disturbing a thread: it is taken off its CPU, or interrupted by a signal.
ghost use Rattle.std.specs.Prelude.{◌≡◌, ℕ, ◌<◌, IfErr};
ghost use Rattle.faults.specs.Numbering.{fault_at};
ghost use Rattle.faults.specs.declared.Refusal.TheVariants.{Held};
ghost use Rattle.machine.specs.Promises.{outcome};
ghost use Rattle.model.specs.Calls.{Disturbs, DisturbsCurrent};
ghost use Rattle.model.specs.State.{cpu_at, thread_at};

use crate::works::Works;
use exclusion::meaning::{Exclusion, Standing, Verdict};
use exclusion::sections::section_at;
use faults::{Fault, Refusal};
use model::state::Frame;

impl<E: Exclusion> Works<E> {
    /// Asks the exclusion what becomes of a thread on a CPU, and does it. Where the call is held, nothing has changed.
    pub fn disturb(&mut self, cpu: usize, t: usize) -> Result<(), Fault>
        requires { t < 16 }
        ensures asked { Disturbs E.Exclusion.told E.Exclusion.answers (self.old.core, self.old.exclusion) cpu t (outcome result self.new.core) }
        ensures depth_stays { (thread_at self.new.core t).depth ≡ (thread_at self.old.core t).depth }
        ensures held_changes_nothing { IfErr result (λ fault. (fault ≡ fault_at Held 0) × (self.new.core ≡ self.old.core)) }
        ensures exclusion_stays { self.new.exclusion ≡ self.old.exclusion }
    {
        let thread = self.core.threads[t];
        if thread.depth == 0 {
            return Ok(());
        }
        let frame = thread.top();
        let armed_section = section_at(&self.core.image.sections, frame.armed);
        let standing = Standing {
            cpu,
            armed: frame.armed,
            place: frame.place,
        };
        let frame = match self.exclusion.disturbed(standing) {
            Verdict::Outside => Frame { armed: 0, ..frame },
            Verdict::Held => return Err(Fault::at(Refusal::Held, 0)),
            Verdict::Back(place) => {
                let armed = if place == armed_section.start {
                    frame.armed
                } else {
                    0
                };
                Frame {
                    place,
                    armed,
                    ..frame
                }
            }
        };
        self.core.threads[t].set_top(frame);
        Ok(())
    }

    /// Disturbs whatever thread a CPU has. Where the call is held, nothing has changed.
    pub fn disturb_current(&mut self, cpu: usize) -> Result<(), Fault>
        requires { cpu < 8 }
        ensures asked { DisturbsCurrent E.Exclusion.told E.Exclusion.answers (self.old.core, self.old.exclusion) cpu (cpu_at self.old.core cpu).current (outcome result self.new.core) }
        ensures held_changes_nothing { IfErr result (λ fault. (fault ≡ fault_at Held 0) × (self.new.core ≡ self.old.core)) }
        ensures exclusion_stays { self.new.exclusion ≡ self.old.exclusion }
    {
        match self.core.cpus[cpu].current {
            Some(t) => self.disturb(cpu, t),
            None => Ok(()),
        }
    }
}
