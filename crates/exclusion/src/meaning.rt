//! What every exclusion has to be.
ghost use Rattle.std.specs.Prelude.{◌≡◌, ℕ};
ghost use Rattle.exclusion.specs.Meaning.{Meaning, Obeys, Says, Shaped};
ghost use Rattle.exclusion.specs.declared.meaning.Notice.TheVariants.{Entered, Left, Stepped};
ghost use Rattle.exclusion.specs.declared.meaning.Notice.{Notice};
ghost use Rattle.exclusion.specs.declared.meaning.Verdict.{Verdict};

use image::layout::Section;

/// What an exclusion says of a thread that is disturbed at a place.
#[derive(Clone, Copy, PartialEq, Eq, Debug)]
pub enum Verdict {
    /// The place is in no section: the thread may be taken away as it is.
    Outside,
    /// The disturber has to wait.
    Held,
    /// The thread goes on at this address when it runs again.
    Back(u64),
}

// stays: a section is a number, since any number can be told; a type of the five would ask more of who tells
/// What an exclusion is told.
#[derive(Clone, Copy, PartialEq, Eq, Debug)]
pub enum Notice {
    /// A CPU's thread has entered section d: told after the section's first instruction.
    Entered { cpu: usize, d: usize },
    /// It has gone on by one instruction of its section: told after each later one that does not end the operation.
    Stepped { cpu: usize },
    /// It has left its section, or the CPU: told when the operation ends, when the thread is taken away or interrupted, and for
    /// CPUs 0 to 7 when a machine is booted.
    Left { cpu: usize },
}

// stays: `armed` is a number, since an exclusion is asked about any number; a type of the five would ask more of who asks
/// Where a thread stands that is to be disturbed: its CPU, the number of the armed descriptor, 0 if none is, and its place. A
/// descriptor is armed from the entry of its routine until its section ends.
#[derive(Clone, Copy, PartialEq, Eq, Debug)]
pub struct Standing {
    pub cpu: usize,
    pub armed: usize,
    pub place: u64,
}

/// An exclusion: a set of restartable sections, and a way to keep each of them from being disturbed halfway. The machine
/// tells it where threads are in their sections, and asks it before it disturbs one.
pub trait Exclusion {
    /// The sections and the patience of each CPU.
    ghost meaning: { Self → Meaning };

    /// What this implementation makes of being told something: before, what it was told, after.
    ghost told: { Self → Notice → Self → Type 0 };

    /// What this implementation answers of a thread that is disturbed: CPU, armed descriptor, place, answer.
    ghost answers: { Self → ℕ → ℕ → ℕ → Verdict → Type 0 };

    // stays: a number, here and in `entered`, since an exclusion is asked about any; a type of the five would ask more of who asks
    /// Section d, or zeros if d is not 1 to 5.
    fn section(&self, d: usize) -> Section
        ensures of_the_meaning { result ≡ (meaning self.now).section d };

    // stays: `entered`, `stepped` and `left` have no empty default; tried, and the proof didn't close, as a default is proved for all at once
    /// A thread on a CPU has entered section d.
    fn entered(&mut self, cpu: usize, d: usize)
        ensures told_so { told self.old (Entered cpu d) self.new };

    /// The thread has gone on by one instruction of its section.
    fn stepped(&mut self, cpu: usize)
        ensures told_so { told self.old (Stepped cpu) self.new };

    /// The thread has left its section, or the CPU.
    fn left(&mut self, cpu: usize)
        ensures told_so { told self.old (Left cpu) self.new };

    /// What becomes of a thread that is disturbed where it stands.
    fn disturbed(&self, standing: Standing) -> Verdict
        ensures as_it_answers { answers self.now standing.cpu standing.armed standing.place result };

    ghost shaped: { (e : Self) → Shaped (meaning e) };

    ghost obeys: { (e : Self) (n : Notice) (f : Self) → told e n f → Obeys (meaning e) n (meaning f) };

    ghost says: { (e : Self) (cpu armed place : ℕ) (v : Verdict) → answers e cpu armed place v → Says (meaning e) cpu armed place v };
}

// stays: one match on what is told, whose arms are the methods that the trait has
/// Tells an exclusion one thing.
pub fn tell<E: Exclusion>(exclusion: &mut E, notice: Notice)
    ensures told_so { E.Exclusion.told exclusion.old notice exclusion.new }
{
    match notice {
        Notice::Entered { cpu, d } => exclusion.entered(cpu, d),
        Notice::Stepped { cpu } => exclusion.stepped(cpu),
        Notice::Left { cpu } => exclusion.left(cpu),
    }
}
