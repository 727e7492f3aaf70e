//! The machine over an exclusion, with its calls.
ghost use Rattle.std.specs.Prelude.{◌≡◌, IfOk};
ghost use Rattle.calls.specs.declared.Call.TheVariants.{Advance, Enlist, Idle, Run, Signal, Switch};
ghost use Rattle.machine.specs.Promises.{BeginsFaithful, CounterOfTheLedger, HandOfTheLedger, ListItemOfTheLedger, RingItemOfTheLedger, StaysFaithful, accept_answer, advance_answer, run_answer};
ghost use Rattle.machine.specs.Sound.{Sound};
ghost use Rattle.model.specs.Calls.{Boots, Step};
ghost use Rattle.model.specs.Questions.{counter_told, hand_told, list_item_told, ring_item_told};
ghost use Rattle.model.specs.declared.state.Core.{Core};

use crate::boot::boot_parts;
use crate::works::Works;
use calls::RawOperation;
use exclusion::meaning::Exclusion;
use faults::Fault;
use image::checks::JobImage;
use model::state::Settling;
use std::marker::Model;

/// A machine over an exclusion.
#[derive(Drop)]
pub struct Machine<E: Exclusion> {
    works: Works<E>,
}

/// A machine is seen as its state beside that of its exclusion.
impl<E: Exclusion> Model for Machine<E> {
    ghost Value = { Core × E };

    ghost view = { λ m. (m.works.core, m.works.exclusion) };
}

impl<E: Exclusion + Drop> Machine<E> {
    /// Boots a machine over an exclusion: a new machine, or the fault of the first check that fails.
    pub fn boot(image: &JobImage, exclusion: E) -> Result<Machine<E>, Fault>
        ensures does { Boots E.Exclusion.told E.Exclusion.answers E.Exclusion.meaning image.now.sizes image.now.signature image.now.table.now image.now.text.now exclusion result }
        ensures faithful { IfOk result (λ m. BeginsFaithful E.Exclusion.meaning E.Exclusion.told E.Exclusion.answers image.now.sizes m) }
        ensures sound { IfOk result (λ m. Sound m.0) }
    {
        let mut exclusion = exclusion;
        let core = boot_parts(image, &mut exclusion)?;
        let works = Works { core, exclusion };
        Ok(Machine { works })
    }
}

// stays: each call passes on to the works, and adds what it promises of every past; with both promises on one body the proof did not close
impl<E: Exclusion> Machine<E> {
    /// Gives a thread without work an operation to do.
    pub fn enlist(&mut self, thread: u64, operation: RawOperation) -> Result<(), Fault>
        ensures does { Step E.Exclusion.told E.Exclusion.answers self.old (Enlist thread operation) (accept_answer result) self.new }
        ensures faithful { StaysFaithful E.Exclusion.meaning E.Exclusion.told E.Exclusion.answers self.old (Enlist thread operation) (accept_answer result) self.new }
        ensures was_sound { Sound self.old.0 }
        ensures stays_sound { Sound self.new.0 }
    {
        self.works.enlist(thread, operation)
    }

    /// Performs one instruction of the thread that a CPU has: the settling, or none.
    pub fn run(&mut self, cpu: u64) -> Result<Option<Settling>, Fault>
        ensures does { Step E.Exclusion.told E.Exclusion.answers self.old (Run cpu) (run_answer result) self.new }
        ensures faithful { StaysFaithful E.Exclusion.meaning E.Exclusion.told E.Exclusion.answers self.old (Run cpu) (run_answer result) self.new }
        ensures was_sound { Sound self.old.0 }
        ensures stays_sound { Sound self.new.0 }
    {
        self.works.run(cpu)
    }

    /// Performs instructions until so many are done or an operation has settled: how many were run, and the settling or none.
    pub fn advance(&mut self, cpu: u64, instructions: u64) -> Result<(u64, Option<Settling>), Fault>
        ensures does { Step E.Exclusion.told E.Exclusion.answers self.old (Advance cpu instructions) (advance_answer result) self.new }
        ensures faithful { StaysFaithful E.Exclusion.meaning E.Exclusion.told E.Exclusion.answers self.old (Advance cpu instructions) (advance_answer result) self.new }
        ensures was_sound { Sound self.old.0 }
        ensures stays_sound { Sound self.new.0 }
    {
        self.works.advance(cpu, instructions)
    }

    /// Takes a CPU's thread off it and puts the named one on it.
    pub fn switch(&mut self, cpu: u64, thread: u64) -> Result<(), Fault>
        ensures does { Step E.Exclusion.told E.Exclusion.answers self.old (Switch cpu thread) (accept_answer result) self.new }
        ensures faithful { StaysFaithful E.Exclusion.meaning E.Exclusion.told E.Exclusion.answers self.old (Switch cpu thread) (accept_answer result) self.new }
        ensures was_sound { Sound self.old.0 }
        ensures stays_sound { Sound self.new.0 }
    {
        self.works.switch(cpu, thread)
    }

    /// Takes a CPU's thread off it.
    pub fn idle(&mut self, cpu: u64) -> Result<(), Fault>
        ensures does { Step E.Exclusion.told E.Exclusion.answers self.old (Idle cpu) (accept_answer result) self.new }
        ensures faithful { StaysFaithful E.Exclusion.meaning E.Exclusion.told E.Exclusion.answers self.old (Idle cpu) (accept_answer result) self.new }
        ensures was_sound { Sound self.old.0 }
        ensures stays_sound { Sound self.new.0 }
    {
        self.works.idle(cpu)
    }

    /// Interrupts a thread by an operation that it has to do first.
    pub fn signal(&mut self, thread: u64, operation: RawOperation) -> Result<(), Fault>
        ensures does { Step E.Exclusion.told E.Exclusion.answers self.old (Signal thread operation) (accept_answer result) self.new }
        ensures faithful { StaysFaithful E.Exclusion.meaning E.Exclusion.told E.Exclusion.answers self.old (Signal thread operation) (accept_answer result) self.new }
        ensures was_sound { Sound self.old.0 }
        ensures stays_sound { Sound self.new.0 }
    {
        self.works.signal(thread, operation)
    }

    /// What a counter of a CPU stands at.
    pub fn counter(&self, cpu: u64, counter: u64) -> Result<u64, Fault>
        ensures defined { result ≡ counter_told self.now.0 cpu counter }
        ensures as_the_ledger_holds { CounterOfTheLedger E.Exclusion.meaning E.Exclusion.told E.Exclusion.answers self.now cpu counter result }
        ensures sound { Sound self.now.0 }
    {
        self.works.counter(cpu, counter)
    }

    /// The node in a thread's hand, or none.
    pub fn hand(&self, thread: u64) -> Result<Option<u64>, Fault>
        ensures defined { result ≡ hand_told self.now.0 thread }
        ensures as_the_ledger_holds { HandOfTheLedger E.Exclusion.meaning E.Exclusion.told E.Exclusion.answers self.now thread result }
        ensures sound { Sound self.now.0 }
    {
        self.works.hand(thread)
    }

    /// The node at a position of a CPU's list, counted from 0, or none behind the end.
    pub fn list_item(&self, cpu: u64, position: u64) -> Result<Option<u64>, Fault>
        ensures defined { result ≡ list_item_told self.now.0 cpu position }
        ensures as_the_ledger_holds { ListItemOfTheLedger E.Exclusion.meaning E.Exclusion.told E.Exclusion.answers self.now cpu position result }
        ensures sound { Sound self.now.0 }
    {
        self.works.list_item(cpu, position)
    }

    /// The packet at a position of a CPU's ring, counted from 0, or none behind the end.
    pub fn ring_item(&self, cpu: u64, position: u64) -> Result<Option<u64>, Fault>
        ensures defined { result ≡ ring_item_told self.now.0 cpu position }
        ensures as_the_ledger_holds { RingItemOfTheLedger E.Exclusion.meaning E.Exclusion.told E.Exclusion.answers self.now cpu position result }
        ensures sound { Sound self.now.0 }
    {
        self.works.ring_item(cpu, position)
    }
}
