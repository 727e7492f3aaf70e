//! The works of a machine: its calls as their rules define them, over a state that is kept sound.
ghost use Rattle.std.specs.Prelude.{◌≡◌, ℕ, ◌<◌, ◌≤◌};
ghost use Rattle.calls.specs.declared.Call.TheVariants.{Advance, Enlist, Idle, Run, Signal, Switch};
ghost use Rattle.lives.specs.Apart.{given_thread, with_frame};
ghost use Rattle.faults.specs.declared.Refusal.TheVariants.{NoCpu, NoThread};
ghost use Rattle.machine.specs.Promises.{CanBegin, CanChange, Changes, IndexBelow, Interrupts, Working, accept_answer, advance_answer, begin_checks, idle_checks, run_answer, switch_checks};
ghost use Rattle.machine.specs.Sound.{Sound};
ghost use Rattle.model.specs.Calls.{Stopped, Performs, Runs, Step, ToldIf};
ghost use Rattle.model.specs.State.{thread_at};
ghost use Rattle.std.specs.Option.{unwrap_or};

use crate::asking::{cpu_of, index_below, operation_of};
use crate::perform::{section_of, step};
use calls::RawOperation;
use exclusion::meaning::{Exclusion, Notice, tell};
use faults::{Fault, Refusal};
use model::state::{Core, Frame, Operation, Settling};

/// The state of a machine and its exclusion, which it tells and asks as its rules say. It keeps itself sound: what it uses as
/// an index is within its arrays.
#[derive(Drop)]
pub struct Works<E: Exclusion> {
    pub core: Core,
    pub exclusion: E,
    ghost sound: { Sound core },
}

/// Tells an exclusion what an instruction did, if there is something to tell.
fn tell_if<E: Exclusion>(exclusion: &mut E, notice: Option<Notice>)
    ensures told_so { ToldIf E.Exclusion.told E.Exclusion.answers exclusion.old notice exclusion.new }
{
    if let Some(notice) = notice {
        tell(exclusion, notice);
    }
}

impl<E: Exclusion> Works<E> {
    // stays: apart from `thread_index`, one call each; it says which size is the limit and which the refusal
    /// The index of a CPU that the machine has; or the refusal.
    pub fn cpu_index(&self, cpu: u64) -> Result<usize, Fault>
        ensures { IndexBelow cpu self.now.core.sizes.cpus NoCpu result }
    {
        index_below(cpu, self.core.sizes.cpus, Refusal::NoCpu)
    }

    /// The index of a thread that the machine has; or the refusal.
    pub fn thread_index(&self, thread: u64) -> Result<usize, Fault>
        ensures { IndexBelow thread self.now.core.sizes.threads NoThread result }
    {
        index_below(thread, self.core.sizes.threads, Refusal::NoThread)
    }

    /// The thread that a CPU has, with an operation to do; or the refusal.
    fn working(&self, cpu: u64) -> Result<usize, Fault>
        ensures checked { Working self.now.core cpu result }
    {
        let cpu = self.cpu_index(cpu)?;
        let Some(t) = self.core.cpus[cpu].current else {
            return Err(Fault::at(Refusal::Idle, 0));
        };
        if self.core.threads[t].depth == 0 {
            return Err(Fault::at(Refusal::NoWork, 0));
        }
        Ok(t)
    }

    /// The operation that a call may begin on a thread's stack, as far as it does not go by the exclusion; or the refusal, which is
    /// `full` for a stack of `room` frames or more.
    fn can_begin(
        &self,
        thread: u64,
        raw: RawOperation,
        room: usize,
        full: Refusal,
    ) -> Result<Operation, Fault>
        requires { room ≤ 8 }
        ensures checked { CanBegin (begin_checks self.now.core thread raw room full) self.now.core thread raw result }
    {
        let t = self.thread_index(thread)?;
        let Some(operation) = operation_of(self.core.sizes, raw) else {
            return Err(Fault::at(Refusal::NoOperation, 0));
        };
        if self.core.threads[t].depth >= room {
            return Err(Fault::at(full, 0));
        }
        Ok(operation)
    }

    /// Whether a switch may be tried; or the refusal.
    fn can_switch(&self, cpu: u64, thread: u64) -> Result<(), Fault>
        ensures checked { CanChange (switch_checks self.now.core cpu thread) self.now.core cpu result }
    {
        self.cpu_index(cpu)?;
        self.thread_index(thread)?;
        if cpu_of(&self.core.cpus, thread as usize).is_some() {
            return Err(Fault::at(Refusal::Current, 0));
        }
        Ok(())
    }

    /// Whether idle may be tried; or the refusal.
    fn can_idle(&self, cpu: u64) -> Result<(), Fault>
        ensures checked { CanChange (idle_checks self.now.core cpu) self.now.core cpu result }
    {
        let cpu = self.cpu_index(cpu)?;
        if self.core.cpus[cpu].current.is_none() {
            return Err(Fault::at(Refusal::Idle, 0));
        }
        Ok(())
    }

    // stays: a CPU and its thread are two numbers with their bounds asked for, here and in the parts below; a type for the pair would be
    // taken apart at each use
    /// One instruction of a thread on a CPU, of which the exclusion is told.
    fn perform_one(&mut self, cpu: usize, t: usize) -> Option<Settling>
        requires { (cpu < 8) × (t < 16) }
        ensures performs { Performs E.Exclusion.told E.Exclusion.answers (self.old.core, self.old.exclusion) cpu t result (self.new.core, self.new.exclusion) }
    {
        let ran = step(&mut self.core, cpu, t);
        tell_if(&mut self.exclusion, ran.notice);
        ran.settling
    }

    /// Performs one instruction of a CPU's thread: the settling, or none.
    pub fn run(&mut self, cpu: u64) -> Result<Option<Settling>, Fault>
        ensures does { Step E.Exclusion.told E.Exclusion.answers (self.old.core, self.old.exclusion) (Run cpu) (run_answer result) (self.new.core, self.new.exclusion) }
    {
        let t = self.working(cpu)?;
        Ok(self.perform_one(cpu as usize, t))
    }

    /// Gives a thread with an empty stack an operation.
    pub fn enlist(&mut self, thread: u64, raw: RawOperation) -> Result<(), Fault>
        ensures does { Step E.Exclusion.told E.Exclusion.answers (self.old.core, self.old.exclusion) (Enlist thread raw) (accept_answer result) (self.new.core, self.new.exclusion) }
    {
        let operation = self.can_begin(thread, raw, 1, Refusal::Busy)?;
        self.add_frame(thread as usize, operation);
        Ok(())
    }

    /// Disturbs the thread that a CPU has, if it has one, and gives the CPU another, or none.
    fn change(&mut self, cpu: usize, thread: Option<usize>) -> Result<(), Fault>
        requires { (cpu < 8) × (unwrap_or thread 0 < 16) }
        ensures changes { Changes E.Exclusion.told E.Exclusion.answers (self.old.core, self.old.exclusion) cpu thread (accept_answer result) (self.new.core, self.new.exclusion) }
    {
        self.disturb_current(cpu)?;
        self.exclusion.left(cpu);
        self.give_thread(cpu, thread);
        Ok(())
    }

    /// Takes a CPU's thread off it and puts the named one on it.
    pub fn switch(&mut self, cpu: u64, thread: u64) -> Result<(), Fault>
        ensures does { Step E.Exclusion.told E.Exclusion.answers (self.old.core, self.old.exclusion) (Switch cpu thread) (accept_answer result) (self.new.core, self.new.exclusion) }
    {
        self.can_switch(cpu, thread)?;
        self.change(cpu as usize, Some(thread as usize))
    }

    /// Takes a CPU's thread off it.
    pub fn idle(&mut self, cpu: u64) -> Result<(), Fault>
        ensures does { Step E.Exclusion.told E.Exclusion.answers (self.old.core, self.old.exclusion) (Idle cpu) (accept_answer result) (self.new.core, self.new.exclusion) }
    {
        self.can_idle(cpu)?;
        self.change(cpu as usize, None)
    }

    /// Disturbs a thread that a CPU has, and puts an operation on top.
    fn interrupt(&mut self, cpu: usize, t: usize, operation: Operation) -> Result<(), Fault>
        requires { (t < 16) × ((thread_at self.old.core t).depth < 8) }
        ensures interrupts { Interrupts E.Exclusion.told E.Exclusion.answers (self.old.core, self.old.exclusion) cpu t operation (accept_answer result) (self.new.core, self.new.exclusion) }
    {
        self.disturb(cpu, t)?;
        self.exclusion.left(cpu);
        self.add_frame(t, operation);
        Ok(())
    }

    /// Interrupts a thread by an operation that it has to do first.
    pub fn signal(&mut self, thread: u64, raw: RawOperation) -> Result<(), Fault>
        ensures does { Step E.Exclusion.told E.Exclusion.answers (self.old.core, self.old.exclusion) (Signal thread raw) (accept_answer result) (self.new.core, self.new.exclusion) }
    {
        let operation = self.can_begin(thread, raw, 8, Refusal::StackFull)?;
        let t = thread as usize;
        let Some(cpu) = cpu_of(&self.core.cpus, t) else {
            self.add_frame(t, operation);
            return Ok(());
        };
        self.interrupt(cpu, t, operation)
    }

    /// Instructions of a thread on a CPU, until so many are done or one has settled.
    fn perform_many(&mut self, cpu: usize, t: usize, instructions: u64) -> (u64, Option<Settling>)
        requires { (cpu < 8) × (t < 16) }
        ensures stopped { Stopped E.Exclusion.told E.Exclusion.answers instructions result.0 result.1 }
        ensures runs { Runs E.Exclusion.told E.Exclusion.answers cpu t result.0 result.1 (self.old.core, self.old.exclusion) (self.new.core, self.new.exclusion) }
    {
        for done in 0..instructions {
            let settling = self.perform_one(cpu, t);
            if settling.is_some() {
                return (done + 1, settling);
            }
        }
        (instructions, None)
    }

    /// Performs instructions until so many are done or an operation has settled: how many, and the settling or none.
    pub fn advance(&mut self, cpu: u64, instructions: u64) -> Result<(u64, Option<Settling>), Fault>
        ensures does { Step E.Exclusion.told E.Exclusion.answers (self.old.core, self.old.exclusion) (Advance cpu instructions) (advance_answer result) (self.new.core, self.new.exclusion) }
    {
        let t = self.working(cpu)?;
        Ok(self.perform_many(cpu as usize, t, instructions))
    }

    // stays: that the exclusion stays is a clause of four parts; a part over the state alone would not keep it sound
    /// Puts a frame that begins an operation on a thread's stack.
    fn add_frame(&mut self, t: usize, operation: Operation)
        requires { (t < 16) × ((thread_at self.old.core t).depth < 8) }
        ensures defined { self.new.core ≡ with_frame t operation self.old.core }
        ensures exclusion_stays { self.new.exclusion ≡ self.old.exclusion }
    {
        let place = section_of(&self.core.image, operation).entry();
        self.core.threads[t].push(Frame {
            operation,
            place,
            armed: 0,
        });
    }

    /// Gives a CPU a thread, or none.
    fn give_thread(&mut self, cpu: usize, thread: Option<usize>)
        requires { (cpu < 8) × (unwrap_or thread 0 < 16) }
        ensures defined { self.new.core ≡ given_thread cpu thread self.old.core }
        ensures exclusion_stays { self.new.exclusion ≡ self.old.exclusion }
    {
        self.core.cpus[cpu].current = thread;
    }
}
