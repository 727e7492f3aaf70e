//! What is asked of a machine: the operation that is meant, the CPU that has a thread, and the items of the structures.
ghost use Rattle.std.specs.Prelude.{◌≡◌, ◌≤◌};
ghost use Rattle.model.specs.Calls.{operation_of};
ghost use Rattle.model.specs.Questions.{counter_told, hand_told, list_item_told, ring_item_told};
ghost use Rattle.lives.specs.Apart.{cpu_among};
ghost use Rattle.machine.specs.Promises.{IndexBelow, Walks};

use crate::perform::{behind, read};
use crate::works::Works;
use calls::RawOperation;
use exclusion::meaning::Exclusion;
use faults::{Fault, Refusal};
use image::fields::Sizes;
use model::state::{Cpu, Operation};
use words::Kind;

/// The operation that three numbers ask for, if there is one: what it does not take must be 0, and a counter must be one that
/// a CPU has.
pub fn operation_of(sizes: Sizes, raw: RawOperation) -> Option<Operation>
    ensures { result ≡ operation_of sizes raw }
{
    let bare = raw.counter == 0 && raw.amount == 0;
    match Kind::try_from(raw.kind).ok()? {
        Kind::Add if raw.counter < sizes.counters => Some(Operation::Add {
            counter: raw.counter,
            amount: raw.amount,
        }),
        Kind::Push if bare => Some(Operation::Push),
        Kind::Pop if bare => Some(Operation::Pop),
        Kind::Put if raw.counter == 0 => Some(Operation::Put { amount: raw.amount }),
        Kind::Take if bare => Some(Operation::Take),
        _ => None,
    }
}

/// A number as an index, where it is below a limit; else the refusal.
pub fn index_below(n: u64, limit: u64, refusal: Refusal) -> Result<usize, Fault>
    ensures { IndexBelow n limit refusal result }
{
    if n < limit {
        Ok(n as usize)
    } else {
        Err(Fault::at(refusal, 0))
    }
}

/// The CPU on which thread t is current, if it is on one: the first of the eight that has it.
pub fn cpu_of(cpus: &[Cpu; 8], t: usize) -> Option<usize>
    ensures { result ≡ cpu_among cpus.now 0 t }
{
    cpus.iter().position(|cpu| cpu.current == Some(t))
}

/// Where one is after so many steps from a place on, or none where the end is met on the way.
fn reached<Ends: Fn(u64) -> bool, Onward: Fn(u64) -> u64>(
    ends: Ends,
    onward: Onward,
    first: u64,
    steps: u64,
) -> Option<u64>
    requires ends_is_asked { Ends.IsAlwaysCallable ends }
    requires onward_is_asked { Onward.IsAlwaysCallable onward }
    ensures { Walks (λ place answer. Ends.post ends place answer) (λ place next. Onward.post onward place next) first steps result }
{
    let mut place = first;
    for _ in 0..steps {
        if ends(place) {
            return None;
        }
        place = onward(place);
    }
    if ends(place) { None } else { Some(place) }
}

impl<E: Exclusion> Works<E> {
    /// What a counter of a CPU stands at.
    pub fn counter(&self, cpu: u64, counter: u64) -> Result<u64, Fault>
        ensures { result ≡ counter_told self.now.core cpu counter }
    {
        let cpu = self.cpu_index(cpu)?;
        index_below(counter, self.core.sizes.counters, Refusal::NoOperation)?;
        Ok(read(&self.core.cpus[cpu].counters, counter))
    }

    /// The node in a thread's hand, if there is one.
    pub fn hand(&self, thread: u64) -> Result<Option<u64>, Fault>
        ensures { result ≡ hand_told self.now.core thread }
    {
        let thread = self.thread_index(thread)?;
        // stays: a rule of the project, that a hand is taken apart wherever its node is used or told
        match self.core.threads[thread].hand {
            Some(node) => Ok(Some(node)),
            None => Ok(None),
        }
    }

    /// The node at a position of a CPU's list, or none where the list ends before it.
    pub fn list_item(&self, cpu: u64, position: u64) -> Result<Option<u64>, Fault>
        ensures { result ≡ list_item_told self.now.core cpu position }
    {
        let cpu = self.cpu_index(cpu)?;
        let head = self.core.cpus[cpu].list;
        Ok(reached(
            |node| node == 0,
            |node| read(&self.core.next, node),
            head,
            position,
        ))
    }

    /// The packet at a position of a CPU's ring, or none where the ring ends before it.
    pub fn ring_item(&self, cpu: u64, position: u64) -> Result<Option<u64>, Fault>
        ensures { result ≡ ring_item_told self.now.core cpu position }
    {
        let cpu = self.cpu_index(cpu)?;
        let ring = &self.core.cpus[cpu];
        let packets = self.core.sizes.packets;
        let slot = reached(
            |slot| slot == ring.tail,
            |slot| behind(slot, packets),
            ring.head,
            position,
        );
        Ok(slot.map(|slot| read(&ring.slots, slot)))
    }
}
