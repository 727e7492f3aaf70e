//! One instruction.
ghost use Rattle.std.specs.Prelude.{◌≡◌, ℕ, ◌+◌, ◌%◌, ◌<◌, ◌≤◌, slice_index, slice_set};
ghost use Rattle.model.specs.State.{thread_at, top_frame};
ghost use Rattle.model.specs.Words.{notice_here, performed};
ghost use Rattle.words.specs.Words.{kind_number};
ghost use Rattle.lives.specs.Apart.{section_of_operation, does_here, word_here};

use exclusion::meaning::Notice;
use exclusion::sections::section_at;
use image::layout::{Section, word_at};
use model::state::{Answer, Core, Cpu, Frame, Image, Operation, Settling, Thread};
use words::{Kind, Word};

/// A word of a list by its index, and 0 past the end.
pub fn read(words: &[u64], i: u64) -> u64
    ensures { result ≡ slice_index words.now i }
{
    words.get(i as usize).copied().unwrap_or(0)
}

// stays: tried with `get_mut`, and the proof didn't close: nothing says what a write through it leaves in the list
/// Writes a word of a list, and nothing past the end.
fn write(words: &mut [u64], i: u64, word: u64)
    ensures { words.new ≡ slice_set words.old i word }
{
    if i < words.len() as u64 {
        words[i as usize] = word;
    }
}

/// The slot behind a slot of a ring of so many packets.
pub fn behind(slot: u64, packets: u64) -> u64
    ensures { result ≡ (slot + 1) % (packets + 1) }
{
    ((slot as u128 + 1) % (packets as u128 + 1)) as u64
}

/// The word at a place of an image's text.
fn word_here(image: &Image, place: u64) -> Option<Word>
    ensures { result ≡ word_here image.now place }
{
    let number = word_at(image.text.words(), place)?;
    Word::try_from(number).ok()
}

/// The section of an operation's routine.
pub fn section_of(image: &Image, operation: Operation) -> Section
    ensures { result ≡ section_of_operation image.now operation }
{
    section_at(&image.sections, operation.kind().number())
}

// stays: one match on word and operation, a rule of the project; a closure for each word would take the same six things and hide which it uses
/// Performs the word at the top frame's place, for its operation, on the CPU with the number `here` and with the structures
/// of CPU q. A word that neither settles nor jumps goes on to the next place.
pub fn perform(
    thread: &mut Thread,
    cpu: &mut Cpu,
    next: &mut [u64; 256],
    here: u64,
    image: &Image,
    packets: u64,
) -> Option<Answer>
    ensures { record { thread = thread.new; cpu = cpu.new; next = next.new; answer = result } ≡ does_here packets image.now here thread.old cpu.old next.old (top_frame thread.old).operation (word_here image.now (top_frame thread.old).place) }
{
    let frame = thread.top();
    let answer = match (word_here(image, frame.place), frame.operation) {
        (Some(Word::Enter), operation) => {
            let place = section_of(image, operation).start;
            let armed = operation.kind().number();
            thread.set_top(Frame {
                operation,
                place,
                armed,
            });
            return None;
        }
        (Some(Word::ReadCpu), _) => {
            thread.q = here;
            None
        }
        (Some(Word::LoadCounter), Operation::Add { counter, .. }) => {
            thread.a = read(&cpu.counters, counter);
            None
        }
        (Some(Word::AddAmount), Operation::Add { amount, .. }) => {
            thread.a = thread.a.wrapping_add(amount);
            None
        }
        (Some(Word::StoreCounter), Operation::Add { counter, .. }) => {
            write(&mut cpu.counters, counter, thread.a);
            Some(Answer::Done)
        }
        (Some(Word::NeedNode), _) => thread.hand.is_none().then_some(Answer::NoNode),
        (Some(Word::NeedEmptyHand), _) => thread.hand.is_some().then_some(Answer::HandFull),
        (Some(Word::LoadListHead), _) => {
            thread.a = cpu.list;
            None
        }
        (Some(Word::LinkNode), _) => {
            if let Some(node) = thread.hand {
                write(next, node, thread.a);
            }
            None
        }
        // stays: a rule of the project, that a hand is taken apart wherever its node is used or told
        (Some(Word::PushNode), _) => match thread.hand {
            Some(node) => {
                cpu.list = node;
                thread.hand = None;
                Some(Answer::Done)
            }
            None => None,
        },
        (Some(Word::NeedListed), _) => (thread.a == 0).then_some(Answer::Empty),
        (Some(Word::LoadNext), _) => {
            thread.b = read(next, thread.a);
            None
        }
        (Some(Word::PopNode), _) => {
            cpu.list = thread.b;
            thread.hand = Some(thread.a);
            Some(Answer::Got(thread.a))
        }
        (Some(Word::LoadTail), _) => {
            thread.a = cpu.tail;
            None
        }
        (Some(Word::LoadRingHead), _) => {
            thread.b = cpu.head;
            None
        }
        (Some(Word::NeedRoom), _) => {
            (behind(thread.a, packets) == thread.b).then_some(Answer::Full)
        }
        (Some(Word::StorePacket), Operation::Put { amount }) => {
            write(&mut cpu.slots, thread.a, amount);
            None
        }
        (Some(Word::AdvanceTail), _) => {
            cpu.tail = behind(thread.a, packets);
            Some(Answer::Done)
        }
        (Some(Word::NeedPacket), _) => (thread.a == thread.b).then_some(Answer::Empty),
        (Some(Word::LoadPacket), _) => {
            thread.w = read(&cpu.slots, thread.b);
            None
        }
        (Some(Word::AdvanceRingHead), _) => {
            cpu.head = behind(thread.b, packets);
            Some(Answer::Got(thread.w))
        }
        (Some(Word::Restart), operation) => {
            let place = section_of(image, operation).entry();
            thread.set_top(Frame { place, ..frame });
            return None;
        }
        _ => None,
    };
    match answer {
        None => thread.set_top(Frame {
            place: frame.place.wrapping_add(4),
            ..frame
        }),
        Some(_) => thread.drop_top(),
    }
    answer
}

/// What one instruction did beside changing the machine: what the exclusion is to be told, and the settling, if it settled.
#[derive(Clone, Copy)]
pub struct Ran {
    pub notice: Option<Notice>,
    pub settling: Option<Settling>,
}

/// What the exclusion is told after a word.
fn notice_of(cpu: usize, kind: Kind, answer: Option<Answer>, word: Option<Word>) -> Option<Notice>
    ensures { result ≡ notice_here cpu (kind_number kind) answer word }
{
    match (word, answer) {
        (None | Some(Word::Enter | Word::Restart), _) => None,
        (Some(Word::ReadCpu), _) => Some(Notice::Entered {
            cpu,
            d: kind.number(),
        }),
        (Some(_), None) => Some(Notice::Stepped { cpu }),
        (Some(_), Some(_)) => Some(Notice::Left { cpu }),
    }
}

/// One instruction of a thread on a CPU.
pub fn step(core: &mut Core, cpu: usize, t: usize) -> Ran
    requires { (t < 16) × ((thread_at core.old t).q < 8) }
    ensures { record { core = core.new; notice = result.notice; settling = result.settling } ≡ performed core.old cpu t }
{
    let thread = core.threads[t];
    let q = thread.q as usize;
    let frame = thread.top();
    let operation = frame.operation;
    let word = word_here(&core.image, frame.place);
    let answer = perform(
        &mut core.threads[t],
        &mut core.cpus[q],
        &mut core.next,
        cpu as u64,
        &core.image,
        core.sizes.packets,
    );
    Ran {
        notice: notice_of(cpu, operation.kind(), answer, word),
        settling: answer.map(|answer| Settling {
            thread: t,
            operation,
            cpu,
            answer,
        }),
    }
}
