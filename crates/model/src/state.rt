//! The state of a machine, in plain structs and fixed arrays.
ghost use Rattle.std.specs.Prelude.{◌≡◌, nat_lt, if◌then◌else◌};
ghost use Rattle.model.specs.State.{dropped, kind_of_operation, pushed, top_frame, with_top};

use image::fields::Sizes;
use image::layout::Section;
use image::text::Text;
use words::Kind;

/// An operation that a thread does: what it is, with its operands.
#[derive(Clone, Copy)]
pub enum Operation {
    /// Adds an amount to a counter of the CPU.
    Add { counter: u64, amount: u64 },
    /// Puts the node in hand on the CPU's list.
    Push,
    /// Takes the first node of the CPU's list into the hand.
    Pop,
    /// Puts an amount at the back of the CPU's ring.
    Put { amount: u64 },
    /// Takes the amount at the front of the CPU's ring.
    Take,
}

impl Operation {
    /// What the operation does; its number is that of its descriptor.
    pub fn kind(self) -> Kind
        ensures defined { result ≡ kind_of_operation self }
    {
        match self {
            Operation::Add { .. } => Kind::Add,
            Operation::Push => Kind::Push,
            Operation::Pop => Kind::Pop,
            Operation::Put { .. } => Kind::Put,
            Operation::Take => Kind::Take,
        }
    }
}

// stays: `armed` is a number, 0 for none, as in the rules and in what an exclusion is asked; an option of a kind would be turned into it
/// A frame of a thread's stack: an operation, the place of its next instruction, and the number of the descriptor that is
/// armed, 0 if none is. The routine's entry arms its descriptor, which marks the frame as being in that routine's section; it
/// is disarmed when the thread is disturbed and not sent back to the section's start.
#[derive(Clone, Copy)]
pub struct Frame {
    pub operation: Operation,
    pub place: u64,
    pub armed: usize,
}

/// A frame that stands nowhere.
pub const NO_FRAME: Frame = Frame {
    operation: Operation::Add {
        counter: 0,
        amount: 0,
    },
    place: 0,
    armed: 0,
};

// stays: eight places with the depth beside, as a machine has no heap; a thread is copied, and a vector of fixed capacity is not `Copy`
/// A thread: its registers, its stack, of which the first `depth` frames count and the last of them is the top, and its
/// hand, which holds one node or none. A node is a free buffer, known by its number from 1 on.
#[derive(Clone, Copy)]
pub struct Thread {
    pub q: u64,
    pub a: u64,
    pub b: u64,
    pub w: u64,
    pub frames: [Frame; 8],
    pub depth: usize,
    pub hand: Option<u64>,
}

impl Thread {
    // stays: total, as the definition of a top frame is and as an instruction takes it; an option would be taken apart with this default
    /// The top frame of the stack. A stack with no frame has its first place for it, and one whose depth is past the end a frame
    /// that stands nowhere.
    pub fn top(&self) -> Frame
        ensures defined { result ≡ top_frame self.now }
    {
        self.frames
            .get(self.depth.saturating_sub(1))
            .copied()
            .unwrap_or(NO_FRAME)
    }

    // stays: tried with `get_mut`, and the proof didn't close: nothing says what a write through it leaves in the array
    /// Puts another frame in the place of the top one, unless the depth is past the end.
    pub fn set_top(&mut self, frame: Frame)
        ensures defined { self.new ≡ with_top self.old frame }
    {
        let top = self.depth.saturating_sub(1);
        if top < self.frames.len() {
            self.frames[top] = frame;
        }
    }

    /// Puts one more frame on the stack, if it has fewer than eight.
    pub fn push(&mut self, frame: Frame)
        ensures defined { self.new ≡ (if nat_lt self.old.depth 8 then pushed self.old frame else self.old) }
    {
        if self.depth < self.frames.len() {
            self.frames[self.depth] = frame;
            self.depth += 1;
        }
    }

    /// Takes the top frame off the stack, if it has one.
    pub fn drop_top(&mut self)
        ensures defined { self.new ≡ dropped self.old }
    {
        self.depth = self.depth.saturating_sub(1);
    }
}

// stays: `list` is a word of memory, 0 for no node, as registers and next words are; an option would be turned into one at each copy
// stays: arrays, as a machine has stated bounds and no heap
/// A CPU: its current thread, its counters, the head of its list of nodes (0 for none), and its ring of packets by head, tail and
/// slots. A packet is the amount that was put.
#[derive(Clone, Copy)]
pub struct Cpu {
    pub current: Option<usize>,
    pub counters: [u64; 8],
    pub list: u64,
    pub head: u64,
    pub tail: u64,
    pub slots: [u64; 16],
}

/// An accepted image: the five sections, and the text.
#[derive(Clone, Copy)]
pub struct Image {
    pub sections: [Section; 5],
    pub text: Text,
}

// stays: arrays, as a machine has stated bounds and no heap; next words are words of memory, 0 for none, as a list head is
/// A machine without its exclusion. Node n's next word stands at n.
#[derive(Clone, Copy)]
pub struct Core {
    pub sizes: Sizes,
    pub image: Image,
    pub cpus: [Cpu; 8],
    pub threads: [Thread; 16],
    pub next: [u64; 256],
}

/// The answer of an operation.
#[derive(Clone, Copy, PartialEq, Eq, Debug)]
pub enum Answer {
    /// 0: it is done.
    Done,
    /// 1: it got this.
    Got(u64),
    /// 2: there was none.
    Empty,
    /// 3: the ring is full.
    Full,
    /// 4: no node is in hand.
    NoNode,
    /// 5: a node is in hand.
    HandFull,
}

/// A settling: an operation of a thread came to its end on a CPU, with an answer.
#[derive(Clone, Copy)]
pub struct Settling {
    pub thread: usize,
    pub operation: Operation,
    pub cpu: usize,
    pub answer: Answer,
}
