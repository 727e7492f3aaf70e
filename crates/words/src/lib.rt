//! The words of a text, and the operations whose routines they make.
#![tactic(auto)]

ghost use Rattle.words.specs.Words.{code, DecodesWord, FindsKind, kind_name, kind_number, kinds, section_words};
ghost use Rattle.std.specs.Prelude.{◌≡◌, ◌++◌, Some, codes};
ghost use Rattle.std.specs.Fmt.{decimal};

use std::error::Error;
use std::fmt;

/// An instruction of a text. The number is the one that stands for it in the text.
///
/// Instructions work on the registers q, a, b and w of a thread, on its hand, which holds a node or nothing, and on the
/// structures of CPU q: counters, a list of nodes, and a ring of packets. "Ends with" says that the operation is over, with
/// that answer.
#[derive(Clone, Copy, PartialEq, Eq, Debug)]
pub enum Word {
    /// The entry of a routine: its descriptor is armed, which marks the thread as being in that routine, and its section
    /// begins.
    Enter = 1,
    /// Register q becomes the number of the CPU.
    ReadCpu = 2,
    /// Register a becomes the counter.
    LoadCounter = 3,
    /// The amount is added to register a.
    AddAmount = 4,
    /// The counter becomes register a: Done.
    StoreCounter = 5,
    /// Ends with No node where the hand is empty.
    NeedNode = 6,
    /// Ends with Hand full where the hand is not empty.
    NeedEmptyHand = 7,
    /// Register a becomes the list's head.
    LoadListHead = 8,
    /// The next word of the hand's node becomes register a.
    LinkNode = 9,
    /// The list's head becomes the hand's node, and the hand empties: Done.
    PushNode = 10,
    /// Ends with None where register a is 0.
    NeedListed = 11,
    /// Register b becomes the next word of node a.
    LoadNext = 12,
    /// The list's head becomes register b, and node a goes into the hand: Got.
    PopNode = 13,
    /// Register a becomes the ring's tail.
    LoadTail = 14,
    /// Register b becomes the ring's head.
    LoadRingHead = 15,
    /// Ends with Full where the tail would meet the head.
    NeedRoom = 16,
    /// Slot a becomes the amount.
    StorePacket = 17,
    /// The ring's tail goes on by one slot: Done.
    AdvanceTail = 18,
    /// Ends with None where head and tail meet.
    NeedPacket = 19,
    /// Register w becomes slot b.
    LoadPacket = 20,
    /// The ring's head goes on by one slot: Got.
    AdvanceRingHead = 21,
    /// The abort of a routine: it starts over at its entry.
    Restart = 22,
}

impl Word {
    // stays: a method over the enum's own numbers: `word.number()` reads plainer than `u32::from(word)`, and is one cast
    /// The number that stands for the word in a text.
    pub fn number(self) -> u32
        ensures numbered { result ≡ code self }
    {
        self as u32
    }
}

// stays: an error of its own, as of a kind and of an exclusion: each says what it is that has no such number
/// A number that stands for no word.
#[derive(Clone, Copy, PartialEq, Eq, Debug)]
pub struct NoSuchWord(pub u32);

/// The word that a number of a text stands for.
impl TryFrom<u32> for Word {
    type Error = NoSuchWord;

    ghost try_from_gives = { DecodesWord };

    fn try_from(number: u32) -> Result<Self, NoSuchWord> {
        match number {
            1 => Ok(Word::Enter),
            2 => Ok(Word::ReadCpu),
            3 => Ok(Word::LoadCounter),
            4 => Ok(Word::AddAmount),
            5 => Ok(Word::StoreCounter),
            6 => Ok(Word::NeedNode),
            7 => Ok(Word::NeedEmptyHand),
            8 => Ok(Word::LoadListHead),
            9 => Ok(Word::LinkNode),
            10 => Ok(Word::PushNode),
            11 => Ok(Word::NeedListed),
            12 => Ok(Word::LoadNext),
            13 => Ok(Word::PopNode),
            14 => Ok(Word::LoadTail),
            15 => Ok(Word::LoadRingHead),
            16 => Ok(Word::NeedRoom),
            17 => Ok(Word::StorePacket),
            18 => Ok(Word::AdvanceTail),
            19 => Ok(Word::NeedPacket),
            20 => Ok(Word::LoadPacket),
            21 => Ok(Word::AdvanceRingHead),
            22 => Ok(Word::Restart),
            _ => Err(NoSuchWord(number)),
        }
    }
}

/// What is wrong, with the number.
impl fmt::Display for NoSuchWord {
    ghost output = { λ e. Some (codes "no word has the number " ++ decimal e.0) };

    fn fmt<W: fmt::Write>(&self, f: &mut fmt::Formatter<W>) -> fmt::Result {
        write!(f, "no word has the number {}", self.0)
    }
}

impl Error for NoSuchWord {}

/// An operation by what it does to the structures of a CPU. The number is that of its descriptor.
#[derive(Clone, Copy, PartialEq, Eq, Debug)]
pub enum Kind {
    /// Adds an amount to a counter.
    Add = 1,
    /// Puts the node in hand on the list.
    Push = 2,
    /// Takes the first node of the list into the hand.
    Pop = 3,
    /// Puts an amount at the back of the ring.
    Put = 4,
    /// Takes the amount at the front of the ring.
    Take = 5,
}

impl Kind {
    /// All operations, in the order of their numbers.
    pub fn all() -> &'static [Kind]
        ensures listed { result.now ≡ kinds }
    {
        &[Kind::Add, Kind::Push, Kind::Pop, Kind::Put, Kind::Take]
    }

    // stays: as with the number of a word; a trait for both would be longer than the casts, which give different types
    /// The number of the operation and of its descriptor.
    pub fn number(self) -> usize
        ensures numbered { result ≡ kind_number self }
    {
        self as usize
    }

    /// The words of the operation's section.
    pub fn section_words(self) -> &'static [Word]
        ensures listed { result.now ≡ section_words self }
    {
        match self {
            Kind::Add => &[
                Word::ReadCpu,
                Word::LoadCounter,
                Word::AddAmount,
                Word::StoreCounter,
            ],
            Kind::Push => &[
                Word::ReadCpu,
                Word::NeedNode,
                Word::LoadListHead,
                Word::LinkNode,
                Word::PushNode,
            ],
            Kind::Pop => &[
                Word::ReadCpu,
                Word::NeedEmptyHand,
                Word::LoadListHead,
                Word::NeedListed,
                Word::LoadNext,
                Word::PopNode,
            ],
            Kind::Put => &[
                Word::ReadCpu,
                Word::LoadTail,
                Word::LoadRingHead,
                Word::NeedRoom,
                Word::StorePacket,
                Word::AdvanceTail,
            ],
            Kind::Take => &[
                Word::ReadCpu,
                Word::LoadRingHead,
                Word::LoadTail,
                Word::NeedPacket,
                Word::LoadPacket,
                Word::AdvanceRingHead,
            ],
        }
    }
}

/// A number that no operation has.
#[derive(Clone, Copy, PartialEq, Eq, Debug)]
pub struct NoSuchKind(pub u64);

/// The operation with a number.
impl TryFrom<u64> for Kind {
    type Error = NoSuchKind;

    ghost try_from_gives = { FindsKind };

    fn try_from(number: u64) -> Result<Self, NoSuchKind> {
        match number {
            1 => Ok(Kind::Add),
            2 => Ok(Kind::Push),
            3 => Ok(Kind::Pop),
            4 => Ok(Kind::Put),
            5 => Ok(Kind::Take),
            _ => Err(NoSuchKind(number)),
        }
    }
}

/// What the operation is called.
impl fmt::Display for Kind {
    ghost output = { λ kind. Some (kind_name kind) };

    fn fmt<W: fmt::Write>(&self, f: &mut fmt::Formatter<W>) -> fmt::Result {
        f.write_str(match self {
            Kind::Add => "add",
            Kind::Push => "push",
            Kind::Pop => "pop",
            Kind::Put => "put",
            Kind::Take => "take",
        })
    }
}

/// What is wrong, with the number.
impl fmt::Display for NoSuchKind {
    ghost output = { λ e. Some (codes "no operation has the number " ++ decimal e.0) };

    fn fmt<W: fmt::Write>(&self, f: &mut fmt::Formatter<W>) -> fmt::Result {
        write!(f, "no operation has the number {}", self.0)
    }
}

impl Error for NoSuchKind {}
