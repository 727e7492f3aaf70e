//! Refusals: why something was refused, and where.
#![tactic(auto)]

ghost use Rattle.faults.specs.declared.Refusal.{Refusal};
ghost use Rattle.faults.specs.Numbering.{Apart, boot_fault, cause_text, fault_at, fault_text, layer_name, layer_of, meaning, number_of};
ghost use Rattle.std.specs.Prelude.{◌≡◌, Some};

use std::error::Error;
use std::fmt;

/// Why something was refused. Each case has one number, given here and nowhere else.
#[derive(Clone, Copy, PartialEq, Eq, Debug)]
pub enum Refusal {
    /// A number of the job lies outside its limits.
    OutOfRange = 1,
    /// The descriptor table or the text has a length that it may not have.
    ImageLength = 2,
    /// A descriptor's version is not 0.
    Version = 3,
    /// A descriptor's flags are not 0.
    Flags = 4,
    /// A descriptor's start, end or abort is 2^32 or more.
    Unaddressable = 5,
    /// A descriptor's abort lies inside its own section.
    AbortInside = 6,
    /// The word before a descriptor's abort is not the job's signature.
    Unsigned = 7,
    /// The words of a descriptor's routine are not those of its operation.
    WrongWords = 8,
    /// The exclusion's sections are not those of the table.
    OtherSections = 9,
    /// There is no such CPU.
    NoCpu = 10,
    /// There is no such thread.
    NoThread = 11,
    /// There is no such operation.
    NoOperation = 12,
    /// The thread has an operation already.
    Busy = 13,
    /// The thread's stack is full.
    StackFull = 14,
    /// The thread is current on a CPU.
    Current = 15,
    /// The CPU has no thread.
    Idle = 16,
    /// The CPU's thread has no operation.
    NoWork = 17,
    /// The call is held: the exclusion lets the thread go on first.
    Held = 18,
    /// A buffer has too little room.
    NoRoom = 19,
    /// The schedule ends inside a number, the table, a job or a call, or is too long.
    EndsInside = 20,
    /// A number is not in its one spelling.
    WrongSpelling = 21,
    /// A letter that begins no job or no call.
    UnknownLetter = 22,
    /// The schedule's job was refused.
    BootRefused = 23,
}

/// The part of the stepping machine that refused.
#[derive(Clone, Copy, PartialEq, Eq, Debug)]
pub enum Layer {
    /// The checks of a descriptor.
    Descriptor,
    /// The reading and writing of schedules.
    Schedule,
    /// Boot and the calls.
    Machine,
}

/// A fault inside another: the refusal of boot that a schedule's fault tells of.
#[derive(Clone, Copy, PartialEq, Eq, Debug)]
pub struct Cause {
    pub refusal: Refusal,
    pub place: usize,
}

// stays: refusal and place are asked of every fault; an enum with the cause in one variant would need a method over its cases for each
/// One refusal: which, at which place, and, where a schedule is refused because boot refused its job, boot's own fault.
/// What a place counts (a field of the header, a byte of the table, a byte of the schedule) goes by the refusal; it is 0
/// where the refusal has none.
#[derive(Clone, Copy, PartialEq, Eq, Debug)]
pub struct Fault {
    pub refusal: Refusal,
    pub place: usize,
    pub inner: Option<Cause>,
}

impl Refusal {
    // stays: a method over the enum's own numbers: `refusal.number()` reads plainer than `u8::from(refusal)`, and is one cast
    /// The number under which the refusal is known.
    pub fn number(self) -> u8
        ensures numbered { result ≡ number_of self }
    {
        self as u8
    }

    /// The part that refuses so.
    pub fn layer(self) -> Layer
        ensures layered { result ≡ layer_of self }
    {
        match self {
            Refusal::Version
            | Refusal::Flags
            | Refusal::Unaddressable
            | Refusal::AbortInside
            | Refusal::Unsigned
            | Refusal::WrongWords => Layer::Descriptor,
            Refusal::NoRoom
            | Refusal::EndsInside
            | Refusal::WrongSpelling
            | Refusal::UnknownLetter
            | Refusal::BootRefused => Layer::Schedule,
            _ => Layer::Machine,
        }
    }
}

/// What the refusal means, in words.
impl fmt::Display for Refusal {
    ghost output = { λ refusal. Some (meaning refusal) };

    fn fmt<W: fmt::Write>(&self, f: &mut fmt::Formatter<W>) -> fmt::Result {
        f.write_str(match self {
            Refusal::OutOfRange => "a number of the job lies outside its limits",
            Refusal::ImageLength =>
                "the descriptor table or the text has a length that it may not have",
            Refusal::Version => "a descriptor's version is not 0",
            Refusal::Flags => "a descriptor's flags are not 0",
            Refusal::Unaddressable => "a descriptor's start, end or abort is 2^32 or more",
            Refusal::AbortInside => "a descriptor's abort lies inside its own section",
            Refusal::Unsigned => "the word before a descriptor's abort is not the signature",
            Refusal::WrongWords => "the text does not have the words of a descriptor's routine",
            Refusal::OtherSections => "the exclusion's sections are not those of the table",
            Refusal::NoCpu => "there is no such CPU",
            Refusal::NoThread => "there is no such thread",
            Refusal::NoOperation => "there is no such operation",
            Refusal::Busy => "the thread has an operation already",
            Refusal::StackFull => "the thread's stack is full",
            Refusal::Current => "the thread is current on a CPU",
            Refusal::Idle => "the CPU has no thread",
            Refusal::NoWork => "the CPU's thread has no operation",
            Refusal::Held => "the exclusion holds the disturber",
            Refusal::NoRoom => "a buffer has too little room",
            Refusal::EndsInside => "the schedule ends inside a part of it, or is too long",
            Refusal::WrongSpelling => "a number is not in its one spelling",
            Refusal::UnknownLetter => "no job and no call begins with this letter",
            Refusal::BootRefused => "the job is refused",
        })
    }
}

/// What the layer is called.
impl fmt::Display for Layer {
    ghost output = { λ layer. Some (layer_name layer) };

    fn fmt<W: fmt::Write>(&self, f: &mut fmt::Formatter<W>) -> fmt::Result {
        f.write_str(match self {
            Layer::Descriptor => "descriptor",
            Layer::Schedule => "schedule",
            Layer::Machine => "machine",
        })
    }
}

impl Fault {
    /// A refusal at a place.
    pub fn at(refusal: Refusal, place: usize) -> Fault
        ensures placed { result ≡ fault_at refusal place }
    {
        Fault {
            refusal,
            place,
            inner: None,
        }
    }

    /// A schedule's refusal at a place because boot refused its job with the fault `boot`.
    pub fn by_boot(place: usize, boot: Fault) -> Fault
        ensures placed { result ≡ boot_fault place boot }
    {
        let cause = Cause {
            refusal: boot.refusal,
            place: boot.place,
        };
        Fault {
            refusal: Refusal::BootRefused,
            place,
            inner: Some(cause),
        }
    }
}

/// The refusal with its layer and its place, and what it means.
impl fmt::Display for Cause {
    ghost output = { λ cause. Some (cause_text cause) };

    fn fmt<W: fmt::Write>(&self, f: &mut fmt::Formatter<W>) -> fmt::Result {
        let refusal = self.refusal;
        let number = refusal.number();
        let layer = refusal.layer();
        let place = self.place;
        write!(f, "refusal {number} of the {layer} at {place}: {refusal}")
    }
}

/// The number of the refusal, and its place.
impl fmt::Display for Fault {
    ghost output = { λ fault. Some (fault_text fault) };

    fn fmt<W: fmt::Write>(&self, f: &mut fmt::Formatter<W>) -> fmt::Result {
        let number = self.refusal.number();
        let place = self.place;
        write!(f, "{number} {place}")
    }
}

impl Error for Fault {}

/// The law of the numbers: no two refusals share one.
pub fn numbering_law()
    ensures no_two_refusals_share_a_number { (refusal : Refusal) → Apart refusal }
{}
