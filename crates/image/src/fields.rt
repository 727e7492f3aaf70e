//! The numbers of a job and their limits.
ghost use Rattle.std.specs.Prelude.{◌≡◌, ◌≤◌, [], ◌∷◌, IfOk, Some, false};
ghost use Rattle.std.specs.Range.{range_inclusive_end, range_inclusive_exhausted, range_inclusive_start};
ghost use Rattle.image.specs.Names.{field_name};
ghost use Rattle.image.specs.Checks.{field_check, field_place, first_failing, largest, least};

use faults::{Fault, Refusal};
use std::fmt;
use std::ops::RangeInclusive;

/// The sizes of a job: its CPUs, its threads, its nodes, the packets that a ring holds and the counters on a CPU.
#[derive(Clone, Copy, PartialEq, Eq, Debug)]
pub struct Sizes {
    pub cpus: u64,
    pub threads: u64,
    pub nodes: u64,
    pub packets: u64,
    pub counters: u64,
}

/// A number of a job. Its own number is the place by which a refusal names it.
#[derive(Clone, Copy, PartialEq, Eq, Debug)]
pub enum Field {
    /// Which exclusion the job asks for.
    Exclusion = 1,
    /// The least patience of a section that was entered.
    Grace = 2,
    /// The number of CPUs.
    Cpus = 3,
    /// The number of threads.
    Threads = 4,
    /// The number of nodes.
    Nodes = 5,
    /// How many packets a ring holds.
    Packets = 6,
    /// The counters on a CPU.
    Counters = 7,
    /// The word that stands before every abort.
    Signature = 8,
    /// A word of the text.
    TextWord = 9,
}

impl Field {
    // stays: the enum's own number: `field.place()` says what it is for, and is one cast
    /// The place by which a refusal names the field.
    fn place(self) -> usize
        ensures placed { result ≡ field_place self }
    {
        self as usize
    }

    /// The numbers that the field may have.
    fn limits(self) -> RangeInclusive<u64>
        ensures from_the_least { range_inclusive_start result ≡ least self }
        ensures to_the_largest { range_inclusive_end result ≡ largest self }
        ensures whole { range_inclusive_exhausted result ≡ false }
    {
        match self {
            Field::Exclusion => 0..=2,
            Field::Grace => 0..=255,
            Field::Cpus => 1..=8,
            Field::Threads => 1..=16,
            Field::Nodes => 0..=255,
            Field::Packets => 1..=15,
            Field::Counters => 1..=8,
            Field::Signature | Field::TextWord => 0..=4294967295,
        }
    }

    /// The number, if the field may have it.
    pub fn accept(self, n: u64) -> Result<u64, Fault>
        ensures defined { result ≡ first_failing n (field_check self n ∷ []) }
        ensures within_limits { IfOk result (λ m. (m ≡ n) × (least self ≤ n) × (n ≤ largest self)) }
    {
        if self.limits().contains(&n) {
            Ok(n)
        } else {
            Err(Fault::at(Refusal::OutOfRange, self.place()))
        }
    }
}

/// Writes the field's name.
impl fmt::Display for Field {
    ghost output = { λ field. Some (field_name field) };

    fn fmt<W: fmt::Write>(&self, f: &mut fmt::Formatter<W>) -> fmt::Result {
        f.write_str(match self {
            Field::Exclusion => "exclusion",
            Field::Grace => "grace",
            Field::Cpus => "cpus",
            Field::Threads => "threads",
            Field::Nodes => "nodes",
            Field::Packets => "packets",
            Field::Counters => "counters",
            Field::Signature => "signature",
            Field::TextWord => "word",
        })
    }
}
