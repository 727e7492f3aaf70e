//! Where words and records lie.
ghost use Rattle.std.specs.Prelude.{◌≡◌, ℕ, ◌+◌, ◌-◌, ◌<◌, ◌≤◌, Decides, EachIndex, MatchOption, slice_index};
ghost use Rattle.image.specs.Layout.{Inside, LiesAt, descriptor_of, inside, record_offset, section_of, sections_of, word_at};

use std::array;
use words::Kind;

/// A restartable section: the address of its first word, its length in bytes, and the address to which a thread that is
/// disturbed inside may be sent.
#[derive(Clone, Copy, PartialEq, Eq, Debug)]
pub struct Section {
    pub start: u64,
    pub length: u64,
    pub abort: u64,
}

/// A record of the descriptor table.
#[derive(Clone, Copy, PartialEq, Eq, Debug)]
pub struct Descriptor {
    pub version: u32,
    pub flags: u32,
    pub section: Section,
}

/// The address of a text's first word.
pub const TEXT_START: u64 = 4096;

/// The word that lies at an address of the text, if one does.
pub fn word_at(text: &[u32], address: u64) -> Option<u32>
    ensures defined { result ≡ word_at text.now address }
    ensures the_word_that_lies_there { MatchOption result ((word : ℕ) → LiesAt text.now address word → ⊥) (λ word. LiesAt text.now address word) }
{
    if address < TEXT_START || address % 4 != 0 {
        return None;
    }
    text.get(((address - TEXT_START) / 4) as usize).copied()
}

impl Section {
    /// The address of the routine's entry, right before the section; 0 where there is none before it.
    pub fn entry(self) -> u64
        ensures defined { result ≡ self.start - 4 }
    {
        self.start.saturating_sub(4)
    }

    /// Whether an address lies in the section. Its end is a whole number, which may be 2^64 or more.
    pub fn contains(self, address: u64) -> bool
        ensures defined { result ≡ inside self address }
        ensures true_exactly_inside { Decides result (Inside self address) }
    {
        self.start <= address && address - self.start < self.length
    }

    /// The section of an operation's descriptor in a table of any length, whose missing bytes count as 0.
    // Set into its callers, which mostly know how long the table is, so that its bytes are read at once.
    #[inline(always)]
    #[tactic(auto, using(crate::proofs::Bytes::of_eight), unfolding(crate::specs::Layout::section_of))]
    pub fn of(table: &[u8], kind: Kind) -> Section
        ensures defined { result ≡ section_of table.now kind }
    {
        let at = record_offset(kind);
        Section {
            start: u64::from_le_bytes(bytes_at(table, at + 8)),
            length: u64::from_le_bytes(bytes_at(table, at + 16)),
            abort: u64::from_le_bytes(bytes_at(table, at + 24)),
        }
    }
}

/// The sections that a table of any length tells, that of descriptor 1 first. Its first 160 bytes count, and missing ones
/// as 0.
pub fn sections(table: &[u8]) -> [Section; 5]
    ensures defined { result ≡ sections_of table.now }
{
    // stays: the kinds one by one: `map` over an array of them is a loop of its own, with which a check of an image took half as long again
    [
        Section::of(table, Kind::Add),
        Section::of(table, Kind::Push),
        Section::of(table, Kind::Pop),
        Section::of(table, Kind::Put),
        Section::of(table, Kind::Take),
    ]
}

impl Descriptor {
    /// An operation's descriptor in a table of any length, whose missing bytes count as 0.
    #[tactic(auto, using(crate::proofs::Bytes::of_four), unfolding(crate::specs::Layout::descriptor_of))]
    pub fn of(table: &[u8], kind: Kind) -> Descriptor
        ensures defined { result ≡ descriptor_of table.now kind }
    {
        let at = record_offset(kind);
        Descriptor {
            version: u32::from_le_bytes(bytes_at(table, at)),
            flags: u32::from_le_bytes(bytes_at(table, at + 4)),
            section: Section::of(table, kind),
        }
    }
}

/// The offset of an operation's descriptor in the table.
pub(crate) fn record_offset(kind: Kind) -> usize
    ensures defined { result ≡ record_offset kind }
{
    32 * (kind.number() - 1)
}

/// The bytes of a table from a place on, of which missing ones are 0.
#[inline(always)]
fn bytes_at<const N: usize>(table: &[u8], at: usize) -> [u8; N]
    ensures defined { EachIndex result (λ k. slice_index result k ≡ slice_index table.now (at + k)) }
{
    let rest = table.get(at..).unwrap_or(&[]);
    match rest.first_chunk() {
        Some(all) => *all,
        None => array::from_fn(|k| rest.get(k).copied().unwrap_or(0)),
    }
}
