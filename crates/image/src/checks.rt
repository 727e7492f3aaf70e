//! The checks of an image.
ghost use Rattle.std.specs.Prelude.{◌≡◌, ℕ, ◌+◌, ◌*◌, ◌^◌, ◌<◌, ◌≤◌, [], ◌∷◌, length, IfOk};
ghost use Rattle.image.specs.Checks.{all_descriptor_checks, all_pass, checked_image, descriptor_checks, first_failing, has_routine, has_words, image_checks, is_word, size_checks, table_check, text_check};
ghost use Rattle.image.specs.Accepted.{AcceptedExactly, FirstThatFails, LaidOutIfAccepted};
ghost use Rattle.image.specs.Layout.{descriptor_of, section_of, word_at, sections_of};
ghost use Rattle.words.specs.Words.{code, kinds, section_words};

use super::fields::{Field, Sizes};
use super::layout::{Descriptor, Section, record_offset, sections, word_at};
use faults::{Fault, Refusal};
use words::{Kind, Word};

/// Addresses of a section are below this.
const ADDRESS_LIMIT: u64 = 4294967296;

/// The bytes of a descriptor table.
pub const TABLE_LENGTH: usize = 160;

/// The most words of a text.
pub const TEXT_LENGTH: usize = 256;

/// Whether the number lies at an address of the text.
fn has_number(text: &[u32], address: u64, number: u32) -> bool
    ensures defined { result ≡ is_word (word_at text.now address) number }
{
    word_at(text, address) == Some(number)
}

// stays: tried as `all` over the numbered words, and the proof didn't close
/// Whether the words lie in the text, one after the other from an address on.
#[tactic(auto, using(crate::proofs::Standing::next_word, crate::proofs::Standing::wrong_word, crate::proofs::Standing::no_more_words))]
fn has_words(text: &[u32], start: u64, words: &[Word]) -> bool
    requires { (start < 2 ^ 32) × (length words.now ≤ 16) }
    ensures defined { result ≡ has_words text.now start words.now }
{
    for (i, word) in words.iter().enumerate() {
        if !has_number(text, start + 4 * i as u64, word.number()) {
            return false;
        }
    }
    true
}

/// Whether the routine of an operation lies in the text, with its section at `section`.
#[tactic(auto, unfolding(crate::specs::Checks::has_routine))]
fn has_routine(text: &[u32], kind: Kind, section: Section) -> bool
    requires { section.start < 2 ^ 32 }
    ensures defined { result ≡ has_routine text.now kind section }
{
    let words = kind.section_words();
    section.length == 4 * words.len() as u64
        && has_number(text, section.entry(), Word::Enter.number())
        && has_words(text, section.start, words)
        && has_number(text, section.abort, Word::Restart.number())
}

/// Checks the sizes of a job.
fn check_sizes(sizes: &Sizes) -> Result<(), Fault>
    ensures defined { result ≡ all_pass (size_checks sizes.now) }
{
    Field::Cpus.accept(sizes.cpus)?;
    Field::Threads.accept(sizes.threads)?;
    Field::Nodes.accept(sizes.nodes)?;
    Field::Packets.accept(sizes.packets)?;
    Field::Counters.accept(sizes.counters)?;
    Ok(())
}

/// The number of words, if a text may have so many.
pub fn accept_text_length(words: u64) -> Result<u64, Fault>
    ensures defined { result ≡ first_failing words (text_check words ∷ []) }
    ensures within_limits { IfOk result (λ m. (m ≡ words) × (1 ≤ words) × (words ≤ 256)) }
{
    if words == 0 || words > TEXT_LENGTH as u64 {
        return Err(Fault::at(Refusal::ImageLength, 1));
    }
    Ok(words)
}

/// The image of a job as it is offered to boot: any sizes, table, text and signature.
#[derive(Clone, Copy)]
pub struct JobImage<'a> {
    pub sizes: Sizes,
    pub table: &'a [u8],
    pub text: &'a [u32],
    pub signature: u32,
}

impl JobImage<'_> {
    /// Checks the image: its five sections where every rule holds, and else the fault of the first rule that does not.
    #[tactic(auto, using(crate::proofs::Accepting::fails_first, crate::proofs::Accepting::fails_at))]
    pub fn check(&self) -> Result<[Section; 5], Fault>
        ensures defined { result ≡ checked_image self.now.sizes self.now.table.now self.now.text.now self.now.signature }
        ensures accepted_exactly_if_every_rule_holds { AcceptedExactly self.now.sizes self.now.table.now self.now.text.now self.now.signature result }
        ensures else_refused_by_the_first_that_fails { FirstThatFails (image_checks self.now.sizes self.now.table.now self.now.text.now self.now.signature) result }
        ensures accepted_sections_lie_apart { LaidOutIfAccepted self.now.table.now self.now.text.now result }
    {
        check_sizes(&self.sizes)?;
        if self.table.len() != TABLE_LENGTH {
            return Err(Fault::at(Refusal::ImageLength, 0));
        }
        accept_text_length(self.text.len() as u64)?;
        self.check_descriptors(Kind::all())?;
        Ok(sections(self.table))
    }

    /// Checks the descriptors of operations, in their order: the first fault, if there is one.
    #[tactic(auto, using(crate::proofs::Checking::next_descriptor, crate::proofs::Checking::no_more_descriptors))]
    fn check_descriptors(&self, kinds: &[Kind]) -> Result<(), Fault>
        ensures defined { result ≡ all_pass (all_descriptor_checks self.now.table.now self.now.text.now self.now.signature kinds.now) }
    {
        for kind in kinds {
            self.check_descriptor(*kind)?;
        }
        Ok(())
    }

    /// Checks one descriptor: the first of its faults, if it has one.
    fn check_descriptor(&self, kind: Kind) -> Result<(), Fault>
        ensures defined { result ≡ all_pass (descriptor_checks self.now.text.now self.now.signature kind (descriptor_of self.now.table.now kind)) }
    {
        let descriptor = Descriptor::of(self.table, kind);
        let section = descriptor.section;
        let at = record_offset(kind);
        if descriptor.version != 0 {
            return Err(Fault::at(Refusal::Version, at));
        }
        if descriptor.flags != 0 {
            return Err(Fault::at(Refusal::Flags, at + 4));
        }
        if section.start >= ADDRESS_LIMIT {
            return Err(Fault::at(Refusal::Unaddressable, at + 8));
        }
        if section.length >= ADDRESS_LIMIT - section.start {
            return Err(Fault::at(Refusal::Unaddressable, at + 16));
        }
        if section.abort >= ADDRESS_LIMIT {
            return Err(Fault::at(Refusal::Unaddressable, at + 24));
        }
        if section.contains(section.abort) {
            return Err(Fault::at(Refusal::AbortInside, at + 24));
        }
        if !has_number(self.text, section.abort.saturating_sub(4), self.signature) {
            return Err(Fault::at(Refusal::Unsigned, at + 24));
        }
        if !has_routine(self.text, kind, section) {
            return Err(Fault::at(Refusal::WrongWords, at + 16));
        }
        Ok(())
    }
}
