//! Seven-bit numbers: groups of seven bits, the lowest first, the top bit set on all bytes but the last. A number is below
//! 2^64 and has one spelling, the shortest.
#![tactic(auto)]

ghost use Rattle.std.specs.Prelude.{◌≡◌, ℕ, ◌≤◌, length};
ghost use Rattle.numbers.specs.Laws.{OneNumber, OneSpelling, ReaderAnswersWhatIsSpelled, ReadsBack, WrittenAlone, WrittenSpells};
ghost use Rattle.numbers.specs.Reading.{Written};
ghost use Rattle.numbers.specs.Spelling.{spelling};

pub mod reader;

use faults::{Fault, Refusal};

/// How many bytes spell `n`: one for each seven bits up to its highest.
fn spelled_length(n: u64) -> usize
    ensures defined { result ≡ length (spelling n) }
    ensures within_ten { (1 ≤ result) × (result ≤ 10) }
{
    n.max(1).ilog2() as usize / 7 + 1
}

/// Writes `n` at the front of `out` and tells how many bytes that took; where it does not fit, nothing is written.
pub fn write_number(out: &mut [u8], n: u64) -> Result<usize, Fault>
    ensures spelled_or_untouched { Written out.old n out.new result }
{
    let length = spelled_length(n);
    if out.len() < length {
        return Err(Fault::at(Refusal::NoRoom, 0));
    }
    let mut rest = n;
    for group in &mut out[..length - 1] {
        *group = 128 + (rest % 128) as u8;
        rest /= 128;
    }
    out[length - 1] = rest as u8;
    Ok(length)
}

/// The laws of the spelling. What a reader answers is what is spelled there. What is written spells its number and is read back from wherever it stands; a number has one
/// spelling and a spelling one number.
pub fn spelling_laws()
    ensures the_reader_answers_what_is_spelled { ReaderAnswersWhatIsSpelled }
    ensures what_is_written_spells_the_number { WrittenSpells }
    ensures what_is_written_is_read_back { ReadsBack }
    ensures every_spelling_is_the_written_one { WrittenAlone }
    ensures two_spellings_of_a_number_are_equal { OneSpelling }
    ensures a_spelling_stands_for_one_number { OneNumber }
{}
