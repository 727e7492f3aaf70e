//! Reading numbers one after the other.
ghost use Rattle.std.specs.Prelude.{◌≡◌, ℕ, ◌+◌, ◌<◌, ◌≤◌, length, slice_index, IfOk, IfErr, MatchOption};
ghost use Rattle.numbers.specs.Reading.{GoesOn, ReadsAs, StaysOnAFault, number_at};

use faults::{Fault, Refusal};

/// Reads bytes from the offset `at` on.
#[derive(Clone, Copy)]
pub struct Reader<'a> {
    pub bytes: &'a [u8],
    pub at: usize,
}

impl Reader<'_> {
    /// The next byte, if there is one.
    pub fn byte(&mut self) -> Option<u8>
        ensures defined { MatchOption result (length self.old.bytes.now ≤ self.old.at) (λ byte. (self.old.at < length self.old.bytes.now) × (byte ≡ slice_index self.old.bytes.now self.old.at)) }
        ensures goes_on { MatchOption result (self.new.at ≡ self.old.at) (λ _. self.new.at ≡ self.old.at + 1) }
        ensures same_bytes { self.new.bytes.now ≡ self.old.bytes.now }
    {
        let byte = *self.bytes.get(self.at)?;
        self.at += 1;
        Some(byte)
    }

    /// The number whose spelling begins here. A number that breaks off and one that is not spelled as it should be are
    /// refused at their first byte, where the reader then stays.
    // Set into its callers: most numbers are one byte, which is read faster than a call is made.
    #[inline(always)]
    #[tactic(auto, using(crate::proofs::Read::start))]
    pub fn number(&mut self) -> Result<u64, Fault>
        ensures defined { ReadsAs number_at self.old result self.new }
        ensures goes_on { GoesOn self.old result self.new }
        ensures stays_on_a_fault { StaysOnAFault self.old result self.new }
    {
        let first = self.at;
        let mut ahead = *self;
        let mut value = 0;
        for shift in (0u32..64).step_by(7) {
            let Some(byte) = ahead.byte() else {
                return Err(Fault::at(Refusal::EndsInside, first));
            };
            // The tenth byte has room for one bit, and the last of several bytes is not 0.
            if (shift == 63 && byte > 1) || (shift > 0 && byte == 0) {
                break;
            }
            if byte < 128 {
                *self = ahead;
                return Ok(value + (u64::from(byte) << shift));
            }
            value += u64::from(byte - 128) << shift;
        }
        Err(Fault::at(Refusal::WrongSpelling, first))
    }
}
