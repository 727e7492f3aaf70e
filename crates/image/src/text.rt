//! A text of a job.
ghost use Rattle.std.specs.Prelude.{◌≡◌, take};

use super::checks::TEXT_LENGTH;

// stays: room for the longest text with a count beside it, since a machine has no heap
/// A text: its first `count` words; the places behind them are 0.
#[derive(Clone, Copy)]
pub struct Text {
    pub words: [u32; TEXT_LENGTH],
    pub count: usize,
}

impl Text {
    /// The words of the text; all places, if `count` is above their number.
    pub fn words(&self) -> &[u32]
        ensures defined { result.now ≡ take self.now.count self.now.words }
    {
        &self.words[..self.count.min(TEXT_LENGTH)]
    }
}
