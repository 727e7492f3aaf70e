//! What a schedule's header tells.
ghost use Rattle.std.specs.Prelude.{◌≡◌, ◌++◌, Some, codes};
ghost use Rattle.std.specs.Fmt.{decimal};
ghost use Rattle.schedule.specs.Format.{words_of};
ghost use Rattle.schedule.specs.Names.{exclusion_name, exclusion_numbered};

use image::checks::{JobImage, TABLE_LENGTH};
use image::fields::Sizes;
use image::text::Text;
use std::error::Error;
use std::fmt;

/// The exclusion that a job asks for by its number: what keeps a restartable section from being disturbed halfway.
#[derive(Clone, Copy, PartialEq, Eq, Debug)]
pub enum ExclusionName {
    /// Abort restart.
    Abort = 0,
    /// Address rollback.
    Rollback = 1,
    /// Masking.
    Masking = 2,
}

/// A number that is no exclusion's.
#[derive(Clone, Copy, PartialEq, Eq, Debug)]
pub struct UnknownExclusion(pub u64);

impl TryFrom<u64> for ExclusionName {
    type Error = UnknownExclusion;

    ghost try_from_gives = { λ number result. result ≡ exclusion_numbered number };

    /// The exclusion with a number, if there is one.
    fn try_from(number: u64) -> Result<ExclusionName, UnknownExclusion> {
        match number {
            0 => Ok(ExclusionName::Abort),
            1 => Ok(ExclusionName::Rollback),
            2 => Ok(ExclusionName::Masking),
            _ => Err(UnknownExclusion(number)),
        }
    }
}

/// What is wrong, with the number.
impl fmt::Display for UnknownExclusion {
    ghost output = { λ e. Some (codes "no exclusion has the number " ++ decimal e.0) };

    fn fmt<W: fmt::Write>(&self, f: &mut fmt::Formatter<W>) -> fmt::Result {
        write!(f, "no exclusion has the number {}", self.0)
    }
}

impl Error for UnknownExclusion {}

/// Writes the exclusion's name.
impl fmt::Display for ExclusionName {
    ghost output = { λ exclusion. Some (exclusion_name exclusion) };

    fn fmt<W: fmt::Write>(&self, f: &mut fmt::Formatter<W>) -> fmt::Result {
        f.write_str(match self {
            ExclusionName::Abort => "abort",
            ExclusionName::Rollback => "rollback",
            ExclusionName::Masking => "masking",
        })
    }
}

/// A job: what a machine is booted from.
#[derive(Clone, Copy)]
pub struct Job {
    pub exclusion: ExclusionName,
    /// The least patience of a section that was entered: how many more of its instructions a disturber has to wait for.
    pub grace: u8,
    pub sizes: Sizes,
    pub signature: u32,
    pub table: [u8; TABLE_LENGTH],
    pub text: Text,
}

impl Job {
    /// The image of the job, as it is offered to boot.
    pub fn image(&self) -> JobImage<'_>
        ensures sizes { result.sizes ≡ self.now.sizes }
        ensures table { result.table.now ≡ self.now.table }
        ensures text { result.text.now ≡ words_of self.now.text }
        ensures signature { result.signature ≡ self.now.signature }
    {
        JobImage {
            sizes: self.sizes,
            table: &self.table,
            text: self.text.words(),
            signature: self.signature,
        }
    }
}
