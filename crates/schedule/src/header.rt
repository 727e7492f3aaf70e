//! The header of a schedule, read part by part.
ghost use Rattle.std.specs.Prelude.{◌≡◌, ℕ, ◌+◌, ◌<◌, ◌≤◌, length, IfOk, IfErr};
ghost use Rattle.image.specs.Checks.{largest, least};
ghost use Rattle.numbers.specs.Reading.{GoesOn, ReadsAs, StaysOnAFault};
ghost use Rattle.schedule.specs.Reading.{field_at, header_at, job_at, padded_words_at, parts_at, sizes_at, table_at, text_at, word_count_at};

use super::job::{ExclusionName, Job};
use faults::{Fault, Refusal};
use image::checks::{TABLE_LENGTH, TEXT_LENGTH, accept_text_length};
use image::fields::{Field, Sizes};
use image::text::Text;
use numbers::reader::Reader;

/// The most bytes of a schedule.
pub const SCHEDULE_LENGTH: usize = 32768;

/// Reads a number of the job: it is read whole and then held against its limits, beyond which boot refuses the job. On a
/// fault the reader stays at the number.
// Set into its callers, each of which knows the field and so its limits.
#[inline(always)]
pub fn read_field(reader: &mut Reader, field: Field) -> Result<u64, Fault>
    ensures defined { ReadsAs (λ bytes at. field_at bytes at field) reader.old result reader.new }
    ensures within_limits { IfOk result (λ n. (least field ≤ n) × (n ≤ largest field)) }
    ensures goes_on { GoesOn reader.old result reader.new }
    ensures stays_on_a_fault { StaysOnAFault reader.old result reader.new }
{
    let mut ahead = *reader;
    let number = ahead.number()?;
    let number = field
        .accept(number)
        .map_err(|fault| Fault::by_boot(reader.at, fault))?;
    *reader = ahead;
    Ok(number)
}

/// Reads the five sizes of the job.
fn read_sizes(reader: &mut Reader) -> Result<Sizes, Fault>
    ensures defined { ReadsAs sizes_at reader.old result reader.new }
{
    Ok(Sizes {
        cpus: read_field(reader, Field::Cpus)?,
        threads: read_field(reader, Field::Threads)?,
        nodes: read_field(reader, Field::Nodes)?,
        packets: read_field(reader, Field::Packets)?,
        counters: read_field(reader, Field::Counters)?,
    })
}

/// Reads the bytes of the descriptor table. On a fault the reader stays where the table begins.
#[tactic(auto, using(crate::proofs::Tables::read))]
pub fn read_table(reader: &mut Reader) -> Result<[u8; TABLE_LENGTH], Fault>
    ensures defined { ReadsAs table_at reader.old result reader.new }
    ensures stays_on_a_fault { StaysOnAFault reader.old result reader.new }
{
    if let Some(rest) = reader.bytes.get(reader.at..)
        && let Some(table) = rest.first_chunk()
    {
        reader.at += TABLE_LENGTH;
        return Ok(*table);
    }
    Err(Fault::at(Refusal::EndsInside, reader.bytes.len()))
}

// stays: apart from `read_field`, whose limits are a field's; over both a closure would accept the number, and promise by its `post`
/// Reads the number of words, of which a text has at least 1 and at most 256. On a fault the reader stays at the number.
pub fn read_word_count(reader: &mut Reader) -> Result<usize, Fault>
    ensures defined { ReadsAs word_count_at reader.old result reader.new }
    ensures within_limits { IfOk result (λ n. (1 ≤ n) × (n ≤ 256)) }
    ensures stays_on_a_fault { StaysOnAFault reader.old result reader.new }
{
    let mut ahead = *reader;
    let count = ahead.number()?;
    let count = accept_text_length(count).map_err(|fault| Fault::by_boot(reader.at, fault))?;
    *reader = ahead;
    Ok(count as usize)
}

/// Reads so many words; the places behind them are 0.
fn read_words(reader: &mut Reader, count: usize) -> Result<[u32; TEXT_LENGTH], Fault>
    requires { count ≤ 256 }
    ensures defined { ReadsAs (padded_words_at count) reader.old result reader.new }
{
    let mut words = [0; TEXT_LENGTH];
    for word in &mut words[..count] {
        *word = read_field(reader, Field::TextWord)? as u32;
    }
    Ok(words)
}

// stays: that a text fits is a clause, which `read_header` promises, and no fact of the type, since the definitions make a text of any list
/// Reads the text: the number of its words, then the words.
fn read_text(reader: &mut Reader) -> Result<Text, Fault>
    ensures defined { ReadsAs text_at reader.old result reader.new }
    ensures text_fits { IfOk result (λ text. text.count ≤ 256) }
{
    let count = read_word_count(reader)?;
    let words = read_words(reader, count)?;
    Ok(Text { words, count })
}

/// Reads the parts of a job behind its letter.
fn read_parts(reader: &mut Reader) -> Result<Job, Fault>
    ensures defined { ReadsAs parts_at reader.old result reader.new }
    ensures text_fits { IfOk result (λ job. job.text.count ≤ 256) }
{
    let exclusion = read_field(reader, Field::Exclusion)?;
    Ok(Job {
        exclusion: ExclusionName::try_from(exclusion).unwrap(),
        grace: read_field(reader, Field::Grace)? as u8,
        sizes: read_sizes(reader)?,
        signature: read_field(reader, Field::Signature)? as u32,
        table: read_table(reader)?,
        text: read_text(reader)?,
    })
}

/// Reads the header of a schedule: its job, whatever its image, and the offset behind it.
pub fn read_header(bytes: &[u8]) -> Result<(Job, usize), Fault>
    ensures defined { result ≡ header_at bytes.now }
    ensures text_fits { IfOk result (λ p. p.0.text.count ≤ 256) }
{
    if bytes.len() > SCHEDULE_LENGTH {
        return Err(Fault::at(Refusal::EndsInside, SCHEDULE_LENGTH));
    }
    let mut reader = Reader { bytes, at: 0 };
    let Some(letter) = reader.byte() else {
        return Err(Fault::at(Refusal::EndsInside, 0));
    };
    match char::from(letter) {
        'J' => {
            let job = read_parts(&mut reader)?;
            Ok((job, reader.at))
        }
        _ => Err(Fault::at(Refusal::UnknownLetter, 0)),
    }
}

/// Reads the job of a schedule whose image is accepted, and the offset behind it.
pub fn read_job(bytes: &[u8]) -> Result<(Job, usize), Fault>
    ensures defined { result ≡ job_at bytes.now }
{
    let (job, at) = read_header(bytes)?;
    job.image()
        .check()
        .map_err(|fault| Fault::by_boot(at, fault))?;
    Ok((job, at))
}
