//! Lists what a schedule says: its job line by line, then its calls, one to a line; or, where it is refused, what can be
//! read of it and the fault.
#![tactic(auto)]

use faults::Fault;
use image::fields::Field;
use image::layout::{Descriptor, TEXT_START};
use numbers::reader::Reader;
use schedule::body::{CallAt, read_schedule};
use schedule::header::{SCHEDULE_LENGTH, read_field, read_table, read_word_count};
use schedule::job::ExclusionName;
use std::alloc::{AllocError, Global};
use std::io::Read;
use words::Kind;

#[cfg(test)]
mod tests;

/// The numbers of a header that stand between its exclusion and its signature, in their order.
const NUMBERS: [Field; 6] = [
    Field::Grace,
    Field::Cpus,
    Field::Threads,
    Field::Nodes,
    Field::Packets,
    Field::Counters,
];

/// Why the listing of a job stops before the job's end.
#[derive(Drop)]
enum Stop {
    /// The next part of the job cannot be read.
    Unreadable,
    /// There is no memory for the next line.
    NoMemory(AllocError),
}

/// A part that is refused cannot be read; the fault itself is listed last, by the reading of the whole schedule.
impl From<Fault> for Stop {
    fn from(_fault: Fault) -> Stop {
        Stop::Unreadable
    }
}

/// Memory that is wanting ends the listing of the schedule too.
impl From<AllocError> for Stop {
    fn from(error: AllocError) -> Stop {
        Stop::NoMemory(error)
    }
}

// stays: the header is read here once more, part by part, since a refused job is listed as far as it goes
/// Lists the numbers of the header.
fn list_numbers(out: &mut String, reader: &mut Reader) -> Result<(), Stop> {
    let exclusion = ExclusionName::try_from(read_field(reader, Field::Exclusion)?).unwrap();
    writeln!(out, "exclusion {exclusion}")?;
    for field in NUMBERS {
        let n = read_field(reader, field)?;
        writeln!(out, "{field} {n}")?;
    }
    let signature = read_field(reader, Field::Signature)?;
    writeln!(out, "signature {signature:#x}")?;
    Ok(())
}

/// Lists the descriptors of the table.
fn list_table(out: &mut String, reader: &mut Reader) -> Result<(), Stop> {
    let table = read_table(reader)?;
    for kind in Kind::all() {
        let number = kind.number();
        let descriptor = Descriptor::of(&table, *kind);
        let section = descriptor.section;
        write!(out, "descriptor {number} {kind}")?;
        write!(out, " version {}", descriptor.version)?;
        write!(out, " flags {}", descriptor.flags)?;
        write!(out, " start {} length {}", section.start, section.length)?;
        writeln!(out, " abort {}", section.abort)?;
    }
    Ok(())
}

/// Lists the words of the text.
fn list_words(out: &mut String, reader: &mut Reader) -> Result<(), Stop> {
    let count = read_word_count(reader)?;
    for address in (TEXT_START..).step_by(4).take(count) {
        let word = read_field(reader, Field::TextWord)?;
        if word < 256 {
            writeln!(out, "word {address} {word}")?;
        } else {
            writeln!(out, "word {address} {word:#x}")?;
        }
    }
    Ok(())
}

/// Lists the job as far as it can be read.
fn list_job(out: &mut String, bytes: &[u8]) -> Result<(), Stop> {
    let mut reader = Reader { bytes, at: 0 };
    if bytes.len() > SCHEDULE_LENGTH || reader.byte() != Some(b'J') {
        return Err(Stop::Unreadable);
    }
    list_numbers(out, &mut reader)?;
    list_table(out, &mut reader)?;
    list_words(out, &mut reader)
}

/// Lists calls, each with its number and its offset.
fn list_calls(out: &mut String, calls: &[CallAt]) -> Result<(), AllocError> {
    for (number, listed) in (1u64..).zip(calls) {
        let CallAt { at, call } = *listed;
        writeln!(out, "call {number} at {at} {call}")?;
    }
    Ok(())
}

/// Lists a fault: its line, what it means, and, if boot refused the job, boot's own fault.
fn list_fault(out: &mut String, fault: Fault) -> Result<(), AllocError> {
    let refusal = fault.refusal;
    writeln!(out, "fault {fault}")?;
    writeln!(out, "that is: {refusal}")?;
    if let Some(cause) = fault.inner {
        writeln!(out, "by boot: {cause}")?;
    }
    Ok(())
}

/// What the schedule says.
fn listing(heap: Global, bytes: &[u8]) -> Result<String, AllocError> {
    let mut out = String::new(heap);
    if let Err(Stop::NoMemory(error)) = list_job(&mut out, bytes) {
        return Err(error);
    }
    let read = read_schedule(heap, bytes)?;
    list_calls(&mut out, read.calls.as_slice())?;
    match read.fault {
        Some(fault) => list_fault(&mut out, fault)?,
        None => {
            let count = read.calls.len();
            let length = bytes.len();
            writeln!(out, "end after {count} calls at {length}")?;
        }
    }
    Ok(out)
}

/// Prints what the schedule on standard input says.
fn main(rt: HostRuntime) -> anyhow::Result<()> {
    let heap = rt.alloc();
    let mut bytes = Vec::new(heap);
    let most = SCHEDULE_LENGTH as u64 + 1;
    rt.stdin().take(most).read_to_end(&mut bytes)?;
    let text = listing(heap, bytes.as_slice())?;
    rt.print(text.as_str())?;
    Ok(())
}
