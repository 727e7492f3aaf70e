//! The calls of a schedule, read one by one.
ghost use Rattle.std.specs.Prelude.{◌≡◌, ℕ, ◌+◌, ◌<◌, ◌≤◌, [], length, IfOk, IfErr};
ghost use Rattle.numbers.specs.Reading.{GoesOn, ReadsAs, StaysOnAFault};
ghost use Rattle.schedule.specs.Reading.{CallsAsRead, call_at, call_by, calls_from, operation_at, schedule_read};

use super::header::read_job;
use super::job::Job;
use calls::{Call, RawOperation};
use faults::{Fault, Refusal};
use numbers::reader::Reader;
use std::alloc::{AllocError, Global};

/// A call of a schedule with the offset of its letter.
#[derive(Clone, Copy, PartialEq, Eq, Debug)]
pub struct CallAt {
    pub at: usize,
    pub call: Call,
}

/// Reads an operation: kind, counter and amount, each any number.
fn read_operation(reader: &mut Reader) -> Result<RawOperation, Fault>
    ensures defined { ReadsAs operation_at reader.old result reader.new }
    ensures goes_on { GoesOn reader.old result reader.new }
{
    Ok(RawOperation {
        kind: reader.number()?,
        counter: reader.number()?,
        amount: reader.number()?,
    })
}

// stays: one match on the letters, a rule of the project
/// Reads a call. Its first letter says which call it is. On a fault the reader stays at that letter.
pub fn read_call(reader: &mut Reader) -> Result<Call, Fault>
    ensures defined { ReadsAs call_at reader.old result reader.new }
    ensures goes_on { GoesOn reader.old result reader.new }
    ensures stays_on_a_fault { StaysOnAFault reader.old result reader.new }
{
    let first = reader.at;
    let mut ahead = *reader;
    let Some(letter) = ahead.byte() else {
        return Err(Fault::at(Refusal::EndsInside, first));
    };
    let call = match char::from(letter) {
        'e' => Call::Enlist {
            thread: ahead.number()?,
            operation: read_operation(&mut ahead)?,
        },
        'r' => Call::Run {
            cpu: ahead.number()?,
        },
        'a' => Call::Advance {
            cpu: ahead.number()?,
            instructions: ahead.number()?,
        },
        's' => Call::Switch {
            cpu: ahead.number()?,
            thread: ahead.number()?,
        },
        'i' => Call::Idle {
            cpu: ahead.number()?,
        },
        'g' => Call::Signal {
            thread: ahead.number()?,
            operation: read_operation(&mut ahead)?,
        },
        _ => return Err(Fault::at(Refusal::UnknownLetter, first)),
    };
    *reader = ahead;
    Ok(call)
}

// stays: what was read stands beside the fault that ended the reading; a `Result` would lose the one or the other
/// The calls of a schedule, each with its offset, as far as they can be read, and the fault that ended the reading, if one did.
#[derive(Drop)]
pub struct CallsRead {
    pub calls: Vec<CallAt>,
    pub fault: Option<Fault>,
}

/// Reads calls to the end.
#[tactic(auto, using(crate::proofs::Calling::none_yet, crate::proofs::Calling::one_more))]
pub fn read_calls(heap: Global, mut reader: Reader) -> Result<CallsRead, AllocError>
    ensures defined { IfOk result (λ read. record { calls = read.calls.items; fault = read.fault } ≡ calls_from (length reader.entry.bytes.now) reader.entry.bytes.now reader.entry.at) }
{
    let mut calls = Vec::new(heap);
    while reader.at < reader.bytes.len() {
        let at = reader.at;
        match read_call(&mut reader) {
            Ok(call) => calls.push(CallAt { at, call })?,
            Err(fault) => {
                let fault = Some(fault);
                return Ok(CallsRead { calls, fault });
            }
        }
    }
    Ok(CallsRead { calls, fault: None })
}

// stays: job, calls and fault side by side: a schedule that breaks off has all three, and a `Result` would lose the job and the calls
/// A schedule as far as it can be read: its job, if that is accepted, its calls, each with its offset, and the fault that
/// ended the reading, if one did.
#[derive(Drop)]
pub struct ScheduleRead {
    pub job: Option<Job>,
    pub calls: Vec<CallAt>,
    pub fault: Option<Fault>,
}

/// Reads a whole schedule, of any bytes.
pub fn read_schedule(heap: Global, bytes: &[u8]) -> Result<ScheduleRead, AllocError>
    ensures defined { IfOk result (λ read. record { job = read.job; calls = read.calls.items; fault = read.fault } ≡ schedule_read bytes.now) }
{
    match read_job(bytes) {
        Ok((job, at)) => {
            let CallsRead { calls, fault } = read_calls(heap, Reader { bytes, at })?;
            let job = Some(job);
            Ok(ScheduleRead { job, calls, fault })
        }
        Err(fault) => {
            let calls = Vec::new(heap);
            let fault = Some(fault);
            Ok(ScheduleRead {
                job: None,
                calls,
                fault,
            })
        }
    }
}
