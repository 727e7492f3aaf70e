//! The calls that are put to a machine, as they are asked for: every operand is any number of 64 bits, and is checked when
//! the call is made.
#![tactic(auto)]

ghost use Rattle.calls.specs.Texts.{call_text, operation_text};
ghost use Rattle.std.specs.Prelude.{Some};

use std::fmt;
use words::Kind;

// stays: the kind is a number, since any number can be asked for; it is checked when the call is made
/// An operation as it is asked for: its kind by number, a counter and an amount.
#[derive(Clone, Copy, PartialEq, Eq, Debug)]
pub struct RawOperation {
    pub kind: u64,
    pub counter: u64,
    pub amount: u64,
}

/// A call.
#[derive(Clone, Copy, PartialEq, Eq, Debug)]
pub enum Call {
    /// Gives a thread without work an operation to do.
    Enlist {
        thread: u64,
        operation: RawOperation,
    },
    /// Performs one instruction of the thread that a CPU has.
    Run {
        cpu: u64,
    },
    /// Performs instructions until so many are done or an operation has settled, which is to say come to its end.
    Advance {
        cpu: u64,
        instructions: u64,
    },
    /// Takes a CPU's thread off it and puts the named one on it.
    Switch {
        cpu: u64,
        thread: u64,
    },
    /// Takes a CPU's thread off it.
    Idle {
        cpu: u64,
    },
    /// Interrupts a thread by an operation that it has to do first.
    Signal {
        thread: u64,
        operation: RawOperation,
    },
}

/// The operation: its kind by name where it has one, its counter and its amount.
impl fmt::Display for RawOperation {
    ghost output = { λ raw. Some (operation_text raw) };

    fn fmt<W: fmt::Write>(&self, f: &mut fmt::Formatter<W>) -> fmt::Result {
        let number = self.kind;
        let counter = self.counter;
        let amount = self.amount;
        match Kind::try_from(number) {
            Ok(kind) => write!(f, "{kind} counter {counter} amount {amount}"),
            Err(_) => write!(f, "kind {number} counter {counter} amount {amount}"),
        }
    }
}

/// The call with its operands in words.
impl fmt::Display for Call {
    ghost output = { λ call. Some (call_text call) };

    fn fmt<W: fmt::Write>(&self, f: &mut fmt::Formatter<W>) -> fmt::Result {
        match self {
            Call::Enlist { thread, operation } => {
                write!(f, "enlist thread {thread} operation {operation}")
            }
            Call::Run { cpu } => write!(f, "run cpu {cpu}"),
            Call::Advance { cpu, instructions } => {
                write!(f, "advance cpu {cpu} instructions {instructions}")
            }
            Call::Switch { cpu, thread } => write!(f, "switch cpu {cpu} thread {thread}"),
            Call::Idle { cpu } => write!(f, "idle cpu {cpu}"),
            Call::Signal { thread, operation } => {
                write!(f, "signal thread {thread} operation {operation}")
            }
        }
    }
}
