// What is wrong with a line, and why one has no other answer.
ghost use Rattle.std.specs.Prelude.{◌≡◌};
ghost use Rattle.lines.specs.declared.fault.Flaw.TheVariants.{NoMemory as FlawNoMemory};
ghost use Rattle.lines.specs.declared.fault.Fault.TheVariants.{NoMemory};
ghost use Rattle.lines.specs.declared.fault.CallError.TheVariants.{Refused};
ghost use Rattle.lines.specs.declared.fault.LineError.TheVariants.{Malformed, Failed};
ghost use Rattle.lines.specs.declared.fault.Stage.TheVariants.{Itself};

use crate::key::Key;
use opening::refusal::Refusal;
use std::alloc::{AllocError, AllocFailed};
use std::fmt;

// What is wrong with a value.
#[derive(Clone, Copy)]
pub enum Flaw {
    // neither hexadecimal, two lower-case digits to a byte, nor text in quotes
    NotHex,
    // text in quotes with no end
    NoEndQuote,
    // no decimal number
    NotNumber,
    // a number that is too large for its pair
    TooLarge,
    // none of the words that may stand there
    NotListed,
    // a number of bytes other than the one that is needed
    OtherLength,
    // no memory was left
    NoMemory,
}

// What is wrong with a line.
#[derive(Clone, Copy)]
pub enum Fault {
    // its first word names no call
    UnknownCall,
    // a word, counted from 1, is no pair that is known
    UnknownPair(usize),
    // a pair that the call needs is not there
    Missing(Key),
    // a pair has a value that does not fit it
    Bad(Key, Flaw),
    // no memory was left
    NoMemory,
}

// Why a call of the library gave nothing.
#[derive(Clone, Copy)]
pub enum CallError {
    // it said no
    Refused(Refusal),
    // a buffer or the work area holds other bytes than it may leave
    WrongBuffer,
}

// Which call of a line an error came from.
#[derive(Clone, Copy)]
pub enum Stage {
    // the call that the line is about
    Itself,
    // the opening that comes before it
    Opening,
}

// Why a line has no other answer.
#[derive(Clone, Copy)]
pub enum LineError {
    Malformed(Fault),
    Failed(Stage, CallError),
}

// Stays two impls for each error: one for all errors of memory would overlap with those of other errors.
impl From<AllocError> for Flaw {
    ghost from_gives = { λ _ flaw. flaw ≡ FlawNoMemory };

    fn from(_e: AllocError) -> Flaw {
        Flaw::NoMemory
    }
}

impl<T: Drop> From<AllocFailed<T>> for Flaw {
    ghost from_gives = { λ _ flaw. flaw ≡ FlawNoMemory };

    fn from(_e: AllocFailed<T>) -> Flaw {
        Flaw::NoMemory
    }
}

impl From<AllocError> for Fault {
    ghost from_gives = { λ _ fault. fault ≡ NoMemory };

    fn from(_e: AllocError) -> Fault {
        Fault::NoMemory
    }
}

impl<T: Drop> From<AllocFailed<T>> for Fault {
    ghost from_gives = { λ _ fault. fault ≡ NoMemory };

    fn from(_e: AllocFailed<T>) -> Fault {
        Fault::NoMemory
    }
}

impl From<AllocError> for LineError {
    ghost from_gives = { λ _ error. error ≡ Malformed NoMemory };

    fn from(e: AllocError) -> LineError {
        LineError::Malformed(Fault::from(e))
    }
}

impl<T: Drop> From<AllocFailed<T>> for LineError {
    ghost from_gives = { λ _ error. error ≡ Malformed NoMemory };

    fn from(e: AllocFailed<T>) -> LineError {
        LineError::Malformed(Fault::from(e))
    }
}

impl From<Fault> for LineError {
    ghost from_gives = { λ fault error. error ≡ Malformed fault };

    fn from(fault: Fault) -> LineError {
        LineError::Malformed(fault)
    }
}

impl From<CallError> for LineError {
    ghost from_gives = { λ met error. error ≡ Failed Itself met };

    fn from(error: CallError) -> LineError {
        LineError::Failed(Stage::Itself, error)
    }
}

impl From<Refusal> for CallError {
    ghost from_gives = { λ refusal error. error ≡ Refused refusal };

    fn from(refusal: Refusal) -> CallError {
        CallError::Refused(refusal)
    }
}

impl fmt::Display for Flaw {
    fn fmt<W: fmt::Write>(&self, f: &mut fmt::Formatter<W>) -> fmt::Result {
        match self {
            Flaw::NotHex => write!(f, "is neither lower-case hexadecimal nor text in quotes"),
            Flaw::NoEndQuote => write!(f, "has no closing quote"),
            Flaw::NotNumber => write!(f, "is not a decimal number"),
            Flaw::TooLarge => write!(f, "is too large"),
            Flaw::NotListed => write!(f, "is none of the words that may stand there"),
            Flaw::OtherLength => write!(f, "has another number of bytes than is needed"),
            Flaw::NoMemory => write!(f, "found no memory"),
        }
    }
}

impl fmt::Display for Fault {
    fn fmt<W: fmt::Write>(&self, f: &mut fmt::Formatter<W>) -> fmt::Result {
        match self {
            Fault::UnknownCall => write!(f, "the first word names no call"),
            Fault::UnknownPair(n) => write!(f, "word {n} is no pair that is known"),
            Fault::Missing(key) => write!(f, "`{key}` is missing"),
            Fault::Bad(key, flaw) => write!(f, "`{key}` {flaw}"),
            Fault::NoMemory => write!(f, "no memory was left"),
        }
    }
}
