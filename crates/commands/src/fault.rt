// Why a line is not answered.
ghost use Rattle.commands.specs.Faults.{Gives};

use lines::LineFault;
use std::alloc::{AllocError, AllocFailed};
use std::fmt;

// Why a line is not understood.
// Form: NotAByte by name, since a LineFault in its place could be Memory, which ends the program.
#[derive(Clone, Copy, Debug, PartialEq, Eq)]
pub enum Misread {
    UnknownCommand,
    NotAByte,
    NotAPacket,
    NotANumber,
    NotAnIdentifier,
    NotAProduct,
    NotASensor,
    NotAStore,
    // a call where there is no unit
    NoUnit,
    PastTheMemory,
    TooManyWords,
}

impl fmt::Display for Misread {
    fn fmt<W: fmt::Write>(&self, f: &mut fmt::Formatter<W>) -> fmt::Result {
        f.write_str(match self {
            Misread::UnknownCommand => "unknown command",
            Misread::NotAByte => "not a byte",
            Misread::NotAPacket => "not a packet",
            Misread::NotANumber => "not a number",
            Misread::NotAnIdentifier => "not an identifier",
            Misread::NotAProduct => "not a product",
            Misread::NotASensor => "not a sensor",
            Misread::NotAStore => "not a store",
            Misread::NoUnit => "no unit",
            Misread::PastTheMemory => "past the memory",
            Misread::TooManyWords => "too many words",
        })
    }
}

// The program goes on behind a line that it misread, and ends where it failed.
#[derive(Drop)]
pub enum LineError {
    Misread(Misread),
    Failed(anyhow::Error),
}

impl From<Misread> for LineError {
    fn from(misread: Misread) -> LineError {
        LineError::Misread(misread)
    }
}

impl From<anyhow::Error> for LineError {
    fn from(error: anyhow::Error) -> LineError {
        LineError::Failed(error)
    }
}

impl From<AllocError> for LineError {
    fn from(error: AllocError) -> LineError {
        LineError::Failed(error.into())
    }
}

impl<T: Drop> From<AllocFailed<T>> for LineError {
    fn from(error: AllocFailed<T>) -> LineError {
        LineError::Failed(error.into())
    }
}

impl From<LineFault> for LineError {
    ghost from_gives = { Gives };

    fn from(fault: LineFault) -> LineError {
        match fault {
            LineFault::NotAByte => LineError::Misread(Misread::NotAByte),
            LineFault::Memory => LineError::Failed(fault.into()),
        }
    }
}
