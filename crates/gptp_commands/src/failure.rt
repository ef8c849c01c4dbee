//! How a command ends.

ghost use Rattle.std.specs.Prelude.{◌≡◌};
ghost use Rattle.gptp_commands.specs.declared.failure.SimError.TheVariants.{Memory, Read, Write};
ghost use Rattle.gptp_commands.specs.Failure.{stop_error, status_by, exit_status};

use crate::source::ReadFailed;
use gptp_report::Cut;
use gptp_report::sink::WriteFailed;
use std::alloc::{AllocError, AllocFailed};
use thiserror::Error;

/// What became of an input whose output is written.
#[derive(Clone, Copy, Debug, PartialEq, Eq)]
pub enum Status {
    /// All of it was accepted.
    Done,
    /// Some of it was refused; the output says what and why.
    Refused,
}

impl Status {
    /// The status of an input of which something was refused, or nothing.
    pub fn of_refusal(refused: bool) -> Status
        ensures { result ≡ status_by refused }
    {
        if refused {
            Status::Refused
        } else {
            Status::Done
        }
    }
}

/// Why a command stopped before its output was written.
#[derive(Debug, PartialEq, Eq, Drop, Error)]
pub enum SimError {
    /// Memory ran out.
    #[error("memory")]
    Memory,
    /// The source failed.
    #[error("read")]
    Read,
    /// The sink failed.
    #[error("write")]
    Write,
}

impl From<AllocError> for SimError {
    ghost from_gives = { λ _ e. e ≡ Memory };

    fn from(_error: AllocError) -> SimError {
        SimError::Memory
    }
}

impl<T: Drop> From<AllocFailed<T>> for SimError {
    ghost from_gives = { λ _ e. e ≡ Memory };

    fn from(_error: AllocFailed<T>) -> SimError {
        SimError::Memory
    }
}

impl From<ReadFailed> for SimError {
    ghost from_gives = { λ _ e. e ≡ Read };

    fn from(_error: ReadFailed) -> SimError {
        SimError::Read
    }
}

impl From<WriteFailed> for SimError {
    ghost from_gives = { λ _ e. e ≡ Write };

    fn from(_error: WriteFailed) -> SimError {
        SimError::Write
    }
}

impl From<Cut> for SimError {
    ghost from_gives = { λ cut e. e ≡ stop_error cut };

    fn from(cut: Cut) -> SimError {
        match cut {
            Cut::Memory => SimError::Memory,
            Cut::Write => SimError::Write,
        }
    }
}

/// The exit status of the process, by what became of its command.
pub fn exit_status(outcome: &Result<Status, SimError>) -> u8
    ensures { result ≡ exit_status outcome.now }
{
    match outcome {
        Ok(Status::Done) => 0,
        Ok(Status::Refused) => 1,
        Err(_) => 3,
    }
}
