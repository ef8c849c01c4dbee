//! What is told of an act.

use crate::carried::Carried;
use gptp_system::Answer;
use gptp_vector::ClockId;
use std::error::Error;
use std::fmt;

/// What is told of an act that was done.
#[derive(Drop)]
pub enum Done {
    /// That it was done.
    Quiet,
    /// A frame reached that port of the system with that clock, and what was answered there; `None` where the system
    /// has failed.
    Heard {
        clock: ClockId,
        port: u16,
        answer: Option<Answer>,
        frame: Carried,
    },
}

/// Why an act was refused. The world is as it was before.
#[derive(Clone, Copy, Debug, PartialEq, Eq)]
pub enum Refused {
    /// Its time has passed.
    InThePast = 1,
    /// Something is due earlier.
    Untimely = 2,
    /// There is no such link or system, no such port of a timer, or no link at the port.
    NoSuch = 3,
    /// It isn't due at that time.
    NotDue = 4,
    /// There is no memory for what it can leave.
    OutOfMemory = 5,
}

impl fmt::Display for Refused {
    ghost use Rattle.std.specs.Prelude.{Some};
    ghost use Rattle.gptp_model.specs.Faults.{refused_text};

    ghost output = { λ refused. Some (refused_text refused) };

    fn fmt<W: fmt::Write>(&self, f: &mut fmt::Formatter<W>) -> fmt::Result {
        f.write_str(match self {
            Refused::InThePast => "1 InThePast",
            Refused::Untimely => "2 Untimely",
            Refused::NoSuch => "3 NoSuch",
            Refused::NotDue => "4 NotDue",
            Refused::OutOfMemory => "5 OutOfMemory",
        })
    }
}

impl Error for Refused {}
