//! Why a port has its role.

use crate::compared::Compared;
use gptp_vector::PortId;
use gptp_words::ClockDigits;
use std::fmt;

/// Why a port has its role: where its link leads, and what comes of that.
#[derive(Clone, Copy)]
pub(crate) enum Why {
    /// The document has no link at it.
    Unlinked,
    /// Its link to this port is down.
    Down(PortId),
    /// Its link to this port is up, but that system has failed.
    Failed(PortId),
    /// It leads to this port of the parent, and this way offers so many steps.
    Offers(PortId, u32),
    /// It leads to this port, and this way offers so many steps, by which or by its source it loses.
    Loses(PortId, u32, Compared),
    /// It leads to this port, against which it wins by this.
    Wins(PortId, Compared),
}

/// A port, shown by its clock and its number.
#[derive(Clone, Copy)]
pub(crate) struct PortDigits(pub PortId);

impl fmt::Display for PortDigits {
    ghost use Rattle.std.specs.Prelude.{Some};
    ghost use Rattle.gptp_explain.specs.Why.{clock_port_text};

    ghost output = { λ port. Some (clock_port_text port.0) };

    fn fmt<W: fmt::Write>(&self, f: &mut fmt::Formatter<W>) -> fmt::Result {
        let PortId { clock, port } = self.0;
        write!(f, "{} {port}", ClockDigits(clock))
    }
}

impl fmt::Display for Why {
    ghost use Rattle.std.specs.Prelude.{Some};
    ghost use Rattle.gptp_explain.specs.Why.{why_text};

    ghost output = { λ why. Some (why_text why) };

    fn fmt<W: fmt::Write>(&self, f: &mut fmt::Formatter<W>) -> fmt::Result {
        match *self {
            Why::Unlinked => f.write_str("unlinked"),
            Why::Down(there) => write!(f, "to {} down", PortDigits(there)),
            Why::Failed(there) => write!(f, "to {} failed", PortDigits(there)),
            Why::Offers(there, steps) => write!(f, "to {} offers {steps}", PortDigits(there)),
            Why::Loses(there, steps, by) => {
                write!(f, "to {} offers {steps} loses {by}", PortDigits(there))
            }
            Why::Wins(there, by) => write!(f, "to {} wins {by}", PortDigits(there)),
        }
    }
}
