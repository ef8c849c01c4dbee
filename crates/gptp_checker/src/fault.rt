//! Why a certificate is refused.

use std::error::Error;
use std::fmt;

/// What is wrong with a certificate. Each is found by a test of its own.
#[derive(Clone, Copy, Debug, PartialEq, Eq)]
pub enum Fault {
    /// The systems aren't the live ones, or the ports of one aren't all its ports.
    Systems = 1,
    /// A system with no parent states another root than itself.
    Root = 2,
    /// A system with no parent has steps, or one with a parent has none.
    Steps = 3,
    /// No link joins a system to its parent, or the parent isn't one step nearer.
    Parent = 4,
    /// Over a link the roots differ, or the steps by more than one.
    Link = 5,
    /// A system is better than the root that it states.
    Identity = 6,
    /// Another link, to a system as near as the parent, goes first.
    Tie = 7,
    /// A port's role isn't the one that links, parent and steps give it.
    Role = 8,
    /// A system has 255 steps or more.
    TooFar = 9,
}

impl fmt::Display for Fault {
    ghost use Rattle.std.specs.Prelude.{Some};
    ghost use Rattle.gptp_checker.specs.Faults.{check_fault_text};

    ghost output = { λ fault. Some (check_fault_text fault) };

    fn fmt<W: fmt::Write>(&self, f: &mut fmt::Formatter<W>) -> fmt::Result {
        f.write_str(match self {
            Fault::Systems => "1 Systems",
            Fault::Root => "2 Root",
            Fault::Steps => "3 Steps",
            Fault::Parent => "4 Parent",
            Fault::Link => "5 Link",
            Fault::Identity => "6 Identity",
            Fault::Tie => "7 Tie",
            Fault::Role => "8 Role",
            Fault::TooFar => "9 TooFar",
        })
    }
}

impl Error for Fault {}
