//! Laws on one link: it comes to tell what the system at its one end has settled at.

ghost use Rattle.gptp_bmca_machine.specs.LinkLaws.{LinkIsKept, LinkIsSettled};

use crate::coding::Coding;

/// Whenever the system at the one end of a link has settled and its port is on, the link is at one of three stages: its
/// Announce timer is due in time to tell so, an Announce that does is on its way, or the system at the other end holds
/// one, which doesn't age. Every step of the machine keeps that.
pub fn link_stays_at_a_stage<C: Coding>()
    ensures { LinkIsKept C.says }
{}

/// Once the timer that had to run out has, and what was sent then has come, at that very moment already, the system at
/// the other end holds an Announce that tells so.
pub fn link_becomes_settled<C: Coding>()
    ensures { LinkIsSettled C.says }
{}
