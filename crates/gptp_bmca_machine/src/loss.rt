//! Laws on losses.

ghost use Rattle.gptp_bmca_machine.specs.LossLaws.{FitsIsKept, LossFits, NothingIsBetter};
ghost use Rattle.gptp_bmca_machine.specs.LossLaws.{NothingMovedSettles, UnmovedKeep};

use crate::coding::Coding;

/// What is held and in flight fits a snapshot: its root is no better than the best, and where it is the best, its steps
/// respect the distances. Every step of what is left of the snapshot keeps that, whatever its traces are.
pub fn fits_stays<C: Coding>()
    ensures { FitsIsKept C.says }
{}

/// After a loss in a network at rest all fits the snapshot of before.
pub fn loss_fits<C: Coding>()
    ensures { LossFits C.says }
{}

/// Where all fits a snapshot, no system has a better root than its best there, nor that root over fewer steps.
pub fn nothing_is_better<C: Coding>()
    ensures { NothingIsBetter C.says }
{}

/// After a loss in a network at rest by which no live system's best or distance changes, every system keeps its root
/// and its steps; its slave port leads to its parent once ports that have lost their links hold nothing.
pub fn nothing_moved_settles<C: Coding>()
    ensures { NothingMovedSettles C.says }
{}

/// After a loss in a network at rest every live system that is as far as before from the same best keeps its root and
/// its steps, whatever becomes of others.
pub fn unmoved_keep<C: Coding>()
    ensures { UnmovedKeep C.says }
{}
