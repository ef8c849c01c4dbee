//! What no act changes once a document has settled.

ghost use Rattle.gptp_settling_time.specs.Unchanged.{ActsLeaveChoice, ActsLeaveShown};

use gptp_links::Fate;

/// No act of a run leaves a system another once its document has settled, whatever is drawn for the frames: neither as
/// to whether it lives, its root, its steps and its Slave port, nor as to role and capability of a port. That is so
/// where every live system is near.
pub fn acts_leave_shown<F: Fate>()
    ensures { ActsLeaveShown F.answers }
{}

/// No act of a run leaves a system another choice once that of its document stands, whatever is drawn for the frames:
/// neither as to whether it lives, its root, its steps nor its Slave port. That is so where every live system is near.
pub fn acts_leave_choice<F: Fate>()
    ensures { ActsLeaveChoice F.answers }
{}
