//! Changes that change nothing.

ghost use Rattle.gptp_settling_time.specs.Idle.{IdlesStayNews, IdlesStaySettled};

use gptp_links::Fate;

/// A change that makes nothing of what stands leaves what is claimed of a world since news. So a world that has settled
/// is settled after it at once.
pub fn idle_changes_leave_settled<F: Fate>()
    ensures news { IdlesStayNews F.answers }
    ensures settled { IdlesStaySettled F.answers }
{}
