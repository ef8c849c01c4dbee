//! How old what is known of time is.

ghost use Rattle.gptp_reading.specs.Age.{RunsHearInTime, RunsReadLately, WorldsAreRecent};

use gptp_links::Fate;

/// In every calm world that has settled, the Lapse timer of a near system, where it runs, was started no longer ago
/// than the system waits for the next Sync at most.
pub fn worlds_are_recent()
    ensures { WorldsAreRecent }
{}

/// In every run of a document that has a syncReceiptTimeout time comes, once its network has settled: each near system
/// that has a Slave port, and a root that may be grandmaster, used a Follow_Up no longer ago than a settled system
/// waits for a Sync.
pub fn runs_hear_in_time<F: Fate>()
    ensures { RunsHearInTime F.answers }
{}

/// Once a Sync has had the time to come down the way of such a system, and that wait is over, it reads within its
/// reading error for the wait of what the best tells.
pub fn runs_read_lately<F: Fate>()
    ensures { RunsReadLately F.answers }
{}
