//! The theorem on time at any moment.

ghost use Rattle.gptp_reading.specs.Readings.{RunsReadExactly, RunsReadInTime, WorldsHaveReadings, WorldsLeaveTime, WorldsReadExactly};

use gptp_links::Fate;

/// Once a Sync has had the time to come down a way from when a calm world is settled, each Follow_Up that the near
/// system at its end uses leaves a reading: at every later time, whatever becomes of the network, what is read by it is
/// within its error of what the best tells.
pub fn worlds_read_exactly<F: Fate>()
    ensures { WorldsReadExactly F.answers }
{}

/// Each Follow_Up that is used leaves what it told known, and a reading at every time, or where something can lapse for
/// want of Sync a Lapse timer that begins then.
pub fn worlds_leave_time<F: Fate>()
    ensures { WorldsLeaveTime F.answers }
{}

/// In a calm world that is settled for so long, each Follow_Up that such a system uses leaves a reading at every time,
/// also where something can lapse.
pub fn worlds_have_readings<F: Fate>()
    ensures { WorldsHaveReadings F.answers }
{}

/// Each act of every run of a document leaves exact readings, too.
pub fn runs_read_exactly<F: Fate>()
    ensures { RunsReadExactly F.answers }
{}

/// Where a run ends in a calm world, what a system reads by a Follow_Up that it used no longer ago than a span is exact
/// by that span and by the network as it is then.
pub fn runs_read_in_time<F: Fate>()
    ensures { RunsReadInTime F.answers }
{}
