//! The local clock, and its time stamps.

ghost use Rattle.std.specs.Prelude.{◌≡◌, ◌*◌, ◌≤◌, pos};
ghost use Rattle.gptp_pdelay.specs.Clock.{IsDrift, IsTime, local_clock};
ghost use Rattle.gptp_setup.specs.Intervals.{IsMoment};

use crate::state::State;
use gptp_scaled::{Rate, ScaledNs, Stamping};

/// This many ns.
fn of_nanos(nanos: u64) -> ScaledNs
    requires { nanos ≤ 1000000000000000000 }
    ensures { result ≡ pos (65536 * nanos) }
{
    ScaledNs::new(i128::from(nanos) * 65536).unwrap()
}

/// What a local clock of this phase, in ns, and this drift, in units of 2^-41, shows at the time `t`, in ns.
pub(crate) fn local_clock(phase: u64, drift: i32, t: u64) -> ScaledNs
    requires phase { phase ≤ 1000000000000000000 }
    requires drift { IsDrift drift }
    requires moment { IsMoment t }
    ensures time { result ≡ local_clock phase drift t }
    ensures shown { IsTime result }
{
    let elapsed = Rate::new(drift).scale(of_nanos(t)).unwrap();
    of_nanos(phase).checked_add(elapsed).unwrap()
}

impl State {
    ghost use Rattle.std.specs.Prelude.{◌≡◌};
    ghost use Rattle.gptp_pdelay.specs.Clock.{IsTime};
    ghost use Rattle.gptp_setup.specs.Intervals.{IsMoment};
    ghost use Rattle.gptp_system.specs.Ready.{IsReady, state_of};
    ghost use Rattle.gptp_system.specs.State.{local_time, stamp_time, stamping};

    /// What the local clock shows now.
    pub(crate) fn local_time(&self, now: u64) -> ScaledNs
        requires ready { IsReady (state_of self.now) }
        requires moment { IsMoment now }
        ensures time { result ≡ local_time (state_of self.now) now }
        ensures shown { IsTime result }
    {
        local_clock(self.phase, self.drift, now)
    }

    /// How time is stamped.
    pub(crate) fn stamping(&self) -> Stamping
        ensures { result ≡ stamping (state_of self.now) }
    {
        Stamping {
            granularity: self.params.granularity,
            most_noise: self.params.noise,
            seed: self.seed,
            clock: u64::from(self.identity.clock()),
        }
    }

    /// The time stamp of what the local clock shows now.
    pub(crate) fn stamp_time(&self, now: u64) -> ScaledNs
        requires ready { IsReady (state_of self.now) }
        requires moment { IsMoment now }
        ensures time { result ≡ stamp_time (state_of self.now) now }
        ensures shown { IsTime result }
    {
        self.stamping()
            .time_stamp(now, self.local_time(now))
            .unwrap()
    }
}
