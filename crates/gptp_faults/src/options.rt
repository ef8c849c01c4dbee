//! What is asked of the faults of a document.

use gptp_timeline::Limits;

/// The kind of cases that is left, where others are left out.
#[derive(Clone, Copy, Debug, PartialEq, Eq)]
pub enum Only {
    /// Links alone.
    Links,
    /// Systems that hang alone.
    Systems,
    /// Systems that lose their power alone.
    Power,
}

/// Which cases are tried, when, and how often.
#[derive(Clone, Copy, Debug, PartialEq, Eq)]
pub struct FaultsOptions {
    /// With how many seeds each is tried, from 1 on; at least 1, at most 1,000.
    pub seeds: u64,
    /// At how many moments; at least 1, at most 1,000.
    pub moments: u64,
    /// The first moment, in ns, at most `LAST_MOMENT`; `None` where that is the time by which the network has settled
    /// after its last event and was watched.
    pub at: Option<u64>,
    /// How long a fault stays and how long each run goes on after it, in ns, at most `LAST_MOMENT`; `None` where that
    /// is as long as the network is watched after the fault, and after the return.
    pub hold: Option<u64>,
    /// Which kind is left.
    pub only: Option<Only>,
    /// Whether systems that lose their power are cases too, whichever kind is left.
    pub power: bool,
    /// After how long a broken link, or one at a system without power, is seen to be down, in ns; at least 1, at most
    /// `LAST_MOMENT`; `None` where that is at once.
    pub detect: Option<u64>,
    /// In how many parts the cases are dealt out, one after another; at least 1, at most 10,000.
    pub parts: u64,
    /// The part that is tried, from 1 to that.
    pub part: u64,
    /// Whether it is told before each case that it begins.
    pub progress: bool,
    /// Whether it is told what systems read.
    pub times: bool,
    /// What is asked of the worst of all.
    pub limits: Limits,
}

impl FaultsOptions {
    ghost use Rattle.std.specs.Prelude.{◌≡◌};
    ghost use Rattle.gptp_faults.specs.Options.{tracks};

    /// Whether it is asked what systems read: to tell it, or by a limit.
    pub(crate) fn tracks(&self) -> bool
        ensures { result ≡ tracks self.now }
    {
        self.times || self.limits.asks_times()
    }
}
