//! How long a network takes at most to settle.

ghost use Rattle.std.specs.Prelude.{◌≡◌, ◌≤◌, ◌+◌, ◌*◌};
ghost use Rattle.gptp_scenario.specs.Params.{KeepParams};
ghost use Rattle.gptp_scenario.specs.SettlingAtOnce.{settling_span_at_once};
ghost use Rattle.gptp_scenario.specs.SettlingTime.{settling_span, settling_span_with};
ghost use Rattle.gptp_setup.specs.Intervals.{IsLog};

use crate::change::Timed;
use crate::network::Network;
use crate::sync_wait::{SyncPaths, step_more, sync_wait};
use gptp_setup::{Params, interval_of};

/// How long a network of that largest announce interval in which nothing lapses takes at most to settle, in ns.
#[tactic(auto, using(crate::proofs::SpanLemmas::few_systems))]
fn settling_span(params: &Params, largest: i8, live: u64) -> u64
    requires params { KeepParams params.now }
    requires largest { IsLog largest }
    requires live { live ≤ 512 }
    ensures span { result ≡ settling_span (record { params = params.now; largest = largest }) live }
    ensures bound { result ≤ 160000000000000 }
{
    let intervals = (u64::from(params.timeout) + 3) * live + u64::from(params.lost) + 5;
    times(intervals, interval_of(largest))
}

/// How long so many intervals take together.
#[tactic(auto, using(crate::proofs::SpanLemmas::few_intervals))]
fn times(intervals: u64, interval: u64) -> u64
    requires few { intervals ≤ 10000 }
    requires short { interval ≤ 16000000000 }
    ensures span { result ≡ intervals * interval }
    ensures bound { result ≤ 160000000000000 }
{
    intervals * interval
}

/// How long a network of that largest announce interval takes at most to settle where Sync has these paths to cross, in
/// ns.
#[tactic(auto, using(crate::proofs::SpanLemmas::few_steps))]
fn settling_span_with(params: &Params, largest: i8, paths: SyncPaths, live: u64) -> u64
    requires params { KeepParams params.now }
    requires largest { IsLog largest }
    requires few { paths.systems ≤ 512 }
    requires short { paths.delay ≤ 16000000000 }
    requires live { live ≤ 512 }
    ensures span { result ≡ settling_span_with (record { params = params.now; largest = largest }) paths live }
    ensures bound { result ≤ 195000000000000 }
{
    settling_span(params, largest, live) + live * step_more(params, largest, paths)
}

/// How long it takes from any past where nothing lapses and a path has so many systems, sharply, in ns.
#[tactic(auto, using(crate::proofs::SpanLemmas::few_spans, crate::proofs::SpanLemmas::few_steps))]
fn settling_span_at_once(params: &Params, largest: i8, paths: SyncPaths) -> u64
    requires params { KeepParams params.now }
    requires largest { IsLog largest }
    requires few { paths.systems ≤ 512 }
    requires short { paths.delay ≤ 16000000000 }
    ensures span { result ≡ settling_span_at_once (record { params = params.now; largest = largest }) paths }
    ensures bound { result ≤ 110000000000000 }
{
    let interval = interval_of(largest);
    let capable = (u64::from(params.lost) + 5) * interval;
    let turn = u64::from(params.timeout) * interval + paths.delay;
    let clean = 2 * interval + paths.systems as u64 * turn;
    let further = paths.systems.saturating_sub(1) as u64;
    capable.max(clean) + interval + further * paths.delay
}

impl Network {
    ghost use Rattle.std.specs.Prelude.{◌≡◌, ◌≤◌};
    ghost use Rattle.gptp_scenario.specs.Allowed.{AreAllowed};
    ghost use Rattle.gptp_scenario.specs.InUse.{greatest_delay, count_live};
    ghost use Rattle.gptp_scenario.specs.Network.{pace_of};
    ghost use Rattle.gptp_scenario.specs.SettlingAtOnce.{settling_span_at_once};
    ghost use Rattle.gptp_scenario.specs.SettlingTime.{settling_span_with};
    ghost use Rattle.gptp_scenario.specs.SyncWait.{sync_paths, sync_wait};

    /// For how long a settled system waits for Sync at most, in ns, where it has these paths to cross: a sync interval,
    /// and a residence time and the greatest delay for each link of a path.
    pub fn sync_wait(&self, paths: SyncPaths) -> u64
        requires few { paths.systems ≤ 512 }
        requires short { paths.delay ≤ 16000000000 }
        ensures { result ≡ sync_wait self.now.params paths }
    {
        self.well_formed();
        sync_wait(&self.params(), paths)
    }

    /// How long the network takes at most to settle after these events, in ns, by how many systems live.
    #[tactic(auto, using(crate::proofs::SyncWaitLemmas::never_longer))]
    pub fn settling_span(&self, events: &[Timed]) -> u64
        requires { AreAllowed events.now }
        ensures span { result ≡ settling_span_with (pace_of self.now) (sync_paths self.now events.now)
            (count_live self.now.systems events.now) }
        ensures bound { result ≤ 195000000000000 }
    {
        self.well_formed();
        let params = self.params();
        let live = self.live_systems(events);
        if params.sync_timeout == 0 {
            settling_span(&params, self.largest(), live)
        } else {
            settling_span_with(&params, self.largest(), self.sync_paths(events), live)
        }
    }

    /// How long the network takes at most to settle after these events where no path over its live systems and the
    /// links in use has more than so many systems, in ns: k + 3 of its largest announce intervals for each, and L + 5
    /// more, with announce receipt timeout k and L lost responses allowed. Where something may lapse for want of Sync,
    /// and Sync comes in time, each adds by how much the wait for Sync and the greatest delay are above an announce
    /// interval.
    #[tactic(auto, using(crate::proofs::SyncWaitLemmas::never_longer))]
    pub fn settling_span_over(&self, systems: usize, events: &[Timed]) -> u64
        requires few { systems ≤ 512 }
        requires allowed { AreAllowed events.now }
        ensures span { result ≡ settling_span_with (pace_of self.now)
            (record { systems = systems; delay = greatest_delay self.now.systems events.now self.now.links })
            systems }
        ensures bound { result ≤ 195000000000000 }
    {
        self.well_formed();
        let params = self.params();
        if params.sync_timeout == 0 {
            settling_span(&params, self.largest(), systems as u64)
        } else {
            let delay = self.greatest_delay(events);
            self.settling_span_with(SyncPaths { systems, delay })
        }
    }

    /// How long the network takes at most to settle where Sync has these paths to cross, in ns.
    pub fn settling_span_with(&self, paths: SyncPaths) -> u64
        requires few { paths.systems ≤ 512 }
        requires short { paths.delay ≤ 16000000000 }
        ensures span { result ≡ settling_span_with (pace_of self.now) paths paths.systems }
        ensures bound { result ≤ 195000000000000 }
    {
        self.well_formed();
        settling_span_with(&self.params(), self.largest(), paths, paths.systems as u64)
    }

    /// How long the network takes at most to settle after these events, whatever came before, in ns, where nothing
    /// lapses for want of Sync and no path over its live systems and the links in use has more than so many systems.
    /// With k, L and the largest announce interval I as for [`Network::settling_span_over`], and M the greatest delay
    /// of a link in use: the greater of (L + 5)·I and of 2·I and k·I + M for each system; then I, and M for each
    /// further system.
    pub fn settling_span_at_once(&self, systems: usize, events: &[Timed]) -> u64
        requires few { systems ≤ 512 }
        requires allowed { AreAllowed events.now }
        ensures span { result ≡ settling_span_at_once (pace_of self.now)
            (record { systems = systems; delay = greatest_delay self.now.systems events.now self.now.links }) }
        ensures bound { result ≤ 110000000000000 }
    {
        self.well_formed();
        let delay = self.greatest_delay(events);
        settling_span_at_once(&self.params(), self.largest(), SyncPaths { systems, delay })
    }
}
