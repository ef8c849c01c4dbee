//! How long the network of a document takes at most to settle from a time on.

use crate::document::Document;
use crate::events::events_by;
use crate::snapshot::Snapshot;
use gptp_scenario::{Network, Timed};
use std::alloc::{AllocError, Global};

impl Snapshot {
    ghost use Rattle.std.specs.Prelude.{◌≡◌, ◌≤◌};
    ghost use Rattle.gptp_graph.specs.PathBound.{path_bound};
    ghost use Rattle.gptp_scenario.specs.Allowed.{AreAllowed};
    ghost use Rattle.gptp_scenario.specs.Network.{pace_of};
    ghost use Rattle.gptp_scenario.specs.InUse.{greatest_delay};
    ghost use Rattle.gptp_scenario.specs.SettlingAtOnce.{settling_span_at_once};
    ghost use Rattle.gptp_scenario.specs.SettlingTime.{settling_span_with};
    ghost use Rattle.gptp_scenario.specs.SyncWait.{sync_paths};
    ghost use Rattle.gptp_network.specs.Snapshot.{StandsAfter};

    /// How long a network that stands so after these events takes at most to settle if it is calm, in ns: by how many
    /// systems a path has, and by how long a settled system waits for Sync.
    pub fn settling_span(&self, network: &Network, events: &[Timed]) -> u64
        requires stands { StandsAfter network.now events.now self.now }
        requires allowed { AreAllowed events.now }
        ensures span { result
            ≡ settling_span_with (pace_of network.now) (sync_paths network.now events.now) (path_bound self.now) }
        ensures bound { result ≤ 195000000000000 }
    {
        network.well_formed();
        network.settling_span_over(self.path_bound(), events)
    }

    /// How long it takes at most where nothing lapses for want of Sync, whatever came before, in ns: by how many
    /// systems a path has, and by the greatest delay of a link.
    pub fn settling_span_at_once(&self, network: &Network, events: &[Timed]) -> u64
        requires stands { StandsAfter network.now events.now self.now }
        requires allowed { AreAllowed events.now }
        ensures span { result ≡ settling_span_at_once (pace_of network.now)
            (record {
              systems = path_bound self.now;
              delay = greatest_delay network.now.systems events.now network.now.links;
            }) }
        ensures bound { result ≤ 110000000000000 }
    {
        network.well_formed();
        network.settling_span_at_once(self.path_bound(), events)
    }
}

impl Document {
    ghost use Rattle.std.specs.Prelude.{◌≡◌, ◌↔◌, ◌≤◌, ℕ, IfOk, IsTrue, Option};
    ghost use Rattle.gptp_network.specs.Span.{IsBound, IsCalmAt, IsSpan};

    /// Whether the network is calm after the events up to a time, in ns: each link that then is up between two live
    /// systems loses nothing, and its greatest delay is short enough for the threshold; and nothing lapses for want of
    /// Sync: `sync_timeout` is 0, or a settled system waits for Sync for less than so many sync intervals.
    pub fn calm_at(&self, at: u64) -> bool
        ensures { IsTrue result ↔ IsCalmAt self.now at }
    {
        self.well_formed();
        self.network().is_calm(events_by(self.events(), at))
    }

    /// How long the network, as it stands after the events up to a time, takes at most to settle if it is calm, in ns:
    /// by how many systems a path over the live systems and the links between them has, and by how long a settled
    /// system waits for Sync. Refused for want of memory alone.
    #[tactic(auto, using(crate::proofs::SpanLemmas::allowed_by))]
    pub fn span_at(&self, alloc: Global, at: u64) -> Result<u64, AllocError>
        ensures span { IfOk result (IsSpan self.now at) }
        ensures bound { IfOk result (λ span. span ≤ 195000000000000) }
    {
        self.well_formed();
        let events = events_by(self.events(), at);
        let snapshot = self.snapshot(alloc, at)?;
        Ok(snapshot.settling_span(self.network(), events))
    }

    /// That span where the network is calm then; `None` where it isn't. Refused for want of memory alone.
    pub fn bound_at(&self, alloc: Global, at: u64) -> Result<Option<u64>, AllocError>
        ensures bound { IfOk result (IsBound self.now at) }
        ensures there { (bound : Option ℕ) × IsBound self.now at bound }
    {
        self.network().well_formed();
        match self.calm_at(at) {
            true => Ok(Some(self.span_at(alloc, at)?)),
            false => Ok(None),
        }
    }
}
