//! Documents.

ghost use Rattle.std.specs.Prelude.{◌≡◌, ◌⊎◌, ◌↔◌, IsTrue, None, Ok, Some, IfOk, IfErr, OnErr, OnOk};
ghost use Rattle.toml.specs.View.{table_view};
ghost use Rattle.gptp_scenario.specs.Calm.{last_change, IsCalm};
ghost use Rattle.gptp_scenario.specs.Network.{smallest_of};
ghost use Rattle.gptp_setup.specs.Intervals.{interval_of, IsMoment};
ghost use Rattle.gptp_scenario.specs.Allowed.{AreAllowed};
ghost use Rattle.gptp_scenario.specs.Prompt.{ArePromptActs};
ghost use Rattle.gptp_scenario.specs.SettlingTime.{settles};
ghost use Rattle.gptp_network.specs.Adding.{adding_fault, with_event, with_first};
ghost use Rattle.gptp_network.specs.Events.{AreEvents, IsInRange};
ghost use Rattle.gptp_network.specs.Faults.{RefusesDocument};
ghost use Rattle.gptp_network.specs.Snapshot.{IsSnapshot, events_by};
ghost use Rattle.gptp_network.specs.Document.{Parses, Means, Fails, IsNoToml, document_of, seeded_document};
ghost use Rattle.gptp_network.specs.ReadDocument.{read_document, read_version, read_whole_network};
ghost use Rattle.gptp_network.specs.Why.{StopsAt};

use crate::events::{Event, adding_fault, events_by, events_of, last_change, push_event};
use crate::fault::DocumentFault;
use crate::keys::VERSION;
use crate::links::add_links;
use crate::params::network_of;
use crate::place::Place;
use crate::snapshot::Snapshot;
use crate::systems::add_systems;
use crate::values::natural;
use crate::why::Refusal;
use gptp_scenario::{Change, Network, Timed};
use std::alloc::{AllocError, Global};
use std::marker::Model;
use toml::Table;

/// A network, and what is changed in it when. It is seen as these two.
#[derive(Drop)]
pub struct Document {
    network: Network,
    events: Vec<Timed>,
}

impl Model for Document {
    ghost use Rattle.gptp_network.specs.Document.{DocumentState};

    ghost Value = { DocumentState };

    ghost use Rattle.gptp_network.specs.Events.{AreEvents};

    ghost view = { λ d. record { network = d.network; events = d.events.items } };

    ghost invariant = { λ d. AreEvents d.network d.events.items };
}

impl Document {
    /// Reads a document: TOML text with a `version`, which is 1 or 2, and the sections `[network]`, `[[system]]`,
    /// `[[link]]` and `[[event]]` (profile). Their keys, with their ranges and defaults, are those that `specs/` lists.
    /// Unknown keys are ignored, and in version 1 the announce intervals of a system's ports are such a key.
    ///
    /// Refused by the first test that fails. `NotToml` is the text. Then come the sections in that order, in each its
    /// members in their order, in each of these its keys in their order, and in each key `MissingKey`, `WrongKind`,
    /// `OutOfRange`. A section of another kind is `WrongKind`, one with more members than its limit (512 systems, 2,048
    /// links, 4,096 events) `TooMany` before they are read, and no system is `MissingKey`. After its keys `[network]`
    /// is tested for `Timing`, a system for `Timing` and `DuplicateClock`, a link for `OutOfRange` where `min` is above
    /// `max`, `SelfLink`, `NoSuchPort`, `PortTaken` and `DelayTooLong`, and an event for `EventOrder` and then as its
    /// kind asks. `OutOfMemory` can come at any point.
    pub fn read(alloc: Global, text: &[u8]) -> Result<Self, DocumentFault>
        ensures document { IfOk result (Means text.now) }
        ensures refused { IfErr result (λ e. (e ≡ DocumentFault.OutOfMemory) ⊎ Fails text.now e) }
    {
        match table_of(alloc, text) {
            Ok(table) => document_of(alloc, &table),
            Err(fault) => Err(fault),
        }
    }

    /// The document that a table describes, read as `read` reads that of a text. Where it is refused, also says where,
    /// and what the test that fails saw.
    #[tactic(auto, unfolding(crate::specs::ReadDocument::read_document))]
    pub fn of_table(alloc: Global, table: &Table) -> Result<Self, Refusal>
        ensures document { IfOk result (λ d. read_document (table_view table.now) ≡ Ok d) }
        ensures refused { StopsAt (read_document (table_view table.now)) result }
    {
        let version = version_of(table)?;
        let network = whole_network_of(alloc, version, table)?;
        match events_of(alloc, table, &network) {
            Ok(events) => Ok(Document { network, events }),
            Err(refusal) => Err(refusal),
        }
    }

    /// The network as it is at first.
    pub fn network(&self) -> &Network
        ensures { result.now ≡ self.now.network }
    {
        &self.network
    }

    /// The network as it stands at a time, in ns: the live systems, and the links that are up between two of them,
    /// after all events with time up to it. Refused for want of memory alone.
    pub fn snapshot(&self, alloc: Global, at: u64) -> Result<Snapshot, AllocError>
        ensures { IfOk result (IsSnapshot self.now at) }
    {
        Snapshot::after(alloc, &self.network, events_by(&self.events, at))
    }

    /// The events with time up to a time, in ns.
    pub fn events_by(&self, until: u64) -> &[Timed]
        ensures events { result.now ≡ events_by until self.now.events }
        ensures allowed { AreAllowed result.now }
    {
        self.well_formed();
        events_by(self.events(), until)
    }

    /// The time of the last event, in ns, or 0.
    pub fn last_change(&self) -> u64
        ensures { result ≡ last_change self.now.events }
    {
        last_change(&self.events)
    }

    /// Whether the network is calm after all events: each link that then is up between two live systems loses nothing,
    /// and its greatest delay is short enough for the threshold; and nothing lapses for want of Sync: `sync_timeout` is
    /// 0, or a settled system waits for Sync for less than so many sync intervals.
    pub fn calm(&self) -> bool
        ensures { IsTrue result ↔ IsCalm self.now.network self.now.events }
    {
        self.network.is_calm(&self.events)
    }

    /// The time by which the network has settled, in ns, if it is calm: at most `LAST_MOMENT`.
    #[tactic(auto, using(crate::proofs::EventLemmas::early_from))]
    pub fn settles(&self) -> u64
        ensures time { result ≡ settles self.now.network self.now.events }
        ensures bound { IsMoment result }
    {
        self.well_formed();
        last_change(&self.events) + self.network.settling_span(&self.events)
    }

    /// The events are in order, at most at `LATEST_EVENT`, and each can be made in the network: what it names is there,
    /// and the bounds that it sets can be those of a link: its greatest delay is at most the announce interval of each
    /// port. So a world can be asked for each of them.
    pub fn well_formed(&self)
        ensures events { AreEvents self.now.network self.now.events }
        ensures allowed { AreAllowed self.now.events }
        ensures prompt { ArePromptActs (interval_of (smallest_of self.now.network)) self.now.events }
    {
        self.network.well_formed();
    }

    /// Puts an event after the others. Refused by the first test that it fails, as if it were the last of the text:
    /// 4,096 events are there, it is later than `LATEST_EVENT`, earlier than the last, or what its kind asks isn't so.
    /// `OutOfMemory` can come after them. A refusal changes nothing.
    pub fn add(&mut self, at: u64, change: Change) -> Result<(), DocumentFault>
        requires { IsInRange change }
        ensures passed { OnOk result (adding_fault self.old at change ≡ None) }
        ensures added { OnOk result (self.new ≡ with_event at change self.old) }
        ensures refused { IfErr result (λ e. (e ≡ DocumentFault.OutOfMemory) ⊎ (adding_fault self.old at change ≡ Some e)) }
        ensures same { OnErr result (self.new ≡ self.old) }
    {
        match adding_fault(&self.network, &self.events, at, &change) {
            Some(fault) => Err(fault),
            None => push_event(&mut self.events, &self.network, Event { at, change }),
        }
    }

    /// Leaves the first events, so many, and takes the others off.
    #[tactic(auto, using(crate::proofs::EventLemmas::first_are))]
    pub fn truncate(&mut self, count: usize)
        ensures { self.new ≡ with_first count self.old }
    {
        self.events.truncate(count);
    }

    /// The systems of the network draw the noise of their time stamps from this seed.
    pub fn set_seed(&mut self, seed: u64)
        ensures { self.new ≡ seeded_document seed self.old }
    {
        self.network.set_seed(seed);
    }

    /// What is changed when, in the order of the document.
    pub fn events(&self) -> &[Timed]
        ensures { result.now ≡ self.now.events }
    {
        &self.events
    }
}

/// The table that a text spells.
fn table_of(alloc: Global, text: &[u8]) -> Result<Table, DocumentFault>
    ensures table { IfOk result (λ t. Parses text.now (table_view t)) }
    ensures refused { IfErr result (λ e. (e ≡ DocumentFault.OutOfMemory) ⊎ ((e ≡ DocumentFault.NotToml) × IsNoToml text.now)) }
{
    match toml::table_from_slice(alloc, text) {
        Ok(table) => Ok(table),
        Err(error) => {
            if error.is_memory() {
                Err(DocumentFault::OutOfMemory)
            } else {
                Err(DocumentFault::NotToml)
            }
        }
    }
}

/// The version of a document.
fn version_of(table: &Table) -> Result<u64, Refusal>
    ensures { result ≡ read_version (table_view table.now) }
{
    match natural(table, VERSION) {
        Ok(version) => Ok(version),
        Err(why) => Err(Refusal {
            place: Place::Top,
            why,
        }),
    }
}

/// The network of a document of this version.
#[tactic(auto, unfolding(crate::specs::ReadDocument::read_whole_network))]
fn whole_network_of(alloc: Global, version: u64, table: &Table) -> Result<Network, Refusal>
    ensures network { IfOk result (λ n. read_whole_network version (table_view table.now) ≡ Ok n) }
    ensures refused { StopsAt (read_whole_network version (table_view table.now)) result }
{
    let mut network = network_of(alloc, table)?;
    match add_systems(&mut network, version, table) {
        Ok(()) => match add_links(&mut network, table) {
            Ok(()) => Ok(network),
            Err(refusal) => Err(refusal),
        },
        Err(refusal) => Err(refusal),
    }
}

/// The document that a table describes; where it is refused, the fault alone.
#[tactic(auto, using(crate::proofs::ForgetLemmas::read_is, crate::proofs::ForgetLemmas::refused_is))]
fn document_of(alloc: Global, table: &Table) -> Result<Document, DocumentFault>
    ensures document { IfOk result (λ d. document_of (table_view table.now) ≡ Ok d) }
    ensures refused { RefusesDocument (document_of (table_view table.now)) result }
{
    match Document::of_table(alloc, table) {
        Ok(document) => Ok(document),
        Err(refusal) => Err(refusal.why.fault()),
    }
}
