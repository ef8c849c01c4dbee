//! What documents promise beyond single calls.

ghost use Rattle.std.specs.Prelude.{◌≡◌, ◌⊎◌, ℕ, List};
ghost use Rattle.toml.specs.Data.{Members};
ghost use Rattle.gptp_graph.specs.Snapshot.{IsWellFormed, Snapshot};
ghost use Rattle.gptp_scenario.specs.Network.{IsNetwork};
ghost use Rattle.gptp_network.specs.Document.{DocumentState, Fails, Means, document_of};
ghost use Rattle.gptp_network.specs.Events.{AreEvents};
ghost use Rattle.gptp_network.specs.ReadDocument.{read_document};
ghost use Rattle.gptp_network.specs.Snapshot.{IsSnapshot, IsWithinLimits};
ghost use Rattle.gptp_network.specs.Why.{forget_place};
ghost use Rattle.gptp_network.specs.declared.fault.DocumentFault.{DocumentFault};

/// A text means one document at most.
pub fn a_text_means_one_document()
    ensures { (text : List ℕ) (one other : DocumentState) → Means text one → Means text other → one ≡ other }
{}

/// A text that fails means no document.
pub fn a_text_that_fails_means_no_document()
    ensures { (text : List ℕ) (d : DocumentState) (fault : DocumentFault) → Means text d → Fails text fault → ⊥ }
{}

/// A text fails in one way at most.
pub fn a_text_fails_in_one_way()
    ensures { (text : List ℕ) (first second : DocumentFault) → Fails text first → Fails text second → first ≡ second }
{}

/// A table is refused at a place exactly where it means no document, and why it is refused names the fault.
pub fn a_refusal_names_the_fault()
    ensures { (t : Members) → forget_place (read_document t) ≡ document_of t }
{}

/// Every text means a document or fails.
pub fn every_text_means_a_document_or_fails()
    ensures { (text : List ℕ)
        → ((d : DocumentState) × Means text d) ⊎ ((fault : DocumentFault) × Fails text fault) }
{}

/// What a text means is a network within its limits, with events that can be made in it.
pub fn a_text_means_a_network_with_events()
    ensures { (text : List ℕ) (d : DocumentState) → Means text d → IsNetwork d.network × AreEvents d.network d.events }
{}

/// A document that a text means has a snapshot at each time, and that is well formed; each whose network is within its
/// limits has one.
pub fn a_document_has_a_snapshot()
    ensures meant { (text : List ℕ) (d : DocumentState) (at : ℕ) → Means text d
        → (g : Snapshot) × IsSnapshot d at g × IsWellFormed g }
    ensures network { (d : DocumentState) (at : ℕ) → IsNetwork d.network → (g : Snapshot) × IsSnapshot d at g }
{}

/// A document has one snapshot at a time.
pub fn a_document_has_one_snapshot()
    ensures { (d : DocumentState) (at : ℕ) (one other : Snapshot)
        → IsSnapshot d at one → IsSnapshot d at other → one ≡ other }
{}

/// A snapshot has no more systems, and these no more ports, than a document may have.
pub fn a_snapshot_is_within_limits()
    ensures { (d : DocumentState) (at : ℕ) (g : Snapshot) → IsNetwork d.network → IsSnapshot d at g → IsWithinLimits g }
{}
