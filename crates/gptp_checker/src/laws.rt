//! What the faults of certificates promise beyond single calls.

ghost use Rattle.std.specs.Prelude.{◌≡◌, ◌≤◌, ◌⊎◌, ℕ, List, length};
ghost use Rattle.gptp_graph.specs.Labelling.{SystemLine, line_clocks};
ghost use Rattle.gptp_graph.specs.Order.{IsRising};
ghost use Rattle.gptp_graph.specs.Snapshot.{IsWellFormed, Snapshot, clocks};
ghost use Rattle.gptp_network.specs.Snapshot.{IsWithinLimits};
ghost use Rattle.gptp_certificate_text.specs.declared.certificate.TheConstants.{CERTIFICATE_LIMIT};
ghost use Rattle.gptp_certificate_text.specs.Certificate.{IsCertificate, IsVersion};
ghost use Rattle.gptp_certificate_text.specs.CertificateText.{certificate_text};
ghost use Rattle.gptp_certificate_text.specs.Entries.{IsReadable};
ghost use Rattle.gptp_checker.specs.Faults.{IsAccepted, IsFirstFault};
ghost use Rattle.gptp_checker.specs.Located.{IsLocation};
ghost use Rattle.gptp_checker.specs.declared.fault.Fault.{Fault};
ghost use Rattle.gptp_checker.specs.declared.location.Location.{Location};

/// A certificate has one first fault at most.
pub fn a_certificate_has_one_first_fault()
    ensures { (version : ℕ) (g : Snapshot) (lines : List SystemLine) (one other : Fault)
        → IsFirstFault version g lines one → IsFirstFault version g lines other → one ≡ other }
{}

/// A fault of a certificate has one first place at most.
pub fn a_fault_has_one_place()
    ensures { (fault : Fault) (g : Snapshot) (lines : List SystemLine) (one other : Location) → IsWellFormed g
        → IsRising (line_clocks lines)
        → IsLocation fault g lines one → IsLocation fault g lines other → one ≡ other }
{}

/// The choice that a network settles at, in version 1 with all steps below 255, has no fault.
pub fn the_settled_choice_has_no_fault()
    ensures { (version : ℕ) (g : Snapshot) (lines : List SystemLine) (fault : Fault) → IsWellFormed g
        → IsAccepted version g lines → IsFirstFault version g lines fault → ⊥ }
{}

/// At most one certificate is accepted of a network: two whose lines stand by rising clock are the same, in whichever
/// versions.
pub fn one_certificate_is_accepted()
    ensures { (version other : ℕ) (g : Snapshot) (lines others : List SystemLine) → IsWellFormed g
        → IsRising (line_clocks lines) → IsRising (line_clocks others)
        → IsAccepted version g lines → IsAccepted other g others → lines ≡ others }
{}

/// What is accepted of the snapshot of a document can be read from its text, which is short enough for that.
pub fn what_is_accepted_can_be_read()
    ensures readable { (version : ℕ) (g : Snapshot) (lines : List SystemLine) → IsVersion version → IsWellFormed g
        → IsWithinLimits g → IsAccepted version g lines → IsReadable version lines }
    ensures short { (version : ℕ) (g : Snapshot) (lines : List SystemLine) → IsVersion version → IsWellFormed g
        → IsWithinLimits g → IsAccepted version g lines → length (certificate_text version lines) ≤ CERTIFICATE_LIMIT }
{}

/// Whatever lines are stated of a network, in whichever version, they are accepted or have a first fault.
pub fn every_certificate_is_accepted_or_has_a_fault()
    ensures { (version : ℕ) (g : Snapshot) (lines : List SystemLine) → IsWellFormed g
        → IsAccepted version g lines ⊎ ((fault : Fault) × IsFirstFault version g lines fault) }
{}

/// The first fault of a certificate has a place in each network whose systems stand by rising clock.
pub fn every_first_fault_has_a_place()
    ensures { (version : ℕ) (g : Snapshot) (lines : List SystemLine) → IsWellFormed g → IsRising (clocks g)
        → IsCertificate version lines → (fault : Fault) → IsFirstFault version g lines fault
        → (place : Location) × IsLocation fault g lines place }
{}
