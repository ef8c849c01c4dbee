//! What the text of a certificate promises by itself.

ghost use Rattle.std.specs.Prelude.{◌≡◌, ◌≢◌, ◌⊎◌, ℕ, List};
ghost use Rattle.gptp_graph.specs.Labelling.{SystemLine};
ghost use Rattle.gptp_certificate_text.specs.declared.fault.CertificateFault.{CertificateFault};
ghost use Rattle.gptp_certificate_text.specs.Certificate.{IsCertificate, IsVersion};
ghost use Rattle.gptp_certificate_text.specs.CertificateText.{certificate_text};
ghost use Rattle.gptp_certificate_text.specs.Entries.{IsReadable};
ghost use Rattle.gptp_certificate_text.specs.Parsing.{FailsToParse, FailsFrom};

/// A text that fails is the text of no certificate that can be read.
pub fn a_text_that_fails_is_no_certificates()
    ensures { (text : List ℕ) (fault : CertificateFault) (version : ℕ) (lines : List SystemLine)
        → FailsToParse text fault → IsCertificate version lines → IsReadable version lines
        → text ≢ certificate_text version lines }
{}

/// A text fails in one way at most.
pub fn a_text_fails_in_one_way()
    ensures { (text : List ℕ) (first second : CertificateFault) → FailsToParse text first → FailsToParse text second
        → first ≡ second }
{}

/// A text fails at one place at most.
pub fn a_text_fails_at_one_place()
    ensures { (text : List ℕ) (first second : CertificateFault) (part other : List ℕ)
        → FailsFrom text first part → FailsFrom text second other → part ≡ other }
{}

/// Two certificates that can be read differ in their texts: so what was printed is read back.
pub fn a_text_is_one_certificates()
    ensures { (version second : ℕ) (one other : List SystemLine)
        → IsVersion version → IsVersion second → IsReadable version one → IsReadable second other
        → certificate_text version one ≡ certificate_text second other → (version ≡ second) × (one ≡ other) }
{}

/// Every text is that of a certificate that can be read, or fails.
pub fn every_text_is_a_certificates_or_fails()
    ensures { (text : List ℕ)
        → ((version : ℕ) × (lines : List SystemLine) × (text ≡ certificate_text version lines)
        × IsReadable version lines × IsCertificate version lines)
        ⊎ ((fault : CertificateFault) × FailsToParse text fault) }
{}

/// A text that fails does so at some place.
pub fn a_text_that_fails_has_a_place()
    ensures { (text : List ℕ) (fault : CertificateFault) → FailsToParse text fault
        → (part : List ℕ) × FailsFrom text fault part }
{}
