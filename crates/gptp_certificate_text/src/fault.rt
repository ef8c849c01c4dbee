//! Why a text is no certificate.

use std::alloc::AllocFailed;
use std::error::Error;
use std::fmt;

/// The first test that a text fails.
#[derive(Clone, Copy, Debug, PartialEq, Eq)]
pub enum CertificateFault {
    /// The text doesn't begin with the head line.
    Head = 1,
    /// A line is missing, or is none of a certificate by its words.
    Line = 2,
    /// A line can't stand after those before it.
    Order = 3,
    /// A word isn't the number that should stand there.
    Spelling = 4,
    /// There is no memory for it.
    OutOfMemory = 5,
}

impl fmt::Display for CertificateFault {
    ghost use Rattle.std.specs.Prelude.{Some};
    ghost use Rattle.gptp_certificate_text.specs.Faults.{certificate_fault_text};

    ghost output = { λ fault. Some (certificate_fault_text fault) };

    fn fmt<W: fmt::Write>(&self, f: &mut fmt::Formatter<W>) -> fmt::Result {
        f.write_str(match self {
            CertificateFault::Head => "1 Head",
            CertificateFault::Line => "2 Line",
            CertificateFault::Order => "3 Order",
            CertificateFault::Spelling => "4 Spelling",
            CertificateFault::OutOfMemory => "5 OutOfMemory",
        })
    }
}

impl Error for CertificateFault {}

impl<T: Drop> From<AllocFailed<T>> for CertificateFault {
    ghost use Rattle.std.specs.Prelude.{◌≡◌};
    ghost use Rattle.gptp_certificate_text.specs.declared.fault.CertificateFault.TheVariants.{OutOfMemory};

    ghost from_gives = { λ _ fault. fault ≡ OutOfMemory };

    fn from(_: AllocFailed<T>) -> Self {
        CertificateFault::OutOfMemory
    }
}
