//! Certificates.

use gptp_roles::Role;
use gptp_vector::{ClockId, Identity, PortId};
use std::marker::Model;

/// How many octets the text of a certificate may have. That of 512 systems with the most ports fits.
pub const CERTIFICATE_LIMIT: usize = 1_048_576;

/// What one system says: the root that it follows, how many steps away that is (stepsRemoved), the number of its Slave
/// port with the port at the other end that it follows, if it has one, and the role of each port, by rising number. A
/// far line is that of a system 255 or more steps from the best of its component: it has no parent and no ports.
#[derive(Debug, Drop)]
pub struct SystemLine {
    pub clock: ClockId,
    pub root: Identity,
    pub steps: u16,
    pub far: bool,
    pub parent: Option<(u16, PortId)>,
    pub ports: Vec<(u16, Role)>,
}

/// What the systems of a network say, by rising clock, in version 1 or 2; far lines stand in version 2 alone. It is
/// seen as its version and its lines, as gptp_graph has them.
#[derive(Debug, Drop)]
pub struct Certificate {
    pub(crate) version: u8,
    pub(crate) lines: Vec<SystemLine>,
}

impl Model for Certificate {
    ghost use Rattle.gptp_certificate_text.specs.Certificate.{lines_of, CertificateContent, IsCertificate};

    ghost Value = { CertificateContent };

    ghost view = { λ c. record { version = c.version; lines = lines_of c.lines.items } };

    ghost invariant = { λ c. IsCertificate c.version (lines_of c.lines.items) };
}

impl Certificate {
    ghost use Rattle.std.specs.Prelude.{◌≡◌, length, option_map, slice_get};
    ghost use Rattle.gptp_certificate_text.specs.Certificate.{line_of, lines_of, IsCertificate};

    /// The certificate of this version, 1 or 2, with these lines, whose clocks rise, as do the port numbers of each
    /// line. Far lines are bare, and stand in version 2 alone.
    pub fn of_lines(version: u8, lines: Vec<SystemLine>) -> Self
        requires is { IsCertificate version (lines_of lines.items) }
        ensures version { result.version ≡ version }
        ensures lines { result.lines ≡ lines_of lines.items }
    {
        Certificate { version, lines }
    }

    /// The number in its first line, 1 or 2.
    pub fn version(&self) -> u8
        ensures { result ≡ self.now.version }
    {
        self.version
    }

    /// How many systems it has lines of.
    pub fn len(&self) -> usize
        ensures { result ≡ length self.now.lines }
    {
        self.lines.len()
    }

    /// The line of a system by its place from 0, by rising clock.
    pub fn line(&self, place: usize) -> Option<&SystemLine>
        ensures { option_map (λ line. line_of line.now) result ≡ slice_get self.now.lines place }
    {
        self.lines.as_slice().get(place)
    }

    /// Its version is 1 or 2, its clocks rise, and so do the port numbers of each line; far lines are bare, and stand
    /// in version 2 alone.
    pub fn well_formed(&self)
        ensures { IsCertificate self.now.version self.now.lines }
    {
        let _ = &self.lines;
    }
}
