//! What a system reads of time between two Follow_Ups.

ghost use Rattle.std.specs.Prelude.{◌≡◌, ◌<◌, ◌^◌, unsigned_abs};
ghost use Rattle.gptp_system.specs.Reading.{read_at, read_by, reading_of};

use gptp_correction::SyncInfo;
use gptp_scaled::{Rate, ScaledNs};

/// What a system reads of its root's time from a Follow_Up on that it used (IEEE 802.1AS-2020, 10.2.13,
/// clockSlaveTime). It depends on nothing that happens later but on what the own clock shows.
#[derive(Clone, Copy, Debug, PartialEq, Eq)]
pub struct Reading {
    /// When the Sync came, by the own clock (syncEventIngressTimestamp).
    pub ingress: ScaledNs,
    /// How far the own clock was ahead of the root's then.
    pub offset: ScaledNs,
    /// The rate of the root's clock against the own one.
    pub rate: Rate,
}

/// What a system reads time by.
#[derive(Clone, Copy, Debug, PartialEq, Eq)]
pub enum TimeRead {
    /// The Follow_Up that it used last.
    Received(Reading),
    /// Its own clock and its base: it took over.
    Own,
}

/// What a Follow_Up leaves whose numbers fit, where the neighbour has this rate.
pub(crate) fn reading_of(known: &SyncInfo, offset: ScaledNs, neighbour: Rate) -> Reading
    ensures { result ≡ reading_of known.now offset neighbour }
{
    let sum = known.rate.q().saturating_add(neighbour.q());
    Reading {
        ingress: known.ingress,
        offset,
        rate: Rate::new(sum),
    }
}

impl Reading {
    /// What is read where the own clock shows `shown`, in units of 2^-16 ns.
    pub fn at(&self, shown: ScaledNs) -> i128
        ensures is { result ≡ read_at self.now shown }
        ensures small { unsigned_abs result < 2 ^ 99 }
    {
        let received = self.ingress.value() - self.offset.value();
        received + self.rate.scale_between(self.ingress, shown)
    }
}

impl TimeRead {
    /// What is read where the own clock shows `shown`, in units of 2^-16 ns, by a system with this base.
    pub fn at(&self, base: ScaledNs, shown: ScaledNs) -> i128
        ensures is { result ≡ read_by self.now base shown }
        ensures small { unsigned_abs result < 2 ^ 99 }
    {
        match self {
            TimeRead::Received(reading) => reading.at(shown),
            TimeRead::Own => shown.value() + base.value(),
        }
    }
}
