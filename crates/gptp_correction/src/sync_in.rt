//! A Follow_Up and the Sync that it belongs to.

ghost use Rattle.std.specs.Prelude.{◌≡◌, ◌+ℤ◌, Some, None};
ghost use Rattle.gptp_scaled.specs.Rate.{FitsRate};
ghost use Rattle.gptp_correction.specs.Correction.{held_sum};
ghost use Rattle.gptp_correction.specs.SyncIn.{kept, information};

use gptp_messages::FollowUp;
use gptp_scaled::{Interval, Rate, ScaledNs, Stamp};
use gptp_vector::PortId;
use std::marker::Model;

/// A Sync of which the Follow_Up may come.
#[derive(Clone, Copy, Debug, PartialEq, Eq)]
struct KeptSync {
    source: PortId,
    sequence: u16,
    ingress: ScaledNs,
}

/// The Sync that came last and waits for its Follow_Up (IEEE 802.1AS-2020, 11.2.14): its source, its number
/// and when it came, or nothing. It is seen as that.
#[derive(Clone, Copy, Debug, PartialEq, Eq)]
pub struct SyncIn {
    kept: Option<KeptSync>,
}

/// What a Sync and its Follow_Up say together.
#[derive(Clone, Copy, Debug, PartialEq, Eq)]
pub struct SyncInfo {
    /// The preciseOriginTimestamp: the grandmaster's clock as the Sync left it.
    pub origin: Stamp,
    /// The correctionField: what has been added to the origin on the way, in units of 2^-16 ns.
    pub correction: Interval,
    /// The cumulativeScaledRateOffset: the rate of the grandmaster's clock against the sender's.
    pub rate: Rate,
    /// The syncEventIngressTimestamp: when the Sync came, by the own clock.
    pub ingress: ScaledNs,
}

impl SyncInfo {
    /// What a Sync and its Follow_Up say, with the rate nearest to the one received whose sum with the rate of the
    /// neighbour has 32 bits. Then neither [`relay`](crate::relay) nor [`receipt_time`](crate::receipt_time) is refused
    /// for that sum (profile). Where the sum has 32 bits already nothing changes.
    pub fn held_sum(&self, neighbour: Rate) -> SyncInfo
        ensures held { result ≡ held_sum self.now neighbour }
        ensures fits { FitsRate (result.rate +ℤ neighbour) }
    {
        let sum = self.rate.q().saturating_add(neighbour.q());
        SyncInfo {
            origin: self.origin,
            correction: self.correction,
            rate: Rate::new(sum - neighbour.q()),
            ingress: self.ingress,
        }
    }
}

impl Model for SyncIn {
    ghost use Rattle.std.specs.Prelude.{Option};
    ghost use Rattle.gptp_correction.specs.SyncIn.{KeptSync};

    ghost Value = { Option KeptSync };

    ghost view = { λ s. s.kept };

    ghost inverse = { λ k. record { kept = k } };
}

impl SyncIn {
    /// No Sync is kept.
    pub const fn new() -> SyncIn
        ensures { result ≡ None }
    {
        SyncIn { kept: None }
    }

    /// Forgets the Sync that is kept.
    pub fn clear(&mut self)
        ensures { self.new ≡ None }
    {
        self.kept = None;
    }

    /// Keeps a Sync in place of the one that is kept: its source and number, and when it came, by the
    /// own clock.
    pub fn on_sync(&mut self, source: PortId, sequence: u16, ingress: ScaledNs)
        ensures { self.new ≡ Some (kept source sequence ingress) }
    {
        self.kept = Some(KeptSync {
            source,
            sequence,
            ingress,
        });
    }

    /// What a Follow_Up says with the Sync that is kept, where it has the same source and number; `None`
    /// where it has not, or none is kept. What is kept stays: another Follow_Up of it is answered alike.
    pub fn on_follow_up(&mut self, follow_up: &FollowUp) -> Option<SyncInfo>
        ensures information { result ≡ information self.old follow_up.now }
        ensures unchanged { self.new ≡ self.old }
    {
        let kept = self.kept?;
        if kept.source != follow_up.head.source || kept.sequence != follow_up.head.sequence {
            return None;
        }
        Some(SyncInfo {
            origin: follow_up.origin,
            correction: Interval::new(follow_up.head.correction),
            rate: follow_up.rate,
            ingress: kept.ingress,
        })
    }
}

impl Default for SyncIn {
    ghost use Rattle.std.specs.Prelude.{◌≡◌, None};

    ghost is_default = { λ s. s ≡ None };

    fn default() -> Self {
        Self::new()
    }
}
