//! What a bridge sends on, and what a slave reads.

ghost use Rattle.std.specs.Prelude.{◌≡◌, ◌+ℤ◌, OkIff};
ghost use Rattle.gptp_scaled.specs.Interval.{FitsInterval};
ghost use Rattle.gptp_scaled.specs.ScaledNs.{FitsScaled};
ghost use Rattle.gptp_correction.specs.Correction.{bridge, sync_received, relayed, ReceiptFits, RelayFits};

use crate::sync_in::SyncInfo;
use gptp_scaled::{Interval, OutOfRange, Rate, ScaledNs, Stamp};

/// One system on the way of a Sync, and the link over which it came there.
#[derive(Clone, Copy, Debug, PartialEq, Eq)]
pub struct Hop {
    /// The meanLinkDelay of the link, by the neighbour's clock.
    pub delay: ScaledNs,
    /// The neighborRateRatio: the rate of the neighbour's clock against the own.
    pub neighbour: Rate,
    /// When the Sync came, by the own clock.
    pub ingress: ScaledNs,
    /// When it was sent on, by the own clock. A slave sends none on, and its egress isn't read.
    pub egress: ScaledNs,
}

/// What the Follow_Up that a bridge sends says.
#[derive(Clone, Copy, Debug, PartialEq, Eq)]
pub struct Relayed {
    /// The preciseOriginTimestamp, as it came.
    pub origin: Stamp,
    /// The correctionField.
    pub correction: Interval,
    /// The cumulativeScaledRateOffset.
    pub rate: Rate,
}

/// What is carried beside the origin.
#[derive(Clone, Copy, Debug, PartialEq, Eq)]
pub(crate) struct Carried {
    pub(crate) correction: Interval,
    pub(crate) rate: Rate,
}

/// The correction with a time added to it; refused where it doesn't fit.
fn corrected(correction: Interval, time: ScaledNs) -> Result<Interval, OutOfRange>
    ensures { OkIff result (FitsInterval (correction +ℤ time)) (correction +ℤ time) }
{
    match i64::try_from(correction.scaled().value() + time.value()) {
        Ok(value) => Ok(Interval::new(value)),
        Err(_) => Err(OutOfRange::OutOfRange),
    }
}

/// The origin with the correction and a time added to it; refused where it doesn't fit.
fn later(origin: ScaledNs, correction: Interval, time: ScaledNs) -> Result<ScaledNs, OutOfRange>
    ensures { let sum = (origin +ℤ correction) +ℤ time in OkIff result (FitsScaled sum) sum }
{
    ScaledNs::new(origin.value() + correction.scaled().value() + time.value())
}

impl Carried {
    ghost use Rattle.std.specs.Prelude.{◌≡◌, OkIff};
    ghost use Rattle.gptp_correction.specs.Correction.{carried_on, receipt, BridgeFits, SlaveFits};

    /// What is carried on after a bridge.
    pub(crate) fn on(self, hop: &Hop) -> Result<Carried, OutOfRange>
        ensures { let sent = carried_on self hop.now in OkIff result (BridgeFits hop.now sent) sent }
    {
        let upstream = hop.ingress.checked_sub(hop.neighbour.unscale(hop.delay)?)?;
        let rate = self.rate.plus(hop.neighbour)?;
        let passage = rate.scale(hop.egress.checked_sub(upstream)?)?;
        Ok(Carried {
            correction: corrected(self.correction, passage)?,
            rate,
        })
    }

    /// When a Sync came to a slave, by the grandmaster's clock.
    pub(crate) fn receipt(
        self,
        origin: ScaledNs,
        delay: ScaledNs,
        neighbour: Rate,
    ) -> Result<ScaledNs, OutOfRange>
        ensures { OkIff result (SlaveFits origin self delay neighbour) (receipt origin self delay neighbour) }
    {
        let rate = self.rate.plus(neighbour)?;
        let link_time = rate.scale(neighbour.unscale(delay)?)?;
        later(origin, self.correction, link_time)
    }
}

/// What the Follow_Up of a bridge says, for a Sync that came over a link with this meanLinkDelay from a
/// neighbour with this neighborRateRatio, and that the bridge sends on at `egress`, by its own clock.
///
/// By that clock the neighbour sent the Sync at the ingress less the delay divided by the neighbour's rate
/// (upstreamTxTime; IEEE 802.1AS-2020, 11.2.14.2.1). The neighbour's rate is added to the one received
/// (10.2.8), and the time from the neighbour's egress to the own, times the sum, to the correction
/// (11.2.15). Refused exactly where a number on the way doesn't fit: the rate has 32 bits, the correction
/// 64, and every time 96, in units of 2^-16 ns.
pub fn relay(
    sync: &SyncInfo,
    delay: ScaledNs,
    neighbour: Rate,
    egress: ScaledNs,
) -> Result<Relayed, OutOfRange>
    ensures { let hop = bridge sync.now delay neighbour egress in
        OkIff result (RelayFits sync.now hop) (relayed sync.now hop) }
{
    let hop = Hop {
        delay,
        neighbour,
        ingress: sync.ingress,
        egress,
    };
    let carried = Carried {
        correction: sync.correction,
        rate: sync.rate,
    };
    let sent = carried.on(&hop)?;
    Ok(Relayed {
        origin: sync.origin,
        correction: sent.correction,
        rate: sent.rate,
    })
}

/// When a Sync came to a slave, by the grandmaster's clock (syncReceiptTime; IEEE 802.1AS-2020, 10.2.13),
/// over a link with this meanLinkDelay from a neighbour with this neighborRateRatio.
///
/// It is the origin, the correction, and the delay divided by the neighbour's rate and times the sum of
/// this rate and the one received. Refused exactly where a number on the way doesn't fit: the rate has 32
/// bits, and every time 96, in units of 2^-16 ns. Origin and correction aren't added without the delay.
pub fn receipt_time(
    sync: &SyncInfo,
    delay: ScaledNs,
    neighbour: Rate,
) -> Result<ScaledNs, OutOfRange>
    ensures { OkIff result (ReceiptFits sync.now delay neighbour) (sync_received sync.now delay neighbour) }
{
    let carried = Carried {
        correction: sync.correction,
        rate: sync.rate,
    };
    carried.receipt(sync.origin.scaled(), delay, neighbour)
}
