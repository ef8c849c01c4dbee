//! What follows from the definitions alone. Each function does nothing, and its contract is the law; `LawProofs`,
//! `CountLemmas` and `TimeStampLemmas` of `proofs/` have each law as a lemma for the crates above.

ghost use Rattle.gptp_scaled.specs.Counts.{MeasuredWithin, RateIsWithin};
ghost use Rattle.gptp_scaled.specs.TimeStamp.{NoiseIsWithin, StampIsCentred, StampIsNear};
ghost use Rattle.gptp_scaled.specs.TimeStamp.{TimeStampIsCentred, TimeStampIsNear, TimeStampIsShown};
ghost use Rattle.gptp_scaled.specs.Laws.{FloorIsExact, FloorIsMonotone, RateRoundsDown, RateZeroIsIdentity, RateIsMonotone, NeighborRateIsNear, SplitIsExact};

/// The quotient rounded down is the one whole number f with d f <= x < d (f + 1), for d above 0.
#[tactic(auto, using(crate::proofs::LawProofs::floor_is_exact))]
pub fn floor_is_exact()
    ensures { FloorIsExact }
{}

/// Quotients rounded down keep the order of what is divided.
#[tactic(auto, using(crate::proofs::LawProofs::floor_is_monotone))]
pub fn floor_is_monotone()
    ensures { FloorIsMonotone }
{}

/// A time times a rate, and a time divided by a rate, are less than one unit below the exact number.
#[tactic(auto, using(crate::proofs::LawProofs::rate_rounds_down))]
pub fn rate_rounds_down()
    ensures { RateRoundsDown }
{}

/// The rate 1 changes no time.
#[tactic(auto, using(crate::proofs::LawProofs::rate_zero_is_identity))]
pub fn rate_zero_is_identity()
    ensures { RateZeroIsIdentity }
{}

/// A rate keeps the order of times.
#[tactic(auto, using(crate::proofs::LawProofs::rate_is_monotone))]
pub fn rate_is_monotone()
    ensures { RateIsMonotone }
{}

/// A neighbour's rate changes a time by at most 200 parts in a million and the rounding.
#[tactic(auto, using(crate::proofs::LawProofs::neighbor_rate_is_near))]
pub fn neighbor_rate_is_near()
    ensures { NeighborRateIsNear }
{}

/// A time is split in one way, and what was put together is split into its parts again.
#[tactic(auto, using(crate::proofs::LawProofs::split_is_exact))]
pub fn split_is_exact()
    ensures { SplitIsExact }
{}

/// What two clocks are read to count, over spans that differ by at most a jitter, gives the quotient of their rates:
/// within what the jitter is of the span, and one blur of the readings and up / own blurs.
pub fn rate_is_within()
    ensures { RateIsWithin }
{}

/// A neighborRateRatio that is measured by two exchanges is that of the two clocks, within what the jitter of the link
/// and twice the error of two readings are of the interval between two requests, and four units of rounding.
pub fn measured_within()
    ensures { MeasuredWithin }
{}

/// A time stamp is not negative, at most the noise above what the clock shows, and at most the granularity and the
/// noise below it.
pub fn stamp_is_near()
    ensures { StampIsNear }
{}

/// A time stamp is half of the blur from the clock less half of the granularity, at most.
pub fn stamp_is_centred()
    ensures { StampIsCentred }
{}

/// The noise that is drawn is within its limits, whatever the seed, the clock and the time are.
pub fn noise_is_within()
    ensures { NoiseIsWithin }
{}

/// A time stamp with a noise that is drawn is near what is shown.
pub fn time_stamp_is_near()
    ensures { TimeStampIsNear }
{}

/// Such a time stamp is half of the blur from what is shown less half of the granularity, at most.
pub fn time_stamp_is_centred()
    ensures { TimeStampIsCentred }
{}

/// Without granularity and noise a time stamp is what is shown.
pub fn time_stamp_is_shown()
    ensures { TimeStampIsShown }
{}
