//! What follows from the definitions alone. Each function does nothing, and its contract is the law; the crates
//! above find each as a lemma of the same name in the public modules of `proofs/`.

ghost use Rattle.gptp_pdelay.specs.Capability.{CapabilityTurns, CapableByTwoExchanges, LostStaysAllowed};
ghost use Rattle.gptp_pdelay.specs.Clock.{ClockElapses, ClockIsRead, ClockShowsTime, StampShowsTime, StampsMakeClock};
ghost use Rattle.gptp_pdelay.specs.Exchange.{NeighborRateIsWithin};
ghost use Rattle.gptp_pdelay.specs.GoodLink.{GoodLink, GoodLinkByElapsed, GoodLinkShowsNeighbor};
ghost use Rattle.gptp_pdelay.specs.Late.{LateIsAbove, LateIsBelow};
ghost use Rattle.gptp_pdelay.specs.Measured.{ClockCounts, DelayIsWithin, MeanIsAbove, MeanIsBelow};
ghost use Rattle.gptp_pdelay.specs.Past.{PastIsNewest, WindowStays};
ghost use Rattle.gptp_pdelay.specs.Measured.{MeasurementIsWithin, RestIsLong, WeightedMean};

/// What a local clock shows is a reading of it that is off by nothing.
pub fn clock_is_read()
    ensures { ClockIsRead }
{}

/// Time stamps of a granularity and with a noise are readings of the local clock less half of the granularity, of which
/// two are off together by the granularity and twice the noise at most, whatever noise is drawn.
pub fn stamps_make_clock()
    ensures { StampsMakeClock }
{}

/// A clock within its limit is read to count, in any span of time, what the slowest and the fastest allow, within what
/// two readings are off and less than one unit of rounding.
pub fn clock_elapses()
    ensures { ClockElapses }
{}

/// A clock within its limit shows a time that the calls of a `Peer` take.
pub fn clock_shows_time()
    ensures { ClockShowsTime }
{}

/// A time stamp of such a clock is a time that they take.
pub fn stamp_shows_time()
    ensures { StampShowsTime }
{}

/// The neighbour rate is within 200 parts in a million, whatever the times.
pub fn neighbor_rate_is_within()
    ensures { NeighborRateIsWithin }
{}

/// The core of the law of good links, over what the two clocks count.
pub fn good_link_by_elapsed()
    ensures { GoodLinkByElapsed }
{}

/// The law of good links: an exchange over a good link gives a delay of at most the threshold. Where two readings of a
/// clock are off by w ns, a link is good that would be with w ns more of delay.
pub fn good_link()
    ensures { GoodLink }
{}

/// Each exchange over a good link but the first since the reset shows the neighbour.
pub fn good_link_shows_neighbor()
    ensures { GoodLinkShowsNeighbor }
{}

/// Whatever came to a port since it was made, its rate is measured over the newest exchanges since its reset.
pub fn past_is_newest()
    ensures { PastIsNewest }
{}

/// The window of a port stays as it was made, and a port never keeps more exchanges than its window has.
pub fn window_stays()
    ensures { WindowStays }
{}

/// Whatever came to a port since it was made, it is capable exactly where at least two full exchanges have come
/// since its reset and the last of them gave a delay of at most the threshold.
pub fn capable_by_two_exchanges()
    ensures { CapableByTwoExchanges }
{}

/// A port becomes capable by such an exchange alone, and stops being so by a reset, by an exchange above the
/// threshold, or by one lost request in a row too many.
pub fn capability_turns()
    ensures { CapabilityTurns }
{}

/// The requests that count as lost in a row are never more than are allowed.
pub fn lost_stays_allowed()
    ensures { LostStaysAllowed }
{}

/// A clock within its limit counts, in any span of time, what its own rate makes of the span, within one unit of
/// rounding.
pub fn clock_counts()
    ensures { ClockCounts }
{}

/// Two exchanges, one after the other, make a weighted mean of two sums of two delays: what passes on the requester's
/// clock from request to response, brought to the responder's rate, is the turnaround and a time between twice the
/// least and twice the greatest delay, whatever the turnaround and however far the exchanges lie apart. What the
/// exchange seems longer or shorter goes into it once.
pub fn weighted_mean()
    ensures { WeightedMean }
{}

/// By a rate that isn't above the measured one the mean isn't above two greatest delays, within rounding.
pub fn mean_is_below()
    ensures { MeanIsBelow }
{}

/// By a rate that isn't below the measured one the mean isn't below two least delays, within rounding.
pub fn mean_is_above()
    ensures { MeanIsAbove }
{}

/// Clocks that are read late don't make the mean larger by more than one blur of either: the last readings of an
/// exchange are in the rate too.
pub fn late_is_below()
    ensures { LateIsBelow }
{}

/// Nor smaller.
pub fn late_is_above()
    ensures { LateIsAbove }
{}

/// The meanLinkDelay that is measured over a link lies between its least and its greatest delay, by the neighbour's
/// clock, whatever the turnaround. What two readings are off goes into it once. Rounding adds four units of 2^-16 ns at
/// most, and the limit of 200 parts in a million on a neighbour rate the 1525th part of the nanoseconds that an
/// exchange takes.
pub fn delay_is_within()
    ensures { DelayIsWithin }
{}

/// On a good link a request is sent well after the exchange before it is over.
pub fn rest_is_long()
    ensures { RestIsLong }
{}

/// What a port measures by two clean exchanges, one after the other, whatever the phases and drifts of both clocks: the
/// neighborRateRatio is that of the two clocks within what the jitter, and what two readings are off twice, is of the
/// interval, and the meanLinkDelay lies between the least and the greatest delay of the link, but for what two readings
/// are off.
pub fn measurement_is_within()
    ensures { MeasurementIsWithin }
{}
