//! Laws on what is known of the measuring in every world.

ghost use Rattle.gptp_invariants.specs.DelayLinkLaws.{InitiallyMeasured, LinksAreSeen, MeasuredHoldsLater, MeasuredIsKept, StartsMeasured};
ghost use Rattle.gptp_invariants.specs.DelayLinkLaws.{InitiallyShort, ShortHoldsLater, ShortIsKept, StartsShort};

/// In a sound world whose ports measure, the machine is seen wherever two live stations stand at a link that is up,
/// loses nothing and is good.
pub fn links_are_seen()
    ensures { LinksAreSeen }
{}

/// Every act leaves each port measuring and what is in flight fitting, a change too, and so does time that passes.
pub fn stays_measured()
    ensures acts { MeasuredIsKept }
    ensures later { MeasuredHoldsLater }
{}

/// The world of a network is so before its systems start, and once they have.
pub fn begins_measured()
    ensures initially { InitiallyMeasured }
    ensures starts { StartsMeasured }
{}

/// Every act leaves what is in flight due within a span that no delay is longer than, where it sets no longer one, and
/// so does time that passes.
pub fn stays_short()
    ensures acts { ShortIsKept }
    ensures later { ShortHoldsLater }
{}

/// It is so in the world of a network before its systems start, and once they have.
pub fn begins_short()
    ensures initially { InitiallyShort }
    ensures starts { StartsShort }
{}
