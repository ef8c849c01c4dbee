//! The time error of some ways, worked out by hand, in units of 2^-16 ns.

ghost use Rattle.std.specs.Prelude.{◌≡◌};
ghost use Rattle.gptp_error_laws.specs.ExampleSync.{GoesOverTwoLinks};
ghost use Rattle.gptp_error_laws.specs.Examples.{jittery_way, limit_way, plain_way, ring_way, stamped_ring_way};
ghost use Rattle.gptp_error_laws.specs.Examples.{stamped_way, unequal_way};
ghost use Rattle.gptp_error_laws.specs.TimeError.{reading_error, time_error, time_error_at};

/// One link without jitter between two clocks without drift: rounding alone. The root itself has no error.
pub fn rounding_alone()
    ensures root { time_error_at plain_way 0 ≡ 0 }
    ensures system { time_error plain_way ≡ 19 }
{}

/// The three bridges of a ring, one after the other, over links with a jitter of 20 ns: 20, 40 and 60 ns, and a
/// little.
pub fn ring()
    ensures one { time_error_at ring_way 1 ≡ 1311138 }
    ensures two { time_error_at ring_way 2 ≡ 2622278 }
    ensures three { time_error ring_way ≡ 3933420 }
{}

/// Three links of different jitter: each costs its own, and each bridge what the links above it make of the rate.
pub fn unequal_links()
    ensures two { time_error_at unequal_way 2 ≡ 1311159 }
    ensures three { time_error unequal_way ≡ 34102312 }
{}

/// The fastest root over the slowest bridge: what the limit of 200 parts in a million cuts off the neighbour rate,
/// times a residence of 10 ms.
pub fn limit_of_neighbour_rate()
    ensures bridge { time_error_at limit_way 1 ≡ 19 }
    ensures system { time_error limit_way ≡ 13150 }
{}

/// Four links of so much jitter that the limits of rates cut it: that of neighbour rates at the first bridge, and that
/// of rates of 32 bits at the third.
pub fn limits_of_rates()
    ensures two { time_error_at jittery_way 2 ≡ 131164514880 }
    ensures three { time_error_at jittery_way 3 ≡ 196825504563 }
    ensures four { time_error jittery_way ≡ 262535909554 }
{}

/// A link without jitter between two clocks without drift, by time stamps of 8 ns with 4 ns of noise: 32 ns, and a
/// little. What is read 1 s after the Follow_Up is off by as much again.
pub fn time_stamps()
    ensures system { time_error stamped_way ≡ 2097811 }
    ensures reads { reading_error stamped_way 1000000000 ≡ 4198199 }
{}

/// The three bridges of the ring by such time stamps: 52, 104 and 156 ns, and a little.
pub fn ring_by_time_stamps()
    ensures one { time_error_at stamped_ring_way 1 ≡ 3408930 }
    ensures two { time_error_at stamped_ring_way 2 ≡ 6817866 }
    ensures three { time_error stamped_ring_way ≡ 10226807 }
{}

/// A Sync over two links of the ring meets all premises of the law of a whole way: it takes the least delay on each,
/// where the exchanges took both, and the time that is carried is 20 ns past the root's.
pub fn sync_over_two_links()
    ensures { GoesOverTwoLinks }
{}
