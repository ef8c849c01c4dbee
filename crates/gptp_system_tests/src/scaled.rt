//! Exact times, intervals, stamps and rates at the ends of their ranges, and where roundings differ.

use crate::same::{same, same_at};
use gptp_scaled::{Interval, OutOfRange, Rate, ScaledNs, Stamp, StampError, Stamping, laws};
use std::test::*;

/// The first number past a time's range, 2^95.
const END: i128 = 39_614_081_257_132_168_796_771_975_168;

/// The first number past a stamp's range: 2^48 s in units of 2^-16 ns.
const STAMP_END: i128 = 18_446_744_073_709_551_616_000_000_000;

fn time(value: i128) -> Result<ScaledNs, Fail> {
    Ok(ScaledNs::new(value).ok().ok_or("the time fits")?)
}

fn number(answer: Result<ScaledNs, OutOfRange>) -> Option<i128> {
    answer.ok().map(|time| time.value())
}

#[test]
fn times_have_96_bits(rt: HostRuntime) {
    let cases = [
        (0, Some(0)),
        (END - 1, Some(END - 1)),
        (END, None),
        (-END, Some(-END)),
        (-END - 1, None),
    ];
    for (value, want) in cases {
        same_at(&rt, &value, number(ScaledNs::new(value)), want);
    }
    same(&rt, ScaledNs::default().value(), 0);
}

#[test]
fn sums_and_differences_are_exact(rt: HostRuntime) -> Result<(), Fail> {
    let cases = [
        (3, 5, Some(8), Some(-2)),
        (END - 1, 1, None, Some(END - 2)),
        (END - 1, -1, Some(END - 2), None),
        (-END, 1, Some(1 - END), None),
        (-END, -1, None, Some(1 - END)),
        (-END, END - 1, Some(-1), None),
        (-END, -END, None, Some(0)),
    ];
    for (left, right, sum, difference) in cases {
        let (x, y) = (time(left)?, time(right)?);
        same_at(&rt, &(left, right), number(x.checked_add(y)), sum);
        same_at(&rt, &(left, right), number(x.checked_sub(y)), difference);
    }
    Ok(())
}

#[test]
fn halves_are_rounded_down(rt: HostRuntime) -> Result<(), Fail> {
    let cases = [
        (0, 0),
        (1, 0),
        (3, 1),
        (-1, -1),
        (-2, -1),
        (-3, -2),
        (END - 1, 19_807_040_628_566_084_398_385_987_583),
        (-END, -19_807_040_628_566_084_398_385_987_584),
    ];
    for (value, want) in cases {
        same_at(&rt, &value, time(value)?.halve().value(), want);
    }
    Ok(())
}

#[test]
fn intervals_are_times(rt: HostRuntime) {
    for value in [0, 1, -1, i64::MAX, i64::MIN] {
        same(&rt, Interval::new(value).value(), value);
        same(
            &rt,
            Interval::new(value).scaled().value(),
            i128::from(value),
        );
    }
}

#[test]
fn stamps_are_refused_by_the_first_test(rt: HostRuntime) {
    let cases = [
        (0, 0, None),
        (281_474_976_710_655, 999_999_999, None),
        (
            281_474_976_710_656,
            1_000_000_000,
            Some(StampError::NanosTooLarge),
        ),
        (281_474_976_710_656, 0, Some(StampError::SecondsTooLarge)),
        (0, 1_000_000_000, Some(StampError::NanosTooLarge)),
        (u64::MAX, u32::MAX, Some(StampError::NanosTooLarge)),
        (u64::MAX, 999_999_999, Some(StampError::SecondsTooLarge)),
    ];
    for (seconds, nanos, want) in cases {
        same_at(
            &rt,
            &(seconds, nanos),
            Stamp::new(seconds, nanos).err(),
            want,
        );
    }
}

#[test]
fn refusals_have_their_numbers(rt: HostRuntime) {
    same(&rt, StampError::NanosTooLarge as u8, 1);
    same(&rt, StampError::SecondsTooLarge as u8, 2);
    same(&rt, OutOfRange::OutOfRange as u8, 3);
}

#[test]
fn stamps_and_rests_are_times(rt: HostRuntime) -> Result<(), Fail> {
    let cases = [
        (0, 0, 0, 0),
        (65_535, 0, 0, 65_535),
        (65_536, 0, 1, 0),
        (65_535_999_999_999, 0, 999_999_999, 65_535),
        (65_536_000_000_000, 1, 0, 0),
        (STAMP_END - 1, 281_474_976_710_655, 999_999_999, 65_535),
    ];
    for (value, seconds, nanos, rest) in cases {
        let (stamp, parts) = time(value)?.split().ok().ok_or("the time has a stamp")?;
        same_at(
            &rt,
            &value,
            (stamp.seconds(), stamp.nanos(), parts),
            (seconds, nanos, rest),
        );
        same_at(&rt, &value, Stamp::new(seconds, nanos), Ok(stamp));
        same_at(
            &rt,
            &value,
            stamp.scaled().value(),
            value - i128::from(rest),
        );
    }
    for value in [-1, -END, STAMP_END, END - 1] {
        same_at(
            &rt,
            &value,
            time(value)?.split().err(),
            Some(OutOfRange::OutOfRange),
        );
    }
    assert!(rt; Stamp::new(1, 0).ok() > Stamp::new(0, 999_999_999).ok());
    Ok(())
}

#[test]
fn neighbor_rates_are_rounded_down_and_clamped(rt: HostRuntime) -> Result<(), Fail> {
    let cases = [
        (10_001, 10_000, 219_902_325),
        (9_999, 10_000, -219_902_326),
        (3, 2, 439_804_651),
        (1, 2, -439_804_651),
        (5_001, 5_000, 439_804_651),
        (4_999, 5_000, -439_804_651),
        (5_000, 5_001, -439_716_708),
        (7, 7, 0),
        (5, 0, 0),
        (5, -1, 0),
        (END - 1, 1, 439_804_651),
        (-END, END - 1, -439_804_651),
        (END - 2, END - 1, -1),
    ];
    for (responder, requester, want) in cases {
        let rate = Rate::of_elapsed(time(responder)?, time(requester)?);
        same_at(&rt, &(responder, requester), rate.q(), want);
    }
    Ok(())
}

#[test]
fn rates_scale_rounded_down(rt: HostRuntime) -> Result<(), Fail> {
    let cases = [
        (-1, 1, Some(0)),
        (1, -1, Some(-2)),
        (-3, 2_199_023_255_552, Some(2_199_023_255_549)),
        (i32::MAX, 2_199_023_255_552, Some(2_201_170_739_199)),
        (i32::MIN, 2_199_023_255_552, Some(2_196_875_771_904)),
        (0, END - 1, Some(END - 1)),
        (0, -END, Some(-END)),
        (1, END - 1, None),
        (1, -END, None),
        (-1, -END, Some(18_014_398_509_481_984 - END)),
    ];
    for (q, value, want) in cases {
        same_at(
            &rt,
            &(value, q),
            number(Rate::new(q).scale(time(value)?)),
            want,
        );
    }
    Ok(())
}

#[test]
fn rates_unscale_rounded_down(rt: HostRuntime) -> Result<(), Fail> {
    let cases = [
        (1, 1, Some(0)),
        (1, -1, Some(-1)),
        (-1, -1, Some(-2)),
        (i32::MAX, 2_201_170_739_199, Some(2_199_023_255_552)),
        (i32::MIN, 2_196_875_771_904, Some(2_199_023_255_552)),
        (0, END - 1, Some(END - 1)),
        (0, -END, Some(-END)),
        (-1, END - 1, None),
        (-1, -END, None),
    ];
    for (q, value, want) in cases {
        same_at(
            &rt,
            &(value, q),
            number(Rate::new(q).unscale(time(value)?)),
            want,
        );
    }
    Ok(())
}

#[test]
fn rates_add(rt: HostRuntime) {
    let cases = [
        (2, 3, Some(5)),
        (i32::MAX, 1, None),
        (i32::MIN, -1, None),
        (i32::MAX, i32::MIN, Some(-1)),
    ];
    for (left, right, want) in cases {
        let sum = Rate::new(left).plus(Rate::new(right));
        same_at(&rt, &(left, right), sum.ok().map(|rate| rate.q()), want);
    }
}

/// Of the clock 1, which shows the time itself, by the seed 1: the noise is -2, 1 and 0 ns at these times.
#[test]
fn time_stamps_are_rounded_down_with_their_noise(rt: HostRuntime) -> Result<(), Fail> {
    let cases: [(u16, u16, u64, i128); 9] = [
        (0, 0, 500, 500),
        (8, 0, 500, 496),
        (8, 0, 1_000_000_007, 1_000_000_000),
        (0, 4, 0, 0),
        (0, 4, 500, 501),
        (0, 4, 1_000_000_007, 1_000_000_007),
        (8, 4, 0, 0),
        (8, 4, 500, 496),
        (8, 4, 1_000_000_007, 1_000_000_000),
    ];
    for (granularity, most_noise, t, nanos) in cases {
        let stamping = Stamping {
            granularity,
            most_noise,
            seed: 1,
            clock: 1,
        };
        let stamp = stamping.time_stamp(t, time(65_536 * i128::from(t))?);
        let want = Some(65_536 * nanos);
        same_at(&rt, &(granularity, most_noise, t), number(stamp), want);
    }
    Ok(())
}

#[test]
fn laws_can_be_called(_rt: HostRuntime) {
    laws::floor_is_exact();
    laws::floor_is_monotone();
    laws::rate_rounds_down();
    laws::rate_zero_is_identity();
    laws::rate_is_monotone();
    laws::neighbor_rate_is_near();
    laws::split_is_exact();
    laws::noise_is_within();
    laws::time_stamp_is_near();
    laws::time_stamp_is_centred();
    laws::time_stamp_is_shown();
}
