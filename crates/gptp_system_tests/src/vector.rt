//! Clocks, ports, identities, traces and the order of priority vectors.

use crate::same::{same, same_at};
use gptp_samples::{identity, port, trace};
use gptp_vector::{
    ClockId, Full, Identity, PortId, TRACE_CAPACITY, Trace, Vector, equal_vectors_are_one,
    vector_order_is_total,
};
use std::cmp::Ordering;
use std::test::Fail;

/// The identity of clock 1 with all defaults.
const OCTETS: [u8; 14] = [
    0xf6, 0xf8, 0xfe, 0x43, 0x6a, 0xf8, 0x00, 0x00, 0x00, 0x00, 0x00, 0x00, 0x00, 0x01,
];

fn least<T: Ord + Copy>(a: T, b: T) -> T {
    if a.cmp(&b) == Ordering::Greater { b } else { a }
}

fn is_below<T: PartialOrd>(a: &T, b: &T) -> bool {
    a < b
}

fn are_alike<T: Eq>(a: &T, b: &T) -> bool {
    a == b
}

#[test]
fn clocks_are_their_octets(rt: HostRuntime) {
    let octets = [0xfe, 0xdc, 0xba, 0x98, 0x76, 0x54, 0x32, 0x10];
    let clock = ClockId::of_octets(octets);
    same(&rt, clock, ClockId::from(0xfedc_ba98_7654_3210));
    same(&rt, clock.octets(), octets);
    same(&rt, u64::from(clock), 0xfedc_ba98_7654_3210);
    same(&rt, ClockId::default(), ClockId::from(0));
    same(&rt, PortId::default(), port(0, 0));
}

#[test]
fn identities_are_their_octets(rt: HostRuntime) {
    let first = Identity::of_octets(OCTETS);
    same(&rt, first.octets(), OCTETS);
    same(&rt, first.clock(), ClockId::from(1));
    assert!(rt; first.capable());

    let last = first.with_priority1(255);
    let mut octets = OCTETS;
    octets[0] = 0xff;
    same(&rt, last.octets(), octets);
    same(&rt, last.clock(), ClockId::from(1));
    assert!(rt; !last.capable());
    assert!(rt; first.with_priority1(254).capable());
}

#[test]
fn the_lower_identity_is_the_better(rt: HostRuntime) {
    let cases = [
        (identity(245, 9), identity(246, 1)),
        (identity(246, 1), identity(246, 2)),
        (identity(0, u64::MAX), identity(1, 0)),
        (identity(254, 7), identity(255, 7)),
    ];
    for (better, worse) in cases {
        same_at(&rt, &(better, worse), least(worse, better), better);
        same_at(&rt, &(better, worse), least(better, worse), better);
        assert!(rt; is_below(&better, &worse), "{better:?} and {worse:?}");
        assert!(rt; !is_below(&worse, &better), "{better:?} and {worse:?}");
        assert!(rt; !is_below(&better, &better), "{better:?}");
        assert!(rt; are_alike(&better, &better), "{better:?}");
        assert!(rt; !are_alike(&better, &worse), "{better:?} and {worse:?}");
    }
}

#[test]
fn the_first_part_that_differs_decides(rt: HostRuntime) {
    let (low, high) = (identity(246, 1), identity(246, 2));
    let cases = [
        (
            "root",
            (low, 9, 9, 9, 9),
            (high, 0, 0, 0, 0),
            Ordering::Less,
        ),
        (
            "steps",
            (low, 1, 9, 9, 9),
            (low, 2, 0, 0, 0),
            Ordering::Less,
        ),
        (
            "source clock",
            (low, 1, 1, 9, 9),
            (low, 1, 2, 0, 0),
            Ordering::Less,
        ),
        (
            "source port",
            (low, 1, 1, 1, 9),
            (low, 1, 1, 2, 0),
            Ordering::Less,
        ),
        (
            "receiver",
            (low, 1, 1, 1, 1),
            (low, 1, 1, 1, 2),
            Ordering::Less,
        ),
        (
            "nothing",
            (low, 1, 1, 1, 1),
            (low, 1, 1, 1, 1),
            Ordering::Equal,
        ),
    ];
    for (what, left, right, want) in cases {
        let (left, right) = (vector(left), vector(right));
        same_at(&rt, &what, left.compare(&right), want);
        same_at(&rt, &what, right.compare(&left), want.reverse());
        same_at(&rt, &what, left == right, want == Ordering::Equal);
    }
}

fn vector(parts: (Identity, u16, u64, u16, u16)) -> Vector {
    let (root, steps, source_clock, source_port, receiver) = parts;
    Vector {
        root,
        steps,
        source: port(source_clock, source_port),
        receiver,
    }
}

#[test]
fn vectors_become_path_system_and_master_vectors(rt: HostRuntime) {
    let first = identity(246, 1);
    let system = Vector::system(first);
    same(&rt, &system, &vector((first, 0, 1, 0, 0)));
    same(&rt, system.path(), vector((first, 1, 1, 0, 0)));
    same(
        &rt,
        Vector::master(first, 1, ClockId::from(2), 3),
        vector((first, 1, 2, 3, 3)),
    );
    let far = Vector {
        steps: 65_534,
        ..vector((first, 0, 2, 3, 4))
    };
    same(&rt, far.path(), vector((first, 65_535, 2, 3, 4)));
}

#[test]
fn laws_can_be_called(_rt: HostRuntime) {
    vector_order_is_total();
    equal_vectors_are_one();
}

#[test]
fn traces_keep_their_clocks_in_order(rt: HostRuntime) -> Result<(), Fail> {
    let mut trace = Trace::empty();
    assert!(rt; trace.is_empty());
    same(&rt, trace.len(), 0);
    same(&rt, trace.get(0), None);

    trace.append(ClockId::from(7))?;
    trace.append(ClockId::from(3))?;
    assert!(rt; !trace.is_empty());
    same(
        &rt,
        trace.as_slice(),
        [ClockId::from(7), ClockId::from(3)].as_slice(),
    );
    for (place, want) in [(0, Some(7)), (1, Some(3)), (2, None), (usize::MAX, None)] {
        same_at(
            &rt,
            &place,
            trace.get(place).map(|clock| u64::from(clock)),
            want,
        );
    }
    for (clock, want) in [(7, true), (3, true), (0, false), (4, false)] {
        same_at(
            &rt,
            &("clock", clock),
            trace.holds(ClockId::from(clock)),
            want,
        );
    }

    let copy = trace.copy();
    trace.clear();
    assert!(rt; trace.is_empty());
    same(
        &rt,
        copy.as_slice(),
        [ClockId::from(7), ClockId::from(3)].as_slice(),
    );
    Ok(())
}

#[test]
fn a_trace_of_256_clocks_is_full(rt: HostRuntime) -> Result<(), Fail> {
    let mut trace = Trace::empty();
    for clock in 0..256 {
        trace.append(ClockId::from(clock))?;
    }
    same(&rt, trace.len(), TRACE_CAPACITY);

    let full = Full::Full(ClockId::from(999));
    same(&rt, trace.append(ClockId::from(999)), Err(full));
    same(&rt, full.to_string(rt.alloc())?.as_str(), "1 Full");
    same(&rt, trace.len(), TRACE_CAPACITY);
    for place in 0..256 {
        same_at(
            &rt,
            &place,
            trace.get(place),
            Some(ClockId::from(place as u64)),
        );
    }
    assert!(rt; !trace.holds(ClockId::from(999)));
    same(&rt, trace.copy().as_slice(), trace.as_slice());
    Ok(())
}

#[test]
fn clocks_are_added_together_where_all_of_them_fit(rt: HostRuntime) -> Result<(), Fail> {
    let mut clocks = [ClockId::default(); 257];
    for place in 0..257 {
        clocks[place] = ClockId::from(place as u64);
    }

    let mut short = trace(&[7])?;
    short.extend(&[])?;
    same(&rt, short.as_slice(), trace(&[7])?.as_slice());
    short.extend(&clocks[..2])?;
    same(&rt, short.as_slice(), trace(&[7, 0, 1])?.as_slice());

    let refused = Full::Full(ClockId::from(253));
    same(&rt, short.extend(&clocks[..254]), Err(refused));
    same(&rt, short.extend(&clocks), Err(refused));
    same(&rt, short.as_slice(), trace(&[7, 0, 1])?.as_slice());
    short.extend(&clocks[..253])?;
    same(&rt, short.len(), 256);

    let mut whole = Trace::empty();
    let last = Full::Full(ClockId::from(256));
    same(&rt, whole.extend(&clocks), Err(last));
    assert!(rt; whole.is_empty());
    whole.extend(&clocks[..256])?;
    same(&rt, whole.as_slice(), &clocks[..256]);
    same(
        &rt,
        whole.extend(&clocks[..1]),
        Err(Full::Full(ClockId::from(0))),
    );
    whole.extend(&[])?;
    same(&rt, whole.as_slice(), &clocks[..256]);
    Ok(())
}
