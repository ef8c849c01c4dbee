//! What a link is where memory is refused.

use crate::same::same;
use gptp_links::{Bounds, Direction, Link, NotDue, PcgFate};
use std::process::Abort;
use std::test::Fail;

/// The bounds of the link.
const BOUNDS: Bounds = Bounds {
    link: 0,
    min: 1,
    max: 16_000_000_000,
    loss: 0,
};

/// When three frames are sent, and when they are due: the first words of the generator for the seed 0. None is drawn
/// for a frame that is refused.
const FRAMES: [(u64, u64); 3] = [
    (0, 12_966_075_476),
    (10_000_000_000, 14_291_373_564),
    (20_000_000_000, 24_176_364_082),
];

/// The link is up, and the oldest frame in flight from its end a, and in no other direction, is due then.
fn assert_in_flight(rt: &impl Abort, link: &Link, due: Option<u64>) {
    assert!(rt; link.is_up());
    same(rt, link.bounds(), BOUNDS);
    same(rt, link.next_due(Direction::FromA), due);
    same(rt, link.front(Direction::FromA).is_some(), due.is_some());
    same(rt, link.next_due(Direction::FromB), None);
}

#[test]
fn a_refused_allocation_leaves_the_link(rt: HostRuntime) -> Result<(), Fail> {
    let alloc = rt.alloc();
    let mut fate = PcgFate::new(0);
    let mut link = Link::new(alloc, BOUNDS);
    let mut oldest = None;
    for (now, want) in FRAMES {
        link.up();
        let due = match link.send(Direction::FromA, Vec::new(alloc), now, &mut fate) {
            Ok(due) => due,
            Err(_) => {
                println!(rt; "refused: send")?;
                assert_in_flight(&rt, &link, oldest);
                link.up();
                link.send(Direction::FromA, Vec::new(alloc), now, &mut fate)?
            }
        };
        same(&rt, due, Some(want));
        oldest = oldest.or(due);
        assert_in_flight(&rt, &link, oldest);
    }
    if link.reserve(100).is_err() {
        println!(rt; "refused: reserve")?;
        assert_in_flight(&rt, &link, oldest);
        link.reserve(100)?;
    }
    assert_in_flight(&rt, &link, oldest);
    for (_, due) in FRAMES {
        same(
            &rt,
            link.deliver(Direction::FromA, 0).err(),
            Some(NotDue::NotDue),
        );
        assert!(rt; link.deliver(Direction::FromA, due)?.is_empty());
    }
    assert_in_flight(&rt, &link, None);
    Ok(())
}
