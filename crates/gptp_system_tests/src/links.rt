//! What links do to frames, and what fates draw.

ghost use Rattle.std.specs.Prelude.{◌≡◌, true};
ghost use Rattle.gptp_links.specs.Bounds.{Fit};

use crate::same::{same, same_at};
use gptp_links::{Bounds, Direction, Fate, Link, ListFate, NotDue, PcgFate, draws_join};
use gptp_setup::LAST_MOMENT;
use std::alloc::Global;
use std::process::Abort;
use std::test::Fail;

const A: Direction = Direction::FromA;

const B: Direction = Direction::FromB;

/// What is done with a link, and what is wanted of it then. Times are in ns.
#[derive(Clone, Copy, Debug)]
enum Step {
    /// A frame of these octets is sent at a time: when it is due, if it isn't lost.
    Sends(Direction, &'static [u8], u64, Option<u64>),
    /// A frame is taken off at a time: its octets, if there is one that is due.
    Delivers(Direction, u64, Option<&'static [u8]>),
    /// When the oldest frame is due.
    NextDue(Direction, Option<u64>),
    /// The oldest frame.
    Front(Direction, Option<&'static [u8]>),
    /// The link gets other bounds.
    Sets(Bounds),
    /// The link is taken up, or down.
    Turns(bool),
}

/// Bounds of link 0.
const fn bounds(min: u64, max: u64, loss: u16) -> Bounds
    ensures { result ≡ record { link = 0; min = min; max = max; loss = loss } }
{
    Bounds {
        link: 0,
        min,
        max,
        loss,
    }
}

/// Whether a link can have these bounds.
fn fit(bounds: &Bounds) -> bool
    ensures { result ≡ true → Fit bounds.now }
{
    1 <= bounds.min
        && bounds.min <= bounds.max
        && bounds.max <= 16_000_000_000
        && bounds.loss <= 1_000
}

/// One step of a link.
fn take(
    rt: &impl Abort,
    alloc: Global,
    link: &mut Link,
    fate: &mut ListFate,
    step: &Step,
) -> Result<(), Fail> {
    match *step {
        Step::Sends(direction, octets, now, want) if link.is_up() && now <= LAST_MOMENT => {
            let frame = octets.to_vec(alloc)?;
            same_at(rt, step, link.send(direction, frame, now, fate)?, want);
        }
        Step::Delivers(direction, now, want) => match link.deliver(direction, now) {
            Ok(frame) => same_at(rt, step, Some(frame.as_slice()), want),
            Err(NotDue::NotDue) => same_at(rt, step, None, want),
        },
        Step::NextDue(direction, want) => same_at(rt, step, link.next_due(direction), want),
        Step::Front(direction, want) => same_at(rt, step, link.front(direction), want),
        Step::Sets(bounds) if fit(&bounds) => {
            link.set(bounds);
            same_at(rt, step, link.bounds(), bounds);
        }
        Step::Turns(up) => {
            if up {
                link.up();
            } else {
                link.down();
            }
            same_at(rt, step, link.is_up(), up);
        }
        _ => return Err(Fail::from("no such step")),
    }
    Ok(())
}

/// A new link of these bounds, and what is done with it, step by step, where the fates are these.
fn play(
    rt: &impl Abort,
    alloc: Global,
    bounds: Bounds,
    fates: &[Option<u64>],
    steps: &[Step],
) -> Result<(), Fail> {
    if !fit(&bounds) {
        return Err(Fail::from("no such link"));
    }
    let mut fate = ListFate::new(fates.to_vec(alloc)?);
    let mut link = Link::new(alloc, bounds);
    assert!(rt; link.is_up());
    for step in steps {
        take(rt, alloc, &mut link, &mut fate, step)?;
    }
    link.due_in_order();
    Ok(())
}

#[test]
fn no_frame_overtakes(rt: HostRuntime) -> Result<(), Fail> {
    let steps = [
        Step::Sends(A, &[1, 2], 0, Some(500)),
        Step::Sends(A, &[3], 10, Some(500)),
        Step::NextDue(A, Some(500)),
        Step::NextDue(B, None),
        Step::Front(A, Some(&[1, 2])),
        Step::Front(B, None),
        Step::Delivers(A, 499, None),
        Step::Delivers(B, 500, None),
        Step::Delivers(A, 500, Some(&[1, 2])),
        Step::Delivers(A, 500, Some(&[3])),
        Step::Delivers(A, 500, None),
    ];
    play(
        &rt,
        rt.alloc(),
        bounds(100, 500, 0),
        &[Some(500), Some(100)],
        &steps,
    )
}

#[test]
fn directions_are_apart(rt: HostRuntime) -> Result<(), Fail> {
    let steps = [
        Step::Sends(A, &[1], 0, Some(400)),
        Step::Sends(B, &[2], 0, Some(200)),
        Step::NextDue(B, Some(200)),
        Step::Delivers(B, 400, Some(&[2])),
        Step::Delivers(A, 400, Some(&[1])),
    ];
    play(
        &rt,
        rt.alloc(),
        bounds(100, 500, 0),
        &[Some(400), Some(200)],
        &steps,
    )
}

#[test]
fn a_link_taken_down_loses_what_is_in_flight(rt: HostRuntime) -> Result<(), Fail> {
    let steps = [
        Step::Sends(A, &[1], 0, Some(7)),
        Step::Sends(B, &[2], 1, Some(8)),
        Step::Turns(false),
        Step::NextDue(A, None),
        Step::NextDue(B, None),
        Step::Delivers(A, 1_000, None),
        Step::Turns(true),
        Step::Sends(A, &[3], 2, Some(9)),
    ];
    play(&rt, rt.alloc(), bounds(1, 7, 0), &[], &steps)
}

#[test]
fn new_bounds_hold_for_what_is_sent_later(rt: HostRuntime) -> Result<(), Fail> {
    let steps = [
        Step::Sends(A, &[1], 0, Some(500)),
        Step::Sets(bounds(10, 20, 0)),
        Step::NextDue(A, Some(500)),
        Step::Sends(A, &[2], 0, Some(500)),
        Step::Sends(A, &[3], 490, Some(510)),
    ];
    play(&rt, rt.alloc(), bounds(500, 500, 0), &[], &steps)
}

#[test]
fn a_lost_frame_is_not_queued(rt: HostRuntime) -> Result<(), Fail> {
    let steps = [
        Step::Sends(A, &[1], 0, None),
        Step::NextDue(A, None),
        Step::Sends(A, &[2], 0, Some(5)),
        Step::Front(A, Some(&[2])),
    ];
    play(&rt, rt.alloc(), bounds(1, 9, 500), &[None, Some(5)], &steps)
}

#[test]
fn a_frame_of_any_length_is_sent(rt: HostRuntime) -> Result<(), Fail> {
    const LONGEST: &[u8] = &[0; 2_116];
    let steps = [
        Step::Sends(A, &[], 0, Some(1)),
        Step::Sends(A, LONGEST, 0, Some(1)),
        Step::Delivers(A, 1, Some(&[])),
        Step::Delivers(A, 1, Some(LONGEST)),
    ];
    play(&rt, rt.alloc(), bounds(1, 1, 0), &[], &steps)
}

#[test]
fn room_is_made_or_refused(rt: HostRuntime) {
    let mut link = Link::new(rt.alloc(), bounds(1, 1, 0));
    for (more, want) in [
        (0, true),
        (1, true),
        (10_000, true),
        (1 << 60, false),
        (usize::MAX, false),
    ] {
        same_at(&rt, &more, link.reserve(more).is_ok(), want);
    }
}

#[test]
fn draws_join_and_refusals_have_a_number(rt: HostRuntime) {
    draws_join::<ListFate>();
    same(&rt, NotDue::NotDue as u8, 1);
}

#[test]
fn a_list_gives_lawful_answers(rt: HostRuntime) -> Result<(), Fail> {
    // the loss, the answer listed, the answer drawn; after the end the greatest delay
    let rows = [
        (0, Some(100), Some(100)),
        (0, Some(99), Some(100)),
        (0, Some(0), Some(100)),
        (0, Some(501), Some(500)),
        (0, Some(u64::MAX), Some(500)),
        (0, None, Some(500)),
        (1, None, None),
        (1000, None, None),
        (1000, Some(250), Some(250)),
    ];
    for (loss, listed, want) in rows {
        let bounds = bounds(100, 500, loss);
        let mut fate = ListFate::new([listed].to_vec(rt.alloc())?);
        same_at(&rt, &(listed, loss), fate.fate(&bounds, 0), want);
        same_at(&rt, &("after", listed), fate.fate(&bounds, 0), Some(500));
    }
    Ok(())
}

// The words of PCG64 (XSL RR 128/64) were computed from the published algorithm in another language,
// after its reference sequence for state 42 and stream 54 had come out right there; the seed is spread
// to 32 octets by PCG32, as rand_core does.
#[test]
fn delays_are_the_words_of_the_generator(rt: HostRuntime) {
    let rows = [
        (
            0,
            [12_966_075_476, 4_291_373_564, 4_176_364_082, 554_797_019],
        ),
        (
            1,
            [1_077_865_800, 7_195_455_320, 1_694_094_753, 14_907_303_892],
        ),
        (
            4_294_967_295,
            [4_770_207_640, 1_374_316_555, 12_026_267_302, 7_969_753_892],
        ),
    ];
    let bounds = bounds(1, 16_000_000_000, 0);
    for (seed, wants) in rows {
        let mut fate = PcgFate::new(seed);
        for want in wants {
            same_at(&rt, &("seed", seed), fate.fate(&bounds, 0), Some(want));
        }
    }
}

#[test]
fn losses_take_a_word_each(rt: HostRuntime) {
    let rows = [
        (0, [Some(356), None, None, Some(177), Some(286), None]),
        (
            1,
            [
                Some(465),
                Some(435),
                Some(217),
                Some(318),
                Some(117),
                Some(310),
            ],
        ),
        (
            4_294_967_295,
            [Some(336), None, Some(155), Some(406), Some(412), None],
        ),
    ];
    let bounds = bounds(100, 500, 400);
    for (seed, wants) in rows {
        let mut fate = PcgFate::new(seed);
        for want in wants {
            same_at(&rt, &("seed", seed), fate.fate(&bounds, 0), want);
        }
    }
}

#[test]
fn one_delay_takes_no_word(rt: HostRuntime) {
    let rows = [
        (0, [Some(300), Some(300), None, None]),
        (1, [Some(300), None, Some(300), Some(300)]),
        (4_294_967_295, [Some(300), Some(300), None, Some(300)]),
    ];
    let bounds = bounds(300, 300, 400);
    for (seed, wants) in rows {
        let mut fate = PcgFate::new(seed);
        for want in wants {
            same_at(&rt, &("seed", seed), fate.fate(&bounds, 0), want);
        }
    }
}
