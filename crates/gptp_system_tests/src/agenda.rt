//! What an agenda holds, and in which order it gives it back.

use crate::same::same_at;
use crate::sorted_list::{SortedList, draw};
use gptp_scheduler::{Agenda, place};
use std::alloc::Global;
use std::process::Abort;
use std::test::Fail;

/// What is done with an agenda, and what is wanted of it then.
#[derive(Clone, Copy, Debug)]
enum Step {
    /// Room for so many more entries is asked for: whether it is had.
    Reserves(usize, bool),
    /// An item is put in at a time: its number.
    Puts(u64, char, u64),
    /// The entry of this number is cancelled: its item.
    Cancels(u64, Option<char>),
    /// The least entry, by its time and number.
    Next(Option<(u64, u64)>),
    /// The least entry is taken if it is due at a time: its time, number and item.
    Takes(u64, Option<(u64, u64, char)>),
    /// The level and the slot at which the entry of a number stands.
    Stands(u64, Option<(u8, u8)>),
}

/// One step of an agenda.
fn take(rt: &impl Abort, agenda: &mut Agenda<char>, step: &Step) -> Result<(), Fail> {
    match *step {
        Step::Reserves(more, want) => same_at(rt, step, agenda.reserve(more).is_ok(), want),
        Step::Puts(time, item, want) => same_at(rt, step, agenda.put(time, item)?, want),
        Step::Cancels(number, want) => same_at(rt, step, agenda.cancel(number), want),
        Step::Next(want) => same_at(rt, step, agenda.next(), want),
        Step::Takes(now, want) => same_at(rt, step, agenda.take_due(now), want),
        Step::Stands(number, want) => same_at(rt, step, place(agenda, number), want),
    }
    Ok(())
}

/// A new agenda, and what is done with it, step by step.
fn play(rt: &impl Abort, alloc: Global, steps: &[Step]) -> Result<(), Fail> {
    let mut agenda = Agenda::new(alloc);
    for step in steps {
        take(rt, &mut agenda, step)?;
    }
    agenda.numbers_rise();
    Ok(())
}

#[test]
fn entries_are_taken_by_time_then_by_number(rt: HostRuntime) -> Result<(), Fail> {
    let steps = [
        Step::Reserves(3, true),
        Step::Next(None),
        Step::Puts(5, 'a', 0),
        Step::Puts(3, 'b', 1),
        Step::Puts(5, 'c', 2),
        Step::Takes(2, None),
        Step::Takes(4, Some((3, 1, 'b'))),
        Step::Takes(4, None),
        Step::Takes(5, Some((5, 0, 'a'))),
        Step::Takes(5, Some((5, 2, 'c'))),
        Step::Takes(u64::MAX, None),
        Step::Next(None),
    ];
    play(&rt, rt.alloc(), &steps)
}

#[test]
fn what_is_put_in_the_past_comes_first(rt: HostRuntime) -> Result<(), Fail> {
    let steps = [
        Step::Puts(300, 'a', 0),
        Step::Puts(70_000, 'b', 1),
        // 300 is 1 and 44 in octets, 70,000 is 1, 17 and 112
        Step::Stands(0, Some((6, 1))),
        Step::Stands(1, Some((5, 1))),
        Step::Takes(300, Some((300, 0, 'a'))),
        Step::Stands(0, None),
        Step::Puts(5, 'c', 2),
        Step::Next(Some((5, 2))),
        Step::Stands(2, Some((8, 0))),
        Step::Takes(70_000, Some((5, 2, 'c'))),
        Step::Takes(70_000, Some((70_000, 1, 'b'))),
        Step::Cancels(1, None),
    ];
    play(&rt, rt.alloc(), &steps)
}

#[test]
fn a_cancelled_entry_is_gone(rt: HostRuntime) -> Result<(), Fail> {
    let steps = [
        Step::Puts(7, 'a', 0),
        Step::Puts(7, 'b', 1),
        Step::Puts(1, 'c', 2),
        Step::Puts(9, 'd', 3),
        Step::Cancels(1, Some('b')),
        Step::Cancels(1, None),
        Step::Cancels(4, None),
        Step::Cancels(u64::MAX, None),
        Step::Cancels(2, Some('c')),
        Step::Next(Some((7, 0))),
        Step::Puts(7, 'e', 4),
        Step::Takes(9, Some((7, 0, 'a'))),
        Step::Takes(9, Some((7, 4, 'e'))),
        Step::Takes(9, Some((9, 3, 'd'))),
        Step::Takes(9, None),
    ];
    play(&rt, rt.alloc(), &steps)
}

#[test]
fn many_are_cancelled(rt: HostRuntime) -> Result<(), Fail> {
    let mut agenda = Agenda::new(rt.alloc());
    take(&rt, &mut agenda, &Step::Puts(5, 'a', 0))?;
    for number in 1..3_000 {
        take(&rt, &mut agenda, &Step::Puts(7, 'b', number))?;
        take(&rt, &mut agenda, &Step::Cancels(number, Some('b')))?;
    }
    let steps = [
        Step::Puts(6, 'c', 3_000),
        Step::Takes(9, Some((5, 0, 'a'))),
        Step::Takes(9, Some((6, 3_000, 'c'))),
        Step::Takes(9, None),
    ];
    for step in &steps {
        take(&rt, &mut agenda, step)?;
    }
    Ok(())
}

#[test]
fn the_last_moment_is_a_time_too(rt: HostRuntime) -> Result<(), Fail> {
    let steps = [
        Step::Puts(u64::MAX, 'a', 0),
        Step::Puts(0, 'b', 1),
        Step::Stands(0, Some((0, 255))),
        Step::Stands(1, Some((7, 0))),
        Step::Next(Some((0, 1))),
        Step::Cancels(1, Some('b')),
        Step::Next(Some((u64::MAX, 0))),
        Step::Takes(u64::MAX - 1, None),
        Step::Takes(u64::MAX, Some((u64::MAX, 0, 'a'))),
    ];
    play(&rt, rt.alloc(), &steps)
}

#[test]
fn room_is_made_or_refused(rt: HostRuntime) -> Result<(), Fail> {
    let mut agenda = Agenda::new(rt.alloc());
    let steps = [
        Step::Reserves(0, true),
        Step::Reserves(1, true),
        // room for a million is had, 2^64 and more octets are not
        Step::Reserves(1_000_000, true),
        Step::Reserves(1 << 60, false),
        Step::Reserves(usize::MAX, false),
    ];
    for step in &steps {
        take(&rt, &mut agenda, step)?;
    }
    for place in 0..500 {
        take(&rt, &mut agenda, &Step::Puts(1_000 - place, 'a', place))?;
    }
    for place in 0..500 {
        let least = (501 + place, 499 - place, 'a');
        take(&rt, &mut agenda, &Step::Takes(1_000, Some(least)))?;
    }
    take(&rt, &mut agenda, &Step::Takes(u64::MAX, None))
}

/// A time some way after another, or before it: the ways end at all octets.
fn time_near(now: u64, state: &mut u64) -> u64 {
    let way = draw(state);
    match draw(state) % 8 {
        0 => now / 2,
        1 => now,
        2 | 3 => now.saturating_add(way % 300),
        4 | 5 => now.saturating_add(way % 100_000),
        6 => now.saturating_add(way % 5_000_000_000),
        _ => now.saturating_add(way % 1_000_000_000_000),
    }
}

/// One call that looks drawn, of an agenda and of a sorted list: both answer the same.
fn call_both(
    rt: &impl Abort,
    agenda: &mut Agenda<u64>,
    list: &mut SortedList,
    state: &mut u64,
    now: &mut u64,
) -> Result<(), Fail> {
    let kind = draw(state) % 8;
    if kind < 4 {
        let time = time_near(*now, state);
        let item = draw(state);
        let want = list.put(time, item)?;
        same_at(rt, &time, agenda.put(time, item)?, want);
    } else if kind < 5 {
        let number = draw(state) % list.next_number().max(1);
        same_at(rt, &number, agenda.cancel(number), list.cancel(number));
    } else {
        let time = time_near(*now, state);
        let taken = list.take_due(time);
        same_at(rt, &time, agenda.take_due(time), taken);
        if let Some((time, _, _)) = taken {
            *now = time.max(*now);
        }
    }
    same_at(rt, &kind, agenda.next(), list.first());
    Ok(())
}

#[test]
fn ten_thousand_calls_are_answered_as_by_a_sorted_list(rt: HostRuntime) -> Result<(), Fail> {
    let mut agenda = Agenda::new(rt.alloc());
    let mut list = SortedList::new(rt.alloc());
    let mut state = 40;
    let mut now = 0;
    for _ in 0..10_000 {
        call_both(&rt, &mut agenda, &mut list, &mut state, &mut now)?;
    }
    Ok(())
}
