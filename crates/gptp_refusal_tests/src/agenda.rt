//! What an agenda is where memory is refused.

use crate::same::same;
use gptp_scheduler::Agenda;
use std::test::Fail;

#[test]
fn a_refused_allocation_leaves_the_agenda(rt: HostRuntime) -> Result<(), Fail> {
    let mut agenda = Agenda::new(rt.alloc());
    let mut first = None;
    // a number, its time, and the time and the number of the least entry then
    for (number, time, least) in [(0, 5, (5, 0)), (1, 3, (3, 1)), (2, 5, (3, 1))] {
        let given = match agenda.put(time, number) {
            Ok(given) => given,
            Err(_) => {
                println!(rt; "refused: put")?;
                same(&rt, agenda.next(), first);
                agenda.put(time, number)?
            }
        };
        same(&rt, given, number);
        first = Some(least);
    }
    if agenda.reserve(100).is_err() {
        println!(rt; "refused: reserve")?;
        same(&rt, agenda.next(), first);
        agenda.reserve(100)?;
    }
    for (number, time) in [(1, 3), (0, 5), (2, 5)] {
        same(&rt, agenda.take_due(time), Some((time, number, number)));
    }
    same(&rt, agenda.take_due(u64::MAX), None);
    Ok(())
}
