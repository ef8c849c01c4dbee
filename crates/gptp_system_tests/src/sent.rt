//! A message is heard alike, whether a system is given what was sent or the octets of it. Times are in ns.

ghost use Rattle.std.specs.Prelude.{◌≡◌, true};
ghost use Rattle.gptp_system.specs.Steps.{IsUp};

use crate::bench::{Bench, End, expire, has_port, octets_of, started};
use crate::same::{same, same_at};
use gptp_messages::Head;
use gptp_samples::{body, identity, port};
use gptp_scaled::{Rate, Stamp};
use gptp_setup::LAST_MOMENT;
use gptp_system::Answer::{Disabled, Ignored, Used};
use gptp_system::{Answer, Body, Input, Outbox, Sending, Sent, System, Timer};
use gptp_vector::PortId;
use std::alloc::Global;
use std::process::Abort;
use std::test::Fail;

/// Both ports of the link between clocks 1 and 2.
const LINK: [End; 2] = [(0, 1), (1, 1)];

/// Two systems that are equal: one is given octets, and the other what was sent.
#[derive(Debug, Drop)]
struct Pair {
    by_octets: System,
    by_message: System,
}

/// Whether the link at port 1 is up.
fn is_up(system: &System) -> bool
    ensures { result ≡ true → IsUp system.now 1 }
{
    has_port(system, 1) && system.due(Timer::Pdelay(1)).is_some()
}

impl Pair {
    /// A system and a copy of it.
    fn of(alloc: Global, system: &System) -> Result<Pair, Fail> {
        Ok(Pair {
            by_octets: system.copy(alloc)?,
            by_message: system.copy(alloc)?,
        })
    }

    /// The Pdelay timer of port 1 expires at both.
    fn ask(&mut self, now: u64) -> Result<(), Fail> {
        let timer = Timer::Pdelay(1);
        expire(&mut self.by_octets, timer, now, &mut Outbox::new())?;
        expire(&mut self.by_message, timer, now, &mut Outbox::new())
    }

    /// Port 1 hears a message at both: what both answer. Both are equal then, and what they send, and which timers they
    /// can have set.
    fn hear(
        &mut self,
        rt: &impl Abort,
        alloc: Global,
        sending: Sending,
        now: u64,
    ) -> Result<Answer, Fail> {
        if now > LAST_MOMENT || !is_up(&self.by_octets) || !is_up(&self.by_message) {
            return Err(Fail::from("the link isn't up"));
        }
        let octets = octets_of(alloc, &self.by_octets, &sending)?;
        let message = Sent::of(&sending).ok_or("an Announce")?;
        let mut sends = Outbox::new();
        let mut other_sends = Outbox::new();
        let frame = Input::Frame {
            port: 1,
            octets: &octets,
        };
        let sent = Input::Sent {
            port: 1,
            message: &message,
        };
        let stepped = self.by_octets.step(frame, now, &mut sends);
        let other = self.by_message.step(sent, now, &mut other_sends);
        let by_octets = &self.by_octets;
        let by_message = &self.by_message;
        let state = format!(in alloc; "{by_octets:?}")?;
        let other_state = format!(in alloc; "{by_message:?}")?;
        same_at(rt, &octets, other.answer, stepped.answer);
        same_at(rt, &octets, other.touched, stepped.touched);
        same_at(rt, &octets, other_sends.as_slice(), sends.as_slice());
        same_at(rt, &octets, other_state.as_str(), state.as_str());
        Ok(stepped.answer)
    }
}

/// What clock 1 sends at its port 1.
fn sending(sequence: u16, two_step: bool, body: Body) -> Sending {
    Sending {
        port: 1,
        head: Head {
            source: port(1, 1),
            sequence,
            correction: 98_304_000,
            log_interval: -3,
            two_step,
        },
        body,
    }
}

/// A message with its number and its twoStepFlag, and what is answered.
type Row = (u16, bool, Body, Answer);

/// Port 1 of both hears messages, one after the other.
fn hear_all(
    rt: &impl Abort,
    alloc: Global,
    pair: &mut Pair,
    now: u64,
    rows: &[Row],
) -> Result<(), Fail> {
    for (sequence, two_step, body, answer) in rows {
        let found = pair.hear(rt, alloc, sending(*sequence, *two_step, *body), now)?;
        same_at(rt, &(now, sequence, body), found, *answer);
    }
    Ok(())
}

/// A Pdelay_Resp with this timestamp, to this port.
fn response(stamp: Stamp, requester: PortId) -> Body {
    Body::PdelayResp { stamp, requester }
}

/// A Pdelay_Resp_Follow_Up with this timestamp, to this port.
fn response_follow_up(stamp: Stamp, requester: PortId) -> Body {
    Body::PdelayRespFollowUp { stamp, requester }
}

/// A Follow_Up with this timestamp.
fn follow_up(origin: Stamp) -> Body {
    Body::FollowUp {
        origin,
        rate: Rate::new(-7),
    }
}

#[test]
fn a_port_whose_link_came_up_hears_what_was_sent(rt: HostRuntime) -> Result<(), Fail> {
    let alloc = rt.alloc();
    let early = Stamp::new(1, 125_000_000)?;
    let last = Stamp::new(281_474_976_710_655, 999_999_999)?;
    let rows: [Row; 9] = [
        (0, true, Body::Sync, Disabled),
        (0, false, follow_up(early), Disabled),
        (65_535, false, Body::PdelayReq, Used),
        // the first is for another port, the second comes before its response, the third has another number
        (0, true, response(early, port(3, 1)), Ignored),
        (0, false, response_follow_up(early, port(2, 1)), Ignored),
        (1, true, response(early, port(2, 1)), Ignored),
        (0, true, response(last, port(2, 1)), Used),
        (0, false, response_follow_up(last, port(3, 1)), Ignored),
        (0, false, response_follow_up(last, port(2, 1)), Used),
    ];
    let mut system = started(alloc, 2, 1, 0, 9)?;
    if has_port(&system, 1) {
        system.port_up(1, 0, &mut Outbox::new());
    }
    let mut pair = Pair::of(alloc, &system)?;
    hear_all(&rt, alloc, &mut pair, 500, &rows)
}

#[test]
fn a_slave_port_hears_what_was_sent(rt: HostRuntime) -> Result<(), Fail> {
    let alloc = rt.alloc();
    let mut bench = Bench::new(alloc, &[(1, 1, 0), (2, 1, 1_000_000)], 9)?;
    bench.settle(alloc, &LINK)?;
    let mut pair = Pair::of(alloc, bench.at(1)?)?;
    let origin = Stamp::new(1, 125_000_000)?;
    let rows: [Row; 5] = [
        // the first has one step, the second has no Sync before it, the fourth has another number
        (0, false, Body::Sync, Ignored),
        (0, false, follow_up(origin), Ignored),
        (0, true, Body::Sync, Used),
        (1, false, follow_up(origin), Ignored),
        (0, false, follow_up(origin), Used),
    ];
    hear_all(&rt, alloc, &mut pair, 1_125_000_500, &rows)?;
    pair.ask(2_000_000_000)?;
    // the neighbour went back in time, so the link is too long, and the port stops being asCapable
    let back = Stamp::new(1, 0)?;
    let rows: [Row; 3] = [
        (2, true, response(origin, port(2, 1)), Used),
        (2, false, response_follow_up(back, port(2, 1)), Used),
        (3, true, Body::Sync, Disabled),
    ];
    hear_all(&rt, alloc, &mut pair, 2_000_000_500, &rows)
}

#[test]
fn an_announce_is_heard_with_its_path(rt: HostRuntime) -> Result<(), Fail> {
    let announce = sending(0, false, Body::Announce(body(identity(246, 1), 0)));
    same(&rt, Sent::of(&announce), None);
    Ok(())
}
