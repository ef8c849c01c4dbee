//! How one link stands at each time.

ghost use Rattle.std.specs.Prelude.{◌≡◌, ◌++◌, ◌∷◌, ◌<◌, ◌+◌, [], IfOk, OnOk, drop, length, map, take};
ghost use Rattle.gptp_scenario.specs.Change.{is_at, link_acted, link_changed, system_changed};
ghost use Rattle.gptp_topology.specs.Course.{acted, course_at_time, cable_of, course_from, first, is_cable_end, is_link_named, names_link, cable_is_used, lives_acted, named, named_by, names_of, naming, past, cable_wire};

use gptp_links::Bounds;
use gptp_scenario::{Act, Change, Network, Timed};
use gptp_vector::{ClockId, PortId};
use std::alloc::{AllocError, Global};

/// A link: its ends, its bounds, and whether it is up.
#[derive(Clone, Copy)]
pub struct Cable {
    pub a: PortId,
    pub b: PortId,
    pub bounds: Bounds,
    pub up: bool,
}

/// How a link stands at a time, in ns, and whether the systems at its ends live.
#[derive(Clone, Copy)]
pub struct Standing {
    pub at: u64,
    pub cable: Cable,
    pub a_lives: bool,
    pub b_lives: bool,
}

/// How a link stands at first.
pub(crate) fn first(cable: &Cable) -> Standing
    ensures { result ≡ first (cable_wire cable.now) }
{
    Standing {
        at: 0,
        cable: *cable,
        a_lives: true,
        b_lives: true,
    }
}

/// Puts a link after others.
fn push_cable(cables: &mut Vec<Cable>, cable: Cable) -> Result<(), AllocError>
    ensures { OnOk result (cables.new.items ≡ cables.old.items ++ cable ∷ []) }
{
    cables.push(cable)?;
    Ok(())
}

/// Puts the link at a place after those before.
fn push_cable_at(cables: &mut Vec<Cable>, network: &Network, place: usize) -> Result<(), AllocError>
    requires place { place < length network.now.links }
    requires before { cables.old.items ≡ map cable_of (take place network.now.links) }
    ensures { OnOk result (cables.new.items ≡ map cable_of (take (place + 1) network.now.links)) }
{
    match network.link_at(place) {
        Some((a, b, bounds, up)) => push_cable(cables, Cable { a, b, bounds, up }),
        None => Ok(()),
    }
}

/// The links of a network, in its order. Refused for want of memory alone.
pub fn cables_of(alloc: Global, network: &Network) -> Result<Vec<Cable>, AllocError>
    ensures { IfOk result (λ cables. cables.items ≡ map cable_of network.now.links) }
{
    let mut cables = Vec::new(alloc);
    for place in 0..network.links() {
        push_cable_at(&mut cables, network, place)?;
    }
    Ok(cables)
}

/// Whether a link is up between two live systems.
pub fn is_used(standing: &Standing) -> bool
    ensures { result ≡ cable_is_used standing.now }
{
    standing.cable.up && (standing.a_lives && standing.b_lives)
}

/// Does to a link what a change does.
fn change_cable(change: &Change, cable: &mut Cable)
    ensures { cable_wire cable.new ≡ link_changed change.now (cable_wire cable.old) }
{
    match *change {
        Change::LinkDown { clock, port } => {
            let port = PortId { clock, port };
            if cable.a == port || cable.b == port {
                cable.up = false;
            }
        }
        Change::LinkUp { clock, port } => {
            let port = PortId { clock, port };
            if cable.a == port || cable.b == port {
                cable.up = true;
            }
        }
        Change::LinkSet {
            clock,
            port,
            min,
            max,
            loss,
        } => {
            let port = PortId { clock, port };
            if cable.a == port || cable.b == port {
                cable.bounds.min = min;
                cable.bounds.max = max;
                cable.bounds.loss = loss;
            }
        }
        _ => {}
    }
}

/// Does to a link what an act does.
fn act_on_cable(act: &Act, cable: &mut Cable)
    ensures { cable_wire cable.new ≡ link_acted act.now (cable_wire cable.old) }
{
    match act {
        Act::Change(change) => change_cable(change, cable),
        _ => {}
    }
}

/// Whether the system with this clock lives after a change.
fn lives_changed(change: &Change, own: ClockId, lives: bool) -> bool
    ensures { result ≡ (system_changed change.now own (record { identity = 0; live = lives })).live }
{
    match *change {
        Change::Fail { clock } => lives && clock != own,
        Change::Recover { clock } => lives || clock == own,
        _ => lives,
    }
}

/// Whether the system with this clock lives after an act.
fn lives_acted(act: &Act, own: ClockId, lives: bool) -> bool
    ensures { result ≡ lives_acted act.now own lives }
{
    match act {
        Act::Change(change) => lives_changed(change, own, lives),
        _ => lives,
    }
}

/// What an act makes of a link and of the systems at its ends.
pub(crate) fn act(act: &Act, standing: &mut Standing)
    ensures { standing.new ≡ acted act.now standing.old }
{
    standing.a_lives = lives_acted(act, standing.cable.a.clock, standing.a_lives);
    standing.b_lives = lives_acted(act, standing.cable.b.clock, standing.b_lives);
    act_on_cable(act, &mut standing.cable);
}

/// Goes on to a time: where it is another, how the link stood until then is put after the others.
fn go_on(course: &mut Vec<Standing>, standing: &mut Standing, at: u64) -> Result<(), AllocError>
    ensures course { OnOk result (course.new.items ≡ past at standing.old course.old.items) }
    ensures standing { OnOk result (standing.new ≡ course_at_time at standing.old) }
{
    if standing.at != at {
        course.push(*standing)?;
    }
    standing.at = at;
    Ok(())
}

/// The system that a change names.
fn named_by(change: &Change) -> ClockId
    ensures { result ≡ named_by change.now }
{
    match *change {
        Change::LinkDown { clock, port: _ } => clock,
        Change::LinkUp { clock, port: _ } => clock,
        Change::LinkSet {
            clock,
            port: _,
            min: _,
            max: _,
            loss: _,
        } => clock,
        Change::Fail { clock } => clock,
        Change::Recover { clock } => clock,
        Change::Priority1 { clock, value: _ } => clock,
        Change::Inject {
            clock,
            port: _,
            octets: _,
        } => clock,
    }
}

/// The system that an act names; of no document is one that names none, which gives 0.
pub fn named(act: &Act) -> ClockId
    ensures { result ≡ named act.now }
{
    match act {
        Act::Change(change) => named_by(change),
        Act::Expire { clock, timer: _ } => *clock,
        Act::Deliver {
            link: _,
            direction: _,
        } => ClockId::from(0),
    }
}

/// The systems that events name, in their order. Refused for want of memory alone.
pub fn names_of(alloc: Global, events: &[Timed]) -> Result<Vec<ClockId>, AllocError>
    ensures { IfOk result (λ names. names.items ≡ names_of events.now) }
{
    let mut names = Vec::new(alloc);
    for event in events {
        names.push(named(&event.act))?;
    }
    Ok(names)
}

/// Whether a link is at this port.
fn is_at(clock: ClockId, port: u16, cable: &Cable) -> bool
    ensures { result ≡ is_at clock port (cable_wire cable.now) }
{
    let port = PortId { clock, port };
    cable.a == port || cable.b == port
}

/// Whether a link is at the port that a change names.
fn names_link(change: &Change, cable: &Cable) -> bool
    ensures { result ≡ names_link change.now cable.now }
{
    match *change {
        Change::LinkDown { clock, port } => is_at(clock, port, cable),
        Change::LinkUp { clock, port } => is_at(clock, port, cable),
        Change::LinkSet {
            clock,
            port,
            min: _,
            max: _,
            loss: _,
        } => is_at(clock, port, cable),
        Change::Inject {
            clock,
            port,
            octets: _,
        } => is_at(clock, port, cable),
        _ => false,
    }
}

/// Whether a link is at the port that an act names.
pub(crate) fn is_link_named(act: &Act, cable: &Cable) -> bool
    ensures { result ≡ is_link_named act.now cable.now }
{
    match act {
        Act::Change(change) => names_link(change, cable),
        _ => false,
    }
}

/// Whether a system at one of a link's ends has this clock.
fn is_end(cable: &Cable, clock: ClockId) -> bool
    ensures { result ≡ is_cable_end cable.now clock }
{
    clock == cable.a.clock || clock == cable.b.clock
}

/// What an event makes of a link, whose course so far is known.
fn pass(
    course: &mut Vec<Standing>,
    standing: &mut Standing,
    event: &Timed,
) -> Result<(), AllocError>
    ensures course { OnOk result (course.new.items ≡ past event.now.at standing.old course.old.items) }
    ensures standing { OnOk result (standing.new ≡ acted event.now.act (course_at_time event.now.at standing.old)) }
{
    go_on(course, standing, event.at)?;
    act(&event.act, standing);
    Ok(())
}

/// Passes the event at a place, where that names a system at one of the link's ends.
fn pass_at(
    course: &mut Vec<Standing>,
    standing: &mut Standing,
    cable: &Cable,
    events: &[Timed],
    names: &[ClockId],
    place: usize,
) -> Result<(), AllocError>
    requires names { names.now ≡ names_of events.now }
    requires place { place < length names.now }
    ensures { OnOk result (course.new.items ++ course_from standing.new (naming cable.now (drop (place + 1) events.now))
        ≡ course.old.items ++ course_from standing.old (naming cable.now (drop place events.now))) }
{
    if !is_end(cable, names[place]) {
        return Ok(());
    }
    pass(course, standing, &events[place])
}

/// How a link stands at 0, and at the times of those events that name a system at one of its ends, where these are the
/// systems that the events name. Refused for want of memory alone.
pub fn course_of(
    alloc: Global,
    cable: &Cable,
    events: &[Timed],
    names: &[ClockId],
) -> Result<Vec<Standing>, AllocError>
    requires { names.now ≡ names_of events.now }
    ensures { IfOk result (λ course. course.items
        ≡ course_from (first (cable_wire cable.now)) (naming cable.now events.now)) }
{
    let mut course = Vec::new(alloc);
    let mut standing = first(cable);
    for place in 0..names.len() {
        pass_at(&mut course, &mut standing, cable, events, names, place)?;
    }
    course.push(standing)?;
    Ok(course)
}
