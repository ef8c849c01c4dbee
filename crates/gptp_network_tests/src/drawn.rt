//! What two systems show once they have settled, as functions whose contracts follow from those of their world's calls:
//! from what these say of every world that has been calm for long enough. Times are in ns.

ghost use Rattle.std.specs.Prelude.{◌≡◌, ◌≢◌, ◌∷◌, ℕ, [], true, IfOk, IfSome, None, OnOk, Some, pos};
ghost use Rattle.gptp_setup.specs.Intervals.{IsMoment};
ghost use Rattle.gptp_model.specs.Views.{ShowsLive};
ghost use Rattle.gptp_model.specs.World.{port_id};
ghost use Rattle.gptp_invariants.specs.WorldShown.{IsCapableInTime};
ghost use Rattle.gptp_invariants.specs.SyncTimedLaws.{AreFollowUp};
ghost use Rattle.gptp_messages.specs.Grammar.{Reads};
ghost use Rattle.gptp_messages.specs.declared.announce.AnnounceView.{AnnounceView};
ghost use Rattle.gptp_messages.specs.declared.message.Message.TheVariants as messages;
ghost use Rattle.gptp_theorem.specs.Headline.{LeavesOffset, UsesFollowUp};
ghost use Rattle.gptp_roles.specs.declared.role.Role.TheVariants.{Disabled, Master, Slave};
ghost use Rattle.gptp_scaled.specs.Counts.{AreWithin};
ghost use Rattle.gptp_network_tests.specs.Pair.{HasBegun, HasBegunWith, HearsAnnounce, HoldsFirstAlone, HoldsFromFirst};
ghost use Rattle.gptp_network_tests.specs.Pair.{IsPairAt, IsPairSince, IsPairWithin, RunsOfTwoAreExact, WorldsOfTwoAreExact};
ghost use Rattle.gptp_network_tests.specs.Pair.{each_second, first_member, following_pair, leading, network_with};
ghost use Rattle.gptp_network_tests.specs.Pair.{params, second_member, stamped_params};

use arrayvec::ArrayVec;
use gptp_certificate::{Certificate, write_certificate};
use gptp_links::Fate;
use gptp_messages::Message;
use gptp_model::Carried;
use gptp_roles::Role;
use gptp_scaled::ScaledNs;
use gptp_setup::MOST_PORTS;
use gptp_system::{Answer, System};
use gptp_theorem::{runs_are_exact, worlds_are_exact};
use gptp_vector::{ClockId, Identity, PortId, Trace};
use gptp_world::{Done, Network, NetworkFault, Params, World};
use std::alloc::Global;

/// What both systems have: intervals of 1 s, and of 125 ms for time.
pub(crate) const PARAMS: Params = Params {
    announce: 0,
    sync: -3,
    pdelay: 0,
    timeout: 3,
    lost: 9,
    threshold: 800,
    turnaround: 1_000,
    residence: 1_000,
    sync_timeout: 0,
    granularity: 0,
    noise: 0,
    window: 1,
};

/// When their ports are capable: after L + 5 announce intervals, L being 9.
const CAPABLE: u64 = 14_000_000_000;

/// When all that arrives was sent once ports were capable: an announce interval later.
const HEARS: u64 = 15_000_000_000;

/// When all that is held is wholly clean: after two turns of k + 1, k being 3, as no path has more than two systems.
const WHOLE: u64 = 22_000_000_000;

/// When a system one step away follows the first: two announce intervals later.
const SOONER: u64 = 24_000_000_000;

/// When all has settled: after (k + 3) n + L + 5, n being 2.
const SETTLED: u64 = 26_000_000_000;

/// Before the second hears the Sync that leaves the first at 27.125 s, and its Follow_Up. By then all has settled, and
/// what it uses has come down the one link: that takes a threshold and a residence at most, 1,800 ns.
pub(crate) const AWAITS: u64 = 27_125_000_499;

/// When nothing is awaited any more.
pub(crate) const LAST: u64 = 28_000_000_000;

/// The identity with this clock, and all defaults.
fn identity(clock: u8) -> Identity
    ensures first { clock ≡ 1 → result ≡ first_member }
    ensures second { clock ≡ 2 → result ≡ second_member }
{
    Identity::of_octets([246, 248, 254, 0x43, 0x6a, 248, 0, 0, 0, 0, 0, 0, 0, clock])
}

/// The interval of the one port of a system.
fn intervals() -> ArrayVec<i8, MOST_PORTS>
    ensures { result ≡ each_second }
{
    let mut intervals = ArrayVec::new();
    let _ = intervals.try_extend_from_slice(&[0]);
    intervals
}

/// The first port of the system with a clock.
fn port(clock: u64) -> PortId
    ensures { result ≡ record { clock = clock; port = 1 } }
{
    PortId {
        clock: ClockId::from(clock),
        port: 1,
    }
}

/// The network of two systems with these parameters, of clocks 1 and 2, that a link joins.
fn pair_with(alloc: Global, params: Params) -> Result<Network, NetworkFault>
    ensures { IfOk result (λ network. network ≡ network_with params) }
{
    let mut network = Network::new(alloc, params)?;
    network.add_system(identity(1), 1, 0, 0, false, intervals())?;
    network.add_system(identity(2), 1, 0, 0, false, intervals())?;
    network.add_link(port(1), port(2), 500, 500, 0, true)?;
    Ok(network)
}

/// The world of that network as it begins.
pub(crate) fn begun_with<F: Fate + Drop>(
    alloc: Global,
    fate: F,
    params: Params,
) -> Result<World<F>, NetworkFault>
    ensures { IfOk result (λ world. HasBegunWith params F.answers world.fate world.world_core) }
{
    let network = pair_with(alloc, params)?;
    network.well_formed();
    match World::new(alloc, &network, fate) {
        Ok(world) => Ok(world),
        Err(_) => Err(NetworkFault::OutOfMemory),
    }
}

/// Their world as it begins.
pub(crate) fn begun<F: Fate + Drop>(alloc: Global, fate: F) -> Result<World<F>, NetworkFault>
    ensures { IfOk result (λ world. HasBegun F.answers world.fate world.world_core) }
{
    begun_with(alloc, fate, PARAMS)
}

/// It goes on from there to a time.
#[tactic(auto, using(crate::proofs::PairLemmas::comes_to))]
fn go_on<F: Fate + Drop>(world: &mut World<F>, time: u64) -> Result<(), NetworkFault>
    requires begun { HasBegun F.answers world.old.fate world.old.world_core }
    requires moment { IsMoment time }
    ensures { OnOk result (IsPairAt time world.new.world_core) }
{
    match world.advance(time) {
        Ok(()) => {
            world.well_formed();
            Ok(())
        }
        Err(_) => Err(NetworkFault::OutOfMemory),
    }
}

/// Their world at a time.
pub(crate) fn pair_at<F: Fate + Drop>(
    alloc: Global,
    fate: F,
    time: u64,
) -> Result<World<F>, NetworkFault>
    requires moment { IsMoment time }
    ensures { IfOk result (λ world. IsPairAt time world.world_core) }
{
    let mut world = begun(alloc, fate)?;
    go_on(&mut world, time)?;
    Ok(world)
}

/// What the second system follows.
#[tactic(auto, using(crate::proofs::PairLemmas::followed))]
fn second_follows<F: Fate + Drop>(world: &World<F>) -> Option<(Identity, u16, Option<u8>)>
    requires { IsPairAt 26000000000 world.now.world_core }
    ensures { result ≡ Some (first_member, 1, Some 1) }
{
    world.follows(ClockId::from(2))
}

/// What it follows once all has settled, whatever is drawn for frames: the first, one step away, by its one port.
/// Refused for want of memory alone.
pub fn follow_at_rest<F: Fate + Drop>(
    alloc: Global,
    fate: F,
) -> Result<Option<(Identity, u16, Option<u8>)>, NetworkFault>
    ensures { IfOk result (λ followed. followed ≡ Some (first_member, 1, Some 1)) }
{
    let world = pair_at(alloc, fate, SETTLED)?;
    Ok(second_follows(&world))
}

/// What it follows, one step away from the best.
fn second_follows_sooner<F: Fate + Drop>(world: &World<F>) -> Option<(Identity, u16, Option<u8>)>
    requires { IsPairAt 24000000000 world.now.world_core }
    ensures { result ≡ Some (first_member, 1, Some 1) }
{
    let second = ClockId::from(2);
    world.follows(second)
}

/// What the second system follows two announce intervals before all has settled, by its distance from the best: the
/// first, one step away. Refused for want of memory alone.
pub fn follow_by_distance<F: Fate + Drop>(
    alloc: Global,
    fate: F,
) -> Result<Option<(Identity, u16, Option<u8>)>, NetworkFault>
    ensures { IfOk result (λ followed. followed ≡ Some (first_member, 1, Some 1)) }
{
    let world = pair_at(alloc, fate, SOONER)?;
    Ok(second_follows_sooner(&world))
}

/// What it follows, as no path has more than two systems.
fn second_follows_by_paths<F: Fate + Drop>(world: &World<F>) -> Option<(Identity, u16, Option<u8>)>
    requires { IsPairAt 26000000000 world.now.world_core }
    ensures { result ≡ Some (first_member, 1, Some 1) }
{
    let second = ClockId::from(2);
    world.follows(second)
}

/// What the second system follows once all has settled, by how many systems paths have: the first. With paths of two
/// systems that is no sooner. Refused for want of memory alone.
pub fn follow_by_paths<F: Fate + Drop>(
    alloc: Global,
    fate: F,
) -> Result<Option<(Identity, u16, Option<u8>)>, NetworkFault>
    ensures { IfOk result (λ followed. followed ≡ Some (first_member, 1, Some 1)) }
{
    let world = pair_at(alloc, fate, SETTLED)?;
    Ok(second_follows_by_paths(&world))
}

/// What both systems state.
fn certify<F: Fate + Drop>(alloc: Global, world: &World<F>) -> Result<Certificate, NetworkFault>
    requires { IsPairAt 26000000000 world.now.world_core }
    ensures { IfOk result (λ certificate. certificate.lines ≡ leading ∷ following_pair ∷ []) }
{
    match write_certificate(alloc, world) {
        Ok(certificate) => Ok(certificate),
        Err(_) => Err(NetworkFault::OutOfMemory),
    }
}

/// What both state once all has settled: that the second follows the first. Refused for want of memory alone.
pub fn certify_at_rest<F: Fate + Drop>(alloc: Global, fate: F) -> Result<Certificate, NetworkFault>
    ensures { IfOk result (λ certificate. certificate.lines ≡ leading ∷ following_pair ∷ []) }
{
    let world = pair_at(alloc, fate, SETTLED)?;
    certify(alloc, &world)
}

/// The world of both once all that is held is wholly clean. Refused for want of memory alone.
pub fn whole<F: Fate + Drop>(alloc: Global, fate: F) -> Result<World<F>, NetworkFault>
    ensures { IfOk result (λ world. IsPairAt 22000000000 world.world_core) }
{
    pair_at(alloc, fate, WHOLE)
}

/// The second system then: what its port holds as received came from the first, over nothing between.
pub fn second_then<F: Fate + Drop>(world: &World<F>) -> Option<&System>
    requires { IsPairAt 22000000000 world.now.world_core }
    ensures alone { IfSome result (λ system. HoldsFirstAlone system.now) }
    ensures from { IfSome result (λ system. HoldsFromFirst system.now) }
{
    world.well_formed();
    world.system(ClockId::from(2))
}

/// The role of the first system's port.
#[tactic(auto, using(crate::proofs::PairLemmas::first_played))]
fn first_plays<F: Fate + Drop>(world: &World<F>) -> Option<Role>
    requires { IsPairAt 26000000000 world.now.world_core }
    ensures { result ≡ Some Master }
{
    world.role(ClockId::from(1), 1)
}

/// That of the second's.
#[tactic(auto, using(crate::proofs::PairLemmas::second_played))]
fn second_plays<F: Fate + Drop>(world: &World<F>) -> Option<Role>
    requires { IsPairAt 26000000000 world.now.world_core }
    ensures { result ≡ Some Slave }
{
    world.role(ClockId::from(2), 1)
}

/// The roles of both ports once all has settled. Refused for want of memory alone.
pub fn play_at_rest<F: Fate + Drop>(
    alloc: Global,
    fate: F,
) -> Result<(Option<Role>, Option<Role>), NetworkFault>
    ensures { IfOk result (λ roles. roles ≡ (Some Master, Some Slave)) }
{
    let world = pair_at(alloc, fate, SETTLED)?;
    Ok((first_plays(&world), second_plays(&world)))
}

/// The trace that the second system announces.
#[tactic(auto, using(crate::proofs::PairLemmas::second_announces, crate::proofs::PairLemmas::second_lives))]
fn second_announces<F: Fate + Drop>(world: &World<F>) -> Option<Trace>
    requires { IsPairAt 26000000000 world.now.world_core }
    ensures { result ≡ Some (1 ∷ 2 ∷ []) }
{
    world.well_formed();
    let _followed = world.follows(ClockId::from(2))?;
    let system = world.system(ClockId::from(2))?;
    Some(system.trace())
}

/// It announces, once all has settled, that the time came from the first, over nothing between. Refused for want of
/// memory alone.
pub fn announce_at_rest<F: Fate + Drop>(
    alloc: Global,
    fate: F,
) -> Result<Option<Trace>, NetworkFault>
    ensures { IfOk result (λ trace. trace ≡ Some (1 ∷ 2 ∷ [])) }
{
    let world = pair_at(alloc, fate, SETTLED)?;
    Ok(second_announces(&world))
}

/// Whether the port of a system, which is the second, is capable.
#[tactic(auto, using(crate::proofs::PairLemmas::second_has_port, crate::proofs::PairLemmas::second_is_capable))]
fn is_capable<F: Fate + Drop>(world: &World<F>, system: &System) -> bool
    requires at { IsPairAt 14000000000 world.now.world_core }
    requires second { ShowsLive 2 world.now.world_core system.now }
    requires capable { IsCapableInTime world.now.world_core system.now }
    ensures { result ≡ true }
{
    system.capable(1)
}

/// Whether its port is, where it lives.
#[tactic(auto, using(crate::proofs::PairLemmas::second_lives))]
fn second_is_capable<F: Fate + Drop>(world: &World<F>) -> Option<bool>
    requires { IsPairAt 14000000000 world.now.world_core }
    ensures { result ≡ Some true }
{
    match world.system(ClockId::from(2)) {
        Some(system) => Some(is_capable(world, system)),
        None => None,
    }
}

/// Whether it is L + 5 announce intervals after the start. Refused for want of memory alone.
pub fn capable_in_time<F: Fate + Drop>(alloc: Global, fate: F) -> Result<Option<bool>, NetworkFault>
    ensures { IfOk result (λ capable. capable ≡ Some true) }
{
    let world = pair_at(alloc, fate, CAPABLE)?;
    Ok(second_is_capable(&world))
}

/// Its role, where it has one.
#[tactic(auto, using(crate::proofs::PairLemmas::has_role, crate::proofs::PairLemmas::not_disabled))]
fn second_is_enabled<F: Fate + Drop>(world: &World<F>) -> Option<Role>
    requires { IsPairAt 14000000000 world.now.world_core }
    ensures some { result ≢ None }
    ensures enabled { result ≢ Some Disabled }
{
    world.role(ClockId::from(2), 1)
}

/// Its role by then: it has one other than Disabled. Refused for want of memory alone.
pub fn enabled_in_time<F: Fate + Drop>(alloc: Global, fate: F) -> Result<Option<Role>, NetworkFault>
    ensures some { IfOk result (λ role. role ≢ None) }
    ensures enabled { IfOk result (λ role. role ≢ Some Disabled) }
{
    let world = pair_at(alloc, fate, CAPABLE)?;
    Ok(second_is_enabled(&world))
}

/// Whether a frame is a Follow_Up.
fn is_follow_up(frame: &Carried) -> bool
    ensures { result ≡ true → AreFollowUp frame.now.items }
{
    match frame.read() {
        Ok(Message::FollowUp(_)) => true,
        _ => false,
    }
}

/// Whether the second system used a Follow_Up by an act of which this is told.
pub(crate) fn second_uses(done: &Done) -> bool
    ensures { result ≡ true → UsesFollowUp 2 done.now }
{
    match done {
        Done::Heard {
            clock,
            answer: Some(Answer::Used),
            frame,
            ..
        } => *clock == ClockId::from(2) && is_follow_up(frame),
        _ => false,
    }
}

/// The offset that it is left, where it did.
fn second_offset<F: Fate + Drop>(world: &World<F>, done: &Done) -> Option<ScaledNs>
    ensures { IfSome result (λ offset. LeavesOffset 2 offset world.now.world_core done.now) }
{
    if !second_uses(done) {
        return None;
    }
    match world.system(ClockId::from(2)) {
        Some(system) => system.offset(),
        None => None,
    }
}

/// The next act is done. The offset that it leaves the second, where that used a Follow_Up: in units of 2^-16 ns, and
/// no more than the time error by their time stamps, as both clocks show the same.
#[tactic(auto, using(crate::proofs::ExactLemmas::second_is_exact))]
pub(crate) fn receive<F: Fate + Drop>(
    world: &mut World<F>,
) -> Result<Option<ScaledNs>, NetworkFault>
    ghost error: { ℕ }
    requires { IsPairWithin error 27000000000 world.old.world_core }
    ensures since { OnOk result (IsPairWithin error 27000000000 world.new.world_core) }
    ensures exact { IfOk result (λ received. IfSome received (λ offset. AreWithin error offset (pos 0))) }
{
    world.well_formed();
    let timed = match world.next() {
        Some(timed) => timed,
        None => return Ok(None),
    };
    if LAST < timed.at {
        return Ok(None);
    }
    match world.act(timed) {
        Ok(done) => Ok(second_offset(world, &done)),
        Err(_) => Err(NetworkFault::OutOfMemory),
    }
}

/// The offset of the second by the first two acts after 27.125 s: it hears a Sync, and then the Follow_Up. It is no
/// more than rounding. Refused for want of memory alone.
#[tactic(auto, using(crate::proofs::ExactLemmas::exact_pair))]
pub fn exact_in_time<F: Fate + Drop>(
    alloc: Global,
    fate: F,
) -> Result<Option<ScaledNs>, NetworkFault>
    ensures { IfOk result (λ received. IfSome received (λ offset. AreWithin 19 offset (pos 0))) }
{
    let mut world = pair_at(alloc, fate, AWAITS)?;
    let _by_sync = receive(&mut world)?;
    receive(&mut world)
}

/// The port that an Announce came from.
fn announcer(frame: &Carried) -> Option<PortId>
    ensures { IfSome result (λ source. (m : AnnounceView) × Reads frame.now.items (messages.Announce m)
        × (source ≡ m.head.source)) }
{
    match frame.read() {
        Ok(Message::Announce(announce)) => Some(announce.head.source),
        _ => None,
    }
}

/// The port of the Announce that the second system heard by an act of which this is told.
fn second_hears(done: &Done) -> Option<PortId>
    ensures { IfSome result (λ source. (m : AnnounceView) × HearsAnnounce 2 m done.now × (source ≡ m.head.source)) }
{
    match done {
        Done::Heard { clock, frame, .. } if *clock == ClockId::from(2) => { announcer(frame) }
        _ => None,
    }
}

/// The next act is done. The port of the Announce that the second hears by it: the first's, as all that reaches a port
/// was sent by the system at the other end.
fn hear<F: Fate + Drop>(world: &mut World<F>) -> Result<Option<PortId>, NetworkFault>
    requires { IsPairSince 15000000000 world.old.world_core }
    ensures since { OnOk result (IsPairSince 15000000000 world.new.world_core) }
    ensures clean { IfOk result (λ heard. IfSome heard (λ source. source ≡ port_id 1 1)) }
{
    world.well_formed();
    let timed = match world.next() {
        Some(timed) => timed,
        None => return Ok(None),
    };
    if LAST < timed.at {
        return Ok(None);
    }
    match world.act(timed) {
        Ok(done) => Ok(second_hears(&done)),
        Err(_) => Err(NetworkFault::OutOfMemory),
    }
}

/// The port of the first Announce that the second hears from L + 6 announce intervals on, if it does so by these acts.
/// Refused for want of memory alone.
pub fn hear_in_time<F: Fate + Drop>(alloc: Global, fate: F) -> Result<Option<PortId>, NetworkFault>
    ensures { IfOk result (λ heard. IfSome heard (λ source. source ≡ port_id 1 1)) }
{
    let mut world = pair_at(alloc, fate, HEARS)?;
    for _act in 0..200 {
        if let Some(source) = hear(&mut world)? {
            return Ok(Some(source));
        }
    }
    Ok(None)
}

/// By the theorem each act in a world of both leaves the second an offset that is exact but for rounding; and with time
/// stamps of 8 ns and 4 ns of noise one that is exact but for 32.011 ns.
pub fn worlds_of_two_are_exact<F: Fate>()
    ensures exact { WorldsOfTwoAreExact F.answers params 19 }
    ensures stamped { WorldsOfTwoAreExact F.answers (stamped_params 8 4) 2097811 }
{
    worlds_are_exact::<F>();
}

/// By the theorem each act of a run of the document of both leaves the second such an offset.
pub fn runs_of_two_are_exact<F: Fate>()
    ensures exact { RunsOfTwoAreExact F.answers params 19 }
    ensures stamped { RunsOfTwoAreExact F.answers (stamped_params 8 4) 2097811 }
{
    runs_are_exact::<F>();
}
