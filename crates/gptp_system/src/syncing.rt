//! Time: what a Sync, a Follow_Up and the timers of both make of a system.

ghost use Rattle.std.specs.Prelude.{◌≡◌, ◌==◌, ◌&&◌, ◌+◌, ◌/◌, ◌<◌, ◌≤◌, ◌++◌, ◌∷◌, [], None, length, pos, if◌then◌else◌, OkIff};
ghost use Rattle.std.specs.Option.{option_copied, option_map_or};
ghost use Rattle.arrayvec.specs.ArrayVec.{array_vec_len};
ghost use Rattle.gptp_correction.specs.Correction.{held_sum};
ghost use Rattle.gptp_correction.specs.SyncIn.{information};
ghost use Rattle.gptp_pdelay.specs.Peer.{delay_of, rate_of_peer};
ghost use Rattle.gptp_scaled.specs.Stamp.{FitsStamp};
ghost use Rattle.gptp_setup.specs.declared.limits.TheConstants.{MOST_PORTS};
ghost use Rattle.gptp_system.specs.declared.sending.TheConstants.{MOST_SENDS};
ghost use Rattle.gptp_system.specs.declared.port.Port.{Port};
ghost use Rattle.gptp_system.specs.State.{can_lead, is_mine, number};
ghost use Rattle.gptp_system.specs.Syncing.{as_received, came_from, counted_by_rates, counting, follow_up_of, offset_of, reads_with, sync_of, syncs, IsOffset, IsOwnTime, OffsetFits};

use crate::answer::Answer;
use crate::lapse::lapse_of;
use crate::port::Port;
use crate::reading::{Reading, TimeRead, reading_of};
use crate::sending::{Body, Outbox, Sending, push};
use crate::state::State;
use gptp_correction::{Relayed, SyncIn, SyncInfo, receipt_time, relay};
use gptp_messages::{FollowUp, Head};
use gptp_receipt::Held;
use gptp_scaled::{Interval, OutOfRange, Rate, ScaledNs};
use gptp_vector::{ClockId, Identity, PortId};

/// The Sync of a port.
fn sync_of(own: PortId, log_interval: i8, port: &Port) -> Sending
    requires { own.port ≤ 255 }
    ensures { result ≡ sync_of own log_interval port.now }
{
    Sending {
        port: own.port as u8,
        head: Head {
            source: own,
            sequence: port.syncs,
            correction: 0,
            log_interval,
            two_step: true,
        },
        body: Body::Sync,
    }
}

/// The Follow_Up of that Sync.
fn follow_up_of(own: PortId, log_interval: i8, told: &Relayed, port: &Port) -> Sending
    requires { own.port ≤ 255 }
    ensures { result ≡ follow_up_of own log_interval told.now port.now }
{
    Sending {
        port: own.port as u8,
        head: Head {
            source: own,
            sequence: port.syncs,
            correction: told.correction.value(),
            log_interval,
            two_step: false,
        },
        body: Body::FollowUp {
            origin: told.origin,
            rate: told.rate,
        },
    }
}

/// A port sends a Sync.
fn send_sync(port: &Port, own: PortId, log_interval: i8, outbox: &mut Outbox)
    requires number { own.port ≤ 255 }
    requires room { array_vec_len outbox.old < MOST_SENDS }
    ensures { outbox.new.items ≡ outbox.old.items ++ sync_of own log_interval port.now ∷ [] }
{
    push(outbox, sync_of(own, log_interval, port));
}

/// A port sends the Follow_Up of its Sync, with what is told.
fn send_follow_up(port: &Port, own: PortId, log_interval: i8, told: &Relayed, outbox: &mut Outbox)
    requires number { own.port ≤ 255 }
    requires room { array_vec_len outbox.old < MOST_SENDS }
    ensures { outbox.new.items ≡ outbox.old.items ++ follow_up_of own log_interval told.now port.now ∷ [] }
{
    push(outbox, follow_up_of(own, log_interval, told, port));
}

/// A port tells a time: it sends both, and counts one Sync more. (Its identity is named twice since the borrow checker
/// lets a struct be passed by value once.)
fn tell(port: &mut Port, own: PortId, log_interval: i8, told: &Relayed, outbox: &mut Outbox)
    requires number { own.port ≤ 255 }
    requires room { array_vec_len outbox.old + 1 < MOST_SENDS }
    ensures port { port.new ≡ counting port.old }
    ensures sends { outbox.new.items ≡ outbox.old.items
        ++ sync_of own log_interval port.old ∷ follow_up_of own log_interval told.now port.old ∷ [] }
{
    let the_same = own;
    send_sync(port, own, log_interval, outbox);
    send_follow_up(port, the_same, log_interval, told, outbox);
    port.syncs = port.syncs.wrapping_add(1);
}

/// A port tells a time where it is a Master port.
fn tell_if(
    held: &Held,
    port: &mut Port,
    own: PortId,
    log_interval: i8,
    told: &Relayed,
    outbox: &mut Outbox,
)
    requires number { own.port ≤ 255 }
    requires room { array_vec_len outbox.old + 1 < MOST_SENDS }
    ensures port { port.new ≡ (if is_mine held.now then counting port.old else port.old) }
    ensures sends { outbox.new.items ≡ outbox.old.items
        ++ (if is_mine held.now then sync_of own log_interval port.old ∷ follow_up_of own log_interval told.now port.old ∷ [] else []) }
{
    match held {
        Held::Mine { .. } => tell(port, own, log_interval, told, outbox),
        _ => {}
    }
}

/// All Master ports tell a time, by rising number.
fn tell_all(
    clock: ClockId,
    log_interval: i8,
    told: &Relayed,
    held: &[Held],
    ports: &mut [Port],
    outbox: &mut Outbox,
)
    requires places { length held.now ≡ length ports.old }
    requires few { length ports.old ≤ MOST_PORTS }
    requires empty { outbox.old.items ≡ [] }
    ensures ports { ports.new ≡ counted_by_rates held.now ports.old }
    ensures sends { outbox.new.items ≡ syncs clock log_interval told.now 1 held.now ports.old }
{
    let mut number = 0;
    for one in held {
        let own = PortId {
            clock,
            port: number + 1,
        };
        tell_if(
            one,
            &mut ports[usize::from(number)],
            own,
            log_interval,
            told,
            outbox,
        );
        number += 1;
    }
}

/// A time of the own, at the own rate.
fn own_time(time: ScaledNs) -> Relayed
    requires { FitsStamp time }
    ensures { IsOwnTime time result }
{
    let (origin, rest) = time.split().unwrap();
    Relayed {
        origin,
        correction: Interval::new(i64::from(rest)),
        rate: Rate::new(0),
    }
}

/// Whether a system of this identity is its own root, and may be grandmaster (IEEE 802.1AS-2020, 10.3.2).
fn leads(identity: Identity, root: Identity) -> bool
    ensures { result ≡ (root == identity && can_lead identity) }
{
    root == identity && identity.capable()
}

/// Whether what a port received came from this port.
fn came_from(source: PortId, held: &Held) -> bool
    ensures { result ≡ came_from source held.now }
{
    match held {
        Held::Received(reception) => reception.vector.source == source,
        _ => false,
    }
}

/// What a Follow_Up and the Sync that is kept say together, on the Slave port.
fn said_on(is_slave: bool, sync_in: &mut SyncIn, follow_up: &FollowUp) -> Option<SyncInfo>
    ensures said { result ≡ (if is_slave then information sync_in.old follow_up.now else None) }
    ensures unchanged { sync_in.new ≡ sync_in.old }
{
    if is_slave {
        sync_in.on_follow_up(follow_up)
    } else {
        None
    }
}

/// The port of this number, where there is one.
fn port_at(ports: &[Port], port: u8) -> Option<&Port>
    ensures { option_copied result ≡ number ports.now port }
{
    ports.get(usize::from(port).checked_sub(1)?)
}

/// The meanLinkDelay of a port; 0 where nothing was measured.
fn delay_at(ports: &[Port], port: u8) -> ScaledNs
    ensures { result ≡ option_map_or (λ (q : Port). option_map_or (λ d. d) (delay_of q.peer) (pos 0))
        (number ports.now port) (pos 0) }
{
    match port_at(ports, port) {
        Some(one) => one.peer.delay().unwrap_or_default(),
        None => ScaledNs::default(),
    }
}

/// The neighbour's rate at a port; that of the own clock where nothing was measured.
fn rate_at(ports: &[Port], port: u8) -> Rate
    ensures { result ≡ option_map_or (λ (q : Port). rate_of_peer q.peer) (number ports.now port) (pos 0) }
{
    match port_at(ports, port) {
        Some(one) => one.peer.rate(),
        None => Rate::default(),
    }
}

/// How far the own clock was ahead of the grandmaster's when a Sync came; refused where a number on the way doesn't
/// fit.
fn offset_of(info: &SyncInfo, delay: ScaledNs, rate: Rate) -> Result<ScaledNs, OutOfRange>
    ensures { OkIff result (OffsetFits info.now delay rate) (offset_of info.now delay rate) }
{
    info.ingress.checked_sub(receipt_time(info, delay, rate)?)
}

/// How far the own clock was ahead of the grandmaster's when a Sync came, by a sum of rates held at its limits; `None`
/// where a number on the way doesn't fit.
fn held_offset(info: &SyncInfo, delay: ScaledNs, rate: Rate) -> Option<ScaledNs>
    ensures { IsOffset (held_sum info.now rate) delay rate result }
{
    offset_of(&info.held_sum(rate), delay, rate).ok()
}

/// What is read by with a Follow_Up; without an offset what was read by before.
fn reads_with(
    info: &SyncInfo,
    offset: &Option<ScaledNs>,
    rate: Rate,
    before: &Option<TimeRead>,
) -> Option<TimeRead>
    ensures { result ≡ reads_with info.now offset.now rate before.now }
{
    match offset {
        Some(offset) => Some(TimeRead::Received(reading_of(info, *offset, rate))),
        None => *before,
    }
}

/// What is told as it came.
fn as_received(info: &SyncInfo) -> Relayed
    ensures { result ≡ as_received info.now }
{
    Relayed {
        origin: info.origin,
        correction: info.correction,
        rate: info.rate,
    }
}

impl State {
    ghost use Rattle.std.specs.Prelude.{◌≡◌, ◌⊎◌, ◌≤◌, [], length};
    ghost use Rattle.gptp_setup.specs.Intervals.{IsMoment};
    ghost use Rattle.gptp_setup.specs.SettlingParams.{has_sync_timeout};
    ghost use Rattle.gptp_system.specs.Ready.{IsReady, state_of};
    ghost use Rattle.gptp_system.specs.Syncing.{held_reading, is_followed, is_slave_at, slave_delay, slave_rate, telling, told_by, HearsFollowUp, HearsSync, IsDropped, IsForgotten};
    ghost use Rattle.gptp_system.specs.Syncing.{OffsetIsKnown, IsRefreshed, IsRelayed, IsSentOn, IsToldAtLimits, KnowsBy, RelayExpires, SyncExpires};

    /// All Master ports tell a time.
    fn tell(&mut self, told: &Relayed, outbox: &mut Outbox)
        requires ready { IsReady (state_of self.old) }
        requires empty { outbox.old.items ≡ [] }
        ensures state { state_of self.new ≡ telling (state_of self.old) }
        ensures sends { outbox.new.items ≡ told_by told.now (state_of self.old) }
        ensures ready { IsReady (state_of self.new) }
    {
        tell_all(
            self.identity.clock(),
            self.params.sync,
            told,
            self.held.as_slice(),
            self.ports.as_mut_slice(),
            outbox,
        );
    }

    /// The Sync timer runs out (IEEE 802.1AS-2020, 10.2.9): it is started again, and a system that is its own root and
    /// may be grandmaster tells its time, and takes over where it didn't yet.
    pub(crate) fn on_sync_timer(&mut self, now: u64, outbox: &mut Outbox)
        requires ready { IsReady (state_of self.old) }
        requires moment { IsMoment now }
        requires due { (state_of self.old).sync ≤ now }
        requires empty { outbox.old.items ≡ [] }
        ensures step { SyncExpires now (state_of self.old) (state_of self.new) outbox.new.items }
        ensures ready { IsReady (state_of self.new) }
    {
        if leads(self.identity, self.root) {
            let told = own_time(self.lead(now));
            self.tell(&told, outbox);
        } else {
            self.restart(now);
        }
    }

    /// Whether a port is the Slave port.
    fn is_slave(&self, port: u8) -> bool
        ensures { result ≡ is_slave_at (state_of self.now) port }
    {
        self.slave == Some(port)
    }

    /// Whether a port hears with this a Sync of two steps as the Slave port, from the port that is followed.
    fn is_followed(&self, port: u8, head: &Head) -> bool
        requires ready { IsReady (state_of self.now) }
        requires least { 1 ≤ port }
        requires most { port ≤ length (state_of self.now).ports }
        ensures { result ≡ is_followed port head.now (state_of self.now) }
    {
        head.two_step
            && self.is_slave(port)
            && came_from(head.source, &self.held[usize::from(port) - 1])
    }

    /// A port hears a Sync: it is kept until its Follow_Up comes (IEEE 802.1AS-2020, 11.2.14).
    pub(crate) fn hear_sync(&mut self, port: u8, head: &Head, now: u64) -> Answer
        requires ready { IsReady (state_of self.old) }
        requires moment { IsMoment now }
        requires least { 1 ≤ port }
        requires most { port ≤ length (state_of self.old).ports }
        ensures step { HearsSync port head.now now (state_of self.old) (state_of self.new) [] result }
        ensures ready { IsReady (state_of self.new) }
    {
        if !self.is_capable(port) {
            return Answer::Disabled;
        }
        if !self.is_followed(port, head) {
            return Answer::Ignored;
        }
        let ingress = self.stamp_time(now);
        self.sync_in.on_sync(head.source, head.sequence, ingress);
        Answer::Used
    }

    /// The time is known where all numbers on the way fit, and is sent on one residence later; where one doesn't, what
    /// was kept is forgotten.
    fn know(&mut self, info: SyncInfo, delay: ScaledNs, rate: Rate, now: u64) -> Answer
        requires ready { IsReady (state_of self.old) }
        requires moment { IsMoment now }
        ensures step { OffsetIsKnown info delay rate now (state_of self.old) (state_of self.new) [] result
            ⊎ IsForgotten info delay rate (state_of self.old) (state_of self.new) [] result }
        ensures ready { IsReady (state_of self.new) }
    {
        match offset_of(&info, delay, rate) {
            Ok(offset) => {
                self.reads = Some(TimeRead::Received(reading_of(&info, offset, rate)));
                self.known = Some(info);
                self.offset = Some(offset);
                self.relay = Some(now + self.params.residence);
                Answer::Used
            }
            Err(_) => {
                self.sync_in.clear();
                self.known = None;
                self.offset = None;
                Answer::Ignored
            }
        }
    }

    /// In a network that has a syncReceiptTimeout the time is known in any case, by a sum of rates held at its limits.
    /// A Relay timer that runs keeps its time and sends this on then, and the Lapse timer begins anew.
    fn refresh(&mut self, info: SyncInfo, delay: ScaledNs, rate: Rate, now: u64) -> Answer
        requires ready { IsReady (state_of self.old) }
        requires moment { IsMoment now }
        ensures step { IsRefreshed info delay rate now (state_of self.old) (state_of self.new) [] result }
        ensures ready { IsReady (state_of self.new) }
    {
        let offset = held_offset(&info, delay, rate);
        let reads = reads_with(&info, &offset, rate, &self.reads);
        self.reads = reads;
        self.known = Some(info);
        self.offset = offset;
        self.relay = Some(self.relay.unwrap_or(now + self.params.residence));
        self.lapse = lapse_of(&self.params, self.root, self.slave, now);
        Answer::Used
    }

    /// What a Sync and its Follow_Up say is taken, as the network has a syncReceiptTimeout or not.
    fn take(&mut self, info: SyncInfo, delay: ScaledNs, rate: Rate, now: u64) -> Answer
        requires ready { IsReady (state_of self.old) }
        requires moment { IsMoment now }
        ensures step { KnowsBy (has_sync_timeout (state_of self.old).params) info delay rate now
            (state_of self.old) (state_of self.new) [] result }
        ensures ready { IsReady (state_of self.new) }
    {
        if self.params.sync_timeout > 0 {
            self.refresh(info, delay, rate, now)
        } else {
            self.know(info, delay, rate, now)
        }
    }

    /// A port hears a Follow_Up: with its Sync it says how far the own clock is ahead, and is sent on one residence
    /// later. Where a number on the way doesn't fit, what was known is forgotten; a network that has a
    /// syncReceiptTimeout goes on without the offset then (IEEE 802.1AS-2020, 11.2.14).
    pub(crate) fn hear_follow_up(&mut self, port: u8, follow_up: &FollowUp, now: u64) -> Answer
        requires ready { IsReady (state_of self.old) }
        requires moment { IsMoment now }
        requires least { 1 ≤ port }
        requires most { port ≤ length (state_of self.old).ports }
        ensures step { HearsFollowUp port follow_up.now now (state_of self.old) (state_of self.new) [] result }
        ensures ready { IsReady (state_of self.new) }
    {
        if !self.is_capable(port) {
            return Answer::Disabled;
        }
        let is_slave = self.is_slave(port);
        let Some(info) = said_on(is_slave, &mut self.sync_in, follow_up) else {
            return Answer::Ignored;
        };
        let delay = delay_at(self.ports.as_slice(), port);
        let rate = rate_at(self.ports.as_slice(), port);
        self.take(info, delay, rate, now)
    }

    /// The meanLinkDelay of the Slave port; 0 where there is none.
    fn slave_delay(&self) -> ScaledNs
        ensures { result ≡ slave_delay (state_of self.now) }
    {
        match self.slave {
            Some(port) => delay_at(self.ports.as_slice(), port),
            None => ScaledNs::default(),
        }
    }

    /// The neighbour's rate at the Slave port; that of the own clock where there is none.
    fn slave_rate(&self) -> Rate
        ensures { result ≡ slave_rate (state_of self.now) }
    {
        match self.slave {
            Some(port) => rate_at(self.ports.as_slice(), port),
            None => Rate::default(),
        }
    }

    /// What is read of the root's time by the Follow_Up that was used last.
    pub(crate) fn held_reading(&self) -> Option<Reading>
        ensures { result ≡ held_reading (state_of self.now) }
    {
        let known = self.known?;
        let offset = self.offset?;
        Some(reading_of(&known, offset, self.slave_rate()))
    }

    /// The time that came is sent on where the numbers on the way fit.
    fn relay_if_fits(&mut self, info: &SyncInfo, now: u64, outbox: &mut Outbox)
        requires ready { IsReady (state_of self.old) }
        requires moment { IsMoment now }
        requires empty { outbox.old.items ≡ [] }
        ensures step { IsRelayed info.now now (state_of self.old) (state_of self.new) outbox.new.items
            ⊎ IsDropped info.now now (state_of self.old) (state_of self.new) outbox.new.items }
        ensures ready { IsReady (state_of self.new) }
    {
        self.relay = None;
        let egress = self.stamp_time(now);
        if let Ok(told) = relay(info, self.slave_delay(), self.slave_rate(), egress) {
            self.tell(&told, outbox);
        }
    }

    /// What is told of the time that came, by a sum of rates held at its limits: what came as it is, where a number
    /// doesn't fit all the same.
    fn told_of(&self, info: &SyncInfo, now: u64) -> Relayed
        requires ready { IsReady (state_of self.now) }
        requires moment { IsMoment now }
        ensures { IsToldAtLimits info.now now (state_of self.now) result }
    {
        let rate = self.slave_rate();
        let egress = self.stamp_time(now);
        match relay(&info.held_sum(rate), self.slave_delay(), rate, egress) {
            Ok(told) => told,
            Err(_) => as_received(info),
        }
    }

    /// The time that came is sent on in any case.
    fn relay_always(&mut self, info: &SyncInfo, now: u64, outbox: &mut Outbox)
        requires ready { IsReady (state_of self.old) }
        requires moment { IsMoment now }
        requires empty { outbox.old.items ≡ [] }
        ensures step { IsSentOn info.now now (state_of self.old) (state_of self.new) outbox.new.items }
        ensures ready { IsReady (state_of self.new) }
    {
        let told = self.told_of(info, now);
        self.relay = None;
        self.tell(&told, outbox);
    }

    /// The Relay timer runs out: the time that came is sent on, but where a number on the way doesn't fit (IEEE
    /// 802.1AS-2020, 11.2.15). A network that has a syncReceiptTimeout sends it on in any case.
    pub(crate) fn on_relay_timer(&mut self, now: u64, outbox: &mut Outbox)
        requires ready { IsReady (state_of self.old) }
        requires moment { IsMoment now }
        requires empty { outbox.old.items ≡ [] }
        ensures step { RelayExpires now (state_of self.old) (state_of self.new) outbox.new.items }
        ensures ready { IsReady (state_of self.new) }
    {
        let Some(info) = self.known else {
            self.relay = None;
            return;
        };
        if self.params.sync_timeout > 0 {
            self.relay_always(&info, now, outbox);
        } else {
            self.relay_if_fits(&info, now, outbox);
        }
    }
}
