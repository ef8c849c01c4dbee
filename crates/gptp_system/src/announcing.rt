//! Announces: what hearing one, ageing one and sending one make of a system.

ghost use Rattle.std.specs.Prelude.{◌≡◌, ◌≢◌, ◌↔◌, ◌≤◌, ◌&&◌, ◌∷◌, [], length, not, IsTrue};
ghost use Rattle.std.specs.Option.{option_map_or};
ghost use Rattle.std.specs.List.{AllByRecursion};
ghost use Rattle.gptp_receipt.specs.Held.{comparison, held_after, reception};
ghost use Rattle.gptp_receipt.specs.Qualification.{Qualified};
ghost use Rattle.gptp_system.specs.Announcing.{aged_by, answer_to_heard, answer_to_why, replaces_held, SaysAgain};
ghost use Rattle.gptp_setup.specs.declared.limits.TheConstants.{MOST_PORTS};
ghost use Rattle.gptp_setup.specs.Intervals.{AreParams, IsLog, IsMoment};
ghost use Rattle.gptp_system.specs.Ready.{IsReadyPort, IsRecent};
ghost use Rattle.gptp_system.specs.Selection.{announced_again};
ghost use Rattle.gptp_system.specs.Sends.{announcement};
ghost use Rattle.gptp_system.specs.State.{change, number};

use crate::answer::Answer;
use crate::port::Port;
use crate::selection::announce;
use crate::sending::Outbox;
use crate::state::State;
use gptp_messages::AnnounceView;
use gptp_receipt::{Heard, Held, Why, age, hear, qualify, span_of};
use gptp_setup::Params;
use gptp_vector::{Identity, PortId, Vector};

/// How it is answered that an Announce isn't taken for heard.
fn answer_to_why(why: Why) -> Answer
    ensures { result ≡ answer_to_why why }
{
    match why {
        Why::OwnMessage => Answer::Own,
        Why::TooManySteps => Answer::Steps,
        Why::Loop => Answer::Loop,
        Why::TraceTooLong => Answer::Long,
    }
}

/// How it is answered what an Announce is to the port.
fn answer_to_heard(heard: Heard) -> Answer
    ensures { result ≡ answer_to_heard heard }
{
    match heard {
        Heard::Superior => Answer::Superior,
        Heard::Repeated => Answer::Repeated,
        Heard::Inferior => Answer::Inferior,
    }
}

/// Whether what was heard took the place of what was held.
fn is_taken(heard: Heard) -> bool
    ensures { result ≡ replaces_held heard }
{
    match heard {
        Heard::Inferior => false,
        Heard::Superior | Heard::Repeated => true,
    }
}

/// Whether an Announce says what a port received last: the same vector from the same port.
fn says_again(held: &Held, own: PortId, announce: &AnnounceView<'_>) -> bool
    ensures { IsTrue result ↔ SaysAgain held.now own announce.now }
{
    match held {
        Held::Received(last) => {
            last.vector
                == Vector {
                    root: announce.body.root,
                    steps: announce.body.steps,
                    source: announce.head.source,
                    receiver: own.port,
                }
        }
        Held::Disabled | Held::Aged | Held::Mine { .. } => false,
    }
}

/// Whether selection can change anything after an Announce: it took the place of what was held, and says something
/// else.
fn can_change(heard: Heard, again: bool) -> bool
    ensures { result ≡ (replaces_held heard && not again) }
{
    is_taken(heard) && !again
}

/// A port compares a qualified Announce with what it holds, and takes it where it is Superior or Repeated.
fn hear_at(held: &mut [Held], own: PortId, announce: &AnnounceView<'_>, now: u64) -> Heard
    requires least { 1 ≤ own.port }
    requires most { own.port ≤ length held.old }
    requires qualified { Qualified announce.now own.clock }
    requires enabled { option_map_or (λ h. h) (number held.old own.port) Held.Disabled ≢ Held.Disabled }
    ensures heard { result ≡ comparison
        (option_map_or (λ h. h) (number held.old own.port) Held.Disabled) own announce.now }
    ensures held { held.new ≡ change
        (λ h. held_after (comparison h own announce.now) h (reception announce.now own now)) own.port held.old }
{
    hear(&mut held[usize::from(own.port) - 1], own, announce, now)
}

/// What a port received is dropped where it is too old, by the interval that was heard (IEEE 802.1AS-2020, 10.7.3.2).
fn age_held(held: &mut Held, params: &Params, largest: i8, now: u64)
    requires params { AreParams params.now }
    requires largest { IsLog largest }
    requires recent { IsRecent held.old }
    ensures { held.new ≡ aged_by params.now largest now held.old }
{
    if let Some(span) = span_of(held, params.timeout, largest) {
        let _ = age(held, span, now);
    }
}

/// One of the ports drops what it received where that is too old.
fn age_at(held: &mut [Held], port: u8, params: &Params, largest: i8, now: u64)
    requires least { 1 ≤ port }
    requires most { port ≤ length held.old }
    requires params { AreParams params.now }
    requires largest { IsLog largest }
    requires recent { AllByRecursion IsRecent held.old }
    ensures { held.new ≡ change (aged_by params.now largest now) port held.old }
{
    age_held(&mut held[usize::from(port) - 1], params, largest, now);
}

/// One of the ports announces, and does so again one announce interval later.
fn announce_at(
    ports: &mut [Port],
    own: PortId,
    root: Identity,
    steps: u16,
    now: u64,
    outbox: &mut Outbox,
)
    requires least { 1 ≤ own.port }
    requires most { own.port ≤ length ports.old }
    requires few { length ports.old ≤ MOST_PORTS }
    requires ports { AllByRecursion IsReadyPort ports.old }
    requires moment { IsMoment now }
    requires empty { outbox.old.items ≡ [] }
    ensures ports { ports.new ≡ change (announced_again now) own.port ports.old }
    ensures sends { outbox.new.items
        ≡ option_map_or (λ q. announcement own root steps q ∷ []) (number ports.old own.port) [] }
{
    announce(
        &mut ports[usize::from(own.port) - 1],
        own,
        root,
        steps,
        now,
        outbox,
    );
}

impl State {
    ghost use Rattle.std.specs.Prelude.{◌≡◌, ◌≢◌, ◌⊎◌, ◌↔◌, ◌≤◌, length, true, [], IsTrue};
    ghost use Rattle.gptp_receipt.specs.declared.held.Held.TheVariants.{Disabled};
    ghost use Rattle.gptp_system.specs.Announcing.{AgeExpires, AnnounceExpires, ChangesPriority, HearsAgain, HearsOff, HearsQualified, HearsUnqualified, SaysAgain};
    ghost use Rattle.gptp_system.specs.Facts.{AreHeld, IsAtRest};
    ghost use Rattle.gptp_setup.specs.Intervals.{IsMoment};
    ghost use Rattle.gptp_system.specs.Ready.{IsReady, state_of};
    ghost use Rattle.gptp_system.specs.Selection.{SelectsIf};
    ghost use Rattle.gptp_system.specs.State.{held_at, is_capable_at, own};

    /// Selects where something changed that selection looks at.
    pub(crate) fn select_if(&mut self, changed: bool, now: u64, outbox: &mut Outbox)
        requires ready { IsReady (state_of self.old) }
        requires moment { IsMoment now }
        requires empty { outbox.old.items ≡ [] }
        ensures selects { SelectsIf changed now (state_of self.old) (state_of self.new) outbox.new.items }
        ensures ready { IsReady (state_of self.new) }
    {
        if changed {
            self.select(now, outbox);
        }
    }

    /// The portIdentity of a port.
    pub(crate) fn own(&self, port: u8) -> PortId
        ensures { result ≡ own (state_of self.now) port }
    {
        PortId {
            clock: self.identity.clock(),
            port: u16::from(port),
        }
    }

    /// Whether a port is asCapable (IEEE 802.1AS-2020, 11.2.2).
    pub(crate) fn is_capable(&self, port: u8) -> bool
        requires least { 1 ≤ port }
        requires most { port ≤ length (state_of self.now).ports }
        ensures { result ≡ is_capable_at (state_of self.now) port }
    {
        self.ports[usize::from(port) - 1].peer.capable()
    }

    /// Whether an Announce says what the port received last.
    fn hears_again(&self, port: u8, announce: &AnnounceView<'_>) -> bool
        requires least { 1 ≤ port }
        requires most { port ≤ length (state_of self.now).held }
        ensures { IsTrue result ↔ SaysAgain (held_at (state_of self.now) port)
            (own (state_of self.now) port) announce.now }
    {
        let own = self.own(port);
        says_again(&self.held[usize::from(port) - 1], own, announce)
    }

    /// A port hears an Announce (IEEE 802.1AS-2020, 10.3.11 and 10.3.12): whether it says again what the port received
    /// last, so that nothing is selected, and what became of it.
    pub(crate) fn hear_announce(
        &mut self,
        port: u8,
        announce: &AnnounceView<'_>,
        now: u64,
        outbox: &mut Outbox,
    ) -> (bool, Answer)
        requires ready { IsReady (state_of self.old) }
        requires moment { IsMoment now }
        requires least { 1 ≤ port }
        requires most { port ≤ length (state_of self.old).ports }
        requires shown { is_capable_at (state_of self.old) port ≡ true → held_at (state_of self.old) port ≢ Disabled }
        requires held { AreHeld (state_of self.old) }
        requires rest { IsAtRest (state_of self.old) }
        requires empty { outbox.old.items ≡ [] }
        ensures step { HearsOff port (state_of self.old) (state_of self.new) outbox.new.items result.1
            ⊎ (HearsUnqualified port announce.now (state_of self.old) (state_of self.new) outbox.new.items result.1
            ⊎ HearsQualified port announce.now now (state_of self.old) (state_of self.new) outbox.new.items result.1) }
        ensures again { IsTrue result.0 → HearsAgain port announce.now now (state_of self.old) (state_of self.new) }
        ensures ready { IsReady (state_of self.new) }
    {
        if !self.is_capable(port) {
            return (false, Answer::Disabled);
        }
        let own = self.own(port);
        if let Err(why) = qualify(announce, own.clock) {
            return (false, answer_to_why(why));
        }
        let again = self.hears_again(port, announce);
        let heard = hear_at(self.held.as_mut_slice(), own, announce, now);
        self.select_if(can_change(heard, again), now, outbox);
        (again, answer_to_heard(heard))
    }

    /// What a port received is too old (IEEE 802.1AS-2020, 10.3.11).
    pub(crate) fn on_age_timer(&mut self, port: u8, now: u64, outbox: &mut Outbox)
        requires ready { IsReady (state_of self.old) }
        requires moment { IsMoment now }
        requires least { 1 ≤ port }
        requires most { port ≤ length (state_of self.old).ports }
        requires empty { outbox.old.items ≡ [] }
        ensures step { AgeExpires port now (state_of self.old) (state_of self.new) outbox.new.items }
        ensures ready { IsReady (state_of self.new) }
    {
        age_at(
            self.held.as_mut_slice(),
            port,
            &self.params,
            self.largest,
            now,
        );
        self.select(now, outbox);
    }

    /// A Master port announces again (IEEE 802.1AS-2020, 10.3.16).
    pub(crate) fn on_announce_timer(&mut self, port: u8, now: u64, outbox: &mut Outbox)
        requires ready { IsReady (state_of self.old) }
        requires moment { IsMoment now }
        requires least { 1 ≤ port }
        requires most { port ≤ length (state_of self.old).ports }
        requires empty { outbox.old.items ≡ [] }
        ensures step { AnnounceExpires port now (state_of self.old) (state_of self.new) outbox.new.items }
        ensures ready { IsReady (state_of self.new) }
    {
        let own = self.own(port);
        announce_at(
            self.ports.as_mut_slice(),
            own,
            self.root,
            self.steps,
            now,
            outbox,
        );
    }

    /// The priority1 of the system changes (IEEE 802.1AS-2020, 8.6.2.1).
    pub(crate) fn set_priority(&mut self, priority1: u8, now: u64, outbox: &mut Outbox)
        requires ready { IsReady (state_of self.old) }
        requires moment { IsMoment now }
        requires empty { outbox.old.items ≡ [] }
        ensures step { ChangesPriority priority1 now (state_of self.old) (state_of self.new) outbox.new.items }
        ensures ready { IsReady (state_of self.new) }
    {
        self.identity = self.identity.with_priority1(priority1);
        self.select(now, outbox);
    }
}
