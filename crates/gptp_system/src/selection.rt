//! Selection, and the Announces that follow from it.

ghost use Rattle.std.specs.Prelude.{◌≡◌, ◌==◌, ◌&&◌, ◌+◌, ◌*◌, ◌<◌, ◌≤◌, ◌++◌, ◌∷◌, [], length, if◌then◌else◌};
ghost use Rattle.std.specs.List.{AllByRecursion};
ghost use Rattle.arrayvec.specs.ArrayVec.{array_vec_len};
ghost use Rattle.gptp_setup.specs.declared.limits.TheConstants.{MOST_PORTS};
ghost use Rattle.gptp_setup.specs.Intervals.{IsLog, IsMoment};
ghost use Rattle.gptp_system.specs.declared.sending.TheConstants.{MOST_SENDS};
ghost use Rattle.gptp_system.specs.Ready.{IsReadyPort};
ghost use Rattle.gptp_system.specs.Selection.{all_announced, announced_again, announcements, kept_if, same_number};
ghost use Rattle.gptp_system.specs.Sends.{announcement};

use crate::lapse::lapse_after;
use crate::port::Port;
use crate::sending::{Body, Outbox, Sending, push};
use crate::state::State;
use gptp_correction::SyncIn;
use gptp_messages::{AnnounceBody, Head};
use gptp_roles::{Selected, select};
use gptp_setup::interval_of;
use gptp_vector::{ClockId, Identity, PortId};

/// The currentUtcOffset that is announced. No rule reads it.
const UTC_OFFSET: i16 = 37;

/// The timeSource that is announced, INTERNAL_OSCILLATOR. No rule reads it.
const TIME_SOURCE: u8 = 0xA0;

/// The Announce of a port. Its path is the trace of the system.
fn announcement(own: PortId, root: Identity, steps: u16, port: &Port) -> Sending
    requires { own.port ≤ 255 }
    ensures { result ≡ announcement own root steps port.now }
{
    Sending {
        port: own.port as u8,
        head: Head {
            source: own,
            sequence: port.announces,
            correction: 0,
            log_interval: port.log_interval,
            two_step: false,
        },
        body: Body::Announce(AnnounceBody {
            utc_offset: UTC_OFFSET,
            root,
            steps,
            time_source: TIME_SOURCE,
        }),
    }
}

/// The port announces, and does so again one announce interval later.
pub(crate) fn announce(
    port: &mut Port,
    own: PortId,
    root: Identity,
    steps: u16,
    now: u64,
    outbox: &mut Outbox,
)
    requires log { IsLog port.old.log_interval }
    requires number { own.port ≤ 255 }
    requires moment { IsMoment now }
    requires room { array_vec_len outbox.old < MOST_SENDS }
    ensures port { port.new ≡ announced_again now port.old }
    ensures sends { outbox.new.items ≡ outbox.old.items ++ announcement own root steps port.old ∷ [] }
{
    push(outbox, announcement(own, root, steps, port));
    port.announce = now + interval_of(port.log_interval);
    port.announces = port.announces.wrapping_add(1);
}

/// A port that must announce at once does.
fn announce_if(
    fresh: bool,
    port: &mut Port,
    own: PortId,
    root: Identity,
    steps: u16,
    now: u64,
    outbox: &mut Outbox,
)
    requires log { IsLog port.old.log_interval }
    requires number { own.port ≤ 255 }
    requires moment { IsMoment now }
    requires room { array_vec_len outbox.old < MOST_SENDS }
    ensures port { port.new ≡ (if fresh then announced_again now port.old else port.old) }
    ensures sends { outbox.new.items ≡ outbox.old.items
        ++ (if fresh then announcement own root steps port.old ∷ [] else []) }
{
    if fresh {
        announce(port, own, root, steps, now, outbox);
    }
}

/// All ports that are marked announce, by rising number.
fn announce_fresh(
    clock: ClockId,
    root: Identity,
    steps: u16,
    fresh: &[bool],
    ports: &mut [Port],
    now: u64,
    outbox: &mut Outbox,
)
    requires flags { length fresh.now ≡ length ports.old }
    requires few { length ports.old ≤ MOST_PORTS }
    requires ports { AllByRecursion IsReadyPort ports.old }
    requires moment { IsMoment now }
    requires empty { outbox.old.items ≡ [] }
    ensures ports { ports.new ≡ all_announced now fresh.now ports.old }
    ensures sends { outbox.new.items ≡ announcements clock root steps 1 fresh.now ports.old }
{
    let mut number = 0;
    for flag in fresh {
        let own = PortId {
            clock,
            port: number + 1,
        };
        announce_if(
            *flag,
            &mut ports[usize::from(number)],
            own,
            root,
            steps,
            now,
            outbox,
        );
        number += 1;
    }
}

/// Time that came over another way is forgotten.
fn forget_unless(same: bool, sync_in: &mut SyncIn)
    ensures { sync_in.new ≡ kept_if same sync_in.old }
{
    if !same {
        sync_in.clear();
    }
}

/// Whether the system follows the same root by the same port.
fn follows_on(root: Identity, slave: Option<u8>, selected: &Selected) -> bool
    ensures { result ≡ (selected.now.root == root && same_number selected.now.slave slave) }
{
    selected.root == root && selected.slave == slave
}

/// What is known stays known where the same is followed.
fn kept_if<T>(same: bool, known: Option<T>) -> Option<T>
where
    T: Drop,
    ensures { result ≡ kept_if same known }
{
    if same { known } else { None }
}

impl State {
    ghost use Rattle.std.specs.Prelude.{◌≡◌, []};
    ghost use Rattle.gptp_setup.specs.Intervals.{IsMoment};
    ghost use Rattle.gptp_system.specs.Ready.{IsReady, state_of};
    ghost use Rattle.gptp_system.specs.Selection.{Selects};

    /// Chooses again among what the ports hold: each port holds then what its role asks for, Master ports that must
    /// announce at once do, and time that came over another way is forgotten (IEEE 802.1AS-2020, 10.3.13).
    pub(crate) fn select(&mut self, now: u64, outbox: &mut Outbox)
        requires ready { IsReady (state_of self.old) }
        requires moment { IsMoment now }
        requires empty { outbox.old.items ≡ [] }
        ensures selects { Selects now (state_of self.old) (state_of self.new) outbox.new.items }
        ensures ready { IsReady (state_of self.new) }
    {
        let clock = self.identity.clock();
        let selected = select(&self.identity, self.held.as_mut_slice());
        let same = follows_on(self.root, self.slave, &selected);
        announce_fresh(
            clock,
            selected.root,
            selected.steps,
            selected.fresh.as_slice(),
            self.ports.as_mut_slice(),
            now,
            outbox,
        );
        forget_unless(same, &mut self.sync_in);
        self.root = selected.root;
        self.steps = selected.steps;
        self.slave = selected.slave;
        self.known = kept_if(same, self.known);
        self.offset = kept_if(same, self.offset);
        self.relay = kept_if(same, self.relay);
        self.lapse = lapse_after(same, self.lapse, &self.params, self.root, self.slave, now);
    }
}
