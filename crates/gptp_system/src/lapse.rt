//! What a system makes of time that doesn't come.

ghost use Rattle.std.specs.Prelude.{◌≡◌, if◌then◌else◌};
ghost use Rattle.std.specs.Option.{option_map_or};
ghost use Rattle.gptp_setup.specs.Intervals.{AreParams, IsMoment};
ghost use Rattle.gptp_system.specs.Lapse.{dropped};
ghost use Rattle.gptp_system.specs.State.{change, lapse_of};

use crate::sending::Outbox;
use crate::state::State;
use gptp_receipt::Held;
use gptp_setup::{Params, lapse_span};
use gptp_vector::Identity;

/// When the Lapse timer runs out that is started now, where it runs: the network has a syncReceiptTimeout, there is a
/// Slave port, and the root may be grandmaster (IEEE 802.1AS-2020, 10.7.3.1).
pub(crate) fn lapse_of(params: &Params, root: Identity, slave: Option<u8>, now: u64) -> Option<u64>
    requires params { AreParams params.now }
    requires moment { IsMoment now }
    ensures { result ≡ lapse_of params.now root slave now }
{
    slave?;
    if params.sync_timeout > 0 && root.capable() {
        Some(now + lapse_span(params))
    } else {
        None
    }
}

/// The Lapse timer runs on where the same is followed, and begins anew otherwise.
pub(crate) fn lapse_after(
    same: bool,
    before: Option<u64>,
    params: &Params,
    root: Identity,
    slave: Option<u8>,
    now: u64,
) -> Option<u64>
    requires params { AreParams params.now }
    requires moment { IsMoment now }
    ensures { result ≡ (if same then before else lapse_of params.now root slave now) }
{
    if same {
        before
    } else {
        lapse_of(params, root, slave, now)
    }
}

/// What a port received is dropped, and nothing else changes.
fn drop_received(held: &mut Held)
    ensures { held.new ≡ dropped held.old }
{
    if let Held::Received(_) = held {
        *held = Held::Aged;
    }
}

/// That of one of the ports.
fn drop_at(held: &mut [Held], port: u8)
    ensures { held.new ≡ change dropped port held.old }
{
    let number = usize::from(port);
    if 1 <= number && number <= held.len() {
        drop_received(&mut held[number - 1]);
    }
}

/// That of the Slave port, where there is one.
fn drop_at_slave(held: &mut [Held], slave: Option<u8>)
    ensures { held.new ≡ option_map_or (λ p. change dropped p held.old) slave held.old }
{
    if let Some(port) = slave {
        drop_at(held, port);
    }
}

impl State {
    ghost use Rattle.std.specs.Prelude.{◌≡◌, []};
    ghost use Rattle.gptp_setup.specs.Intervals.{IsMoment};
    ghost use Rattle.gptp_system.specs.Lapse.{LapseExpires};
    ghost use Rattle.gptp_system.specs.Ready.{IsReady, state_of};

    /// The Lapse timer runs out: what the Slave port received is dropped, and selection follows (syncReceiptTimeout;
    /// IEEE 802.1AS-2020, 10.7.3.1).
    pub(crate) fn on_lapse_timer(&mut self, now: u64, outbox: &mut Outbox)
        requires ready { IsReady (state_of self.old) }
        requires moment { IsMoment now }
        requires empty { outbox.old.items ≡ [] }
        ensures step { LapseExpires now (state_of self.old) (state_of self.new) outbox.new.items }
        ensures ready { IsReady (state_of self.new) }
    {
        drop_at_slave(self.held.as_mut_slice(), self.slave);
        self.lapse = None;
        self.select(now, outbox);
    }
}
