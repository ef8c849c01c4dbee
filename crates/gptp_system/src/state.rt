//! What a system keeps.

ghost use Rattle.std.specs.Prelude.{◌≡◌, ◌≤◌, IfOk, length};

use crate::port::Port;
use crate::reading::TimeRead;
use arrayvec::ArrayVec;
use gptp_correction::{SyncIn, SyncInfo};
use gptp_receipt::Held;
use gptp_scaled::ScaledNs;
use gptp_setup::{MOST_PORTS, Params};
use gptp_vector::Identity;
use std::alloc::{AllocError, Global};

/// What a system keeps. Port i stands at place i - 1 of `held` and of `ports`.
#[derive(Debug, Drop)]
pub struct State {
    pub(crate) params: Params,
    pub(crate) largest: i8,
    pub(crate) phase: u64,
    pub(crate) drift: i32,
    pub(crate) continues: bool,
    pub(crate) seed: u64,
    pub(crate) identity: Identity,
    pub(crate) root: Identity,
    pub(crate) steps: u16,
    pub(crate) slave: Option<u8>,
    pub(crate) sync_in: SyncIn,
    pub(crate) known: Option<SyncInfo>,
    pub(crate) offset: Option<ScaledNs>,
    pub(crate) reads: Option<TimeRead>,
    pub(crate) base: ScaledNs,
    pub(crate) sync: u64,
    pub(crate) relay: Option<u64>,
    pub(crate) lapse: Option<u64>,
    pub(crate) ports: ArrayVec<Port, MOST_PORTS>,
    pub(crate) held: ArrayVec<Held, MOST_PORTS>,
}

/// A copy of what the ports hold.
fn copy_held(held: &[Held]) -> ArrayVec<Held, MOST_PORTS>
    requires { length held.now ≤ MOST_PORTS }
    ensures { result.items ≡ held.now }
{
    let mut copies = ArrayVec::new();
    for one in held {
        copies.push(one.copy());
    }
    copies
}

/// A copy of the ports. Refused for want of memory alone.
fn copy_ports(alloc: Global, ports: &[Port]) -> Result<ArrayVec<Port, MOST_PORTS>, AllocError>
    requires { length ports.now ≤ MOST_PORTS }
    ensures { IfOk result (λ copies. copies.items ≡ ports.now) }
{
    let mut copies = ArrayVec::new();
    for one in ports {
        copies.push(one.copy(alloc)?);
    }
    Ok(copies)
}

impl State {
    ghost use Rattle.std.specs.Prelude.{◌≡◌, IfOk};
    ghost use Rattle.gptp_system.specs.Ready.{IsReady, state_of};

    /// A copy of the state. Refused for want of memory alone.
    pub(crate) fn copy(&self, alloc: Global) -> Result<State, AllocError>
        requires { IsReady (state_of self.now) }
        ensures { IfOk result (λ s. state_of s ≡ state_of self.now) }
    {
        let ports = copy_ports(alloc, self.ports.as_slice())?;
        Ok(State {
            params: self.params,
            largest: self.largest,
            phase: self.phase,
            drift: self.drift,
            continues: self.continues,
            seed: self.seed,
            identity: self.identity,
            root: self.root,
            steps: self.steps,
            slave: self.slave,
            sync_in: self.sync_in,
            known: self.known,
            offset: self.offset,
            reads: self.reads,
            base: self.base,
            sync: self.sync,
            relay: self.relay,
            lapse: self.lapse,
            ports,
            held: copy_held(self.held.as_slice()),
        })
    }
}
