//! The path trace that a system announces.

ghost use Rattle.std.specs.Prelude.{◌≡◌, ◌≤◌, Some, length};
ghost use Rattle.gptp_receipt.specs.Held.{received};
ghost use Rattle.gptp_roles.specs.SystemTrace.{SlaveReceived, path_received, slave_path, system_trace};

use crate::selection::Selected;
use gptp_receipt::Held;
use gptp_vector::{ClockId, Trace};

/// The trace of the system with this clock: the path of the Slave port with the own clock after it, or
/// the own clock alone (IEEE 802.1AS-2020, 10.3.9.23). The Slave port, if any, has to be one that
/// received, with a path of at most 255 clocks.
pub fn trace_of(clock: ClockId, held: &[Held], selected: &Selected) -> Trace
    requires { SlaveReceived held.now selected.now.slave }
    ensures { result ≡ system_trace clock held.now selected.now.slave }
{
    slave_trace(clock, held, selected.slave)
}

/// The trace of the system with this clock, where the Slave port, if there is one, is known by its number.
pub fn slave_trace(clock: ClockId, held: &[Held], slave: Option<u8>) -> Trace
    requires { SlaveReceived held.now slave }
    ensures { result ≡ system_trace clock held.now slave }
{
    let mut trace = Trace::empty();
    trace.extend(path_of_slave(held, slave)).unwrap();
    trace.append(clock).unwrap();
    trace
}

/// The path of the Slave port, without the own clock: at most 255 clocks, and none where there is no Slave port.
pub fn path_of_slave(held: &[Held], slave: Option<u8>) -> &[ClockId]
    requires { SlaveReceived held.now slave }
    ensures path { result.now ≡ slave_path held.now slave }
    ensures few { length result.now ≤ 255 }
{
    match slave {
        Some(port) => path_at(held, port),
        None => &[],
    }
}

/// The path that the port with this number received.
fn path_at(held: &[Held], port: u8) -> &[ClockId]
    requires { 1 ≤ port }
    ensures { result.now ≡ slave_path held.now (Some port) }
{
    match held.get(usize::from(port) - 1) {
        Some(one) => path_of(one),
        None => &[],
    }
}

/// The path of what a port received.
fn path_of(held: &Held) -> &[ClockId]
    ensures { result.now ≡ path_received (received held.now) }
{
    match held {
        Held::Received(reception) => reception.path.as_slice(),
        _ => &[],
    }
}
