//! The chosen vector and what it makes of the ports.

ghost use Rattle.std.specs.Prelude.{◌≡◌, ◌<◌, ◌≤◌, length};
ghost use Rattle.std.specs.Option.{ForSome};
ghost use Rattle.gptp_receipt.specs.Held.{received};
ghost use Rattle.gptp_roles.specs.Choice.{ArePlaced, IsChosen, slave_port, with_held};
ghost use Rattle.gptp_roles.specs.Selection.{IsSelection};
ghost use Rattle.gptp_roles.specs.SystemTrace.{SlaveReceived};

use crate::role::{Role, assign};
use arrayvec::ArrayVec;
use gptp_receipt::Held;
use gptp_setup::MOST_PORTS;
use gptp_vector::{Identity, Vector};

/// What a system has chosen. The port with number i stands at place i - 1.
#[derive(Debug, Drop)]
pub struct Selected {
    /// The identity of the system that it follows.
    pub root: Identity,
    /// How many steps away that is.
    pub steps: u16,
    /// The number of the Slave port. A system that is its own root has none.
    pub slave: Option<u8>,
    /// The role of each port.
    pub roles: ArrayVec<Role, MOST_PORTS>,
    /// Which ports are Master ports that have to announce at once, since they weren't before or since
    /// root or steps changed.
    pub fresh: ArrayVec<bool, MOST_PORTS>,
}

/// Chooses among what the ports of a system hold, and leaves each port what it holds in its new role:
/// a Master port its master vector, every other port what it held (IEEE 802.1AS-2020, 10.3.5, 10.3.6
/// and 10.3.13).
///
/// A vector that a port received has that port's number as receiving port, steps below 255 and a path
/// of at most 255 clocks.
pub fn select(identity: &Identity, held: &mut [Held]) -> Selected
    requires ports { length held.old ≤ MOST_PORTS }
    requires placed { ArePlaced 1 held.old }
    ensures selection { IsSelection identity.now held.old result held.new }

    // By the two clauses below the call can be made again, and the trace of the choice be asked for.
    ensures placed { ArePlaced 1 held.new }
    ensures slave { SlaveReceived held.new result.slave }
{
    let chosen = best_vector(*identity, held);
    let clock = identity.clock();
    let mut roles = ArrayVec::new();
    let mut fresh = ArrayVec::new();
    let mut port = 0;
    for one in held.iter_mut() {
        port += 1;
        let (role, is_fresh) = assign(one, port, &chosen, clock);
        roles.push(role);
        fresh.push(is_fresh);
    }
    Selected {
        root: chosen.root,
        steps: chosen.steps,
        slave: slave_of(&chosen),
        roles,
        fresh,
    }
}

/// The least of the system vector and the path vectors of the ports.
fn best_vector(identity: Identity, held: &[Held]) -> Vector
    requires { ArePlaced 1 held.now }
    ensures { IsChosen identity held.now result }
{
    let mut best = Vector::system(identity);
    for one in held {
        best = with_port(best, one);
    }
    best
}

/// The better of a vector and the path vector of a port, if it received one.
fn with_port(best: Vector, held: &Held) -> Vector
    requires { ForSome (received held.now) (λ r. r.vector.steps < 255) }
    ensures { result ≡ with_held best held.now }
{
    match held {
        Held::Received(reception) => {
            let path = reception.vector.path();
            if path.compare(&best).is_lt() {
                path
            } else {
                best
            }
        }
        _ => best,
    }
}

/// The port that the chosen vector came from, if it came from any.
fn slave_of(chosen: &Vector) -> Option<u8>
    requires { chosen.now.receiver ≤ MOST_PORTS }
    ensures { result ≡ slave_port chosen.now }
{
    if chosen.receiver == 0 {
        None
    } else {
        Some(chosen.receiver as u8)
    }
}
