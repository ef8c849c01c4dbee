//! The role of one port.

ghost use Rattle.std.specs.Prelude.{◌≡◌};
ghost use Rattle.gptp_roles.specs.Role.{announces_already, held_after_selection, is_fresh, chosen_role};

use gptp_receipt::Held;
use gptp_vector::{ClockId, Vector};

/// What a port does for the time-synchronization spanning tree (IEEE 802.1AS-2020, 10.3.6).
#[derive(Clone, Copy, Debug, PartialEq, Eq, Hash, Default)]
pub enum Role {
    /// It takes no part: it isn't asCapable.
    #[default]
    Disabled,
    /// It announces the chosen root.
    Master,
    /// The chosen vector came from it.
    Slave,
    /// It holds what is no worse than what it would announce, and is silent.
    Passive,
}

/// Gives a port its role and leaves it what it holds in that role. Answers the role, and whether the
/// port has to announce at once.
pub(crate) fn assign(held: &mut Held, port: u16, chosen: &Vector, clock: ClockId) -> (Role, bool)
    ensures role { result.0 ≡ chosen_role chosen.now clock port held.old }
    ensures fresh { result.1 ≡ is_fresh chosen.now clock port held.old }
    ensures held { held.new ≡ held_after_selection chosen.now clock port held.old }
{
    let role = role_at(held, port, chosen, clock);
    if role != Role::Master || announces(held, chosen) {
        return (role, false);
    }
    *held = Held::Mine {
        root: chosen.root,
        steps: chosen.steps,
    };
    (role, true)
}

/// The role of a port.
fn role_at(held: &Held, port: u16, chosen: &Vector, clock: ClockId) -> Role
    ensures { result ≡ chosen_role chosen.now clock port held.now }
{
    match held {
        Held::Disabled => Role::Disabled,
        Held::Aged | Held::Mine { .. } => Role::Master,
        Held::Received(reception) => {
            if chosen.receiver == port {
                Role::Slave
            } else if Vector::master(chosen.root, chosen.steps, clock, port)
                .compare(&reception.vector)
                .is_lt()
            {
                Role::Master
            } else {
                Role::Passive
            }
        }
    }
}

/// Whether a port announces the chosen root and steps already.
fn announces(held: &Held, chosen: &Vector) -> bool
    ensures { result ≡ announces_already chosen.now held.now }
{
    match held {
        Held::Mine { root, steps } => *root == chosen.root && *steps == chosen.steps,
        _ => false,
    }
}
