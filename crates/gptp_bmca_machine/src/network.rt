//! Laws on networks: they settle.

ghost use Rattle.gptp_bmca_machine.specs.Times.{NetworksAreTimed};
ghost use Rattle.gptp_bmca_machine.specs.SettlingLaws.{CleanIsSound, InvariantBegins, InvariantIsKept};
ghost use Rattle.gptp_bmca_machine.specs.SettlingLaws.{NetworkSettles, PortsSettle, SystemSettles, SystemsAreBounded};

use crate::coding::Coding;

/// That all that is held is sound and at which stage each link is are claims that say nothing before the time from
/// which all must be sound. Every step of the machine from a calm state to a calm state keeps the stages, where what is
/// held stays sound; and what is wholly clean is sound.
pub fn invariant_is_kept<C: Coding>()
    ensures begins { InvariantBegins C.says }
    ensures kept { InvariantIsKept C.says }
    ensures sound { CleanIsSound C.says }
{}

/// Three ways to settle are those of a network. From any past, where nothing lapses for want of Sync, it takes the
/// largest announce interval once all that is held is sound, and for each step of distance the largest delay. From any
/// past, where something may lapse, each step takes the wait for a Sync, an announce interval and a delay. After news
/// in a network at rest it takes until ports are capable, and for each step of distance the largest delay.
pub fn networks_are_timed()
    ensures { NetworksAreTimed }
{}

/// Once all that is held has become wholly clean and the time of each step of its distance has passed, and from then
/// on, a near system follows the best of its component: it has that system's identity as its root and its distance as
/// its steps, and its slave port is the own port of its parent. The best has none.
pub fn system_settles<C: Coding>()
    ensures { SystemSettles C.says }
{}

/// Then each of its ports has its settled role too, but those towards neighbours that are as far and have lower clocks:
/// they have theirs a step's time later.
pub fn ports_settle<C: Coding>()
    ensures { PortsSettle C.says }
{}

/// In a network of which no path has more than m systems every near system follows the best of its component over its
/// parent, and all its ports have their settled roles, at every time from m - 1 steps of distance after the time at
/// which all is sound and ports are capable and the slack has passed: at that very moment too, whether or not what is
/// due then has happened. How many systems live is such an m, and so is the bound that gptp_graph reads off the links.
pub fn network_settles<C: Coding>()
    ensures { NetworkSettles C.says }
{}

/// Once all that is held is sound, no system, near or far, has a root below
/// the identity of its component's best, nor that identity as its root over fewer steps than its distance.
pub fn systems_are_bounded<C: Coding>()
    ensures { SystemsAreBounded C.says }
{}
