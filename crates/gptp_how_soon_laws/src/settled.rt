//! By when a run has settled after the events of each time of its document.

ghost use Rattle.gptp_how_soon_laws.specs.Settled.{ChoosesSoon, EndsSettled, SettlesSoon};

use gptp_links::Fate;

/// Each act of a run that is later than a time of its document by more than its computed roles, and before the next
/// event, leaves a settled world, whatever is drawn for the frames. Where every live system is near it leaves no system
/// another, neither as to whether it lives, its root, its steps and its Slave port, nor as to role and capability of a
/// port.
pub fn settled_soon<F: Fate>()
    ensures { SettlesSoon F.answers }
{}

/// In the world after each act of a run that is later than a time of its document by more than its computed choice, and
/// before the next event, the choice stands. Where every live system is near the act leaves no system another as to
/// whether it lives, its root, its steps and its Slave port.
pub fn chooses_soon<F: Fate>()
    ensures { ChoosesSoon F.answers }
{}

/// The world with which a run ends is settled, and its snapshot is that of the document, where the run goes on for
/// longer than the computed roles after a time, and not to the next event.
pub fn ends_settled<F: Fate>()
    ensures { EndsSettled F.answers }
{}
