//! How soon a document has settled, event by event.

ghost use Rattle.gptp_settling_time.specs.InTurn.{ActsFindChoiceInTurn, ActsFindSettledInTurn};

use gptp_links::Fate;

/// Each event of a document leads from what its network came from to the next: any past, a gain from a start or from
/// rest, or one after which all that is told is heard. By the last of them the world after each act of a run is
/// settled, once the document has had the time for it: from any past the span; else its ports become capable, perhaps
/// an announce interval passes, and then the greatest delay for each system of a path but one. So no announce interval
/// has to pass after a link has come up between live systems of a network that had settled, where its greatest delay is
/// below twice its least: what was held and in flight elsewhere is sound and stays at its stage, and the first Announce
/// over the new link comes to a port that is capable already. Nor has one after a better priority1, which its system
/// tells at once. And an event that changes nothing asks for no time in a network that had settled, whatever it came
/// from; nor does a priority1 by which no system is moved. After a link goes down by which one system alone is moved
/// the greatest delay for each system of a path but one has to pass, and 1 ns.
pub fn documents_settle_in_turn<F: Fate>()
    ensures { ActsFindSettledInTurn F.answers }
{}

/// By the last of these events the choice stands in the world after each act of a run, once the document has had the
/// time for it. That is when it is settled; but at once after such a loss: a link goes down, and no system is moved but
/// such as are cut off, or a system fails that is the far end of each of its links, and none is moved.
pub fn choice_stands_in_turn<F: Fate>()
    ensures { ActsFindChoiceInTurn F.answers }
{}
