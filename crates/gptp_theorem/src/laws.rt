//! Laws on worlds that stand as a network does after its events.

ghost use Rattle.gptp_theorem.specs.AlikeLaws.{SameChoice};
ghost use Rattle.gptp_theorem.specs.CalmKept.{CalmIsKept};
ghost use Rattle.gptp_theorem.specs.PlayedLaws.{CalmRests, DocumentIsCalm, DocumentsArePlayable, EventsAreMade, PlayedClaimed, PlayedStands};
ghost use Rattle.gptp_theorem.specs.ReachedLaws.{ActsStand, BegunStands, ChangesStand, TimeStands};
ghost use Rattle.gptp_theorem.specs.SettleLaws.{DocumentsSettle, PlayedSettle};
ghost use Rattle.gptp_theorem.specs.StandingLaws.{StandsCount, StandsPaths, StandsQuiet, StandsSet, StandsSnapshot, StandsTelling};

use gptp_links::Fate;

/// The world of a network stands, as it begins, as the network does before all events.
pub fn worlds_begin_so<F: Fate>()
    ensures { BegunStands F.answers }
{}

/// A delivery, an expiry and time that passes leave a world as it stands.
pub fn worlds_stay_so()
    ensures acts { ActsStand }
    ensures time { TimeStands }
{}

/// A change leads to a world that stands as the network does after one event more.
pub fn changes_stand()
    ensures { ChangesStand }
{}

/// A sound world that stands as a network does after its events has the snapshot that the network then has, but for the
/// order of the systems.
pub fn snapshots_stand()
    ensures { StandsSnapshot }
{}

/// As many systems of it live as of the network, and Sync has the same to cross; it is quiet where the network is calm;
/// and in a world that keeps what every world keeps, all systems have the parameters of the network.
pub fn calm_stands()
    ensures count { StandsCount }
    ensures paths { StandsPaths }
    ensures quiet { StandsQuiet }
    ensures set { StandsSet }
{}

/// Each system of it that isn't set to go on with the time that it read tells what its clock shows, whatever happened.
pub fn own_clocks_are_told()
    ensures { StandsTelling }
{}

/// A world that goes on by itself, as by `advance`, stays calm: it has been calm then for each span that it had been
/// calm for before.
pub fn calm_is_kept<F: Fate>()
    ensures { CalmIsKept F.answers }
{}

/// The settled choice of a snapshot is that of each that differs in the order of the systems alone.
pub fn order_does_not_matter()
    ensures { SameChoice }
{}

/// Every document that a text means can be played, where its network and its events are within their limits.
pub fn documents_are_playable()
    ensures { DocumentsArePlayable }
{}

/// Each event of a document up to a time can be made.
pub fn events_are_made()
    ensures { EventsAreMade }
{}

/// The world that a document leads to by a time is sound, its time is that, and it stands as the network of the
/// document does after the events up to then.
pub fn documents_stand<F: Fate>()
    ensures { PlayedStands F.answers }
{}

/// It keeps what every world keeps, where no event sets a priority1 that is no octet.
pub fn documents_keep<F: Fate>()
    ensures { PlayedClaimed F.answers }
{}

/// A document that is calm after all its events is at rest from the time on at which it has settled.
pub fn calm_documents_rest()
    ensures { CalmRests }
{}

/// Where the network of a document is calm after the events up to a time, and has settled by then, the world that it
/// leads to by that time has been calm for the settling span of its live systems.
pub fn documents_are_calm()
    ensures { DocumentIsCalm }
{}

/// Where a document is at rest at a time, what is stated of the live systems of the world that it leads to is the
/// settled choice of its snapshot.
pub fn documents_settle()
    ensures { DocumentsSettle }
{}

/// Every document that can be played settles, whatever is drawn for the frames meanwhile.
pub fn played_documents_settle<F: Fate>()
    ensures { PlayedSettle F.answers }
{}
