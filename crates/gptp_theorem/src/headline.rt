//! The theorem: whom every system follows, how soon, and how exactly.

ghost use Rattle.gptp_theorem.specs.HeadlineLaws.{DocumentsLeadToSettled, DocumentsSettleAtOnce};
ghost use Rattle.gptp_theorem.specs.HeadlineLaws.{RunsAreExact, WorldsAreExact, WorldsAreOfANetwork};
ghost use Rattle.gptp_theorem.specs.HeadlineLaws.{WorldsSettle, WorldsSettleAtOnce, WorldsSettleByNeighbours, WorldsSettleBySystems};

use gptp_links::Fate;

/// Every world that `gptp_world` can be brought to, where it is calm, is settled once (k+3)m + L + 5 announce
/// intervals, and what a syncReceiptTimeout adds, have passed since its last change, where no path of its snapshot has
/// more than m systems: its near systems follow their component's best by fewest steps, slave ports form a tree to it,
/// and what is stated of its systems is accepted, and nothing else is. Without a syncReceiptTimeout it is so sooner:
/// each system of a path costs k intervals and the greatest delay, and nothing more. So it is with m the number of its
/// live systems, and with the number that is read off the links: 2 and those that have two neighbours. That its systems
/// have the parameters of one network is so of every world.
pub fn worlds_settle()
    ensures theorem { WorldsSettle }
    ensures at_once { WorldsSettleAtOnce }
    ensures systems { WorldsSettleBySystems }
    ensures neighbours { WorldsSettleByNeighbours }
    ensures parameters { WorldsAreOfANetwork }
{}

/// Once a Sync has had the time to come down a way from when such a world is settled, each Follow_Up that the near
/// system at its end uses leaves an offset within the time error of the way of its clock less what the best tells.
pub fn worlds_are_exact<F: Fate>()
    ensures { WorldsAreExact F.answers }
{}

/// Each act of every run of a document that leaves an offset leaves an exact one.
pub fn runs_are_exact<F: Fate>()
    ensures { RunsAreExact F.answers }
{}

/// The world that a document leads to by a time at which it is at rest is settled; its snapshot is then the document's.
pub fn documents_lead_to_settled_worlds<F: Fate>()
    ensures { DocumentsLeadToSettled F.answers }
{}

/// A document leads to a settled world sooner where nothing lapses in it for want of Sync.
pub fn documents_settle_at_once<F: Fate>()
    ensures { DocumentsSettleAtOnce F.answers }
{}
