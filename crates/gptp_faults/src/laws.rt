//! Laws of faults.

ghost use Rattle.gptp_faults.specs.EveryLaws.{EachHasFaults};
ghost use Rattle.gptp_faults.specs.Laws.{FollowLinesSettle, LinesSettleWithin, NeverRefused, OneRefusal, OneTable};

/// Where the network without what fails in a case is calm, and the case stays down for longer than is told of its
/// choice then, as it does by default, its `follow` lines are those of the settled choice: so many near systems have
/// this best in their component.
pub fn follow_lines_settle()
    ensures { FollowLinesSettle }
{}

/// Where every live system stays near, the choice of a line `down` or `back` is no later than its bound, and neither is
/// the last change of roles in any run of the case. Of a case that is seen late both count from the moment.
pub fn lines_settle_within()
    ensures { LinesSettleWithin }
{}

/// Where runs of a document end in one way, it has one table of its faults at most, and one answer to whether a limit
/// is exceeded; one with a table isn't refused, and none is refused in two ways.
pub fn one_table()
    ensures table { OneTable }
    ensures apart { NeverRefused }
    ensures refusal { OneRefusal }
{}

/// Where each run of a document with the events of a case ends its last stretches in some way, and a fault stays for 1
/// ns at least, the document has a table of its faults, or is refused.
pub fn every_document_has_faults()
    ensures { EachHasFaults }
{}
