//! What time errors promise beyond single calls. Each function does nothing, and its contract is the law.

ghost use Rattle.gptp_accuracy.specs.Laws.{EachIsExact, OneAccuracy, OneWay, ReadingErrorsAreOfWays, WaysAreDocumented};

/// A system of a network has one way, and its distance is how many links that has.
pub fn a_system_has_one_way()
    ensures { OneWay }
{}

/// The numbers of each way are within the limits of a document, as `carry_is_within` and `offset_of_way_is_within` of
/// gptp_error_laws ask. So a Sync that goes over the way brings the root's time within the time error that is said.
pub fn ways_are_documented()
    ensures { WaysAreDocumented }
{}

/// The error of what a system reads, so long after its last receipt, is the `reading_error` of gptp_error_laws over its
/// way, which is what gptp_reading promises of runs.
pub fn reading_errors_are_of_ways()
    ensures { ReadingErrorsAreOfWays }
{}

/// A document has one text at a time, and one answer to whether a greatest error is exceeded.
pub fn a_document_has_one_accuracy()
    ensures { OneAccuracy }
{}

/// Each document that a text means has a text of its time errors at each time.
pub fn every_document_has_an_accuracy()
    ensures { EachIsExact }
{}
