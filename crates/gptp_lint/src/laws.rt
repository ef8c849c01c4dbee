//! What findings promise beyond single calls. Each function does nothing, and its contract is the law.

ghost use Rattle.std.specs.Prelude.{ℕ, List};
ghost use Rattle.gptp_lint.specs.Laws.{EachIsFound};
ghost use Rattle.gptp_lint.specs.Refusal.{HasNoFeed, TellsPlace};

/// Each document that a text means has findings.
pub fn every_document_has_findings()
    ensures { EachIsFound }
{}

/// What follows the fault of a text that is refused is in its line.
pub fn a_refusal_is_one_line()
    ensures { (text tail : List ℕ) → TellsPlace text tail → HasNoFeed tail }
{}
