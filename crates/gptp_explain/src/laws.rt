//! What explanations promise beyond single calls. Each function does nothing, and its contract is the law.

ghost use Rattle.gptp_explain.specs.Laws.{EachIsExplained, NeverBoth, OneExplanation};

/// A live system of a document has one explanation at a time, and isn't absent then.
pub fn one_explanation()
    ensures once { OneExplanation }
    ensures apart { NeverBoth }
{}

/// At each time a clock is that of a live system of a document, which has an explanation, or no live system has it.
pub fn every_clock_is_explained_or_absent()
    ensures { EachIsExplained }
{}
