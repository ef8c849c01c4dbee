//! How soon the choice and the roles stand, as it is computed, are bounds.

ghost use Rattle.gptp_how_soon_laws.specs.Choice.{SettlingsAreChoiceBounds};

/// By how much later the roles stand after a time of a document, as it is computed for a calm network, is a choice
/// bound of the document at that time. By how much later the choice does is a bound of the choice alone, and no later.
pub fn settlings_are_choice_bounds()
    ensures { SettlingsAreChoiceBounds }
{}
