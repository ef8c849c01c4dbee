//! What two looks say of the moments between them.

ghost use Rattle.gptp_timeline_laws.specs.Looks.{ReadingLooksSuffice, SourceLooksSuffice};

/// What is read by one reading is off at every moment between two looks by no more than at one of them, and three
/// units. The times of two sources differ by no more than at one of them, and one unit.
pub fn looks_suffice()
    ensures readings { ReadingLooksSuffice }
    ensures sources { SourceLooksSuffice }
{}
