//! Laws on members of lists.

ghost use Rattle.gptp_lists.specs.SystemSpecLaws.{DifferentMembersFit};

/// Different members of a list, of numbers as clocks are, are no more than it has. `SystemSpecLemmas` has it for any
/// type.
pub fn different_members_fit()
    ensures { DifferentMembersFit }
{}
