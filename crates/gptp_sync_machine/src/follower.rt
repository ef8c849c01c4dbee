//! Laws on a system that follows its parent.

ghost use Rattle.gptp_sync_machine.specs.FollowerLaws.{FollowerInvariantIsKept, FollowerInvariantHoldsLater, FollowerInvariantBegins};
ghost use Rattle.gptp_sync_machine.specs.FollowerLaws.{OffsetIsExact, ParentTellsRight, ParentsNumbersFit};
ghost use Rattle.gptp_sync_machine.specs.FollowerLaws.{BaseComes, RootTells, RunsKeepInv};

use crate::coding::Coding;

/// Every act keeps the invariant: what is in flight brings what is right, and what is known is right.
pub fn invariant_kept<C: Coding>()
    ensures { FollowerInvariantIsKept C.says }
{}

/// The invariant holds as time passes.
pub fn invariant_holds_later<C: Coding>()
    ensures { FollowerInvariantHoldsLater C.says }
{}

/// The invariant holds as the network becomes settled, whatever is kept, known and in flight.
pub fn invariant_begins<C: Coding>()
    ensures { FollowerInvariantBegins C.says }
{}

/// In every run that begins as the network becomes settled the invariant holds of each state.
pub fn runs_keep_invariant<C: Coding>()
    ensures { RunsKeepInv C.says }
{}

/// What a bridge sends on is right for those that follow it.
pub fn parent_tells_right<C: Coding>()
    ensures { ParentTellsRight C.says }
{}

/// All numbers of such a bridge fit.
pub fn parents_numbers_fit<C: Coding>()
    ensures { ParentsNumbersFit C.says }
{}

/// What holds while a root doesn't tell time yet holds as it begins to.
pub fn base_comes<C: Coding>()
    ensures { BaseComes C.says }
{}

/// At each Follow_Up that is used the offset is within the time error of the system.
pub fn offset_is_exact<C: Coding>()
    ensures { OffsetIsExact C.says }
{}

/// What the root sends is right for those that follow it.
pub fn root_tells()
    ensures { RootTells }
{}
