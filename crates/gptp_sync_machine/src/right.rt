//! Laws on what is told and known on a way, hop by hop.

ghost use Rattle.gptp_sync_machine.specs.RightLaws.{BridgeNumbersFit, BridgeTellsRight, CorrectionsAreSmall};
ghost use Rattle.gptp_sync_machine.specs.RightLaws.{ExchangesMeasureRight, HeldIsRight, OffsetIsRight, RightStays};
ghost use Rattle.gptp_sync_machine.specs.RightLaws.{RatesAreHeld, RootTellsRight, WaysAreModest};

/// What the root tells is right: its own clock and its base.
pub fn root_tells_right()
    ensures { RootTellsRight }
{}

/// On no way of a document with at most 10000 links the sum of the rates comes near the limits of 32 bits.
pub fn ways_are_modest()
    ensures { WaysAreModest }
{}

/// Corrections grow by at most twice what may pass on a link and at the bridge after it.
pub fn corrections_are_small()
    ensures { CorrectionsAreSmall }
{}

/// Where a sum of rates hasn't 32 bits, the rate whose sum is at the nearest limit is one that the laws allow.
pub fn rates_are_held()
    ensures { RatesAreHeld }
{}

/// What was told stays right where the sum of rates is held at the limits of 32 bits.
pub fn held_is_right()
    ensures { HeldIsRight }
{}

/// What a bridge tells is right, where what it knows was right as it was told, where it has measured the link well, and
/// where it keeps the Sync for at most the jitter of the link and a residence.
pub fn bridge_tells_right()
    ensures { BridgeTellsRight }
{}

/// All numbers of such a bridge fit.
pub fn bridge_numbers_fit()
    ensures { BridgeNumbersFit }
{}

/// The offset that a system computes from what is right is within its time error of its clock less what the root tells.
pub fn offset_is_right()
    ensures { OffsetIsRight }
{}

/// What is right on a way is right where the way goes on.
pub fn right_stays()
    ensures { RightStays }
{}

/// What a port has measured by two exchanges, one after the other, is right: so it is of each port that has settled.
pub fn exchanges_measure_right()
    ensures { ExchangesMeasureRight }
{}
