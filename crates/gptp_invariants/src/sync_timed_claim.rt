//! Laws on carried time in every world of a network, calm or not.

ghost use Rattle.gptp_invariants.specs.SyncTimedClaimLaws.{CalmOffsetsAreExact, CarriesBegins, CarriesKept, CarriesLater};
ghost use Rattle.gptp_invariants.specs.SyncTimedClaimLaws.{AllBegins, AllKept, AllLater};

use gptp_links::Fate;

/// In every world of a network time is carried right from each time on by which it has settled since its last change.
/// That is so as the world begins, and stays so from act to act, a change included, and as time passes.
pub fn carried_time_is_claimed<F: Fate>()
    ensures begins { CarriesBegins F.answers }
    ensures acts { CarriesKept F.answers }
    ensures time { CarriesLater }
{}

/// With it all that is claimed of every world begins with the world of a network, and is kept from act to act and as
/// time passes.
pub fn all_is_claimed<F: Fate>()
    ensures begins { AllBegins F.answers }
    ensures acts { AllKept F.answers }
    ensures time { AllLater }
{}

/// Once a calm network has settled, and frames have had the time to come down the way of a system, each Follow_Up that
/// it uses leaves an offset that is within the time error of that way of its clock less what its root tells.
pub fn calm_offsets_are_exact()
    ensures { CalmOffsetsAreExact }
{}
