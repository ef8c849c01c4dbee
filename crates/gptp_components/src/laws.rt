//! Laws on components.

ghost use Rattle.gptp_components.specs.Distances.{BestsTellComponents};

/// Two systems are of one component exactly where the bests of their components are one.
pub fn one_component()
    ensures { BestsTellComponents }
{}
