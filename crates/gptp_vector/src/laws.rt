//! What the order of vectors promises beyond single comparisons.

ghost use Rattle.std.specs.Prelude.{◌≡◌};
ghost use Rattle.std.specs.Cmp.{IsTotalOrder};
ghost use Rattle.std.specs.declared.cmp.Ordering.TheVariants.{Equal};
ghost use Rattle.gptp_vector.specs.declared.vector.Vector.{Vector};
ghost use Rattle.gptp_vector.specs.Vector.{order};

/// The order of vectors is total: two vectors compare the opposite way round when exchanged, what is
/// lower than a lower one is lower, and equal vectors compare alike with any third.
pub fn vector_order_is_total()
    ensures { IsTotalOrder order }
{}

/// Vectors that compare as equal are the same vector.
pub fn equal_vectors_are_one()
    ensures { (a b : Vector) → order a b ≡ Equal → a ≡ b }
{}
