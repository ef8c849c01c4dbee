//! What selection promises beyond one call.

ghost use Rattle.std.specs.Prelude.{◌≡◌, ℕ, List};
ghost use Rattle.gptp_vector.specs.declared.vector.Vector.{Vector};
ghost use Rattle.gptp_receipt.specs.declared.held.Held.{Held};
ghost use Rattle.gptp_roles.specs.Choice.{ArePlaced, IsChosen};
ghost use Rattle.gptp_roles.specs.Selection.{HasOneSlave, SelectionIsAtRest};

/// A system has one chosen vector.
pub fn chosen_vector_is_one()
    ensures { (identity : ℕ) (held : List Held) (v w : Vector) → IsChosen identity held v → IsChosen identity held w
        → v ≡ w }
{}

/// Selecting again from what the ports then hold changes nothing and marks no port fresh: what
/// selection drops isn't missed.
pub fn selection_is_at_rest()
    ensures { (identity : ℕ) (held : List Held) (v : Vector) → ArePlaced 1 held → IsChosen identity held v
        → SelectionIsAtRest identity held v }
{}

/// One port is Slave where the root is another system, and none where it is the own.
pub fn one_slave_port()
    ensures { (identity : ℕ) (held : List Held) (v : Vector) → ArePlaced 1 held → IsChosen identity held v
        → HasOneSlave identity held v }
{}
