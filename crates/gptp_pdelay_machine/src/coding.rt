//! What octets mean.

ghost use Rattle.std.specs.Prelude.{ℕ, List};
ghost use Rattle.gptp_pdelay_machine.specs.Messages.{Request, Reply};

/// Which octets are which message. The laws hold for every such coding: octets may be several messages or none.
pub trait Coding {
    ghost asks: { List ℕ → Request → Type 0 };

    ghost replies: { List ℕ → Reply → Type 0 };
}

/// Which octets tell something else, as an Announce does.
pub trait Telling {
    ghost tells: { List ℕ → Type 0 };
}
