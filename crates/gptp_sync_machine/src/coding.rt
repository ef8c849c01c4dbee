//! What octets mean.

ghost use Rattle.std.specs.Prelude.{ℕ, List};
ghost use Rattle.gptp_sync_machine.specs.Messages.{Message};

/// Which octets are which message. The laws hold for every such coding: octets may be several messages or none.
pub trait Coding {
    ghost says: { List ℕ → Message → Type 0 };
}
