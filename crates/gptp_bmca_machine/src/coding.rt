//! Which octets say which Announce, and which say which Sync or Follow_Up.

/// A coding of messages: which octets say which Announce, and which say a Sync or a Follow_Up, by the port that sent
/// both and their number. The laws hold for every one, so they rest on nothing of the message grammar.
pub trait Coding {
    ghost use Rattle.std.specs.Prelude.{ℕ, List};
    ghost use Rattle.gptp_bmca_machine.specs.Frame.{Announce, SyncMessage};

    ghost says: { List ℕ → Announce → Type 0 };

    ghost says_sync: { List ℕ → SyncMessage → Type 0 };
}
