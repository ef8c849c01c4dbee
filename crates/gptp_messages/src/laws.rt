//! What the grammar promises by itself.

ghost use Rattle.std.specs.Prelude.{ℕ, List};
ghost use Rattle.gptp_messages.specs.declared.message.Message.{Message};
ghost use Rattle.gptp_messages.specs.Grammar.{MessageFits, ReadsBack};

/// The spelling of a message whose fields fit their octets, followed by any octets, reads as that
/// message and as nothing else.
pub fn what_is_written_reads_back()
    ensures { (m : Message) (rest : List ℕ) → MessageFits m → ReadsBack m rest }
{}
