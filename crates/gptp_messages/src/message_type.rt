//! The types of messages.

ghost use Rattle.std.specs.Prelude.{◌≡◌};
ghost use Rattle.gptp_messages.specs.MessageType.{least_length, type_of};

/// A messageType that is read (IEEE 1588-2019, table 36).
#[derive(Clone, Copy, Debug, PartialEq, Eq)]
pub(crate) enum MessageType {
    Sync = 0x0,
    PdelayReq = 0x2,
    PdelayResp = 0x3,
    FollowUp = 0x8,
    PdelayRespFollowUp = 0xA,
    Announce = 0xB,
}

impl MessageType {
    /// The type with this number.
    pub(crate) fn of_number(number: u8) -> Option<MessageType>
        ensures { result ≡ type_of number }
    {
        match number {
            0x0 => Some(MessageType::Sync),
            0x2 => Some(MessageType::PdelayReq),
            0x3 => Some(MessageType::PdelayResp),
            0x8 => Some(MessageType::FollowUp),
            0xA => Some(MessageType::PdelayRespFollowUp),
            0xB => Some(MessageType::Announce),
            _ => None,
        }
    }

    /// The least messageLength of such a message.
    pub(crate) fn least_length(self) -> u16
        ensures { result ≡ least_length self }
    {
        match self {
            MessageType::Sync => 44,
            MessageType::PdelayReq | MessageType::PdelayResp | MessageType::PdelayRespFollowUp =>
                54,
            MessageType::FollowUp => 76,
            MessageType::Announce => 64,
        }
    }
}
