//! What a link carries.

ghost use Rattle.std.specs.Prelude.{◌≡◌, ◌++◌, Some, OnOk, OnErr};
ghost use Rattle.gptp_model.specs.Carried.{first_type};
ghost use Rattle.gptp_messages.specs.Grammar.{Written};
ghost use Rattle.gptp_system.specs.Sends.{message_sent};

use gptp_messages::{Message, Refused, decode, encode};
use gptp_system::{Input, Sent};
use std::alloc::AllocError;
use std::marker::Model;

/// A frame that a link carries: octets, or a message that was sent, whose octets aren't written before somebody asks
/// for them. It is seen as its octets.
#[derive(Drop)]
pub struct Carried {
    form: Form,
}

/// In which form it is carried.
#[derive(Drop)]
pub(crate) enum Form {
    Octets(Vec<u8>),
    Message(Sent),
}

impl Model for Carried {
    ghost use Rattle.gptp_model.specs.Carried.{FrameOctets};

    ghost Value = { FrameOctets };

    ghost use Rattle.gptp_model.specs.Carried.{octets_in};

    ghost view = { λ carried. octets_in carried.form };
}

/// Appends the octets of a message that was sent.
fn write_message(message: &Sent, out: &mut Vec<u8>) -> Result<(), AllocError>
    ensures ok { OnOk result (out.new.items ≡ out.old.items ++ Written (message_sent message.now)) }
    ensures err { OnErr result (out.new.items ≡ out.old.items) }
{
    match message {
        Sent::Sync { head } => encode(&Message::Sync { head: *head }, out),
        Sent::PdelayReq { head } => encode(&Message::PdelayReq { head: *head }, out),
        Sent::PdelayResp(response) => encode(&Message::PdelayResp(*response), out),
        Sent::FollowUp(follow_up) => encode(&Message::FollowUp(*follow_up), out),
        Sent::PdelayRespFollowUp(response) => {
            encode(&Message::PdelayRespFollowUp(*response), out)
        }
    }
}

/// The messageType of a message that was sent.
fn type_of(message: &Sent) -> u8
    ensures { Some result ≡ first_type (Written (message_sent message.now)) }
{
    match message {
        Sent::Sync { .. } => 0x0,
        Sent::PdelayReq { .. } => 0x2,
        Sent::PdelayResp(_) => 0x3,
        Sent::FollowUp(_) => 0x8,
        Sent::PdelayRespFollowUp(_) => 0xA,
    }
}

impl Carried {
    ghost use Rattle.std.specs.Prelude.{◌≡◌, ◌++◌, ◌↔◌, true, false, IsSome, IfSome, IfOk, IfErr, OnOk, OnErr};
    ghost use Rattle.gptp_model.specs.Carried.{first_type};
    ghost use Rattle.gptp_system.specs.Input.{given, Frame};
    ghost use Rattle.gptp_messages.specs.Grammar.{Reads, RefusesFrame, Written};
    ghost use Rattle.gptp_system.specs.Sends.{message_sent};

    /// These octets, which stand written.
    pub fn of_octets(octets: Vec<u8>) -> Carried
        ensures items { result.items ≡ octets.items }
        ensures written { result.is_written ≡ true }
    {
        Carried {
            form: Form::Octets(octets),
        }
    }

    /// A message that was sent, whose octets aren't written.
    pub fn of_sent(sent: Sent) -> Carried
        ensures items { result.items ≡ Written (message_sent sent) }
        ensures written { result.is_written ≡ false }
    {
        Carried {
            form: Form::Message(sent),
        }
    }

    /// What a system is given at whose port it arrives.
    pub fn input(&self, port: u8) -> Input<'_>
        ensures { given result ≡ Frame port self.now.items }
    {
        match &self.form {
            Form::Octets(octets) => Input::Frame { port, octets },
            Form::Message(message) => Input::Sent { port, message },
        }
    }

    /// Its messageType, by its first octet; `None` where it has no octets. No octet is written.
    pub fn message_type(&self) -> Option<u8>
        ensures { result ≡ first_type self.now.items }
    {
        match &self.form {
            Form::Octets(octets) => Some(octets.first()? % 16),
            Form::Message(sent) => Some(type_of(sent)),
        }
    }

    /// What its octets read as. Of a message that was sent none is written.
    pub fn read(&self) -> Result<Message<'_>, Refused>
        ensures read { IfOk result (Reads self.now.items) }
        ensures refused { IfErr result (RefusesFrame self.now.items) }
    {
        match &self.form {
            Form::Octets(octets) => decode(octets),
            Form::Message(sent) => Ok(sent.message()),
        }
    }

    /// Its octets, where they stand written; `None` of a message that was sent.
    pub fn into_octets(self) -> Option<Vec<u8>>
        ensures octets { IfSome result (λ octets. octets.items ≡ self.items) }
        ensures written { IsSome result ↔ (self.is_written ≡ true) }
    {
        match self.form {
            Form::Octets(octets) => Some(octets),
            Form::Message(_) => None,
        }
    }

    /// Appends its octets. Without memory nothing is appended.
    pub fn write(&self, out: &mut Vec<u8>) -> Result<(), AllocError>
        ensures ok { OnOk result (out.new.items ≡ out.old.items ++ self.now.items) }
        ensures err { OnErr result (out.new.items ≡ out.old.items) }
    {
        match &self.form {
            Form::Octets(octets) => out.extend_from_slice(octets),
            Form::Message(sent) => write_message(sent, out),
        }
    }
}

impl Clone for Carried {
    ghost use Rattle.std.specs.Prelude.{◌≡◌};

    ghost is_clone = { λ carried copy. copy ≡ carried };

    fn clone(&self) -> Result<Self, AllocError> {
        Ok(Carried {
            form: match &self.form {
                Form::Octets(octets) => Form::Octets(octets.clone()?),
                Form::Message(sent) => Form::Message(*sent),
            },
        })
    }
}
