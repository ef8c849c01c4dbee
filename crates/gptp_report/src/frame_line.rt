//! The line of a frame that reached a port.

ghost use Rattle.std.specs.Prelude.{◌≡◌, ◌≢◌, [], ◌∷◌, ◌++◌, OnOk, string_bytes};
ghost use Rattle.std.specs.Io.KnownBytes.{Appends};
ghost use Rattle.gptp_words.specs.Lines.{text_of};
ghost use Rattle.gptp_report.specs.FrameLine.{IsOfType, frame_line, refusal_number, frame_type_of};
ghost use Rattle.gptp_sink.specs.Sink.{AppendsSome};

use gptp_messages::{Message, Refused};
use gptp_model::Carried;
use gptp_sink::sink::Sink;
use gptp_sink::{Cut, write_whole};
use gptp_system::Answer;
use gptp_vector::ClockId;
use gptp_words::{ClockDigits, OctetDigits};
use std::alloc::{AllocError, Global};
use std::fmt;

/// What a frame is, by its octets alone.
#[derive(Clone, Copy, Debug, PartialEq, Eq)]
pub enum FrameType {
    /// An Announce.
    Announce,
    /// A Sync.
    Sync,
    /// A Follow_Up.
    FollowUp,
    /// A Pdelay_Req.
    PdelayReq,
    /// A Pdelay_Resp.
    PdelayResp,
    /// A Pdelay_Resp_Follow_Up.
    PdelayRespFollowUp,
    /// No message.
    Unread,
}

impl fmt::Display for FrameType {
    ghost use Rattle.std.specs.Prelude.{Some};
    ghost use Rattle.gptp_report.specs.FrameLine.{type_text};

    ghost output = { λ kind. Some (type_text kind) };

    fn fmt<W: fmt::Write>(&self, f: &mut fmt::Formatter<W>) -> fmt::Result {
        f.write_str(match self {
            FrameType::Announce => "announce",
            FrameType::Sync => "sync",
            FrameType::FollowUp => "follow_up",
            FrameType::PdelayReq => "pdelay_req",
            FrameType::PdelayResp => "pdelay_resp",
            FrameType::PdelayRespFollowUp => "pdelay_resp_follow_up",
            FrameType::Unread => "unread",
        })
    }
}

/// The type of a message.
fn type_of_message(message: &Message<'_>) -> FrameType
    ensures { result ≡ frame_type_of message.now }
{
    match message {
        Message::Announce(_) => FrameType::Announce,
        Message::Sync { .. } => FrameType::Sync,
        Message::FollowUp(_) => FrameType::FollowUp,
        Message::PdelayReq { .. } => FrameType::PdelayReq,
        Message::PdelayResp(_) => FrameType::PdelayResp,
        Message::PdelayRespFollowUp(_) => FrameType::PdelayRespFollowUp,
    }
}

/// The type of the message in a frame, or [`FrameType::Unread`] where there is none.
pub fn type_of(frame: &Carried) -> FrameType
    ensures { IsOfType frame.now.items result }
{
    match frame.read() {
        Ok(message) => type_of_message(&message),
        Err(_) => FrameType::Unread,
    }
}

/// The number of a refusal, from 1 to 8.
fn refusal_number(refused: Refused) -> u8
    ensures { result ≡ refusal_number refused }
{
    refused as u8
}

/// What became of a frame, in one word; `None` where the system had failed.
#[derive(Clone, Copy)]
pub struct AnswerWord(pub Option<Answer>);

impl fmt::Display for AnswerWord {
    ghost use Rattle.std.specs.Prelude.{Some};
    ghost use Rattle.gptp_report.specs.FrameLine.{frame_answer_text};

    ghost output = { λ answer. Some (frame_answer_text answer.0) };

    fn fmt<W: fmt::Write>(&self, f: &mut fmt::Formatter<W>) -> fmt::Result {
        match self.0 {
            None => f.write_str("silent"),
            Some(Answer::Refused(refused)) => write!(f, "refused-{}", refusal_number(refused)),
            Some(Answer::Disabled) => f.write_str("disabled"),
            Some(Answer::Used) => f.write_str("used"),
            Some(Answer::Ignored) => f.write_str("ignored"),
            Some(Answer::Superior) => f.write_str("superior"),
            Some(Answer::Repeated) => f.write_str("repeated"),
            Some(Answer::Inferior) => f.write_str("inferior"),
            Some(Answer::Own) => f.write_str("own"),
            Some(Answer::Steps) => f.write_str("steps"),
            Some(Answer::Loop) => f.write_str("loop"),
            Some(Answer::Long) => f.write_str("long"),
        }
    }
}

/// How many octets the words of a line have at most, beside those of its frame.
const WORDS: usize = 96;

/// Appends the line of a frame of this type.
fn append_frame_line(
    text: &mut String,
    at: u64,
    clock: ClockId,
    port: u16,
    kind: FrameType,
    answer: Option<Answer>,
    frame: &[u8],
) -> Result<(), AllocError>
    ensures { OnOk result (string_bytes text.new
        ≡ string_bytes text.old ++ (frame_line at clock port kind answer frame.now ++ 10 ∷ [])) }
{
    text.reserve(frame.len().saturating_mul(2).saturating_add(WORDS))?;
    writeln!(
        text,
        "frame {at} {} {port} {kind} {} {}",
        ClockDigits(clock),
        AnswerWord(answer),
        OctetDigits(frame)
    )
}

/// Writes the line of a frame that reached a port: `at` is when, in ns; `clock` and `port` are those of the system that
/// it reached; `answer` is what became of it there, `None` where that system had failed. After an error a front of the
/// line stands written, which may be none of it or all.
pub fn write_frame_line<K: Sink>(
    alloc: Global,
    sink: &mut K,
    at: u64,
    clock: ClockId,
    port: u16,
    answer: Option<Answer>,
    frame: &Carried,
) -> Result<(), Cut>
    ensures some { (kind : FrameType) × IsOfType frame.now.items kind
        × AppendsSome (K.written sink.old) (K.written sink.new)
        (text_of (frame_line at clock port kind answer frame.now.items ∷ [])) }
    ensures whole { OnOk result ((kind : FrameType) × IsOfType frame.now.items kind
        × Appends (K.written sink.old) (K.written sink.new)
        (text_of (frame_line at clock port kind answer frame.now.items ∷ []))) }
    ensures works { result ≢ Err Cut.Write → K.failures sink.new ≡ K.failures sink.old }
    ensures fails { result ≡ Err Cut.Write → K.failures sink.new ≢ K.failures sink.old }
{
    let kind = type_of(frame);
    let mut octets = Vec::new(alloc);
    frame.write(&mut octets)?;
    let mut line = String::new(alloc);
    append_frame_line(&mut line, at, clock, port, kind, answer, &octets)?;
    write_whole(sink, line.as_bytes())?;
    Ok(())
}
