//! The command `timeline`: what changes at which system when, while the network of a document runs.

ghost use Rattle.std.specs.Prelude.{◌≡◌, ◌≢◌, ◌+◌, List, ℕ, IfOk, OnOk, IfErr, IfSome};
ghost use Rattle.std.specs.Io.KnownBytes.{Keeps};
ghost use Rattle.gptp_setup.specs.Intervals.{IsMoment};
ghost use Rattle.gptp_commands.specs.Documents.{document_limit};
ghost use Rattle.gptp_commands.specs.Source.{ReadsWhole, TakesAtMost};
ghost use Rattle.gptp_commands.specs.TimelineText.{BeginsText, EndsAt, TimelineText};
ghost use Rattle.gptp_commands.specs.Written.{Writes, WritesSome};

use crate::documents::{DocumentCommand, tell_of_document};
use crate::failure::{SimError, Status};
use crate::source::Source;
use gptp_links::PcgFate;
use gptp_network::Document;
use gptp_report::Cut;
use gptp_report::sink::Sink;
use gptp_timeline::{TimelineOptions, end_by_default, write_timeline};
use std::alloc::{AllocError, Global};

/// What is asked of a timeline.
#[derive(Clone, Copy, Debug, PartialEq, Eq)]
pub struct TimelineOrder {
    /// The time at which it ends, in ns, at most `LAST_MOMENT`; `None` where it ends as much after the last event as is
    /// watched then: a calm network has come to rest by then and is exact, and some Syncs more were sent.
    pub until: Option<u64>,
    /// The seed of the generator that draws delays and losses, and from which the noise of time stamps is drawn.
    pub seed: u64,
    /// What is told.
    pub options: TimelineOptions,
}

/// When the timeline of a document ends.
fn until_of(alloc: Global, document: &Document, order: &TimelineOrder) -> Result<u64, AllocError>
    requires { IfSome order.now.until (λ until. IsMoment until) }
    ensures end { IfOk result (EndsAt order.now.until document.now) }
    ensures bound { IfOk result (λ until. IsMoment until) }
{
    match order.until {
        Some(until) => Ok(until),
        None => end_by_default(alloc, document),
    }
}

impl DocumentCommand for TimelineOrder {
    ghost use Rattle.std.specs.Prelude.{IfSome};
    ghost use Rattle.gptp_setup.specs.Intervals.{IsMoment};
    ghost use Rattle.gptp_commands.specs.TimelineText.{TellsSoFar, TellsTimeline};

    ghost can_tell = { λ order. IfSome order.until (λ until. IsMoment until) };

    ghost tells = { TellsTimeline };

    ghost tells_so_far = { TellsSoFar };

    fn tell<K: Sink>(
        &self,
        alloc: Global,
        document: &mut Document,
        sink: &mut K,
    ) -> Result<Status, Cut> {
        document.well_formed();
        document.network().well_formed();
        document.set_seed(self.seed);
        let until = until_of(alloc, document, self)?;
        let fate = PcgFate::new(self.seed);
        let exceeded = write_timeline(alloc, document, fate, until, &self.options, sink)?;
        Ok(Status::of_refusal(exceeded))
    }
}

/// Reads a document, a network and its events as TOML, lets them run up to a time, and writes act by act which event is
/// made and what each act leaves another at which system, and where each stretch between times of events ends what
/// became of it.
///
/// The acts are those of [`run`](crate::run::run) to the same end, and the last line of each system and port tells what
/// it shows there. Where the network is calm where a stretch begins, it settles within the span; where it lasts as
/// long, each near system follows the best of its component where it ends. Once what systems use has come down the
/// settled tree after that, no error of a receipt is above the bound of its `accuracy` line.
///
/// A document that is refused is the one line `refused` with the number and name of [`gptp_network::DocumentFault`]. Of
/// an input of more than 33,554,432 octets no more than one further octet is read, and it is `refused 11 TooMany`. The
/// document is read whole first; then the lines of each act are written as it is done.
///
/// The answer is [`Status::Refused`] where the document was refused, or where a limit is given that some stretch
/// exceeds. Errors: [`SimError::Read`] exactly where a read failed, with nothing written; [`SimError::Memory`];
/// [`SimError::Write`] exactly where a write failed, after which nothing more is done. After these two a front of the
/// text stands written, as far as that had got.
pub fn timeline<S: Source, K: Sink>(
    alloc: Global,
    source: &mut S,
    sink: &mut K,
    order: &TimelineOrder,
) -> Result<Status, SimError>
    requires { IfSome order.now.until (λ until. IsMoment until) }
    ensures done { IfOk result (Writes (TimelineText order.now) (S.left source.old) (K.written sink.old) (K.written sink.new)) }
    ensures whole { OnOk result ((octets : List ℕ) × ReadsWhole document_limit (S.left source.old) (S.left source.new) octets) }
    ensures no_further { TakesAtMost (document_limit + 1) (S.left source.old) (S.left source.new) }

    // every failure of a device is told as such, and none is made up
    ensures source_works { result ≢ Err SimError.Read → S.failures source.new ≡ S.failures source.old }
    ensures sink_works { result ≢ Err SimError.Write → K.failures sink.new ≡ K.failures sink.old }
    ensures read { result ≡ Err SimError.Read → S.failures source.new ≢ S.failures source.old }
    ensures write { result ≡ Err SimError.Write → K.failures sink.new ≢ K.failures sink.old }

    // what stands written after an error
    ensures nothing { result ≡ Err SimError.Read → Keeps (K.written sink.old) (K.written sink.new) }
    ensures front { IfErr result (λ e. e ≢ SimError.Read
        → WritesSome (BeginsText order.now) (S.left source.old) (K.written sink.old) (K.written sink.new)) }
{
    tell_of_document(alloc, source, sink, order)
}
