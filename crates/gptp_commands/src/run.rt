//! The command `run`: what becomes of the network of a document.

ghost use Rattle.std.specs.Prelude.{◌≡◌, ◌≢◌, ◌⊎◌, ◌+◌, [], true, List, ℕ, IfOk, OnErr, OnOk, IfErr, IfSome};
ghost use Rattle.std.specs.Io.KnownBytes.{Appends, Keeps};
ghost use Rattle.gptp_setup.specs.Intervals.{IsMoment};
ghost use Rattle.gptp_certificate_text.specs.CertificateText.{certificate_lines};
ghost use Rattle.gptp_report.specs.Report.{Reports};
ghost use Rattle.gptp_sink.specs.Sink.{AppendsSome};
ghost use Rattle.gptp_scenario.specs.SettlingTime.{settles};
ghost use Rattle.gptp_words.specs.Lines.{text_of};
ghost use Rattle.gptp_commands.specs.Source.{ReadsWhole, TakesAtMost};
ghost use Rattle.gptp_commands.specs.Documents.{document_limit};
ghost use Rattle.gptp_commands.specs.RunText.{until_of, BeginsRun, PlaysDocument, RunText};
ghost use Rattle.gptp_commands.specs.RunSoFar.{PlaysSome, TellsRun};
ghost use Rattle.gptp_commands.specs.Written.{Writes, WritesSome};

use crate::documents::{DocumentCommand, tell_of_document};
use crate::failure::{SimError, Status};
use crate::source::Source;
use gptp_certificate::{Certificate, print_line, write_certificate};
use gptp_links::{Fate, PcgFate};
use gptp_network::Document;
use gptp_report::sink::Sink;
use gptp_report::{Cut, run_document, write_report, write_whole};
use gptp_world::World;
use std::alloc::Global;

/// What is asked of a run.
#[derive(Clone, Copy, Debug, PartialEq, Eq)]
pub struct RunOptions {
    /// The time at which it ends, in ns, at most `LAST_MOMENT`; `None` where it ends when the network has settled after
    /// the last change, or would have if it were calm.
    pub until: Option<u64>,
    /// The seed of the generator that draws delays and losses, and from which the noise of time stamps is drawn.
    pub seed: u64,
    /// Whether a line tells of each frame.
    pub frames: bool,
    /// Whether the certificate follows.
    pub certificate: bool,
}

/// When the run of a document ends.
fn until_of(document: &Document, options: &RunOptions) -> u64
    requires { IfSome options.now.until (λ until. IsMoment until) }
    ensures is { result ≡ until_of options.now document.now }
    ensures bound { IsMoment result }
{
    match options.until {
        Some(until) => until,
        None => document.settles(),
    }
}

/// Writes the lines of a certificate, one after another.
fn write_lines<K: Sink>(alloc: Global, certificate: &Certificate, sink: &mut K) -> Result<(), Cut>
    ensures some { AppendsSome (K.written sink.old) (K.written sink.new)
        (text_of (certificate_lines certificate.now.version certificate.now.lines)) }
    ensures whole { OnOk result
        (Appends (K.written sink.old) (K.written sink.new) (text_of (certificate_lines certificate.now.version certificate.now.lines))) }
    ensures works { result ≢ Err Cut.Write → K.failures sink.new ≡ K.failures sink.old }
    ensures fails { result ≡ Err Cut.Write → K.failures sink.new ≢ K.failures sink.old }
{
    let mut line = Vec::new(alloc);
    for place in 0..usize::MAX {
        line.clear();
        if !print_line(certificate, place, &mut line)? {
            return Ok(());
        }
        write_whole(sink, &line)?;
    }
    // no memory holds so many lines
    Err(Cut::Memory)
}

/// Writes the report of a world.
fn write_all<F: Fate + Drop, K: Sink>(
    alloc: Global,
    document: &Document,
    until: u64,
    world: &World<F>,
    sink: &mut K,
) -> Result<(), Cut>
    ensures some { OnErr result ((lines : List (List ℕ))
        × ((lines ≡ []) ⊎ Reports document.now until world.now.world_core lines)
        × AppendsSome (K.written sink.old) (K.written sink.new) (text_of lines)) }
    ensures whole { OnOk result ((lines : List (List ℕ)) × Reports document.now until world.now.world_core lines
        × Appends (K.written sink.old) (K.written sink.new) (text_of lines)) }
    ensures works { result ≢ Err Cut.Write → K.failures sink.new ≡ K.failures sink.old }
    ensures fails { result ≡ Err Cut.Write → K.failures sink.new ≢ K.failures sink.old }
{
    let mut text = String::new(alloc);
    write_report(&mut text, document, until, world)?;
    write_whole(sink, text.as_bytes())?;
    Ok(())
}

/// Writes the report of a world, and what its systems say.
fn write_certified<F: Fate + Drop, K: Sink>(
    alloc: Global,
    document: &Document,
    until: u64,
    world: &World<F>,
    sink: &mut K,
) -> Result<(), Cut>
    ensures some { OnErr result ((lines : List (List ℕ))
        × ((lines ≡ []) ⊎ TellsRun document.now until true world.now.world_core lines)
        × AppendsSome (K.written sink.old) (K.written sink.new) (text_of lines)) }
    ensures whole { OnOk result ((lines : List (List ℕ)) × TellsRun document.now until true world.now.world_core lines
        × Appends (K.written sink.old) (K.written sink.new) (text_of lines)) }
    ensures works { result ≢ Err Cut.Write → K.failures sink.new ≡ K.failures sink.old }
    ensures fails { result ≡ Err Cut.Write → K.failures sink.new ≢ K.failures sink.old }
{
    let certificate = write_certificate(alloc, world)?;
    write_all(alloc, document, until, world, sink)?;
    write_lines(alloc, &certificate, sink)
}

/// Writes the report of a world, and what its systems say where that is asked for.
fn tell<F: Fate + Drop, K: Sink>(
    alloc: Global,
    document: &Document,
    until: u64,
    certified: bool,
    world: &World<F>,
    sink: &mut K,
) -> Result<(), Cut>
    ensures some { OnErr result ((lines : List (List ℕ))
        × ((lines ≡ []) ⊎ TellsRun document.now until certified world.now.world_core lines)
        × AppendsSome (K.written sink.old) (K.written sink.new) (text_of lines)) }
    ensures whole { OnOk result ((lines : List (List ℕ)) × TellsRun document.now until certified world.now.world_core lines
        × Appends (K.written sink.old) (K.written sink.new) (text_of lines)) }
    ensures works { result ≢ Err Cut.Write → K.failures sink.new ≡ K.failures sink.old }
    ensures fails { result ≡ Err Cut.Write → K.failures sink.new ≢ K.failures sink.old }
{
    match certified {
        true => write_certified(alloc, document, until, world, sink),
        false => write_all(alloc, document, until, world, sink),
    }
}

/// Runs a document, and writes its lines as they are known.
fn play_document<K: Sink>(
    alloc: Global,
    document: &Document,
    options: &RunOptions,
    sink: &mut K,
) -> Result<(), Cut>
    requires { IfSome options.now.until (λ until. IsMoment until) }
    ensures some { OnErr result ((lines : List (List ℕ)) × PlaysSome document.now options.now lines
        × AppendsSome (K.written sink.old) (K.written sink.new) (text_of lines)) }
    ensures whole { OnOk result ((lines : List (List ℕ)) × PlaysDocument document.now options.now lines Status.Done
        × Appends (K.written sink.old) (K.written sink.new) (text_of lines)) }
    ensures works { result ≢ Err Cut.Write → K.failures sink.new ≡ K.failures sink.old }
    ensures fails { result ≡ Err Cut.Write → K.failures sink.new ≢ K.failures sink.old }
{
    let until = until_of(document, options);
    let fate = PcgFate::new(options.seed);
    let world = run_document(alloc, document, fate, until, options.frames, sink)?;
    tell(alloc, document, until, options.certificate, &world, sink)
}

impl DocumentCommand for RunOptions {
    ghost use Rattle.std.specs.Prelude.{IfSome};
    ghost use Rattle.gptp_setup.specs.Intervals.{IsMoment};
    ghost use Rattle.gptp_commands.specs.RunText.{LeadsDocument, RunsDocument};

    ghost can_tell = { λ options. IfSome options.until (λ until. IsMoment until) };

    ghost tells = { RunsDocument };

    ghost tells_so_far = { LeadsDocument };

    fn tell<K: Sink>(
        &self,
        alloc: Global,
        document: &mut Document,
        sink: &mut K,
    ) -> Result<Status, Cut> {
        document.well_formed();
        document.network().well_formed();
        document.set_seed(self.seed);
        play_document(alloc, document, self, sink)?;
        Ok(Status::Done)
    }
}

/// Reads a document, a network and its events as TOML, lets them run up to a time, and writes what became of them: with
/// `frames` a line for each frame that reached a port, in order of delivery; then the time, the last change, and for
/// each system by rising clock what it follows, and its ports; then, with `certificate`, what each live system says.
///
/// Where the network of the document is calm after its events, and the run ends no sooner than [`Document::settles`]
/// says, the report is that of a world that has settled, whatever the seed; and the certificate is the settled choice
/// of the network as it then stands.
///
/// A document that is refused is the one line `refused` with the number and name of [`gptp_network::DocumentFault`]. Of
/// an input of more than 33,554,432 octets no more than one further octet is read, and it is `refused 11 TooMany`. The
/// document is read whole first; then the line of each frame is written as that reaches its port, and the report as a
/// whole.
///
/// The answer is [`Status::Refused`] where the document was refused. Errors: [`SimError::Read`] exactly where a read
/// failed, with nothing written; [`SimError::Memory`]; [`SimError::Write`] exactly where a write failed, after which
/// nothing more is done. After these two a front of the text stands written, as far as that had got.
pub fn run<S: Source, K: Sink>(
    alloc: Global,
    source: &mut S,
    sink: &mut K,
    options: &RunOptions,
) -> Result<Status, SimError>
    requires { IfSome options.now.until (λ until. IsMoment until) }
    ensures done { IfOk result (Writes (RunText options.now) (S.left source.old) (K.written sink.old) (K.written sink.new)) }
    ensures whole { OnOk result ((octets : List ℕ) × ReadsWhole document_limit (S.left source.old) (S.left source.new) octets) }
    ensures no_further { TakesAtMost (document_limit + 1) (S.left source.old) (S.left source.new) }

    // every failure of a device is told as such, and none is made up
    ensures source_works { result ≢ Err SimError.Read → S.failures source.new ≡ S.failures source.old }
    ensures sink_works { result ≢ Err SimError.Write → K.failures sink.new ≡ K.failures sink.old }
    ensures read { result ≡ Err SimError.Read → S.failures source.new ≢ S.failures source.old }
    ensures write { result ≡ Err SimError.Write → K.failures sink.new ≢ K.failures sink.old }

    // what stands written after an error
    ensures nothing { result ≡ Err SimError.Read → Keeps (K.written sink.old) (K.written sink.new) }
    ensures front { IfErr result (λ e. e ≢ SimError.Read
        → WritesSome (BeginsRun options.now) (S.left source.old) (K.written sink.old) (K.written sink.new)) }
{
    tell_of_document(alloc, source, sink, options)
}
