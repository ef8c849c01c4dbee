//! The command line: which command runs, and how the process ends.

ghost use Rattle.std.specs.Prelude.{◌≡◌, ◌⊎◌, ◌≤◌, Err, IfErr, IfNone, IfOk, IfSome, Ok, map, string_bytes};
ghost use Rattle.std.specs.Process.{exit_status as process_status};
ghost use Rattle.clap.specs.Words.{found_of, rows_of, subcommand_name_of, subcommand_rows_of};
ghost use Rattle.gptp_commands.specs.Command.{AsksFor, Enters, IsRead, MeansNothing, OrderIsInRange, Wrong, command_line_status};
ghost use Rattle.gptp_commands.specs.Command.{ReadsAccuracy, ReadsCheck, ReadsClock, ReadsFaults, ReadsKind, ReadsLimits, ReadsRun, ReadsTimeline};
ghost use Rattle.gptp_commands.specs.Command.{WrongCases, WrongClock, WrongKind, kind_of_text, limit_argument};
ghost use Rattle.gptp_commands.specs.Options.{option_number};
ghost use Rattle.gptp_commands.specs.Version.{AsksVersion};
ghost use Rattle.gptp_commands.specs.declared.command.CommandLineError.TheVariants.{Memory};
ghost use Rattle.gptp_network.specs.Values.{clock_of_text};
ghost use Rattle.gptp_network.specs.declared.fault.DocumentFault.TheVariants.{OutOfRange};

use crate::dispatch::{close, dispatch};
use crate::failure::{SimError, Status, exit_status};
use crate::grammar::grammar;
use crate::options::{flag, number, place, word};
use crate::question::Question;
use crate::run::RunOptions;
use crate::source::{CountedReader, Source};
use crate::table::rows::{
    ALWAYS, AT, CERTIFICATE, CLOCK, DETECT, FILE, FRAMES, HOLD, MAX_ERROR, MOMENT, MOMENTS,
    NANOSECONDS, OFFSETS, ONLY, PART, PARTS, POWER, PROGRESS, READS, RUN_UNTIL, SEED, SEEDS,
    STRICT, SUMMARY, TIMELINE_UNTIL, TIMES, WHERE,
};
use crate::timeline::TimelineOrder;
use crate::version::is_version;
use clap::ArgMatches;
use clap::error::ErrorKind;
use gptp_accuracy::AccuracyOptions;
use gptp_faults::{FaultsOptions, Only};
use gptp_report::sink::{CountedWriter, Sink, WriteFailed};
use gptp_timeline::{Limit, Limits, TimelineOptions};
use gptp_vector::ClockId;
use hex::FromHex;
use std::alloc::{AllocError, Global};
use std::env::{self, Env};
use std::fs;
use std::io::{self, BufWriter};
use std::process::ExitCode;
use std::rt::Files;
use thiserror::Error;

/// The exit status where the command line isn't read.
const NOT_READ: u8 = 2;

/// How many octets are held back, so that a block of lines is one write.
const BLOCK: usize = 65_536;

/// What is asked of `check`.
#[derive(Debug, Drop, PartialEq, Eq)]
pub struct CheckOptions {
    /// The path of the file that holds the certificate.
    pub file: String,
    /// The time of the network that is meant, in ns, at most `LAST_MOMENT`; `None` where it is the network after all
    /// events.
    pub until: Option<u64>,
    /// Whether the place is told at which a certificate that isn't accepted first fails.
    pub located: bool,
}

/// What a command line asks for.
#[derive(Debug, Drop, PartialEq, Eq)]
pub(crate) enum Order {
    /// The command `compare`.
    Compare,
    /// The command `run`, with these options.
    Run(RunOptions),
    /// The command `timeline`, with these options.
    Timeline(TimelineOrder),
    /// The command `faults`, with these options.
    Faults(FaultsOptions),
    /// The command `check`, with these options.
    Check(CheckOptions),
    /// A command that answers this question.
    Ask(Question),
    /// The version of the program.
    Version,
}

/// Why no command runs.
#[derive(Debug, Drop, Error)]
enum CommandLineError {
    /// Memory ran out.
    #[error("memory\n")]
    Memory,
    /// A word isn't text.
    #[error("{0}\n")]
    NotText(io::Error),
    /// The words name no command. The parser's text has its own line feeds.
    #[error("{0}")]
    NotRead(clap::Error),
    /// A word isn't the clock that it ought to be.
    #[error("error: invalid value '{0}' for '<CLOCK>': a clock is 16 hexadecimal digits\n\nFor more information, try '--help'.\n")]
    NotClock(String),
    /// A word isn't the kind of cases that it ought to be.
    #[error("error: invalid value '{0}' for '--only <KIND>': it is 'links', 'systems' or 'power'\n\nFor more information, try '--help'.\n")]
    NotKind(String),
    /// There is no such part.
    #[error("error: invalid value '{0}' for '--part <K>': there are {1} parts\n\nFor more information, try '--help'.\n")]
    NotPart(u64, u64),
}

impl CommandLineError {
    /// The exit status of a process that runs no command.
    fn status(&self) -> u8
        ensures { result ≡ command_line_status self.now }
    {
        match self {
            CommandLineError::Memory => exit_status(&Err(SimError::Memory)),
            CommandLineError::NotText(_)
            | CommandLineError::NotRead(_)
            | CommandLineError::NotClock(_)
            | CommandLineError::NotKind(_)
            | CommandLineError::NotPart(_, _) => NOT_READ,
        }
    }
}

impl From<AllocError> for CommandLineError {
    ghost from_gives = { λ _ e. e ≡ Memory };

    fn from(_error: AllocError) -> CommandLineError {
        CommandLineError::Memory
    }
}

impl From<io::Error> for CommandLineError {
    ghost use Rattle.std.specs.Prelude.{◌≡◌};
    ghost use Rattle.std.specs.IoError.{error_kind};
    ghost use Rattle.std.specs.declared.io.ErrorKind.TheVariants.{OutOfMemory};
    ghost use Rattle.gptp_commands.specs.Command.{MemoryOr};
    ghost use Rattle.gptp_commands.specs.declared.command.CommandLineError.TheVariants.{NotText};

    ghost from_gives = { λ error e. MemoryOr (error_kind error ≡ OutOfMemory) (NotText error) e };

    fn from(error: io::Error) -> CommandLineError {
        if error.kind() == io::ErrorKind::OutOfMemory {
            CommandLineError::Memory
        } else {
            CommandLineError::NotText(error)
        }
    }
}

impl From<clap::Error> for CommandLineError {
    ghost use Rattle.std.specs.Prelude.{◌≡◌};
    ghost use Rattle.clap.specs.Words.{kind_of};
    ghost use Rattle.clap.specs.declared.error.kind.ErrorKind.TheVariants.{OutOfMemory};
    ghost use Rattle.gptp_commands.specs.Command.{MemoryOr};
    ghost use Rattle.gptp_commands.specs.declared.command.CommandLineError.TheVariants.{NotRead};

    ghost from_gives = { λ error e. MemoryOr (kind_of error ≡ OutOfMemory) (NotRead error) e };

    fn from(error: clap::Error) -> CommandLineError {
        if error.kind() == ErrorKind::OutOfMemory {
            CommandLineError::Memory
        } else {
            CommandLineError::NotRead(error)
        }
    }
}

/// What is asked of `run`.
fn run_in(matches: &ArgMatches) -> RunOptions
    ensures { ReadsRun (rows_of (found_of matches.now)) result }
{
    RunOptions {
        until: number(matches, &RUN_UNTIL),
        seed: number(matches, &SEED).unwrap_or(1),
        frames: flag(matches, &FRAMES),
        certificate: flag(matches, &CERTIFICATE),
    }
}

/// The greatest that the command line gives for a limit.
fn limit_in(matches: &ArgMatches, limit: Limit) -> Option<u64>
    ensures { result ≡ option_number (limit_argument limit) (rows_of (found_of matches.now)) }
{
    number(matches, &(limit.option(), NANOSECONDS, ""))
}

/// The limits that the command line gives.
fn limits_in(matches: &ArgMatches) -> Limits
    ensures { ReadsLimits (rows_of (found_of matches.now)) result }
{
    Limits {
        most: Limit::ALL.map(|limit| limit_in(matches, limit)),
    }
}

/// What is asked of `timeline`.
fn timeline_in(matches: &ArgMatches) -> TimelineOrder
    ensures { ReadsTimeline (rows_of (found_of matches.now)) result }
{
    let seed = number(matches, &SEED).unwrap_or(1);
    TimelineOrder {
        until: number(matches, &TIMELINE_UNTIL),
        seed,
        options: TimelineOptions {
            summary: flag(matches, &SUMMARY),
            offsets: flag(matches, &OFFSETS),
            times: flag(matches, &TIMES),
            limits: limits_in(matches),
        },
    }
}

/// The kind of cases that a text names.
fn kind_of(text: &str) -> Option<Only>
    ensures { result ≡ kind_of_text text.now }
{
    match text {
        "links" => Some(Only::Links),
        "systems" => Some(Only::Systems),
        "power" => Some(Only::Power),
        _ => None,
    }
}

/// The kind of cases that is left.
fn only_in(alloc: Global, matches: &ArgMatches) -> Result<Option<Only>, CommandLineError>
    ensures kind { IfOk result (ReadsKind (rows_of (found_of matches.now))) }
    ensures refused { IfErr result (λ e. (e ≡ Memory) ⊎ WrongKind (rows_of (found_of matches.now)) e) }
{
    match word(matches, &ONLY) {
        None => Ok(None),
        Some(text) => match kind_of(text) {
            Some(only) => Ok(Some(only)),
            None => Err(CommandLineError::NotKind(String::from_str(alloc, text)?)),
        },
    }
}

/// What is asked of `faults`.
fn faults_in(alloc: Global, matches: &ArgMatches) -> Result<FaultsOptions, CommandLineError>
    ensures asks { IfOk result (ReadsFaults (rows_of (found_of matches.now))) }
    ensures refused { IfErr result (λ e. (e ≡ Memory) ⊎ WrongCases (rows_of (found_of matches.now)) e) }
{
    let only = only_in(alloc, matches)?;
    let parts = number(matches, &PARTS).unwrap_or(1);
    let part = number(matches, &PART).unwrap_or(1);
    if parts < part {
        return Err(CommandLineError::NotPart(part, parts));
    }
    Ok(FaultsOptions {
        seeds: number(matches, &SEEDS).unwrap_or(1),
        moments: number(matches, &MOMENTS).unwrap_or(8),
        at: number(matches, &AT),
        hold: number(matches, &HOLD),
        only,
        power: flag(matches, &POWER),
        detect: number(matches, &DETECT),
        parts,
        part,
        progress: flag(matches, &PROGRESS),
        times: flag(matches, &TIMES),
        limits: limits_in(matches),
    })
}

/// What is asked of `check`.
fn check_in(alloc: Global, matches: &ArgMatches) -> Result<CheckOptions, AllocError>
    ensures { IfOk result (ReadsCheck (rows_of (found_of matches.now))) }
{
    Ok(CheckOptions {
        file: String::from_str(alloc, place(matches, &FILE))?,
        until: number(matches, &MOMENT),
        located: flag(matches, &WHERE),
    })
}

/// The clock that a text spells: 16 hexadecimal digits of either case, as in documents.
fn clock_of(text: &str) -> Option<ClockId>
    ensures some { IfSome result (λ clock. clock_of_text text.now ≡ Ok clock) }
    ensures none { IfNone result (clock_of_text text.now ≡ Err OutOfRange) }
{
    match <[u8; 8] as FromHex>::from_hex(text) {
        Ok(octets) => Some(ClockId::of_octets(octets)),
        Err(_) => None,
    }
}

/// The clock of the system that `explain` is asked for.
fn clock_in(alloc: Global, matches: &ArgMatches) -> Result<ClockId, CommandLineError>
    ensures clock { IfOk result (ReadsClock (rows_of (found_of matches.now))) }
    ensures refused { IfErr result (λ e. (e ≡ Memory) ⊎ WrongClock (rows_of (found_of matches.now)) e) }
{
    let text = place(matches, &CLOCK);
    match clock_of(text) {
        Some(clock) => Ok(clock),
        None => Err(CommandLineError::NotClock(String::from_str(alloc, text)?)),
    }
}

/// What is asked of `accuracy`.
fn accuracy_in(matches: &ArgMatches) -> AccuracyOptions
    ensures { ReadsAccuracy (rows_of (found_of matches.now)) result }
{
    AccuracyOptions {
        reads: number(matches, &READS),
        always: flag(matches, &ALWAYS),
        max_error: number(matches, &MAX_ERROR),
    }
}

/// What is asked for, by the command that the parser entered.
fn order_in(alloc: Global, matches: &ArgMatches) -> Result<Order, CommandLineError>
    ensures asks { IfOk result (Enters (subcommand_name_of matches.now) (subcommand_rows_of matches.now)) }
    ensures refused { IfErr result (λ e. (e ≡ Memory) ⊎ Wrong (subcommand_rows_of matches.now) e) }
{
    match matches.subcommand() {
        Some(("run", matches)) => Ok(Order::Run(run_in(matches))),
        Some(("timeline", matches)) => Ok(Order::Timeline(timeline_in(matches))),
        Some(("faults", matches)) => match faults_in(alloc, matches) {
            Ok(options) => Ok(Order::Faults(options)),
            Err(error) => Err(error),
        },
        Some(("check", matches)) => Ok(Order::Check(check_in(alloc, matches)?)),
        Some(("choice", matches)) => Ok(Order::Ask(Question::Choice {
            until: number(matches, &MOMENT),
        })),
        Some(("accuracy", matches)) => Ok(Order::Ask(Question::Accuracy {
            until: number(matches, &MOMENT),
            options: accuracy_in(matches),
        })),
        Some(("explain", matches)) => match clock_in(alloc, matches) {
            Ok(clock) => Ok(Order::Ask(Question::Explain {
                clock,
                until: number(matches, &MOMENT),
            })),
            Err(error) => Err(error),
        },
        Some(("lint", matches)) => Ok(Order::Ask(Question::Lint {
            strict: flag(matches, &STRICT),
        })),
        _ => Ok(Order::Compare),
    }
}

/// Reads the words of a command line, the program's name first: the command that they name, with its
/// options.
///
/// NotRead where they name no command, or anything that the command doesn't take, or ask for help;
/// NotClock where a word isn't the clock that it ought to be; Memory.
fn read_words(alloc: Global, words: &[String]) -> Result<Order, CommandLineError>
    ensures asks { IfOk result (AsksFor (map string_bytes words.now)) }
    ensures refused { IfErr result (λ e. (e ≡ Memory) ⊎ MeansNothing (map string_bytes words.now) e) }
    ensures taken { IfErr result (λ e. IsRead (map string_bytes words.now) → e ≡ Memory) }
{
    let matches = grammar(alloc)?.try_get_matches_from(words)?;
    order_in(alloc, &matches)
}

/// Reads the words of a command line: those that ask for the version, or as [`read_words`] does.
fn read_order(alloc: Global, words: &[String]) -> Result<Order, CommandLineError>
    ensures asks { IfOk result (AsksFor (map string_bytes words.now)) }
    ensures version { AsksVersion (map string_bytes words.now) → result ≡ Ok Order.Version }
    ensures refused { IfErr result (λ e. (e ≡ Memory) ⊎ MeansNothing (map string_bytes words.now) e) }
    ensures taken { IfErr result (λ e. IsRead (map string_bytes words.now) → e ≡ Memory) }
{
    if is_version(words) {
        return Ok(Order::Version);
    }
    read_words(alloc, words)
}

/// Reads the command line.
fn read_command_line<R: Env + AllocGlobal>(rt: &R) -> Result<Order, CommandLineError>
    ensures { IfOk result OrderIsInRange }
{
    let alloc = rt.alloc();
    let words: Vec<String> = env::args(rt)?.collect(alloc)?;
    read_order(alloc, words.as_slice())
}

/// Standard error as a sink.
#[derive(Drop)]
struct ErrorSink<'a, R> {
    rt: &'a R,
    failures: u64,
}

impl<R: Eprint> Sink for ErrorSink<'_, R> {
    ghost use Rattle.std.specs.Prelude.{None};

    ghost written = { λ _. None };

    ghost failures = { λ sink. sink.failures };

    fn write(&mut self, text: &[u8]) -> Result<usize, WriteFailed> {
        if let Ok(shown) = std::str::from_utf8(text) {
            if eprint!(self.rt; "{shown}").is_ok() {
                return Ok(text.len());
            }
        }
        self.failures = self.failures.wrapping_add(1);
        Err(WriteFailed)
    }
}

/// Runs `check`, of which this is the file that holds the certificate, or another command without one.
///
/// Read also where the document can't be read or the file can't be opened, and then nothing is written.
fn run_order<R: Files + Eprint + AllocGlobal, S: Source, K: Sink>(
    rt: &R,
    order: &Order,
    source: &mut S,
    sink: &mut K,
) -> Result<Status, SimError>
    requires { OrderIsInRange order.now }
{
    let mut progress = ErrorSink { rt, failures: 0 };
    let Order::Check(options) = order else {
        let mut none: &[u8] = &[];
        return dispatch(rt.alloc(), order, source, &mut none, sink, &mut progress);
    };
    // No octet is asked for. It fails where standard input is closed, whose descriptor the file would get.
    source.read(&mut [])?;
    let Ok(file) = fs::open(rt, options.file.as_str()) else {
        return Err(SimError::Read);
    };
    let mut certificate = CountedReader::new(file);
    dispatch(
        rt.alloc(),
        order,
        source,
        &mut certificate,
        sink,
        &mut progress,
    )
}

/// Runs a command from standard input to standard output, which is written in blocks.
fn carry_out<R: Input + Print + Eprint + Files + AllocGlobal>(
    rt: &R,
    order: &Order,
) -> Result<Status, SimError>
    requires { OrderIsInRange order.now }
{
    let mut source = CountedReader::new(rt.reader());
    let Ok(writer) = BufWriter::with_capacity(rt.alloc(), BLOCK, io::writer(rt)) else {
        return Err(SimError::Memory);
    };
    let mut sink = CountedWriter::new(writer);
    let outcome = run_order(rt, order, &mut source, &mut sink);
    let mut writer = sink.into_inner();
    let outcome = close(&mut writer, outcome);
    // dropped as it is, it would write once more
    let _ = writer.into_parts();
    outcome
}

/// Runs what the command line says, and tells of errors on standard error. The process ends with 0, 1 or
/// 3 after a command, and with 2 or 3 where none runs.
pub fn run<R: Env + Input + Print + Eprint + Files + AllocGlobal>(rt: &R) -> ExitCode
    ensures { process_status result ≤ 3 }
{
    match read_command_line(rt) {
        Ok(order) => {
            let outcome = carry_out(rt, &order);
            if let Err(error) = &outcome {
                let _ = eprintln!(rt; "{error}");
            }
            ExitCode::from(exit_status(&outcome))
        }
        Err(error) => {
            let _ = eprint!(rt; "{error}");
            ExitCode::from(error.status())
        }
    }
}
