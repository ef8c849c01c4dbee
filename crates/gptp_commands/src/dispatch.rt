//! Which command runs, over any devices, and what is held back after it.

ghost use Rattle.std.specs.Prelude.{◌≡◌, ◌⊎◌, [], Err, IfErr, IfOk, Ok, OnOk};
ghost use Rattle.std.specs.Io.Buffered.{writer_buffer, writer_contents};
ghost use Rattle.std.specs.Io.KnownBytes.{Keeps};
ghost use Rattle.gptp_commands.specs.Command.{OrderIsInRange};
ghost use Rattle.gptp_commands.specs.OrderText.{WritesChecked, WritesOrder};

use crate::check::{check, check_where};
use crate::command::Order;
use crate::compare::compare_lines;
use crate::failure::{SimError, Status};
use crate::faults::faults;
use crate::question::answer_question;
use crate::run::run;
use crate::source::Source;
use crate::timeline::timeline;
use crate::version::tell_version;
use gptp_report::sink::Sink;
use std::alloc::Global;
use std::io::{BufWriter, Write};

/// Checks a certificate, with the place at which it fails where that is asked for.
fn check_as_asked<S: Source, C: Source, K: Sink>(
    alloc: Global,
    document: &mut S,
    certificate: &mut C,
    sink: &mut K,
    until: Option<u64>,
    located: bool,
) -> Result<Status, SimError>
    ensures { IfOk result (WritesChecked located until (C.left certificate.old) (S.left document.old)
        (K.written sink.old) (K.written sink.new)) }
{
    match located {
        true => check_where(alloc, document, certificate, sink, until),
        false => check(alloc, document, certificate, sink, until),
    }
}

/// Runs the command that is asked for. A certificate is read by `check` alone, and lines on progress are written by
/// `faults` alone.
pub(crate) fn dispatch<S: Source, C: Source, K: Sink, P: Sink>(
    alloc: Global,
    order: &Order,
    source: &mut S,
    certificate: &mut C,
    sink: &mut K,
    progress: &mut P,
) -> Result<Status, SimError>
    requires { OrderIsInRange order.now }
    ensures { IfOk result (WritesOrder order.now (C.left certificate.old) (S.left source.old) (K.written sink.old)
        (K.written sink.new)) }
{
    match order {
        Order::Compare => compare_lines(alloc, source, sink),
        Order::Run(options) => run(alloc, source, sink, options),
        Order::Timeline(order) => timeline(alloc, source, sink, order),
        Order::Faults(options) => faults(alloc, source, sink, progress, options),
        Order::Check(options) => check_as_asked(
            alloc,
            source,
            certificate,
            sink,
            options.until,
            options.located,
        ),
        Order::Ask(question) => answer_question(alloc, source, sink, *question),
        Order::Version => tell_version(sink),
    }
}

/// Writes what is held back, unless a write has failed: then the device isn't tried again. A write that fails here is
/// the outcome of a command that did its work.
pub(crate) fn close<W: Write + Drop>(
    writer: &mut BufWriter<W>,
    outcome: Result<Status, SimError>,
) -> Result<Status, SimError>
    ensures done { IfOk outcome (λ status. (result ≡ Ok status) ⊎ (result ≡ Err SimError.Write)) }
    ensures failed { IfErr outcome (λ e. result ≡ Err e) }
    ensures whole { OnOk result (writer_buffer writer.new ≡ []) }
    ensures kept { Keeps (writer_contents W.contents writer.old) (writer_contents W.contents writer.new) }
{
    match outcome {
        Ok(status) => match writer.flush() {
            Ok(()) => Ok(status),
            Err(_) => Err(SimError::Write),
        },
        Err(SimError::Write) => Err(SimError::Write),
        Err(error) => {
            let _ = writer.flush();
            Err(error)
        }
    }
}
