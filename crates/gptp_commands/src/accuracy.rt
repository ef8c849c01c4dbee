//! The command `accuracy`: how exact the time is that each system of a document gets.

ghost use Rattle.std.specs.Prelude.{◌≡◌, IfErr, IfOk};
ghost use Rattle.gptp_words.specs.Lines.{text_of};
ghost use Rattle.gptp_accuracy.specs.AccuracyText.{accuracy_lines, error_is_exceeded};
ghost use Rattle.gptp_commands.specs.AccuracyText.{TellsAccuracy};
ghost use Rattle.gptp_commands.specs.Failure.{status_by};
ghost use Rattle.gptp_commands.specs.Output.{IsOutput};

use crate::check::moment_of;
use crate::failure::{SimError, Status};
use crate::output::Output;
use gptp_accuracy::{AccuracyOptions, TimeErrors, time_errors, write_accuracy};
use gptp_network::Document;
use std::alloc::Global;

/// The text of time errors.
fn show(alloc: Global, errors: &TimeErrors, options: AccuracyOptions) -> Result<Output, SimError>
    ensures shows { IfOk result (λ o. (o.status ≡ status_by (error_is_exceeded options errors.now))
        × (o.text.items ≡ text_of (accuracy_lines options errors.now))) }
    ensures memory { IfErr result (λ e. e ≡ SimError.Memory) }
{
    let mut text = String::new(alloc);
    let exceeded = write_accuracy(&mut text, options, errors)?;
    Ok(Output::of(text, Status::of_refusal(exceeded)))
}

/// The text for a document.
pub(crate) fn tell_accuracy(
    alloc: Global,
    document: &Document,
    until: Option<u64>,
    options: AccuracyOptions,
) -> Result<Output, SimError>
    ensures tells { IfOk result (IsOutput (TellsAccuracy document.now until options)) }
    ensures memory { IfErr result (λ e. e ≡ SimError.Memory) }
{
    let errors = time_errors(alloc, document, moment_of(document, until))?;
    show(alloc, &errors, options)
}
