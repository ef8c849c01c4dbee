//! The command `lint`: what isn't as it should be in a document.

ghost use Rattle.std.specs.Prelude.{◌≡◌, ◌&&◌, IfErr, IfOk};
ghost use Rattle.gptp_commands.specs.LintText.{RefusesAtPlace, TellsFindings};
ghost use Rattle.gptp_commands.specs.Output.{IsOutput};

use crate::failure::{SimError, Status};
use crate::output::Output;
use gptp_lint::{find, write_findings, write_refusal};
use gptp_network::{Document, DocumentFault};
use std::alloc::Global;

/// The line of a text that is refused as a document.
pub(crate) fn refuse_at_place(
    alloc: Global,
    input: &[u8],
    fault: DocumentFault,
) -> Result<Output, SimError>
    ensures refuses { IfOk result (IsOutput (RefusesAtPlace input.now fault)) }
    ensures memory { IfErr result (λ e. e ≡ SimError.Memory) }
{
    let mut text = String::new(alloc);
    write_refusal(alloc, &mut text, input, fault)?;
    Ok(Output::of(text, Status::Refused))
}

/// Whether a document is refused, where there is a line but on calm, or none.
fn is_refused(strict: bool, found: bool) -> bool
    ensures { result ≡ (strict && found) }
{
    strict && found
}

/// The text for a document, which an input spells.
pub(crate) fn tell_findings(
    alloc: Global,
    document: &Document,
    input: &[u8],
    strict: bool,
) -> Result<Output, SimError>
    ensures tells { IfOk result (IsOutput (TellsFindings input.now document.now strict)) }
    ensures memory { IfErr result (λ e. e ≡ SimError.Memory) }
{
    let findings = find(alloc, document)?;
    let threshold = document.network().params().threshold;
    let mut text = String::new(alloc);
    let found = write_findings(alloc, &mut text, input, threshold, &findings)?;
    Ok(Output::of(text, Status::of_refusal(is_refused(strict, found))))
}
