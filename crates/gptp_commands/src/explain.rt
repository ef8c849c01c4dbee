//! The command `explain`: why the network of a document settles as it does, at one system.

ghost use Rattle.std.specs.Prelude.{◌≡◌, IfErr, IfNone, IfOk, IfSome, string_bytes};
ghost use Rattle.gptp_network.specs.declared.fault.DocumentFault.TheVariants.{NoSuchPort};
ghost use Rattle.gptp_commands.specs.ExplainText.{ExplainsAt};
ghost use Rattle.gptp_commands.specs.Output.{IsOutput};
ghost use Rattle.gptp_commands.specs.Documents.{RefusesFault};

use crate::check::moment_of;
use crate::documents::refuse;
use crate::failure::{SimError, Status};
use crate::output::Output;
use gptp_explain::explain;
use gptp_network::{Document, DocumentFault};
use gptp_vector::ClockId;
use std::alloc::Global;

/// What is told of a system, or the line for one that doesn't live.
fn show(alloc: Global, told: Option<String>) -> Result<Output, SimError>
    ensures some { IfSome told (λ text. IfOk result (λ o. (o.status ≡ Status.Done) × (o.text.items ≡ string_bytes text))) }
    ensures none { IfNone told (IfOk result (IsOutput (RefusesFault NoSuchPort))) }
    ensures memory { IfErr result (λ e. e ≡ SimError.Memory) }
{
    match told {
        Some(text) => Ok(Output::of(text, Status::Done)),
        None => refuse(alloc, DocumentFault::NoSuchPort),
    }
}

/// The text for a document.
pub(crate) fn explain_at(
    alloc: Global,
    document: &Document,
    until: Option<u64>,
    clock: ClockId,
) -> Result<Output, SimError>
    ensures explains { IfOk result (IsOutput (ExplainsAt document.now until clock)) }
    ensures memory { IfErr result (λ e. e ≡ SimError.Memory) }
{
    let told = explain(alloc, document, moment_of(document, until), clock)?;
    show(alloc, told)
}
