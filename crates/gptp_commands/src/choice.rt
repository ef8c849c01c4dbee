//! The command `choice`: the choice that the network of a document settles at.

ghost use Rattle.std.specs.Prelude.{◌≡◌, IfErr, IfOk};
ghost use Rattle.gptp_words.specs.Lines.{text_of};
ghost use Rattle.gptp_certificate_text.specs.CertificateText.{certificate_lines};
ghost use Rattle.gptp_commands.specs.ChoiceText.{ChoosesAt, ShowsChoice};
ghost use Rattle.gptp_commands.specs.Output.{IsOutput};

use crate::check::moment_of;
use crate::failure::{SimError, Status};
use crate::output::Output;
use gptp_certificate_text::{Certificate, print};
use gptp_choice::settled_choice;
use gptp_network::{Document, Snapshot};
use std::alloc::Global;

/// The text of a certificate.
fn show(alloc: Global, certificate: &Certificate) -> Result<Output, SimError>
    ensures shows { IfOk result (λ o. (o.status ≡ Status.Done)
        × (o.text.items ≡ text_of (certificate_lines certificate.now.version certificate.now.lines))) }
    ensures memory { IfErr result (λ e. e ≡ SimError.Memory) }
{
    let mut text = Vec::new(alloc);
    print(certificate, &mut text)?;
    Ok(Output {
        text,
        status: Status::Done,
    })
}

/// The text for the network as it stands at a time.
fn choose(alloc: Global, snapshot: &Snapshot) -> Result<Output, SimError>
    ensures chooses { IfOk result (IsOutput (ShowsChoice snapshot.now)) }
    ensures memory { IfErr result (λ e. e ≡ SimError.Memory) }
{
    let certificate = settled_choice(alloc, snapshot)?;
    show(alloc, &certificate)
}

/// The text for a document.
pub(crate) fn choose_at(
    alloc: Global,
    document: &Document,
    until: Option<u64>,
) -> Result<Output, SimError>
    ensures chooses { IfOk result (IsOutput (ChoosesAt document.now until)) }
    ensures memory { IfErr result (λ e. e ≡ SimError.Memory) }
{
    let at = moment_of(document, until);
    let snapshot = document.snapshot(alloc, at)?;
    snapshot.well_formed();
    choose(alloc, &snapshot)
}
