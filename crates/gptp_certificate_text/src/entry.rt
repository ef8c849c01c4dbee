//! Single lines of a certificate.

ghost use Rattle.std.specs.Prelude.{◌≡◌, ◌≢◌, ℕ, true, false, Option, Some, None, IfSome, IfNone, IfOk, IfErr, OnErr, option_map};
ghost use Rattle.gptp_graph.specs.Labelling.{PortLine};
ghost use Rattle.gptp_graph.specs.Parent.{ParentLink};
ghost use Rattle.gptp_certificate_text.specs.Certificate.{parent_of};
ghost use Rattle.gptp_certificate_text.specs.CertificateText as text;
ghost use Rattle.gptp_certificate_text.specs.CertificateText.{entry_text, spelled_line};
ghost use Rattle.gptp_certificate_text.specs.Forms.{FitsHere};
ghost use Rattle.gptp_certificate_text.specs.Entries as entries;
ghost use Rattle.gptp_certificate_text.specs.Entries.{IsReadableEntry, IsReadableLink, IsReadableParent};
ghost use Rattle.gptp_certificate_text.specs.Lines.{entry_of, form_of, far_words_of, parent_words_of, port_words_of, system_words_of, LineFails};

use crate::fault::CertificateFault;
use crate::form::{FarWords, Form, ParentWords, PortWords, SystemWords, read_form};
use crate::spelling::{clock, identity, number, port_number};
use gptp_roles::Role;
use gptp_vector::{ClockId, Identity, PortId};

/// A line of a system without its ports, of a far system, or of a port.
#[derive(Debug, Clone, Copy)]
pub(crate) enum Entry {
    System {
        clock: ClockId,
        root: Identity,
        steps: u16,
        parent: Option<(u16, PortId)>,
    },
    Far {
        clock: ClockId,
        root: Identity,
        steps: u16,
    },
    Port {
        clock: ClockId,
        number: u16,
        role: Role,
    },
}

/// The parent that three words spell.
fn link(words: ParentWords<'_>) -> Option<(u16, PortId)>
    ensures readable { IfSome result (λ link. IsReadableLink (parent_of link)) }
    ensures found { IfSome result (λ link. text.parent_words (parent_of link) ≡ parent_words_of words.entry) }
    ensures absent { IfNone result
        ((link : ParentLink) → IsReadableLink link → text.parent_words link ≢ parent_words_of words.entry) }
{
    let own_port = port_number(words.own_port)?;
    let clock = clock(words.clock)?;
    let port = port_number(words.port)?;
    Some((own_port, PortId { clock, port }))
}

/// The parent that three words spell, or none.
fn parent(words: Option<ParentWords<'_>>) -> Option<Option<(u16, PortId)>>
    ensures readable { IfSome result (λ parent. IsReadableParent (option_map parent_of parent)) }
    ensures found { IfSome result
        (λ parent. option_map text.parent_words (option_map parent_of parent)
        ≡ option_map parent_words_of words.entry) }
    ensures absent { IfNone result
        ((parent : Option ParentLink) → IsReadableParent parent
        → option_map text.parent_words parent ≢ option_map parent_words_of words.entry) }
{
    match words {
        None => Some(None),
        Some(words) => Some(Some(link(words)?)),
    }
}

/// The line of a system that these words spell.
fn system(words: SystemWords<'_>) -> Option<Entry>
    ensures readable { IfSome result (λ entry. (version : ℕ) → IsReadableEntry version (entry_of entry)) }
    ensures found { IfSome result (λ entry. spelled_line (entry_of entry) ≡ form_of (Form.System words.entry)) }
    ensures absent { IfNone result ((version clock root steps : ℕ) (parent : Option ParentLink)
        → IsReadableEntry version (entries.SystemEntry clock root steps false parent)
        → text.system_words clock root steps parent ≢ system_words_of words.entry) }
{
    let clock = clock(words.clock)?;
    let root = identity(words.root)?;
    let steps = number(words.steps)?;
    let parent = parent(words.parent)?;
    Some(Entry::System {
        clock,
        root,
        steps,
        parent,
    })
}

/// The line of a far system that these words spell.
fn far(words: FarWords<'_>) -> Option<Entry>
    ensures readable { IfSome result (λ entry. IsReadableEntry 2 (entry_of entry)) }
    ensures found { IfSome result (λ entry. spelled_line (entry_of entry) ≡ form_of (Form.Far words.entry)) }
    ensures absent { IfNone result ((version clock root steps : ℕ) (parent : Option ParentLink)
        → IsReadableEntry version (entries.SystemEntry clock root steps true parent)
        → text.far_words clock root steps ≢ far_words_of words.entry) }
{
    let clock = clock(words.clock)?;
    let steps = number(words.steps)?;
    let root = identity(words.root)?;
    Some(Entry::Far { clock, root, steps })
}

/// The line of a port that these words spell.
fn port(words: PortWords<'_>) -> Option<Entry>
    ensures readable { IfSome result (λ entry. (version : ℕ) → IsReadableEntry version (entry_of entry)) }
    ensures found { IfSome result (λ entry. spelled_line (entry_of entry) ≡ form_of (Form.Port words.entry)) }
    ensures absent { IfNone result
        ((version clock : ℕ) (port : PortLine) → IsReadableEntry version (entries.PortEntry clock port)
        → text.port_words clock port ≢ port_words_of words.entry) }
{
    let clock = clock(words.clock)?;
    let number = port_number(words.number)?;
    Some(Entry::Port {
        clock,
        number,
        role: words.role,
    })
}

/// The line that the words of a form spell, which fits a text of this version.
fn spelled_entry(form: Form<'_>, version: u8, after_far: bool) -> Option<Entry>
    requires { FitsHere version after_far (form_of form) }
    ensures readable { IfSome result (λ entry. IsReadableEntry version (entry_of entry)) }
    ensures found { IfSome result (λ entry. spelled_line (entry_of entry) ≡ form_of form.entry) }
    ensures absent { IfNone result
        ((entry : entries.LineKey) → IsReadableEntry version entry → spelled_line entry ≢ form_of form.entry) }
{
    match form {
        Form::System(words) => system(words),
        Form::Far(words) => far(words),
        Form::Port(words) => port(words),
    }
}

/// The line that the words of a form spell, which fits a text of this version, or the fault Spelling.
fn entry_of_form(form: Form<'_>, version: u8, after_far: bool) -> Result<Entry, CertificateFault>
    requires { FitsHere version after_far (form_of form) }
    ensures readable { IfOk result (λ entry. IsReadableEntry version (entry_of entry)) }
    ensures read { IfOk result (λ entry. spelled_line (entry_of entry) ≡ form_of form.entry) }
    ensures fault { IfErr result (λ fault. fault ≡ CertificateFault.Spelling) }
    ensures refused { OnErr result
        ((entry : entries.LineKey) → IsReadableEntry version entry → spelled_line entry ≢ form_of form.entry) }
{
    match spelled_entry(form, version, after_far) {
        None => Err(CertificateFault::Spelling),
        Some(entry) => Ok(entry),
    }
}

/// Reads a line of a text of this version, right after a far system's line or not. The error is Line where it has no
/// form that can stand there, and Spelling where its words spell no entry.
pub(crate) fn read_entry(
    line: &[u8],
    version: u8,
    after_far: bool,
) -> Result<Entry, CertificateFault>
    ensures readable { IfOk result (λ entry. IsReadableEntry version (entry_of entry)) }
    ensures fits { IfOk result (λ entry. FitsHere version after_far (spelled_line (entry_of entry))) }
    ensures read { IfOk result (λ entry. line.now ≡ entry_text (entry_of entry)) }
    ensures refused { IfErr result (λ fault. LineFails version after_far line.now fault) }
{
    match read_form(line, version, after_far) {
        None => Err(CertificateFault::Line),
        Some(form) => entry_of_form(form, version, after_far),
    }
}
