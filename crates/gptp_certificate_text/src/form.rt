//! The forms of lines.

ghost use Rattle.std.specs.Prelude.{◌≡◌, ◌≢◌, ◌↔◌, Option, Some, None, IfSome, IfNone, IsTrue, option_map};
ghost use Rattle.gptp_graph.specs.SettledRole as settled;
ghost use Rattle.gptp_certificate_text.specs.Certificate.{role_of};
ghost use Rattle.gptp_certificate_text.specs.Forms as forms;
ghost use Rattle.gptp_certificate_text.specs.Forms.{role_word, parent_text, system_text, far_text, port_text, form_text, HasParentWords, AreSystemWords, AreFarWords, ArePortWords, HasWords, FitsHere, HasForm};
ghost use Rattle.gptp_certificate_text.specs.Lines.{parent_words_of, system_words_of, far_words_of, port_words_of, form_of};

use crate::words::{after, is_word, value, word};
use gptp_roles::Role;

/// The three words of a parent.
#[derive(Debug, Clone, Copy)]
pub(crate) struct ParentWords<'a> {
    pub(crate) own_port: &'a [u8],
    pub(crate) clock: &'a [u8],
    pub(crate) port: &'a [u8],
}

/// The words of a system line that aren't the same in all.
#[derive(Debug, Clone, Copy)]
pub(crate) struct SystemWords<'a> {
    pub(crate) clock: &'a [u8],
    pub(crate) root: &'a [u8],
    pub(crate) steps: &'a [u8],
    pub(crate) parent: Option<ParentWords<'a>>,
}

/// The words of a far system's line that aren't the same in all.
#[derive(Debug, Clone, Copy)]
pub(crate) struct FarWords<'a> {
    pub(crate) clock: &'a [u8],
    pub(crate) steps: &'a [u8],
    pub(crate) root: &'a [u8],
}

/// The words of a port line that aren't the same in all.
#[derive(Debug, Clone, Copy)]
pub(crate) struct PortWords<'a> {
    pub(crate) clock: &'a [u8],
    pub(crate) number: &'a [u8],
    pub(crate) role: Role,
}

/// A line by its words.
#[derive(Debug, Clone, Copy)]
pub(crate) enum Form<'a> {
    System(SystemWords<'a>),
    Far(FarWords<'a>),
    Port(PortWords<'a>),
}

/// The role that a word names.
fn role(word: &[u8]) -> Option<Role>
    ensures found { IfSome result (λ role. word.now ≡ role_word (role_of role)) }
    ensures absent { IfNone result ((role : settled.Role) → word.now ≢ role_word role) }
{
    match word {
        b"disabled" => Some(Role::Disabled),
        b"master" => Some(Role::Master),
        b"slave" => Some(Role::Slave),
        b"passive" => Some(Role::Passive),
        _ => None,
    }
}

/// The three words of a parent.
fn link_words(text: &[u8]) -> Option<ParentWords<'_>>
    ensures words { IfSome result (λ link. forms.AreParentWords (parent_words_of link)) }
    ensures found { IfSome result (λ link. text.now ≡ parent_text (Some (parent_words_of link))) }
    ensures absent { IfNone result
        ((link : forms.ParentWords) → forms.AreParentWords link → text.now ≢ parent_text (Some link)) }
{
    let (own_port, rest) = word(text)?;
    let (clock, port) = word(rest)?;
    if is_word(port) {
        Some(ParentWords {
            own_port,
            clock,
            port,
        })
    } else {
        None
    }
}

/// A parent: its three words, or none.
fn parent_words(text: &[u8]) -> Option<Option<ParentWords<'_>>>
    ensures words { IfSome result (λ parent. HasParentWords (option_map parent_words_of parent)) }
    ensures found { IfSome result (λ parent. text.now ≡ parent_text (option_map parent_words_of parent)) }
    ensures absent { IfNone result
        ((parent : Option forms.ParentWords) → HasParentWords parent → text.now ≢ parent_text parent) }
{
    if text == b"none".as_slice() {
        return Some(None);
    }
    Some(Some(link_words(text)?))
}

/// The words of a system line.
fn system_words(line: &[u8]) -> Option<SystemWords<'_>>
    ensures words { IfSome result (λ words. AreSystemWords (system_words_of words)) }
    ensures found { IfSome result (λ words. line.now ≡ system_text (system_words_of words)) }
    ensures absent { IfNone result ((words : forms.SystemWords) → AreSystemWords words → line.now ≢ system_text words) }
{
    let (clock, rest) = value(b"system ", line)?;
    let (root, rest) = value(b"root ", rest)?;
    let (steps, rest) = value(b"steps ", rest)?;
    let parent = parent_words(after(b"parent ", rest)?)?;
    Some(SystemWords {
        clock,
        root,
        steps,
        parent,
    })
}

/// The words of a far system's line.
fn far_words(line: &[u8]) -> Option<FarWords<'_>>
    ensures words { IfSome result (λ words. AreFarWords (far_words_of words)) }
    ensures found { IfSome result (λ words. line.now ≡ far_text (far_words_of words)) }
    ensures absent { IfNone result ((words : forms.FarWords) → AreFarWords words → line.now ≢ far_text words) }
{
    let (clock, rest) = value(b"system ", line)?;
    let (steps, rest) = value(b"far ", rest)?;
    let root = after(b"root ", rest)?;
    if is_word(root) {
        Some(FarWords { clock, steps, root })
    } else {
        None
    }
}

/// The words of a port line.
fn port_words(line: &[u8]) -> Option<PortWords<'_>>
    ensures words { IfSome result (λ words. ArePortWords (port_words_of words)) }
    ensures found { IfSome result (λ words. line.now ≡ port_text (port_words_of words)) }
    ensures absent { IfNone result ((words : forms.PortWords) → ArePortWords words → line.now ≢ port_text words) }
{
    let (clock, rest) = value(b"port ", line)?;
    let (number, rest) = word(rest)?;
    let role = role(rest)?;
    Some(PortWords {
        clock,
        number,
        role,
    })
}

/// The words of a far system's line or of a port line.
fn short_form(line: &[u8]) -> Option<Form<'_>>
    ensures words { IfSome result (λ form. HasWords (form_of form)) }
    ensures found { IfSome result (λ form. line.now ≡ form_text (form_of form)) }
    ensures no_far { IfNone result ((words : forms.FarWords) → AreFarWords words → line.now ≢ far_text words) }
    ensures no_port { IfNone result ((words : forms.PortWords) → ArePortWords words → line.now ≢ port_text words) }
{
    match far_words(line) {
        Some(words) => Some(Form::Far(words)),
        None => Some(Form::Port(port_words(line)?)),
    }
}

/// The words of a line.
fn any_form(line: &[u8]) -> Option<Form<'_>>
    ensures words { IfSome result (λ form. HasWords (form_of form)) }
    ensures found { IfSome result (λ form. line.now ≡ form_text (form_of form)) }
    ensures absent { IfNone result ((form : forms.Form) → HasWords form → line.now ≢ form_text form) }
{
    match system_words(line) {
        Some(words) => Some(Form::System(words)),
        None => short_form(line),
    }
}

/// Whether a form can stand in a text of this version, right after a far system's line or not.
fn fits_here(form: Form<'_>, version: u8, after_far: bool) -> bool
    ensures { IsTrue result ↔ FitsHere version after_far (form_of form.entry) }
{
    match form {
        Form::System(_) => true,
        Form::Far(_) => version == 2,
        Form::Port(_) => !after_far,
    }
}

/// The form of a line that can stand in a text of this version, right after a far system's line or not.
pub(crate) fn read_form(line: &[u8], version: u8, after_far: bool) -> Option<Form<'_>>
    ensures words { IfSome result (λ form. HasWords (form_of form)) }
    ensures fits { IfSome result (λ form. FitsHere version after_far (form_of form)) }
    ensures found { IfSome result (λ form. line.now ≡ form_text (form_of form)) }
    ensures absent { IfNone result (HasForm version after_far line.now → ⊥) }
{
    let form = any_form(line)?;
    if fits_here(form, version, after_far) {
        Some(form)
    } else {
        None
    }
}
