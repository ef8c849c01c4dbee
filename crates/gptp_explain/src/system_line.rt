//! The line of a system.

ghost use Rattle.std.specs.Prelude.{◌≡◌, ◌∷◌, ◌++◌, [], OnOk, string_bytes};
ghost use Rattle.gptp_explain.specs.Explained.{by_words, distance_word, explained_system_line};

use crate::compared::difference;
use gptp_certificate_text::SystemLine;
use gptp_vector::Identity;
use gptp_words::{ClockDigits, IdentityDigits};
use std::alloc::AllocError;

/// Appends by what a root is better than a system, unless it is that, and a line feed.
fn write_by(text: &mut String, root: Identity, own: Identity) -> Result<(), AllocError>
    ensures { OnOk result (string_bytes text.new ≡ string_bytes text.old ++ (by_words root own ++ 10 ∷ [])) }
{
    if root == own {
        return text.push_str("\n");
    }
    writeln!(text, " by {}", difference(root, own))
}

/// The word for a distance: with 255 links or more a system is too far from its root to follow it.
fn distance_word(steps: u16) -> &'static str
    ensures { result.now ≡ distance_word steps }
{
    if steps < 255 { "steps" } else { "far" }
}

/// Appends what a system is and which root it follows, over how many links, or from how many links that is too far
/// away.
pub(crate) fn write_system(
    text: &mut String,
    own: Identity,
    line: &SystemLine,
) -> Result<(), AllocError>
    ensures { OnOk result (string_bytes text.new ≡ string_bytes text.old
        ++ (explained_system_line line.now.clock own line.now.root line.now.steps ++ 10 ∷ [])) }
{
    let steps = line.steps;
    let word = distance_word(steps);
    write!(
        text,
        "system {} own {} root {} {word} {steps}",
        ClockDigits(line.clock),
        IdentityDigits(own),
        IdentityDigits(line.root)
    )?;
    write_by(text, line.root, own)
}
