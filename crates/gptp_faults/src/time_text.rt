//! The lines of what systems read in cases.

ghost use Rattle.std.specs.Prelude.{◌≡◌, ◌++◌, ◌∷◌, [], OnOk, string_bytes};
ghost use Rattle.gptp_words.specs.Lines.{text_of};
ghost use Rattle.gptp_faults.specs.TimeText.{jump_words, read_words, times_line, times_lines, worst_jump_words, worst_read_words, worst_times_line, worst_times_lines};

use crate::extremes::{Apart, TimeExtremes};
use crate::text::AmountOrNone;
use gptp_timeline::{Greatest, Near, Sources, Worst, amount_of};
use gptp_words::ClockDigits;
use std::alloc::AllocError;
use std::fmt;

/// How long it took until a system changed its source last, with that system.
#[derive(Clone, Copy)]
struct First(Option<Greatest>);

impl fmt::Display for First {
    ghost use Rattle.std.specs.Prelude.{Some};
    ghost use Rattle.gptp_faults.specs.TimeText.{first_text};

    ghost output = { λ first. Some (first_text first.0) };

    fn fmt<W: fmt::Write>(&self, f: &mut fmt::Formatter<W>) -> fmt::Result {
        match self.0 {
            Some(first) => write!(f, "{} {}", first.amount, ClockDigits(first.clock)),
            None => f.write_str("none none"),
        }
    }
}

/// How far off a system is, or 0, without that system.
#[derive(Clone, Copy)]
struct AmountOrZero(Option<Greatest>);

impl fmt::Display for AmountOrZero {
    ghost use Rattle.std.specs.Prelude.{Some};
    ghost use Rattle.gptp_faults.specs.TimeText.{amount_text};

    ghost output = { λ amount. Some (amount_text amount.0) };

    fn fmt<W: fmt::Write>(&self, f: &mut fmt::Formatter<W>) -> fmt::Result {
        match self.0 {
            Some(greatest) => write!(f, "{}", Near(greatest.amount)),
            None => f.write_str("0.000"),
        }
    }
}

/// Appends how far off systems read, and how far apart.
fn write_read(
    text: &mut String,
    word: &str,
    time: Option<Greatest>,
    apart: Apart,
) -> Result<(), AllocError>
    ensures { OnOk result (string_bytes text.new ≡ string_bytes text.old ++ read_words word.now time apart) }
{
    write!(
        text,
        "{word}_times time {} apart {}{}",
        Worst(time),
        Near(apart.amount),
        Sources(apart.sources)
    )
}

/// Appends by how much what a system reads jumps, and how long it took until one changed its source last.
fn write_jumps(
    text: &mut String,
    step: Option<Greatest>,
    first: Option<Greatest>,
) -> Result<(), AllocError>
    ensures { OnOk result (string_bytes text.new ≡ string_bytes text.old ++ (jump_words step first ++ 10 ∷ [])) }
{
    writeln!(text, " step {} first {}", Worst(step), First(first))
}

/// Appends the line of the greatest of all runs.
fn write_line(text: &mut String, word: &str, times: &TimeExtremes) -> Result<(), AllocError>
    ensures { OnOk result (string_bytes text.new
        ≡ string_bytes text.old ++ (times_line word.now times.now ++ 10 ∷ [])) }
{
    write_read(text, word, times.time, times.apart)?;
    write_jumps(text, times.step, times.first)
}

/// Appends that line, where it is asked for.
pub(crate) fn write_times(
    text: &mut String,
    asked: bool,
    word: &str,
    times: &TimeExtremes,
) -> Result<(), AllocError>
    ensures { OnOk result (string_bytes text.new
        ≡ string_bytes text.old ++ text_of (times_lines asked word.now times.now)) }
{
    match asked {
        true => write_line(text, word, times),
        false => Ok(()),
    }
}

/// Appends how far off systems read in all cases, and how far apart.
fn write_worst_read(
    text: &mut String,
    word: &str,
    time: Option<Greatest>,
    apart: u128,
) -> Result<(), AllocError>
    ensures { OnOk result (string_bytes text.new ≡ string_bytes text.old ++ worst_read_words word.now time apart) }
{
    write!(
        text,
        "{word}_times time {} apart {}",
        AmountOrZero(time),
        Near(apart)
    )
}

/// Appends by how much what a system reads jumps in all cases, and how long it took until one changed its source last.
fn write_worst_jumps(
    text: &mut String,
    step: Option<Greatest>,
    first: Option<u128>,
) -> Result<(), AllocError>
    ensures { OnOk result (string_bytes text.new ≡ string_bytes text.old ++ (worst_jump_words step first ++ 10 ∷ [])) }
{
    writeln!(
        text,
        " step {} first {}",
        AmountOrZero(step),
        AmountOrNone(first)
    )
}

/// Appends the line of the greatest of all cases.
fn write_worst_line(text: &mut String, word: &str, times: &TimeExtremes) -> Result<(), AllocError>
    ensures { OnOk result (string_bytes text.new
        ≡ string_bytes text.old ++ (worst_times_line word.now times.now ++ 10 ∷ [])) }
{
    write_worst_read(text, word, times.time, times.apart.amount)?;
    write_worst_jumps(text, times.step, amount_of(times.first))
}

/// Appends that line, where it is asked for.
pub(crate) fn write_worst_times(
    text: &mut String,
    asked: bool,
    word: &str,
    times: &TimeExtremes,
) -> Result<(), AllocError>
    ensures { OnOk result (string_bytes text.new
        ≡ string_bytes text.old ++ text_of (worst_times_lines asked word.now times.now)) }
{
    match asked {
        true => write_worst_line(text, word, times),
        false => Ok(()),
    }
}
