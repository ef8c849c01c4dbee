//! Time errors as text.

ghost use Rattle.std.specs.Prelude.{◌≡◌, ◌*◌, ◌++◌, ◌∷◌, [], map, IfOk, OnOk, string_bytes};
ghost use Rattle.gptp_pdelay.specs.GoodLink.{ceil_div};
ghost use Rattle.gptp_words.specs.Lines.{text_of};
ghost use Rattle.gptp_accuracy.specs.AccuracyText.{accuracy_lines, accuracy_time_line, accuracy_verdict, accuracy_verdict_line, accuracy_verdict_lines, age_words, calm_words, error_is_exceeded};
ghost use Rattle.gptp_accuracy.specs.AccuracyText.{always_words, error_is_above, error_or_reading, first_above, last_error, reading_always, reads_words, steps_word, system_line, system_words};

use crate::errors::{SystemError, TimeErrors};
use crate::options::AccuracyOptions;
use gptp_vector::ClockId;
use gptp_words::{ClockDigits, IdentityDigits};
use std::alloc::AllocError;
use std::fmt;

/// A number of thousandths, shown with three decimals.
#[derive(Clone, Copy)]
pub struct Thousandths(pub u128);

impl fmt::Display for Thousandths {
    ghost use Rattle.std.specs.Prelude.{Some};
    ghost use Rattle.gptp_accuracy.specs.AccuracyText.{thousandths_text};

    ghost output = { λ number. Some (thousandths_text number.0) };

    fn fmt<W: fmt::Write>(&self, f: &mut fmt::Formatter<W>) -> fmt::Result {
        let number = self.0;
        write!(
            f,
            "{}.{}{}{}",
            number / 1000,
            number % 1000 / 100,
            number % 100 / 10,
            number % 10
        )
    }
}

/// A time error, in units of 2^-16 ns, in thousandths of a nanosecond and rounded up.
#[tactic(auto, using(crate::proofs::TextLemmas::rounded_up))]
fn thousandths_of(error: u128) -> u128
    ensures { result ≡ ceil_div (1000 * error) 65536 }
{
    error / 65_536 * 1000 + (error % 65_536 * 1000).div_ceil(65_536)
}

/// A time error, in units of 2^-16 ns, shown in ns with three decimals and rounded up; or `none`.
#[derive(Clone, Copy)]
struct ErrorInNs(Option<u128>);

impl fmt::Display for ErrorInNs {
    ghost use Rattle.std.specs.Prelude.{Some};
    ghost use Rattle.gptp_words.specs.Digits.{or_none};
    ghost use Rattle.gptp_accuracy.specs.AccuracyText.{error_text};

    ghost output = { λ error. Some (or_none error_text error.0) };

    fn fmt<W: fmt::Write>(&self, f: &mut fmt::Formatter<W>) -> fmt::Result {
        match self.0 {
            Some(error) => write!(f, "{}", Thousandths(thousandths_of(error))),
            None => f.write_str("none"),
        }
    }
}

/// The time, and from when on the errors hold.
fn write_calm(text: &mut String, time: u64, from: Option<u64>) -> Result<(), AllocError>
    ensures { OnOk result (string_bytes text.new ≡ string_bytes text.old ++ calm_words time from) }
{
    match from {
        Some(from) => write!(text, "time {time} calm yes from {from}"),
        None => write!(text, "time {time} calm no"),
    }
}

/// How old the last receipt of a system is at most, where that is told.
fn write_age(text: &mut String, always: bool, age: Option<u64>) -> Result<(), AllocError>
    ensures { OnOk result (string_bytes text.new ≡ string_bytes text.old ++ age_words always age) }
{
    if !always {
        return Ok(());
    }
    match age {
        Some(age) => write!(text, " age {age}"),
        None => write!(text, " age none"),
    }
}

/// The line of the time.
fn write_time(
    text: &mut String,
    options: AccuracyOptions,
    errors: &TimeErrors,
) -> Result<(), AllocError>
    ensures { OnOk result (string_bytes text.new ≡ string_bytes text.old
        ++ (accuracy_time_line options errors.now.time errors.now.from errors.now.age ++ 10 ∷ [])) }
{
    write_calm(text, errors.time, errors.from)?;
    write_age(text, options.always, errors.age)?;
    writeln!(text)
}

/// The word for how far a root is, by whether the system is too far to follow it.
fn steps_word(far: bool) -> &'static str
    ensures { result.now ≡ steps_word far }
{
    if far { "far" } else { "steps" }
}

/// A system, the best of its component, how far that is, and its time error.
fn write_exact(text: &mut String, system: &SystemError) -> Result<(), AllocError>
    ensures { OnOk result (string_bytes text.new ≡ string_bytes text.old ++ system_words system.now) }
{
    write!(
        text,
        "system {} root {} {} {} error {}",
        ClockDigits(system.clock),
        IdentityDigits(system.root),
        steps_word(system.far),
        system.steps,
        ErrorInNs(system.error)
    )
}

/// The error of what a system reads so long after a receipt, where it is asked for.
fn write_reads(
    text: &mut String,
    later: Option<u64>,
    system: &SystemError,
) -> Result<(), AllocError>
    ensures { OnOk result (string_bytes text.new ≡ string_bytes text.old ++ reads_words later system.now) }
{
    match later {
        Some(later) => write!(text, " reads {}", ErrorInNs(system.reading_error(later))),
        None => Ok(()),
    }
}

/// The error of what a system reads at the greatest age of its last receipt, where that is known.
fn reading_always(age: Option<u64>, system: &SystemError) -> Option<u128>
    ensures { result ≡ reading_always age system.now }
{
    system.reading_error(age?)
}

/// The error of what a system reads at the greatest age of its last receipt, where it is asked for.
fn write_always(
    text: &mut String,
    always: bool,
    age: Option<u64>,
    system: &SystemError,
) -> Result<(), AllocError>
    ensures { OnOk result (string_bytes text.new ≡ string_bytes text.old ++ always_words always age system.now) }
{
    if always {
        write!(text, " always {}", ErrorInNs(reading_always(age, system)))
    } else {
        Ok(())
    }
}

/// The line of a system.
fn write_system(
    text: &mut String,
    options: AccuracyOptions,
    age: Option<u64>,
    system: &SystemError,
) -> Result<(), AllocError>
    ensures { OnOk result
        (string_bytes text.new ≡ string_bytes text.old ++ (system_line options age system.now ++ 10 ∷ [])) }
{
    write_exact(text, system)?;
    write_reads(text, options.reads, system)?;
    write_always(text, options.always, age, system)?;
    writeln!(text)
}

/// The lines of systems.
fn write_systems(
    text: &mut String,
    options: AccuracyOptions,
    age: Option<u64>,
    systems: &[SystemError],
) -> Result<(), AllocError>
    ensures { OnOk result
        (string_bytes text.new ≡ string_bytes text.old ++ text_of (map (system_line options age) systems.now)) }
{
    for system in systems {
        write_system(text, options, age, system)?;
    }
    Ok(())
}

/// Whether an error, in units of 2^-16 ns, is above so many ns, or there is none.
fn is_above(most: u64, error: Option<u128>) -> bool
    ensures { result ≡ error_is_above most error }
{
    match error {
        Some(error) => 65_536 * u128::from(most) < error,
        None => true,
    }
}

/// The error of a system, or that of what it reads so long after a receipt.
fn error_or_reading(later: Option<u64>, system: &SystemError) -> Option<u128>
    ensures { result ≡ error_or_reading later system.now }
{
    match later {
        Some(later) => system.reading_error(later),
        None => system.error,
    }
}

/// The last error of the line of a system, of which the greatest is asked.
fn last_error(options: AccuracyOptions, age: Option<u64>, system: &SystemError) -> Option<u128>
    ensures { result ≡ last_error options age system.now }
{
    if options.always {
        reading_always(age, system)
    } else {
        error_or_reading(options.reads, system)
    }
}

/// The first system of which the last error is above so many ns, or that has none.
fn first_above(
    options: AccuracyOptions,
    age: Option<u64>,
    most: u64,
    systems: &[SystemError],
) -> Option<ClockId>
    ensures { result ≡ first_above options age most systems.now }
{
    for system in systems {
        if is_above(most, last_error(options, age, system)) {
            return Some(system.clock);
        }
    }
    None
}

/// The line of a verdict: the system that exceeds the greatest error, or none.
fn write_verdict(text: &mut String, exceeds: Option<ClockId>) -> Result<(), AllocError>
    ensures { OnOk result (string_bytes text.new ≡ string_bytes text.old ++ (accuracy_verdict_line exceeds ++ 10 ∷ [])) }
{
    match exceeds {
        Some(clock) => writeln!(text, "exceeded {}", ClockDigits(clock)),
        None => writeln!(text, "within"),
    }
}

/// The last line, where a greatest error is given; answers whether a system exceeds it.
fn write_verdict_if_asked(
    text: &mut String,
    options: AccuracyOptions,
    errors: &TimeErrors,
) -> Result<bool, AllocError>
    ensures text { OnOk result (string_bytes text.new
        ≡ string_bytes text.old ++ text_of (accuracy_verdict_lines (accuracy_verdict options errors.now))) }
    ensures exceeded { IfOk result (λ exceeded. exceeded ≡ error_is_exceeded options errors.now) }
{
    match options.max_error {
        Some(most) => {
            let exceeds = first_above(options, errors.age, most, &errors.systems);
            write_verdict(text, exceeds)?;
            Ok(exceeds.is_some())
        }
        None => Ok(false),
    }
}

/// Appends time errors: a line for the time, and one for each system, by rising clock, with its time error. Where they
/// are asked for, the line of a system also has the error of what it reads so long after a receipt, and that at every
/// moment, and the line of the time the greatest age of a receipt. Where a greatest error is given, in ns, a line says
/// whether a system has a greater one as the last of its line, or none; that is also what the call answers.
///
/// The only error is that memory ran out; what is appended then may be cut.
pub fn write_accuracy(
    text: &mut String,
    options: AccuracyOptions,
    errors: &TimeErrors,
) -> Result<bool, AllocError>
    ensures text { OnOk result
        (string_bytes text.new ≡ string_bytes text.old ++ text_of (accuracy_lines options errors.now)) }
    ensures exceeded { IfOk result (λ exceeded. exceeded ≡ error_is_exceeded options errors.now) }
{
    write_time(text, options, errors)?;
    write_systems(text, options, errors.age, &errors.systems)?;
    write_verdict_if_asked(text, options, errors)
}
