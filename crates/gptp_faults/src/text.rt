//! The lines of cases.

ghost use Rattle.std.specs.Prelude.{◌≡◌, ◌++◌, ◌∷◌, [], IfOk, OnOk, map, string_bytes};
ghost use Rattle.std.specs.List.{flat_map};
ghost use Rattle.gptp_words.specs.Lines.{text_of};
ghost use Rattle.gptp_timeline.specs.Limits.{first_exceeded};
ghost use Rattle.gptp_faults.specs.FaultsText.{amounts_words, case_line, choice_bound, counts_words, exceeded_by, exceeds_limit, extremes_line, extremes_lines, follow_line, head_line, outcome_lines, table_lines, worst_amount, worst_exceeds, worst_line, worst_lines, worst_of_all, worst_words};

use crate::cases::Case;
use crate::extremes::{Extremes, HowSoon, OF_NONE, joined};
use crate::follows::Follow;
use crate::options::FaultsOptions;
use crate::outcome::Outcome;
use crate::ranking::amount_or_0;
use crate::time_text::{write_times, write_worst_times};
use crate::times::Times;
use gptp_timeline::{Counts, Limit, Limits, Longest, Near, Worst, amount_of, write_first_exceeded};
use gptp_vector::PortId;
use gptp_words::{ClockDigits, IdentityDigits};
use std::alloc::AllocError;
use std::fmt;

/// A port, by its clock and its number.
#[derive(Clone, Copy)]
struct PortText(PortId);

impl fmt::Display for PortText {
    ghost use Rattle.std.specs.Prelude.{Some};
    ghost use Rattle.gptp_faults.specs.FaultsText.{case_port_text};

    ghost output = { λ port. Some (case_port_text port.0) };

    fn fmt<W: fmt::Write>(&self, f: &mut fmt::Formatter<W>) -> fmt::Result {
        write!(f, "{} {}", ClockDigits(self.0.clock), self.0.port)
    }
}

/// What fails.
#[derive(Clone, Copy)]
struct CaseText(Case);

impl fmt::Display for CaseText {
    ghost use Rattle.std.specs.Prelude.{Some};
    ghost use Rattle.gptp_faults.specs.FaultsText.{case_text};

    ghost output = { λ failing. Some (case_text failing.0) };

    fn fmt<W: fmt::Write>(&self, f: &mut fmt::Formatter<W>) -> fmt::Result {
        match self.0 {
            Case::Link { a, b } => write!(f, "link {} {}", PortText(a), PortText(b)),
            Case::System { clock } => write!(f, "system {}", ClockDigits(clock)),
            Case::Power { clock } => write!(f, "power {}", ClockDigits(clock)),
        }
    }
}

/// An amount that may be absent.
#[derive(Clone, Copy)]
pub(crate) struct AmountOrNone(pub Option<u128>);

impl fmt::Display for AmountOrNone {
    ghost use Rattle.std.specs.Prelude.{Some};
    ghost use Rattle.std.specs.Fmt.{decimal};
    ghost use Rattle.gptp_words.specs.Digits.{or_none};

    ghost output = { λ amount. Some (or_none decimal amount.0) };

    fn fmt<W: fmt::Write>(&self, f: &mut fmt::Formatter<W>) -> fmt::Result {
        match self.0 {
            Some(amount) => write!(f, "{amount}"),
            None => f.write_str("none"),
        }
    }
}

/// What was counted.
#[derive(Clone, Copy)]
struct CountsText(Counts);

impl fmt::Display for CountsText {
    ghost use Rattle.std.specs.Prelude.{Some};
    ghost use Rattle.gptp_faults.specs.FaultsText.{counts_text};

    ghost output = { λ counts. Some (counts_text counts.0) };

    fn fmt<W: fmt::Write>(&self, f: &mut fmt::Formatter<W>) -> fmt::Result {
        let counts = self.0;
        write!(
            f,
            " without {} roots {} alone {}",
            counts.without, counts.roots, counts.alone
        )
    }
}

/// How soon the choice and the roles stand at most.
#[derive(Clone, Copy)]
struct BoundsText(Option<HowSoon>);

impl fmt::Display for BoundsText {
    ghost use Rattle.std.specs.Prelude.{Some};
    ghost use Rattle.gptp_faults.specs.FaultsText.{bounds_text};

    ghost output = { λ bounds. Some (bounds_text bounds.0) };

    fn fmt<W: fmt::Write>(&self, f: &mut fmt::Formatter<W>) -> fmt::Result {
        match self.0 {
            Some(bounds) => write!(f, " bound {} {}", bounds.choice, bounds.roles),
            None => f.write_str(" bound none none"),
        }
    }
}

/// Appends the line of how many cases there are.
fn write_head(text: &mut String, count: usize, times: &Times) -> Result<(), AllocError>
    ensures { OnOk result (string_bytes text.new ≡ string_bytes text.old ++ (head_line count times.now ++ 10 ∷ [])) }
{
    writeln!(
        text,
        "cases {count} moments {} seeds {} from {}",
        times.moments, times.seeds, times.from
    )
}

/// Appends the line of a case.
fn write_case(text: &mut String, number: usize, failing: Case) -> Result<(), AllocError>
    ensures { OnOk result (string_bytes text.new ≡ string_bytes text.old ++ (case_line number failing ++ 10 ∷ [])) }
{
    writeln!(text, "case {number} {}", CaseText(failing))
}

/// Appends how long the choice took, the longest wait and the greatest error.
fn write_amounts(text: &mut String, word: &str, extremes: &Extremes) -> Result<(), AllocError>
    ensures { OnOk result (string_bytes text.new ≡ string_bytes text.old ++ amounts_words word.now extremes.now) }
{
    write!(
        text,
        "{word} choice {} holdover {} error {}",
        AmountOrNone(extremes.choice),
        Longest(extremes.holdover),
        Worst(extremes.error)
    )
}

/// Appends what was counted, who is cut off and astray, and how soon the choice and the roles stand at most.
fn write_counts(text: &mut String, extremes: &Extremes) -> Result<(), AllocError>
    ensures { OnOk result (string_bytes text.new
        ≡ string_bytes text.old ++ (counts_words extremes.now ++ 10 ∷ [])) }
{
    writeln!(
        text,
        "{} cut {} astray {}{}",
        CountsText(extremes.counts),
        extremes.cut,
        extremes.astray,
        BoundsText(extremes.bounds)
    )
}

/// Appends the line of the greatest of all runs.
fn write_extremes(text: &mut String, word: &str, extremes: &Extremes) -> Result<(), AllocError>
    ensures { OnOk result (string_bytes text.new
        ≡ string_bytes text.old ++ (extremes_line word.now extremes.now ++ 10 ∷ [])) }
{
    write_amounts(text, word, extremes)?;
    write_counts(text, extremes)
}

/// Appends that line, and behind it that of what systems read, where it is asked for.
fn write_all_extremes(
    text: &mut String,
    asked: bool,
    word: &str,
    extremes: &Extremes,
) -> Result<(), AllocError>
    ensures { OnOk result (string_bytes text.new
        ≡ string_bytes text.old ++ text_of (extremes_lines asked word.now extremes.now)) }
{
    write_extremes(text, word, extremes)?;
    write_times(text, asked, word, &extremes.times)
}

/// Appends the line of how many systems follow a root.
fn write_follow(text: &mut String, follow: &Follow) -> Result<(), AllocError>
    ensures { OnOk result (string_bytes text.new ≡ string_bytes text.old ++ (follow_line follow.now ++ 10 ∷ [])) }
{
    writeln!(
        text,
        "follow {} {}",
        IdentityDigits(follow.root),
        follow.systems
    )
}

/// Appends the lines of all of them.
fn write_follows(text: &mut String, follows: &[Follow]) -> Result<(), AllocError>
    ensures { OnOk result (string_bytes text.new ≡ string_bytes text.old ++ text_of (map follow_line follows.now)) }
{
    for follow in follows {
        write_follow(text, follow)?;
    }
    Ok(())
}

/// Appends the lines of a case.
fn write_outcome(text: &mut String, asked: bool, outcome: &Outcome) -> Result<(), AllocError>
    ensures { OnOk result (string_bytes text.new
        ≡ string_bytes text.old ++ text_of (outcome_lines asked outcome.now)) }
{
    write_case(text, outcome.number(), outcome.failing())?;
    write_all_extremes(text, asked, "down", outcome.down())?;
    write_follows(text, outcome.follow())?;
    write_all_extremes(text, asked, "back", outcome.back())
}

/// Appends the lines of all cases.
fn write_outcomes(text: &mut String, asked: bool, outcomes: &[Outcome]) -> Result<(), AllocError>
    ensures { OnOk result (string_bytes text.new
        ≡ string_bytes text.old ++ text_of (flat_map (outcome_lines asked) outcomes.now)) }
{
    for outcome in outcomes {
        write_outcome(text, asked, outcome)?;
    }
    Ok(())
}

/// The greatest of all cases.
fn worst_of_all(outcomes: &[Outcome]) -> Extremes
    ensures { result ≡ worst_of_all outcomes.now }
{
    let mut worst = OF_NONE;
    for outcome in outcomes {
        worst = joined(&joined(&worst, outcome.down()), outcome.back());
    }
    worst
}

/// Appends the amounts of the greatest of all.
fn write_worst_amounts(
    text: &mut String,
    choice: Option<u128>,
    holdover: u128,
    error: u128,
) -> Result<(), AllocError>
    ensures { OnOk result (string_bytes text.new ≡ string_bytes text.old ++ worst_words choice holdover error) }
{
    write!(
        text,
        "worst choice {} holdover {holdover} error {}",
        AmountOrNone(choice),
        Near(error)
    )
}

/// Appends the line of the greatest of all.
fn write_worst(text: &mut String, worst: &Extremes) -> Result<(), AllocError>
    ensures { OnOk result (string_bytes text.new ≡ string_bytes text.old ++ (worst_line worst.now ++ 10 ∷ [])) }
{
    let holdover = amount_or_0(amount_of(worst.holdover));
    let error = amount_or_0(amount_of(worst.error));
    write_worst_amounts(text, worst.choice, holdover, error)?;
    write_counts(text, worst)
}

/// Appends that line, and behind it that of what systems read, where it is asked for.
fn write_all_worst(text: &mut String, asked: bool, worst: &Extremes) -> Result<(), AllocError>
    ensures { OnOk result (string_bytes text.new
        ≡ string_bytes text.old ++ text_of (worst_lines asked worst.now)) }
{
    write_worst(text, worst)?;
    write_worst_times(text, asked, "worst", &worst.times)
}

/// How soon the choice stands at most, in ns.
fn choice_bound(bounds: Option<HowSoon>) -> Option<u128>
    ensures { result ≡ choice_bound bounds }
{
    match bounds {
        Some(bounds) => Some(bounds.choice),
        None => None,
    }
}

/// The amount that a limit asks for in the greatest of all: times in ns, errors and what systems read in units of
/// 2^-16 ns.
fn worst_amount(worst: &Extremes, limit: Limit) -> Option<u128>
    ensures { result ≡ worst_amount worst.now limit }
{
    match limit {
        Limit::Choice => worst.choice,
        Limit::Holdover => amount_of(worst.holdover),
        Limit::Error => amount_of(worst.error),
        Limit::Without => Some(u128::from(worst.counts.without)),
        Limit::Roots => Some(u128::from(worst.counts.roots)),
        Limit::Alone => Some(u128::from(worst.counts.alone)),
        Limit::Cut => Some(u128::from(worst.cut)),
        Limit::Astray => Some(u128::from(worst.astray)),
        Limit::Bound => choice_bound(worst.bounds),
        Limit::Time => amount_of(worst.times.time),
        Limit::Apart => Some(worst.times.apart.amount),
        Limit::Step => amount_of(worst.times.step),
        Limit::First => worst.times.first_asked,
    }
}

/// The first of several limits that it exceeds.
fn first_exceeded(limits: &Limits, worst: &Extremes, among: &[Limit]) -> Option<Limit>
    ensures { result ≡ first_exceeded (worst_exceeds limits.now worst.now) among.now }
{
    for limit in among {
        if limits.exceeds(*limit, worst_amount(worst, *limit)) {
            return Some(*limit);
        }
    }
    None
}

/// The first limit that it exceeds.
fn exceeded_by(limits: &Limits, worst: &Extremes) -> Option<Limit>
    ensures { result ≡ exceeded_by limits.now worst.now }
{
    first_exceeded(limits, worst, &Limit::ALL)
}

/// Appends the table of cases in the order in which they are told, and answers whether a limit is exceeded.
pub(crate) fn write_table(
    text: &mut String,
    options: &FaultsOptions,
    times: &Times,
    outcomes: &[Outcome],
) -> Result<bool, AllocError>
    ensures text { OnOk result (string_bytes text.new
        ≡ string_bytes text.old ++ text_of (table_lines options.now times.now outcomes.now)) }
    ensures exceeded { IfOk result (λ exceeded. exceeded ≡ exceeds_limit options.now.limits outcomes.now) }
{
    let worst = worst_of_all(outcomes);
    write_head(text, outcomes.len(), times)?;
    write_outcomes(text, options.times, outcomes)?;
    write_all_worst(text, options.times, &worst)?;
    write_first_exceeded(text, exceeded_by(&options.limits, &worst))
}
