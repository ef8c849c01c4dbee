//! What becomes of a network where something fails and comes back.

ghost use Rattle.std.specs.Prelude.{◌≡◌, ◌≢◌, ◌+◌, ◌++◌, ◌∷◌, [], Err, IfOk, OnOk, false, length};
ghost use Rattle.std.specs.Io.KnownBytes.{Appends};
ghost use Rattle.gptp_words.specs.Lines.{text_of};
ghost use Rattle.gptp_faults.specs.Faults.{AnswersFaultsOf, IsTable};
ghost use Rattle.gptp_faults.specs.Outcomes.{AreOutcomes, is_of_part, IsOutcome, OutcomeState};
ghost use Rattle.gptp_faults.specs.Progress.{TellsCases, begun, begun_line, part_begun, part_count};
ghost use Rattle.gptp_faults.specs.Refusals.{any_late, case_events, is_late};
ghost use Rattle.gptp_faults.specs.Runs.{IsKept};
ghost use Rattle.gptp_faults.specs.Whole.{IsWhole};
ghost use Rattle.gptp_faults.specs.Times.{TimesAreBounded, AreOptions};

use crate::cases::{Case, cases_of};
use crate::options::FaultsOptions;
use crate::outcome::{Outcome, push_outcome, try_case};
use crate::ranking::rank;
use crate::refusals::{any_late, fault_before};
use crate::runs::run_so_far;
use crate::text::write_table;
use crate::times::{Times, times_of};
use crate::whole::{Whole, whole_of};
use gptp_links::PcgFate;
use gptp_network::{Document, DocumentFault};
use gptp_report::sink::Sink;
use gptp_report::{Cut, write_whole};
use gptp_timeline::RunSoFar;
use std::alloc::{AllocError, Global};

/// What is answered of a document.
#[derive(Debug, Drop)]
pub enum Answer {
    /// It would be refused with the events of some run, by this fault.
    Refused(DocumentFault),
    /// The table of its cases, and whether a limit is exceeded.
    Table { text: String, exceeded: bool },
}

/// Whether a case by its number belongs to a part of so many.
fn belongs(options: &FaultsOptions, number: usize) -> bool
    requires { AreOptions options.now }
    ensures { result ≡ is_of_part options.now.parts options.now.part number }
{
    number as u64 % options.parts + 1 == options.part
}

/// How many of so many cases belong to the part.
fn count_of(options: &FaultsOptions, count: usize) -> usize
    requires { AreOptions options.now }
    ensures { result ≡ part_count options.now count }
{
    let mut found = 0;
    for number in 0..count {
        found += usize::from(belongs(options, number));
    }
    found
}

/// Tells that a case begins, by its place among so many, from 1.
fn tell_case<P: Sink>(
    alloc: Global,
    count: usize,
    place: usize,
    progress: &mut P,
) -> Result<(), Cut>
    ensures told { OnOk result (Appends (P.written progress.old) (P.written progress.new)
        (begun_line place count ++ 10 ∷ [])) }
    ensures works { result ≢ Err Cut.Write → P.failures progress.new ≡ P.failures progress.old }
    ensures fails { result ≡ Err Cut.Write → P.failures progress.new ≢ P.failures progress.old }
{
    let mut text = String::new(alloc);
    writeln!(text, "case {place} of {count}")?;
    write_whole(progress, text.as_bytes())?;
    Ok(())
}

/// Tells that a case begins, where that is asked for.
fn tell<P: Sink>(
    alloc: Global,
    asked: bool,
    count: usize,
    place: usize,
    progress: &mut P,
) -> Result<(), Cut>
    ensures told { OnOk result (Appends (P.written progress.old) (P.written progress.new)
        (text_of (begun asked count place))) }
    ensures works { result ≢ Err Cut.Write → P.failures progress.new ≡ P.failures progress.old }
    ensures fails { result ≡ Err Cut.Write → P.failures progress.new ≢ P.failures progress.old }
{
    match asked {
        true => tell_case(alloc, count, place, progress),
        false => Ok(()),
    }
}

/// Tries a case that belongs to the part, and puts what becomes of it after those before.
fn try_next<P: Sink>(
    alloc: Global,
    document: &mut Document,
    options: &FaultsOptions,
    whole: &Whole,
    times: &Times,
    kept: &Option<RunSoFar<PcgFate>>,
    number: usize,
    failing: &Case,
    count: usize,
    outcomes: &mut Vec<Outcome>,
    progress: &mut P,
) -> Result<(), Cut>
    requires bounded { TimesAreBounded times.now }
    requires options { AreOptions options.now }
    requires whole { IsWhole document.old whole.now }
    requires kept { IsKept document.old options.now times.now kept.now }
    requires in_time { is_late document.old options.now.hold times.now (case_events document.old options.now failing.now) ≡ false }
    ensures tried { OnOk result ((o : OutcomeState) × IsOutcome options.now document.old times.now number failing.now o
        × (outcomes.new.items ≡ outcomes.old.items ++ (o ∷ []))) }
    ensures told { OnOk result (Appends (P.written progress.old) (P.written progress.new)
        (text_of (begun options.now.progress count (length outcomes.old.items + 1)))) }
    ensures same { OnOk result (document.new ≡ document.old) }
    ensures works { result ≢ Err Cut.Write → P.failures progress.new ≡ P.failures progress.old }
    ensures fails { result ≡ Err Cut.Write → P.failures progress.new ≢ P.failures progress.old }
{
    tell(alloc, options.progress, count, outcomes.len() + 1, progress)?;
    let outcome = try_case(
        alloc, document, whole, options, times, kept, number, failing,
    )?;
    push_outcome(outcomes, outcome)?;
    Ok(())
}

/// Tries all cases that belong to the part, whose runs with the first seed go on from the one that is kept, and answers
/// what becomes of them, by their numbers.
fn try_each<P: Sink>(
    alloc: Global,
    document: &mut Document,
    options: &FaultsOptions,
    whole: &Whole,
    times: &Times,
    kept: &Option<RunSoFar<PcgFate>>,
    cases: &[Case],
    progress: &mut P,
) -> Result<Vec<Outcome>, Cut>
    requires options { AreOptions options.now }
    requires bounded { TimesAreBounded times.now }
    requires whole { IsWhole document.old whole.now }
    requires kept { IsKept document.old options.now times.now kept.now }
    requires in_time { any_late document.old options.now times.now cases.now ≡ false }
    ensures outcomes { IfOk result (λ v. AreOutcomes document.old times.now options.now cases.now v.items) }
    ensures told { OnOk result (Appends (P.written progress.old) (P.written progress.new)
        (text_of (part_begun options.now (length cases.now)))) }
    ensures works { result ≢ Err Cut.Write → P.failures progress.new ≡ P.failures progress.old }
    ensures fails { result ≡ Err Cut.Write → P.failures progress.new ≢ P.failures progress.old }
{
    let count = count_of(options, cases.len());
    let mut outcomes = Vec::new(alloc);
    for number in 0..cases.len() {
        if belongs(options, number) {
            try_next(
                alloc,
                document,
                options,
                whole,
                times,
                kept,
                number,
                &cases[number],
                count,
                &mut outcomes,
                progress,
            )?;
        }
    }
    Ok(outcomes)
}

/// Tries all cases that belong to the part, and answers what becomes of them, by their numbers.
fn try_cases<P: Sink>(
    alloc: Global,
    document: &mut Document,
    options: &FaultsOptions,
    whole: &Whole,
    times: &Times,
    cases: &[Case],
    progress: &mut P,
) -> Result<Vec<Outcome>, Cut>
    requires options { AreOptions options.now }
    requires bounded { TimesAreBounded times.now }
    requires whole { IsWhole document.old whole.now }
    requires in_time { any_late document.old options.now times.now cases.now ≡ false }
    ensures outcomes { IfOk result (λ v. AreOutcomes document.old times.now options.now cases.now v.items) }
    ensures told { OnOk result (Appends (P.written progress.old) (P.written progress.new)
        (text_of (part_begun options.now (length cases.now)))) }
    ensures works { result ≢ Err Cut.Write → P.failures progress.new ≡ P.failures progress.old }
    ensures fails { result ≡ Err Cut.Write → P.failures progress.new ≢ P.failures progress.old }
{
    let count = count_of(options, cases.len());
    let kept = run_so_far(alloc, document, options, times, count)?;
    try_each(
        alloc, document, options, whole, times, &kept, cases, progress,
    )
}

/// The table of cases of which none is refused.
fn table_of<P: Sink>(
    alloc: Global,
    document: &mut Document,
    options: &FaultsOptions,
    whole: &Whole,
    times: &Times,
    cases: &[Case],
    progress: &mut P,
) -> Result<Answer, Cut>
    requires options { AreOptions options.now }
    requires bounded { TimesAreBounded times.now }
    requires whole { IsWhole document.old whole.now }
    requires in_time { any_late document.old options.now times.now cases.now ≡ false }
    ensures table { IfOk result (IsTable document.old options.now times.now cases.now) }
    ensures told { OnOk result (Appends (P.written progress.old) (P.written progress.new)
        (text_of (part_begun options.now (length cases.now)))) }
    ensures works { result ≢ Err Cut.Write → P.failures progress.new ≡ P.failures progress.old }
    ensures fails { result ≡ Err Cut.Write → P.failures progress.new ≢ P.failures progress.old }
{
    let mut outcomes = try_cases(alloc, document, options, whole, times, cases, progress)?;
    rank(&mut outcomes)?;
    let mut text = String::new(alloc);
    let exceeded = write_table(&mut text, options, times, &outcomes)?;
    Ok(Answer::Table { text, exceeded })
}

/// Lets each link in use and each live system of a document fail at several moments and come back, as far as they are
/// asked for and belong to the part that is, and answers what becomes of the network: for each case the worst of its
/// runs, the worst case first. Where that is asked for, a line `case K of N` is written to `progress` before each case,
/// of those that belong to the part the Kth of N.
///
/// Errors: [`Cut::Write`] exactly where a write to `progress` failed, after which nothing more happens; [`Cut::Memory`]
/// as the timeline of a document has it.
pub fn fail_each<P: Sink>(
    alloc: Global,
    document: &mut Document,
    options: &FaultsOptions,
    progress: &mut P,
) -> Result<Answer, Cut>
    requires { AreOptions options.now }
    ensures answer { IfOk result (AnswersFaultsOf document.old options.now) }
    ensures told { IfOk result (TellsCases document.old options.now (P.written progress.old) (P.written progress.new)) }
    ensures works { result ≢ Err Cut.Write → P.failures progress.new ≡ P.failures progress.old }
    ensures fails { result ≡ Err Cut.Write → P.failures progress.new ≢ P.failures progress.old }
{
    let cases = cases_of(alloc, document, options.only, options.power)?;
    let times = times_of(alloc, document, options)?;
    let whole = whole_of(alloc, document)?;
    let cables = whole.cables();
    if let Some(fault) = fault_before(alloc, document, cables, options, &times, &cases)? {
        return Ok(Answer::Refused(fault));
    }
    if any_late(alloc, document, cables, options, &times, &cases)? {
        return Ok(Answer::Refused(DocumentFault::OutOfRange));
    }
    table_of(alloc, document, options, &whole, &times, &cases, progress)
}
