//! What becomes of a case.

ghost use Rattle.std.specs.Prelude.{◌≡◌, ◌≤◌, ◌++◌, ◌∷◌, [], IfErr, IfOk, IfSome, OnOk, false};
ghost use Rattle.gptp_setup.specs.declared.limits.TheConstants.{LAST_MOMENT};
ghost use Rattle.gptp_faults.specs.Outcomes.{IsCasePlan, IsOutcome, aside_of, back_in, down_in};
ghost use Rattle.gptp_faults.specs.Parts.{AreFew};
ghost use Rattle.gptp_faults.specs.Refusals.{case_events, is_late};
ghost use Rattle.gptp_faults.specs.Runs.{IsKept};
ghost use Rattle.gptp_faults.specs.Whole.{IsWhole};
ghost use Rattle.gptp_faults.specs.Times.{AreOptions, TimesAreBounded};

use crate::astray::astray_of;
use crate::case_events::{CaseEvents, events_of};
use crate::cases::Case;
use crate::extremes::{Extremes, joined, of_back, of_down, of_down_seen};
use crate::follows::{Follow, follows_of};
use crate::options::FaultsOptions;
use crate::parts::{CaseParts, Part, case_parts};
use crate::runs::{RunEnds, run_case, runs_of};
use crate::times::Times;
use crate::whole::Whole;
use gptp_links::PcgFate;
use gptp_network::Document;
use gptp_report::Cut;
use gptp_timeline::RunSoFar;
use gptp_vector::ClockId;
use std::alloc::{AllocError, Global};
use std::marker::Model;

/// What becomes of a case: the worst of its runs.
#[derive(Drop)]
pub(crate) struct Outcome {
    // Its number, from 0.
    number: usize,
    // What fails.
    failing: Case,
    // While it is down.
    down: Extremes,
    // When it is back.
    back: Extremes,
    // Whom systems follow where it comes back, in the first run.
    follow: Vec<Follow>,
}

impl Model for Outcome {
    ghost use Rattle.gptp_faults.specs.Outcomes.{OutcomeState};

    ghost Value = { OutcomeState };

    ghost view = { λ o. record {
      number = o.number;
      failing = o.failing;
      down = o.down;
      back = o.back;
      follow = o.follow.items;
    } };
}

impl Outcome {
    ghost use Rattle.std.specs.Prelude.{◌≡◌};

    /// A case by its number, with what becomes of it.
    fn new(
        number: usize,
        failing: Case,
        down: Extremes,
        back: Extremes,
        follow: Vec<Follow>,
    ) -> Self
        ensures { result ≡ record {
          number = number;
          failing = failing;
          down = down;
          back = back;
          follow = follow.items;
        } }
    {
        Outcome {
            number,
            failing,
            down,
            back,
            follow,
        }
    }

    /// The number of the case, from 0.
    pub(crate) fn number(&self) -> usize
        ensures { result ≡ self.now.number }
    {
        self.number
    }

    /// What fails.
    pub(crate) fn failing(&self) -> Case
        ensures { result ≡ self.now.failing }
    {
        self.failing
    }

    /// The worst of its runs while it is down.
    pub(crate) fn down(&self) -> &Extremes
        ensures { result.now ≡ self.now.down }
    {
        &self.down
    }

    /// The worst of its runs when it is back.
    pub(crate) fn back(&self) -> &Extremes
        ensures { result.now ≡ self.now.back }
    {
        &self.back
    }

    /// Whom systems follow where it comes back, in the first run.
    pub(crate) fn follow(&self) -> &[Follow]
        ensures { result.now ≡ self.now.follow }
    {
        &self.follow
    }
}

/// Puts what becomes of a case after others.
pub(crate) fn push_outcome(outcomes: &mut Vec<Outcome>, outcome: Outcome) -> Result<(), AllocError>
    ensures { OnOk result (outcomes.new.items ≡ outcomes.old.items ++ (outcome ∷ [])) }
{
    outcomes.push(outcome)?;
    Ok(())
}

/// Who is set aside where a case fails: those that are cut off, and the system that fails.
fn set_aside(alloc: Global, failing: &Case, cut: &[ClockId]) -> Result<Vec<ClockId>, AllocError>
    ensures { IfOk result (λ v. v.items ≡ aside_of failing.now cut.now) }
{
    let mut aside = Vec::from_slice(alloc, cut)?;
    if let Some(clock) = failing.system() {
        aside.push(clock)?;
    }
    Ok(aside)
}

/// What is known of a case before it is run.
#[derive(Drop)]
pub(crate) struct CasePlan {
    /// What happens in it.
    events: CaseEvents,
    /// What it leaves of the components.
    parts: CaseParts,
    /// Who is set aside.
    aside: Vec<ClockId>,
}

/// What is known of a case before it is run.
fn plan_of(
    alloc: Global,
    document: &mut Document,
    whole: &Whole,
    detect: Option<u64>,
    times: &Times,
    failing: &Case,
) -> Result<CasePlan, Cut>
    requires detect { IfSome detect (λ delay. delay ≤ LAST_MOMENT) }
    requires times { TimesAreBounded times.now }
    ensures plan { IfOk result (IsCasePlan document.old whole.now detect times.now.from failing.now) }
    ensures same { OnOk result (document.new ≡ document.old) }
    ensures memory { IfErr result (λ e. e ≡ Cut.Memory) }
{
    let events = events_of(alloc, whole.cables(), detect, failing)?;
    let parts = case_parts(alloc, document, whole.components(), &events, times.from)?;
    let aside = set_aside(alloc, failing, &parts.cut)?;
    Ok(CasePlan {
        events,
        parts,
        aside,
    })
}

/// The greatest while a case is down, in a run that ended so.
fn down_in(alloc: Global, parts: &CaseParts, ends: &RunEnds) -> Result<Extremes, AllocError>
    requires { AreFew parts.now.main.items }
    ensures { IfOk result (λ e. e ≡ down_in parts.now.cut.items parts.now.main.items ends.now) }
{
    let cut = parts.cut.len() as u64;
    let astray = astray_of(alloc, &parts.main, ends.down.keepers())?;
    match &ends.first {
        Some(first) => Ok(of_down_seen(first.stretch(), ends.down.stretch(), cut, astray)),
        None => Ok(of_down(ends.down.stretch(), cut, astray)),
    }
}

/// The greatest when a case is back, in a run that ended so.
fn back_in(alloc: Global, parts: &[Part], ends: &RunEnds) -> Result<Extremes, AllocError>
    requires { AreFew parts.now }
    ensures { IfOk result (λ e. e ≡ back_in parts.now ends.now) }
{
    let astray = astray_of(alloc, parts, ends.back.keepers())?;
    Ok(of_back(ends.back.stretch(), astray))
}

/// Lets a case fail and come back in each of its runs, and answers what becomes of it.
pub(crate) fn try_case(
    alloc: Global,
    document: &mut Document,
    whole: &Whole,
    options: &FaultsOptions,
    times: &Times,
    kept: &Option<RunSoFar<PcgFate>>,
    number: usize,
    failing: &Case,
) -> Result<Outcome, Cut>
    requires bounded { TimesAreBounded times.now }
    requires options { AreOptions options.now }
    requires whole { IsWhole document.old whole.now }
    requires kept { IsKept document.old options.now times.now kept.now }
    requires in_time { is_late document.old options.now.hold times.now (case_events document.old options.now failing.now) ≡ false }
    ensures outcome { IfOk result (IsOutcome options.now document.old times.now number failing.now) }
    ensures same { OnOk result (document.new ≡ document.old) }
    ensures memory { IfErr result (λ e. e ≡ Cut.Memory) }
{
    let plan = plan_of(alloc, document, whole, options.detect, times, failing)?;
    let first = run_case(
        alloc,
        document,
        options,
        times,
        &plan.events,
        &plan.aside,
        kept,
        0,
    )?;
    let follow = follows_of(alloc, first.down.roots())?;
    let mut down = down_in(alloc, &plan.parts, &first)?;
    let mut back = back_in(alloc, whole.parts(), &first)?;
    for run in 1..runs_of(times) {
        let next = run_case(
            alloc,
            document,
            options,
            times,
            &plan.events,
            &plan.aside,
            kept,
            run,
        )?;
        let next_down = down_in(alloc, &plan.parts, &next)?;
        let next_back = back_in(alloc, whole.parts(), &next)?;
        down = joined(&down, &next_down);
        back = joined(&back, &next_back);
    }
    Ok(Outcome::new(number, *failing, down, back, follow))
}
