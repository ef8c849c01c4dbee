//! The runs of a case.

ghost use Rattle.std.specs.Prelude.{◌≡◌, ◌≤◌, ◌*◌, ◌<◌, IfErr, IfOk, OnOk, false};
ghost use Rattle.gptp_setup.specs.declared.limits.TheConstants.{LAST_MOMENT};
ghost use Rattle.gptp_setup.specs.Intervals.{IsMoment};
ghost use Rattle.gptp_network.specs.Adding.{with_first};
ghost use Rattle.gptp_network.specs.Document.{DocumentState, seeded_document};
ghost use Rattle.gptp_timeline.specs.LastStretches.{EndsOf};
ghost use Rattle.gptp_faults.specs.Options.{tracks};
ghost use Rattle.gptp_faults.specs.Refusals.{is_late};
ghost use Rattle.gptp_faults.specs.Runs.{AreRunEnds, CaseRunEnds, draws, generator, go_on, IsKept, run_moment, runs_of, seed_of};
ghost use Rattle.gptp_faults.specs.Times.{AreOptions, TimesAreBounded, last_moment};

use crate::case_events::CaseEvents;
use crate::options::FaultsOptions;
use crate::stays::{behind_of, fail_at, hold_of, return_after};
use crate::times::{Times, moment};
use gptp_links::PcgFate;
use gptp_network::Document;
use gptp_report::Cut;
use gptp_timeline::{LastStretches, RunSoFar, SetAside, StretchEnd, last_stretches};
use gptp_vector::ClockId;
use std::alloc::Global;

/// In how many runs each case is tried.
pub(crate) fn runs_of(times: &Times) -> u64
    requires { TimesAreBounded times.now }
    ensures is { result ≡ runs_of times.now }
    ensures some { 0 < result }
{
    times.moments * times.seeds
}

/// The moment of a run, in ns.
fn moment_of(times: &Times, run: u64) -> u64
    requires bounded { TimesAreBounded times.now }
    requires run { run < runs_of times.now }
    ensures is { result ≡ run_moment times.now run }
    ensures last { result ≤ last_moment times.now }
    ensures bound { result ≤ 2 * LAST_MOMENT }
{
    moment(times, run / times.seeds)
}

/// The seed of a run.
fn seed_of(times: &Times, run: u64) -> u64
    requires { TimesAreBounded times.now }
    ensures { result ≡ seed_of times.now run }
{
    run % times.seeds + 1
}

/// How the stretches of a run ended in which a case was down and was back.
#[derive(Drop)]
pub(crate) struct RunEnds {
    /// That until it was seen that the case failed, where it is seen later than at once.
    pub first: Option<StretchEnd>,
    /// That until the return.
    pub down: StretchEnd,
    /// That behind it.
    pub back: StretchEnd,
}

/// They, by how the last stretches ended.
fn ends_of(seen: bool, ends: LastStretches) -> Result<RunEnds, Cut>
    ensures ends { IfOk result (λ r. AreRunEnds seen ends r) }
    ensures memory { IfErr result (λ e. e ≡ Cut.Memory) }
{
    match (seen, ends.earlier, ends.before, ends.last) {
        (false, _, Some(down), Some(back)) => Ok(RunEnds {
            first: None,
            down,
            back,
        }),
        (true, Some(first), Some(down), Some(back)) => Ok(RunEnds {
            first: Some(first),
            down,
            back,
        }),
        // events after time 0 begin them
        _ => Err(Cut::Memory),
    }
}

/// The run of a document with the first seed up to the first moment, from which its runs with that seed go on; none
/// where there are no cases to try, or an event isn't before that moment.
pub(crate) fn run_so_far(
    alloc: Global,
    document: &mut Document,
    options: &FaultsOptions,
    times: &Times,
    cases: usize,
) -> Result<Option<RunSoFar<PcgFate>>, Cut>
    requires { TimesAreBounded times.now }
    ensures run { IfOk result (IsKept document.old options.now times.now) }
    ensures same { OnOk result (document.new ≡ document.old) }
    ensures memory { IfErr result (λ e. e ≡ Cut.Memory) }
{
    if cases == 0 || document.last_change() >= times.from {
        return Ok(None);
    }
    let before = document.network().seed();
    document.set_seed(1);
    let fate = PcgFate::new(1);
    let run = RunSoFar::new(alloc, document, fate, times.from, options.tracks())?;
    document.set_seed(before);
    Ok(Some(run))
}

/// Whether the events of a document behind the first so many come from a time on up to an end, not all of them at one
/// time.
fn go_on(document: &Document, count: usize, from: u64, until: u64) -> bool
    ensures { result ≡ go_on from until count document.now.events }
{
    let last = document.last_change();
    match document.events().get(count) {
        Some(first) => from <= first.at && first.at < last && last <= until,
        None => false,
    }
}

/// How the last stretches of a run with a seed end, up to an end, of which some systems are set aside: of a document
/// with so many events and those of a case. It goes on from the run that is kept, where that can be.
fn run_ends(
    alloc: Global,
    document: &Document,
    options: &FaultsOptions,
    times: &Times,
    kept: &Option<RunSoFar<PcgFate>>,
    count: usize,
    seed: u64,
    end: u64,
    aside: SetAside,
) -> Result<LastStretches, Cut>
    requires moment { IsMoment end }
    requires kept { (d : DocumentState) × IsKept d options.now times.now kept.now
        × (with_first count document.now ≡ seeded_document seed d) × (times.now.from ≤ aside.from) }
    ensures ends { IfOk result (EndsOf draws (tracks options.now) aside document.now end (generator seed)) }
    ensures memory { IfErr result (λ e. e ≡ Cut.Memory) }
{
    document.well_formed();
    match kept {
        Some(run) if seed == 1 && go_on(document, count, times.from, end) => {
            run.last_stretches(alloc, document, end, aside)
        }
        _ => last_stretches(
            alloc,
            document,
            PcgFate::new(seed),
            end,
            options.tracks(),
            aside,
        ),
    }
}

/// Lets a case fail and come back in a run, whose systems draw noise from its seed too, and answers how the stretches
/// ended in which it was down and was back: also what systems read in them, where that is asked, but those that are set
/// aside.
pub(crate) fn run_case(
    alloc: Global,
    document: &mut Document,
    options: &FaultsOptions,
    times: &Times,
    events: &CaseEvents,
    aside: &[ClockId],
    kept: &Option<RunSoFar<PcgFate>>,
    run: u64,
) -> Result<RunEnds, Cut>
    requires bounded { TimesAreBounded times.now }
    requires run { run < runs_of times.now }
    requires options { AreOptions options.now }
    requires kept { IsKept document.old options.now times.now kept.now }
    requires in_time { is_late document.old options.now.hold times.now events.now ≡ false }
    ensures run { IfOk result (CaseRunEnds options.now document.old times.now events.now aside.now run) }
    ensures same { OnOk result (document.new ≡ document.old) }
    ensures memory { IfErr result (λ e. e ≡ Cut.Memory) }
{
    let down = moment_of(times, run);
    let hold = hold_of(alloc, document, options.hold, events, down)?;
    let behind = behind_of(alloc, document, options.hold, events, down, hold)?;
    let back = down + events.delay() + hold;
    let count = document.events().len();
    fail_at(document, down, events)?;
    return_after(document, down, events, hold)?;
    let before = document.network().seed();
    let drawn = seed_of(times, run);
    document.set_seed(drawn);
    let aside = SetAside::new(Vec::from_slice(alloc, aside)?, down, back);
    let ends = run_ends(
        alloc,
        document,
        options,
        times,
        kept,
        count,
        drawn,
        back + behind,
        aside,
    )?;
    document.set_seed(before);
    document.truncate(count);
    ends_of(!events.seen().is_empty(), ends)
}
