//! The lines of what systems read.

ghost use Rattle.std.specs.Prelude.{◌≡◌, ◌++◌, ◌∷◌, [], OnOk, string_bytes};
ghost use Rattle.gptp_setup.specs.Intervals.{IsMoment};
ghost use Rattle.gptp_timeline.specs.TimeLines.{errors_words, jump_words, new_words, read_words, reading_line, reads_words, source_words, times_line};

use crate::amounts::{Near, NearOrNone, SignedOrNone, UpOrNone};
use crate::exact_reads::ExactReads;
use crate::looks::TimeMeasures;
use crate::measures::Greatest;
use crate::readings::{NewReading, jump_of};
use crate::sources::Difference;
use crate::stretch::Worst;
use gptp_accuracy::SystemError;
use gptp_links::Fate;
use gptp_words::ClockDigits;
use gptp_world::World;
use std::alloc::AllocError;
use std::fmt;

/// The sources whose times differ the most.
#[derive(Clone, Copy)]
pub struct Sources(pub Option<Difference>);

impl fmt::Display for Sources {
    ghost use Rattle.std.specs.Prelude.{Some};
    ghost use Rattle.gptp_timeline.specs.TimeLines.{sources_words};

    ghost output = { λ sources. Some (sources_words sources.0) };

    fn fmt<W: fmt::Write>(&self, f: &mut fmt::Formatter<W>) -> fmt::Result {
        match self.0 {
            Some(difference) => write!(
                f,
                " {} {}",
                ClockDigits(difference.ahead()),
                ClockDigits(difference.behind())
            ),
            None => f.write_str(" none none"),
        }
    }
}

/// How long after a time the last change of source was, with its system.
#[derive(Clone, Copy)]
struct First(u64, Option<Greatest>);

impl fmt::Display for First {
    ghost use Rattle.std.specs.Prelude.{Some};
    ghost use Rattle.gptp_timeline.specs.TimeLines.{first_words};

    ghost output = { λ first. Some (first_words first.0 first.1) };

    fn fmt<W: fmt::Write>(&self, f: &mut fmt::Formatter<W>) -> fmt::Result {
        match self.1 {
            Some(changed) => write!(
                f,
                "{} {}",
                changed.amount.saturating_sub(u128::from(self.0)),
                ClockDigits(changed.clock)
            ),
            None => f.write_str("none none"),
        }
    }
}

/// Appends how far off systems read in a stretch, and how far apart.
fn write_read(
    text: &mut String,
    from: u64,
    to: u64,
    measures: &TimeMeasures,
) -> Result<(), AllocError>
    ensures { OnOk result (string_bytes text.new
        ≡ string_bytes text.old ++ read_words from to measures.now) }
{
    write!(
        text,
        "times {from} to {to} time {} apart {}{}",
        Worst(measures.time),
        Near(measures.apart()),
        Sources(measures.sources)
    )
}

/// Appends by how much what a system reads jumped, and when a system changed its source last.
fn write_jumps(text: &mut String, from: u64, measures: &TimeMeasures) -> Result<(), AllocError>
    ensures { OnOk result (string_bytes text.new
        ≡ string_bytes text.old ++ (jump_words from measures.now ++ 10 ∷ [])) }
{
    writeln!(
        text,
        " step {} first {}",
        Worst(measures.step),
        First(from, measures.changed)
    )
}

/// Appends the line of what was measured in a stretch of what systems read.
#[tactic(auto, using(crate::proofs::LineLemmas::words_on))]
pub(crate) fn write_times(
    text: &mut String,
    from: u64,
    to: u64,
    measures: &TimeMeasures,
) -> Result<(), AllocError>
    ensures { OnOk result (string_bytes text.new
        ≡ string_bytes text.old ++ (times_line from to measures.now ++ 10 ∷ [])) }
{
    write_read(text, from, to, measures)?;
    write_jumps(text, from, measures)
}

/// Appends which system got a reading at a time, and from which source.
fn write_source(text: &mut String, at: u64, new: &NewReading) -> Result<(), AllocError>
    ensures { OnOk result (string_bytes text.new ≡ string_bytes text.old ++ source_words at new.now) }
{
    write!(
        text,
        "reading {at} {} from {}",
        ClockDigits(new.clock),
        ClockDigits(new.after.source.clock)
    )
}

/// Appends how far off the system is by the reading before and by the new one, and by how much its time jumped.
fn write_jump(
    text: &mut String,
    before: Option<i128>,
    after: Option<i128>,
    step: Option<i128>,
) -> Result<(), AllocError>
    ensures { OnOk result (string_bytes text.new
        ≡ string_bytes text.old ++ (new_words before after step ++ 10 ∷ [])) }
{
    writeln!(
        text,
        " before {} after {} step {}",
        SignedOrNone(before),
        SignedOrNone(after),
        SignedOrNone(step)
    )
}

/// Appends that of a reading that a system got.
fn write_errors_of<F: Fate + Drop>(
    text: &mut String,
    world: &World<F>,
    at: u64,
    new: &NewReading,
) -> Result<(), AllocError>
    requires { IsMoment at }
    ensures { OnOk result (string_bytes text.new
        ≡ string_bytes text.old ++ (errors_words at world.now.world_core new.now ++ 10 ∷ [])) }
{
    let jump = jump_of(world, at, new);
    write_jump(text, jump.before, jump.after, jump.step)
}

/// Appends the line of a reading that a system got.
#[tactic(auto, using(crate::proofs::LineLemmas::words_on))]
pub(crate) fn write_reading<F: Fate + Drop>(
    text: &mut String,
    world: &World<F>,
    at: u64,
    new: &NewReading,
) -> Result<(), AllocError>
    requires { IsMoment at }
    ensures { OnOk result (string_bytes text.new
        ≡ string_bytes text.old ++ (reading_line at world.now.world_core new.now ++ 10 ∷ [])) }
{
    write_source(text, at, new)?;
    write_errors_of(text, world, at, new)
}

/// Appends how far off a system read, and how far it may be.
pub(crate) fn write_reads(
    text: &mut String,
    system: &SystemError,
    reads: Option<ExactReads>,
) -> Result<(), AllocError>
    ensures { OnOk result (string_bytes text.new ≡ string_bytes text.old ++ reads_words system.now reads) }
{
    match reads {
        Some(reads) => write!(
            text,
            " reads {} bound {}",
            NearOrNone(reads.worst),
            UpOrNone(system.reading_error(reads.longest))
        ),
        None => write!(text, " reads none bound none"),
    }
}
