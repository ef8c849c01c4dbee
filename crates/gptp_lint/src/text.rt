//! Findings as text.

ghost use Rattle.std.specs.Prelude.{◌≡◌, ◌++◌, ◌∷◌, [], IfOk, OnOk, map, option_map, slice_get, string_bytes};
ghost use Rattle.std.specs.List.{flat_map};
ghost use Rattle.gptp_words.specs.Lines.{text_of};
ghost use Rattle.gptp_lint.specs.LintText.{AppendsFindings, apart_line, calm_time_line, chance_line, late_line, late_lines, long_line, lossy_line, nobody_line, other_lines, unlinked_line};
ghost use Rattle.toml.specs.View.{table_view};
ghost use Rattle.gptp_lint.specs.Outline.{outline_state};
ghost use Rattle.gptp_lint.specs.UnreadKeys.{AppendsUnread, unread_of};

use crate::components::{Apart, Nobody};
use crate::findings::Findings;
use crate::outline::Outline;
use crate::place::LineWords;
use crate::source::Source;
use crate::trouble::{Long, Lossy};
use crate::unknown::write_unknown_keys;
use gptp_topology::CalmTime;
use gptp_vector::{ClockId, Identity};
use gptp_words::{ClockDigits, IdentityDigits};
use std::alloc::{AllocError, Global};
use std::fmt;

/// A time that may be absent, shown in decimal or as `none`.
#[derive(Clone, Copy)]
struct TimeOrNone(Option<u64>);

impl fmt::Display for TimeOrNone {
    ghost use Rattle.std.specs.Prelude.{Some};
    ghost use Rattle.std.specs.Fmt.{decimal};
    ghost use Rattle.gptp_words.specs.Digits.{or_none};

    ghost output = { λ time. Some (or_none decimal time.0) };

    fn fmt<W: fmt::Write>(&self, f: &mut fmt::Formatter<W>) -> fmt::Result {
        match self.0 {
            Some(time) => write!(f, "{time}"),
            None => f.write_str("none"),
        }
    }
}

/// Appends the line of a link that isn't good at some time.
fn write_long(
    text: &mut String,
    threshold: u64,
    line: Option<usize>,
    long: &Long,
) -> Result<(), AllocError>
    ensures { OnOk result (string_bytes text.new ≡ string_bytes text.old
        ++ (long_line threshold line long.now ++ 10 ∷ [])) }
{
    writeln!(
        text,
        "long link {}{} max {} needs {} threshold {threshold} at {}",
        long.link,
        LineWords(line),
        long.max,
        long.needs,
        long.at
    )
}

/// Appends the lines of links that aren't good at some time.
fn write_longs(
    text: &mut String,
    threshold: u64,
    outline: &Outline,
    longs: &[Long],
) -> Result<(), AllocError>
    ensures { OnOk result (string_bytes text.new ≡ string_bytes text.old
        ++ text_of (map (λ (l : Long). long_line threshold (slice_get outline.now.links.items l.link) l) longs.now)) }
{
    for long in longs {
        write_long(text, threshold, outline.link_line(long.link), long)?;
    }
    Ok(())
}

/// Appends the line of a stretch at which a link loses frames.
fn write_lossy(text: &mut String, line: Option<usize>, lossy: &Lossy) -> Result<(), AllocError>
    ensures { OnOk result (string_bytes text.new ≡ string_bytes text.old ++ (lossy_line line lossy.now ++ 10 ∷ [])) }
{
    writeln!(
        text,
        "lossy link {}{} loss {} from {} to {}",
        lossy.link,
        LineWords(line),
        lossy.loss,
        lossy.from,
        TimeOrNone(lossy.to)
    )
}

/// Appends the line of a stretch, with the line of its link's header.
fn write_stretch(text: &mut String, outline: &Outline, lossy: &Lossy) -> Result<(), AllocError>
    ensures { OnOk result (string_bytes text.new ≡ string_bytes text.old
        ++ (lossy_line (slice_get outline.now.links.items lossy.now.link) lossy.now ++ 10 ∷ [])) }
{
    write_lossy(text, outline.link_line(lossy.link), lossy)
}

/// Appends the lines of stretches at which links lose frames.
fn write_stretches(
    text: &mut String,
    outline: &Outline,
    stretches: &[Lossy],
) -> Result<(), AllocError>
    ensures { OnOk result (string_bytes text.new ≡ string_bytes text.old
        ++ text_of (map (λ (l : Lossy). lossy_line (slice_get outline.now.links.items l.link) l) stretches.now)) }
{
    for lossy in stretches {
        write_stretch(text, outline, lossy)?;
    }
    Ok(())
}

/// Appends the line of a time at which Sync is late.
fn write_late_line(text: &mut String, limit: u64, at: u64, needs: u64) -> Result<(), AllocError>
    ensures { OnOk result (string_bytes text.new ≡ string_bytes text.old ++ (late_line limit at needs ++ 10 ∷ [])) }
{
    writeln!(text, "late {at} needs {needs} limit {limit}")
}

/// Appends the line of a time, where Sync is late then.
fn write_late(text: &mut String, limit: u64, time: &CalmTime) -> Result<(), AllocError>
    ensures { OnOk result (string_bytes text.new ≡ string_bytes text.old ++ text_of (late_lines limit time.now)) }
{
    match time.needs {
        Some(needs) => write_late_line(text, limit, time.at, needs),
        None => Ok(()),
    }
}

/// Appends the lines of times at which Sync is late.
fn write_lates(text: &mut String, limit: u64, times: &[CalmTime]) -> Result<(), AllocError>
    ensures { OnOk result (string_bytes text.new ≡ string_bytes text.old
        ++ text_of (flat_map (late_lines limit) times.now)) }
{
    for time in times {
        write_late(text, limit, time)?;
    }
    Ok(())
}

/// Appends the line of a system that no link names.
fn write_unlinked_line(text: &mut String, clock: ClockId) -> Result<(), AllocError>
    ensures { OnOk result (string_bytes text.new ≡ string_bytes text.old ++ (unlinked_line clock ++ 10 ∷ [])) }
{
    writeln!(text, "unlinked {}", ClockDigits(clock))
}

/// Appends the lines of systems that no link names.
fn write_unlinked(text: &mut String, clocks: &[ClockId]) -> Result<(), AllocError>
    ensures { OnOk result (string_bytes text.new ≡ string_bytes text.old ++ text_of (map unlinked_line clocks.now)) }
{
    for clock in clocks {
        write_unlinked_line(text, *clock)?;
    }
    Ok(())
}

/// Appends the line of a time after which there are several components.
fn write_apart_line(text: &mut String, apart: &Apart) -> Result<(), AllocError>
    ensures { OnOk result (string_bytes text.new ≡ string_bytes text.old ++ (apart_line apart.now ++ 10 ∷ [])) }
{
    writeln!(text, "apart {} components {}", apart.at, apart.components)
}

/// Appends the lines of times after which there are several components.
fn write_apart(text: &mut String, times: &[Apart]) -> Result<(), AllocError>
    ensures { OnOk result (string_bytes text.new ≡ string_bytes text.old ++ text_of (map apart_line times.now)) }
{
    for time in times {
        write_apart_line(text, time)?;
    }
    Ok(())
}

/// Appends the line of two systems between which a clock decides.
fn write_chance_line(text: &mut String, two: &(Identity, Identity)) -> Result<(), AllocError>
    ensures { OnOk result (string_bytes text.new ≡ string_bytes text.old ++ (chance_line two.now ++ 10 ∷ [])) }
{
    let (one, other) = *two;
    writeln!(
        text,
        "chance {} {}",
        IdentityDigits(one),
        IdentityDigits(other)
    )
}

/// Appends the lines of systems between which a clock decides.
fn write_chance(text: &mut String, pairs: &[(Identity, Identity)]) -> Result<(), AllocError>
    ensures { OnOk result (string_bytes text.new ≡ string_bytes text.old ++ text_of (map chance_line pairs.now)) }
{
    for two in pairs {
        write_chance_line(text, two)?;
    }
    Ok(())
}

/// Appends the line of a best that can't be grandmaster.
fn write_nobody_line(text: &mut String, nobody: &Nobody) -> Result<(), AllocError>
    ensures { OnOk result (string_bytes text.new ≡ string_bytes text.old ++ (nobody_line nobody.now ++ 10 ∷ [])) }
{
    writeln!(text, "nobody {} {}", nobody.at, IdentityDigits(nobody.best))
}

/// Appends the lines of bests that can't be grandmaster.
fn write_nobody(text: &mut String, times: &[Nobody]) -> Result<(), AllocError>
    ensures { OnOk result (string_bytes text.new ≡ string_bytes text.old ++ text_of (map nobody_line times.now)) }
{
    for time in times {
        write_nobody_line(text, time)?;
    }
    Ok(())
}

/// Appends the lines of what isn't asked of single links or times.
fn write_others(text: &mut String, findings: &Findings) -> Result<(), AllocError>
    ensures { OnOk result (string_bytes text.new ≡ string_bytes text.old ++ text_of (other_lines findings.now)) }
{
    write_unlinked(text, &findings.unlinked)?;
    write_apart(text, &findings.components.apart)?;
    write_chance(text, &findings.components.chance)?;
    write_nobody(text, &findings.components.nobody)
}

/// Appends the line of a time.
fn write_calm_time(text: &mut String, time: &CalmTime) -> Result<(), AllocError>
    ensures { OnOk result (string_bytes text.new ≡ string_bytes text.old ++ (calm_time_line time.now ++ 10 ∷ [])) }
{
    match time.bound {
        Some(bound) => writeln!(text, "calm {} yes bound {bound}", time.at),
        None => writeln!(text, "calm {} no", time.at),
    }
}

/// Appends the lines of times.
fn write_calm_times(text: &mut String, times: &[CalmTime]) -> Result<(), AllocError>
    ensures { OnOk result (string_bytes text.new ≡ string_bytes text.old ++ text_of (map calm_time_line times.now)) }
{
    for time in times {
        write_calm_time(text, time)?;
    }
    Ok(())
}

/// Appends the lines of the keys of a text that aren't read.
fn write_unread(alloc: Global, text: &mut String, source: &Source) -> Result<(), AllocError>
    ensures { OnOk result (AppendsUnread (option_map table_view source.now.document)
        (outline_state source.now.outline)
        (unread_of (option_map table_view source.now.document) (outline_state source.now.outline))
        (string_bytes text.old) (string_bytes text.new)) }
{
    match &source.document {
        Some(document) => write_unknown_keys(alloc, text, document, &source.outline),
        None => Ok(()),
    }
}

/// Appends the findings of a document, which a text spells and whose links have this threshold, in ns; answers whether
/// there is one but on calm.
pub fn write_findings(
    alloc: Global,
    text: &mut String,
    input: &[u8],
    threshold: u64,
    findings: &Findings,
) -> Result<bool, AllocError>
    ensures { IfOk result (AppendsFindings input.now threshold findings.now
        (string_bytes text.old) (string_bytes text.new)) }
{
    let before = text.as_bytes().len();
    let source = Source::read(alloc, input)?;
    write_unread(alloc, text, &source)?;
    write_longs(text, threshold, &source.outline, &findings.long)?;
    write_stretches(text, &source.outline, &findings.lossy)?;
    write_lates(text, findings.limit, &findings.calm)?;
    write_others(text, findings)?;
    let found = before < text.as_bytes().len();
    write_calm_times(text, &findings.calm)?;
    Ok(found)
}
