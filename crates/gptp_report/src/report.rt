//! The report of a world.

ghost use Rattle.std.specs.Prelude.{◌≡◌, ◌++◌, ℕ, List, [], ◌∷◌, OnOk, Some, slice_get, string_bytes};
ghost use Rattle.gptp_model.specs.Acts.{AnySystem, AtSystem};
ghost use Rattle.gptp_model.specs.Views.{rising_clocks};
ghost use Rattle.gptp_words.specs.Lines.{text_of};
ghost use Rattle.gptp_report.specs.Report.{calm_line, calm_text, restless_line, time_line, IsChangeLine, Reports, ShowsSystems, WritesSystem};

use crate::system_lines::{write_failed, write_system};
use gptp_links::Fate;
use gptp_network::Document;
use gptp_vector::ClockId;
use gptp_world::World;
use std::alloc::AllocError;

/// The line of a last change after which a network is calm, and by when it has settled, in ns.
fn write_settling(text: &mut String, last: u64, settles: u64) -> Result<(), AllocError>
    ensures { OnOk result (string_bytes text.new ≡ string_bytes text.old ++ (calm_text last settles ++ 10 ∷ [])) }
{
    writeln!(text, "change {last} calm yes settle {settles}")
}

/// The line of the last change of a document that is calm after it.
fn write_calm(text: &mut String, document: &Document) -> Result<(), AllocError>
    ensures { OnOk result (string_bytes text.new ≡ string_bytes text.old ++ (calm_line document.now ++ 10 ∷ [])) }
{
    let last = document.last_change();
    let settles = document.settles();
    write_settling(text, last, settles)
}

/// The line of the last change of a document that isn't.
fn write_restless(text: &mut String, document: &Document) -> Result<(), AllocError>
    ensures { OnOk result (string_bytes text.new ≡ string_bytes text.old ++ (restless_line document.now ++ 10 ∷ [])) }
{
    let last = document.last_change();
    writeln!(text, "change {last} calm no")
}

/// The line of the last change of a document.
fn write_change(text: &mut String, document: &Document) -> Result<(), AllocError>
    ensures { OnOk result ((line : List ℕ) × IsChangeLine document.now line
        × (string_bytes text.new ≡ string_bytes text.old ++ (line ++ 10 ∷ []))) }
{
    match document.calm() {
        true => write_calm(text, document),
        false => write_restless(text, document),
    }
}

/// The lines of the system with a clock.
fn write_system_of<F: Fate + Drop>(
    text: &mut String,
    world: &World<F>,
    clock: ClockId,
) -> Result<(), AllocError>
    requires { AtSystem clock world.now.world_core AnySystem }
    ensures { OnOk result (WritesSystem clock world.now.world_core (string_bytes text.old) (string_bytes text.new)) }
{
    match world.system(clock) {
        Some(system) => write_system(text, clock, system),
        None => write_failed(text, clock),
    }
}

/// The lines of the system at a place by rising clock.
fn write_system_at<F: Fate + Drop>(
    text: &mut String,
    world: &World<F>,
    place: usize,
) -> Result<(), AllocError>
    ensures { OnOk result ((clock : ℕ) → slice_get (rising_clocks world.now.world_core) place ≡ Some clock
        → WritesSystem clock world.now.world_core (string_bytes text.old) (string_bytes text.new)) }
{
    match world.clock_at(place) {
        Some(clock) => write_system_of(text, world, clock),
        None => Ok(()),
    }
}

/// The lines of all systems, by rising clock.
fn write_systems<F: Fate + Drop>(text: &mut String, world: &World<F>) -> Result<(), AllocError>
    ensures { OnOk result ((lines : List (List ℕ)) × ShowsSystems (rising_clocks world.now.world_core) world.now.world_core lines
        × (string_bytes text.new ≡ string_bytes text.old ++ text_of lines)) }
{
    for place in 0..world.count() {
        write_system_at(text, world, place)?;
    }
    Ok(())
}

/// The line of the time.
fn write_time(text: &mut String, until: u64) -> Result<(), AllocError>
    ensures { OnOk result (string_bytes text.new ≡ string_bytes text.old ++ (time_line until ++ 10 ∷ [])) }
{
    writeln!(text, "time {until}")
}

/// Writes the report of a world that a document led to: its time, the last change of the whole document with the time
/// by which it settles where it is calm then, and each system with its ports, by rising clock.
pub fn write_report<F: Fate + Drop>(
    text: &mut String,
    document: &Document,
    until: u64,
    world: &World<F>,
) -> Result<(), AllocError>
    ensures { OnOk result ((lines : List (List ℕ)) × Reports document.now until world.now.world_core lines
        × (string_bytes text.new ≡ string_bytes text.old ++ text_of lines)) }
{
    write_time(text, until)?;
    write_change(text, document)?;
    write_systems(text, world)
}
