//! What a planner may have overlooked in a document.

ghost use Rattle.std.specs.Prelude.{◌≡◌, ◌++◌, ◌∷◌, [], IfOk, OnOk};
ghost use Rattle.std.specs.Option.{option_to_list};
ghost use Rattle.gptp_topology.specs.Course.{names_of, cable_wire};
ghost use Rattle.gptp_lint.specs.Findings.{AreFound};
ghost use Rattle.gptp_lint.specs.Trouble.{longs_of, lossies_of};

use crate::components::{Components, components_of};
use crate::trouble::{Long, Lossy, long_of, push_stretches};
use crate::unlinked::unlinked_clocks;
use gptp_network::Document;
use gptp_setup::lapse_span;
use gptp_topology::{Cable, CalmTime, cables_of, calm_times, course_of, names_of};
use gptp_vector::ClockId;
use std::alloc::{AllocError, Global};

/// What a planner may have overlooked in a document.
#[derive(Drop)]
pub struct Findings {
    /// By link.
    pub long: Vec<Long>,
    /// By link, then time.
    pub lossy: Vec<Lossy>,
    /// The systems that no link names, where there are several systems, by rising clock.
    pub(crate) unlinked: Vec<ClockId>,
    pub(crate) components: Components,
    /// Each time of the document.
    pub calm: Vec<CalmTime>,
    /// How long what the Slave port holds stays without Sync, in ns: `sync_timeout` sync intervals.
    pub limit: u64,
}

/// Puts a link that is too long after others, if it is one.
fn push_long(long: &mut Vec<Long>, found: Option<Long>) -> Result<(), AllocError>
    ensures { OnOk result (long.new.items ≡ long.old.items ++ option_to_list found) }
{
    if let Some(found) = found {
        long.push(found)?;
    }
    Ok(())
}

/// Puts what isn't good at a link after what isn't at others, where these are the systems that the events name.
fn push_troubles(
    alloc: Global,
    long: &mut Vec<Long>,
    lossy: &mut Vec<Lossy>,
    document: &Document,
    names: &[ClockId],
    cable: &Cable,
) -> Result<(), AllocError>
    requires { names.now ≡ names_of document.now.events }
    ensures long { OnOk result (long.new.items ≡ long.old.items ++ longs_of document.now (cable_wire cable.now ∷ [])) }
    ensures lossy { OnOk result
        (lossy.new.items ≡ lossy.old.items ++ lossies_of document.now (cable_wire cable.now ∷ [])) }
{
    document.well_formed();
    let course = course_of(alloc, cable, document.events(), names)?;
    push_long(long, long_of(&document.network().params(), &course))?;
    push_stretches(lossy, cable.bounds.link, &course)
}

/// What a planner may have overlooked in a document: its links in use that are too long or lose frames, systems that no
/// link names, components, and each time. There is no such link, and Sync is never late, exactly where each time is
/// calm. Refused for want of memory alone.
pub fn find(alloc: Global, document: &Document) -> Result<Findings, AllocError>
    ensures { IfOk result (AreFound document.now) }
{
    let network = document.network();
    network.well_formed();
    document.well_formed();
    let cables = cables_of(alloc, network)?;
    let names = names_of(alloc, document.events())?;
    let mut long = Vec::new(alloc);
    let mut lossy = Vec::new(alloc);
    for cable in &cables {
        push_troubles(alloc, &mut long, &mut lossy, document, &names, cable)?;
    }
    let unlinked = unlinked_clocks(alloc, network, &cables)?;
    let components = components_of(alloc, document, &cables)?;
    let calm = calm_times(alloc, document)?;
    Ok(Findings {
        long,
        lossy,
        unlinked,
        components,
        calm,
        limit: lapse_span(&network.params()),
    })
}
