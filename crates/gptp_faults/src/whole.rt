//! The network of a document after all its events.

ghost use Rattle.std.specs.Prelude.{IfErr, IfOk, ◌≡◌};
ghost use Rattle.gptp_faults.specs.Whole.{IsWhole};

use crate::cables::cables_after;
use crate::parts::{Components, Part, whole_parts};
use gptp_network::Document;
use gptp_report::Cut;
use gptp_topology::Cable;
use std::alloc::Global;
use std::marker::Model;

/// How the network of a document stands after all its events.
#[derive(Drop)]
pub(crate) struct Whole {
    // Its links.
    cables: Vec<Cable>,
    // Its components.
    components: Components,
    // Their systems.
    parts: Vec<Part>,
}

impl Model for Whole {
    ghost use Rattle.gptp_faults.specs.Whole.{WholeState, IsSound, whole_record};

    ghost Value = { WholeState };

    ghost view = { λ w. whole_record w.cables.items w.components w.parts.items };

    ghost invariant = { λ w. IsSound (whole_record w.cables.items w.components w.parts.items) };
}

impl Whole {
    ghost use Rattle.std.specs.Prelude.{◌≡◌};
    ghost use Rattle.std.specs.List.{AllByRecursion};
    ghost use Rattle.gptp_faults.specs.Cables.{HasBounds};
    ghost use Rattle.gptp_faults.specs.Parts.{AreFew};

    /// Its links.
    pub(crate) fn cables(&self) -> &[Cable]
        ensures are { result.now ≡ self.now.cables }
        ensures bounds { AllByRecursion HasBounds result.now }
    {
        &self.cables
    }

    /// Its components.
    pub(crate) fn components(&self) -> &Components
        ensures { result.now ≡ self.now.snapshot }
    {
        &self.components
    }

    /// The systems of its components.
    pub(crate) fn parts(&self) -> &[Part]
        ensures are { result.now ≡ self.now.parts }
        ensures few { AreFew result.now }
    {
        &self.parts
    }
}

/// How the network of a document stands.
pub(crate) fn whole_of(alloc: Global, document: &Document) -> Result<Whole, Cut>
    ensures whole { IfOk result (IsWhole document.now) }
    ensures memory { IfErr result (λ e. e ≡ Cut.Memory) }
{
    let cables = cables_after(alloc, document)?;
    let components = Components::of(alloc, document)?;
    let parts = whole_parts(alloc, &components)?;
    Ok(Whole {
        cables,
        components,
        parts,
    })
}
