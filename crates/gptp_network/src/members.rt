//! The members of a section that is an array.

ghost use Rattle.std.specs.Prelude.{◌≡◌, Ok, Err, IfOk, IfErr};
ghost use Rattle.toml.specs.View.{items_view, table_view};
ghost use Rattle.gptp_network.specs.ReadMembers.{limited_in, needed_in, section_in};

use crate::keys::Name;
use crate::place::{Place, Section};
use crate::values::array_in;
use crate::why::{Refusal, Why};
use toml::{Table, Value};

/// The members of a section, none where it is absent.
pub(crate) fn section_in(document: &Table, section: Section) -> Result<&[Value], Refusal>
    ensures members { IfOk result (λ vs. section_in section (table_view document.now) ≡ Ok (items_view vs.now)) }
    ensures refused { IfErr result (λ e. section_in section (table_view document.now) ≡ Err e) }
{
    match array_in(document, section.name()) {
        Ok(values) => Ok(values),
        Err(why) => Err(Refusal {
            place: Place::Top,
            why,
        }),
    }
}

/// The members of the systems' section, which must be there.
#[tactic(auto, using(crate::proofs::SystemSpecLemmas::count_view), unfolding(crate::specs::ReadMembers::needed_in))]
pub(crate) fn needed_in(values: &[Value]) -> Result<&[Value], Refusal>
    ensures members { IfOk result (λ vs. needed_in (items_view values.now) ≡ Ok (items_view vs.now)) }
    ensures refused { IfErr result (λ e. needed_in (items_view values.now) ≡ Err e) }
{
    if values.is_empty() {
        Err(Refusal {
            place: Place::Top,
            why: Why::Missing { key: Name::System },
        })
    } else {
        Ok(values)
    }
}

/// The members of a section, which are as many as it may have at most. Else the first of those too many is refused.
#[tactic(auto, using(crate::proofs::SystemSpecLemmas::count_view), unfolding(crate::specs::ReadMembers::limited_in))]
pub(crate) fn limited_in(section: Section, values: &[Value]) -> Result<&[Value], Refusal>
    ensures members { IfOk result (λ vs. limited_in section (items_view values.now) ≡ Ok (items_view vs.now)) }
    ensures refused { IfErr result (λ e. limited_in section (items_view values.now) ≡ Err e) }
{
    let most = section.most();
    let count = values.len();
    if most < count {
        Err(Refusal {
            place: Place::Member(section, most),
            why: Why::TooMany { count, most },
        })
    } else {
        Ok(values)
    }
}
