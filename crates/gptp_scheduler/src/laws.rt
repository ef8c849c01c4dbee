//! Where an entry stands in the wheel.

ghost use Rattle.std.specs.Prelude.{◌≡◌, IfSome, is_some, Some};
ghost use Rattle.gptp_scheduler.specs.Pending.{entry_at, AgendaEntry};
ghost use Rattle.gptp_scheduler.specs.Places.{StandsAtLevel};

use crate::agenda::Agenda;

/// The level and the slot at which the entry of a number stands. The level is that of the highest octet in which its
/// time differs from the base of the agenda, 0 for the most significant octet, to 7, which is also that of the base
/// itself; the slot is that octet of its time, from 0 to 255. (8, 0) is the chain of what was put below the base.
/// `None` where no entry has that number.
pub fn place<T: Drop>(agenda: &Agenda<T>, number: u64) -> Option<(u8, u8)>
    ensures there { is_some result ≡ is_some (entry_at agenda.now.entries number) }
    ensures stands { IfSome result
        (λ place. (e : AgendaEntry T) → entry_at agenda.now.entries number ≡ Some e
        → StandsAtLevel agenda.now.base e.time place.0 place.1) }
{
    let slot = agenda.slot(number)?;
    if slot == 2048 {
        return Some((8, 0));
    }
    Some(((7 - slot / 256) as u8, (slot % 256) as u8))
}
