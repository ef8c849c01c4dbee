//! How soon the choice and the roles of a document stand at a time, where it is calm then.

ghost use Rattle.std.specs.Prelude.{◌≡◌};
ghost use Rattle.gptp_accuracy.specs.Settlings.{settling_among};
ghost use Rattle.gptp_how_soon.specs.Times.{AreRising};

use gptp_how_soon::{Settling, SettlingTime, settling_at};

/// How soon the choice and the roles of a document, whose times these are, stand at one of them; `None` where the
/// network isn't calm then, or it has no such time.
pub fn settling_of(times: &[SettlingTime], at: u64) -> Option<Settling>
    requires { AreRising times.now }
    ensures { result ≡ settling_among times.now at }
{
    match settling_at(times, at) {
        Some(time) => time.settling,
        None => None,
    }
}
