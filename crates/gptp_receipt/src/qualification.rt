//! Which announcements are heard at all.

ghost use Rattle.std.specs.Prelude.{◌↔◌, IsOk, IfErr};
ghost use Rattle.gptp_receipt.specs.Qualification.{Qualified, FirstFailure};

use gptp_messages::AnnounceView;
use gptp_vector::ClockId;

/// Why an Announce isn't qualified. The tests are made in the order of their numbers.
#[derive(Clone, Copy, Debug, PartialEq, Eq, Hash)]
pub enum Why {
    /// The receiver sent it.
    OwnMessage = 1,
    /// stepsRemoved is 255 or more.
    TooManySteps = 2,
    /// It passed the receiver already.
    Loop = 3,
    /// Its path has more than 255 clocks.
    TraceTooLong = 4,
}

/// Whether an Announce is taken for heard by the system with this clock (IEEE 802.1AS-2020,
/// 10.3.11.2.1, and a bound on the path), or the first test that it fails.
pub fn qualify(announce: &AnnounceView<'_>, clock: ClockId) -> Result<(), Why>
    ensures qualified { IsOk result ↔ Qualified announce.now clock }
    ensures why { IfErr result (FirstFailure announce.now clock) }
{
    if announce.head.source.clock == clock {
        return Err(Why::OwnMessage);
    }
    if announce.body.steps >= 255 {
        return Err(Why::TooManySteps);
    }
    if announce.path.holds(clock) {
        return Err(Why::Loop);
    }
    if announce.path.len() > 255 {
        return Err(Why::TraceTooLong);
    }
    Ok(())
}
