//! One run, written out.

ghost use Rattle.gptp_sync_machine.specs.Example.{SyncOverTwoLinks};

/// A Sync from the root over a bridge to a slave, state by state: the machine has runs, and what its laws suppose can
/// all hold at once.
pub fn sync_over_two_links()
    ensures { SyncOverTwoLinks }
{}
