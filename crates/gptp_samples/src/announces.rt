//! An Announce with all defaults, and what it is made of.

use gptp_messages::{AnnounceBody, Head, encode_announce};
use gptp_vector::{ClockId, Full, Identity, PortId, Trace};
use std::alloc::{AllocError, Global};

/// The first Announce of clock 1 at its port 1, with itself as the root and all defaults: common
/// header, fixed part and path trace.
pub const FIRST_ANNOUNCE: [u8; 76] = [
    0x1b, 0x12, 0x00, 0x4c, 0x00, 0x00, 0x00, 0x08, // type 0xB, version 2.1, 76 octets, ptpTimescale
    0x00, 0x00, 0x00, 0x00, 0x00, 0x00, 0x00, 0x00, // correctionField
    0x00, 0x00, 0x00, 0x00, // messageTypeSpecific
    0x00, 0x00, 0x00, 0x00, 0x00, 0x00, 0x00, 0x01, 0x00, 0x01, // sourcePortIdentity
    0x00, 0x00, 0x00, 0x00, // sequenceId, controlField, logMessageInterval
    0x00, 0x00, 0x00, 0x00, 0x00, 0x00, 0x00, 0x00, 0x00, 0x00, // reserved
    0x00, 0x25, 0x00, // currentUtcOffset, reserved
    0xf6, 0xf8, 0xfe, 0x43, 0x6a, 0xf8, // priority1, clock quality, priority2
    0x00, 0x00, 0x00, 0x00, 0x00, 0x00, 0x00, 0x01, // grandmasterIdentity
    0x00, 0x00, 0xa0, // stepsRemoved, timeSource
    0x00, 0x08, 0x00, 0x08, 0x00, 0x00, 0x00, 0x00, 0x00, 0x00, 0x00, 0x01, // path trace
];

/// The port of a clock with this number.
pub fn port(clock: u64, port: u16) -> PortId {
    PortId {
        clock: ClockId::from(clock),
        port,
    }
}

/// The identity of a clock that has all defaults but this priority1.
pub fn identity(priority1: u8, clock: u64) -> Identity {
    let mut octets = [
        priority1, 0xf8, 0xfe, 0x43, 0x6a, 0xf8, 0, 0, 0, 0, 0, 0, 0, 0,
    ];
    octets[6..].copy_from_slice(&clock.to_be_bytes());
    Identity::of_octets(octets)
}

/// The trace of clocks with these numbers.
pub fn trace(clocks: &[u64]) -> Result<Trace, Full> {
    let mut trace = Trace::empty();
    for clock in clocks {
        trace.append(ClockId::from(*clock))?;
    }
    Ok(trace)
}

/// What the first Announce has in its header.
pub fn head(source: PortId) -> Head {
    Head {
        source,
        sequence: 0,
        correction: 0,
        log_interval: 0,
        two_step: false,
    }
}

/// What the first Announce has in its fixed part.
pub fn body(root: Identity, steps: u16) -> AnnounceBody {
    AnnounceBody {
        utc_offset: 37,
        root,
        steps,
        time_source: 0xa0,
    }
}

/// An Announce with all defaults.
pub fn frame(
    alloc: Global,
    source: PortId,
    root: Identity,
    steps: u16,
    path: &Trace,
) -> Result<Vec<u8>, AllocError> {
    let mut frame = Vec::new(alloc);
    encode_announce(&head(source), &body(root, steps), path, &mut frame)?;
    Ok(frame)
}
