//! The lines of frames, as they reach their ports.

ghost use Rattle.std.specs.Prelude.{◌≡◌, ◌≢◌, OnOk};
ghost use Rattle.std.specs.Io.KnownBytes.{Appends};
ghost use Rattle.gptp_report.specs.Following.{ShowsAct};
ghost use Rattle.gptp_sink.specs.Sink.{AppendsSome};

use crate::frame_line::write_frame_line;
use gptp_links::Fate;
use gptp_sink::Cut;
use gptp_sink::sink::Sink;
use gptp_world::{Done, Observer, Timed, World};
use std::alloc::Global;

/// The line of a frame that reached a port in an act; none of another act.
fn write_done<K: Sink>(alloc: Global, sink: &mut K, at: u64, done: &Done) -> Result<(), Cut>
    ensures some { ShowsAct at done.now (AppendsSome (K.written sink.old) (K.written sink.new)) }
    ensures whole { OnOk result (ShowsAct at done.now (Appends (K.written sink.old) (K.written sink.new))) }
    ensures works { result ≢ Err Cut.Write → K.failures sink.new ≡ K.failures sink.old }
    ensures fails { result ≡ Err Cut.Write → K.failures sink.new ≢ K.failures sink.old }
{
    match done {
        Done::Quiet => Ok(()),
        Done::Heard {
            clock,
            port,
            answer,
            frame,
        } => write_frame_line(alloc, sink, at, *clock, *port, *answer, frame),
    }
}

/// An observer that writes the line of each frame, where that is asked for, and nothing else.
#[derive(Clone, Copy, Debug)]
pub(crate) struct Frames {
    /// Whether it is asked for.
    pub asked: bool,
}

impl Observer for Frames {
    ghost use Rattle.gptp_report.specs.Following.{tells_frames};

    ghost tells = { tells_frames };

    fn wants(&self) -> bool {
        self.asked
    }

    fn observe<F: Fate + Drop, K: Sink>(
        &mut self,
        alloc: Global,
        _world: &World<F>,
        timed: &Timed,
        done: &Done,
        sink: &mut K,
    ) -> Result<(), Cut> {
        match self.asked {
            true => write_done(alloc, sink, timed.at, done),
            false => Ok(()),
        }
    }
}
