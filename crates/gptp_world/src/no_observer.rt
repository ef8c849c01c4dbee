//! Worlds that go on before nobody.

use crate::observer::Observer;
use crate::world::World;
use gptp_links::Fate;
use gptp_model::{Done, Timed};
use gptp_sink::Cut;
use gptp_sink::sink::{Sink, WriteFailed};
use std::alloc::Global;

/// An observer that tells nothing of any act.
#[derive(Clone, Copy, Debug)]
pub(crate) struct NoObserver;

impl Observer for NoObserver {
    ghost use Rattle.gptp_world.specs.Observing.{tells_nothing};

    ghost tells = { tells_nothing };

    fn wants(&self) -> bool {
        false
    }

    fn observe<F: Fate + Drop, K: Sink>(
        &mut self,
        _alloc: Global,
        _world: &World<F>,
        _timed: &Timed,
        _done: &Done,
        _sink: &mut K,
    ) -> Result<(), Cut> {
        Ok(())
    }
}

/// A sink that keeps nothing of what it takes.
#[derive(Clone, Copy, Debug)]
pub(crate) struct NullSink;

impl Sink for NullSink {
    ghost use Rattle.std.specs.Prelude.{None};

    ghost written = { λ _. None };

    ghost failures = { λ _. 0 };

    fn write(&mut self, text: &[u8]) -> Result<usize, WriteFailed> {
        Ok(text.len())
    }
}
