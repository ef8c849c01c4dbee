//! What becomes of a frame that is sent.

/// Draws what becomes of frames: their delays and losses.
pub trait Fate {
    ghost use Rattle.std.specs.Prelude.{ℕ, Option};
    ghost use Rattle.gptp_links.specs.declared.bounds.Bounds.{Bounds};
    ghost use Rattle.gptp_links.specs.Bounds.{Fit, IsLawful};

    /// The relation of one draw: the bounds, the time at which the frame is sent, the state before, the
    /// answer, and the state after.
    ghost answers: { Bounds → ℕ → Self → Option ℕ → Self → Type 0 };

    /// The delay of a frame that is sent on a link with these bounds at the time `sent`, in ns, or
    /// `None` where it is lost. The delay lies in the bounds, and no frame is lost where the loss is 0.
    fn fate(&mut self, bounds: &crate::bounds::Bounds, sent: u64) -> Option<u64>
        requires fit { Fit bounds.now }
        ensures answers { answers bounds.now sent self.old result self.new }
        ensures lawful { IsLawful bounds.now result };
}
