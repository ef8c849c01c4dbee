//! Fates that look random.

ghost use Rattle.std.specs.Prelude.{◌≡◌};
ghost use Rattle.rand_core.specs.Pcg32Seed.{pcg32_seed};
ghost use Rattle.rand_pcg.specs.Pcg.{pcg64_of_seed};
ghost use Rattle.gptp_links.specs.Bounds.{Fit};
ghost use Rattle.gptp_links.specs.Draws.{delay_drawn};

use crate::bounds::Bounds;
use crate::fate::Fate;
use rand_core::SeedableRng;
use rand_core::utils::NextWord;
use rand_pcg::Pcg64;
use std::alloc::AllocError;
use std::marker::Model;

/// Fates drawn from the generator PCG64 (XSL RR 128/64). It is seen as the state of the generator.
///
/// Where the loss is 0 no word is drawn for it; otherwise the frame is lost where a word is below the
/// loss, modulo 1000. A frame that isn't lost takes the one delay that there is, or the least delay and
/// the next word modulo the number of delays (profile).
#[derive(Debug, Drop)]
pub struct PcgFate {
    generator: Pcg64,
}

impl Model for PcgFate {
    ghost use Rattle.rand_pcg.specs.Lcg.{Lcg};

    ghost Value = { Lcg };

    ghost view = { λ fate. fate.generator };
}

impl PcgFate {
    /// The fates of a seed.
    pub fn new(seed: u64) -> Self
        ensures { result ≡ pcg64_of_seed (pcg32_seed 32 seed) }
    {
        PcgFate {
            generator: Pcg64::seed_from_u64(seed),
        }
    }

    /// The delay of a frame that isn't lost.
    fn delay(&mut self, bounds: &Bounds) -> u64
        requires { Fit bounds.now }
        ensures { (result, self.new) ≡ delay_drawn bounds.now self.old }
    {
        if bounds.min == bounds.max {
            return bounds.min;
        }
        bounds.min + self.generator.next_word() % (bounds.max - bounds.min + 1)
    }
}

impl Clone for PcgFate {
    ghost use Rattle.std.specs.Prelude.{◌≡◌};

    ghost is_clone = { λ fate copy. copy ≡ fate };

    fn clone(&self) -> Result<Self, AllocError> {
        Ok(PcgFate {
            generator: self.generator.clone()?,
        })
    }
}

impl Fate for PcgFate {
    ghost use Rattle.std.specs.Prelude.{◌≡◌};
    ghost use Rattle.gptp_links.specs.Draws.{drawn};

    ghost answers = { λ bounds sent old answer new. (answer, new) ≡ drawn bounds old };

    fn fate(&mut self, bounds: &Bounds, _sent: u64) -> Option<u64> {
        if bounds.loss != 0 && self.generator.next_word() % 1000 < u64::from(bounds.loss) {
            return None;
        }
        Some(self.delay(bounds))
    }
}
