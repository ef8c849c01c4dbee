//! The ends of all chains, and which slots have an entry. Its bits follow those of the wheel of the `futures` crate.

ghost use Rattle.std.specs.Prelude.{◌≡◌, ℕ, ◌≤◌, ◌<◌, [], length, OnOk, IfSome, IfNone, IsSome, None, slice_set};
ghost use Rattle.gptp_scheduler.specs.Chain.{ends_at};
ghost use Rattle.gptp_scheduler.specs.Slots.{SameEnds};

use crate::key::Key;
use std::alloc::{AllocError, Global};
use std::marker::Model;

/// How many slots the eight levels have. The slot of this number is the chain of what was put below the base.
pub(crate) const LEVELS_END: usize = 2048;

/// The first and the last entry of a chain, and its least where that is known.
#[derive(Clone, Copy)]
pub(crate) struct Ends {
    pub(crate) first: Option<Key>,
    pub(crate) last: Option<Key>,
    pub(crate) least: Option<Key>,
}

const NO_ENDS: Ends = Ends {
    first: None,
    last: None,
    least: None,
};

/// The ends of 2,049 chains, or of none before the first growth.
#[derive(Drop)]
pub(crate) struct Slots {
    // Bit `slot % 64` of the word `slot / 64` says whether a slot of the levels has an entry.
    filled: [u64; 32],
    ends: Vec<Ends>,
}

impl Model for Slots {
    ghost use Rattle.std.specs.Prelude.{List};
    ghost use Rattle.gptp_scheduler.specs.Slots.{AreFilled};
    ghost use Rattle.gptp_scheduler.specs.declared.slots.Ends.{Ends};

    ghost Value = { List Ends };

    ghost view = { λ s. s.ends.items };

    ghost invariant = { λ s. AreFilled s.filled s.ends.items };
}

impl Slots {
    /// No chains. Takes no memory.
    pub fn new(alloc: Global) -> Self
        ensures { result ≡ [] }
    {
        Slots {
            filled: [0; 32],
            ends: Vec::new(alloc),
        }
    }

    /// How many chains there are.
    pub fn len(&self) -> usize
        ensures { result ≡ length self.now }
    {
        self.ends.len()
    }

    /// Makes all 2,049 chains, where there are fewer.
    pub fn grow(&mut self) -> Result<(), AllocError>
        requires few { length self.old ≤ 2049 }
        ensures made { OnOk result (length self.new ≡ 2049) }
        ensures few { length self.new ≤ 2049 }
        ensures same { SameEnds self.old self.new }
        ensures grows { length self.old ≤ length self.new }
    {
        self.ends.resize(LEVELS_END + 1, NO_ENDS)?;
        Ok(())
    }

    /// The ends of the chain of a slot.
    pub fn get(&self, slot: usize) -> Ends
        ensures { result ≡ ends_at self.now slot }
    {
        match self.ends.get(slot) {
            Some(ends) => *ends,
            None => NO_ENDS,
        }
    }

    /// Gives the chain of a slot other ends.
    pub fn set(&mut self, slot: usize, ends: Ends)
        requires { slot < length self.old }
        ensures { self.new ≡ slice_set self.old slot ends }
    {
        self.ends[slot] = ends;
        if slot < LEVELS_END {
            let bit = 1 << (slot % 64);
            if ends.first.is_some() {
                self.filled[slot / 64] |= bit;
            } else {
                self.filled[slot / 64] &= !bit;
            }
        }
    }

    /// The first slot of the levels that has an entry.
    pub fn first_filled(&self) -> Option<usize>
        ensures slot { IfSome result (λ slot. slot < LEVELS_END) }
        ensures filled { IfSome result (λ slot. IsSome (ends_at self.now slot).first) }
        ensures first { IfSome result (λ slot. (other : ℕ) → other < slot → (ends_at self.now other).first ≡ None) }
        ensures empty { IfNone result ((slot : ℕ) → slot < LEVELS_END → (ends_at self.now slot).first ≡ None) }
    {
        for word in 0..32 {
            let filled = self.filled[word];
            if filled != 0 {
                return Some(word * 64 + filled.trailing_zeros() as usize);
            }
        }
        None
    }
}
