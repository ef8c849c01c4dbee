//! An entry of a queue.

use std::cmp::Ordering;
use std::marker::Model;

/// Something that is due at a time, in ns, at a place, and the number that it got when it was put.
#[derive(Clone, Copy, Debug, PartialEq, Eq)]
pub struct Entry {
    pub time: u64,
    pub number: u64,
    pub place: usize,
}

impl Model for Entry {
    ghost use Rattle.std.specs.Prelude.{◌<◌};
    ghost use Rattle.gptp_queue.specs.Entry.{Entry as Due};

    ghost Value = { Due };

    ghost view = { λ e. record { time = e.time; number = e.number; place = e.place } };

    ghost invariant = { λ e. e.number < 18446744073709551615 };

    ghost inverse = { λ e. record { time = e.time; number = e.number; place = e.place } };
}

impl PartialOrd for Entry {
    ghost use Rattle.std.proofs.Common.{rules};
    ghost use Rattle.std.specs.Cmp.{partial_order_from_own_ties};
    ghost use Rattle.std.specs.Cmp.Rules.{comparing};
    ghost use Rattle.std.specs.Ordering.{as_partial_cmp};
    ghost use Rattle.gptp_queue.specs.Order.{earlier};

    ghost partial_cmp = { as_partial_cmp earlier };

    ghost laws = { partial_order_from_own_ties (Prim.search (comparing, rules)) (Prim.search (comparing, rules)) };

    fn partial_cmp(&self, other: &Entry) -> Option<Ordering> {
        Some(self.cmp(other))
    }
}

impl Ord for Entry {
    ghost use Rattle.std.proofs.Common.{rules};
    ghost use Rattle.std.specs.Cmp.Rules.{comparing};
    ghost use Rattle.gptp_queue.specs.Order.{earlier};

    ghost cmp = { earlier };

    ghost total = { Prim.search (comparing, rules) };

    ghost matches_partial_cmp = { Prim.search (comparing, rules) };

    ghost matches_eq = { Prim.search (comparing, rules) };

    fn cmp(&self, other: &Entry) -> Ordering {
        self.time
            .cmp(&other.time)
            .then(self.number.cmp(&other.number))
            .then(self.place.cmp(&other.place))
    }
}
