//! Fates that are given beforehand.

ghost use Rattle.std.specs.Prelude.{◌≡◌};
ghost use Rattle.gptp_links.specs.Bounds.{Fit, IsLawful};
ghost use Rattle.gptp_links.specs.Draws.{nearest};

use crate::bounds::Bounds;
use crate::fate::Fate;
use std::collections::VecDeque;
use std::marker::Model;

/// Fates from a list. It is seen as what is left of the list.
///
/// An answer that lies outside a link's bounds becomes the nearest of them, a loss on a link that loses
/// nothing the greatest delay. After the end of the list every frame takes the greatest delay.
#[derive(Drop)]
pub struct ListFate {
    answers: VecDeque<Option<u64>>,
}

impl Model for ListFate {
    ghost use Rattle.std.specs.Prelude.{ℕ, List, Option};

    ghost Value = { List (Option ℕ) };

    ghost view = { λ fate. fate.answers.items };
}

impl ListFate {
    /// The fates of a list, first to last. Takes no memory.
    pub fn new(answers: Vec<Option<u64>>) -> Self
        ensures { result ≡ answers.items }
    {
        ListFate {
            answers: VecDeque::from_vec(answers),
        }
    }
}

impl Fate for ListFate {
    ghost use Rattle.std.specs.Prelude.{◌≡◌};
    ghost use Rattle.gptp_links.specs.Draws.{next_listed};

    ghost answers = { λ bounds sent old answer new. (answer, new) ≡ next_listed bounds old };

    fn fate(&mut self, bounds: &Bounds, _sent: u64) -> Option<u64> {
        match self.answers.pop_front() {
            Some(answer) => within(bounds, answer),
            None => Some(bounds.max),
        }
    }
}

/// The lawful answer that is nearest to this one.
fn within(bounds: &Bounds, answer: Option<u64>) -> Option<u64>
    requires { Fit bounds.now }
    ensures nearest { result ≡ nearest bounds.now answer }
    ensures lawful { IsLawful bounds.now result }
{
    match answer {
        Some(delay) => Some(delay.clamp(bounds.min, bounds.max)),
        None if bounds.loss == 0 => Some(bounds.max),
        None => None,
    }
}
