//! What is answered to a line of two words.

ghost use Rattle.std.specs.Prelude.{◌≡◌, IfOk, IfErr};
ghost use Rattle.gptp_commands.specs.Answer.{better_of, answer_of, is_refusal, AnswersLine};

use crate::announced::{WordFault, announced};
use crate::failure::SimError;
use crate::words::two_words;
use gptp_vector::{Identity, Vector};
use gptp_words::IdentityDigits;
use std::alloc::Global;
use std::cmp::Ordering;
use std::fmt;

/// Which of two announced vectors is better, with the root of that vector, or why they aren't
/// compared.
#[derive(Clone, Copy, Debug, PartialEq, Eq)]
pub enum Answer {
    /// The first word's.
    First(Identity),
    /// The second word's.
    Second(Identity),
    /// They are the same vector.
    Equal(Identity),
    /// The line hasn't two words.
    NoTwoWords,
    /// The first word announces no vector.
    RefusedFirst(WordFault),
    /// The first word announces a vector, and the second none.
    RefusedSecond(WordFault),
}

impl Answer {
    /// Whether the line was refused.
    pub fn is_refusal(&self) -> bool
        ensures { result ≡ is_refusal self.now }
    {
        matches!(
            self,
            Answer::NoTwoWords | Answer::RefusedFirst(_) | Answer::RefusedSecond(_)
        )
    }
}

impl fmt::Display for Answer {
    ghost use Rattle.std.specs.Prelude.{Some};
    ghost use Rattle.gptp_commands.specs.Answer.{answer_text};

    ghost output = { λ answer. Some (answer_text answer) };

    fn fmt<W: fmt::Write>(&self, f: &mut fmt::Formatter<W>) -> fmt::Result {
        match self {
            Answer::First(root) => write!(f, "first {}", IdentityDigits(*root)),
            Answer::Second(root) => write!(f, "second {}", IdentityDigits(*root)),
            Answer::Equal(root) => write!(f, "equal {}", IdentityDigits(*root)),
            Answer::NoTwoWords => f.write_str("refused words"),
            Answer::RefusedFirst(fault) => write!(f, "refused first {fault}"),
            Answer::RefusedSecond(fault) => write!(f, "refused second {fault}"),
        }
    }
}

/// The better of two vectors.
fn better_of(first: &Vector, second: &Vector) -> Answer
    ensures { result ≡ better_of first.now second.now }
{
    match first.compare(second) {
        Ordering::Less => Answer::First(first.root),
        Ordering::Greater => Answer::Second(second.root),
        Ordering::Equal => Answer::Equal(first.root),
    }
}

/// What two words are answered that announce this.
fn answer_of(first: Result<Vector, WordFault>, second: Result<Vector, WordFault>) -> Answer
    ensures { result ≡ answer_of first second }
{
    match (first, second) {
        (Err(fault), _) => Answer::RefusedFirst(fault),
        (Ok(_), Err(fault)) => Answer::RefusedSecond(fault),
        (Ok(first), Ok(second)) => better_of(&first, &second),
    }
}

/// What is answered to a line. The only error is [`SimError::Memory`].
pub fn answer_to(alloc: Global, line: &[u8]) -> Result<Answer, SimError>
    ensures answers { IfOk result (AnswersLine line.now) }
    ensures memory { IfErr result (λ e. e ≡ SimError.Memory) }
{
    match two_words(line) {
        Some((first, second)) => {
            let first = announced(alloc, first)?;
            let second = announced(alloc, second)?;
            Ok(answer_of(first, second))
        }
        None => Ok(Answer::NoTwoWords),
    }
}
