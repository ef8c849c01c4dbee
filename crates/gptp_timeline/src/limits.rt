//! What is asked of each stretch, and whether it keeps to it.

ghost use Rattle.std.specs.Prelude.{◌≡◌, ◌<◌, ◌++◌, ◌∷◌, [], IfOk, OnOk, is_some, string_bytes};
ghost use Rattle.gptp_words.specs.Lines.{text_of};
ghost use Rattle.gptp_timeline.specs.Limits.{asks_times, earlier, exceeded_after, exceeds, exceeds_in, first_exceeded, is_above, is_asked, is_exceeded, is_some_given, most_of, none_is_above, option_name, limit_number, unit_of, verdict_line, verdict_lines};

use crate::stretch::Stretch;
use std::alloc::AllocError;
use std::fmt;

/// What a limit is given for.
#[derive(Clone, Copy, Debug, PartialEq, Eq)]
pub enum Limit {
    /// How long the choice takes to come after an event, in ns.
    Choice,
    /// How long a system waits for time after an event, in ns.
    Holdover,
    /// How far a receipt is off, in ns.
    Error,
    /// How many systems go without time where the stretch ends.
    Without,
    /// How many roots two or more systems follow there.
    Roots,
    /// How many systems follow a root that no other does there.
    Alone,
    /// How many systems a fault cuts off; of no stretch.
    Cut,
    /// How many of those that aren't cut off are without the time that most share; of no stretch.
    Astray,
    /// How long the choice takes at most to stand after an event, in ns.
    Bound,
    /// How far what a system reads is off, in ns.
    Time,
    /// How far apart two systems read, in ns.
    Apart,
    /// By how much what a system reads jumps, in ns.
    Step,
    /// How long it takes until each system reads the time that it keeps to, in ns.
    First,
}

impl Limit {
    /// All of them, in the order in which a verdict names the first that is exceeded.
    pub const ALL: [Limit; 13] = [
        Limit::Choice,
        Limit::Holdover,
        Limit::Error,
        Limit::Without,
        Limit::Roots,
        Limit::Alone,
        Limit::Cut,
        Limit::Astray,
        Limit::Bound,
        Limit::Time,
        Limit::Apart,
        Limit::Step,
        Limit::First,
    ];

    /// Its place among all of them.
    fn place(self) -> usize
        ensures place { result ≡ limit_number self }
        ensures below { result < 13 }
    {
        self as usize
    }

    /// The name of the option that gives it: `max-`, and its word.
    pub fn option(self) -> &'static str
        ensures { result.now ≡ option_name self }
    {
        match self {
            Limit::Choice => "max-choice",
            Limit::Holdover => "max-holdover",
            Limit::Error => "max-error",
            Limit::Without => "max-without",
            Limit::Roots => "max-roots",
            Limit::Alone => "max-alone",
            Limit::Cut => "max-cut",
            Limit::Astray => "max-astray",
            Limit::Bound => "max-bound",
            Limit::Time => "max-time",
            Limit::Apart => "max-apart",
            Limit::Step => "max-step",
            Limit::First => "max-first",
        }
    }

    /// How many units of its amount are one of what is given: errors are given in ns, and counted in 2^-16 ns.
    fn unit(self) -> u32
        ensures { result ≡ unit_of self }
    {
        match self {
            Limit::Error | Limit::Time | Limit::Apart | Limit::Step => 65_536,
            _ => 1,
        }
    }

    /// Whether there being no amount is above what is given: where no bound is known, that is above every number.
    fn none_is_above(self) -> bool
        ensures { result ≡ none_is_above self }
    {
        match self {
            Limit::Bound => true,
            _ => false,
        }
    }
}

impl fmt::Display for Limit {
    ghost use Rattle.std.specs.Prelude.{Some};
    ghost use Rattle.gptp_timeline.specs.Limits.{limit_text};

    ghost output = { λ limit. Some (limit_text limit) };

    fn fmt<W: fmt::Write>(&self, f: &mut fmt::Formatter<W>) -> fmt::Result {
        f.write_str(match self {
            Limit::Choice => "choice",
            Limit::Holdover => "holdover",
            Limit::Error => "error",
            Limit::Without => "without",
            Limit::Roots => "roots",
            Limit::Alone => "alone",
            Limit::Cut => "cut",
            Limit::Astray => "astray",
            Limit::Bound => "bound",
            Limit::Time => "time",
            Limit::Apart => "apart",
            Limit::Step => "step",
            Limit::First => "first",
        })
    }
}

/// The greatest that each stretch may have, where it is given.
#[derive(Clone, Copy, Debug, PartialEq, Eq)]
pub struct Limits {
    /// By limit, in the order of [`Limit::ALL`]; times and errors in ns.
    pub most: [Option<u64>; 13],
}

/// None is given.
pub(crate) const NO_LIMITS: Limits = Limits { most: [None; 13] };

impl Limits {
    /// What is given for a limit.
    fn most_of(&self, limit: Limit) -> Option<u64>
        ensures { result ≡ most_of self.now limit }
    {
        self.most[limit.place()]
    }

    /// Whether any limit is given that asks for what systems read.
    pub fn asks_times(&self) -> bool
        ensures { result ≡ asks_times self.now }
    {
        self.most_of(Limit::Time).is_some()
            || self.most_of(Limit::Apart).is_some()
            || self.most_of(Limit::Step).is_some()
            || self.most_of(Limit::First).is_some()
    }

    /// Whether an amount is above what is given for a limit: none is above no limit, but no bound above each.
    pub fn exceeds(&self, limit: Limit, amount: Option<u128>) -> bool
        ensures { result ≡ exceeds self.now limit amount }
    {
        is_above(
            self.most_of(limit),
            limit.unit(),
            limit.none_is_above(),
            amount,
        )
    }

    /// Whether a stretch exceeds a limit that is asked of it.
    fn exceeds_in(&self, stretch: &Stretch, limit: Limit) -> bool
        ensures { result ≡ exceeds_in self.now stretch.now limit }
    {
        stretch.is_asked(limit) && self.exceeds(limit, stretch.amount(limit))
    }
}

/// Whether an amount is above so many units; where there is none, as `none` says.
fn is_above(most: Option<u64>, unit: u32, none: bool, amount: Option<u128>) -> bool
    ensures { result ≡ is_above most unit none amount }
{
    match (most, amount) {
        (Some(most), Some(amount)) => u128::from(most) * u128::from(unit) < amount,
        (Some(_), None) => none,
        (None, _) => false,
    }
}

/// The first of several limits that a stretch exceeds.
fn first_exceeded(limits: &Limits, stretch: &Stretch, among: &[Limit]) -> Option<Limit>
    ensures { result ≡ first_exceeded (exceeds_in limits.now stretch.now) among.now }
{
    for limit in among {
        if limits.exceeds_in(stretch, *limit) {
            return Some(*limit);
        }
    }
    None
}

/// The one of two that a verdict names.
fn earlier(a: Option<Limit>, b: Option<Limit>) -> Option<Limit>
    ensures { result ≡ earlier a b }
{
    match (a, b) {
        (Some(first), Some(second)) if second.place() < first.place() => b,
        (Some(_), _) => a,
        _ => b,
    }
}

/// The first limit that some stretch exceeds, with one stretch more.
pub(crate) fn exceeded_after(
    limits: &Limits,
    stretch: &Stretch,
    before: Option<Limit>,
) -> Option<Limit>
    ensures { result ≡ exceeded_after limits.now stretch.now before }
{
    earlier(before, first_exceeded(limits, stretch, &Limit::ALL))
}

/// Whether any of several is given.
fn is_some_given(all: &[Option<u64>]) -> bool
    ensures { result ≡ is_some_given all.now }
{
    for most in all {
        if most.is_some() {
            return true;
        }
    }
    false
}

/// Whether any limit is given.
fn is_asked(limits: &Limits) -> bool
    ensures { result ≡ is_asked limits.now }
{
    is_some_given(&limits.most)
}

/// Appends the line of a verdict.
fn write_first(text: &mut String, first: Option<Limit>) -> Result<(), AllocError>
    ensures { OnOk result (string_bytes text.new ≡ string_bytes text.old ++ text_of (verdict_line first ∷ [])) }
{
    match first {
        Some(limit) => writeln!(text, "exceeded {limit}"),
        None => writeln!(text, "within"),
    }
}

/// Appends the line that says which limit is the first that is exceeded, and answers whether one is.
pub fn write_first_exceeded(text: &mut String, first: Option<Limit>) -> Result<bool, AllocError>
    ensures text { OnOk result (string_bytes text.new ≡ string_bytes text.old ++ text_of (verdict_line first ∷ [])) }
    ensures exceeded { IfOk result (λ exceeded. exceeded ≡ is_some first) }
{
    write_first(text, first)?;
    Ok(first.is_some())
}

/// Appends the line of a verdict where a limit is given, and answers whether one is exceeded.
pub(crate) fn write_verdict(
    text: &mut String,
    limits: &Limits,
    first: Option<Limit>,
) -> Result<bool, AllocError>
    ensures text { OnOk result (string_bytes text.new ≡ string_bytes text.old ++ text_of (verdict_lines limits.now first)) }
    ensures exceeded { IfOk result (λ is. is ≡ is_exceeded limits.now first) }
{
    match is_asked(limits) {
        true => write_first_exceeded(text, first),
        false => Ok(false),
    }
}
