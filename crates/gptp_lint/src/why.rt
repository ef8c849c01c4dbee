//! The words for why a document is refused.

ghost use Rattle.std.specs.Prelude.{◌≡◌};
ghost use Rattle.gptp_lint.specs.Why.{nanoseconds};

use crate::escaped::Escaped;
use gptp_network::{Name, Shape, Why};
use gptp_scenario::Params;
use gptp_setup::interval_of;
use gptp_vector::PortId;
use gptp_words::ClockDigits;
use std::fmt;

/// The word for what a value is.
#[derive(Clone, Copy)]
struct ShapeWord(Shape);

impl fmt::Display for ShapeWord {
    ghost use Rattle.std.specs.Prelude.{Some};
    ghost use Rattle.gptp_lint.specs.Why.{shape_word};

    ghost output = { λ word. Some (shape_word word.0) };

    fn fmt<W: fmt::Write>(&self, f: &mut fmt::Formatter<W>) -> fmt::Result {
        f.write_str(match self.0 {
            Shape::Text => "text",
            Shape::Whole => "whole",
            Shape::Float => "float",
            Shape::Flag => "true_or_false",
            Shape::Date => "date",
            Shape::Array => "array",
            Shape::Table => "table",
        })
    }
}

/// A key, as a document spells it.
#[derive(Clone, Copy)]
struct KeyWord(Name);

impl fmt::Display for KeyWord {
    ghost use Rattle.std.specs.Prelude.{Some};
    ghost use Rattle.gptp_network.specs.Keys.{name_text};

    ghost output = { λ word. Some (name_text word.0) };

    fn fmt<W: fmt::Write>(&self, f: &mut fmt::Formatter<W>) -> fmt::Result {
        f.write_str(self.0.text())
    }
}

/// A port, as its clock and its number.
#[derive(Clone, Copy)]
struct PortWords(PortId);

impl fmt::Display for PortWords {
    ghost use Rattle.std.specs.Prelude.{Some};
    ghost use Rattle.gptp_lint.specs.Why.{port_words};

    ghost output = { λ words. Some (port_words words.0) };

    fn fmt<W: fmt::Write>(&self, f: &mut fmt::Formatter<W>) -> fmt::Result {
        let PortWords(port) = self;
        write!(f, "{} {}", ClockDigits(port.clock), port.port)
    }
}

/// An interval by its logarithm, in ns; 0 where it is none of a port.
fn interval_in_nanoseconds(log_interval: i8) -> u64
    ensures { result ≡ nanoseconds log_interval }
{
    if -4 <= log_interval && log_interval <= 4 {
        interval_of(log_interval)
    } else {
        0
    }
}

/// An interval by its logarithm, in ns.
#[derive(Clone, Copy)]
struct Nanoseconds<'a>(&'a i8);

impl fmt::Display for Nanoseconds<'_> {
    ghost use Rattle.std.specs.Prelude.{Some};
    ghost use Rattle.std.specs.Fmt.{decimal};
    ghost use Rattle.gptp_lint.specs.Why.{nanoseconds};

    ghost output = { λ interval. Some (decimal (nanoseconds interval.0.now)) };

    fn fmt<W: fmt::Write>(&self, f: &mut fmt::Formatter<W>) -> fmt::Result {
        let nanoseconds = interval_in_nanoseconds(*self.0);
        write!(f, "{nanoseconds}")
    }
}

/// The intervals that don't go together, where those of announcements are at this interval.
#[derive(Clone, Copy)]
struct TimingWords<'a>(&'a Params, &'a i8);

impl fmt::Display for TimingWords<'_> {
    ghost use Rattle.std.specs.Prelude.{Some};
    ghost use Rattle.gptp_lint.specs.Why.{timing_words};

    ghost output = { λ words. Some (timing_words words.0.now words.1.now) };

    fn fmt<W: fmt::Write>(&self, f: &mut fmt::Formatter<W>) -> fmt::Result {
        write!(
            f,
            "threshold {} turnaround {} pdelay {} announce {} residence {} sync {}",
            self.0.threshold,
            self.0.turnaround,
            Nanoseconds(&self.0.pdelay),
            Nanoseconds(self.1),
            self.0.residence,
            Nanoseconds(&self.0.sync)
        )
    }
}

/// Why a document is refused, in words.
#[derive(Clone, Copy)]
pub(crate) struct WhyWords<'a>(pub &'a Why);

impl fmt::Display for WhyWords<'_> {
    ghost use Rattle.std.specs.Prelude.{Some};
    ghost use Rattle.gptp_lint.specs.Why.{why_words};

    ghost output = { λ words. Some (why_words words.0.now) };

    fn fmt<W: fmt::Write>(&self, f: &mut fmt::Formatter<W>) -> fmt::Result {
        match self.0 {
            Why::Missing { key } => write!(f, "key {} missing", KeyWord(*key)),
            Why::Kind { key, shape } => {
                write!(f, "key {} kind {}", KeyWord(*key), ShapeWord(*shape))
            }
            Why::Natural {
                key,
                value,
                least,
                most,
            } => write!(
                f,
                "key {} value {value} least {least} most {most}",
                KeyWord(*key)
            ),
            Why::Whole {
                key,
                value,
                least,
                most,
            } => write!(
                f,
                "key {} value {value} least {least} most {most}",
                KeyWord(*key)
            ),
            Why::Intervals { count, ports } => write!(f, "key announce count {count} of {ports}"),
            Why::Text { key, front } => write!(
                f,
                "key {} value {} length {}",
                KeyWord(*key),
                Escaped(front.octets.as_slice()),
                front.count
            ),
            Why::Above { min, max } => write!(f, "key min value {min} above {max}"),
            Why::TooMany { count, most } => write!(f, "count {count} most {most}"),
            Why::Duplicate { clock, system } => {
                write!(f, "clock {} as system {system}", ClockDigits(*clock))
            }
            Why::BothEnds { clock } => write!(f, "clock {} at both ends", ClockDigits(*clock)),
            Why::UnknownClock { clock } => write!(f, "clock {} unknown", ClockDigits(*clock)),
            Why::Beyond { port, ports } => write!(f, "port {} of {ports}", PortWords(*port)),
            Why::Unlinked { port } => write!(f, "port {} unlinked", PortWords(*port)),
            Why::Taken { port, link } => write!(f, "port {} as link {link}", PortWords(*port)),
            Why::TooLong { max, most } => write!(f, "key max value {max} most {most}"),
            Why::Before { at, before } => write!(f, "at {at} before {before}"),
            Why::Timing { params, announce } => { write!(f, "{}", TimingWords(params, announce)) }
            Why::Other { fault } => write!(f, "fault {fault}"),
            Why::Memory => f.write_str("memory"),
        }
    }
}
