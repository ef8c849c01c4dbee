//! Times in units of 2^-16 ns, shown in ns with three decimals.

ghost use Rattle.std.specs.Prelude.{◌≡◌, ◌*◌};
ghost use Rattle.gptp_pdelay.specs.GoodLink.{ceil_div};
ghost use Rattle.gptp_timeline.specs.Amounts.{nearest_thousandth, sign_text};

use gptp_accuracy::Thousandths;
use std::fmt;

/// Such a time in thousandths of a nanosecond, to the nearest, half up.
#[tactic(auto, using(crate::proofs::AmountLemmas::apart))]
fn nearest(amount: u128) -> u128
    ensures { result ≡ nearest_thousandth amount }
{
    amount / 65_536 * 1000 + (amount % 65_536 * 1000 + 32_768) / 65_536
}

/// Such a time in thousandths of a nanosecond, rounded up.
#[tactic(auto, using(crate::proofs::AmountLemmas::rounded_up))]
fn rounded_up(amount: u128) -> u128
    ensures { result ≡ ceil_div (1000 * amount) 65536 }
{
    amount / 65_536 * 1000 + (amount % 65_536 * 1000).div_ceil(65_536)
}

/// Such a time, to the nearest.
#[derive(Clone, Copy)]
pub struct Near(pub u128);

impl fmt::Display for Near {
    ghost use Rattle.std.specs.Prelude.{Some};
    ghost use Rattle.gptp_timeline.specs.Amounts.{near_text};

    ghost output = { λ amount. Some (near_text amount.0) };

    fn fmt<W: fmt::Write>(&self, f: &mut fmt::Formatter<W>) -> fmt::Result {
        write!(f, "{}", Thousandths(nearest(self.0)))
    }
}

/// Such a time, rounded up.
#[derive(Clone, Copy)]
pub(crate) struct Up(pub u128);

impl fmt::Display for Up {
    ghost use Rattle.std.specs.Prelude.{Some};
    ghost use Rattle.gptp_accuracy.specs.AccuracyText.{error_text};

    ghost output = { λ amount. Some (error_text amount.0) };

    fn fmt<W: fmt::Write>(&self, f: &mut fmt::Formatter<W>) -> fmt::Result {
        write!(f, "{}", Thousandths(rounded_up(self.0)))
    }
}

/// The sign of a time, where it isn't shown as zero.
fn sign(amount: i128) -> &'static str
    ensures { result.now ≡ sign_text amount }
{
    if amount < 0 && nearest(amount.unsigned_abs()) > 0 {
        "-"
    } else {
        ""
    }
}

/// Such a time with its sign, to the nearest, half away from 0.
#[derive(Clone, Copy)]
pub(crate) struct Signed(pub i128);

impl fmt::Display for Signed {
    ghost use Rattle.std.specs.Prelude.{Some};
    ghost use Rattle.gptp_timeline.specs.Amounts.{signed_text};

    ghost output = { λ amount. Some (signed_text amount.0) };

    fn fmt<W: fmt::Write>(&self, f: &mut fmt::Formatter<W>) -> fmt::Result {
        write!(f, "{}{}", sign(self.0), Near(self.0.unsigned_abs()))
    }
}

/// Such a time with its sign, or `none`.
#[derive(Clone, Copy)]
pub(crate) struct SignedOrNone(pub Option<i128>);

impl fmt::Display for SignedOrNone {
    ghost use Rattle.std.specs.Prelude.{Some};
    ghost use Rattle.gptp_words.specs.Digits.{or_none};
    ghost use Rattle.gptp_timeline.specs.Amounts.{signed_text};

    ghost output = { λ amount. Some (or_none signed_text amount.0) };

    fn fmt<W: fmt::Write>(&self, f: &mut fmt::Formatter<W>) -> fmt::Result {
        match self.0 {
            Some(amount) => write!(f, "{}", Signed(amount)),
            None => f.write_str("none"),
        }
    }
}

/// Such a time without a sign, or `none`.
#[derive(Clone, Copy)]
pub(crate) struct NearOrNone(pub Option<u128>);

impl fmt::Display for NearOrNone {
    ghost use Rattle.std.specs.Prelude.{Some};
    ghost use Rattle.gptp_words.specs.Digits.{or_none};
    ghost use Rattle.gptp_timeline.specs.Amounts.{near_text};

    ghost output = { λ amount. Some (or_none near_text amount.0) };

    fn fmt<W: fmt::Write>(&self, f: &mut fmt::Formatter<W>) -> fmt::Result {
        match self.0 {
            Some(amount) => write!(f, "{}", Near(amount)),
            None => f.write_str("none"),
        }
    }
}

/// Such a time without a sign, rounded up, or `none`.
#[derive(Clone, Copy)]
pub(crate) struct UpOrNone(pub Option<u128>);

impl fmt::Display for UpOrNone {
    ghost use Rattle.std.specs.Prelude.{Some};
    ghost use Rattle.gptp_words.specs.Digits.{or_none};
    ghost use Rattle.gptp_accuracy.specs.AccuracyText.{error_text};

    ghost output = { λ amount. Some (or_none error_text amount.0) };

    fn fmt<W: fmt::Write>(&self, f: &mut fmt::Formatter<W>) -> fmt::Result {
        match self.0 {
            Some(amount) => write!(f, "{}", Up(amount)),
            None => f.write_str("none"),
        }
    }
}
