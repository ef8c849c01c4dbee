//! What was found for an argument, by its row.

ghost use Rattle.std.specs.Prelude.{◌≡◌, option_and_then, option_map};
ghost use Rattle.clap.specs.Words.{found_of, rows_of};
ghost use Rattle.gptp_commands.specs.Options.{flag_of, option_number, place_value, within, word_of};
ghost use Rattle.gptp_commands.specs.Table.{shown_argument};

use crate::table::{Form, Row};
use clap::ArgMatches;

/// A number, where it is in its range.
fn number_within(number: Option<u64>, least: u64, most: u64) -> Option<u64>
    ensures { result ≡ option_and_then (within least most) number }
{
    match number {
        Some(number) => {
            if least <= number && number <= most {
                Some(number)
            } else {
                None
            }
        }
        None => None,
    }
}

/// The number that an argument gives, if it gives one in its range. The parser lets no other through.
pub(crate) fn number(matches: &ArgMatches, row: &Row) -> Option<u64>
    ensures { result ≡ option_number (shown_argument row.now) (rows_of (found_of matches.now)) }
{
    let (name, (form, _, _), _) = *row;
    match form {
        Form::Number(least, most) => number_within(matches.get_one::<u64>(name), least, most),
        Form::Flag | Form::Word | Form::Place => None,
    }
}

/// Whether a flag is given.
pub(crate) fn flag(matches: &ArgMatches, row: &Row) -> bool
    ensures { result ≡ flag_of (shown_argument row.now) (rows_of (found_of matches.now)) }
{
    matches.get_one::<bool>(row.0).unwrap_or(false)
}

/// The word that an argument gives.
pub(crate) fn word<'a>(matches: &ArgMatches<'a>, row: &Row) -> Option<&'a str>
    ensures { option_map (λ text. text.now) result ≡ word_of (shown_argument row.now) (rows_of (found_of matches.now)) }
{
    matches.get_str(row.0)
}

/// The word that an argument gives which has to be given. The parser lets no command line through that has none.
pub(crate) fn place<'a>(matches: &ArgMatches<'a>, row: &Row) -> &'a str
    ensures { result.now ≡ place_value (shown_argument row.now) (rows_of (found_of matches.now)) }
{
    word(matches, row).unwrap_or("")
}
