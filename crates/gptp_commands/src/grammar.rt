//! What the parser is told, by a table of commands.

ghost use Rattle.std.specs.Prelude.{◌≡◌, IfOk, false, map};
ghost use Rattle.clap.specs.Words.{app_of, rule_of};
ghost use Rattle.clap.specs.declared.builder.command.Command.TheViews.{out-Command as fields_of};
ghost use Rattle.gptp_commands.specs.Table.{app_of_row, gptp_sim, program, rule_of_row, shown_command, shown_argument};

use crate::table::rows::COMMANDS;
use crate::table::{CommandRow, Form, Row, help_of};
use clap::builder::ValueParser;
use clap::{Arg, ArgAction, Command};
use std::alloc::{AllocError, Global};

/// The argument of a row.
fn arg_of<'a>(alloc: Global, row: &Row) -> Arg<'a>
    ensures rule { rule_of result ≡ rule_of_row (shown_argument row.now) }
    ensures local { result.global ≡ false }
{
    let (name, kind, help) = *row;
    let (form, defaults, value_name) = kind;
    let arg = Arg::new(alloc, name).help(help);
    match form {
        Form::Flag => arg.long(name).action(ArgAction::SetTrue),
        Form::Number(least, most) => arg
            .long(name)
            .action(ArgAction::Set)
            .value_name(value_name)
            .value_parser(ValueParser::Unsigned(least, most))
            .default_values(defaults),
        Form::Word => arg.long(name).action(ArgAction::Set).value_name(value_name),
        Form::Place => arg
            .required(true)
            .action(ArgAction::Set)
            .value_name(value_name),
    }
}

/// The command of a row.
fn command_of<'a>(alloc: Global, row: &CommandRow) -> Result<Command<'a>, AllocError>
    ensures app { IfOk result (λ command. app_of command ≡ app_of_row (shown_command row.now)) }
    ensures local { IfOk result (λ command. (fields_of command).has_globals ≡ false) }
{
    let (name, about, rows) = *row;
    let mut command = Command::new(alloc, name)
        .about(about)
        .after_help(help_of(name));
    for argument in rows {
        command = command.arg(arg_of(alloc, argument))?;
    }
    Ok(command)
}

/// The program with its commands, of which one has to be named.
fn program_of<'a>(alloc: Global, rows: &[CommandRow]) -> Result<Command<'a>, AllocError>
    ensures { IfOk result (λ command. app_of command ≡ program (map shown_command rows.now)) }
{
    let mut command = Command::new(alloc, "gptp_sim")
        .about("Simulates networks that run gPTP")
        .after_help("'gptp_sim --version' says which version this is.")
        .subcommand_required(true);
    for row in rows {
        command = command.subcommand(command_of(alloc, row)?)?;
    }
    Ok(command)
}

/// What the command line may say.
pub(crate) fn grammar<'a>(alloc: Global) -> Result<Command<'a>, AllocError>
    ensures { IfOk result (λ command. app_of command ≡ gptp_sim) }
{
    program_of(alloc, COMMANDS)
}
