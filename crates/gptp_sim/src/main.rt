//! The simulator's program: the commands of [`gptp_commands`].
#![tactic(auto)]

use gptp_commands::command;
use std::process::ExitCode;

fn main(rt: HostRuntime) -> ExitCode {
    command::run(&rt)
}
