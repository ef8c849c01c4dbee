//! Laws on runs: they end settled, and there is one.

ghost use Rattle.gptp_bmca_machine.specs.Run.{RunSettles};
ghost use Rattle.gptp_bmca_machine.specs.ExampleLaws.{ExampleSettles};

use crate::coding::Coding;

/// A run through calm states, begun before the start in whichever of them, ends with all near systems and their ports
/// settled, where it ends late enough.
pub fn run_settles<C: Coding>()
    ensures { RunSettles C.says }
{}

/// Two systems and a link are a network whose machine runs: Announces are sent, heard for the first time and then
/// repeated, each state of the run is calm, and its end is settled. So the laws are of something.
pub fn example_run()
    ensures { ExampleSettles }
{}
