//! Worked rows of the commands that take calls, as an outside caller makes them: over devices that fail, over inputs
//! that are cut or too long, and runs that are compared. What only compares a text stands in cases/ as data.
//!
//! What they expect was written down before the code.
#![tactic(auto)]

#[cfg(test)]
mod counted;
#[cfg(test)]
mod cut;
#[cfg(test)]
mod failing;
#[cfg(test)]
mod run;
#[cfg(test)]
mod same;
#[cfg(test)]
mod size;
