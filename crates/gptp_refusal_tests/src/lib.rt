//! Tests that refuse memory to the crates below. Each passes also where one allocation is refused, and tells which call
//! that was of; `tools/refuse_test_allocations` refuses each in turn.
#![tactic(auto)]

#[cfg(test)]
mod agenda;
#[cfg(test)]
mod certificate;
#[cfg(test)]
mod link;
#[cfg(test)]
mod report;
#[cfg(test)]
mod same;
#[cfg(test)]
mod text;
#[cfg(test)]
mod world;
