//! Worked rows of the crates below gptp_world, as an outside caller sees them.
//!
//! Each module has the rows of one crate, or of some messages, as tables; `bench`, `frames` and `said` are what they
//! share. What they expect was written down before the code.
#![tactic(auto)]

#[cfg(test)]
mod agenda;
#[cfg(test)]
mod all_messages;
#[cfg(test)]
mod bench;
#[cfg(test)]
mod correction;
#[cfg(test)]
mod frames;
#[cfg(test)]
mod link_messages;
#[cfg(test)]
mod links;
#[cfg(test)]
mod messages;
#[cfg(test)]
mod pdelay;
#[cfg(test)]
mod receipt;
#[cfg(test)]
mod roles;
#[cfg(test)]
mod said;
#[cfg(test)]
mod same;
#[cfg(test)]
mod scaled;
#[cfg(test)]
mod sent;
#[cfg(test)]
mod sorted_list;
#[cfg(test)]
mod sync_messages;
#[cfg(test)]
mod systems;
#[cfg(test)]
mod vector;
