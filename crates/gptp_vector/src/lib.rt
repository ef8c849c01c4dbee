//! Who is better: clocks, ports, systems and the priority vectors that order them.
//!
//! IEEE 802.1AS-2020 compares systems by their identities (10.3.2) and announcements by priority
//! vectors (10.3.4, 10.3.5). This crate has both as values that take no memory.
//!
//! A system identity is seen as one number below 2^112 and a clock as one below 2^64, the lower the
//! better. [`Vector::compare`] is the comparison of the lists of five numbers that two vectors stand
//! for, a total order in which only equal vectors are equal. What a vector becomes on its way (path,
//! system and master vector) is stated field by field.
#![tactic(auto)]

mod identity;
mod laws;
mod port;
mod trace;
mod vector;

pub use identity::Identity;
pub use laws::{equal_vectors_are_one, vector_order_is_total};
pub use port::{ClockId, PortId};
pub use trace::{Full, TRACE_CAPACITY, Trace};
pub use vector::Vector;
