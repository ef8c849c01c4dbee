//! One system's choice: its root, its Slave port and the role of every port.
//!
//! IEEE 802.1AS-2020 chooses from what the ports of a system hold (10.3.5, 10.3.6, 10.3.13). The chosen
//! vector is the system vector or the path vector of a port that received one, and none of these is
//! lower. Each port's role, what it holds then, and whether it has to announce at once follow from the
//! chosen vector and from what that port held, by one small definition each.
//!
//! Selecting again changes nothing. There is one Slave port where the root is another system, and none
//! where it is the system itself.
#![tactic(auto)]

mod laws;
mod role;
mod selection;
mod trace;

pub use laws::{chosen_vector_is_one, one_slave_port, selection_is_at_rest};
pub use role::Role;
pub use selection::{Selected, select};
pub use trace::{path_of_slave, slave_trace, trace_of};
