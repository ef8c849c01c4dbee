//! What a settled network of gPTP is, over a finite graph.
//!
//! A snapshot is a network's live systems and the links that are up between two of them. Over it stand the choice
//! that the best master clock algorithm settles at (IEEE 802.1AS-2020, 10.3), which is the best system of each
//! component and the distance, the parent and the port roles of each system; and the tests by which a certificate of
//! that choice is checked (profile). There are no frames, no time and no types of Rust in it.
//!
//! The definitions stand in `specs/`. Each function of this crate is a law: it does nothing, and its contract is a
//! theorem about the definitions. Paths are bounded by how many systems have two neighbours; distances are bounded and
//! fall by one step at a time toward the best; best, distance, parent, role and choice exist once each, and slave ports
//! form a tree. The local tests pass exactly for the settled choice. The rule by which a certificate's writer tells far
//! systems, from what each system states and the links alone, is right in a settled network. The choice of four small
//! networks is the one written out for each. Lemmas for the crates above are in the public modules of `proofs/`.
#![tactic(auto)]

mod distances;
mod examples;
mod existence;
mod labelling;
mod marking;
mod paths;
mod tree;

pub use distances::{
    distances_bounded, nearer_neighbour_exists, neighbours_differ_by_one, routes_no_shorter,
};
pub use examples::{chain_with_a_ring, parallel_links, square, triangle};
pub use existence::{best_exists, choice_exists, distance_exists, parent_exists, role_exists};
pub use labelling::{local_tests_decide, near_networks_pass, one_labelling_passes};
pub use marking::{far_is_distant, far_steps_are_distance, lowest_root_is_bests};
pub use paths::{neighbours_counted, paths_bounded, star_is_bounded};
pub use tree::{one_slave_port, parent_is_master, parents_lead_to_best};
