//! The settled choices of four small networks.

ghost use Rattle.gptp_graph.specs.Examples.{SettlesAt, ring_network, ring_lines, parallel_network, parallel_lines};
ghost use Rattle.gptp_graph.specs.Examples.{triangle_network, triangle_lines, square_network, square_lines};

/// Clocks 2, 3 and 4 in a ring, which is left where clock 1, linked with 2, has failed: 3 and 4 follow 2, and of the
/// link between them 3 has the master port and 4 the passive one.
pub fn chain_with_a_ring()
    ensures { SettlesAt ring_network ring_lines }
{}

/// Two crossed links between clocks 1 and 2: port 2 of clock 2, which leads to port 1 of clock 1, is slave.
pub fn parallel_links()
    ensures { SettlesAt parallel_network parallel_lines }
{}

/// Clocks 1, 2 and 3, each linked with the others: 2 and 3 follow 1, and of the link between them 2 has the master
/// port and 3 the passive one.
pub fn triangle()
    ensures { SettlesAt triangle_network triangle_lines }
{}

/// Clocks 1, 2, 4 and 3 in a ring, of which 4 has the lower priority1: all follow 4, and clock 1 does so over clock 2,
/// which is lower than the other way's clock 3, though the port numbers are higher.
pub fn square()
    ensures { SettlesAt square_network square_lines }
{}
