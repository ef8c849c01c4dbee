//! Documents.

/// Two systems, clocks 1 and 2, the second 1 ms ahead, whose first ports a link joins; each frame takes 500 ns.
pub const TWO: &str = "version = 1
[[system]]
clock = \"0000000000000001\"
[[system]]
clock = \"0000000000000002\"
phase = 1000000
[[link]]
a = \"0000000000000001\"
a_port = 1
b = \"0000000000000002\"
b_port = 1
min = 500
max = 500
";
