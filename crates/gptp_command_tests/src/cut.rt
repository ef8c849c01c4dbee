//! A document that ends after each of its octets.

use crate::run::{TO_THE_END, ran};
use crate::same::same_at;
use gptp_commands::failure::Status;
use gptp_samples::TWO;
use std::test::Fail;

/// The text of a front that is no TOML.
const NOT_TOML: &str = "refused 1 NotToml\n";

/// The text of one that lacks a key.
const MISSING_KEY: &str = "refused 2 MissingKey\n";

/// The text of one whose `max` is below its `min`.
const OUT_OF_RANGE: &str = "refused 4 OutOfRange\n";

/// The text of one of one system, whose port has no link: nothing is heard, and it stays its own root.
const ALONE: &str = "time 20000000000
change 0 calm yes settle 20000000000
system 0000000000000001 root f6f8fe436af80000000000000001 steps 0 gm yes slave none offset none
port 0000000000000001 1 disabled capable no delay none
";

/// The text of one of two systems that no link joins, whatever their clocks show.
const APART: &str = "time 26000000000
change 0 calm yes settle 26000000000
system 0000000000000001 root f6f8fe436af80000000000000001 steps 0 gm yes slave none offset none
port 0000000000000001 1 disabled capable no delay none
system 0000000000000002 root f6f8fe436af80000000000000002 steps 0 gm yes slave none offset none
port 0000000000000002 1 disabled capable no delay none
";

/// The text of the whole: each frame takes 500 ns, and the second clock is 1 ms ahead.
const LINKED: &str = "time 26000000000
change 0 calm yes settle 26000000000
system 0000000000000001 root f6f8fe436af80000000000000001 steps 0 gm yes slave none offset none
port 0000000000000001 1 master capable yes delay 32768000
system 0000000000000002 root f6f8fe436af80000000000000001 steps 1 gm yes slave 1 offset 65536000000
port 0000000000000002 1 slave capable yes delay 32768000
";

/// From how many octets on the front of the document of two systems is answered so.
const ANSWERS: [(usize, &str); 28] = [
    (0, MISSING_KEY),
    (1, NOT_TOML),
    (11, MISSING_KEY),
    (13, NOT_TOML),
    (22, MISSING_KEY),
    (24, NOT_TOML),
    (49, ALONE),
    (51, NOT_TOML),
    (60, MISSING_KEY),
    (62, NOT_TOML),
    (87, APART),
    (89, NOT_TOML),
    (97, APART),
    (105, NOT_TOML),
    (112, MISSING_KEY),
    (114, NOT_TOML),
    (135, MISSING_KEY),
    (137, NOT_TOML),
    (146, MISSING_KEY),
    (148, NOT_TOML),
    (169, MISSING_KEY),
    (171, NOT_TOML),
    (180, MISSING_KEY),
    (182, NOT_TOML),
    (188, MISSING_KEY),
    (192, NOT_TOML),
    (198, OUT_OF_RANGE),
    (200, LINKED),
];

/// How the front of so many octets is answered.
fn wanted(length: usize) -> &'static str {
    let mut want = "";
    for (from, answer) in ANSWERS {
        if from <= length {
            want = answer;
        }
    }
    want
}

#[test]
fn each_front_of_a_document_is_answered(rt: HostRuntime) -> Result<(), Fail> {
    let alloc = rt.alloc();
    let document = TWO.as_bytes();
    for length in 0..=document.len() {
        let (text, status) = ran(alloc, &document[..length], &TO_THE_END)?;
        let want = wanted(length);
        same_at(&rt, &length, text.as_slice(), want.as_bytes());
        let done = want.starts_with("time ");
        same_at(&rt, &length, status == Status::Done, done);
    }
    Ok(())
}
