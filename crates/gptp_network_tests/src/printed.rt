//! Certificates line by line.

use crate::same::same_at;
use gptp_certificate::{Certificate, parse, print_line};
use std::alloc::Global;
use std::process::Abort;
use std::test::Fail;

/// What a system says in version 1 that is alone and has no port.
const ALONE: &str = "gptp-certificate 1
system 0000000000000001 root f6f8fe436af80000000000000001 steps 0 parent none
end
";

/// What a system says in version 2 that has two ports, of which the second is linked.
const WITH_PORTS: &str = "gptp-certificate 2
system 0000000000000002 root f6f8fe436af80000000000000002 steps 0 parent none
port 0000000000000002 1 disabled
port 0000000000000002 2 master
end
";

/// Expects the line at a place after what was there, and whether there is one.
fn expect_line(
    rt: &impl Abort,
    alloc: Global,
    certificate: &Certificate,
    place: usize,
    want: &str,
    more: bool,
) -> Result<(), Fail> {
    let mut text = Vec::from_slice(alloc, b"before\n")?;
    same_at(rt, &place, print_line(certificate, place, &mut text)?, more);
    same_at(rt, &place, text.as_slice(), want.as_bytes());
    Ok(())
}

#[test]
fn a_line_is_printed_by_its_place(rt: HostRuntime) -> Result<(), Fail> {
    let alloc = rt.alloc();
    let certificate = parse(alloc, ALONE.as_bytes())?;
    for (place, want, more) in [
        (0, "before\ngptp-certificate 1\n", true),
        (
            1,
            "before\nsystem 0000000000000001 root f6f8fe436af80000000000000001 steps 0 parent none\n",
            true,
        ),
        (2, "before\nend\n", true),
        (3, "before\n", false),
        (usize::MAX, "before\n", false),
    ] {
        expect_line(&rt, alloc, &certificate, place, want, more)?;
    }
    Ok(())
}

#[test]
fn a_line_of_version_2_is_printed_by_its_place(rt: HostRuntime) -> Result<(), Fail> {
    let alloc = rt.alloc();
    let certificate = parse(alloc, WITH_PORTS.as_bytes())?;
    for (place, want, more) in [
        (0, "before\ngptp-certificate 2\n", true),
        (
            1,
            "before\nsystem 0000000000000002 root f6f8fe436af80000000000000002 steps 0 parent none\n",
            true,
        ),
        (2, "before\nport 0000000000000002 1 disabled\n", true),
        (3, "before\nport 0000000000000002 2 master\n", true),
        (4, "before\nend\n", true),
        (5, "before\n", false),
    ] {
        expect_line(&rt, alloc, &certificate, place, want, more)?;
    }
    Ok(())
}
