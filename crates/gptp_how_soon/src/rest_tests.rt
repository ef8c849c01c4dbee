//! Worked times soon after others; what they expect was counted by hand.

use crate::documents::{joined, rests, ring, soon};
use std::test::Fail;

#[test]
fn events_come_from_rest_once_a_system_has_turned(rt: HostRuntime) -> Result<(), Fail> {
    // The link comes up again as the network rests, or 1 ns later.
    for (case, next, choice) in [
        ("too soon", 33_000_004_100, 15_000_002_870),
        ("from rest", 33_000_004_101, 1_000_003_050),
    ] {
        let mut text = String::new(rt.alloc());
        writeln!(
            text,
            "[[event]]\nat = 30000000000\nkind = \"link_down\"\nclock = \"000000000000000a\"\nport = 1\n[[event]]\nat = {next}\nkind = \"link_up\"\nclock = \"000000000000000a\"\nport = 1"
        )?;
        let times = ring(rt.alloc(), text.as_str())?;
        assert_eq!(rt;
            soon(&times, next).map(|bound| bound.0),
            Some(choice),
            "{case}"
        );
    }
    Ok(())
}

#[test]
fn a_tree_falls_off_as_soon_as_all_rests(rt: HostRuntime) -> Result<(), Fail> {
    // The line rests 1000003460 ns after its start.
    for (at, choice) in [(1_000_003_460, 15_000_000_820), (1_000_003_461, 1_640)] {
        let mut event = String::new(rt.alloc());
        writeln!(
            event,
            "[[event]]\nat = {at}\nkind = \"link_down\"\nclock = \"000000000000000a\"\nport = 1"
        )?;
        let times = joined(
            rt.alloc(),
            &["a", "b", "c", "d"],
            &[
                ("a", "1", "b", "1"),
                ("b", "2", "c", "1"),
                ("c", "2", "d", "1"),
            ],
            event.as_str(),
        )?;
        assert_eq!(rt; soon(&times, at).map(|bound| bound.0), Some(choice));
    }
    Ok(())
}

#[test]
fn events_come_from_rest_soon_after_a_loss(rt: HostRuntime) -> Result<(), Fail> {
    // The link from b to c goes down first; then b is the far end of its own link, and a of none.
    for (case, events, rest, next, choice) in [
        (
            "a link cuts off b",
            "[[event]]\nat = 100000000000\nkind = \"link_down\"\nclock = \"000000000000000b\"\nport = 1\n[[event]]\nat = 101000000000\nkind = \"link_up\"\nclock = \"000000000000000b\"\nport = 1\n",
            2_050,
            101_000_000_000,
            1_000_003_050,
        ),
        (
            "b loses its power",
            "[[event]]\nat = 100000000000\nkind = \"fail\"\nclock = \"000000000000000b\"\n[[event]]\nat = 100000000000\nkind = \"link_down\"\nclock = \"000000000000000b\"\nport = 1\n[[event]]\nat = 101000000000\nkind = \"recover\"\nclock = \"000000000000000b\"\n",
            410,
            101_000_000_000,
            820,
        ),
        (
            "d loses its power, and cuts c off",
            "[[event]]\nat = 100000000000\nkind = \"fail\"\nclock = \"000000000000000d\"\n[[event]]\nat = 100000000000\nkind = \"link_down\"\nclock = \"000000000000000d\"\nport = 1\n[[event]]\nat = 100000000000\nkind = \"link_down\"\nclock = \"000000000000000d\"\nport = 2\n[[event]]\nat = 102000000000\nkind = \"recover\"\nclock = \"000000000000000d\"\n",
            1_230,
            102_000_000_000,
            410,
        ),
        (
            "d hangs, and cuts c off",
            "[[event]]\nat = 100000000000\nkind = \"fail\"\nclock = \"000000000000000d\"\n[[event]]\nat = 100375001231\nkind = \"recover\"\nclock = \"000000000000000d\"\n[network]\npdelay = -3\nlost = 1\n",
            375_001_230,
            100_375_001_231,
            1_250_003_050,
        ),
        (
            "d hangs beside a slower link, and cuts c off",
            "[[event]]\nat = 40000000000\nkind = \"link_set\"\nclock = \"000000000000000c\"\nport = 2\nmin = 380\nmax = 700\nloss = 0\n[[event]]\nat = 100000000000\nkind = \"fail\"\nclock = \"000000000000000d\"\n[[event]]\nat = 100375001521\nkind = \"recover\"\nclock = \"000000000000000d\"\n[network]\npdelay = -3\nlost = 1\n",
            375_001_520,
            100_375_001_521,
            1_250_004_500,
        ),
        (
            "b hangs",
            "[[event]]\nat = 100000000000\nkind = \"fail\"\nclock = \"000000000000000b\"\n[[event]]\nat = 111500000000\nkind = \"recover\"\nclock = \"000000000000000b\"\n",
            11_000_000_000,
            111_500_000_000,
            3_000_003_050,
        ),
        (
            "d falls off with c, and comes back",
            "[[event]]\nat = 100000000000\nkind = \"link_down\"\nclock = \"000000000000000d\"\nport = 2\n[[event]]\nat = 100000001231\nkind = \"link_up\"\nclock = \"000000000000000d\"\nport = 2\n",
            1_230,
            100_000_001_231,
            1_000_003_050,
        ),
        (
            "the root gets worse, and a link comes up as the network rests",
            "[[event]]\nat = 100000000000\nkind = \"priority1\"\nclock = \"000000000000000a\"\nvalue = 250\n[[event]]\nat = 100000002870\nkind = \"link_up\"\nclock = \"000000000000000b\"\nport = 2\n",
            2_870,
            100_000_002_870,
            15_000_002_870,
        ),
        (
            "the root gets worse, and then a link comes up",
            "[[event]]\nat = 100000000000\nkind = \"priority1\"\nclock = \"000000000000000a\"\nvalue = 250\n[[event]]\nat = 100000002871\nkind = \"link_up\"\nclock = \"000000000000000b\"\nport = 2\n",
            2_870,
            100_000_002_871,
            1_000_003_050,
        ),
    ] {
        let mut text = String::new(rt.alloc());
        text.push_str(
            "[[event]]\nat = 30000000000\nkind = \"link_down\"\nclock = \"000000000000000b\"\nport = 2\n",
        )?;
        text.push_str(events)?;
        let times = ring(rt.alloc(), text.as_str())?;
        assert_eq!(rt;
            rests(&times, 100_000_000_000, next),
            Some((rest, choice)),
            "{case}"
        );
    }
    Ok(())
}

#[test]
fn events_come_from_rest_soon_after_several_losses(rt: HostRuntime) -> Result<(), Fail> {
    // Two links go down that nobody's choice comes by. One comes up again as the network rests, or 1 ns later.
    for (case, next, choice) in [
        ("too soon", 32_000_001_230, 15_000_002_870),
        ("from rest", 32_000_001_231, 1_000_003_050),
    ] {
        let mut text = String::new(rt.alloc());
        for (at, kind, clock) in [
            (30_000_000_000, "link_down", "b"),
            (30_000_000_000, "link_down", "d"),
            (next, "link_up", "b"),
        ] {
            writeln!(
                text,
                "[[event]]\nat = {at}\nkind = \"{kind}\"\nclock = \"000000000000000{clock}\"\nport = 2"
            )?;
        }
        let links = &[
            ("a", "1", "b", "1"),
            ("a", "2", "c", "1"),
            ("a", "3", "d", "1"),
            ("b", "2", "c", "2"),
            ("c", "3", "d", "2"),
        ];
        let times = joined(rt.alloc(), &["a", "b", "c", "d"], links, text.as_str())?;
        assert_eq!(rt;
            rests(&times, 30_000_000_000, next),
            Some((2_000_001_230, choice)),
            "{case}"
        );
    }
    Ok(())
}

#[test]
fn events_come_from_rest_soon_beside_links_that_a_failure_left_up(
    rt: HostRuntime,
) -> Result<(), Fail> {
    // c hangs, and its links stay up: as slow as the one that is in use once b is cut off, or one is slower.
    const SLOWER: &str =
        "[[event]]\nat = 10000000000\nkind = \"link_set\"\nclock = \"000000000000000b\"\nport = 2\nmin = 380\nmax = 5000\nloss = 0\n";
    for (case, before, rest) in [("as slow", "", 1_230), ("slower", SLOWER, 5_000)] {
        let mut text = String::new(rt.alloc());
        text.push_str(before)?;
        text.push_str(
            "[[event]]\nat = 30000000000\nkind = \"fail\"\nclock = \"000000000000000c\"\n[[event]]\nat = 100000000000\nkind = \"link_down\"\nclock = \"000000000000000b\"\nport = 1\n",
        )?;
        let times = ring(rt.alloc(), text.as_str())?;
        assert_eq!(rt;
            rests(&times, 100_000_000_000, 100_000_000_000),
            Some((rest, 820)),
            "{case}"
        );
    }
    Ok(())
}

#[test]
fn events_come_from_rest_soon_after_lost_power(rt: HostRuntime) -> Result<(), Fail> {
    let times = ring(
        rt.alloc(),
        "[[event]]\nat = 30000000000\nkind = \"fail\"\nclock = \"000000000000000d\"\n[[event]]\nat = 30000000000\nkind = \"link_down\"\nclock = \"000000000000000d\"\nport = 1\n[[event]]\nat = 30000000000\nkind = \"link_down\"\nclock = \"000000000000000d\"\nport = 2\n[[event]]\nat = 33000000000\nkind = \"recover\"\nclock = \"000000000000000d\"\n",
    )?;
    assert_eq!(rt;
        rests(&times, 30_000_000_000, 33_000_000_000),
        Some((2_000_001_230, 820))
    );
    Ok(())
}

#[test]
fn events_come_from_rest_once_nobody_holds_who_hangs(rt: HostRuntime) -> Result<(), Fail> {
    // It is noticed soon, and traces are told anew then. d recovers as the network rests, or 1 ns later.
    for (case, again, choice) in [
        ("too soon", 32_375_001_230, 15_000_002_870),
        ("from rest", 32_375_001_231, 1_250_003_050),
    ] {
        let mut text = String::new(rt.alloc());
        writeln!(
            text,
            "[[event]]\nat = 30000000000\nkind = \"fail\"\nclock = \"000000000000000d\"\n[[event]]\nat = {again}\nkind = \"recover\"\nclock = \"000000000000000d\"\n[network]\npdelay = -3\nlost = 1"
        )?;
        let times = ring(rt.alloc(), text.as_str())?;
        assert_eq!(rt;
            rests(&times, 30_000_000_000, again),
            Some((2_375_001_230, choice)),
            "{case}"
        );
    }
    Ok(())
}
