//! What a world has come to that went on after a refusal.

use crate::same::same;
use gptp_links::PcgFate;
use gptp_network::Document;
use gptp_report::write_report;
use gptp_samples::TWO;
use gptp_world::World;
use std::test::Fail;

/// When they have settled, in ns, and what they are then.
const SETTLED: u64 = 26_000_000_000;

const REPORT: &str = "time 26000000000
change 0 calm yes settle 26000000000
system 0000000000000001 root f6f8fe436af80000000000000001 steps 0 gm yes slave none offset none
port 0000000000000001 1 master capable yes delay 32768000
system 0000000000000002 root f6f8fe436af80000000000000001 steps 1 gm yes slave 1 offset 65536000000
port 0000000000000002 1 slave capable yes delay 32768000
";

/// Tells which call was refused.
fn tell(rt: &HostRuntime, call: &str) -> Result<(), Fail> {
    println!(rt; "refused: {call}")?;
    Ok(())
}

/// The document, asked for again where memory is refused.
fn read(rt: &HostRuntime) -> Result<Document, Fail> {
    if let Ok(document) = Document::read(rt.alloc(), TWO.as_bytes()) {
        return Ok(document);
    }
    tell(rt, "read")?;
    Ok(Document::read(rt.alloc(), TWO.as_bytes())?)
}

/// The world of the document as it begins, asked for again where memory is refused.
fn begin(rt: &HostRuntime, document: &Document) -> Result<World<PcgFate>, Fail> {
    let network = document.network();
    if let Ok(world) = World::new(rt.alloc(), network, PcgFate::new(1)) {
        return Ok(world);
    }
    tell(rt, "new")?;
    Ok(World::new(rt.alloc(), network, PcgFate::new(1))?)
}

/// The report of a world at [`SETTLED`], asked for again where memory is refused.
fn report(rt: &HostRuntime, document: &Document, world: &World<PcgFate>) -> Result<String, Fail> {
    let mut text = String::new(rt.alloc());
    if write_report(&mut text, document, SETTLED, world).is_ok() {
        return Ok(text);
    }
    tell(rt, "write_report")?;
    let mut text = String::new(rt.alloc());
    write_report(&mut text, document, SETTLED, world)?;
    Ok(text)
}

#[test]
fn a_world_that_was_refused_memory_goes_on(rt: HostRuntime) -> Result<(), Fail> {
    let document = read(&rt)?;
    let mut world = begin(&rt, &document)?;
    if world.advance(SETTLED).is_err() {
        tell(&rt, "advance")?;
        assert!(rt; world.now() <= SETTLED);
        same(&rt, world.advance(SETTLED), Ok(()));
    }
    let text = report(&rt, &document, &world)?;
    same(&rt, text.as_str(), REPORT);
    Ok(())
}
