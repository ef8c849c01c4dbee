//! What becomes of a snapshot, a certificate and its text where memory is refused.

use crate::same::same;
use gptp_certificate::{Certificate, parse, print, print_line, write_certificate};
use gptp_links::PcgFate;
use gptp_network::{Document, Snapshot};
use gptp_samples::TWO;
use gptp_world::World;
use std::test::Fail;

/// Three systems in a line, each with its second port linked to the first of the next.
const LINE: &str = "version = 1
[[system]]
clock = \"0000000000000001\"
ports = 2
[[system]]
clock = \"0000000000000002\"
ports = 2
[[system]]
clock = \"0000000000000003\"
ports = 2
[[link]]
a = \"0000000000000001\"
a_port = 2
b = \"0000000000000002\"
b_port = 1
min = 500
max = 500
[[link]]
a = \"0000000000000002\"
a_port = 2
b = \"0000000000000003\"
b_port = 1
min = 500
max = 500
";

/// What is stated of both at first: each follows itself, so that the second is far beside a better root.
const AT_FIRST: &str = "gptp-certificate 2
system 0000000000000001 root f6f8fe436af80000000000000001 steps 0 parent none
port 0000000000000001 1 disabled
system 0000000000000002 far 255 root f6f8fe436af80000000000000001
end
";

/// What is stated of the three at first: the second and the third are far beside a better root.
const LINE_AT_FIRST: &str = "gptp-certificate 2
system 0000000000000001 root f6f8fe436af80000000000000001 steps 0 parent none
port 0000000000000001 1 disabled
port 0000000000000001 2 disabled
system 0000000000000002 far 255 root f6f8fe436af80000000000000001
system 0000000000000003 far 256 root f6f8fe436af80000000000000001
end
";

/// Tells which call was refused.
fn tell(rt: &HostRuntime, call: &str) -> Result<(), Fail> {
    println!(rt; "refused: {call}")?;
    Ok(())
}

/// The document of a text, asked for again where memory is refused.
fn read(rt: &HostRuntime, text: &str) -> Result<Document, Fail> {
    if let Ok(document) = Document::read(rt.alloc(), text.as_bytes()) {
        return Ok(document);
    }
    tell(rt, "read")?;
    Ok(Document::read(rt.alloc(), text.as_bytes())?)
}

/// The snapshot of a document at time 0, asked for again where memory is refused.
fn look(rt: &HostRuntime, document: &Document) -> Result<Snapshot, Fail> {
    if let Ok(snapshot) = document.snapshot(rt.alloc(), 0) {
        return Ok(snapshot);
    }
    tell(rt, "snapshot")?;
    Ok(document.snapshot(rt.alloc(), 0)?)
}

/// The world of a document as it begins, asked for again where memory is refused.
fn begin(rt: &HostRuntime, document: &Document) -> Result<World<PcgFate>, Fail> {
    let network = document.network();
    if let Ok(world) = World::new(rt.alloc(), network, PcgFate::new(0)) {
        return Ok(world);
    }
    tell(rt, "new")?;
    Ok(World::new(rt.alloc(), network, PcgFate::new(0))?)
}

/// The certificate of a world, asked for again where memory is refused.
fn certify(rt: &HostRuntime, world: &World<PcgFate>) -> Result<Certificate, Fail> {
    if let Ok(certificate) = write_certificate(rt.alloc(), world) {
        return Ok(certificate);
    }
    tell(rt, "write_certificate")?;
    Ok(write_certificate(rt.alloc(), world)?)
}

/// The text of a certificate, asked for again where memory is refused, and how much of it stood after a refusal.
fn spell(rt: &HostRuntime, certificate: &Certificate) -> Result<(Vec<u8>, usize), Fail> {
    let mut text = Vec::new(rt.alloc());
    if print(certificate, &mut text).is_ok() {
        return Ok((text, 0));
    }
    tell(rt, "print")?;
    let stood = text.len();
    print(certificate, &mut text)?;
    Ok((text, stood))
}

/// Appends one line of a certificate, and again where memory is refused: whether there is one, and whether nothing was
/// appended at a refusal.
fn spell_line(
    rt: &HostRuntime,
    certificate: &Certificate,
    place: usize,
    text: &mut Vec<u8>,
) -> Result<(bool, bool), Fail> {
    let before = text.len();
    if let Ok(more) = print_line(certificate, place, text) {
        return Ok((more, true));
    }
    tell(rt, "print_line")?;
    let kept = text.len() == before;
    Ok((print_line(certificate, place, text)?, kept))
}

/// The lines of a certificate up to a place, each asked for again where memory is refused: the text, how many there
/// are, and whether nothing was appended at a refusal.
fn spell_lines(
    rt: &HostRuntime,
    certificate: &Certificate,
    most: usize,
) -> Result<(Vec<u8>, usize, bool), Fail> {
    let mut text = Vec::new(rt.alloc());
    let mut kept = true;
    for place in 0..most {
        let (more, same) = spell_line(rt, certificate, place, &mut text)?;
        kept = kept && same;
        if !more {
            return Ok((text, place, kept));
        }
    }
    Ok((text, most, kept))
}

/// The certificate of a text, asked for again where memory is refused.
fn read_back(rt: &HostRuntime, text: &[u8]) -> Result<Certificate, Fail> {
    if let Ok(certificate) = parse(rt.alloc(), text) {
        return Ok(certificate);
    }
    tell(rt, "parse")?;
    Ok(parse(rt.alloc(), text)?)
}

#[test]
fn a_refused_allocation_leaves_the_network(rt: HostRuntime) -> Result<(), Fail> {
    let document = read(&rt, TWO)?;
    let snapshot = look(&rt, &document)?;
    same(&rt, (snapshot.systems(), snapshot.links()), (2, 1));
    Ok(())
}

#[test]
fn a_refused_allocation_leaves_the_certificate(rt: HostRuntime) -> Result<(), Fail> {
    let document = read(&rt, TWO)?;
    let world = begin(&rt, &document)?;
    let certificate = certify(&rt, &world)?;
    same(&rt, certificate.len(), 2);
    Ok(())
}

#[test]
fn a_refused_allocation_leaves_the_marks_of_far_systems(rt: HostRuntime) -> Result<(), Fail> {
    let document = read(&rt, LINE)?;
    let world = begin(&rt, &document)?;
    let certificate = certify(&rt, &world)?;
    let (text, stood) = spell(&rt, &certificate)?;
    same(&rt, stood, 0);
    same(&rt, text.as_slice(), LINE_AT_FIRST.as_bytes());
    Ok(())
}

#[test]
fn a_refused_allocation_leaves_the_text_of_a_certificate(rt: HostRuntime) -> Result<(), Fail> {
    let certificate = read_back(&rt, AT_FIRST.as_bytes())?;
    let (lines, count, kept) = spell_lines(&rt, &certificate, 7)?;
    same(&rt, (count, kept), (5, true));
    same(&rt, lines.as_slice(), AT_FIRST.as_bytes());
    let (text, stood) = spell(&rt, &certificate)?;
    same(&rt, stood, 0);
    same(&rt, text.as_slice(), AT_FIRST.as_bytes());
    Ok(())
}
