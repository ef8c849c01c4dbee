//! What a port holds, and what hearing and time do to it.

ghost use Rattle.std.specs.Prelude.{◌≡◌, ◌≢◌, ◌+◌, ◌^◌, ◌<◌, ◌≤◌, length};
ghost use Rattle.std.specs.Option.{option_map, ForSome};
ghost use Rattle.gptp_vector.specs.declared.port.PortId.{PortId};
ghost use Rattle.gptp_vector.specs.Vector.{lower};
ghost use Rattle.gptp_receipt.specs.Held.{aged, comparison, comparison_of, held_after, is_due, message_vector, received, reception, superior_if, HoldsFor};
ghost use Rattle.gptp_receipt.specs.Qualification.{Qualified};

use gptp_messages::{AnnounceView, PathView};
use gptp_vector::{Identity, PortId, Trace, Vector};

/// What a port holds.
#[derive(Debug, Drop)]
pub enum Held {
    /// Nothing: the port isn't asCapable.
    Disabled,
    /// Nothing: it heard nothing, or what it heard is too old.
    Aged,
    /// What it announces itself: root and steps of its master vector.
    Mine { root: Identity, steps: u16 },
    /// What it heard.
    Received(Reception),
}

/// What a port received.
#[derive(Debug, Drop)]
pub struct Reception {
    /// The message vector.
    pub vector: Vector,
    /// The path sequence.
    pub path: Trace,
    /// The logMessageInterval of its Announce, as it came.
    pub interval: i8,
    /// When that was, in ns.
    pub at: u64,
}

/// What a qualified Announce is to a port.
#[derive(Clone, Copy, Debug, PartialEq, Eq, Hash)]
pub enum Heard {
    /// Better than what the port holds. It takes its place.
    Superior,
    /// From the port that was heard last, better or worse. It takes the place of what was heard.
    Repeated,
    /// Not better. It changes nothing.
    Inferior,
}

impl Default for Held {
    ghost use Rattle.std.specs.Prelude.{◌≡◌};
    ghost use Rattle.gptp_receipt.specs.declared.held.Held.TheVariants.{Disabled};

    ghost is_default = { λ held. held ≡ Disabled };

    fn default() -> Self {
        Self::Disabled
    }
}

impl Held {
    /// A copy of the held state. It costs what its path has, not the capacity of the path.
    pub fn copy(&self) -> Self
        ensures { result ≡ self.now }
    {
        match self {
            Held::Disabled => Held::Disabled,
            Held::Aged => Held::Aged,
            Held::Mine { root, steps } => Held::Mine {
                root: *root,
                steps: *steps,
            },
            Held::Received(reception) => Held::Received(Reception {
                vector: reception.vector,
                path: reception.path.copy(),
                interval: reception.interval,
                at: reception.at,
            }),
        }
    }
}

/// What a port does with a qualified Announce that it hears `now`, in ns; `own` is the port. `Superior`
/// and `Repeated` put its message vector, its path, its interval and the time in place of what the port
/// holds, and `Inferior` changes nothing (profile, for IEEE 802.1AS-2020, 10.3.11 and 10.3.12).
pub fn hear(held: &mut Held, own: PortId, announce: &AnnounceView<'_>, now: u64) -> Heard
    requires qualified { Qualified announce.now own.clock }
    requires enabled { held.old ≢ Held.Disabled }
    ensures heard { result ≡ comparison held.old own announce.now }
    ensures held { held.new ≡ held_after result held.old (reception announce.now own now) }
    ensures keeps { HoldsFor own held.old → HoldsFor own held.new }
{
    let vector = vector_of(announce, own.port);
    let heard = compare(held, own, &vector);
    if heard != Heard::Inferior {
        store(
            held,
            vector,
            &announce.path,
            announce.head.log_interval,
            now,
        );
    }
    heard
}

/// The message vector of an Announce that is heard on a port of this number (IEEE 802.1AS-2020,
/// 10.3.5).
fn vector_of(announce: &AnnounceView<'_>, port: u16) -> Vector
    ensures { result ≡ message_vector announce.now port }
{
    Vector {
        root: announce.body.root,
        steps: announce.body.steps,
        source: announce.head.source,
        receiver: port,
    }
}

/// What a message vector is to a port that isn't disabled.
fn compare(held: &Held, own: PortId, vector: &Vector) -> Heard
    ensures { result ≡ comparison_of held.now own vector.now }
{
    match held {
        Held::Disabled => Heard::Inferior,
        Held::Aged => Heard::Superior,
        Held::Mine { root, steps } => against(
            &Vector::master(*root, *steps, own.clock, own.port),
            vector,
        ),
        Held::Received(known) => {
            if known.vector.source == vector.source {
                Heard::Repeated
            } else {
                against(&known.vector, vector)
            }
        }
    }
}

/// What a message vector is against the one that it has to be lower than.
fn against(known: &Vector, vector: &Vector) -> Heard
    ensures { result ≡ superior_if (lower vector.now known.now) }
{
    if vector.compare(known).is_lt() {
        Heard::Superior
    } else {
        Heard::Inferior
    }
}

/// Puts what was heard in place of what the port holds.
fn store(held: &mut Held, vector: Vector, path: &PathView<'_>, interval: i8, now: u64)
    requires { length path.now ≤ 255 }
    ensures { held.new ≡ Held.Received (record { vector = vector; path = path.now; interval = interval; at = now }) }
{
    match held {
        Held::Received(known) => {
            known.vector = vector;
            path.copy_to(&mut known.path).unwrap();
            known.interval = interval;
            known.at = now;
        }
        _ => {
            let mut trace = Trace::empty();
            path.copy_to(&mut trace).unwrap();
            *held = Held::Received(Reception {
                vector,
                path: trace,
                interval,
                at: now,
            });
        }
    }
}

/// When what the port received is too old, in ns, if it received anything: `span`, as `span_of` gives
/// it, after its receipt (IEEE 802.1AS-2020, 10.7.3.2).
pub fn due(held: &Held, span: u64) -> Option<u64>
    requires { ForSome (received held.now) (λ r. r.at + span < 2 ^ 64) }
    ensures { result ≡ option_map (λ r. r.at + span) (received held.now) }
{
    match held {
        Held::Received(reception) => Some(reception.at + span),
        _ => None,
    }
}

/// Drops what the port received where it is too old `now`, and answers whether it did.
pub fn age(held: &mut Held, span: u64, now: u64) -> bool
    requires { ForSome (received held.old) (λ r. r.at + span < 2 ^ 64) }
    ensures dropped { result ≡ is_due held.old span now }
    ensures held { held.new ≡ aged held.old span now }
    ensures keeps { (own : PortId) → HoldsFor own held.old → HoldsFor own held.new }
{
    match due(held, span) {
        Some(end) if end <= now => {
            *held = Held::Aged;
            true
        }
        _ => false,
    }
}
