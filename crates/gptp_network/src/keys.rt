//! The keys of a document: their names, of each number its range, and its default where the key may be left out, and
//! which keys are read where (profile).

ghost use Rattle.std.specs.Prelude.{◌≡◌};
ghost use Rattle.gptp_network.specs.Keys.{name_text};

use gptp_setup::MOST_PORTS;

/// The latest time that an event of a document may have, in ns.
pub const LATEST_EVENT: u64 = 800_000_000_000_000;

/// The name of a key.
#[derive(Clone, Copy, Debug)]
pub enum Name {
    Version,
    Network,
    System,
    Link,
    Event,
    Announce,
    Sync,
    Pdelay,
    Timeout,
    Lost,
    Threshold,
    Turnaround,
    Residence,
    SyncTimeout,
    Granularity,
    Noise,
    Window,
    Clock,
    Priority1,
    Class,
    Accuracy,
    Variance,
    Priority2,
    Phase,
    Drift,
    Continues,
    Ports,
    A,
    APort,
    B,
    BPort,
    Min,
    Max,
    Loss,
    Up,
    At,
    Kind,
    Port,
    Value,
    Octets,
}

impl Name {
    /// As a document spells it.
    pub fn text(self) -> &'static str
        ensures { result.now ≡ name_text self }
    {
        match self {
            Name::Version => "version",
            Name::Network => "network",
            Name::System => "system",
            Name::Link => "link",
            Name::Event => "event",
            Name::Announce => "announce",
            Name::Sync => "sync",
            Name::Pdelay => "pdelay",
            Name::Timeout => "timeout",
            Name::Lost => "lost",
            Name::Threshold => "threshold",
            Name::Turnaround => "turnaround",
            Name::Residence => "residence",
            Name::SyncTimeout => "sync_timeout",
            Name::Granularity => "granularity",
            Name::Noise => "noise",
            Name::Window => "window",
            Name::Clock => "clock",
            Name::Priority1 => "priority1",
            Name::Class => "class",
            Name::Accuracy => "accuracy",
            Name::Variance => "variance",
            Name::Priority2 => "priority2",
            Name::Phase => "phase",
            Name::Drift => "drift",
            Name::Continues => "continues",
            Name::Ports => "ports",
            Name::A => "a",
            Name::APort => "a_port",
            Name::B => "b",
            Name::BPort => "b_port",
            Name::Min => "min",
            Name::Max => "max",
            Name::Loss => "loss",
            Name::Up => "up",
            Name::At => "at",
            Name::Kind => "kind",
            Name::Port => "port",
            Name::Value => "value",
            Name::Octets => "octets",
        }
    }
}

/// A number from 0: its key, the least and the greatest that it may be, and its default where it may be left out.
pub(crate) type Natural = (Name, u64, u64, Option<u64>);

/// A number that may be below 0, and its default.
pub(crate) type Whole = (Name, i64, i64, i64);

pub(crate) const VERSION: Natural = (Name::Version, 1, 2, None);

// ---- `[network]`

pub(crate) const ANNOUNCE: Whole = (Name::Announce, -4, 4, 0);

pub(crate) const SYNC: Whole = (Name::Sync, -4, 4, -3);

pub(crate) const PDELAY: Whole = (Name::Pdelay, -4, 4, 0);

pub(crate) const TIMEOUT: Natural = (Name::Timeout, 3, 10, Some(3));

pub(crate) const LOST: Natural = (Name::Lost, 1, 255, Some(9));

pub(crate) const THRESHOLD: Natural = (Name::Threshold, 1, 1_000_000_000, Some(800));

pub(crate) const TURNAROUND: Natural = (Name::Turnaround, 1, 1_000_000_000, Some(1000));

pub(crate) const RESIDENCE: Natural = (Name::Residence, 1, 1_000_000_000, Some(1000));

pub(crate) const SYNC_TIMEOUT: Natural = (Name::SyncTimeout, 0, 10, Some(0));

pub(crate) const GRANULARITY: Natural = (Name::Granularity, 0, 1000, Some(0));

pub(crate) const NOISE: Natural = (Name::Noise, 0, 1000, Some(0));

pub(crate) const WINDOW: Natural = (Name::Window, 1, 16, Some(1));

// ---- `[[system]]`, whose `announce` is an array of the numbers that are the network's

pub(crate) const PRIORITY1: Natural = (Name::Priority1, 0, 255, Some(246));

pub(crate) const CLASS: Natural = (Name::Class, 0, 255, Some(248));

pub(crate) const ACCURACY: Natural = (Name::Accuracy, 0, 255, Some(254));

pub(crate) const VARIANCE: Natural = (Name::Variance, 0, 65535, Some(17258));

pub(crate) const PRIORITY2: Natural = (Name::Priority2, 0, 255, Some(248));

pub(crate) const PHASE: Natural = (Name::Phase, 0, 1_000_000_000_000_000_000, Some(0));

pub(crate) const DRIFT: Whole = (Name::Drift, -219_902_325, 219_902_325, 0);

pub(crate) const PORTS: Natural = (Name::Ports, 0, MOST_PORTS as u64, Some(1));

// ---- `[[link]]`

pub(crate) const A_PORT: Natural = (Name::APort, 1, MOST_PORTS as u64, None);

pub(crate) const B_PORT: Natural = (Name::BPort, 1, MOST_PORTS as u64, None);

pub(crate) const MIN: Natural = (Name::Min, 1, 16_000_000_000, None);

pub(crate) const MAX: Natural = (Name::Max, 1, 16_000_000_000, None);

pub(crate) const LOSS: Natural = (Name::Loss, 0, 1000, Some(0));

// ---- `[[event]]`, whose `min` and `max` are those of a link

pub(crate) const AT: Natural = (Name::At, 0, LATEST_EVENT, None);

pub(crate) const PORT: Natural = (Name::Port, 1, MOST_PORTS as u64, None);

pub(crate) const SET_LOSS: Natural = (Name::Loss, 0, 1000, None);

pub(crate) const VALUE: Natural = (Name::Value, 0, 255, None);

// ---- which keys are read where, in the order of the formats

/// Those at the top.
pub const TOP_KEYS: &[Name] = &[
    Name::Version,
    Name::Network,
    Name::System,
    Name::Link,
    Name::Event,
];

/// Those of `[network]`.
pub const NETWORK_KEYS: &[Name] = &[
    Name::Announce,
    Name::Sync,
    Name::Pdelay,
    Name::Timeout,
    Name::Lost,
    Name::Threshold,
    Name::Turnaround,
    Name::Residence,
    Name::SyncTimeout,
    Name::Granularity,
    Name::Noise,
    Name::Window,
];

/// Those of a system of a document of version 1.
pub const SYSTEM_KEYS_1: &[Name] = &[
    Name::Clock,
    Name::Priority1,
    Name::Class,
    Name::Accuracy,
    Name::Variance,
    Name::Priority2,
    Name::Phase,
    Name::Drift,
    Name::Continues,
    Name::Ports,
];

/// Those of a system of a document of version 2.
pub const SYSTEM_KEYS_2: &[Name] = &[
    Name::Clock,
    Name::Priority1,
    Name::Class,
    Name::Accuracy,
    Name::Variance,
    Name::Priority2,
    Name::Phase,
    Name::Drift,
    Name::Continues,
    Name::Ports,
    Name::Announce,
];

/// Those of a link.
pub const LINK_KEYS: &[Name] = &[
    Name::A,
    Name::APort,
    Name::B,
    Name::BPort,
    Name::Min,
    Name::Max,
    Name::Loss,
    Name::Up,
];

/// Those of an event of no known kind.
pub const EVENT_KEYS: &[Name] = &[Name::At, Name::Kind];

/// Those of `link_down` and `link_up`.
pub const LINK_EVENT_KEYS: &[Name] = &[Name::At, Name::Kind, Name::Clock, Name::Port];

/// Those of `link_set`.
pub const LINK_SET_KEYS: &[Name] = &[
    Name::At,
    Name::Kind,
    Name::Clock,
    Name::Port,
    Name::Min,
    Name::Max,
    Name::Loss,
];

/// Those of `fail` and `recover`.
pub const SYSTEM_EVENT_KEYS: &[Name] = &[Name::At, Name::Kind, Name::Clock];

/// Those of `priority1`.
pub const PRIORITY1_KEYS: &[Name] = &[Name::At, Name::Kind, Name::Clock, Name::Value];

/// Those of `inject`.
pub const INJECT_KEYS: &[Name] = &[Name::At, Name::Kind, Name::Clock, Name::Port, Name::Octets];
