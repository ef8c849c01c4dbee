//! Where something stands in a document.

ghost use Rattle.std.specs.Prelude.{◌≡◌};
ghost use Rattle.gptp_network.specs.Place.{section_limit, section_name};

use crate::keys::Name;

/// A section that is an array, by its order in a document.
#[derive(Clone, Copy, Debug, PartialEq, Eq, PartialOrd, Ord)]
pub enum Section {
    System,
    Link,
    Event,
}

impl Section {
    /// Its key.
    pub fn name(self) -> Name
        ensures { result ≡ section_name self }
    {
        match self {
            Section::System => Name::System,
            Section::Link => Name::Link,
            Section::Event => Name::Event,
        }
    }

    /// How many members it has at most.
    pub(crate) fn most(self) -> usize
        ensures { result ≡ section_limit self }
    {
        match self {
            Section::System => 512,
            Section::Link => 2048,
            Section::Event => 4096,
        }
    }
}

/// Where a key stands: at the top, in `[network]`, or in a member of another section, by its number from 0.
#[derive(Clone, Copy, Debug, PartialEq, Eq, PartialOrd, Ord)]
pub enum Place {
    Top,
    Network,
    Member(Section, usize),
}
