//! Where something stands in a document.

ghost use Rattle.std.specs.Prelude.{◌≡◌};
ghost use Rattle.gptp_lint.specs.Refusal.{place_of, section_of};
ghost use Rattle.gptp_lint.specs.Unread.{section_name};
ghost use Rattle.gptp_lint.specs.UnreadKeys.{is_at, number_of, part_of, part_of_section};

use std::fmt;

/// A section that is an array, by its order in a document.
#[derive(Clone, Copy, PartialEq, Eq, PartialOrd, Ord)]
pub(crate) enum Section {
    System,
    Link,
    Event,
}

impl Section {
    /// Its key.
    pub(crate) fn name(self) -> &'static str
        ensures { result.now ≡ section_name self }
    {
        match self {
            Section::System => "system",
            Section::Link => "link",
            Section::Event => "event",
        }
    }

    /// The section of a place at which a document is refused.
    fn of(section: gptp_network::Section) -> Section
        ensures { result ≡ section_of section }
    {
        match section {
            gptp_network::Section::System => Section::System,
            gptp_network::Section::Link => Section::Link,
            gptp_network::Section::Event => Section::Event,
        }
    }

    /// The section of a key, if it has one.
    pub(crate) fn of_name(name: &[u8]) -> Option<Section> {
        match name {
            b"system" => Some(Section::System),
            b"link" => Some(Section::Link),
            b"event" => Some(Section::Event),
            _ => None,
        }
    }
}

/// Where a key stands: at the top, in `[network]`, or in a member of another section, by its number from 0.
#[derive(Clone, Copy, PartialEq, Eq, PartialOrd, Ord)]
pub(crate) enum Place {
    Top,
    Network,
    Member(Section, usize),
}

impl Place {
    /// The place at which a document is refused.
    pub(crate) fn of(place: gptp_network::Place) -> Place
        ensures { result ≡ place_of place }
    {
        match place {
            gptp_network::Place::Top => Place::Top,
            gptp_network::Place::Network => Place::Network,
            gptp_network::Place::Member(section, number) => {
                Place::Member(Section::of(section), number)
            }
        }
    }
}

/// The part of a document that a section is, by its order there.
fn part_of_section(section: Section) -> u8
    ensures { result ≡ part_of_section section }
{
    match section {
        Section::System => 2,
        Section::Link => 3,
        Section::Event => 4,
    }
}

/// The part of a document in which a place is, by its order there.
pub(crate) fn part_of(place: Place) -> u8
    ensures { result ≡ part_of place }
{
    match place {
        Place::Top => 0,
        Place::Network => 1,
        Place::Member(section, _) => part_of_section(section),
    }
}

/// Which member of its part a place is.
pub(crate) fn number_of(place: Place) -> usize
    ensures { result ≡ number_of place }
{
    match place {
        Place::Top => 0,
        Place::Network => 0,
        Place::Member(_, number) => number,
    }
}

/// Whether two places are one.
pub(crate) fn is_at(place: Place, other: Place) -> bool
    ensures { result ≡ is_at place other }
{
    part_of(place) == part_of(other) && number_of(place) == number_of(other)
}

/// The line of a header, from 1, shown after the number of its member; nothing where there is none.
#[derive(Clone, Copy)]
pub(crate) struct LineWords(pub Option<usize>);

impl fmt::Display for LineWords {
    ghost use Rattle.std.specs.Prelude.{Some};
    ghost use Rattle.gptp_lint.specs.Unread.{line_words};

    ghost output = { λ words. Some (line_words words.0) };

    fn fmt<W: fmt::Write>(&self, f: &mut fmt::Formatter<W>) -> fmt::Result {
        match self.0 {
            Some(line) => write!(f, " line {line}"),
            None => Ok(()),
        }
    }
}

/// A place, with the line of its header.
#[derive(Clone, Copy)]
pub(crate) struct PlaceWords {
    pub place: Place,
    pub line: Option<usize>,
}

impl fmt::Display for PlaceWords {
    ghost use Rattle.std.specs.Prelude.{Some};
    ghost use Rattle.gptp_lint.specs.Unread.{place_words};

    ghost output = { λ words. Some (place_words words.place words.line) };

    fn fmt<W: fmt::Write>(&self, f: &mut fmt::Formatter<W>) -> fmt::Result {
        match self.place {
            Place::Top => f.write_str("top"),
            Place::Network => f.write_str("network"),
            Place::Member(section, number) => {
                write!(f, "{} {number}{}", section.name(), LineWords(self.line))
            }
        }
    }
}
