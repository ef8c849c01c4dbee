//! Which keys stand where in a text that is TOML, in its order, and at which lines members begin.

ghost use Rattle.std.specs.Prelude.{◌≡◌, ◌++◌, ◌∷◌, [], IfOk, OnOk, Some, length, map, option_map, option_to_list, slice_get};
ghost use Rattle.std.specs.List.{AllByRecursion, fold};
ghost use Rattle.toml.specs.Data.{Members};
ghost use Rattle.toml_parser.specs.Reading.{key_view};
ghost use Rattle.gptp_outline.specs.Inline.{HasValue, array_keys, keys_view};
ghost use Rattle.gptp_outline.specs.Rows.{shown, table_of};
ghost use Rattle.gptp_outline.specs.declared.row.RowKind.TheVariants.{Pair};
ghost use Rattle.gptp_lint.specs.Outline.{after, after_array, after_pair, after_table, array_section, at_place, before_rows, entries_view, first_part, header_entries, keys_at, last_member, line_in, lines_of, network_context, network_entries, numbered, opened, outline_of_text, outline_state, pair_entries, place_inside, placed_entries, second_part, section_of, table_context, value_entries};

use crate::place::{Place, Section};
use gptp_outline::{Row, RowKind, array_keys, rows, table_keys};
use std::alloc::{AllocError, Global};
use toml_parser::{Key, ParseError};

/// A key at a place.
#[derive(Drop)]
pub(crate) struct Entry {
    pub place: Place,
    pub key: Vec<u8>,
}

/// The keys at the top, in `[network]` and in each member of the other sections, in the order of the text; and the
/// lines, from 1, of the headers of these members. A key may stand there several times.
#[derive(Drop)]
pub(crate) struct Outline {
    /// Where the keys of pairs stand after the last header, if they count.
    context: Option<Place>,
    pub entries: Vec<Entry>,
    pub systems: Vec<usize>,
    pub links: Vec<usize>,
    pub events: Vec<usize>,
}

/// The first part of a key.
fn first_part(key: &Key) -> &str
    ensures { result.now ≡ first_part (key_view key.now) }
{
    match key.path.first() {
        Some(part) => part.as_str(),
        None => key.last.as_str(),
    }
}

/// The second part of a key, if it has one.
fn second_part(key: &Key) -> Option<&str>
    ensures { option_map (λ part. part.now) result ≡ second_part (key_view key.now) }
{
    if key.path.is_empty() {
        return None;
    }
    match key.path.get(1) {
        Some(part) => Some(part.as_str()),
        None => Some(key.last.as_str()),
    }
}

/// The section of a name, if it has one that is an array.
fn section_of(name: &str) -> Option<Section>
    ensures { result ≡ section_of name.now }
{
    if name == "system" {
        Some(Section::System)
    } else if name == "link" {
        Some(Section::Link)
    } else if name == "event" {
        Some(Section::Event)
    } else {
        None
    }
}

/// The section that a key of one part names, if it is an array.
fn array_section(key: &Key) -> Option<Section>
    ensures { result ≡ array_section (key_view key.now) }
{
    match second_part(key) {
        Some(_) => None,
        None => section_of(first_part(key)),
    }
}

/// Puts a key after others.
fn push_key(
    alloc: Global,
    entries: &mut Vec<Entry>,
    place: Place,
    key: &str,
) -> Result<(), AllocError>
    ensures { OnOk result (entries_view entries.new ≡ entries_view entries.old ++ (place, key.now) ∷ []) }
{
    let octets = Vec::from_slice(alloc, key.as_bytes())?;
    entries.push(Entry { place, key: octets })?;
    Ok(())
}

/// Puts a key after others, where there is one and its place counts.
fn push_if(
    alloc: Global,
    entries: &mut Vec<Entry>,
    place: Option<Place>,
    key: Option<&str>,
) -> Result<(), AllocError>
    ensures { OnOk result (entries_view entries.new ≡ entries_view entries.old
        ++ at_place place (option_to_list (option_map (λ part. part.now) key.entry))) }
{
    match place {
        None => Ok(()),
        Some(place) => match key {
            None => Ok(()),
            Some(key) => push_key(alloc, entries, place, key),
        },
    }
}

/// Puts keys after others, each by its first part.
fn push_keys(
    alloc: Global,
    entries: &mut Vec<Entry>,
    place: Place,
    keys: &[Key],
) -> Result<(), AllocError>
    ensures { OnOk result (entries_view entries.new ≡ entries_view entries.old
        ++ keys_at place (map key_view keys.now)) }
{
    for key in keys {
        push_key(alloc, entries, place, first_part(key))?;
    }
    Ok(())
}

/// Puts the keys of the members of an array after others.
fn push_members(
    alloc: Global,
    entries: &mut Vec<Entry>,
    section: Section,
    members: &[Vec<Key>],
) -> Result<(), AllocError>
    ensures { OnOk result (entries_view entries.new ≡ entries_view entries.old
        ++ numbered section 0 (map keys_view members.now)) }
{
    let mut number = 0;
    for keys in members {
        push_keys(alloc, entries, Place::Member(section, number), keys)?;
        number += 1;
    }
    Ok(())
}

/// Puts the keys of `network = {..}` or `network.key = ..` after others.
fn push_network(alloc: Global, entries: &mut Vec<Entry>, row: &Row<'_>) -> Result<(), AllocError>
    ensures { OnOk result (HasValue (shown row.now) → row.now.kind ≡ Pair
        → entries_view entries.new ≡ entries_view entries.old
        ++ network_entries (second_part (key_view row.now.key)) (shown row.now)) }
{
    if let Some(part) = second_part(&row.key) {
        return push_key(alloc, entries, Place::Network, part);
    }
    match table_keys(alloc, row) {
        Ok(keys) => push_keys(alloc, entries, Place::Network, &keys),
        Err(_) => Err(AllocError),
    }
}

/// Puts the keys of a section that is spelled as an array after others.
fn push_section(
    alloc: Global,
    entries: &mut Vec<Entry>,
    section: Section,
    row: &Row<'_>,
) -> Result<(), AllocError>
    ensures { OnOk result (HasValue (shown row.now) → row.now.kind ≡ Pair
        → entries_view entries.new ≡ entries_view entries.old ++ numbered section 0 (array_keys (shown row.now))) }
{
    match array_keys(alloc, row) {
        Ok(members) => push_members(alloc, entries, section, &members),
        Err(_) => Err(AllocError),
    }
}

/// Puts the keys in the value of a pair at the top after others.
fn push_value(alloc: Global, entries: &mut Vec<Entry>, row: &Row<'_>) -> Result<(), AllocError>
    ensures { OnOk result (HasValue (shown row.now) → row.now.kind ≡ Pair
        → entries_view entries.new ≡ entries_view entries.old ++ value_entries (shown row.now)) }
{
    if first_part(&row.key) == "network" {
        return push_network(alloc, entries, row);
    }
    match array_section(&row.key) {
        Some(section) => push_section(alloc, entries, section, row),
        None => Ok(()),
    }
}

/// Puts the key of a pair at a place after others, and at the top the keys in its value.
fn push_pair_at(
    alloc: Global,
    entries: &mut Vec<Entry>,
    place: Place,
    row: &Row<'_>,
) -> Result<(), AllocError>
    ensures { OnOk result (HasValue (shown row.now) → row.now.kind ≡ Pair
        → entries_view entries.new ≡ entries_view entries.old ++ placed_entries place (shown row.now)) }
{
    push_key(alloc, entries, place, first_part(&row.key))?;
    match place {
        Place::Top => push_value(alloc, entries, row),
        Place::Network => Ok(()),
        Place::Member(_, _) => Ok(()),
    }
}

/// Puts the keys of a pair after others.
fn push_pair(
    alloc: Global,
    entries: &mut Vec<Entry>,
    context: Option<Place>,
    row: &Row<'_>,
) -> Result<(), AllocError>
    ensures { OnOk result (HasValue (shown row.now) → row.now.kind ≡ Pair
        → entries_view entries.new ≡ entries_view entries.old ++ pair_entries context (shown row.now)) }
{
    match context {
        None => Ok(()),
        Some(place) => push_pair_at(alloc, entries, place, row),
    }
}

/// Puts the keys of a header after others, of which the second part stands at a place, if that counts.
fn push_header(
    alloc: Global,
    entries: &mut Vec<Entry>,
    place: Option<Place>,
    key: &Key,
) -> Result<(), AllocError>
    ensures { OnOk result (entries_view entries.new ≡ entries_view entries.old
        ++ header_entries place (key_view key.now)) }
{
    push_key(alloc, entries, Place::Top, first_part(key))?;
    push_if(alloc, entries, place, second_part(key))
}

/// Puts a line after others, and answers how many there were.
fn push_line(lines: &mut Vec<usize>, line: usize) -> Result<usize, AllocError>
    ensures number { IfOk result (λ number. number ≡ length lines.old.items) }
    ensures pushed { OnOk result (lines.new.items ≡ lines.old.items ++ line ∷ []) }
{
    let number = lines.len();
    lines.push(line)?;
    Ok(number)
}

/// The place of the pairs after the header `[name]`, if they count.
fn network_context(name: &str) -> Option<Place>
    ensures { result ≡ network_context name.now }
{
    if name == "network" {
        Some(Place::Network)
    } else {
        None
    }
}

/// The place of the pairs after a header in single brackets, if they count.
fn table_context(key: &Key) -> Option<Place>
    ensures { result ≡ table_context (key_view key.now) }
{
    match second_part(key) {
        Some(_) => None,
        None => network_context(first_part(key)),
    }
}

impl Outline {
    /// Before the first row.
    pub(crate) fn new(alloc: Global) -> Self
        ensures { outline_state result ≡ before_rows }
    {
        Outline {
            context: Some(Place::Top),
            entries: Vec::new(alloc),
            systems: Vec::new(alloc),
            links: Vec::new(alloc),
            events: Vec::new(alloc),
        }
    }

    /// The lines of the headers of a section.
    fn lines(&self, section: Section) -> &[usize]
        ensures { result.now ≡ lines_of section (outline_state self.now) }
    {
        match section {
            Section::System => &self.systems,
            Section::Link => &self.links,
            Section::Event => &self.events,
        }
    }

    /// The line of the header of a place, if it has one.
    pub(crate) fn line(&self, place: Place) -> Option<usize>
        ensures { result ≡ line_in (outline_state self.now) place }
    {
        match place {
            Place::Top => None,
            Place::Network => None,
            Place::Member(section, number) => self.lines(section).get(number).copied(),
        }
    }

    /// The line of the header of a link, if it has one.
    pub(crate) fn link_line(&self, link: usize) -> Option<usize>
        ensures { result ≡ slice_get self.now.links.items link }
    {
        self.links.as_slice().get(link).copied()
    }

    /// The member of a section whose header came last, if there is one.
    fn last_member(&self, section: Section) -> Option<Place>
        ensures { result ≡ last_member section (outline_state self.now) }
    {
        let count = self.lines(section).len();
        if count == 0 {
            None
        } else {
            Some(Place::Member(section, count - 1))
        }
    }

    /// Where the second part of a header with this first part stands, if that counts.
    fn place_inside(&self, name: &str) -> Option<Place>
        ensures { result ≡ place_inside name.now (outline_state self.now) }
    {
        if name == "network" {
            return Some(Place::Network);
        }
        match section_of(name) {
            Some(section) => self.last_member(section),
            None => None,
        }
    }

    /// After a row that holds a value.
    fn note_pair(&mut self, alloc: Global, row: &Row<'_>) -> Result<(), AllocError>
        ensures { OnOk result (HasValue (shown row.now) → row.now.kind ≡ Pair
            → outline_state self.new ≡ after_pair (outline_state self.old) (shown row.now)) }
    {
        let context = self.context;
        push_pair(alloc, &mut self.entries, context, row)
    }

    /// After a header in single brackets.
    fn note_table(&mut self, alloc: Global, row: &Row<'_>) -> Result<(), AllocError>
        ensures { OnOk result (outline_state self.new ≡ after_table (outline_state self.old) (shown row.now)) }
    {
        let place = self.place_inside(first_part(&row.key));
        push_header(alloc, &mut self.entries, place, &row.key)?;
        self.context = table_context(&row.key);
        Ok(())
    }

    /// A member of a section begins in a line.
    fn open(&mut self, section: Section, line: usize) -> Result<(), AllocError>
        ensures { OnOk result (outline_state self.new ≡ opened section line (outline_state self.old)) }
    {
        match section {
            Section::System => {
                let number = push_line(&mut self.systems, line)?;
                self.context = Some(Place::Member(Section::System, number));
                Ok(())
            }
            Section::Link => {
                let number = push_line(&mut self.links, line)?;
                self.context = Some(Place::Member(Section::Link, number));
                Ok(())
            }
            Section::Event => {
                let number = push_line(&mut self.events, line)?;
                self.context = Some(Place::Member(Section::Event, number));
                Ok(())
            }
        }
    }

    /// After a header in double brackets.
    fn note_array(&mut self, alloc: Global, row: &Row<'_>) -> Result<(), AllocError>
        ensures { OnOk result (outline_state self.new ≡ after_array (outline_state self.old) (shown row.now)) }
    {
        let place = self.place_inside(first_part(&row.key));
        push_header(alloc, &mut self.entries, place, &row.key)?;
        self.context = None;
        match array_section(&row.key) {
            Some(section) => self.open(section, row.line),
            None => Ok(()),
        }
    }

    /// After one row more.
    fn note_row(&mut self, alloc: Global, row: &Row<'_>) -> Result<(), AllocError>
        ensures { OnOk result (HasValue (shown row.now)
            → outline_state self.new ≡ after (outline_state self.old) (shown row.now)) }
    {
        match row.kind {
            RowKind::Pair => self.note_pair(alloc, row),
            RowKind::Table => self.note_table(alloc, row),
            RowKind::ArrayTable => self.note_array(alloc, row),
        }
    }
}

/// The outline of rows.
fn outline_of_rows(alloc: Global, rows: &[Row<'_>]) -> Result<Outline, AllocError>
    ensures { IfOk result (λ outline. AllByRecursion HasValue (map shown rows.now)
        → outline_state outline ≡ fold after before_rows (map shown rows.now)) }
{
    let mut outline = Outline::new(alloc);
    for row in rows {
        outline.note_row(alloc, row)?;
    }
    Ok(outline)
}

/// The outline of a text in UTF-8 that is TOML.
fn outline_of_str(alloc: Global, text: &str) -> Result<Outline, AllocError>
    ensures { IfOk result (λ outline. (t : Members) → table_of text.now ≡ Some t
        → outline_state outline ≡ outline_of_text text.now) }
{
    match rows(alloc, text) {
        Ok(rows) => outline_of_rows(alloc, &rows),
        Err(error) => match error {
            ParseError::OutOfMemory => Err(AllocError),
            ParseError::At(_, _, _) => Ok(Outline::new(alloc)),
        },
    }
}

/// The outline of a text that is TOML.
pub(crate) fn outline_of(alloc: Global, text: &[u8]) -> Result<Outline, AllocError>
    ensures { IfOk result (λ outline. (t : Members) → table_of text.now ≡ Some t
        → outline_state outline ≡ outline_of_text text.now) }
{
    match str::from_utf8(text) {
        Ok(source) => outline_of_str(alloc, source),
        Err(_) => Ok(Outline::new(alloc)),
    }
}
