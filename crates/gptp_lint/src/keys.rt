//! Which keys are read where (profile).

ghost use Rattle.std.specs.Prelude.{◌≡◌, ◌++◌, ◌∷◌, [], IfOk, OnOk, bytes_eq, filter, if◌then◌else◌, map, option_map};
ghost use Rattle.std.specs.List.{list_any};
ghost use Rattle.toml.specs.Data.{get_member};
ghost use Rattle.toml.specs.View.{items_view, table_view, view};
ghost use Rattle.gptp_network.specs.Keys.{name_text};
ghost use Rattle.gptp_lint.specs.Keys.{absent_at, event_keys, is_absent, is_known, is_two, is_version_2, keys_read, kind_text, member_at, members_of, system_keys, table_at};

use crate::place::{Place, Section};
use gptp_network::{
    EVENT_KEYS, INJECT_KEYS, LINK_EVENT_KEYS, LINK_KEYS, LINK_SET_KEYS, NETWORK_KEYS, Name,
    PRIORITY1_KEYS, SYSTEM_EVENT_KEYS, SYSTEM_KEYS_1, SYSTEM_KEYS_2, TOP_KEYS,
};
use std::alloc::{AllocError, Global};
use toml::{Table, Value};

/// Those of an event of this kind.
#[tactic(auto, unfolding(crate::specs::Keys::event_keys))]
fn event_keys(kind: &str) -> &'static [Name]
    ensures { result.now ≡ event_keys kind.now }
{
    if kind == "link_down" {
        LINK_EVENT_KEYS
    } else if kind == "link_up" {
        LINK_EVENT_KEYS
    } else if kind == "link_set" {
        LINK_SET_KEYS
    } else if kind == "fail" {
        SYSTEM_EVENT_KEYS
    } else if kind == "recover" {
        SYSTEM_EVENT_KEYS
    } else if kind == "priority1" {
        PRIORITY1_KEYS
    } else if kind == "inject" {
        INJECT_KEYS
    } else {
        EVENT_KEYS
    }
}

/// The value at a key.
fn value_at<'a>(table: &'a Table, key: &str) -> Option<&'a Value>
    ensures { option_map (λ value. view value.now) result ≡ get_member key.now (table_view table.now) }
{
    table.get(key)
}

/// The kind of an event, empty where it has none.
fn kind_of<'a>(table: Option<&'a Table>) -> &'a str
    ensures { result.now ≡ kind_text (option_map (λ event. table_view event.now) table.entry) }
{
    match table {
        None => "",
        Some(table) => match value_at(table, "kind") {
            None => "",
            Some(value) => match value.as_str() {
                None => "",
                Some(text) => text,
            },
        },
    }
}

/// Whether a number is 2.
fn is_two(number: i64) -> bool
    ensures { result ≡ is_two number }
{
    number == 2
}

/// Whether a document is of version 2.
fn is_version_2(document: &Table) -> bool
    ensures { result ≡ is_version_2 (table_view document.now) }
{
    match value_at(document, "version") {
        None => false,
        Some(value) => match value.as_integer() {
            None => false,
            Some(number) => is_two(number),
        },
    }
}

/// The members of a section.
fn members<'a>(document: &'a Table, section: Section) -> &'a [Value]
    ensures { items_view result.now ≡ members_of (table_view document.now) section }
{
    match value_at(document, section.name()) {
        None => &[],
        Some(value) => match value.as_array() {
            None => &[],
            Some(members) => members.as_slice(),
        },
    }
}

/// The table of a member of a section, if it is one.
fn member_table<'a>(members: &'a [Value], number: usize) -> Option<&'a Table>
    ensures { option_map (λ table. table_view table.now) result ≡ member_at (items_view members.now) number }
{
    if number < members.len() {
        members[number].as_table()
    } else {
        None
    }
}

/// The table at a place, if there is one.
pub(crate) fn table_at<'a>(document: &'a Table, place: Place) -> Option<&'a Table>
    ensures { option_map (λ table. table_view table.now) result ≡ table_at (table_view document.now) place }
{
    match place {
        Place::Top => Some(document),
        Place::Network => match value_at(document, "network") {
            None => None,
            Some(value) => value.as_table(),
        },
        Place::Member(section, number) => member_table(members(document, section), number),
    }
}

/// Those of a system, by the version of its document.
fn system_keys(document: &Table) -> &'static [Name]
    ensures { result.now ≡ system_keys (table_view document.now) }
{
    if is_version_2(document) {
        SYSTEM_KEYS_2
    } else {
        SYSTEM_KEYS_1
    }
}

/// The keys that are read at a place, in the order of the formats.
pub(crate) fn keys_at(document: &Table, place: Place) -> &'static [Name]
    ensures { map name_text result.now ≡ keys_read (table_view document.now) place }
{
    match place {
        Place::Top => TOP_KEYS,
        Place::Network => NETWORK_KEYS,
        Place::Member(Section::System, _) => system_keys(document),
        Place::Member(Section::Link, _) => LINK_KEYS,
        Place::Member(Section::Event, _) => event_keys(kind_of(table_at(document, place))),
    }
}

/// Whether a key is one of some.
fn is_among(keys: &[Name], key: &[u8]) -> bool
    ensures { result ≡ list_any (λ known. bytes_eq known key.now) (map name_text keys.now) }
{
    for known in keys {
        if known.text().as_bytes() == key {
            return true;
        }
    }
    false
}

/// Whether a key is read at a place, or is a name, which is read nowhere and may stand everywhere.
pub(crate) fn is_known(keys: &[Name], key: &[u8]) -> bool
    ensures { result ≡ is_known (map name_text keys.now) key.now }
{
    key == b"name".as_slice() || is_among(keys, key)
}

/// Puts a key that is read after others, if a table doesn't have it.
fn push_absent(
    absent: &mut Vec<&'static [u8]>,
    table: &Table,
    known: Name,
) -> Result<(), AllocError>
    ensures { OnOk result (map (λ key. key.now) absent.new.items ≡ map (λ key. key.now) absent.old.items
        ++ (if is_absent (table_view table.now) (name_text known) then name_text known ∷ [] else [])) }
{
    match value_at(table, known.text()) {
        Some(_) => Ok(()),
        None => {
            absent.push(known.text().as_bytes())?;
            Ok(())
        }
    }
}

/// The keys that a table doesn't have, of some.
fn absent_in(alloc: Global, table: &Table, keys: &[Name]) -> Result<Vec<&'static [u8]>, AllocError>
    ensures { IfOk result (λ absent. map (λ key. key.now) absent.items
        ≡ filter (is_absent (table_view table.now)) (map name_text keys.now)) }
{
    let mut absent = Vec::new(alloc);
    for known in keys {
        push_absent(&mut absent, table, *known)?;
    }
    Ok(absent)
}

/// The keys that are read at a place and absent there, in the order of the formats.
pub(crate) fn absent_at(
    alloc: Global,
    document: &Table,
    place: Place,
) -> Result<Vec<&'static [u8]>, AllocError>
    ensures { IfOk result (λ absent. map (λ key. key.now) absent.items ≡ absent_at (table_view document.now) place) }
{
    match table_at(document, place) {
        None => Ok(Vec::new(alloc)),
        Some(table) => absent_in(alloc, table, keys_at(document, place)),
    }
}
