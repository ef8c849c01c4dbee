//! What the keys of a table hold.

ghost use Rattle.std.specs.Prelude.{◌≡◌, ◌≤◌, ◌≤ℤ◌, length, Ok, Err, Some, IfSome, IfNone, IfOk, IfErr, option_map};
ghost use Rattle.hex.specs.Hex.{decode_of};
ghost use Rattle.toml.specs.Data.{get_member, no_members};
ghost use Rattle.toml.specs.View.{view, table_view, items_view};
ghost use Rattle.gptp_network.specs.Keys.{name_text};
ghost use Rattle.gptp_network.specs.Reading.{absent_at, array_in, clock_at, clock_in, flag_at, natural_at, natural_in, octets_at, octets_in, octets_of_digits, table_in, text_at, whole_at, whole_in};
ghost use Rattle.gptp_network.specs.Why.{Stops};

use crate::keys::{Name, Natural, Whole};
use crate::why::{Why, misspelled, other_kind};
use gptp_scenario::Octets;
use gptp_vector::ClockId;
use hex::{FromHex, FromHexError};
use std::alloc::Global;
use toml::{Table, Value};

/// The value at a key.
pub(crate) fn value_at(table: &Table, key: Name) -> Option<&Value>
    ensures { option_map (λ v. view v.now) result ≡ get_member (name_text key) (table_view table.now) }
{
    table.get(key.text())
}

/// What stands where a key is absent.
fn absent<T>(key: Name, default: Option<T>) -> Result<T, Why>
    ensures { result ≡ absent_at key default }
{
    match default {
        Some(value) => Ok(value),
        None => Err(Why::Missing { key }),
    }
}

/// A number from 0, where it is in its range.
fn natural_in(key: Natural, number: i64) -> Result<u64, Why>
    ensures is { result ≡ natural_in key number }
    ensures least { IfOk result (λ n. key.1 ≤ n) }
    ensures bound { IfOk result (λ n. n ≤ key.2) }
{
    if 0 <= number && key.1 <= number as u64 && number as u64 <= key.2 {
        Ok(number as u64)
    } else {
        Err(Why::Natural {
            key: key.0,
            value: number,
            least: key.1,
            most: key.2,
        })
    }
}

/// A whole number in a range of numbers from 0, or the default where the key is absent.
#[tactic(auto, unfolding(crate::specs::Reading::natural_at))]
pub(crate) fn natural(table: &Table, key: Natural) -> Result<u64, Why>
    requires low { IfSome key.3 (λ n. key.1 ≤ n) }
    requires high { IfSome key.3 (λ n. n ≤ key.2) }
    ensures is { result ≡ natural_at key (table_view table.now) }
    ensures least { IfOk result (λ n. key.1 ≤ n) }
    ensures bound { IfOk result (λ n. n ≤ key.2) }
{
    match value_at(table, key.0) {
        None => absent(key.0, key.3),
        Some(value) => match value.as_integer() {
            None => Err(other_kind(key.0, value)),
            Some(number) => natural_in(key, number),
        },
    }
}

/// A number, where it is in its range.
pub(crate) fn whole_in(key: Whole, number: i64) -> Result<i64, Why>
    ensures is { result ≡ whole_in key number }
    ensures low { IfOk result (λ z. key.1 ≤ℤ z) }
    ensures high { IfOk result (λ z. z ≤ℤ key.2) }
{
    if key.1 <= number && number <= key.2 {
        Ok(number)
    } else {
        Err(Why::Whole {
            key: key.0,
            value: number,
            least: key.1,
            most: key.2,
        })
    }
}

/// A whole number in a range, or the default where the key is absent.
#[tactic(auto, unfolding(crate::specs::Reading::whole_at))]
pub(crate) fn whole(table: &Table, key: Whole) -> Result<i64, Why>
    requires low { key.1 ≤ℤ key.3 }
    requires high { key.3 ≤ℤ key.2 }
    ensures is { result ≡ whole_at key (table_view table.now) }
    ensures low { IfOk result (λ z. key.1 ≤ℤ z) }
    ensures high { IfOk result (λ z. z ≤ℤ key.2) }
{
    match value_at(table, key.0) {
        None => Ok(key.3),
        Some(value) => match value.as_integer() {
            None => Err(other_kind(key.0, value)),
            Some(number) => whole_in(key, number),
        },
    }
}

/// True or false, or the default where the key is absent.
#[tactic(auto, unfolding(crate::specs::Reading::flag_at))]
pub(crate) fn flag(table: &Table, key: Name, default: bool) -> Result<bool, Why>
    ensures { result ≡ flag_at key default (table_view table.now) }
{
    match value_at(table, key) {
        None => Ok(default),
        Some(value) => match value.as_bool() {
            None => Err(other_kind(key, value)),
            Some(flag) => Ok(flag),
        },
    }
}

/// A text.
#[tactic(auto, unfolding(crate::specs::Reading::text_at))]
pub(crate) fn text(table: &Table, key: Name) -> Result<&str, Why>
    ensures is { IfOk result (λ s. text_at key (table_view table.now) ≡ Ok s.now) }
    ensures refused { IfErr result (λ e. text_at key (table_view table.now) ≡ Err e) }
{
    match value_at(table, key) {
        None => Err(Why::Missing { key }),
        Some(value) => match value.as_str() {
            None => Err(other_kind(key, value)),
            Some(text) => Ok(text),
        },
    }
}

/// The clock that a text spells as sixteen hexadecimal digits.
fn clock_in(key: Name, text: &str) -> Result<ClockId, Why>
    ensures { result ≡ clock_in key text.now }
{
    match <[u8; 8] as FromHex>::from_hex(text) {
        Ok(octets) => Ok(ClockId::of_octets(octets)),
        Err(_) => Err(misspelled(key, text)),
    }
}

/// A clock as sixteen hexadecimal digits of either case.
#[tactic(auto, unfolding(crate::specs::Reading::clock_at))]
pub(crate) fn clock(table: &Table, key: Name) -> Result<ClockId, Why>
    ensures { result ≡ clock_at key (table_view table.now) }
{
    match value_at(table, key) {
        None => Err(Why::Missing { key }),
        Some(value) => match value.as_str() {
            None => Err(other_kind(key, value)),
            Some(text) => clock_in(key, text),
        },
    }
}

/// The octets that so many digits spell.
#[tactic(auto, using(crate::proofs::OctetLemmas::few_octets))]
fn octets_of_digits(alloc: Global, key: Name, digits: &str) -> Result<Octets, Why>
    requires { length digits.now ≤ 4232 }
    ensures octets { IfOk result (λ o. octets_of_digits key digits.now (decode_of digits.now) ≡ Ok o) }
    ensures refused { Stops (octets_of_digits key digits.now (decode_of digits.now)) result }
{
    match hex::decode(alloc, digits) {
        Ok(octets) => match Octets::new(octets) {
            Some(octets) => Ok(octets),
            None => Err(misspelled(key, digits)),
        },
        Err(FromHexError::OutOfMemory) => Err(Why::Memory),
        Err(_) => Err(misspelled(key, digits)),
    }
}

/// The octets of a frame as hexadecimal digits: 1 to 2,116. A text of more digits takes no memory.
fn octets_in(alloc: Global, key: Name, text: &str) -> Result<Octets, Why>
    ensures octets { IfOk result (λ o. octets_in key text.now ≡ Ok o) }
    ensures refused { Stops (octets_in key text.now) result }
{
    if 1 <= text.len() && text.len() <= 4232 {
        octets_of_digits(alloc, key, text)
    } else {
        Err(misspelled(key, text))
    }
}

/// The octets of a frame as hexadecimal digits of either case.
#[tactic(auto, unfolding(crate::specs::Reading::octets_at))]
pub(crate) fn octets(alloc: Global, table: &Table, key: Name) -> Result<Octets, Why>
    ensures octets { IfOk result (λ o. octets_at key (table_view table.now) ≡ Ok o) }
    ensures refused { Stops (octets_at key (table_view table.now)) result }
{
    match value_at(table, key) {
        None => Err(Why::Missing { key }),
        Some(value) => match value.as_str() {
            None => Err(other_kind(key, value)),
            Some(text) => octets_in(alloc, key, text),
        },
    }
}

/// A section that is a table, where it is there.
#[tactic(auto, unfolding(crate::specs::Reading::table_in))]
pub(crate) fn table_in(table: &Table, key: Name) -> Result<Option<&Table>, Why>
    ensures some { IfOk result (λ o. IfSome o (λ t. table_in key (table_view table.now) ≡ Ok (table_view t.now))) }
    ensures none { IfOk result (λ o. IfNone o (table_in key (table_view table.now) ≡ Ok no_members)) }
    ensures refused { IfErr result (λ e. table_in key (table_view table.now) ≡ Err e) }
{
    match value_at(table, key) {
        None => Ok(None),
        Some(value) => match value.as_table() {
            None => Err(other_kind(key, value)),
            Some(section) => Ok(Some(section)),
        },
    }
}

/// A section that is an array, empty where it is absent.
#[tactic(auto, unfolding(crate::specs::Reading::array_in))]
pub(crate) fn array_in(table: &Table, key: Name) -> Result<&[Value], Why>
    ensures items { IfOk result (λ vs. array_in key (table_view table.now) ≡ Ok (items_view vs.now)) }
    ensures refused { IfErr result (λ e. array_in key (table_view table.now) ≡ Err e) }
{
    match value_at(table, key) {
        None => Ok(&[]),
        Some(value) => match value.as_array() {
            None => Err(other_kind(key, value)),
            Some(section) => Ok(section.as_slice()),
        },
    }
}
