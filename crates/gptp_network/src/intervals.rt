//! The key `announce` of a system: what its ports announce at.

ghost use Rattle.std.specs.Prelude.{◌≡◌, ◌≤◌, ◌≤ℤ◌, length, replicate, IsOk, Ok, Err, Some, OnOk, IfOk, IfErr};
ghost use Rattle.toml.specs.Data.{as_integer};
ghost use Rattle.toml.specs.View.{view, items_view, table_view};
ghost use Rattle.gptp_network.specs.Values.{kind_of, whole_of};
ghost use Rattle.gptp_network.specs.Intervals.{whole_numbers, intervals_in};
ghost use Rattle.gptp_network.specs.ReadIntervals.{far_member, intervals_why, kind_why, other_member, range_why, read_array, read_intervals};

use crate::fault::DocumentFault;
use crate::keys::{ANNOUNCE, Name};
use crate::values::value_at;
use crate::why::{Why, other_kind};
use arrayvec::ArrayVec;
use gptp_setup::MOST_PORTS;
use toml::{Table, Value};

/// The whole number that a member of an array is.
fn number_of(value: &Value) -> Result<i64, DocumentFault>
    ensures { result ≡ kind_of (as_integer (view value.now)) }
{
    value.as_integer().ok_or(DocumentFault::WrongKind)
}

/// Refused where a member of an array is no whole number.
fn only_numbers(values: &[Value]) -> Result<(), DocumentFault>
    ensures numbers { OnOk result (IsOk (whole_numbers (items_view values.now))) }
    ensures refused { IfErr result (λ e. whole_numbers (items_view values.now) ≡ Err e) }
{
    for value in values {
        number_of(value)?;
    }
    Ok(())
}

/// A whole number in a range.
fn whole_of(least: i64, greatest: i64, number: i64) -> Result<i64, DocumentFault>
    ensures is { result ≡ whole_of least greatest number }
    ensures low { IfOk result (λ z. least ≤ℤ z) }
    ensures high { IfOk result (λ z. z ≤ℤ greatest) }
{
    if least <= number && number <= greatest {
        Ok(number)
    } else {
        Err(DocumentFault::OutOfRange)
    }
}

/// The intervals that whole numbers are, of which there are as many as ports.
#[tactic(auto, unfolding(crate::specs::Intervals::intervals_in))]
fn each_interval(values: &[Value]) -> Result<ArrayVec<i8, MOST_PORTS>, DocumentFault>
    requires few { length values.now ≤ MOST_PORTS }
    requires numbers { IsOk (whole_numbers (items_view values.now)) }
    ensures intervals { IfOk result (λ v. intervals_in (length values.now) (items_view values.now) ≡ Ok v.items) }
    ensures refused { IfErr result (λ e. intervals_in (length values.now) (items_view values.now) ≡ Err e) }
{
    let mut intervals = ArrayVec::new();
    for value in values {
        let number = number_of(value)?;
        intervals.push(whole_of(ANNOUNCE.1, ANNOUNCE.2, number)? as i8);
    }
    Ok(intervals)
}

/// The intervals of an array: one for each port. First each member is tested for its kind.
#[tactic(auto, unfolding(crate::specs::Intervals::intervals_in))]
fn intervals_in(ports: u8, values: &[Value]) -> Result<ArrayVec<i8, MOST_PORTS>, DocumentFault>
    requires { ports ≤ MOST_PORTS }
    ensures intervals { IfOk result (λ v. intervals_in ports (items_view values.now) ≡ Ok v.items) }
    ensures refused { IfErr result (λ e. intervals_in ports (items_view values.now) ≡ Err e) }
{
    only_numbers(values)?;
    if values.len() == usize::from(ports) {
        each_interval(values)
    } else {
        Err(DocumentFault::OutOfRange)
    }
}

/// The intervals of the ports, where each port has this one.
fn alike(ports: u8, interval: i8) -> ArrayVec<i8, MOST_PORTS>
    requires { ports ≤ MOST_PORTS }
    ensures { result.items ≡ replicate ports interval }
{
    let mut intervals = ArrayVec::new();
    for _port in 0..ports {
        intervals.push(interval);
    }
    intervals
}

/// Why a member of the array is no whole number.
fn kind_why(value: &Value) -> Option<Why>
    ensures { result ≡ kind_why (view value.now) (as_integer (view value.now)) }
{
    match value.as_integer() {
        None => Some(other_kind(Name::Announce, value)),
        Some(_) => None,
    }
}

/// Why a number is no interval.
fn number_why(number: i64) -> Option<Why>
    ensures { result ≡ range_why (Some number) }
{
    if ANNOUNCE.1 <= number && number <= ANNOUNCE.2 {
        None
    } else {
        Some(Why::Whole {
            key: ANNOUNCE.0,
            value: number,
            least: ANNOUNCE.1,
            most: ANNOUNCE.2,
        })
    }
}

/// Why a member of the array is no interval, where it is a whole number.
fn range_why(value: &Value) -> Option<Why>
    ensures { result ≡ range_why (as_integer (view value.now)) }
{
    match value.as_integer() {
        None => None,
        Some(number) => number_why(number),
    }
}

/// The first member of an array that is no whole number.
fn other_member(values: &[Value]) -> Option<Why>
    ensures { result ≡ other_member (items_view values.now) }
{
    for value in values {
        if let Some(why) = kind_why(value) {
            return Some(why);
        }
    }
    None
}

/// The first member of an array that is a whole number and no interval.
fn far_member(values: &[Value]) -> Option<Why>
    ensures { result ≡ far_member (items_view values.now) }
{
    for value in values {
        if let Some(why) = range_why(value) {
            return Some(why);
        }
    }
    None
}

/// Why an array holds no interval for each of so many ports.
#[tactic(auto, using(crate::proofs::SystemSpecLemmas::count_view))]
fn intervals_why(ports: u8, values: &[Value]) -> Why
    ensures { result ≡ intervals_why ports (items_view values.now) }
{
    match other_member(values) {
        Some(why) => why,
        None => match far_member(values) {
            Some(why) => why,
            None => Why::Intervals {
                count: values.len(),
                ports,
            },
        },
    }
}

/// The intervals of an array, or why it doesn't hold them.
fn read_array(ports: u8, values: &[Value]) -> Result<ArrayVec<i8, MOST_PORTS>, Why>
    requires { ports ≤ MOST_PORTS }
    ensures intervals { IfOk result (λ v. read_array ports (items_view values.now) ≡ Ok v.items) }
    ensures refused { IfErr result (λ e. read_array ports (items_view values.now) ≡ Err e) }
{
    match intervals_in(ports, values) {
        Ok(intervals) => Ok(intervals),
        Err(_) => Err(intervals_why(ports, values)),
    }
}

/// What so many ports announce at, as logarithms to base 2 of seconds, in a document of this version; the default for
/// each where the key is absent or unknown.
#[tactic(auto, unfolding(crate::specs::ReadIntervals::read_intervals))]
pub(crate) fn intervals(
    version: u64,
    ports: u8,
    default: i8,
    table: &Table,
) -> Result<ArrayVec<i8, MOST_PORTS>, Why>
    requires { ports ≤ MOST_PORTS }
    ensures intervals { IfOk result (λ v. read_intervals version ports default (table_view table.now) ≡ Ok v.items) }
    ensures refused { IfErr result (λ e. read_intervals version ports default (table_view table.now) ≡ Err e) }
{
    if version == 2 {
        match value_at(table, Name::Announce) {
            None => Ok(alike(ports, default)),
            Some(value) => match value.as_array() {
                None => Err(other_kind(Name::Announce, value)),
                Some(values) => read_array(ports, values.as_slice()),
            },
        }
    } else {
        Ok(alike(ports, default))
    }
}
