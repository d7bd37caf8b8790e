//! What the values of a TOML table stand for.
ghost use Rattle.std.specs.Prelude.{◌≡◌, ◌≤◌, ℕ, Bool, List, Ok, Option, map, option_map, IfOk, IfErr};
ghost use Rattle.std.specs.List.{list_all};
ghost use Rattle.std.specs.Result.{result_err};
ghost use Rattle.toml.specs.Data.{Data, get_member};
ghost use Rattle.toml.specs.View.{table_view, view};
ghost use Rattle.toml_keys.specs.Values.{Refuses, as_list, at, between, each, four_of, is_integer, is_row, list_typed, number, otherwise};
ghost use Rattle.toml_keys.specs.Values.{required, two_of, u32_max, u32_of, word};

use crate::{KeyError, KeyFault};
use std::alloc::{AllocError, Global};
use toml::{Table, Value};

/// The value at a key.
pub fn value_at<'a>(table: &'a Table, name: &str) -> Option<&'a Value>
    ensures { option_map (λ v. view v.now) result ≡ get_member name.now (table_view table.now) }
{
    table.get(name)
}

// The number, where it is one from `least` to `most`.
fn between(least: u32, most: u32, number: i64) -> Option<u32>
    ensures { result ≡ between least most number }
{
    u32::try_from(number)
        .ok()
        .filter(|number| least <= *number && *number <= most)
}

/// The whole number at a key, from `least` to `most`.
pub fn number(table: &Table, name: &str, least: u32, most: u32) -> Result<Option<u32>, KeyFault>
    ensures { result ≡ number least most name.now (table_view table.now) }
{
    let Some(value) = value_at(table, name) else {
        return Ok(None);
    };
    let number = value.as_integer().ok_or(KeyFault::WrongKind)?;
    let number = between(least, most, number).ok_or(KeyFault::OutOfRange)?;
    Ok(Some(number))
}

/// The number at a key that has to be there, from `least` to `most`.
pub fn required_number(table: &Table, name: &str, least: u32, most: u32) -> Result<u32, KeyFault>
    ensures value { result ≡ required (number least most name.now (table_view table.now)) }
    ensures within { IfOk result (λ n. (least ≤ n) × (n ≤ most)) }
{
    Ok(number(table, name, least, most)?.ok_or(KeyFault::Missing)?)
}

/// The number at a key, from 0 to `most`, or `default` where the key is absent.
pub fn number_or(table: &Table, name: &str, default: u32, most: u32) -> Result<u32, KeyFault>
    requires { default ≤ most }
    ensures value { result ≡ otherwise default (number 0 most name.now (table_view table.now)) }
    ensures within { IfOk result (λ n. n ≤ most) }
{
    Ok(number(table, name, 0, most)?.unwrap_or(default))
}

/// What a form writes by its name.
pub trait Words<T> {
    ghost named: { List ℕ → Option T };

    /// What has this name.
    fn named(name: &str) -> Option<T>
        ensures { result ≡ named name.now };
}

/// What the text at a key names in the form `W`.
pub fn word<T: Drop, W: Words<T>>(table: &Table, name: &str) -> Result<Option<T>, KeyFault>
    ensures { result ≡ word W.named name.now (table_view table.now) }
{
    let Some(value) = value_at(table, name) else {
        return Ok(None);
    };
    let Some(text) = value.as_str() else {
        return Err(KeyFault::WrongKind);
    };
    match W::named(text) {
        Some(named) => Ok(Some(named)),
        None => Err(KeyFault::OutOfRange),
    }
}

// The members of a value that is an array.
fn items_of(value: &Value) -> Option<&[Value]>
    ensures { option_map (λ vs. map view vs.now) result ≡ as_list (view value.now) }
{
    match value.as_array() {
        Some(array) => Some(array.as_slice()),
        None => None,
    }
}

/// What a member of a list stands for.
pub trait Member: Sized {
    ghost typed: { Data → Bool };

    ghost value: { Data → Option Self };

    /// Whether it and its own members have the TOML types that they are to have.
    fn is_typed(member: &Value) -> bool
        ensures { result ≡ typed (view member.now) };

    /// What it stands for, where it is in range.
    fn read(member: &Value) -> Option<Self>
        ensures { result ≡ value (view member.now) };
}

impl Member for u32 {
    ghost typed = { is_integer };

    ghost value = { u32_of };

    fn is_typed(member: &Value) -> bool {
        member.is_integer()
    }

    fn read(member: &Value) -> Option<u32> {
        match member.as_integer() {
            Some(number) => between(0, u32::MAX, number),
            None => None,
        }
    }
}

// Whether all the members have their types.
fn all_typed<T: Member>(members: &[Value]) -> bool
    ensures { result ≡ list_all T.typed (map view members.now) }
{
    for member in members {
        if !T::is_typed(member) {
            return false;
        }
    }
    true
}

// Whether the value is an array of whole numbers.
fn is_row(value: &Value) -> bool
    ensures { result ≡ is_row (view value.now) }
{
    match items_of(value) {
        Some(members) => all_typed::<u32>(members),
        None => false,
    }
}

impl Member for (u32, u32) {
    ghost typed = { is_row };

    ghost value = { two_of };

    fn is_typed(member: &Value) -> bool {
        is_row(member)
    }

    fn read(member: &Value) -> Option<(u32, u32)> {
        match items_of(member)? {
            [a, b] => Some((u32::read(a)?, u32::read(b)?)),
            _ => None,
        }
    }
}

impl Member for (u32, u32, u32, u32) {
    ghost typed = { is_row };

    ghost value = { four_of };

    fn is_typed(member: &Value) -> bool {
        is_row(member)
    }

    fn read(member: &Value) -> Option<(u32, u32, u32, u32)> {
        match items_of(member)? {
            [a, b, c, d] => Some((u32::read(a)?, u32::read(b)?, u32::read(c)?, u32::read(d)?)),
            _ => None,
        }
    }
}

// What the members stand for, or None where one is out of range.
fn each<T: Member + Drop>(alloc: Global, members: &[Value]) -> Result<Option<Vec<T>>, AllocError>
    ensures { IfOk result (λ r. option_map (λ v. v.items) r ≡ each T.value (map view members.now)) }
{
    let mut values = Vec::new(alloc);
    for member in members {
        match T::read(member) {
            Some(value) => values.push(value)?,
            None => return Ok(None),
        }
    }
    Ok(Some(values))
}

/// What the members of the array at a key stand for.
pub fn list<T: Member + Drop>(
    alloc: Global,
    table: &Table,
    name: &str,
) -> Result<Option<Vec<T>>, KeyError>
    ensures ok { IfOk result
        (λ r. at (list_typed T.typed) (each T.value) name.now (table_view table.now) ≡ Ok (option_map (λ v. v.items) r)) }
    ensures err { IfErr result (Refuses (at (list_typed T.typed) (each T.value) name.now (table_view table.now))) }
{
    let Some(value) = value_at(table, name) else {
        return Ok(None);
    };
    let Some(members) = items_of(value) else {
        return Err(KeyError::Bad(KeyFault::WrongKind));
    };
    if !all_typed::<T>(members) {
        return Err(KeyError::Bad(KeyFault::WrongKind));
    }
    match each::<T>(alloc, members)? {
        Some(values) => Ok(Some(values)),
        None => Err(KeyError::Bad(KeyFault::OutOfRange)),
    }
}
