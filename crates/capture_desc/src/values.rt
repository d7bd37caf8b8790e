//! What is at the keys of a description, or the fault of a key.
ghost use Rattle.std.specs.Prelude.{◌≡◌, ◌≤◌, Ok, Option, option_map, IfOk, IfErr};
ghost use Rattle.pixel_layout.specs.Layouts.{format_named};
ghost use Rattle.toml.specs.View.{table_view};
ghost use Rattle.toml_keys.specs.Keys.{is_there};
ghost use Rattle.toml_keys.specs.Values.{at, each, list_typed, told, u32_max};
ghost use Rattle.capture_desc.specs.Description.{Refuses, fields_named};
ghost use Rattle.capture_desc.specs.Keys.{name_of};
ghost use Rattle.capture_desc.specs.Values.{fault_of, number_or, optional_number, required_number};

use crate::desc::Fields;
use crate::fault::{DescError, DescFault, Key};
use pixel_layout::Format;
use std::alloc::Global;
use toml::Table;
use toml_keys::{KeyError, KeyFault, Member, Words};

// A fault of a key.
fn fault_of(key: Key, fault: KeyFault) -> DescFault
    ensures { result ≡ fault_of key fault }
{
    match fault {
        KeyFault::Missing => DescFault::Missing(key),
        KeyFault::WrongKind => DescFault::WrongKind(key),
        KeyFault::OutOfRange => DescFault::OutOfRange(key),
    }
}

/// What was read at a key, or the key's fault.
pub(crate) fn told<T>(key: Key, read: Result<T, KeyFault>) -> Result<T, DescFault>
    ensures { result ≡ told (fault_of key) read }
{
    match read {
        Ok(value) => Ok(value),
        Err(fault) => Err(fault_of(key, fault)),
    }
}

/// The number of 32 bits at a key that has to be there.
pub(crate) fn required_number(table: &Table, key: Key) -> Result<u32, DescFault>
    ensures { result ≡ required_number key (table_view table.now) }
{
    told(
        key,
        toml_keys::required_number(table, key.name(), 0, u32::MAX),
    )
}

/// The number of 32 bits at a key, where it is there.
pub(crate) fn optional_number(table: &Table, key: Key) -> Result<Option<u32>, DescFault>
    ensures { result ≡ optional_number key (table_view table.now) }
{
    told(key, toml_keys::number(table, key.name(), 0, u32::MAX))
}

/// The number at a key, from 0 to `most`, or `default` where the key is absent.
pub(crate) fn number_or(table: &Table, key: Key, default: u32, most: u32) -> Result<u32, DescFault>
    requires { default ≤ most }
    ensures value { result ≡ number_or default most key (table_view table.now) }
    ensures within { IfOk result (λ n. n ≤ most) }
{
    told(key, toml_keys::number_or(table, key.name(), default, most))
}

impl Words<Format> for Key {
    ghost named = { format_named };

    fn named(name: &str) -> Option<Format> {
        Format::named(name)
    }
}

impl Words<Fields> for Key {
    ghost named = { fields_named };

    fn named(name: &str) -> Option<Fields> {
        match name {
            "top" => Some(Fields::Top),
            "bottom" => Some(Fields::Bottom),
            "both" => Some(Fields::Both),
            _ => None,
        }
    }
}

/// What the members of the array at a key stand for.
pub(crate) fn list<T: Member + Drop>(
    alloc: Global,
    table: &Table,
    key: Key,
) -> Result<Option<Vec<T>>, DescError>
    ensures ok { IfOk result
        (λ r. at (list_typed T.typed) (each T.value) (name_of key) (table_view table.now) ≡ Ok (option_map (λ v. v.items) r)) }
    ensures err { IfErr result
        (Refuses (told (fault_of key) (at (list_typed T.typed) (each T.value) (name_of key) (table_view table.now)))) }
{
    match toml_keys::list::<T>(alloc, table, key.name()) {
        Ok(list) => Ok(list),
        Err(KeyError::Bad(fault)) => Err(DescError::Bad(fault_of(key, fault))),
        Err(KeyError::Memory) => Err(DescError::Memory),
    }
}

/// Whether the table has the key.
pub(crate) fn is_there(table: &Table, key: Key) -> bool
    ensures { result ≡ is_there (name_of key) (table_view table.now) }
{
    toml_keys::value_at(table, key.name()).is_some()
}
