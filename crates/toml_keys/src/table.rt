//! The table of a text, and the keys that it should not have.
ghost use Rattle.std.specs.Prelude.{◌≡◌, ℕ, Bool, List, Some, None, option_map, string_bytes, IfOk};
ghost use Rattle.toml.specs.View.{table_view};
ghost use Rattle.toml_keys.specs.Keys.{document_of, least, unknown_names};
ghost use Rattle.toml_keys.specs.Refused.{IsRefused};

use std::alloc::Global;
use toml::Table;

/// Why a text gives no table.
#[derive(Clone, Copy, Debug, PartialEq, Eq)]
pub enum TableError {
    /// It is not UTF-8, or no document by the crate `toml`.
    NotToml,
    /// Out of memory.
    Memory,
}

/// The table that a text is.
pub fn read_table(alloc: Global, text: &[u8]) -> Result<Table, TableError>
    ensures table { IfOk result (λ table. document_of text.now ≡ Some (table_view table)) }
    ensures refused { IsRefused text.now result }
{
    match toml::table_from_slice(alloc, text) {
        Ok(table) => Ok(table),
        Err(error) => {
            if error.is_memory() {
                return Err(TableError::Memory);
            }
            Err(TableError::NotToml)
        }
    }
}

/// The keys of a form.
pub trait KnownKeys {
    ghost is_known: { List ℕ → Bool };

    /// Whether a key is one of them.
    fn is_known(name: &str) -> bool
        ensures { result ≡ is_known name.now };
}

/// The least key of a table, in byte order, that the form doesn't have.
pub fn unknown_key<K: KnownKeys>(table: &Table) -> Option<&String>
    ensures { option_map (λ k. string_bytes k.now) result ≡ least (unknown_names K.is_known (table_view table.now)) }
{
    for (key, _value) in table.iter() {
        if !K::is_known(key.as_str()) {
            return Some(key);
        }
    }
    None
}
