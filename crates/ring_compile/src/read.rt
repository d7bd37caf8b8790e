//! Reading a ring file.
ghost use Rattle.page_table.specs.Grants.{max_chunks};
ghost use Rattle.std.specs.Prelude.{◌≡◌, ◌≤◌, length, Ok, IfOk};
ghost use Rattle.toml.specs.View.{table_view};
ghost use Rattle.toml_keys.specs.Values.{told, u32_max};
ghost use Rattle.toml_keys.specs.declared.KeyFault.{KeyFault};
ghost use Rattle.ring_compile.specs.Files.{Answers, described, fault_of, number_or, pages, required_number, values};
ghost use Rattle.ring_compile.specs.Kept.{IsInBounds, IsJudged};

use crate::fault::{RingError, RingFault, RingKey};
use crate::judge::judged;
use crate::ring::{Ring, Values};
use capture_desc::{KeyText, Numbers};
use page_table::MAX_CHUNKS;
use std::alloc::Global;
use toml::Table;
use toml_keys::{KeyError, KeyFault, TableError};

// A fault of a key.
fn fault_of(key: RingKey, fault: KeyFault) -> RingFault
    ensures { result ≡ fault_of key fault }
{
    match fault {
        KeyFault::Missing => RingFault::Missing(key),
        KeyFault::WrongKind => RingFault::WrongKind(key),
        KeyFault::OutOfRange => RingFault::OutOfRange(key),
    }
}

// What was read at a key, or the key's fault.
fn told(key: RingKey, read: Result<u32, KeyFault>) -> Result<u32, RingFault>
    ensures { result ≡ told (fault_of key) read }
{
    match read {
        Ok(number) => Ok(number),
        Err(fault) => Err(fault_of(key, fault)),
    }
}

fn required_number(table: &Table, key: RingKey, least: u32, most: u32) -> Result<u32, RingFault>
    ensures value { result ≡ required_number least most key (table_view table.now) }
    ensures within { IfOk result (λ n. (least ≤ n) × (n ≤ most)) }
{
    told(
        key,
        toml_keys::required_number(table, key.name(), least, most),
    )
}

fn number_or(table: &Table, key: RingKey, default: u32, most: u32) -> Result<u32, RingFault>
    requires { default ≤ most }
    ensures value { result ≡ number_or default most key (table_view table.now) }
    ensures within { IfOk result (λ n. n ≤ most) }
{
    told(key, toml_keys::number_or(table, key.name(), default, most))
}

fn pages(alloc: Global, table: &Table) -> Result<Numbers, RingError>
    ensures value { Answers (pages (table_view table.now)) result }
    ensures few { IfOk result (λ pages. length pages ≤ max_chunks) }
{
    let key = RingKey::Pages;
    match toml_keys::list::<u32>(alloc, table, key.name()) {
        Ok(Some(pages)) => {
            if pages.len() > MAX_CHUNKS {
                return Err(RingError::Bad(RingFault::OutOfRange(key)));
            }
            Ok(Numbers::from_vec(pages))
        }
        Ok(None) => Err(RingError::Bad(RingFault::Missing(key))),
        Err(KeyError::Bad(fault)) => Err(RingError::Bad(fault_of(key, fault))),
        Err(KeyError::Memory) => Err(RingError::Memory),
    }
}

// The values of a table whose keys are known.
fn values(alloc: Global, table: &Table) -> Result<Values, RingError>
    ensures value { Answers (values (table_view table.now)) result }
    ensures bounds { IfOk result IsInBounds }
{
    let blocks = required_number(table, RingKey::Blocks, 2, 16)?;
    let lines = required_number(table, RingKey::Lines, 1, 64)?;
    let line_bytes = required_number(table, RingKey::LineBytes, 5, 4092)?;
    let base = number_or(table, RingKey::Base, 4096, u32::MAX)?;
    let pages = pages(alloc, table)?;
    let fill = number_or(table, RingKey::Fill, 0, 255)?;
    Ok(Values {
        blocks: blocks as u8,
        lines: lines as u8,
        line_bytes: line_bytes as u16,
        base,
        pages,
        fill: fill as u8,
    })
}

/// Reads a ring file: a TOML table with these keys and no other (this project's own form).
///
/// - `blocks`: the blocks of the ring, 2 to 16. Required.
/// - `lines`: the lines of each block, 1 to 64. Required.
/// - `line_bytes`: the bytes of a line, 5 to 4,092. Required.
/// - `base`: the address of the program, 0 to 4,294,967,295, by default 4,096.
/// - `pages`: an array of at most 4,096 numbers from 0 to 4,294,967,295, the addresses of the pages that take the
///   lines, in their order. Required.
/// - `fill`: the byte that memory holds at first, 0 to 255, by default 0.
///
/// A refusal is the first fault: first NotToml, where the text is not UTF-8 or no document by the crate `toml`; then
/// Unknown; then the faults of the keys, one key after the other in the order above, and for each of them Missing
/// before WrongKind before OutOfRange; then those of the ring's place in the order of `RingFault`. Memory may come in
/// place of any answer.
pub fn read_ring(alloc: Global, text: &[u8]) -> Result<Ring, RingError>
    ensures answer { Answers (described text.now) result }
    ensures judged { IfOk result IsJudged }
{
    let table = match toml_keys::read_table(alloc, text) {
        Ok(table) => table,
        Err(TableError::NotToml) => return Err(RingError::Bad(RingFault::NotToml)),
        Err(TableError::Memory) => return Err(RingError::Memory),
    };
    if let Some(key) = toml_keys::unknown_key::<RingKey>(&table) {
        let key = KeyText::from_list(alloc, key.as_bytes())?;
        return Err(RingError::Bad(RingFault::Unknown(key)));
    }
    judged(alloc, values(alloc, &table)?)
}
