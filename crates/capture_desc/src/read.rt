//! Reading a description.
ghost use Rattle.std.specs.Prelude.{◌≡◌, ◌≤◌, length, map, ℕ, List, Ok, IfOk, IfErr};
ghost use Rattle.toml.specs.View.{table_view};
ghost use Rattle.toml_keys.specs.Keys.{document_of};
ghost use Rattle.page_table.specs.Grants.{max_chunks, total};
ghost use Rattle.page_table.specs.Taken.{listed};
ghost use Rattle.pixel_layout.specs.Layouts.{format_named};
ghost use Rattle.capture_desc.specs.Values.{rect, required_word, word_or};
ghost use Rattle.capture_desc.specs.WellFormed.{IsWellFormed};
ghost use Rattle.capture_desc.specs.Description.{Answers, chroma_first, chunks, clips, described, field_numbers, fields_named, fit_fields};
ghost use Rattle.capture_desc.specs.Description.{pages, plane_numbers, values, vbi_lines};
ghost use Rattle.capture_desc.specs.Faults.{Explains, Shows};

use crate::desc::{Desc, Fields};
use crate::fault::{DescError, DescFault, Key};
use crate::lists::{ChunkList, KeyText, Numbers};
use crate::values::{is_there, list, number_or, optional_number, required_number, told};
use clip_spans::{ClipFault, Clips, Rect};
use page_table::{MAX_BYTES, MAX_CHUNKS};
use pixel_layout::Format;
use std::alloc::{AllocError, Global};
use toml::Table;
use toml_keys::TableError;

// The most lines that a field may skip, before its rows or before its VBI lines.
const MAX_SKIP_LINES: u32 = 255;

fn format(table: &Table) -> Result<Format, DescFault>
    ensures { result ≡ required_word format_named Key.Format (table_view table.now) }
{
    let key = Key::Format;
    let format = told(key, toml_keys::word::<Format, Key>(table, key.name()))?;
    format.ok_or(DescFault::Missing(key))
}

fn fields(table: &Table) -> Result<Fields, DescFault>
    ensures { result ≡ word_or Fields.Both fields_named Key.Fields (table_view table.now) }
{
    let key = Key::Fields;
    let fields = told(key, toml_keys::word::<Fields, Key>(table, key.name()))?;
    Ok(fields.unwrap_or(Fields::Both))
}

// A number for each plane.
fn plane_numbers(
    alloc: Global,
    table: &Table,
    key: Key,
    format: Format,
) -> Result<Option<Numbers>, DescError>
    ensures { Answers (plane_numbers format key (table_view table.now)) result }
{
    let Some(numbers) = list::<u32>(alloc, table, key)? else {
        return Ok(None);
    };
    if numbers.len() != format.planes() as usize {
        return Err(DescError::Bad(DescFault::OutOfRange(key)));
    }
    Ok(Some(Numbers::from_vec(numbers)))
}

// Whether there is a number for each field, of at most so much.
fn fit_fields(fields: Fields, most: u32, numbers: &[u32]) -> bool
    ensures { result ≡ fit_fields fields most numbers.now }
{
    numbers.len() == fields.count() && numbers.iter().all(|number| *number <= most)
}

// A number for each described field, of at most so much.
fn field_numbers(
    alloc: Global,
    table: &Table,
    key: Key,
    fields: Fields,
    most: u32,
) -> Result<Option<Numbers>, DescError>
    ensures { Answers (field_numbers fields most key (table_view table.now)) result }
{
    let Some(numbers) = list::<u32>(alloc, table, key)? else {
        return Ok(None);
    };
    if !fit_fields(fields, most, &numbers) {
        return Err(DescError::Bad(DescFault::OutOfRange(key)));
    }
    Ok(Some(Numbers::from_vec(numbers)))
}

// The rectangles, each by its four numbers.
fn rectangles(alloc: Global, rows: &[(u32, u32, u32, u32)]) -> Result<Vec<Rect>, AllocError>
    ensures { IfOk result (λ rects. rects.items ≡ map rect rows.now) }
{
    rows.iter()
        .map(|&(x, y, w, h)| Rect { x, y, w, h })
        .collect(alloc)
}

fn clips(alloc: Global, table: &Table) -> Result<Clips, DescError>
    ensures { Answers (clips (table_view table.now)) result }
{
    let rows = match list::<(u32, u32, u32, u32)>(alloc, table, Key::Clip)? {
        Some(rows) => rows,
        None => Vec::new(alloc),
    };
    match Clips::new(alloc, &rectangles(alloc, &rows)?) {
        Ok(clips) => Ok(clips),
        Err(ClipFault::TooMany) => Err(DescError::Bad(DescFault::OutOfRange(Key::Clip))),
        Err(ClipFault::Memory) => Err(DescError::Memory),
    }
}

// Pages have to be there where no chunks are.
fn pages(alloc: Global, table: &Table) -> Result<Numbers, DescError>
    ensures { Answers (pages (table_view table.now)) result }
{
    let has_chunks = is_there(table, Key::Chunks);
    match list::<u32>(alloc, table, Key::Pages)? {
        Some(pages) => {
            if pages.len() > MAX_CHUNKS {
                return Err(DescError::Bad(DescFault::OutOfRange(Key::Pages)));
            }
            Ok(Numbers::from_vec(pages))
        }
        None => {
            if !has_chunks {
                return Err(DescError::Bad(DescFault::Missing(Key::Pages)));
            }
            Ok(Numbers::from_vec(Vec::new(alloc)))
        }
    }
}

// The bytes of all the chunks.
fn bytes_of_chunks(chunks: &[(u32, u32)]) -> u64
    requires { length chunks.now ≤ max_chunks }
    ensures { result ≡ total (listed chunks.now) }
{
    chunks.iter().map(|chunk| u64::from(chunk.1)).sum()
}

// Chunks come in place of pages.
fn chunks(alloc: Global, table: &Table) -> Result<Option<ChunkList>, DescError>
    ensures { Answers (chunks (table_view table.now)) result }
{
    let has_pages = is_there(table, Key::Pages);
    let Some(chunks) = list::<(u32, u32)>(alloc, table, Key::Chunks)? else {
        return Ok(None);
    };
    if has_pages || chunks.len() > MAX_CHUNKS || bytes_of_chunks(&chunks) > MAX_BYTES {
        return Err(DescError::Bad(DescFault::OutOfRange(Key::Chunks)));
    }
    Ok(Some(ChunkList::from_vec(chunks)))
}

// The rows of the fields whose chroma is the first that is kept.
fn chroma_first(
    alloc: Global,
    table: &Table,
    format: Format,
    fields: Fields,
) -> Result<Option<Numbers>, DescError>
    ensures { Answers (chroma_first format fields (table_view table.now)) result }
{
    let last = format.rows_of_chroma() - 1;
    field_numbers(alloc, table, Key::ChromaFirst, fields, last)
}

// What a description has of the lines of the vertical blanking interval.
#[derive(Drop)]
struct VbiLines {
    lines: u32,
    bytes: u32,
    offset: Option<u32>,
    skip: Option<Numbers>,
    stride: Option<u32>,
}

fn vbi_lines(alloc: Global, table: &Table, fields: Fields) -> Result<VbiLines, DescError>
    ensures { Answers (vbi_lines fields (table_view table.now)) result }
{
    let lines = number_or(table, Key::VbiLines, 0, u32::MAX)?;
    let bytes = number_or(table, Key::VbiBytes, 2044, u32::MAX)?;
    let offset = optional_number(table, Key::VbiOffset)?;
    let skip = field_numbers(alloc, table, Key::VbiSkip, fields, MAX_SKIP_LINES)?;
    let stride = optional_number(table, Key::VbiStride)?;
    Ok(VbiLines {
        lines,
        bytes,
        offset,
        skip,
        stride,
    })
}

// The values of a table whose keys are known.
fn values(alloc: Global, table: &Table) -> Result<Desc, DescError>
    ensures { Answers (values (table_view table.now)) result }
{
    let format = format(table)?;
    let width = required_number(table, Key::Width)?;
    let height = required_number(table, Key::Height)?;
    let fields = fields(table)?;
    let stride = plane_numbers(alloc, table, Key::Stride, format)?;
    let offset = plane_numbers(alloc, table, Key::Offset, format)?;
    let chroma_first = chroma_first(alloc, table, format, fields)?;
    let skip_lines = number_or(table, Key::SkipLines, 0, MAX_SKIP_LINES)?;
    let vbi = vbi_lines(alloc, table, fields)?;
    let clip = clips(alloc, table)?;
    let base = number_or(table, Key::Base, 4096, u32::MAX)?;
    let pages = pages(alloc, table)?;
    let chunks = chunks(alloc, table)?;
    let fill = number_or(table, Key::Fill, 0, 255)?;
    Ok(Desc {
        format,
        width,
        height,
        fields,
        stride,
        offset,
        chroma_first,
        skip_lines: skip_lines as u8,
        vbi_lines: vbi.lines,
        vbi_bytes: vbi.bytes,
        vbi_offset: vbi.offset,
        vbi_skip: vbi.skip,
        vbi_stride: vbi.stride,
        clip,
        base,
        pages,
        chunks,
        fill: fill as u8,
    })
}

// What a text describes.
fn read_text(alloc: Global, text: &[u8]) -> Result<Desc, DescError>
    ensures { Answers (described text.now) result }
{
    let table = match toml_keys::read_table(alloc, text) {
        Ok(table) => table,
        Err(TableError::NotToml) => return Err(DescError::Bad(DescFault::NotToml)),
        Err(TableError::Memory) => return Err(DescError::Memory),
    };
    match toml_keys::unknown_key::<Key>(&table) {
        Some(key) => {
            let key = KeyText::from_list(alloc, key.as_bytes())?;
            Err(DescError::Bad(DescFault::Unknown(key)))
        }
        None => values(alloc, &table),
    }
}

/// Reads a description: a TOML table with these keys and no other (this project's own form). A number
/// is a whole number from 0 to 4,294,967,295 unless other bounds are given here.
///
/// - `format`: the name of a pixel format. Required.
/// - `width`, `height`: numbers. Required.
/// - `fields`: `"top"`, `"bottom"` or `"both"`, by default both.
/// - `stride`, `offset`: arrays with a number for each plane of the format. Optional.
/// - `chroma_first`: an array with a number for each described field, top before bottom, each below the number of a field's
///   rows that share a row of chroma: 0 for packed formats. Optional.
/// - `skip_lines`: 0 to 255, by default 0.
/// - `vbi_lines`: a number, by default 0.
/// - `vbi_bytes`: a number, by default 2,044.
/// - `vbi_offset`: a number. Optional.
/// - `vbi_skip`: an array with a number of 0 to 255 for each described field, top before bottom. Optional.
/// - `vbi_stride`: a number. Optional.
/// - `clip`: an array of at most 64 arrays `[x, y, w, h]` of numbers, by default none.
/// - `base`: a number, by default 4,096.
/// - `pages`: an array of at most 4,096 numbers. Required where `chunks` is absent.
/// - `chunks`: an array of at most 4,096 arrays `[address, length]` of numbers, of which the lengths
///   make at most 16,777,216 bytes. It excludes `pages`. Optional.
/// - `fill`: 0 to 255, by default 0.
///
/// A refusal is the first fault: first NotToml, where the text is not UTF-8 or no document by the crate
/// `toml`; then Unknown; then the faults of the keys, one key after the other in the order above, and
/// for each of them Missing before WrongKind before OutOfRange. Memory may come in place of any answer.
pub fn read_desc(alloc: Global, text: &[u8]) -> Result<Desc, DescError>
    ensures answer { Answers (described text.now) result }
    ensures well_formed { IfOk result IsWellFormed }
    ensures shown { IfErr result (Explains (document_of text.now)) }
{
    read_text(alloc, text)
}

/// What is read is well formed, and a fault shows in the document: NotToml means that there is none,
/// Unknown names its least key that no description has, Missing an absent key, and the others one that
/// is there. The function does nothing; its contract is the law.
pub fn what_a_text_describes()
    ensures well_formed { (text : List ℕ) (desc : Desc) → described text ≡ Ok desc → IsWellFormed desc }
    ensures shown { (text : List ℕ) (fault : DescFault) → described text ≡ Err fault → Shows (document_of text) fault }
{}
