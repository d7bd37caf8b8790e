//! Program files written to a desk.

ghost use Rattle.capture_file.specs.declared.program.ProgramForm.TheVariants.{Based, Spanned};
ghost use Rattle.machine_model.specs.Paths.{max_spans, max_words, span, words_of};
ghost use Rattle.byteorder.specs.Endian.{little_bytes};
ghost use Rattle.capture_desk.specs.Desks.{Puts, WriteCounts, after_write};
ghost use Rattle.capture_file.specs.Programs.{chunk_in, chunk_numbers, form_for, grants_spelled, layout_for, name_of, numbers_spelled};
ghost use Rattle.capture_file.specs.Programs.{placed_spelled, span_spelled, spanned_spelled, spelled, spelled_as};
ghost use Rattle.page_table.specs.Grants.{chunk_at, is_page, max_chunks};
ghost use Rattle.std.specs.List.{flat_map, list_all};
ghost use Rattle.std.specs.Prelude.{◌≡◌, ◌+◌, ◌*◌, ◌≤◌, ◌++◌, List, ℕ, [], drop, length, map, take, IsTrue, OnOk};

use super::program::{Layout, ProgramForm, are_pages, layout_of};
use byteorder::{ByteOrder, LittleEndian};
use capture_desk::{Desk, Failed, put};
use page_table::PageSet;
use risc_verify::{Program, Spans};
use std::alloc::AllocError;

// How many bytes are put at once where there are few, and where there are many.
const FEW: usize = 4_096;

const MANY: usize = 65_536;

// How many chunks are put at once.
const CHUNKS: usize = 512;

// Puts a number into a buffer, four bytes with the lowest first, behind the bytes that are there.
#[inline]
pub fn spell_one(number: u32, out: &mut [u8], at: usize)
    requires { at + 4 ≤ length out.old }
    ensures { take (at + 4) out.new ≡ take at out.old ++ little_bytes 4 number }
{
    let mut field = [0; 4];
    LittleEndian::write_u32(&mut field, number);
    out[at..at + 4].copy_from_slice(&field);
}

// Puts numbers into the front of a buffer.
fn spell(numbers: &[u32], out: &mut [u8])
    requires { 4 * length numbers.now ≤ length out.old }
    ensures { take (4 * length numbers.now) out.new ≡ numbers_spelled numbers.now }
{
    for (i, number) in numbers.iter().enumerate() {
        spell_one(*number, out, 4 * i);
    }
}

// Appends a number to some bytes, four bytes with the lowest first.
fn append_number(bytes: &mut Vec<u8>, number: u32) -> Result<(), AllocError>
    ensures { OnOk result (bytes.new.items ≡ bytes.old.items ++ little_bytes 4 number) }
{
    let mut field = [0; 4];
    spell_one(number, &mut field, 0);
    bytes.extend_from_slice(&field)?;
    Ok(())
}

// Appends numbers to some bytes, four bytes each with the lowest first.
pub(super) fn append_numbers(bytes: &mut Vec<u8>, numbers: &[u32]) -> Result<(), AllocError>
    ensures { OnOk result (bytes.new.items ≡ bytes.old.items ++ numbers_spelled numbers.now) }
{
    for number in numbers {
        append_number(bytes, *number)?;
    }
    Ok(())
}

// Appends numbers to the open output, as many at once as a buffer holds.
fn put_by<D: Desk>(desk: &mut D, numbers: &[u32], piece: &mut [u8]) -> Result<(), Failed>
    requires open { IsTrue (D.seen desk.old).told.output_open }
    requires room { 4 ≤ length piece.old }
    ensures puts { Puts (numbers_spelled numbers.now) result after_write (D.seen desk.old).told (D.seen desk.new).told }
    ensures counts { WriteCounts result (D.seen desk.old) (D.seen desk.new) }
{
    let most = piece.len() / 4;
    let mut at = 0;
    while at < numbers.len() {
        let count = most.min(numbers.len() - at);
        spell(&numbers[at..at + count], piece);
        put(desk, &piece[..4 * count])?;
        at += count;
    }
    Ok(())
}

// Appends numbers to the open output. Few have a small buffer of their own, since a large one takes time even for few.
pub fn put_numbers<D: Desk>(desk: &mut D, numbers: &[u32]) -> Result<(), Failed>
    requires open { IsTrue (D.seen desk.old).told.output_open }
    ensures puts { Puts (numbers_spelled numbers.now) result after_write (D.seen desk.old).told (D.seen desk.new).told }
    ensures counts { WriteCounts result (D.seen desk.old) (D.seen desk.new) }
{
    if numbers.len() <= FEW / 4 {
        put_by(desk, numbers, &mut [0; FEW])
    } else {
        put_by(desk, numbers, &mut [0; MANY])
    }
}

fn name(form: ProgramForm) -> [u8; 4]
    ensures { result ≡ name_of form }
{
    match form {
        ProgramForm::Based(Layout::Paged) => *b"BRP1",
        ProgramForm::Based(Layout::Chunked) => *b"BRP2",
        ProgramForm::Spanned => *b"BRP3",
    }
}

// How a program's file has its chunks: whether all are pages.
fn layout_of_grants(grants: &PageSet) -> Layout
    ensures { result ≡ layout_for grants.now }
{
    if are_pages(grants.as_slice()) {
        Layout::Paged
    } else {
        Layout::Chunked
    }
}

// Puts the addresses of so many chunks, from one on, into a buffer.
fn list_addresses(grants: &PageSet, from: usize, count: usize, out: &mut [u32])
    requires inside { from + count ≤ length grants.now }
    requires few { length grants.now ≤ max_chunks }
    requires room { count ≤ length out.old }
    ensures { take count out.new ≡ map (λ c. c.at) (take count (drop from grants.now)) }
{
    for i in 0..count {
        out[i] = grants.get(from + i);
    }
}

// Puts the addresses and lengths of so many chunks, from one on, into a buffer.
fn list_pairs(grants: &PageSet, from: usize, count: usize, out: &mut [u32])
    requires inside { from + count ≤ length grants.now }
    requires few { length grants.now ≤ max_chunks }
    requires room { 2 * count ≤ length out.old }
    ensures { take (2 * count) out.new ≡ flat_map chunk_numbers (take count (drop from grants.now)) }
{
    for i in 0..count {
        out[2 * i] = grants.get(from + i);
        out[2 * i + 1] = grants.size(from + i);
    }
}

// Puts the numbers that a file has of so many chunks, from one on, into a buffer, and answers how many they are.
fn list_chunks(
    layout: Layout,
    grants: &PageSet,
    from: usize,
    count: usize,
    out: &mut [u32],
) -> usize
    requires inside { from + count ≤ length grants.now }
    requires few { length grants.now ≤ max_chunks }
    requires room { 2 * count ≤ length out.old }
    ensures within { result ≤ length out.new }
    ensures numbers { numbers_spelled (take result out.new) ≡ flat_map (chunk_in layout) (take count (drop from grants.now)) }
{
    match layout {
        Layout::Paged => {
            list_addresses(grants, from, count, out);
            count
        }
        Layout::Chunked => {
            list_pairs(grants, from, count, out);
            2 * count
        }
    }
}

// Appends the chunks to the open output.
fn put_chunks<D: Desk>(desk: &mut D, layout: Layout, grants: &PageSet) -> Result<(), Failed>
    requires open { IsTrue (D.seen desk.old).told.output_open }
    ensures puts { Puts (flat_map (chunk_in layout) grants.now) result after_write (D.seen desk.old).told (D.seen desk.new).told }
    ensures counts { WriteCounts result (D.seen desk.old) (D.seen desk.new) }
{
    let mut numbers = [0; 2 * CHUNKS];
    let mut at = 0;
    while at < grants.len() {
        let count = CHUNKS.min(grants.len() - at);
        let listed = list_chunks(layout, grants, at, count, &mut numbers);
        put_numbers(desk, &numbers[..listed])?;
        at += count;
    }
    Ok(())
}

// Appends the number of the chunks and the chunks to the open output.
fn put_grants<D: Desk>(desk: &mut D, layout: Layout, grants: &PageSet) -> Result<(), Failed>
    requires open { IsTrue (D.seen desk.old).told.output_open }
    ensures puts { Puts (grants_spelled layout grants.now) result after_write (D.seen desk.old).told (D.seen desk.new).told }
    ensures counts { WriteCounts result (D.seen desk.old) (D.seen desk.new) }
{
    put_numbers(desk, &[grants.len() as u32])?;
    put_chunks(desk, layout, grants)
}

// The form of a program's file.
fn form_of_program(program: &Program) -> ProgramForm
    ensures { result ≡ form_for program.now }
{
    if program.begins_at_base() {
        ProgramForm::Based(layout_of_grants(program.grants()))
    } else {
        ProgramForm::Spanned
    }
}

// Appends an address, the number of the words there, and the words.
fn put_span<D: Desk>(desk: &mut D, at: u32, words: &[u32]) -> Result<(), Failed>
    requires open { IsTrue (D.seen desk.old).told.output_open }
    requires few { length words.now ≤ max_words }
    ensures puts { Puts (span_spelled (span at words.now)) result after_write (D.seen desk.old).told (D.seen desk.new).told }
    ensures counts { WriteCounts result (D.seen desk.old) (D.seen desk.new) }
{
    put_numbers(desk, &[at, words.len() as u32])?;
    put_numbers(desk, words)
}

// Appends the spans to the open output.
fn put_spans<D: Desk>(desk: &mut D, spans: &Spans) -> Result<(), Failed>
    requires open { IsTrue (D.seen desk.old).told.output_open }
    requires few { length (words_of spans.now) ≤ max_words }
    ensures puts { Puts (flat_map span_spelled spans.now) result after_write (D.seen desk.old).told (D.seen desk.new).told }
    ensures counts { WriteCounts result (D.seen desk.old) (D.seen desk.new) }
{
    for number in 0..spans.len() {
        put_span(desk, spans.at(number), spans.words_of(number))?;
    }
    Ok(())
}

// Appends the number of the spans, the spans and the entry.
fn put_spanned<D: Desk>(desk: &mut D, entry: u32, spans: &Spans) -> Result<(), Failed>
    requires open { IsTrue (D.seen desk.old).told.output_open }
    requires many { length spans.now ≤ max_spans }
    requires few { length (words_of spans.now) ≤ max_words }
    ensures puts { Puts (spanned_spelled entry spans.now) result after_write (D.seen desk.old).told (D.seen desk.new).told }
    ensures counts { WriteCounts result (D.seen desk.old) (D.seen desk.new) }
{
    put_numbers(desk, &[spans.len() as u32])?;
    put_spans(desk, spans)?;
    put_numbers(desk, &[entry])
}

// Appends the words of a program where they are, and its entry.
fn put_placed<D: Desk>(desk: &mut D, form: ProgramForm, program: &Program) -> Result<(), Failed>
    requires open { IsTrue (D.seen desk.old).told.output_open }
    ensures puts { Puts (placed_spelled form program.now) result after_write (D.seen desk.old).told (D.seen desk.new).told }
    ensures counts { WriteCounts result (D.seen desk.old) (D.seen desk.new) }
{
    match form {
        ProgramForm::Based(_) => put_span(desk, program.base(), program.words()),
        ProgramForm::Spanned => put_spanned(desk, program.base(), program.spans()),
    }
}

// Appends the file of a program and a fill in a form.
fn put_as<D: Desk>(
    desk: &mut D,
    form: ProgramForm,
    program: &Program,
    fill: u8,
) -> Result<(), Failed>
    requires open { IsTrue (D.seen desk.old).told.output_open }
    ensures puts { Puts (spelled_as form program.now fill) result after_write (D.seen desk.old).told (D.seen desk.new).told }
    ensures counts { WriteCounts result (D.seen desk.old) (D.seen desk.new) }
{
    put(desk, &name(form))?;
    put_placed(desk, form, program)?;
    put_grants(desk, layout_of(form), program.grants())?;
    put(desk, &[fill])
}

/// Appends the canonical encoding of a program and a fill to the open output. It is `BRP1` or `BRP2` where the words
/// are one after another from the entry on, or where there are none: `BRP1` where all chunks are pages. Else it is
/// `BRP3`. Where a write fails, some first bytes of it were appended.
#[tactic(auto, unfolding(crate::specs::Programs::spelled))]
pub fn write_program<D: Desk>(program: &Program, fill: u8, desk: &mut D) -> Result<(), Failed>
    requires open { IsTrue (D.seen desk.old).told.output_open }
    ensures puts { Puts (spelled program.now fill) result after_write (D.seen desk.old).told (D.seen desk.new).told }
    ensures counts { WriteCounts result (D.seen desk.old) (D.seen desk.new) }
{
    put_as(desk, form_of_program(program), program, fill)
}
