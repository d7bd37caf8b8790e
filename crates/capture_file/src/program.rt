//! Program files.

ghost use Rattle.capture_file.specs.Programs.{Gives, HasWords, IsPlaced, Reads, address_fault, based_field, base_field, base_fault};
ghost use Rattle.capture_file.specs.Programs.{behind_field};
ghost use Rattle.capture_file.specs.Programs.{chunk_count_fault, chunk_count_field};
ghost use Rattle.capture_file.specs.Programs.{chunk_field, chunks_field, cut, entry_fault, entry_field, fill_fault, fill_field};
ghost use Rattle.capture_file.specs.Programs.{first_words_field, form_field, is_length, judged, layout_of, length_fault};
ghost use Rattle.capture_file.specs.Programs.{long_chunk_field, number_field, page_fault, page_field, passed, placed_field, program_of};
ghost use Rattle.capture_file.specs.Programs.{span_address_fault, span_address_field, span_field, span_length_fault};
ghost use Rattle.capture_file.specs.Programs.{span_length_field, span_number_fault, span_number_field, spanned_field, spans_field};
ghost use Rattle.capture_file.specs.Programs.{with_grants, with_span, with_words, without_grants, word_count_fault, word_count_field};
ghost use Rattle.capture_file.specs.Programs.{words_field, words_in, wrong};
ghost use Rattle.std.specs.List.{All, list_all};
ghost use Rattle.byteorder.specs.Endian.{little_number};
ghost use Rattle.page_table.specs.Grants.{AreRising, chunk, is_page, total, max_bytes, max_chunks};
ghost use Rattle.capture_file.specs.declared.program.ProgramError.TheVariants.{File, Memory};
ghost use Rattle.capture_file.specs.declared.program.ProgramForm.TheVariants.{Spanned};
ghost use Rattle.page_table.specs.Taken.{listed, pair_chunk};
ghost use Rattle.machine_model.specs.Paths.{IsProgram, Span, end_of, is_there, max_spans, max_words, shares_byte, span, spans_of};
ghost use Rattle.machine_model.specs.Paths.{word_among};
ghost use Rattle.std.specs.Prelude.{false, nat_le, nat_lt, ◌&&◌, ◌==◌, ◌/◌, ◌%◌, ◌≡◌, ◌+◌, ◌-◌, ◌*◌, ◌^◌, ◌≤◌, ◌<◌, ◌∷◌, ◌++◌, List, ℕ, []};
ghost use Rattle.std.specs.Prelude.{drop, length, slice_index_or, IfOk, IfErr, IsOk, Ok, OnOk};

use super::records::number;
use super::{FileFault, FileKind};
use byteorder::{ByteOrder, LittleEndian};
use machine_model::MAX_WORDS;
use page_table::{
    ADDRESSES, MAX_BYTES, MAX_CHUNKS, PAGE_SIZE, PageFault, PageSet, is_met, is_page,
};
use risc_verify::{Program, Spans};
use std::alloc::{AllocError, AllocFailed, Global};

/// What a program file holds.
#[derive(Drop)]
pub struct ProgramFile {
    /// The program, with the chunks that it may write. It need not be sound.
    pub program: Program,
    /// The byte that the granted memory holds at the start.
    pub fill: u8,
}

/// Why a program file was not read.
#[derive(Debug, Drop)]
pub enum ProgramError {
    /// The first field that is cut or at fault.
    File(FileFault),
    /// Out of memory.
    Memory,
}

impl From<FileFault> for ProgramError {
    ghost use Rattle.std.specs.Prelude.{◌≡◌};
    ghost use Rattle.capture_file.specs.declared.program.ProgramError.TheVariants.{File};

    ghost from_gives = { λ fault e. e ≡ File fault };

    fn from(fault: FileFault) -> ProgramError {
        ProgramError::File(fault)
    }
}

impl From<AllocError> for ProgramError {
    ghost use Rattle.std.specs.Prelude.{◌≡◌};
    ghost use Rattle.capture_file.specs.declared.program.ProgramError.TheVariants.{Memory};

    ghost from_gives = { λ _ e. e ≡ Memory };

    fn from(_: AllocError) -> ProgramError {
        ProgramError::Memory
    }
}

/// How a program file and an image have their chunks.
#[derive(Clone, Copy)]
pub enum Layout {
    /// By their addresses, since all of them are pages.
    Paged,
    /// By their addresses and lengths.
    Chunked,
}

/// The three forms of a program file.
#[derive(Clone, Copy)]
pub enum ProgramForm {
    /// The words are one after another from the entry on, or there are none: `BRP1` where all chunks are pages,
    /// else `BRP2`.
    Based(Layout),
    /// Any other program, by its spans: `BRP3`.
    Spanned,
}

const BRP1: u32 = 0x3150_5242;

const BRP2: u32 = 0x3250_5242;

const BRP3: u32 = 0x3350_5242;

// The words that are read at once.
const GROUP: usize = 1_024;

// How many spans a program may have.
const MAX_SPANS: u32 = 4_096;

impl<T: Drop> From<AllocFailed<T>> for ProgramError {
    ghost use Rattle.std.specs.Prelude.{◌≡◌};
    ghost use Rattle.capture_file.specs.declared.program.ProgramError.TheVariants.{Memory};

    ghost from_gives = { λ _ e. e ≡ Memory };

    fn from(_: AllocFailed<T>) -> ProgramError {
        ProgramError::Memory
    }
}

/// What is left of a file, and the size of the whole file.
#[derive(Clone, Copy)]
pub(super) struct Rest<'a> {
    pub(super) size: usize,
    pub(super) bytes: &'a [u8],
}

/// The spans of a program, and the address at which its path begins.
#[derive(Drop)]
pub(super) struct Placed {
    pub(super) start: u32,
    pub(super) spans: Spans,
}

/// From where on a span may begin, and how many words the spans before it have.
#[derive(Clone, Copy)]
struct Above {
    from: u64,
    words: u32,
}

/// Where the chunks before one end, and how many bytes they have.
#[derive(Clone, Copy)]
struct Before {
    end: u64,
    bytes: u64,
}

fn base_wrong(base: u32) -> Option<FileKind>
    ensures { result ≡ base_fault base }
{
    if base % 4 == 0 {
        None
    } else {
        Some(FileKind::Base)
    }
}

fn word_count_wrong(base: u32, count: u32) -> Option<FileKind>
    ensures { result ≡ word_count_fault base count }
{
    if count <= MAX_WORDS && u64::from(base) + 4 * u64::from(count) <= ADDRESSES {
        None
    } else {
        Some(FileKind::Count)
    }
}

fn span_number_wrong(count: u32) -> Option<FileKind>
    ensures { result ≡ span_number_fault count }
{
    if count != 0 && count <= MAX_SPANS {
        None
    } else {
        Some(FileKind::Count)
    }
}

fn span_address_wrong(from: u64, at: u32) -> Option<FileKind>
    ensures { result ≡ span_address_fault from at }
{
    if at % 4 != 0 {
        Some(FileKind::Base)
    } else if u64::from(at) < from {
        Some(FileKind::Order)
    } else {
        None
    }
}

fn span_length_wrong(at: u32, sum: u32, count: u32) -> Option<FileKind>
    ensures { result ≡ span_length_fault at sum count }
{
    if count != 0
        && u64::from(sum) + u64::from(count) <= u64::from(MAX_WORDS)
        && u64::from(at) + 4 * u64::from(count) <= ADDRESSES
    {
        None
    } else {
        Some(FileKind::Count)
    }
}

// The address behind a span.
fn span_end(spans: &Spans, number: usize) -> u64
    requires { number < length spans.now }
    ensures { (d : Span) → result ≡ end_of (slice_index_or spans.now number d) }
{
    u64::from(spans.at(number)) + 4 * spans.words_of(number).len() as u64
}

// Whether an address is that of one of so many words from `at` on.
fn stands_in(at: u32, count: usize, address: u32) -> bool
    ensures { result ≡ (nat_le at address && (address - at) % 4 == 0 && nat_lt ((address - at) / 4) count) }
{
    at <= address && (address - at) % 4 == 0 && (((address - at) / 4) as usize) < count
}

// Whether an address is that of a word.
fn is_in(spans: &Spans, address: u32) -> bool
    ensures { result ≡ is_there (word_among spans.now address) }
{
    for number in 0..spans.len() {
        if stands_in(spans.at(number), spans.words_of(number).len(), address) {
            return true;
        }
    }
    false
}

fn entry_wrong(spans: &Spans, entry: u32) -> Option<FileKind>
    ensures { result ≡ entry_fault spans.now entry }
{
    if is_in(spans, entry) && !spans.begins_at(entry) {
        None
    } else {
        Some(FileKind::Entry)
    }
}

fn chunk_count_wrong(count: u32) -> Option<FileKind>
    ensures { result ≡ chunk_count_fault count }
{
    if count as usize <= MAX_CHUNKS {
        None
    } else {
        Some(FileKind::Count)
    }
}

// The number in four bytes from a place on.
#[inline]
fn number_from(bytes: &[u8], at: usize) -> u32
    requires { at + 4 ≤ length bytes.now }
    ensures { result ≡ little_number 4 (drop at bytes.now) }
{
    LittleEndian::read_u32(&bytes[at..])
}

// Reads numbers from the front of some bytes.
fn read_numbers(bytes: &[u8], numbers: &mut [u32])
    requires { 4 * length numbers.old ≤ length bytes.now }
    ensures { numbers.new ≡ words_in (length numbers.old) bytes.now }
{
    for (i, number) in numbers.iter_mut().enumerate() {
        *number = number_from(bytes, 4 * i);
    }
}

// Appends the words in some bytes, read a group at a time.
pub(super) fn append_words(
    words: &mut Vec<u32>,
    count: usize,
    bytes: &[u8],
) -> Result<(), AllocError>
    requires { 4 * count ≤ length bytes.now }
    ensures value { OnOk result (words.new.items ≡ words.old.items ++ words_in count bytes.now) }
    ensures len { OnOk result (length words.new.items ≡ length words.old.items + count) }
{
    let mut group = [0; GROUP];
    let mut at = 0;
    while at < count {
        let few = GROUP.min(count - at);
        read_numbers(&bytes[4 * at..], &mut group[..few]);
        words.extend_from_slice(&group[..few])?;
        at += few;
    }
    Ok(())
}

// The words in some bytes.
fn words_of(alloc: Global, count: u32, bytes: &[u8]) -> Result<Vec<u32>, ProgramError>
    requires { 4 * count ≤ length bytes.now }
    ensures value { Gives (λ v. v.items) result (Ok (words_in count bytes.now)) }
    ensures len { IfOk result (λ v. length v.items ≡ count) }
{
    let count = count as usize;
    let mut words = Vec::with_capacity(alloc, count)?;
    append_words(&mut words, count, bytes)?;
    Ok(words)
}

// Appends the words in some bytes to the last span.
fn push_words(spans: &mut Spans, count: u32, bytes: &[u8]) -> Result<(), AllocError>
    requires some { 0 < length spans.old }
    requires long { 4 * count ≤ length bytes.now }
    ensures { OnOk result (spans.new ≡ with_words spans.old (words_in count bytes.now)) }
{
    for number in 0..count as usize {
        spans.push(number_from(bytes, 4 * number))?;
    }
    Ok(())
}

impl Placed {
    // Whether a chunk shares a byte with the program.
    fn shares(&self, at: u32, len: u32) -> bool
        ensures { result ≡ shares_byte (without_grants self.now.start self.now.spans) (chunk at len) }
    {
        for number in 0..self.spans.len() {
            if is_met(
                self.spans.at(number),
                span_end(&self.spans, number),
                at,
                len,
            ) {
                return true;
            }
        }
        false
    }

    // The file of the program, with the chunks that it may write.
    fn file(self, grants: PageSet, fill: u8) -> ProgramFile
        requires { IsProgram (with_grants (without_grants self.start self.spans) grants) }
        ensures { result ≡ record { program = with_grants (without_grants self.start self.spans) grants; fill = fill } }
    {
        ProgramFile {
            program: Program::of_spans(self.start, self.spans, grants),
            fill,
        }
    }

    fn page_wrong(&self, from: u64, at: u32) -> Option<FileKind>
        ensures { result ≡ page_fault (without_grants self.now.start self.now.spans) from at }
    {
        if at % PAGE_SIZE != 0 {
            Some(FileKind::Page)
        } else if u64::from(at) < from {
            Some(FileKind::Order)
        } else if self.shares(at, PAGE_SIZE) {
            Some(FileKind::Overlap)
        } else {
            None
        }
    }

    fn length_wrong(&self, sum: u64, at: u32, len: u32) -> Option<FileKind>
        requires { sum < 2 ^ 62 }
        ensures { result ≡ length_fault (without_grants self.now.start self.now.spans) sum at len }
    {
        if !is_right_length(sum, at, len) {
            Some(FileKind::Length)
        } else if self.shares(at, len) {
            Some(FileKind::Overlap)
        } else {
            None
        }
    }
}

fn address_wrong(from: u64, at: u32) -> Option<FileKind>
    ensures { result ≡ address_fault from at }
{
    if at % 4 != 0 {
        Some(FileKind::Page)
    } else if u64::from(at) < from {
        Some(FileKind::Order)
    } else {
        None
    }
}

fn is_right_length(sum: u64, at: u32, len: u32) -> bool
    requires { sum < 2 ^ 62 }
    ensures { result ≡ is_length sum at len }
{
    len != 0
        && len % 4 == 0
        && u64::from(at) + u64::from(len) <= ADDRESSES
        && sum + u64::from(len) <= MAX_BYTES
}

pub(super) fn are_pages(chunks: &[(u32, u32)]) -> bool
    ensures { result ≡ list_all (λ pair. is_page (pair_chunk pair)) chunks.now }
{
    chunks.iter().all(|pair| is_page(pair.0, pair.1))
}

pub(super) fn layout_of(form: ProgramForm) -> Layout
    ensures { result ≡ layout_of form }
{
    match form {
        ProgramForm::Based(layout) => layout,
        ProgramForm::Spanned => Layout::Chunked,
    }
}

fn fill_wrong(form: ProgramForm, chunks: &[(u32, u32)]) -> Option<FileKind>
    ensures { result ≡ fill_fault form (listed chunks.now) }
{
    match form {
        ProgramForm::Spanned => None,
        ProgramForm::Based(layout) => match layout {
            Layout::Paged => None,
            Layout::Chunked => {
                if are_pages(chunks) {
                    Some(FileKind::Pages)
                } else {
                    None
                }
            }
        },
    }
}

/// Fields at the front of what is left of a file, each with what is left behind it.
impl<'a> Rest<'a> {
    // The end cuts a field.
    fn short(self) -> FileFault
        ensures { result ≡ cut self.entry.size }
    {
        FileFault {
            at: self.size as u64,
            kind: FileKind::Short,
        }
    }

    // The field is at fault at its first byte.
    fn fault(self, kind: FileKind) -> FileFault
        requires { length self.bytes.now ≤ self.size }
        ensures { result ≡ wrong self.entry.size self.entry.bytes.now kind }
    {
        FileFault {
            at: (self.size - self.bytes.len()) as u64,
            kind,
        }
    }

    // Whether the field is right.
    fn judge(self, wrong: Option<FileKind>) -> Result<(), FileFault>
        requires { length self.bytes.now ≤ self.size }
        ensures { result ≡ judged wrong self.entry.size self.entry.bytes.now }
    {
        match wrong {
            None => Ok(()),
            Some(kind) => Err(self.fault(kind)),
        }
    }

    // What is left from a place on.
    fn after(self, count: usize) -> Rest<'a>
        requires { count ≤ length self.bytes.now }
        ensures bytes { result.bytes.now ≡ drop count self.entry.bytes.now }
        ensures size { result.size ≡ self.entry.size }
    {
        Rest {
            size: self.size,
            bytes: &self.bytes[count..],
        }
    }

    fn number(self) -> Result<(u32, Rest<'a>), FileFault>
        ensures value { Reads (λ x. (x.0, x.1.bytes.now)) result (number_field self.entry.size self.entry.bytes.now) }
        ensures rest { IfOk result (λ x. (x.1.size ≡ self.entry.size) × (length x.1.bytes.now ≤ length self.entry.bytes.now)) }
    {
        match number(self.bytes) {
            Some(n) => Ok((n, self.after(4))),
            None => Err(self.short()),
        }
    }

    #[tactic(auto, unfolding(crate::specs::Programs::form_field))]
    pub(super) fn form(self) -> Result<(ProgramForm, Rest<'a>), FileFault>
        requires { length self.bytes.now ≤ self.size }
        ensures value { Reads (λ x. (x.0, x.1.bytes.now)) result (form_field self.entry.size self.entry.bytes.now) }
        ensures rest { IfOk result (λ x. (x.1.size ≡ self.entry.size) × (length x.1.bytes.now ≤ length self.entry.bytes.now)) }
    {
        let (word, rest) = self.number()?;
        match word {
            BRP1 => Ok((ProgramForm::Based(Layout::Paged), rest)),
            BRP2 => Ok((ProgramForm::Based(Layout::Chunked), rest)),
            BRP3 => Ok((ProgramForm::Spanned, rest)),
            _ => Err(self.fault(FileKind::Magic)),
        }
    }

    #[tactic(auto, unfolding(crate::specs::Programs::base_field))]
    pub(super) fn base(self) -> Result<(u32, Rest<'a>), FileFault>
        requires { length self.bytes.now ≤ self.size }
        ensures value { Reads (λ x. (x.0, x.1.bytes.now)) result (base_field self.entry.size self.entry.bytes.now) }
        ensures rest { IfOk result (λ x. (x.1.size ≡ self.entry.size) × (length x.1.bytes.now ≤ length self.entry.bytes.now)) }
        ensures aligned { IfOk result (λ x. x.0 % 4 ≡ 0) }
    {
        let (base, rest) = self.number()?;
        self.judge(base_wrong(base))?;
        Ok((base, rest))
    }

    #[tactic(auto, unfolding(crate::specs::Programs::word_count_field))]
    pub(super) fn word_count(self, base: u32) -> Result<(u32, Rest<'a>), FileFault>
        requires { length self.bytes.now ≤ self.size }
        ensures value { Reads (λ x. (x.0, x.1.bytes.now)) result (word_count_field self.entry.size base self.entry.bytes.now) }
        ensures rest { IfOk result (λ x. (x.1.size ≡ self.entry.size) × (length x.1.bytes.now ≤ length self.entry.bytes.now)) }
        ensures few { IfOk result (λ x. x.0 ≤ max_words) }
        ensures ends { IfOk result (λ x. base + 4 * x.0 ≤ 2 ^ 32) }
    {
        let (count, rest) = self.number()?;
        self.judge(word_count_wrong(base, count))?;
        Ok((count, rest))
    }

    #[tactic(auto, unfolding(crate::specs::Programs::words_field))]
    fn words(self, alloc: Global, count: u32) -> Result<(Vec<u32>, Rest<'a>), ProgramError>
        ensures value { Gives (λ x. (x.0.items, x.1.bytes.now)) result (words_field self.entry.size count self.entry.bytes.now) }
        ensures rest { IfOk result (λ x. (x.1.size ≡ self.entry.size) × (length x.1.bytes.now ≤ length self.entry.bytes.now)) }
        ensures memory { IfErr result (λ e. e ≡ Memory → IsOk (words_field self.entry.size count self.entry.bytes.now)) }
    {
        let long = 4 * u64::from(count);
        if (self.bytes.len() as u64) < long {
            return Err(ProgramError::File(self.short()));
        }
        let words = words_of(alloc, count, self.bytes)?;
        Ok((words, self.after(long as usize)))
    }

    // The base and the words one after another from it on.
    #[tactic(auto, unfolding(crate::specs::Programs::based_field))]
    fn based(self, alloc: Global) -> Result<(Placed, Rest<'a>), ProgramError>
        requires { length self.bytes.now ≤ self.size }
        ensures value { Gives (λ x. (without_grants x.0.start x.0.spans, x.1.bytes.now)) result
            (based_field self.entry.size self.entry.bytes.now) }
        ensures rest { IfOk result (λ x. (x.1.size ≡ self.entry.size) × (length x.1.bytes.now ≤ length self.entry.bytes.now)) }
        ensures memory { IfErr result (λ e. e ≡ Memory → IsOk (based_field self.entry.size self.entry.bytes.now)) }
    {
        let (start, rest) = self.base()?;
        let (count, rest) = rest.word_count(start)?;
        let (words, rest) = rest.words(alloc, count)?;
        let spans = Spans::one(start, words);
        Ok((Placed { start, spans }, rest))
    }

    #[tactic(auto, unfolding(crate::specs::Programs::span_number_field))]
    fn span_number(self) -> Result<(u32, Rest<'a>), FileFault>
        requires { length self.bytes.now ≤ self.size }
        ensures value { Reads (λ x. (x.0, x.1.bytes.now)) result (span_number_field self.entry.size self.entry.bytes.now) }
        ensures rest { IfOk result (λ x. (x.1.size ≡ self.entry.size) × (length x.1.bytes.now ≤ length self.entry.bytes.now)) }
        ensures some { IfOk result (λ x. 0 < x.0) }
    {
        let (count, rest) = self.number()?;
        self.judge(span_number_wrong(count))?;
        Ok((count, rest))
    }

    #[tactic(auto, unfolding(crate::specs::Programs::span_address_field))]
    fn span_address(self, from: u64) -> Result<(u32, Rest<'a>), FileFault>
        requires { length self.bytes.now ≤ self.size }
        ensures value { Reads (λ x. (x.0, x.1.bytes.now)) result (span_address_field self.entry.size from self.entry.bytes.now) }
        ensures rest { IfOk result (λ x. (x.1.size ≡ self.entry.size) × (length x.1.bytes.now ≤ length self.entry.bytes.now)) }
    {
        let (at, rest) = self.number()?;
        self.judge(span_address_wrong(from, at))?;
        Ok((at, rest))
    }

    #[tactic(auto, unfolding(crate::specs::Programs::span_length_field))]
    fn span_length(self, at: u32, sum: u32) -> Result<(u32, Rest<'a>), FileFault>
        requires { length self.bytes.now ≤ self.size }
        ensures value { Reads (λ x. (x.0, x.1.bytes.now)) result (span_length_field self.entry.size at sum self.entry.bytes.now) }
        ensures rest { IfOk result (λ x. (x.1.size ≡ self.entry.size) × (length x.1.bytes.now ≤ length self.entry.bytes.now)) }
        ensures few { IfOk result (λ x. sum + x.0 ≤ max_words) }
    {
        let (count, rest) = self.number()?;
        self.judge(span_length_wrong(at, sum, count))?;
        Ok((count, rest))
    }

    // Appends the words at the front as a span of their own.
    #[tactic(auto, unfolding(crate::specs::Programs::words_field))]
    fn span_words(self, spans: &mut Spans, at: u32, count: u32) -> Result<Rest<'a>, ProgramError>
        ensures value { Gives (λ x. (spans.new, x.bytes.now)) result
            (with_span spans.old at (words_field self.entry.size count self.entry.bytes.now)) }
        ensures rest { IfOk result (λ x. (x.size ≡ self.entry.size) × (length x.bytes.now ≤ length self.entry.bytes.now)) }
        ensures memory { IfErr result (λ e. e ≡ Memory → IsOk (words_field self.entry.size count self.entry.bytes.now)) }
    {
        let long = 4 * u64::from(count);
        if (self.bytes.len() as u64) < long {
            return Err(ProgramError::File(self.short()));
        }
        spans.begin(at)?;
        push_words(spans, count, self.bytes)?;
        Ok(self.after(long as usize))
    }

    // Appends the span at the front, and answers where the next may begin.
    #[tactic(auto, unfolding(crate::specs::Programs::span_field))]
    fn span(self, spans: &mut Spans, above: Above) -> Result<(Above, Rest<'a>), ProgramError>
        requires { length self.bytes.now ≤ self.size }
        ensures value { Gives (λ x. (((x.0.from, x.0.words), spans.new), x.1.bytes.now)) result
            (passed spans.old above.words (span_field self.entry.size above.from above.words self.entry.bytes.now)) }
        ensures rest { IfOk result (λ x. (x.1.size ≡ self.entry.size) × (length x.1.bytes.now ≤ length self.entry.bytes.now)) }
        ensures memory { IfErr result (λ e. e ≡ Memory → IsOk (span_field self.entry.size above.from above.words self.entry.bytes.now)) }
    {
        let (at, rest) = self.span_address(above.from)?;
        let (count, rest) = rest.span_length(at, above.words)?;
        let rest = rest.span_words(spans, at, count)?;
        let above = Above {
            from: u64::from(at) + 4 * u64::from(count) + 1,
            words: above.words + count,
        };
        Ok((above, rest))
    }

    #[tactic(auto, unfolding(crate::specs::Programs::entry_field))]
    fn entry(self, spans: &Spans) -> Result<(u32, Rest<'a>), FileFault>
        requires { length self.bytes.now ≤ self.size }
        ensures value { Reads (λ x. (x.0, x.1.bytes.now)) result (entry_field self.entry.size spans.now self.entry.bytes.now) }
        ensures rest { IfOk result (λ x. (x.1.size ≡ self.entry.size) × (length x.1.bytes.now ≤ length self.entry.bytes.now)) }
    {
        let (entry, rest) = self.number()?;
        self.judge(entry_wrong(spans, entry))?;
        Ok((entry, rest))
    }

    // The spans and the entry.
    #[tactic(auto, unfolding(crate::specs::Programs::spanned_field))]
    fn spanned(self, alloc: Global) -> Result<(Placed, Rest<'a>), ProgramError>
        requires { length self.bytes.now ≤ self.size }
        ensures value { Gives (λ x. (without_grants x.0.start x.0.spans, x.1.bytes.now)) result
            (spanned_field self.entry.size self.entry.bytes.now) }
        ensures rest { IfOk result (λ x. (x.1.size ≡ self.entry.size) × (length x.1.bytes.now ≤ length self.entry.bytes.now)) }
        ensures memory { IfErr result (λ e. e ≡ Memory → IsOk (first_words_field Spanned self.entry.size self.entry.bytes.now)) }
    {
        let (count, rest) = self.span_number()?;
        let (spans, rest) = read_spans(alloc, count, rest.size, rest.bytes)?;
        let (start, rest) = rest.entry(&spans)?;
        Ok((Placed { start, spans }, rest))
    }

    fn placed(self, alloc: Global, form: ProgramForm) -> Result<(Placed, Rest<'a>), ProgramError>
        requires { length self.bytes.now ≤ self.size }
        ensures value { Gives (λ x. (without_grants x.0.start x.0.spans, x.1.bytes.now)) result
            (placed_field form self.entry.size self.entry.bytes.now) }
        ensures rest { IfOk result (λ x. (x.1.size ≡ self.entry.size) × (length x.1.bytes.now ≤ length self.entry.bytes.now)) }
        ensures memory { IfErr result (λ e. e ≡ Memory → IsOk (first_words_field form self.entry.size self.entry.bytes.now)) }
    {
        match form {
            ProgramForm::Based(_) => self.based(alloc),
            ProgramForm::Spanned => self.spanned(alloc),
        }
    }

    #[tactic(auto, unfolding(crate::specs::Programs::chunk_count_field))]
    fn chunk_count(self) -> Result<(u32, Rest<'a>), FileFault>
        requires { length self.bytes.now ≤ self.size }
        ensures value { Reads (λ x. (x.0, x.1.bytes.now)) result (chunk_count_field self.entry.size self.entry.bytes.now) }
        ensures rest { IfOk result (λ x. (x.1.size ≡ self.entry.size) × (length x.1.bytes.now ≤ length self.entry.bytes.now)) }
        ensures few { IfOk result (λ x. x.0 ≤ max_chunks) }
    {
        let (count, rest) = self.number()?;
        self.judge(chunk_count_wrong(count))?;
        Ok((count, rest))
    }

    #[tactic(auto, unfolding(crate::specs::Programs::page_field))]
    fn page(self, program: &Placed, from: u64) -> Result<((u32, u32), Rest<'a>), FileFault>
        requires inside { length self.bytes.now ≤ self.size }
        ensures value { Reads (λ x. (pair_chunk x.0, x.1.bytes.now)) result
            (page_field self.entry.size (without_grants program.now.start program.now.spans) from self.entry.bytes.now) }
        ensures rest { IfOk result (λ x. (x.1.size ≡ self.entry.size) × (length x.1.bytes.now ≤ length self.entry.bytes.now)) }
        ensures wide { IfOk result (λ x. x.0.1 < 2 ^ 32) }
    {
        let (at, rest) = self.number()?;
        self.judge(program.page_wrong(from, at))?;
        Ok(((at, PAGE_SIZE), rest))
    }

    #[tactic(auto, unfolding(crate::specs::Programs::long_chunk_field))]
    fn long_chunk(
        self,
        program: &Placed,
        before: Before,
    ) -> Result<((u32, u32), Rest<'a>), FileFault>
        requires inside { length self.bytes.now ≤ self.size }
        requires small { before.bytes < 2 ^ 62 }
        ensures value { Reads (λ x. (pair_chunk x.0, x.1.bytes.now)) result (long_chunk_field self.entry.size
            (without_grants program.now.start program.now.spans) before.end before.bytes self.entry.bytes.now) }
        ensures rest { IfOk result (λ x. (x.1.size ≡ self.entry.size) × (length x.1.bytes.now ≤ length self.entry.bytes.now)) }
        ensures wide { IfOk result (λ x. x.0.1 < 2 ^ 32) }
    {
        let (at, rest) = self.number()?;
        self.judge(address_wrong(before.end, at))?;
        let (len, after) = rest.number()?;
        rest.judge(program.length_wrong(before.bytes, at, len))?;
        Ok(((at, len), after))
    }

    fn chunk(
        self,
        layout: Layout,
        program: &Placed,
        before: Before,
    ) -> Result<((u32, u32), Rest<'a>), FileFault>
        requires inside { length self.bytes.now ≤ self.size }
        requires small { before.bytes < 2 ^ 62 }
        ensures value { Reads (λ x. (pair_chunk x.0, x.1.bytes.now)) result (chunk_field layout self.entry.size
            (without_grants program.now.start program.now.spans) before.end before.bytes self.entry.bytes.now) }
        ensures rest { IfOk result (λ x. (x.1.size ≡ self.entry.size) × (length x.1.bytes.now ≤ length self.entry.bytes.now)) }
        ensures wide { IfOk result (λ x. x.0.1 < 2 ^ 32) }
    {
        match layout {
            Layout::Paged => self.page(program, before.end),
            Layout::Chunked => self.long_chunk(program, before),
        }
    }

    // The last byte of a file.
    #[tactic(auto, unfolding(crate::specs::Programs::fill_field))]
    fn fill(self, form: ProgramForm, chunks: &[(u32, u32)]) -> Result<u8, FileFault>
        requires { length self.bytes.now ≤ self.size }
        ensures { result ≡ fill_field form self.entry.size (listed chunks.now) self.entry.bytes.now }
    {
        match self.bytes {
            [] => Err(self.short()),
            [fill, rest @ ..] => {
                self.judge(fill_wrong(form, chunks))?;
                if rest.is_empty() {
                    Ok(*fill)
                } else {
                    Err(self.after(1).fault(FileKind::AfterEnd))
                }
            }
        }
    }
}

// The spans at the front of these last bytes of a file of `size` bytes, and what is left behind them.
fn read_spans<'a>(
    alloc: Global,
    count: u32,
    size: usize,
    bytes: &'a [u8],
) -> Result<(Spans, Rest<'a>), ProgramError>
    requires inside { length bytes.now ≤ size }
    requires some { 0 < count }
    ensures value { Gives (λ x. (x.0, x.1.bytes.now)) result (spans_field size count 0 0 bytes.now) }
    ensures rest { IfOk result (λ x. (x.1.size ≡ size) × (length x.1.bytes.now ≤ length bytes.now)) }
    ensures memory { IfErr result (λ e. e ≡ Memory → IsOk (span_field size 0 0 bytes.now)) }
{
    let mut spans = Spans::new(alloc);
    let mut rest = Rest { size, bytes };
    let mut above = Above { from: 0, words: 0 };
    for _ in 0..count {
        (above, rest) = rest.span(&mut spans, above)?;
    }
    Ok((spans, rest))
}

// The chunks at the front of these last bytes of a file of `size` bytes, and what is left behind them.
fn read_chunks<'a>(
    alloc: Global,
    layout: Layout,
    program: &Placed,
    count: u32,
    size: usize,
    bytes: &'a [u8],
) -> Result<(Vec<(u32, u32)>, Rest<'a>), ProgramError>
    requires inside { length bytes.now ≤ size }
    requires count { count ≤ max_chunks }
    ensures value { Gives (λ x. (listed x.0.items, x.1.bytes.now)) result
        (chunks_field layout size (without_grants program.now.start program.now.spans) count 0 0 bytes.now) }
    ensures rest { IfOk result (λ x. (x.1.size ≡ size) × (length x.1.bytes.now ≤ length bytes.now)) }
    ensures rising { IfOk result (λ x. AreRising 0 (listed x.0.items)) }
    ensures small { IfOk result (λ x. total (listed x.0.items) ≤ max_bytes) }
    ensures len { IfOk result (λ x. length x.0.items ≡ count) }
{
    let mut chunks = Vec::new(alloc);
    let mut rest = Rest { size, bytes };
    let mut before = Before { end: 0, bytes: 0 };
    for _ in 0..count {
        let (chunk, after) = rest.chunk(layout, program, before)?;
        chunks.push(chunk)?;
        before = Before {
            end: u64::from(chunk.0) + u64::from(chunk.1),
            bytes: before.bytes + u64::from(chunk.1),
        };
        rest = after;
    }
    Ok((chunks, rest))
}

// The grants of chunks that rise.
fn grants_of(alloc: Global, chunks: &[(u32, u32)]) -> Result<PageSet, ProgramError>
    requires rising { AreRising 0 (listed chunks.now) }
    requires few { length chunks.now ≤ max_chunks }
    requires small { total (listed chunks.now) ≤ max_bytes }
    ensures value { IfOk result (λ grants. grants ≡ listed chunks.now) }
    ensures memory { IfErr result (λ e. e ≡ Memory) }
{
    match PageSet::from_chunks(alloc, chunks) {
        Ok(grants) => Ok(grants),
        Err(PageFault::Memory) => Err(ProgramError::Memory),
        Err(PageFault::TooMany) => unreachable!(),
        Err(PageFault::Unaligned(_)) => unreachable!(),
        Err(PageFault::Twice(_)) => unreachable!(),
    }
}

// The program of a file whose words were read, by what is behind them.
#[tactic(auto, unfolding(crate::specs::Programs::behind_field))]
pub(super) fn read_behind(
    alloc: Global,
    form: ProgramForm,
    placed: Placed,
    rest: Rest<'_>,
) -> Result<ProgramFile, ProgramError>
    requires inside { length rest.bytes.now ≤ rest.size }
    requires placed { IsPlaced form (without_grants placed.start placed.spans) rest.size rest.bytes.now }
    ensures { Gives (λ x. x) result
        (behind_field form rest.entry.size (without_grants placed.start placed.spans) rest.entry.bytes.now) }
{
    let (count, rest) = rest.chunk_count()?;
    let layout = layout_of(form);
    let (chunks, rest) = read_chunks(alloc, layout, &placed, count, rest.size, rest.bytes)?;
    let fill = rest.fill(form, &chunks)?;
    let grants = grants_of(alloc, &chunks)?;
    Ok(placed.file(grants, fill))
}

/// The program that a file holds, or the first field of the file that is cut or at fault (this project's own formats).
/// A file begins with `BRP1` or `BRP2` where the words are one after another from the entry on, or where there are
/// none: `BRP1` where all chunks are pages. The fields are then the base, the number of words and the words, the number
/// of pages or chunks and these in rising order, and the fill. Any other begins with `BRP3`; in place of base and words
/// it has the number of spans, these in rising order, each its address, its number of words and its words, and the
/// entry. Memory is taken only where the fields up to the first words are right and whole.
#[tactic(auto, unfolding(crate::specs::Programs::program_in, crate::specs::Programs::words_read))]
pub fn read_program(alloc: Global, bytes: &[u8]) -> Result<ProgramFile, ProgramError>
    ensures value { Gives (λ x. x) result (program_of bytes.now) }
    ensures memory { IfErr result (λ e. e ≡ Memory → HasWords bytes.now) }
{
    let file = Rest {
        size: bytes.len(),
        bytes,
    };
    let (form, rest) = file.form()?;
    let (placed, rest) = rest.placed(alloc, form)?;
    read_behind(alloc, form, placed, rest)
}
