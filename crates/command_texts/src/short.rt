//! Short texts, which take no memory.

ghost use Rattle.arrayvec.specs.ArrayString.{array_string_len};
ghost use Rattle.command_texts.specs.Texts.{answer_text, blocks_text, built_text, byte_text, input_words, kind_words, lost_words};
ghost use Rattle.command_texts.specs.Texts.{made_text, report_text};
ghost use Rattle.std.specs.Fmt.{decimal};
ghost use Rattle.std.specs.Prelude.{◌≡◌, ◌+◌, ◌≤◌, ◌++◌, codes, length};

use crate::answer::Answer;
use arrayvec::ArrayString;
use capture_file::{FileFault, FileKind, Input};
use dma_machine::Report;
use risc_listing::{Lines, push_at, push_digit, push_number};
use std::marker::Model;

/// The most bytes of a short text.
const SHORT: usize = 256;

/// A short text. Its bytes are in the value itself, so it takes no memory of an allocator.
#[derive(Drop)]
pub struct ShortText {
    text: ArrayString<SHORT>,
}

impl Model for ShortText {
    ghost use Rattle.std.specs.Prelude.{List, ℕ};

    ghost Value = { List ℕ };

    ghost view = { λ short. short.text.bytes };
}

impl ShortText {
    /// The text in `lines`, which is short.
    fn of_lines(lines: &Lines) -> ShortText
        requires { array_string_len lines.now ≤ 256 }
        ensures { result ≡ lines.now.bytes }
    {
        let mut text = ArrayString::new();
        text.push_str(lines.as_str());
        ShortText { text }
    }

    /// The text.
    pub fn as_str(&self) -> &str
        ensures { result.now ≡ self.now }
    {
        self.text.as_str()
    }
}

/// Appends the counts of turns and of bytes stored.
fn push_counts(text: &mut Lines, report: &Report)
    requires { array_string_len text.old + 60 ≤ 65536 }
    ensures bytes { text.new.bytes
        ≡ text.old.bytes ++ (codes "turns " ++ (decimal report.now.turns ++ (codes "\nmoved " ++ decimal report.now.moved))) }
    ensures long { array_string_len text.new ≤ array_string_len text.old + 60 }
{
    text.push_str("turns");
    push_number(text, report.turns);
    text.push_str("\nmoved");
    push_number(text, report.moved);
}

/// Appends the counts of what was lost.
fn push_lost(text: &mut Lines, lost: &[u64; 4])
    requires { array_string_len text.old + 84 ≤ 65536 }
    ensures bytes { text.new.bytes ≡ text.old.bytes ++ (codes " " ++ lost_words lost.now) }
    ensures long { array_string_len text.new ≤ array_string_len text.old + 84 }
{
    push_number(text, lost[0]);
    push_number(text, lost[1]);
    push_number(text, lost[2]);
    push_number(text, lost[3]);
}

/// Appends the report of a machine.
pub fn push_report(text: &mut Lines, report: &Report)
    requires { array_string_len text.old + 200 ≤ 65536 }
    ensures bytes { text.new.bytes ≡ text.old.bytes ++ report_text report.now }
    ensures long { array_string_len text.new ≤ array_string_len text.old + 200 }
{
    push_counts(text, report);
    text.push_str("\noverruns");
    push_lost(text, &report.overruns);
    text.push_str("\nstatus");
    push_at(text, report.int_stat);
    text.push_str("\n");
}

/// The report of a machine.
pub fn report_text(report: &Report) -> ShortText
    ensures { result ≡ report_text report.now }
{
    let mut text = Lines::new();
    push_report(&mut text, report);
    ShortText::of_lines(&text)
}

/// What `ring` prints: the number of block ends, and then the report of the machine.
pub fn blocks_text(blocks: u64, report: &Report) -> ShortText
    ensures { result ≡ blocks_text blocks report.now }
{
    let mut text = Lines::new();
    text.push_str("blocks");
    push_number(&mut text, blocks);
    text.push_str("\n");
    push_report(&mut text, report);
    ShortText::of_lines(&text)
}

/// What `compile` and `assemble` print of a program of so many words and chunks.
pub fn built_text(words: usize, pages: usize) -> ShortText
    ensures { result ≡ built_text words pages }
{
    let mut text = Lines::new();
    text.push_str("words");
    push_number(&mut text, words as u64);
    text.push_str(" pages");
    push_number(&mut text, pages as u64);
    text.push_str("\n");
    ShortText::of_lines(&text)
}

/// What `make` prints of a stream of so many fields and data entries.
pub fn made_text(fields: u32, entries: u64) -> ShortText
    ensures { result ≡ made_text fields entries }
{
    let mut text = Lines::new();
    text.push_str("fields");
    push_number(&mut text, u64::from(fields));
    text.push_str(" entries");
    push_number(&mut text, entries);
    text.push_str("\n");
    ShortText::of_lines(&text)
}

/// Which file, in words.
fn input_words(input: Input) -> &'static str
    ensures words { result.now ≡ input_words input }
    ensures short { length result.now ≤ 12 }
{
    match input {
        Input::Program => "program file",
        Input::Stream => "stream file",
        Input::Desc => "description",
        Input::Ring => "ring file",
    }
}

/// Appends a word and a byte in two hexadecimal digits.
fn push_byte(text: &mut Lines, word: &str, byte: u8)
    requires short { length word.now ≤ 20 }
    requires room { array_string_len text.old + 30 ≤ 65536 }
    ensures bytes { text.new.bytes ≡ text.old.bytes ++ (word.now ++ byte_text byte) }
    ensures long { array_string_len text.new ≤ array_string_len text.old + 30 }
{
    text.push_str(word);
    push_digit(text, byte / 16);
    push_digit(text, byte % 16);
}

/// Appends a fault of a file in words.
fn push_kind(text: &mut Lines, kind: FileKind)
    requires { array_string_len text.old + 30 ≤ 65536 }
    ensures bytes { text.new.bytes ≡ text.old.bytes ++ kind_words kind }
    ensures long { array_string_len text.new ≤ array_string_len text.old + 30 }
{
    match kind {
        FileKind::Magic => text.push_str("magic"),
        FileKind::Short => text.push_str("short"),
        FileKind::Count => text.push_str("count"),
        FileKind::Base => text.push_str("base"),
        FileKind::Page => text.push_str("page"),
        FileKind::Order => text.push_str("order"),
        FileKind::Overlap => text.push_str("overlap"),
        FileKind::Tag(byte) => push_byte(text, "tag ", byte),
        FileKind::Status(byte) => push_byte(text, "status ", byte),
        FileKind::Code(byte) => push_byte(text, "code ", byte),
        FileKind::Enable(byte) => push_byte(text, "enable ", byte),
        FileKind::AfterEnd => text.push_str("after end"),
        FileKind::TooLong => text.push_str("too long"),
        FileKind::TooManyTurns => text.push_str("too many turns"),
        FileKind::Trigger(byte) => push_byte(text, "trigger ", byte),
        FileKind::Length => text.push_str("length"),
        FileKind::Pages => text.push_str("pages"),
        FileKind::Slot(byte) => push_byte(text, "slot ", byte),
        FileKind::Buffer(byte) => push_byte(text, "buffer ", byte),
        FileKind::Entry => text.push_str("entry"),
    }
}

/// The text of a fault of a file.
pub fn malformed_text(input: Input, fault: FileFault) -> ShortText
    ensures { result ≡ answer_text (Answer.Malformed input fault) }
{
    let mut text = Lines::new();
    text.push_str(input_words(input));
    text.push_str(": ");
    push_kind(&mut text, fault.kind);
    text.push_str(" at");
    push_number(&mut text, fault.at);
    text.push_str("\n");
    ShortText::of_lines(&text)
}
