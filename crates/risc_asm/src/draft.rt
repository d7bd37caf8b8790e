//! What the lines of a text give together.

ghost use Rattle.risc_asm.specs.Drafts.{IsReadUpTo, Leaves, LineFits, ReadsInstr, Takes, instr_to_end, seen, to_end};
ghost use Rattle.risc_text.specs.Drafts.{blank, longer, taken, with_words};
ghost use Rattle.risc_text.specs.Readers.{Read, fields_of, line_at, named_line, word_field, words_line};
ghost use Rattle.risc_word.specs.declared.Instr.{Instr};
ghost use Rattle.risc_word.specs.Words.{fits};
ghost use Rattle.std.specs.Prelude.{◌≡◌, ◌≤◌, ◌<◌, ◌++◌, IfOk, IfSome, IsTrue, ℕ, length};

use super::lines::read_named_line;
use super::readers::{
    next_line, read_address, read_jump, read_name, read_skip, read_skip_123, read_sync, read_write,
    read_write_1_s_23, read_write_123, read_write_c,
};
use risc_text::{Line, Name};
use risc_verify::Spans;
use risc_word::{Instr, encode};
use std::alloc::{AllocError, AllocFailed, Global};

/// What the lines of a text give: a program, as far as its lines were read.
#[derive(Drop)]
pub struct Draft {
    pub base: Option<u32>,
    /// The words before all spans.
    pub words: Vec<u32>,
    pub spans: Spans,
    pub entry: Option<u32>,
    /// Addresses and lengths in bytes.
    pub chunks: Vec<(u32, u32)>,
    pub fill: Option<u8>,
}

// Appends words to the last span.
fn push_all(spans: &mut Spans, words: &[u32]) -> Result<(), AllocError>
    requires { 0 < length spans.old }
    ensures { IfOk result (λ _. spans.new ≡ longer spans.old words.now) }
{
    for word in words {
        spans.push(*word)?;
    }
    Ok(())
}

// Appends words one by one: they are few, and a copy of all at once takes longer.
#[inline(always)]
fn push_few(words: &mut Vec<u32>, more: &[u32]) -> Result<(), AllocError>
    ensures { IfOk result (λ _. words.new.items ≡ words.old.items ++ more.now) }
{
    for word in more {
        words.push(*word)?;
    }
    Ok(())
}

impl Draft {
    pub fn new(alloc: Global) -> Draft
        ensures { seen result ≡ blank }
    {
        Draft {
            base: None,
            words: Vec::new(alloc),
            spans: Spans::new(alloc),
            entry: None,
            chunks: Vec::new(alloc),
            fill: None,
        }
    }

    // Takes words.
    #[inline(always)]
    fn take_words(&mut self, words: &[u32]) -> Result<(), AllocError>
        ensures { IfOk result (λ _. seen self.new ≡ with_words (seen self.old) words.now) }
    {
        if self.spans.len() == 0 {
            return push_few(&mut self.words, words);
        }
        push_all(&mut self.spans, words)
    }

    // Takes a line.
    fn take(&mut self, line: &Line) -> Result<(), AllocError>
        requires { LineFits line.now }
        ensures { IfOk result (λ _. seen self.new ≡ taken (seen self.old) line.now) }
    {
        match line {
            Line::Base(base) => self.base = Some(*base),
            Line::Instr(instr) => {
                let mut words = [0; 5];
                let number = encode(instr, &mut words);
                self.take_words(&words[..usize::from(number)])?;
            }
            Line::Word(word) => self.take_words(&[*word])?,
            Line::Span(at) => self.spans.begin(*at)?,
            Line::Entry(entry) => self.entry = Some(*entry),
            Line::Chunk(at, len) => self.chunks.push((*at, *len))?,
            Line::Fill(fill) => self.fill = Some(*fill),
        }
        Ok(())
    }

    // Takes an instruction that was read, where its line ends there, and answers the text after it.
    #[inline(always)]
    fn take_instr<'a>(
        &mut self,
        read: Option<(Instr, &'a [u8])>,
    ) -> Result<Option<&'a [u8]>, AllocError>
        requires { IfSome read (λ x. IsTrue (fits x.0)) }
        ensures taken { IfOk result
            (λ left. (found : Read Instr) → ReadsInstr read.entry found → Takes (seen self.old) (instr_to_end found) (seen self.new) left) }
        ensures rest { IfOk result (λ left. IfSome left (λ y. (n : ℕ) → Leaves n read.entry → length y.now < n)) }
    {
        let Some((instr, text)) = read else {
            return Ok(None);
        };
        let Some(rest) = next_line(text) else {
            return Ok(None);
        };
        let mut words = [0; 5];
        let number = encode(&instr, &mut words);
        self.take_words(&words[..usize::from(number)])?;
        Ok(Some(rest))
    }

    // The same with a word.
    #[inline(always)]
    #[tactic(auto, unfolding(risc_text::specs::Readers::word_field))]
    fn take_word<'a>(&mut self, text: &'a [u8]) -> Result<Option<&'a [u8]>, AllocError>
        ensures taken { IfOk result (λ left. Takes (seen self.old) (to_end (word_field text.now)) (seen self.new) left) }
        ensures rest { IfOk result (λ left. IfSome left (λ y. length y.now < length text.now)) }
    {
        let Some((word, text)) = read_address(text) else {
            return Ok(None);
        };
        let Some(rest) = next_line(text) else {
            return Ok(None);
        };
        self.take_words(&[word])?;
        Ok(Some(rest))
    }

    // The fields after the name. Each name has its own way to the words, which is what makes it fast.
    #[inline(always)]
    fn take_fields<'a>(
        &mut self,
        name: Name,
        text: &'a [u8],
    ) -> Result<Option<&'a [u8]>, AllocError>
        ensures taken { IfOk result (λ left. Takes (seen self.old) (to_end (fields_of name text.now)) (seen self.new) left) }
        ensures rest { IfOk result (λ left. IfSome left (λ y. length y.now < length text.now)) }
    {
        match name {
            Name::Word => self.take_word(text),
            Name::Write => self.take_instr(read_write(text)),
            Name::Skip => self.take_instr(read_skip(text)),
            Name::WriteC => self.take_instr(read_write_c(text)),
            Name::Jump => self.take_instr(read_jump(text)),
            Name::Sync => self.take_instr(read_sync(text)),
            Name::Write123 => self.take_instr(read_write_123(text)),
            Name::Skip123 => self.take_instr(read_skip_123(text)),
            Name::Write1S23 => self.take_instr(read_write_1_s_23(text)),
        }
    }

    // The line of an instruction or a word, after its address and a space.
    #[inline(always)]
    #[tactic(auto, unfolding(risc_text::specs::Readers::words_line))]
    pub fn take_words_line<'a>(&mut self, text: &'a [u8]) -> Result<Option<&'a [u8]>, AllocError>
        ensures taken { IfOk result (λ left. Takes (seen self.old) (to_end (words_line text.now)) (seen self.new) left) }
        ensures rest { IfOk result (λ left. IfSome left (λ y. length y.now < length text.now)) }
    {
        let Some((name, text)) = read_name(text) else {
            return Ok(None);
        };
        self.take_fields(name, text)
    }

    // A line that begins with a word.
    fn take_named_line<'a>(&mut self, text: &'a [u8]) -> Result<Option<&'a [u8]>, AllocError>
        ensures taken { IfOk result (λ left. Takes (seen self.old) (to_end (named_line text.now)) (seen self.new) left) }
        ensures rest { IfOk result (λ left. IfSome left (λ y. length y.now < length text.now)) }
    {
        let Some((line, text)) = read_named_line(text) else {
            return Ok(None);
        };
        let Some(rest) = next_line(text) else {
            return Ok(None);
        };
        self.take(&line)?;
        Ok(Some(rest))
    }

    // The line at the front of a text; the text after it. A space after eight bytes shows that they are an address, which
    // follows from the lines before too.
    #[inline(always)]
    #[tactic(auto, unfolding(risc_text::specs::Readers::line_at, risc_text::specs::Readers::any_line))]
    fn take_line<'a>(&mut self, text: &'a [u8]) -> Result<Option<&'a [u8]>, AllocError>
        ensures taken { IfOk result (λ left. Takes (seen self.old) (line_at text.now) (seen self.new) left) }
        ensures rest { IfOk result (λ left. IfSome left (λ y. length y.now < length text.now)) }
    {
        match text {
            [_, _, _, _, _, _, _, _, b' ', rest @ ..] => self.take_words_line(rest),
            _ => self.take_named_line(text),
        }
    }
}

/// What the lines of a text give, up to the first that can't be read, and that line with those after it.
/// The error is out of memory.
pub fn read_draft(alloc: Global, text: &[u8]) -> Result<(Draft, &[u8]), AllocError>
    ensures { IfOk result (λ read. IsReadUpTo (seen read.0) read.1.now text.now) }
{
    let mut draft = Draft::new(alloc);
    let mut rest = text;
    while let Some(left) = draft.take_line(rest)? {
        rest = left;
    }
    Ok((draft, rest))
}
