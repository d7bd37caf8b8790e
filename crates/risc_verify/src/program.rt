//! A program in memory, and one that was accepted.

ghost use Rattle.machine_model.specs.Paths.{AreApart, BeginsAtWord, IsProgram, IsSound, all_words, begins_at_base, fetch, is_word};
ghost use Rattle.machine_model.specs.Paths.{max_spans, max_words, one_span, shares_byte, words_of};
ghost use Rattle.risc_verify.specs.Places.{IsAt, IsNear, number_in};
ghost use Rattle.risc_verify.specs.Programs.{word_of};
ghost use Rattle.risc_word.specs.Words.{IsInstr, instr_at};
ghost use Rattle.std.specs.List.{All};
ghost use Rattle.std.specs.Option.{is_some};
ghost use Rattle.std.specs.Prelude.{◌≡◌, ◌+◌, ◌*◌, ◌%◌, ◌^◌, ◌<◌, ◌≤◌, false, length, IfOk, IfSome, Some, true};

use super::{SpanPlace, Spans};
use page_table::PageSet;
use risc_word::{Instr, WordFault, decode};
use std::marker::Model;

/// A program: where its path begins, its spans of words, and the memory that it may write.
#[derive(Drop)]
pub struct Program {
    base: u32,
    spans: Spans,
    grants: PageSet,
}

impl Model for Program {
    ghost use Rattle.machine_model.specs.Paths.{RiscProgram, IsProgram};

    ghost Value = { RiscProgram };

    ghost view = { λ p. record { base = p.base; spans = p.spans; grants = p.grants } };

    ghost invariant = { λ p. IsProgram (record { base = p.base; spans = p.spans; grants = p.grants }) };
}

impl Program {
    /// The program of `words` from the address `base` on, which may write the memory of `grants`.
    pub fn new(base: u32, words: Vec<u32>, grants: PageSet) -> Program
        requires aligned { base % 4 ≡ 0 }
        requires few { length words.items ≤ max_words }
        requires ends { base + 4 * length words.items ≤ 2 ^ 32 }
        requires apart { All (λ c. shares_byte (one_span base words.items grants) c ≡ false) grants }
        ensures { result ≡ one_span base words.items grants }
    {
        // the call brings in what each set of grants keeps
        let _chunks = grants.len();
        Program {
            base,
            spans: Spans::one(base, words),
            grants,
        }
    }

    /// The program of spans, whose path begins at the address `entry`, and which may write the memory of `grants`.
    pub fn of_spans(entry: u32, spans: Spans, grants: PageSet) -> Program
        requires aligned { entry % 4 ≡ 0 }
        requires begins { BeginsAtWord entry spans }
        requires spans { AreApart 0 spans }
        requires many { length spans ≤ max_spans }
        requires few { length (words_of spans) ≤ max_words }
        requires apart { All (λ c. shares_byte (record { base = entry; spans = spans; grants = grants }) c ≡ false) grants }
        ensures { result ≡ record { base = entry; spans = spans; grants = grants } }
    {
        // the call brings in what each set of grants keeps
        let _chunks = grants.len();
        Program {
            base: entry,
            spans,
            grants,
        }
    }

    /// The address where the path begins.
    #[inline]
    pub fn base(&self) -> u32
        ensures value { result ≡ self.now.base }
        ensures made { IsProgram self.now }
    {
        self.base
    }

    /// The words of all spans, in order.
    #[inline]
    pub fn words(&self) -> &[u32]
        ensures value { result.now ≡ all_words self.now }
        ensures made { IsProgram self.now }
    {
        self.spans.words()
    }

    /// The spans.
    pub fn spans(&self) -> &Spans
        ensures value { result.now ≡ self.now.spans }
        ensures made { IsProgram self.now }
    {
        &self.spans
    }

    /// Whether all words are one after another from the base on.
    pub fn begins_at_base(&self) -> bool
        ensures { result ≡ begins_at_base self.now }
    {
        self.spans.begins_at(self.base)
    }

    /// The memory that the program may write.
    pub fn grants(&self) -> &PageSet
        ensures value { result.now ≡ self.now.grants }
        ensures made { IsProgram self.now }
    {
        &self.grants
    }

    // The number of the word at an address, if the span at the place `near` has it.
    #[inline(always)]
    fn word_in(&self, near: SpanPlace, address: u64) -> Option<usize>
        requires { IsNear self.now near }
        ensures value { result ≡ number_in near address }
        ensures known { IfSome result (λ word. (word_of self.now address ≡ Some word) × (is_word self.now address ≡ true)
            × (address < 2 ^ 32) × (word < length (all_words self.now))) }
    {
        // the call brings in what each program keeps
        let _base = self.base();
        near.number(address)
    }

    // The number of the word at an address, counted over all spans. Where there is one, `near` is the place of its
    // span after it. A path seldom goes from span to span.
    #[cold]
    #[inline(never)]
    fn word_elsewhere(&self, near: &mut SpanPlace, address: u64) -> Option<usize>
        requires { IsNear self.now near.old }
        ensures value { result ≡ word_of self.now address }
        ensures there { is_word self.now address ≡ is_some result }
        ensures inside { IfSome result
            (λ word. (address < 2 ^ 32) × (word < length (all_words self.now)) × (number_in near.new address ≡ Some word)) }
        ensures near { IsNear self.now near.new }
    {
        *near = self.spans.search(address)?;
        self.word_in(*near, address)
    }

    /// The number of the word at an address, counted over all spans. The span at the place `near` is
    /// looked at first; after it `near` is the place of the span where the word was found.
    #[inline]
    pub fn word_near(&self, near: &mut SpanPlace, address: u64) -> Option<usize>
        requires { IsNear self.now near.old }
        ensures value { result ≡ word_of self.now address }
        ensures there { is_word self.now address ≡ is_some result }
        ensures inside { IfSome result
            (λ word. (address < 2 ^ 32) × (word < length (all_words self.now)) × (number_in near.new address ≡ Some word)) }
        ensures near { IsNear self.now near.new }
    {
        if let Some(word) = self.word_in(*near, address) {
            return Some(word);
        }
        self.word_elsewhere(near, address)
    }

    /// The number of the word at an address, counted over all spans.
    #[inline]
    pub fn word_at(&self, address: u64) -> Option<usize>
        ensures value { result ≡ word_of self.now address }
        ensures there { is_word self.now address ≡ is_some result }
        ensures inside { IfSome result (λ word. (address < 2 ^ 32) × (word < length (all_words self.now))) }
    {
        let mut near = self.spans.last_place();
        self.word_near(&mut near, address)
    }

    // The words as far as the span at the place `near` goes, of which one is that of an address: the instruction there
    // is read from them.
    #[inline(always)]
    pub(crate) fn words_near(&self, near: SpanPlace, address: u64, word: usize) -> &[u32]
        requires near { IsNear self.now near }
        requires there { number_in near address ≡ Some word }
        ensures value { instr_at result.now word ≡ fetch self.now address }
        ensures inside { address < 2 ^ 32 }
        ensures at { IsAt self.now near result.now word address }
    {
        // the call brings in what each program keeps
        let _base = self.base();
        &self.words()[..near.end()]
    }

    // The instruction at an address, whose word is one of these, and its length in words.
    #[inline(always)]
    pub(crate) fn instr_on(
        &self,
        near: SpanPlace,
        words: &[u32],
        word: usize,
        address: u64,
    ) -> Result<(Instr, u8), WordFault>
        requires at { IsAt self.now near words.now word address }
        requires inside { word < length words.now }
        ensures value { result ≡ fetch self.now address }
        ensures low { address < 2 ^ 32 }
        ensures within { IfOk result (λ read. word + read.1 ≤ length words.now) }
        ensures behind { IfOk result (λ read. IsAt self.now near words.now (word + read.1) (address + 4 * read.1)) }
    {
        // the call brings in what each program keeps
        let _base = self.base();
        decode(words, word)
    }

    /// The instruction at an address and its length in words. The span at the place `near` is looked at first; after it
    /// `near` is the place of the span where the instruction was found.
    #[inline]
    pub fn instr_near(&self, near: &mut SpanPlace, address: u64) -> Result<(Instr, u8), WordFault>
        requires { IsNear self.now near.old }
        ensures value { result ≡ fetch self.now address }
        ensures instr { IfOk result (λ read. IsInstr read.0) }
        ensures inside { IfOk result (λ _. address < 2 ^ 32) }
        ensures near { IsNear self.now near.new }
    {
        match self.word_near(near, address) {
            Some(number) => decode(self.words_near(*near, address, number), number),
            None => Err(WordFault::Cut),
        }
    }

    /// The instruction at an address and its length in words.
    pub fn instr_at(&self, address: u64) -> Result<(Instr, u8), WordFault>
        ensures value { result ≡ fetch self.now address }
        ensures instr { IfOk result (λ read. IsInstr read.0) }
        ensures inside { IfOk result (λ _. address < 2 ^ 32) }
    {
        let mut near = self.spans.last_place();
        self.instr_near(&mut near, address)
    }
}

/// A program that is sound: no place of its path has a fault.
#[derive(Drop)]
pub struct Accepted {
    program: Program,
}

impl Model for Accepted {
    ghost use Rattle.machine_model.specs.Paths.{RiscProgram, IsSound};

    ghost Value = { RiscProgram };

    ghost view = { λ accepted. accepted.program };

    ghost invariant = { λ accepted. IsSound accepted.program };
}

impl Accepted {
    // A sound program.
    pub(crate) fn new(program: Program) -> Accepted
        requires { IsSound program }
        ensures { result ≡ program }
    {
        Accepted { program }
    }

    /// The program.
    pub fn program(&self) -> &Program
        ensures value { result.now ≡ self.now }
        ensures sound { IsSound self.now }
    {
        &self.program
    }
}
