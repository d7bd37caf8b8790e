//! Spans of words on the bus.

ghost use Rattle.machine_model.specs.Paths.{AreApart, RiscProgram, begins_at, Span, max_words, span, spans_of, words_of};
ghost use Rattle.risc_verify.specs.Programs.{number_from};
ghost use Rattle.risc_verify.specs.declared.spans.SpanPlace.{SpanPlace};
ghost use Rattle.risc_verify.specs.Places.{IsNear, stands_from, has_address, number_in, place, place_end, with_word};
ghost use Rattle.std.specs.List.{prefix_len, slice_get};
ghost use Rattle.std.specs.Option.{option_to_list};
ghost use Rattle.std.specs.List.Sorted.{IsNonDecreasingBy};
ghost use Rattle.std.specs.Result.{is_ok};
ghost use Rattle.std.specs.Prelude.{if◌then◌else◌, ◌≡◌, ℕ, ◌+◌, ◌<◌, ◌≤◌, ◌^◌, [], ◌∷◌, ◌++◌, All, IfErr, IfOk, MatchOption, length};
ghost use Rattle.std.specs.Prelude.{nat_le, None, slice_index_or, drop, take, true};

use std::alloc::{AllocError, Global};
use std::marker::Model;

/// Where a span is: its address, the number of its first word, counted over all spans, and how many words it has.
#[derive(Clone, Copy)]
pub struct SpanPlace {
    at: u32,
    first: usize,
    count: usize,
}

impl SpanPlace {
    /// The place of no span: no word is there.
    pub fn none() -> SpanPlace
        ensures { (program : RiscProgram) → IsNear program result }
    {
        SpanPlace::empty()
    }

    // The same, before the first word.
    pub(crate) fn empty() -> SpanPlace
        ensures near { (program : RiscProgram) → IsNear program result }
        ensures place { result ≡ place 0 0 0 }
    {
        SpanPlace {
            at: 0,
            first: 0,
            count: 0,
        }
    }

    // The number of the word at an address, if it is one of this span.
    #[inline(always)]
    pub(crate) fn number(self, address: u64) -> Option<usize>
        requires { 0 < self.count → self.first + self.count ≤ max_words }
        ensures { result ≡ number_in self address }
    {
        let at = u64::from(self.at);
        if address < at || (address - at) % 4 != 0 {
            return None;
        }
        let number = (address - at) / 4;
        if number < self.count as u64 {
            Some(self.first + number as usize)
        } else {
            None
        }
    }

    // The number of the word behind the last of this span.
    #[inline(always)]
    pub(crate) fn end(self) -> usize
        requires { self.first + self.count ≤ max_words }
        ensures { result ≡ self.first + self.count }
    {
        self.first + self.count
    }

    // Whether the span ends at an address or before it.
    fn ends_by(self, address: u64) -> bool
        ensures { result ≡ nat_le (place_end self) address }
    {
        let at = u64::from(self.at);
        at <= address && self.count as u64 <= (address - at) / 4
    }
}

/// Spans, one after another. Contracts see them as a list; the words of all of them are in a row.
#[derive(Drop)]
pub struct Spans {
    words: Vec<u32>,
    // the places of all spans but the last
    before: Vec<SpanPlace>,
    last: Option<SpanPlace>,
}

impl Model for Spans {
    ghost use Rattle.machine_model.specs.Paths.{Span};
    ghost use Rattle.risc_verify.specs.Places.{AreCut, spans_at};
    ghost use Rattle.std.specs.Option.{option_to_list};
    ghost use Rattle.std.specs.Prelude.{◌≡◌, List, [], ◌++◌, None, length};

    ghost Value = { List Span };

    ghost view = { λ s. spans_at s.words.items (s.before.items ++ option_to_list s.last) };

    ghost invariant = { λ s. AreCut 0 (s.before.items ++ option_to_list s.last) (length s.words.items)
        × (s.last ≡ None → s.before.items ≡ []) };
}

// How many spans end at an address or before it.
fn ended(places: &[SpanPlace], address: u64) -> usize
    requires { IsNonDecreasingBy place_end places.now }
    ensures { result ≡ prefix_len (λ p. nat_le (place_end p) address) places.now }
{
    places.partition_point(|place| place.ends_by(address))
}

// Puts the last place behind the others, if there is one.
fn close(before: &mut Vec<SpanPlace>, last: Option<SpanPlace>) -> Result<(), AllocError>
    ensures { before.new.items ≡ (if is_ok result then before.old.items ++ option_to_list last else before.old.items) }
{
    if let Some(place) = last {
        before.push(place)?;
    }
    Ok(())
}

// The place of a number, the last behind all others.
fn place_of(before: &[SpanPlace], last: Option<SpanPlace>, number: usize) -> SpanPlace
    requires { number < length (before.now ++ option_to_list last) }
    ensures { (d : SpanPlace) → result ≡ slice_index_or (before.now ++ option_to_list last) number d }
{
    match last {
        Some(place) if number == before.len() => place,
        _ => before[number],
    }
}

// The words, each of which has 32 bits.
#[inline]
fn whole(words: &[u32]) -> &[u32]
    ensures value { result.now ≡ words.now }
    ensures fit { All (λ word. word < 2 ^ 32) words.now }
{
    words
}

// The words of the span at a place.
fn part(words: &[u32], place: SpanPlace) -> &[u32]
    requires { place.first + place.count ≤ length words.now }
    ensures { result.now ≡ take place.count (drop place.first words.now) }
{
    &words[place.first..place.first + place.count]
}

// The first place, but for the last, that ends behind an address; or else the last.
fn first_behind(before: &[SpanPlace], last: Option<SpanPlace>, address: u64) -> Option<SpanPlace>
    requires { IsNonDecreasingBy place_end before.now }
    ensures { result ≡ slice_get (before.now ++ option_to_list last) (prefix_len (λ p. nat_le (place_end p) address) before.now) }
{
    match before.get(ended(before, address)) {
        Some(place) => Some(*place),
        None => last,
    }
}

impl Spans {
    /// No spans. Takes no memory.
    pub fn new(alloc: Global) -> Spans
        ensures { result ≡ [] }
    {
        Spans {
            words: Vec::new(alloc),
            before: Vec::new(alloc),
            last: None,
        }
    }

    /// The one span of these words, or none where there are no words. Takes no memory.
    pub fn one(at: u32, words: Vec<u32>) -> Spans
        ensures value { result ≡ spans_of at words.items }
        ensures fit { All (λ word. word < 2 ^ 32) words.items }
    {
        let count = whole(&words).len();
        let place = SpanPlace {
            at,
            first: 0,
            count,
        };
        Spans {
            before: Vec::new(*words.allocator()),
            last: if count == 0 { None } else { Some(place) },
            words,
        }
    }

    /// Begins a span at an address, which has no words yet.
    pub fn begin(&mut self, at: u32) -> Result<(), AllocError>
        ensures begun { IfOk result (λ _. self.new ≡ self.old ++ span at [] ∷ []) }
        ensures failed { IfErr result (λ _. self.new ≡ self.old) }
    {
        close(&mut self.before, self.last)?;
        self.last = Some(SpanPlace {
            at,
            first: self.words.len(),
            count: 0,
        });
        Ok(())
    }

    /// Appends a word to the last span.
    pub fn push(&mut self, word: u32) -> Result<(), AllocError>
        requires { 0 < length self.old }
        ensures pushed { IfOk result (λ _. self.new ≡ with_word self.old word) }
        ensures failed { IfErr result (λ _. self.new ≡ self.old) }
    {
        let Some(last) = self.last else {
            return Ok(());
        };
        self.words.push(word)?;
        self.last = Some(SpanPlace {
            at: last.at,
            first: last.first,
            count: last.count + 1,
        });
        Ok(())
    }

    /// How many spans there are.
    pub fn len(&self) -> usize
        ensures { result ≡ length self.now }
    {
        match self.last {
            Some(_) => self.before.len() + 1,
            None => self.before.len(),
        }
    }

    /// The address of a span.
    pub fn at(&self, number: usize) -> u32
        requires { number < length self.now }
        ensures { (d : Span) → result ≡ (slice_index_or self.now number d).at }
    {
        place_of(&self.before, self.last, number).at
    }

    /// The words of a span.
    pub fn words_of(&self, number: usize) -> &[u32]
        requires { number < length self.now }
        ensures { (d : Span) → result.now ≡ (slice_index_or self.now number d).words }
    {
        part(&self.words, place_of(&self.before, self.last, number))
    }

    /// Whether there is no span, or one alone, which begins at an address. A program that begins its path there is named by
    /// this address and its words; any other span by span.
    pub fn begins_at(&self, entry: u32) -> bool
        ensures { result ≡ begins_at entry self.now }
    {
        match self.len() {
            0 => true,
            1 => self.at(0) == entry,
            _ => false,
        }
    }

    // The place of the last span, if there is one.
    #[inline]
    pub(crate) fn last_place(&self) -> SpanPlace
        ensures { (program : RiscProgram) → program.spans ≡ self.now → IsNear program result }
    {
        match self.last {
            Some(place) => place,
            None => SpanPlace::none(),
        }
    }

    // The place of the span that has an address.
    pub(crate) fn search(&self, address: u64) -> Option<SpanPlace>
        requires apart { AreApart 0 self.now }
        requires few { length (words_of self.now) ≤ max_words }
        ensures { MatchOption result (number_from 0 self.now address ≡ None)
            (λ p. (stands_from 0 self.now p ≡ true) × (has_address p address ≡ true)) }
    {
        let place = first_behind(&self.before, self.last, address)?;
        if place.number(address).is_some() {
            Some(place)
        } else {
            None
        }
    }

    /// The words of all spans, in order.
    #[inline]
    pub fn words(&self) -> &[u32]
        ensures value { result.now ≡ words_of self.now }
        ensures fit { All (λ s. All (λ word. word < 2 ^ 32) s.words) self.now }
    {
        whole(&self.words)
    }
}
