//! Pieces of lines that are copied at once: those of the lines that come most.

ghost use Rattle.arrayvec.specs.ArrayString.{array_string_len};
ghost use Rattle.risc_listing.specs.Lines.{at_text, count_text, line_end};
ghost use Rattle.std.specs.Prelude.{◌≡◌, ◌+◌, ◌<◌, ◌≤◌, ◌++◌, ◌∷◌, [], codes};
ghost use Rattle.std.specs.Str.{IsUtf8};
ghost use Rattle.turn_trace.specs.Traces.{moved_words, queue_name};

use fifo_model::Queue;
use risc_listing::{Lines, space_and_address};
use std::marker::Model;
use std::str;

// The name of a queue, which is one digit.
#[inline(always)]
fn queue_digit(queue: Queue) -> u8
    ensures name { queue_name queue ≡ result ∷ [] }
    ensures ascii { result < 128 }
{
    match queue {
        Queue::One => b'1',
        Queue::Two => b'2',
        Queue::Three => b'3',
    }
}

/// The words of a push of four pixel bytes.
#[inline(always)]
pub fn pixel_words(queue: Queue, dword: u32) -> [u8; 19]
    ensures words { result ≡ codes "push " ++ (queue_name queue ++ (codes " " ++ (codes "pxv" ++ at_text dword))) }
    ensures text { IsUtf8 result }
{
    let digit = queue_digit(queue);
    let at = space_and_address(dword);
    [
        b'p', b'u', b's', b'h', b' ', digit, b' ', b'p', b'x', b'v', at[0], at[1], at[2], at[3],
        at[4], at[5], at[6], at[7], at[8],
    ]
}

/// Three numbers of one digit, each behind a space.
#[inline(always)]
pub fn three_digits(one: u16, two: u16, three: u16) -> [u8; 6]
    requires one { one < 10 }
    requires two { two < 10 }
    requires three { three < 10 }
    ensures digits { result ≡ count_text one ++ (count_text two ++ count_text three) }
    ensures text { IsUtf8 result }
{
    [
        b' ',
        b'0' + one as u8,
        b' ',
        b'0' + two as u8,
        b' ',
        b'0' + three as u8,
    ]
}

/// The line of so many turns of which nothing was seen, a number of two digits.
#[inline(always)]
pub fn still_words(still: u8) -> [u8; 9]
    requires low { 10 ≤ still }
    requires high { still < 100 }
    ensures words { result ≡ codes "still" ++ (count_text still ++ line_end) }
    ensures text { IsUtf8 result }
{
    [
        b's',
        b't',
        b'i',
        b'l',
        b'l',
        b' ',
        b'0' + still / 10,
        b'0' + still % 10,
        b'\n',
    ]
}

/// The text of an address, kept with it: most turns are of the instruction of the turn before.
#[derive(Drop)]
pub struct KeptAddress {
    address: u32,
    words: [u8; 9],
}

impl Model for KeptAddress {
    ghost use Rattle.risc_listing.specs.Lines.{at_text};
    ghost use Rattle.std.specs.Prelude.{◌≡◌, ℕ};
    ghost use Rattle.std.specs.Str.{IsUtf8};

    ghost Value = { ℕ };

    ghost view = { λ k. k.address };

    ghost invariant = { λ k. (k.words ≡ at_text k.address) × IsUtf8 k.words };
}

impl KeptAddress {
    /// The text of an address.
    pub fn new(address: u32) -> KeptAddress
        ensures { result ≡ address }
    {
        KeptAddress {
            address,
            words: space_and_address(address),
        }
    }

    /// Keeps that of an address.
    #[inline(always)]
    pub fn keep(&mut self, address: u32)
        ensures { self.new ≡ address }
    {
        if self.address != address {
            *self = KeptAddress::new(address);
        }
    }

    /// The text that is kept.
    #[inline(always)]
    pub fn text(&self) -> [u8; 9]
        ensures digits { result ≡ at_text self.now }
        ensures text { IsUtf8 result }
    {
        self.words
    }

    /// Appends it.
    #[inline(always)]
    pub fn append(&self, text: &mut Lines)
        requires { array_string_len text.old + 9 ≤ 65536 }
        ensures bytes { text.new.bytes ≡ text.old.bytes ++ at_text self.now }
        ensures long { array_string_len text.new ≤ array_string_len text.old + 9 }
    {
        text.push_str(unsafe { str::from_utf8_unchecked(&self.words) });
    }
}

/// The words of a burst that takes fewer than ten bytes of a queue, behind the count of turns.
#[inline(always)]
pub fn burst_words(kept: &KeptAddress, queue: Queue, taken: u8) -> [u8; 18]
    requires { taken < 10 }
    ensures words { result ≡ at_text kept.now ++ (codes " " ++ moved_words queue taken) }
    ensures text { IsUtf8 result }
{
    let at = kept.text();
    let digit = queue_digit(queue);
    [
        at[0],
        at[1],
        at[2],
        at[3],
        at[4],
        at[5],
        at[6],
        at[7],
        at[8],
        b' ',
        b'm',
        b'o',
        b'v',
        b'e',
        b' ',
        digit,
        b' ',
        b'0' + taken,
    ]
}
