//! The lines of instructions and of words.

ghost use Rattle.arrayvec.specs.ArrayString.{array_string_len};
ghost use Rattle.risc_word.specs.declared.Instr.TheVariants.{Jump, Skip, Skip123, Sync, Write, Write123, Write1S23, WriteC};
ghost use Rattle.risc_listing.specs.Lines.{address_text, addresses_text, at_text, code_name, control_text, count_text, counts_text};
ghost use Rattle.risc_listing.specs.Lines.{data_text, flag_text, instr_line, instr_text, last_four, nibble_text, word_line};
ghost use Rattle.std.specs.Fmt.{digits};
ghost use Rattle.std.specs.Prelude.{◌≡◌, ◌+◌, ◌<◌, ◌≤◌, ◌++◌, codes, false, length, Some};

use crate::Lines;
use crate::digits::{
    address_and_space, eight_places, five_places, four_places, last_four, one_digit, one_place,
    seven_places, six_places, space_and_address, three_places, two_digits, two_places,
};
use arrayvec::ArrayString;
use risc_word::{Code, Ctl, Ends, Instr};
use std::fmt::Display;
use std::{fmt, str};

/// No line of an instruction or of a word has more bytes.
pub const LONGEST_LINE: usize = 98;

// A word that is there only where its bit is set.
#[inline(always)]
fn push_flag<const CAP: usize>(text: &mut ArrayString<CAP>, name: &str, is_set: bool)
    requires { array_string_len text.old + length name.now ≤ CAP }
    ensures bytes { text.new.bytes ≡ text.old.bytes ++ flag_text name.now is_set }
    ensures long { array_string_len text.new ≤ array_string_len text.old + length name.now }
{
    if is_set {
        text.push_str(name);
    }
}

// A word in two pieces. A piece of at most four bytes is copied as one number.
#[inline(always)]
fn push_pieces<const CAP: usize>(text: &mut ArrayString<CAP>, first: &str, second: &str)
    requires { array_string_len text.old + length first.now + length second.now ≤ CAP }
    ensures bytes { text.new.bytes ≡ text.old.bytes ++ (first.now ++ second.now) }
    ensures long { array_string_len text.new ≤ array_string_len text.old + length first.now + length second.now }
{
    text.push_str(first);
    text.push_str(second);
}

/// Appends the hexadecimal digit of a number below 16.
#[inline(always)]
pub fn push_digit<const CAP: usize>(text: &mut ArrayString<CAP>, value: u8)
    requires small { value < 16 }
    requires room { array_string_len text.old + 1 ≤ CAP }
    ensures bytes { text.new.bytes ≡ text.old.bytes ++ digits 16 false value }
    ensures long { array_string_len text.new ≤ array_string_len text.old + 1 }
{
    let digits = one_digit(value);
    text.push_str(unsafe { str::from_utf8_unchecked(&digits) });
}

// A field of four bits that is there only where it isn't 0.
#[inline(always)]
fn push_nibble<const CAP: usize>(text: &mut ArrayString<CAP>, name: &str, mark: &str, value: u8)
    requires { array_string_len text.old + length name.now + length mark.now + 2 ≤ CAP }
    ensures bytes { text.new.bytes ≡ text.old.bytes ++ nibble_text (name.now ++ mark.now) value }
    ensures long { array_string_len text.new ≤ array_string_len text.old + length name.now + length mark.now + 2 }
{
    if value == 0 {
        return;
    }
    push_pieces(text, name, mark);
    if value < 16 {
        push_digit(text, value);
    } else {
        let digits = two_digits(value);
        text.push_str(unsafe { str::from_utf8_unchecked(&digits) });
    }
}

#[inline(always)]
fn push_control<const CAP: usize>(text: &mut ArrayString<CAP>, ctl: Ctl)
    requires { array_string_len text.old + 20 ≤ CAP }
    ensures bytes { text.new.bytes ≡ text.old.bytes ++ control_text ctl }
    ensures long { array_string_len text.new ≤ array_string_len text.old + 20 }
{
    push_flag(text, " irq", ctl.irq);
    push_nibble(text, " set", "=", ctl.set);
    push_nibble(text, " res", "et=", ctl.reset);
}

#[inline(always)]
fn push_data<const CAP: usize>(text: &mut ArrayString<CAP>, ctl: Ctl, ends: Ends, off: u8)
    requires { array_string_len text.old + 35 ≤ CAP }
    ensures bytes { text.new.bytes ≡ text.old.bytes ++ data_text ctl ends off }
    ensures long { array_string_len text.new ≤ array_string_len text.old + 35 }
{
    push_flag(text, " sol", ends.sol);
    push_flag(text, " eol", ends.eol);
    push_control(text, ctl);
    push_nibble(text, " off", "=", off);
}

/// Appends a space and a number in decimal digits.
#[inline(always)]
pub fn push_count<const CAP: usize>(text: &mut ArrayString<CAP>, n: u16)
    requires { array_string_len text.old + 6 ≤ CAP }
    ensures bytes { text.new.bytes ≡ text.old.bytes ++ count_text n }
    ensures long { array_string_len text.new ≤ array_string_len text.old + 6 }
{
    let n = u32::from(n);
    if n < 10 {
        let places = one_place(n);
        text.push_str(unsafe { str::from_utf8_unchecked(&places) });
    } else if n < 100 {
        let places = two_places(n);
        text.push_str(unsafe { str::from_utf8_unchecked(&places) });
    } else if n < 1000 {
        let places = three_places(n);
        text.push_str(unsafe { str::from_utf8_unchecked(&places) });
    } else if n < 10000 {
        let places = four_places(n);
        text.push_str(unsafe { str::from_utf8_unchecked(&places) });
    } else {
        let places = five_places(n);
        text.push_str(unsafe { str::from_utf8_unchecked(&places) });
    }
}

// The same with a number of five to eight digits.
#[inline(always)]
fn push_long_count(text: &mut Lines, n: u32)
    requires low { 10000 ≤ n }
    requires high { n < 100000000 }
    requires room { array_string_len text.old + 9 ≤ 65536 }
    ensures bytes { text.new.bytes ≡ text.old.bytes ++ count_text n }
    ensures long { array_string_len text.new ≤ array_string_len text.old + 9 }
{
    if n >= 10_000_000 {
        let places = eight_places(n);
        text.push_str(unsafe { str::from_utf8_unchecked(&places) });
    } else if n >= 1_000_000 {
        let places = seven_places(n);
        text.push_str(unsafe { str::from_utf8_unchecked(&places) });
    } else if n >= 100_000 {
        let places = six_places(n);
        text.push_str(unsafe { str::from_utf8_unchecked(&places) });
    } else {
        let places = five_places(n);
        text.push_str(unsafe { str::from_utf8_unchecked(&places) });
    }
}

// Appends the last four decimal digits of a number.
#[inline(always)]
fn push_last_four(text: &mut Lines, n: u32)
    requires small { n < 10000 }
    requires room { array_string_len text.old + 4 ≤ 65536 }
    ensures { text.new.bytes ≡ text.old.bytes ++ last_four n }
{
    let digits = last_four(n);
    text.push_str(unsafe { str::from_utf8_unchecked(&digits) });
}

// Appends a space and a number of any length.
#[inline(never)]
fn push_long_number(text: &mut Lines, n: u64)
    requires { array_string_len text.old + 21 ≤ 65536 }
    ensures bytes { text.new.bytes ≡ text.old.bytes ++ count_text n }
    ensures long { array_string_len text.new ≤ array_string_len text.old + 21 }
{
    if n < 10_000 {
        push_count(text, n as u16);
    } else {
        push_long_number(text, n / 10_000);
        push_last_four(text, (n % 10_000) as u32);
    }
}

/// Appends a space and a number, which may have up to twenty decimal digits.
#[inline(always)]
pub fn push_number(text: &mut Lines, n: u64)
    requires { array_string_len text.old + 21 ≤ 65536 }
    ensures bytes { text.new.bytes ≡ text.old.bytes ++ count_text n }
    ensures long { array_string_len text.new ≤ array_string_len text.old + 21 }
{
    if n < 10_000 {
        push_count(text, n as u16);
    } else if n < 100_000_000 {
        push_long_count(text, n as u32);
    } else {
        push_long_number(text, n);
    }
}

#[inline(always)]
fn push_counts<const CAP: usize>(text: &mut ArrayString<CAP>, counts: &[u16; 3])
    requires { array_string_len text.old + 18 ≤ CAP }
    ensures bytes { text.new.bytes ≡ text.old.bytes ++ counts_text counts.now }
    ensures long { array_string_len text.new ≤ array_string_len text.old + 18 }
{
    push_count(text, counts[0]);
    push_count(text, counts[1]);
    push_count(text, counts[2]);
}

/// Appends a space and an address, or another word, in eight hexadecimal digits.
#[inline(always)]
pub fn push_at<const CAP: usize>(text: &mut ArrayString<CAP>, address: u32)
    requires { array_string_len text.old + 9 ≤ CAP }
    ensures bytes { text.new.bytes ≡ text.old.bytes ++ at_text address }
    ensures long { array_string_len text.new ≤ array_string_len text.old + 9 }
{
    let digits = space_and_address(address);
    text.push_str(unsafe { str::from_utf8_unchecked(&digits) });
}

#[inline(always)]
fn push_addresses<const CAP: usize>(text: &mut ArrayString<CAP>, addrs: &[u32; 3])
    requires { array_string_len text.old + 27 ≤ CAP }
    ensures bytes { text.new.bytes ≡ text.old.bytes ++ addresses_text addrs.now }
    ensures long { array_string_len text.new ≤ array_string_len text.old + 27 }
{
    push_at(text, addrs[0]);
    push_at(text, addrs[1]);
    push_at(text, addrs[2]);
}

// The name of an instruction with three counts, its fields and its counts.
#[inline(always)]
fn push_planar<const CAP: usize>(
    text: &mut ArrayString<CAP>,
    name: &str,
    planes: &str,
    ctl: Ctl,
    ends: Ends,
    off: u8,
    counts: &[u16; 3],
)
    requires { array_string_len text.old + length name.now + length planes.now + 53 ≤ CAP }
    ensures bytes { text.new.bytes ≡ text.old.bytes ++ ((name.now ++ planes.now) ++ (data_text ctl ends off ++ counts_text counts.now)) }
    ensures long { array_string_len text.new ≤ array_string_len text.old + length name.now + length planes.now + 53 }
{
    push_pieces(text, name, planes);
    push_data(text, ctl, ends, off);
    push_counts(text, counts);
}

// The address that a line begins with, and a space.
#[inline(always)]
pub fn push_head<const CAP: usize>(text: &mut ArrayString<CAP>, at: u32)
    requires { array_string_len text.old + 9 ≤ CAP }
    ensures bytes { text.new.bytes ≡ text.old.bytes ++ (address_text at ++ codes " ") }
    ensures long { array_string_len text.new ≤ array_string_len text.old + 9 }
{
    let digits = address_and_space(at);
    text.push_str(unsafe { str::from_utf8_unchecked(&digits) });
}

/// The name of a control code.
#[inline(always)]
pub fn code_name(code: Code) -> &'static str
    ensures { result.now ≡ code_name code }
{
    match code {
        Code::Vre => "vre",
        Code::Vro => "vro",
        Code::Fm1 => "fm1",
        Code::Fm3 => "fm3",
    }
}

// The text of a SYNC. It and those of the other instructions are inlined where the opcode is known: so each field is tested
// where it is in its word.
#[inline(always)]
pub fn push_sync<const CAP: usize>(text: &mut ArrayString<CAP>, ctl: Ctl, resync: bool, code: Code)
    requires { array_string_len text.old + 88 ≤ CAP }
    ensures bytes { text.new.bytes ≡ text.old.bytes ++ instr_text (Sync ctl resync code) }
    ensures long { array_string_len text.new ≤ array_string_len text.old + 88 }
{
    push_pieces(text, "sync", " ");
    text.push_str(code_name(code));
    if resync {
        push_pieces(text, " res", "ync");
    }
    push_control(text, ctl);
}

// The text of a WRITE.
#[inline(always)]
pub fn push_write<const CAP: usize>(
    text: &mut ArrayString<CAP>,
    ctl: Ctl,
    ends: Ends,
    off: u8,
    count: u16,
    addr: u32,
)
    requires { array_string_len text.old + 88 ≤ CAP }
    ensures bytes { text.new.bytes ≡ text.old.bytes ++ instr_text (Write ctl ends off count addr) }
    ensures long { array_string_len text.new ≤ array_string_len text.old + 88 }
{
    push_pieces(text, "writ", "e");
    push_data(text, ctl, ends, off);
    push_count(text, count);
    push_at(text, addr);
}

// The text of a SKIP.
#[inline(always)]
pub fn push_skip<const CAP: usize>(text: &mut ArrayString<CAP>, ctl: Ctl, ends: Ends, count: u16)
    requires { array_string_len text.old + 88 ≤ CAP }
    ensures bytes { text.new.bytes ≡ text.old.bytes ++ instr_text (Skip ctl ends count) }
    ensures long { array_string_len text.new ≤ array_string_len text.old + 88 }
{
    text.push_str("skip");
    push_data(text, ctl, ends, 0);
    push_count(text, count);
}

// The text of a WRITEC.
#[inline(always)]
pub fn push_write_c<const CAP: usize>(
    text: &mut ArrayString<CAP>,
    ctl: Ctl,
    ends: Ends,
    off: u8,
    count: u16,
)
    requires { array_string_len text.old + 88 ≤ CAP }
    ensures bytes { text.new.bytes ≡ text.old.bytes ++ instr_text (WriteC ctl ends off count) }
    ensures long { array_string_len text.new ≤ array_string_len text.old + 88 }
{
    push_pieces(text, "writ", "ec");
    push_data(text, ctl, ends, off);
    push_count(text, count);
}

// The text of a JUMP.
#[inline(never)]
fn push_jump<const CAP: usize>(text: &mut ArrayString<CAP>, ctl: Ctl, target: u32)
    requires { array_string_len text.old + 88 ≤ CAP }
    ensures bytes { text.new.bytes ≡ text.old.bytes ++ instr_text (Jump ctl target) }
    ensures long { array_string_len text.new ≤ array_string_len text.old + 88 }
{
    text.push_str("jump");
    push_control(text, ctl);
    push_at(text, target);
}

// The text of a WRITE123.
#[inline(always)]
pub fn push_write_123<const CAP: usize>(
    text: &mut ArrayString<CAP>,
    ctl: Ctl,
    ends: Ends,
    off: u8,
    counts: &[u16; 3],
    addrs: &[u32; 3],
)
    requires { array_string_len text.old + 88 ≤ CAP }
    ensures bytes { text.new.bytes ≡ text.old.bytes ++ instr_text (Write123 ctl ends off counts.now addrs.now) }
    ensures long { array_string_len text.new ≤ array_string_len text.old + 88 }
{
    push_planar(text, "writ", "e123", ctl, ends, off, counts);
    push_addresses(text, addrs);
}

// The text of a SKIP123.
#[inline(always)]
pub fn push_skip_123<const CAP: usize>(
    text: &mut ArrayString<CAP>,
    ctl: Ctl,
    ends: Ends,
    counts: &[u16; 3],
)
    requires { array_string_len text.old + 88 ≤ CAP }
    ensures bytes { text.new.bytes ≡ text.old.bytes ++ instr_text (Skip123 ctl ends counts.now) }
    ensures long { array_string_len text.new ≤ array_string_len text.old + 88 }
{
    push_planar(text, "skip", "123", ctl, ends, 0, counts);
}

// The text of a WRITE1S23.
#[inline(always)]
pub fn push_write_1_s_23<const CAP: usize>(
    text: &mut ArrayString<CAP>,
    ctl: Ctl,
    ends: Ends,
    off: u8,
    counts: &[u16; 3],
    addr: u32,
)
    requires { array_string_len text.old + 88 ≤ CAP }
    ensures bytes { text.new.bytes ≡ text.old.bytes ++ instr_text (Write1S23 ctl ends off counts.now addr) }
    ensures long { array_string_len text.new ≤ array_string_len text.old + 88 }
{
    push_planar(text, "write1s2", "3", ctl, ends, off, counts);
    push_at(text, addr);
}

// An instruction in words: its name, its fields, its counts and its addresses.
#[inline(always)]
fn push_instr<const CAP: usize>(text: &mut ArrayString<CAP>, instr: &Instr)
    requires { array_string_len text.old + 88 ≤ CAP }
    ensures bytes { text.new.bytes ≡ text.old.bytes ++ instr_text instr.now }
    ensures long { array_string_len text.new ≤ array_string_len text.old + 88 }
{
    match instr {
        Instr::Write {
            ctl,
            ends,
            off,
            count,
            addr,
        } => push_write(text, *ctl, *ends, *off, *count, *addr),
        Instr::Skip { ctl, ends, count } => push_skip(text, *ctl, *ends, *count),
        Instr::WriteC {
            ctl,
            ends,
            off,
            count,
        } => push_write_c(text, *ctl, *ends, *off, *count),
        Instr::Jump { ctl, target } => push_jump(text, *ctl, *target),
        Instr::Sync { ctl, resync, code } => push_sync(text, *ctl, *resync, *code),
        Instr::Write123 {
            ctl,
            ends,
            off,
            counts,
            addrs,
        } => push_write_123(text, *ctl, *ends, *off, counts, addrs),
        Instr::Skip123 { ctl, ends, counts } => push_skip_123(text, *ctl, *ends, counts),
        Instr::Write1S23 {
            ctl,
            ends,
            off,
            counts,
            addr,
        } => push_write_1_s_23(text, *ctl, *ends, *off, counts, *addr),
    }
}

/// Appends the line of an instruction at an address.
#[inline(always)]
pub fn push_instr_line<const CAP: usize>(text: &mut ArrayString<CAP>, at: u32, instr: &Instr)
    requires { array_string_len text.old + 98 ≤ CAP }
    ensures bytes { text.new.bytes ≡ text.old.bytes ++ instr_line at instr.now }
    ensures long { array_string_len text.new ≤ array_string_len text.old + 98 }
{
    push_head(text, at);
    push_instr(text, instr);
    text.push_str("\n");
}

/// Appends the line of a word at an address. The word begins no instruction.
#[inline(always)]
pub fn push_word_line<const CAP: usize>(text: &mut ArrayString<CAP>, at: u32, word: u32)
    requires { array_string_len text.old + 98 ≤ CAP }
    ensures bytes { text.new.bytes ≡ text.old.bytes ++ word_line at word }
    ensures long { array_string_len text.new ≤ array_string_len text.old + 98 }
{
    push_head(text, at);
    text.push_str("word");
    push_at(text, word);
    text.push_str("\n");
}

/// The line of an instruction at an address, for messages of callers of the library.
#[derive(Drop)]
pub struct InstrLine<'a> {
    /// The address of its first word.
    pub at: u32,
    /// The instruction.
    pub instr: &'a Instr,
}

impl<'a> Display for InstrLine<'a> {
    ghost output = { λ line. Some (instr_line line.at line.instr.now) };

    fn fmt<W: fmt::Write>(&self, f: &mut fmt::Formatter<W>) -> fmt::Result {
        let mut text = ArrayString::<LONGEST_LINE>::new();
        push_instr_line(&mut text, self.at, self.instr);
        f.write_str(text.as_str())
    }
}
