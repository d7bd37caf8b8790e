//! What is read from the front of a line. A reader asks only for what distinguishes lines: whether a text is
//! a listing shows when what was read is listed again.

ghost use Rattle.risc_asm.specs.Fields.{control_and_off};
ghost use Rattle.risc_text.specs.Readers.{Reads, address, after, base_line, chunk_line, code, control, count, data_fields, decimal_digit};
ghost use Rattle.risc_text.specs.Readers.{decimal_digits, digit, fields_of, fill_line, flag, hex_digit};
ghost use Rattle.risc_text.specs.Readers.{hex_digits, jump_fields, name_at, nibble, page_line, skip_123_fields, skip_fields, sync_fields};
ghost use Rattle.risc_text.specs.Readers.{three_addresses, three_counts, skip_name, write_name};
ghost use Rattle.risc_text.specs.Readers.{word_field, words_line, write_123_fields, write_1_s_23_fields, write_c_fields, write_fields};
ghost use Rattle.risc_word.specs.Words.{control_fits, counts_fit, fits};
ghost use Rattle.std.specs.Prelude.{◌≡◌, ◌+◌, ◌*◌, ◌≤◌, ◌<◌, ◌^◌, IfSome, IsTrue, codes, length};

use risc_text::Name;
use risc_word::{Code, Ctl, Ends, Instr, NO_CONTROL, NO_ENDS};

// The text after these bytes, where it begins with them. They are names of a few bytes, which are so compared in place, with no call.
#[inline(always)]
pub fn after<'a>(text: &'a [u8], name: &[u8]) -> Option<&'a [u8]>
    ensures value { Reads (λ x. x.now) result (after name.now text.now) }
    ensures rest { IfSome result (λ x. length x.now + length name.now ≡ length text.now) }
{
    if text.len() < name.len() {
        return None;
    }
    let mut at = 0;
    while at < name.len() {
        if text[at] != name[at] {
            return None;
        }
        at += 1;
    }
    Some(&text[name.len()..])
}

// The text after the end of a line, where one is here.
#[inline(always)]
pub fn next_line(text: &[u8]) -> Option<&[u8]>
    ensures value { Reads (λ x. x.now) result (after (codes "\n") text.now) }
    ensures rest { IfSome result (λ x. length x.now < length text.now) }
{
    after(text, b"\n")
}

// The number of each byte as a hexadecimal digit in lower case: of `0` to `9` and of `a` to `f` its own.
const DIGITS: [u8; 256] = [
    0, 1, 2, 3, 4, 5, 6, 7, 8, 9, 10, 11, 12, 13, 14, 15, 0, 1, 2, 3, 4, 5, 6, 7, 8, 9, 10, 11, 12,
    13, 14, 15, 0, 1, 2, 3, 4, 5, 6, 7, 8, 9, 10, 11, 12, 13, 14, 15, 0, 1, 2, 3, 4, 5, 6, 7, 8, 9,
    10, 11, 12, 13, 14, 15, 9, 10, 11, 12, 13, 14, 15, 0, 1, 2, 3, 4, 5, 6, 7, 8, 9, 10, 11, 12,
    13, 14, 15, 0, 1, 2, 3, 4, 5, 6, 7, 8, 9, 10, 11, 12, 13, 14, 15, 0, 1, 2, 3, 4, 5, 6, 7, 8, 9,
    10, 11, 12, 13, 14, 15, 0, 1, 2, 3, 4, 5, 6, 7, 8, 2, 3, 4, 5, 6, 7, 8, 9, 10, 11, 12, 13, 14,
    15, 0, 1, 2, 3, 4, 5, 6, 7, 8, 9, 10, 11, 12, 13, 14, 15, 0, 1, 2, 3, 4, 5, 6, 7, 8, 9, 10, 11,
    12, 13, 14, 15, 0, 1, 2, 3, 4, 5, 6, 7, 8, 9, 10, 11, 12, 13, 14, 15, 0, 1, 11, 12, 13, 14, 15,
    0, 1, 2, 3, 4, 5, 6, 7, 8, 9, 10, 11, 12, 13, 14, 15, 0, 1, 2, 3, 4, 5, 6, 7, 8, 9, 10, 11, 12,
    13, 14, 15, 0, 1, 2, 3, 4, 5, 6, 7, 8, 9, 10, 11, 12, 13, 14, 15, 0, 1, 2, 3, 4, 5, 6, 7, 8, 9,
    10,
];

// The number of a hexadecimal digit in lower case.
#[inline(always)]
#[tactic(auto, using(crate::proofs::DigitTable::digit_in_table))]
fn digit(byte: u8) -> u32
    ensures value { result ≡ digit byte }
    ensures small { result < 16 }
{
    u32::from(DIGITS[usize::from(byte)])
}

// The number of one digit, of two and of eight.
#[inline(always)]
#[tactic(auto, unfolding(risc_text::specs::Readers::hex_digits))]
fn read_digit(text: &[u8]) -> Option<(u8, &[u8])>
    ensures value { Reads (λ x. (x.0, x.1.now)) result (hex_digits 1 0 text.now) }
    ensures small { IfSome result (λ x. x.0 < 16) }
    ensures rest { IfSome result (λ x. length x.1.now ≤ length text.now) }
{
    match text {
        [byte, rest @ ..] => Some((digit(*byte) as u8, rest)),
        [] => None,
    }
}

#[inline(always)]
#[tactic(auto, unfolding(risc_text::specs::Readers::hex_digits))]
pub fn read_two_digits(text: &[u8]) -> Option<(u8, &[u8])>
    ensures value { Reads (λ x. (x.0, x.1.now)) result (hex_digits 2 0 text.now) }
    ensures rest { IfSome result (λ x. length x.1.now ≤ length text.now) }
{
    match text {
        [first, second, rest @ ..] => Some(((digit(*first) * 16 + digit(*second)) as u8, rest)),
        _ => None,
    }
}

#[inline(always)]
fn four_digits(a: u8, b: u8, c: u8, d: u8) -> u32
    ensures { result ≡ ((digit a * 16 + digit b) * 16 + digit c) * 16 + digit d }
{
    ((digit(a) * 16 + digit(b)) * 16 + digit(c)) * 16 + digit(d)
}

#[inline(always)]
#[tactic(auto, unfolding(risc_text::specs::Readers::hex_digits))]
fn read_eight_digits(text: &[u8]) -> Option<(u32, &[u8])>
    ensures value { Reads (λ x. (x.0, x.1.now)) result (hex_digits 8 0 text.now) }
    ensures rest { IfSome result (λ x. length x.1.now ≤ length text.now) }
{
    match text {
        [a, b, c, d, e, f, g, h, rest @ ..] => {
            let high = four_digits(*a, *b, *c, *d);
            Some((high * 65536 + four_digits(*e, *f, *g, *h), rest))
        }
        _ => None,
    }
}

// A number with a decimal digit more, where one is here.
#[inline(always)]
fn push_decimal(n: u32, text: &[u8]) -> (u32, &[u8])
    requires { n < 10000000 }
    ensures value { (result.0, result.1.now) ≡ decimal_digit n text.now }
    ensures small { result.0 ≤ 10 * n + 9 }
    ensures rest { length result.1.now ≤ length text.now }
{
    match text {
        [byte @ b'0'..=b'9', rest @ ..] => (n * 10 + u32::from(*byte - b'0'), rest),
        _ => (n, text),
    }
}

// A decimal number of at most four digits, and one of eight; 0 where there are none.
#[inline(always)]
#[tactic(auto, unfolding(risc_text::specs::Readers::decimal_digits))]
fn read_four_places(text: &[u8]) -> (u16, &[u8])
    ensures value { (result.0, result.1.now) ≡ decimal_digits 4 0 text.now }
    ensures rest { length result.1.now ≤ length text.now }
{
    let (n, text) = push_decimal(0, text);
    let (n, text) = push_decimal(n, text);
    let (n, text) = push_decimal(n, text);
    let (n, text) = push_decimal(n, text);
    (n as u16, text)
}

#[inline(always)]
#[tactic(auto, unfolding(risc_text::specs::Readers::decimal_digits))]
pub fn read_eight_places(text: &[u8]) -> (u32, &[u8])
    ensures value { (result.0, result.1.now) ≡ decimal_digits 8 0 text.now }
    ensures rest { length result.1.now ≤ length text.now }
{
    let (n, text) = push_decimal(0, text);
    let (n, text) = push_decimal(n, text);
    let (n, text) = push_decimal(n, text);
    let (n, text) = push_decimal(n, text);
    let (n, text) = push_decimal(n, text);
    let (n, text) = push_decimal(n, text);
    let (n, text) = push_decimal(n, text);
    push_decimal(n, text)
}

// A count of bytes after a space, which has twelve bits.
#[inline(always)]
#[tactic(auto, unfolding(risc_text::specs::Readers::count))]
fn read_count(text: &[u8]) -> Option<(u16, &[u8])>
    ensures value { Reads (λ x. (x.0, x.1.now)) result (count text.now) }
    ensures small { IfSome result (λ x. x.0 < 4096) }
    ensures rest { IfSome result (λ x. length x.1.now ≤ length text.now) }
{
    let (n, text) = read_four_places(after(text, b" ")?);
    if n < 4096 { Some((n, text)) } else { None }
}

// An address after a space.
#[inline(always)]
#[tactic(auto, unfolding(risc_text::specs::Readers::address))]
pub fn read_address(text: &[u8]) -> Option<(u32, &[u8])>
    ensures value { Reads (λ x. (x.0, x.1.now)) result (address text.now) }
    ensures rest { IfSome result (λ x. length x.1.now ≤ length text.now) }
{
    read_eight_digits(after(text, b" ")?)
}

#[inline(always)]
#[tactic(auto, unfolding(risc_text::specs::Readers::three_counts))]
fn read_counts(text: &[u8]) -> Option<([u16; 3], &[u8])>
    ensures value { Reads (λ x. (x.0, x.1.now)) result (three_counts text.now) }
    ensures small { IfSome result (λ x. IsTrue (counts_fit x.0)) }
    ensures rest { IfSome result (λ x. length x.1.now ≤ length text.now) }
{
    let (first, text) = read_count(text)?;
    let (second, text) = read_count(text)?;
    let (third, text) = read_count(text)?;
    Some(([first, second, third], text))
}

#[inline(always)]
#[tactic(auto, unfolding(risc_text::specs::Readers::three_addresses))]
fn read_addresses(text: &[u8]) -> Option<([u32; 3], &[u8])>
    ensures value { Reads (λ x. (x.0, x.1.now)) result (three_addresses text.now) }
    ensures rest { IfSome result (λ x. length x.1.now ≤ length text.now) }
{
    let (first, text) = read_address(text)?;
    let (second, text) = read_address(text)?;
    let (third, text) = read_address(text)?;
    Some(([first, second, third], text))
}

// Whether a word that may be missing is here.
#[inline(always)]
#[tactic(auto, unfolding(risc_text::specs::Readers::flag))]
fn flag<'a>(text: &'a [u8], name: &[u8]) -> (bool, &'a [u8])
    ensures value { (result.0, result.1.now) ≡ flag name.now text.now }
    ensures rest { length result.1.now ≤ length text.now }
{
    match after(text, name) {
        Some(rest) => (true, rest),
        None => (false, text),
    }
}

// A field of four bits, which is 0 where it is missing.
#[inline(always)]
#[tactic(auto, unfolding(risc_text::specs::Readers::nibble))]
fn read_nibble<'a>(text: &'a [u8], name: &[u8]) -> Option<(u8, &'a [u8])>
    ensures value { Reads (λ x. (x.0, x.1.now)) result (nibble name.now text.now) }
    ensures small { IfSome result (λ x. x.0 < 16) }
    ensures rest { IfSome result (λ x. length x.1.now ≤ length text.now) }
{
    match after(text, name) {
        Some(rest) => read_digit(rest),
        None => Some((0, text)),
    }
}

#[inline(always)]
#[tactic(auto, unfolding(risc_text::specs::Readers::control))]
fn read_control(text: &[u8]) -> Option<(Ctl, &[u8])>
    ensures value { Reads (λ x. (x.0, x.1.now)) result (control text.now) }
    ensures small { IfSome result (λ x. IsTrue (control_fits x.0)) }
    ensures rest { IfSome result (λ x. length x.1.now ≤ length text.now) }
{
    let (irq, text) = flag(text, b" irq");
    let (set, text) = read_nibble(text, b" set=")?;
    let (reset, text) = read_nibble(text, b" reset=")?;
    Some((Ctl { irq, set, reset }, text))
}

// The control bits, and the lanes that are left out.
#[inline(always)]
fn read_control_and_off(text: &[u8]) -> Option<((Ctl, u8), &[u8])>
    ensures value { Reads (λ x. (x.0, x.1.now)) result (control_and_off text.now) }
    ensures control { IfSome result (λ x. IsTrue (control_fits x.0.0)) }
    ensures lanes { IfSome result (λ x. x.0.1 < 16) }
    ensures rest { IfSome result (λ x. length x.1.now ≤ length text.now) }
{
    let (ctl, text) = read_control(text)?;
    let (off, text) = read_nibble(text, b" off=")?;
    Some(((ctl, off), text))
}

// The same before the counts. Often there are none.
#[inline(always)]
#[tactic(auto, using(crate::proofs::NoFields::no_control_and_off))]
fn read_bits(text: &[u8]) -> Option<((Ctl, u8), &[u8])>
    ensures value { Reads (λ x. (x.0, x.1.now)) result (control_and_off text.now) }
    ensures control { IfSome result (λ x. IsTrue (control_fits x.0.0)) }
    ensures lanes { IfSome result (λ x. x.0.1 < 16) }
    ensures rest { IfSome result (λ x. length x.1.now ≤ length text.now) }
{
    match text {
        [b' ', b'0'..=b'9', ..] => Some(((NO_CONTROL, 0), text)),
        _ => read_control_and_off(text),
    }
}

#[inline(always)]
#[tactic(auto, using(crate::proofs::NoFields::ends_and_bits))]
fn read_data_fields(text: &[u8]) -> Option<((Ctl, Ends, u8), &[u8])>
    ensures value { Reads (λ x. (x.0, x.1.now)) result (data_fields text.now) }
    ensures control { IfSome result (λ x. IsTrue (control_fits x.0.0)) }
    ensures lanes { IfSome result (λ x. x.0.2 < 16) }
    ensures rest { IfSome result (λ x. length x.1.now ≤ length text.now) }
{
    let (sol, text) = flag(text, b" sol");
    let (eol, text) = flag(text, b" eol");
    let ((ctl, off), text) = read_bits(text)?;
    Some(((ctl, Ends { sol, eol }, off), text))
}

// The fields of a data instruction before its counts. Often there are none.
#[inline(always)]
#[tactic(auto, using(crate::proofs::NoFields::no_fields))]
fn read_data(text: &[u8]) -> Option<((Ctl, Ends, u8), &[u8])>
    ensures value { Reads (λ x. (x.0, x.1.now)) result (data_fields text.now) }
    ensures control { IfSome result (λ x. IsTrue (control_fits x.0.0)) }
    ensures lanes { IfSome result (λ x. x.0.2 < 16) }
    ensures rest { IfSome result (λ x. length x.1.now ≤ length text.now) }
{
    match text {
        [b' ', b'0'..=b'9', ..] => Some(((NO_CONTROL, NO_ENDS, 0), text)),
        _ => read_data_fields(text),
    }
}

#[inline(always)]
#[tactic(auto, unfolding(risc_text::specs::Readers::code))]
fn read_code(text: &[u8]) -> Option<(Code, &[u8])>
    ensures value { Reads (λ x. (x.0, x.1.now)) result (code text.now) }
    ensures rest { IfSome result (λ x. length x.1.now ≤ length text.now) }
{
    if let Some(rest) = after(text, b"vre") {
        Some((Code::Vre, rest))
    } else if let Some(rest) = after(text, b"vro") {
        Some((Code::Vro, rest))
    } else if let Some(rest) = after(text, b"fm1") {
        Some((Code::Fm1, rest))
    } else {
        Some((Code::Fm3, after(text, b"fm3")?))
    }
}

// The name that begins with `write`, and the one that begins with `skip`, after that word.
#[inline(always)]
#[tactic(auto, unfolding(risc_text::specs::Readers::write_name), using(crate::proofs::ShortName::short_name))]
fn read_write_name(text: &[u8]) -> Option<(Name, &[u8])>
    ensures value { Reads (λ x. (x.0, x.1.now)) result (write_name text.now) }
    ensures rest { IfSome result (λ x. length x.1.now ≤ length text.now) }
{
    if let [b' ', ..] = text {
        Some((Name::Write, text))
    } else if let Some(rest) = after(text, b"123") {
        Some((Name::Write123, rest))
    } else if let Some(rest) = after(text, b"c") {
        Some((Name::WriteC, rest))
    } else if let Some(rest) = after(text, b"1s23") {
        Some((Name::Write1S23, rest))
    } else {
        Some((Name::Write, text))
    }
}

#[inline(always)]
#[tactic(auto, unfolding(risc_text::specs::Readers::skip_name))]
fn read_skip_name(text: &[u8]) -> Option<(Name, &[u8])>
    ensures value { Reads (λ x. (x.0, x.1.now)) result (skip_name text.now) }
    ensures rest { IfSome result (λ x. length x.1.now ≤ length text.now) }
{
    if let Some(rest) = after(text, b"123") {
        Some((Name::Skip123, rest))
    } else {
        Some((Name::Skip, text))
    }
}

// The name before the fields.
#[inline(always)]
#[tactic(auto, unfolding(risc_text::specs::Readers::name_at))]
pub fn read_name(text: &[u8]) -> Option<(Name, &[u8])>
    ensures value { Reads (λ x. (x.0, x.1.now)) result (name_at text.now) }
    ensures rest { IfSome result (λ x. length x.1.now ≤ length text.now) }
{
    if let Some(rest) = after(text, b"write") {
        read_write_name(rest)
    } else if let Some(rest) = after(text, b"skip") {
        read_skip_name(rest)
    } else if let Some(rest) = after(text, b"word") {
        Some((Name::Word, rest))
    } else if let Some(rest) = after(text, b"sync ") {
        Some((Name::Sync, rest))
    } else {
        Some((Name::Jump, after(text, b"jump")?))
    }
}

#[inline(always)]
#[tactic(auto, unfolding(risc_text::specs::Readers::write_fields))]
pub fn read_write(text: &[u8]) -> Option<(Instr, &[u8])>
    ensures value { Reads (λ x. (x.0, x.1.now)) result (write_fields text.now) }
    ensures fits { IfSome result (λ x. IsTrue (fits x.0)) }
    ensures rest { IfSome result (λ x. length x.1.now ≤ length text.now) }
{
    let ((ctl, ends, off), text) = read_data(text)?;
    let (count, text) = read_count(text)?;
    let (addr, text) = read_address(text)?;
    Some((
        Instr::Write {
            ctl,
            ends,
            off,
            count,
            addr,
        },
        text,
    ))
}

#[inline(always)]
#[tactic(auto, unfolding(risc_text::specs::Readers::skip_fields))]
pub fn read_skip(text: &[u8]) -> Option<(Instr, &[u8])>
    ensures value { Reads (λ x. (x.0, x.1.now)) result (skip_fields text.now) }
    ensures fits { IfSome result (λ x. IsTrue (fits x.0)) }
    ensures rest { IfSome result (λ x. length x.1.now ≤ length text.now) }
{
    let ((ctl, ends, _), text) = read_data(text)?;
    let (count, text) = read_count(text)?;
    Some((Instr::Skip { ctl, ends, count }, text))
}

#[inline(always)]
#[tactic(auto, unfolding(risc_text::specs::Readers::write_c_fields))]
pub fn read_write_c(text: &[u8]) -> Option<(Instr, &[u8])>
    ensures value { Reads (λ x. (x.0, x.1.now)) result (write_c_fields text.now) }
    ensures fits { IfSome result (λ x. IsTrue (fits x.0)) }
    ensures rest { IfSome result (λ x. length x.1.now ≤ length text.now) }
{
    let ((ctl, ends, off), text) = read_data(text)?;
    let (count, text) = read_count(text)?;
    Some((
        Instr::WriteC {
            ctl,
            ends,
            off,
            count,
        },
        text,
    ))
}

#[inline(always)]
#[tactic(auto, unfolding(risc_text::specs::Readers::jump_fields))]
pub fn read_jump(text: &[u8]) -> Option<(Instr, &[u8])>
    ensures value { Reads (λ x. (x.0, x.1.now)) result (jump_fields text.now) }
    ensures fits { IfSome result (λ x. IsTrue (fits x.0)) }
    ensures rest { IfSome result (λ x. length x.1.now ≤ length text.now) }
{
    let (ctl, text) = read_control(text)?;
    let (target, text) = read_address(text)?;
    Some((Instr::Jump { ctl, target }, text))
}

#[inline(always)]
#[tactic(auto, unfolding(risc_text::specs::Readers::sync_fields))]
pub fn read_sync(text: &[u8]) -> Option<(Instr, &[u8])>
    ensures value { Reads (λ x. (x.0, x.1.now)) result (sync_fields text.now) }
    ensures fits { IfSome result (λ x. IsTrue (fits x.0)) }
    ensures rest { IfSome result (λ x. length x.1.now ≤ length text.now) }
{
    let (code, text) = read_code(text)?;
    let (resync, text) = flag(text, b" resync");
    let (ctl, text) = read_control(text)?;
    Some((Instr::Sync { ctl, resync, code }, text))
}

#[inline(always)]
#[tactic(auto, unfolding(risc_text::specs::Readers::write_123_fields))]
pub fn read_write_123(text: &[u8]) -> Option<(Instr, &[u8])>
    ensures value { Reads (λ x. (x.0, x.1.now)) result (write_123_fields text.now) }
    ensures fits { IfSome result (λ x. IsTrue (fits x.0)) }
    ensures rest { IfSome result (λ x. length x.1.now ≤ length text.now) }
{
    let ((ctl, ends, off), text) = read_data(text)?;
    let (counts, text) = read_counts(text)?;
    let (addrs, text) = read_addresses(text)?;
    Some((
        Instr::Write123 {
            ctl,
            ends,
            off,
            counts,
            addrs,
        },
        text,
    ))
}

#[inline(always)]
#[tactic(auto, unfolding(risc_text::specs::Readers::skip_123_fields))]
pub fn read_skip_123(text: &[u8]) -> Option<(Instr, &[u8])>
    ensures value { Reads (λ x. (x.0, x.1.now)) result (skip_123_fields text.now) }
    ensures fits { IfSome result (λ x. IsTrue (fits x.0)) }
    ensures rest { IfSome result (λ x. length x.1.now ≤ length text.now) }
{
    let ((ctl, ends, _), text) = read_data(text)?;
    let (counts, text) = read_counts(text)?;
    Some((Instr::Skip123 { ctl, ends, counts }, text))
}

#[inline(always)]
#[tactic(auto, unfolding(risc_text::specs::Readers::write_1_s_23_fields))]
pub fn read_write_1_s_23(text: &[u8]) -> Option<(Instr, &[u8])>
    ensures value { Reads (λ x. (x.0, x.1.now)) result (write_1_s_23_fields text.now) }
    ensures fits { IfSome result (λ x. IsTrue (fits x.0)) }
    ensures rest { IfSome result (λ x. length x.1.now ≤ length text.now) }
{
    let ((ctl, ends, off), text) = read_data(text)?;
    let (counts, text) = read_counts(text)?;
    let (addr, text) = read_address(text)?;
    Some((
        Instr::Write1S23 {
            ctl,
            ends,
            off,
            counts,
            addr,
        },
        text,
    ))
}
