//! Digits of numbers.

ghost use Rattle.risc_listing.specs.Lines.{address_text, at_text, count_text, last_four};
ghost use Rattle.std.specs.Fmt.{digit_glyph, digits};
ghost use Rattle.std.specs.Str.{IsUtf8};
ghost use Rattle.std.specs.Prelude.{◌≡◌, ◌+◌, ◌/◌, ◌%◌, ◌<◌, ◌≤◌, false, [], ◌∷◌, ◌++◌, codes};

// The numbers below 256 in two hexadecimal digits each.
const PAIRS: [u8; 512] = *b"\
    000102030405060708090a0b0c0d0e0f\
    101112131415161718191a1b1c1d1e1f\
    202122232425262728292a2b2c2d2e2f\
    303132333435363738393a3b3c3d3e3f\
    404142434445464748494a4b4c4d4e4f\
    505152535455565758595a5b5c5d5e5f\
    606162636465666768696a6b6c6d6e6f\
    707172737475767778797a7b7c7d7e7f\
    808182838485868788898a8b8c8d8e8f\
    909192939495969798999a9b9c9d9e9f\
    a0a1a2a3a4a5a6a7a8a9aaabacadaeaf\
    b0b1b2b3b4b5b6b7b8b9babbbcbdbebf\
    c0c1c2c3c4c5c6c7c8c9cacbcccdcecf\
    d0d1d2d3d4d5d6d7d8d9dadbdcdddedf\
    e0e1e2e3e4e5e6e7e8e9eaebecedeeef\
    f0f1f2f3f4f5f6f7f8f9fafbfcfdfeff";

// The last hexadecimal digit of a number.
#[inline(always)]
#[tactic(auto, using(crate::proofs::Hexadecimal::last_in_table))]
fn last_digit(n: u32) -> u8
    ensures { result ≡ digit_glyph false (n % 16) }
{
    PAIRS[2 * (n % 256) as usize + 1]
}

// The digit before the last.
#[inline(always)]
#[tactic(auto, using(crate::proofs::Hexadecimal::first_in_table))]
fn last_but_one(n: u32) -> u8
    ensures { result ≡ digit_glyph false (n / 16 % 16) }
{
    PAIRS[2 * (n % 256) as usize]
}

// An address and a space after it.
#[inline(always)]
pub fn address_and_space(n: u32) -> [u8; 9]
    ensures digits { result ≡ address_text n ++ codes " " }
    ensures text { IsUtf8 result }
{
    [
        last_but_one(n >> 24),
        last_digit(n >> 24),
        last_but_one(n >> 16),
        last_digit(n >> 16),
        last_but_one(n >> 8),
        last_digit(n >> 8),
        last_but_one(n),
        last_digit(n),
        b' ',
    ]
}

// A space and an address after it.
#[inline(always)]
pub fn space_and_address(n: u32) -> [u8; 9]
    ensures digits { result ≡ at_text n }
    ensures text { IsUtf8 result }
{
    [
        b' ',
        last_but_one(n >> 24),
        last_digit(n >> 24),
        last_but_one(n >> 16),
        last_digit(n >> 16),
        last_but_one(n >> 8),
        last_digit(n >> 8),
        last_but_one(n),
        last_digit(n),
    ]
}

// A number below 16, as `{:x}` writes it, and one from 16 on.
#[inline(always)]
pub fn one_digit(n: u8) -> [u8; 1]
    requires { n < 16 }
    ensures digits { result ≡ digits 16 false n }
    ensures text { IsUtf8 result }
{
    [last_digit(u32::from(n))]
}

#[inline(always)]
pub fn two_digits(n: u8) -> [u8; 2]
    requires { 16 ≤ n }
    ensures digits { result ≡ digits 16 false n }
    ensures text { IsUtf8 result }
{
    [last_but_one(u32::from(n)), last_digit(u32::from(n))]
}

// The numbers below 100 in two decimal digits each.
const DECIMAL_PAIRS: [u8; 200] = *b"\
    0001020304050607080910111213141516171819\
    2021222324252627282930313233343536373839\
    4041424344454647484950515253545556575859\
    6061626364656667686970717273747576777879\
    8081828384858687888990919293949596979899";

// The last decimal digit of a number below 100.
#[inline(always)]
#[tactic(auto, using(crate::proofs::Decimal::unit_in_table))]
fn unit(n: u32) -> u8
    requires { n < 100 }
    ensures { result ≡ 48 + n % 10 }
{
    DECIMAL_PAIRS[2 * n as usize + 1]
}

// The digit before the last.
#[inline(always)]
#[tactic(auto, using(crate::proofs::Decimal::ten_in_table))]
fn ten(n: u32) -> u8
    requires { n < 100 }
    ensures { result ≡ 48 + n / 10 }
{
    DECIMAL_PAIRS[2 * n as usize]
}

// A space and a number of one digit, and of two, three and four.
#[inline(always)]
pub fn one_place(n: u32) -> [u8; 2]
    requires { n < 10 }
    ensures digits { result ≡ count_text n }
    ensures text { IsUtf8 result }
{
    [b' ', b'0' + n as u8]
}

#[inline(always)]
pub fn two_places(n: u32) -> [u8; 3]
    requires low { 10 ≤ n }
    requires high { n < 100 }
    ensures digits { result ≡ count_text n }
    ensures text { IsUtf8 result }
{
    [b' ', ten(n), unit(n)]
}

#[inline(always)]
pub fn three_places(n: u32) -> [u8; 4]
    requires low { 100 ≤ n }
    requires high { n < 1000 }
    ensures digits { result ≡ count_text n }
    ensures text { IsUtf8 result }
{
    let (front, back) = (n / 100, n % 100);
    [b' ', b'0' + front as u8, ten(back), unit(back)]
}

#[inline(always)]
pub fn four_places(n: u32) -> [u8; 5]
    requires low { 1000 ≤ n }
    requires high { n < 10000 }
    ensures digits { result ≡ count_text n }
    ensures text { IsUtf8 result }
{
    let (front, back) = (n / 100, n % 100);
    [b' ', ten(front), unit(front), ten(back), unit(back)]
}

// The last four decimal digits of a number, and eight with zeros in front.
#[inline(always)]
pub fn last_four(n: u32) -> [u8; 4]
    requires { n < 10000 }
    ensures digits { result ≡ last_four n }
    ensures text { IsUtf8 result }
{
    let (front, back) = (n / 100, n % 100);
    [ten(front), unit(front), ten(back), unit(back)]
}

#[inline(always)]
fn eight_digits(n: u32) -> [u8; 8]
    requires { n < 100000000 }
    ensures { result ≡ last_four (n / 10000) ++ last_four (n % 10000) }
{
    let (front, back) = (n / 10_000, n % 10_000);
    let (first, second) = (front / 100, front % 100);
    let (third, fourth) = (back / 100, back % 100);
    [
        ten(first),
        unit(first),
        ten(second),
        unit(second),
        ten(third),
        unit(third),
        ten(fourth),
        unit(fourth),
    ]
}

// A space and a number of five digits, and of six, seven and eight.
#[inline(always)]
pub fn five_places(n: u32) -> [u8; 6]
    requires low { 10000 ≤ n }
    requires high { n < 100000 }
    ensures digits { result ≡ count_text n }
    ensures text { IsUtf8 result }
{
    let d = eight_digits(n);
    [b' ', d[3], d[4], d[5], d[6], d[7]]
}

#[inline(always)]
pub fn six_places(n: u32) -> [u8; 7]
    requires low { 100000 ≤ n }
    requires high { n < 1000000 }
    ensures digits { result ≡ count_text n }
    ensures text { IsUtf8 result }
{
    let d = eight_digits(n);
    [b' ', d[2], d[3], d[4], d[5], d[6], d[7]]
}

#[inline(always)]
pub fn seven_places(n: u32) -> [u8; 8]
    requires low { 1000000 ≤ n }
    requires high { n < 10000000 }
    ensures digits { result ≡ count_text n }
    ensures text { IsUtf8 result }
{
    let d = eight_digits(n);
    [b' ', d[1], d[2], d[3], d[4], d[5], d[6], d[7]]
}

#[inline(always)]
pub fn eight_places(n: u32) -> [u8; 9]
    requires low { 10000000 ≤ n }
    requires high { n < 100000000 }
    ensures digits { result ≡ count_text n }
    ensures text { IsUtf8 result }
{
    let d = eight_digits(n);
    [b' ', d[0], d[1], d[2], d[3], d[4], d[5], d[6], d[7]]
}
