//! Fields of a 32-bit word.
#![tactic(auto)]

ghost use Rattle.bit_field.specs.Bits.{IsApart, IsField, bits, with_bits};
ghost use Rattle.std.specs.Prelude.{ℕ, ◌+◌, ◌-◌, ◌<◌, ◌^◌, ◌≡◌, ◌≤◌};

/// The `W` bits of a word from bit `LO` on.
pub struct Field<const LO: u32, const W: u32>;

impl<const LO: u32, const W: u32> Field<LO, W> {
    /// The number in the field.
    #[inline]
    pub fn get(word: u32) -> u32
        requires { IsField LO W }
        ensures { result ≡ bits LO W word }
    {
        (u64::from(word >> LO) % (1u64 << W)) as u32
    }

    /// The word with `value` in the field; each field that shares no bit with it keeps its number.
    #[inline]
    pub fn put(word: u32, value: u32) -> u32
        requires field { IsField LO W }
        requires fits { value < 2 ^ W }
        ensures word { result ≡ with_bits LO W word value }
        ensures value { bits LO W result ≡ value }
        ensures others { (low width : ℕ) → IsApart low width LO W → bits low width result ≡ bits low width word }
    {
        word - (Self::get(word) << LO) + (value << LO)
    }
}

/// The RISC status bits that an instruction sets and resets to leave the status `n`: the bits of `n`,
/// and the others of the four (Bt878 data sheet, "RISC instructions").
pub fn marks(n: u8) -> (u8, u8)
    requires { n < 16 }
    ensures { result ≡ (n, 15 - n) }
{
    macro_rules! marks_of {
        ($($mark:literal)*) => {
            match n {
                $($mark => ($mark, 15 - $mark),)*
                _ => unreachable!(),
            }
        };
    }
    marks_of!(0 1 2 3 4 5 6 7 8 9 10 11 12 13 14 15)
}
