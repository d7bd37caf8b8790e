//! What several crates' tests try: the words of a program, which are from 1000 on, and its listing.

/// A line of 8 bytes at 20000: SYNC VRE, SYNC FM1, WRITE, JUMP with interrupt.
pub const ONE_LINE: [u32; 8] = [
    0x80008004, 0, 0x80000006, 0, 0x1c000008, 0x20000, 0x71e10000, 0x1000,
];

/// The listing of `ONE_LINE` with the page at 20000 and the fill 0.
pub const ONE_LINE_LISTING: &[u8] =
    b"base 00001000\n00001000 sync vre resync\n00001008 sync fm1\n00001010 write sol eol 8 00020000\n\
        00001018 jump irq set=1 reset=e 00001000\npage 00020000\nfill 00\n";

/// A ring of two blocks of a line of 8 bytes: SYNC FM1, a WRITE for each line, which interrupts with the number of its
/// block, and the JUMP behind the SYNC.
pub const TWO_BLOCKS: [u32; 8] = [
    0x80008006, 0, 0x1df00008, 0x20000, 0x1de10008, 0x20008, 0x70000000, 0x1008,
];
