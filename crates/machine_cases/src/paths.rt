// Paths that are fine, and those that are not.

ghost use Rattle.std.specs.Prelude.{◌≡◌, ◌<◌};

use page_table::PageSet;
use risc_verify::{Accepted, Cause, Program, Steps, Why, verify};
use std::alloc::Global;
use std::marker::Brand;
use std::sync::ledger::{Blank, Ledger};
use std::test::Fail;

// The place of the path that isn't fine, its number and its cause, if there is one.
type Said = Option<(u64, u64, Cause)>;

// Nothing, where the accepted program is that of the words.
fn kept(accepted: &Accepted, words: &[u32]) -> Said {
    let program = accepted.program();
    let is_whole = program.base() == 0x1000
        && program.words() == words
        && program.grants().len() == 1;
    if is_whole {
        None
    } else {
        Some((0, 0, Cause::Cut))
    }
}

// The first place of the path that isn't fine.
fn told(why: &Why) -> Said {
    match why {
        Why::Bad { at, nth, cause } => Some((*at, *nth, *cause)),
        Why::Memory => Some((0, 0, Cause::Cut)),
    }
}

// What the verifier answers on words from 0x1000 on that may write one page.
fn said<L: Ledger>(alloc: Global, words: &[u32], page: u32, blank: Blank) -> Result<Said, Fail>
    requires name { blank.name ≡ L.name }
    requires parts { blank.parts ≡ L.parts }
    requires some { 0 < blank.parts }
{
    if words.len() > 16 || page % 4096 != 0 || page < 0x20000 {
        return Ok(None);
    }
    let grants = PageSet::from_list(alloc, &[page])?;
    let mut list = Vec::new(alloc);
    list.extend_from_slice(words)?;
    let program = Program::new(0x1000, list, grants);
    let mut steps = Steps::<L>::new(blank);
    match verify(alloc, program, &mut steps) {
        Ok(accepted) => Ok(kept(&accepted, words)),
        Err(rejected) => Ok(told(&rejected.why)),
    }
}

// Words, the page that they may write, and what is answered.
static PATHS: [(&[u32], u32, Said); 11] = [
    (
        &[0x8000_8004, 0x1000_0004, 0x7000_0000, 0x1004],
        0x20000,
        Some((0x1004, 2, Cause::Ungranted(0x7000_0000))),
    ),
    (
        &[
            0x1800_0004,
            0x20000,
            0x2000_0004,
            0x5400_0004,
            0x7000_0000,
            0x1000,
        ],
        0x20000,
        None,
    ),
    (
        &[0x1c00_0004, 0x20000, 0x5400_0004, 0x7000_0000, 0x1000],
        0x20000,
        Some((0x1008, 1, Cause::NoTarget)),
    ),
    (
        &[0x1800_0004, 0x20000, 0x5800_0004, 0x7000_0000, 0x1000],
        0x20000,
        Some((0x1008, 1, Cause::NoTarget)),
    ),
    (
        &[0x1000_0008, 0xffff_fffc, 0x7000_0000, 0x1000],
        0xffff_f000,
        Some((0x1000, 0, Cause::Wrap)),
    ),
    (
        &[0x1000_0004, 0xffff_fffc, 0x7000_0000, 0x1000],
        0xffff_f000,
        None,
    ),
    (&[], 0x20000, Some((0x1000, 0, Cause::Cut))),
    (
        &[0x1000_0004, 0x20000, 0x2000_0004, 0x7000_0000, 0x1008],
        0x20000,
        None,
    ),
    (
        &[0x1000_0004, 0x20000, 0x5000_0004, 0x7000_0000, 0x1008],
        0x20000,
        Some((0x1008, 3, Cause::NoTarget)),
    ),
    (
        &[0x1000_0004, 0x2000_0004, 0x7000_0000, 0x1004],
        0x2000_0000,
        None,
    ),
    (
        &[0x1000_0004, 0x5000_0004, 0x7000_0000, 0x1004],
        0x5000_0000,
        Some((0x1004, 2, Cause::NoTarget)),
    ),
];

#[test]
fn paths_are_judged(rt: HostRuntime) -> Result<(), Fail> {
    for (i, &(words, page, want)) in PATHS.iter().enumerate() {
        let have = said::<Brand>(rt.alloc(), words, page, Blank::new(1))?;
        assert_eq!(rt; have, want, "in row {i}");
    }
    Ok(())
}
