//! Tries the commands that its input names on the files that lie beside it, and prints what came of each.
//!
//! A line of the input is a case, of parts with `: ` between: its name; the words of a command; and for each output its
//! name and that of the file that it must be equal to, or its name alone where it must not be there. The words
//! `keep PROG TEXT` put what `list PROG` prints into the file TEXT.
#![tactic(auto)]

ghost use Rattle.std.specs.Prelude.{◌≡◌, [], ◌∷◌, IfOk, Some, codes};
ghost use Rattle.capture_desk.specs.Memory.{all_told};

use bt878_top::bt878;
use capture_desk::{MemDesk, Octets, OsDesk};
use std::alloc::{AllocError, Global};
use std::{fs, io};

/// The most bytes that a listing is printed in at once.
const LONGEST: usize = 65536;

/// The most bytes of a listing that is kept.
const ROOM: usize = 65536;

/// The desk in memory of `list program`.
fn listing_desk(alloc: Global, program: &[u8]) -> Result<MemDesk, AllocError>
    ensures opens { IfOk result (λ desk. (all_told desk).may_open ≡ Some (codes "program" ∷ [])) }
    ensures creates { IfOk result (λ desk. (all_told desk).may_create ≡ Some []) }
{
    let inputs = vec![in alloc;
        (
            Octets::from_list(alloc, b"program")?,
            Octets::from_list(alloc, program)?
        ),
    ]?;
    let opens = vec![in alloc; Octets::from_list(alloc, b"program")?]?;
    MemDesk::new(
        alloc,
        inputs,
        opens,
        Vec::new(alloc),
        Vec::new(alloc),
        LONGEST,
        ROOM,
    )
}

/// Puts what `list` prints of a program into a file, and answers the status.
fn keep(rt: &HostRuntime, program: &str, text: &str) -> io::Result<u8> {
    let program = fs::read(rt, program)?;
    let mut desk = listing_desk(rt.alloc(), &program)?;
    let status = bt878(rt.alloc(), &["list", "program"], &mut desk).status();
    fs::write(rt, text, desk.said())?;
    Ok(status)
}

/// Does what the words ask for, over the files beside the program, and answers the status.
fn call(rt: &HostRuntime, words: &str) -> io::Result<u8> {
    let words: Vec<&str> = words.split_whitespace().collect(rt.alloc())?;
    if let ["keep", program, text] = words.as_slice() {
        return keep(rt, program, text);
    }
    let mut desk = OsDesk::new(rt);
    Ok(bt878(rt.alloc(), &words, &mut desk).status())
}

/// How a file is to another.
fn comparison(rt: &HostRuntime, output: &str, expected: &str) -> &'static str {
    let (Ok(written), Ok(wanted)) = (fs::read(rt, output), fs::read(rt, expected)) else {
        return "can't be compared with";
    };
    if written == wanted { "is" } else { "isn't" }
}

/// Prints of each output how it is to the file that is expected, or whether it is there.
fn compare(rt: &HostRuntime, outputs: &str) -> io::Result<()> {
    for output in outputs.split(": ").filter(|output| !output.is_empty()) {
        match output.split_once(' ') {
            Some((output, expected)) => {
                let comparison = comparison(rt, output, expected);
                print!(rt; ", {output} {comparison} {expected}")?;
            }
            None if fs::read(rt, output).is_ok() => print!(rt; ", {output} is there")?,
            None => print!(rt; ", no {output}")?,
        }
    }
    Ok(())
}

/// Tries a case: its name and words, what the command prints, its status, and how its outputs are.
fn attempt(rt: &HostRuntime, case: &str) -> io::Result<()> {
    let (name, rest) = case.split_once(": ").unwrap_or((case, ""));
    let (words, outputs) = rest.split_once(": ").unwrap_or((rest, ""));
    println!(rt; "{name}: {words}")?;
    let status = call(rt, words)?;
    print!(rt; "= {status}")?;
    compare(rt, outputs)?;
    println!(rt;)
}

fn main(rt: HostRuntime) -> io::Result<()> {
    for line in rt.lines(rt.alloc()) {
        attempt(&rt, line?.as_str())?;
    }
    Ok(())
}
