// Each command, called on a desk with its files. A call of the desk whose number is in `failing` fails, and a call
// moves at most `longest` bytes.
ghost use Rattle.std.specs.Prelude.{◌≡◌, [], Some};
ghost use Rattle.bt878_words.specs.Words.{task_of, texts};
ghost use Rattle.bt878_contract.specs.Clauses.{SameNames};
ghost use Rattle.bt878_contract.specs.Tasks.{AreNames, names_read, names_written};
ghost use Rattle.capture_desk.specs.Memory.{all_told};

use crate::desks::{Limits, desk_of};
use crate::left::Left;
use crate::runtime::{Disk, Runtime};
use bt878_top::bt878;
use capture_desk::{Desk, MemDesk, OsDesk};
use std::alloc::{AllocError, Global};

/// The most bytes that a call moves where that is not what is tested.
pub const LONG: usize = 65536;

/// No status of the program: the desk over a system did otherwise than that over memory.
const UNLIKE: u8 = 255;

/// The status with which the program ends.
pub fn status_of<D: Desk>(alloc: Global, words: &[&str], desk: &mut D) -> u8
    requires opens { AreNames (names_read (task_of words.now)) (D.seen desk.old).told.may_open }
    requires creates { AreNames (names_written (task_of words.now)) (D.seen desk.old).told.may_create }
    ensures names { SameNames (D.seen desk.old).told (D.seen desk.new).told }
{
    bt878(alloc, words, desk).status()
}

/// The status with which the program ends over a system in memory, by the desk that it ships with.
fn repeated(alloc: Global, words: &[&str], disk: &Disk) -> u8 {
    let runtime = Runtime::new(disk);
    status_of(alloc, words, &mut OsDesk::new(&runtime))
}

/// What the program leaves of a desk with its inputs, of these contents, and its outputs. Over a system in
/// memory it has to leave the same; that is tried where the calls are few.
pub fn left_by(
    alloc: Global,
    words: &[&str],
    inputs: &[&str],
    contents: &[&[u8]],
    outputs: &[&str],
    limits: Limits,
) -> Result<Left, AllocError>
    requires opens { AreNames (names_read (task_of words.now)) (Some (texts inputs.now)) }
    requires creates { AreNames (names_written (task_of words.now)) (Some (texts outputs.now)) }
{
    let mut desk = desk_of(alloc, inputs, contents, outputs, limits)?;
    let mut status = status_of(alloc, words, &mut desk);
    let disk = Disk::new(alloc, inputs, contents, limits);
    if limits.are_brief() {
        let same = repeated(alloc, words, &disk) == status && disk.is_as(&desk, outputs);
        status = if same { status } else { UNLIKE };
    }
    Ok(Left { status, desk })
}

pub fn listed(
    alloc: Global,
    program: &[u8],
    failing: &[u64],
    longest: usize,
) -> Result<Left, AllocError> {
    let words = ["list", "program"];
    let files = [program];
    let limits = Limits::new(failing, longest, 5000);
    left_by(alloc, &words, &words[1..], &files, &[], limits)
}

pub fn judged(
    alloc: Global,
    program: &[u8],
    failing: &[u64],
    longest: usize,
) -> Result<Left, AllocError> {
    let words = ["verify", "program"];
    let files = [program];
    let limits = Limits::new(failing, longest, 5000);
    left_by(alloc, &words, &words[1..], &files, &[], limits)
}

pub fn checked(
    alloc: Global,
    program: &[u8],
    description: &[u8],
    failing: &[u64],
    longest: usize,
) -> Result<Left, AllocError> {
    let words = ["check", "program", "description"];
    let files = [program, description];
    let limits = Limits::new(failing, longest, 1000);
    left_by(alloc, &words, &words[1..], &files, &[], limits)
}

pub fn assembled(
    alloc: Global,
    text: &[u8],
    failing: &[u64],
    longest: usize,
) -> Result<Left, AllocError> {
    let words = ["assemble", "text", "program"];
    let files = [text];
    let limits = Limits::new(failing, longest, 1000);
    left_by(alloc, &words, &words[1..2], &files, &words[2..], limits)
}

pub fn played(
    alloc: Global,
    program: &[u8],
    stream: &[u8],
    failing: &[u64],
    longest: usize,
) -> Result<Left, AllocError> {
    let words = ["run", "program", "stream", "image"];
    let files = [program, stream];
    let limits = Limits::new(failing, longest, 5000);
    left_by(alloc, &words, &words[1..3], &files, &words[3..], limits)
}

pub fn traced(
    alloc: Global,
    program: &[u8],
    stream: &[u8],
    failing: &[u64],
    longest: usize,
) -> Result<Left, AllocError> {
    let words = ["trace", "program", "stream"];
    let files = [program, stream];
    let limits = Limits::new(failing, longest, 5000);
    left_by(alloc, &words, &words[1..], &files, &[], limits)
}

pub fn compiled(
    alloc: Global,
    description: &[u8],
    failing: &[u64],
    longest: usize,
    room: usize,
) -> Result<Left, AllocError> {
    let words = ["compile", "description", "out"];
    let files = [description];
    let limits = Limits::new(failing, longest, room);
    left_by(alloc, &words, &words[1..2], &files, &words[2..], limits)
}

/// One frame of seed 1.
pub fn made(
    alloc: Global,
    description: &[u8],
    failing: &[u64],
    longest: usize,
    room: usize,
) -> Result<Left, AllocError> {
    let words = ["make", "description", "1", "1", "out"];
    let files = [description];
    let limits = Limits::new(failing, longest, room);
    left_by(alloc, &words, &words[1..2], &files, &words[4..], limits)
}

pub fn captured(
    alloc: Global,
    description: &[u8],
    stream: &[u8],
    failing: &[u64],
    longest: usize,
    room: usize,
) -> Result<Left, AllocError> {
    let words = ["capture", "description", "stream", "program", "image"];
    let files = [description, stream];
    let limits = Limits::new(failing, longest, room);
    left_by(alloc, &words, &words[1..3], &files, &words[3..], limits)
}

pub fn ringed(
    alloc: Global,
    ring: &[u8],
    stream: &[u8],
    failing: &[u64],
    longest: usize,
) -> Result<Left, AllocError> {
    let words = ["ring", "ring", "stream", "program", "image"];
    let files = [ring, stream];
    let limits = Limits::new(failing, longest, 10_000);
    left_by(alloc, &words, &words[1..3], &files, &words[3..], limits)
}

pub fn chained(
    alloc: Global,
    first: &[u8],
    second: &[u8],
    stream: &[u8],
    failing: &[u64],
    longest: usize,
) -> Result<Left, AllocError> {
    let words = ["chain", "first", "second", "stream", "image"];
    let files = [first, second, stream];
    let limits = Limits::new(failing, longest, 10_000);
    left_by(alloc, &words, &words[1..4], &files, &words[4..], limits)
}

pub fn damaged(
    alloc: Global,
    description: &[u8],
    stream: &[u8],
    failing: &[u64],
    longest: usize,
) -> Result<Left, AllocError> {
    let words = ["damage", "description", "stream"];
    let files = [description, stream];
    let limits = Limits::new(failing, longest, 1000);
    left_by(alloc, &words, &words[1..], &files, &[], limits)
}

/// Whether the words are at fault, on a desk that has no files.
pub fn is_at_fault(alloc: Global, words: &[&str], desk: &mut MemDesk) -> bool
    requires no_inputs { names_read (task_of words.now) ≡ [] }
    requires no_outputs { names_written (task_of words.now) ≡ [] }
    requires opens { (all_told desk.old).may_open ≡ Some [] }
    requires creates { (all_told desk.old).may_create ≡ Some [] }
    ensures opens { (all_told desk.new).may_open ≡ Some [] }
    ensures creates { (all_told desk.new).may_create ≡ Some [] }
{
    status_of(alloc, words, desk) == 2
}
