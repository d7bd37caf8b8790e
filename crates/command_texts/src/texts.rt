//! The texts that are printed.

ghost use Rattle.std.specs.Prelude.{◌≡◌, IfErr, IfOk, Some, codes};
ghost use Rattle.command_texts.specs.Answers.{TakesMemory, answer_of};
ghost use Rattle.command_texts.specs.Texts.{answer_text, cause_words, key_text, not_toml_text, refusal_bytes, ring_place_text};

use crate::answer::Answer;
use crate::refusal::Refusal;
use crate::short::{ShortText, malformed_text};
use bt878_words::UsageFault;
use capture_desc::DescFault;
use chain_model::ChainFault;
use machine_model::Cause;
use picture_model::BuildFault;
use ring_compile::RingFault;
use risc_asm::AsmFault;
use std::alloc::{AllocError, Global};
use std::fmt;

/// What is reported where an input could not be read.
const READ_FAULT: &str = "read fault\n";

/// What is reported where memory ran out.
pub const NO_MEMORY: &str = "no memory\n";

/// What `verify` prints of a sound program.
pub const ACCEPTED: &str = "accepted\n";

/// What `--help` prints.
pub const HELP: &str = "\
bt878 compiles, checks and runs RISC capture programs of the Bt878.

  bt878 list PROG                         print a program's listing
  bt878 assemble TEXT PROG                make the program of a listing
  bt878 verify PROG                       check that a program is safe
  bt878 check PROG DESC                   check a program against a description
  bt878 compile DESC PROG                 make the program of a description
  bt878 make DESC SEED FRAMES STREAM      make a stream for a description
  bt878 run PROG STREAM IMAGE             run a program on a stream
  bt878 trace PROG STREAM                 print what each step of a run did
  bt878 capture DESC STREAM PROG IMAGE    compile a description and run it
  bt878 damage DESC STREAM                print which rows came whole
  bt878 ring RING STREAM PROG IMAGE       make and run a ring of blocks
  bt878 chain DESC1 DESC2 STREAM IMAGE    run a loop with two buffers
  bt878 --help                            print this
  bt878 --version                         print the version

Status: 0 done, 1 a program or a description has a fault or differs,
2 wrong words, 3 a malformed file, 4 an input can't be read,
5 an output can't be written, 6 out of memory, 8 a word that is no text.

The manual is bt878(1).
";

/// What `--version` prints.
pub const VERSION: &str = "bt878 0.1.0\n";

/// A cause in words.
#[derive(Drop)]
struct CauseWords(Cause);

impl fmt::Display for CauseWords {
    ghost output = { λ words. Some (cause_words words.0) };

    fn fmt<W: fmt::Write>(&self, f: &mut fmt::Formatter<W>) -> fmt::Result {
        match self.0 {
            Cause::Cut => write!(f, "cut"),
            Cause::Reserved(opcode) => write!(f, "reserved {opcode:x}"),
            Cause::SyncCode(code) => write!(f, "sync code {code:x}"),
            Cause::JumpOut(address) => write!(f, "jump out {address:08x}"),
            Cause::NoTarget => write!(f, "no target"),
            Cause::Wrap => write!(f, "wrap"),
            Cause::Ungranted(address) => write!(f, "ungranted {address:08x}"),
        }
    }
}

/// The text of a fault of the words. It takes no memory.
pub fn usage_text(fault: UsageFault) -> &'static str
    ensures { result.now ≡ answer_text (Answer.Usage fault) }
{
    match fault {
        UsageFault::NoCommand => "usage: no command\n",
        UsageFault::UnknownCommand => "usage: unknown command\n",
        UsageFault::WordCount => "usage: wrong number of words\n",
        UsageFault::Number => "usage: bad number\n",
        UsageFault::SameName => "usage: same name\n",
    }
}

/// The text of a program that isn't sound.
fn rejected_text(alloc: Global, at: u64, nth: u64, cause: Cause) -> Result<Vec<u8>, AllocError>
    ensures { IfOk result (λ text. text.items ≡ answer_text (Answer.Rejected at nth cause)) }
{
    let cause = CauseWords(cause);
    let text = format!(in alloc; "rejected at {at:08x}, step {nth}: {cause}\n")?;
    Ok(text.into_bytes())
}

/// The text of a file of keys that is no TOML document.
fn not_toml_text(alloc: Global, file: &str) -> Result<Vec<u8>, AllocError>
    ensures { IfOk result (λ text. text.items ≡ not_toml_text file.now) }
{
    let text = format!(in alloc; "{file}: not toml\n")?;
    Ok(text.into_bytes())
}

/// The text of a key that no such file has. The key is printed as it is in the file.
fn unknown_text(alloc: Global, file: &str, key: &[u8]) -> Result<Vec<u8>, AllocError>
    ensures { IfOk result (λ text. text.items ≡ key_text file.now (codes "unknown") key.now) }
{
    let mut text = Vec::from_slice(alloc, file.as_bytes())?;
    text.extend_from_slice(b": unknown key ")?;
    text.extend_from_slice(key)?;
    text.push(b'\n')?;
    Ok(text)
}

/// The text of a fault of a key.
fn key_text(alloc: Global, file: &str, fault: &str, key: &str) -> Result<Vec<u8>, AllocError>
    ensures { IfOk result (λ text. text.items ≡ key_text file.now fault.now key.now) }
{
    let text = format!(in alloc; "{file}: {fault} key {key}\n")?;
    Ok(text.into_bytes())
}

/// The text of a file that holds no description.
fn desc_text(alloc: Global, fault: &DescFault) -> Result<Vec<u8>, AllocError>
    ensures { IfOk result (λ text. text.items ≡ answer_text (Answer.BadDesc fault.now)) }
{
    let file = "description";
    match fault {
        DescFault::NotToml => not_toml_text(alloc, file),
        DescFault::Unknown(key) => unknown_text(alloc, file, key.as_slice()),
        DescFault::Missing(key) => key_text(alloc, file, "missing", key.name()),
        DescFault::WrongKind(key) => key_text(alloc, file, "wrong kind of", key.name()),
        DescFault::OutOfRange(key) => key_text(alloc, file, "out of range", key.name()),
    }
}

/// The text of a fault of a ring's place in memory, which is reported as one of a geometry.
fn ring_place_text(alloc: Global, fault: BuildFault) -> Result<Vec<u8>, AllocError>
    ensures { IfOk result (λ text. text.items ≡ ring_place_text fault) }
{
    let text = format!(in alloc; "ring: {fault}\n")?;
    Ok(text.into_bytes())
}

/// The text of a file that describes no ring.
fn ring_text(alloc: Global, fault: &RingFault) -> Result<Vec<u8>, AllocError>
    ensures { IfOk result (λ text. text.items ≡ answer_text (Answer.BadRing fault.now)) }
{
    let file = "ring";
    let place = match fault {
        RingFault::NotToml => return not_toml_text(alloc, file),
        RingFault::Unknown(key) => return unknown_text(alloc, file, key.as_slice()),
        RingFault::Missing(key) => return key_text(alloc, file, "missing", key.name()),
        RingFault::WrongKind(key) => return key_text(alloc, file, "wrong kind of", key.name()),
        RingFault::OutOfRange(key) => return key_text(alloc, file, "out of range", key.name()),
        RingFault::PageUnaligned(number) => BuildFault::PageUnaligned(*number),
        RingFault::PageTwice(number) => BuildFault::PageTwice(*number),
        RingFault::TooFewPages { need, have } => BuildFault::TooFewPages {
            need: *need,
            have: *have,
        },
        RingFault::ProgramBase => BuildFault::ProgramBase,
        RingFault::ProgramOnPage => BuildFault::ProgramOnPage,
    };
    ring_place_text(alloc, place)
}

/// The text of a geometry that has a fault.
fn geometry_text(alloc: Global, fault: BuildFault) -> Result<Vec<u8>, AllocError>
    ensures { IfOk result (λ text. text.items ≡ answer_text (Answer.BadGeometry fault)) }
{
    let text = format!(in alloc; "geometry: {fault}\n")?;
    Ok(text.into_bytes())
}

/// The text of two descriptions that make no chain.
fn chain_text(alloc: Global, fault: ChainFault) -> Result<Vec<u8>, AllocError>
    ensures { IfOk result (λ text. text.items ≡ answer_text (Answer.BadChain fault)) }
{
    let text = format!(in alloc; "chain: {fault}\n")?;
    Ok(text.into_bytes())
}

/// What is reported of a text that is no listing of a program.
fn listing_text(alloc: Global, fault: AsmFault) -> Result<Vec<u8>, AllocError>
    ensures { IfOk result (λ text. text.items ≡ answer_text (Answer.BadText fault)) }
{
    let text = format!(in alloc; "listing: {fault}\n")?;
    Ok(text.into_bytes())
}

/// The text of a refusal.
#[derive(Drop)]
pub enum RefusalText<'a> {
    /// It is ready, so that it can be printed where no memory is left.
    Ready(&'a str),
    /// It was made, and takes no memory.
    Short(ShortText),
    /// It was made.
    Made(Vec<u8>),
}

impl RefusalText<'_> {
    /// The bytes of the text.
    pub fn as_bytes(&self) -> &[u8]
        ensures { result.now ≡ refusal_bytes self.now }
    {
        match self {
            RefusalText::Ready(text) => text.as_bytes(),
            RefusalText::Short(text) => text.as_str().as_bytes(),
            RefusalText::Made(text) => text.as_slice(),
        }
    }
}

/// The text of a refusal: that of the answer that it becomes. The error is out of memory; the texts of `ReadFault` and of
/// `NoMemory` take no memory, and that of `Differs` was made before.
pub fn refusal_text(alloc: Global, refusal: &Refusal) -> Result<RefusalText<'_>, AllocError>
    ensures text { IfOk result (λ text. refusal_bytes text ≡ answer_text (answer_of refusal.now)) }
    ensures takes { IfErr result (λ _. TakesMemory refusal.now) }
{
    let text = match refusal {
        Refusal::ReadFault => return Ok(RefusalText::Ready(READ_FAULT)),
        Refusal::NoMemory => return Ok(RefusalText::Ready(NO_MEMORY)),
        Refusal::Differs(text) => return Ok(RefusalText::Ready(text.as_str())),
        Refusal::Malformed(input, fault) => {
            return Ok(RefusalText::Short(malformed_text(*input, *fault)));
        }
        Refusal::BadDesc(fault) => desc_text(alloc, fault)?,
        Refusal::BadGeometry(fault) => geometry_text(alloc, *fault)?,
        Refusal::BadChain(fault) => chain_text(alloc, *fault)?,
        Refusal::BadRing(fault) => ring_text(alloc, fault)?,
        Refusal::BadText(fault) => listing_text(alloc, *fault)?,
        Refusal::Rejected { at, nth, cause } => rejected_text(alloc, *at, *nth, *cause)?,
    };
    Ok(RefusalText::Made(text))
}
