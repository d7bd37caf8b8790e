//! What a command makes of its inputs, and how it is delivered.

ghost use Rattle.std.specs.Prelude.{[], ◌∷◌};
ghost use Rattle.bt878_contract.specs.Tasks.{AreAllowed};
ghost use Rattle.bt878_top.specs.Contents.{bytes_of};
ghost use Rattle.bt878_top.specs.Products.{files_of, product_of};
ghost use Rattle.capture_desk.specs.Desks.{IsAllowed};
ghost use Rattle.capture_file.specs.Images.{image_of};
ghost use Rattle.capture_file.specs.Programs.{spelled};
ghost use Rattle.command_steps.specs.Outputs.{Finishes, names_of};

use crate::contents::{Contents, Frames};
use crate::listings::{Listed, say_whole};
use crate::runs::say_rows;
use crate::traces::say_trace;
use capture_desk::Desk;
use command_steps::{Output, finish};
use command_texts::{Answer, CheckText, ShortText};
use damage_map::Track;
use dma_machine::Machine;
use machine_watch::Watched;
use page_ram::PageRam;
use program_build::Checked;
use risc_verify::Program;
use slot_chain::DoubleBuffer;
use trace_play::StreamTrace;

/// The outputs of a command, each with its name.
#[derive(Drop)]
pub enum Outputs<'a> {
    /// The program file of a program and of the byte that fills its memory.
    Program {
        name: &'a str,
        program: Program,
        fill: u8,
    },
    /// The stream that a seed generates for a description.
    Stream {
        name: &'a str,
        checked: Checked,
        seed: u64,
        frames: Frames,
    },
    /// The image of a machine's memory.
    Image {
        name: &'a str,
        machine: Machine<PageRam>,
    },
    /// The program file of the program that a machine ran, and the image of its memory.
    ProgramAndImage {
        program: &'a str,
        fill: u8,
        image: &'a str,
        machine: Machine<PageRam>,
    },
    /// The image of the memory of a chain.
    ChainImage {
        name: &'a str,
        buffer: DoubleBuffer<PageRam>,
    },
}

/// What a command makes of its inputs.
#[derive(Drop)]
pub enum Produced<'a> {
    /// A text that is ready.
    Ready(&'static str),
    /// What is found of the fields of a description.
    Checked(CheckText),
    /// A listing, which is printed piece by piece.
    Listing(Listed),
    /// A trace, which is printed piece by piece.
    Traced(StreamTrace<PageRam>),
    /// Which rows of a description are whole; the text is made where it is printed.
    Damaged {
        checked: Checked,
        map: Watched<PageRam, Track>,
    },
    /// Outputs, and a text.
    Files {
        outputs: Outputs<'a>,
        text: ShortText,
    },
}

impl Outputs<'_> {
    /// Writes the outputs, one after the other, prints a text, and answers `Done`. Where a call fails it answers
    /// `WriteFault`, and no call follows.
    fn deliver<D: Desk>(&self, text: &str, desk: &mut D) -> Answer
        requires { AreAllowed (names_of (files_of self.now)) (D.seen desk.old).told.may_create }
        ensures { Finishes (files_of self.now) text.now result (D.seen desk.old) (D.seen desk.new) }
    {
        match self {
            Outputs::Program {
                name,
                program,
                fill,
            } => one_output(*name, Contents::Program(program, *fill), text, desk),
            Outputs::Stream {
                name,
                checked,
                seed,
                frames,
            } => one_output(
                *name,
                Contents::Stream(checked.frame(), *seed, frames),
                text,
                desk,
            ),
            Outputs::Image { name, machine } => one_output(
                *name,
                Contents::Image(machine.ram()),
                text,
                desk,
            ),
            Outputs::ProgramAndImage {
                program,
                fill,
                image,
                machine,
            } => program_and_image(*program, *fill, *image, machine, text, desk),
            Outputs::ChainImage { name, buffer } => one_output(
                *name,
                Contents::Image(buffer.ram()),
                text,
                desk,
            ),
        }
    }
}

impl Produced<'_> {
    /// Writes the outputs of a command, one after the other, prints its text, and answers `Done`. Where a call
    /// fails it answers `WriteFault`, and no call follows.
    pub fn deliver<D: Desk>(self, desk: &mut D) -> Answer
        requires { AreAllowed (names_of (product_of self).files) (D.seen desk.old).told.may_create }
        ensures { Finishes (product_of self.entry).files (product_of self.entry).text result (D.seen desk.old) (D.seen desk.new) }
    {
        match self {
            Produced::Ready(text) => say_alone(text, desk),
            Produced::Checked(text) => say_alone(text.as_str(), desk),
            Produced::Listing(listed) => say_whole(&listed, desk),
            Produced::Traced(mut trace) => say_trace(&mut trace, desk),
            Produced::Damaged { checked, map } => say_rows(&checked, &map, desk),
            Produced::Files { outputs, text } => outputs.deliver(text.as_str(), desk),
        }
    }
}

/// Prints a text, where there is no output.
pub fn say_alone<D: Desk>(text: &str, desk: &mut D) -> Answer
    ensures { Finishes [] text.now result (D.seen desk.old) (D.seen desk.new) }
{
    let outputs: [Output<Contents>; 0] = [];
    finish(&outputs, text, desk)
}

/// Writes one output and prints a text.
fn one_output<D: Desk>(name: &str, content: Contents<'_>, text: &str, desk: &mut D) -> Answer
    requires { IsAllowed name.now (D.seen desk.old).told.may_create }
    ensures { Finishes ((name.now, bytes_of content.entry) ∷ []) text.now result (D.seen desk.old) (D.seen desk.new) }
{
    finish(&[Output { name, content }], text, desk)
}

/// Writes the program that a machine ran and the image of its memory, and prints a text.
fn program_and_image<D: Desk>(
    program: &str,
    fill: u8,
    image: &str,
    machine: &Machine<PageRam>,
    text: &str,
    desk: &mut D,
) -> Answer
    requires program { IsAllowed program.now (D.seen desk.old).told.may_create }
    requires image { IsAllowed image.now (D.seen desk.old).told.may_create }
    ensures { Finishes ((program.now, spelled machine.now.program fill) ∷ (image.now, image_of machine.now.memory) ∷ []) text.now result
        (D.seen desk.old) (D.seen desk.new) }
{
    let outputs = [
        Output {
            name: program,
            content: Contents::Program(machine.program(), fill),
        },
        Output {
            name: image,
            content: Contents::Image(machine.ram()),
        },
    ];
    finish(&outputs, text, desk)
}
