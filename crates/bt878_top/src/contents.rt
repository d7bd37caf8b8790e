//! What the outputs of the commands hold.

ghost use Rattle.std.specs.Prelude.{◌≡◌, ◌≤◌};
ghost use Rattle.bt878_top.specs.Contents.{bytes_of};

use capture_desk::{Desk, Failed};
use capture_file::{write_image, write_program};
use command_steps::Content;
use field_stream::make;
use page_ram::PageRam;
use planar_plan::Frame;
use risc_verify::Program;
use std::marker::Model;

/// How many frames a generated stream has: 1 to 16.
#[derive(Drop)]
pub struct Frames {
    count: u8,
}

impl Model for Frames {
    ghost use Rattle.std.specs.Prelude.{ℕ, ◌≤◌};

    ghost Value = { ℕ };

    ghost view = { λ frames. frames.count };

    ghost invariant = { λ frames. (1 ≤ frames.count) × (frames.count ≤ 16) };
}

impl Frames {
    /// `count` frames, 1 to 16.
    pub fn new(count: u8) -> Frames
        requires { (1 ≤ count) × (count ≤ 16) }
        ensures { result ≡ count }
    {
        Frames { count }
    }

    /// How many frames, 1 to 16.
    pub fn count(&self) -> u8
        ensures value { result ≡ self.now }
        ensures range { (1 ≤ result) × (result ≤ 16) }
    {
        self.count
    }
}

/// What an output holds.
#[derive(Drop)]
pub enum Contents<'a> {
    /// The program file of a program and of the byte that fills its memory.
    Program(&'a Program, u8),
    /// The image of a memory.
    Image(&'a PageRam),
    /// The stream that a seed generates for a description, with so many frames.
    Stream(&'a Frame, u64, &'a Frames),
}

impl Content for Contents<'_> {
    ghost bytes = { bytes_of };

    fn put<D: Desk>(&self, desk: &mut D) -> Result<(), Failed> {
        match self {
            Contents::Program(program, fill) => write_program(program, *fill, desk),
            Contents::Image(ram) => write_image(*ram, desk),
            Contents::Stream(frame, seed, frames) => {
                match make(frame, *seed, frames.count(), desk) {
                    Ok(_) => Ok(()),
                    Err(failed) => Err(failed),
                }
            }
        }
    }
}
