//! The sections of a description's program, one for each described field.

ghost use Rattle.std.specs.Prelude.{◌≡◌, ◌++◌, ◌+◌, ◌*◌, ◌%◌, ◌^◌, ◌∷◌, ◌<◌, IfOk, IsTrue, OnOk, true};
ghost use Rattle.capture_desc.specs.declared.desc.Fields.TheVariants as fields;
ghost use Rattle.picture_model.specs.Described.{IsDescription, describes};
ghost use Rattle.picture_model.specs.Programs.{body, closing, opening, section, words_of};
ghost use Rattle.planar_plan.specs.Frames.{IsFramed};
ghost use Rattle.program_build.specs.Checks.{AreSections};
ghost use Rattle.risc_word.specs.Words.{fits};

use capture_desc::Fields;
use field_compile::{compile_field, push_instr, sync};
use picture_model::vertical;
use pixel_layout::Parity;
use planar_plan::Frame;
use risc_word::{Ctl, Instr};
use std::alloc::{AllocError, Global};
use vbi_compile::compile_vbi;

// The JUMP that closes a field's section: it interrupts, and leaves the RISC status 1 for the top field
// and 2 for the bottom one.
fn closing(field: Parity, target: u32) -> Instr
    ensures value { result ≡ closing field target }
    ensures fits { IsTrue (fits result) }
{
    let (set, reset) = match field {
        Parity::Top => (1, 14),
        Parity::Bottom => (2, 13),
    };
    let ctl = Ctl {
        irq: true,
        set,
        reset,
    };
    Instr::Jump { ctl, target }
}

// Appends a field's section, but for its closing.
fn push_body(
    alloc: Global,
    frame: &Frame,
    field: Parity,
    out: &mut Vec<u32>,
) -> Result<(), AllocError>
    requires { describes frame.now.fields field ≡ true }
    ensures words { OnOk result (out.new.items ≡ out.old.items ++ words_of (opening field ∷ body frame.now field)) }
    ensures description { OnOk result (IsDescription frame.now) }
{
    push_instr(&sync(true, vertical(field)), out)?;
    compile_vbi(alloc, frame, field, out)?;
    compile_field(alloc, frame, field, out)
}

// Appends a field's section, whose closing leads to an address.
fn push_section(
    alloc: Global,
    frame: &Frame,
    field: Parity,
    target: u32,
    out: &mut Vec<u32>,
) -> Result<(), AllocError>
    requires { describes frame.now.fields field ≡ true }
    ensures words { OnOk result (out.new.items ≡ out.old.items ++ words_of (section frame.now field target)) }
    ensures description { OnOk result (IsDescription frame.now) }
{
    push_body(alloc, frame, field, out)?;
    push_instr(&closing(field, target), out)
}

// The section of a description that has one field.
fn one_section(
    alloc: Global,
    frame: &Frame,
    field: Parity,
    back: u32,
) -> Result<Vec<u32>, AllocError>
    requires { describes frame.now.fields field ≡ true }
    ensures words { IfOk result (λ words. words.items ≡ words_of (section frame.now field back)) }
    ensures description { OnOk result (IsDescription frame.now) }
{
    let mut words = Vec::new(alloc);
    push_section(alloc, frame, field, back, &mut words)?;
    Ok(words)
}

// The address after a closing that follows so many words, modulo 2^32.
fn address_after(at: u32, words: usize) -> u32
    requires { words < 500000 }
    ensures { result ≡ (at + 4 * (words + 2)) % 2 ^ 32 }
{
    at.wrapping_add(4 * (words as u32 + 2))
}

// The sections of both fields: the top one leads to the bottom one, and this goes back.
fn both_sections(alloc: Global, frame: &Frame, at: u32, back: u32) -> Result<Vec<u32>, AllocError>
    requires both { frame.now.fields ≡ fields.Both }
    requires framed { IsFramed frame.now }
    ensures words { IfOk result (λ words. AreSections frame.now at back words.items) }
    ensures description { OnOk result (IsDescription frame.now) }
{
    let mut words = Vec::new(alloc);
    push_body(alloc, frame, Parity::Top, &mut words)?;
    let bottom = address_after(at, words.len());
    push_instr(&closing(Parity::Top, bottom), &mut words)?;
    push_section(alloc, frame, Parity::Bottom, back, &mut words)?;
    Ok(words)
}

/// The words of a frame's sections from the address `at` on, one section for each described field, the top one
/// first. A section has SYNC on the field's vertical code with RESYNC, the VBI part, the picture
/// part, and a JUMP that interrupts and leads to the next section, or from the last to the address `back`
/// (this project's own rule). Where the sections would end beyond 2^32, the answer has as many words as they
/// have.
pub fn sections_words(
    alloc: Global,
    frame: &Frame,
    at: u32,
    back: u32,
) -> Result<Vec<u32>, AllocError>
    ensures words { IfOk result (λ words. AreSections frame.now at back words.items) }
    ensures description { OnOk result (IsDescription frame.now) }
{
    match frame.desc().fields {
        Fields::Top => one_section(alloc, frame, Parity::Top, back),
        Fields::Bottom => one_section(alloc, frame, Parity::Bottom, back),
        Fields::Both => both_sections(alloc, frame, at, back),
    }
}
