//! Laws of the file forms.

ghost use Rattle.capture_file.specs.Images.{image_of};
ghost use Rattle.capture_file.specs.Programs.{HasFault, HasProgram, program_of, spelled};
ghost use Rattle.capture_file.specs.Streams.{GoesOn, steps_of, stream_of};
ghost use Rattle.capture_file.specs.declared.program.ProgramFile.{ProgramFile};
ghost use Rattle.machine_model.specs.Paths.{IsProgram, RiscProgram};
ghost use Rattle.page_table.specs.Blocks.{AreBlocks, Block};
ghost use Rattle.std.specs.Prelude.{◌≡◌, ◌⊎◌, ◌++◌, ◌<◌, Bool, IsErr, IsOk, List, ℕ, Ok, slice_index};

/// Each program, with a fill, has exactly one file, its canonical encoding: the file is read as the program, and bytes
/// that are read as it are the file. What is read is a program that can be made.
pub fn one_spelling()
    ensures read { (program : RiscProgram) (fill : ℕ) → IsProgram program
        → program_of (spelled program fill) ≡ Ok (record { program = program; fill = fill }) }
    ensures only { (bytes : List ℕ) (file : ProgramFile) → ((i : ℕ) → slice_index bytes i < 256)
        → program_of bytes ≡ Ok file → bytes ≡ spelled file.program file.fill }
    ensures made { (bytes : List ℕ) (file : ProgramFile) → ((i : ℕ) → slice_index bytes i < 256)
        → program_of bytes ≡ Ok file → IsProgram file.program }
{}

/// A file has a value or a first fault, and never both. Bytes that have no fault as a program file are
/// the canonical encoding of a program.
pub fn value_or_fault()
    ensures program { (bytes : List ℕ) → ((i : ℕ) → slice_index bytes i < 256) → HasProgram bytes ⊎ HasFault bytes }
    ensures no_program_at_fault { (bytes : List ℕ) → HasProgram bytes → HasFault bytes → ⊥ }
    ensures stream { (limit : ℕ) (chained : Bool) (bytes : List ℕ)
        → IsOk (steps_of limit chained bytes) ⊎ IsErr (steps_of limit chained bytes) }
    ensures no_stream_at_fault { (limit : ℕ) (chained : Bool) (bytes : List ℕ)
        → IsOk (steps_of limit chained bytes) → IsErr (steps_of limit chained bytes) → ⊥ }
{}

/// The steps that a stream's first bytes give stay whatever follows, and so does a fault.
pub fn stream_goes_on()
    ensures { (limit : ℕ) (chained : Bool) (bytes more : List ℕ)
        → GoesOn (stream_of limit chained bytes) (stream_of limit chained (bytes ++ more)) }
{}

/// Each memory has exactly one image, and no other memory has it.
pub fn one_image()
    ensures { (memory other : List Block) → AreBlocks memory → AreBlocks other
        → image_of memory ≡ image_of other → memory ≡ other }
{}
