//! Laws of the generated stream: each of its fields is a field of the picture that the generator drew, so the law of
//! the picture speaks of it. The functions do nothing; their contracts are the laws.
#![tactic(auto)]

ghost use Rattle.pixel_layout.specs.declared.Parity.TheVariants.{Top};
ghost use Rattle.picture_model.specs.Worked.{smallest};
ghost use Rattle.generated_law.specs.Drawn.{BringsPicture, CarriesDrawn, DrawsPicture};
ghost use Rattle.generated_law.specs.ReadBack.{AreReadBack, AreShort};
ghost use Rattle.generated_law.specs.Streams.{FieldsArrive, FieldsAreSignalled, FieldsStand, IsTaken, PicturesAreShown};

/// From any number of the generator on, what is pushed for a field of a description brings the picture that is drawn:
/// each line comes whole over its queue, with one start and one end, and has as many bytes as the description asks for.
/// In the order of the pushes these bytes are the generator's, one after another.
pub fn drawn_fields()
    ensures pictured { DrawsPicture }
    ensures brought { BringsPicture }
    ensures drawn { CarriesDrawn }
{}

/// Each field of a stream is at its place among the steps. It arrives, with its picture, at a machine that waits for it
/// while its pushes come, where no push is lost. In a run of the compiled program that signals it, its picture is shown.
pub fn generated_fields_arrive()
    ensures stand { FieldsStand }
    ensures arrive { FieldsArrive }
    ensures signalled { FieldsAreSignalled }
    ensures shown { PicturesAreShown }
{}

/// The bytes of a generated stream of at most 16 frames are those of a stream file without a fault, of allowed length, and
/// stand for the steps of these laws: each push, and 16 turns after it.
pub fn generated_streams_are_read_back()
    ensures read { AreReadBack }
    ensures short { AreShort }
{}

/// The premises of these laws can be met: in a run of the generated stream of the smallest description, with the seed 1,
/// the machine waits for its field from place 2 on, and step 54 signals it.
pub fn the_smallest_field_is_signalled()
    ensures { IsTaken smallest 1 1 0 Top 0 2 54 }
{}
