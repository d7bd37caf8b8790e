//! Laws of the generated stream.

ghost use Rattle.std.specs.Prelude.{◌≡◌};
ghost use Rattle.field_stream.specs.Generator.{drawn, first_number};
ghost use Rattle.field_stream.specs.Made.{made, made_entries, made_fields};
ghost use Rattle.field_stream.specs.Worked.{first_eight, smallest_stream};
ghost use Rattle.picture_model.specs.Worked.{smallest};

/// The definitions compute: the first bytes that are drawn with the seed 1, and the whole stream of the
/// smallest description.
pub fn the_smallest_stream()
    ensures bytes { drawn (first_number 1) 8 ≡ first_eight }
    ensures stream { made smallest 1 1 ≡ smallest_stream }
    ensures fields { made_fields smallest 1 ≡ 1 }
    ensures entries { made_entries smallest 1 ≡ 2 }
{}
