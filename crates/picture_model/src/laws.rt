//! Laws of descriptions whose geometry has no fault. The functions do nothing; their contracts are the
//! laws.

ghost use Rattle.std.specs.Prelude.{◌≡◌, ◌↔◌, ℕ, ◌+◌, ◌*◌, ◌/◌, ◌<◌, ◌++◌, false, true, None, Some, List, length};
ghost use Rattle.std.specs.Int.{div_ceil};
ghost use Rattle.std.specs.List.{All};
ghost use Rattle.capture_desc.specs.declared.desc.Desc.{Desc};
ghost use Rattle.clip_spans.specs.Runs.{AreRunsFrom};
ghost use Rattle.machine_model.specs.Paths.{IsProgram, IsSound};
ghost use Rattle.page_table.specs.Grants.{granted};
ghost use Rattle.pixel_layout.specs.declared.Parity.{Parity};
ghost use Rattle.risc_word.specs.Words.{encoded};
ghost use Rattle.picture_model.specs.declared.Piece.{Piece};
ghost use Rattle.picture_model.specs.Described.{IsDescription, both, chroma_height, describes, layout_of, memory_of, plane_row_bytes};
ghost use Rattle.picture_model.specs.Geometry.{IsFrame, IsValid};
ghost use Rattle.picture_model.specs.Places.{Byte, HasPlane, IsByte, byte_clipped, byte_place};
ghost use Rattle.picture_model.specs.Plans.{CoverSafely, IsPlan, IsRowCut, IsVbiCut, cuts_of, grain_bytes, grain_clipped, grains_of};
ghost use Rattle.picture_model.specs.Plans.{row_plan, row_strip, skipped_plan, skipped_strip, skipped_vbi_plan, skipped_vbi_strip};
ghost use Rattle.picture_model.specs.Plans.{vbi_plan, vbi_strip};
ghost use Rattle.picture_model.specs.Programs.{Stands, closing, closing_begin, compiled, compiled_words, field_words, opening, section};
ghost use Rattle.picture_model.specs.Programs.{section_begin, section_next, sections, sections_words, vbi_words, words_of};

/// Each row, each VBI line and each skipped line of either kind has exactly one plan, the one that is computed.
pub fn every_line_has_one_plan()
    ensures row { (d : Desc) (row : ℕ) (pieces : List Piece) → IsDescription d → IsFrame d → row < d.height →
        (IsPlan (memory_of d) (row_strip d row) pieces ↔ (pieces ≡ row_plan d row)) }
    ensures skipped { (d : Desc) (pieces : List Piece) → (IsPlan (memory_of d) (skipped_strip d) pieces ↔ (pieces ≡ skipped_plan d)) }
    ensures skipped_vbi { (d : Desc) (pieces : List Piece) →
        (IsPlan (memory_of d) (skipped_vbi_strip d) pieces ↔ (pieces ≡ skipped_vbi_plan d)) }
    ensures vbi { (d : Desc) (field : Parity) (line : ℕ) (pieces : List Piece) → IsDescription d → IsFrame d →
        describes d.fields field ≡ true → line < d.vbi_lines →
        (IsPlan (memory_of d) (vbi_strip d field line) pieces ↔ (pieces ≡ vbi_plan d field line)) }
{}

/// The spans that a row is cut by are its maximal segments of clipped and of unclipped grains, in order
/// and without a gap.
pub fn rows_are_cut_by_segments()
    ensures { (d : Desc) (row : ℕ) → IsDescription d → IsFrame d →
        AreRunsFrom (grain_clipped d row) (grains_of (layout_of d) d.width) 0 (row_strip d row).spans }
{}

/// The grains of a row are its bytes on each plane, and a byte is clipped with its grain.
pub fn grains_are_the_bytes_of_rows()
    ensures bytes { (d : Desc) (plane : ℕ) → HasPlane d plane →
        grains_of (layout_of d) d.width * grain_bytes (layout_of d) plane ≡ plane_row_bytes d plane }
    ensures clipped { (d : Desc) (plane row grain part : ℕ) → HasPlane d plane → part < grain_bytes (layout_of d) plane →
        byte_clipped d plane row (grain * grain_bytes (layout_of d) plane + part) ≡ grain_clipped d row grain }
{}

/// The cuts of each line cover it in order and without a gap, move at most 4,092 bytes of a plane each,
/// and what one writes on a plane lies in one chunk and is granted.
pub fn cuts_cover_their_lines()
    ensures row { (d : Desc) (row : ℕ) → IsDescription d → IsFrame d → row < d.height →
        CoverSafely (memory_of d) (row_strip d row) (cuts_of (memory_of d) (row_strip d row) (row_strip d row).spans) }
    ensures skipped { (d : Desc) → IsDescription d → IsFrame d →
        CoverSafely (memory_of d) (skipped_strip d) (cuts_of (memory_of d) (skipped_strip d) (skipped_strip d).spans) }
    ensures skipped_vbi { (d : Desc) → IsDescription d → IsFrame d →
        CoverSafely (memory_of d) (skipped_vbi_strip d) (cuts_of (memory_of d) (skipped_vbi_strip d) (skipped_vbi_strip d).spans) }
    ensures vbi { (d : Desc) (field : Parity) (line : ℕ) → IsDescription d → IsFrame d → describes d.fields field ≡ true →
        line < d.vbi_lines →
        CoverSafely (memory_of d) (vbi_strip d field line) (cuts_of (memory_of d) (vbi_strip d field line) (vbi_strip d field line).spans) }
{}

/// The grains of a cut of a row are clipped exactly where the cut is, and what an unclipped cut writes is
/// at the places of its bytes. The same holds of the cuts of a VBI line, of which none is clipped.
pub fn cuts_write_the_picture()
    ensures row { (d : Desc) (row : ℕ) → IsDescription d → IsFrame d → row < d.height →
        All (IsRowCut d row) (cuts_of (memory_of d) (row_strip d row) (row_strip d row).spans) }
    ensures vbi { (d : Desc) (field : Parity) (line : ℕ) → IsDescription d → IsFrame d → describes d.fields field ≡ true →
        line < d.vbi_lines →
        All (IsVbiCut d field line) (cuts_of (memory_of d) (vbi_strip d field line) (vbi_strip d field line).spans) }
{}

/// Where a description gives no first chroma row, a plane of chroma has one row for each step down of a field's rows, rounded
/// up, and with two fields twice as many as for one of them.
pub fn chroma_has_a_row_for_each_step_by_default()
    ensures one { (d : Desc) → IsDescription d → IsFrame d → d.chroma_first ≡ None → (layout_of d).planar ≡ true → both d ≡ false →
        chroma_height d ≡ div_ceil d.height (layout_of d).down }
    ensures two { (d : Desc) → IsDescription d → IsFrame d → d.chroma_first ≡ None → (layout_of d).planar ≡ true → both d ≡ true →
        chroma_height d ≡ 2 * div_ceil (d.height / 2) (layout_of d).down }
{}

/// Each byte of a picture and of its VBI lines that is kept lies at an address that the program may
/// write, and no two of them at the same.
pub fn places_are_granted_and_differ()
    ensures granted { (d : Desc) (byte : Byte) (address : ℕ) → IsDescription d → IsFrame d → IsByte d byte →
        byte_place d byte ≡ Some address → granted (compiled d).grants address ≡ true }
    ensures differ { (d : Desc) (byte other : Byte) (address : ℕ) → IsDescription d → IsFrame d → IsByte d byte → IsByte d other →
        byte_place d byte ≡ Some address → byte_place d other ≡ Some address → byte ≡ other }
{}

/// The sections of the described fields, set up from an address on, are where `section_begin` has them,
/// each with its closing at its end. The words of a section are those of its opening, its VBI part, its
/// picture part and its closing.
pub fn sections_stand_in_their_program()
    ensures parts { (d : Desc) (field : Parity) (target : ℕ) →
        words_of (section d field target)
        ≡ encoded (opening field) ++ vbi_words d field ++ field_words d field ++ encoded (closing field target) }
    ensures whole { (d : Desc) (from last : ℕ) (field : Parity) → describes d.fields field ≡ true →
        Stands (words_of (sections d from last)) from (words_of (section d field (section_next d from last field)))
        (section_begin d from field) }
    ensures closing { (d : Desc) (from last : ℕ) (field : Parity) → describes d.fields field ≡ true →
        Stands (words_of (sections d from last)) from (encoded (closing field (section_next d from last field)))
        (closing_begin d from field) }
{}

/// The sections have as many words wherever they are and wherever the last leads back: fewer than
/// 500,000 where the frame is right.
pub fn sections_are_as_long_anywhere()
    ensures few { (d : Desc) (at back : ℕ) → IsDescription d → IsFrame d → length (sections_words d at back) < 500000 }
    ensures same { (d : Desc) (at back other last : ℕ) → length (sections_words d at back) ≡ length (sections_words d other last) }
{}

/// The program of a description is sound: its path has no fault.
pub fn compiled_programs_are_sound()
    ensures { (d : Desc) → IsDescription d → IsFrame d → IsSound (compiled d) }
{}

/// The program of a description whose frame is right has fewer than 500,000 words, and where the
/// description has no fault at all, it is a program.
pub fn compiled_programs_can_be_made()
    ensures words { (d : Desc) → IsDescription d → IsFrame d → length (compiled_words d) < 500000 }
    ensures program { (d : Desc) → IsDescription d → IsValid d → IsProgram (compiled d) }
{}
