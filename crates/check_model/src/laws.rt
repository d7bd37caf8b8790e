//! Worked programs, and what is reported of them. The functions do nothing; their contracts are the laws.

ghost use Rattle.std.specs.Prelude.{◌≡◌, ◌∷◌, ◌++◌, [], codes, false, true};
ghost use Rattle.risc_word.specs.declared.Code.TheVariants.{Fm1, Fm3, Vre, Vro};
ghost use Rattle.risc_word.specs.declared.Instr.TheVariants.{Skip123, Write, Write123, WriteC};
ghost use Rattle.pixel_layout.specs.declared.Parity.TheVariants.{Top};
ghost use Rattle.picture_model.specs.Programs.{closing, compiled, no_control, sync};
ghost use Rattle.picture_model.specs.Worked.{smallest};
ghost use Rattle.check_model.specs.Texts.{check_text};
ghost use Rattle.check_model.specs.Worked.{around, chroma_alone, chroma_row, first, inner, jump, last, line, luma_row, of_bottom};
ghost use Rattle.check_model.specs.Worked.{of_planar, of_smallest, opened_to, planar, planar_body, skip, whole, write};

/// The compiled program of a description shows its field. So do programs that cut a line elsewhere, that have JUMPs between,
/// whose field ends at the next one's SYNC, or that take luma and chroma one after the other. Of several openings the first
/// that shows the field counts.
pub fn worked_programs_are_shown()
    ensures compiled { check_text (compiled smallest) smallest
        ≡ codes "top: shown from 00001000 to 00001018, 2 instructions, jump irq set=1 reset=e\n" }
    ensures planar { check_text (compiled planar) planar
        ≡ codes "top: shown from 00001000 to 0000104c, 7 instructions, jump irq set=1 reset=e\n" }
    ensures cut { of_smallest (line (write first 3 0x20000 ∷ skip whole 0 ∷ write last 5 0x20003 ∷ [])) ≡
        codes "shown from 00001000 to 00001024, 4 instructions, jump irq set=1 reset=e" }
    ensures jumps { of_smallest
        (opened_to true (sync false Fm1 ∷ jump 0x1018 ∷ write whole 8 0x20000 ∷ jump 0x1028 ∷ jump 0x1000 ∷ []) (jump 0x1020)) ≡
        codes "shown from 00001000 to 00001020, 3 instructions, jump" }
    ensures next { of_smallest (opened_to true (sync false Fm1 ∷ write whole 8 0x20000 ∷ sync true Vro ∷ []) (jump 0x1000)) ≡
        codes "shown from 00001000 to 00001018, 2 instructions, sync" }
    ensures apart { of_planar (planar_body (write whole 10 0x20000 ∷ chroma_alone ∷ luma_row ∷ [])) ≡
        codes "shown from 00001000 to 00001054, 8 instructions, jump irq set=1 reset=e" }
    ensures second { of_smallest (sync false Vre ∷ line (write whole 8 0x20000 ∷ [])) ≡
        codes "shown from 00001008 to 00001020, 2 instructions, jump irq set=1 reset=e" }
{}

/// What is reported of an opening that is missing or wrong, and of a field that doesn't end.
pub fn worked_openings_and_ends_differ()
    ensures none { of_smallest (sync true Vro ∷ sync false Fm1 ∷ write whole 8 0x20000 ∷ closing Top 0x1000 ∷ [])
        ≡ codes "differs at 00001000: no sync vre" }
    ensures no_resync { of_smallest (opened_to false (sync false Fm1 ∷ write whole 8 0x20000 ∷ []) (jump 0x1000))
        ≡ codes "differs at 00001000: no resync" }
    ensures endless { of_smallest (opened_to true (sync false Fm1 ∷ jump 0x1018 ∷ []) (jump 0x1010))
        ≡ codes "differs at 00001018: no next field" }
    ensures endless_behind { of_smallest (opened_to true (sync false Fm1 ∷ write whole 8 0x20000 ∷ []) (jump 0x1018)) ≡
        codes "differs at 00001018: no next field" }
    ensures behind { of_smallest (line (write whole 8 0x20000 ∷ skip inner 0 ∷ [])) ≡ codes "differs at 00001018: nothing awaited" }
    ensures short { of_smallest (line (write first 3 0x20000 ∷ [])) ≡ codes "differs at 00001000: row 0, queue 1: byte 3 awaited" }
{}

/// What is reported of an instruction that asks for something else than the line.
pub fn worked_lines_differ()
    ensures write_c { of_smallest (line (write first 3 0x20000 ∷ WriteC no_control last 0 5 ∷ [])) ≡ codes "differs at 00001018: writec" }
    ensures lanes { of_smallest (line (Write no_control whole 1 8 0x20000 ∷ [])) ≡ codes "differs at 00001010: lanes off" }
    ensures no_code { of_smallest (around (write whole 8 0x20000 ∷ [])) ≡ codes "differs at 00001008: sync fm1 awaited" }
    ensures code { of_smallest (around (sync false Fm3 ∷ write whole 8 0x20000 ∷ [])) ≡ codes "differs at 00001008: sync fm1 awaited" }
    ensures place { of_smallest (line (write first 3 0x20000 ∷ write last 5 0x20004 ∷ [])) ≡
        codes "differs at 00001018: row 0, queue 1: byte 3 at 00020003 awaited" }
    ensures taken { of_smallest (line (write first 3 0x20000 ∷ skip last 5 ∷ []))
        ≡ codes "differs at 00001018: row 0, queue 1: byte 3 at 00020003 awaited" }
    ensures two_sols { of_smallest (line (write first 3 0x20000 ∷ write whole 5 0x20003 ∷ [])) ≡
        codes "differs at 00001018: row 0, queue 1: no sol awaited at byte 3" }
    ensures no_sol { of_smallest (line (write last 8 0x20000 ∷ [])) ≡ codes "differs at 00001010: row 0, queue 1: sol awaited" }
    ensures long { of_smallest (line (write whole 9 0x20000 ∷ [])) ≡ codes "differs at 00001010: queue 1: nothing awaited" }
    ensures no_eol { of_smallest (line (write first 8 0x20000 ∷ [])) ≡ codes "differs at 00001010: row 0, queue 1: eol awaited" }
    ensures early { of_smallest (line (write whole 3 0x20000 ∷ write last 5 0x20003 ∷ []))
        ≡ codes "differs at 00001010: row 0, queue 1: eol at byte 2 of 8" }
{}

/// What is reported of the lines of the vertical blanking interval, of skipped lines and of queues 2 and 3.
pub fn worked_planar_lines_differ()
    ensures vbi { of_planar (line (skip whole 5 ∷ write whole 5 0x2001f ∷ []))
        ≡ codes "differs at 00001014: vbi 0, queue 1: byte 0 at 0002001e awaited" }
    ensures skipped_vbi { of_planar (line (write whole 5 0x2001e ∷ [])) ≡
        codes "differs at 00001010: skipped vbi 0, queue 1: byte 0 without a place awaited" }
    ensures skipped { of_planar
        (line (skip whole 5 ∷ write whole 5 0x2001e ∷ sync false Fm3 ∷ Skip123 no_control whole (10 ∷ 4 ∷ 5 ∷ []) ∷ [])) ≡
        codes "differs at 00001024: skipped 0, queue 2: eol at byte 3 of 5" }
    ensures third { of_planar (planar_body (Write123 no_control whole 0 (10 ∷ 5 ∷ 5 ∷ []) (0x20000 ∷ 0x20014 ∷ 0x2001a ∷ []) ∷ [])) ≡
        codes "differs at 0000102c: row 0, queue 3: byte 0 at 00020019 awaited" }
    ensures chroma { of_planar
        (planar_body (chroma_row ∷ Write123 no_control whole 0 (10 ∷ 5 ∷ 5 ∷ []) (0x2000a ∷ 0x20014 ∷ 0x20019 ∷ []) ∷ [])) ≡
        codes "differs at 00001040: row 1, queue 2: byte 0 without a place awaited" }
    ensures short { of_planar (planar_body (chroma_row ∷ [])) ≡ codes "differs at 00001000: row 1, queue 1: byte 0 awaited" }
{}

/// Rows are named as rows of the picture.
pub fn worked_rows_are_the_pictures()
    ensures shown { of_bottom (sync true Vro ∷ sync false Fm1 ∷ write whole 8 0x20008 ∷ jump 0x1000 ∷ [])
        ≡ codes "shown from 00001000 to 00001018, 2 instructions, jump" }
    ensures short { of_bottom (sync true Vro ∷ sync false Fm1 ∷ write first 3 0x20008 ∷ jump 0x1000 ∷ [])
        ≡ codes "differs at 00001000: row 1, queue 1: byte 3 awaited" }
{}
