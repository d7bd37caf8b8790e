//! Laws of rings without a fault. The functions do nothing; their contracts are the laws.

ghost use Rattle.std.specs.Prelude.{◌≡◌, ◌≤◌, ◌<◌, ℕ, List, [], ◌∷◌, Some, None, length, map};
ghost use Rattle.machine_model.specs.Paths.{IsProgram, IsSound, max_words};
ghost use Rattle.ring_model.specs.Rings.{IsPlaced, IsRing, Ring, ends, ring_program, ring_words};
ghost use Rattle.ring_model.specs.Runs.{block_ends};
ghost use Rattle.ring_model.specs.Worked.{after, machine, steps, two_lines};
ghost use Rattle.page_table.specs.Blocks.{byte_at};

/// The program of a ring is sound: its path has no fault.
pub fn ring_programs_are_sound()
    ensures { (r : Ring) → IsRing r → IsSound (ring_program r) }
{}

/// The program of a ring has no more words than a program may have, and where the ring's place has no fault, it is a
/// program.
pub fn ring_programs_can_be_made()
    ensures words { (r : Ring) → IsRing r → length (ring_words r) ≤ max_words }
    ensures program { (r : Ring) → IsRing r → IsPlaced r → IsProgram (ring_program r) }
{}

/// The worked ring of two blocks: its words, where its blocks end, and its runs of 10 and of 15 turns over three lines.
pub fn worked_ring_runs()
    ensures words { ring_words two_lines ≡ 0x80008006 ∷ 0 ∷ 0x1df00008 ∷ 0x20000 ∷ 0x1de10008 ∷ 0x20008 ∷ 0x70000000 ∷ 0x1008 ∷ [] }
    ensures ends { map (ends two_lines) (0x1000 ∷ 0x1008 ∷ 0x1010 ∷ 0x1018 ∷ []) ≡ None ∷ Some 0 ∷ Some 1 ∷ None ∷ [] }
    ensures two_blocks { block_ends (ends two_lines) machine (steps 10) ≡ 2 }
    ensures second_signals { (after 10).interrupts ≡ 0x10000800 }
    ensures two_moved { (after 10).moved ≡ 16 }
    ensures three_blocks { block_ends (ends two_lines) machine (steps 15) ≡ 3 }
    ensures third_signals { (after 15).interrupts ≡ 0x800 }
    ensures three_moved { (after 15).moved ≡ 24 }
    ensures first_holds_the_third_line { map (byte_at (after 15).memory) (0x20000 ∷ 0x20003 ∷ 0x20007 ∷ []) ≡ 0x30 ∷ 0x33 ∷ 0x37 ∷ [] }
    ensures second_holds_the_second_line { map (byte_at (after 15).memory) (0x20008 ∷ 0x2000b ∷ 0x2000f ∷ []) ≡ 0x20 ∷ 0x23 ∷ 0x27 ∷ [] }
{}
