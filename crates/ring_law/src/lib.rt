//! The law of block rings: whatever the schedule and the history, at each block end of a ring run the block holds its
//! lines, and the RISC status is the number of the block (this project's own form). The functions do nothing; their contracts
//! are the laws.
#![tactic(auto)]

ghost use Rattle.machine_model.specs.Safety.{IsStep};
ghost use Rattle.std.specs.Prelude.{All, ◌≡◌, ◌∷◌, [], Some};
ghost use Rattle.ring_law.specs.Laws.{RingsShowTheirBlocks, RingsShowNoFault};
ghost use Rattle.ring_law.specs.Runs.{EndsBlockAt, RunShowsBlocks, RunShowsNoFault, TurnsSeenEndBlocks, BlocksSeenAreEnded};
ghost use Rattle.ring_law.specs.RingRuns.{held};
ghost use Rattle.ring_law.specs.Worked.{run_steps, three_steps, three_whole, two_whole};
ghost use Rattle.ring_model.specs.Worked.{two_lines};

/// After each block end of a ring run RISCI is set and the RISC status is the block's number, which is the number of the
/// block end among the blocks. The block holds the bytes of its lines, each other block those of its last block end or what
/// it held when the machine waited in the SYNC, and every other byte is as it was then.
pub fn rings_show_their_blocks()
    ensures { RingsShowTheirBlocks }
{}

/// No turn up to a block end sets FDSR, also where the bit is set already.
pub fn rings_show_no_fault()
    ensures { RingsShowNoFault }
{}

/// The same over the places of a run of a ring's program from the machine's first state, whatever its history: where a
/// ring run goes from place j up to and with step k.
pub fn runs_show_their_blocks()
    ensures shown { RunShowsBlocks }
    ensures quiet { RunShowsNoFault }
{}

/// The block ends are those that are seen of the turns: an instruction that retires at an address where a block ends.
pub fn block_ends_are_seen()
    ensures turn { TurnsSeenEndBlocks }
    ensures counted { BlocksSeenAreEnded }
{}

/// The premises of these laws can be met: a run of two block ends does, behind an entry that comes before FM1, with a third
/// line of which the end is still to come. With that end it goes on to a third block end: the first block is filled a
/// second time, and holds the third line.
pub fn worked_ring_run_ends_its_blocks()
    ensures twice { EndsBlockAt two_lines two_whole run_steps 1 17 1 }
    ensures again { EndsBlockAt two_lines three_whole three_steps 1 23 0 }
    ensures steps { (All IsStep run_steps) × (All IsStep three_steps) }
    ensures filled { held two_lines three_whole 0 3 ≡ Some (0x30 ∷ 0x31 ∷ 0x32 ∷ 0x33 ∷ 0x34 ∷ 0x35 ∷ 0x36 ∷ 0x37 ∷ []) }
{}
