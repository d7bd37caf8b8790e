//! The laws of fragments and of the pictures that they capture, in a chain that the host patches while it runs. The
//! functions do nothing; their contracts are the laws.
#![tactic(auto)]

ghost use Rattle.std.specs.Prelude.{◌≡◌};
ghost use Rattle.pixel_layout.specs.declared.Parity.TheVariants.{Top};
ghost use Rattle.picture_model.specs.Worked.{smallest};
ghost use Rattle.picture_law.specs.Worked.{picture};
ghost use Rattle.chain_model.specs.Chains.{IsChain, IsSoundChain};
ghost use Rattle.chain_law.specs.Fragments.{FragmentIsSound, FragmentsAreSound};
ghost use Rattle.chain_law.specs.Behind.{AreBehind, LivePartsAreFinished};
ghost use Rattle.chain_law.specs.Pictures.{IsSignalled, LiveShowsNoFault, LiveShowsPicture, LiveTellsField, between, live_of};
ghost use Rattle.chain_law.specs.Runs.{LiveRunsKeepPromises};
ghost use Rattle.chain_law.specs.Worked.{broken_steps, other, steps, two_slots};

/// A part that is the fragment of a description whose memory the chain may write is sound alone, whatever the other parts
/// are; so a chain of such parts is sound.
pub fn fragments_are_sound()
    ensures one { FragmentIsSound }
    ensures all { FragmentsAreSound }
{}

/// Whatever the host patches, and also where it patches out the part itself: after the first signal of a field that arrives
/// at its section of a fragment, each of its bytes that is not clipped is at its place where it has one, and every
/// other byte of memory is as it was when the machine waited in the field's opening. No turn up to the signal sets FDSR.
/// After it RISCI is set, and the RISC status is 1 for the top field and 2 for the bottom field.
pub fn live_pictures_are_shown()
    ensures shown { LiveShowsPicture }
    ensures quiet { LiveShowsNoFault }
    ensures signalled { LiveTellsField }
{}

/// All this holds at all places of every live run of a sound chain from its first state: it stays inside, the picture of
/// each field that arrives at a part that is a fragment is shown, and no turn from its arrival to its signal sets FDSR.
pub fn live_runs_keep_promises()
    ensures { LiveRunsKeepPromises }
{}

/// As long as the machine reads no slot it goes on as if the part in which it is were patched in, also where the host
/// patches it out: the part is finished, whatever comes, also where its field is broken off. A worked field that is broken off
/// is finished so: the machine comes to the next slot.
pub fn live_parts_are_finished()
    ensures finished { LivePartsAreFinished }
    ensures behind { AreBehind two_slots (live_of two_slots 0 broken_steps 5) (between 5 15 broken_steps) }
    ensures next { (live_of two_slots 0 broken_steps 15).machine.pc ≡ 0x1008 }
{}

/// The premises of these laws can be met: a chain of two slots whose parts are the fragments of two descriptions is sound.
/// A field arrives at the fragment to which its first slot leads, and is signalled though the slot is patched to the other
/// fragment while this one runs; the next field arrives at that other one.
pub fn worked_chain_is_patched_while_it_runs()
    ensures chain { IsChain two_slots }
    ensures sound { IsSoundChain two_slots }
    ensures first { IsSignalled two_slots 0 smallest Top picture 0 steps 7 19 }
    ensures second { IsSignalled two_slots 1 other Top picture 0 steps 24 31 }
{}
