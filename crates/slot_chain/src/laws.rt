//! The laws of double buffers. The functions do nothing; their contracts are the laws.

ghost use Rattle.slot_chain.specs.Promises.{BuffersShowDescriptions, PairsMakeChains, PlaysAreLiveRuns, PlaysKeepPromises, StepsAreLive};

/// Two descriptions without a fault make a sound chain, in which the part of a slot for a buffer is the fragment of that
/// buffer's description.
pub fn pairs_make_sound_chains()
    ensures sound { PairsMakeChains }
    ensures buffers { BuffersShowDescriptions }
{}

/// The steps of a stream are live steps of a chain with buffers, and playing them is the live run over these.
pub fn plays_are_live_runs()
    ensures steps { StepsAreLive }
    ensures runs { PlaysAreLiveRuns }
{}

/// Whatever a double buffer plays, patches among it: at every place what a turn writes is granted, what it fetches is a
/// word of the chain, and OCERR is 0. After the first signal of a field that arrives at the fragment of a description its
/// picture is shown, RISCI is set and the RISC status is that of the field; and no turn up to that signal sets FDSR.
pub fn plays_keep_promises()
    ensures { PlaysKeepPromises }
{}
