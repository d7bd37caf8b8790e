//! Laws of sound chains. The functions do nothing; their contracts are the laws.

ghost use Rattle.std.specs.Prelude.{ℕ, List, All, None};
ghost use Rattle.machine_model.specs.Paths.{IsSound};
ghost use Rattle.chain_model.specs.Chains.{Chain, IsChain, IsSoundChain, alone};
ghost use Rattle.chain_model.specs.Live.{IsLiveStep, LiveInside, LiveStep, first_live, live_at};

/// At every place of every live run of a sound chain from the first state, whatever the host patches: each byte written is
/// granted, each word fetched is one of the chain, and OCERR is 0.
pub fn every_live_run_stays_inside()
    ensures { (chain : Chain) (fill : ℕ) (steps : List LiveStep) (number : ℕ) →
        IsChain chain → IsSoundChain chain → All (IsLiveStep chain) steps →
        LiveInside chain (live_at chain (first_live chain fill) steps number) }
{}

/// With no part patched in, each slot leads on to the next and the last back to the base: this program is sound,
/// whatever the parts are.
pub fn empty_loops_are_sound()
    ensures { (chain : Chain) → IsSound (alone chain None) }
{}
