//! Laws of runs of CIL. Each function does nothing, and ensures its laws of all values.
ghost use Rattle.std.specs.Prelude.{◌≡◌, ◌+◌, ◌≤◌, ℕ, List, [], ◌∷◌, Ok};
ghost use Rattle.num_core.specs.Run.{Running, Ended, Stopped, Streams};
ghost use Rattle.il_code.specs.declared.body.Body.{Body};
ghost use Rattle.il_code.specs.Listing.{listed};
ghost use Rattle.cil_state.specs.State.{CilCause, CilState};
ghost use Rattle.cil_state.specs.Step.{cil_run, cil_start, cil_step};
ghost use Rattle.cil_state.specs.Later.{IsLater, streams_of};

/// A run that is over stays as it is.
pub fn ended_runs()
    // it has ended with a status
    ensures ended { (body : Body) (input : List ℕ) (n m status : ℕ) (streams : Streams) → n ≤ m →
        cil_run body input n ≡ Ended status streams → cil_run body input m ≡ Ended status streams }
    // it can't go on
    ensures stopped { (body : Body) (input : List ℕ) (n m : ℕ) (cause : CilCause) (streams : Streams) → n ≤ m →
        cil_run body input n ≡ Stopped cause streams → cil_run body input m ≡ Stopped cause streams }
{}

/// What was written stays written, and what was read isn't there to be read again.
pub fn later_streams()
    // by one step, from any state
    ensures by_a_step { (body : Body) (state : CilState) (streams : Streams) →
        IsLater streams (streams_of (cil_step body state streams)) }
    // from a moment of a run to a later one
    ensures by_a_run { (body : Body) (input : List ℕ) (n m : ℕ) → n ≤ m →
        IsLater (streams_of (cil_run body input n)) (streams_of (cil_run body input m)) }
{}

/// What small bodies do, by their bytes.
pub fn small_bodies()
    // `ldc.i4.s 42; ret` ends with 42 after two steps
    ensures constant { (body : Body) (input : List ℕ) → listed (0x1F ∷ 42 ∷ 0x2A ∷ []) ≡ Ok body.code →
        cil_run body input 2 ≡ Ended 42 (record { input = input; output = []; error = [] }) }
    // `ldc.i4.7; ldc.i4.5; sub; ret` takes the number on top from that below it
    ensures difference { (body : Body) (input : List ℕ) → listed (0x1D ∷ 0x1B ∷ 0x59 ∷ 0x2A ∷ []) ≡ Ok body.code →
        cil_run body input 4 ≡ Ended 2 (record { input = input; output = []; error = [] }) }
    // `br.s` to itself goes on for ever
    ensures round { (body : Body) (input : List ℕ) (n : ℕ) → listed (0x2B ∷ 0xFE ∷ []) ≡ Ok body.code →
        cil_run body input n ≡ Running cil_start (record { input = input; output = []; error = [] }) }
    // `add; ret` lacks its operands, and can't go on
    ensures lacking { (body : Body) (input : List ℕ) (n : ℕ) → listed (0x58 ∷ 0x2A ∷ []) ≡ Ok body.code →
        cil_run body input (n + 1) ≡ Stopped CilCause.NoStep (record { input = input; output = []; error = [] }) }
{}
