//! Laws of runs of CIL, whole and trimmed, under every setting. Each function does nothing, and ensures its laws of all
//! values.
ghost use Rattle.std.specs.Prelude.{◌≡◌, ◌≤◌, ℕ, zero, suc, codes, List, [], ◌∷◌, map, slice_get, Ok, Some};
ghost use Rattle.std.specs.Option.{option_and_then, option_map};
ghost use Rattle.num_core.specs.Run.{Ended, Running, Stopped, Streams, one_more};
ghost use Rattle.il_code.specs.declared.body.Body.{Body};
ghost use Rattle.il_code.specs.Bodies.{body_of};
ghost use Rattle.core_lib.specs.Rows.{core};
ghost use Rattle.ty_names.specs.Modules.{World, core_of, tables_at};
ghost use Rattle.ty_names.specs.Definitions.{field_name, type_extends};
ghost use Rattle.ty_load.specs.Primitives.{system_type};
ghost use Rattle.cli_layout.specs.Fields.{placed_rows};
ghost use Rattle.cil_state.specs.State.{CilState as BareState};
ghost use Rattle.cil_state.specs.Step.{cil_run as bare_run};
ghost use Rattle.cil_world.specs.Bare.{BeginsWith, as_state};
ghost use Rattle.cil_world.specs.Entering.{StackBound, bytes_of_frames, text_of};
ghost use Rattle.cil_world.specs.Later.{IsLater, streams_of};
ghost use Rattle.cil_world.specs.ObjectPrograms.{boxed_value, caught_behind, failing_initializer, virtual_call};
ghost use Rattle.cil_world.specs.ObjectPrograms.{wide_bounds};
ghost use Rattle.cil_world.specs.Programs.{constant, endless, small_bounds, told, two_calls};
ghost use Rattle.cil_world.specs.State.{CilCause, CilState, Setting};
ghost use Rattle.cil_world.specs.Step.{cil_run, cil_start, cil_step, inner_field, run_under};

/// A run that is over stays as it is.
pub fn ended_runs()
    // it has ended with a status
    ensures ended { (world : World) (setting : Setting) (input : List ℕ) (n m status : ℕ) (streams : Streams) → n ≤ m →
        run_under world setting input n ≡ Ended status streams →
        run_under world setting input m ≡ Ended status streams }
    // it can't go on
    ensures stopped { (world : World) (setting : Setting) (input : List ℕ) (n m : ℕ) (cause : CilCause)
        (streams : Streams) → n ≤ m →
        run_under world setting input n ≡ Stopped cause streams →
        run_under world setting input m ≡ Stopped cause streams }
{}

/// What was written stays written, and what was read isn't there to be read again.
pub fn later_streams()
    // by one step, from any state
    ensures by_a_step { (world : World) (setting : Setting) (state : CilState) (streams : Streams) →
        IsLater streams (streams_of (cil_step world setting state streams)) }
    // from a moment of a run to a later one
    ensures by_a_run { (world : World) (setting : Setting) (input : List ℕ) (n m : ℕ) → n ≤ m →
        IsLater (streams_of (run_under world setting input n)) (streams_of (run_under world setting input m)) }
{}

/// The heap and the stack: what is used of the heap never falls, since no object is given back, and neither passes its
/// bound.
pub fn bounded_runs()
    // by one step, from any state
    ensures grows_by_a_step { (world : World) (setting : Setting) (state state' : CilState)
        (streams streams' : Streams) → cil_step world setting state streams ≡ Running state' streams' →
        state.heap ≤ state'.heap }
    // from a moment of a run to a later one
    ensures grows_by_a_run { (world : World) (setting : Setting) (input : List ℕ) (n m : ℕ) (state state' : CilState)
        (streams streams' : Streams) → n ≤ m →
        run_under world setting input n ≡ Running state streams →
        run_under world setting input m ≡ Running state' streams' → state.heap ≤ state'.heap }
    // at each moment of a run
    ensures in_bounds { (world : World) (setting : Setting) (input : List ℕ) (n : ℕ) (state : CilState)
        (streams : Streams) → run_under world setting input n ≡ Running state streams →
        (state.heap ≤ setting.bounds.heap) × (bytes_of_frames world state.frames ≤ setting.bounds.stack) }
{}

/// What small programs do (`specs/Programs.antt`, `specs/ObjectPrograms.antt`) under 1,024 bytes of heap and of stack,
/// where nothing is to be read.
pub fn small_programs()
    // a constant is the status
    ensures constant { cil_run constant small_bounds [] 2 ≡ Ended 42 (told []) }
    // two calls, of which the first gives the second its argument
    ensures two_calls { cil_run two_calls small_bounds [] 12 ≡ Ended 7 (told []) }
    // calls without end: four frames of 256 bytes have room, and the fifth has none
    ensures endless { cil_run endless small_bounds [] 4 ≡ Ended 134 (told (text_of StackBound)) }
    // a call through a slot, which runs the method of the object's class
    ensures virtual_call { cil_run virtual_call small_bounds [] 6 ≡ Ended 7 (told []) }
    // an exception is caught, and the finally inside its try range runs before the handler
    ensures caught_behind { cil_run caught_behind small_bounds [] 12 ≡ Ended 3 (told []) }
    // a value is boxed, changed, and unboxed as it was
    ensures boxed_value { cil_run boxed_value small_bounds [] 11 ≡ Ended 9 (told []) }
    // an initializer fails; asked for again, under 2,048 bytes of stack, it gives the same exception
    ensures failing_initializer { cil_run failing_initializer wide_bounds [] 26 ≡ Ended 1 (told []) }
{}

/// A run goes a step at a time, and each step is a function of where the program stands and of its streams.
pub fn runs_by_steps()
    ensures begins { (world : World) (setting : Setting) (input : List ℕ) →
        run_under world setting input zero ≡ cil_start world setting input }
    ensures goes_on { (world : World) (setting : Setting) (input : List ℕ) (n : ℕ) →
        run_under world setting input (suc n) ≡ one_more (cil_step world setting) (run_under world setting input n) }
{}

/// A bare body (the crate `cil_state`) is a program of one method. Where the bare run can't go on nothing is said: at
/// operations that bare bodies don't have, and on a stack that lacks their operands.
pub fn bare_bodies()
    // while the bare run goes on, the program stands in the same state after as many steps
    ensures goes_on { (world : World) (setting : Setting) (body : Body) (begins : BeginsWith world setting body)
        (input : List ℕ) (n : ℕ) (state : BareState) (streams : Streams) →
        bare_run body input n ≡ Running state streams →
        run_under world setting input n ≡ Running (as_state world begins.callee begins.found state) streams }
    // where the bare run ends, the program ends with its status
    ensures ends { (world : World) (setting : Setting) (body : Body) → BeginsWith world setting body →
        (input : List ℕ) (n status : ℕ) (streams : Streams) →
        bare_run body input n ≡ Ended status streams → run_under world setting input n ≡ Ended status streams }
    // the program `constant` begins so with the body of its bytes
    ensures met { (setting : Setting) (body : Body) → 256 ≤ setting.bounds.stack →
        body_of (0x0E ∷ 0x1F ∷ 0x2A ∷ 0x2A ∷ []) ≡ Ok body → BeginsWith constant setting body }
{}

/// The exception that stands behind another is what its field `_inner` holds, in every program over the core: in an
/// object of an Exception that field has the number `inner_field`. For its class has `_message` in front of it, and
/// extends Object, which extends nothing and has no fields.
pub fn inner_exceptions()
    ensures named { (world : World) → tables_at world (core_of world) ≡ core.tables →
        option_and_then (λ id. slice_get (map (field_name (tables_at world id.module)) (placed_rows world id))
        inner_field) (system_type world (codes "Exception")) ≡ Some (codes "_inner") }
    ensures above { (world : World) → tables_at world (core_of world) ≡ core.tables →
        (option_map (λ id. (type_extends (tables_at world id.module) id.row).table)
        (system_type world (codes "Exception")) ≡ Some 0x02)
        × (option_map (λ id. (type_extends (tables_at world id.module) id.row).row)
        (system_type world (codes "Exception")) ≡ option_map (λ id. id.row) (system_type world (codes "Object"))) }
    ensures topmost { (world : World) → tables_at world (core_of world) ≡ core.tables →
        option_map (λ id. (type_extends (tables_at world id.module) id.row).row)
        (system_type world (codes "Object")) ≡ Some 0 }
    ensures without { (world : World) → tables_at world (core_of world) ≡ core.tables →
        option_map (placed_rows world) (system_type world (codes "Object")) ≡ Some [] }
{}
