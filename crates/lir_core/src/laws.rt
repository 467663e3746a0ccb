//! Laws of memory and of runs at the word level. Each function does nothing, and ensures its laws of all values.
ghost use Rattle.std.specs.Prelude.{◌≡◌, ◌≢◌, ◌+◌, ◌^◌, ◌<◌, ◌≤◌, ◌⊎◌, ℕ, true, List, [], length, slice_get, Some};
ghost use Rattle.std.specs.List.{AllZip};
ghost use Rattle.num_core.specs.Run.{Ended, Running, Stopped, Streams};
ghost use Rattle.lir_core.specs.Calls.{Given, stack_text};
ghost use Rattle.lir_core.specs.Frame.{fixed_bytes as fixed_bytes_of, most_passed as most_passed_of};
ghost use Rattle.lir_core.specs.Frame.{scratch_slots as scratch_slots_of};
ghost use Rattle.lir_core.specs.Handlers.{unhandled_text};
ghost use Rattle.lir_core.specs.Memory.{Cell, FlatMemory, cells_from, cells_of, copied, number_in, overwritten};
ghost use Rattle.lir_core.specs.Memory.{with_cells};
ghost use Rattle.lir_core.specs.Check.{has_short_numbers, is_sound, is_sound_op};
ghost use Rattle.lir_core.specs.Layout.{FramesFit, IsLaidOut};
ghost use Rattle.lir_core.specs.Pieces.{word};
ghost use Rattle.lir_core.specs.Program.{WordProgram};
ghost use Rattle.lir_core.specs.Slots.{addresses, place_in_frame};
ghost use Rattle.lir_core.specs.declared.body.LirBody.{LirBody};
ghost use Rattle.lir_core.specs.declared.op.LirOp.{LirOp};
ghost use Rattle.lir_core.specs.Owning.{GivesHeap, OwnsNoMore, RoutinesGiveHeap};
ghost use Rattle.lir_core.specs.Routines.{allocates, ends_program, reads_byte, writes_byte};
ghost use Rattle.lir_core.specs.Small.{program_with, adds_down, calls_a_double, calls_itself, passes_the_greatest};
ghost use Rattle.lir_core.specs.Small.{reads_the_unwritten, raises_in_a_callee, finally_and_catch, leaves_a_try};
ghost use Rattle.lir_core.specs.Small.{catch_and_catch, clears_what_it_gave, moves_two_words, one_finally};
ghost use Rattle.lir_core.specs.Small.{raises_again};
ghost use Rattle.lir_core.specs.State.{WordCause, WordState};
ghost use Rattle.lir_core.specs.Step.{word_run};
ghost use Rattle.lir_core.specs.Tells.{CellTellsNoMore, MemoryTellsNoMore, TellsNoMore};

use crate::body::{FIXED_BYTES, MOST_PASSED, SCRATCH_SLOTS};

/// The parts of a frame, and what routines take, are those of the definitions.
pub fn parts_of_frames()
    ensures fixed { FIXED_BYTES ≡ fixed_bytes_of }
    ensures scratch { SCRATCH_SLOTS ≡ scratch_slots_of }
    ensures passed { MOST_PASSED ≡ most_passed_of }
{}

/// Memory that was written.
pub fn written_memory()
    // a number that is written is read back
    ensures read_back { (memory : FlatMemory) (place count n : ℕ) → n < 256 ^ count →
        number_in (overwritten memory place (cells_of count n)) place count ≡ Some n }
    // what is written stands there
    ensures written { (memory : FlatMemory) (place : ℕ) (cells : List Cell) →
        cells_from (overwritten memory place cells) place (length cells) ≡ cells }
    // and nothing has changed in places that it doesn't meet
    ensures elsewhere { (memory : FlatMemory) (place other count : ℕ) (cells : List Cell) →
        (other + count ≤ place) ⊎ (place + length cells ≤ other) →
        cells_from (overwritten memory place cells) other count ≡ cells_from memory other count }
{}

/// What a sound body says of its operations, and of the slots of its frames.
pub fn sound_bodies()
    // each operation is sound
    ensures operation { (body : LirBody) (place : ℕ) (op : LirOp) → is_sound body ≡ true →
        slice_get body.ops place ≡ Some op → is_sound_op body op ≡ true }
    // and its numbers have 32 bits
    ensures short { (body : LirBody) (place : ℕ) (op : LirOp) → is_sound body ≡ true →
        slice_get body.ops place ≡ Some op → has_short_numbers op ≡ true }
    // the words of two slots of a frame below all addresses don't meet
    ensures apart { (body : LirBody) (address a b p q : ℕ) → address + body.frame ≤ addresses → a ≢ b →
        place_in_frame body address (word a) ≡ Some p → place_in_frame body address (word b) ≡ Some q →
        (p + 8 ≤ q) ⊎ (q + 8 ≤ p) }
{}

/// What it means that a state tells no more than another.
pub fn telling()
    // each tells no more than itself
    ensures itself { (state : WordState) → TellsNoMore state state }
    // nor than what tells more than one that tells more
    ensures through { (a b c : WordState) → TellsNoMore a b → TellsNoMore b c → TellsNoMore a c }
    // a number that is read in the one is read in the other
    ensures number { (memory other : FlatMemory) (place count n : ℕ) → MemoryTellsNoMore memory other →
        number_in memory place count ≡ Some n → number_in other place count ≡ Some n }
    // bytes that are copied in the one are copied in the other
    ensures copied { (memory other : FlatMemory) (place count : ℕ) (cells : List Cell) →
        MemoryTellsNoMore memory other → copied memory place count ≡ Some cells →
        (cells_of_other : List Cell) × (copied other place count ≡ Some cells_of_other)
        × AllZip CellTellsNoMore cells cells_of_other }
    // and what can be written in the one can be in the other, which still tells no less then
    ensures written { (memory other new : FlatMemory) (place : ℕ) (cells cells_of_other : List Cell) →
        MemoryTellsNoMore memory other → AllZip CellTellsNoMore cells cells_of_other →
        with_cells memory place cells ≡ Some new →
        (new_other : FlatMemory) × (with_cells other place cells_of_other ≡ Some new_other)
        × MemoryTellsNoMore new new_other }
{}

/// A run that is over stays as it is.
pub fn ended_runs()
    // it has ended with a status
    ensures ended { (program : WordProgram) (item : ℕ) (given : List Given) (input : List ℕ) (n m status : ℕ)
        (streams : Streams) → n ≤ m → word_run program item given input n ≡ Ended status streams →
        word_run program item given input m ≡ Ended status streams }
    // it can't go on
    ensures stopped { (program : WordProgram) (item : ℕ) (given : List Given) (input : List ℕ) (n m : ℕ)
        (cause : WordCause) (streams : Streams) → n ≤ m →
        word_run program item given input n ≡ Stopped cause streams →
        word_run program item given input m ≡ Stopped cause streams }
{}

/// What small programs do whose frames may take 1024 bytes.
pub fn small_programs()
    // a loop over two variables
    ensures sum { (input : List ℕ) →
        word_run (program_with adds_down []) 0 [] input 15
        ≡ Ended 6 (record { input = input; output = []; error = [] }) }
    // a call, its argument and its result
    ensures call { (input : List ℕ) →
        word_run (program_with calls_a_double []) 0 [] input 5
        ≡ Ended 42 (record { input = input; output = []; error = [] }) }
    // four frames of 256 bytes fit, and a fifth doesn't
    ensures bound { (input : List ℕ) →
        word_run (program_with calls_itself []) 0 [] input 4
        ≡ Ended 134 (record { input = input; output = []; error = stack_text }) }
    // a sum out of range
    ensures overflow { (input : List ℕ) →
        word_run (program_with passes_the_greatest []) 0 [] input 4
        ≡ Ended 1 (record { input = input; output = []; error = [] }) }
    // what hasn't been written can't be read
    ensures unwritten { (input : List ℕ) →
        word_run (program_with reads_the_unwritten []) 0 [] input 1
        ≡ Stopped WordCause.NoStep (record { input = input; output = []; error = [] }) }
    // an object that is raised in a callee and caught: a finally handler runs before the catch handler
    ensures caught { (input : List ℕ) →
        word_run (program_with raises_in_a_callee (finally_and_catch 40)) 0 [] input 12
        ≡ Ended 42 (record { input = input; output = []; error = [] }) }
    // one that isn't caught: no handler runs
    ensures uncaught { (input : List ℕ) →
        word_run (program_with raises_in_a_callee (finally_and_catch 41)) 0 [] input 6
        ≡ Ended 134 (record { input = input; output = []; error = unhandled_text }) }
    // a try range that is left
    ensures left { (input : List ℕ) →
        word_run (program_with leaves_a_try one_finally) 0 [] input 4
        ≡ Ended 7 (record { input = input; output = []; error = [] }) }
    // slots whose words a callee has taken are 0 behind the call
    ensures cleared { (input : List ℕ) →
        word_run (program_with clears_what_it_gave []) 0 [] input 8
        ≡ Ended 2 (record { input = input; output = []; error = [] }) }
    // two words move down to where they overlap, and not up
    ensures moved { (input : List ℕ) →
        word_run (program_with (moves_two_words 8 9) []) 0 [] input 5
        ≡ Ended 2 (record { input = input; output = []; error = [] }) }
    ensures not_moved { (input : List ℕ) →
        word_run (program_with (moves_two_words 9 8) []) 0 [] input 3
        ≡ Stopped WordCause.NoStep (record { input = input; output = []; error = [] }) }
    // an object is raised again, though its slot has another word by then
    ensures raised_again { (input : List ℕ) →
        word_run (program_with raises_again catch_and_catch) 0 [] input 11
        ≡ Ended 40 (record { input = input; output = []; error = [] }) }
    // such programs are laid out
    ensures laid_out { (class : ℕ) → IsLaidOut (program_with raises_in_a_callee (finally_and_catch class)) }
{}

/// What holds of runs of programs that are laid out.
pub fn laid_out_programs()
    // the frames lie one behind the other up to the end of all, and take no more than they may
    ensures frames { (program : WordProgram) (item : ℕ) (given : List Given) (input : List ℕ) (n : ℕ)
        (state : WordState) (streams : Streams) → IsLaidOut program →
        word_run program item given input n ≡ Running state streams → FramesFit program state.frames }
{}

/// What a program has in memory.
pub fn owned_memory()
    // nothing but the image, what it uses of the heap, and its frames' slots, where its routines give it nothing else
    ensures owned { (program : WordProgram) (item : ℕ) (given : List Given) (input : List ℕ) (n : ℕ)
        (state : WordState) (streams : Streams) → RoutinesGiveHeap program →
        word_run program item given input n ≡ Running state streams →
        OwnsNoMore program state.frames state.memory state.heap_used }
    // as those of the runtime do: one that allocates,
    ensures allocating { (program : WordProgram) (bound : ℕ) →
        GivesHeap program (allocates program.heap_begin bound) }
    // one that writes a byte,
    ensures writing { (program : WordProgram) → GivesHeap program writes_byte }
    // one that reads a byte,
    ensures reading { (program : WordProgram) → GivesHeap program reads_byte }
    // and one that ends the program
    ensures ending { (program : WordProgram) → GivesHeap program ends_program }
{}
