//! Laws of memory, for the proofs of the crates above. Each function does nothing, and ensures its laws of all
//! machines.
ghost use Rattle.std.specs.Prelude.{◌≡◌, ◌≢◌, ◌↔◌, ℕ, ◌+◌, ◌%◌, ◌^◌, ◌<◌, ◌≤◌, List, ◌++◌, length, take, drop, min};
ghost use Rattle.std.specs.Prelude.{Some};
ghost use Rattle.byteorder.specs.Endian.{little_number, little_bytes};
ghost use Rattle.num_core.specs.Run.{Running, Streams};
ghost use Rattle.rv_step.specs.Machine.{MachineState, register, with_register, next_pc, gives, traps, loads, stores};
ghost use Rattle.rv_step.specs.Machine.{reads, writes, fetched, machine_step};
ghost use Rattle.rv_step.specs.Bytes.{AreBytes, HoldsBytes};
ghost use Rattle.rv_step.specs.Memory.{Bytes, Number, MayRead, MayWrite, MayExecute, AllowsTheSame, Writes};
ghost use Rattle.rv_step.specs.Segments.{AreSegments};
ghost use Rattle.rv_step.specs.declared.trap.Cause.TheVariants.{Load, Store};

/// Memory as bytes at addresses, whatever segments hold them.
pub fn bytes_in_memory()
    // what stands at so many addresses is one list
    ensures one { (m : MachineState) (address : ℕ) (xs ys : List ℕ) → length xs ≡ length ys →
        Bytes m address xs → Bytes m address ys → xs ≡ ys }
    // what stands behind something else
    ensures parts { (m : MachineState) (address : ℕ) (xs ys : List ℕ) →
        Bytes m address (xs ++ ys) ↔ (Bytes m address xs × Bytes m (address + length xs) ys) }
    // where something may be read, something stands
    ensures there { (m : MachineState) (address count : ℕ) → AreSegments m.segments →
        MayRead m address count → (bytes : List ℕ) × (length bytes ≡ count) × Bytes m address bytes }
    // what holds of so many addresses holds of some of them
    ensures within { (m : MachineState) (address count first some : ℕ) → address ≤ first →
        first + some ≤ address + count →
        (MayRead m address count → MayRead m first some) × (MayWrite m address count → MayWrite m first some)
        × (MayExecute m address count → MayExecute m first some) }
    // a step moves no segment, and changes nothing of what may be done with it
    ensures kept { (m new : MachineState) (streams streams' : Streams) → machine_step m streams ≡ Running new streams' →
        (AreSegments m.segments → AreSegments new.segments)
        × ((address count : ℕ) → AllowsTheSame m new address count) }
    // a load gives the number that stands there
    ensures loaded { (m : MachineState) (rd count address : ℕ) (bytes : List ℕ) (value : ℕ → ℕ) (streams : Streams) →
        AreSegments m.segments → length bytes ≡ count → MayRead m address count → Bytes m address bytes →
        loads m rd count address value streams ≡ gives m rd (value (little_number count bytes)) streams }
    ensures number { (m : MachineState) (rd count address number : ℕ) (value : ℕ → ℕ) (streams : Streams) →
        AreSegments m.segments → number < 256 ^ count → MayRead m address count → Number m address count number →
        loads m rd count address value streams ≡ gives m rd (value number) streams }
    ensures not_loaded { (m : MachineState) (rd count address : ℕ) (value : ℕ → ℕ) (streams : Streams) →
        ¬ (MayRead m address count) → loads m rd count address value streams ≡ traps m Load streams }
    // a store writes the lowest bytes of a number, and nothing else
    ensures stored { (m : MachineState) (count address value : ℕ) (streams : Streams) →
        AreSegments m.segments → MayWrite m address count →
        (new : MachineState) × (stores m count address value streams ≡ Running new streams)
        × (new.pc ≡ next_pc m) × (new.registers ≡ m.registers)
        × Writes address (little_bytes count value) m new }
    ensures not_stored { (m : MachineState) (count address value : ℕ) (streams : Streams) →
        ¬ (MayWrite m address count) → stores m count address value streams ≡ traps m Store streams }
    // the word at the pc
    ensures fetched { (m : MachineState) (word : ℕ) → AreSegments m.segments → word < 2 ^ 32 → m.pc % 4 ≡ 0 →
        MayExecute m m.pc 4 → Number m m.pc 4 word → fetched m ≡ Some word }
    // a call that writes writes what stands there
    ensures written { (m : MachineState) (to : List ℕ → Streams → Streams) (bytes : List ℕ) (streams : Streams) →
        AreSegments m.segments → register m 12 ≢ 0 → length bytes ≡ register m 12 →
        MayRead m (register m 11) (register m 12) → Bytes m (register m 11) bytes →
        writes m to streams ≡ gives m 10 (register m 12) (to bytes streams) }
    // a call that reads puts the first of the input there, and nothing else
    ensures read { (m : MachineState) (streams : Streams) → AreSegments m.segments → register m 12 ≢ 0 →
        MayWrite m (register m 11) (register m 12) →
        (new : MachineState)
        × (reads m streams ≡ Running new (record streams { input = drop (register m 12) streams.input }))
        × (new.pc ≡ next_pc m)
        × (new.registers ≡ with_register m.registers 10 (min (register m 12) (length streams.input)))
        × Writes (register m 11) (take (register m 12) streams.input) m new }
{}

/// What steps leave in memory.
pub fn steps_in_memory()
    // bytes, where there were bytes, and what is left to read is bytes too
    ensures bytes { (m new : MachineState) (streams streams' : Streams) → AreSegments m.segments → HoldsBytes m →
        AreBytes streams.input → machine_step m streams ≡ Running new streams' →
        HoldsBytes new × AreBytes streams'.input }
    // a store leaves one machine, whatever the streams are
    ensures stored { (m : MachineState) (count address value : ℕ) →
        AreSegments m.segments → MayWrite m address count →
        (new : MachineState) × ((streams : Streams) → stores m count address value streams ≡ Running new streams)
        × (new.pc ≡ next_pc m) × (new.registers ≡ m.registers)
        × Writes address (little_bytes count value) m new }
{}
