//! Laws of code in memory, for the proofs of the crates above. Each function does nothing, and ensures its laws of all
//! machines.
ghost use Rattle.std.specs.Prelude.{◌≡◌, ◌+◌, ◌*◌, ℕ, List, length, slice_get, Some};
ghost use Rattle.num_core.specs.Run.{Streams};
ghost use Rattle.rv_isa.specs.declared.ins.Ins.{Ins};
ghost use Rattle.rv_isa.specs.Instructions.{IsLegal};
ghost use Rattle.rv_step.specs.Machine.{MachineState, effect, machine_step, next_pc, register};
ghost use Rattle.rv_step.specs.Memory.{AreApart, Writes};
ghost use Rattle.rv_code.specs.Code.{AllLegal, BlockAt, Calculated, Calculates, CodeAt};
ghost use Rattle.rv_code.specs.Registers.{HasRegisters, registers_of};

/// A machine at an instruction of code.
pub fn code_in_memory()
    // the step is that of the instruction
    ensures step { (address : ℕ) (code : List Ins) (k : ℕ) (ins : Ins) (m : MachineState) (streams : Streams) →
        CodeAt address code m → m.pc ≡ address + 4 * k → slice_get code k ≡ Some ins → IsLegal ins →
        machine_step m streams ≡ effect ins m streams }
    // and the place behind it is that of the next one
    ensures next { (address : ℕ) (code : List Ins) (k : ℕ) (ins : Ins) (m : MachineState) → CodeAt address code m →
        m.pc ≡ address + 4 * k → slice_get code k ≡ Some ins → next_pc m ≡ address + 4 * (k + 1) }
    // code stays where what is written lies elsewhere
    ensures kept { (address : ℕ) (code : List Ins) (place : ℕ) (bytes : List ℕ) (m new : MachineState) →
        CodeAt address code m → Writes place bytes m new → AreApart place (length bytes) address (4 * length code) →
        CodeAt address code new }
{}

/// Instructions that only give registers their values.
pub fn blocks_of_code()
    // the machine comes to the place behind them
    ensures calculated { (address : ℕ) (code : List Ins) (k : ℕ) (block : List Ins) (m new : MachineState) →
        CodeAt address code m → m.pc ≡ address + 4 * k → BlockAt code k block → AllLegal block →
        Calculates block m new → Calculated address code k (length block) m new }
{}

/// The registers of a machine one by one.
pub fn spelled_registers()
    ensures words { (m : MachineState) → HasRegisters m → m.registers ≡ registers_of (register m) }
{}
