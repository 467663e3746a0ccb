//! Laws of lines, for the proof that code does what operations do. Each function does nothing, and ensures its laws of
//! all values.
ghost use Rattle.std.specs.Option.{option_map};
ghost use Rattle.std.specs.Ordering.{int_eq};
ghost use Rattle.std.specs.Prelude.{◌≡◌, ◌<◌, ◌^◌, ℕ, ℤ, pos, true, false, if◌then◌else◌, List, slice_index, Some};
ghost use Rattle.std.specs.Prelude.{None};
ghost use Rattle.num_core.specs.Integers.{IsOfKind};
ghost use Rattle.num_core.specs.Run.{Running, Streams};
ghost use Rattle.num_core.specs.declared.kind.Kind.{Kind};
ghost use Rattle.num_core.specs.declared.kind.Kind.TheVariants.{I8};
ghost use Rattle.num_core.specs.declared.kind.Narrow.{Narrow};
ghost use Rattle.num_core.specs.declared.kind.ShiftOp.{ShiftOp};
ghost use Rattle.rv_step.specs.Machine.{MachineState, address, effect, register, stores as stores_bytes};
ghost use Rattle.rv_step.specs.Memory.{MayRead, Number};
ghost use Rattle.rv_step.specs.Segments.{AreSegments};
ghost use Rattle.rv_code.specs.Code.{given};
ghost use Rattle.lir_core.specs.Pieces.{bytes_of_type};
ghost use Rattle.lir_core.specs.Step.{one_if};
ghost use Rattle.lir_core.specs.Values.{changed, combined, combined_in_range, divided as part_of, holds_of};
ghost use Rattle.lir_core.specs.Values.{is_least_by_minus_one, value_converted, value_in_range, value_shifted};
ghost use Rattle.lir_core.specs.Values.{widened, word_of};
ghost use Rattle.lir_core.specs.declared.op.BinaryOperation.{BinaryOperation};
ghost use Rattle.lir_core.specs.declared.op.CheckedOperation.{CheckedOperation};
ghost use Rattle.lir_core.specs.declared.op.DivisionPart.{DivisionPart};
ghost use Rattle.lir_core.specs.declared.op.Test.{Test};
ghost use Rattle.lir_core.specs.declared.op.UnaryOperation.{UnaryOperation};
ghost use Rattle.rv_lines.specs.Computing.{changes, combines, combines_checked, compares, converts, converts_checked};
ghost use Rattle.rv_lines.specs.Computing.{divides, shifts};
ghost use Rattle.rv_lines.specs.Operands.{loads, stores};
ghost use Rattle.rv_lines.specs.Leading.{AnswersOr, AreRegisters, IsKept, LeadsTo, Refuses};

/// What the instructions that compute give of values in registers.
pub fn computing_instructions()
    // two values, the result being wrapped
    ensures wrapped { (operation : BinaryOperation) (kind : Kind) (m : MachineState) (streams : Streams) (r x y : ℕ)
        (a b : ℤ) → IsOfKind kind a → IsOfKind kind b → register m x ≡ word_of a → register m y ≡ word_of b →
        effect (combines operation kind r x y) m streams
        ≡ Running (given r (word_of (combined operation kind a b)) m) streams }
{}

/// What the instructions that change one value give.
pub fn changing_instructions()
    // a negation or a complement, the result being wrapped
    ensures changed { (operation : UnaryOperation) (kind : Kind) (m : MachineState) (streams : Streams) (r x : ℕ)
        (a : ℤ) → IsOfKind kind a → register m 0 ≡ 0 → register m x ≡ word_of a →
        effect (changes operation kind r x) m streams
        ≡ Running (given r (word_of (changed operation kind a)) m) streams }
    // a shift by the low bits of an amount
    ensures shifted { (operation : ShiftOp) (kind : Kind) (m : MachineState) (streams : Streams) (r x y : ℕ)
        (a by : ℤ) → IsOfKind kind a → IsOfKind I8 by → register m x ≡ word_of a → register m y ≡ word_of by →
        effect (shifts operation kind r x y) m streams
        ≡ Running (given r (word_of (value_shifted operation kind a by)) m) streams }
{}

/// Where the lines of operations lead that refuse nothing: on behind the last, with the result in a register and each
/// other register as it was. The register may be that of an operand.
pub fn computing_lines()
    // a conversion
    ensures converted { (to : Narrow) (kind : Kind) (r x : ℕ) (a : ℤ) (registers : List ℕ) →
        AreRegisters registers → 0 < r → r < 32 → IsOfKind kind a → slice_index registers x ≡ word_of a →
        LeadsTo (converts to kind r x) registers r (word_of (value_converted to kind a)) }
    // a comparison
    ensures compared { (test : Test) (kind : Kind) (r x y : ℕ) (a b : ℤ) (registers : List ℕ) →
        AreRegisters registers → 0 < r → r < 32 → IsOfKind kind a → IsOfKind kind b →
        slice_index registers x ≡ word_of a → slice_index registers y ≡ word_of b →
        LeadsTo (compares test kind r x y) registers r (one_if (holds_of test kind a b)) }
{}

/// Where the lines of operations lead that may refuse: on behind the last, with the result in a register, or to a
/// label. On the way they use x7, x28 and x29, and each other register stays as it was.
pub fn refusing_lines()
    // a sum, a difference or a product, to x7 or to the label where it is out of range
    ensures combined { (operation : CheckedOperation) (kind : Kind) (x y label : ℕ) (a b : ℤ) (registers : List ℕ) →
        AreRegisters registers → IsKept x → IsKept y → IsOfKind kind a → IsOfKind kind b →
        slice_index registers x ≡ word_of a → slice_index registers y ≡ word_of b →
        AnswersOr (combines_checked operation kind x y label) registers 7 label
        (option_map word_of (combined_in_range operation kind a b)) }
    // a conversion, likewise
    ensures narrowed { (to : Narrow) (kind : Kind) (x label : ℕ) (a : ℤ) (registers : List ℕ) →
        AreRegisters registers → IsKept x → IsOfKind kind a → slice_index registers x ≡ word_of a →
        AnswersOr (converts_checked to kind x label) registers 7 label
        (option_map word_of (value_in_range to kind a)) }
    // a division by another number than 0, to its register or to the label of an overflow
    ensures divided { (part : DivisionPart) (kind : Kind) (r x y if_zero overflow : ℕ) (a b : ℤ)
        (registers : List ℕ) → AreRegisters registers → 0 < r → r < 32 → IsKept x → IsKept y →
        IsOfKind kind a → IsOfKind kind b → slice_index registers x ≡ word_of a → slice_index registers y ≡ word_of b →
        int_eq b (pos 0) ≡ false →
        AnswersOr (divides part kind r x y if_zero overflow) registers r overflow
        (if is_least_by_minus_one kind a b then None else Some (word_of (part_of part kind a b))) }
    // and by 0, to the label of that
    ensures divided_by_zero { (part : DivisionPart) (kind : Kind) (r x y if_zero overflow : ℕ) (b : ℤ)
        (registers : List ℕ) → AreRegisters registers → IsOfKind kind b → slice_index registers y ≡ word_of b →
        int_eq b (pos 0) ≡ true → Refuses (divides part kind r x y if_zero overflow) registers if_zero }
{}

/// What the instructions give that read a number of a type, and what those write that write one.
pub fn moving_instructions()
    // the word of the value that the number is widened to
    ensures loaded { (to : Narrow) (m : MachineState) (streams : Streams) (rd base : ℕ) (offset : ℤ) (n : ℕ) →
        AreSegments m.segments → n < 256 ^ bytes_of_type to →
        MayRead m (address m base offset) (bytes_of_type to) →
        Number m (address m base offset) (bytes_of_type to) n →
        effect (loads to rd base offset) m streams ≡ Running (given rd (word_of (widened to n)) m) streams }
    // the lowest bytes of a register, as many as the type has
    ensures stored { (to : Narrow) (m : MachineState) (streams : Streams) (rs base : ℕ) (offset : ℤ) →
        effect (stores to rs base offset) m streams
        ≡ stores_bytes m (bytes_of_type to) (address m base offset) (register m rs) streams }
{}
