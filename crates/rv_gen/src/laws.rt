//! Laws of the branches that bodies are made of, for the proof that code does what operations do. Each function does
//! nothing, and ensures its laws of all values.
ghost use Rattle.std.specs.Prelude.{◌≡◌, ℕ, ℤ, not};
ghost use Rattle.num_core.specs.Integers.{IsOfKind};
ghost use Rattle.num_core.specs.Run.{Streams};
ghost use Rattle.num_core.specs.declared.kind.Kind.{Kind};
ghost use Rattle.rv_step.specs.Machine.{MachineState, branches, effect, register};
ghost use Rattle.lir_core.specs.Values.{holds_of, word_of};
ghost use Rattle.lir_core.specs.declared.op.Test.{Test};
ghost use Rattle.rv_lines.specs.Computing.{condition_of};
ghost use Rattle.rv_lines.specs.Holds.{holds};
ghost use Rattle.rv_gen.specs.Placing.{branch, opposite};
ghost use Rattle.rv_lines.specs.declared.line.Condition.{Condition};

/// When branches are taken.
pub fn branch_instructions()
    // where the condition holds of the two registers
    ensures taken { (condition : Condition) (x y : ℕ) (d : ℤ) (m : MachineState) (streams : Streams) →
        effect (branch condition x y d) m streams
        ≡ branches m (holds condition (register m x) (register m y)) d streams }
    // and the opposite one, where it doesn't
    ensures not_taken { (condition : Condition) (p q : ℕ) →
        holds (opposite condition) p q ≡ not (holds condition p q) }
    // the condition of a test holds of the words of two values where the test holds of the values
    ensures tested { (test : Test) (kind : Kind) (a b : ℤ) → IsOfKind kind a → IsOfKind kind b →
        holds (condition_of test kind) (word_of a) (word_of b) ≡ holds_of test kind a b }
{}
