//! Laws of the definitions. Each function does nothing, and ensures its laws of all values.
ghost use Rattle.std.specs.Prelude.{◌≡◌, ◌↔◌, ℕ, Bool, IsTrue, List, Option};
ghost use Rattle.ty_terms.specs.declared.ty.Ty.{Ty};
ghost use Rattle.il_stacks.specs.declared.effect.Handler.{Handler};
ghost use Rattle.il_stacks.specs.declared.effect.Step.{Step};
ghost use Rattle.il_stacks.specs.declared.stack.Stack.{Stack};
ghost use Rattle.il_stacks.specs.Bounds.{are_sound};
ghost use Rattle.il_stacks.specs.Flow.{AreLeastStacks};
ghost use Rattle.il_stacks.specs.Rounds.{stacks_by_rounds};

/// Rounds find the least stacks, and there are no others. `objects` tells which types are those of references.
pub fn least_stacks_by_rounds()
    ensures { (objects : Ty → Bool) (steps : List Step) (handlers : List Handler) (size : ℕ)
        (table : List (Option Stack)) → IsTrue (are_sound steps handlers) →
        AreLeastStacks objects steps handlers size table ↔ (table ≡ stacks_by_rounds objects steps handlers size) }
{}
