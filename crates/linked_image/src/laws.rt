//! What holds of bodies that were selected and placed. Each function does nothing, and ensures its laws of all of them.
ghost use Rattle.std.specs.Prelude.{◌≡◌, ℕ, List, None, Some};
ghost use Rattle.num_core.specs.declared.bounds.Bounds.{Bounds};
ghost use Rattle.rv_step.specs.Machine.{MachineState};
ghost use Rattle.lir_core.specs.Calls.{Given};
ghost use Rattle.lir_core.specs.declared.body.LirBody.{LirBody};
ghost use Rattle.rt_code.specs.Effects.{Root};
ghost use Rattle.elf_file.specs.Elf.{machine_of};
ghost use Rattle.image_plan.specs.Loaded.{HoldsImage};
ghost use Rattle.image_plan.specs.Planned.{layout_of, too_large};
ghost use Rattle.image_plan.specs.declared.pieces.CodePiece.{CodePiece};
ghost use Rattle.image_plan.specs.declared.pieces.Pieces.{Pieces};
ghost use Rattle.rv_words.specs.Loaded.{GivesArgument, IsLoaded};
ghost use Rattle.rv_words.specs.Placing.{HasProgram, IsPlacing};
ghost use Rattle.linked_image.specs.Program.{HasRoot, IsProgram, body_among, front_of, placing_of};
ghost use Rattle.linked_image.specs.Selected.{AreSelected, SuitsPlacing};

/// The code of bodies makes pieces as placing wants them.
pub fn selected_code()
    ensures suited { (bodies : List LirBody) (pieces : List CodePiece) → AreSelected bodies pieces →
        SuitsPlacing pieces }
{}

/// The machine that the file of placed pieces loads holds the program of their bodies.
pub fn placed_programs()
    // where everything lies
    ensures placing { (bodies : List LirBody) (pieces : Pieces) (bounds : Bounds) → IsProgram bodies pieces →
        too_large pieces bounds ≡ None → IsPlacing (placing_of bodies pieces bounds) }
    // in each machine that holds the image
    ensures program { (bodies : List LirBody) (pieces : Pieces) (bounds : Bounds) (m : MachineState) →
        IsProgram bodies pieces → too_large pieces bounds ≡ None → HoldsImage pieces bounds m →
        HasProgram (placing_of bodies pieces bounds) m }
    // and in the one that the file loads it has not begun
    ensures loaded { (bodies : List LirBody) (pieces : Pieces) (bounds : Bounds) (root : Root) (item : ℕ)
        (body : LirBody) (given : List Given) → IsProgram bodies pieces → too_large pieces bounds ≡ None →
        HasRoot pieces item root → body_among bodies pieces.code item ≡ Some body →
        GivesArgument root.argument given →
        IsLoaded (placing_of bodies pieces bounds) (front_of pieces bounds) root item body given
        (machine_of (layout_of pieces bounds)) }
{}
