//! Laws of images. Each function does nothing, and ensures its laws of all pieces.
ghost use Rattle.std.specs.Prelude.{◌≡◌, None, true};
ghost use Rattle.std.specs.List.{list_all};
ghost use Rattle.num_core.specs.declared.bounds.Bounds.{Bounds};
ghost use Rattle.rv_step.specs.Machine.{MachineState};
ghost use Rattle.elf_file.specs.Elf.{machine_of};
ghost use Rattle.image_plan.specs.Conditions.{NamesNodes, TakesAddresses, map_fits};
ghost use Rattle.image_plan.specs.Loaded.{HasPieces, HoldsImage};
ghost use Rattle.image_plan.specs.Mapped.{IsMapped};
ghost use Rattle.image_plan.specs.Planned.{is_placeable, layout_of, map_of, parts_of, too_large};
ghost use Rattle.image_plan.specs.Tiled.{IsTiled};
ghost use Rattle.image_plan.specs.declared.pieces.Pieces.{Pieces};

/// What a file has in its parts, and where its map leads.
pub fn files_of_images()
    // each byte of the file belongs to one part
    ensures tiled { (pieces : Pieces) (bounds : Bounds) → is_placeable pieces ≡ true → NamesNodes pieces →
        IsTiled (layout_of pieces bounds) (parts_of pieces) }
    // each row of the map leads into the part of its body's code
    ensures mapped { (pieces : Pieces) → NamesNodes pieces → list_all map_fits pieces.code ≡ true →
        IsMapped (parts_of pieces) pieces.code (map_of pieces) }
{}

/// What stands in the machine that a file loads.
pub fn images_in_memory()
    // the segments, with what may be done with them
    ensures whole { (pieces : Pieces) (bounds : Bounds) → is_placeable pieces ≡ true →
        too_large pieces bounds ≡ None → HoldsImage pieces bounds (machine_of (layout_of pieces bounds)) }
    // and in them the pieces, with the address that it names at each fix
    ensures each { (pieces : Pieces) (bounds : Bounds) (m : MachineState) → is_placeable pieces ≡ true →
        too_large pieces bounds ≡ None → TakesAddresses pieces → HoldsImage pieces bounds m → HasPieces pieces m }
{}
