//! Laws of slots. Each function does nothing, and ensures its laws of all values.
ghost use Rattle.std.specs.Prelude.{◌≡◌, List, Ok};
ghost use Rattle.ty_names.specs.Modules.{World};
ghost use Rattle.ty_slots.specs.Slots.{AreOthers, slots_by};
ghost use Rattle.ty_terms.specs.declared.names.Slot.{Slot};
ghost use Rattle.ty_terms.specs.declared.ty.Ty.{Ty};

/// No slot of a type stands twice.
pub fn each_slot_once()
    ensures { (world : World) (ty : Ty) (slots : List Slot) → slots_by world ty ≡ Ok slots → AreOthers slots }
{}
