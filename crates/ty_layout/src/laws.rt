//! Laws of layouts, for the proofs of the crates above. Each function does nothing, and ensures its laws of all values.
ghost use Rattle.std.specs.Prelude.{ℕ, List, flat_map};
ghost use Rattle.ty_layout.specs.declared.field.Field.{Field};
ghost use Rattle.ty_layout.specs.Fields.{AreLaid};
ghost use Rattle.ty_layout.specs.Objects.{object, value_type};

/// The fields of an object, and those of a value type, are apart, aligned, and within its bytes.
pub fn fields_are_apart()
    ensures object { (parts : List (List Field)) → AreLaid (flat_map (λ part. part) parts) (object parts) }
    ensures value_type { (least : ℕ) (fields : List Field) → AreLaid fields (value_type least fields) }
{}
