//! What a layout asks of the definitions of types.
use crate::rows::{Base, FieldRow};
use num_core::{List, Memory};
use std::alloc::Global;
use ty_terms::{Ty, TypeId};

/// The definitions of the types of a world.
pub trait Definitions {
    ghost use Rattle.std.specs.Prelude.{◌≡◌, ◌≤◌, ℕ, All, IfOk};
    ghost use Rattle.ty_names.specs.Modules.{World};
    ghost use Rattle.ty_load.specs.Bases.{is_value_type};
    ghost use Rattle.ty_load.specs.Primitives.{definition_of};
    ghost use Rattle.ty_load.specs.Walks.{base_by};
    ghost use Rattle.cli_layout.specs.Extents.{most_within};
    ghost use Rattle.cli_layout.specs.Fields.{asked_size, placed_fields, static_fields};
    ghost use Rattle.cli_layout.specs.Told.{depth_if, told_base};

    /// The modules.
    ghost world: { Self → World };

    /// No type of an instance field or a static one is deeper.
    ghost deepest: { Self → ℕ };

    /// How many definitions there are.
    fn count(&self) -> usize
        ensures { result ≡ most_within (world self.now) };

    /// Whether a definition is a value type (ECMA-335 II.13).
    fn is_value(&self, alloc: Global, id: TypeId) -> Result<bool, Memory>
        ensures { IfOk result (λ is_value. is_value ≡ is_value_type (world self.now) id) };

    /// The size that a value type asks for, or 0 (ECMA-335 II.22.8).
    fn asked(&self, id: TypeId) -> u32
        ensures { result ≡ asked_size (world self.now) id };

    /// The instance fields that have a place, in declared order.
    fn fields(&self, alloc: Global, id: TypeId) -> Result<List<FieldRow>, Memory>
        ensures rows { IfOk result (λ fields. fields ≡ placed_fields (world self.now) id) }
        ensures depth { IfOk result (All (λ field. depth_if field.ty ≤ deepest self.now)) };

    /// The static fields that have a place, in declared order.
    fn statics(&self, alloc: Global, id: TypeId) -> Result<List<FieldRow>, Memory>
        ensures rows { IfOk result (λ fields. fields ≡ static_fields (world self.now) id) }
        ensures depth { IfOk result (All (λ field. depth_if field.ty ≤ deepest self.now)) };

    /// What a definition extends (ECMA-335 II.22.37).
    fn base(&self, alloc: Global, id: TypeId) -> Result<Base, Memory>
        ensures { IfOk result (λ base. base ≡ told_base (base_by (world self.now) id)) };

    /// The definition of a type, if it has one.
    fn definition(&self, alloc: Global, ty: &Ty) -> Result<Option<TypeId>, Memory>
        ensures { IfOk result (λ id. id ≡ definition_of (world self.now) ty.now) };
}
