//! The definitions of a world, as a layout of its types asks for them.
use crate::asked::asked_size;
use crate::fields::fields;
use cli_layout::{Base, Definitions, FieldRow};
use num_core::{List, Memory};
use std::alloc::Global;
use ty_load::TypeFault;
use ty_members::Members;
use ty_terms::{Ty, TypeId};
use ty_walks::{base_by, definition_count, is_value_type};

/// The definitions of the modules of a world.
#[derive(Drop)]
pub struct WorldTypes<'a> {
    pub members: &'a Members,
}

impl<'a> Definitions for WorldTypes<'a> {
    ghost use Rattle.world_layouts.specs.Depths.{deepest_field};

    ghost world = { λ types. types.members.now };

    ghost deepest = { λ types. deepest_field types.members.now };

    fn count(&self) -> usize {
        definition_count(self.members.names())
    }

    fn is_value(&self, alloc: Global, id: TypeId) -> Result<bool, Memory> {
        is_value_type(self.members.names(), alloc, id)
    }

    fn asked(&self, id: TypeId) -> u32 {
        asked_size(self.members.names().tables(id.module), id.row)
    }

    fn fields(&self, alloc: Global, id: TypeId) -> Result<List<FieldRow>, Memory> {
        fields(self.members, alloc, id, false)
    }

    fn statics(&self, alloc: Global, id: TypeId) -> Result<List<FieldRow>, Memory> {
        fields(self.members, alloc, id, true)
    }

    fn base(&self, alloc: Global, id: TypeId) -> Result<Base, Memory> {
        match base_by(self.members.names(), alloc, id) {
            Ok(Some(base)) => Ok(Base::Of(base)),
            Ok(None) => Ok(Base::Nothing),
            Err(TypeFault::Memory) => Err(Memory),
            Err(TypeFault::BadSig(_)) => Ok(Base::Missing),
            Err(TypeFault::SigOutside(_)) => Ok(Base::Missing),
            Err(TypeFault::Unresolved(_, _)) => Ok(Base::Missing),
        }
    }

    fn definition(&self, alloc: Global, ty: &Ty) -> Result<Option<TypeId>, Memory> {
        self.members.names().definition_of(alloc, ty)
    }
}
