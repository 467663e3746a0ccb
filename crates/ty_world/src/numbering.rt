//! The type definitions of a world by numbers.
ghost use Rattle.std.specs.Prelude.{◌≡◌, ◌++◌, All, map, IfOk, OnOk};
ghost use Rattle.std.specs.List.{range_with_len};
ghost use Rattle.ty_names.specs.Definitions.{type_count};
ghost use Rattle.ty_names.specs.References.{id_of};
ghost use Rattle.ty_world.specs.Numbering.{IsDefined};
ghost use Rattle.ty_world.specs.Numbering.{IsNumbering, number_of as number_in};

use md_tables::Table;
use num_core::{List, Memory};
use std::alloc::Global;
use ty_load::Names;
use ty_names::row_count;
use ty_terms::TypeId;

/// The type definitions of a world in order of modules and rows, and the number of the first of each module.
#[derive(Drop)]
pub(crate) struct Numbering {
    ids: Vec<TypeId>,
    starts: Vec<usize>,
}

/// A count as a number of 32 bits. More than these hold is answered as want of memory.
fn counted(count: usize) -> Result<u32, Memory>
    ensures { IfOk result (λ counted. counted ≡ count) }
{
    if count < 0x1_0000_0000 {
        Ok(count as u32)
    } else {
        Err(Memory)
    }
}

/// Adds the type definitions of a module, in order of rows.
fn push_ids(ids: &mut Vec<TypeId>, tables: &[Table], module: u32) -> Result<(), Memory>
    ensures { OnOk result (ids.new.items
        ≡ ids.old.items ++ map (id_of «module») (range_with_len 1 (type_count tables.now))) }
{
    let count = counted(row_count(tables, 0x02))?;
    for before in 0..count {
        ids.push(TypeId {
            module,
            row: before + 1,
        })?;
    }
    Ok(())
}

/// The type definitions of a world by numbers.
pub(crate) fn numbering_of(alloc: Global, names: &Names) -> Result<Numbering, Memory>
    ensures { IfOk result (IsNumbering names.now) }
{
    let mut ids = Vec::new(alloc);
    let mut starts = Vec::new(alloc);
    let count = counted(names.modules().len())?;
    for number in 0..count {
        starts.push(ids.len())?;
        push_ids(&mut ids, names.tables(number), number)?;
    }
    Ok(Numbering { ids, starts })
}

impl Numbering {
    /// The definitions in their order.
    pub(crate) fn ids(&self) -> &[TypeId]
        ensures { result.now ≡ self.now.ids.items }
    {
        self.ids.as_slice()
    }

    /// The number of a definition.
    fn number_of(&self, names: &Names, id: TypeId) -> usize
        requires numbered { IsNumbering names.now self.now }
        requires defined { IsDefined names.now id }
        ensures { result ≡ number_in names.now id }
    {
        self.starts[id.module as usize] + (id.row as usize - 1)
    }

    /// The numbers of definitions.
    pub(crate) fn numbers(
        &self,
        alloc: Global,
        names: &Names,
        ids: &[TypeId],
    ) -> Result<List<usize>, Memory>
        requires numbered { IsNumbering names.now self.now }
        requires defined { All (IsDefined names.now) ids.now }
        ensures { IfOk result (λ numbers. numbers ≡ map (number_in names.now) ids.now) }
    {
        let mut numbers = List::new(alloc);
        for id in ids {
            if numbers.push(self.number_of(names, *id)).is_err() {
                return Err(Memory);
            }
        }
        Ok(numbers)
    }
}
