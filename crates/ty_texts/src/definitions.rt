//! The texts of type definitions.
ghost use Rattle.std.specs.Prelude.{◌≡◌, ◌++◌, ◌<◌, length, slice_index, OnOk};
ghost use Rattle.ty_names.specs.Modules.{tables_at};
ghost use Rattle.ty_names.specs.TypeTexts as texts;

use crate::around::types_around;
use crate::put::{push, push_plus};
use num_core::{Bytes, Memory};
use std::alloc::Global;
use ty_load::{Names, assembly_name};
use ty_names::{push_name, push_qualified, push_type_name, type_name, type_namespace};
use ty_terms::TypeId;

/// Adds the assembly of a module in brackets, or nothing for the core.
fn push_module(names: &Names, alloc: Global, text: &mut Bytes, module: u32) -> Result<(), Memory>
    ensures { OnOk result (text.new ≡ text.old ++ texts.module_text names.now «module») }
{
    if module == names.core() {
        return Ok(());
    }
    push(text, b"[")?;
    if let Some(name) = assembly_name(names.tables(module)) {
        push_name(alloc, text, name)?;
    }
    push(text, b"]")
}

/// Adds a type's own name, in its namespace where it isn't nested.
pub(crate) fn push_own(
    names: &Names,
    alloc: Global,
    text: &mut Bytes,
    id: TypeId,
) -> Result<(), Memory>
    ensures { OnOk result (text.new ≡ text.old ++ texts.own_text (tables_at names.now id.module) id.row) }
{
    let tables = names.tables(id.module);
    let name = type_name(tables, id.row);
    if names.enclosing(id) == 0 {
        push_qualified(alloc, text, type_namespace(tables, id.row), name)
    } else {
        push_type_name(alloc, text, name)
    }
}

/// Adds the names of types one in the other, the outermost in front; they are given from the inside.
fn push_nested(
    names: &Names,
    alloc: Global,
    text: &mut Bytes,
    module: u32,
    around: &[u32],
) -> Result<(), Memory>
    ensures { OnOk result (text.new ≡ text.old ++ texts.nested_text (tables_at names.now «module») around.now) }
{
    let start = text.len();
    let mut left = around.len();
    while 0 < left {
        left -= 1;
        let row = around[left];
        push_plus(text, start)?;
        push_own(names, alloc, text, TypeId { module, row })?;
    }
    Ok(())
}

/// Adds the text of a type definition: `[assembly]Namespace.Name`, and `Enclosing+Name` where it is nested.
pub fn push_definition(
    names: &Names,
    alloc: Global,
    text: &mut Bytes,
    id: TypeId,
) -> Result<(), Memory>
    ensures { OnOk result (text.new ≡ text.old ++ texts.definition_text names.now id) }
{
    let around = types_around(names, alloc, id)?;
    push_module(names, alloc, text, id.module)?;
    push_nested(names, alloc, text, id.module, around.as_slice())
}
