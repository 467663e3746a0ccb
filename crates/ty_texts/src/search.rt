//! Types by their full names, as programs ask for them.
ghost use Rattle.std.specs.Prelude.{◌≡◌, ◌++◌, ℕ, List, find, IfOk, OnOk};
ghost use Rattle.ty_load.specs.Cycles.{ids_of};
ghost use Rattle.ty_load.specs.Search as search_in;
ghost use Rattle.ty_load.specs.Valid.{or_else};
ghost use Rattle.ty_names.specs.Modules.{tables_at};
ghost use Rattle.ty_texts.specs.FullNames.{TellFullNames, TellOneName, has_full_name, type_in_entries};

use crate::around::types_around;
use crate::put::push;
use indexmap::IndexMap;
use num_core::{Bytes, List, Memory};
use std::alloc::Global;
use ty_load::Names;
use ty_names::{type_name, type_namespace};
use ty_terms::TypeId;

/// Adds a namespace with a dot, if there is one, and a name, as they stand.
fn push_dotted(text: &mut Bytes, namespace: &[u8], name: &[u8]) -> Result<(), Memory>
    ensures { OnOk result (text.new ≡ text.old ++ search_in.dotted namespace.now name.now) }
{
    if !namespace.is_empty() {
        push(text, namespace)?;
        push(text, b".")?;
    }
    push(text, name)
}

/// Adds a type's own name, in its namespace or behind a plus.
fn push_own_name(names: &Names, text: &mut Bytes, id: TypeId) -> Result<(), Memory>
    ensures { OnOk result (text.new ≡ text.old ++ search_in.own_name (tables_at names.now id.module) id.row) }
{
    let tables = names.tables(id.module);
    let name = type_name(tables, id.row);
    if names.enclosing(id) == 0 {
        push_dotted(text, type_namespace(tables, id.row), name)
    } else {
        push(text, b"+")?;
        push(text, name)
    }
}

/// Adds the names of types one in the other as they stand, the outermost in front; they are given from the inside.
fn push_joined(names: &Names, text: &mut Bytes, module: u32, around: &[u32]) -> Result<(), Memory>
    ensures { OnOk result (text.new ≡ text.old ++ search_in.joined_names (tables_at names.now «module») around.now) }
{
    let mut left = around.len();
    while 0 < left {
        left -= 1;
        let row = around[left];
        push_own_name(names, text, TypeId { module, row })?;
    }
    Ok(())
}

/// The full name of a type: `Namespace.Name`, and `+` before the name of a nested type.
fn full_name(names: &Names, alloc: Global, id: TypeId) -> Result<Vec<u8>, Memory>
    ensures { IfOk result (λ name. name.items ≡ search_in.full_name (tables_at names.now id.module) id.row) }
{
    let around = types_around(names, alloc, id)?;
    let mut text = List::new(alloc);
    push_joined(names, &mut text, id.module, around.as_slice())?;
    Ok(text.into_vec())
}

/// Notes a type without parameters by its full name, in place of another of that name.
fn note_name(
    found: &mut IndexMap<Vec<u8>, TypeId>,
    names: &Names,
    alloc: Global,
    id: TypeId,
) -> Result<(), Memory>
    ensures { OnOk result (TellOneName names.now id found.old.entries found.new.entries) }
{
    if names.parameters(id) != 0 {
        return Ok(());
    }
    let name = full_name(names, alloc, id)?;
    found.insert(name, id)?;
    Ok(())
}

/// Notes the types of a module by their full names, the last first.
fn note_names(
    found: &mut IndexMap<Vec<u8>, TypeId>,
    names: &Names,
    alloc: Global,
    module: u32,
) -> Result<(), Memory>
    ensures { OnOk result ((name : List ℕ) → type_in_entries found.new.entries name
        ≡ or_else (find (has_full_name names.now name) (ids_of names.now «module»))
        (type_in_entries found.old.entries name)) }
{
    let mut left = names.type_count(module);
    while 0 < left {
        note_name(found, names, alloc, TypeId { module, row: left })?;
        left -= 1;
    }
    Ok(())
}

/// The types of a world without parameters by their full names, of several with one name the first.
pub fn full_names(names: &Names, alloc: Global) -> Result<IndexMap<Vec<u8>, TypeId>, Memory>
    ensures { IfOk result (λ found. TellFullNames names.now found.entries) }
{
    let mut found = IndexMap::new(alloc);
    let mut left = names.module_count();
    while 0 < left {
        left -= 1;
        note_names(&mut found, names, alloc, left)?;
    }
    Ok(found)
}

/// The text before the first comma.
fn before_comma(text: &[u8]) -> &[u8]
    ensures { result.now ≡ search_in.before_comma text.now }
{
    for (i, byte) in text.iter().enumerate() {
        if *byte == 0x2C {
            return &text[..i];
        }
    }
    text
}

/// The first type without parameters, by modules and rows, whose full name is what a text has before its first comma.
/// The core is the last module.
pub fn find_type(found: &IndexMap<Vec<u8>, TypeId>, text: &[u8]) -> Option<TypeId>
    ensures { result ≡ type_in_entries found.now.entries (search_in.before_comma text.now) }
{
    found.get(before_comma(text)).copied()
}
