//! The assemblies of a world, found by their names.
ghost use Rattle.std.specs.Prelude.{◌≡◌, ◌<◌, ◌^◌, length, IfOk, IfSome, OnOk, IsUtf8, option_copied};
ghost use Rattle.ty_names.specs.Definitions.{assembly_name as assembly_name_in};
ghost use Rattle.ty_names.specs.Modules.{tables_at as tables_in};
ghost use Rattle.ty_load.specs.TypeKeys.{TellAssemblies, TellAssembly, TellName};

use indexmap::IndexMap;
use md_tables::{Module, Table};
use num_core::Memory;
use std::alloc::Global;
use ty_names::{name_at, row_at};

/// The tables of the module of a number, counted from 0.
pub(crate) fn tables_at(modules: &[Module], number: usize) -> &[Table]
    ensures { result.now ≡ tables_in modules.now number }
{
    match modules.get(number) {
        Some(module) => module.tables(),
        None => &[],
    }
}

/// The name of a module's assembly, if it has a row of Assembly (ECMA-335 II.22.2).
pub fn assembly_name(tables: &[Table]) -> Option<&[u8]>
    ensures name { option_copied result ≡ assembly_name_in tables.now }
    ensures utf8 { IfSome result (λ name. IsUtf8 name.now) }
{
    match row_at(tables, 0x20, 1) {
        Some(_) => Some(name_at(tables, 0x20, 1, 7)),
        None => None,
    }
}

/// Notes the number of a module by a name, in place of another of that name.
fn note_name(
    found: &mut IndexMap<Vec<u8>, u32>,
    alloc: Global,
    name: &[u8],
    number: u32,
) -> Result<(), Memory>
    ensures { OnOk result (TellName name.now number found.old.entries found.new.entries) }
{
    let name = Vec::from_slice(alloc, name)?;
    found.insert(name, number)?;
    Ok(())
}

/// Notes the number of a module by the name of its assembly, if it has one.
fn note_assembly(
    found: &mut IndexMap<Vec<u8>, u32>,
    alloc: Global,
    tables: &[Table],
    number: u32,
) -> Result<(), Memory>
    ensures { OnOk result (TellAssembly tables.now number found.old.entries found.new.entries) }
{
    match assembly_name(tables) {
        Some(name) => note_name(found, alloc, name, number),
        None => Ok(()),
    }
}

/// The modules in front of the core by the names of their assemblies, of several with one name the first.
pub(crate) fn assemblies(
    alloc: Global,
    modules: &[Module],
) -> Result<IndexMap<Vec<u8>, u32>, Memory>
    requires { length modules.now < 2 ^ 32 }
    ensures { IfOk result (λ found. TellAssemblies modules.now found.entries) }
{
    let mut found = IndexMap::new(alloc);
    let mut left = modules.len().saturating_sub(1);
    while 0 < left {
        left -= 1;
        note_assembly(&mut found, alloc, tables_at(modules, left), left as u32)?;
    }
    Ok(found)
}
