//! The modules of a world, with the owners of their members.
ghost use Rattle.std.specs.Prelude.{◌≡◌, ◌-◌, ◌≤◌, length, option_copied, slice_get, slice_index, IfOk, IfSome};
ghost use Rattle.ty_names.specs.Definitions.{owner_of_field as field_owner_in, owner_of_method as method_owner_in};
ghost use Rattle.ty_names.specs.Modules.{row_count as count_in, tables_at};
ghost use Rattle.ty_members.specs.Owners.{AreFew, AreMembers, IsMemberTable, owner_or};

use crate::owners::owners;
use md_tables::Table;
use num_core::{List, Memory};
use std::alloc::Global;
use std::marker::Model;
use ty_load::Names;
use ty_names::row_count;

/// The type that has each field and each method of a module, by its row, or 0.
#[derive(Drop)]
pub(crate) struct MemberTable {
    fields: List<u32>,
    methods: List<u32>,
}

/// The modules of a world with their names, and the owners of their members. Contracts see it as the list of modules.
#[derive(Drop)]
pub struct Members {
    names: Names,
    tables: Vec<MemberTable>,
}

impl Model for Members {
    ghost use Rattle.ty_names.specs.Modules.{World};
    ghost use Rattle.ty_members.specs.Owners.{AreMembers};

    ghost Value = { World };

    ghost view = { λ members. members.names };

    ghost invariant = { λ members. AreMembers members.names members.tables.items };
}

/// The owners of the members of a module. Where numbers of 32 bits don't count them, memory is wanting.
fn member_table(alloc: Global, tables: &[Table]) -> Result<MemberTable, Memory>
    ensures { IfOk result (IsMemberTable tables.now) }
{
    let few = row_count(tables, 0x02) < 0x1_0000_0000
        && row_count(tables, 0x04) < 0xFFFF_FFFF
        && row_count(tables, 0x06) < 0xFFFF_FFFF;
    if !few {
        return Err(Memory);
    }
    Ok(MemberTable {
        fields: owners(alloc, tables, 4, 0x04)?,
        methods: owners(alloc, tables, 5, 0x06)?,
    })
}

/// The owner of a row, if it has one.
fn owner_at(owners: &[u32], row: u32) -> Option<u32>
    requires { (1 ≤ row) × (row ≤ length owners.now) }
    ensures owner { owner_or result ≡ slice_index owners.now (row - 1) }
    ensures first { IfSome result (λ owner. 1 ≤ owner) }
{
    let owner = owners[row as usize - 1];
    if owner == 0 { None } else { Some(owner) }
}

/// The owner of a field of a module, if it has one.
fn field_owner(table: &MemberTable, tables: &[Table], row: u32) -> Option<u32>
    requires told { IsMemberTable tables.now table.now }
    requires there { (1 ≤ row) × (row ≤ count_in tables.now 0x04) }
    ensures { result ≡ field_owner_in tables.now row }
{
    owner_at(table.fields.as_slice(), row)
}

/// The owner of a method of a module, if it has one.
fn method_owner(table: &MemberTable, tables: &[Table], row: u32) -> Option<u32>
    requires told { IsMemberTable tables.now table.now }
    requires there { (1 ≤ row) × (row ≤ count_in tables.now 0x06) }
    ensures { result ≡ method_owner_in tables.now row }
{
    owner_at(table.methods.as_slice(), row)
}

/// The tables of the module of a number, counted from 0.
fn tables_of(names: &Names, number: usize) -> &[Table]
    ensures { result.now ≡ tables_at names.now number }
{
    match names.modules().get(number) {
        Some(module) => module.tables(),
        None => &[],
    }
}

/// The owners of the members of each module.
fn member_tables(alloc: Global, names: &Names) -> Result<Vec<MemberTable>, Memory>
    ensures { IfOk result (λ tables. AreMembers names.now tables.items) }
{
    let mut tables = Vec::new(alloc);
    while tables.len() < names.modules().len() {
        let table = member_table(alloc, tables_of(names, tables.len()))?;
        tables.push(table)?;
    }
    Ok(tables)
}

/// The table of the members of a module.
fn table_at(tables: &[MemberTable], number: usize) -> Option<&MemberTable>
    ensures { option_copied result ≡ slice_get tables.now number }
{
    tables.get(number)
}

impl Members {
    /// The modules of these names.
    pub fn new(alloc: Global, names: Names) -> Result<Members, Memory>
        ensures { IfOk result (λ members. members ≡ names) }
    {
        let tables = member_tables(alloc, &names)?;
        Ok(Members { names, tables })
    }

    /// The modules with the tables of the names of their types.
    pub fn names(&self) -> &Names
        ensures { result.now ≡ self.now }
    {
        &self.names
    }

    /// The tables of the module of a number, counted from 0. It has few enough members for numbers of 32 bits.
    pub(crate) fn tables(&self, module: u32) -> &[Table]
        ensures tables { result.now ≡ tables_at self.now «module» }
        ensures few { AreFew result.now }
    {
        match table_at(self.tables.as_slice(), module as usize) {
            Some(_) => self.names.tables(module),
            None => &[],
        }
    }

    /// The row of the type that has a field (ECMA-335 II.22.37).
    pub fn owner_of_field(&self, module: u32, row: u32) -> Option<u32>
        requires { (1 ≤ row) × (row ≤ count_in (tables_at self.now «module») 0x04) }
        ensures { result ≡ field_owner_in (tables_at self.now «module») row }
    {
        match table_at(self.tables.as_slice(), module as usize) {
            Some(table) => field_owner(table, self.names.tables(module), row),
            None => None,
        }
    }

    /// The row of the type that has a method (ECMA-335 II.22.37).
    pub fn owner_of_method(&self, module: u32, row: u32) -> Option<u32>
        requires { (1 ≤ row) × (row ≤ count_in (tables_at self.now «module») 0x06) }
        ensures { result ≡ method_owner_in (tables_at self.now «module») row }
    {
        match table_at(self.tables.as_slice(), module as usize) {
            Some(table) => method_owner(table, self.names.tables(module), row),
            None => None,
        }
    }
}
