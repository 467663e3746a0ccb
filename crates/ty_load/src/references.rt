//! Which type a reference names (ECMA-335 II.22.38).
ghost use Rattle.std.specs.Prelude.{◌≡◌, IfOk};
ghost use Rattle.ty_names.specs.Modules.{tables_at};
ghost use Rattle.ty_load.specs.Named.{through};
ghost use Rattle.ty_names.specs.References as references;

use crate::names::Names;
use num_core::Memory;
use std::alloc::Global;
use ty_names::{RowOf, coded_at, name_at, row_count};
use ty_terms::TypeId;

/// Whether a scope is the reference to the type around.
fn is_nested_scope(scope: RowOf) -> bool
    ensures { result ≡ references.is_nested_scope scope }
{
    scope.row != 0 && scope.table == 0x01
}

impl Names {
    /// The module that a row of AssemblyRef leads to: what stands in it is nested in no type.
    fn whole_module(&self, module: u32, row: u32) -> Option<TypeId>
        ensures { result ≡ references.whole_module (references.module_named self.now
            (references.referenced_assembly (tables_at self.now «module») row)) }
    {
        match self.module_named(name_at(self.tables(module), 0x23, row, 6)) {
            Some(module) => Some(TypeId { module, row: 0 }),
            None => None,
        }
    }

    /// What a scope is that isn't the reference to the type around.
    fn plain_scope(&self, module: u32, scope: RowOf) -> Option<TypeId>
        ensures { result ≡ references.plain_scope self.now «module» scope }
    {
        if scope.row == 0 {
            None
        } else if scope.table == 0x00 {
            Some(TypeId { module, row: 0 })
        } else if scope.table == 0x23 {
            self.whole_module(module, scope.row)
        } else {
            None
        }
    }

    /// The scope of the last of a reference and those to the types around it, which are noted from the inside.
    fn outermost(
        &self,
        alloc: Global,
        module: u32,
        row: u32,
    ) -> Result<(Vec<u32>, Option<TypeId>), Memory>
        ensures { IfOk result (λ found. references.reference self.now «module» row
            ≡ through self.now (tables_at self.now «module») found.0.items found.1) }
    {
        let mut rows = Vec::new(alloc);
        let mut next = row;
        let mut left = row_count(self.tables(module), 0x01);
        while 0 < left {
            rows.push(next)?;
            let scope = coded_at(self.tables(module), 0x01, next, 0);
            if !is_nested_scope(scope) {
                return Ok((rows, self.plain_scope(module, scope)));
            }
            next = scope.row;
            left -= 1;
        }
        Ok((rows, None))
    }

    /// The type that a reference names in its scope.
    fn in_scope(
        &self,
        alloc: Global,
        module: u32,
        row: u32,
        outer: Option<TypeId>,
    ) -> Result<Option<TypeId>, Memory>
        ensures { IfOk result (λ id. id ≡ references.in_scope self.now (tables_at self.now «module») row outer) }
    {
        let Some(outer) = outer else {
            return Ok(None);
        };
        let tables = self.tables(module);
        let namespace = name_at(tables, 0x01, row, 2);
        let name = name_at(tables, 0x01, row, 1);
        self.type_named(alloc, outer.module, outer.row, namespace, name)
    }

    /// The type that a row of TypeRef of a module names, if it leads to one (ECMA-335 II.22.38).
    pub fn reference(&self, alloc: Global, module: u32, row: u32) -> Result<Option<TypeId>, Memory>
        ensures { IfOk result (λ id. id ≡ references.reference self.now «module» row) }
    {
        let (rows, outer) = self.outermost(alloc, module, row)?;
        let mut rows = rows;
        let mut outer = outer;
        while let Some(row) = rows.pop() {
            outer = self.in_scope(alloc, module, row, outer)?;
        }
        Ok(outer)
    }

    /// The definition of a row of TypeDef or TypeRef of a module.
    pub fn definition(
        &self,
        alloc: Global,
        module: u32,
        table: u8,
        row: u32,
    ) -> Result<Option<TypeId>, Memory>
        ensures { IfOk result (λ id. id ≡ references.definition self.now «module» table row) }
    {
        match table {
            0x02 => Ok(self.definition_row(module, row)),
            0x01 => self.reference(alloc, module, row),
            _ => Ok(None),
        }
    }

    /// A row of TypeDef, if it is there.
    fn definition_row(&self, module: u32, row: u32) -> Option<TypeId>
        ensures { result ≡ references.definition_row self.now «module» row }
    {
        if 1 <= row && row as usize <= row_count(self.tables(module), 0x02) {
            Some(TypeId { module, row })
        } else {
            None
        }
    }
}
