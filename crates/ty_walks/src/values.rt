//! The value types of a world.
ghost use Rattle.std.specs.Prelude.{◌≡◌, ◌++◌, ◌∷◌, [], cond, filter, IfOk, OnOk};
ghost use Rattle.std.specs.List.{list_any};
ghost use Rattle.ty_load.specs.Bases.{is_value_type as is_value_in, same_id};
ghost use Rattle.ty_load.specs.Cycles.{all_ids, ids_of};

use crate::bases::is_value_type;
use crate::keys::keys_of;
use indexmap::IndexSet;
use num_core::{List, Memory};
use std::alloc::Global;
use std::marker::Model;
use ty_load::Names;
use ty_terms::TypeId;

/// Adds a definition, if it is a value type.
fn add_value(
    names: &Names,
    alloc: Global,
    values: &mut List<TypeId>,
    id: TypeId,
) -> Result<(), Memory>
    ensures { OnOk result (values.new ≡ values.old ++ cond (is_value_in names.now id) (id ∷ []) []) }
{
    if is_value_type(names, alloc, id)? {
        values.push(id).map_err(|_| Memory)?;
    }
    Ok(())
}

/// Adds the value types of a module, in order of rows.
fn add_values(
    names: &Names,
    alloc: Global,
    values: &mut List<TypeId>,
    module: u32,
) -> Result<(), Memory>
    ensures { OnOk result (values.new ≡ values.old ++ filter (is_value_in names.now) (ids_of names.now «module»)) }
{
    for before in 0..names.type_count(module) {
        let row = before + 1;
        add_value(names, alloc, values, TypeId { module, row })?;
    }
    Ok(())
}

/// The definitions that are value types, in order of modules and rows.
fn value_types(names: &Names, alloc: Global) -> Result<List<TypeId>, Memory>
    ensures { IfOk result (λ values. values ≡ filter (is_value_in names.now) (all_ids names.now)) }
{
    let mut values = List::new(alloc);
    for module in 0..names.module_count() {
        add_values(names, alloc, &mut values, module)?;
    }
    Ok(values)
}

/// The definitions of a world that are value types, which contracts see as the list of them, in order of modules and
/// rows. Whether one is among them is told by a table.
#[derive(Drop)]
pub struct Values {
    ids: List<TypeId>,
    known: IndexSet<(u32, u32)>,
}

impl Model for Values {
    ghost use Rattle.std.specs.Prelude.{List as ListOf};
    ghost use Rattle.ty_terms.specs.declared.names.TypeId.{TypeId as Id};
    ghost use Rattle.ty_walks.specs.Known.{TellIds};

    ghost Value = { ListOf Id };

    ghost view = { λ values. values.ids };

    ghost invariant = { λ values. TellIds values.ids values.known.keys };
}

impl Values {
    /// The value types of a world: those listed, and no other definition, are value types.
    pub fn new(alloc: Global, names: &Names) -> Result<Values, Memory>
        ensures listed { IfOk result (λ values. values ≡ filter (is_value_in names.now) (all_ids names.now)) }
        ensures told { IfOk result (λ values. (id : TypeId) →
            list_any (λ value. same_id value id) values ≡ is_value_in names.now id) }
    {
        let ids = value_types(names, alloc)?;
        let known = keys_of(alloc, ids.as_slice())?;
        Ok(Values { ids, known })
    }

    /// The value types.
    pub fn list(&self) -> &List<TypeId>
        ensures { result.now ≡ self.now }
    {
        &self.ids
    }

    /// Whether a definition is one of them.
    pub fn has(&self, id: TypeId) -> bool
        ensures { result ≡ list_any (λ value. same_id value id) self.now }
    {
        self.known.contains(&(id.module, id.row))
    }
}
