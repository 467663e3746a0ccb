//! Types of one module that have one text.
ghost use Rattle.std.specs.Prelude.{◌≡◌, ◌==◌, ◌&&◌, ◌||◌, ℕ, List, length, find, not, true, IfOk};
ghost use Rattle.std.specs.Str.{bytes_eq};
ghost use Rattle.ty_load.specs.Cycles.{all_ids, ids_of, is_nested_in, is_on_cycle};
ghost use Rattle.ty_load.specs.Valid.{has_earlier_text, has_text, repeated_type as repeated_type_in};
ghost use Rattle.ty_names.specs.Definitions.{enclosing};
ghost use Rattle.ty_names.specs.Modules.{tables_at};
ghost use Rattle.ty_names.specs.TypeTexts.{definition_text, own_text};
ghost use Rattle.ty_texts.specs.Repeats.{are_in_order as are_in_order_in, tells, tells_own};

use crate::definitions::{push_definition, push_own};
use indexmap::IndexSet;
use num_core::{List, Memory};
use std::alloc::Global;
use ty_load::Names;
use ty_terms::TypeId;

/// How many types there are in all modules.
fn count_all(names: &Names) -> u64
    ensures { result ≡ length (all_ids names.now) }
{
    let mut count = 0;
    let mut module = 0;
    while module < names.module_count() {
        count += names.type_count(module) as u64;
        module += 1;
    }
    count
}

/// Whether a type is nested in itself, over others or not, where there are so many types.
fn is_around_itself(names: &Names, id: TypeId, all: u64) -> bool
    requires { all ≡ length (all_ids names.now) }
    ensures { result ≡ is_on_cycle names.now (is_nested_in names.now) id }
{
    let mut row = id.row;
    let mut left = all;
    while 0 < left {
        row = names.enclosing(TypeId {
            module: id.module,
            row,
        });
        if row == 0 {
            return false;
        }
        if row == id.row {
            return true;
        }
        left -= 1;
    }
    false
}

/// Notes a text, and tells whether it is new.
fn note(told: &mut IndexSet<Vec<u8>>, text: Vec<u8>) -> Result<bool, Memory>
    ensures fresh { IfOk result (λ fresh. fresh ≡ not (tells told.old.keys text.items)) }
    ensures noted { IfOk result (λ fresh. fresh ≡ true → (other : List ℕ) →
        tells told.new.keys other ≡ (tells told.old.keys other || bytes_eq other text.items)) }
{
    let (_, fresh) = told.insert_full(text)?;
    Ok(fresh)
}

/// Notes the text of a type that has one, and tells whether it is new.
fn note_definition(
    names: &Names,
    alloc: Global,
    told: &mut IndexSet<Vec<u8>>,
    id: TypeId,
    all: u64,
) -> Result<bool, Memory>
    requires { all ≡ length (all_ids names.now) }
    ensures fresh { IfOk result (λ fresh.
        fresh ≡ not (has_text names.now id && tells told.old.keys (definition_text names.now id))) }
    ensures noted { IfOk result (λ fresh. fresh ≡ true → (other : List ℕ) → tells told.new.keys other
        ≡ (tells told.old.keys other || (has_text names.now id && bytes_eq other (definition_text names.now id)))) }
{
    if is_around_itself(names, id, all) {
        return Ok(true);
    }
    let mut text = List::new(alloc);
    push_definition(names, alloc, &mut text, id)?;
    note(told, text.into_vec())
}

/// The first type of a module whose text an earlier one has too, by all texts.
fn repeated_by_texts(
    names: &Names,
    alloc: Global,
    module: u32,
    all: u64,
) -> Result<Option<TypeId>, Memory>
    requires { all ≡ length (all_ids names.now) }
    ensures { IfOk result (λ id. id ≡ find (has_earlier_text names.now) (ids_of names.now «module»)) }
{
    let mut told = IndexSet::new(alloc);
    let mut before = 0;
    while before < names.type_count(module) {
        let id = TypeId {
            module,
            row: before + 1,
        };
        if !note_definition(names, alloc, &mut told, id, all)? {
            return Ok(Some(id));
        }
        before += 1;
    }
    Ok(None)
}

/// Whether each type of a module stands behind the one around it, as the standard asks (ECMA-335 II.22.32).
fn are_in_order(names: &Names, module: u32) -> bool
    ensures { result ≡ are_in_order_in names.now «module» }
{
    let mut before = 0;
    while before < names.type_count(module) {
        let row = before + 1;
        if names.enclosing(TypeId { module, row }) >= row {
            return false;
        }
        before = row;
    }
    true
}

/// The row of the type around a type, or 0, and the type's own name in its text.
fn own_key(names: &Names, alloc: Global, id: TypeId) -> Result<(u32, Vec<u8>), Memory>
    ensures outer { IfOk result (λ key. key.0 ≡ enclosing (tables_at names.now id.module) id.row) }
    ensures own { IfOk result (λ key. key.1.items ≡ own_text (tables_at names.now id.module) id.row) }
{
    let mut own = List::new(alloc);
    push_own(names, alloc, &mut own, id)?;
    Ok((names.enclosing(id), own.into_vec()))
}

/// Notes a key, and tells whether it is new.
fn note_own(told: &mut IndexSet<(u32, Vec<u8>)>, key: (u32, Vec<u8>)) -> Result<bool, Memory>
    ensures fresh { IfOk result (λ fresh. fresh ≡ not (tells_own told.old.keys key.0 key.1.items)) }
    ensures noted { IfOk result (λ fresh. fresh ≡ true → (outer : ℕ) (own : List ℕ) →
        tells_own told.new.keys outer own
        ≡ (tells_own told.old.keys outer own || (outer == key.0 && bytes_eq own key.1.items))) }
{
    let (_, fresh) = told.insert_full(key)?;
    Ok(fresh)
}

/// The first type of a module in order whose text an earlier one has too. Up to it no two types have one text, so a
/// text is told by the type around and the own name.
fn repeated_by_names(names: &Names, alloc: Global, module: u32) -> Result<Option<TypeId>, Memory>
    requires { are_in_order_in names.now «module» ≡ true }
    ensures { IfOk result (λ id. id ≡ find (has_earlier_text names.now) (ids_of names.now «module»)) }
{
    let mut told = IndexSet::new(alloc);
    let mut before = 0;
    while before < names.type_count(module) {
        let id = TypeId {
            module,
            row: before + 1,
        };
        let key = own_key(names, alloc, id)?;
        if !note_own(&mut told, key)? {
            return Ok(Some(id));
        }
        before += 1;
    }
    Ok(None)
}

/// The first type of a module whose text an earlier one has too.
fn repeated_in(
    names: &Names,
    alloc: Global,
    module: u32,
    all: u64,
) -> Result<Option<TypeId>, Memory>
    requires { all ≡ length (all_ids names.now) }
    ensures { IfOk result (λ id. id ≡ find (has_earlier_text names.now) (ids_of names.now «module»)) }
{
    if are_in_order(names, module) {
        repeated_by_names(names, alloc, module)
    } else {
        repeated_by_texts(names, alloc, module, all)
    }
}

/// The first type, by modules and rows, whose text an earlier type of its module has too. A type that is nested in
/// itself has none.
pub fn repeated_type(names: &Names, alloc: Global) -> Result<Option<TypeId>, Memory>
    ensures { IfOk result (λ id. id ≡ repeated_type_in names.now) }
{
    let all = count_all(names);
    let mut module = 0;
    while module < names.module_count() {
        let found = repeated_in(names, alloc, module, all)?;
        if found.is_some() {
            return Ok(found);
        }
        module += 1;
    }
    Ok(None)
}
