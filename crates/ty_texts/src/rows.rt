//! The rows of members that belong to a type (ECMA-335 II.22.37).
ghost use Rattle.std.specs.Prelude.{◌≡◌, ◌+◌, ◌-◌, ◌≤◌, ◌^◌, ℕ};
ghost use Rattle.ty_names.specs.Definitions.{run_begin as run_begin_in, run_end as run_end_in};
ghost use Rattle.ty_names.specs.Modules.{row_count, tables_at};

use ty_load::Names;
use ty_names::index_at;
use ty_terms::TypeId;

/// The first row of another table that belongs to a type, by the column that tells where its run begins.
pub(crate) fn run_begin(names: &Names, id: TypeId, column: usize) -> u32
    ensures { result ≡ run_begin_in (tables_at names.now id.module) 0x02 column id.row }
{
    1.max(index_at(names.tables(id.module), 0x02, id.row, column))
}

/// How many rows of another table, which has so many, belong to a type.
pub(crate) fn run_count(names: &Names, id: TypeId, column: usize, rows: u32) -> u32
    ensures count { (target : ℕ) → rows ≡ row_count (tables_at names.now id.module) target →
        result ≡ run_end_in (tables_at names.now id.module) 0x02 column target id.row
        - run_begin_in (tables_at names.now id.module) 0x02 column id.row }
    ensures small { run_begin_in (tables_at names.now id.module) 0x02 column id.row + result ≤ 2 ^ 32 }
{
    let begin = run_begin(names, id, column);
    if id.row < names.type_count(id.module) {
        let next = TypeId {
            module: id.module,
            row: id.row + 1,
        };
        run_begin(names, next, column).saturating_sub(begin)
    } else {
        rows.saturating_sub(begin - 1)
    }
}
