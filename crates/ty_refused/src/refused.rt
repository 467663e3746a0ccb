//! What a refusal of a token names.
ghost use Rattle.std.specs.Prelude.{◌≡◌, ◌≢◌, ◌/◌, ◌%◌, ◌^◌, ◌==◌, ◌&&◌, ◌++◌, nat_le, OnOk};
ghost use Rattle.ty_load.specs.Refusals.{refused_name};
ghost use Rattle.ty_names.specs.Modules.{row_count as count_in};

use crate::references::push_reference;
use crate::tokens::push_token;
use md_tables::Table;
use num_core::{Bytes, Memory};
use std::alloc::Global;
use ty_load::Names;
use ty_names::row_count;

/// Whether a token names a row of TypeRef that is there.
fn is_reference(tables: &[Table], token: u32) -> bool
    ensures { result ≡ (token / 2 ^ 24 == 0x01 && nat_le 1 (token % 2 ^ 24)
        && nat_le (token % 2 ^ 24) (count_in tables.now 0x01)) }
{
    let row = token % 0x0100_0000;
    token / 0x0100_0000 == 0x01 && 1 <= row && row as usize <= row_count(tables, 0x01)
}

/// Adds what a refusal of a token that is no member reference names: the reference to a type by its name, and anything
/// else by the token.
pub fn push_refused(
    names: &Names,
    alloc: Global,
    text: &mut Bytes,
    module: u32,
    token: u32,
) -> Result<(), Memory>
    requires { token / 2 ^ 24 ≢ 0x0A }
    ensures { OnOk result (text.new ≡ text.old ++ refused_name names.now «module» token) }
{
    let tables = names.tables(module);
    if is_reference(tables, token) {
        push_reference(alloc, text, tables, token % 0x0100_0000)
    } else {
        push_token(text, token as u64)
    }
}
