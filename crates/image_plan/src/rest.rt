//! Tables, with the addresses that they name in them.
ghost use Rattle.std.specs.Prelude.{◌≡◌, ◌++◌, ◌+◌, ◌≤◌, length, nat_le, true, IfOk, OnOk};
ghost use Rattle.std.specs.List.{list_all};
ghost use Rattle.num_core.specs.declared.fix.Fix.{Fix as FixOf};
ghost use Rattle.image_plan.specs.Found.{address_in};
ghost use Rattle.image_plan.specs.Planned.{table_fixes_fit};
ghost use Rattle.image_plan.specs.Written.{padding, table_bytes, with_number, with_numbers};

use crate::addresses::Addresses;
use crate::pieces::TablePiece;
use crate::text::target;
use byteorder::{ByteOrder, LittleEndian};
use num_core::{Bytes, Fix, Memory};
use std::alloc::Global;

/// Puts the address that a fix names into eight bytes.
fn put_address(bytes: &mut Bytes, addresses: &Addresses, fix: Fix)
    requires { fix.at + 8 ≤ length bytes.old }
    ensures { bytes.new ≡ with_number (address_in addresses.now.found.entries) fix bytes.old }
{
    let mut eight = [0u8; 8];
    LittleEndian::write_u64(&mut eight, target(addresses, fix));
    bytes.overwrite(fix.at as usize, &eight);
}

/// The bytes of a table, with the addresses that its fixes name.
fn with_all(
    alloc: Global,
    addresses: &Addresses,
    bytes: &[u8],
    fixes: &[Fix],
) -> Result<Bytes, Memory>
    requires { list_all (λ (fix : FixOf). nat_le (fix.at + 8) (length bytes.now)) fixes.now ≡ true }
    ensures { IfOk result (λ all. all
        ≡ with_numbers (address_in addresses.now.found.entries) fixes.now bytes.now) }
{
    let mut all = Bytes::from_slice(alloc, bytes)?;
    for fix in fixes {
        put_address(&mut all, addresses, *fix);
    }
    Ok(all)
}

/// Adds zeros up to the next multiple of 8 behind a table.
fn put_padding(rest: &mut Bytes, table: &TablePiece) -> Result<(), Memory>
    ensures { OnOk result (rest.new ≡ rest.old ++ padding table.now.bytes) }
{
    let count = (8 - table.bytes.len() % 8) % 8;
    rest.extend_from_slice(&[0; 8][..count])
}

/// Adds tables.
pub(crate) fn put_tables(
    alloc: Global,
    rest: &mut Bytes,
    addresses: &Addresses,
    tables: &[TablePiece],
) -> Result<(), Memory>
    requires { list_all table_fixes_fit tables.now ≡ true }
    ensures { OnOk result (rest.new
        ≡ rest.old ++ table_bytes (address_in addresses.now.found.entries) tables.now) }
{
    for table in tables {
        let bytes = with_all(
            alloc,
            addresses,
            table.bytes.as_slice(),
            table.fixes.as_slice(),
        )?;
        rest.extend_from_slice(bytes.as_slice())?;
        put_padding(rest, table)?;
    }
    Ok(())
}
