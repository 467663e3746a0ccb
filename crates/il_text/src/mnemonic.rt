ghost use Rattle.std.specs.Prelude.{◌≡◌, ◌==◌, map, find as first_of};
ghost use Rattle.std.specs.Option.{option_map, option_or, option_copied};
ghost use Rattle.il_text.specs.Mnemonics.{row_numbered, row_numbered_in, row_of};
ghost use Rattle.il_text.specs.Reading.{row_named, row_named_in};
ghost use Rattle.il_text.specs.Mnemonics.{loads as load_rows, branches as branch_rows, arithmetic as arithmetic_rows};
ghost use Rattle.il_text.specs.Mnemonics.{objects as object_rows, elements as element_rows, prefixed as prefixed_rows};

use il_code::OperandForm;

/// An instruction that has a name in a text (ECMA-335 III): the byte that stands for its opcode, or the two bytes, of
/// which the first is then 0xFE; the name; and the form of its operand.
#[derive(Clone, Copy, Debug)]
pub struct Mnemonic(pub u16, pub &'static [u8], pub OperandForm);

static LOADS: [Mnemonic; 38] = [
    Mnemonic(0x00, b"nop", OperandForm::Absent),
    Mnemonic(0x01, b"break", OperandForm::Absent),
    Mnemonic(0x02, b"ldarg.0", OperandForm::Absent),
    Mnemonic(0x03, b"ldarg.1", OperandForm::Absent),
    Mnemonic(0x04, b"ldarg.2", OperandForm::Absent),
    Mnemonic(0x05, b"ldarg.3", OperandForm::Absent),
    Mnemonic(0x06, b"ldloc.0", OperandForm::Absent),
    Mnemonic(0x07, b"ldloc.1", OperandForm::Absent),
    Mnemonic(0x08, b"ldloc.2", OperandForm::Absent),
    Mnemonic(0x09, b"ldloc.3", OperandForm::Absent),
    Mnemonic(0x0A, b"stloc.0", OperandForm::Absent),
    Mnemonic(0x0B, b"stloc.1", OperandForm::Absent),
    Mnemonic(0x0C, b"stloc.2", OperandForm::Absent),
    Mnemonic(0x0D, b"stloc.3", OperandForm::Absent),
    Mnemonic(0x0E, b"ldarg.s", OperandForm::Unsigned8),
    Mnemonic(0x0F, b"ldarga.s", OperandForm::Unsigned8),
    Mnemonic(0x10, b"starg.s", OperandForm::Unsigned8),
    Mnemonic(0x11, b"ldloc.s", OperandForm::Unsigned8),
    Mnemonic(0x12, b"ldloca.s", OperandForm::Unsigned8),
    Mnemonic(0x13, b"stloc.s", OperandForm::Unsigned8),
    Mnemonic(0x14, b"ldnull", OperandForm::Absent),
    Mnemonic(0x15, b"ldc.i4.m1", OperandForm::Absent),
    Mnemonic(0x16, b"ldc.i4.0", OperandForm::Absent),
    Mnemonic(0x17, b"ldc.i4.1", OperandForm::Absent),
    Mnemonic(0x18, b"ldc.i4.2", OperandForm::Absent),
    Mnemonic(0x19, b"ldc.i4.3", OperandForm::Absent),
    Mnemonic(0x1A, b"ldc.i4.4", OperandForm::Absent),
    Mnemonic(0x1B, b"ldc.i4.5", OperandForm::Absent),
    Mnemonic(0x1C, b"ldc.i4.6", OperandForm::Absent),
    Mnemonic(0x1D, b"ldc.i4.7", OperandForm::Absent),
    Mnemonic(0x1E, b"ldc.i4.8", OperandForm::Absent),
    Mnemonic(0x1F, b"ldc.i4.s", OperandForm::Signed8),
    Mnemonic(0x20, b"ldc.i4", OperandForm::Signed32),
    Mnemonic(0x21, b"ldc.i8", OperandForm::Signed64),
    Mnemonic(0x25, b"dup", OperandForm::Absent),
    Mnemonic(0x26, b"pop", OperandForm::Absent),
    Mnemonic(0x28, b"call", OperandForm::Token),
    Mnemonic(0x2A, b"ret", OperandForm::Absent),
];

static BRANCHES: [Mnemonic; 27] = [
    Mnemonic(0x2B, b"br.s", OperandForm::Target8),
    Mnemonic(0x2C, b"brfalse.s", OperandForm::Target8),
    Mnemonic(0x2D, b"brtrue.s", OperandForm::Target8),
    Mnemonic(0x2E, b"beq.s", OperandForm::Target8),
    Mnemonic(0x2F, b"bge.s", OperandForm::Target8),
    Mnemonic(0x30, b"bgt.s", OperandForm::Target8),
    Mnemonic(0x31, b"ble.s", OperandForm::Target8),
    Mnemonic(0x32, b"blt.s", OperandForm::Target8),
    Mnemonic(0x33, b"bne.un.s", OperandForm::Target8),
    Mnemonic(0x34, b"bge.un.s", OperandForm::Target8),
    Mnemonic(0x35, b"bgt.un.s", OperandForm::Target8),
    Mnemonic(0x36, b"ble.un.s", OperandForm::Target8),
    Mnemonic(0x37, b"blt.un.s", OperandForm::Target8),
    Mnemonic(0x38, b"br", OperandForm::Target32),
    Mnemonic(0x39, b"brfalse", OperandForm::Target32),
    Mnemonic(0x3A, b"brtrue", OperandForm::Target32),
    Mnemonic(0x3B, b"beq", OperandForm::Target32),
    Mnemonic(0x3C, b"bge", OperandForm::Target32),
    Mnemonic(0x3D, b"bgt", OperandForm::Target32),
    Mnemonic(0x3E, b"ble", OperandForm::Target32),
    Mnemonic(0x3F, b"blt", OperandForm::Target32),
    Mnemonic(0x40, b"bne.un", OperandForm::Target32),
    Mnemonic(0x41, b"bge.un", OperandForm::Target32),
    Mnemonic(0x42, b"bgt.un", OperandForm::Target32),
    Mnemonic(0x43, b"ble.un", OperandForm::Target32),
    Mnemonic(0x44, b"blt.un", OperandForm::Target32),
    Mnemonic(0x45, b"switch", OperandForm::Targets),
];

static ARITHMETIC: [Mnemonic; 35] = [
    Mnemonic(0x46, b"ldind.i1", OperandForm::Absent),
    Mnemonic(0x47, b"ldind.u1", OperandForm::Absent),
    Mnemonic(0x48, b"ldind.i2", OperandForm::Absent),
    Mnemonic(0x49, b"ldind.u2", OperandForm::Absent),
    Mnemonic(0x4A, b"ldind.i4", OperandForm::Absent),
    Mnemonic(0x4B, b"ldind.u4", OperandForm::Absent),
    Mnemonic(0x4C, b"ldind.i8", OperandForm::Absent),
    Mnemonic(0x4D, b"ldind.i", OperandForm::Absent),
    Mnemonic(0x50, b"ldind.ref", OperandForm::Absent),
    Mnemonic(0x51, b"stind.ref", OperandForm::Absent),
    Mnemonic(0x52, b"stind.i1", OperandForm::Absent),
    Mnemonic(0x53, b"stind.i2", OperandForm::Absent),
    Mnemonic(0x54, b"stind.i4", OperandForm::Absent),
    Mnemonic(0x55, b"stind.i8", OperandForm::Absent),
    Mnemonic(0x58, b"add", OperandForm::Absent),
    Mnemonic(0x59, b"sub", OperandForm::Absent),
    Mnemonic(0x5A, b"mul", OperandForm::Absent),
    Mnemonic(0x5B, b"div", OperandForm::Absent),
    Mnemonic(0x5C, b"div.un", OperandForm::Absent),
    Mnemonic(0x5D, b"rem", OperandForm::Absent),
    Mnemonic(0x5E, b"rem.un", OperandForm::Absent),
    Mnemonic(0x5F, b"and", OperandForm::Absent),
    Mnemonic(0x60, b"or", OperandForm::Absent),
    Mnemonic(0x61, b"xor", OperandForm::Absent),
    Mnemonic(0x62, b"shl", OperandForm::Absent),
    Mnemonic(0x63, b"shr", OperandForm::Absent),
    Mnemonic(0x64, b"shr.un", OperandForm::Absent),
    Mnemonic(0x65, b"neg", OperandForm::Absent),
    Mnemonic(0x66, b"not", OperandForm::Absent),
    Mnemonic(0x67, b"conv.i1", OperandForm::Absent),
    Mnemonic(0x68, b"conv.i2", OperandForm::Absent),
    Mnemonic(0x69, b"conv.i4", OperandForm::Absent),
    Mnemonic(0x6A, b"conv.i8", OperandForm::Absent),
    Mnemonic(0x6D, b"conv.u4", OperandForm::Absent),
    Mnemonic(0x6E, b"conv.u8", OperandForm::Absent),
];

static OBJECTS: [Mnemonic; 30] = [
    Mnemonic(0x6F, b"callvirt", OperandForm::Token),
    Mnemonic(0x70, b"cpobj", OperandForm::Token),
    Mnemonic(0x71, b"ldobj", OperandForm::Token),
    Mnemonic(0x72, b"ldstr", OperandForm::Token),
    Mnemonic(0x73, b"newobj", OperandForm::Token),
    Mnemonic(0x74, b"castclass", OperandForm::Token),
    Mnemonic(0x75, b"isinst", OperandForm::Token),
    Mnemonic(0x79, b"unbox", OperandForm::Token),
    Mnemonic(0x7A, b"throw", OperandForm::Absent),
    Mnemonic(0x7B, b"ldfld", OperandForm::Token),
    Mnemonic(0x7C, b"ldflda", OperandForm::Token),
    Mnemonic(0x7D, b"stfld", OperandForm::Token),
    Mnemonic(0x7E, b"ldsfld", OperandForm::Token),
    Mnemonic(0x7F, b"ldsflda", OperandForm::Token),
    Mnemonic(0x80, b"stsfld", OperandForm::Token),
    Mnemonic(0x81, b"stobj", OperandForm::Token),
    Mnemonic(0x82, b"conv.ovf.i1.un", OperandForm::Absent),
    Mnemonic(0x83, b"conv.ovf.i2.un", OperandForm::Absent),
    Mnemonic(0x84, b"conv.ovf.i4.un", OperandForm::Absent),
    Mnemonic(0x85, b"conv.ovf.i8.un", OperandForm::Absent),
    Mnemonic(0x86, b"conv.ovf.u1.un", OperandForm::Absent),
    Mnemonic(0x87, b"conv.ovf.u2.un", OperandForm::Absent),
    Mnemonic(0x88, b"conv.ovf.u4.un", OperandForm::Absent),
    Mnemonic(0x89, b"conv.ovf.u8.un", OperandForm::Absent),
    Mnemonic(0x8A, b"conv.ovf.i.un", OperandForm::Absent),
    Mnemonic(0x8B, b"conv.ovf.u.un", OperandForm::Absent),
    Mnemonic(0x8C, b"box", OperandForm::Token),
    Mnemonic(0x8D, b"newarr", OperandForm::Token),
    Mnemonic(0x8E, b"ldlen", OperandForm::Absent),
    Mnemonic(0x8F, b"ldelema", OperandForm::Token),
];

static ELEMENTS: [Mnemonic; 43] = [
    Mnemonic(0x90, b"ldelem.i1", OperandForm::Absent),
    Mnemonic(0x91, b"ldelem.u1", OperandForm::Absent),
    Mnemonic(0x92, b"ldelem.i2", OperandForm::Absent),
    Mnemonic(0x93, b"ldelem.u2", OperandForm::Absent),
    Mnemonic(0x94, b"ldelem.i4", OperandForm::Absent),
    Mnemonic(0x95, b"ldelem.u4", OperandForm::Absent),
    Mnemonic(0x96, b"ldelem.i8", OperandForm::Absent),
    Mnemonic(0x97, b"ldelem.i", OperandForm::Absent),
    Mnemonic(0x9A, b"ldelem.ref", OperandForm::Absent),
    Mnemonic(0x9B, b"stelem.i", OperandForm::Absent),
    Mnemonic(0x9C, b"stelem.i1", OperandForm::Absent),
    Mnemonic(0x9D, b"stelem.i2", OperandForm::Absent),
    Mnemonic(0x9E, b"stelem.i4", OperandForm::Absent),
    Mnemonic(0x9F, b"stelem.i8", OperandForm::Absent),
    Mnemonic(0xA2, b"stelem.ref", OperandForm::Absent),
    Mnemonic(0xA3, b"ldelem", OperandForm::Token),
    Mnemonic(0xA4, b"stelem", OperandForm::Token),
    Mnemonic(0xA5, b"unbox.any", OperandForm::Token),
    Mnemonic(0xB3, b"conv.ovf.i1", OperandForm::Absent),
    Mnemonic(0xB4, b"conv.ovf.u1", OperandForm::Absent),
    Mnemonic(0xB5, b"conv.ovf.i2", OperandForm::Absent),
    Mnemonic(0xB6, b"conv.ovf.u2", OperandForm::Absent),
    Mnemonic(0xB7, b"conv.ovf.i4", OperandForm::Absent),
    Mnemonic(0xB8, b"conv.ovf.u4", OperandForm::Absent),
    Mnemonic(0xB9, b"conv.ovf.i8", OperandForm::Absent),
    Mnemonic(0xBA, b"conv.ovf.u8", OperandForm::Absent),
    Mnemonic(0xD0, b"ldtoken", OperandForm::Token),
    Mnemonic(0xD1, b"conv.u2", OperandForm::Absent),
    Mnemonic(0xD2, b"conv.u1", OperandForm::Absent),
    Mnemonic(0xD3, b"conv.i", OperandForm::Absent),
    Mnemonic(0xD4, b"conv.ovf.i", OperandForm::Absent),
    Mnemonic(0xD5, b"conv.ovf.u", OperandForm::Absent),
    Mnemonic(0xD6, b"add.ovf", OperandForm::Absent),
    Mnemonic(0xD7, b"add.ovf.un", OperandForm::Absent),
    Mnemonic(0xD8, b"mul.ovf", OperandForm::Absent),
    Mnemonic(0xD9, b"mul.ovf.un", OperandForm::Absent),
    Mnemonic(0xDA, b"sub.ovf", OperandForm::Absent),
    Mnemonic(0xDB, b"sub.ovf.un", OperandForm::Absent),
    Mnemonic(0xDC, b"endfinally", OperandForm::Absent),
    Mnemonic(0xDD, b"leave", OperandForm::Target32),
    Mnemonic(0xDE, b"leave.s", OperandForm::Target8),
    Mnemonic(0xDF, b"stind.i", OperandForm::Absent),
    Mnemonic(0xE0, b"conv.u", OperandForm::Absent),
];

static PREFIXED: [Mnemonic; 17] = [
    Mnemonic(0xFE01, b"ceq", OperandForm::Absent),
    Mnemonic(0xFE02, b"cgt", OperandForm::Absent),
    Mnemonic(0xFE03, b"cgt.un", OperandForm::Absent),
    Mnemonic(0xFE04, b"clt", OperandForm::Absent),
    Mnemonic(0xFE05, b"clt.un", OperandForm::Absent),
    Mnemonic(0xFE09, b"ldarg", OperandForm::Unsigned16),
    Mnemonic(0xFE0A, b"ldarga", OperandForm::Unsigned16),
    Mnemonic(0xFE0B, b"starg", OperandForm::Unsigned16),
    Mnemonic(0xFE0C, b"ldloc", OperandForm::Unsigned16),
    Mnemonic(0xFE0D, b"ldloca", OperandForm::Unsigned16),
    Mnemonic(0xFE0E, b"stloc", OperandForm::Unsigned16),
    Mnemonic(0xFE13, b"volatile.", OperandForm::Absent),
    Mnemonic(0xFE15, b"initobj", OperandForm::Token),
    Mnemonic(0xFE16, b"constrained.", OperandForm::Token),
    Mnemonic(0xFE1A, b"rethrow", OperandForm::Absent),
    Mnemonic(0xFE1C, b"sizeof", OperandForm::Token),
    Mnemonic(0xFE1E, b"readonly.", OperandForm::Absent),
];

/// Arguments, locals, constants, the stack, calls and the return.
pub fn loads() -> &'static [Mnemonic]
    ensures { map row_of result.now ≡ load_rows }
{
    &LOADS
}

/// Branches.
pub fn branches() -> &'static [Mnemonic]
    ensures { map row_of result.now ≡ branch_rows }
{
    &BRANCHES
}

/// Loads and stores by an address, arithmetic and conversions.
pub fn arithmetic() -> &'static [Mnemonic]
    ensures { map row_of result.now ≡ arithmetic_rows }
{
    &ARITHMETIC
}

/// Objects and fields, and conversions of unsigned numbers that are checked.
pub fn objects() -> &'static [Mnemonic]
    ensures { map row_of result.now ≡ object_rows }
{
    &OBJECTS
}

/// Elements of vectors, what is checked, and the ends of handlers.
pub fn elements() -> &'static [Mnemonic]
    ensures { map row_of result.now ≡ element_rows }
{
    &ELEMENTS
}

/// Opcodes of two bytes.
pub fn prefixed() -> &'static [Mnemonic]
    ensures { map row_of result.now ≡ prefixed_rows }
{
    &PREFIXED
}

/// The row of an opcode, if it has one.
pub(crate) fn row_of_opcode(number: u16) -> Option<&'static Mnemonic>
    ensures { option_map row_of (option_copied result) ≡ row_numbered number }
{
    let load = find(loads(), number);
    let branch = or_find(load, branches(), number);
    let calculation = or_find(branch, arithmetic(), number);
    let object = or_find(calculation, objects(), number);
    let element = or_find(object, elements(), number);
    or_find(element, prefixed(), number)
}

/// The row that was found, or else that of an opcode in a table.
fn or_find(
    found: Option<&'static Mnemonic>,
    rows: &'static [Mnemonic],
    number: u16,
) -> Option<&'static Mnemonic>
    ensures { option_map row_of (option_copied result)
        ≡ option_or (option_map row_of (option_copied found.entry)) (row_numbered_in (map row_of rows.now) number) }
{
    match found {
        Some(row) => Some(row),
        None => find(rows, number),
    }
}

/// The row of an opcode in a table.
fn find(rows: &'static [Mnemonic], number: u16) -> Option<&'static Mnemonic>
    ensures { option_map row_of (option_copied result) ≡ row_numbered_in (map row_of rows.now) number }
{
    first(rows, number)
}

/// The first row of a table that has the number.
fn first(rows: &'static [Mnemonic], number: u16) -> Option<&'static Mnemonic>
    ensures { option_copied result ≡ first_of (λ row. row.0 == number) rows.now }
{
    rows.iter().find(|row| row.0 == number)
}

/// The row of a name, if an instruction has it.
pub(crate) fn row_of_name(word: &[u8]) -> Option<&'static Mnemonic>
    ensures { option_map row_of (option_copied result) ≡ row_named word.now }
{
    let load = find_named(loads(), word);
    let branch = or_find_named(load, branches(), word);
    let calculation = or_find_named(branch, arithmetic(), word);
    let object = or_find_named(calculation, objects(), word);
    let element = or_find_named(object, elements(), word);
    or_find_named(element, prefixed(), word)
}

/// The row that was found, or else that of a name in a table.
fn or_find_named(
    found: Option<&'static Mnemonic>,
    rows: &'static [Mnemonic],
    word: &[u8],
) -> Option<&'static Mnemonic>
    ensures { option_map row_of (option_copied result)
        ≡ option_or (option_map row_of (option_copied found.entry)) (row_named_in (map row_of rows.now) word.now) }
{
    match found {
        Some(row) => Some(row),
        None => find_named(rows, word),
    }
}

/// The row of a name in a table.
fn find_named(rows: &'static [Mnemonic], word: &[u8]) -> Option<&'static Mnemonic>
    ensures { option_map row_of (option_copied result) ≡ row_named_in (map row_of rows.now) word.now }
{
    for row in rows {
        if row.1 == word {
            return Some(row);
        }
    }
    None
}
