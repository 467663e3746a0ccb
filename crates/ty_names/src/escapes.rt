//! Names as they are printed.
ghost use Rattle.std.specs.Prelude.{◌≡◌, ◌<◌, ◌++◌, IfOk, IsUtf8, OnOk, slice_get};
ghost use Rattle.std.specs.Str.{chars};
ghost use Rattle.std.specs.Char.Escape.{encode_utf16};
ghost use Rattle.std.specs.List.{flat_map};
ghost use Rattle.ty_names.specs.Escapes.{behind_angle, escaped, has_meaning, hex_digit, is_dot, is_plain, name_text};
ghost use Rattle.ty_names.specs.Escapes.{name_units_text};
ghost use Rattle.ty_names.specs.Escapes.{qualified_text, type_name_text, type_units_text, unit_text, units as units_in};
ghost use Rattle.ty_names.specs.Escapes.{units_text};

use num_core::{Bytes, Memory};
use std::alloc::Global;

/// Adds bytes at the end of a text.
fn push(text: &mut Bytes, bytes: &[u8]) -> Result<(), Memory>
    ensures { OnOk result (text.new ≡ text.old ++ bytes.now) }
{
    text.extend_from_slice(bytes)
}

/// An upper-case hexadecimal digit.
fn hex_digit(n: u16) -> u8
    requires { n < 16 }
    ensures { result ≡ hex_digit n }
{
    if n < 10 {
        0x30 + n as u8
    } else {
        0x37 + n as u8
    }
}

/// Adds `\u` and the four upper-case hexadecimal digits of a unit.
pub fn push_escaped(text: &mut Bytes, unit: u16) -> Result<(), Memory>
    ensures { OnOk result (text.new ≡ text.old ++ escaped unit) }
{
    push(
        text,
        &[
            0x5C,
            0x75,
            hex_digit(unit / 4096 % 16),
            hex_digit(unit / 256 % 16),
            hex_digit(unit / 16 % 16),
            hex_digit(unit % 16),
        ],
    )
}

/// Whether a unit has a meaning in texts: `"`, `#`, `&`, brackets, `+`, `,`, `:` and `\`.
fn has_meaning(unit: u16) -> bool
    ensures { result ≡ has_meaning unit }
{
    matches!(
        unit,
        0x22 | 0x23 | 0x26 | 0x28 | 0x29 | 0x2B | 0x2C | 0x3A | 0x3C | 0x3E | 0x5B | 0x5C | 0x5D
    )
}

/// Whether a unit stays as it is.
fn is_plain(unit: u16) -> bool
    ensures { result ≡ is_plain unit }
{
    0x20 < unit && unit < 0x7F && !has_meaning(unit)
}

/// Adds a unit.
fn push_unit(text: &mut Bytes, unit: u16) -> Result<(), Memory>
    ensures { OnOk result (text.new ≡ text.old ++ unit_text unit) }
{
    if is_plain(unit) {
        push(text, &[unit as u8])
    } else {
        push_escaped(text, unit)
    }
}

/// Adds units.
fn push_units(text: &mut Bytes, units: &[u16]) -> Result<(), Memory>
    ensures { OnOk result (text.new ≡ text.old ++ units_text units.now) }
{
    for unit in units {
        push_unit(text, *unit)?;
    }
    Ok(())
}

/// Adds the units behind a `<` at the begin of a name.
fn push_behind_angle(text: &mut Bytes, units: &[u16]) -> Result<(), Memory>
    ensures { OnOk result (text.new ≡ text.old ++ behind_angle units.now) }
{
    let mut is_closed = false;
    for unit in units {
        if !is_closed && *unit == 0x3E {
            push(text, b">")?;
            is_closed = true;
        } else {
            push_unit(text, *unit)?;
        }
    }
    Ok(())
}

/// Adds the units of a name.
fn push_name_units(text: &mut Bytes, units: &[u16]) -> Result<(), Memory>
    ensures { OnOk result (text.new ≡ text.old ++ name_units_text units.now) }
{
    match units.split_first() {
        Some((first, rest)) if *first == 0x3C => {
            push(text, b"<")?;
            push_behind_angle(text, rest)
        }
        _ => push_units(text, units),
    }
}

/// Whether a dot stands at a place of the units.
fn is_dot(units: &[u16], at: usize) -> bool
    ensures { result ≡ is_dot (slice_get units.now at) }
{
    match units.get(at) {
        Some(unit) => *unit == 0x2E,
        None => false,
    }
}

/// Adds the units of the name of a type.
fn push_type_units(text: &mut Bytes, units: &[u16]) -> Result<(), Memory>
    ensures { OnOk result (text.new ≡ text.old ++ type_units_text units.now) }
{
    if units.is_empty() {
        return push_escaped(text, 0);
    }
    let last = units.len() - 1;
    if is_dot(units, last) {
        push_name_units(text, &units[..last])?;
        push_escaped(text, 0x2E)
    } else {
        push_name_units(text, units)
    }
}

/// The units of UTF-16 of characters.
fn units_of(alloc: Global, chars: &[char]) -> Result<Vec<u16>, Memory>
    ensures { IfOk result (λ units. units.items ≡ flat_map encode_utf16 chars.now) }
{
    let mut units = Vec::new(alloc);
    for c in chars {
        let mut pair = [0; 2];
        units.extend_from_slice(c.encode_utf16(&mut pair))?;
    }
    Ok(units)
}

/// The characters of a text.
fn characters(alloc: Global, text: &str) -> Result<Vec<char>, Memory>
    ensures { IfOk result (λ characters. characters.items ≡ chars text.now) }
{
    Ok(text.chars().collect(alloc)?)
}

/// The units of UTF-16 of a name.
fn units(alloc: Global, name: &[u8]) -> Result<Vec<u16>, Memory>
    requires { IsUtf8 name.now }
    ensures { IfOk result (λ units. units.items ≡ units_in name.now) }
{
    match std::str::from_utf8(name) {
        Ok(name) => {
            let characters = characters(alloc, name)?;
            units_of(alloc, characters.as_slice())
        }
        Err(_) => unreachable!(),
    }
}

/// Adds the text of a name: each unit of UTF-16 that isn't printed or has a meaning in texts as `\uXXXX`; a `<` at its
/// begin and the first `>` behind that stay as they are.
pub fn push_name(alloc: Global, text: &mut Bytes, name: &[u8]) -> Result<(), Memory>
    requires { IsUtf8 name.now }
    ensures { OnOk result (text.new ≡ text.old ++ name_text name.now) }
{
    let units = units(alloc, name)?;
    push_name_units(text, units.as_slice())
}

/// Adds the text of the name of a type. An empty one is `\u0000`, and a dot at its end `\u002E`.
pub fn push_type_name(alloc: Global, text: &mut Bytes, name: &[u8]) -> Result<(), Memory>
    requires { IsUtf8 name.now }
    ensures { OnOk result (text.new ≡ text.old ++ type_name_text name.now) }
{
    let units = units(alloc, name)?;
    push_type_units(text, units.as_slice())
}

/// Adds the text of a namespace, if it has one, and of the name of a type in it.
pub fn push_qualified(
    alloc: Global,
    text: &mut Bytes,
    namespace: &[u8],
    name: &[u8],
) -> Result<(), Memory>
    requires namespace { IsUtf8 namespace.now }
    requires name { IsUtf8 name.now }
    ensures { OnOk result (text.new ≡ text.old ++ qualified_text namespace.now name.now) }
{
    if !namespace.is_empty() {
        push_name(alloc, text, namespace)?;
        push(text, b".")?;
    }
    push_type_name(alloc, text, name)
}
