//! What stands in front of some bytes, and the bytes behind it.
ghost use Rattle.std.specs.Prelude.{◌≡◌, Ok};
ghost use Rattle.md_sigs.specs.Elements.{args_at, class_at, class_byte, element_at, generic_method_at, head_at};
ghost use Rattle.md_sigs.specs.Elements.{head_behind, by_first_byte, index_at, instance_at, is_outside as outside_test};
ghost use Rattle.md_sigs.specs.Elements.{left_of_number as left_of, locals_at, method_at, modifier_at, mvar_at};
ghost use Rattle.md_sigs.specs.Elements.{number_at};
ghost use Rattle.md_sigs.specs.Elements.{primitive_of, special as special_at, type_behind as type_at, var_at};
ghost use Rattle.md_sigs.specs.Reading.{Gives};

use crate::element::{Element, Head, Place, Stop};
use md_heaps::read_compressed;
use ty_terms::{Primitive, TypeId};

/// How many bytes are left from the first on that can't begin or go on with a compressed number.
fn left_of_number(bytes: &[u8]) -> usize
    ensures { result ≡ left_of bytes.now }
{
    let Some((first, rest)) = bytes.split_first() else {
        return 0;
    };
    if *first < 0xE0 { 0 } else { rest.len() + 1 }
}

/// A compressed number (ECMA-335 II.23.2).
fn number(bytes: &[u8]) -> Result<(u32, &[u8]), Stop>
    ensures { Gives (λ x. (x.0, x.1.now)) result (number_at bytes.now) }
{
    match read_compressed(bytes, 0) {
        Some((n, size)) => Ok((n, &bytes[size..])),
        None => Err(Stop::Bad(left_of_number(bytes))),
    }
}

/// An index of the tables TypeDef, TypeRef and TypeSpec (II.23.2.8).
fn index(bytes: &[u8]) -> Result<(u32, &[u8]), Stop>
    ensures { Gives (λ x. (x.0, x.1.now)) result (index_at bytes.now) }
{
    let (n, rest) = number(bytes)?;
    if n % 4 == 3 {
        Err(Stop::Bad(rest.len() + 1))
    } else {
        Ok((n, rest))
    }
}

fn locals(bytes: &[u8]) -> Result<(Head, &[u8]), Stop>
    ensures { Gives (λ x. (x.0, x.1.now)) result (locals_at bytes.now) }
{
    let (n, rest) = number(bytes)?;
    Ok((Head::Locals(n), rest))
}

fn args(bytes: &[u8]) -> Result<(Head, &[u8]), Stop>
    ensures { Gives (λ x. (x.0, x.1.now)) result (args_at bytes.now) }
{
    let (n, rest) = number(bytes)?;
    Ok((Head::Args(n), rest))
}

fn method(bytes: &[u8], instance: bool, generic: u32) -> Result<(Head, &[u8]), Stop>
    ensures { Gives (λ x. (x.0, x.1.now)) result (method_at instance generic bytes.now) }
{
    let (n, rest) = number(bytes)?;
    Ok((Head::Method(instance, generic, n), rest))
}

fn generic_method(bytes: &[u8], instance: bool) -> Result<(Head, &[u8]), Stop>
    ensures { Gives (λ x. (x.0, x.1.now)) result (generic_method_at instance bytes.now) }
{
    let (n, rest) = number(bytes)?;
    method(rest, instance, n)
}

/// The beginning of a signature, by its first byte (II.23.2.1 to II.23.2.6, II.23.2.15).
#[tactic(auto, unfolding(crate::specs::Elements::head_behind))]
pub(crate) fn read_head(bytes: &[u8]) -> Result<(Head, &[u8]), Stop>
    ensures { Gives (λ x. (x.0, x.1.now)) result (head_at bytes.now) }
{
    let Some((first, rest)) = bytes.split_first() else {
        return Err(Stop::Bad(0));
    };
    match *first {
        0x06 => Ok((Head::Field, rest)),
        0x07 => locals(rest),
        0x0A => args(rest),
        0x00 => method(rest, false, 0),
        0x20 => method(rest, true, 0),
        0x10 => generic_method(rest, false),
        0x30 => generic_method(rest, true),
        _ => Err(Stop::Bad(rest.len() + 1)),
    }
}

/// The type that an element type alone stands for (II.23.1.16).
#[tactic(auto, unfolding(crate::specs::Elements::primitive_of))]
fn primitive(element: u8) -> Option<Primitive>
    ensures { result ≡ primitive_of element }
{
    match element {
        0x02 => Some(Primitive::Boolean),
        0x03 => Some(Primitive::Char),
        0x04 => Some(Primitive::I1),
        0x05 => Some(Primitive::U1),
        0x06 => Some(Primitive::I2),
        0x07 => Some(Primitive::U2),
        0x08 => Some(Primitive::I4),
        0x09 => Some(Primitive::U4),
        0x0A => Some(Primitive::I8),
        0x0B => Some(Primitive::U8),
        0x0E => Some(Primitive::String),
        0x18 => Some(Primitive::I),
        0x19 => Some(Primitive::U),
        0x1C => Some(Primitive::Object),
        _ => None,
    }
}

/// The element types that the standard defines and the profile doesn't list.
const OUTSIDE: [u8; 17] = [
    0x00, 0x0C, 0x0D, 0x0F, 0x14, 0x16, 0x1B, 0x21, 0x40, 0x41, 0x45, 0x50, 0x51, 0x52, 0x53, 0x54,
    0x55,
];

/// Whether the standard defines this element type and the profile doesn't list it.
#[tactic(auto, unfolding(crate::specs::Elements::is_outside, crate::specs::Elements::outside))]
fn is_outside(element: u8) -> bool
    ensures { result ≡ outside_test element }
{
    OUTSIDE.iter().any(|outside| *outside == element)
}

/// CLASS and VALUETYPE (II.23.2.12).
fn class(bytes: &[u8], module: u32) -> Result<(Element, &[u8]), Stop>
    ensures { Gives (λ x. (x.0, x.1.now)) result (class_at «module» bytes.now) }
{
    let (row, rest) = index(bytes)?;
    Ok((Element::Named(TypeId { module, row }), rest))
}

fn var(bytes: &[u8]) -> Result<(Element, &[u8]), Stop>
    ensures { Gives (λ x. (x.0, x.1.now)) result (var_at bytes.now) }
{
    let (n, rest) = number(bytes)?;
    Ok((Element::Var(n), rest))
}

fn mvar(bytes: &[u8]) -> Result<(Element, &[u8]), Stop>
    ensures { Gives (λ x. (x.0, x.1.now)) result (mvar_at bytes.now) }
{
    let (n, rest) = number(bytes)?;
    Ok((Element::MVar(n), rest))
}

/// CMOD_REQD and CMOD_OPT with their type (II.23.2.7).
fn modifier(bytes: &[u8]) -> Result<(Element, &[u8]), Stop>
    ensures { Gives (λ x. (x.0, x.1.now)) result (modifier_at bytes.now) }
{
    let (_, rest) = index(bytes)?;
    Ok((Element::Modifier, rest))
}

/// CLASS or VALUETYPE behind GENERICINST.
#[tactic(auto, unfolding(crate::specs::Elements::class_byte))]
fn class_mark(bytes: &[u8]) -> Result<(u8, &[u8]), Stop>
    ensures { Gives (λ x. (x.0, x.1.now)) result (by_first_byte class_byte bytes.now) }
{
    let Some((first, rest)) = bytes.split_first() else {
        return Err(Stop::Bad(0));
    };
    match *first {
        0x11 | 0x12 => Ok((*first, rest)),
        _ => Err(Stop::Bad(rest.len() + 1)),
    }
}

/// GENERICINST.
#[tactic(auto, unfolding(crate::specs::Elements::instance_at))]
fn instance(bytes: &[u8], module: u32) -> Result<(Element, &[u8]), Stop>
    ensures { Gives (λ x. (x.0, x.1.now)) result (instance_at «module» bytes.now) }
{
    let (_, indexed) = class_mark(bytes)?;
    let (row, counted) = index(indexed)?;
    let (n, rest) = number(counted)?;
    Ok((Element::Instance(TypeId { module, row }, n), rest))
}

/// What is behind the first byte of an element that may stand at any place and isn't a type alone.
#[tactic(auto, unfolding(crate::specs::Elements::type_behind))]
fn type_behind(first: u8, rest: &[u8], module: u32) -> Result<(Element, &[u8]), Stop>
    ensures { Gives (λ x. (x.0, x.1.now)) result (type_at «module» first rest.now) }
{
    match first {
        0x11 | 0x12 => class(rest, module),
        0x13 => var(rest),
        0x15 => instance(rest, module),
        0x1D => Ok((Element::Vector, rest)),
        0x1E => mvar(rest),
        0x1F | 0x20 => modifier(rest),
        _ if is_outside(first) => Err(Stop::Outside(first)),
        _ => Err(Stop::Bad(rest.len() + 1)),
    }
}

/// The same at a place, with what may stand only there.
#[tactic(auto, unfolding(crate::specs::Elements::special))]
fn special(first: u8, rest: &[u8], module: u32, place: Place) -> Result<(Element, &[u8]), Stop>
    ensures { Gives (λ x. (x.0, x.1.now)) result (special_at «module» place first rest.now) }
{
    match place {
        Place::Plain => type_behind(first, rest, module),
        Place::Variable if first == 0x10 => Ok((Element::ByRef, rest)),
        Place::Variable => type_behind(first, rest, module),
        Place::Returned if first == 0x01 => Ok((Element::Primitive(Primitive::Void), rest)),
        Place::Returned if first == 0x10 => Err(Stop::Outside(first)),
        Place::Returned => type_behind(first, rest, module),
    }
}

/// The element at a place (II.23.2.10 to II.23.2.12).
#[tactic(auto, unfolding(crate::specs::Elements::element_behind))]
pub(crate) fn read_element(
    bytes: &[u8],
    module: u32,
    place: Place,
) -> Result<(Element, &[u8]), Stop>
    ensures { Gives (λ x. (x.0, x.1.now)) result (element_at «module» place bytes.now) }
{
    let Some((first, rest)) = bytes.split_first() else {
        return Err(Stop::Bad(0));
    };
    match primitive(*first) {
        Some(primitive) => Ok((Element::Primitive(primitive), rest)),
        None => special(*first, rest, module, place),
    }
}
