//! The texts of nodes.
ghost use Rattle.std.specs.Prelude.{◌≡◌, ◌++◌, ◌∷◌, [], if◌then◌else◌, IfOk, OnOk};
ghost use Rattle.ty_load.specs.Texts as texts;
ghost use Rattle.ty_names.specs.Escapes.{escaped};

use crate::fields::push_field;
use crate::methods::push_method;
use crate::put::push;
use crate::types::push_type;
use num_core::{Bytes, List, Memory, Text, TextFault};
use std::alloc::Global;
use ty_load::Names;
use ty_names::push_escaped;
use ty_terms::{FieldName, MethodId, Node, Ty};

/// Whether a unit of a string stays as it is.
fn is_plain(unit: u16) -> bool
    ensures { result ≡ texts.is_plain_in_string unit }
{
    0x20 <= unit && unit < 0x7F && unit != 0x22 && unit != 0x5C
}

/// Adds a unit of a string.
fn push_unit(text: &mut Bytes, unit: u16) -> Result<(), Memory>
    ensures { OnOk result (text.new
        ≡ text.old ++ (if texts.is_plain_in_string unit then unit ∷ [] else escaped unit)) }
{
    if is_plain(unit) {
        push(text, &[unit as u8])
    } else {
        push_escaped(text, unit)
    }
}

/// Adds the units of a string in quotes.
fn push_quoted(text: &mut Bytes, units: &[u16]) -> Result<(), Memory>
    ensures { OnOk result (text.new ≡ text.old ++ texts.quoted units.now) }
{
    push(text, b"\"")?;
    for unit in units {
        push_unit(text, *unit)?;
    }
    push(text, b"\"")
}

/// Adds a word and the text of a type.
fn push_of_type(
    names: &Names,
    alloc: Global,
    text: &mut Bytes,
    word: &[u8],
    ty: &Ty,
) -> Result<(), Memory>
    ensures { OnOk result (text.new ≡ text.old ++ (word.now ++ texts.type_text names.now ty.now)) }
{
    push(text, word)?;
    push_type(names, alloc, text, ty)
}

/// Adds a word and the text of a method.
fn push_of_method(
    names: &Names,
    alloc: Global,
    text: &mut Bytes,
    word: &[u8],
    owner: &Ty,
    method: MethodId,
    args: &List<Ty>,
) -> Result<(), Memory>
    ensures { OnOk result (text.new
        ≡ text.old ++ (word.now ++ texts.method_text names.now owner.now method args.now)) }
{
    push(text, word)?;
    push_method(names, alloc, text, owner, method, args)
}

/// Adds a word and the text of a field.
fn push_of_field(
    names: &Names,
    alloc: Global,
    text: &mut Bytes,
    word: &[u8],
    field: &FieldName,
) -> Result<(), Memory>
    ensures { OnOk result (text.new ≡ text.old ++ (word.now ++ texts.field_text names.now field.now)) }
{
    push(text, word)?;
    push_field(names, alloc, text, field)
}

/// Adds a word and a string in quotes.
fn push_of_string(text: &mut Bytes, word: &[u8], units: &[u16]) -> Result<(), Memory>
    ensures { OnOk result (text.new ≡ text.old ++ (word.now ++ texts.quoted units.now)) }
{
    push(text, word)?;
    push_quoted(text, units)
}

/// Adds the text of a node: its word, a space, and the text of its item. A string stands in quotes, and its units that
/// aren't printed, quotes and backslashes are escaped.
pub fn push_node(names: &Names, alloc: Global, text: &mut Bytes, node: &Node) -> Result<(), Memory>
    ensures { OnOk result (text.new ≡ text.old ++ texts.node_text names.now node.now) }
{
    match node {
        Node::Method(m) => {
            push_of_method(names, alloc, text, b"Method ", &m.owner, m.method, &m.args)
        }
        Node::TypeOf(ty) => push_of_type(names, alloc, text, b"Type ", ty),
        Node::Made(ty) => push_of_type(names, alloc, text, b"Made ", ty),
        Node::Slot(s) => push_of_method(names, alloc, text, b"Slot ", &s.owner, s.method, &s.args),
        Node::Statics(ty) => push_of_type(names, alloc, text, b"Statics ", ty),
        Node::Init(ty) => push_of_type(names, alloc, text, b"Init ", ty),
        Node::Str(units) => push_of_string(text, b"Str ", units.as_slice()),
        Node::Blob(field) => push_of_field(names, alloc, text, b"Blob ", field),
        Node::TypeObj(ty) => push_of_type(names, alloc, text, b"TypeObj ", ty),
        Node::Name(ty) => push_of_type(names, alloc, text, b"Name ", ty),
        Node::Maker(ty) => push_of_type(names, alloc, text, b"Maker ", ty),
        Node::Invoke(m) => {
            push_of_method(names, alloc, text, b"Invoke ", &m.owner, m.method, &m.args)
        }
        Node::Table(ty) => push_of_type(names, alloc, text, b"Table ", ty),
    }
}

/// The text of a node. Each of its bytes is printed in ASCII.
pub fn node_text(names: &Names, alloc: Global, node: &Node) -> Result<Text, Memory>
    ensures { IfOk result (λ text. text ≡ texts.node_text names.now node.now) }
{
    let mut text = List::new(alloc);
    push_node(names, alloc, &mut text, node)?;
    match Text::new(alloc, text.as_slice()) {
        Ok(text) => Ok(text),
        Err(TextFault::NotUtf8(_)) => unreachable!(),
        Err(TextFault::Memory) => Err(Memory),
    }
}
