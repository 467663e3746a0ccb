//! The texts of types.
ghost use Rattle.std.specs.Prelude.{◌≡◌, ◌++◌, OnOk};
ghost use Rattle.ty_load.specs.Texts as texts;

use crate::definitions::push_definition;
use crate::put::{push, push_comma, push_number};
use num_core::{Bytes, Memory};
use std::alloc::Global;
use ty_load::{Names, primitive_name};
use ty_terms::Ty;

/// Adds the text of a type: that of its definition with its arguments in angles, `[]` behind the element of a vector,
/// `&` behind the target of a managed pointer, and a variable by its number.
#[cycle(text)]
pub fn push_type(names: &Names, alloc: Global, text: &mut Bytes, ty: &Ty) -> Result<(), Memory>
    ensures { OnOk result (text.new ≡ text.old ++ texts.type_text names.now ty.now) }
{
    match ty {
        Ty::Prim(primitive) => {
            push(text, b"System.")?;
            push(text, primitive_name(*primitive))
        }
        Ty::Named(id, args) => {
            push_definition(names, alloc, text, *id)?;
            if args.is_empty() {
                return Ok(());
            }
            push(text, b"<")?;
            push_types(names, alloc, text, args.as_slice())?;
            push(text, b">")
        }
        Ty::Vector(element) => {
            push_type(names, alloc, text, element.get())?;
            push(text, b"[]")
        }
        Ty::ByRef(target) => {
            push_type(names, alloc, text, target.get())?;
            push(text, b"&")
        }
        Ty::Var(number) => {
            push(text, b"!")?;
            push_number(text, *number)
        }
        Ty::MVar(number) => {
            push(text, b"!!")?;
            push_number(text, *number)
        }
        Ty::Canon => push(text, b"?"),
    }
}

/// Adds the texts of types, with a comma between each two.
#[cycle(text)]
pub fn push_types(
    names: &Names,
    alloc: Global,
    text: &mut Bytes,
    types: &[Ty],
) -> Result<(), Memory>
    ensures { OnOk result (text.new ≡ text.old ++ texts.listed_texts (texts.type_texts names.now types.now)) }
{
    for (i, ty) in types.iter().enumerate() {
        push_comma(text, i)?;
        push_type(names, alloc, text, ty)?;
    }
    Ok(())
}

/// Adds the texts of arguments in angles, if there are any.
pub fn push_arguments(
    names: &Names,
    alloc: Global,
    text: &mut Bytes,
    args: &[Ty],
) -> Result<(), Memory>
    ensures { OnOk result (text.new ≡ text.old ++ texts.in_angles (texts.type_texts names.now args.now)) }
{
    if args.is_empty() {
        return Ok(());
    }
    push(text, b"<")?;
    push_types(names, alloc, text, args)?;
    push(text, b">")
}
