//! The texts of methods.
ghost use Rattle.std.specs.Prelude.{◌≡◌, ◌++◌, ◌==◌, ◌&&◌, ℕ, List, Some, codes, false, not, IfOk, OnOk};
ghost use Rattle.std.specs.Str.{bytes_eq};
ghost use Rattle.md_sigs.specs.Signatures.{signature};
ghost use Rattle.ty_load.specs.Members.{method_sig_if};
ghost use Rattle.ty_load.specs.Texts as texts;
ghost use Rattle.ty_load.specs.Walks.{arguments};
ghost use Rattle.ty_names.specs.Definitions.{method_blob, method_name as method_name_in, methods_of};
ghost use Rattle.ty_names.specs.Escapes.{name_text};
ghost use Rattle.ty_names.specs.Modules.{tables_at};

use crate::put::{push, push_row_if};
use crate::rows::{run_begin, run_count};
use crate::signatures::{arguments_of, method_signature};
use crate::types::{push_arguments, push_type, push_types};
use md_sigs::MethodSig;
use num_core::{Bytes, List, Memory};
use std::alloc::Global;
use ty_load::Names;
use ty_names::{method_name, push_name};
use ty_terms::{MethodId, Ty, TypeId, subst, subst_all};

/// Adds the parameters and the result of a signature, with the arguments of the owner and of the method.
fn push_sig(
    names: &Names,
    alloc: Global,
    text: &mut Bytes,
    owner: &Ty,
    args: &List<Ty>,
    sig: &MethodSig,
) -> Result<(), Memory>
    ensures { OnOk result (text.new
        ≡ text.old ++ texts.signature_text names.now (arguments owner.now) args.now (Some sig.now)) }
{
    let none = List::new(alloc);
    let own = arguments_of(owner, &none);
    let params = subst_all(alloc, sig.params.as_slice(), own, args)?;
    let result = subst(alloc, &sig.result, own, args)?;
    push(text, b"(")?;
    push_types(names, alloc, text, params.as_slice())?;
    push(text, b")->")?;
    push_type(names, alloc, text, &result)
}

/// Adds the parameters and the result of a method, or `(?)` where its signature has no reading or leads to nothing.
fn push_signature(
    names: &Names,
    alloc: Global,
    text: &mut Bytes,
    owner: &Ty,
    id: TypeId,
    method: MethodId,
    args: &List<Ty>,
) -> Result<(), Memory>
    ensures { OnOk result (text.new ≡ text.old ++ texts.signature_text names.now (arguments owner.now) args.now
        (method_sig_if names.now id
        (signature method.module (method_blob (tables_at names.now method.module) method.row)))) }
{
    match method_signature(names, alloc, id, method)? {
        Some(sig) => push_sig(names, alloc, text, owner, args, &sig),
        None => push(text, b"(?)"),
    }
}

/// Adds the type and the name of a method.
fn push_named(
    names: &Names,
    alloc: Global,
    text: &mut Bytes,
    owner: &Ty,
    method: MethodId,
) -> Result<(), Memory>
    ensures { OnOk result (text.new ≡ text.old ++ (texts.type_text names.now owner.now ++ codes "::"
        ++ name_text (method_name_in (tables_at names.now method.module) method.row))) }
{
    push_type(names, alloc, text, owner)?;
    push(text, b"::")?;
    let name = method_name(names.tables(method.module), method.row);
    push_name(alloc, text, name)
}

/// Adds what stands behind the type and the name of a method: its arguments, parameters and result.
fn push_behind(
    names: &Names,
    alloc: Global,
    text: &mut Bytes,
    owner: &Ty,
    id: TypeId,
    method: MethodId,
    args: &List<Ty>,
) -> Result<(), Memory>
    ensures { OnOk result (text.new ≡ text.old ++ (texts.in_angles (texts.type_texts names.now args.now)
        ++ texts.signature_text names.now (arguments owner.now) args.now (method_sig_if names.now id
        (signature method.module (method_blob (tables_at names.now method.module) method.row))))) }
{
    push_arguments(names, alloc, text, args.as_slice())?;
    push_signature(names, alloc, text, owner, id, method, args)
}

/// Adds the text of a method of a type whose definition is known, without a row behind it.
fn push_plain_method(
    names: &Names,
    alloc: Global,
    text: &mut Bytes,
    owner: &Ty,
    id: TypeId,
    method: MethodId,
    args: &List<Ty>,
) -> Result<(), Memory>
    ensures { OnOk result (text.new ≡ text.old
        ++ texts.plain_method_text names.now owner.now (Some id) method.module method.row args.now) }
{
    push_named(names, alloc, text, owner, method)?;
    push_behind(names, alloc, text, owner, id, method, args)
}

/// Whether a text begins with another, so that it may be that with more behind.
fn begins_with(text: &[u8], front: &[u8]) -> bool
    ensures { (rest : List ℕ) → result ≡ false → bytes_eq (front.now ++ rest) text.now ≡ false }
{
    text.starts_with(front)
}

/// Whether a method has this text. Its signature is read only where the text begins with its type and its name.
fn has_plain_text(
    names: &Names,
    alloc: Global,
    owner: &Ty,
    id: TypeId,
    method: MethodId,
    args: &List<Ty>,
    own: &[u8],
) -> Result<bool, Memory>
    ensures { IfOk result (λ has. has ≡ bytes_eq
        (texts.plain_method_text names.now owner.now (Some id) method.module method.row args.now) own.now) }
{
    let mut text = List::new(alloc);
    push_named(names, alloc, &mut text, owner, method)?;
    if !begins_with(own, text.as_slice()) {
        return Ok(false);
    }
    push_behind(names, alloc, &mut text, owner, id, method, args)?;
    Ok(text.as_slice() == own)
}

/// Whether a method is another than that of a row, and has this text.
fn has_text(
    names: &Names,
    alloc: Global,
    owner: &Ty,
    id: TypeId,
    method: MethodId,
    args: &List<Ty>,
    row: u32,
    own: &[u8],
) -> Result<bool, Memory>
    ensures { IfOk result (λ has. has ≡ (not (method.row == row) && bytes_eq
        (texts.plain_method_text names.now owner.now (Some id) method.module method.row args.now) own.now)) }
{
    if method.row == row {
        Ok(false)
    } else {
        has_plain_text(names, alloc, owner, id, method, args, own)
    }
}

/// Whether another method of a type has the text of one.
fn has_same_method(
    names: &Names,
    alloc: Global,
    owner: &Ty,
    id: TypeId,
    method: MethodId,
    args: &List<Ty>,
    own: &[u8],
) -> Result<bool, Memory>
    requires { own.now
        ≡ texts.plain_method_text names.now owner.now (Some id) method.module method.row args.now }
    ensures { IfOk result (λ has. has ≡ texts.has_same
        (λ row. texts.plain_method_text names.now owner.now (Some id) method.module row args.now)
        (methods_of (tables_at names.now id.module) id.row) method.row) }
{
    let begin = run_begin(names, id, 5);
    for k in 0..run_count(names, id, 5, names.method_count(id.module)) {
        let other = MethodId {
            module: method.module,
            row: begin + k,
        };
        if has_text(names, alloc, owner, id, other, args, method.row, own)? {
            return Ok(true);
        }
    }
    Ok(false)
}

/// Adds the text of a method: `Type::name<A,B>(P,Q)->R`, with `(?)` in place of the signature where that has no reading
/// or leads to nothing, and with `#` and the row where another method of its type has the same text.
pub fn push_method(
    names: &Names,
    alloc: Global,
    text: &mut Bytes,
    owner: &Ty,
    method: MethodId,
    args: &List<Ty>,
) -> Result<(), Memory>
    ensures { OnOk result (text.new ≡ text.old ++ texts.method_text names.now owner.now method args.now) }
{
    let Some(id) = names.definition_of(alloc, owner)? else {
        return Ok(());
    };
    let mut own = List::new(alloc);
    push_plain_method(names, alloc, &mut own, owner, id, method, args)?;
    let again = has_same_method(names, alloc, owner, id, method, args, own.as_slice())?;
    push_row_if(&mut own, again, method.row)?;
    push(text, own.as_slice())
}
