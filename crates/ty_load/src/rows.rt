//! The types that rows of TypeDef, TypeRef and TypeSpec lead to (ECMA-335 II.24.2.6).
ghost use Rattle.std.specs.Prelude.{◌≡◌, [], IfOk};
ghost use Rattle.std.specs.Option.{option_and_then};
ghost use Rattle.md_sigs.specs.Signatures.{type_blob};
ghost use Rattle.ty_names.specs.Modules.{blob_of, cell_at, tables_at};
ghost use Rattle.ty_names.specs.References.{definition as definition_in};
ghost use Rattle.ty_load.specs.Told.{IsToldIn, row_name};
ghost use Rattle.ty_load.specs.Tokens as tokens;
ghost use Rattle.ty_load.specs.Types as types;

use crate::blobs::type_of_blob;
use crate::fault::TypeFault;
use crate::names::Names;
use crate::written::{instance, no_void};
use md_sigs::SigFault;
use num_core::{List, Memory};
use std::alloc::Global;
use ty_names::{RowOf, blob_at};
use ty_terms::{Ty, subst};

impl Names {
    /// The type of a definition or a reference, without arguments.
    fn plain_type(&self, alloc: Global, module: u32, index: RowOf) -> Result<Option<Ty>, Memory>
        ensures { IfOk result (λ ty. ty ≡ types.no_void (option_and_then (types.instance self.now [])
            (definition_in self.now «module» index.table index.row))) }
    {
        match self.definition(alloc, module, index.table, index.row)? {
            Some(id) => Ok(no_void(instance(self, List::new(alloc), id))),
            None => Ok(None),
        }
    }

    /// The type that a blob is, in a type and a method with so many parameters.
    fn blob_type(
        &self,
        alloc: Global,
        module: u32,
        owner: usize,
        method: usize,
        blob: &[u8],
    ) -> Result<Option<Ty>, Memory>
        ensures { IfOk result (λ ty. ty ≡
            types.type_if_read self.now «module» owner method (type_blob «module» blob.now)) }
    {
        match type_of_blob(alloc, blob, module) {
            Ok(ty) => self.resolved_type(alloc, module, owner, method, &ty),
            Err(SigFault::BadSig(_)) | Err(SigFault::SigOutside(_)) => Ok(None),
            Err(SigFault::Memory) => Err(Memory),
        }
    }

    /// The type that a row of TypeDef, TypeRef or TypeSpec of a module leads to, in a type and a method with so many
    /// parameters, if there is one.
    pub fn type_at(
        &self,
        alloc: Global,
        module: u32,
        owner: usize,
        method: usize,
        index: RowOf,
    ) -> Result<Option<Ty>, Memory>
        ensures { IfOk result (λ ty. ty ≡ types.type_at self.now «module» owner method index) }
    {
        if index.table == 0x1B {
            let blob = blob_at(self.tables(module), 0x1B, index.row, 0);
            self.blob_type(alloc, module, owner, method, blob)
        } else {
            self.plain_type(alloc, module, index)
        }
    }

    /// The type that a module writes, with the arguments of the owner and the method that it is written in.
    fn written_type(
        &self,
        alloc: Global,
        module: u32,
        asked: RowOf,
        owner: &List<Ty>,
        method: &List<Ty>,
        ty: &Ty,
    ) -> Result<Ty, TypeFault>
        ensures { IsToldIn self.now result (tokens.written_type self.now «module»
            (row_name self.now «module» asked) owner.now method.now ty.now) }
    {
        match self.resolved_type(alloc, module, owner.len(), method.len(), ty) {
            Ok(Some(found)) => match subst(alloc, &found, owner, method) {
                Ok(ty) => Ok(ty),
                Err(_) => Err(TypeFault::Memory),
            },
            Ok(None) => Err(TypeFault::Unresolved(module, asked)),
            Err(_) => Err(TypeFault::Memory),
        }
    }

    /// The type that a row of TypeSpec leads to.
    fn spec_type(
        &self,
        alloc: Global,
        module: u32,
        asked: RowOf,
        owner: &List<Ty>,
        method: &List<Ty>,
        blob: &[u8],
    ) -> Result<Ty, TypeFault>
        ensures { IsToldIn self.now result (tokens.read_then (type_blob «module» blob.now)
            (tokens.written_type self.now «module» (row_name self.now «module» asked) owner.now method.now)) }
    {
        match type_of_blob(alloc, blob, module) {
            Ok(ty) => self.written_type(alloc, module, asked, owner, method, &ty),
            Err(SigFault::BadSig(offset)) => Err(TypeFault::BadSig(offset)),
            Err(SigFault::SigOutside(element)) => Err(TypeFault::SigOutside(element)),
            Err(SigFault::Memory) => Err(TypeFault::Memory),
        }
    }

    /// The type that a row of TypeDef, TypeRef or TypeSpec of a module leads to, in code whose owner and method have
    /// these arguments. A refusal names the row that was asked for.
    pub fn type_by(
        &self,
        alloc: Global,
        module: u32,
        asked: RowOf,
        owner: &List<Ty>,
        method: &List<Ty>,
        index: RowOf,
    ) -> Result<Ty, TypeFault>
        ensures { IsToldIn self.now result (tokens.type_by self.now «module»
            (row_name self.now «module» asked) owner.now method.now index) }
    {
        if index.table == 0x1B && 1 <= index.row {
            let blob = blob_at(self.tables(module), 0x1B, index.row, 0);
            return self.spec_type(alloc, module, asked, owner, method, blob);
        }
        match self.plain_type(alloc, module, index) {
            Ok(Some(ty)) => Ok(ty),
            Ok(None) => Err(TypeFault::Unresolved(module, asked)),
            Err(_) => Err(TypeFault::Memory),
        }
    }
}
