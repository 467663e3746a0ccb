ghost use Rattle.std.specs.Prelude.{◌≡◌, ◌++◌, ◌∷◌, [], IfOk, OnOk};

use crate::names::{FieldName, MethodName, Slot};
use crate::nodes::{DictEntry, Node, Part, Warning};
use crate::ty::Ty;
use num_core::{List, Memory};
use sqlite_items::Boxed;
use std::alloc::Global;

/// Adds a type at the end of a list.
pub(crate) fn add(types: &mut List<Ty>, ty: Ty) -> Result<(), Memory>
    ensures { OnOk result (types.new ≡ types.old ++ ty ∷ []) }
{
    match types.push(ty) {
        Ok(()) => Ok(()),
        Err(_) => Err(Memory),
    }
}

impl Ty {
    /// A type that equals this one.
    #[cycle(copy)]
    pub fn copy(&self, alloc: Global) -> Result<Ty, Memory>
        ensures { IfOk result (λ copy. copy ≡ self.now) }
    {
        match self {
            Ty::Prim(primitive) => Ok(Ty::Prim(*primitive)),
            Ty::Named(id, args) => Ok(Ty::Named(*id, copy_all(alloc, args.as_slice())?)),
            Ty::Vector(element) => Ok(Ty::Vector(Boxed::new(alloc, element.get().copy(alloc)?)?)),
            Ty::ByRef(target) => Ok(Ty::ByRef(Boxed::new(alloc, target.get().copy(alloc)?)?)),
            Ty::Var(number) => Ok(Ty::Var(*number)),
            Ty::MVar(number) => Ok(Ty::MVar(*number)),
            Ty::Canon => Ok(Ty::Canon),
        }
    }
}

/// A list that equals this one.
#[cycle(copy)]
pub fn copy_all(alloc: Global, types: &[Ty]) -> Result<List<Ty>, Memory>
    ensures { IfOk result (λ copy. copy ≡ types.now) }
{
    let mut copies = List::new(alloc);
    for ty in types {
        add(&mut copies, ty.copy(alloc)?)?;
    }
    Ok(copies)
}

impl FieldName {
    /// A name that equals this one.
    pub fn copy(&self, alloc: Global) -> Result<FieldName, Memory>
        ensures { IfOk result (λ copy. copy ≡ self.now) }
    {
        Ok(FieldName {
            owner: self.owner.copy(alloc)?,
            row: self.row,
        })
    }
}

impl MethodName {
    /// A name that equals this one.
    pub fn copy(&self, alloc: Global) -> Result<MethodName, Memory>
        ensures { IfOk result (λ copy. copy ≡ self.now) }
    {
        Ok(MethodName {
            owner: self.owner.copy(alloc)?,
            method: self.method,
            args: copy_all(alloc, self.args.as_slice())?,
        })
    }
}

impl Slot {
    /// A slot that equals this one.
    pub fn copy(&self, alloc: Global) -> Result<Slot, Memory>
        ensures { IfOk result (λ copy. copy ≡ self.now) }
    {
        Ok(Slot {
            owner: self.owner.copy(alloc)?,
            method: self.method,
            args: copy_all(alloc, self.args.as_slice())?,
        })
    }
}

impl Node {
    /// A node that equals this one.
    pub fn copy(&self, alloc: Global) -> Result<Node, Memory>
        ensures { IfOk result (λ copy. copy ≡ self.now) }
    {
        match self {
            Node::Method(method) => Ok(Node::Method(method.copy(alloc)?)),
            Node::TypeOf(ty) => Ok(Node::TypeOf(ty.copy(alloc)?)),
            Node::Made(ty) => Ok(Node::Made(ty.copy(alloc)?)),
            Node::Slot(slot) => Ok(Node::Slot(slot.copy(alloc)?)),
            Node::Statics(ty) => Ok(Node::Statics(ty.copy(alloc)?)),
            Node::Init(ty) => Ok(Node::Init(ty.copy(alloc)?)),
            Node::Str(units) => Ok(Node::Str(List::from_slice(alloc, units.as_slice())?)),
            Node::Blob(field) => Ok(Node::Blob(field.copy(alloc)?)),
            Node::TypeObj(ty) => Ok(Node::TypeObj(ty.copy(alloc)?)),
            Node::Name(ty) => Ok(Node::Name(ty.copy(alloc)?)),
            Node::Maker(ty) => Ok(Node::Maker(ty.copy(alloc)?)),
            Node::Invoke(method) => Ok(Node::Invoke(method.copy(alloc)?)),
            Node::Table(ty) => Ok(Node::Table(ty.copy(alloc)?)),
        }
    }
}

impl DictEntry {
    /// An entry that equals this one.
    pub fn copy(&self, alloc: Global) -> Result<DictEntry, Memory>
        ensures { IfOk result (λ copy. copy ≡ self.now) }
    {
        match self {
            DictEntry::OfType(ty) => Ok(DictEntry::OfType(ty.copy(alloc)?)),
            DictEntry::OfMethod(method) => Ok(DictEntry::OfMethod(method.copy(alloc)?)),
            DictEntry::OfStatics(ty) => Ok(DictEntry::OfStatics(ty.copy(alloc)?)),
            DictEntry::OfSlot(slot) => Ok(DictEntry::OfSlot(slot.copy(alloc)?)),
        }
    }
}

impl Part {
    /// A part that equals this one.
    pub fn copy(&self, alloc: Global) -> Result<Part, Memory>
        ensures { IfOk result (λ copy. copy ≡ self.now) }
    {
        Ok(Part {
            at: self.at,
            size: self.size,
            kind: self.kind,
            nodes: List::from_slice(alloc, self.nodes.as_slice())?,
        })
    }
}

impl Warning {
    /// A warning that equals this one.
    pub fn copy(&self, alloc: Global) -> Result<Warning, Memory>
        ensures { IfOk result (λ copy. copy ≡ self.now) }
    {
        Ok(Warning {
            number: self.number,
            method: self.method.copy(alloc)?,
            offset: self.offset,
        })
    }
}
