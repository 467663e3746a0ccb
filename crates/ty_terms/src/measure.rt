ghost use Rattle.std.specs.Prelude.{◌≡◌, min};
ghost use Rattle.ty_terms.specs.Depth.{depth_of, depth_of_all, depth_of_node};

use crate::nodes::Node;
use crate::ty::Ty;

/// The depth of a type: 1 where nothing stands inside, and else 1 more than the greatest depth inside; or
/// 4,294,967,295 where it is greater.
#[cycle(depth)]
pub fn depth(ty: &Ty) -> u32
    ensures { result ≡ min (depth_of ty.now) 4294967295 }
{
    match ty {
        Ty::Named(_, args) => depth_all(args.as_slice()).saturating_add(1),
        Ty::Vector(inner) | Ty::ByRef(inner) => depth(inner.get()).saturating_add(1),
        Ty::Prim(_) | Ty::Var(_) | Ty::MVar(_) | Ty::Canon => 1,
    }
}

/// The greatest depth of some types, 0 where there is none; or 4,294,967,295 where it is greater.
#[cycle(depth)]
pub fn depth_all(types: &[Ty]) -> u32
    ensures { result ≡ min (depth_of_all types.now) 4294967295 }
{
    let mut greatest = 0;
    for ty in types {
        greatest = depth(ty).max(greatest);
    }
    greatest
}

/// The greatest depth of the types of a node, 0 where it has none; or 4,294,967,295 where it is greater.
pub fn node_depth(node: &Node) -> u32
    ensures { result ≡ min (depth_of_node node.now) 4294967295 }
{
    match node {
        Node::Method(method) | Node::Invoke(method) => depth(&method.owner).max(depth_all(
            method.args.as_slice(),
        )),
        Node::Slot(slot) => depth(&slot.owner).max(depth_all(slot.args.as_slice())),
        Node::Blob(field) => depth(&field.owner),
        Node::Str(_) => 0,
        Node::TypeOf(ty)
        | Node::Made(ty)
        | Node::Statics(ty)
        | Node::Init(ty)
        | Node::TypeObj(ty)
        | Node::Name(ty)
        | Node::Maker(ty)
        | Node::Table(ty) => depth(ty),
    }
}
