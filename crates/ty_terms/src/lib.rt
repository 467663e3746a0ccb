//! Types, the names of methods and fields, and the nodes that the analyzer marks.
#![tactic(auto)]

mod canonical;
mod copy;
mod laws;
mod measure;
mod names;
mod nodes;
mod order;
mod substitution;
mod ty;

pub use canonical::{canon, canon_arguments, canon_method, is_reference};
pub use copy::copy_all;
pub use laws::{
    canon_of_canon, canon_of_canonical_form, depth_of_subst, entry_order, field_name_order,
    method_id_order, method_name_order, node_order, slot_order, subst_of_closed, subst_of_subst,
    type_id_order, type_order, variables_of_subst,
};
pub use measure::{depth, depth_all, node_depth};
pub use names::{FieldName, MethodId, MethodName, Slot, TypeId};
pub use nodes::{DictEntry, Node, Part, PartKind, Warning};
pub use sqlite_items::Boxed;
pub use substitution::{all_variables_below, subst, subst_all, variables_below};
pub use ty::{Primitive, Ty};
