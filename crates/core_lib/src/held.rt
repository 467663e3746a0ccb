//! The rows that the code holds, which are those that the classes make.
ghost use Rattle.std.specs.Prelude.{◌≡◌, map};
ghost use Rattle.core_lib.specs.Classes.{classes as all, texts};
ghost use Rattle.core_lib.specs.Code.{heap_of};
ghost use Rattle.core_lib.specs.Rows.{class_rows, field_rows, method_rows, interface_rows, locals_rows};
ghost use Rattle.core_lib.specs.Rows.{instance_rows, variable_rows, variable_row, of_class, of_field, of_method};
ghost use Rattle.core_lib.specs.Rows.{of_interface, of_blob, runtime_calls as calls};

use crate::rows::{ClassRow, FieldRow, InterfaceRow, MethodRow};
use crate::runtime::RuntimeCall;
use crate::tables::{
    CLASSES, FIELDS, INSTANCES, INTERFACES, LOCALS, METHODS, RUNTIME_CALLS, USER, VARIABLES,
};

/// The heap of user strings: the texts that code loads (ECMA-335 II.24.2.4).
pub(crate) fn user() -> &'static [u8]
    ensures { result.now ≡ heap_of texts }
{
    &USER
}

/// The rows of TypeDef (II.22.37).
pub(crate) fn classes() -> &'static [ClassRow]
    ensures { map of_class result.now ≡ class_rows all 1 1 all }
{
    &CLASSES
}

/// The rows of Field (II.22.15).
pub(crate) fn fields() -> &'static [FieldRow]
    ensures { map of_field result.now ≡ field_rows all }
{
    &FIELDS
}

/// The rows of MethodDef, with the bodies of methods (II.22.26, II.25.4).
pub(crate) fn methods() -> &'static [MethodRow]
    ensures { map of_method result.now ≡ method_rows all }
{
    &METHODS
}

/// The rows of InterfaceImpl (II.22.23).
pub(crate) fn interfaces() -> &'static [InterfaceRow]
    ensures { map of_interface result.now ≡ interface_rows all 1 all }
{
    &INTERFACES
}

/// The signatures of the locals of bodies (II.22.36).
pub(crate) fn locals() -> &'static [&'static [u8]]
    ensures { map (λ blob. of_blob blob.now) result.now ≡ locals_rows all }
{
    &LOCALS
}

/// The instances of generic classes (II.22.39).
pub(crate) fn instances() -> &'static [&'static [u8]]
    ensures { map (λ blob. of_blob blob.now) result.now ≡ instance_rows all }
{
    &INSTANCES
}

/// The generic classes, each of which has one variable (II.22.20).
pub(crate) fn variables() -> &'static [u32]
    ensures { map variable_row result.now ≡ variable_rows 1 all }
{
    &VARIABLES
}

/// The methods that are calls of the runtime, by their rows.
pub(crate) fn runtime_calls() -> &'static [(u32, RuntimeCall)]
    ensures { result.now ≡ calls }
{
    &RUNTIME_CALLS
}
