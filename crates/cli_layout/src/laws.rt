//! Laws of layouts of types. Each function does nothing, and ensures its laws of all values.
ghost use Rattle.std.specs.Prelude.{◌≡◌, List, [], map};
ghost use Rattle.ty_names.specs.Modules.{World};
ghost use Rattle.ty_terms.specs.Subst.{substituted};
ghost use Rattle.ty_terms.specs.declared.ty.Ty.{Ty};
ghost use Rattle.cli_layout.specs.Extents.{extent_of, extent_with};

/// An instance of a type takes what the type takes in a definition whose arguments take what they take (ECMA-335
/// II.9.2): so it is enough to know that of the arguments.
pub fn extent_of_instance()
    ensures { (world : World) (args : List Ty) (ty : Ty) →
        extent_of world (substituted args [] ty) ≡ extent_with world (map (extent_of world) args) ty }
{}
