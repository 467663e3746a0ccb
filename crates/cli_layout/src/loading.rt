//! The layouts of types that are loaded.
ghost use Rattle.std.specs.Prelude.{◌≡◌, ◌<◌, ◌≤◌, ◌++◌, ◌∷◌, [], All, IfOk, OnOk, length, option_copied};
ghost use Rattle.cli_layout.specs.Loading as loading;
ghost use Rattle.cli_layout.specs.Loading.{AreFound, Gives, IsLoaded, IsSmallOne, Says, layout_in, layout_or};
ghost use Rattle.cli_layout.specs.Types.{laid_of as laid_in, statics_of as statics_in};

use crate::definitions::Definitions;
use crate::extent::Unlaid;
use crate::extents::add;
use crate::fault::{Fault, LayoutFault};
use crate::objects::{laid_of, statics_of};
use crate::rows::{Loaded, TypeLayout};
use num_core::{List, Memory};
use std::alloc::Global;
use ty_layout::Layout;
use ty_layout::laws::fields_are_apart;
use ty_terms::{Ty, type_order};

/// The layouts of types, and of the statics of types, which are loaded once.
#[derive(Debug, Drop)]
pub struct CliLayout {
    /// Types with the layouts of their objects or values.
    pub types: List<Loaded>,
    /// Types with the layouts of their statics.
    pub statics: List<Loaded>,
}

/// Why a type isn't loaded.
fn why(alloc: Global, ty: &Ty, fault: Fault) -> LayoutFault
    ensures { Says ty.now fault result }
{
    match fault {
        Fault::Not(Unlaid::TooLarge) => match ty.copy(alloc) {
            Ok(ty) => LayoutFault::ObjectLimit(ty),
            Err(_) => LayoutFault::Memory,
        },
        Fault::Not(Unlaid::NoBase(id)) => LayoutFault::NoBase(id),
        Fault::Not(Unlaid::NoField(id, row)) => LayoutFault::NoField(id, row),
        Fault::Memory => LayoutFault::Memory,
    }
}

/// Adds a type with its layout to those that are loaded.
fn note(loaded: &mut List<Loaded>, alloc: Global, ty: &Ty, layout: TypeLayout) -> Result<(), Memory>
    requires small { All IsSmallOne loaded.old }
    requires size { layout.laid.size ≤ 65536 }
    ensures added { OnOk result (loaded.new ≡ loaded.old ++ record { ty = ty.now; layout = layout } ∷ []) }
    ensures small { OnOk result (All IsSmallOne loaded.new) }
{
    if layout.fields.len() > u32::MAX as usize {
        return Err(Memory);
    }
    let ty = ty.copy(alloc)?;
    add(loaded, Loaded { ty, layout })
}

/// The layouts of the objects and values of types.
fn load_types<D: Definitions>(
    definitions: &D,
    alloc: Global,
    types: &[Ty],
) -> Result<List<Loaded>, LayoutFault>
    ensures told { Gives (loading.loaded_by (laid_in (D.world definitions.now)) types.now) result }
    ensures small { IfOk result (All IsSmallOne) }
{
    let mut loaded = List::new(alloc);
    for ty in types {
        match laid_of(definitions, alloc, ty) {
            Ok(layout) => note(&mut loaded, alloc, ty, layout)?,
            Err(fault) => return Err(why(alloc, ty, fault)),
        }
    }
    Ok(loaded)
}

/// The layouts of the statics of types.
fn load_statics<D: Definitions>(
    definitions: &D,
    alloc: Global,
    types: &[Ty],
) -> Result<List<Loaded>, LayoutFault>
    ensures told { Gives (loading.loaded_by (statics_in (D.world definitions.now)) types.now) result }
    ensures small { IfOk result (All IsSmallOne) }
{
    let mut loaded = List::new(alloc);
    for ty in types {
        match statics_of(definitions, alloc, ty) {
            Ok(layout) => note(&mut loaded, alloc, ty, layout)?,
            Err(fault) => return Err(why(alloc, ty, fault)),
        }
    }
    Ok(loaded)
}

/// The layout of a type, if it is loaded.
fn layout_of<'a>(loaded: &'a [Loaded], ty: &Ty) -> Option<&'a TypeLayout>
    ensures { option_copied result ≡ layout_in loaded.now ty.now }
{
    for found in loaded {
        if found.ty == *ty {
            return Some(&found.layout);
        }
    }
    None
}

/// How many bytes a type has that is loaded.
fn size_of(loaded: &[Loaded], ty: &Ty) -> u32
    requires { IsLoaded loaded.now ty.now }
    ensures size { result ≡ (layout_or loaded.now ty.now).laid.size }
    ensures limit { result ≤ 65536 }
{
    match layout_of(loaded, ty) {
        Some(layout) => layout.laid.size,
        None => 0,
    }
}

/// Where a field of a type lies that is loaded.
fn place_of(loaded: &[Loaded], ty: &Ty, field: u32) -> u32
    ensures { result ≡ loading.place_or loaded.now ty.now field }
{
    match layout_of(loaded, ty) {
        Some(layout) => match layout.laid.places.as_slice().get(field as usize) {
            Some(place) => *place,
            None => 0,
        },
        None => 0,
    }
}

impl CliLayout {
    /// Loads the layouts of some types, and those of the statics of others. The first of them that has none is the
    /// fault: its object without elements, of a value type the boxed value, or its statics pass 65,536 bytes, or a base
    /// or the type of a field leads to nothing.
    pub fn new<D: Definitions>(
        definitions: &D,
        alloc: Global,
        types: &List<Ty>,
        statics: &List<Ty>,
    ) -> Result<CliLayout, LayoutFault>
        ensures loaded { Gives (loading.loaded (D.world definitions.now) types.now statics.now) result }
        ensures types { IfOk result (λ layout. AreFound (laid_in (D.world definitions.now)) layout.types types.now) }
        ensures statics { IfOk result (λ layout.
            AreFound (statics_in (D.world definitions.now)) layout.statics statics.now) }
        ensures known { IfOk result (λ layout. All (IsLoaded layout.types) types.now) }
        ensures known_statics { IfOk result (λ layout. All (IsLoaded layout.statics) statics.now) }
    {
        fields_are_apart();
        type_order();
        let types = load_types(definitions, alloc, types.as_slice())?;
        let statics = load_statics(definitions, alloc, statics.as_slice())?;
        Ok(CliLayout { types, statics })
    }

    /// How many bytes the statics of a type take, as one object.
    pub fn statics(&self, ty: &Ty) -> u32
        requires { IsLoaded self.now.statics ty.now }
        ensures { result ≡ (layout_or self.now.statics ty.now).laid.size }
    {
        size_of(self.statics.as_slice(), ty)
    }

    /// Where a static field of a type lies, by its number among those in order of rows, without literals.
    pub fn static_at(&self, ty: &Ty, field: u32) -> u32
        requires known { IsLoaded self.now.statics ty.now }
        requires within { field < length (layout_or self.now.statics ty.now).fields }
        ensures { result ≡ loading.place_or self.now.statics ty.now field }
    {
        place_of(self.statics.as_slice(), ty, field)
    }

    /// The greatest of 8 and the sizes of these value types, each rounded up to 8.
    pub fn widest(&self, types: &List<Ty>) -> u32
        requires { All (IsLoaded self.now.types) types.now }
        ensures { result ≡ loading.widest_in self.now.types types.now }
    {
        let mut widest = 8;
        for ty in types.as_slice() {
            let size = size_of(self.types.as_slice(), ty);
            widest = widest.max(size.next_multiple_of(8));
        }
        widest
    }
}

impl Layout for CliLayout {
    ghost use Rattle.std.specs.Prelude.{length};
    ghost use Rattle.ty_layout.specs.Fields.{bytes_of};
    ghost use Rattle.cli_layout.specs.Loading.{IsLoaded, field_or, layout_or, place_or};
    ghost use Rattle.cli_layout.specs.Laws.{are_aligned, are_disjoint, are_within};

    type Of = Ty;

    ghost knows = { λ layout ty. IsLoaded layout.types ty };

    ghost size_of = { λ layout ty. (layout_or layout.types ty).laid.size };

    ghost count = { λ layout ty. length (layout_or layout.types ty).fields };

    ghost place = { λ layout ty n. place_or layout.types ty n };

    ghost field_size = { λ layout ty n. (field_or layout.types ty n).size };

    ghost field_alignment = { λ layout ty n. bytes_of (field_or layout.types ty n).alignment };

    fn size(&self, of: &Ty) -> u32 {
        size_of(self.types.as_slice(), of)
    }

    fn fields(&self, of: &Ty) -> u32 {
        match layout_of(self.types.as_slice(), of) {
            Some(layout) => layout.fields.len() as u32,
            None => 0,
        }
    }

    fn offset(&self, of: &Ty, field: u32) -> u32 {
        place_of(self.types.as_slice(), of, field)
    }

    ghost disjoint = { λ layout. are_disjoint layout.types };

    ghost aligned = { λ layout. are_aligned layout.types };

    ghost within = { λ layout. are_within layout.types };
}
