//! What a layout of types says.

/// Where the fields of types lie.
pub trait Layout {
    ghost use Rattle.std.specs.Prelude.{◌≡◌, ◌≢◌, ℕ, ◌+◌, ◌%◌, ◌<◌, ◌≤◌};
    ghost use Rattle.ty_layout.specs.Fields.{AreApart};

    /// The types that may have a layout.
    type Of;

    /// The layout knows this type.
    ghost knows: { Self → Self.Of → Type 0 };

    /// How many bytes a type has.
    ghost size_of: { Self → Self.Of → ℕ };

    /// How many fields a type has.
    ghost count: { Self → Self.Of → ℕ };

    /// Where a field of a type lies, counted from the type's first byte.
    ghost place: { Self → Self.Of → ℕ → ℕ };

    /// How many bytes a field of a type has.
    ghost field_size: { Self → Self.Of → ℕ → ℕ };

    /// Of what the place of a field of a type is a multiple.
    ghost field_alignment: { Self → Self.Of → ℕ → ℕ };

    /// How many bytes a type has.
    fn size(&self, of: &Self::Of) -> u32
        requires { knows self.now of.now }
        ensures { result ≡ size_of self.now of.now };

    /// How many fields a type has.
    fn fields(&self, of: &Self::Of) -> u32
        requires { knows self.now of.now }
        ensures { result ≡ count self.now of.now };

    /// Where a field of a type lies, counted from the type's first byte.
    fn offset(&self, of: &Self::Of, field: u32) -> u32
        requires known { knows self.now of.now }
        requires within { field < count self.now of.now }
        ensures { result ≡ place self.now of.now field };

    /// Two fields of one type have no byte in common.
    ghost disjoint: { (layout : Self) (of : Self.Of) (i j : ℕ) → knows layout of →
        i < count layout of → j < count layout of → i ≢ j →
        AreApart (place layout of i) (field_size layout of i) (place layout of j) (field_size layout of j) };

    /// A field lies at a multiple of its alignment.
    ghost aligned: { (layout : Self) (of : Self.Of) (i : ℕ) → knows layout of → i < count layout of →
        place layout of i % field_alignment layout of i ≡ 0 };

    /// A field lies within the bytes of its type.
    ghost within: { (layout : Self) (of : Self.Of) (i : ℕ) → knows layout of → i < count layout of →
        place layout of i + field_size layout of i ≤ size_of layout of };
}
