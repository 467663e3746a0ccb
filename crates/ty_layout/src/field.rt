//! What the layout of a type asks of its fields.
ghost use Rattle.std.specs.Prelude.{◌≡◌, max};
ghost use Rattle.ty_layout.specs.Fields.{bytes_of, alignment_of};

/// A number of bytes of which a place is a multiple.
#[derive(Clone, Copy, Debug, PartialEq, Eq)]
pub enum Alignment {
    One,
    Two,
    Four,
    Eight,
}

/// How many bytes a field takes, and where it may begin.
#[derive(Clone, Copy, Debug, PartialEq, Eq)]
pub struct Field {
    pub size: u32,
    pub alignment: Alignment,
}

impl Alignment {
    /// The number of bytes.
    pub fn bytes(self) -> u32
        ensures { result ≡ bytes_of self }
    {
        match self {
            Alignment::One => 1,
            Alignment::Two => 2,
            Alignment::Four => 4,
            Alignment::Eight => 8,
        }
    }

    /// The greater of two.
    pub fn max(self, other: Alignment) -> Alignment
        ensures { bytes_of result ≡ max (bytes_of self) (bytes_of other) }
    {
        if self.bytes() < other.bytes() {
            other
        } else {
            self
        }
    }
}

/// The greatest alignment of fields, which is that of a value type with these fields; 1 where there is none.
pub fn greatest_alignment(fields: &[Field]) -> Alignment
    ensures { bytes_of result ≡ alignment_of fields.now }
{
    let mut greatest = Alignment::One;
    for field in fields {
        greatest = greatest.max(field.alignment);
    }
    greatest
}
