//! A link, and the items that have one.
ghost use Rattle.std.specs.Prelude.{◌≡◌};

/// What an item knows of the chain that holds it: its neighbours' places, and whether a chain holds it at all.
#[derive(Clone, Copy, Debug, PartialEq, Eq)]
pub struct Link {
    pub before: Option<u32>,
    pub after: Option<u32>,
    pub held: bool,
}

impl Link {
    ghost use Rattle.link_lists.specs.Links.{free};

    /// The link of an item that no chain holds.
    pub fn free() -> Link
        ensures { result ≡ free }
    {
        Link {
            before: None,
            after: None,
            held: false,
        }
    }
}

/// An item with a link of the number K. It may have others under other numbers, and be in a chain by each.
pub trait Linked<const K: usize> {
    ghost use Rattle.link_lists.specs.declared.link.Link.{Link};
    ghost use Rattle.std.specs.Prelude.{◌≡◌};

    /// The link of this number.
    ghost link_of: { Self → Link };

    /// All of the item but this link.
    ghost rest: { Self → Self };

    /// Reads the link.
    fn link(&self) -> Link
        ensures { result ≡ link_of self.now };

    /// Writes the link, and keeps the rest.
    fn set_link(&mut self, to: Link)
        ensures link { link_of self.new ≡ to }
        ensures rest { rest self.new ≡ rest self.old };

    /// An item is its link and its rest.
    ghost whole: { (x y : Self) → link_of x ≡ link_of y → rest x ≡ rest y → x ≡ y };
}
