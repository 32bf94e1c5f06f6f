//! The kinds of pages.

ghost use Rattle.std.specs.Prelude.{◌≡◌, ◌≤◌};

/// What a page is for.
#[derive(Clone, Copy, Debug, PartialEq, Eq)]
pub enum Kind {
    Control,
    Allocation,
    Heap,
    Leaf,
    Branch,
}

impl Kind {
    ghost use Rattle.slotted_page.specs.Layout.{kind_byte, kind_of};

    /// The number of the kind in a page.
    pub fn byte(self) -> u8
        ensures exact { result ≡ kind_byte self }
    {
        match self {
            Kind::Control => 0,
            Kind::Allocation => 1,
            Kind::Heap => 2,
            Kind::Leaf => 3,
            Kind::Branch => 4,
        }
    }

    /// The kind with a number.
    pub fn from_byte(byte: u8) -> Kind
        requires { byte ≤ 4 }
        ensures exact { result ≡ kind_of byte }
    {
        match byte {
            0 => Kind::Control,
            1 => Kind::Allocation,
            2 => Kind::Heap,
            3 => Kind::Leaf,
            _ => Kind::Branch,
        }
    }
}
