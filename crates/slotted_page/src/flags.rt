//! The flags of a record.

ghost use Rattle.std.specs.Prelude.{⊤, [], ◌∷◌, codes};

use bitflags::{Flag, Flags as FlagSet, bitflag_items};

/// The flags of a record. A page stores the known ones.
#[derive(Clone, Copy, PartialEq, Eq, Debug)]
pub struct Flags(pub u8);

bitflag_items! {
    impl Flags: u8 {
        const MARKED = 1;
        const FREE = 2;
    }
}

impl FlagSet for Flags {
    type Bits = u8;

    ghost exact = { ⊤ };

    ghost table = { (codes "MARKED", 1) ∷ (codes "FREE", 2) ∷ [] };

    ghost set_of = { λ f. f.0 };

    fn flags<'a>() -> &'a [Flag<Flags>] {
        Flags::FLAGS
    }

    fn bits(&self) -> u8 {
        self.0
    }

    fn from_bits_retain(bits: u8) -> Flags {
        Flags(bits)
    }
}
