//! What a binder asks of a dictionary.

ghost use Rattle.std.specs.Prelude.{◌≡◌};
ghost use Rattle.dby_types.specs.declared.definition.Dictionary.{Dictionary};
ghost use Rattle.std.specs.Option.{option_copied};
ghost use Rattle.sql_binding.specs.Creating.{index_named};
ghost use Rattle.sql_binding.specs.From.{found_in};

use dby_types::definition::{IndexDef, TableDef};

/// Tables and indexes by their names.
pub trait Catalog {
    /// The dictionary that it stands for.
    ghost dictionary: { Self → Dictionary };

    /// The table of a name.
    fn table(&self, name: &[u8]) -> Option<&TableDef>
        ensures { option_copied result ≡ found_in (dictionary self.now) name.now };

    /// The index of a name.
    fn index(&self, name: &[u8]) -> Option<&IndexDef>
        ensures { option_copied result ≡ index_named name.now (dictionary self.now).indexes };
}
