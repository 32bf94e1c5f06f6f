//! Names that stand twice in a list.

ghost use Rattle.std.specs.Prelude.{◌≡◌, ◌∷◌, ◌++◌, [], not, IfOk, if◌then◌else◌, map};
ghost use Rattle.name_binder.specs.Lent.{texts};
ghost use Rattle.sql_binding.specs.Names as meaning;

use indexmap::IndexSet;
use std::alloc::{AllocError, Global};

/// Whether a name is unlike each that was seen; from now on it is seen.
fn is_new<'a>(seen: &mut IndexSet<&'a [u8]>, name: &'a [u8]) -> Result<bool, AllocError>
    ensures { IfOk result (λ b. (b ≡ not (meaning.is_named name.now (texts seen.old.keys))) × (texts seen.new.keys ≡ (if b then texts seen.old.keys ++ name.now ∷ [] else texts seen.old.keys))) }
{
    let added = seen.insert(name)?;
    Ok(added)
}

/// Whether a name stands twice. The time is that of a look-up for each name.
pub fn has_twice(alloc: Global, names: &[&[u8]]) -> Result<bool, AllocError>
    ensures { IfOk result (λ b. b ≡ meaning.has_twice (texts names.now)) }
{
    let mut seen = IndexSet::with_capacity(alloc, names.len())?;
    let mut left = names.len();
    'names: while left > 0 {
        left -= 1;
        if !is_new(&mut seen, names[left])? {
            return Ok(true);
        }
    }
    Ok(false)
}
