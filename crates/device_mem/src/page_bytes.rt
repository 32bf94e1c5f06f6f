//! The bytes of a page.

ghost use Rattle.std.specs.Prelude.{◌≡◌, ℕ, List, length, IfOk};

use std::alloc::{AllocError, Global};

/// A page's 4,096 bytes.
#[derive(Debug, Drop)]
pub struct PageBytes {
    bytes: Vec<u8>,
    ghost sized: { length bytes.items ≡ 4096 },
}

impl PageBytes {
    /// A copy of the bytes.
    pub fn copy(alloc: Global, from: &[u8; 4096]) -> Result<PageBytes, AllocError>
        ensures { IfOk result (λ b. b.bytes.items ≡ from.now) }
    {
        let bytes = Vec::from_slice(alloc, from)?;
        Ok(PageBytes { bytes })
    }

    /// The same bytes once more.
    pub fn copied(&self, alloc: Global) -> Result<PageBytes, AllocError>
        ensures { IfOk result (λ b. b.bytes.items ≡ self.now.bytes.items) }
    {
        let bytes = Vec::from_slice(alloc, self.bytes.as_slice())?;
        Ok(PageBytes { bytes })
    }

    /// Copies the bytes into a page.
    pub fn read(&self, into: &mut [u8; 4096])
        ensures { into.new ≡ self.now.bytes.items }
    {
        into.copy_from_slice(self.bytes.as_slice());
    }
}
