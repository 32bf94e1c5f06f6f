//! The sum of a page.

ghost use Rattle.std.specs.Prelude.{◌≡◌};
ghost use Rattle.slotted_page.specs.Sum.{digest_of, right_sum};

use dby_bytes::get_u64;
use sha2::{Digest, Sha256};

fn digest(bytes: &[u8]) -> [u8; 32]
    ensures { result ≡ digest_of bytes.now }
{
    Sha256::digest(bytes)
}

/// The sum that a page should have.
pub fn right_sum(page: &[u8; 4096]) -> u64
    ensures exact { result ≡ right_sum page.now }
{
    get_u64(&digest(&page[8..]), 0)
}
