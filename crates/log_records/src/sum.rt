//! The sum of a record.

ghost use Rattle.std.specs.Prelude.{◌≡◌};
ghost use Rattle.log_records.specs.Sum.{digest_of, sum_of};

use dby_bytes::get_u64;
use sha2::{Digest, Sha256};

fn digest(bytes: &[u8]) -> [u8; 32]
    ensures { result ≡ digest_of bytes.now }
{
    Sha256::digest(bytes)
}

/// The first eight bytes of the digest of the bytes.
pub fn record_sum(bytes: &[u8]) -> u64
    ensures { result ≡ sum_of bytes.now }
{
    get_u64(&digest(bytes), 0)
}
