//! The pages of a split and the open transactions of a checkpoint.

ghost use Rattle.std.specs.Prelude.{◌↔◌, ◌≡◌, ◌≤◌, ◌<◌, ◌+◌, ◌*◌, ℕ, IsTrue, length};
ghost use Rattle.log_records.specs.Rules.{IsOpen, IsPageImage};

use crate::back::is_back;
use crate::field::get_lsn;
use dby_bytes::get_u64;
use dby_types::number::Lsn;

/// The first number that no transaction has.
pub const TXNS: u64 = 1 << 62;

/// Whether the page at a place has 0 for its sum and its LSN.
fn is_image(pages: &[u8], i: usize) -> bool
    requires { 4100 * i + 4100 ≤ length pages.now }
    ensures { IsTrue result ↔ IsPageImage pages.now i }
{
    get_u64(pages, 4100 * i + 4) == 0 && get_u64(pages, 4100 * i + 24) == 0
}

/// Whether each page has 0 for its sum and its LSN.
pub fn are_images(pages: &[u8], count: usize) -> bool
    requires { length pages.now ≡ 4100 * count }
    ensures { IsTrue result ↔ ((i : ℕ) → i < count → IsPageImage pages.now i) }
{
    for i in 0..count {
        if !is_image(pages, i) {
            return false;
        }
    }
    true
}

/// Whether the transaction at a place is one, and its last record stands before the checkpoint.
fn is_open(txns: &[u8], i: usize, at: Lsn) -> bool
    requires { 16 * i + 16 ≤ length txns.now }
    ensures { IsTrue result ↔ IsOpen at txns.now i }
{
    get_u64(txns, 16 * i) < TXNS && is_back(get_lsn(txns, 16 * i + 8), at)
}

/// Whether each is a transaction with its last record before the checkpoint.
pub fn are_open(txns: &[u8], count: usize, at: Lsn) -> bool
    requires { length txns.now ≡ 16 * count }
    ensures { IsTrue result ↔ ((i : ℕ) → i < count → IsOpen at txns.now i) }
{
    for i in 0..count {
        if !is_open(txns, i, at) {
            return false;
        }
    }
    true
}
