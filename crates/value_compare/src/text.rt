//! Texts, of which trailing blanks don't count.

ghost use Rattle.std.specs.Prelude.{◌≡◌, ◌≤◌, length, slice_index_or, take};
ghost use Rattle.value_compare.specs.Text.{text_cmp, trimmed_text};

use std::cmp::Ordering;

/// The byte of a text at a place, or a blank past its end.
fn byte_or_blank(text: &[u8], i: usize) -> u8
    ensures { result ≡ slice_index_or text.now i 32 }
{
    if i < text.len() { text[i] } else { b' ' }
}

/// The length of the longer text.
fn longer(a: &[u8], b: &[u8]) -> usize
    ensures first { length a.now ≤ result }
    ensures second { length b.now ≤ result }
{
    if a.len() < b.len() { b.len() } else { a.len() }
}

/// The order of two texts, as if the shorter one were padded with blanks.
pub fn compare_texts(a: &[u8], b: &[u8]) -> Ordering
    ensures { result ≡ text_cmp a.now b.now }
{
    for i in 0..longer(a, b) {
        let order = byte_or_blank(a, i).cmp(&byte_or_blank(b, i));
        if order.is_ne() {
            return order;
        }
    }
    Ordering::Equal
}

/// How many bytes a text has without its trailing blanks.
fn trimmed_len(text: &[u8]) -> usize
    ensures within { result ≤ length text.now }
    ensures exact { take result text.now ≡ trimmed_text text.now }
{
    let mut n = text.len();
    'back: while 0 < n && text[n - 1] == b' ' {
        n -= 1;
    }
    n
}

/// A text without its trailing blanks.
pub fn trim(text: &[u8]) -> &[u8]
    ensures { result.now ≡ trimmed_text text.now }
{
    &text[..trimmed_len(text)]
}
