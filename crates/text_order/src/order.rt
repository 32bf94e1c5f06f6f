//! The order of texts by code points.

ghost use Rattle.std.specs.Prelude.{◌≡◌, chars};
ghost use Rattle.text_order.specs.CodePoints.{FollowsCodePoints, code_points_cmp, text_value_cmp};
ghost use Rattle.value_compare.specs.Text.{text_cmp};

use std::cmp::Ordering;
use value_compare::text::compare_texts;

/// Bytes of UTF-8 stand in the order of the code points that they spell, the shorter text padded with blanks in both.
pub fn bytes_follow_code_points()
    ensures { FollowsCodePoints text_cmp }
{}

/// So stand values that are texts.
pub fn text_values_follow_code_points()
    ensures { FollowsCodePoints text_value_cmp }
{}

/// The order of two texts by their code points, as if the shorter one were padded with blanks.
#[tactic(auto, using(crate::proofs::OrderLemmas::text_cmp_chars))]
pub fn compare(a: &str, b: &str) -> Ordering
    ensures { result ≡ code_points_cmp (chars a.now) (chars b.now) }
{
    compare_texts(a.as_bytes(), b.as_bytes())
}
