//! The better of two numbers, where the least above a given one is looked for.

ghost use Rattle.std.specs.Prelude.{◌≡◌};
ghost use Rattle.lock_manager.specs.Blocking.{is_above, is_below, better};

use dby_types::number::TxnNo;

/// Whether a number is above a given one.
fn is_above(above: Option<TxnNo>, t: TxnNo) -> bool
    ensures exact { result ≡ is_above above t }
{
    match above {
        None => true,
        Some(a) => a.0 < t.0,
    }
}

/// Whether a number is below the best so far.
fn is_below(best: Option<TxnNo>, t: TxnNo) -> bool
    ensures exact { result ≡ is_below best t }
{
    match best {
        None => true,
        Some(b) => t.0 < b.0,
    }
}

/// The best after one more was looked at.
pub fn better(above: Option<TxnNo>, best: Option<TxnNo>, passes: bool, t: TxnNo) -> Option<TxnNo>
    ensures exact { result ≡ better above best passes t }
{
    if passes && (is_above(above, t) && is_below(best, t)) {
        Some(t)
    } else {
        best
    }
}
