//! One line of a plan.

ghost use Rattle.std.specs.Prelude.{◌≡◌, ◌≤◌, ◌<◌, ◌+◌, ◌^◌, take, drop, length, IfSome};
ghost use Rattle.step_plan.specs.Plan.{is_digit, with_digit, number_of, within, before_blank, behind_blank, line_of};
ghost use Rattle.step_plan.specs.Lines.{IsInBounds};

use crate::plan::StepLine;

/// The most steps that a line makes.
const MOST_STEPS: usize = 1_000_000;

fn is_digit(b: u8) -> bool
    ensures { result ≡ is_digit b }
{
    b'0' <= b && b <= b'9'
}

/// A number and one digit more.
fn with_digit(n: u128, b: u8) -> u128
    requires { n < 2 ^ 64 }
    ensures { result ≡ with_digit n b }
{
    n * 10 + u128::from(b.saturating_sub(b'0'))
}

/// The number that digits spell, if it is from `least` to `most`.
fn number(digits: &[u8], least: usize, most: usize) -> Option<usize>
    ensures { result ≡ within least most (number_of digits.now) }
{
    if digits.is_empty() {
        return None;
    }
    let mut n: u128 = 0;
    for b in digits {
        if !is_digit(*b) {
            return None;
        }
        n = with_digit(n, *b);
        if (most as u128) < n {
            return None;
        }
    }
    let n = n as usize;
    if least <= n { Some(n) } else { None }
}

/// Where the first blank stands, or the text's length.
fn blank(line: &[u8]) -> usize
    ensures within { result ≤ length line.now }
    ensures before { take result line.now ≡ before_blank line.now }
    ensures behind { drop (result + 1) line.now ≡ behind_blank line.now }
{
    for (i, b) in line.iter().enumerate() {
        if *b == b' ' {
            return i;
        }
    }
    line.len()
}

/// What stands behind the byte at this place.
fn behind(line: &[u8], at: usize) -> &[u8]
    requires { at ≤ length line.now }
    ensures { result.now ≡ drop (at + 1) line.now }
{
    if at < line.len() {
        &line[at + 1..]
    } else {
        &[]
    }
}

/// Reads a line that isn't empty; None exactly where it is malformed.
pub(crate) fn read_line(scripts: usize, line: &[u8]) -> Option<StepLine>
    ensures exact { result ≡ line_of scripts line.now }
    ensures bounds { IfSome result (IsInBounds scripts) }
{
    let at = blank(line);
    let connection = number(&line[..at], 0, scripts)?;
    let steps = number(behind(line, at), 1, MOST_STEPS)?;
    Some(StepLine {
        connection,
        steps: steps as u32,
    })
}
