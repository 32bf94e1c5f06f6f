//! What a byte is to a token.

ghost use Rattle.std.specs.Prelude.{◌≡◌, ◌==◌};
ghost use Rattle.sql_lexer.specs.Bytes as bytes;
ghost use Rattle.sql_lexer.specs.Bytes.{begins, begins_comment, folded};

/// A byte from `low` to `high`.
fn is_within(low: u8, high: u8, b: u8) -> bool
    ensures { result ≡ bytes.is_within low high b }
{
    low <= b && b <= high
}

/// Space, tab, LF or CR.
pub fn is_blank(b: u8) -> bool
    ensures { result ≡ bytes.is_blank b }
{
    b == b' ' || b == b'\t' || b == b'\n' || b == b'\r'
}

/// An ASCII letter.
pub fn is_letter(b: u8) -> bool
    ensures { result ≡ bytes.is_letter b }
{
    is_within(b'A', b'Z', b) || is_within(b'a', b'z', b)
}

/// A decimal digit.
pub fn is_digit(b: u8) -> bool
    ensures { result ≡ bytes.is_digit b }
{
    is_within(b'0', b'9', b)
}

/// A letter, a digit or `_`.
pub fn is_in_name(b: u8) -> bool
    ensures { result ≡ bytes.is_in_name b }
{
    is_letter(b) || is_digit(b) || b == b'_'
}

/// A byte of a character that isn't ASCII.
pub fn is_foreign(b: u8) -> bool
    ensures { result ≡ bytes.is_foreign b }
{
    127 < b
}

/// Two bytes that are one sign.
pub fn is_pair(b: u8, c: u8) -> bool
    ensures { result ≡ bytes.is_pair b c }
{
    (b == b'<' && (c == b'>' || c == b'=')) || ((b == b'>' || b == b'!') && c == b'=')
}

/// A letter in upper case; any other byte as it is.
pub fn fold(b: u8) -> u8
    ensures { result ≡ folded b }
{
    if is_within(b'a', b'z', b) { b - 32 } else { b }
}

/// Whether the rest of a text goes on with a byte of a name.
pub fn begins_in_name(rest: &[u8]) -> bool
    ensures { result ≡ begins bytes.is_in_name rest.now }
{
    !rest.is_empty() && is_in_name(rest[0])
}

/// Whether the rest of a text goes on with a digit.
pub fn begins_digit(rest: &[u8]) -> bool
    ensures { result ≡ begins bytes.is_digit rest.now }
{
    !rest.is_empty() && is_digit(rest[0])
}

/// Whether the rest of a text goes on with a byte that isn't ASCII.
pub fn begins_foreign(rest: &[u8]) -> bool
    ensures { result ≡ begins bytes.is_foreign rest.now }
{
    !rest.is_empty() && is_foreign(rest[0])
}

/// Whether the rest of a text goes on with this byte.
pub fn begins_byte(byte: u8, rest: &[u8]) -> bool
    ensures { result ≡ begins (λ c. c == byte) rest.now }
{
    !rest.is_empty() && rest[0] == byte
}

/// Whether a byte and the rest begin with a sign of two bytes.
pub fn begins_pair(b: u8, rest: &[u8]) -> bool
    ensures { result ≡ begins (bytes.is_pair b) rest.now }
{
    !rest.is_empty() && is_pair(b, rest[0])
}

/// Whether a byte and the rest begin with `--`.
pub fn is_comment_begin(b: u8, rest: &[u8]) -> bool
    ensures { result ≡ begins_comment b rest.now }
{
    b == b'-' && begins_byte(b'-', rest)
}
