//! The words that can't be unquoted names.

ghost use Rattle.std.specs.Prelude.{◌≡◌};
ghost use Rattle.std.specs.List.{list_any};
ghost use Rattle.std.specs.Str.{bytes_eq};
ghost use Rattle.sql_lexer.specs.Reserved.{is_reserved_word, words_of_eight, words_of_five, words_of_four, words_of_seven, words_of_six, words_of_three, words_of_two};

/// Whether a word is spelled like this.
fn is(word: &[u8], spelling: &str) -> bool
    ensures { result ≡ bytes_eq word.now spelling.now }
{
    word == spelling.as_bytes()
}

fn is_of_two(w: &[u8]) -> bool
    ensures { result ≡ list_any (bytes_eq w.now) words_of_two }
{
    is(w, "AS") || is(w, "BY") || is(w, "IN") || is(w, "IS") || is(w, "ON") || is(w, "OR")
}

fn is_of_three(w: &[u8]) -> bool
    ensures { result ≡ list_any (bytes_eq w.now) words_of_three }
{
    is(w, "ALL")
        || is(w, "AND")
        || is(w, "ASC")
        || is(w, "INT")
        || is(w, "MAX")
        || is(w, "MIN")
        || is(w, "NOT")
        || is(w, "SET")
        || is(w, "SUM")
}

fn is_of_four(w: &[u8]) -> bool
    ensures { result ≡ list_any (bytes_eq w.now) words_of_four }
{
    is(w, "DESC")
        || is(w, "DROP")
        || is(w, "FROM")
        || is(w, "INTO")
        || is(w, "JOIN")
        || is(w, "NULL")
        || is(w, "TRUE")
}

fn is_of_five(w: &[u8]) -> bool
    ensures { result ≡ list_any (bytes_eq w.now) words_of_five }
{
    is(w, "COUNT")
        || is(w, "FALSE")
        || is(w, "GROUP")
        || is(w, "INNER")
        || is(w, "ORDER")
        || is(w, "TABLE")
        || is(w, "WHERE")
}

fn is_of_six(w: &[u8]) -> bool
    ensures { result ≡ list_any (bytes_eq w.now) words_of_six }
{
    is(w, "BIGINT")
        || is(w, "COMMIT")
        || is(w, "CREATE")
        || is(w, "DELETE")
        || is(w, "INSERT")
        || is(w, "SELECT")
        || is(w, "UNIQUE")
        || is(w, "UPDATE")
        || is(w, "VALUES")
}

fn is_of_seven(w: &[u8]) -> bool
    ensures { result ≡ list_any (bytes_eq w.now) words_of_seven }
{
    is(w, "BETWEEN") || is(w, "BOOLEAN") || is(w, "INTEGER") || is(w, "PRIMARY") || is(w, "VARCHAR")
}

fn is_of_eight(w: &[u8]) -> bool
    ensures { result ≡ list_any (bytes_eq w.now) words_of_eight }
{
    is(w, "DISTINCT") || is(w, "ROLLBACK") || is(w, "SMALLINT")
}

/// Whether a word, in upper case, can't be an unquoted name.
pub fn is_reserved(word: &[u8]) -> bool
    ensures { result ≡ is_reserved_word word.now }
{
    match word.len() {
        2 => is_of_two(word),
        3 => is_of_three(word),
        4 => is_of_four(word),
        5 => is_of_five(word),
        6 => is_of_six(word),
        7 => is_of_seven(word),
        8 => is_of_eight(word),
        _ => false,
    }
}
