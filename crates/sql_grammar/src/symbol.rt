//! What a token of a text is to the grammar.

ghost use Rattle.std.specs.Prelude.{◌≡◌, ℕ, List};
ghost use Rattle.std.specs.Str.{bytes_eq};
ghost use Rattle.sql_grammar.specs.Rules as r;
ghost use Rattle.sql_grammar.specs.Tokens as t;

use crate::word::{Class, Key, Word};
use sql_ast::expression::{Aggregate, Comparison, Product, Sum};
use sql_lexer::token::{Sign, TokenKind};

/// A token without its text. Huge is the number 2^63, Bad the form of no token.
#[derive(Clone, Copy, Debug, PartialEq, Eq)]
pub enum Symbol {
    Or,
    And,
    Not,
    Is,
    Null,
    Between,
    In,
    Dot,
    Open,
    Close,
    Comma,
    Huge,
    Bad,
    Compare(Comparison),
    Sum(Sum),
    Product(Product),
    Call(Aggregate),
    Number(u64),
    Text,
    Truth(bool),
    Key(Key),
    Name(Word),
}

/// Whether a word is spelled like this.
fn is(word: &[u8], spelling: &str) -> bool
    ensures { result ≡ bytes_eq word.now spelling.now }
{
    word == spelling.as_bytes()
}

fn word_of_two(w: &[u8]) -> Symbol
    ensures { result ≡ t.word_of_two w.now }
{
    if is(w, "AS") {
        return Symbol::Key(Key::As);
    }
    if is(w, "BY") {
        return Symbol::Key(Key::By);
    }
    if is(w, "CS") {
        return Symbol::Name(Word::Cs);
    }
    if is(w, "IN") {
        return Symbol::In;
    }
    if is(w, "IS") {
        return Symbol::Is;
    }
    if is(w, "ON") {
        return Symbol::Key(Key::On);
    }
    if is(w, "OR") {
        return Symbol::Or;
    }
    if is(w, "RR") {
        return Symbol::Name(Word::Rr);
    }
    if is(w, "RS") {
        return Symbol::Name(Word::Rs);
    }
    if is(w, "UR") {
        return Symbol::Name(Word::Ur);
    }
    Symbol::Name(Word::Plain)
}

fn word_of_three(w: &[u8]) -> Symbol
    ensures { result ≡ t.word_of_three w.now }
{
    if is(w, "ALL") {
        return Symbol::Key(Key::All);
    }
    if is(w, "AND") {
        return Symbol::And;
    }
    if is(w, "ASC") {
        return Symbol::Key(Key::Asc);
    }
    if is(w, "INT") {
        return Symbol::Key(Key::Int);
    }
    if is(w, "KEY") {
        return Symbol::Name(Word::Key);
    }
    if is(w, "MAX") {
        return Symbol::Call(Aggregate::Max);
    }
    if is(w, "MIN") {
        return Symbol::Call(Aggregate::Min);
    }
    if is(w, "NOT") {
        return Symbol::Not;
    }
    if is(w, "OFF") {
        return Symbol::Name(Word::Off);
    }
    if is(w, "SET") {
        return Symbol::Key(Key::Set);
    }
    if is(w, "SUM") {
        return Symbol::Call(Aggregate::Sum);
    }
    Symbol::Name(Word::Plain)
}

fn word_of_four(w: &[u8]) -> Symbol
    ensures { result ≡ t.word_of_four w.now }
{
    if is(w, "DESC") {
        return Symbol::Key(Key::Desc);
    }
    if is(w, "DROP") {
        return Symbol::Key(Key::Drop);
    }
    if is(w, "FROM") {
        return Symbol::Key(Key::From);
    }
    if is(w, "INTO") {
        return Symbol::Key(Key::Into);
    }
    if is(w, "JOIN") {
        return Symbol::Key(Key::Join);
    }
    if is(w, "LOCK") {
        return Symbol::Name(Word::Lock);
    }
    if is(w, "MODE") {
        return Symbol::Name(Word::Mode);
    }
    if is(w, "NULL") {
        return Symbol::Null;
    }
    if is(w, "TRUE") {
        return Symbol::Truth(true);
    }
    if is(w, "WORK") {
        return Symbol::Name(Word::Work);
    }
    Symbol::Name(Word::Plain)
}

fn word_of_five(w: &[u8]) -> Symbol
    ensures { result ≡ t.word_of_five w.now }
{
    if is(w, "COUNT") {
        return Symbol::Call(Aggregate::Count);
    }
    if is(w, "FALSE") {
        return Symbol::Truth(false);
    }
    if is(w, "GROUP") {
        return Symbol::Key(Key::Group);
    }
    if is(w, "INDEX") {
        return Symbol::Name(Word::Index);
    }
    if is(w, "INNER") {
        return Symbol::Key(Key::Inner);
    }
    if is(w, "ORDER") {
        return Symbol::Key(Key::Order);
    }
    if is(w, "SHARE") {
        return Symbol::Name(Word::Share);
    }
    if is(w, "TABLE") {
        return Symbol::Key(Key::Table);
    }
    if is(w, "WHERE") {
        return Symbol::Key(Key::Where);
    }
    Symbol::Name(Word::Plain)
}

fn word_of_six(w: &[u8]) -> Symbol
    ensures { result ≡ t.word_of_six w.now }
{
    if is(w, "BIGINT") {
        return Symbol::Key(Key::Bigint);
    }
    if is(w, "COMMIT") {
        return Symbol::Key(Key::Commit);
    }
    if is(w, "CREATE") {
        return Symbol::Key(Key::Create);
    }
    if is(w, "DELETE") {
        return Symbol::Key(Key::Delete);
    }
    if is(w, "INSERT") {
        return Symbol::Key(Key::Insert);
    }
    if is(w, "SELECT") {
        return Symbol::Key(Key::Select);
    }
    if is(w, "UNIQUE") {
        return Symbol::Key(Key::Unique);
    }
    if is(w, "UPDATE") {
        return Symbol::Key(Key::Update);
    }
    if is(w, "VALUES") {
        return Symbol::Key(Key::Values);
    }
    Symbol::Name(Word::Plain)
}

fn word_of_seven(w: &[u8]) -> Symbol
    ensures { result ≡ t.word_of_seven w.now }
{
    if is(w, "BETWEEN") {
        return Symbol::Between;
    }
    if is(w, "BOOLEAN") {
        return Symbol::Key(Key::Boolean);
    }
    if is(w, "CURRENT") {
        return Symbol::Name(Word::Current);
    }
    if is(w, "INTEGER") {
        return Symbol::Key(Key::Integer);
    }
    if is(w, "PRIMARY") {
        return Symbol::Key(Key::Primary);
    }
    if is(w, "VARCHAR") {
        return Symbol::Key(Key::Varchar);
    }
    Symbol::Name(Word::Plain)
}

fn word_of_eight(w: &[u8]) -> Symbol
    ensures { result ≡ t.word_of_eight w.now }
{
    if is(w, "DISTINCT") {
        return Symbol::Key(Key::Distinct);
    }
    if is(w, "ROLLBACK") {
        return Symbol::Key(Key::Rollback);
    }
    if is(w, "SMALLINT") {
        return Symbol::Key(Key::Smallint);
    }
    Symbol::Name(Word::Plain)
}

fn word_of_nine(w: &[u8]) -> Symbol
    ensures { result ≡ t.word_of_nine w.now }
{
    if is(w, "EXCLUSIVE") {
        return Symbol::Name(Word::Exclusive);
    }
    if is(w, "ISOLATION") {
        return Symbol::Name(Word::Isolation);
    }
    Symbol::Name(Word::Plain)
}

fn word_of_ten(w: &[u8]) -> Symbol
    ensures { result ≡ t.word_of_ten w.now }
{
    if is(w, "AUTOCOMMIT") {
        return Symbol::Name(Word::Autocommit);
    }
    Symbol::Name(Word::Plain)
}

/// A word, in upper case, as a keyword or a plain name.
#[tactic(auto, unfolding(crate::specs::Tokens::word_symbol))]
pub fn word_symbol(w: &[u8]) -> Symbol
    ensures { result ≡ t.word_symbol w.now }
{
    let length = w.len();
    if length == 2 {
        return word_of_two(w);
    }
    if length == 3 {
        return word_of_three(w);
    }
    if length == 4 {
        return word_of_four(w);
    }
    if length == 5 {
        return word_of_five(w);
    }
    if length == 6 {
        return word_of_six(w);
    }
    if length == 7 {
        return word_of_seven(w);
    }
    if length == 8 {
        return word_of_eight(w);
    }
    if length == 9 {
        return word_of_nine(w);
    }
    if length == 10 {
        return word_of_ten(w);
    }
    Symbol::Name(Word::Plain)
}

fn sign_symbol(sign: Sign) -> Symbol
    ensures { result ≡ t.sign_symbol sign }
{
    match sign {
        Sign::Open => Symbol::Open,
        Sign::Close => Symbol::Close,
        Sign::Comma => Symbol::Comma,
        Sign::Dot => Symbol::Dot,
        Sign::Star => Symbol::Product(Product::Times),
        Sign::Plus => Symbol::Sum(Sum::Plus),
        Sign::Minus => Symbol::Sum(Sum::Minus),
        Sign::Slash => Symbol::Product(Product::Over),
        Sign::Equal => Symbol::Compare(Comparison::Equal),
        Sign::NotEqual => Symbol::Compare(Comparison::NotEqual),
        Sign::Less => Symbol::Compare(Comparison::Less),
        Sign::LessEqual => Symbol::Compare(Comparison::LessEqual),
        Sign::Greater => Symbol::Compare(Comparison::Greater),
        Sign::GreaterEqual => Symbol::Compare(Comparison::GreaterEqual),
    }
}

fn number_symbol(n: u64) -> Symbol
    ensures { result ≡ t.number_symbol n }
{
    if n == 9223372036854775808 {
        Symbol::Huge
    } else {
        Symbol::Number(n)
    }
}

/// The symbol of a token.
pub fn symbol_in(kind: &TokenKind) -> Symbol
    ensures { result ≡ t.symbol_of kind.now }
{
    match kind {
        TokenKind::Name(word) => word_symbol(word.as_slice()),
        TokenKind::Quoted(_name) => Symbol::Name(Word::Plain),
        TokenKind::Number(n) => number_symbol(*n),
        TokenKind::Text(_text) => Symbol::Text,
        TokenKind::Sign(sign) => sign_symbol(*sign),
        TokenKind::Bad => Symbol::Bad,
    }
}

/// The text of a token: of a name, or within quotes.
pub fn text_in(kind: &TokenKind) -> &[u8]
    ensures { result.now ≡ t.text_of kind.now }
{
    match kind {
        TokenKind::Name(name) => name.as_slice(),
        TokenKind::Quoted(name) => name.as_slice(),
        TokenKind::Text(text) => text.as_slice(),
        TokenKind::Number(_n) => &[],
        TokenKind::Sign(_sign) => &[],
        TokenKind::Bad => &[],
    }
}

fn compared(comparison: Comparison) -> Class
    ensures { result ≡ r.comparison_class comparison }
{
    match comparison {
        Comparison::Equal => Class::Equal,
        Comparison::NotEqual => Class::Compare,
        Comparison::Less => Class::Compare,
        Comparison::LessEqual => Class::Compare,
        Comparison::Greater => Class::Compare,
        Comparison::GreaterEqual => Class::Compare,
    }
}

/// The class of a token of this symbol.
pub fn class_in(symbol: Symbol) -> Class
    ensures { (n : List ℕ) → r.class_of (t.token_from symbol n) ≡ result }
{
    match symbol {
        Symbol::Or => Class::Or,
        Symbol::And => Class::And,
        Symbol::Not => Class::Not,
        Symbol::Is => Class::Is,
        Symbol::Null => Class::Null,
        Symbol::Between => Class::Between,
        Symbol::In => Class::In,
        Symbol::Dot => Class::Dot,
        Symbol::Open => Class::Open,
        Symbol::Close => Class::Close,
        Symbol::Comma => Class::Comma,
        Symbol::Huge => Class::Huge,
        Symbol::Bad => Class::Bad,
        Symbol::Compare(x) => compared(x),
        Symbol::Sum(Sum::Plus) => Class::Plus,
        Symbol::Sum(Sum::Minus) => Class::Minus,
        Symbol::Product(Product::Times) => Class::Star,
        Symbol::Product(Product::Over) => Class::Slash,
        Symbol::Call(_x) => Class::Call,
        Symbol::Number(_n) => Class::Number,
        Symbol::Text => Class::Text,
        Symbol::Truth(_b) => Class::Truth,
        Symbol::Key(k) => Class::Key(k),
        Symbol::Name(w) => Class::Name(w),
    }
}
