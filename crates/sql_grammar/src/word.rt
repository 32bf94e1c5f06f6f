//! Words, and the classes of tokens that the rules of statements tell apart.

ghost use Rattle.std.specs.Prelude.{◌≡◌};
ghost use Rattle.sql_grammar.specs.Classes as c;

/// A reserved word that stands in no expression.
#[derive(Clone, Copy, Debug, PartialEq, Eq)]
pub enum Key {
    All,
    As,
    Asc,
    Bigint,
    Boolean,
    By,
    Commit,
    Create,
    Delete,
    Desc,
    Distinct,
    Drop,
    From,
    Group,
    Inner,
    Insert,
    Int,
    Integer,
    Into,
    Join,
    On,
    Order,
    Primary,
    Rollback,
    Select,
    Set,
    Smallint,
    Table,
    Unique,
    Update,
    Values,
    Varchar,
    Where,
}

/// A word that is a name where a name is wanted. Plain is any other name.
#[derive(Clone, Copy, Debug, PartialEq, Eq)]
pub enum Word {
    Plain,
    Autocommit,
    Cs,
    Current,
    Exclusive,
    Index,
    Isolation,
    Key,
    Lock,
    Mode,
    Off,
    Rr,
    Rs,
    Share,
    Ur,
    Work,
}

/// The class of a token. Equal is `=`, Compare any other comparison, Call an aggregate's name, Huge the number 2^63.
#[derive(Clone, Copy, Debug, PartialEq, Eq)]
pub enum Class {
    Or,
    And,
    Not,
    Is,
    Null,
    Between,
    In,
    Dot,
    Open,
    Close,
    Comma,
    Equal,
    Compare,
    Plus,
    Minus,
    Star,
    Slash,
    Call,
    Number,
    Huge,
    Text,
    Truth,
    Bad,
    Key(Key),
    Name(Word),
}

fn key_tag(x: Key) -> u8
    ensures { result ≡ c.key_tag x }
{
    match x {
        Key::All => 0,
        Key::As => 1,
        Key::Asc => 2,
        Key::Bigint => 3,
        Key::Boolean => 4,
        Key::By => 5,
        Key::Commit => 6,
        Key::Create => 7,
        Key::Delete => 8,
        Key::Desc => 9,
        Key::Distinct => 10,
        Key::Drop => 11,
        Key::From => 12,
        Key::Group => 13,
        Key::Inner => 14,
        Key::Insert => 15,
        Key::Int => 16,
        Key::Integer => 17,
        Key::Into => 18,
        Key::Join => 19,
        Key::On => 20,
        Key::Order => 21,
        Key::Primary => 22,
        Key::Rollback => 23,
        Key::Select => 24,
        Key::Set => 25,
        Key::Smallint => 26,
        Key::Table => 27,
        Key::Unique => 28,
        Key::Update => 29,
        Key::Values => 30,
        Key::Varchar => 31,
        Key::Where => 32,
    }
}

fn word_tag(x: Word) -> u8
    ensures { result ≡ c.word_tag x }
{
    match x {
        Word::Plain => 0,
        Word::Autocommit => 1,
        Word::Cs => 2,
        Word::Current => 3,
        Word::Exclusive => 4,
        Word::Index => 5,
        Word::Isolation => 6,
        Word::Key => 7,
        Word::Lock => 8,
        Word::Mode => 9,
        Word::Off => 10,
        Word::Rr => 11,
        Word::Rs => 12,
        Word::Share => 13,
        Word::Ur => 14,
        Word::Work => 15,
    }
}

fn tag(x: Class) -> u8
    ensures { result ≡ c.tag x }
{
    match x {
        Class::Or => 0,
        Class::And => 1,
        Class::Not => 2,
        Class::Is => 3,
        Class::Null => 4,
        Class::Between => 5,
        Class::In => 6,
        Class::Dot => 7,
        Class::Open => 8,
        Class::Close => 9,
        Class::Comma => 10,
        Class::Equal => 11,
        Class::Compare => 12,
        Class::Plus => 13,
        Class::Minus => 14,
        Class::Star => 15,
        Class::Slash => 16,
        Class::Call => 17,
        Class::Number => 18,
        Class::Huge => 19,
        Class::Text => 20,
        Class::Truth => 21,
        Class::Bad => 22,
        Class::Key(_) => 23,
        Class::Name(_) => 24,
    }
}

fn inner(x: Class) -> u8
    ensures { result ≡ c.inner x }
{
    match x {
        Class::Key(k) => key_tag(k),
        Class::Name(w) => word_tag(w),
        _ => 0,
    }
}

/// Whether two classes are one.
pub fn same(x: Class, y: Class) -> bool
    ensures { result ≡ c.same x y }
{
    tag(x) == tag(y) && inner(x) == inner(y)
}
