//! What names stand for in the tables of FROM.

ghost use Rattle.std.specs.Prelude.{◌≡◌, ◌+◌, ◌<◌, ◌^◌, List, Some, length};
ghost use Rattle.std.specs.List.{cons_option};
ghost use Rattle.std.specs.Str.{bytes_eq};
ghost use Rattle.expr_binder.specs.Found.{with_more};
ghost use Rattle.expr_binder.specs.Seen.{found_spot, named_spot, sources_in};
ghost use Rattle.sql_binding.specs.Names as meaning;
ghost use Rattle.sql_binding.specs.Names.{Spot as Place, column_named, only_one, or_missing, spots_from, width_of};

use dby_types::definition::ColumnDef;
use dby_types::state::SqlState;
use dby_types::value::Ty;

/// A table of FROM: the name by which it is known there, and its columns.
#[derive(Debug, Drop)]
pub struct Source<'d> {
    pub exposed: &'d [u8],
    pub columns: &'d [ColumnDef],
}

/// A column that a name stands for: its place in the joined row, and its type.
#[derive(Clone, Copy, Debug, PartialEq, Eq)]
pub struct Spot {
    pub place: u32,
    pub ty: Ty,
}

/// Whether two names are one.
pub fn is_name(a: &[u8], b: &[u8]) -> bool
    ensures { result ≡ bytes_eq a.now b.now }
{
    a == b
}

/// The column of a name in one table whose columns begin at a place.
pub fn spot_from(at: u32, name: &[u8], columns: &[ColumnDef]) -> Option<Spot>
    requires fits { at + length columns.now < 2 ^ 32 }
    ensures { found_spot result ≡ meaning.spot_from at name.now columns.now }
{
    let mut place = at;
    for column in columns {
        if is_name(name, column.name.as_slice()) {
            return Some(Spot {
                place,
                ty: column.ty,
            });
        }
        place += 1;
    }
    None
}

/// The column of a name in the first table that is known by a name.
fn qualified(sources: &[Source<'_>], table: &[u8], name: &[u8]) -> Option<Spot>
    requires fits { width_of (sources_in sources.now) < 2 ^ 32 }
    ensures { found_spot result ≡ meaning.spot_of 0 table.now name.now (sources_in sources.now) }
{
    let mut at = 0;
    for source in sources {
        if is_name(table, source.exposed) {
            return spot_from(at, name, source.columns);
        }
        at += source.columns.len() as u32;
    }
    None
}

/// The columns of a name that were found so far.
#[derive(Clone, Copy, Debug, PartialEq, Eq)]
enum Found {
    None,
    One(Spot),
    Several,
}

/// One table more was looked at.
fn and_also(found: Found, next: Option<Spot>) -> Found
    ensures { (rest : List Place) → with_more result rest ≡ with_more found (cons_option (found_spot next) rest) }
{
    match next {
        None => found,
        Some(spot) => match found {
            Found::None => Found::One(spot),
            Found::One(_) | Found::Several => Found::Several,
        },
    }
}

/// The only column of a name in all tables.
fn unqualified(sources: &[Source<'_>], name: &[u8]) -> Result<Spot, SqlState>
    requires fits { width_of (sources_in sources.now) < 2 ^ 32 }
    ensures { named_spot result ≡ only_one (spots_from 0 name.now (sources_in sources.now)) }
{
    let mut found = Found::None;
    let mut at = 0;
    for source in sources {
        found = and_also(found, spot_from(at, name, source.columns));
        at += source.columns.len() as u32;
    }
    match found {
        Found::None => Err(SqlState::NoColumn),
        Found::One(spot) => Ok(spot),
        Found::Several => Err(SqlState::AmbiguousColumn),
    }
}

/// The column that a name stands for in all tables of FROM, or why it stands for none.
pub fn column(sources: &[Source<'_>], name: &[u8]) -> Result<Spot, SqlState>
    requires fits { width_of (sources_in sources.now) < 2 ^ 32 }
    ensures { named_spot result ≡ column_named (sources_in sources.now) None name.now }
{
    unqualified(sources, name)
}

/// The column that a name stands for in the table that is known by a name, or why it stands for none.
pub fn column_of(sources: &[Source<'_>], table: &[u8], name: &[u8]) -> Result<Spot, SqlState>
    requires fits { width_of (sources_in sources.now) < 2 ^ 32 }
    ensures { named_spot result ≡ column_named (sources_in sources.now) (Some table.now) name.now }
{
    match qualified(sources, table, name) {
        Some(spot) => Ok(spot),
        None => Err(SqlState::NoColumn),
    }
}
