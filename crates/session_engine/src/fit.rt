//! Which values may stand in which columns.

ghost use Rattle.std.specs.Prelude.{◌≡◌, ◌&&◌, true};
ghost use Rattle.std.specs.Bool.{OnTrue};
ghost use Rattle.table_model.specs.Fitting.{fits_columns};
ghost use Rattle.table_model.specs.Tables.{Each};
ghost use Rattle.value_compare.specs.Storing.{is_storable, is_number_of};
ghost use Rattle.dby_types.specs.declared.value.Ty.TheVariants.{Big};
ghost use Rattle.journal_model.specs.Catalog.{fits, suits, is_null, has_null};
ghost use Rattle.journal_model.specs.Meaning.{all_suit, some_null};

use dby_types::definition::ColumnDef;
use dby_types::value::{Row, Ty, Value};

/// Each number has 64 bits.
fn is_big(n: i64) -> bool
    ensures { (result ≡ true) × (is_number_of Big n ≡ true) }
{
    true
}

/// Whether a value can stand in a column of this type.
fn fits_type(ty: Ty, value: &Value) -> bool
    ensures exact { result ≡ fits ty value.now }
    ensures kept { OnTrue result (is_storable ty value.now ≡ true) }
{
    match value {
        Value::Null => true,
        Value::Num(n) => match ty {
            Ty::Small => -32768 <= *n && *n < 32768,
            Ty::Int => -2147483648 <= *n && *n < 2147483648,
            Ty::Big => is_big(*n),
            _ => false,
        },
        Value::Bool(_) => match ty {
            Ty::Bool => true,
            _ => false,
        },
        Value::Text(text) => match ty {
            Ty::Text(most) => text.len() <= most as usize,
            _ => false,
        },
    }
}

/// Whether a row has a value for each column, of its type.
fn suits_columns(columns: &[ColumnDef], row: &[Value]) -> bool
    ensures exact { result ≡ suits columns.now row.now }
    ensures kept { OnTrue result (fits_columns columns.now row.now ≡ true) }
{
    if columns.len() != row.len() {
        return false;
    }
    for i in 0..columns.len() {
        if !fits_type(columns[i].ty, &row[i]) {
            return false;
        }
    }
    true
}

/// Whether each tuple suits the columns.
pub(crate) fn all_suiting(columns: &[ColumnDef], tuples: &[Row]) -> bool
    ensures exact { result ≡ all_suit columns.now tuples.now }
    ensures kept { OnTrue result (Each (λ t. fits_columns columns.now t ≡ true) tuples.now) }
{
    for tuple in tuples {
        if !suits_columns(columns, tuple.as_slice()) {
            return false;
        }
    }
    true
}

fn is_refused_null(column: &ColumnDef, value: &Value) -> bool
    ensures { result ≡ (column.now.not_null && is_null value.now) }
{
    match value {
        Value::Null => column.not_null,
        _ => false,
    }
}

/// Whether a row has NULL in a column that is NOT NULL.
fn has_refused_null(columns: &[ColumnDef], row: &[Value]) -> bool
    ensures { result ≡ has_null columns.now row.now }
{
    let most = columns.len().min(row.len());
    for i in 0..most {
        if is_refused_null(&columns[i], &row[i]) {
            return true;
        }
    }
    false
}

/// Whether some tuple has NULL in a column that is NOT NULL.
pub(crate) fn some_refused_null(columns: &[ColumnDef], tuples: &[Row]) -> bool
    ensures { result ≡ some_null columns.now tuples.now }
{
    for tuple in tuples {
        if has_refused_null(columns, tuple.as_slice()) {
            return true;
        }
    }
    false
}
