//! How many bytes a row takes.

ghost use Rattle.std.specs.Prelude.{◌≡◌, ◌<◌, ◌^◌};
ghost use Rattle.row_codec.specs.StoredRow.{column_len, row_len};

use dby_types::definition::Columns;
use dby_types::value::Ty;

/// The bytes of a column's value: its flag and its field.
pub fn column_len(ty: Ty) -> u32
    ensures exact { result ≡ column_len ty }
{
    match ty {
        Ty::Small => 3,
        Ty::Int => 5,
        Ty::Big => 9,
        Ty::Bool => 2,
        Ty::Text(n) => 3 + u32::from(n),
    }
}

/// The bytes of a row of these columns. Every row of them has this length.
pub fn row_len(c: &Columns) -> u32
    requires { row_len c.now < 2 ^ 32 }
    ensures exact { result ≡ row_len c.now }
{
    let mut len = 0;
    for column in c.as_slice() {
        len += column_len(column.ty);
    }
    len
}
