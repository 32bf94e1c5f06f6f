//! Laws of the meaning: what holds of every statement and all tables. Each call is a proof and does nothing.

ghost use Rattle.dby_types.specs.declared.definition.ColumnDef.{ColumnDef};
ghost use Rattle.dby_types.specs.declared.number.RowId.{RowId};
ghost use Rattle.dby_types.specs.declared.value.Value.{Value};
ghost use Rattle.dby_types.specs.declared.value.Value.TheVariants.{Null, Num};
ghost use Rattle.dby_types.specs.declared.value.Value.TheVariants.{Bool as Truth};
ghost use Rattle.expr_model.specs.Arithmetic.{in_range};
ghost use Rattle.expr_model.specs.Expression.{columns_from, value_of};
ghost use Rattle.expr_model.specs.Totals.{known, total_from};
ghost use Rattle.expr_model.specs.declared.evaluated.Evaluated.{Evaluated};
ghost use Rattle.expr_model.specs.declared.evaluated.Evaluated.TheVariants.{Value as Gives};
ghost use Rattle.sql_ast.specs.declared.bound.BoundSelect.{BoundSelect};
ghost use Rattle.sql_ast.specs.declared.bound.BoundSet.{BoundSet};
ghost use Rattle.sql_ast.specs.declared.bound.Expr.{Expr};
ghost use Rattle.sql_ast.specs.declared.bound.Grouping.{Grouping};
ghost use Rattle.sql_ast.specs.declared.bound.OrderKey.{OrderKey};
ghost use Rattle.sql_ast.specs.declared.bound.Total.TheVariants.{CountAll, Over};
ghost use Rattle.sql_ast.specs.declared.expression.Aggregate.TheVariants.{Count, Max, Min, Sum};
ghost use Rattle.sql_model.specs.Apart.{AreApart, laid};
ghost use Rattle.sql_model.specs.Changes.{RowChange, delete_changes, set_values, tuple_values, update_changes};
ghost use Rattle.sql_model.specs.Groups.{groups_of};
ghost use Rattle.sql_model.specs.Inserting.{in_table_order};
ghost use Rattle.sql_model.specs.Joins.{Joins};
ghost use Rattle.sql_model.specs.Lines.{values_in};
ghost use Rattle.sql_model.specs.Meaning.{Answers};
ghost use Rattle.sql_model.specs.Order.{order_cmp};
ghost use Rattle.sql_model.specs.Query.{base_rows};
ghost use Rattle.sql_model.specs.Rows.{distinct_rows, same_row, trimmed_row, value_at};
ghost use Rattle.sql_model.specs.Storing.{MayStand, row_refusal, stored_row};
ghost use Rattle.sql_model.specs.Totals.{operand_values, total_of, totals_of};
ghost use Rattle.sql_model.specs.Tuples.{Row, Tuple};
ghost use Rattle.sql_model.specs.Unlike.{Divides, HasOneOfEach};
ghost use Rattle.sql_model.specs.Where.{AllTrue, conjuncts_of, judged};
ghost use Rattle.sql_model.specs.declared.judged.Judged.TheVariants.{Meets};
ghost use Rattle.std.specs.Bool.{Decides};
ghost use Rattle.std.specs.Cmp.{IsTotalOrder};
ghost use Rattle.std.specs.List.Sorted.{IsPermutation, IsSorted};
ghost use Rattle.std.specs.Prelude.{◌≡◌, ◌≢◌, ◌↔◌, ◌∷◌, ◌++◌, ◌+ℤ◌, [], List, None, Some, false, length, map, pos, true, ℕ};
ghost use Rattle.std.specs.declared.cmp.Ordering.TheVariants.{Greater, Less};
ghost use Rattle.table_model.specs.Tables.{Tables, is_same_rid};

/// WHERE keeps exactly the rows for which each conjunct is true: one that is unknown keeps none.
pub fn where_keeps_the_true()
    ensures { (cs : List Expr) (r : Row) → (judged cs r ≡ Meets) ↔ AllTrue cs (columns_from 0 r) }
{}

/// A condition is true exactly where each of its conjuncts is.
pub fn conjuncts_are_the_condition()
    ensures { (e : Expr) (row : ℕ → Value) → AllTrue (conjuncts_of e) row ↔ (value_of e row ≡ Gives (Truth true)) }
{}

/// A statement has one bag of joined tuples: what meets WHERE in the tables, in whatever order.
pub fn joined_lists_are_one_bag()
    ensures { (tables : Tables) (from : List ℕ) (cs : List Expr) (found more : List Tuple) → Joins tables from cs found → Joins tables from cs more → IsPermutation found more }
{}

/// Two rows stand for one exactly where they are one without trailing blanks, NULL being as NULL.
pub fn same_rows_are_trimmed_alike()
    ensures { (a b : Row) → Decides (same_row a b) (trimmed_row a ≡ trimmed_row b) }
{}

/// Groups divide the rows: no two have one key, each row is in the group of its key, and no row is lost or stands twice.
pub fn groups_divide_the_rows()
    ensures { (g : Grouping) (rows : List Row) → Divides g.keys rows (groups_of g rows) }
{}

/// DISTINCT keeps one of each.
pub fn distinct_keeps_one_of_each()
    ensures { (rows : List Row) → HasOneOfEach rows (distinct_rows rows) }
{}

/// Of no row there is one group where there is no GROUP BY, and none where there is; COUNT is 0, and the other totals are NULL.
pub fn no_row_is_counted()
    ensures whole { (g : Grouping) → g.whole ≡ true → base_rows (Some g) [] ≡ values_in (totals_of g.totals []) ∷ [] }
    ensures keyed { (g : Grouping) → g.whole ≡ false → base_rows (Some g) [] ≡ [] }
    ensures all { total_of [] CountAll ≡ Gives (Num (pos 0)) }
    ensures count { (e : Expr) → total_of [] (Over Count e) ≡ Gives (Num (pos 0)) }
    ensures sum { (e : Expr) → total_of [] (Over Sum e) ≡ Gives Null }
    ensures ends { (e : Expr) → (total_of [] (Over Min e) ≡ Gives Null) × (total_of [] (Over Max e) ≡ Gives Null) }
{}

/// A SUM is that of all values, and refused by the whole total alone. A total of two lists is the sum of theirs.
pub fn sums_are_of_all_rows()
    ensures whole { (e : Expr) (rows : List Row) → length (known (values_in (operand_values e rows))) ≢ 0
        → total_of rows (Over Sum e) ≡ in_range e.ty (total_from (pos 0) (values_in (operand_values e rows))) }
    ensures parts { (vs ws : List Value) → total_from (pos 0) (vs ++ ws) ≡ total_from (pos 0) vs +ℤ total_from (pos 0) ws }
{}

/// ORDER BY is a total order of rows: of each two, one comes first or both stand alike.
pub fn order_is_total()
    ensures { (ks : List OrderKey) → IsTotalOrder (order_cmp ks) }
{}

/// By the first key a row with NULL comes behind all that have a value, and before them under DESC.
pub fn nulls_have_their_place()
    ensures ascending { (k : OrderKey) (ks : List OrderKey) (a b : Row) → k.descends ≡ false → value_at k.place a ≢ Null → value_at k.place b ≡ Null → order_cmp (k ∷ ks) a b ≡ Less }
    ensures descending { (k : OrderKey) (ks : List OrderKey) (a b : Row) → k.descends ≡ true → value_at k.place a ≢ Null → value_at k.place b ≡ Null → order_cmp (k ∷ ks) a b ≡ Greater }
{}

/// An answer in another order is an answer too, where ORDER BY allows that order.
pub fn answers_are_bags()
    ensures { (q : BoundSelect) (tables : Tables) (rows more : List Row) → Answers q tables rows → IsPermutation rows more → IsSorted (order_cmp q.order) more → Answers q tables more }
{}

/// A new row that nothing refuses may stand in its table: each value fits its column, and none is NULL where that is refused.
pub fn new_rows_may_stand()
    ensures { (columns : List ColumnDef) (line : List Evaluated) → length line ≡ length columns → row_refusal columns line ≡ None → MayStand columns (stored_row columns line) }
{}

/// A tuple of INSERT and a row under SET have a value for each column, and a row that may stand is stored as it is, without a refusal.
pub fn rows_have_all_columns()
    ensures tuple { (columns : List ColumnDef) (ps : List ℕ) (es : List Expr) → length (tuple_values (in_table_order columns ps es)) ≡ length columns }
    ensures sets { (columns : List ColumnDef) (sets : List BoundSet) (r : Row) → length (set_values sets columns r) ≡ length columns }
    ensures same { (columns : List ColumnDef) (r : Row) → MayStand columns r → (stored_row columns (map Gives r) ≡ r) × (row_refusal columns (map Gives r) ≡ None) }
{}

/// The changes of an UPDATE or a DELETE don't meet: each is of a row as it stood before all of them, and no place is changed twice.
pub fn changes_do_not_meet()
    ensures updates { (tables : Tables) (n : ℕ) (columns : List ColumnDef) (sets : List BoundSet) (cs : List Expr) (found : List Tuple)
        → Joins tables (n ∷ []) cs found → AreApart tables (update_changes n columns sets found) }
    ensures deletes { (tables : Tables) (n : ℕ) (cs : List Expr) (found : List Tuple) → Joins tables (n ∷ []) cs found → AreApart tables (delete_changes n found) }
{}

/// Two changes at two places may be made in either order.
pub fn changes_may_be_swapped()
    ensures { (c d : RowChange) (more : List RowChange) (tables : Tables) (r s : RowId) → c.rid ≡ Some r → d.rid ≡ Some s → is_same_rid r s ≡ false
        → (t : ℕ) (x : RowId) → laid (c ∷ d ∷ more) tables t x ≡ laid (d ∷ c ∷ more) tables t x }
{}
