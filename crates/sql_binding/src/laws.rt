//! Laws of binding: what holds of every statement and dictionary. Each call is a proof and does nothing.

ghost use Rattle.dby_types.specs.declared.definition.ColumnDef.{ColumnDef};
ghost use Rattle.dby_types.specs.declared.definition.Dictionary.{Dictionary};
ghost use Rattle.dby_types.specs.declared.state.SqlState.{SqlState};
ghost use Rattle.dby_types.specs.declared.state.SqlState.TheVariants.{AmbiguousColumn, NoColumn, NoTable};
ghost use Rattle.dby_types.specs.declared.value.Ty.TheVariants.{Bool as Truths};
ghost use Rattle.dby_types.specs.declared.value.Value.{Value};
ghost use Rattle.expr_model.specs.Expression.{value_of};
ghost use Rattle.expr_model.specs.declared.evaluated.Evaluated.TheVariants.{Value as Gives};
ghost use Rattle.sql_ast.specs.declared.bound.Expr.{Expr};
ghost use Rattle.sql_ast.specs.declared.expression.Expression.{Expression, Sign'};
ghost use Rattle.sql_ast.specs.declared.statement.Item.{Item};
ghost use Rattle.sql_ast.specs.declared.statement.SelectText.{SelectText};
ghost use Rattle.dby_types.specs.declared.definition.TableDef.{TableDef};
ghost use Rattle.sql_ast.specs.declared.statement.SetText.{SetText};
ghost use Rattle.sql_ast.specs.declared.statement.Statement.{Statement};
ghost use Rattle.sql_ast.specs.declared.statement.Statement.TheVariants.{Select};
ghost use Rattle.sql_ast.specs.declared.statement.TableText.{TableText};
ghost use Rattle.sql_binding.specs.Binding.{all_faults, binding, bound_form, insert_faults};
ghost use Rattle.sql_binding.specs.Bound.{Bound};
ghost use Rattle.sql_binding.specs.Changes.{puts, set_faults, targets, tuple_trees, tuples_trees};
ghost use Rattle.sql_binding.specs.Expressions.{Scope, bound, bound_over, conjuncts_of};
ghost use Rattle.sql_binding.specs.Faults.{condition_faults, faults, faults_over};
ghost use Rattle.sql_binding.specs.From.{columns_of, listed, missing_tables, on_conditions, sources_of, tables_of};
ghost use Rattle.sql_binding.specs.Kinds.{CanPut, CanStoreAll, HasKind, HasKinds, IsTyped, is_of_kind};
ghost use Rattle.sql_binding.specs.Laws.{AreClassesFrom, IsFirst, Stands, classes, item_trees, joined_columns, places_of, tables_with};
ghost use Rattle.sql_binding.specs.Within.{HasItsPlaces, IsWithin};
ghost use Rattle.sql_binding.specs.Names.{Source, Spot, column_named, width_of};
ghost use Rattle.sql_binding.specs.Order.{kept_with, refusal_of};
ghost use Rattle.sql_binding.specs.Queries.{query, query_faults, query_sources};
ghost use Rattle.sql_binding.specs.Trees.{Tree, conjuncts_in, tree_of, trees_of};
ghost use Rattle.sql_model.specs.Inserting.{in_table_order};
ghost use Rattle.sql_model.specs.Where.{conjuncts_of as split_of, is_plain};
ghost use Rattle.sql_ast.specs.declared.expression.Sum.{Sum as Sign};
ghost use Rattle.std.specs.Global.{Box};
ghost use Rattle.std.specs.Prelude.{◌≡◌, ◌≢◌, ◌≤◌, ◌∷◌, ◌++◌, [], Err, List, None, Ok, Option, Some, false, length, true, ℕ};
ghost use Rattle.table_model.specs.Tables.{Each};

/// A statement is bound exactly where nothing is wrong with it, and else refused by the first fault of the earliest class: all before it in
/// the text are of later classes, and none at all is of an earlier one.
pub fn the_first_of_the_earliest_class_is_told()
    ensures quiet { (s : Statement) (d : Dictionary) → all_faults s d ≡ [] → binding s d ≡ Ok (bound_form s d) }
    ensures bound { (s : Statement) (d : Dictionary) (b : Bound) → binding s d ≡ Ok b → (all_faults s d ≡ []) × (b ≡ bound_form s d) }
    ensures refused { (s : Statement) (d : Dictionary) (why : SqlState) → binding s d ≡ Err why → IsFirst (all_faults s d) why }
{}

/// The refusal of two lists of faults, one behind the other, is that of the first with that of the second: so faults may be kept as they come.
pub fn faults_may_be_kept_as_they_come()
    ensures { (vs ws : List SqlState) → refusal_of (vs ++ ws) ≡ kept_with (refusal_of vs) (refusal_of ws) }
{}

/// A query over a table that isn't there is refused for that, whatever else is wrong with it.
pub fn a_missing_table_is_told()
    ensures { (d : Dictionary) (q : Box SelectText) → missing_tables d (tables_of q.value.from) ≢ [] → binding (Select q) d ≡ Err NoTable }
{}

/// The columns of an expression that nothing is wrong with stand in the joined row.
pub fn columns_stand_in_the_row()
    ensures { (ss : List Source) (e : Expression) → faults_over ss e ≡ [] → IsWithin (width_of ss) (bound_over ss e) }
{}

/// All places of a bound query are there: those of conjuncts, keys and aggregates' operands in the joined row, those of select items in the
/// joined row or in the row of a group.
pub fn a_query_has_its_places()
    ensures { (d : Dictionary) (q : SelectText) → query_faults d q ≡ [] → HasItsPlaces (width_of (query_sources d q)) (query d q) }
{}

/// A query's conjuncts are those of ON, from left to right, and then those of WHERE; the meaning splits a condition where the binding does.
pub fn conjuncts_are_on_then_where()
    ensures order { (d : Dictionary) (q : SelectText) → (query d q).conjuncts ≡ conjuncts_of (query_sources d q) (on_conditions q.from) ++ conjuncts_of (query_sources d q) (listed q.condition) }
    ensures split { (e : Expr) → trees_of (split_of e) ≡ conjuncts_in (tree_of e) }
{}

/// A tuple of INSERT has a value for each column of the table; as many values are wanted as the column list has names.
pub fn tuples_have_all_columns()
    ensures all { (columns : List ColumnDef) (spots : List Spot) (ts : List (List Item)) → Each (λ (t : List Tree). length t ≡ length columns) (tuples_trees columns spots ts) }
    ensures listed { (columns : List ColumnDef) (names : List (List ℕ)) → length (targets columns (Some names)) ≡ length names }
    ensures whole { (columns : List ColumnDef) → length (targets columns None) ≡ length columns }
{}

/// A name without a qualifier stands for a column exactly where one table of FROM has it: in none it isn't there, in several it is ambiguous.
pub fn a_name_is_of_one_table()
    ensures none { (ss : List Source) (name : List ℕ) → tables_with name ss ≡ 0 → column_named ss None name ≡ Err NoColumn }
    ensures one { (ss : List Source) (name : List ℕ) → tables_with name ss ≡ 1 → (spot : Spot) × (column_named ss None name ≡ Ok spot) }
    ensures several { (ss : List Source) (name : List ℕ) → 2 ≤ tables_with name ss → column_named ss None name ≡ Err AmbiguousColumn }
{}

/// What a name stands for is a column of that name in the joined row, and has its type.
pub fn a_name_stands_for_its_column()
    ensures { (ss : List Source) (table : Option (List ℕ)) (name : List ℕ) (spot : Spot) → column_named ss table name ≡ Ok spot → Stands 0 (joined_columns ss) name spot }
{}

/// A table with an alias is known by that alone, and not by its own name.
pub fn an_alias_hides_the_name()
    ensures { (d : Dictionary) (t : TableText) (alias name column : List ℕ) → t.alias ≡ Some alias → name ≢ alias → column_named (sources_of d (t ∷ [])) (Some name) column ≡ Err NoColumn }
{}

/// Each operand of a bound tree is of its type: numbers for arithmetic and signs, truth values for AND, OR and NOT, and comparable ones for
/// comparisons; and a condition is a truth value.
pub fn operands_are_of_their_types()
    ensures operands { (s : Scope) (n : ℕ) (e : Expression) → faults s n e ≡ [] → IsTyped (bound s n e) }
    ensures condition { (ss : List Source) (c : Expression) → condition_faults ss (c ∷ []) ≡ [] → HasKind Truths (bound_over ss c) }
{}

/// The classes of refusals stand in this order: tables and indexes, columns, numbers of values, types, names that stand twice, aggregates and
/// columns beside them, a second primary key, limits.
pub fn classes_stand_in_order()
    ensures { AreClassesFrom 0 classes }
{}

/// Whatever a bound expression gives over a row whose columns are of their types' kinds is of its type's kind, or NULL.
pub fn values_are_of_their_types()
    ensures { (ss : List Source) (e : Expression) (x : Expr) (row : ℕ → Value) (v : Value) → faults_over ss e ≡ [] → tree_of x ≡ bound_over ss e
        → HasKinds (joined_columns ss) row → value_of x row ≡ Gives v → is_of_kind x.ty v ≡ true }
{}

/// A tuple of INSERT is in the table's order as the meaning has it.
pub fn tuples_are_in_the_tables_order()
    ensures { (columns : List ColumnDef) (spots : List Spot) (items : List Item) (es : List Expr) → trees_of es ≡ item_trees spots items
        → trees_of (in_table_order columns (places_of spots) es) ≡ tuple_trees columns spots items }
{}

/// A sign that isn't a literal's, plus or minus, leaves a tree that the meaning doesn't take for a plain one.
pub fn signs_are_not_plain()
    ensures { (ss : List Source) (op : Sign) (p : _) (a : Expression) (x : Expr) → tree_of x ≡ bound_over ss (Sign' op p a) → is_plain x ≡ false }
{}

/// Each value of a bound INSERT, and each new value of SET, is of a type that its column can store.
pub fn columns_can_store_their_values()
    ensures insert { (t : Option TableDef) (names : Option (List (List ℕ))) (ts : List (List Item)) → insert_faults t names ts ≡ []
        → Each (CanStoreAll (columns_of t)) (tuples_trees (columns_of t) (targets (columns_of t) names) ts) }
    ensures update { (columns : List ColumnDef) (ss : List Source) (sets : List SetText) → set_faults columns ss sets ≡ [] → Each (CanPut columns) (puts columns ss sets) }
{}
