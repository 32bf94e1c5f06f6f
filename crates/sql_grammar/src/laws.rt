//! What the grammar and its readings have to do with each other.

ghost use Rattle.std.specs.Prelude.{◌≡◌, ◌≤◌, ℕ, List, Option, Some, None};
ghost use Rattle.sql_grammar.specs.Syntax.{Token};
ghost use Rattle.sql_grammar.specs.Rules.{Parsed};
ghost use Rattle.sql_grammar.specs.Verdict.{IsStatement, IsVerdict, whole};

/// Tokens are at most one statement.
pub fn one_statement()
    ensures { (limit : Option ℕ) (ts : List Token) (v w : Parsed) → IsStatement limit ts v → IsStatement limit ts w → v ≡ w }
{}

/// What is read is the statement, and where the reading ends otherwise the first fault stands.
pub fn reads_exactly()
    ensures all { (ts : List Token) → IsVerdict None ts (whole None ts) }
    ensures limited { (limit : ℕ) (ts : List Token) → 1 ≤ limit → IsVerdict (Some limit) ts (whole (Some limit) ts) }
{}
