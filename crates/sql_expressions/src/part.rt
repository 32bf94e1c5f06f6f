//! Expressions with their depth.

ghost use Rattle.std.specs.Prelude.{◌≡◌, ◌+◌, ℕ, List, IfOk, max};
ghost use Rattle.sql_grammar.specs.Syntax as s;
ghost use Rattle.sql_grammar.specs.Syntax.{none};
ghost use Rattle.sql_grammar.specs.Depth.{depth};
ghost use Rattle.sql_expressions.specs.View.{tree_of, trees_from};
ghost use Rattle.sql_expressions.specs.Capped.{capped};

use crate::members::Members;
use dby_types::value::{Name, Txt};
use sql_ast::expression::{Aggregate, Comparison, Expression, Product, Sum};
use std::alloc::{AllocError, Global};
use std::marker::Model;

/// An expression and its depth, where 255 stands for all from 255 on. In a contract it is the expression.
#[derive(Drop)]
pub struct Part {
    expression: Expression,
    depth: u8,
}

impl Model for Part {
    ghost use Rattle.std.specs.Coded.{codes};
    ghost use Rattle.std.specs.Prelude.{◌≡◌};
    ghost use Rattle.sql_ast.specs.contracts.expression.Expression as e;
    ghost use Rattle.sql_ast.specs.declared.expression.Expression.{Expression};
    ghost use Rattle.sql_grammar.specs.Depth.{depth as depth_of};
    ghost use Rattle.sql_expressions.specs.View.{tree_of};
    ghost use Rattle.sql_expressions.specs.Capped.{capped};

    ghost Value = { Expression };

    ghost coded = { Prim.hlevel (codes, e.the_row.coded) };

    ghost view = { λ a. a.expression };

    ghost invariant = { λ a. a.depth ≡ capped (depth_of (tree_of a.expression)) };
}

/// One more.
pub fn deeper(d: u8) -> u8
    ensures { (x : ℕ) → d ≡ capped x → result ≡ capped (x + 1) }
{
    if d < 255 { d + 1 } else { 255 }
}

/// The greater one.
pub fn deepest(d: u8, e: u8) -> u8
    ensures { (x y : ℕ) → d ≡ capped x → e ≡ capped y → result ≡ capped (max x y) }
{
    if d < e { e } else { d }
}

/// One more than the greater one.
pub fn joint(d: u8, e: u8) -> u8
    ensures { (x y : ℕ) → d ≡ capped x → e ≡ capped y → result ≡ capped (max x y + 1) }
{
    deeper(deepest(d, e))
}

impl Part {
    /// The tree.
    pub fn into_expression(self) -> Expression
        ensures { result ≡ self }
    {
        let Part {
            expression,
            depth: _,
        } = self;
        expression
    }

    pub fn depth(&self) -> u8
        ensures { result ≡ capped (depth (tree_of self.now)) }
    {
        self.depth
    }

    pub fn or(alloc: Global, a: Part, b: Part) -> Result<Part, AllocError>
        ensures { IfOk result (λ e. tree_of e ≡ s.Or (tree_of a) (tree_of b)) }
    {
        let depth = joint(a.depth, b.depth);
        let expression = Expression::Or(
            Box::new(alloc, a.into_expression())?,
            Box::new(alloc, b.into_expression())?,
        );
        Ok(Part { expression, depth })
    }

    pub fn and(alloc: Global, a: Part, b: Part) -> Result<Part, AllocError>
        ensures { IfOk result (λ e. tree_of e ≡ s.And (tree_of a) (tree_of b)) }
    {
        let depth = joint(a.depth, b.depth);
        let expression = Expression::And(
            Box::new(alloc, a.into_expression())?,
            Box::new(alloc, b.into_expression())?,
        );
        Ok(Part { expression, depth })
    }

    pub fn not(alloc: Global, a: Part) -> Result<Part, AllocError>
        ensures { IfOk result (λ e. tree_of e ≡ s.Not (tree_of a)) }
    {
        let depth = deeper(a.depth);
        let expression = Expression::Not(Box::new(alloc, a.into_expression())?);
        Ok(Part { expression, depth })
    }

    pub fn compare(
        alloc: Global,
        comparison: Comparison,
        a: Part,
        b: Part,
    ) -> Result<Part, AllocError>
        ensures { IfOk result (λ e. tree_of e ≡ s.Compare comparison (tree_of a) (tree_of b)) }
    {
        let depth = joint(a.depth, b.depth);
        let expression = Expression::Compare(
            comparison,
            Box::new(alloc, a.into_expression())?,
            Box::new(alloc, b.into_expression())?,
        );
        Ok(Part { expression, depth })
    }

    pub fn is_null(alloc: Global, negated: bool, a: Part) -> Result<Part, AllocError>
        ensures { IfOk result (λ e. tree_of e ≡ s.IsNull negated (tree_of a)) }
    {
        let depth = deeper(a.depth);
        let expression = Expression::IsNull(negated, Box::new(alloc, a.into_expression())?);
        Ok(Part { expression, depth })
    }

    pub fn between(
        alloc: Global,
        negated: bool,
        a: Part,
        low: Part,
        high: Part,
    ) -> Result<Part, AllocError>
        ensures { IfOk result (λ e. tree_of e ≡ s.Between negated (tree_of a) (tree_of low) (tree_of high)) }
    {
        let depth = joint(deepest(a.depth, low.depth), high.depth);
        let expression = Expression::Between(
            negated,
            Box::new(alloc, a.into_expression())?,
            Box::new(alloc, low.into_expression())?,
            Box::new(alloc, high.into_expression())?,
        );
        Ok(Part { expression, depth })
    }

    #[tactic(auto, using(crate::proofs::MemberLists::trees_row))]
    pub fn is_in(
        alloc: Global,
        negated: bool,
        a: Part,
        members: Members,
    ) -> Result<Part, AllocError>
        ensures { IfOk result (λ e. tree_of e ≡ s.In negated (tree_of a) (trees_from none members)) }
    {
        let depth = joint(a.depth, members.depth());
        let expression = Expression::In(
            negated,
            Box::new(alloc, a.into_expression())?,
            members.into_vec(),
        );
        Ok(Part { expression, depth })
    }

    pub fn add(alloc: Global, sum: Sum, a: Part, b: Part) -> Result<Part, AllocError>
        ensures { IfOk result (λ e. tree_of e ≡ s.Add sum (tree_of a) (tree_of b)) }
    {
        let depth = joint(a.depth, b.depth);
        let expression = Expression::Add(
            sum,
            Box::new(alloc, a.into_expression())?,
            Box::new(alloc, b.into_expression())?,
        );
        Ok(Part { expression, depth })
    }

    pub fn multiply(alloc: Global, product: Product, a: Part, b: Part) -> Result<Part, AllocError>
        ensures { IfOk result (λ e. tree_of e ≡ s.Multiply product (tree_of a) (tree_of b)) }
    {
        let depth = joint(a.depth, b.depth);
        let expression = Expression::Multiply(
            product,
            Box::new(alloc, a.into_expression())?,
            Box::new(alloc, b.into_expression())?,
        );
        Ok(Part { expression, depth })
    }

    pub fn sign(alloc: Global, sign: Sum, a: Part) -> Result<Part, AllocError>
        ensures { IfOk result (λ e. tree_of e ≡ s.Sign sign (tree_of a)) }
    {
        let depth = deeper(a.depth);
        let expression = Expression::Sign(sign, Box::new(alloc, a.into_expression())?);
        Ok(Part { expression, depth })
    }

    pub fn number(sign: Sum, n: u64) -> Part
        ensures { tree_of result ≡ s.Number sign n }
    {
        Part {
            expression: Expression::Number(sign, n),
            depth: 1,
        }
    }

    pub fn text(text: Txt) -> Part
        ensures { tree_of result ≡ s.Text text }
    {
        Part {
            expression: Expression::Text(text),
            depth: 1,
        }
    }

    pub fn truth(truth: bool) -> Part
        ensures { tree_of result ≡ s.Truth truth }
    {
        Part {
            expression: Expression::Truth(truth),
            depth: 1,
        }
    }

    pub fn column(name: Name) -> Part
        ensures { tree_of result ≡ s.Column name }
    {
        Part {
            expression: Expression::Column(name),
            depth: 1,
        }
    }

    pub fn column_of(table: Name, name: Name) -> Part
        ensures { tree_of result ≡ s.ColumnOf table name }
    {
        Part {
            expression: Expression::ColumnOf(table, name),
            depth: 1,
        }
    }

    pub fn brackets(alloc: Global, a: Part) -> Result<Part, AllocError>
        ensures { IfOk result (λ e. tree_of e ≡ s.Brackets (tree_of a)) }
    {
        let depth = deeper(a.depth);
        let expression = Expression::Brackets(Box::new(alloc, a.into_expression())?);
        Ok(Part { expression, depth })
    }

    pub fn count_all() -> Part
        ensures { tree_of result ≡ s.CountAll }
    {
        Part {
            expression: Expression::CountAll,
            depth: 1,
        }
    }

    pub fn call(alloc: Global, aggregate: Aggregate, a: Part) -> Result<Part, AllocError>
        ensures { IfOk result (λ e. tree_of e ≡ s.Call aggregate (tree_of a)) }
    {
        let depth = deeper(a.depth);
        let expression = Expression::Call(aggregate, Box::new(alloc, a.into_expression())?);
        Ok(Part { expression, depth })
    }
}
