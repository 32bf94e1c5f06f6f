//! The members of an IN list with their depth.

ghost use Rattle.std.specs.Prelude.{◌≡◌, [], ◌∷◌, ◌++◌, IfOk};
ghost use Rattle.sql_grammar.specs.Syntax.{none};
ghost use Rattle.sql_grammar.specs.Depth.{depths};
ghost use Rattle.sql_expressions.specs.View.{trees_from};
ghost use Rattle.sql_expressions.specs.Capped.{capped};

use crate::part::{Part, deepest};
use sql_ast::expression::Expression;
use std::alloc::{AllocError, Global};
use std::marker::Model;

/// Expressions, and the depth of the deepest, where 255 stands for all from 255 on. In a contract it is their list.
#[derive(Drop)]
pub struct Members {
    items: Vec<Expression>,
    depth: u8,
}

impl Model for Members {
    ghost use Rattle.std.specs.Coded.{codes};
    ghost use Rattle.std.specs.Prelude.{◌≡◌, List};
    ghost use Rattle.sql_ast.specs.contracts.expression.Expression as e;
    ghost use Rattle.sql_ast.specs.declared.expression.Expression.{Expression};
    ghost use Rattle.sql_grammar.specs.Syntax.{none};
    ghost use Rattle.sql_grammar.specs.Depth.{depths};
    ghost use Rattle.sql_expressions.specs.View.{trees_from};
    ghost use Rattle.sql_expressions.specs.Capped.{capped};

    ghost Value = { List Expression };

    ghost coded = { Prim.hlevel (codes, e.the_row.coded) };

    ghost view = { λ a. a.items.items };

    ghost invariant = { λ a. a.depth ≡ capped (depths (trees_from none a.items.items)) };
}

impl Members {
    pub fn new(alloc: Global) -> Members
        ensures { result ≡ [] }
    {
        Members {
            items: Vec::new(alloc),
            depth: 0,
        }
    }

    /// The depth of the deepest.
    pub fn depth(&self) -> u8
        ensures { result ≡ capped (depths (trees_from none self.now)) }
    {
        self.depth
    }

    pub fn into_vec(self) -> Vec<Expression>
        ensures { result.items ≡ self }
    {
        let Members { items, depth: _ } = self;
        items
    }

    /// The members with one more at their end.
    #[tactic(auto, using(crate::proofs::MemberLists::trees_snoc))]
    pub fn with(self, member: Part) -> Result<Members, AllocError>
        ensures { IfOk result (λ m. m ≡ self ++ member ∷ []) }
    {
        let Members { items, depth } = self;
        let mut items = items;
        let depth = deepest(depth, member.depth());
        items.push(member.into_expression())?;
        Ok(Members { items, depth })
    }
}
