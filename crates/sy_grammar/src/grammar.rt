//! The rules of the grammar, each over the parsers of the expressions and statements below.

ghost use Rattle.sy_cursor.specs.Reads.{Reads};
ghost use Rattle.sy_grammar.specs.Nests.{Nests};
ghost use Rattle.sy_reading.specs.Reading.{read_expr, read_stmt};

use sy_cursor::{Stop, Tokens, WithHeight};
use sy_tree::{Expr, Stmt};

/// A chain has a level for each of its operators, and so takes no more turns.
pub const TURNS: usize = 65;

/// The rules of the grammar, over the parsers of what stands below.
#[derive(Clone, Copy)]
pub struct Grammar<E, S> {
    /// How deep trees may still nest.
    pub depth: usize,
    /// Reads an expression of that depth, whose loosest operator is of that level or tighter.
    pub expr: E,
    /// Reads a statement of that depth.
    pub stmt: S,
}

impl<
    E: Fn(&mut Tokens<'_>, usize, u8) -> Result<WithHeight<Expr>, Stop>,
    S: Fn(&mut Tokens<'_>, usize) -> Result<WithHeight<Stmt>, Stop>,
> Grammar<E, S> {
    /// An expression below, whose loosest operator is of that level or tighter.
    pub fn sub_expr(&self, tokens: &mut Tokens<'_>, least: u8) -> Result<WithHeight<Expr>, Stop>
        requires { Nests self.now.depth (E.pre self.now.expr) (E.post self.now.expr) (S.pre self.now.stmt) (S.post self.now.stmt) }
        ensures { Reads (read_expr self.now.depth least tokens.old.rest.now) result tokens.new.rest.now }
    {
        (self.expr)(tokens, self.depth, least)
    }

    /// A statement below.
    pub fn sub_stmt(&self, tokens: &mut Tokens<'_>) -> Result<WithHeight<Stmt>, Stop>
        requires { Nests self.now.depth (E.pre self.now.expr) (E.post self.now.expr) (S.pre self.now.stmt) (S.post self.now.stmt) }
        ensures { Reads (read_stmt self.now.depth tokens.old.rest.now) result tokens.new.rest.now }
    {
        (self.stmt)(tokens, self.depth)
    }
}
