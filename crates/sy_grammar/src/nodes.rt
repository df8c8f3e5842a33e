//! Nodes of trees, with their heights.

ghost use Rattle.sy_cursor.specs.Reads.{Reads};
ghost use Rattle.sy_reading.specs.Input as input;

use sy_cursor::{Stop, Tokens, WithHeight, check_height};
use sy_tree::{Expr, Stmt};

/// An expression over parts of that height, unless it is too high.
pub fn expr_node(tokens: &Tokens<'_>, tree: Expr, height: u32) -> Result<WithHeight<Expr>, Stop>
    ensures { Reads (input.check_height tree height tokens.now.rest.now) result tokens.now.rest.now }
{
    check_height(tokens, tree, height)
}

/// A statement over parts of that height, unless it is too high.
pub fn stmt_node(tokens: &Tokens<'_>, tree: Stmt, height: u32) -> Result<WithHeight<Stmt>, Stop>
    ensures { Reads (input.check_height tree height tokens.now.rest.now) result tokens.now.rest.now }
{
    check_height(tokens, tree, height)
}
