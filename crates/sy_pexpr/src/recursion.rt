//! The recursion: expressions and statements hold one another.

ghost use Rattle.std.specs.Prelude.{◌≡◌};
ghost use Rattle.sy_reading.specs.Reading as spec;
ghost use Rattle.sy_cursor.specs.Reads.{Reads};

use crate::expressions::Expressions;
use crate::statements::Statements;
use sy_cursor::{Stop, Tokens, WithHeight};
use sy_grammar::Grammar;
use sy_tree::{Block, Expr, Stmt};

/// An expression whose loosest operator is of that level or tighter.
#[cycle(parser)]
#[tactic(auto, unfolding(sy_reading::specs::Reading::readers))]
pub fn read_expr(tokens: &mut Tokens<'_>, depth: usize, least: u8) -> Result<WithHeight<Expr>, Stop>
    ensures { Reads (spec.read_expr depth least tokens.old.rest.now) result tokens.new.rest.now }
{
    if depth == 0 {
        return Err(Stop::Grammar);
    }
    Expressions {
        below: Grammar {
            depth: depth - 1,
            expr: read_expr,
            stmt: read_stmt,
        },
    }
    .chain(tokens, least)
}

/// A statement.
#[cycle(parser)]
#[tactic(auto, unfolding(sy_reading::specs::Reading::readers))]
fn read_stmt(tokens: &mut Tokens<'_>, depth: usize) -> Result<WithHeight<Stmt>, Stop>
    ensures { Reads (spec.read_stmt depth tokens.old.rest.now) result tokens.new.rest.now }
{
    if depth == 0 {
        return Err(Stop::Grammar);
    }
    Statements {
        below: Grammar {
            depth: depth - 1,
            expr: read_expr,
            stmt: read_stmt,
        },
    }
    .one_stmt(tokens)
}

/// The block that comes next.
pub fn read_block(tokens: &mut Tokens<'_>) -> Result<WithHeight<Block>, Stop>
    ensures { Reads (spec.read_block 64 tokens.old.rest.now) result tokens.new.rest.now }
{
    Grammar {
        depth: 64,
        expr: read_expr,
        stmt: read_stmt,
    }
    .one_block(tokens)
}
