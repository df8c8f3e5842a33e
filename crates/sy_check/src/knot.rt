//! Expressions, lambdas, statements and blocks, which hold one another.

ghost use Rattle.std.specs.Prelude.{◌≡◌};
ghost use Rattle.sy_looks.specs.Looked.{Looked};
ghost use Rattle.sy_rules.specs.Units.{constant_by};
ghost use Rattle.sy_rules.specs.Walk.{block, declarator_of, expr, stmt};
ghost use Rattle.sy_walk.specs.Trees.{lambda};

use std::alloc::AllocError;
use sy_bodies::{Inner, statements};
use sy_closures::Bodies;
use sy_declare::constant;
use sy_looks::{Part, Walk};
use sy_rules::{Role, SeenLambda, Standing};
use sy_tree::{Block, Constant, Expr, Lambda, Stmt};
use sy_typed::{TypedBlock, TypedConstant, TypedLambda, TypedStmt};
use sy_walk::Below;

/// How deep trees may nest: deeper than any that memory holds.
pub const DEPTH: usize = usize::MAX;

/// An expression.
#[cycle(checker)]
pub fn walk_expr(w: &mut Walk, depth: usize, e: &Expr) -> Result<Part, AllocError>
    ensures { Looked (expr e.now) w.old result w.new }
{
    if depth == 0 {
        return Err(AllocError);
    }
    Below {
        depth: depth - 1,
        expr: walk_expr,
        lambda: walk_lambda,
    }
    .form(w, e)
}

/// A lambda with this role.
#[cycle(checker)]
fn walk_lambda(
    w: &mut Walk,
    depth: usize,
    role: Role,
    l: &Lambda,
) -> Result<(SeenLambda, TypedLambda), AllocError>
    ensures { Looked (lambda l.now role) w.old result w.new }
{
    if depth == 0 {
        return Err(AllocError);
    }
    Bodies {
        depth: depth - 1,
        block: walk_block,
    }
    .lambda(w, role, l)
}

/// A statement.
#[cycle(checker)]
fn walk_stmt(
    w: &mut Walk,
    depth: usize,
    standing: Standing,
    s: &Stmt,
) -> Result<TypedStmt, AllocError>
    ensures { Looked (stmt s.now standing) w.old result w.new }
{
    if depth == 0 {
        return Err(AllocError);
    }
    Inner {
        below: Below {
            depth: depth - 1,
            expr: walk_expr,
            lambda: walk_lambda,
        },
        stmt: walk_stmt,
        block: walk_block,
    }
    .form(w, standing, s)
}

/// A block.
#[cycle(checker)]
pub fn walk_block(w: &mut Walk, depth: usize, b: &Block) -> Result<TypedBlock, AllocError>
    ensures { Looked (block b.now) w.old result w.new }
{
    if depth == 0 {
        return Err(AllocError);
    }
    statements(&walk_stmt, depth - 1, w, b)
}

/// A constant of the file.
pub fn walk_constant(w: &mut Walk, c: &Constant) -> Result<TypedConstant, AllocError>
    ensures { Looked (constant_by c.now (declarator_of c.now.declarator)) w.old result w.new }
{
    let below = Below {
        depth: DEPTH,
        expr: walk_expr,
        lambda: walk_lambda,
    };
    constant(&below, w, c)
}
