//! Boxes that hand their value back where memory is wanting.

ghost use Rattle.std.specs.Prelude.{◌≡◌, IfOk, IfErr};

use crate::tree::{Expr, Stmt};
use std::alloc::Global;

/// The expression in a box, or the expression itself for want of memory.
pub fn boxed_expr(alloc: Global, expr: Expr) -> Result<Box<Expr>, Expr>
    ensures boxed { IfOk result (λ b. b.value ≡ expr) }
    ensures kept { IfErr result (λ e. e ≡ expr) }
{
    match Box::new(alloc, expr) {
        Ok(boxed) => Ok(boxed),
        Err(failed) => Err(failed.value),
    }
}

/// The statement in a box, or the statement itself for want of memory.
pub fn boxed_stmt(alloc: Global, stmt: Stmt) -> Result<Box<Stmt>, Stmt>
    ensures boxed { IfOk result (λ b. b.value ≡ stmt) }
    ensures kept { IfErr result (λ s. s ≡ stmt) }
{
    match Box::new(alloc, stmt) {
        Ok(boxed) => Ok(boxed),
        Err(failed) => Err(failed.value),
    }
}
