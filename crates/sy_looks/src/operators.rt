//! Operators, casts and parentheses. (C++17, "Expressions")

ghost use Rattle.std.specs.Prelude.{◌≡◌};
ghost use Rattle.sy_looks.specs.Looked.{Looked};
ghost use Rattle.sy_rules.specs.Walk.{judged};
ghost use Rattle.sy_tree.specs.declared.tree.Argument.TheOpen.{Expr-F};
ghost use Rattle.sy_typed.specs.declared.tree.TypedNode.TheVariants as node;

use crate::settle::judge;
use crate::steps::{pair, triple};
use crate::walk::{Part, Walk};
use sqlite_items::Boxed;
use std::alloc::AllocError;
use sy_constructs::parenthesized;
use sy_findings::Findings;
use sy_note::Spot;
use sy_num::UnOp;
use sy_operands::{
    binary, cast, conditional, functional_cast, postfix, prefix, static_cast, unary,
};
use sy_tree::{IntegerType, Operator, Step};
use sy_typed::TypedNode;

/// `(a)`.
pub fn judge_parenthesized(w: &mut Walk, s: Spot, a: Part, e: Spot) -> Result<Part, AllocError>
    ensures { Looked (judged (Expr-F.Parenthesized s a.0 e) (node.Parenthesized a.1 e) s) w.old result w.new }
{
    let (seen, tree) = a;
    let tree = Boxed::new(w.alloc, tree)?;
    let own = Findings::new();
    let whole = parenthesized(s, seen, e);
    Ok(judge(w, own, whole, TypedNode::Parenthesized(tree, e), s))
}

/// `static_cast<t>(a)`.
pub fn judge_static_cast(
    w: &mut Walk,
    s: Spot,
    t: IntegerType,
    a: Part,
    e: Spot,
) -> Result<Part, AllocError>
    ensures { Looked (judged (Expr-F.StaticCast s t a.0 e) (node.StaticCast a.1 e) s) w.old result w.new }
{
    let (seen, tree) = a;
    let tree = Boxed::new(w.alloc, tree)?;
    let mut own = Findings::new();
    let whole = static_cast(&mut own, s, t, seen, e);
    Ok(judge(w, own, whole, TypedNode::StaticCast(tree, e), s))
}

/// `t(a)`.
pub fn judge_functional_cast(
    w: &mut Walk,
    t: IntegerType,
    a: Part,
    e: Spot,
) -> Result<Part, AllocError>
    ensures { Looked (judged (Expr-F.FunctionalCast t a.0 e) (node.FunctionalCast a.1 e) t.spot) w.old result w.new }
{
    let (seen, tree) = a;
    let tree = Boxed::new(w.alloc, tree)?;
    let mut own = Findings::new();
    let whole = functional_cast(&mut own, t, seen, e);
    Ok(judge(w, own, whole, TypedNode::FunctionalCast(tree, e), t.spot))
}

/// `(t) a`.
pub fn judge_cast(w: &mut Walk, s: Spot, t: IntegerType, a: Part) -> Result<Part, AllocError>
    ensures { Looked (judged (Expr-F.Cast s t a.0) (node.Cast a.1) s) w.old result w.new }
{
    let (seen, tree) = a;
    let tree = Boxed::new(w.alloc, tree)?;
    let mut own = Findings::new();
    let whole = cast(&mut own, s, t, seen);
    Ok(judge(w, own, whole, TypedNode::Cast(tree), s))
}

/// `op a`.
pub fn judge_unary(w: &mut Walk, s: Spot, op: UnOp, a: Part) -> Result<Part, AllocError>
    ensures { Looked (judged (Expr-F.Unary s op a.0) (node.Unary op a.1) s) w.old result w.new }
{
    let (seen, tree) = a;
    let tree = Boxed::new(w.alloc, tree)?;
    let mut own = Findings::new();
    let whole = unary(&mut own, s, op, seen);
    Ok(judge(w, own, whole, TypedNode::Unary(op, tree), s))
}

/// `++a` or `--a`.
pub fn judge_prefix(w: &mut Walk, s: Spot, step: Step, a: Part) -> Result<Part, AllocError>
    ensures { Looked (judged (Expr-F.Prefix s step a.0) (node.Prefix step a.1) s) w.old result w.new }
{
    let (seen, tree) = a;
    let tree = Boxed::new(w.alloc, tree)?;
    let mut own = Findings::new();
    let whole = prefix(&mut own, s, step, seen);
    Ok(judge(w, own, whole, TypedNode::Prefix(step, tree), s))
}

/// `a++` or `a--`.
pub fn judge_postfix(w: &mut Walk, a: Part, s: Spot, step: Step) -> Result<Part, AllocError>
    ensures { Looked (judged (Expr-F.Postfix a.0 s step) (node.Postfix a.1 step) s) w.old result w.new }
{
    let (seen, tree) = a;
    let tree = Boxed::new(w.alloc, tree)?;
    let mut own = Findings::new();
    let whole = postfix(&mut own, seen, s, step);
    Ok(judge(w, own, whole, TypedNode::Postfix(tree, step), s))
}

/// `a op b`.
pub fn judge_binary(
    w: &mut Walk,
    a: Part,
    s: Spot,
    op: Operator,
    b: Part,
) -> Result<Part, AllocError>
    ensures { Looked (judged (Expr-F.Binary a.0 s op b.0) (node.Binary a.1 op b.1) s) w.old result w.new }
{
    let (a, left) = a;
    let (b, right) = b;
    let (left, right) = pair(w.alloc, left, right)?;
    let mut own = Findings::new();
    let whole = binary(&mut own, a, s, op, b);
    Ok(judge(w, own, whole, TypedNode::Binary(left, op, right), s))
}

/// `a ? b : c`.
pub fn judge_conditional(
    w: &mut Walk,
    a: Part,
    s: Spot,
    b: Part,
    c: Part,
) -> Result<Part, AllocError>
    ensures { Looked (judged (Expr-F.Conditional a.0 s b.0 c.0) (node.Conditional a.1 b.1 c.1) s) w.old result w.new }
{
    let (a, test) = a;
    let (b, left) = b;
    let (c, right) = c;
    let (test, left, right) = triple(w.alloc, test, left, right)?;
    let mut own = Findings::new();
    let whole = conditional(&mut own, a, s, b, c);
    Ok(judge(w, own, whole, TypedNode::Conditional(test, left, right), s))
}
