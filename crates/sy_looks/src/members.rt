//! Calls of members. (SYCL 2020, "SYCL programming interface")

ghost use Rattle.std.specs.Prelude.{◌≡◌};
ghost use Rattle.sy_looks.specs.Looked.{Looked, looked};
ghost use Rattle.sy_rules.specs.ExprTypes.{member_or_wait};
ghost use Rattle.sy_rules.specs.Walk.{judged};
ghost use Rattle.sy_tree.specs.declared.tree.Argument.TheOpen.{Expr-F};
ghost use Rattle.sy_typed.specs.declared.tree.TypedNode.TheVariants as node;

use crate::settle::judge;
use crate::steps::beside;
use crate::walk::{Arguments, Part, Walk};
use sqlite_items::Boxed;
use std::alloc::AllocError;
use sy_calls::member_call;
use sy_constructs::member_or_wait;
use sy_findings::Findings;
use sy_note::Spot;
use sy_rules::Seen;
use sy_tree::{Lexeme, TemplateArgument};
use sy_typed::{Typed, TypedNode};

/// A call of a member, with its object in a box.
fn judge_member(
    w: &mut Walk,
    a: Seen,
    object: Boxed<Typed>,
    x: &Lexeme,
    t: &Option<Boxed<TemplateArgument>>,
    xs: Arguments,
    e: Spot,
) -> Part
    ensures { (result, w.new) ≡ looked (judged (Expr-F.MemberCall a x.now t.now xs.0 e) (node.MemberCall object (member_or_wait x.now.text) xs.1 e) x.now.spot) w.old }
{
    let (seen, trees) = xs;
    let mut own = Findings::new();
    let whole = member_call(&w.names, &mut own, a, x, t, seen.as_slice(), e);
    let member = member_or_wait(x.text.items());
    let node = TypedNode::MemberCall(object, member, trees, e);
    judge(w, own, whole, node, x.spot)
}

/// `a.x<t>(..)`.
pub fn judge_member_call(
    w: &mut Walk,
    a: Part,
    x: &Lexeme,
    t: &Option<Boxed<TemplateArgument>>,
    xs: Arguments,
    e: Spot,
) -> Result<Part, AllocError>
    ensures { Looked (judged (Expr-F.MemberCall a.0 x.now t.now xs.0 e) (node.MemberCall a.1 (member_or_wait x.now.text) xs.1 e) x.now.spot) w.old result w.new }
{
    let (a, object) = a;
    let (xs, object) = beside(xs, Boxed::new(w.alloc, object))?;
    Ok(judge_member(w, a, object, x, t, xs, e))
}
