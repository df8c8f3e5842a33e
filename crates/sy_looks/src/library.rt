//! Calls, indexes, and what the library gives. (C++17, [expr.call], [expr.sub]; SYCL 2020, "SYCL programming interface")

ghost use Rattle.std.specs.Prelude.{◌≡◌};
ghost use Rattle.sy_looks.specs.Looked.{Looked, looked};
ghost use Rattle.sy_rules.specs.ExprTypes.{called_number, member_or_wait};
ghost use Rattle.sy_rules.specs.Foreign.{type_word};
ghost use Rattle.sy_rules.specs.Names.{look_up};
ghost use Rattle.sy_rules.specs.Walk.{judged};
ghost use Rattle.sy_tree.specs.declared.tree.Argument.TheOpen.{Expr-F};
ghost use Rattle.sy_typed.specs.declared.tree.TypedNode.TheVariants as node;

use crate::settle::judge_foreign;
use crate::steps::pair;
use crate::walk::{Arguments, Part, Parts, Walk};
use sqlite_items::Boxed;
use std::alloc::AllocError;
use sy_calls::{call, construct, library_call};
use sy_constructs::{
    called, called_number, foreign_barrier, foreign_function, foreign_index, foreign_object, typed,
};
use sy_findings::Findings;
use sy_note::Spot;
use sy_objects::type_word;
use sy_operands::{group_barrier, subscript};
use sy_tree::{Brackets, Lexeme, LibraryFunction, ObjectType, Qualified};
use sy_typed::TypedNode;

/// `a[i]`.
pub fn judge_subscript(w: &mut Walk, a: Part, s: Spot, i: Part, e: Spot) -> Result<Part, AllocError>
    ensures { Looked (judged (Expr-F.Subscript a.0 s i.0 e) (node.Subscript a.1 i.1 e) s) w.old result w.new }
{
    let (a, object) = a;
    let (i, index) = i;
    let (object, index) = pair(w.alloc, object, index)?;
    let mut own = Findings::new();
    let whole = subscript(&w.names, &mut own, a, s, i, e);
    let foreign = foreign_index(a);
    let node = TypedNode::Subscript(object, index, e);
    Ok(judge_foreign(w, own, foreign, whole, node, s))
}

/// `group_barrier(a)`.
pub fn judge_group_barrier(w: &mut Walk, q: Qualified, a: Part, e: Spot) -> Result<Part, AllocError>
    ensures { Looked (judged (Expr-F.GroupBarrier q a.0 e) (node.GroupBarrier a.1 e) q.name) w.old result w.new }
{
    let (seen, tree) = a;
    let tree = Boxed::new(w.alloc, tree)?;
    let mut own = Findings::new();
    let whole = group_barrier(&w.names, &mut own, q, seen, e);
    let foreign = foreign_barrier();
    let node = TypedNode::GroupBarrier(tree, e);
    Ok(judge_foreign(w, own, foreign, whole, node, q.name))
}

/// An object without a name.
pub fn judge_construct(
    w: &mut Walk,
    t: &ObjectType,
    b: Brackets,
    s: Spot,
    xs: Arguments,
    e: Spot,
) -> Part
    ensures { (result, w.new) ≡ looked (judged (Expr-F.Construct t.now b s xs.0 e) (node.Construct xs.1 e) (type_word t.now)) w.old }
{
    let (seen, trees) = xs;
    let mut own = Findings::new();
    let whole = construct(&w.names, &mut own, t, b, s, seen.as_slice(), e);
    let foreign = foreign_object(t);
    let node = TypedNode::Construct(trees, e);
    judge_foreign(w, own, foreign, whole, node, type_word(t))
}

/// A call of a function of the library.
pub fn judge_library_call(
    w: &mut Walk,
    q: Qualified,
    f: LibraryFunction,
    xs: Arguments,
    e: Spot,
) -> Part
    ensures { (result, w.new) ≡ looked (judged (Expr-F.LibraryCall q f xs.0 e) (node.LibraryCall f xs.1 e) q.name) w.old }
{
    let (seen, trees) = xs;
    let mut own = Findings::new();
    let whole = library_call(&w.names, &mut own, q, f, seen.as_slice(), e);
    let foreign = foreign_function(f);
    let node = TypedNode::LibraryCall(f, trees, e);
    judge_foreign(w, own, foreign, whole, node, q.name)
}

/// A call of a function of the source.
pub fn judge_call(w: &mut Walk, f: &Lexeme, xs: Parts, e: Spot) -> Result<Part, AllocError>
    ensures { Looked (λ n. judged (Expr-F.Call f.now xs.0 e) (node.Call (called_number (look_up n.entries f.now.text)) xs.1 e) f.now.spot n) w.old result w.new }
{
    let (seen, trees) = xs;
    let found = w.names.find(f.text.items());
    let mut own = Findings::new();
    let whole = call(&w.names, &mut own, f, found, seen.as_slice(), e);
    w.found.add(own);
    w.found.add_call(w.names.setting().within, called(found))?;
    let node = TypedNode::Call(called_number(found), trees, e);
    Ok((whole, typed(node, whole.what, f.spot)))
}
