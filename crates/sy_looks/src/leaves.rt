//! Literals, names, and what else has no parts. (C++17, [lex.literal], [expr.prim.id])

ghost use Rattle.std.specs.Prelude.{◌≡◌, pos};
ghost use Rattle.sy_looks.specs.Looked.{Looked, looked};
ghost use Rattle.sy_rules.specs.Constants.{literal_value, number_in};
ghost use Rattle.sy_rules.specs.ExprTypes.{named_node, kind_written};
ghost use Rattle.sy_rules.specs.Literals.{character_value};
ghost use Rattle.sy_rules.specs.Names.{look_up};
ghost use Rattle.sy_rules.specs.Walk.{judged, error_or_runtime};
ghost use Rattle.sy_tree.specs.declared.tree.Argument.TheOpen.{Expr-F};
ghost use Rattle.sy_typed.specs.declared.tree.TypedNode.TheVariants as node;

use crate::settle::judge;
use crate::walk::{Part, Walk};
use std::alloc::AllocError;
use sy_constants::{character_value, literal_value};
use sy_constructs::{
    access_tag, boolean, character, error_code, error_or_runtime, foreign_name, function_object,
    in_order, initialize_to_identity, integer, kind_written, name, named_node, number_in, typed,
    used,
};
use sy_findings::Findings;
use sy_note::Spot;
use sy_tree::{AccessTag, Brackets, FunctionObject, IntegerType, Lexeme, Qualified};
use sy_typed::TypedNode;

/// An integer literal.
pub fn judge_integer(w: &mut Walk, x: &Lexeme) -> Part
    ensures { (result, w.new) ≡ looked (judged (Expr-F.Integer x.now) (node.Integer (number_in (literal_value x.now.text))) x.now.spot) w.old }
{
    let mut own = Findings::new();
    let whole = integer(&mut own, x);
    let value = number_in(literal_value(x.text.items()));
    judge(w, own, whole, TypedNode::Integer(value), x.spot)
}

/// A character literal.
pub fn judge_character(w: &mut Walk, x: &Lexeme) -> Part
    ensures { (result, w.new) ≡ looked (judged (Expr-F.Character x.now) (node.Character (pos (character_value x.now.text))) x.now.spot) w.old }
{
    let own = Findings::new();
    let whole = character(x);
    let value = character_value(x.text.items()) as i128;
    judge(w, own, whole, TypedNode::Character(value), x.spot)
}

/// `true` or `false`.
pub fn judge_boolean(w: &mut Walk, s: Spot, b: bool) -> Part
    ensures { (result, w.new) ≡ looked (judged (Expr-F.Boolean s b) (node.Boolean b) s) w.old }
{
    let own = Findings::new();
    let whole = boolean(s, b);
    judge(w, own, whole, TypedNode::Boolean(b), s)
}

/// `read_only` and its kin.
pub fn judge_access_tag(w: &mut Walk, q: Qualified, tag: AccessTag) -> Part
    ensures { (result, w.new) ≡ looked (judged (Expr-F.AccessTag q tag) (node.AccessTag tag) q.name) w.old }
{
    let own = Findings::new();
    let whole = access_tag(q, tag);
    judge(w, own, whole, TypedNode::AccessTag(tag), q.name)
}

/// `property::queue::in_order{}`.
pub fn judge_in_order(w: &mut Walk, q: Qualified, b: Brackets, e: Spot) -> Part
    ensures { (result, w.new) ≡ looked (judged (Expr-F.InOrder q b e) (node.InOrder e) q.name) w.old }
{
    let own = Findings::new();
    let whole = in_order(q, b, e);
    judge(w, own, whole, TypedNode::InOrder(e), q.name)
}

/// `property::reduction::initialize_to_identity{}`.
pub fn judge_initialize_to_identity(w: &mut Walk, q: Qualified, b: Brackets, e: Spot) -> Part
    ensures { (result, w.new) ≡ looked (judged (Expr-F.InitializeToIdentity q b e) (node.InitializeToIdentity e) q.name) w.old }
{
    let own = Findings::new();
    let whole = initialize_to_identity(q, b, e);
    judge(w, own, whole, TypedNode::InitializeToIdentity(e), q.name)
}

/// `plus<int>{}` and its kin.
pub fn judge_function_object(
    w: &mut Walk,
    q: Qualified,
    f: FunctionObject,
    t: Option<IntegerType>,
    b: Brackets,
    e: Spot,
) -> Part
    ensures { (result, w.new) ≡ looked (judged (Expr-F.FunctionObject q f t b e) (node.FunctionObject f (kind_written t) e) q.name) w.old }
{
    let own = Findings::new();
    let whole = function_object(q, f, t, b, e);
    let kind = kind_written(t);
    judge(w, own, whole, TypedNode::FunctionObject(f, kind, e), q.name)
}

/// `errc::x`.
pub fn judge_error_code(w: &mut Walk, q: Qualified, x: &Lexeme) -> Part
    ensures { (result, w.new) ≡ looked (judged (Expr-F.ErrorCode q x.now) (node.ErrorCode (error_or_runtime x.now.text) x.now.spot) q.name) w.old }
{
    let mut own = Findings::new();
    let whole = error_code(&w.names, &mut own, q, x);
    let error = error_or_runtime(x.text.items());
    judge(w, own, whole, TypedNode::ErrorCode(error, x.spot), q.name)
}

/// A name.
pub fn judge_name(w: &mut Walk, x: &Lexeme) -> Result<Part, AllocError>
    ensures { Looked (λ n. judged (Expr-F.Name x.now) (named_node n.setting.kernel (look_up n.entries x.now.text)) x.now.spot n) w.old result w.new }
{
    let found = w.names.find(x.text.items());
    let mut own = Findings::new();
    let whole = name(&w.names, &mut own, x, found);
    let foreign = foreign_name(&w.names, found);
    w.found.add(own);
    w.found.add_foreign(w.place, foreign);
    w.found.add_use(used(found))?;
    let node = named_node(w.names.setting().kernel, found);
    Ok((whole, typed(node, whole.what, x.spot)))
}
