// The lines of an expression: of its own token, and of its last one.

ghost use Rattle.std.specs.Prelude.{◌≡◌, ℕ, IfOk};
ghost use Rattle.sy_meaning.specs.Expressions.{Calls};
ghost use Rattle.sy_meaning.specs.Turns.{expression};

use crate::locations::DEPTH;
use std::alloc::AllocError;
use sy_typed::{Typed, TypedNode};

fn line_in(depth: usize, e: &Typed) -> Result<u32, AllocError>
    ensures { (calls : Calls) (limit : ℕ) → IfOk result (λ n. n ≡ (expression calls limit e.now).line) }
{
    if depth == 0 {
        return Err(AllocError);
    }
    match &e.node {
        TypedNode::Parenthesized(a, _) => line_in(depth - 1, a.get()),
        _ => Ok(e.spot.line),
    }
}

/// The line of its own token: in parentheses that of what stands in them.
pub fn line_of(e: &Typed) -> Result<u32, AllocError>
    ensures { (calls : Calls) (limit : ℕ) → IfOk result (λ n. n ≡ (expression calls limit e.now).line) }
{
    line_in(DEPTH, e)
}

fn last_in(depth: usize, e: &Typed) -> Result<u32, AllocError>
    ensures { (calls : Calls) (limit : ℕ) → IfOk result (λ n. n ≡ (expression calls limit e.now).last) }
{
    if depth == 0 {
        return Err(AllocError);
    }
    match &e.node {
        TypedNode::Integer(_) => Ok(e.spot.line),
        TypedNode::Character(_) => Ok(e.spot.line),
        TypedNode::Boolean(_) => Ok(e.spot.line),
        TypedNode::Name(_) => Ok(e.spot.line),
        TypedNode::Reference(_) => Ok(e.spot.line),
        TypedNode::AccessTag(_) => Ok(e.spot.line),
        TypedNode::Postfix(_, _) => Ok(e.spot.line),
        TypedNode::Call(_, _, last) => Ok(last.line),
        TypedNode::Parenthesized(_, last) => Ok(last.line),
        TypedNode::StaticCast(_, last) => Ok(last.line),
        TypedNode::FunctionalCast(_, last) => Ok(last.line),
        TypedNode::Construct(_, last) => Ok(last.line),
        TypedNode::GroupBarrier(_, last) => Ok(last.line),
        TypedNode::InOrder(last) => Ok(last.line),
        TypedNode::ErrorCode(_, last) => Ok(last.line),
        TypedNode::InitializeToIdentity(last) => Ok(last.line),
        TypedNode::FunctionObject(_, _, last) => Ok(last.line),
        TypedNode::LibraryCall(_, _, last) => Ok(last.line),
        TypedNode::Subscript(_, _, last) => Ok(last.line),
        TypedNode::MemberCall(_, _, _, last) => Ok(last.line),
        TypedNode::Prefix(_, a) => last_in(depth - 1, a.get()),
        TypedNode::Unary(_, a) => last_in(depth - 1, a.get()),
        TypedNode::Cast(a) => last_in(depth - 1, a.get()),
        TypedNode::Binary(_, _, b) => last_in(depth - 1, b.get()),
        TypedNode::Conditional(_, _, b) => last_in(depth - 1, b.get()),
    }
}

/// The line of its last token.
pub fn last_of(e: &Typed) -> Result<u32, AllocError>
    ensures { (calls : Calls) (limit : ℕ) → IfOk result (λ n. n ≡ (expression calls limit e.now).last) }
{
    last_in(DEPTH, e)
}
