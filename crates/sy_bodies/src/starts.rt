//! Where parts of a source begin: the places of their first tokens.

ghost use Rattle.std.specs.Prelude.{◌≡◌, Bool, IfOk};
ghost use Rattle.std.specs.Option.{option_copied};
ghost use Rattle.sy_bodies.specs.Starts.{StartsAt, BeginsAt, left_part, own_start, declaration_start};
ghost use Rattle.sy_declare.specs.Trees.{full};
ghost use Rattle.sy_rules.specs.Walk.{expr, start_of, start_of_type};

use std::alloc::AllocError;
use sy_note::Spot;
use sy_objects::type_start;
use sy_tree::{ConstSpecifier, Declaration, Expr, FullExpression, TypeSpecifier};

fn start_of_type(of: TypeSpecifier) -> Spot
    ensures { result ≡ start_of_type of }
{
    match of {
        TypeSpecifier::Auto(s) => s,
        TypeSpecifier::Integer(t) => t.spot,
    }
}

fn start_of(specifier: Option<ConstSpecifier>, of: TypeSpecifier) -> Spot
    ensures { result ≡ start_of specifier of }
{
    match specifier {
        Some(ConstSpecifier::Const(s)) => s,
        Some(ConstSpecifier::Constexpr(s)) => s,
        None => start_of_type(of),
    }
}

/// Where the expression has a token of its own.
#[tactic(auto, unfolding(crate::specs::Starts::own_start))]
fn own_start(e: &Expr) -> Spot
    ensures { result ≡ own_start e.now }
{
    match e {
        Expr::Integer(x) | Expr::Character(x) | Expr::Name(x) => x.spot,
        Expr::Call(x, _, _) | Expr::MemberCall(_, x, _, _, _) => x.get().spot,
        Expr::Boolean(s, _)
        | Expr::Parenthesized(s, _, _)
        | Expr::StaticCast(s, _, _, _)
        | Expr::Subscript(_, s, _, _)
        | Expr::Postfix(_, s, _)
        | Expr::Prefix(s, _, _)
        | Expr::Unary(s, _, _)
        | Expr::Cast(s, _, _)
        | Expr::Binary(_, s, _, _)
        | Expr::Conditional(_, s, _, _) => *s,
        Expr::FunctionalCast(t, _, _) => t.spot,
        Expr::Construct(t, _, _, _, _) => type_start(t.get()),
        Expr::GroupBarrier(q, _, _)
        | Expr::AccessTag(q, _)
        | Expr::InOrder(q, _, _)
        | Expr::ErrorCode(q, _)
        | Expr::InitializeToIdentity(q, _, _)
        | Expr::FunctionObject(q, _, _, _, _)
        | Expr::LibraryCall(q, _, _, _) => q.namespace,
    }
}

/// The part that an expression begins with, where it has no token of its own before it.
#[tactic(auto, unfolding(crate::specs::Starts::left_part))]
fn left_part(e: &Expr) -> Option<&Expr>
    ensures { option_copied result ≡ left_part e.now }
{
    match e {
        Expr::Subscript(a, _, _, _)
        | Expr::MemberCall(a, _, _, _, _)
        | Expr::Postfix(a, _, _)
        | Expr::Binary(a, _, _, _)
        | Expr::Conditional(a, _, _, _) => Some(a.get()),
        _ => None,
    }
}

/// Where an expression begins, so many parts down at most.
fn leftmost(depth: usize, e: &Expr) -> Result<Spot, AllocError>
    ensures { IfOk result (λ s. StartsAt (expr e.now) s) }
{
    if depth == 0 {
        return Err(AllocError);
    }
    match left_part(e) {
        Some(part) => {
            let start = leftmost(depth - 1, part)?;
            Ok(start)
        }
        None => Ok(own_start(e)),
    }
}

/// Where a full expression begins.
pub fn full_start(f: &FullExpression) -> Result<Spot, AllocError>
    ensures { IfOk result (λ s. (stands : Bool) → BeginsAt (full f.now stands) s) }
{
    match f {
        FullExpression::Plain(a) => {
            let start = leftmost(usize::MAX, a)?;
            Ok(start)
        }
        FullExpression::Assignment(a, _, _, _) => {
            let start = leftmost(usize::MAX, a)?;
            Ok(start)
        }
    }
}

/// Where a declaration begins.
#[tactic(auto, unfolding(crate::specs::Starts::declaration_start))]
pub fn declaration_start(d: &Declaration) -> Spot
    ensures { result ≡ declaration_start d.now }
{
    match d {
        Declaration::Integers(c, t, _, _) => start_of(*c, *t),
        Declaration::Object(t, _, _, _) => type_start(t),
        Declaration::Vector(q, _, _, _, _)
        | Declaration::DeviceVector(q, _, _, _)
        | Declaration::ThreadVector(q, _, _)
        | Declaration::Thread(q, _, _, _, _) => q.namespace,
    }
}
