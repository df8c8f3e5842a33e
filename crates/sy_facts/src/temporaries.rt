// Whether a temporary in an expression has to be ended. (C++17, "Temporary objects")

ghost use Rattle.std.specs.Prelude.{◌≡◌, ◌||◌, ℕ, map, IfOk};
ghost use Rattle.std.specs.List.{list_any};
ghost use Rattle.sy_facts.specs.Parts.{argument};
ghost use Rattle.sy_meaning.specs.Expressions.{Calls, makes_of};
ghost use Rattle.sy_meaning.specs.Making.{has_end};
ghost use Rattle.sy_meaning.specs.Statements.{any_makes, argument_makes};
ghost use Rattle.sy_meaning.specs.Turns.{expression};

use crate::locations::DEPTH;
use std::alloc::AllocError;
use sy_typed::{Thing, Typed, TypedArgument, TypedNode};

fn has_end(what: Thing) -> bool
    ensures { result ≡ has_end what }
{
    match what {
        Thing::Buffer(_, _) => true,
        Thing::HostAccessor(_, _, _) => true,
        _ => false,
    }
}

fn either(a: bool, b: bool) -> bool
    ensures { result ≡ (a || b) }
{
    a || b
}

#[cycle(makes)]
fn makes_in(depth: usize, e: &Typed) -> Result<bool, AllocError>
    ensures { (calls : Calls) (limit : ℕ) → IfOk result (λ b. b ≡ (expression calls limit e.now).makes) }
{
    if depth == 0 {
        return Err(AllocError);
    }
    match &e.node {
        TypedNode::Call(_, xs, _) => any_makes_in(depth - 1, xs.as_slice()),
        TypedNode::Parenthesized(a, _) => makes_in(depth - 1, a.get()),
        TypedNode::StaticCast(a, _) => makes_in(depth - 1, a.get()),
        TypedNode::FunctionalCast(a, _) => makes_in(depth - 1, a.get()),
        TypedNode::Construct(xs, _) => {
            let among = arguments_make_in(depth - 1, xs.as_slice())?;
            Ok(either(has_end(e.what), among))
        }
        TypedNode::GroupBarrier(a, _) => makes_in(depth - 1, a.get()),
        TypedNode::LibraryCall(_, xs, _) => arguments_make_in(depth - 1, xs.as_slice()),
        TypedNode::Subscript(a, i, _) => either_makes(depth - 1, a.get(), i.get()),
        TypedNode::MemberCall(a, _, xs, _) => {
            let first = makes_in(depth - 1, a.get())?;
            let among = arguments_make_in(depth - 1, xs.as_slice())?;
            Ok(either(first, among))
        }
        TypedNode::Postfix(a, _) => makes_in(depth - 1, a.get()),
        TypedNode::Prefix(_, a) => makes_in(depth - 1, a.get()),
        TypedNode::Unary(_, a) => makes_in(depth - 1, a.get()),
        TypedNode::Cast(a) => makes_in(depth - 1, a.get()),
        TypedNode::Binary(a, _, b) => either_makes(depth - 1, a.get(), b.get()),
        TypedNode::Conditional(c, a, b) => {
            let first = makes_in(depth - 1, c.get())?;
            let among = either_makes(depth - 1, a.get(), b.get())?;
            Ok(either(first, among))
        }
        TypedNode::Integer(_) => Ok(false),
        TypedNode::Character(_) => Ok(false),
        TypedNode::Boolean(_) => Ok(false),
        TypedNode::Name(_) => Ok(false),
        TypedNode::Reference(_) => Ok(false),
        TypedNode::AccessTag(_) => Ok(false),
        TypedNode::InOrder(_) => Ok(false),
        TypedNode::ErrorCode(_, _) => Ok(false),
        TypedNode::InitializeToIdentity(_) => Ok(false),
        TypedNode::FunctionObject(_, _, _) => Ok(false),
    }
}

#[cycle(makes)]
fn either_makes(depth: usize, a: &Typed, b: &Typed) -> Result<bool, AllocError>
    ensures { (calls : Calls) (limit : ℕ) → IfOk result (λ m. m ≡ ((expression calls limit a.now).makes || (expression calls limit b.now).makes)) }
{
    let first = makes_in(depth, a)?;
    let second = makes_in(depth, b)?;
    Ok(either(first, second))
}

#[cycle(makes)]
fn any_makes_in(depth: usize, xs: &[Typed]) -> Result<bool, AllocError>
    ensures { (calls : Calls) (limit : ℕ) → IfOk result (λ b. b ≡ list_any makes_of (map (expression calls limit) xs.now)) }
{
    for x in xs {
        if makes_in(depth, x)? {
            return Ok(true);
        }
    }
    Ok(false)
}

#[cycle(makes)]
fn argument_makes_in(depth: usize, x: &TypedArgument) -> Result<bool, AllocError>
    ensures { (calls : Calls) (limit : ℕ) → IfOk result (λ b. b ≡ argument_makes (argument calls limit x.now)) }
{
    match x {
        TypedArgument::Value(e) => makes_in(depth, e),
        TypedArgument::Braced(es, _) => any_makes_in(depth, es.as_slice()),
        TypedArgument::Lambda(_) => Ok(false),
    }
}

#[cycle(makes)]
fn arguments_make_in(depth: usize, xs: &[TypedArgument]) -> Result<bool, AllocError>
    ensures { (calls : Calls) (limit : ℕ) → IfOk result (λ b. b ≡ any_makes (map (argument calls limit) xs.now)) }
{
    for x in xs {
        if argument_makes_in(depth, x)? {
            return Ok(true);
        }
    }
    Ok(false)
}

/// Whether a temporary in the expression has an end.
pub fn makes(e: &Typed) -> Result<bool, AllocError>
    ensures { (calls : Calls) (limit : ℕ) → IfOk result (λ b. b ≡ (expression calls limit e.now).makes) }
{
    makes_in(DEPTH, e)
}

/// Whether a temporary in one of the expressions has an end.
pub fn any_makes(xs: &[Typed]) -> Result<bool, AllocError>
    ensures { (calls : Calls) (limit : ℕ) → IfOk result (λ b. b ≡ list_any makes_of (map (expression calls limit) xs.now)) }
{
    any_makes_in(DEPTH, xs)
}

/// Whether a temporary in the argument has an end.
pub fn argument_makes(x: &TypedArgument) -> Result<bool, AllocError>
    ensures { (calls : Calls) (limit : ℕ) → IfOk result (λ b. b ≡ argument_makes (argument calls limit x.now)) }
{
    argument_makes_in(DEPTH, x)
}

/// Whether a temporary in one of the arguments has an end.
pub fn any_argument_makes(xs: &[TypedArgument]) -> Result<bool, AllocError>
    ensures { (calls : Calls) (limit : ℕ) → IfOk result (λ b. b ≡ any_makes (map (argument calls limit) xs.now)) }
{
    arguments_make_in(DEPTH, xs)
}
