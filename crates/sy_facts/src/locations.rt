// Types, and what an expression designates.

ghost use Rattle.std.specs.Prelude.{◌≡◌, ℕ, IfOk};
ghost use Rattle.sy_meaning.specs.Expressions.{Calls};
ghost use Rattle.sy_facts.specs.Locations.{reference_location};
ghost use Rattle.sy_meaning.specs.Turns.{expression};

use std::alloc::AllocError;
use sy_meaning::Location;
use sy_typed::{Thing, Typed, TypedNode};
use sy_words::element_of;

/// How deep trees may nest: deeper than any that memory holds. A walk that runs out of depth is want of memory.
pub const DEPTH: usize = usize::MAX;

fn what_in(depth: usize, e: &Typed) -> Result<Thing, AllocError>
    ensures { (calls : Calls) (limit : ℕ) → IfOk result (λ t. t ≡ (expression calls limit e.now).what) }
{
    if depth == 0 {
        return Err(AllocError);
    }
    match &e.node {
        TypedNode::Parenthesized(a, _) => what_in(depth - 1, a.get()),
        _ => Ok(e.what),
    }
}

/// The type of an expression: in parentheses that of what stands in them.
pub fn what_of(e: &Typed) -> Result<Thing, AllocError>
    ensures { (calls : Calls) (limit : ℕ) → IfOk result (λ t. t ≡ (expression calls limit e.now).what) }
{
    what_in(DEPTH, e)
}

fn of_reference(what: Thing, n: u32) -> Location
    ensures { result ≡ reference_location what n }
{
    match what {
        Thing::Integer(_) => Location::Element,
        _ => Location::Local(n),
    }
}

fn location_in(depth: usize, e: &Typed) -> Result<Location, AllocError>
    ensures { (calls : Calls) (limit : ℕ) → IfOk result (λ l. l ≡ (expression calls limit e.now).location) }
{
    if depth == 0 {
        return Err(AllocError);
    }
    match &e.node {
        TypedNode::Name(n) => Ok(Location::Local(*n)),
        TypedNode::Reference(n) => Ok(of_reference(e.what, *n)),
        TypedNode::Subscript(a, _, _) => {
            let what = what_of(a.get())?;
            let location = location_in(depth - 1, a.get())?;
            Ok(element_of(what, location))
        }
        TypedNode::Parenthesized(a, _) => location_in(depth - 1, a.get()),
        _ => Ok(Location::Nowhere),
    }
}

/// What an expression designates, where it is an lvalue.
pub fn location_of(e: &Typed) -> Result<Location, AllocError>
    ensures { (calls : Calls) (limit : ℕ) → IfOk result (λ l. l ≡ (expression calls limit e.now).location) }
{
    location_in(DEPTH, e)
}
