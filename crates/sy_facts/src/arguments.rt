// Arguments.

ghost use Rattle.std.specs.Prelude.{◌≡◌, ℕ, map, IfOk};
ghost use Rattle.sy_facts.specs.Parts.{argument};
ghost use Rattle.sy_meaning.specs.Expressions.{Calls};
ghost use Rattle.sy_meaning.specs.Statements.{argument_last, argument_what, arguments_last};

use crate::lines::last_of;
use crate::locations::what_of;
use std::alloc::AllocError;
use sy_typed::{Thing, TypedArgument};

/// The type of an argument; a list in braces and a lambda have none.
pub fn argument_what(x: &TypedArgument) -> Result<Thing, AllocError>
    ensures { (calls : Calls) (limit : ℕ) → IfOk result (λ t. t ≡ argument_what (argument calls limit x.now)) }
{
    match x {
        TypedArgument::Value(e) => what_of(e),
        TypedArgument::Braced(_, _) => Ok(Thing::Void),
        TypedArgument::Lambda(_) => Ok(Thing::Void),
    }
}

/// The line of an argument's last token.
pub fn argument_last(x: &TypedArgument) -> Result<u32, AllocError>
    ensures { (calls : Calls) (limit : ℕ) → IfOk result (λ n. n ≡ argument_last (argument calls limit x.now)) }
{
    match x {
        TypedArgument::Value(e) => last_of(e),
        TypedArgument::Braced(_, last) => Ok(last.line),
        TypedArgument::Lambda(l) => Ok(l.body.close.line),
    }
}

/// The line of the last argument's last token, or this one.
pub fn arguments_last(line: u32, xs: &[TypedArgument]) -> Result<u32, AllocError>
    ensures { (calls : Calls) (limit : ℕ) → IfOk result (λ n. n ≡ arguments_last line (map (argument calls limit) xs.now)) }
{
    let mut last = line;
    for x in xs {
        last = argument_last(x)?;
    }
    Ok(last)
}
