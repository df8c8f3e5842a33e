// Lambdas, and what they capture (C++17, "Lambda expressions").

ghost use Rattle.std.specs.Prelude.{◌≡◌, IfOk};
ghost use Rattle.sy_commands.specs.Closures.{lambda_of};
ghost use Rattle.sy_commands.specs.Listing.{SaysListed};
ghost use Rattle.sy_meaning.specs.Lambdas.{all_words, captured, captures_of, is_local_accessor, uses_local, variable_of};

use sqlite_items::Items;
use std::alloc::{AllocError, Global};
use sy_access::Values;
use sy_lvalues::load;
use sy_meaning::{Evaluated, Location, Run};
use sy_state::local;
use sy_typed::{Thing, TypedCapture, Variable};
use sy_words::{copy_of, kind_in};

/// What is read of a lambda where it isn't run: the number of its body, its line and its captures.
#[derive(Clone, Copy)]
pub struct Closure<'a> {
    pub number: u32,
    pub line: u32,
    pub captures: &'a [TypedCapture],
}

/// What the body is given of a capture: an object, or the number of the element that a name stands for.
pub fn captured(
    alloc: Global,
    run: &mut Run,
    line: u32,
    capture: TypedCapture,
) -> Result<Evaluated, AllocError>
    ensures { IfOk result (λ value. (value, run.new) ≡ captured line capture run.old) }
{
    let variable = variable_of(capture);
    let object = copy_of(alloc, local(run, variable.number))?;
    match capture {
        TypedCapture::Reference(_) => Ok(Evaluated::Gives(object)),
        TypedCapture::Copy(_) => Ok(Evaluated::Gives(object)),
        TypedCapture::Element(x) => {
            let kind = kind_in(x.what);
            load(alloc, run, line, kind, Location::Element, object)
        }
    }
}

/// The declaration that a capture gives the body.
pub fn variable_of(capture: TypedCapture) -> Variable
    ensures { result ≡ variable_of capture }
{
    match capture {
        TypedCapture::Reference(x) => x,
        TypedCapture::Copy(x) => x,
        TypedCapture::Element(x) => x,
    }
}

/// What the body of a lambda is given, capture by capture; or what ended the first capture that has no value.
pub fn captures_of(
    alloc: Global,
    run: &mut Run,
    lambda: &Closure,
) -> Result<Result<Items<Values>, Evaluated>, AllocError>
    ensures { IfOk result (λ listed. SaysListed listed run.new (captures_of (lambda_of lambda.now) run.old)) }
{
    let mut objects = Items::new(alloc);
    let mut rest = lambda.captures;
    while let [first, others @ ..] = rest {
        match captured(alloc, run, lambda.line, *first)? {
            Evaluated::Gives(object) => {
                objects.push(object)?;
                rest = others;
            }
            Evaluated::Threw(error, at) => return Ok(Err(Evaluated::Threw(error, at))),
            Evaluated::Stopped(asked) => return Ok(Err(Evaluated::Stopped(asked))),
        }
    }
    Ok(Ok(objects))
}

/// The words of all objects, one object after another.
pub fn all_words(alloc: Global, objects: &[Values]) -> Result<Values, AllocError>
    ensures { IfOk result (λ words. words ≡ all_words objects.now) }
{
    let mut words = Vec::new(alloc);
    let mut rest = objects;
    while let [first, others @ ..] = rest {
        words.extend_from_slice(first.items())?;
        rest = others;
    }
    Ok(Values::of(words))
}

fn is_local_accessor(what: Thing) -> bool
    ensures { result ≡ is_local_accessor what }
{
    match what {
        Thing::LocalAccessor(_, _) => true,
        _ => false,
    }
}

/// Whether a local accessor is captured.
pub fn uses_local(lambda: &Closure) -> bool
    ensures { result ≡ uses_local (lambda_of lambda.now) }
{
    let mut rest = lambda.captures;
    while let [first, others @ ..] = rest {
        if is_local_accessor(variable_of(*first).what) {
            return true;
        }
        rest = others;
    }
    false
}
