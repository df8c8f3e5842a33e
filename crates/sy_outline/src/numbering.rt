//! The bodies in the order of their numbers.

ghost use Rattle.std.specs.Prelude.{◌≡◌, ◌++◌, IfOk, OnOk, map};
ghost use Rattle.sy_meaning.specs.Bodies.{bodies_of, function_body, lambda_body};
ghost use Rattle.sy_outline.specs.Parts.{pointed};
ghost use Rattle.sy_outline.specs.Views.{body_of};

use crate::lambdas::lambdas_of;
use crate::views::{Body, function_body, lambda_body};
use std::alloc::{AllocError, Global};
use sy_typed::{Program, TypedFunction, TypedLambda};

fn add_functions<'a>(
    bodies: &mut Vec<Body<'a>>,
    functions: &'a [TypedFunction],
) -> Result<(), AllocError>
    ensures { OnOk result (map body_of bodies.new.items ≡ map body_of bodies.old.items ++ map function_body functions.now) }
{
    for f in functions {
        bodies.push(function_body(f))?;
    }
    Ok(())
}

fn add_lambdas<'a>(
    bodies: &mut Vec<Body<'a>>,
    lambdas: &[&'a TypedLambda],
) -> Result<(), AllocError>
    ensures { OnOk result (map body_of bodies.new.items ≡ map body_of bodies.old.items ++ map lambda_body (pointed lambdas.now)) }
{
    for l in lambdas {
        bodies.push(lambda_body(l))?;
    }
    Ok(())
}

/// A body's number is its index here.
pub fn bodies(alloc: Global, program: &Program) -> Result<Vec<Body<'_>>, AllocError>
    ensures { IfOk result (λ bodies. map body_of bodies.items ≡ bodies_of program.now) }
{
    let lambdas = lambdas_of(alloc, program)?;
    let mut bodies = Vec::new(alloc);
    add_functions(&mut bodies, program.functions.as_slice())?;
    add_lambdas(&mut bodies, &lambdas)?;
    Ok(bodies)
}
