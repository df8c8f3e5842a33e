//! What each body is given, returns and runs.

ghost use Rattle.std.specs.Prelude.{◌≡◌};
ghost use Rattle.sy_meaning.specs.Bodies.{function_body, lambda_body};
ghost use Rattle.sy_meaning.specs.Lambdas.{variable_of};
ghost use Rattle.sy_outline.specs.Views.{body_of};

use sy_num::Kind;
use sy_typed::{TypedBlock, TypedCapture, TypedFunction, TypedLambda, Variable};

/// The declarations whose objects a body is given.
#[derive(Clone, Copy)]
pub enum Captures<'a> {
    /// A function's parameters.
    Parameters(&'a [Variable]),
    /// What a lambda captures.
    Captured(&'a [TypedCapture]),
}

/// A body of a program, in which everything is borrowed.
#[derive(Clone, Copy)]
pub struct Body<'a> {
    pub captures: Captures<'a>,
    /// Those of a work item.
    pub parameters: &'a [Variable],
    /// The kind of what a function returns.
    pub returned: Option<Kind>,
    pub block: &'a TypedBlock,
}

/// The declaration that is captured.
pub fn variable_of(captured: &TypedCapture) -> Variable
    ensures { result ≡ variable_of captured.now }
{
    match captured {
        TypedCapture::Reference(x) => *x,
        TypedCapture::Copy(x) => *x,
        TypedCapture::Element(x) => *x,
    }
}

pub fn function_body(function: &TypedFunction) -> Body<'_>
    ensures { body_of result ≡ function_body function.now }
{
    Body {
        captures: Captures::Parameters(function.parameters.as_slice()),
        parameters: &[],
        returned: function.returned,
        block: &function.body,
    }
}

pub fn lambda_body(lambda: &TypedLambda) -> Body<'_>
    ensures { body_of result ≡ lambda_body lambda.now }
{
    Body {
        captures: Captures::Captured(lambda.captures.as_slice()),
        parameters: lambda.parameters.as_slice(),
        returned: None,
        block: &lambda.body,
    }
}
