// Lambdas in lambdas, in conditions, in else-branches and in braces, in two functions.

use crate::{Body, Captures, bodies, lambda_body, lambdas_of, variable_of};
use sqlite_items::{Boxed, Items};
use std::alloc::{AllocError, Global};
use std::test::Fail;
use sy_note::Spot;
use sy_num::Kind;
use sy_typed::{
    Program, Thing, Typed, TypedArgument, TypedBlock, TypedCapture, TypedDeclaration, TypedFull,
    TypedFunction, TypedLambda, TypedNode, TypedStmt, Variable,
};

const HERE: Spot = Spot::START;

fn variable(number: u32) -> Variable {
    Variable {
        number,
        what: Thing::Integer(Kind::Int),
        spot: HERE,
    }
}

/// A block that is known by the line of its end.
fn block(line: u32, statements: Items<TypedStmt>) -> TypedBlock {
    TypedBlock {
        statements,
        close: Spot { line, column: 1 },
    }
}

/// A lambda whose captures and parameters have numbers by its own.
fn lambda(
    alloc: Global,
    number: u32,
    statements: Items<TypedStmt>,
) -> Result<TypedLambda, AllocError> {
    let captures = Items::from_slice(alloc, &[TypedCapture::Element(variable(number))])?;
    let parameters = Items::from_slice(alloc, &[variable(7), variable(8)])?;
    Ok(TypedLambda {
        spot: HERE,
        number,
        captures,
        parameters,
        body: block(number, statements),
    })
}

fn thread(l: TypedLambda) -> TypedStmt {
    TypedStmt::Declaration(TypedDeclaration::Thread(variable(0), l, HERE))
}

fn typed(node: TypedNode) -> Typed {
    Typed {
        node,
        what: Thing::Integer(Kind::Int),
        spot: HERE,
    }
}

fn one<T: Drop>(alloc: Global, x: T) -> Result<Items<T>, AllocError> {
    let mut xs = Items::new(alloc);
    xs.push(x)?;
    Ok(xs)
}

/// A thread's lambda, and within it another thread's.
fn nested(alloc: Global, outer: u32, inner: u32) -> Result<TypedStmt, AllocError> {
    let inner = lambda(alloc, inner, Items::new(alloc))?;
    let outer = lambda(alloc, outer, one(alloc, thread(inner))?)?;
    Ok(thread(outer))
}

fn made_of(alloc: Global, x: TypedArgument) -> Result<Typed, AllocError> {
    Ok(typed(TypedNode::Construct(one(alloc, x)?, HERE)))
}

/// An expression with a lambda in an argument's braces.
fn in_braces(alloc: Global, number: u32) -> Result<Typed, AllocError> {
    let l = lambda(alloc, number, Items::new(alloc))?;
    let inside = made_of(alloc, TypedArgument::Lambda(l))?;
    made_of(alloc, TypedArgument::Braced(one(alloc, inside)?, HERE))
}

/// A lambda in the condition, and one in the else-branch.
fn branches(alloc: Global, in_condition: u32, in_else: u32) -> Result<TypedStmt, AllocError> {
    let condition = in_braces(alloc, in_condition)?;
    let then = Boxed::new(alloc, TypedStmt::Null(HERE))?;
    let other = Boxed::new(alloc, thread(lambda(alloc, in_else, Items::new(alloc))?))?;
    Ok(TypedStmt::If(HERE, condition, then, Some(other)))
}

fn function(
    alloc: Global,
    number: u32,
    statements: Items<TypedStmt>,
) -> Result<TypedFunction, AllocError> {
    Ok(TypedFunction {
        spot: HERE,
        returned: Some(Kind::Int),
        parameters: Items::from_slice(alloc, &[variable(9)])?,
        body: block(number, statements),
    })
}

fn program(alloc: Global) -> Result<Program, AllocError> {
    let mut statements = one(alloc, nested(alloc, 2, 3)?)?;
    statements.push(branches(alloc, 4, 5)?)?;
    let mut functions = one(alloc, function(alloc, 0, statements)?)?;
    let last = TypedStmt::Expression(TypedFull::Plain(in_braces(alloc, 6)?), HERE);
    functions.push(function(alloc, 1, one(alloc, last)?)?)?;
    Ok(Program {
        constants: Items::new(alloc),
        functions,
        main: 1,
    })
}

/// The number of what is captured first.
fn first_captured(captures: Captures<'_>) -> Option<u32> {
    match captures {
        Captures::Parameters([x, ..]) => Some(x.number),
        Captures::Captured([x, ..]) => Some(variable_of(x).number),
        _ => None,
    }
}

/// A body's line, what it is given first, its number of parameters, and whether it returns.
fn outline(body: &Body<'_>) -> (u32, Option<u32>, usize, bool) {
    (
        body.block.close.line,
        first_captured(body.captures),
        body.parameters.len(),
        body.returned.is_some(),
    )
}

#[test]
fn bodies_stand_by_their_numbers(rt: HostRuntime) -> Result<(), Fail> {
    let program = program(rt.alloc())?;
    let lambdas = lambdas_of(rt.alloc(), &program)?;
    let numbers: Vec<u32> = lambdas.iter().map(|l| l.number).collect(rt.alloc())?;
    assert_eq!(rt; numbers.as_slice(), [2, 3, 4, 5, 6].as_slice());
    let bodies = bodies(rt.alloc(), &program)?;
    let wanted = [
        (0, Some(9), 0, true),
        (1, Some(9), 0, true),
        (2, Some(2), 2, false),
        (3, Some(3), 2, false),
        (4, Some(4), 2, false),
        (5, Some(5), 2, false),
        (6, Some(6), 2, false),
    ];
    assert_eq!(rt; bodies.len(), wanted.len());
    for (body, wanted) in bodies.iter().zip(wanted) {
        assert_eq!(rt; outline(body), wanted);
    }
    assert_eq!(rt; outline(&lambda_body(lambdas[1])), wanted[3]);
    Ok(())
}
