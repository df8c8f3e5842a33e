// Facts of small trees, told by their lines.

use crate::{
    any_argument_makes, any_makes, argument_last, argument_makes, argument_what, arguments_last,
    declaration_last, full_last, last_of, line_of, location_of, makes, printed_last, printed_makes,
    statement_last, what_of,
};
use sqlite_items::{Boxed, Items};
use std::alloc::{AllocError, Global};
use std::test::Fail;
use sy_meaning::Location;
use sy_note::Spot;
use sy_num::Kind;
use sy_typed::{
    Dimensions, Thing, Typed, TypedArgument, TypedBlock, TypedDeclaration, TypedFull, TypedNode,
    TypedPrinted, TypedStmt, Variable,
};

const INT: Thing = Thing::Integer(Kind::Int);

fn spot(line: u32) -> Spot {
    Spot { line, column: 1 }
}

fn typed(what: Thing, line: u32, node: TypedNode) -> Typed {
    Typed {
        node,
        what,
        spot: spot(line),
    }
}

fn number(line: u32) -> Typed {
    typed(INT, line, TypedNode::Integer(1))
}

/// `(v[1])` over five lines.
fn element(alloc: Global) -> Result<Typed, AllocError> {
    let v = typed(Thing::Vector(Kind::Int), 2, TypedNode::Name(3));
    let index = TypedNode::Subscript(
        Boxed::new(alloc, v)?,
        Boxed::new(alloc, number(4))?,
        spot(5),
    );
    let inside = typed(INT, 3, index);
    let node = TypedNode::Parenthesized(Boxed::new(alloc, inside)?, spot(6));
    Ok(typed(Thing::Void, 1, node))
}

/// A buffer without a name.
fn buffer(alloc: Global) -> Typed {
    typed(
        Thing::Buffer(Kind::Int, Dimensions::One),
        7,
        TypedNode::Construct(Items::new(alloc), spot(8)),
    )
}

fn parentheses_have_the_type_inside(alloc: Global) -> Result<bool, AllocError> {
    let e = element(alloc)?;
    Ok(what_of(&e)? == INT)
}

fn parentheses_have_the_line_inside(alloc: Global) -> Result<bool, AllocError> {
    let e = element(alloc)?;
    Ok(line_of(&e)? == 3)
}

fn parentheses_end_last(alloc: Global) -> Result<bool, AllocError> {
    let e = element(alloc)?;
    Ok(last_of(&e)? == 6)
}

fn an_index_designates_an_element(alloc: Global) -> Result<bool, AllocError> {
    let e = element(alloc)?;
    Ok(matches!(location_of(&e)?, Location::Element))
}

fn an_element_makes_nothing(alloc: Global) -> Result<bool, AllocError> {
    let e = element(alloc)?;
    Ok(!makes(&e)?)
}

fn a_buffer_is_made(alloc: Global) -> Result<bool, AllocError> {
    let mut one = Items::new(alloc);
    one.push(buffer(alloc))?;
    any_makes(one.as_slice())
}

fn holds(case: Result<bool, AllocError>) -> bool {
    match case {
        Ok(holds) => holds,
        Err(_) => false,
    }
}

#[test]
fn expressions(rt: HostRuntime) {
    assert!(rt; holds(parentheses_have_the_type_inside(rt.alloc())));
    assert!(rt; holds(parentheses_have_the_line_inside(rt.alloc())));
    assert!(rt; holds(parentheses_end_last(rt.alloc())));
    assert!(rt; holds(an_index_designates_an_element(rt.alloc())));
    assert!(rt; holds(an_element_makes_nothing(rt.alloc())));
    assert!(rt; holds(a_buffer_is_made(rt.alloc())));
}

#[test]
fn arguments(rt: HostRuntime) -> Result<(), Fail> {
    let alloc = rt.alloc();
    let x = TypedArgument::Value(buffer(alloc));
    assert_eq!(rt;
        argument_what(&x)?,
        Thing::Buffer(Kind::Int, Dimensions::One)
    );
    assert_eq!(rt; argument_last(&x)?, 8);
    assert!(rt; argument_makes(&x)?);
    let mut xs = Items::new(alloc);
    xs.push(x)?;
    xs.push(TypedArgument::Braced(Items::new(alloc), spot(9)))?;
    assert!(rt; any_argument_makes(xs.as_slice())?);
    assert_eq!(rt; arguments_last(1, xs.as_slice())?, 9);
    Ok(())
}

#[test]
fn statements(rt: HostRuntime) -> Result<(), Fail> {
    let alloc = rt.alloc();
    let x = Variable {
        number: 0,
        what: Thing::ThreadVector,
        spot: spot(1),
    };
    let declaration = TypedDeclaration::ThreadVector(x, spot(2));
    assert_eq!(rt; declaration_last(&declaration), 2);
    assert_eq!(rt; full_last(&TypedFull::Plain(element(alloc)?))?, 6);
    let printed = TypedPrinted::Operand(spot(1), buffer(alloc));
    assert_eq!(rt; printed_last(&printed)?, 8);
    assert!(rt; printed_makes(&printed)?);
    let within = TypedStmt::Compound(TypedBlock {
        statements: Items::new(alloc),
        close: spot(11),
    });
    let branch = TypedStmt::If(
        spot(1),
        number(1),
        Boxed::new(alloc, TypedStmt::Null(spot(2)))?,
        Some(Boxed::new(alloc, within)?),
    );
    assert_eq!(rt; statement_last(&branch)?, 11);
    Ok(())
}
