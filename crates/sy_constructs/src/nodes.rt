//! Typed nodes. They mean something only where no rule is broken.

ghost use Rattle.std.specs.Prelude.{◌≡◌};
ghost use Rattle.sy_rules.specs.ExprTypes.{or_void, variable, typed, node_of_local, named_node, called_number, member_or_wait};
ghost use Rattle.sy_rules.specs.Constants.{number_in};
ghost use Rattle.sy_rules.specs.Walk.{error_or_runtime};

use crate::names::is_outside;
use sy_members::{error_named, member_named};
use sy_note::Spot;
use sy_rules::{Constant, Named};
use sy_typed::{ErrorName, Member, Thing, Typed, TypedNode, Variable};

pub fn or_void(what: Option<Thing>) -> Thing
    ensures { result ≡ or_void what }
{
    match what {
        None => Thing::Void,
        Some(t) => t,
    }
}

/// A declared name.
pub fn variable(number: u32, what: Option<Thing>, spot: Spot) -> Variable
    ensures { result ≡ variable number what spot }
{
    Variable {
        number,
        what: or_void(what),
        spot,
    }
}

/// An expression at its own token.
pub fn typed(node: TypedNode, what: Option<Thing>, spot: Spot) -> Typed
    ensures { result ≡ typed node what spot }
{
    Typed {
        node,
        what: or_void(what),
        spot,
    }
}

/// The number, where there is one.
pub fn number_in(constant: Constant) -> i128
    ensures { result ≡ number_in constant }
{
    match constant {
        Constant::Number(z) => z,
        _ => 0,
    }
}

fn node_of_local(is_element: bool, number: u32) -> TypedNode
    ensures { result ≡ node_of_local is_element number }
{
    if is_element {
        TypedNode::Reference(number)
    } else {
        TypedNode::Name(number)
    }
}

/// The node of a name: a constant of the file is its value, and a kernel has copies of what is outside it.
pub fn named_node(kernel: Option<u32>, found: Option<Named>) -> TypedNode
    ensures { result ≡ named_node kernel found }
{
    match found {
        None => TypedNode::Name(0),
        Some(v) => {
            if v.depth > 0 {
                node_of_local(v.names_element && !is_outside(kernel, v), v.number)
            } else {
                TypedNode::Integer(number_in(v.constant))
            }
        }
    }
}

/// The number of the function that is called.
pub fn called_number(found: Option<Named>) -> u32
    ensures { result ≡ called_number found }
{
    match found {
        None => 0,
        Some(v) => v.function.unwrap_or(0),
    }
}

pub fn member_or_wait(text: &[u8]) -> Member
    ensures { result ≡ member_or_wait text.now }
{
    match member_named(text) {
        None => Member::Wait,
        Some(m) => m,
    }
}

pub fn error_or_runtime(text: &[u8]) -> ErrorName
    ensures { result ≡ error_or_runtime text.now }
{
    match error_named(text) {
        None => ErrorName::Runtime,
        Some(e) => e,
    }
}
