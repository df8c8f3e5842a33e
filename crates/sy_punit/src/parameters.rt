//! Parameters of functions.

ghost use Rattle.std.specs.Prelude.{◌≡◌, codes};
ghost use Rattle.sy_reading.specs.Input as input;
ghost use Rattle.sy_cursor.specs.Reads.{Reads};
ghost use Rattle.sy_punit.specs.Reader as spec;

use sqlite_items::Items;
use sy_cursor::{Stop, Tokens, WithHeight, integral, object_type};
use sy_lex::{Row, Token};
use sy_tree::{ObjectType, Parameter, ReferenceType};

/// The tokens behind the first two, at a name behind its namespace.
fn at_name(tokens: &[Token]) -> &[Token] {
    match tokens {
        [_, _, name @ ..] => name,
        _ => tokens,
    }
}

/// The type of an object that a parameter may refer to.
#[tactic(auto, unfolding(crate::specs::Reader::reference_type))]
fn reference_type(tokens: &mut Tokens<'_>) -> Result<ReferenceType, Stop>
    ensures { Reads (spec.reference_type tokens.old.rest.now) result tokens.new.rest.now }
{
    let before = tokens.rest;
    match object_type(tokens)? {
        ObjectType::Queue(name) => Ok(ReferenceType::Queue(name)),
        ObjectType::Device(name) => Ok(ReferenceType::Device(name)),
        ObjectType::Context(name) => Ok(ReferenceType::Context(name)),
        ObjectType::Buffer(name, Some(elements)) => Ok(ReferenceType::Buffer(name, elements)),
        ObjectType::Buffer(_, None) => Err(Stop::Grammar),
        _ => {
            tokens.rest = at_name(before);
            Err(Stop::Grammar)
        }
    }
}

#[tactic(auto, unfolding(crate::specs::Reader::object_parameter))]
fn object_parameter(tokens: &mut Tokens<'_>) -> Result<WithHeight<Parameter>, Stop>
    ensures { Reads (spec.object_parameter tokens.old.rest.now) result tokens.new.rest.now }
{
    let of = reference_type(tokens)?;
    tokens.expect(Row::Mark, b"&")?;
    let name = tokens.expect_row(Row::Ident)?;
    Ok((Parameter::Object(of, name), 0))
}

#[tactic(auto, unfolding(crate::specs::Reader::vector_parameter))]
fn vector_parameter(tokens: &mut Tokens<'_>, fixed: bool) -> Result<WithHeight<Parameter>, Stop>
    ensures { Reads (spec.vector_parameter fixed tokens.old.rest.now) result tokens.new.rest.now }
{
    let vector = tokens.within(b"std", b"vector")?;
    tokens.expect(Row::Mark, b"<")?;
    let element = integral(tokens)?;
    tokens.expect(Row::Mark, b">")?;
    tokens.expect(Row::Mark, b"&")?;
    let name = tokens.expect_row(Row::Ident)?;
    Ok((Parameter::Vector(fixed, vector, element, name), 0))
}

#[tactic(auto, unfolding(crate::specs::Reader::integer_parameter))]
fn integer_parameter(tokens: &mut Tokens<'_>, fixed: bool) -> Result<WithHeight<Parameter>, Stop>
    ensures { Reads (spec.integer_parameter fixed tokens.old.rest.now) result tokens.new.rest.now }
{
    let of = integral(tokens)?;
    let name = tokens.expect_row(Row::Ident)?;
    Ok((Parameter::Integer(fixed, of, name), 0))
}

#[tactic(auto, unfolding(crate::specs::Reader::one_parameter))]
fn one_parameter(tokens: &mut Tokens<'_>) -> Result<WithHeight<Parameter>, Stop>
    ensures { Reads (spec.one_parameter tokens.old.rest.now) result tokens.new.rest.now }
{
    let fixed = tokens.eat(Row::Reserved, b"const");
    if tokens.sees_namespace(b"std") {
        vector_parameter(tokens, fixed)
    } else if !fixed && tokens.sees_namespace(b"sycl") {
        object_parameter(tokens)
    } else {
        integer_parameter(tokens, fixed)
    }
}

fn parameter_list(tokens: &mut Tokens<'_>) -> Result<WithHeight<Items<Parameter>>, Stop>
    ensures { Reads (input.comma_list spec.one_parameter tokens.old.rest.now) result tokens.new.rest.now }
{
    let mut items = Items::new(tokens.alloc);
    let mut height = 0;
    for _turn in 0..tokens.count_left() {
        let (item, tall) = one_parameter(tokens)?;
        items.push(item)?;
        height = height.max(tall);
        if !tokens.eat(Row::Mark, b",") {
            return Ok((items, height));
        }
    }
    Err(Stop::Grammar)
}

/// The parameters, up to the `)`.
#[tactic(auto, unfolding(sy_reading::specs::Input::maybe_comma_list))]
pub fn parameters(tokens: &mut Tokens<'_>) -> Result<WithHeight<Items<Parameter>>, Stop>
    ensures { Reads (input.maybe_comma_list spec.one_parameter (codes ")") tokens.old.rest.now) result tokens.new.rest.now }
{
    if tokens.sees(Row::Mark, b")") {
        return Ok((Items::new(tokens.alloc), 0));
    }
    parameter_list(tokens)
}
