//! Constants and functions.

ghost use Rattle.std.specs.Prelude.{◌≡◌};
ghost use Rattle.sy_cursor.specs.Reads.{Reads};
ghost use Rattle.sy_punit.specs.Reader as spec;

use crate::parameters::parameters;
use sy_cursor::{MAX_HEIGHT, Stop, Tokens, integral, type_specifier};
use sy_lex::Row;
use sy_pexpr::{read_block, read_expr};
use sy_tree::{
    Block, Brackets, ConstSpecifier, Constant, Declarator, Expr, FileItem, Function, Lexeme,
    ReturnType,
};

/// The value of a constant, up to what ends it. The constant is a node above it, so it has one level less.
#[tactic(auto, unfolding(crate::specs::Reader::short_value))]
fn short_value(tokens: &mut Tokens<'_>) -> Result<Expr, Stop>
    ensures { Reads (spec.short_value tokens.old.rest.now) result tokens.new.rest.now }
{
    let (value, height) = read_expr(tokens, 64, 1)?;
    if height < MAX_HEIGHT && tokens.ends() {
        Ok(value)
    } else {
        Err(Stop::Grammar)
    }
}

/// A block, of which the height is of no more use.
#[tactic(auto, unfolding(crate::specs::Reader::body))]
fn body(tokens: &mut Tokens<'_>) -> Result<Block, Stop>
    ensures { Reads (spec.body tokens.old.rest.now) result tokens.new.rest.now }
{
    let (block, _height) = read_block(tokens)?;
    Ok(block)
}

#[tactic(auto, unfolding(crate::specs::Reader::fixed_specifier))]
fn fixed_specifier(tokens: &mut Tokens<'_>) -> Result<ConstSpecifier, Stop>
    ensures { Reads (spec.fixed_specifier tokens.old.rest.now) result tokens.new.rest.now }
{
    if tokens.sees(Row::Reserved, b"const") {
        let spot = tokens.expect(Row::Reserved, b"const")?;
        Ok(ConstSpecifier::Const(spot))
    } else {
        let spot = tokens.expect(Row::Reserved, b"constexpr")?;
        Ok(ConstSpecifier::Constexpr(spot))
    }
}

#[tactic(auto, unfolding(crate::specs::Reader::braced_value))]
fn braced_value(tokens: &mut Tokens<'_>, name: Lexeme) -> Result<Declarator, Stop>
    ensures { Reads (spec.braced_value name tokens.old.rest.now) result tokens.new.rest.now }
{
    let open = tokens.expect(Row::Mark, b"{")?;
    let value = short_value(tokens)?;
    let close = tokens.expect(Row::Mark, b"}")?;
    Ok(Declarator::Bracketed(name, Brackets::Braces, open, value, close))
}

#[tactic(auto, unfolding(crate::specs::Reader::equal_value))]
fn equal_value(tokens: &mut Tokens<'_>, name: Lexeme) -> Result<Declarator, Stop>
    ensures { Reads (spec.equal_value name tokens.old.rest.now) result tokens.new.rest.now }
{
    let spot = tokens.expect(Row::Mark, b"=")?;
    let value = short_value(tokens)?;
    Ok(Declarator::Equal(name, spot, value))
}

#[tactic(auto, unfolding(crate::specs::Reader::constant_declarator))]
fn constant_declarator(tokens: &mut Tokens<'_>) -> Result<Declarator, Stop>
    ensures { Reads (spec.constant_declarator tokens.old.rest.now) result tokens.new.rest.now }
{
    let name = tokens.expect_row(Row::Ident)?;
    if tokens.sees(Row::Mark, b"{") {
        braced_value(tokens, name)
    } else {
        equal_value(tokens, name)
    }
}

#[tactic(auto, unfolding(crate::specs::Reader::constant))]
fn constant(tokens: &mut Tokens<'_>) -> Result<Constant, Stop>
    ensures { Reads (spec.constant tokens.old.rest.now) result tokens.new.rest.now }
{
    let specifier = fixed_specifier(tokens)?;
    let of = type_specifier(tokens)?;
    let declarator = constant_declarator(tokens)?;
    tokens.expect(Row::Mark, b";")?;
    Ok(Constant {
        specifier,
        of,
        declarator,
    })
}

#[tactic(auto, unfolding(crate::specs::Reader::return_type))]
fn return_type(tokens: &mut Tokens<'_>) -> Result<ReturnType, Stop>
    ensures { Reads (spec.return_type tokens.old.rest.now) result tokens.new.rest.now }
{
    if tokens.sees(Row::Reserved, b"void") {
        let spot = tokens.expect(Row::Reserved, b"void")?;
        Ok(ReturnType::Void(spot))
    } else {
        let integer = integral(tokens)?;
        Ok(ReturnType::Integer(integer))
    }
}

#[tactic(auto, unfolding(crate::specs::Reader::function))]
fn function(tokens: &mut Tokens<'_>) -> Result<Function, Stop>
    ensures { Reads (spec.function tokens.old.rest.now) result tokens.new.rest.now }
{
    let returned = return_type(tokens)?;
    let name = tokens.expect_row(Row::Ident)?;
    tokens.expect(Row::Mark, b"(")?;
    let (parameters, _height) = parameters(tokens)?;
    tokens.expect(Row::Mark, b")")?;
    let body = body(tokens)?;
    Ok(Function {
        returned,
        name,
        parameters,
        body,
    })
}

#[tactic(auto, unfolding(crate::specs::Reader::begins_constant))]
fn begins_constant(tokens: &Tokens<'_>) -> bool
    ensures { result ≡ spec.begins_constant tokens.now.rest.now }
{
    tokens.sees(Row::Reserved, b"const") || tokens.sees(Row::Reserved, b"constexpr")
}

#[tactic(auto, unfolding(crate::specs::Reader::file_item))]
pub fn file_item(tokens: &mut Tokens<'_>) -> Result<FileItem, Stop>
    ensures { Reads (spec.file_item tokens.old.rest.now) result tokens.new.rest.now }
{
    if begins_constant(tokens) {
        let constant = constant(tokens)?;
        Ok(FileItem::Constant(constant))
    } else {
        let function = function(tokens)?;
        Ok(FileItem::Function(function))
    }
}
