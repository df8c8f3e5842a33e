//! Types, captures, parameters and template arguments: the parts that hold no expression.

ghost use Rattle.std.specs.Prelude.{◌≡◌, [], Some, length, codes};
ghost use Rattle.sy_reading.specs.Input as input;
ghost use Rattle.sy_reading.specs.Parts as spec;
ghost use Rattle.sy_cursor.specs.Reads.{Reads};

use crate::cursor::{Stop, Tokens, WithHeight};
use crate::tables::{one_word_of, plain_object_of, takes_template_argument};
use sqlite_items::Items;
use sy_lex::Row;
use sy_note::Spot;
use sy_num::Kind;
use sy_tree::{
    Brackets, Capture, ConstSpecifier, ElementArguments, IntegerType, LambdaParameter,
    LambdaParameterType, Lexeme, ObjectType, Qualified, TemplateArgument, TypeSpecifier,
};

/// The mark that closes a bracket.
pub fn closing_text(brackets: Brackets) -> &'static [u8]
    ensures { result.now ≡ spec.closing_text brackets }
{
    match brackets {
        Brackets::Parentheses => b")",
        Brackets::Braces => b"}",
    }
}

/// `(` or `{`.
#[tactic(auto, unfolding(sy_reading::specs::Parts::expect_open))]
pub fn expect_open(tokens: &mut Tokens<'_>) -> Result<(Brackets, Spot), Stop>
    ensures { Reads (spec.expect_open tokens.old.rest.now) result tokens.new.rest.now }
{
    if tokens.sees(Row::Mark, b"(") {
        let spot = tokens.expect(Row::Mark, b"(")?;
        Ok((Brackets::Parentheses, spot))
    } else {
        let spot = tokens.expect(Row::Mark, b"{")?;
        Ok((Brackets::Braces, spot))
    }
}

/// The bracket that closes.
#[tactic(auto, unfolding(sy_reading::specs::Parts::expect_close))]
pub fn expect_close(tokens: &mut Tokens<'_>, brackets: Brackets) -> Result<Spot, Stop>
    ensures { Reads (spec.expect_close brackets tokens.old.rest.now) result tokens.new.rest.now }
{
    tokens.expect(Row::Mark, closing_text(brackets))
}

/// Two brackets with nothing in them.
#[tactic(auto, unfolding(sy_reading::specs::Parts::empty_brackets))]
pub fn empty_brackets(tokens: &mut Tokens<'_>) -> Result<(Brackets, Spot), Stop>
    ensures { Reads (spec.empty_brackets tokens.old.rest.now) result tokens.new.rest.now }
{
    let (brackets, _open) = expect_open(tokens)?;
    let close = expect_close(tokens, brackets)?;
    Ok((brackets, close))
}

#[tactic(auto, unfolding(sy_reading::specs::Parts::long_kind))]
fn long_kind(tokens: &mut Tokens<'_>, once: Kind, twice: Kind) -> Result<Kind, Stop>
    ensures { Reads (spec.long_kind once twice tokens.old.rest.now) result tokens.new.rest.now }
{
    let kind = if tokens.eat(Row::Reserved, b"long") {
        twice
    } else {
        once
    };
    tokens.eat(Row::Reserved, b"int");
    Ok(kind)
}

#[tactic(auto, unfolding(sy_reading::specs::Parts::signed_kind))]
fn signed_kind(tokens: &mut Tokens<'_>) -> Result<Kind, Stop>
    ensures { Reads (spec.signed_kind tokens.old.rest.now) result tokens.new.rest.now }
{
    if tokens.eat(Row::Reserved, b"char") {
        return Ok(Kind::SChar);
    }
    tokens.eat(Row::Reserved, b"int");
    Ok(Kind::Int)
}

#[tactic(auto, unfolding(sy_reading::specs::Parts::unsigned_kind))]
fn unsigned_kind(tokens: &mut Tokens<'_>) -> Result<Kind, Stop>
    ensures { Reads (spec.unsigned_kind tokens.old.rest.now) result tokens.new.rest.now }
{
    if tokens.eat(Row::Reserved, b"char") {
        return Ok(Kind::UChar);
    }
    if tokens.eat(Row::Reserved, b"long") {
        return long_kind(tokens, Kind::ULong, Kind::ULLong);
    }
    let kind = if tokens.eat(Row::Reserved, b"short") {
        Kind::UShort
    } else {
        Kind::UInt
    };
    tokens.eat(Row::Reserved, b"int");
    Ok(kind)
}

/// The type that begins with this word.
#[tactic(auto, unfolding(sy_reading::specs::Parts::kind_by))]
fn kind_by(tokens: &mut Tokens<'_>, text: &[u8]) -> Result<Kind, Stop>
    ensures { Reads (spec.kind_by text.now tokens.old.rest.now) result tokens.new.rest.now }
{
    if text == b"signed".as_slice() {
        signed_kind(tokens)
    } else if text == b"unsigned".as_slice() {
        unsigned_kind(tokens)
    } else if text == b"short".as_slice() {
        tokens.eat(Row::Reserved, b"int");
        Ok(Kind::Short)
    } else if text == b"long".as_slice() {
        long_kind(tokens, Kind::Long, Kind::LLong)
    } else {
        match one_word_of(text) {
            Some(kind) => Ok(kind),
            None => Err(tokens.refusal()),
        }
    }
}

/// An integer type.
#[tactic(auto, unfolding(sy_reading::specs::Parts::integral))]
pub fn integral(tokens: &mut Tokens<'_>) -> Result<IntegerType, Stop>
    ensures { Reads (spec.integral tokens.old.rest.now) result tokens.new.rest.now }
{
    let word = tokens.expect_row(Row::Reserved)?;
    let kind = kind_by(tokens, word.text.items())?;
    Ok(IntegerType {
        spot: word.spot,
        kind,
    })
}

/// An integer type of one word.
#[tactic(auto, unfolding(sy_reading::specs::Parts::one_word))]
pub fn one_word(tokens: &mut Tokens<'_>) -> Result<IntegerType, Stop>
    ensures { Reads (spec.one_word tokens.old.rest.now) result tokens.new.rest.now }
{
    let word = tokens.expect_row(Row::Reserved)?;
    match one_word_of(word.text.items()) {
        Some(kind) => Ok(IntegerType {
            spot: word.spot,
            kind,
        }),
        None => Err(tokens.refusal()),
    }
}

/// Whether an integer type begins.
#[tactic(auto, unfolding(sy_reading::specs::Parts::sees_type))]
pub fn sees_type(tokens: &Tokens<'_>) -> bool
    ensures { result ≡ spec.sees_type tokens.now.rest.now }
{
    match tokens.rest {
        [] => false,
        [first, ..] => {
            tokens.sees_row(Row::Reserved) && one_word_of(first.word.text.items()).is_some()
        }
    }
}

/// An integer type or `auto`.
#[tactic(auto, unfolding(sy_reading::specs::Parts::type_specifier))]
pub fn type_specifier(tokens: &mut Tokens<'_>) -> Result<TypeSpecifier, Stop>
    ensures { Reads (spec.type_specifier tokens.old.rest.now) result tokens.new.rest.now }
{
    if tokens.sees(Row::Reserved, b"auto") {
        let spot = tokens.expect(Row::Reserved, b"auto")?;
        Ok(TypeSpecifier::Auto(spot))
    } else {
        let integer = integral(tokens)?;
        Ok(TypeSpecifier::Integer(integer))
    }
}

/// `const` or `constexpr`, if one comes next.
#[tactic(auto, unfolding(sy_reading::specs::Parts::const_specifier))]
pub fn const_specifier(tokens: &mut Tokens<'_>) -> Result<Option<ConstSpecifier>, Stop>
    ensures { Reads (spec.const_specifier tokens.old.rest.now) result tokens.new.rest.now }
{
    if tokens.sees(Row::Reserved, b"const") {
        let spot = tokens.expect(Row::Reserved, b"const")?;
        Ok(Some(ConstSpecifier::Const(spot)))
    } else if tokens.sees(Row::Reserved, b"constexpr") {
        let spot = tokens.expect(Row::Reserved, b"constexpr")?;
        Ok(Some(ConstSpecifier::Constexpr(spot)))
    } else {
        Ok(None)
    }
}

/// The dimensions in `<` and `>`.
#[tactic(auto, unfolding(sy_reading::specs::Parts::dimensions))]
fn dimensions(tokens: &mut Tokens<'_>) -> Result<Lexeme, Stop>
    ensures { Reads (spec.dimensions tokens.old.rest.now) result tokens.new.rest.now }
{
    tokens.expect(Row::Mark, b"<")?;
    let number = tokens.expect_row(Row::Int)?;
    tokens.expect(Row::Mark, b">")?;
    Ok(number)
}

#[tactic(auto, unfolding(sy_reading::specs::Parts::maybe_dimensions))]
fn maybe_dimensions(tokens: &mut Tokens<'_>) -> Result<Option<Lexeme>, Stop>
    ensures { Reads (spec.maybe_dimensions tokens.old.rest.now) result tokens.new.rest.now }
{
    if tokens.sees(Row::Mark, b"<") {
        let number = dimensions(tokens)?;
        Ok(Some(number))
    } else {
        Ok(None)
    }
}

#[tactic(auto, unfolding(sy_reading::specs::Parts::comma_dimensions))]
fn comma_dimensions(tokens: &mut Tokens<'_>) -> Result<Option<Lexeme>, Stop>
    ensures { Reads (spec.comma_dimensions tokens.old.rest.now) result tokens.new.rest.now }
{
    if tokens.eat(Row::Mark, b",") {
        let number = tokens.expect_row(Row::Int)?;
        Ok(Some(number))
    } else {
        Ok(None)
    }
}

/// The element type in `<` and `>`, and the dimensions where they are written.
#[tactic(auto, unfolding(sy_reading::specs::Parts::elements))]
pub fn elements(tokens: &mut Tokens<'_>) -> Result<ElementArguments, Stop>
    ensures { Reads (spec.elements tokens.old.rest.now) result tokens.new.rest.now }
{
    tokens.expect(Row::Mark, b"<")?;
    let element = integral(tokens)?;
    let dimensions = comma_dimensions(tokens)?;
    tokens.expect(Row::Mark, b">")?;
    Ok(ElementArguments {
        element,
        dimensions,
    })
}

#[tactic(auto, unfolding(sy_reading::specs::Parts::maybe_elements))]
fn maybe_elements(tokens: &mut Tokens<'_>) -> Result<Option<ElementArguments>, Stop>
    ensures { Reads (spec.maybe_elements tokens.old.rest.now) result tokens.new.rest.now }
{
    if tokens.sees(Row::Mark, b"<") {
        let found = elements(tokens)?;
        Ok(Some(found))
    } else {
        Ok(None)
    }
}

/// The types that may have template arguments, after the name.
#[tactic(auto, unfolding(sy_reading::specs::Parts::template_object))]
fn template_object(
    tokens: &mut Tokens<'_>,
    name: Qualified,
    text: &[u8],
) -> Result<ObjectType, Stop>
    ensures { Reads (spec.template_object name text.now tokens.old.rest.now) result tokens.new.rest.now }
{
    if text == b"buffer".as_slice() {
        let found = maybe_elements(tokens)?;
        Ok(ObjectType::Buffer(name, found))
    } else if text == b"local_accessor".as_slice() {
        let found = elements(tokens)?;
        Ok(ObjectType::LocalAccessor(name, found))
    } else if text == b"range".as_slice() {
        let found = maybe_dimensions(tokens)?;
        Ok(ObjectType::Range(name, found))
    } else if text == b"id".as_slice() {
        let found = maybe_dimensions(tokens)?;
        Ok(ObjectType::Id(name, found))
    } else if text == b"nd_range".as_slice() {
        let found = maybe_dimensions(tokens)?;
        Ok(ObjectType::NdRange(name, found))
    } else {
        Err(tokens.refusal())
    }
}

/// The type of an object of the library, after its name.
#[tactic(auto, unfolding(sy_reading::specs::Parts::object_by))]
pub fn object_by(tokens: &mut Tokens<'_>, name: Qualified, text: &[u8]) -> Result<ObjectType, Stop>
    ensures { Reads (spec.object_by name text.now tokens.old.rest.now) result tokens.new.rest.now }
{
    match plain_object_of(name, text) {
        Some(object) => Ok(object),
        None => template_object(tokens, name, text),
    }
}

/// The whole name, of which the namespace stands there.
pub fn qualified_name(namespace: Spot, name: &Lexeme) -> Qualified
    ensures { result ≡ input.qualified_name (namespace, name.now) }
{
    Qualified {
        namespace,
        name: name.spot,
    }
}

/// The type of an object of the library.
#[tactic(auto, unfolding(sy_reading::specs::Parts::object_type))]
pub fn object_type(tokens: &mut Tokens<'_>) -> Result<ObjectType, Stop>
    ensures { Reads (spec.object_type tokens.old.rest.now) result tokens.new.rest.now }
{
    let (namespace, name) = tokens.expect_name(b"sycl")?;
    object_by(tokens, qualified_name(namespace, &name), name.text.items())
}

/// Whether the type of an object of the library and a name come next.
#[tactic(auto, unfolding(sy_reading::specs::Parts::declares_object))]
pub fn declares_object(tokens: &Tokens<'_>) -> Result<bool, Stop>
    ensures { Reads (Some (spec.declares_object tokens.now.rest.now, tokens.now.rest.now)) result tokens.now.rest.now }
{
    let mut ahead = Tokens::new(tokens.alloc, tokens.rest);
    match object_type(&mut ahead) {
        Ok(_) => Ok(ahead.sees_row(Row::Ident)),
        Err(Stop::Grammar) => Ok(false),
        Err(Stop::Memory) => Err(Stop::Memory),
    }
}

#[tactic(auto, unfolding(sy_reading::specs::Parts::reference_capture))]
fn reference_capture(tokens: &mut Tokens<'_>) -> Result<WithHeight<Capture>, Stop>
    ensures { Reads (spec.reference_capture tokens.old.rest.now) result tokens.new.rest.now }
{
    let spot = tokens.expect(Row::Mark, b"&")?;
    if tokens.sees_row(Row::Ident) {
        let name = tokens.expect_row(Row::Ident)?;
        Ok((Capture::Reference(spot, name), 0))
    } else {
        Ok((Capture::DefaultReference(spot), 0))
    }
}

#[tactic(auto, unfolding(sy_reading::specs::Parts::one_capture))]
fn one_capture(tokens: &mut Tokens<'_>) -> Result<WithHeight<Capture>, Stop>
    ensures { Reads (spec.one_capture tokens.old.rest.now) result tokens.new.rest.now }
{
    if tokens.sees(Row::Mark, b"&") {
        reference_capture(tokens)
    } else if tokens.sees(Row::Mark, b"=") {
        let spot = tokens.expect(Row::Mark, b"=")?;
        Ok((Capture::DefaultCopy(spot), 0))
    } else {
        let name = tokens.expect_row(Row::Ident)?;
        Ok((Capture::Copy(name), 0))
    }
}

fn capture_list(tokens: &mut Tokens<'_>) -> Result<WithHeight<Items<Capture>>, Stop>
    ensures { Reads (input.comma_list_from spec.one_capture (length tokens.old.rest.now) [] 0 tokens.old.rest.now) result tokens.new.rest.now }
{
    let mut items = Items::new(tokens.alloc);
    let mut height = 0;
    for _turn in 0..tokens.count_left() {
        let (item, tall) = one_capture(tokens)?;
        items.push(item)?;
        height = height.max(tall);
        if !tokens.eat(Row::Mark, b",") {
            return Ok((items, height));
        }
    }
    Err(Stop::Grammar)
}

/// The captures, up to the `]`.
#[tactic(auto, unfolding(sy_reading::specs::Input::maybe_comma_list))]
pub fn captures(tokens: &mut Tokens<'_>) -> Result<WithHeight<Items<Capture>>, Stop>
    ensures { Reads (input.maybe_comma_list spec.one_capture (codes "]") tokens.old.rest.now) result tokens.new.rest.now }
{
    if tokens.sees(Row::Mark, b"]") {
        return Ok((Items::new(tokens.alloc), 0));
    }
    capture_list(tokens)
}

/// The type of a parameter of a lambda, after its name.
#[tactic(auto, unfolding(sy_reading::specs::Parts::parameter_by))]
fn parameter_by(
    tokens: &mut Tokens<'_>,
    name: Qualified,
    text: &[u8],
) -> Result<LambdaParameterType, Stop>
    ensures { Reads (spec.parameter_by name text.now tokens.old.rest.now) result tokens.new.rest.now }
{
    if text == b"handler".as_slice() {
        Ok(LambdaParameterType::Handler(name))
    } else if text == b"id".as_slice() {
        let number = dimensions(tokens)?;
        Ok(LambdaParameterType::Id(name, number))
    } else if text == b"item".as_slice() {
        let number = dimensions(tokens)?;
        Ok(LambdaParameterType::Item(name, number))
    } else if text == b"nd_item".as_slice() {
        let number = dimensions(tokens)?;
        Ok(LambdaParameterType::NdItem(name, number))
    } else {
        Err(tokens.refusal())
    }
}

#[tactic(auto, unfolding(sy_reading::specs::Parts::parameter_type))]
fn parameter_type(tokens: &mut Tokens<'_>) -> Result<LambdaParameterType, Stop>
    ensures { Reads (spec.parameter_type tokens.old.rest.now) result tokens.new.rest.now }
{
    if tokens.sees(Row::Reserved, b"auto") {
        let spot = tokens.expect(Row::Reserved, b"auto")?;
        return Ok(LambdaParameterType::Auto(spot));
    }
    let (namespace, name) = tokens.expect_name(b"sycl")?;
    parameter_by(tokens, qualified_name(namespace, &name), name.text.items())
}

#[tactic(auto, unfolding(sy_reading::specs::Parts::one_parameter))]
fn one_parameter(tokens: &mut Tokens<'_>) -> Result<WithHeight<LambdaParameter>, Stop>
    ensures { Reads (spec.one_parameter tokens.old.rest.now) result tokens.new.rest.now }
{
    let of = parameter_type(tokens)?;
    let by_reference = tokens.eat(Row::Mark, b"&");
    let name = tokens.expect_row(Row::Ident)?;
    Ok((
        LambdaParameter {
            of,
            by_reference,
            name,
        },
        0,
    ))
}

fn parameter_list(tokens: &mut Tokens<'_>) -> Result<WithHeight<Items<LambdaParameter>>, Stop>
    ensures { Reads (input.comma_list_from spec.one_parameter (length tokens.old.rest.now) [] 0 tokens.old.rest.now) result tokens.new.rest.now }
{
    let mut items = Items::new(tokens.alloc);
    let mut height = 0;
    for _turn in 0..tokens.count_left() {
        let (item, tall) = one_parameter(tokens)?;
        items.push(item)?;
        height = height.max(tall);
        if !tokens.eat(Row::Mark, b",") {
            return Ok((items, height));
        }
    }
    Err(Stop::Grammar)
}

#[tactic(auto, unfolding(sy_reading::specs::Input::maybe_comma_list))]
fn parameters(tokens: &mut Tokens<'_>) -> Result<WithHeight<Items<LambdaParameter>>, Stop>
    ensures { Reads (input.maybe_comma_list spec.one_parameter (codes ")") tokens.old.rest.now) result tokens.new.rest.now }
{
    if tokens.sees(Row::Mark, b")") {
        return Ok((Items::new(tokens.alloc), 0));
    }
    parameter_list(tokens)
}

/// The parameters of a lambda in their parentheses, if they are there.
#[tactic(auto, unfolding(sy_reading::specs::Parts::maybe_parameters))]
pub fn maybe_parameters(tokens: &mut Tokens<'_>) -> Result<Option<Items<LambdaParameter>>, Stop>
    ensures { Reads (spec.maybe_parameters tokens.old.rest.now) result tokens.new.rest.now }
{
    if !tokens.eat(Row::Mark, b"(") {
        return Ok(None);
    }
    let (found, _height) = parameters(tokens)?;
    tokens.expect(Row::Mark, b")")?;
    Ok(Some(found))
}

#[tactic(auto, unfolding(sy_reading::specs::Parts::kernel_name))]
fn kernel_name(tokens: &mut Tokens<'_>) -> Result<TemplateArgument, Stop>
    ensures { Reads (spec.kernel_name tokens.old.rest.now) result tokens.new.rest.now }
{
    let is_class = tokens.eat(Row::Reserved, b"class");
    let name = tokens.expect_row(Row::Ident)?;
    Ok(TemplateArgument::Kernel(is_class, name))
}

#[tactic(auto, unfolding(sy_reading::specs::Parts::information))]
fn information(tokens: &mut Tokens<'_>) -> Result<TemplateArgument, Stop>
    ensures { Reads (spec.information tokens.old.rest.now) result tokens.new.rest.now }
{
    let info = tokens.within(b"sycl", b"info")?;
    tokens.expect(Row::Mark, b"::")?;
    let object = tokens.expect_row(Row::Ident)?;
    tokens.expect(Row::Mark, b"::")?;
    let name = tokens.expect_row(Row::Ident)?;
    Ok(TemplateArgument::Information(info, object, name))
}

#[tactic(auto, unfolding(sy_reading::specs::Parts::template_argument))]
fn template_argument(tokens: &mut Tokens<'_>) -> Result<TemplateArgument, Stop>
    ensures { Reads (spec.template_argument tokens.old.rest.now) result tokens.new.rest.now }
{
    tokens.expect(Row::Mark, b"<")?;
    let argument = if tokens.sees_namespace(b"sycl") {
        information(tokens)?
    } else {
        kernel_name(tokens)?
    };
    tokens.expect(Row::Mark, b">")?;
    Ok(argument)
}

/// The template argument of a member that takes one.
#[tactic(auto, unfolding(sy_reading::specs::Parts::maybe_template_argument))]
pub fn maybe_template_argument(
    tokens: &mut Tokens<'_>,
    member: &[u8],
) -> Result<Option<TemplateArgument>, Stop>
    ensures { Reads (spec.maybe_template_argument member.now tokens.old.rest.now) result tokens.new.rest.now }
{
    if takes_template_argument(member) && tokens.sees(Row::Mark, b"<") {
        let argument = template_argument(tokens)?;
        Ok(Some(argument))
    } else {
        Ok(None)
    }
}
