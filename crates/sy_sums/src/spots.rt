// The places of first tokens.

ghost use Rattle.std.specs.Prelude.{◌≡◌};
ghost use Rattle.std.specs.Option.{option_copied};
ghost use Rattle.sy_sums.specs.Spots as spec;

use sy_note::Spot;
use sy_tree::{
    ConstSpecifier, Declaration, Expr, FileItem, FullExpression, ObjectType, ReturnType, Stmt,
    TypeSpecifier,
};

/// The greatest height of a tree.
pub const MAX_HEIGHT: u32 = 64;

fn specifier_spot(specifier: ConstSpecifier) -> Spot
    ensures { result ≡ spec.specifier_spot specifier }
{
    match specifier {
        ConstSpecifier::Const(spot) | ConstSpecifier::Constexpr(spot) => spot,
    }
}

fn type_spot(of: TypeSpecifier) -> Spot
    ensures { result ≡ spec.type_spot of }
{
    match of {
        TypeSpecifier::Auto(spot) => spot,
        TypeSpecifier::Integer(integer) => integer.spot,
    }
}

pub fn returned_spot(returned: ReturnType) -> Spot
    ensures { result ≡ spec.returned_spot returned }
{
    match returned {
        ReturnType::Void(spot) => spot,
        ReturnType::Integer(integer) => integer.spot,
    }
}

fn object_spot(of: &ObjectType) -> Spot
    ensures { result ≡ spec.object_spot of.now }
{
    match of {
        ObjectType::Queue(name)
        | ObjectType::Device(name)
        | ObjectType::Context(name)
        | ObjectType::Event(name)
        | ObjectType::Accessor(name)
        | ObjectType::HostAccessor(name)
        | ObjectType::LocalAccessor(name, _)
        | ObjectType::Buffer(name, _)
        | ObjectType::Range(name, _)
        | ObjectType::Id(name, _)
        | ObjectType::NdRange(name, _) => name.namespace,
    }
}

/// The place that the node itself has.
#[tactic(auto, unfolding(crate::specs::Spots::node_spot))]
fn node_spot(expr: &Expr) -> Spot
    ensures { result ≡ spec.node_spot expr.now }
{
    match expr {
        Expr::Integer(lexeme) | Expr::Character(lexeme) | Expr::Name(lexeme) => lexeme.spot,
        Expr::Call(name, _, _) | Expr::MemberCall(_, name, _, _, _) => name.get().spot,
        Expr::Boolean(spot, _)
        | Expr::Parenthesized(spot, _, _)
        | Expr::StaticCast(spot, _, _, _)
        | Expr::Subscript(_, spot, _, _)
        | Expr::Postfix(_, spot, _)
        | Expr::Prefix(spot, _, _)
        | Expr::Unary(spot, _, _)
        | Expr::Cast(spot, _, _)
        | Expr::Binary(_, spot, _, _)
        | Expr::Conditional(_, spot, _, _) => *spot,
        Expr::FunctionalCast(of, _, _) => of.spot,
        Expr::Construct(of, _, _, _, _) => object_spot(of.get()),
        Expr::GroupBarrier(name, _, _)
        | Expr::AccessTag(name, _)
        | Expr::InOrder(name, _, _)
        | Expr::ErrorCode(name, _)
        | Expr::InitializeToIdentity(name, _, _)
        | Expr::FunctionObject(name, _, _, _, _)
        | Expr::LibraryCall(name, _, _, _) => name.namespace,
    }
}

/// The part that an expression begins with, where it has no token of its own before it.
#[tactic(auto, unfolding(crate::specs::Spots::left_part))]
fn left_part(expr: &Expr) -> Option<&Expr>
    ensures { option_copied result ≡ spec.left_part expr.now }
{
    match expr {
        Expr::Subscript(part, _, _, _)
        | Expr::MemberCall(part, _, _, _, _)
        | Expr::Postfix(part, _, _)
        | Expr::Binary(part, _, _, _)
        | Expr::Conditional(part, _, _, _) => Some(part.get()),
        _ => None,
    }
}

/// Where the leftmost part stands, so many parts down at most.
#[tactic(auto, unfolding(crate::specs::Spots::leftmost))]
fn leftmost(depth: u32, expr: &Expr) -> Spot
    ensures { result ≡ spec.leftmost depth expr.now }
{
    if depth == 0 {
        return node_spot(expr);
    }
    match left_part(expr) {
        Some(part) => leftmost(depth - 1, part),
        None => node_spot(expr),
    }
}

pub fn first_token(expr: &Expr) -> Spot
    ensures { result ≡ spec.first_token expr.now }
{
    leftmost(MAX_HEIGHT, expr)
}

#[tactic(auto, unfolding(crate::specs::Spots::full_spot))]
fn full_spot(full: &FullExpression) -> Spot
    ensures { result ≡ spec.full_spot full.now }
{
    match full {
        FullExpression::Plain(expr) | FullExpression::Assignment(expr, _, _, _) => {
            first_token(expr)
        }
    }
}

fn declared_spot(specifier: Option<ConstSpecifier>, of: TypeSpecifier) -> Spot
    ensures { result ≡ spec.declared_spot specifier of }
{
    match specifier {
        Some(specifier) => specifier_spot(specifier),
        None => type_spot(of),
    }
}

#[tactic(auto, unfolding(crate::specs::Spots::declaration_spot))]
fn declaration_spot(declaration: &Declaration) -> Spot
    ensures { result ≡ spec.declaration_spot declaration.now }
{
    match declaration {
        Declaration::Integers(specifier, of, _, _) => declared_spot(*specifier, *of),
        Declaration::Object(of, _, _, _) => object_spot(of),
        Declaration::Vector(name, _, _, _, _)
        | Declaration::DeviceVector(name, _, _, _)
        | Declaration::ThreadVector(name, _, _)
        | Declaration::Thread(name, _, _, _, _) => name.namespace,
    }
}

#[tactic(auto, unfolding(crate::specs::Spots::statement_spot))]
pub fn statement_spot(statement: &Stmt) -> Spot
    ensures { result ≡ spec.statement_spot statement.now }
{
    match statement {
        Stmt::Compound(block) => block.spot,
        Stmt::Declaration(declaration) => declaration_spot(declaration),
        Stmt::Expression(full, _) => full_spot(full),
        Stmt::Print(name, _, _) => name.namespace,
        Stmt::Null(spot)
        | Stmt::Break(spot, _)
        | Stmt::Continue(spot, _)
        | Stmt::Return(spot, _, _)
        | Stmt::If(spot, _, _, _)
        | Stmt::While(spot, _, _)
        | Stmt::Do(spot, _, _, _)
        | Stmt::For(spot, _, _, _, _)
        | Stmt::RangeFor(spot, _, _, _, _, _, _)
        | Stmt::Try(spot, _, _, _) => *spot,
    }
}

pub fn item_spot(item: &FileItem) -> Spot
    ensures { result ≡ spec.item_spot item.now }
{
    match item {
        FileItem::Constant(constant) => specifier_spot(constant.specifier),
        FileItem::Function(function) => returned_spot(function.returned),
    }
}
