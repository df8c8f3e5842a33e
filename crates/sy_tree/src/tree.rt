//! The tree of a source, with one variant for each alternative of the grammar.
//!
//! Each node has the place of one token of its own. Where a node ends with a bracket or `;`, it has that place too.
//! What would make every expression wide stands in a box, which contracts see as the value in it.

use crate::operators::{AssignmentOperator, Operator};
use crate::parts::{
    AccessTag, Brackets, Capture, ConstSpecifier, FunctionObject, IntegerType, LambdaParameter,
    Lexeme, LibraryFunction, ObjectType, Parameter, Qualified, ReturnType, Step, TemplateArgument,
    TypeSpecifier,
};
use sqlite_items::{Boxed, Items};
use sy_note::Spot;
use sy_num::UnOp;

#[cycle(tree)]
#[derive(Drop)]
pub enum Expr {
    Integer(Lexeme),
    Character(Lexeme),
    Boolean(Spot, bool),
    Name(Lexeme),
    /// A call of a function of the source.
    Call(Boxed<Lexeme>, Items<Expr>, Spot),
    Parenthesized(Spot, Boxed<Expr>, Spot),
    StaticCast(Spot, IntegerType, Boxed<Expr>, Spot),
    /// The type has one word.
    FunctionalCast(IntegerType, Boxed<Expr>, Spot),
    Construct(Boxed<ObjectType>, Brackets, Spot, Boxed<Items<Argument>>, Spot),
    GroupBarrier(Qualified, Boxed<Expr>, Spot),
    AccessTag(Qualified, AccessTag),
    /// `property::queue::in_order`.
    InOrder(Qualified, Brackets, Spot),
    ErrorCode(Qualified, Boxed<Lexeme>),
    /// `property::reduction::initialize_to_identity`.
    InitializeToIdentity(Qualified, Brackets, Spot),
    FunctionObject(Qualified, FunctionObject, Option<IntegerType>, Brackets, Spot),
    LibraryCall(Qualified, LibraryFunction, Items<Argument>, Spot),
    Subscript(Boxed<Expr>, Spot, Boxed<Expr>, Spot),
    MemberCall(
        Boxed<Expr>,
        Boxed<Lexeme>,
        Option<Boxed<TemplateArgument>>,
        Boxed<Items<Argument>>,
        Spot,
    ),
    Postfix(Boxed<Expr>, Spot, Step),
    Prefix(Spot, Step, Boxed<Expr>),
    Unary(Spot, UnOp, Boxed<Expr>),
    Cast(Spot, IntegerType, Boxed<Expr>),
    Binary(Boxed<Expr>, Spot, Operator, Boxed<Expr>),
    Conditional(Boxed<Expr>, Spot, Boxed<Expr>, Boxed<Expr>),
}

#[cycle(tree)]
#[derive(Drop)]
pub enum Argument {
    Value(Expr),
    Braced(Spot, Items<Expr>, Spot),
    Lambda(Lambda),
}

/// A lambda, at its `[`. Parentheses without parameters may be left out.
#[cycle(tree)]
#[derive(Drop)]
pub struct Lambda {
    pub spot: Spot,
    pub captures: Items<Capture>,
    pub parameters: Option<Items<LambdaParameter>>,
    pub body: Block,
}

/// A block, from its `{` to its `}`.
#[cycle(tree)]
#[derive(Drop)]
pub struct Block {
    pub spot: Spot,
    pub statements: Items<Stmt>,
    pub close: Spot,
}

/// An expression that is evaluated by itself, with the assignment that it may be.
#[cycle(tree)]
#[derive(Drop)]
pub enum FullExpression {
    Plain(Expr),
    Assignment(Expr, Spot, AssignmentOperator, Expr),
}

/// A declared integer, with its initializer.
#[cycle(tree)]
#[derive(Drop)]
pub enum Declarator {
    Uninitialized(Lexeme),
    Equal(Lexeme, Spot, Expr),
    Bracketed(Lexeme, Brackets, Spot, Expr, Spot),
}

/// The initializer of an object of the library.
#[cycle(tree)]
#[derive(Drop)]
pub enum Initializer {
    Copy(Spot, Expr),
    Direct(Brackets, Spot, Items<Argument>, Spot),
}

/// A declaration, up to its `;`.
#[cycle(tree)]
#[derive(Drop)]
pub enum Declaration {
    Integers(Option<ConstSpecifier>, TypeSpecifier, Items<Declarator>, Spot),
    Vector(Qualified, IntegerType, Lexeme, Option<Initializer>, Spot),
    DeviceVector(Qualified, Lexeme, Option<Initializer>, Spot),
    ThreadVector(Qualified, Lexeme, Spot),
    Thread(Qualified, Lexeme, Brackets, Lambda, Spot),
    Object(ObjectType, Lexeme, Option<Initializer>, Spot),
}

/// What is printed, at the `<<` before it.
#[cycle(tree)]
#[derive(Drop)]
pub enum Printed {
    Operand(Spot, Expr),
    Text(Spot, Lexeme),
    EndLine(Spot, Qualified),
}

#[cycle(tree)]
#[derive(Drop)]
pub enum Stmt {
    Compound(Block),
    Null(Spot),
    Declaration(Declaration),
    Expression(FullExpression, Spot),
    Print(Qualified, Items<Printed>, Spot),
    Break(Spot, Spot),
    Continue(Spot, Spot),
    Return(Spot, Option<Expr>, Spot),
    If(Spot, Expr, Boxed<Stmt>, Option<Boxed<Stmt>>),
    While(Spot, Expr, Boxed<Stmt>),
    Do(Spot, Boxed<Stmt>, Expr, Spot),
    /// What it begins with is a `Null`, `Expression` or `Declaration`.
    For(Spot, Boxed<Stmt>, Option<Expr>, Option<FullExpression>, Boxed<Stmt>),
    /// The flags say whether the element is const, and whether it is a reference.
    RangeFor(Spot, bool, TypeSpecifier, bool, Lexeme, Lexeme, Boxed<Stmt>),
    /// The name is that of the caught exception.
    Try(Spot, Block, Lexeme, Block),
}

/// A constant of the file.
#[derive(Drop)]
pub struct Constant {
    pub specifier: ConstSpecifier,
    pub of: TypeSpecifier,
    pub declarator: Declarator,
}

#[derive(Drop)]
pub struct Function {
    pub returned: ReturnType,
    pub name: Lexeme,
    pub parameters: Items<Parameter>,
    pub body: Block,
}

#[derive(Drop)]
pub enum FileItem {
    Constant(Constant),
    Function(Function),
}

/// A whole source (the translation unit): its directives, each at its first token, its constants and functions.
#[derive(Drop)]
pub struct Unit {
    pub includes: Items<Spot>,
    pub usings: Items<Spot>,
    pub items: Items<FileItem>,
}
