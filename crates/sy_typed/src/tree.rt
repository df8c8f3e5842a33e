//! The typed tree: that of a source which keeps the rules of typing, with the same variants.
//!
//! Each expression has its type, and each name the number of its declaration. What stood in the source alone, as
//! the ways to write a cast's type, is gone. Places are kept where a line of an ending is told by them.
//!
//! Declarations are numbered from 0 in the order in which their names are declared, parameters and constants of
//! the file too: a number is unique within the program. Functions are numbered in their order, and so are bodies:
//! the functions' first, in their order, then those of all lambdas, in the order of their `[`. A body's number, too,
//! is unique within the program.

use crate::things::{ErrorName, Member, Thing};
use sqlite_items::{Boxed, Items};
use sy_lex::Text;
use sy_note::Spot;
use sy_num::{Kind, UnOp};
use sy_tree::{
    AccessTag, AssignmentOperator, Brackets, FunctionObject, LibraryFunction, Operator, Step,
};

/// A declared name: its number, its type, and where it is declared.
#[derive(Clone, Copy, PartialEq, Eq, Debug)]
pub struct Variable {
    pub number: u32,
    pub what: Thing,
    pub spot: Spot,
}

/// A declaration whose value, or whose object, a lambda is given.
#[derive(Clone, Copy, PartialEq, Eq, Debug)]
pub enum TypedCapture {
    Reference(Variable),
    Copy(Variable),
    /// A copy of the element that a name of a range-for by reference stands for.
    Element(Variable),
}

/// An expression with its type, and the place of its own token: of a literal or a name that token, of a call of the
/// source's own function its name, of an operator its sign (of a conditional the `?`), of an index its `[`, of a call
/// of a member the member's word, of what the namespace `sycl` gives the name behind `sycl::`, of a `static_cast`
/// that word, of a cast by a type's name that name, and of a cast or an expression in parentheses its `(`.
#[cycle(typed)]
#[derive(Drop)]
pub struct Typed {
    pub node: TypedNode,
    pub what: Thing,
    pub spot: Spot,
}

/// The last place of a variant is that of its last token. A cast's target is the type of the expression. What names
/// a constant of the file is an `Integer` with its value.
#[cycle(typed)]
#[derive(Drop)]
pub enum TypedNode {
    Integer(i128),
    Character(i128),
    Boolean(bool),
    Name(u32),
    /// A name that a range-for over integers declares by reference: it stands for an element of the vector.
    Reference(u32),
    /// The number is the function's.
    Call(u32, Items<Typed>, Spot),
    Parenthesized(Boxed<Typed>, Spot),
    StaticCast(Boxed<Typed>, Spot),
    FunctionalCast(Boxed<Typed>, Spot),
    Construct(Items<TypedArgument>, Spot),
    GroupBarrier(Boxed<Typed>, Spot),
    AccessTag(AccessTag),
    InOrder(Spot),
    ErrorCode(ErrorName, Spot),
    InitializeToIdentity(Spot),
    FunctionObject(FunctionObject, Option<Kind>, Spot),
    LibraryCall(LibraryFunction, Items<TypedArgument>, Spot),
    Subscript(Boxed<Typed>, Boxed<Typed>, Spot),
    MemberCall(Boxed<Typed>, Member, Items<TypedArgument>, Spot),
    Postfix(Boxed<Typed>, Step),
    Prefix(Step, Boxed<Typed>),
    Unary(UnOp, Boxed<Typed>),
    Cast(Boxed<Typed>),
    Binary(Boxed<Typed>, Operator, Boxed<Typed>),
    Conditional(Boxed<Typed>, Boxed<Typed>, Boxed<Typed>),
}

/// The place of a list in braces is that of its `}`.
#[cycle(typed)]
#[derive(Drop)]
pub enum TypedArgument {
    Value(Typed),
    Braced(Items<Typed>, Spot),
    Lambda(TypedLambda),
}

/// A lambda at its `[`, with the number of its body. Its captures are the declarations that it is given, each once:
/// first those of its list in their order, then those that its default takes in the order of their first use. A
/// constant of the file is none of them. The lambda of a command group, which runs where it stands, has none.
#[cycle(typed)]
#[derive(Drop)]
pub struct TypedLambda {
    pub spot: Spot,
    pub number: u32,
    pub captures: Items<TypedCapture>,
    pub parameters: Items<Variable>,
    pub body: TypedBlock,
}

/// A block up to its `}`.
#[cycle(typed)]
#[derive(Drop)]
pub struct TypedBlock {
    pub statements: Items<TypedStmt>,
    pub close: Spot,
}

/// The place of an assignment is that of its sign.
#[cycle(typed)]
#[derive(Drop)]
pub enum TypedFull {
    Plain(Typed),
    Assignment(Typed, Spot, AssignmentOperator, Typed),
}

/// The place is that of the closing bracket.
#[cycle(typed)]
#[derive(Drop)]
pub enum TypedDeclarator {
    Uninitialized(Variable),
    Equal(Variable, Typed),
    Bracketed(Variable, Typed, Spot),
}

/// What stands in brackets keeps which they were, since `v(2)` and `v{2}` are two things, and the place of the
/// closing one.
#[cycle(typed)]
#[derive(Drop)]
pub enum TypedInitializer {
    Copy(Typed),
    Direct(Brackets, Items<TypedArgument>, Spot),
}

/// The type of a declared name stands with it, and the last place is that of the `;`. `Values` are declared by an integer type or `auto`.
#[cycle(typed)]
#[derive(Drop)]
pub enum TypedDeclaration {
    Values(Items<TypedDeclarator>, Spot),
    Vector(Variable, Option<TypedInitializer>, Spot),
    DeviceVector(Variable, Option<TypedInitializer>, Spot),
    ThreadVector(Variable, Spot),
    Thread(Variable, TypedLambda, Spot),
    Object(Variable, Option<TypedInitializer>, Spot),
}

/// What is printed, at the `<<` before it. The bytes of a text are those that its literal stands for. The last place is
/// that of the text's or `endl`'s own token.
#[cycle(typed)]
#[derive(Drop)]
pub enum TypedPrinted {
    Operand(Spot, Typed),
    Bytes(Spot, Text, Spot),
    EndLine(Spot, Spot),
}

/// The first place of a statement that begins with a word is that word's. The last place is that of its `;`, of a
/// `return` too; of a `do` that of the `;` behind its condition.
#[cycle(typed)]
#[derive(Drop)]
pub enum TypedStmt {
    Compound(TypedBlock),
    Null(Spot),
    Declaration(TypedDeclaration),
    Expression(TypedFull, Spot),
    Print(Items<TypedPrinted>, Spot),
    Break(Spot, Spot),
    Continue(Spot, Spot),
    Return(Spot, Option<Typed>, Spot),
    If(Spot, Typed, Boxed<TypedStmt>, Option<Boxed<TypedStmt>>),
    While(Spot, Typed, Boxed<TypedStmt>),
    Do(Spot, Boxed<TypedStmt>, Typed, Spot),
    For(Spot, Boxed<TypedStmt>, Option<Typed>, Option<TypedFull>, Boxed<TypedStmt>),
    /// At the `for`: the element, whether it is a reference, and the vector at its use.
    RangeFor(Spot, Variable, bool, Variable, Boxed<TypedStmt>),
    /// The variable is the caught exception.
    Try(Spot, TypedBlock, Variable, TypedBlock),
}

#[derive(Drop)]
pub struct TypedConstant {
    pub variable: Variable,
    pub initializer: Typed,
}

/// A function at its name. What is no integer is passed by reference.
#[derive(Drop)]
pub struct TypedFunction {
    pub spot: Spot,
    pub returned: Option<Kind>,
    pub parameters: Items<Variable>,
    pub body: TypedBlock,
}

/// A whole source: its constants and functions in their order, and the place of `main` among the functions.
#[derive(Drop)]
pub struct Program {
    pub constants: Items<TypedConstant>,
    pub functions: Items<TypedFunction>,
    pub main: u32,
}
