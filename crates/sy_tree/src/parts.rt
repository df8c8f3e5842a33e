//! Parts of the tree that hold no expression.

use sy_lex::Text;
use sy_note::Spot;
use sy_num::Kind;

/// An identifier or a literal, as it is written.
#[derive(Drop)]
pub struct Lexeme {
    pub spot: Spot,
    pub text: Text,
}

/// A name of the namespace `sycl` or `std`: where the namespace stands, and where the name itself.
#[derive(Clone, Copy, PartialEq, Eq, Debug)]
pub struct Qualified {
    pub namespace: Spot,
    pub name: Spot,
}

/// The words of an integer type, at the first of them.
#[derive(Clone, Copy, PartialEq, Eq, Debug)]
pub struct IntegerType {
    pub spot: Spot,
    pub kind: Kind,
}

#[derive(Clone, Copy, PartialEq, Eq, Debug)]
pub enum TypeSpecifier {
    Auto(Spot),
    Integer(IntegerType),
}

#[derive(Clone, Copy, PartialEq, Eq, Debug)]
pub enum ReturnType {
    Void(Spot),
    Integer(IntegerType),
}

#[derive(Clone, Copy, PartialEq, Eq, Debug)]
pub enum ConstSpecifier {
    Const(Spot),
    Constexpr(Spot),
}

/// The template arguments of a `buffer` or `local_accessor`: its elements' type, and its dimensions.
#[derive(Drop)]
pub struct ElementArguments {
    pub element: IntegerType,
    pub dimensions: Option<Lexeme>,
}

/// The type of an object of the library. The dimensions of a range, id or nd_range may be left out.
#[derive(Drop)]
pub enum ObjectType {
    Queue(Qualified),
    Device(Qualified),
    Context(Qualified),
    Event(Qualified),
    Accessor(Qualified),
    HostAccessor(Qualified),
    LocalAccessor(Qualified, ElementArguments),
    Buffer(Qualified, Option<ElementArguments>),
    Range(Qualified, Option<Lexeme>),
    Id(Qualified, Option<Lexeme>),
    NdRange(Qualified, Option<Lexeme>),
}

/// The type of an object that is passed by reference.
#[derive(Drop)]
pub enum ReferenceType {
    Queue(Qualified),
    Device(Qualified),
    Context(Qualified),
    Buffer(Qualified, ElementArguments),
}

/// A parameter of a function. The flag says whether it is const.
#[derive(Drop)]
pub enum Parameter {
    Integer(bool, IntegerType, Lexeme),
    Object(ReferenceType, Lexeme),
    Vector(bool, Qualified, IntegerType, Lexeme),
}

#[derive(Drop)]
pub enum Capture {
    DefaultReference(Spot),
    DefaultCopy(Spot),
    Reference(Spot, Lexeme),
    Copy(Lexeme),
}

#[derive(Drop)]
pub enum LambdaParameterType {
    Handler(Qualified),
    Auto(Spot),
    Id(Qualified, Lexeme),
    Item(Qualified, Lexeme),
    NdItem(Qualified, Lexeme),
}

#[derive(Drop)]
pub struct LambdaParameter {
    pub of: LambdaParameterType,
    pub by_reference: bool,
    pub name: Lexeme,
}

/// The template argument of a member: the name of a kernel, written with `class` or without, or a
/// property of the namespace `info`.
#[derive(Drop)]
pub enum TemplateArgument {
    Kernel(bool, Lexeme),
    Information(Qualified, Lexeme, Lexeme),
}

/// What an accessor's use of its elements is told by.
#[derive(Clone, Copy, PartialEq, Eq, Debug)]
pub enum AccessTag {
    ReadOnly,
    WriteOnly,
    ReadWrite,
    NoInit,
}

/// A function object of the library, which combines two values.
#[derive(Clone, Copy, PartialEq, Eq, Debug)]
pub enum FunctionObject {
    Plus,
    Multiplies,
    Minimum,
    Maximum,
    BitAnd,
    BitOr,
    BitXor,
}

/// A function of the library that gives a value.
#[derive(Clone, Copy, PartialEq, Eq, Debug)]
pub enum LibraryFunction {
    Reduction,
    ReduceOverGroup,
    ExclusiveScanOverGroup,
    InclusiveScanOverGroup,
    GroupBroadcast,
}

#[derive(Clone, Copy, PartialEq, Eq, Debug)]
pub enum Brackets {
    Parentheses,
    Braces,
}

/// `++` or `--`.
#[derive(Clone, Copy, PartialEq, Eq, Debug)]
pub enum Step {
    Increment,
    Decrement,
}
