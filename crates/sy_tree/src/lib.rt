//! The tree of a source, and the grammar that relates it to tokens.
#![tactic(auto)]

mod boxes;
pub mod laws;
mod operators;
mod parts;
#[cfg(test)]
mod tests;
mod tree;

pub use boxes::{boxed_expr, boxed_stmt};
pub use operators::{AssignmentOperator, Operator};
pub use parts::{
    AccessTag, Brackets, Capture, ConstSpecifier, ElementArguments, FunctionObject, IntegerType,
    LambdaParameter, LambdaParameterType, Lexeme, LibraryFunction, ObjectType, Parameter,
    Qualified, ReferenceType, ReturnType, Step, TemplateArgument, TypeSpecifier,
};
pub use tree::{
    Argument, Block, Constant, Declaration, Declarator, Expr, FileItem, FullExpression, Function,
    Initializer, Lambda, Printed, Stmt, Unit,
};
