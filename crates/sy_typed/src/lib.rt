//! The typed tree of a source that keeps the rules of typing, and the types that its expressions and names have.
#![tactic(auto)]

#[cfg(test)]
mod tests;
mod things;
mod tree;

pub use things::{Declared, Dimensions, ErrorName, Member, Thing};
pub use tree::{
    Program, Typed, TypedArgument, TypedBlock, TypedCapture, TypedConstant, TypedDeclaration,
    TypedDeclarator, TypedFull, TypedFunction, TypedInitializer, TypedLambda, TypedNode,
    TypedPrinted, TypedStmt, Variable,
};
