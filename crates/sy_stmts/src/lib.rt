//! The parser's rules of statements that hold no other statement and declare nothing: expressions that are evaluated by
//! themselves, prints and jumps.
#![tactic(auto)]

mod plain;

pub use plain::PlainStatements;
