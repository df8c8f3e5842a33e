//! What the rules of the grammar share: the parsers of what stands below as parameters, so that each rule is proved by
//! itself, and over them the arguments of calls, blocks and lambdas.
#![tactic(auto)]

mod arguments;
mod binding;
mod grammar;
mod lambda;
mod nodes;

pub use binding::binds;
pub use grammar::{Grammar, TURNS};
pub use nodes::{expr_node, stmt_node};
