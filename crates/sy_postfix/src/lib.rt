//! The parser's rules of what goes on with a primary expression: subscripts, calls of members, and steps behind it.
#![tactic(auto)]

mod postfix;

pub use postfix::PostfixExpressions;
