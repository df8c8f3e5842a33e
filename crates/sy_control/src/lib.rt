//! The parser's rules of branches, loops and `try`, but for the plain `for`, which begins with a declaration.
#![tactic(auto)]

mod control;

pub use control::{Control, RangeHeader, range_header};
