//! The parser's rules of declarations.
#![tactic(auto)]

mod declarations;

pub use declarations::Declarations;
