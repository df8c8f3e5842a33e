//! The parser's rules of primary expressions.
#![tactic(auto)]

mod primary;

pub use primary::Primaries;
