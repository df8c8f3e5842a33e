//! The walk over statements and blocks.
#![tactic(auto)]

mod blocks;
mod control;
mod forms;
mod inner;
mod judged;
mod loops;
mod places;
mod plain;
mod starts;

pub use blocks::statements;
pub use inner::Inner;
