//! What is broken, as far as a source was looked at: the rule that is told first. Rules are told one by one, in any
//! order, and no list of them is kept.
#![tactic(auto)]

mod findings;
pub mod laws;
mod seen;
#[cfg(test)]
mod tests;

pub use findings::{Findings, table_place};
pub use seen::{
    if_bool, is_bool, is_integer, kind_in, kind_of, no_integer, no_target, unread, unwritten,
};
