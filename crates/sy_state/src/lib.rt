//! The state of a body, changed in place: locals, vectors, host accesses, scopes, threads, the command group, turns and
//! asks. Each function is its definition of `sy_meaning`.
#![tactic(auto)]

mod locals;
mod outcomes;
mod rows;
mod scopes;
#[cfg(test)]
mod tests;

pub use locals::{access_at, local, put, put_access};
pub use outcomes::{
    answered, ask, contents_of, copy_of_answer, number_in, spent, throws, trap_ask, turn,
};
pub use rows::{elements, give_back, is_leased, lease, no_row, put_row, put_values, row_values};
pub use scopes::{
    is_joined, joined, left, lives, next_living, no_longer, opened, put_group, take_group,
};
