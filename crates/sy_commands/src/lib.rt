//! What takes a lambda, but for running it: captures, threads, and command groups with their commands. Each function is
//! its definition of `sy_meaning`.
//!
//! Of a lambda a `Closure` is read, since the definitions look at no more of it.
#![tactic(auto)]

mod closures;
mod errors;
mod groups;
mod kernels;
pub mod laws;
mod moves;
mod reductions;
#[cfg(test)]
mod tests;
mod threads;

pub use closures::{Closure, all_words, captured, captures_of, uses_local, variable_of};
pub use errors::{commanded, is_second, nd_error, plain_error, range_error, task_error};
pub use groups::{in_group, sent, submitted};
pub use kernels::{kernel, over_range, parallel_for, ranged, single_task};
pub use moves::{accessor_need, accessor_size, copy, depends_on, fill};
pub use reductions::{has_accessor, make_reduction, need_of_reduction, reduced_by};
pub use threads::{emplace_back, put_thread, spawn, spawned};
