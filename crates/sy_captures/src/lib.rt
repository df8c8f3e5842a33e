//! What bodies take from outside: the captures of lambdas, with what they break and what a lambda is given, and the heads
//! of range-for.
#![tactic(auto)]

mod bodies;
mod captures;
mod faults;
mod given;
mod lists;
mod ranged;

pub use bodies::{inside, seen_lambda};
pub use captures::{add_captures, declare_captures, names_found};
pub use faults::thread_scope;
pub use given::captures_given;
pub use lists::{bad_lambda, captures_fit};
pub use ranged::{Element, add_head, declare_element, ranged_variable};
