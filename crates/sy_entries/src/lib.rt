//! What the entries of the one-copy machine come to, as code that is written as the definitions say it: which come before
//! which, what needs hold together, what a command is given and leaves, what threads wait for, and how many copies a run
//! makes. It serves to compare other runtimes with, so it is plain and not fast.
#![tactic(auto)]

pub mod cells;
pub mod copies;
pub mod needs;
pub mod order;
pub mod waits;
