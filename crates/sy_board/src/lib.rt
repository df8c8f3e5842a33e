//! The board of the one-copy machine as values, and what each ask of a thread does to it, written as
//! the definitions say it. It serves to compare other runtimes with, so it is plain and not fast.
#![tactic(auto)]

mod board;
mod endings;

pub use board::OneCopy;
