//! How the numbers of the dependency graph go with those of the one-copy machine, and what a command
//! leaves of its place's copies with what it leaves on the machine's board. These are laws; no code of
//! the runtime is here.
#![tactic(auto)]

pub mod laws;
