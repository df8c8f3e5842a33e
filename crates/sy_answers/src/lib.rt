//! That the one-copy machine answers each thread what it asked: a law of whole runs, for which no code
//! of the runtime is here.
#![tactic(auto)]

pub mod laws;
#[cfg(test)]
mod tests;
