//! The copies of buffers at places beside the shared core: each call of the copies is an event of a
//! core that they show. These are laws; no code of the runtime is here.
#![tactic(auto)]

pub mod laws;
#[cfg(test)]
mod tests;
