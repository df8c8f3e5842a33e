//! What always holds of the one-copy machine: laws about the boards of a run. No code of the runtime is here.
#![tactic(auto)]

pub mod laws;
#[cfg(test)]
mod tests;
