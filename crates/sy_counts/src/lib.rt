//! Laws of counts of entries: what a runtime keeps beside the entries, with its change for one entry
//! more and for one entry whose stage changes, and what it tells. No code of the runtime is here.
#![tactic(auto)]

pub mod laws;
#[cfg(test)]
mod tests;
