//! Laws of the one-copy machine on states that lag behind a legal order of steps, with their threads:
//! their entries have not settled, and answers have not been given. No code of the runtime is here.
#![tactic(auto)]

pub mod laws;
#[cfg(test)]
mod tests;
