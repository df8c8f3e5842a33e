//! Laws of the one-copy machine in the words of its user: commands on a buffer behave as if they ran
//! one after another in the order in which they were asked for, and those that only read don't wait
//! for each other. There is no code of the runtime here.
#![tactic(auto)]

pub mod laws;
#[cfg(test)]
mod tests;
