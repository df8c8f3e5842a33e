//! Laws of the shared core over a board that lags behind: what a core stands for, and that each event
//! of the core keeps it. No code of the runtime is here.
#![tactic(auto)]

pub mod laws;
#[cfg(test)]
mod tests;
