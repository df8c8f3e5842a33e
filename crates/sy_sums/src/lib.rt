//! A main that prints sums: whether a source is one, and its run.
#![tactic(auto)]

mod asked;
mod form;
mod host;
mod laws;
mod numerals;
mod places;
mod run;
mod spots;
mod sums;
#[cfg(test)]
mod tests;

pub use form::first_unbuilt;
pub use laws::all_is_printed;
pub use run::run_sums;
