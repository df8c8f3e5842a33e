//! What is found while a source is walked: the broken rule that is told first, what is broken if a kernel or group
//! calls a function, what is called and what is used.
#![tactic(auto)]

mod found;
pub mod laws;
mod parts;

pub use found::Found;
pub use parts::{Call, Place};
