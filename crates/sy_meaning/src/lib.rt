//! What a source means: the next ask of a body after given answers, and the steps of a work item.
//!
//! The types here are states and what parts of a body come to; the definitions are in specs/.
#![tactic(auto)]

pub mod laws;
mod outcomes;
mod runs;

pub use outcomes::{Evaluated, Flow, Reply};
pub use runs::{Area, Group, Live, Location, Row, Run, Scope, Step, Store, World};
