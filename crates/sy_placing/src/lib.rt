//! What the looks at a tree promise of what they find and leave. There is no code here.
#![tactic(auto)]

pub mod laws;
