//! What the rules of typing promise of the codes that they tell. There is no code here.
#![tactic(auto)]

pub mod laws;
