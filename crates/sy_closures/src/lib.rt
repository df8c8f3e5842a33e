//! The walk over a lambda, over a function value that walks over blocks.
#![tactic(auto)]

mod bodies;
mod captures;
mod judged;
mod lambda;

pub use bodies::Bodies;
