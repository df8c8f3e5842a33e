//! The order of the nodes of a run by index: for each root the pending nodes that a new node may have
//! to wait for, for each queue its last pending node, and for each node how many it waits for and
//! which wait for it. It tells what the plain list of `sy_graph` tells.
#![tactic(auto)]

mod cover;
mod graph;
mod lists;
mod roots;
mod slot;

pub use graph::Graph;
pub use sy_graph::Node;

#[cfg(test)]
mod tests;
