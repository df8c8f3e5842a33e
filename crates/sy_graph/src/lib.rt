//! The order of the nodes of a run, plainly: the list of all nodes, each pending or done, and a look
//! through it for what comes before a node.
#![tactic(auto)]

mod graph;
mod node;

pub use graph::{Graph, ready_means_no_pending_before};
pub use node::{Node, before};

#[cfg(test)]
mod tests;
