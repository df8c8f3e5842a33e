// The list of nodes, each pending or done.

ghost use Rattle.std.specs.Prelude.{◌≡◌, ◌↔◌, ℕ, ◌-◌, ◌^◌, ◌<◌, List, [], ◌∷◌, ◌++◌, length, IsTrue, IfOk, IfErr, OnOk, OnErr, All, Option, Some, None, slice_set};
ghost use Rattle.sy_graph.specs.Before.{is_held, is_ready, IsReady};
ghost use Rattle.sy_graph.specs.declared.node.Node.{Node};

use crate::node::{Node, before};
use std::alloc::Global;
use std::marker::Model;

/// The nodes of a run by their numbers. It is seen as the list of them, in which a node that is done
/// is None.
#[derive(Drop)]
pub struct Graph {
    nodes: Vec<Option<Node>>,
}

impl Model for Graph {
    ghost use Rattle.std.specs.Prelude.{List, Option};
    ghost use Rattle.sy_graph.specs.declared.node.Node.{Node};

    ghost Value = { List (Option Node) };

    ghost view = { λ s. s.nodes.items };
}

impl Graph {
    /// The graph without nodes, which takes no memory.
    pub fn new(alloc: Global) -> Graph
        ensures { result ≡ [] }
    {
        Graph {
            nodes: Vec::new(alloc),
        }
    }

    /// Adds a pending node and answers its number; for want of memory hands it back.
    pub fn add(&mut self, node: Node) -> Result<u32, Node>
        requires room { length self.old < 2 ^ 32 - 1 }
        requires after { All (λ m. m < length self.old) node.after }
        ensures number { IfOk result (λ n. n ≡ length self.old) }
        ensures added { OnOk result (self.new ≡ self.old ++ Some node ∷ []) }
        ensures back { IfErr result (λ given. given ≡ node) }
        ensures unchanged { OnErr result (self.new ≡ self.old) }
    {
        let number = self.nodes.len() as u32;
        match self.nodes.push(Some(node)) {
            Ok(()) => Ok(number),
            Err(failed) => Err(failed.value.unwrap()),
        }
    }

    /// Whether the node is pending and no pending earlier node comes before it.
    #[tactic(auto, unfolding(crate::specs::Before::is_ready))]
    pub fn ready(&self, n: u32) -> bool
        ensures { result ≡ is_ready self.now n }
    {
        match self.nodes.get(n as usize) {
            Some(Some(y)) => !is_held(&self.nodes[..n as usize], y),
            Some(None) | None => false,
        }
    }

    /// Marks a ready node as done.
    pub fn done(&mut self, n: u32)
        requires { IsTrue (is_ready self.old n) }
        ensures { self.new ≡ slice_set self.old n None }
    {
        self.nodes[n as usize] = None;
    }
}

/// Whether one of the nodes, which are numbered from 0, is pending and comes before `y`.
#[tactic(auto, unfolding(crate::specs::Before::is_held))]
fn is_held(nodes: &[Option<Node>], y: &Node) -> bool
    requires { length nodes.now < 2 ^ 32 }
    ensures { result ≡ is_held nodes.now y.now }
{
    nodes.iter().enumerate().any(|(n, x)| match x {
        Some(x) => before(x, n as u32, y),
        None => false,
    })
}

/// A law: a node is ready exactly where it is pending and no pending node of a lower number comes
/// before it.
pub fn ready_means_no_pending_before()
    ensures { (nodes : List (Option Node)) (n : ℕ) → IsTrue (is_ready nodes n) ↔ IsReady nodes n }
{}
