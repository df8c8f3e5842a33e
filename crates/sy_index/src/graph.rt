// The graph by index, which is seen as the plain list of nodes.

ghost use Rattle.std.specs.Prelude.{◌≡◌, ◌≢◌, ◌⊎◌, ◌-◌, ◌^◌, ◌<◌, [], ◌∷◌, ◌++◌, ℕ, Bool, true, length, IsTrue, IfOk, IfErr, OnOk, OnErr, All, Some, None, slice_get, slice_set, option_copied, unwrap_or};
ghost use Rattle.std.specs.List.{filter, Contains};
ghost use Rattle.sy_access.specs.declared.access.Need.{Need};
ghost use Rattle.sy_access.specs.Needs.{writes};
ghost use Rattle.sy_graph.specs.Before.{is_ready};
ghost use Rattle.sy_index.specs.Lists.{Has};
ghost use Rattle.sy_index.specs.Listed.{listed, by_root};
ghost use Rattle.sy_index.specs.Slots.{candidates, root_numbers, holds_at, superseded_at};

use crate::lists::Lists;
use crate::roots::Roots;
use crate::slot::{Slot, Slots, Successors};
use std::alloc::{AllocError, Global};
use std::marker::Model;
use sy_access::Need;
use sy_graph::Node;

/// The nodes of a run by their numbers. It is seen as the list of them, in which a node that is done
/// is None.
#[derive(Drop)]
pub struct Graph {
    alloc: Global,
    slots: Slots,
    roots: Roots,
    queues: Lists,
}

impl Model for Graph {
    ghost use Rattle.std.specs.Prelude.{List, Option};
    ghost use Rattle.sy_graph.specs.declared.node.Node.{Node};
    ghost use Rattle.sy_index.specs.Listed.{listed, by_root};
    ghost use Rattle.sy_index.specs.Slots.{nodes_of, IsIndex};

    ghost Value = { List (Option Node) };

    ghost view = { λ s. nodes_of s.slots };

    ghost invariant = { λ s. IsIndex s.slots (by_root s.roots) (listed s.queues) };
}

impl Graph {
    /// The graph without nodes, which takes no memory.
    pub fn new(alloc: Global) -> Graph
        ensures { result ≡ [] }
    {
        Graph {
            alloc,
            slots: Slots::new(alloc),
            roots: Roots::new(alloc),
            queues: Lists::new(alloc),
        }
    }

    /// Adds a pending node and answers its number; for want of memory hands it back.
    pub fn add(&mut self, node: Node) -> Result<u32, Node>
        requires room { length self.old < 2 ^ 32 - 1 }
        requires after { All (λ m. m < length self.old) node.after }
        ensures number { IfOk result (λ n. n ≡ length self.old) }
        ensures added { OnOk result (self.new ≡ self.old ++ Some node ∷ []) }
        ensures back { IfErr result (λ given. given ≡ node) }
        ensures unchanged { OnErr result (self.new ≡ self.old) }
    {
        let number = self.slots.len() as u32;
        let Ok(found) = predecessors(self.alloc, &self.slots, &self.roots, &self.queues, &node)
        else {
            return Err(node);
        };
        let Ok(()) = enlist(&mut self.roots, &mut self.queues, &node, number) else {
            delist(&mut self.roots, &mut self.queues, &node, number);
            return Err(node);
        };
        let slot = Slot {
            node,
            waits: found.len(),
            next: Successors::new(self.alloc),
        };
        match self.slots.append(slot, found.as_slice()) {
            Ok(()) => {
                if let Some(node) = self.slots.node(number) {
                    shed(&mut self.roots, &mut self.queues, &self.slots, node, number);
                }
                Ok(number)
            }
            Err(slot) => {
                delist(&mut self.roots, &mut self.queues, &slot.node, number);
                Err(slot.node)
            }
        }
    }

    /// Whether the node is pending and no pending earlier node comes before it.
    pub fn ready(&self, n: u32) -> bool
        ensures { result ≡ is_ready self.now n }
    {
        self.slots.is_idle(n)
    }

    /// Marks a ready node as done, and answers nodes among which are all that are ready from now on and
    /// weren't; some of them may not be. It takes no memory.
    pub fn done(&mut self, n: u32) -> Vec<u32>
        requires { IsTrue (is_ready self.old n) }
        ensures done { self.new ≡ slice_set self.old n None }
        ensures freed { (m : ℕ) → is_ready self.new m ≡ true → (is_ready self.old m ≡ true) ⊎ Contains result.items m }
    {
        match self.slots.take(n) {
            Some(slot) => {
                delist(&mut self.roots, &mut self.queues, &slot.node, n);
                self.slots.tell_all(slot.next.numbers());
                slot.next.into_numbers()
            }
            None => Vec::new(self.alloc),
        }
    }

    /// The node, where it is pending.
    pub fn node(&self, n: u32) -> Option<&Node>
        ensures { option_copied result ≡ unwrap_or (slice_get self.now n) None }
    {
        self.slots.node(n)
    }
}

/// The pending nodes that a new one is to wait for, some of them more than once.
fn predecessors(
    alloc: Global,
    slots: &Slots,
    roots: &Roots,
    queues: &Lists,
    node: &Node,
) -> Result<Vec<u32>, AllocError>
    ensures { IfOk result (λ v. v.items ≡ filter (holds_at slots.now node.now) (candidates (by_root roots.now) (listed queues.now) node.now)) }
{
    let mut found = Vec::new(alloc);
    slots.gather(node, node.after.items(), &mut found)?;
    if let Some(q) = node.in_order {
        slots.gather_both(node, queues.at(q), &mut found)?;
    }
    for need in node.needs.items() {
        gather_root(slots, roots, node, need, &mut found)?;
    }
    Ok(found)
}

/// Adds those that come before `y` of the nodes that its need may have to wait for.
fn gather_root(
    slots: &Slots,
    roots: &Roots,
    y: &Node,
    need: &Need,
    into: &mut Vec<u32>,
) -> Result<(), AllocError>
    ensures { OnOk result (into.new.items ≡ into.old.items ++ filter (holds_at slots.now y.now) (root_numbers (by_root roots.now) need.now)) }
{
    slots.gather_both(y, roots.at(true, need.buffer), into)?;
    if need.mode.writes() {
        slots.gather_both(y, roots.at(false, need.buffer), into)?;
    }
    Ok(())
}

/// Lists a new node by its roots and its queue.
fn enlist(roots: &mut Roots, queues: &mut Lists, node: &Node, n: u32) -> Result<(), AllocError>
    ensures rooted { OnOk result ((i : ℕ) (a : Need) → slice_get node.now.needs i ≡ Some a → Has (by_root roots.new (writes a.mode) a.buffer) n) }
    ensures queued { OnOk result ((q : ℕ) → node.now.in_order ≡ Some q → Has (listed queues.new q) n) }
    ensures roots_kept { (w : Bool) (k m : ℕ) → Has (by_root roots.old w k) m → Has (by_root roots.new w k) m }
    ensures queues_kept { (k m : ℕ) → Has (listed queues.old k) m → Has (listed queues.new k) m }
{
    if let Some(q) = node.in_order {
        queues.push(q, n)?;
    }
    roots.enlist(node, n)
}

/// Takes a node from the lists of its roots and its queue.
fn delist(roots: &mut Roots, queues: &mut Lists, node: &Node, n: u32)
    ensures roots_kept { (w : Bool) (k m : ℕ) → m ≢ n → Has (by_root roots.old w k) m → Has (by_root roots.new w k) m }
    ensures queues_kept { (k m : ℕ) → m ≢ n → Has (listed queues.old k) m → Has (listed queues.new k) m }
{
    if let Some(q) = node.in_order {
        queues.remove(q, n);
    }
    roots.delist(node, n);
}

/// Takes from the lists the nodes that `y`, whose number is `n`, takes the place of.
fn shed(roots: &mut Roots, queues: &mut Lists, slots: &Slots, y: &Node, n: u32)
    ensures roots_kept { (w : Bool) (k m : ℕ) → Has (by_root roots.old w k) m → Has (by_root roots.new w k) m ⊎ ((m ≢ n) × (superseded_at slots.now m k y.now ≡ true)) }
    ensures queues_kept { (k m : ℕ) → Has (listed queues.old k) m → Has (listed queues.new k) m ⊎ ((m ≢ n) × (y.now.in_order ≡ Some k)) }
{
    if let Some(q) = y.in_order {
        queues.keep_only(q, n);
    }
    roots.shed(slots, y, n);
}
