// The lists by root.

ghost use Rattle.std.specs.Prelude.{◌≡◌, ◌≢◌, ◌⊎◌, ◌++◌, ℕ, Bool, true, OnOk, Some, slice_get};
ghost use Rattle.sy_access.specs.declared.access.Need.{Need};
ghost use Rattle.sy_access.specs.Needs.{writes};
ghost use Rattle.sy_index.specs.Lists.{Has};
ghost use Rattle.sy_index.specs.Listed.{by_root};
ghost use Rattle.sy_index.specs.Slots.{superseded_at};

use crate::lists::Lists;
use crate::slot::Slots;
use std::alloc::{AllocError, Global};
use sy_graph::Node;

/// For each root the nodes that are listed for needs that write it, and for needs that only read it.
#[derive(Drop)]
pub struct Roots {
    pub writers: Lists,
    pub readers: Lists,
}

impl Roots {
    pub fn new(alloc: Global) -> Roots {
        Roots {
            writers: Lists::new(alloc),
            readers: Lists::new(alloc),
        }
    }

    /// The nodes that are listed for needs on the root that write, or for those that only read.
    pub fn at(&self, writes: bool, root: u32) -> (&[u32], &[u32])
        ensures { result.0.now ++ result.1.now ≡ by_root self.now writes root }
    {
        if writes {
            self.writers.at(root)
        } else {
            self.readers.at(root)
        }
    }

    fn push(&mut self, writes: bool, root: u32, n: u32) -> Result<(), AllocError>
        ensures named { OnOk result (Has (by_root self.new writes root) n) }
        ensures kept { (w : Bool) (k m : ℕ) → Has (by_root self.old w k) m → Has (by_root self.new w k) m }
    {
        if writes {
            self.writers.push(root, n)
        } else {
            self.readers.push(root, n)
        }
    }

    /// Lists a node for each of its needs.
    pub fn enlist(&mut self, node: &Node, n: u32) -> Result<(), AllocError>
        ensures named { OnOk result ((i : ℕ) (a : Need) → slice_get node.now.needs i ≡ Some a → Has (by_root self.new (writes a.mode) a.buffer) n) }
        ensures kept { (w : Bool) (k m : ℕ) → Has (by_root self.old w k) m → Has (by_root self.new w k) m }
    {
        for need in node.needs.items() {
            self.push(need.mode.writes(), need.buffer, n)?;
        }
        Ok(())
    }

    fn remove(&mut self, writes: bool, root: u32, n: u32)
        ensures { (w : Bool) (k m : ℕ) → m ≢ n → Has (by_root self.old w k) m → Has (by_root self.new w k) m }
    {
        if writes {
            self.writers.remove(root, n);
        } else {
            self.readers.remove(root, n);
        }
    }

    /// Takes a node from the lists that it was put in for its needs.
    pub fn delist(&mut self, node: &Node, n: u32)
        ensures { (w : Bool) (k m : ℕ) → m ≢ n → Has (by_root self.old w k) m → Has (by_root self.new w k) m }
    {
        for need in node.needs.items() {
            self.remove(need.mode.writes(), need.buffer, n);
        }
    }

    fn shed_root(&mut self, root: u32, slots: &Slots, y: &Node, n: u32)
        ensures { (w : Bool) (k m : ℕ) → Has (by_root self.old w k) m → Has (by_root self.new w k) m ⊎ ((m ≢ n) × (superseded_at slots.now m k y.now ≡ true)) }
    {
        self.writers.shed(root, slots, y, n);
        self.readers.shed(root, slots, y, n);
    }

    /// Takes from the lists of the roots that `y`, whose number is `n`, writes the nodes that it
    /// takes the place of.
    pub fn shed(&mut self, slots: &Slots, y: &Node, n: u32)
        ensures { (w : Bool) (k m : ℕ) → Has (by_root self.old w k) m → Has (by_root self.new w k) m ⊎ ((m ≢ n) × (superseded_at slots.now m k y.now ≡ true)) }
    {
        for need in y.needs.items() {
            if need.mode.writes() {
                self.shed_root(need.buffer, slots, y, n);
            }
        }
    }
}
