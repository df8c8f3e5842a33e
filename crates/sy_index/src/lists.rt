// Lists of node numbers by a key, a root or a queue.

ghost use Rattle.std.specs.Prelude.{◌≡◌, ◌≢◌, ◌⊎◌, ◌++◌, ℕ, [], true, OnOk};
ghost use Rattle.sy_index.specs.Lists.{Has};
ghost use Rattle.sy_index.specs.Listed.{listed};
ghost use Rattle.sy_index.specs.Slots.{superseded_at};

use crate::slot::Slots;
use std::alloc::{AllocError, Global};
use std::collections::{BTreeMap, VecDeque};
use sy_graph::Node;

/// For each key a list of numbers, most of them empty. Numbers are added in rising order.
#[derive(Drop)]
pub struct Lists {
    pub alloc: Global,
    pub lists: BTreeMap<u32, VecDeque<u32>>,
}

impl Lists {
    pub fn new(alloc: Global) -> Lists
        ensures { (k : ℕ) → listed result k ≡ [] }
    {
        Lists {
            alloc,
            lists: BTreeMap::new(alloc),
        }
    }

    /// The numbers of the key, in two parts.
    pub fn at(&self, key: u32) -> (&[u32], &[u32])
        ensures { result.0.now ++ result.1.now ≡ listed self.now key }
    {
        match self.lists.get(&key) {
            Some(list) => list.as_slices(),
            None => (&[], &[]),
        }
    }

    /// Adds a number to those of the key.
    pub fn push(&mut self, key: u32, n: u32) -> Result<(), AllocError>
        ensures named { OnOk result (Has (listed self.new key) n) }
        ensures kept { (k m : ℕ) → Has (listed self.old k) m → Has (listed self.new k) m }
    {
        match self.lists.get_mut(&key) {
            Some(list) => list.push_back(n)?,
            None => {
                let mut list = VecDeque::new(self.alloc);
                list.push_back(n)?;
                self.lists.insert(key, list)?;
            }
        }
        Ok(())
    }

    /// Takes a number from those of the key; a list that gets empty is freed.
    pub fn remove(&mut self, key: u32, n: u32)
        ensures { (k m : ℕ) → m ≢ n → Has (listed self.old k) m → Has (listed self.new k) m }
    {
        self.take_out(key, n);
        self.free_empty(key);
    }

    fn take_out(&mut self, key: u32, n: u32)
        ensures { (k m : ℕ) → m ≢ n → Has (listed self.old k) m → Has (listed self.new k) m }
    {
        if let Some(list) = self.lists.get_mut(&key) {
            remove_from(list, n);
        }
    }

    fn free_empty(&mut self, key: u32)
        ensures { (k : ℕ) → listed self.new k ≡ listed self.old k }
    {
        let empty = match self.lists.get(&key) {
            Some(list) => list.is_empty(),
            None => false,
        };
        if empty {
            self.lists.remove(&key);
        }
    }

    /// Leaves of the numbers of the key the number `n` alone.
    pub fn keep_only(&mut self, key: u32, n: u32)
        ensures { (k m : ℕ) → Has (listed self.old k) m → Has (listed self.new k) m ⊎ ((m ≢ n) × (k ≡ key)) }
    {
        if let Some(list) = self.lists.get_mut(&key) {
            list.retain(|m| *m == n);
        }
    }

    /// Takes from the numbers of the root those of nodes that are done or that `y`, whose number is
    /// `n`, takes the place of.
    pub fn shed(&mut self, root: u32, slots: &Slots, y: &Node, n: u32)
        ensures { (k m : ℕ) → Has (listed self.old k) m → Has (listed self.new k) m ⊎ ((m ≢ n) × (superseded_at slots.now m k y.now ≡ true)) }
    {
        if let Some(list) = self.lists.get_mut(&root) {
            list.retain(|m| *m == n || !slots.superseded(*m, root, y));
        }
    }
}

/// Takes one number out of a list in rising order.
fn remove_from(list: &mut VecDeque<u32>, n: u32)
    ensures { (m : ℕ) → m ≢ n → Has list.old.items m → Has list.new.items m }
{
    if let Ok(i) = list.binary_search(&n) {
        list.remove(i);
    }
}
