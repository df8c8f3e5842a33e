// What is kept of each pending node.

ghost use Rattle.std.specs.Prelude.{◌≡◌, ◌<◌, ◌≤◌, ◌-◌, ◌^◌, [], ◌∷◌, ◌++◌, length, take, reverse, Some, None, OnOk, OnErr, IfErr, slice_get, slice_set, option_map, option_copied, unwrap_or};
ghost use Rattle.std.specs.List.{filter};
ghost use Rattle.sy_index.specs.Slots.{changed, with_successor, without_last, with_fewer, linked, unlinked, told, idle, pending, node_of, behind, holds_at, superseded_at};

use crate::cover::superseded;
use std::alloc::{AllocError, Global};
use std::collections::VecDeque;
use std::marker::Model;
use sy_graph::{Node, before};

/// The nodes that wait for a node.
#[derive(Drop)]
pub struct Successors {
    numbers: Vec<u32>,
}

impl Model for Successors {
    ghost use Rattle.std.specs.Prelude.{ℕ, List};

    ghost Value = { List ℕ };

    ghost view = { λ s. s.numbers.items };
}

impl Successors {
    pub fn new(alloc: Global) -> Successors
        ensures { result ≡ [] }
    {
        Successors {
            numbers: Vec::new(alloc),
        }
    }

    pub fn numbers(&self) -> &[u32]
        ensures { result.now ≡ self.now }
    {
        self.numbers.as_slice()
    }

    pub fn into_numbers(self) -> Vec<u32>
        ensures { result.items ≡ self }
    {
        self.numbers
    }

    fn push(&mut self, n: u32) -> Result<(), AllocError>
        ensures ok { OnOk result (self.new ≡ self.old ++ n ∷ []) }
        ensures err { OnErr result (self.new ≡ self.old) }
    {
        self.numbers.push(n)?;
        Ok(())
    }

    fn pop(&mut self)
        ensures { self.new ≡ take (length self.old - 1) self.old }
    {
        self.numbers.pop();
    }
}

/// A pending node, how many edges lead to it, and the nodes to which an edge leads from it.
#[derive(Drop)]
pub struct Slot {
    pub node: Node,
    pub waits: usize,
    pub next: Successors,
}

/// The pending nodes by their numbers; None is left of a node that is done. Of the nodes before the
/// first pending one only the count is kept.
#[derive(Drop)]
pub struct Slots {
    gone: usize,
    slots: VecDeque<Option<Slot>>,
}

impl Model for Slots {
    ghost use Rattle.std.specs.Prelude.{◌+◌, ◌^◌, ◌≤◌, length, List, Option};
    ghost use Rattle.sy_index.specs.declared.slot.Slot.{Slot};
    ghost use Rattle.sy_index.specs.Slots.{behind};

    ghost Value = { List (Option Slot) };

    ghost view = { λ s. behind s.gone s.slots.items };

    ghost invariant = { λ s. s.gone + length s.slots.items ≤ 2 ^ 32 };
}

impl Slots {
    #[tactic(auto, using(crate::proofs::DoneLemmas::behind_steps))]
    pub fn new(alloc: Global) -> Slots
        ensures { result ≡ [] }
    {
        Slots {
            gone: 0,
            slots: VecDeque::new(alloc),
        }
    }

    #[tactic(auto, using(crate::proofs::DoneLemmas::behind_steps))]
    pub fn len(&self) -> usize
        ensures { result ≡ length self.now }
    {
        self.gone + self.slots.len()
    }

    /// The slot of the node `n`, where that is pending.
    #[tactic(auto, using(crate::proofs::DoneLemmas::behind_steps))]
    fn pending(&self, n: u32) -> Option<&Slot>
        ensures { option_copied result ≡ pending self.now n }
    {
        let n = n as usize;
        if n < self.gone {
            return None;
        }
        slot_at(&self.slots, n - self.gone)
    }

    /// Whether the node is pending and no edge leads to it.
    pub fn is_idle(&self, n: u32) -> bool
        ensures { result ≡ idle (pending self.now n) }
    {
        match self.pending(n) {
            Some(slot) => slot.waits == 0,
            None => false,
        }
    }

    /// Whether the node `m` is pending and comes before `y`.
    #[tactic(auto, unfolding(crate::specs::Slots::holds_at))]
    fn holds(&self, y: &Node, m: u32) -> bool
        ensures { result ≡ holds_at self.now y.now m }
    {
        match self.pending(m) {
            Some(slot) => before(&slot.node, m, y),
            None => false,
        }
    }

    /// The node `n`, where it is pending.
    pub fn node(&self, n: u32) -> Option<&Node>
        ensures { option_copied result ≡ node_of (pending self.now n) }
    {
        match self.pending(n) {
            Some(slot) => Some(&slot.node),
            None => None,
        }
    }

    /// Whether the node `m` is done, or `y` covers each of its needs on the root.
    #[tactic(auto, unfolding(crate::specs::Slots::superseded_at))]
    pub fn superseded(&self, m: u32, root: u32, y: &Node) -> bool
        ensures { result ≡ superseded_at self.now m root y.now }
    {
        match self.pending(m) {
            Some(slot) => superseded(&slot.node, root, y),
            None => true,
        }
    }

    /// Adds those of the numbers whose nodes are pending and come before `y`.
    pub fn gather(&self, y: &Node, from: &[u32], into: &mut Vec<u32>) -> Result<(), AllocError>
        ensures { OnOk result (into.new.items ≡ into.old.items ++ filter (holds_at self.now y.now) from.now) }
    {
        for m in from {
            if self.holds(y, *m) {
                into.push(*m)?;
            }
        }
        Ok(())
    }

    /// The same for numbers in two parts.
    pub fn gather_both(
        &self,
        y: &Node,
        from: (&[u32], &[u32]),
        into: &mut Vec<u32>,
    ) -> Result<(), AllocError>
        ensures { OnOk result (into.new.items ≡ into.old.items ++ filter (holds_at self.now y.now) (from.entry.0.now ++ from.entry.1.now)) }
    {
        self.gather(y, from.0, into)?;
        self.gather(y, from.1, into)
    }

    /// Adds a pending node and an edge to it from each of the nodes; for want of memory hands it
    /// back.
    pub fn append(&mut self, slot: Slot, ms: &[u32]) -> Result<(), Slot>
        requires { length self.old < 2 ^ 32 }
        ensures ok { OnOk result (self.new ≡ linked self.old (length self.old) ms.now ++ Some slot ∷ []) }
        ensures back { IfErr result (λ given. given ≡ slot) }
        ensures err { OnErr result (self.new ≡ self.old) }
    {
        let number = self.len() as u32;
        let Ok(()) = self.link_all(ms, number) else {
            return Err(slot);
        };
        match self.push(slot) {
            Ok(()) => Ok(()),
            Err(slot) => {
                self.unlink_all(ms);
                Err(slot)
            }
        }
    }

    /// Adds a pending node; for want of memory hands it back.
    #[tactic(auto, using(crate::proofs::DoneLemmas::behind_steps))]
    fn push(&mut self, slot: Slot) -> Result<(), Slot>
        requires { length self.old < 2 ^ 32 }
        ensures ok { OnOk result (self.new ≡ self.old ++ Some slot ∷ []) }
        ensures back { IfErr result (λ given. given ≡ slot) }
        ensures err { OnErr result (self.new ≡ self.old) }
    {
        match self.slots.push_back(Some(slot)) {
            Ok(()) => Ok(()),
            Err(failed) => Err(failed.value.unwrap()),
        }
    }

    /// Takes a node that is done.
    #[tactic(auto, using(crate::proofs::DoneLemmas::behind_steps))]
    pub fn take(&mut self, n: u32) -> Option<Slot>
        requires { n < length self.old }
        ensures taken { slice_get self.old n ≡ Some result }
        ensures left { self.new ≡ slice_set self.old n None }
    {
        let n = n as usize;
        if n < self.gone {
            return None;
        }
        let taken = take_at(&mut self.slots, n - self.gone);
        self.gone += drop_done(&mut self.slots);
        taken
    }

    /// Adds an edge from `m` to `n`.
    #[tactic(auto, using(crate::proofs::DoneLemmas::behind_steps))]
    fn link(&mut self, m: u32, n: u32) -> Result<(), AllocError>
        ensures ok { OnOk result (self.new ≡ changed (with_successor n) self.old m) }
        ensures err { OnErr result (self.new ≡ self.old) }
    {
        let m = m as usize;
        if m < self.gone {
            return Ok(());
        }
        link_at(&mut self.slots, m - self.gone, n)
    }

    /// Takes back the last edge from `m`.
    #[tactic(auto, using(crate::proofs::DoneLemmas::behind_steps))]
    fn unlink(&mut self, m: u32)
        ensures { self.new ≡ changed without_last self.old m }
    {
        let m = m as usize;
        if self.gone <= m {
            unlink_at(&mut self.slots, m - self.gone);
        }
    }

    /// Adds an edge from each of the nodes to `n`.
    #[tactic(auto, using(crate::proofs::SlotLemmas::link_steps))]
    fn link_all(&mut self, ms: &[u32], n: u32) -> Result<(), AllocError>
        ensures ok { OnOk result (self.new ≡ linked self.old n ms.now) }
        ensures err { OnErr result (self.new ≡ self.old) }
    {
        for (i, m) in ms.iter().enumerate() {
            match self.link(*m, n) {
                Ok(()) => {}
                Err(failed) => {
                    self.unlink_all(&ms[..i]);
                    return Err(failed);
                }
            }
        }
        Ok(())
    }

    /// Takes back the last edge from each of the nodes, the last node first.
    #[tactic(auto, using(crate::proofs::SlotLemmas::unlink_steps))]
    fn unlink_all(&mut self, ms: &[u32])
        ensures { self.new ≡ unlinked self.old (reverse ms.now) }
    {
        for m in ms.iter().rev() {
            self.unlink(*m);
        }
    }

    /// Tells a node that one of those it waits for is done.
    #[tactic(auto, using(crate::proofs::DoneLemmas::behind_steps))]
    fn tell(&mut self, m: u32)
        ensures { self.new ≡ changed with_fewer self.old m }
    {
        let m = m as usize;
        if self.gone <= m {
            tell_at(&mut self.slots, m - self.gone);
        }
    }

    /// Tells each of the nodes that one of those it waits for is done.
    #[tactic(auto, using(crate::proofs::SlotLemmas::tell_steps))]
    pub fn tell_all(&mut self, ms: &[u32])
        ensures { self.new ≡ told self.old ms.now }
    {
        for m in ms {
            self.tell(*m);
        }
    }
}

#[tactic(auto, using(crate::proofs::DoneLemmas::slot_steps))]
fn slot_at(slots: &VecDeque<Option<Slot>>, i: usize) -> Option<&Slot>
    ensures { option_copied result ≡ unwrap_or (slice_get slots.now.items i) None }
{
    if i < slots.len() {
        slots[i].as_ref()
    } else {
        None
    }
}

#[tactic(auto, using(crate::proofs::SlotLemmas::change_steps))]
fn link_at(slots: &mut VecDeque<Option<Slot>>, i: usize, n: u32) -> Result<(), AllocError>
    ensures ok { OnOk result (slots.new.items ≡ changed (with_successor n) slots.old.items i) }
    ensures err { OnErr result (slots.new.items ≡ slots.old.items) }
{
    if i >= slots.len() {
        return Ok(());
    }
    link_slot(&mut slots[i], n)
}

#[tactic(auto, using(crate::proofs::SlotLemmas::change_steps))]
fn unlink_at(slots: &mut VecDeque<Option<Slot>>, i: usize)
    ensures { slots.new.items ≡ changed without_last slots.old.items i }
{
    if i < slots.len() {
        unlink_slot(&mut slots[i]);
    }
}

#[tactic(auto, using(crate::proofs::SlotLemmas::change_steps))]
fn tell_at(slots: &mut VecDeque<Option<Slot>>, i: usize)
    ensures { slots.new.items ≡ changed with_fewer slots.old.items i }
{
    if i < slots.len() {
        tell_slot(&mut slots[i]);
    }
}

fn take_at(slots: &mut VecDeque<Option<Slot>>, i: usize) -> Option<Slot>
    requires { i < length slots.old.items }
    ensures taken { slice_get slots.old.items i ≡ Some result }
    ensures left { slots.new.items ≡ slice_set slots.old.items i None }
{
    slots[i].take()
}

/// Drops the first slots, as far as their nodes are done, and answers how many they were.
fn drop_done(slots: &mut VecDeque<Option<Slot>>) -> usize
    requires { length slots.old.items ≤ 2 ^ 32 }
    ensures { behind result slots.new.items ≡ slots.old.items }
{
    let mut dropped = 0;
    while let Some(None) = slots.front() {
        slots.pop_front();
        dropped += 1;
    }
    dropped
}

fn link_slot(slot: &mut Option<Slot>, n: u32) -> Result<(), AllocError>
    ensures ok { OnOk result (slot.new ≡ option_map (with_successor n) slot.old) }
    ensures err { OnErr result (slot.new ≡ slot.old) }
{
    match slot {
        Some(slot) => slot.next.push(n),
        None => Ok(()),
    }
}

fn unlink_slot(slot: &mut Option<Slot>)
    ensures { slot.new ≡ option_map without_last slot.old }
{
    if let Some(slot) = slot {
        slot.next.pop();
    }
}

fn tell_slot(slot: &mut Option<Slot>)
    ensures { slot.new ≡ option_map with_fewer slot.old }
{
    if let Some(slot) = slot {
        slot.waits = slot.waits.saturating_sub(1);
    }
}
