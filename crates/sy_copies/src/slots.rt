// The cells that places have of their own of one buffer.

ghost use Rattle.std.specs.Prelude.{◌≡◌, ℕ, ◌<◌, [], length, map, false, Some, None, OnOk, OnErr, IfErr, MatchOption};
ghost use Rattle.sy_copies.specs.Slots.{slot_at, has_slot, with_slot, IsSlotOf, renewed_slot, slot_after};

use crate::cells::renew;
use crate::written::Written;
use std::alloc::Global;
use std::marker::Model;
use std::mem;
use sy_access::{Need, Values};

/// The cells that a place has of its own, and whether they have the buffer's current numbers.
#[derive(Drop)]
pub struct Slot {
    pub place: u32,
    pub current: bool,
    pub values: Values,
}

impl Slot {
    /// Makes the numbers those that a command with these needs and this log leaves of the root; with
    /// `replaced` it has no use for the former ones.
    fn renew(&mut self, alloc: Global, replaced: bool, root: u32, needs: &[Need], log: &Written)
        ensures { self.new ≡ renewed_slot replaced needs.now log.now root self.old }
    {
        let from_zeros = replaced || !self.current;
        let empty = Values::of(Vec::new(alloc));
        let mut cells = mem::replace(&mut self.values, empty).into_items();
        renew(cells.as_mut_slice(), from_zeros, root, needs, log);
        self.values = Values::of(cells);
        self.current = true;
    }
}

/// The slots of a buffer, one for each place that has cells of its own.
#[derive(Drop)]
pub struct Slots {
    slots: Vec<Slot>,
}

impl Model for Slots {
    ghost use Rattle.std.specs.Prelude.{List};
    ghost use Rattle.sy_copies.specs.declared.slots.Slot.{Slot};

    ghost Value = { List Slot };

    ghost view = { λ s. s.slots.items };
}

impl Slots {
    pub fn new(alloc: Global) -> Slots
        ensures { result ≡ [] }
    {
        Slots {
            slots: Vec::new(alloc),
        }
    }

    /// The slot of the place.
    pub fn get(&self, place: u32) -> Option<&Slot>
        ensures { MatchOption result (slot_at self.now place ≡ None) (λ s. slot_at self.now place ≡ Some s.now) }
    {
        for slot in self.slots.as_slice() {
            if slot.place == place {
                return Some(slot);
            }
        }
        None
    }

    /// Where the place's slot stands.
    fn find(&self, place: u32) -> Option<usize>
        ensures { MatchOption result (slot_at self.now place ≡ None) (λ k. IsSlotOf self.now place k) }
    {
        for (k, slot) in self.slots.as_slice().iter().enumerate() {
            if slot.place == place {
                return Some(k);
            }
        }
        None
    }

    /// Whether the place has a slot.
    pub fn has(&self, place: u32) -> bool
        ensures { result ≡ has_slot self.now place }
    {
        match self.get(place) {
            Some(_) => true,
            None => false,
        }
    }

    /// Makes this the slot of its place; for want of memory hands it back, which it does only where
    /// the place had none.
    pub fn put(&mut self, slot: Slot) -> Result<(), Slot>
        ensures ok { OnOk result (self.new ≡ with_slot slot.place slot self.old) }
        ensures back { IfErr result (λ given. given ≡ slot) }
        ensures err { OnErr result (self.new ≡ self.old) }
        ensures room { OnErr result (has_slot self.old slot.place ≡ false) }
    {
        match self.find(slot.place) {
            Some(k) => {
                let _former = mem::replace(&mut self.slots[k], slot);
                Ok(())
            }
            None => match self.slots.push(slot) {
                Ok(()) => Ok(()),
                Err(failed) => Err(failed.value),
            },
        }
    }

    /// Makes the numbers at the place those that the command leaves of the root, and all others stale.
    pub fn publish(
        &mut self,
        alloc: Global,
        place: u32,
        replaced: bool,
        root: u32,
        needs: &[Need],
        log: &Written,
    )
        ensures { self.new ≡ map (slot_after place replaced needs.now log.now root) self.old }
    {
        publish_all(
            self.slots.as_mut_slice(),
            alloc,
            place,
            replaced,
            root,
            needs,
            log,
        );
    }
}

/// Makes the slot of the place current and all others stale.
fn publish_all(
    slots: &mut [Slot],
    alloc: Global,
    place: u32,
    replaced: bool,
    root: u32,
    needs: &[Need],
    log: &Written,
)
    ensures { slots.new ≡ map (slot_after place replaced needs.now log.now root) slots.old }
{
    for slot in slots.iter_mut() {
        if slot.place == place {
            slot.renew(alloc, replaced, root, needs, log);
        } else {
            slot.current = false;
        }
    }
}
