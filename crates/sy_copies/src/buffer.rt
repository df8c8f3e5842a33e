// What is kept of one buffer.

ghost use Rattle.std.specs.Prelude.{◌≡◌, Some, None, OnOk, OnErr, IfOk, IfErr, MatchOption, pos, replicate, false, option_map};
ghost use Rattle.sy_copies.specs.Slots.{has_slot};
ghost use Rattle.sy_copies.specs.Current.{room_of};
ghost use Rattle.sy_copies.specs.Places.{copy_in, first, installed, reserved, published};

use crate::needs::replaces;
use crate::slots::{Slot, Slots};
use crate::written::Written;
use std::alloc::{AllocError, Global};
use sy_access::{Need, Values};

/// A buffer that was made and not dropped.
///
/// Until its first version is made, a buffer from a range has zeros at each place that has no current
/// cells of its own.
#[derive(Drop)]
pub struct Buffer {
    pub len: u64,
    pub zeros: Option<Values>,
    pub slots: Slots,
}

impl Buffer {
    /// A buffer with these numbers at the host, or else with zeros everywhere.
    pub fn new(alloc: Global, len: u64, init: Option<Values>) -> Result<Buffer, AllocError>
        ensures { IfOk result (λ x. x ≡ first len init) }
    {
        let slots = Slots::new(alloc);
        match init {
            None => {
                let zeros = Some(zeros(alloc, len)?);
                Ok(Buffer { len, zeros, slots })
            }
            Some(values) => {
                let zeros = None;
                let mut buffer = Buffer { len, zeros, slots };
                match buffer.install(0, values) {
                    Ok(()) => Ok(buffer),
                    Err(_) => Err(AllocError),
                }
            }
        }
    }

    /// The current numbers at the place.
    pub fn view(&self, place: u32) -> Option<&Values>
        ensures { MatchOption result (copy_in self.now place ≡ None) (λ v. copy_in self.now place ≡ Some v.now) }
    {
        match self.slots.get(place) {
            Some(slot) if slot.current => Some(&slot.values),
            Some(_) => self.zeros.as_ref(),
            None => self.zeros.as_ref(),
        }
    }

    /// Makes these numbers the place's; for want of memory hands them back.
    pub fn install(&mut self, place: u32, values: Values) -> Result<(), Values>
        ensures ok { OnOk result (self.new ≡ installed place values self.old) }
        ensures back { IfErr result (λ given. given ≡ values) }
        ensures err { OnErr result (self.new ≡ self.old) }
        ensures room { OnErr result (has_slot self.old.slots place ≡ false) }
    {
        let slot = Slot {
            place,
            current: true,
            values,
        };
        match self.slots.put(slot) {
            Ok(()) => Ok(()),
            Err(slot) => Err(slot.values),
        }
    }

    /// Takes cells for the place, if it has none.
    pub fn reserve(&mut self, alloc: Global, place: u32) -> Result<(), AllocError>
        ensures ok { OnOk result (self.new ≡ reserved place self.old) }
        ensures err { OnErr result (self.new ≡ self.old) }
    {
        if self.slots.has(place) {
            return Ok(());
        }
        let slot = Slot {
            place,
            current: false,
            values: zeros(alloc, self.len)?,
        };
        match self.slots.put(slot) {
            Ok(()) => Ok(()),
            Err(_) => Err(AllocError),
        }
    }

    /// Makes the version that a command with these needs and this log leaves at the place.
    pub fn publish(&mut self, alloc: Global, place: u32, root: u32, needs: &[Need], log: &Written)
        ensures { self.new ≡ published place needs.now log.now root self.old }
    {
        let replaced = replaces(needs, root, self.len);
        self.slots.publish(alloc, place, replaced, root, needs, log);
        self.zeros = None;
    }
}

/// So many zeros.
fn zeros(alloc: Global, len: u64) -> Result<Values, AllocError>
    ensures { IfOk result (λ v. v ≡ replicate len (pos 0)) }
{
    Ok(Values::of(vec![in alloc; 0; len as usize]?))
}

/// Makes these numbers the place's, as [`Buffer::install`] does.
pub fn install_in(entry: &mut Option<Buffer>, place: u32, values: Values) -> Result<(), Values>
    ensures ok { OnOk result (entry.new ≡ option_map (installed place values) entry.old) }
    ensures back { IfErr result (λ given. given ≡ values) }
    ensures err { OnErr result (entry.new ≡ entry.old) }
    ensures room { OnErr result (room_of entry.old place ≡ false) }
{
    match entry {
        Some(buffer) => buffer.install(place, values),
        None => Err(values),
    }
}

/// Takes cells for the place, as [`Buffer::reserve`] does.
pub fn reserve_in(entry: &mut Option<Buffer>, alloc: Global, place: u32) -> Result<(), AllocError>
    ensures ok { OnOk result (entry.new ≡ option_map (reserved place) entry.old) }
    ensures err { OnErr result (entry.new ≡ entry.old) }
{
    match entry {
        Some(buffer) => buffer.reserve(alloc, place),
        None => Ok(()),
    }
}

/// Makes the version that a command leaves at the place, as [`Buffer::publish`] does.
pub fn publish_in(
    entry: &mut Option<Buffer>,
    alloc: Global,
    place: u32,
    root: u32,
    needs: &[Need],
    log: &Written,
)
    ensures { entry.new ≡ option_map (published place needs.now log.now root) entry.old }
{
    match entry {
        Some(buffer) => buffer.publish(alloc, place, root, needs, log),
        None => {}
    }
}

/// Ends the buffer.
pub fn drop_in(entry: &mut Option<Buffer>)
    ensures { entry.new ≡ None }
{
    *entry = None;
}
