// What a caller asks to keep the conditions of the calls.

ghost use Rattle.std.specs.Prelude.{◌≡◌, ◌-◌, ◌^◌, ◌<◌, ◌≤◌, false, length, IsTrue};
ghost use Rattle.sy_copies.specs.Current.{len_at, has_room};
ghost use Rattle.sy_copies.specs.Calls.{MayPublish, MayRenew};

use super::Copies;
use crate::needs::replaces;
use sy_access::Need;

impl Copies {
    /// Whether one more buffer may be made.
    pub fn may_make(&self) -> bool
        ensures may { IsTrue result → length self.now < 2 ^ 32 - 1 }
        ensures full { result ≡ false → 2 ^ 32 - 1 ≤ length self.now }
    {
        self.buffers.len() < 0xffff_ffff
    }

    /// How many elements the buffer has, if it is there.
    pub fn len(&self, buffer: u32) -> Option<u64>
        ensures { result ≡ len_at self.now buffer }
    {
        let number = buffer as usize;
        if number >= self.buffers.len() {
            return None;
        }
        match &self.buffers[number] {
            Some(kept) => Some(kept.len),
            None => None,
        }
    }

    /// Whether the place has room for the buffer.
    pub fn has_room(&self, place: u32, buffer: u32) -> bool
        ensures { result ≡ has_room self.now place buffer }
    {
        let number = buffer as usize;
        if number >= self.buffers.len() {
            return false;
        }
        match &self.buffers[number] {
            Some(kept) => kept.slots.has(place),
            None => false,
        }
    }

    /// Whether a command with these needs may be published at the place.
    pub fn may_publish(&self, place: u32, needs: &[Need]) -> bool
        ensures may { IsTrue result → MayPublish self.now place needs.now }
        ensures may_not { result ≡ false → MayPublish self.now place needs.now → ⊥ }
    {
        for need in needs {
            if need.mode.writes() && !self.may_renew(place, need.buffer, needs) {
                return false;
            }
        }
        true
    }

    /// Whether the root has room at the place, and is current there if its numbers are needed.
    fn may_renew(&self, place: u32, root: u32, needs: &[Need]) -> bool
        ensures may { IsTrue result → MayRenew self.now place needs.now root }
        ensures may_not { result ≡ false → MayRenew self.now place needs.now root → ⊥ }
    {
        match self.len(root) {
            Some(len) => self.has_room(place, root)
                && (replaces(needs, root, len) || self.view(place, root).is_some()),
            None => false,
        }
    }
}
