// The copies of all buffers of a run.

ghost use Rattle.std.specs.Prelude.{◌≡◌, ◌+◌, ◌-◌, ◌^◌, ◌<◌, ℕ, [], ◌∷◌, List, ℤ, length, Some, None, IsTrue, IfSome, IfOk, IfErr, OnOk, OnErr, IsOk, IsSome, MatchOption};
ghost use Rattle.sy_needs.specs.Each.{each_from};
ghost use Rattle.sy_work.specs.Moves.{writes_from};
ghost use Rattle.sy_copies.specs.Current.{copy_at, len_at, has_room, Agree, publish_at, publish_one};
ghost use Rattle.sy_copies.specs.Calls.{Makes, Installs, Reserves, MayPublish, Publishes, Drops};

use crate::buffer::{Buffer, drop_in, install_in, publish_in, reserve_in};
use crate::needs::renews;
use crate::written::Written;
use std::alloc::{AllocError, Global};
use std::marker::Model;
use sy_access::{Log, Need, Needs, Values};

mod conditions;

/// For each place the current copies of the buffers that were made. Buffers are numbered from 0.
///
/// All current copies of a buffer are equal as long as each copy that is installed equals the others.
#[derive(Drop)]
pub struct Copies {
    alloc: Global,
    buffers: Vec<Option<Buffer>>,
}

impl Model for Copies {
    ghost use Rattle.std.specs.Prelude.{List, Option};
    ghost use Rattle.sy_copies.specs.declared.buffer.Buffer.{Buffer};
    ghost use Rattle.sy_copies.specs.Current.{Sound};

    ghost Value = { List (Option Buffer) };

    ghost view = { λ s. s.buffers.items };

    ghost invariant = { λ s. Sound s.buffers.items };
}

impl Copies {
    /// No buffers yet, which takes no memory.
    pub fn new(alloc: Global) -> Copies
        ensures none { result ≡ [] }
        ensures agree { Agree result }
    {
        Copies {
            alloc,
            buffers: Vec::new(alloc),
        }
    }

    /// Makes a buffer of `len` elements and answers its number: with these numbers at the host, or
    /// else with zeros everywhere.
    pub fn make(&mut self, len: u64, init: Option<Values>) -> Result<u32, AllocError>
        requires room { length self.old < 2 ^ 32 - 1 }
        requires fits { IfSome init (λ v. length v ≡ len) }
        ensures made { IfOk result (λ n. Makes self.old self.new len init n) }
        ensures unchanged { OnErr result (self.new ≡ self.old) }
        ensures agree { Agree self.old → Agree self.new }
    {
        let number = self.buffers.len() as u32;
        let buffer = Buffer::new(self.alloc, len, init)?;
        self.buffers.push(Some(buffer))?;
        Ok(number)
    }

    /// Makes these numbers current at the place; for want of memory hands them back. Where room was
    /// reserved it takes none.
    pub fn install(&mut self, place: u32, buffer: u32, values: Values) -> Result<(), Values>
        requires { len_at self.old buffer ≡ Some (length values) }
        ensures installed { OnOk result (Installs self.old self.new place buffer values) }
        ensures back { IfErr result (λ given. given ≡ values) }
        ensures unchanged { OnErr result (self.new ≡ self.old) }
        ensures room { IsTrue (has_room self.old place buffer) → IsOk result }
        ensures agree { Agree self.old → ((p : ℕ) (v : List ℤ) → copy_at self.old p buffer ≡ Some v → v ≡ values) → Agree self.new }
    {
        install_in(&mut self.buffers[buffer as usize], place, values)
    }

    /// Takes room for a copy of the buffer at the place, if it has none.
    pub fn reserve(&mut self, place: u32, buffer: u32) -> Result<(), AllocError>
        requires { IsSome (len_at self.old buffer) }
        ensures reserved { OnOk result (Reserves self.old self.new place buffer) }
        ensures unchanged { OnErr result (self.new ≡ self.old) }
        ensures agree { Agree self.old → Agree self.new }
    {
        let alloc = self.alloc;
        reserve_in(&mut self.buffers[buffer as usize], alloc, place)
    }

    /// Makes the version that a command at the place leaves of each root on which one of its needs
    /// writes, the only current one. It takes no memory.
    pub fn publish(&mut self, place: u32, needs: &Needs, log: &Log)
        requires { MayPublish self.old place needs.now }
        ensures published { Publishes self.old self.new place needs.now log.now }
        ensures agree { Agree self.old → Agree self.new }
    {
        let alloc = self.alloc;
        publish_all(
            self.buffers.as_mut_slice(),
            alloc,
            place,
            needs.items(),
            &Written::by_log(log),
        );
    }

    /// Puts the numbers of a host access of this need back, as `publish` does for a command whose log
    /// names each element of the need with its number. It takes no memory.
    pub fn put_back(&mut self, place: u32, need: &Need, values: &[i128])
        requires may { MayPublish self.old place (need.now ∷ []) }
        requires count { need.now.from + length values.now ≡ need.now.to }
        ensures put { Publishes self.old self.new place (need.now ∷ []) (writes_from need.now.buffer need.now.from values.now) }
        ensures agree { Agree self.old → Agree self.new }
    {
        let alloc = self.alloc;
        let needs = [*need];
        publish_all(
            self.buffers.as_mut_slice(),
            alloc,
            place,
            &needs,
            &Written::by_run(need.buffer, need.from, need.to, values),
        );
    }

    /// The current copy of the buffer at the place.
    pub fn view(&self, place: u32, buffer: u32) -> Option<&Values>
        ensures { MatchOption result (copy_at self.now place buffer ≡ None) (λ v. copy_at self.now place buffer ≡ Some v.now) }
    {
        let number = buffer as usize;
        if number >= self.buffers.len() {
            return None;
        }
        match &self.buffers[number] {
            Some(kept) => kept.view(place),
            None => None,
        }
    }

    /// Ends all copies of the buffer and the room that was reserved for it.
    pub fn drop_buffer(&mut self, buffer: u32)
        ensures dropped { Drops self.old self.new buffer }
        ensures agree { Agree self.old → Agree self.new }
    {
        let number = buffer as usize;
        if number < self.buffers.len() {
            drop_in(&mut self.buffers[number]);
        }
    }
}

/// Publishes each root on which a need writes, once.
fn publish_all(
    buffers: &mut [Option<Buffer>],
    alloc: Global,
    place: u32,
    needs: &[Need],
    log: &Written,
)
    ensures { buffers.new ≡ each_from (publish_at place needs.now log.now needs.now) 0 buffers.old }
{
    for k in 0..needs.len() {
        let root = needs[k].buffer;
        if needs[k].mode.writes() && !renews(&needs[..k], root) {
            publish_root(buffers, alloc, place, root, needs, log);
        }
    }
}

/// Publishes one root, if it is there.
fn publish_root(
    buffers: &mut [Option<Buffer>],
    alloc: Global,
    place: u32,
    root: u32,
    needs: &[Need],
    log: &Written,
)
    ensures { buffers.new ≡ each_from (publish_one place needs.now log.now root) 0 buffers.old }
{
    let number = root as usize;
    if number < buffers.len() {
        publish_in(&mut buffers[number], alloc, place, root, needs, log);
    }
}
