// A source and a sink in memory.
ghost use Rattle.std.specs.Prelude.{◌≡◌, ◌<◌, ◌↔◌, [], ◌++◌, ◌⊎◌, length, take, drop, IfOk, OnErr, IsErr, Some};
ghost use Rattle.std.specs.Io.{ReadsAtMost, WritesAtMost};
ghost use Rattle.std.specs.Io.KnownBytes.{ReadConsumes, WriteAppends};
ghost use Rattle.sy_io.specs.Faults.{HasCause};
ghost use Rattle.sy_io.specs.Calls.{NameSameCalls, NextIsListed};
ghost use Rattle.sy_io.specs.Memory.{given_count, feed_after, taken_count, HasNoRoomFor, store_after};

use crate::calls::CallLog;
use crate::{Failed, Sink, Source};
use std::alloc::{AllocError, Global};
use std::marker::Model;

/// A source over bytes in memory, whose calls fail on demand.
#[derive(Drop)]
pub struct MemSource {
    bytes: Vec<u8>,
    at: usize,
    piece: usize,
    calls: CallLog,
}

impl Model for MemSource {
    ghost use Rattle.std.specs.Prelude.{◌<◌, ◌≤◌, drop, vec_len};
    ghost use Rattle.sy_io.specs.Memory.{Feed};

    ghost Value = { Feed };

    ghost view = { λ s. record { left = drop s.at s.bytes.items; piece = s.piece; calls = s.calls } };

    ghost invariant = { λ s. (0 < s.piece) × (s.at ≤ vec_len s.bytes) };
}

impl MemSource {
    /// Gives at most `piece` of the bytes in each call, and fails the calls whose numbers, from 1,
    /// are in `fails`.
    pub fn new(bytes: Vec<u8>, piece: usize, fails: Vec<u64>) -> MemSource
        requires { 0 < piece }
        ensures left { result.left ≡ bytes.items }
        ensures piece { result.piece ≡ piece }
        ensures fails { NameSameCalls result.calls.failing fails.items }
        ensures made { result.calls.made ≡ 0 }
        ensures faults { result.calls.faults ≡ 0 }
    {
        MemSource {
            bytes,
            at: 0,
            piece,
            calls: CallLog::new(fails),
        }
    }

    /// The count of faults.
    pub fn faults(&self) -> u64
        ensures { result ≡ self.now.calls.faults }
    {
        self.calls.faults()
    }
}

impl Source for MemSource {
    ghost left = { λ s. Some s.left };

    ghost faults = { λ s. s.calls.faults };

    fn read(&mut self, into: &mut [u8]) -> Result<usize, Failed>
        ensures bound { ReadsAtMost result into.new }
        ensures bytes { ReadConsumes (Some self.old.left) (Some self.new.left) result into.new }
        ensures cause { HasCause self.old.calls.faults self.new.calls.faults result }
        ensures fails { IsErr result ↔ NextIsListed self.old.calls }
        ensures count { IfOk result (λ n. n ≡ given_count self.old (length into.old)) }
        ensures given { IfOk result (λ n. into.new ≡ take n self.old.left ++ drop n into.old) }
        ensures kept { OnErr result (into.new ≡ into.old) }
        ensures after { self.new ≡ feed_after self.old result }
    {
        if self.calls.next_fails() {
            return Err(self.calls.count_fault());
        }
        let left = &self.bytes[self.at..];
        let count = self.piece.min(into.len()).min(left.len());
        into[..count].copy_from_slice(&left[..count]);
        self.at += count;
        Ok(count)
    }
}

/// A sink into memory that has room for so many bytes, and whose calls fail on demand.
#[derive(Drop)]
pub struct MemSink {
    taken: Vec<u8>,
    room: usize,
    piece: usize,
    calls: CallLog,
}

impl Model for MemSink {
    ghost use Rattle.std.specs.Prelude.{◌+◌, ◌<◌, ◌≤◌, vec_len, vec_capacity};
    ghost use Rattle.sy_io.specs.Memory.{Store};

    ghost Value = { Store };

    ghost view = { λ s. record { taken = s.taken.items; room = s.room; piece = s.piece; calls = s.calls } };

    ghost invariant = { λ s. (0 < s.piece) × (vec_len s.taken + s.room ≤ vec_capacity s.taken) };
}

impl MemSink {
    /// Takes at most `piece` bytes in each call and `room` bytes in all, and fails the calls whose
    /// numbers, from 1, are in `fails`.
    pub fn new(
        alloc: Global,
        room: usize,
        piece: usize,
        fails: Vec<u64>,
    ) -> Result<MemSink, AllocError>
        requires { 0 < piece }
        ensures taken { IfOk result (λ sink. sink.taken ≡ []) }
        ensures room { IfOk result (λ sink. sink.room ≡ room) }
        ensures piece { IfOk result (λ sink. sink.piece ≡ piece) }
        ensures fails { IfOk result (λ sink. NameSameCalls sink.calls.failing fails.items) }
        ensures made { IfOk result (λ sink. sink.calls.made ≡ 0) }
        ensures faults { IfOk result (λ sink. sink.calls.faults ≡ 0) }
    {
        Ok(MemSink {
            taken: Vec::with_capacity(alloc, room)?,
            room,
            piece,
            calls: CallLog::new(fails),
        })
    }

    /// The bytes taken so far.
    pub fn taken(&self) -> &[u8]
        ensures { result.now ≡ self.now.taken }
    {
        self.taken.as_slice()
    }

    /// The count of faults.
    pub fn faults(&self) -> u64
        ensures { result ≡ self.now.calls.faults }
    {
        self.calls.faults()
    }
}

impl Sink for MemSink {
    ghost taken = { λ s. Some s.taken };

    ghost faults = { λ s. s.calls.faults };

    fn write(&mut self, piece: &[u8]) -> Result<usize, Failed>
        ensures bound { WritesAtMost result piece.now }
        ensures progress { IfOk result (λ n. 0 < length piece.now → 0 < n) }
        ensures bytes { WriteAppends (Some self.old.taken) (Some self.new.taken) result piece.now }
        ensures cause { HasCause self.old.calls.faults self.new.calls.faults result }
        ensures fails { IsErr result ↔ (NextIsListed self.old.calls ⊎ HasNoRoomFor self.old piece.now) }
        ensures count { IfOk result (λ n. n ≡ taken_count self.old (length piece.now)) }
        ensures after { self.new ≡ store_after self.old piece.now result }
    {
        let is_listed = self.calls.next_fails();
        if is_listed || (self.room == 0 && !piece.is_empty()) {
            return Err(self.calls.count_fault());
        }
        let count = self.piece.min(piece.len()).min(self.room);
        self.taken.extend_from_slice(&piece[..count]).unwrap();
        self.room -= count;
        Ok(count)
    }
}
