//! Sources and sinks of bytes, and reading and writing them whole.
//!
//! A `Source` gives bytes and a `Sink` takes them. Each counts its faults, and fails only where it
//! counts one, so code that is generic over them can't invent a fault. `MemSource` and `MemSink`
//! are in memory and fail on demand; `StdSource` and `StdSink` stand over std's readers and writers.
#![tactic(auto)]

ghost use Rattle.std.specs.Prelude.{◌≡◌, ℕ, ◌<◌, ◌≤◌, List, Option, [], length, IfOk, IfSome, IfErr, OnOk, OnErr, MatchResult, take, vec_len};
ghost use Rattle.std.specs.Io.{ReadsAtMost, WritesAtMost};
ghost use Rattle.std.specs.Io.KnownBytes.{Appends, Consumes, IsAtEnd, Keeps, ReadConsumes, WriteAppends};
ghost use Rattle.sy_io.specs.Faults.{HasCause};
ghost use Rattle.sy_io.specs.Known.{AppendsFront};
ghost use Rattle.sy_io.specs.ReadStop.{ConsumesUntil, StopHasCause, FitsLength};

mod calls;
mod memory;
mod standard;

pub use memory::{MemSink, MemSource};
pub use standard::{StdSink, StdSource};
use std::alloc::{AllocError, Global};
use thiserror::Error;

/// A call of a source or a sink failed, and counted a fault.
#[derive(Clone, Copy, Debug, PartialEq, Eq, Error)]
#[error("the call met a fault")]
pub struct Failed;

/// Where bytes come from.
pub trait Source {
    // The bytes left, where the source tells them.
    ghost left: { Self → Option (List ℕ) };

    // How many faults were counted.
    ghost faults: { Self → ℕ };

    /// Gives the next bytes at the front of `into`, and answers how many. It gives none of a
    /// nonempty `into` only at the end, and takes nothing where it fails.
    fn read(&mut self, into: &mut [u8]) -> Result<usize, Failed>
        ensures bound { ReadsAtMost result into.new }
        ensures bytes { ReadConsumes (left self.old) (left self.new) result into.new }
        ensures cause { HasCause (faults self.old) (faults self.new) result };
}

/// Where bytes go.
pub trait Sink {
    // The bytes taken, where the sink tells them.
    ghost taken: { Self → Option (List ℕ) };

    // How many faults were counted.
    ghost faults: { Self → ℕ };

    /// Takes bytes from the front of `piece`, at least one where there is one, and answers how
    /// many. It takes nothing where it fails.
    fn write(&mut self, piece: &[u8]) -> Result<usize, Failed>
        ensures bound { WritesAtMost result piece.now }
        ensures progress { IfOk result (λ n. 0 < length piece.now → 0 < n) }
        ensures bytes { WriteAppends (taken self.old) (taken self.new) result piece.now }
        ensures cause { HasCause (faults self.old) (faults self.new) result };
}

/// What stopped the reading of a whole source.
#[derive(Clone, Copy, Debug, PartialEq, Eq, Error)]
pub enum ReadStop {
    #[error("more bytes than the limit")]
    TooLong,
    #[error("a read met a fault")]
    Fault,
    #[error("out of memory")]
    Memory,
}

impl From<Failed> for ReadStop {
    ghost use Rattle.std.specs.Prelude.{◌≡◌};
    ghost use Rattle.sy_io.specs.declared.ReadStop.TheVariants.{Fault};

    ghost from_gives = { λ _ stop. stop ≡ Fault };

    fn from(_failed: Failed) -> ReadStop {
        ReadStop::Fault
    }
}

impl From<AllocError> for ReadStop {
    ghost use Rattle.std.specs.Prelude.{◌≡◌};
    ghost use Rattle.sy_io.specs.declared.ReadStop.TheVariants.{Memory};

    ghost from_gives = { λ _ stop. stop ≡ Memory };

    fn from(_error: AllocError) -> ReadStop {
        ReadStop::Memory
    }
}

// The most bytes that one read asks for.
const READ_SIZE: usize = 64 * 1024;

fn read_buffer(alloc: Global) -> Result<Vec<u8>, AllocError>
    ensures { IfOk result (λ buffer. 0 < vec_len buffer) }
{
    vec![in alloc; 0u8; READ_SIZE]
}

// One read of at most `most` bytes, into the front of `buffer`.
fn read_front<S: Source>(source: &mut S, buffer: &mut [u8], most: usize) -> Result<usize, Failed>
    requires some { 0 < most }
    requires within { most ≤ length buffer.old }
    ensures bound { IfOk result (λ n. n ≤ most) }
    ensures consumed { IfOk result (λ n. Consumes (S.left source.old) (S.left source.new) (take n buffer.new)) }
    ensures end { IfOk result (λ n. n ≡ 0 → IsAtEnd (S.left source.new)) }
    ensures err { OnErr result (Keeps (S.left source.old) (S.left source.new)) }
    ensures cause { HasCause (S.faults source.old) (S.faults source.new) result }
{
    source.read(&mut buffer[..most])
}

/// Reads all bytes left, to the end of the source, or stops after `limit + 1` bytes. A fault is not
/// tried again.
pub fn read_all<S: Source>(alloc: Global, source: &mut S, limit: usize) -> Result<Vec<u8>, ReadStop>
    // The bytes, where the source tells them.
    ensures whole { IfOk result (λ all. IfSome (S.left source.old) (λ bytes. all.items ≡ bytes)) }
    ensures within { IfOk result (λ all. vec_len all ≤ limit) }
    ensures too_long { IfErr result (λ stop. IfSome (S.left source.old) (FitsLength stop limit)) }

    // What was consumed.
    ensures consumed { IfOk result (λ all. Consumes (S.left source.old) (S.left source.new) all.items) }
    ensures end { OnOk result (IsAtEnd (S.left source.new)) }
    ensures stopped { IfErr result (λ stop.
        ConsumesUntil stop limit (S.left source.old) (S.left source.new)) }

    // The count of faults.
    ensures later { S.faults source.old ≤ S.faults source.new }
    ensures cause { MatchResult result (λ _. S.faults source.new ≡ S.faults source.old)
        (λ stop. StopHasCause stop (S.faults source.old) (S.faults source.new)) }
{
    let mut buffer = read_buffer(alloc)?;
    let buffer = buffer.as_mut_slice();
    let mut all = Vec::new(alloc);
    loop {
        let room = limit - all.len();
        let most = room.min(buffer.len() - 1) + 1;
        let count = read_front(source, buffer, most)?;
        if count == 0 {
            return Ok(all);
        }
        if count > room {
            return Err(ReadStop::TooLong);
        }
        all.extend_from_slice(&buffer[..count])?;
    }
}

/// Writes all of `bytes`. Each call of the sink is offered all that is left, and none is made once
/// nothing is. A fault is not tried again.
pub fn write_all<K: Sink>(sink: &mut K, bytes: &[u8]) -> Result<(), Failed>
    ensures all { OnOk result (Appends (K.taken sink.old) (K.taken sink.new) bytes.now) }
    ensures front { OnErr result (AppendsFront (K.taken sink.old) (K.taken sink.new) bytes.now) }
    ensures none { bytes.now ≡ [] → sink.new ≡ sink.old }
    ensures cause { HasCause (K.faults sink.old) (K.faults sink.new) result }
{
    let mut rest = bytes;
    while !rest.is_empty() {
        let count = sink.write(rest)?;
        rest = &rest[count..];
    }
    Ok(())
}

#[cfg(test)]
mod tests;
