// What a command is given, what it leaves, and what a host access gives back.

ghost use Rattle.std.specs.Prelude.{◌≡◌, ◌+◌, ◌<◌, ◌≤◌, ◌^◌, length, IfOk, ℤ, List, map};
ghost use Rattle.sy_onecopy.specs.Outcome.{values_at, run_of, input, inputs, buffer_after, buffers_after};
ghost use Rattle.sy_needs.specs.Elements.{starts_zero, is_written, at_start, cell_after};
ghost use Rattle.sy_needs.specs.Each.{each_from};
ghost use Rattle.sy_onecopy.specs.Step.{cell_put, buffer_put};
ghost use Rattle.sy_entries.specs.Sizes.{AreNumbered};

use std::alloc::{AllocError, Global};
use sy_access::{Cell, Log, Need, Values};
use sy_onecopy::Buffer;
use sy_work::Inputs;

/// Whether each need that has the element has no_init.
#[tactic(auto, unfolding(sy_needs::specs::Elements::starts_zero))]
fn starts_zero(needs: &[Need], r: u32, i: usize) -> bool
    ensures { result ≡ starts_zero needs.now r i }
{
    needs.iter().all(|n| !n.has(r, i) || n.no_init)
}

/// Whether a need that writes has the element.
#[tactic(auto, unfolding(sy_needs::specs::Elements::is_written))]
fn is_written(needs: &[Need], r: u32, i: usize) -> bool
    ensures { result ≡ is_written needs.now r i }
{
    needs.iter().any(|n| n.has(r, i) && n.mode.writes())
}

/// The element as the command starts.
#[tactic(auto, unfolding(sy_needs::specs::Elements::at_start))]
fn at_start(needs: &[Need], r: u32, i: usize, v: i128) -> i128
    ensures { result ≡ at_start needs.now r i v }
{
    if starts_zero(needs, r, i) { 0 } else { v }
}

/// The numbers of a buffer, or none where it is not there.
pub fn values_at(buffers: &[Buffer], r: u32) -> &[i128]
    ensures { result.now ≡ values_at buffers.now r }
{
    match buffers.get(r as usize) {
        Some(x) => x.values.items(),
        None => &[],
    }
}

/// The elements from one place up to another.
#[tactic(auto, unfolding(sy_onecopy::specs::Outcome::run_of))]
fn run_of(values: &[i128], from: u32, to: u32) -> &[i128]
    ensures run { result.now ≡ run_of values.now from to }
    ensures within { from + length result.now ≤ 2 ^ 32 }
{
    let from = from as usize;
    let to = to as usize;
    if values.len() <= from || to <= from {
        return &[];
    }
    let rest = &values[from..];
    let count = to - from;
    if rest.len() <= count {
        rest
    } else {
        &rest[..count]
    }
}

/// The numbers of one need, as the command starts.
#[tactic(auto, unfolding(sy_onecopy::specs::Outcome::input))]
fn input(
    alloc: Global,
    buffers: &[Buffer],
    needs: &[Need],
    n: &Need,
) -> Result<(u32, u32, Values), AllocError>
    ensures { IfOk result (λ x. x ≡ input buffers.now needs.now n.now) }
{
    let from = n.from as usize;
    let run = run_of(values_at(buffers, n.buffer), n.from, n.to);
    let mut given = Vec::new(alloc);
    for (i, v) in run.iter().enumerate() {
        given.push(at_start(needs, n.buffer, from + i, *v))?;
    }
    Ok((n.buffer, n.from, Values::of(given)))
}

/// The numbers of each need, as the command starts.
#[tactic(auto, unfolding(sy_onecopy::specs::Outcome::inputs))]
pub fn inputs(alloc: Global, buffers: &[Buffer], needs: &[Need]) -> Result<Inputs, AllocError>
    ensures { IfOk result (λ x. x ≡ inputs buffers.now needs.now) }
{
    let mut given = Vec::new(alloc);
    for n in needs {
        given.push(input(alloc, buffers, needs, n)?)?;
    }
    Ok(Inputs::of(given))
}

/// The element after a command that wrote this log.
#[tactic(auto, unfolding(sy_needs::specs::Elements::cell_after))]
fn cell_after(needs: &[Need], log: &Log, r: u32, i: u32, v: i128) -> i128
    ensures { result ≡ cell_after needs.now log.now r i v }
{
    if !is_written(needs, r, i as usize) {
        return v;
    }
    match log.number(Cell::Buffer(r, i)) {
        Some(x) => x,
        None => at_start(needs, r, i as usize, v),
    }
}

/// The numbers of a buffer after a command that wrote this log.
fn values_after(
    alloc: Global,
    needs: &[Need],
    log: &Log,
    r: u32,
    values: &[i128],
) -> Result<Values, AllocError>
    requires { length values.now ≤ 2 ^ 32 }
    ensures { IfOk result (λ x. x ≡ each_from (cell_after needs.now log.now r) 0 values.now) }
{
    let mut after = Vec::new(alloc);
    for (i, v) in values.iter().enumerate() {
        after.push(cell_after(needs, log, r, i as u32, *v))?;
    }
    Ok(Values::of(after))
}

/// A buffer after a command that wrote this log.
#[tactic(auto, unfolding(sy_onecopy::specs::Outcome::buffer_after))]
fn buffer_after(
    alloc: Global,
    needs: &[Need],
    log: &Log,
    r: u32,
    x: &Buffer,
) -> Result<Buffer, AllocError>
    requires { length x.now.values ≤ 2 ^ 32 }
    ensures { IfOk result (λ y. y ≡ buffer_after needs.now log.now r x.now) }
{
    let values = values_after(alloc, needs, log, r, x.values.items())?;
    Ok(Buffer {
        values,
        origin: x.origin,
        ended: x.ended,
    })
}

/// The buffers after a command that wrote this log.
#[tactic(auto, unfolding(sy_onecopy::specs::Outcome::buffers_after))]
pub fn buffers_after(
    alloc: Global,
    needs: &[Need],
    log: &Log,
    buffers: &[Buffer],
) -> Result<Vec<Buffer>, AllocError>
    requires { AreNumbered buffers.now }
    ensures { IfOk result (λ v. v.items ≡ buffers_after needs.now log.now buffers.now) }
{
    let mut after = Vec::new(alloc);
    for (r, x) in buffers.iter().enumerate() {
        after.push(buffer_after(alloc, needs, log, r as u32, x)?)?;
    }
    Ok(after)
}

/// The element after the access of this need gave these numbers back.
#[tactic(auto, unfolding(sy_onecopy::specs::Step::cell_put))]
fn cell_put(n: &Need, given: &[i128], r: u32, i: usize, v: i128) -> i128
    ensures { result ≡ cell_put n.now given.now r i v }
{
    if n.has(r, i) {
        return match given.get(i.saturating_sub(n.from as usize)) {
            Some(x) => *x,
            None => v,
        };
    }
    v
}

fn values_put(
    alloc: Global,
    n: &Need,
    given: &[i128],
    r: u32,
    values: &[i128],
) -> Result<Values, AllocError>
    ensures { IfOk result (λ x. x ≡ each_from (cell_put n.now given.now r) 0 values.now) }
{
    let mut after = Vec::new(alloc);
    for (i, v) in values.iter().enumerate() {
        after.push(cell_put(n, given, r, i, *v))?;
    }
    Ok(Values::of(after))
}

#[tactic(auto, unfolding(sy_onecopy::specs::Step::buffer_put))]
fn buffer_put(
    alloc: Global,
    n: &Need,
    given: &[i128],
    r: u32,
    x: &Buffer,
) -> Result<Buffer, AllocError>
    ensures { IfOk result (λ y. y ≡ buffer_put n.now given.now r x.now) }
{
    let values = values_put(alloc, n, given, r, x.values.items())?;
    Ok(Buffer {
        values,
        origin: x.origin,
        ended: x.ended,
    })
}

/// The buffers after the access of this need gave these numbers back.
pub fn buffers_put(
    alloc: Global,
    n: &Need,
    given: &[i128],
    buffers: &[Buffer],
) -> Result<Vec<Buffer>, AllocError>
    requires { length buffers.now ≤ 2 ^ 32 }
    ensures { IfOk result (λ v. v.items ≡ each_from (buffer_put n.now given.now) 0 buffers.now) }
{
    let mut after = Vec::new(alloc);
    for (r, x) in buffers.iter().enumerate() {
        after.push(buffer_put(alloc, n, given, r as u32, x)?)?;
    }
    Ok(after)
}
