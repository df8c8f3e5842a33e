// Runs of elements that don't overlap.

ghost use Rattle.std.specs.Prelude.{◌≡◌, [], nat_lt, if◌then◌else◌, Some, ◌≤◌, ◌+◌, ◌-◌, ◌^◌, ◌<◌, ◌⊎◌, length, option_map, IfOk, IfSome, OnOk, None, Err};
ghost use Rattle.sy_foot.specs.declared.stops.NumberingStop.TheVariants.{TooMany};
ghost use Rattle.sy_foot.specs.Runs.{element_at, greatest, grown_by, has_element, inserted, kept_beside, least, length_of, local_runs, number_in, overlap, runs_with, total, united};

use crate::stops::NumberingStop;
use std::alloc::{AllocError, Global};
use sy_access::Need;

/// The elements of a root buffer, or of the local memory of a slot, from `from` up to but without `to`.
#[derive(Clone, Copy, Debug, PartialEq, Eq)]
pub struct Run {
    pub list: u32,
    pub from: u32,
    pub to: u32,
}

impl Run {
    /// How many elements it has.
    pub fn len(&self) -> u32
        ensures { result ≡ length_of self.now }
    {
        self.to.saturating_sub(self.from)
    }

    #[inline]
    fn has(&self, list: u32, element: u32) -> bool
        ensures { result ≡ has_element self.now list element }
    {
        self.list == list && (self.from <= element && element < self.to)
    }

    /// Its element after so many others.
    fn element(&self, index: u32) -> Option<u32>
        ensures { result ≡ (if nat_lt index (length_of self.now) then Some (self.now.from + index) else None) }
    {
        let run = *self;
        if index < run.len() {
            Some(run.from + index)
        } else {
            None
        }
    }

    fn overlaps(&self, other: &Run) -> bool
        ensures { result ≡ overlap self.now other.now }
    {
        self.list == other.list && (self.from < other.to && other.from < self.to)
    }

    /// From the least of both up to the greatest.
    fn unite(&self, other: &Run) -> Run
        ensures { result ≡ united self.now other.now }
    {
        Run {
            list: self.list,
            from: least(self.from, other.from),
            to: greatest(self.to, other.to),
        }
    }
}

fn least(a: u32, b: u32) -> u32
    ensures { result ≡ least a b }
{
    if a < b { a } else { b }
}

fn greatest(a: u32, b: u32) -> u32
    ensures { result ≡ greatest a b }
{
    if a < b { b } else { a }
}

/// The runs with one more, which takes in all those that it overlaps.
pub fn insert(alloc: Global, runs: &[Run], run: Run) -> Result<Vec<Run>, AllocError>
    ensures { IfOk result (λ v. v.items ≡ inserted run runs.now) }
{
    let mut out = Vec::new(alloc);
    let mut grown = run;
    for other in runs {
        grown = insert_step(&mut out, grown, other)?;
    }
    out.push(grown)?;
    Ok(out)
}

/// Unites the run with the other one where they overlap; else the other one is kept.
fn insert_step(out: &mut Vec<Run>, run: Run, other: &Run) -> Result<Run, AllocError>
    ensures kept { OnOk result (out.new.items ≡ kept_beside run other.now out.old.items) }
    ensures run { IfOk result (λ r. r ≡ grown_by run other.now) }
{
    if run.overlaps(other) {
        return Ok(run.unite(other));
    }
    out.push(*other)?;
    Ok(run)
}

/// The runs of needs: those that overlap share one.
pub fn need_runs(alloc: Global, needs: &[Need]) -> Result<Vec<Run>, AllocError>
    ensures { IfOk result (λ v. v.items ≡ runs_with [] needs.now) }
{
    let mut runs = Vec::new(alloc);
    for need in needs {
        let run = Run {
            list: need.buffer,
            from: need.from,
            to: need.to,
        };
        runs = insert(alloc, runs.as_slice(), run)?;
    }
    Ok(runs)
}

/// The runs of local lists of these lengths, by slot.
pub fn slot_runs(alloc: Global, lengths: &[u64]) -> Result<Vec<Run>, NumberingStop>
    ensures runs { IfOk result (λ v. v.items ≡ local_runs 0 lengths.now) }
    ensures fit { OnOk result (length lengths.now ≤ 2 ^ 32 - 1) }
    ensures too_many { result ≡ Err TooMany → (2 ^ 32 - 1 < length lengths.now) ⊎ (2 ^ 32 - 1 < total (local_runs 0 lengths.now)) }
{
    if lengths.len() > u32::MAX as usize {
        return Err(NumberingStop::TooMany);
    }
    let mut runs = Vec::new(alloc);
    for length in lengths {
        if *length > u32::MAX as u64 {
            return Err(NumberingStop::TooMany);
        }
        let run = Run {
            list: runs.len() as u32,
            from: 0,
            to: *length as u32,
        };
        match runs.push(run) {
            Ok(_) => {}
            Err(_) => return Err(NumberingStop::Memory),
        }
    }
    Ok(runs)
}

/// How many elements they have, from this count on, if a u32 holds it.
pub fn count_from(start: u32, runs: &[Run]) -> Option<u32>
    ensures count { IfSome result (λ n. n ≡ start + total runs.now) }
    ensures too_many { result ≡ None → 2 ^ 32 - 1 < start + total runs.now }
{
    let mut count = start;
    for run in runs {
        count = count.checked_add(run.len())?;
    }
    Some(count)
}

/// The number of an element, where the first one has the number `base`.
pub fn number_of(base: u32, runs: &[Run], list: u32, element: u32) -> Option<u32>
    requires { base + total runs.now < 2 ^ 32 }
    ensures { result ≡ number_in base runs.now list element }
{
    let mut first = base;
    for run in runs {
        if run.has(list, element) {
            return Some(first + (element - run.from));
        }
        first += run.len();
    }
    None
}

/// The list and the element of a number, where the first one has the number 0.
pub fn element_of(runs: &[Run], number: u32) -> Option<(u32, u32)>
    ensures { result ≡ element_at runs.now number }
{
    let mut left = number;
    for run in runs {
        if let Some(element) = run.element(left) {
            return Some((run.list, element));
        }
        left -= run.len();
    }
    None
}
