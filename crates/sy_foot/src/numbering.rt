// The numbers of a command's cells.

ghost use Rattle.std.specs.Prelude.{◌≡◌, ◌↔◌, ◌<◌, ◌≤◌, ℕ, length, slice_get, is_some, nat_lt, option_map, ◌+◌, IfOk, OnOk, Some, Err};
ghost use Rattle.sy_access.specs.declared.access.Need.{Need};
ghost use Rattle.sy_access.specs.declared.cells.Cell.{Cell};
ghost use Rattle.sy_foot.specs.declared.stops.NumberingStop.TheVariants.{TooMany};
ghost use Rattle.sy_foot.specs.Numbered.{IsNumbering, IsTooMany, cell_count_of, is_named, buffer_cell, local_cell};

use crate::runs::{Run, count_from, element_of, need_runs, number_of, slot_runs};
use crate::stops::NumberingStop;
use std::alloc::Global;
use sy_access::{Cell, Need};

/// A number for each cell that a command's accessors name, from 0 on without a gap.
///
/// Needs of one root that overlap share a run of numbers; the lists of local accessors follow, by slot.
#[derive(Drop)]
pub struct CellNumbers {
    buffers: Vec<Run>,
    locals: Vec<Run>,
    shared: u32,
    count: u32,
    ghost numbered: { IsNumbering buffers.items locals.items shared count },
}

impl CellNumbers {
    ghost use Rattle.sy_foot.specs.Numbering.{IsOneRun, cell_at, cell_total, number_at, shared_total};
    ghost use Rattle.sy_access.specs.declared.cells.Cell.TheVariants.{Buffer, Local};

    /// Numbers the cells of the needs, and those of local lists of these lengths.
    pub fn new(alloc: Global, needs: &[Need], lengths: &[u64]) -> Result<CellNumbers, NumberingStop>
        ensures named { IfOk result (λ m. (c : Cell) → is_some (number_at m c) ≡ is_named needs.now lengths.now c) }
        ensures runs { IfOk result (λ m. (k : ℕ) (n : Need) → slice_get needs.now k ≡ Some n → IsOneRun m n) }
        ensures lists { IfOk result (λ m. (slot n i : ℕ) → slice_get lengths.now slot ≡ Some n → i < n → number_at m (Local slot i) ≡ option_map (λ b. b + i) (number_at m (Local slot 0))) }
        ensures count { IfOk result (λ m. cell_total m ≡ cell_count_of needs.now lengths.now) }
        ensures fit { OnOk result (IsTooMany needs.now lengths.now → ⊥) }
        ensures too_many { result ≡ Err TooMany → IsTooMany needs.now lengths.now }
    {
        let buffers = need_runs(alloc, needs)?;
        let locals = slot_runs(alloc, lengths)?;
        let shared = count_from(0, buffers.as_slice()).ok_or(NumberingStop::TooMany)?;
        let count = count_from(shared, locals.as_slice()).ok_or(NumberingStop::TooMany)?;
        Ok(CellNumbers {
            buffers,
            locals,
            shared,
            count,
        })
    }

    /// How many cells have numbers.
    pub fn count(&self) -> u32
        ensures count { result ≡ cell_total self.now }
        ensures below { (c : Cell) (n : ℕ) → number_at self.now c ≡ Some n → n < result }
    {
        self.count
    }

    /// How many of them are cells of buffers, which groups share: these have the least numbers.
    pub fn shared(&self) -> u32
        ensures shared { result ≡ shared_total self.now }
        ensures buffers { (root i n : ℕ) → number_at self.now (Buffer root i) ≡ Some n → n < result }
        ensures locals { (slot i n : ℕ) → number_at self.now (Local slot i) ≡ Some n → result ≤ n }
        ensures within { result ≤ cell_total self.now }
    {
        self.shared
    }

    /// The number of a cell.
    pub fn number(&self, cell: Cell) -> Option<u32>
        ensures number { result ≡ number_at self.now cell }
        ensures one { (d : Cell) (n : ℕ) → result ≡ Some n → number_at self.now d ≡ Some n → d ≡ cell }
    {
        match cell {
            Cell::Buffer(root, i) => number_of(0, self.buffers.as_slice(), root, i),
            Cell::Local(slot, i) => number_of(self.shared, self.locals.as_slice(), slot, i),
        }
    }

    /// The cell of a number.
    pub fn cell(&self, number: u32) -> Option<Cell>
        ensures cell { result ≡ cell_at self.now number }
        ensures number { (c : Cell) → (result ≡ Some c) ↔ (number_at self.now c ≡ Some number) }
        ensures dense { is_some result ≡ nat_lt number (cell_total self.now) }
    {
        if number < self.shared {
            buffer_of(element_of(self.buffers.as_slice(), number))
        } else {
            local_of(element_of(self.locals.as_slice(), number - self.shared))
        }
    }
}

fn buffer_of(place: Option<(u32, u32)>) -> Option<Cell>
    ensures { result ≡ buffer_cell place }
{
    let (root, i) = place?;
    Some(Cell::Buffer(root, i))
}

fn local_of(place: Option<(u32, u32)>) -> Option<Cell>
    ensures { result ≡ local_cell place }
{
    let (slot, i) = place?;
    Some(Cell::Local(slot, i))
}
