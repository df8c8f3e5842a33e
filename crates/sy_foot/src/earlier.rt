// What the groups before the one that runs did to the cells that groups share.

ghost use Rattle.std.specs.Prelude.{◌≡◌, ◌<◌, ◌≤◌, ◌+◌, ◌++◌, ℕ, [], ◌∷◌, Some, Err, length, vec_len, vec_capacity, nat_lt, if◌then◌else◌, slice_get, slice_set, IfOk, OnOk, OnErr, true, false};
ghost use Rattle.std.specs.List.{list_any};
ghost use Rattle.sy_foot.specs.declared.entry.Entry.{Entry};
ghost use Rattle.sy_foot.specs.declared.earlier.State.TheVariants.{Untouched};
ghost use Rattle.sy_foot.specs.declared.stops.AbsorbStop.TheVariants.{Clash};
ghost use Rattle.sy_foot.specs.Earlier.{joined, state_meets, state_of};
ghost use Rattle.sy_foot.specs.Footprints.{kept, written_by};
ghost use Rattle.sy_foot.specs.GroupLogs.{IsGroupLog, with_cell};
ghost use Rattle.sy_foot.specs.Writes.{shared_writes};

use crate::entry::Entry;
use crate::footprint::Footprint;
use crate::numbering::CellNumbers;
use crate::stops::AbsorbStop;
use std::alloc::{AllocError, Global};
use sy_access::{Cell, Log};

/// What the earlier groups did to a cell.
#[derive(Clone, Copy, Debug, PartialEq, Eq)]
pub enum State {
    Untouched,
    Read,
    Written,
}

/// The earlier groups' touches, a byte for each cell that groups share, and what they wrote.
///
/// Cells from there on are a group's own, and nothing is kept of them.
#[derive(Drop)]
pub struct EarlierGroups {
    states: Vec<State>,
    log: Vec<(u32, i128)>,
    ghost logged: { IsGroupLog states.items log.items },
}

impl EarlierGroups {
    ghost use Rattle.sy_foot.specs.Summaries.{meets_at, state_at, states_of, writes_of};
    ghost use Rattle.sy_foot.specs.Earlier.{state_after};
    ghost use Rattle.sy_foot.specs.GroupLogs.{cell_log};

    /// No group yet, over the cells below `shared`.
    pub fn new(alloc: Global, shared: usize) -> Result<EarlierGroups, AllocError>
        ensures shared { IfOk result (λ g. length (states_of g) ≡ shared) }
        ensures untouched { IfOk result (λ g. (c : ℕ) → c < shared → state_at g c ≡ Some Untouched) }
        ensures writes { IfOk result (λ g. writes_of g ≡ []) }
    {
        Ok(EarlierGroups {
            states: vec![in alloc; State::Untouched; shared]?,
            log: Vec::new(alloc),
        })
    }

    /// Whether an earlier group wrote the cell, or touched it and this touch writes.
    #[inline]
    pub fn meets(&self, cell: u32, writes: bool) -> bool
        ensures { result ≡ meets_at self.now cell writes }
    {
        meets_in(self.states.as_slice(), cell, writes)
    }

    /// Takes in a group, unless one of its cells meets the earlier ones. It leaves all as it was where it stops.
    pub fn absorb(&mut self, group: &Footprint) -> Result<(), AbsorbStop>
        ensures clash { result ≡ Err Clash → (c : ℕ) × (e : Entry) × (kept group.now c ≡ Some e) × (meets_at self.old c e.wrote ≡ true) }
        ensures same { OnErr result ((states_of self.new ≡ states_of self.old) × (writes_of self.new ≡ writes_of self.old)) }

        ensures shared { length (states_of self.new) ≡ length (states_of self.old) }
        ensures clean { OnOk result ((c : ℕ) (e : Entry) → kept group.now c ≡ Some e → meets_at self.old c e.wrote ≡ false) }
        ensures joined { OnOk result ((c : ℕ) → state_at self.new c ≡ state_after (state_at self.old c) (kept group.now c)) }
        ensures writes { OnOk result (writes_of self.new ≡ writes_of self.old ++ shared_writes (length (states_of self.old)) (kept group.now) (written_by group.now)) }
    {
        let entries = group.entries();
        if clashes(self.states.as_slice(), entries) {
            return Err(AbsorbStop::Clash);
        }
        self.log.reserve(group.written().len())?;
        append_writes(&mut self.log, self.states.len(), group);
        join(&mut self.states, entries);
        Ok(())
    }

    /// What the groups wrote, with the cells in place of their numbers: each with its last number, in the
    /// order of the first writes.
    pub fn log(&self, alloc: Global, numbers: &CellNumbers) -> Result<Log, AllocError>
        ensures { IfOk result (λ log. log ≡ cell_log numbers.now (writes_of self.now)) }
    {
        let mut items = Vec::new(alloc);
        for (number, value) in self.log.as_slice() {
            push_cell(&mut items, numbers.cell(*number), *value)?;
        }
        Ok(Log::of(items))
    }
}

/// Adds the group's writes to cells below `shared`.
fn append_writes(log: &mut Vec<(u32, i128)>, shared: usize, group: &Footprint)
    requires { vec_len log.old + length (written_by group.now) ≤ vec_capacity log.old }
    ensures { log.new.items ≡ log.old.items ++ shared_writes shared (kept group.now) (written_by group.now) }
{
    for cell in group.written() {
        append_write(log, shared, *cell, group.number_or(*cell, 0));
    }
}

fn append_write(log: &mut Vec<(u32, i128)>, shared: usize, cell: u32, number: i128)
    requires { vec_len log.old < vec_capacity log.old }
    ensures items { log.new.items ≡ (if nat_lt cell shared then log.old.items ++ (cell, number) ∷ [] else log.old.items) }
    ensures len { vec_len log.new ≤ vec_len log.old + 1 }
    ensures capacity { vec_capacity log.new ≡ vec_capacity log.old }
{
    if (cell as usize) < shared {
        log.push_reserved((cell, number));
    }
}

fn push_cell(
    log: &mut Vec<(Cell, i128)>,
    cell: Option<Cell>,
    number: i128,
) -> Result<(), AllocError>
    ensures { OnOk result (log.new.items ≡ log.old.items ++ with_cell cell number []) }
{
    match cell {
        Some(cell) => Ok(log.push((cell, number))?),
        None => Ok(()),
    }
}

#[inline]
fn meets_in(states: &[State], cell: u32, writes: bool) -> bool
    ensures { result ≡ state_meets writes (slice_get states.now cell) }
{
    match states.get(cell as usize).copied() {
        Some(State::Written) => true,
        Some(State::Read) => writes,
        Some(State::Untouched) => false,
        None => false,
    }
}

/// Whether one of the entries meets the earlier groups.
fn clashes(states: &[State], entries: &[Entry]) -> bool
    ensures { result ≡ list_any (λ e. state_meets e.wrote (slice_get states.now e.cell)) entries.now }
{
    entries
        .iter()
        .any(|entry| meets_in(states, entry.cell, entry.wrote))
}

/// Takes the entries into the states.
#[tactic(auto, using(crate::proofs::EarlierLemmas::joined_here))]
fn join(states: &mut Vec<State>, entries: &[Entry])
    ensures { states.new.items ≡ joined states.old.items entries.now }
{
    for entry in entries {
        put(states, entry.cell, entry.wrote);
    }
}

#[inline]
fn put(states: &mut Vec<State>, cell: u32, wrote: bool)
    ensures { states.new.items ≡ slice_set states.old.items cell (state_of wrote) }
{
    if (cell as usize) < states.len() {
        states[cell as usize] = if wrote { State::Written } else { State::Read };
    }
}
