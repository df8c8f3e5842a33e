// The entries of touched cells: an index over all cells, which is never cleared, and a list.

ghost use Rattle.std.specs.Prelude.{◌≡◌, ◌≢◌, ◌<◌, ◌≤◌, ◌↔◌, ℕ, length, slice_get, vec_len, IfSome, IfOk, OnOk, OnErr, None, Some, Err};
ghost use Rattle.sy_foot.specs.declared.entry.Entry.{Entry};
ghost use Rattle.sy_foot.specs.declared.stops.TouchStop.TheVariants.{Clash, Outside};
ghost use Rattle.sy_foot.specs.Sparse.{IsPlaced, Puts, entry_of, seen};

use crate::entry::Entry;
use crate::stops::TouchStop;
use std::alloc::{AllocError, Global};

/// As many entries as an index of u32 can tell apart.
const MOST_ENTRIES: usize = 4294967295;

/// A sparse set of entries, at most one for each cell (Briggs and Torczon, 1993).
///
/// Clearing it costs what was added: an index counts only where the entry there is of its cell.
#[derive(Drop)]
pub struct Entries {
    index: Vec<u32>,
    entries: Vec<Entry>,
    ghost placed: { IsPlaced index.items entries.items },
}

impl Entries {
    ghost use Rattle.sy_foot.specs.Kept.{entry_at, cell_count, SameEntries};

    /// No entries, with room for the cells below `cells`.
    pub fn new(alloc: Global, cells: usize) -> Result<Entries, AllocError>
        ensures room { IfOk result (λ s. cell_count s ≡ cells) }
        ensures empty { IfOk result (λ s. (c : ℕ) → entry_at s c ≡ None) }
    {
        Ok(Entries {
            index: vec![in alloc; 0u32; cells]?,
            entries: Vec::new(alloc),
        })
    }

    /// Takes all entries away.
    pub fn clear(&mut self)
        ensures empty { (c : ℕ) → entry_at self.new c ≡ None }
        ensures room { cell_count self.new ≡ cell_count self.old }
    {
        self.entries.clear();
    }

    /// The entry of a cell, with its position in the list.
    #[inline]
    #[tactic(auto, using(crate::proofs::SparseLemmas::looked_at))]
    pub fn look(&self, cell: u32) -> Option<(usize, Entry)>
        ensures entry { entry_of result ≡ entry_at self.now cell }
        ensures index { IfSome result (λ r. slice_get self.now.index.items cell ≡ Some r.0) }
        ensures within { IfSome result (λ r. r.0 < vec_len self.now.entries) }
        ensures own { IfSome result (λ r. r.1.cell ≡ cell) }
    {
        match index_of(self.index.as_slice(), cell) {
            None => None,
            Some(k) => match listed(self.entries.as_slice(), k as usize) {
                None => None,
                Some(entry) => {
                    if entry.cell == cell {
                        Some((k as usize, entry))
                    } else {
                        None
                    }
                }
            },
        }
    }

    /// Puts an entry in the position of the one of its cell.
    #[inline]
    pub fn put(&mut self, k: usize, entry: Entry)
        requires index { slice_get self.old.index.items entry.cell ≡ Some k }
        requires within { k < vec_len self.old.entries }
        requires own { entry_at self.old entry.cell ≢ None }
        ensures entry { Puts (entry_at self.old) (entry_at self.new) entry }
        ensures room { cell_count self.new ≡ cell_count self.old }
    {
        self.entries[k] = entry;
    }

    /// Adds an entry of a cell that has none.
    #[inline]
    pub fn add(&mut self, entry: Entry) -> Result<(), TouchStop>
        requires { entry_at self.old entry.cell ≡ None }
        ensures entry { OnOk result (Puts (entry_at self.old) (entry_at self.new) entry) }
        ensures same { OnErr result (SameEntries self.old self.new) }
        ensures room { cell_count self.new ≡ cell_count self.old }
        ensures within { OnOk result (entry.cell < cell_count self.old) }
        ensures outside { result ≡ Err Outside → cell_count self.old ≤ entry.cell }
        ensures clash { result ≢ Err Clash }
    {
        if entry.cell as usize >= self.index.len() {
            return Err(TouchStop::Outside);
        }
        let k = self.entries.len();
        if k >= MOST_ENTRIES {
            return Err(TouchStop::Memory);
        }
        self.entries.reserve(1)?;
        self.entries.push_reserved(entry);
        self.index[entry.cell as usize] = k as u32;
        Ok(())
    }

    /// The entries in the order of the cells' first touches.
    pub fn as_slice(&self) -> &[Entry]
        ensures list { result.now ≡ self.now.entries.items }
        ensures placed { IsPlaced self.now.index.items result.now }
    {
        self.entries.as_slice()
    }
}

#[inline]
fn index_of(index: &[u32], cell: u32) -> Option<u32>
    ensures { result ≡ slice_get index.now cell }
{
    index.get(cell as usize).copied()
}

#[inline]
fn listed(entries: &[Entry], k: usize) -> Option<Entry>
    ensures value { result ≡ slice_get entries.now k }
    ensures within { IfSome result (λ e. k < length entries.now) }
{
    entries.get(k).copied()
}
