// The footprint of a group: what its items touch, phase by phase.

ghost use Rattle.std.specs.Prelude.{◌≡◌, ◌+◌, ◌^◌, ◌-◌, ◌<◌, ◌≤◌, ◌↔◌, ℕ, [], IsTrue, IfOk, option_map, OnOk, OnErr, None, Err};
ghost use Rattle.sy_foot.specs.declared.stops.TouchStop.TheVariants.{Clash, Memory, Outside};
ghost use Rattle.sy_foot.specs.Sparse.{IsPlaced};
ghost use Rattle.sy_foot.specs.Kept.{entry_at};
ghost use Rattle.sy_foot.specs.Writes.{AreFirstWrites, first_written, number_of};

use crate::entries::Entries;
use crate::entry::Entry;
use crate::stops::TouchStop;
use std::alloc::{AllocError, Global};

/// What the items of one group have touched, and the group's numbers: a write goes into its entry at
/// once, since an item that touches the cell later in the phase clashes, and one before it has run.
///
/// A cell without an entry has its opening number. The value serves group after group (`clear`).
#[derive(Drop)]
pub struct Footprint {
    entries: Entries,
    written: Vec<u32>,
    start: u64,
    turn: u64,
    ghost first_writes: { AreFirstWrites written.items (entry_at entries) },
}

impl Footprint {
    ghost use Rattle.sy_foot.specs.Footprints.{kept, room, turn_of, phase_start, written_by, is_earlier, read_clashes, write_clashes, after_read, after_write, written_with, Notes, Stays, Advances};

    /// A group that has touched nothing, with room for the cells below `cells`.
    pub fn new(alloc: Global, cells: usize) -> Result<Footprint, AllocError>
        ensures room { IfOk result (λ f. room f ≡ cells) }
        ensures empty { IfOk result (λ f. (c : ℕ) → kept f c ≡ None) }
        ensures written { IfOk result (λ f. written_by f ≡ []) }
        ensures turns { IfOk result (λ f. (phase_start f ≡ 1) × (turn_of f ≡ 1)) }
    {
        Ok(Footprint {
            entries: Entries::new(alloc, cells)?,
            written: Vec::new(alloc),
            start: 1,
            turn: 1,
        })
    }

    /// Begins the next group, which has touched nothing.
    pub fn clear(&mut self)
        ensures room { room self.new ≡ room self.old }
        ensures empty { (c : ℕ) → kept self.new c ≡ None }
        ensures written { written_by self.new ≡ [] }
        ensures turns { (phase_start self.new ≡ 1) × (turn_of self.new ≡ 1) }
    {
        self.entries.clear();
        self.written.clear();
        self.start = 1;
        self.turn = 1;
    }

    /// Goes on to the next item of the phase. After the last turn there is none, as if for want of memory.
    pub fn next_item(&mut self) -> Result<(), AllocError>
        ensures item { OnOk result (Advances self.old self.new (phase_start self.old) (turn_of self.old + 1)) }
        ensures last { OnErr result (turn_of self.old ≡ 2 ^ 64 - 1) }
        ensures same { OnErr result (Stays self.old self.new) }
    {
        self.turn = self.turn.checked_add(1).ok_or(AllocError)?;
        Ok(())
    }

    /// Goes on to the first item of the next phase. After the last turn there is none.
    pub fn next_phase(&mut self) -> Result<(), AllocError>
        ensures phase { OnOk result (Advances self.old self.new (turn_of self.old + 1) (turn_of self.old + 1)) }
        ensures last { OnErr result (turn_of self.old ≡ 2 ^ 64 - 1) }
        ensures same { OnErr result (Stays self.old self.new) }
    {
        self.next_item()?;
        self.start = self.turn;
        Ok(())
    }

    /// Notes a read by the item, and answers the number that it sees: the opening one in a cell that the
    /// group hasn't touched.
    #[inline]
    pub fn read(&mut self, cell: u32, opening: i128) -> Result<i128, TouchStop>
        ensures number { IfOk result (λ z. z ≡ number_of opening (kept self.old cell)) }
        ensures noted { OnOk result (Notes self.old self.new (after_read self.old cell opening (kept self.old cell))) }
        ensures written { written_by self.new ≡ written_by self.old }

        ensures clash { (result ≡ Err Clash) ↔ IsTrue (read_clashes self.old (kept self.old cell)) }
        ensures within { OnOk result (cell < room self.old) }
        ensures outside { result ≡ Err Outside → room self.old ≤ cell }
        ensures same { OnErr result (Stays self.old self.new) }
    {
        match self.entries.look(cell) {
            Some((k, entry)) => {
                if self.is_earlier(entry.write) {
                    return Err(TouchStop::Clash);
                }
                let touch = if entry.touch < self.start {
                    self.turn
                } else {
                    entry.touch
                };
                self.entries.put(k, Entry { touch, ..entry });
                Ok(entry.number)
            }
            None => {
                self.entries.add(Entry {
                    cell,
                    wrote: false,
                    number: opening,
                    touch: self.turn,
                    write: 0,
                })?;
                Ok(opening)
            }
        }
    }

    /// Notes a write by the item.
    #[inline]
    pub fn write(&mut self, cell: u32, number: i128) -> Result<(), TouchStop>
        ensures noted { OnOk result (Notes self.old self.new (after_write self.old cell number)) }
        ensures written { OnOk result (written_by self.new ≡ written_with self.old cell) }

        ensures clash { (result ≡ Err Clash) ↔ IsTrue (write_clashes self.old (kept self.old cell)) }
        ensures within { OnOk result (cell < room self.old) }
        ensures outside { result ≡ Err Outside → room self.old ≤ cell }
        ensures same { OnErr result (Stays self.old self.new) }
    {
        let new = Entry {
            cell,
            wrote: true,
            number,
            touch: self.turn,
            write: self.turn,
        };
        match self.entries.look(cell) {
            Some((k, entry)) => {
                if self.is_earlier(entry.touch) {
                    return Err(TouchStop::Clash);
                }
                note_first_write(&mut self.written, cell, entry.wrote)?;
                self.entries.put(k, new);
                Ok(())
            }
            None => {
                self.written.reserve(1)?;
                self.entries.add(new)?;
                self.written.push_reserved(cell);
                Ok(())
            }
        }
    }

    /// Whether a touch at that turn was by an earlier item of the phase.
    #[inline]
    fn is_earlier(&self, turn: u64) -> bool
        ensures { result ≡ is_earlier self.now turn }
    {
        self.start <= turn && turn < self.turn
    }

    /// The entries of the cells that the group touched, in the order of first touches.
    pub(crate) fn entries(&self) -> &[Entry]
        ensures list { result.now ≡ self.now.entries.entries.items }
        ensures placed { IsPlaced self.now.entries.index.items result.now }
    {
        self.entries.as_slice()
    }

    /// The cells that the group wrote, in the order of their first writes.
    pub fn written(&self) -> &[u32]
        ensures cells { result.now ≡ written_by self.now }
        ensures first { AreFirstWrites result.now (kept self.now) }
    {
        self.written.as_slice()
    }

    /// The group's number in a cell that it has touched.
    pub fn number(&self, cell: u32) -> Option<i128>
        ensures { result ≡ option_map (λ e. e.number) (kept self.now cell) }
    {
        match self.entries.look(cell) {
            Some((_k, entry)) => Some(entry.number),
            None => None,
        }
    }

    /// The group's number in a cell, or else the opening one.
    pub(crate) fn number_or(&self, cell: u32, opening: i128) -> i128
        ensures { result ≡ number_of opening (kept self.now cell) }
    {
        match self.entries.look(cell) {
            Some((_k, entry)) => entry.number,
            None => opening,
        }
    }
}

/// Notes the cell as written, unless it was.
#[inline]
fn note_first_write(written: &mut Vec<u32>, cell: u32, wrote: bool) -> Result<(), TouchStop>
    ensures written { OnOk result (written.new.items ≡ first_written wrote written.old.items cell) }
    ensures same { OnErr result (written.new.items ≡ written.old.items) }
    ensures memory { OnErr result (result ≡ Err Memory) }
{
    if wrote {
        return Ok(());
    }
    match written.push(cell) {
        Ok(_) => Ok(()),
        Err(_) => Err(TouchStop::Memory),
    }
}
