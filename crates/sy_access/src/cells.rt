// Single elements, and logs of what was written to them.

ghost use Rattle.std.specs.Prelude.{◌≡◌, ◌↔◌, List, ℤ, Some, IsTrue, IfOk, Contains};
ghost use Rattle.sy_access.specs.declared.cells.Cell.{Cell};
ghost use Rattle.sy_access.specs.Logs.{differ, same_cell, logged};

use std::alloc::{AllocError, Global};
use std::marker::Model;

/// One element of a root buffer, or of the local memory of a slot.
///
/// The first number is the root or the slot, the second the element.
#[derive(Clone, Copy, PartialEq, Eq, Debug)]
pub enum Cell {
    Buffer(u32, u32),
    Local(u32, u32),
}

impl Cell {
    /// Whether the two are one cell.
    #[tactic(auto, unfolding(crate::specs::Logs::same_cell))]
    pub fn is(&self, other: &Cell) -> bool
        ensures { result ≡ same_cell self.now other.now }
    {
        match (*self, *other) {
            (Cell::Buffer(r, i), Cell::Buffer(s, j)) => r == s && i == j,
            (Cell::Local(r, i), Cell::Local(s, j)) => r == s && i == j,
            (Cell::Buffer(_, _), Cell::Local(_, _)) => false,
            (Cell::Local(_, _), Cell::Buffer(_, _)) => false,
        }
    }
}

/// What a command wrote: cells with their last numbers, each cell once.
#[derive(Clone, Debug, Drop)]
pub struct Log {
    items: Vec<(Cell, i128)>,
}

impl Model for Log {
    ghost use Rattle.std.specs.Prelude.{List, ℤ, IsTrue};
    ghost use Rattle.sy_access.specs.declared.cells.Cell.{Cell};

    ghost Value = { List (Cell × ℤ) };

    ghost use Rattle.sy_access.specs.Logs.{differ};

    ghost view = { λ s. s.items.items };

    ghost invariant = { λ s. IsTrue (differ s.items.items) };
}

impl Log {
    pub fn of(items: Vec<(Cell, i128)>) -> Log
        requires { IsTrue (differ items.items) }
        ensures { result ≡ items.items }
    {
        Log { items }
    }

    pub fn items(&self) -> &[(Cell, i128)]
        ensures items { result.now ≡ self.now }
        ensures once { IsTrue (differ self.now) }
    {
        self.items.as_slice()
    }

    /// The same log in a list of its own.
    pub fn copy(&self, alloc: Global) -> Result<Log, AllocError>
        ensures { IfOk result (λ log. log ≡ self.now) }
    {
        Ok(Log {
            items: Vec::from_slice(alloc, self.items.as_slice())?,
        })
    }

    /// The number that the log has for the cell, if it has one.
    pub fn number(&self, c: Cell) -> Option<i128>
        ensures { result ≡ logged self.now c }
    {
        for (cell, number) in self.items.as_slice() {
            if cell.is(&c) {
                return Some(*number);
            }
        }
        None
    }
}

/// A law: two cells are one exactly where they are equal, and a log in which no cell is named twice
/// has a number for a cell exactly where it lists the two together.
pub fn a_log_names_each_cell_once()
    ensures cells { (a b : Cell) → IsTrue (same_cell a b) ↔ (a ≡ b) }
    ensures numbers { (log : List (Cell × ℤ)) (c : Cell) (v : ℤ) → IsTrue (differ log) → (logged log c ≡ Some v) ↔ Contains log (c, v) }
{}
