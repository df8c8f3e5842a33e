// Access modes, needs, and which needs stand in one another's way.

ghost use Rattle.std.specs.Prelude.{◌≡◌, ℕ, ◌⊎◌, IsTrue, IfOk};
ghost use Rattle.sy_access.specs.declared.access.Need.{Need};
ghost use Rattle.sy_access.specs.Needs.{reads, writes, one_writes, is_empty, has_cell, conflict, is_apart};

use std::alloc::{AllocError, Global};
use std::marker::Model;

/// How an accessor uses its elements (SYCL 2020, "Access modes").
#[derive(Clone, Copy, PartialEq, Eq, Debug)]
pub enum Mode {
    Read,
    Write,
    ReadWrite,
}

impl Mode {
    /// Whether the mode reads.
    pub fn reads(&self) -> bool
        ensures { result ≡ reads self.now }
    {
        matches!(*self, Mode::Read | Mode::ReadWrite)
    }

    /// Whether the mode writes.
    pub fn writes(&self) -> bool
        ensures { result ≡ writes self.now }
    {
        matches!(*self, Mode::Write | Mode::ReadWrite)
    }
}

/// The elements from `from` up to but without `to` of a root buffer, and how they are used.
///
/// With `no_init` the elements' former values aren't wanted.
#[derive(Clone, Copy, PartialEq, Eq, Debug)]
pub struct Need {
    pub buffer: u32,
    pub mode: Mode,
    pub no_init: bool,
    pub from: u32,
    pub to: u32,
}

impl Need {
    /// Whether the need has the element `i` of the root `root`.
    #[tactic(auto, unfolding(crate::specs::Needs::has_cell))]
    pub fn has(&self, root: u32, i: usize) -> bool
        ensures { result ≡ has_cell self.now root i }
    {
        self.buffer == root && self.from as usize <= i && i < self.to as usize
    }

    /// Whether the need is for no element at all.
    fn is_empty(&self) -> bool
        ensures { result ≡ is_empty self.now }
    {
        self.to <= self.from
    }
}

/// Whether two needs conflict: they name one root, share an element, and one of them writes.
///
/// A need without elements counts as sharing one with every need on its root.
#[tactic(auto, unfolding(crate::specs::Needs::conflict))]
pub fn conflicts(a: &Need, b: &Need) -> bool
    ensures { result ≡ conflict a.now b.now }
{
    let shared = a.is_empty() || b.is_empty() || (a.from < b.to && b.from < a.to);
    a.buffer == b.buffer && shared && (a.mode.writes() || b.mode.writes())
}

/// Whether two needs that stand in entries at these places are apart: they name one root, the
/// places differ, and one of them writes.
#[tactic(auto, unfolding(crate::specs::Needs::is_apart))]
pub fn apart(a: &Need, a_place: u32, b: &Need, b_place: u32) -> bool
    ensures { result ≡ is_apart a.now a_place b.now b_place }
{
    a.buffer == b.buffer && a_place != b_place && (a.mode.writes() || b.mode.writes())
}

/// A law: needs conflict exactly where they name one root, some element is in both or one of them
/// is empty, and one of them writes.
pub fn conflict_is_a_shared_element()
    ensures sound { (a b : Need) → IsTrue (conflict a b) → (a.buffer ≡ b.buffer) × (IsTrue (is_empty a) ⊎ (IsTrue (is_empty b) ⊎ ((i : ℕ) × (IsTrue (has_cell a a.buffer i) × IsTrue (has_cell b b.buffer i))))) × IsTrue (one_writes a b) }
    ensures shared { (a b : Need) (i : ℕ) → a.buffer ≡ b.buffer → IsTrue (has_cell a a.buffer i) → IsTrue (has_cell b b.buffer i) → IsTrue (one_writes a b) → IsTrue (conflict a b) }
    ensures empty { (a b : Need) → a.buffer ≡ b.buffer → IsTrue (is_empty a) ⊎ IsTrue (is_empty b) → IsTrue (one_writes a b) → IsTrue (conflict a b) }
{}

/// A law: of two needs each conflicts with, or is apart from, the other, or neither is.
pub fn needs_meet_both_ways()
    ensures conflict { (a b : Need) → conflict a b ≡ conflict b a }
    ensures apart { (a b : Need) (p q : ℕ) → is_apart a p b q ≡ is_apart b q a p }
{}

/// A list of needs.
#[derive(Clone, Debug, Drop)]
pub struct Needs {
    items: Vec<Need>,
}

impl Model for Needs {
    ghost use Rattle.std.specs.Prelude.{List};
    ghost use Rattle.sy_access.specs.declared.access.Need.{Need};

    ghost Value = { List Need };

    ghost view = { λ s. s.items.items };
}

impl Needs {
    pub fn of(items: Vec<Need>) -> Needs
        ensures { result ≡ items.items }
    {
        Needs { items }
    }

    pub fn items(&self) -> &[Need]
        ensures { result.now ≡ self.now }
    {
        self.items.as_slice()
    }

    /// The same needs in a list of their own.
    pub fn copy(&self, alloc: Global) -> Result<Needs, AllocError>
        ensures { IfOk result (λ needs. needs ≡ self.now) }
    {
        Ok(Needs {
            items: Vec::from_slice(alloc, self.items.as_slice())?,
        })
    }
}
