//! The declarations in force, and the table of the newest ones.

ghost use Rattle.std.specs.Prelude.{◌≡◌, [], ◌∷◌, drop, slice_get, OnOk, OnErr};
ghost use Rattle.std.specs.Option.{option_map};
ghost use Rattle.sy_rules.specs.Names.{look_up, outside};
ghost use Rattle.sy_names.specs.Index.{is_within};

use crate::newest::Newest;
use std::alloc::{AllocError, Global};
use std::marker::Model;
use sy_rules::Named;

/// A declaration, with the number of the one of the same name that it hides. Its own number is how many are older.
#[derive(Drop)]
pub struct Declaration {
    pub name: Vec<u8>,
    pub named: Named,
    pub hides: Option<usize>,
}

/// Seen as a list, the newest first.
#[derive(Drop)]
pub struct Declarations {
    oldest_first: Vec<Declaration>,
    newest: Newest,
}

impl Model for Declarations {
    ghost use Rattle.std.specs.Prelude.{List, map, reverse};
    ghost use Rattle.sy_rules.specs.declared.names.Entry.{Entry};
    ghost use Rattle.sy_names.specs.Index.{IsIndexed, entry_of};

    ghost Value = { List Entry };

    ghost view = { λ d. map entry_of (reverse d.oldest_first.items) };

    ghost invariant = { λ d. IsIndexed d.newest (reverse d.oldest_first.items) };
}

fn named_at(declarations: &[Declaration], number: usize) -> Option<Named>
    ensures { result ≡ option_map (λ d. d.named) (slice_get declarations.now number) }
{
    match declarations.get(number) {
        Some(declaration) => Some(declaration.named),
        None => None,
    }
}

impl Declarations {
    pub fn new(alloc: Global) -> Declarations
        ensures { result ≡ [] }
    {
        Declarations {
            oldest_first: Vec::new(alloc),
            newest: Newest::new(alloc),
        }
    }

    pub fn find(&self, name: &[u8]) -> Option<Named>
        ensures { result ≡ look_up self.now name.now }
    {
        match self.newest.get(name) {
            Some(number) => named_at(&self.oldest_first, number),
            None => None,
        }
    }

    pub fn push(&mut self, alloc: Global, name: &[u8], named: Named) -> Result<(), AllocError>
        ensures ok { OnOk result (self.new ≡ record { name = name.now; named = named } ∷ self.old) }
        ensures err { OnErr result (self.new ≡ self.old) }
    {
        let key = Vec::from_slice(alloc, name)?;
        let name = Vec::from_slice(alloc, name)?;
        self.oldest_first.reserve(1)?;
        let hides = self.newest.set(key, Some(self.oldest_first.len()))?;
        self.oldest_first.push(Declaration { name, named, hides })?;
        Ok(())
    }

    /// Takes the newest one away, so that what it hid is found again.
    fn pop(&mut self)
        ensures { self.new ≡ drop 1 self.old }
    {
        if let Some(newest) = self.oldest_first.pop() {
            let _ = self.newest.set(newest.name, newest.hides);
        }
    }

    /// The newest one is in a scope with so many round it.
    fn is_within(&self, depth: u32) -> bool
        ensures { result ≡ is_within depth self.now }
    {
        match self.oldest_first.last() {
            Some(newest) => depth <= newest.named.depth,
            None => false,
        }
    }

    /// Takes away what was declared in the innermost scopes, from this depth on.
    pub fn leave(&mut self, depth: u32)
        ensures { self.new ≡ outside depth self.old }
    {
        while self.is_within(depth) {
            self.pop();
        }
    }
}
