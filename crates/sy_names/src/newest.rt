//! A table from each name to the number of its newest declaration.

ghost use Rattle.std.specs.Prelude.{◌≡◌, ℕ, List, None, if◌then◌else◌, IfOk, OnOk, OnErr};
ghost use Rattle.std.specs.Str.{bytes_eq};
ghost use Rattle.sy_names.specs.Index.{number_in};

use indexmap::IndexMap;
use std::alloc::{AllocError, Global};

/// A name without a declaration has no number, or is not there.
#[derive(Drop)]
pub struct Newest {
    pub numbers: IndexMap<Vec<u8>, Option<usize>>,
}

impl Newest {
    pub fn new(alloc: Global) -> Newest
        ensures { (x : List ℕ) → number_in result x ≡ None }
    {
        Newest {
            numbers: IndexMap::new(alloc),
        }
    }

    pub fn get(&self, name: &[u8]) -> Option<usize>
        ensures { result ≡ number_in self.now name.now }
    {
        match self.numbers.get(name) {
            Some(number) => *number,
            None => None,
        }
    }

    /// Gives the name a number or none, and answers the one that it had.
    pub fn set(&mut self, name: Vec<u8>, number: Option<usize>) -> Result<Option<usize>, AllocError>
        ensures had { IfOk result (λ had. had ≡ number_in self.old name.items) }
        ensures has { OnOk result ((x : List ℕ) → number_in self.new x ≡ (if bytes_eq name.items x then number else number_in self.old x)) }
        ensures unchanged { OnErr result ((x : List ℕ) → number_in self.new x ≡ number_in self.old x) }
        ensures absent { OnErr result (number_in self.old name.items ≡ None) }
    {
        let had = self.numbers.insert(name, number)?;
        Ok(had.flatten())
    }
}
