// The small lists of plain data that requests and answers are made of.

ghost use Rattle.std.specs.Prelude.{◌≡◌, ◌++◌, length, slice_get, IfOk, OnOk, OnErr};

use std::alloc::{AllocError, Global};
use std::marker::Model;

/// A list of numbers, such as the elements of a buffer.
#[derive(Clone, Debug, Drop)]
pub struct Values {
    items: Vec<i128>,
}

impl Model for Values {
    ghost use Rattle.std.specs.Prelude.{List, ℤ};

    ghost Value = { List ℤ };

    ghost view = { λ s. s.items.items };
}

impl Values {
    pub fn of(items: Vec<i128>) -> Values
        ensures { result ≡ items.items }
    {
        Values { items }
    }

    pub fn items(&self) -> &[i128]
        ensures { result.now ≡ self.now }
    {
        self.items.as_slice()
    }

    /// How many numbers it has.
    pub fn len(&self) -> usize
        ensures { result ≡ length self.now }
    {
        self.items.len()
    }

    /// The number at an index, if there is one.
    #[inline]
    pub fn get(&self, index: usize) -> Option<i128>
        ensures { result ≡ slice_get self.now index }
    {
        self.items.get(index).copied()
    }

    /// The vector that it was made of, which takes no memory.
    pub fn into_items(self) -> Vec<i128>
        ensures { result.items ≡ self }
    {
        self.items
    }

    /// The same numbers in a list of their own.
    pub fn copy(&self, alloc: Global) -> Result<Values, AllocError>
        ensures { IfOk result (λ values. values ≡ self.now) }
    {
        Ok(Values {
            items: Vec::from_slice(alloc, self.items.as_slice())?,
        })
    }
}

/// A list of the numbers by which things are known, such as nodes.
#[derive(Clone, Debug, Drop)]
pub struct Numbers {
    items: Vec<u32>,
}

impl Model for Numbers {
    ghost use Rattle.std.specs.Prelude.{List, ℕ};

    ghost Value = { List ℕ };

    ghost view = { λ s. s.items.items };
}

impl Numbers {
    pub fn of(items: Vec<u32>) -> Numbers
        ensures { result ≡ items.items }
    {
        Numbers { items }
    }

    pub fn items(&self) -> &[u32]
        ensures { result.now ≡ self.now }
    {
        self.items.as_slice()
    }

    /// The same numbers in a list of their own.
    pub fn copy(&self, alloc: Global) -> Result<Numbers, AllocError>
        ensures { IfOk result (λ numbers. numbers ≡ self.now) }
    {
        Ok(Numbers {
            items: Vec::from_slice(alloc, self.items.as_slice())?,
        })
    }
}

/// A list of counts of elements.
#[derive(Clone, Debug, Drop)]
pub struct Sizes {
    items: Vec<u64>,
}

impl Model for Sizes {
    ghost use Rattle.std.specs.Prelude.{List, ℕ};

    ghost Value = { List ℕ };

    ghost view = { λ s. s.items.items };
}

impl Sizes {
    pub fn of(items: Vec<u64>) -> Sizes
        ensures { result ≡ items.items }
    {
        Sizes { items }
    }

    pub fn items(&self) -> &[u64]
        ensures { result.now ≡ self.now }
    {
        self.items.as_slice()
    }

    /// The same counts in a list of their own.
    pub fn copy(&self, alloc: Global) -> Result<Sizes, AllocError>
        ensures { IfOk result (λ sizes. sizes ≡ self.now) }
    {
        Ok(Sizes {
            items: Vec::from_slice(alloc, self.items.as_slice())?,
        })
    }
}

/// A list of bytes, such as a printed text.
#[derive(Clone, Debug, Drop)]
pub struct Bytes {
    items: Vec<u8>,
}

impl Model for Bytes {
    ghost use Rattle.std.specs.Prelude.{List, ℕ};

    ghost Value = { List ℕ };

    ghost view = { λ s. s.items.items };
}

impl Bytes {
    pub fn of(items: Vec<u8>) -> Bytes
        ensures { result ≡ items.items }
    {
        Bytes { items }
    }

    pub fn items(&self) -> &[u8]
        ensures { result.now ≡ self.now }
    {
        self.items.as_slice()
    }

    /// The same bytes in a list of their own.
    pub fn copy(&self, alloc: Global) -> Result<Bytes, AllocError>
        ensures { IfOk result (λ bytes. bytes ≡ self.now) }
    {
        Ok(Bytes {
            items: Vec::from_slice(alloc, self.items.as_slice())?,
        })
    }

    /// Adds other bytes at the end.
    pub fn append(&mut self, more: &Bytes) -> Result<(), AllocError>
        ensures ok { OnOk result (self.new ≡ self.old ++ more.now) }
        ensures err { OnErr result (self.new ≡ self.old) }
    {
        self.items.extend_from_slice(more.items.as_slice())
    }
}
