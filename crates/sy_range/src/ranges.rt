// Ranges and ids.

ghost use Rattle.std.specs.Prelude.{◌≡◌, ◌<◌, ◌≤◌, length, slice_index};

use crate::shape::Shape;
use std::marker::Model;

/// The extents of an index space of one to three dimensions (SYCL 2020, `range` class).
///
/// Contracts see it as the list of its extents.
#[derive(Clone, Copy, PartialEq, Eq, Debug)]
pub struct Range {
    pub(crate) extents: Shape,
}

impl Model for Range {
    ghost use Rattle.std.specs.Prelude.{List, ℕ};
    ghost use Rattle.sy_range.specs.Shapes.{listed, shape_of};

    ghost Value = { List ℕ };

    ghost view = { λ s. listed s.extents };

    ghost inverse = { λ numbers. record { extents = shape_of numbers } };
}

impl Range {
    pub fn new(numbers: &[u64]) -> Range
        requires some { 1 ≤ length numbers.now }
        requires few { length numbers.now ≤ 3 }
        ensures { result ≡ numbers.now }
    {
        Range {
            extents: Shape::new(numbers),
        }
    }

    /// How many dimensions there are.
    pub fn dims(&self) -> u32
        ensures count { result ≡ length self.now }
        ensures some { 1 ≤ result }
        ensures few { result ≤ 3 }
    {
        self.extents.dims()
    }

    /// The extent of dimension `k`, counted from 0.
    pub fn extent(&self, k: u32) -> u64
        requires { k < length self.now }
        ensures { result ≡ slice_index self.now k }
    {
        self.extents.at(k)
    }
}

/// The coordinates of one item of a range (SYCL 2020, `id` class).
///
/// Contracts see it as the list of its coordinates.
#[derive(Clone, Copy, PartialEq, Eq, Debug)]
pub struct Id {
    pub(crate) coordinates: Shape,
}

impl Model for Id {
    ghost use Rattle.std.specs.Prelude.{List, ℕ};
    ghost use Rattle.sy_range.specs.Shapes.{listed, shape_of};

    ghost Value = { List ℕ };

    ghost view = { λ s. listed s.coordinates };

    ghost inverse = { λ numbers. record { coordinates = shape_of numbers } };
}

impl Id {
    pub fn new(numbers: &[u64]) -> Id
        requires some { 1 ≤ length numbers.now }
        requires few { length numbers.now ≤ 3 }
        ensures { result ≡ numbers.now }
    {
        Id {
            coordinates: Shape::new(numbers),
        }
    }

    /// How many dimensions there are.
    pub fn dims(&self) -> u32
        ensures count { result ≡ length self.now }
        ensures some { 1 ≤ result }
        ensures few { result ≤ 3 }
    {
        self.coordinates.dims()
    }

    /// The coordinate of dimension `k`, counted from 0.
    pub fn extent(&self, k: u32) -> u64
        requires { k < length self.now }
        ensures { result ≡ slice_index self.now k }
    {
        self.coordinates.at(k)
    }
}
