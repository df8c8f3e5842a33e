//! Whether arguments are those that the library takes, and what a lambda is given for.

use sy_typed::{Dimensions, Thing};

/// How arguments fit what the library takes: they do, or the rule of that name is broken.
#[derive(Clone, Copy, PartialEq, Eq, Debug)]
pub enum Fit {
    Fits,
    WrongDimension,
    WrongArguments,
    WrongElement,
}

/// A row of the library: whether the arguments fit it, and the type of what it gives, if that can be told.
#[derive(Clone, Copy, PartialEq, Eq, Debug)]
pub struct Row {
    pub fit: Fit,
    pub gives: Option<Thing>,
}

/// The dimensions that are written between `<` and `>`.
#[derive(Clone, Copy, PartialEq, Eq, Debug)]
pub enum Wanted {
    /// None are written.
    Unwritten,
    /// No object has what is written.
    Unknown,
    Written(Dimensions),
}

/// What a kernel's first parameter has to be.
#[derive(Clone, Copy, PartialEq, Eq, Debug)]
pub enum KernelIndex {
    /// There is none.
    Absent,
    /// An id or item, as the kernel goes over a range of these dimensions.
    OverRange(Dimensions),
    /// An nd_item.
    OverNdRange(Dimensions),
    /// Over what the kernel goes isn't known.
    Unknown,
}

/// What a lambda is given for.
#[derive(Clone, Copy, PartialEq, Eq, Debug)]
pub enum Role {
    Group,
    /// A thread, with the number of its variable or vector.
    Thread(u32),
    /// A kernel with its index and, for a reduction, the type of its second parameter, if that is known.
    Kernel(KernelIndex, Option<Option<Thing>>),
}
