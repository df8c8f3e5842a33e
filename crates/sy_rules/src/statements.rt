//! What the rules know of a statement beside its parts.

use sy_typed::Thing;

/// What the names of one `auto` share so far.
#[derive(Clone, Copy, PartialEq, Eq, Debug)]
pub enum Shared {
    /// Nothing is known yet.
    Unknown,
    Type(Thing),
    /// A name with another type than the first one's was told.
    Differs,
}

/// Where a statement stands.
#[derive(Clone, Copy, PartialEq, Eq, Debug)]
pub enum Standing {
    /// In a list: a block there opens a scope.
    InList,
    /// As a body, or the rest of a scope: a block there opens none.
    AsBody,
    /// In the head of a `for`, to which what it declares belongs.
    InHead,
}
