//! The state of a walk over a source.

use sqlite_items::Items;
use std::alloc::Global;
use sy_found::{Found, Place};
use sy_names::Names;
use sy_rules::{Seen, SeenArgument};
use sy_typed::{Typed, TypedArgument};

/// A part that was looked at: what is seen of it, and its typed tree.
pub type Part = (Seen, Typed);

/// Values that were looked at.
pub type Parts = (Items<Seen>, Items<Typed>);

/// Arguments that were looked at.
pub type Arguments = (Items<SeenArgument>, Items<TypedArgument>);

/// The names at a place of the source, what is found so far, and the innermost statement round the place.
#[derive(Drop)]
pub struct Walk {
    pub alloc: Global,
    pub names: Names,
    pub found: Found,
    pub place: Option<Place>,
}
