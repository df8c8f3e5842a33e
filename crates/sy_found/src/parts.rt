//! A call, and the place of a statement.

use sy_note::Spot;
use sy_rules::Within;

/// The function with this number is called from a kernel, a group or host code.
#[derive(Clone, Copy, PartialEq, Eq, Debug)]
pub struct Call {
    pub from: Within,
    pub to: u32,
}

/// The innermost statement round a place: in what it stands, and its first token.
#[derive(Clone, Copy, PartialEq, Eq, Debug)]
pub struct Place {
    pub within: Within,
    pub statement: Spot,
}
