//! What the rules see of an expression.

use sqlite_items::Items;
use sy_access::Mode;
use sy_note::Spot;
use sy_tree::Brackets;
use sy_typed::{Dimensions, Thing};

/// What can be done with an expression but reading it.
#[derive(Clone, Copy, PartialEq, Eq, Debug)]
pub enum Denotes {
    Unknown,
    Value,
    /// A variable, or an element of a vector; the flag says whether it is const.
    Place(bool),
    /// An element of an accessor with this mode.
    Element(Mode),
}

/// The value of an expression that is built of literals, constants, operators and casts.
#[derive(Clone, Copy, PartialEq, Eq, Debug)]
pub enum Constant {
    /// A rule is broken in it.
    Unknown,
    /// Something else is in it.
    Varying,
    /// An operator in it has no value.
    Undefined,
    Number(i128),
}

/// What is seen of an expression: its type, unless a rule is broken in it; its first token; what it denotes; its
/// value, if it is a constant; and the number of the declaration that it names. It is bare if it is the name alone,
/// without parentheses.
#[derive(Clone, Copy, PartialEq, Eq, Debug)]
pub struct Seen {
    pub what: Option<Thing>,
    pub first: Spot,
    pub denotes: Denotes,
    pub constant: Constant,
    pub variable: Option<u32>,
    pub is_bare: bool,
}

/// What is seen of a lambda: whether no rule is broken in it, and the dimensions of its first parameter, if it is an
/// id, an item or an nd_item.
#[derive(Clone, Copy, PartialEq, Eq, Debug)]
pub struct SeenLambda {
    pub is_sound: bool,
    pub dimensions: Option<Dimensions>,
}

/// What is seen of an argument: of a value, of the values in braces, or of a lambda.
#[derive(Drop)]
pub enum SeenArgument {
    Value(Seen),
    Braced(Items<Seen>),
    Lambda(SeenLambda),
}

/// What is seen of an initializer: of the value behind `=`, or of the arguments in brackets.
#[derive(Drop)]
pub enum SeenInitializer {
    Copy(Seen),
    Direct(Brackets, Items<SeenArgument>),
}
