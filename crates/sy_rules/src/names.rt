//! The names that are declared at a place of the source, and the setting of that place.

ghost use Rattle.std.specs.Prelude.{◌≡◌};

use crate::seen::Constant;
use std::marker::Model;
use sy_lex::Text;
use sy_note::Spot;
use sy_num::Kind;
use sy_typed::Thing;

/// What is known of a declared name, and where it is declared. A type that couldn't be found out is None. It names an
/// element where a range-for over integers declares it by reference. `depth` is how many scopes are round the
/// declaration: 0 for what the file declares. A function has its place among the functions.
#[derive(Clone, Copy, PartialEq, Eq, Debug)]
pub struct Named {
    pub number: u32,
    pub what: Option<Thing>,
    pub spot: Spot,
    pub fixed: bool,
    pub names_element: bool,
    pub depth: u32,
    pub constant: Constant,
    pub function: Option<u32>,
}

#[derive(Drop)]
pub struct Entry {
    pub name: Text,
    pub named: Named,
}

/// The declared names, the newest first.
#[derive(Drop)]
pub struct Entries {
    newest_first: Vec<Entry>,
}

impl Model for Entries {
    ghost use Rattle.std.specs.Prelude.{List};
    ghost use Rattle.sy_rules.specs.declared.names.Entry.{Entry};

    ghost Value = { List Entry };

    ghost view = { λ e. e.newest_first.items };
}

/// How a parameter takes its argument: an integer by value; an object by reference, of a type, and with leave to
/// change it or not.
#[derive(Clone, Copy, PartialEq, Eq, Debug)]
pub enum Passed {
    Integer,
    /// A constant object can be passed where the flag is set.
    Reference(Option<Thing>, bool),
}

/// How a function's parameters take their arguments, in their order.
#[derive(Drop)]
pub struct Parameters {
    in_order: Vec<Passed>,
}

impl Model for Parameters {
    ghost use Rattle.std.specs.Prelude.{List};
    ghost use Rattle.sy_rules.specs.declared.names.Passed.{Passed};

    ghost Value = { List Passed };

    ghost view = { λ p. p.in_order.items };
}

impl Parameters {
    pub fn of(in_order: Vec<Passed>) -> Parameters
        ensures { result ≡ in_order.items }
    {
        Parameters { in_order }
    }

    pub fn items(&self) -> &[Passed]
        ensures { result.now ≡ self.now }
    {
        &self.in_order
    }
}

/// What a call of a function needs to know of it.
#[derive(Drop)]
pub struct Signature {
    pub is_main: bool,
    pub returned: Option<Kind>,
    pub parameters: Parameters,
}

/// The functions that are declared so far, the first of the source first.
#[derive(Drop)]
pub struct Signatures {
    in_order: Vec<Signature>,
}

impl Model for Signatures {
    ghost use Rattle.std.specs.Prelude.{List};
    ghost use Rattle.sy_rules.specs.declared.names.Signature.{Signature};

    ghost Value = { List Signature };

    ghost view = { λ s. s.in_order.items };
}

/// A thread's lambda round a place of the source: how many scopes are outside it, whether it takes by reference what
/// it uses, and the number of the thread's variable or vector, before which that has to be declared.
#[derive(Clone, Copy, PartialEq, Eq, Debug)]
pub struct ThreadScope {
    pub outside: u32,
    pub by_reference: bool,
    pub variable: u32,
}

/// The threads' lambdas round a place, the innermost first.
#[derive(Drop)]
pub struct Threads {
    innermost_first: Vec<ThreadScope>,
}

impl Model for Threads {
    ghost use Rattle.std.specs.Prelude.{List};
    ghost use Rattle.sy_rules.specs.declared.names.ThreadScope.{ThreadScope};

    ghost Value = { List ThreadScope };

    ghost view = { λ t. t.innermost_first.items };
}

/// What the innermost command group or kernel is that holds a place, if there is one.
#[derive(Clone, Copy, PartialEq, Eq, Debug)]
pub enum Within {
    Host,
    Group,
    Kernel,
}

/// What the place of an expression takes beyond what any place takes.
#[derive(Clone, Copy, PartialEq, Eq, Debug)]
pub enum Taken {
    Nothing,
    /// It is an argument of a buffer, which takes `data()` of a vector.
    Data,
    /// It is a statement by itself.
    Statement,
    /// It is what a reduction's statement combines into.
    Reducer,
    /// It is an operand of `==` or `!=`, which takes error codes.
    Compared,
    /// It is an argument of `depends_on`, which a group may give an event.
    Dependency,
    /// It is used as a group may use a buffer.
    Source,
}

/// Where a place stands: in what, in which function, what that returns, whether a loop is round it, how many scopes
/// are outside the kernel, and what the place takes.
#[derive(Clone, Copy, PartialEq, Eq, Debug)]
pub struct Setting {
    pub within: Within,
    pub function: Option<u32>,
    pub returned: Option<Kind>,
    pub in_loop: bool,
    pub kernel: Option<u32>,
    pub taken: Taken,
}

/// The names at a place, with how many scopes are round it, and the numbers of the next declaration and the next
/// lambda's body.
#[derive(Drop)]
pub struct Names {
    pub entries: Entries,
    pub functions: Signatures,
    pub threads: Threads,
    pub depth: u32,
    pub next: u32,
    pub next_body: u32,
    pub setting: Setting,
}
