// The state of a host thread or a work item.

use sqlite_items::Items;
use sy_access::{Cell, Log, Needs, Numbers, Sizes, Values};
use sy_range::Position;
use sy_stack::{Stack, Table};
use sy_work::{Answer, Ask, Command};

/// Whose elements an accessor has: a root's, a local accessor's of the command group, or a host access's.
#[derive(Clone, Copy)]
pub enum Area {
    Root,
    Local,
    Access,
}

/// What an expression designates, where it is an lvalue (C++17, "Lvalues and rvalues").
#[derive(Clone, Copy)]
pub enum Location {
    /// Nothing: it is a value alone.
    Nowhere,
    /// The local with this number.
    Local(u32),
    /// An element of a vector.
    Element,
    /// An element of an accessor.
    Cell(Area),
}

/// A vector of integers or of threads. Vectors are known by their index among the thread's.
#[derive(Drop)]
pub struct Row {
    pub values: Values,
    /// Whether its elements count for the limit: those of threads don't.
    pub counts: bool,
    /// The buffer that is over it.
    pub leased: Option<u32>,
}

/// What has to be ended with its scope: a vector, a vector of threads, a thread, a buffer, or a host access.
#[derive(Clone, Copy)]
pub enum Live {
    Row(u32),
    Team(u32),
    Thread(u32),
    Buffer(u32),
    Access(u32),
}

/// A command group, as far as its lambda has come.
#[derive(Drop)]
pub struct Group {
    pub needs: Needs,
    /// How many elements each local accessor has.
    pub locals: Sizes,
    pub after: Numbers,
    /// The roots of its reductions.
    pub reduced: Numbers,
    pub command: Option<Command>,
}

/// A step of a work item: a read of a cell, or a write with its number. The last number is the line.
#[derive(Clone, Copy)]
pub enum Step {
    Read(Cell, u32),
    Wrote(Cell, i128, u32),
}

#[derive(Drop)]
pub struct Scope {
    pub live: Stack<Live>,
}

/// A store of a phase: a cell that isn't listed is 0.
#[derive(Drop)]
pub struct Store {
    pub cells: Items<(Cell, i128)>,
}

/// Where a body is, but for its locals. A host thread leaves `at` and what follows as it is, a work item what stands
/// before `turns`.
#[derive(Drop)]
pub struct World {
    pub rows: Table<Row>,
    /// The elements of each host access.
    pub accesses: Table<Values>,
    /// What is to be ended, by scope: the innermost first, and in each the last made first.
    pub scopes: Stack<Scope>,
    /// The threads that were joined, the last first.
    pub joined: Stack<u32>,
    /// How many `try` are open.
    pub tries: u32,
    pub group: Option<Group>,
    pub turns: u64,
    /// The answers that are left, the next first.
    pub feed: Stack<Answer>,
    /// What was asked, with its answer, the last first.
    pub asked: Stack<(Ask, Answer)>,
    pub at: Option<Position>,
    /// The store of the phase, and those of the phases after it.
    pub store: Store,
    pub later: Items<Store>,
    /// The steps of the phase, the last one first.
    pub steps: Stack<Step>,
}

/// Where a body is: the object of each declaration in the function that runs, and all else.
#[derive(Drop)]
pub struct Run {
    pub frame: Table<Values>,
    pub world: World,
}
