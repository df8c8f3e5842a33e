//! The one-copy machine: what a SYCL program does when each command group runs by itself on one
//! copy of each buffer. These are definitions and laws about them; no code of the runtime is here.
#![tactic(auto)]

pub mod laws;

use sy_access::{Needs, Numbers, Values};
use sy_work::{Answer, Command, Fault};

/// What a buffer is made over.
#[derive(Clone, Copy, PartialEq, Eq, Debug)]
pub enum Origin {
    /// The numbers of a vector, which get the contents back at the buffer's end.
    Vector,
    /// A range alone, which starts as zeros.
    Range,
    /// Elements of another buffer: a sub-buffer (SYCL 2020, 4.7.2.1). It has none of its own.
    Part,
}

/// A buffer: its numbers, what it is made over, and whether it has ended.
#[derive(Debug, Drop)]
pub struct Buffer {
    pub values: Values,
    pub origin: Origin,
    pub ended: bool,
}

/// A queue: the place of its context, and whether its nodes keep their order.
#[derive(Clone, Copy, PartialEq, Eq, Debug)]
pub struct Queue {
    pub place: u32,
    pub in_order: bool,
}

/// What an entry of the order is for.
#[derive(Debug, Drop)]
pub enum Work {
    /// A node with its number, its queue and its command.
    Node(u32, u32, Command),
    /// A host access: its thread, and its number among the accesses of that thread.
    Access(u32, u32),
    /// The end of a buffer over a vector: the thread that asked for it, and the buffer.
    End(u32, u32),
}

/// How far an entry has come. A failed node is done, and keeps its fault.
#[derive(Clone, Copy, PartialEq, Eq, Debug)]
pub enum Stage {
    Pending,
    /// A host access that is open.
    Granted,
    Done,
    Failed(Fault),
}

/// A node, a host access or the end of a buffer over a vector.
#[derive(Debug, Drop)]
pub struct Entry {
    pub work: Work,
    pub needs: Needs,
    /// The nodes that it names by `depends_on`.
    pub after: Numbers,
    /// The in-order queue of a node, if its queue is one.
    pub in_order: Option<u32>,
    pub place: u32,
    pub stage: Stage,
}

/// What a thread waits for.
#[derive(Debug, Drop)]
pub enum Waits {
    /// Nothing: its last ask is answered.
    Ready,
    /// This answer is due, and reaches the thread at the end of the step.
    Due(Answer),
    /// Its host access, or the end of its buffer.
    OnEntry,
    OnNode(u32),
    /// The nodes of a queue whose numbers are below the second number.
    OnQueue(u32, u32),
    OnThread(u32),
    /// An answer that never comes: its ask didn't hold together.
    Never,
    /// Nothing: it has made its last step, with this value.
    Finished(i32),
}
