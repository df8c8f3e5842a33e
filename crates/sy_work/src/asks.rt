// What a thread of host code or a work item asks, and what it is answered.

use crate::commands::{Collect, Command};
use crate::endings::Cause;
use sy_access::{Bytes, Device, Need, Needs, Numbers, Values};
use sy_num::Kind;
use sy_range::Range;

/// A buffer to be made, with the numbers of the vector that it is over, if it is over one.
#[derive(Clone, Debug, Drop)]
pub struct NewBuffer {
    pub kind: Kind,
    pub range: Range,
    pub init: Option<Values>,
}

/// A queue to be made.
#[derive(Clone, Copy, PartialEq, Eq, Debug)]
pub struct NewQueue {
    pub context: u32,
    pub device: Device,
    pub in_order: bool,
}

/// A command group: its command, the needs of its accessors, and the nodes that it names by
/// `depends_on`.
#[derive(Clone, Debug, Drop)]
pub struct Submission {
    pub queue: u32,
    pub command: Command,
    pub needs: Needs,
    pub after: Numbers,
}

/// An error code of the library (SYCL 2020, "Error codes").
#[derive(Clone, Copy, PartialEq, Eq, Debug)]
pub enum Errc {
    Runtime,
    NdRange,
    KernelArgument,
    Invalid,
    MemoryAllocation,
}

/// Why a run is terminated.
#[derive(Clone, Copy, PartialEq, Eq, Debug)]
pub enum Why {
    /// A joinable thread was destroyed.
    Joinable,
    /// A thread was joined that isn't joinable.
    NotJoinable,
    /// Too many threads were made.
    Threads,
    /// A vector would be too long.
    Length,
    /// An error that nothing caught.
    Errc(Errc),
}

/// How a thread ends the run; a number is the line.
#[derive(Clone, Copy, PartialEq, Eq, Debug)]
pub enum Halt {
    Terminated(Why),
    Trapped(Cause, u32),
    TurnsSpent(u32),
}

/// What a thread asks, and waits for.
///
/// A number names a buffer, queue, node or thread, or in `CloseHost` the thread's own host access,
/// each counted from 0. A context's number is its place: 0 is the host, which is no context, 1 the
/// default context, and each context that is made has the next number, up to 16. `MakeSub` has the parent, the linear id of the base and the range; `Spawn` has
/// the body and its captures; `Finish` has main's value. `Barrier` has the source place and the line,
/// `Collect` these and the call. Work items alone ask `Barrier` and `Collect`.
#[derive(Clone, Debug, Drop)]
pub enum Ask {
    Print(Bytes),
    MakeBuffer(NewBuffer),
    MakeSub(u32, u32, Range),
    EndBuffer(u32),
    OpenHost(Need),
    CloseHost(u32, Values),
    MakeContext(Device),
    MakeQueue(NewQueue),
    Submit(Submission),
    WaitNode(u32),
    WaitQueue(u32),
    ThrowQueue(u32),
    Spawn(u32, Values),
    Join(u32),
    Finish(i32),
    Halt(Halt),
    Barrier(u32, u32),
    Collect(u32, u32, Collect),
}

/// What an ask is answered.
#[derive(Clone, Debug, Drop)]
pub enum Answer {
    Done,
    Number(u32),
    Contents(Values),
    Refused(Errc),
}
