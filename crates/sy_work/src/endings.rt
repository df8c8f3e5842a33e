// What can go wrong in host code and kernels, and how a run ends.

use crate::asks::Why;
use sy_access::{Bytes, Cell};

/// What undefined behaviour or limit a step met.
#[derive(Clone, Copy, PartialEq, Eq, Debug)]
pub enum Cause {
    Overflow,
    ZeroDivisor,
    Shift,
    Index,
    /// A leased vector was used.
    Leased,
    Turns,
    /// Two work items touch the cell in one phase, or two groups in one kernel, and one writes.
    Clash(Cell),
    /// The items of a work-group stop at different places.
    Divergence,
}

/// A trap of host code.
#[derive(Clone, Copy, PartialEq, Eq, Debug)]
pub struct HostTrap {
    pub thread: u32,
    pub line: u32,
    pub cause: Cause,
}

/// Why a command failed: at which work item, by its linear id in the whole range.
#[derive(Clone, Copy, PartialEq, Eq, Debug)]
pub struct Fault {
    pub item: u64,
    pub line: u32,
    pub cause: Cause,
}

/// The fault of a node.
#[derive(Clone, Copy, PartialEq, Eq, Debug)]
pub struct KernelError {
    pub node: u32,
    pub fault: Fault,
}

/// How a run ends.
#[derive(Clone, Copy, PartialEq, Eq, Debug)]
pub enum Ending {
    Returned(i32),
    Terminated(Why),
    KernelFailed(KernelError),
    Trapped(HostTrap),
    /// The thread and the line at which it had no turn left.
    TurnsSpent(u32, u32),
    /// No thread may step, and no node is left that could take effect.
    Stuck,
    OutputFull,
    HistoryFull,
}

/// How a run came out: how it ended, the threads of its steps in their order, the bytes printed, and
/// how many copies it needs.
#[derive(Debug, Drop)]
pub struct End {
    pub ending: Ending,
    pub order: Vec<u32>,
    pub output: Bytes,
    pub copies: u64,
}
