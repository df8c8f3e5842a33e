// The commands of command groups, what they are given and what they do.

ghost use Rattle.std.specs.Prelude.{◌≡◌};

use crate::endings::Fault;
use std::marker::Model;
use sy_access::{Log, Sizes, Values};
use sy_num::Kind;
use sy_range::{NdRange, Range};

/// A kernel's body with what it captured.
///
/// `locals` are the counts of elements of its local accessors, by slot, and `turns` the turns that
/// each work item may take.
#[derive(Clone, Debug, Drop)]
pub struct Kernel {
    pub code: u32,
    pub captures: Values,
    pub locals: Sizes,
    pub turns: u64,
}

/// The operator of a reduction or a group function (SYCL 2020, "Function objects").
#[derive(Clone, Copy, PartialEq, Eq, Debug)]
pub enum RedOp {
    Plus,
    Times,
    Min,
    Max,
    And,
    Or,
    Xor,
}

/// A kernel over a range whose items' results are combined into one variable.
///
/// `need` is the place of the variable's need among the needs of the command. `keep` says that the
/// variable's former value takes part. `line` is that of `parallel_for`. Where `plain`, the range is
/// `range.global`, and `range.local` isn't looked at.
#[derive(Clone, Debug, Drop)]
pub struct Reduction {
    pub range: NdRange,
    pub plain: bool,
    pub kernel: Kernel,
    pub need: u32,
    pub op: RedOp,
    pub kind: Kind,
    pub keep: bool,
    pub line: u32,
}

/// What a group function computes; `Broadcast` has the local linear id of the item whose value
/// every item gets.
#[derive(Clone, Copy, PartialEq, Eq, Debug)]
pub enum Form {
    Reduce,
    Inclusive,
    Exclusive,
    Broadcast(u64),
}

/// A work item's call of a group function with its own value `num`.
#[derive(Clone, Copy, PartialEq, Eq, Debug)]
pub struct Collect {
    pub form: Form,
    pub op: RedOp,
    pub kind: Kind,
    pub num: i128,
}

/// The one command of a command group.
///
/// `Fill` has the place of its target among the command's needs, and the number. `Copy` has the places
/// of its source and of its target, in this order.
#[derive(Clone, Debug, Drop)]
pub enum Command {
    Single(Kernel),
    Plain(Range, Kernel),
    Nd(NdRange, Kernel),
    Fill(u32, i128),
    Copy(u32, u32),
    Reduce(Reduction),
}

/// What a command is given as it starts: for each of its needs the root, the first element, and the
/// numbers from that element on.
#[derive(Clone, Debug, Drop)]
pub struct Inputs {
    items: Vec<(u32, u32, Values)>,
}

impl Model for Inputs {
    ghost use Rattle.std.specs.Prelude.{List, ℕ, ℤ};

    ghost Value = { List (ℕ × ℕ × List ℤ) };

    ghost view = { λ s. s.items.items };
}

impl Inputs {
    ghost use Rattle.std.specs.Prelude.{length, slice_get};
    ghost use Rattle.sy_work.specs.Inputs.{number_at_index};

    pub fn of(items: Vec<(u32, u32, Values)>) -> Inputs
        ensures { result ≡ items.items }
    {
        Inputs { items }
    }

    pub fn items(&self) -> &[(u32, u32, Values)]
        ensures { result.now ≡ self.now }
    {
        self.items.as_slice()
    }

    /// How many lists there are.
    pub fn len(&self) -> usize
        ensures { result ≡ length self.now }
    {
        self.items.len()
    }

    /// The number at an index of the k-th list, if there is one.
    #[inline]
    pub fn get(&self, k: usize, index: usize) -> Option<i128>
        ensures { result ≡ number_at_index (slice_get self.now k) index }
    {
        match self.items.get(k) {
            Some((_root, _from, values)) => values.get(index),
            None => None,
        }
    }
}

/// What a command did: it wrote these cells, or failed and wrote none.
#[derive(Clone, Debug, Drop)]
pub enum Outcome {
    Wrote(Log),
    Failed(Fault),
}
