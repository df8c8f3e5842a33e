//! The types that an expression or a name can have.

ghost use Rattle.std.specs.Prelude.{◌≡◌, ◌≢◌, IfSome, IfNone};
ghost use Rattle.sy_typed.specs.declared.things.Dimensions.{Dimensions};
ghost use Rattle.sy_typed.specs.Things.{dimension_count};

use sy_access::Mode;
use sy_num::Kind;
use sy_tree::{AccessTag, FunctionObject};

#[derive(Clone, Copy, PartialEq, Eq, Debug)]
pub enum Dimensions {
    One,
    Two,
    Three,
}

impl Dimensions {
    /// So many dimensions, if there may be so many.
    pub fn of(count: u64) -> Option<Dimensions>
        ensures found { IfSome result (λ d. dimension_count d ≡ count) }
        ensures none { IfNone result ((d : Dimensions) → dimension_count d ≢ count) }
    {
        match count {
            1 => Some(Dimensions::One),
            2 => Some(Dimensions::Two),
            3 => Some(Dimensions::Three),
            _ => None,
        }
    }

    pub fn count(self) -> u32
        ensures { result ≡ dimension_count self }
    {
        match self {
            Dimensions::One => 1,
            Dimensions::Two => 2,
            Dimensions::Three => 3,
        }
    }
}

/// A type: an integer's, or one of the library, with the kind of its elements, its dimensions and its mode.
#[derive(Clone, Copy, PartialEq, Eq, Debug)]
pub enum Thing {
    Integer(Kind),
    Queue,
    Device,
    Context,
    Event,
    /// A vector of integers.
    Vector(Kind),
    DeviceVector,
    ThreadVector,
    Thread,
    Buffer(Kind, Dimensions),
    Accessor(Kind, Dimensions, Mode),
    HostAccessor(Kind, Dimensions, Mode),
    LocalAccessor(Kind, Dimensions),
    Range(Dimensions),
    Id(Dimensions),
    Item(Dimensions),
    NdRange(Dimensions),
    NdItem(Dimensions),
    Group(Dimensions),
    Handler,
    /// What a `catch` names.
    Exception,
    /// A value of `code()` or of `errc`.
    ErrorCode,
    /// A value of `reduction(..)`.
    Reduction(Kind, FunctionObject),
    /// A kernel's second parameter, which combines values for a reduction.
    Reducer(Kind, FunctionObject),
    FunctionObject(FunctionObject, Option<Kind>),
    AccessTag(AccessTag),
    /// `property::queue::in_order`.
    InOrder,
    /// `property::reduction::initialize_to_identity`.
    InitializeToIdentity,
    /// What fewer indexes give than an object has dimensions: the kind of its elements, its dimensions, how many
    /// indexes are still wanted, and its mode.
    Indexed(Kind, Dimensions, Dimensions, Mode),
    /// What `data()` of a vector gives.
    Data(Kind),
    /// What a call without a value has, and the name of a function.
    Void,
}

/// What is known of a declared name. It is fixed where it is const, a constant, or a copy that a kernel or
/// thread has captured: nothing may be assigned to it then.
#[derive(Clone, Copy, PartialEq, Eq, Debug)]
pub struct Declared {
    pub what: Thing,
    pub fixed: bool,
}

/// The names after `errc`.
#[derive(Clone, Copy, PartialEq, Eq, Debug)]
pub enum ErrorName {
    Runtime,
    NdRange,
    KernelArgument,
    Invalid,
    MemoryAllocation,
}

/// A member of an object of the library.
#[derive(Clone, Copy, PartialEq, Eq, Debug)]
pub enum Member {
    Submit,
    Wait,
    WaitAndThrow,
    GetDevice,
    CreateSubDevices,
    /// `get_info<info::device::max_compute_units>`.
    MaxComputeUnits,
    GetRange,
    Size,
    PushBack,
    Data,
    EmplaceBack,
    Join,
    Code,
    SingleTask,
    ParallelFor,
    Fill,
    Copy,
    DependsOn,
    Get,
    GetId,
    GetLinearId,
    GetGlobalId,
    GetLocalId,
    GetGlobalRange,
    GetLocalRange,
    GetGroupRange,
    GetGroup,
    GetGlobalLinearId,
    GetLocalLinearId,
    GetGroupLinearId,
    Combine,
}
