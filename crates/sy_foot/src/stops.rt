// Why a touch isn't noted.

ghost use Rattle.std.specs.Prelude.{◌≡◌};

use std::alloc::AllocError;

/// Why a touch isn't noted.
#[derive(Clone, Copy, Debug, PartialEq, Eq)]
pub enum TouchStop {
    /// An earlier item of the phase touched the cell, and one of the two touches is a write.
    Clash,
    /// There is no room for a cell of that number.
    Outside,
    Memory,
}

impl From<AllocError> for TouchStop {
    ghost use Rattle.sy_foot.specs.declared.stops.TouchStop.TheVariants.{Memory};

    ghost from_gives = { λ _ e. e ≡ Memory };

    fn from(_e: AllocError) -> TouchStop {
        TouchStop::Memory
    }
}

/// Why a group doesn't join the earlier ones.
#[derive(Clone, Copy, Debug, PartialEq, Eq)]
pub enum AbsorbStop {
    /// It touched a cell that an earlier group touched, and one of the two wrote.
    Clash,
    Memory,
}

impl From<AllocError> for AbsorbStop {
    ghost use Rattle.sy_foot.specs.declared.stops.AbsorbStop.TheVariants.{Memory};

    ghost from_gives = { λ _ e. e ≡ Memory };

    fn from(_e: AllocError) -> AbsorbStop {
        AbsorbStop::Memory
    }
}

/// Why cells aren't numbered.
#[derive(Clone, Copy, Debug, PartialEq, Eq)]
pub enum NumberingStop {
    /// There are more than 2^32 - 1 cells, or local lists.
    TooMany,
    Memory,
}

impl From<AllocError> for NumberingStop {
    ghost use Rattle.sy_foot.specs.declared.stops.NumberingStop.TheVariants.{Memory};

    ghost from_gives = { λ _ e. e ≡ Memory };

    fn from(_e: AllocError) -> NumberingStop {
        NumberingStop::Memory
    }
}
