// An ask that is open.

ghost use Rattle.std.specs.Prelude.{◌≡◌};
ghost use Rattle.sy_sums.specs.Hosts as spec;

use crate::sums::Operand;
use sy_work::Ask;

/// The ask of a sum, which is known by it so that its bytes needn't be kept, or another ask.
#[derive(Drop)]
pub enum Asked {
    Sum(Operand),
    Other(Ask),
}

/// How the ask of the next sum is kept. Behind the last one main finishes.
pub fn kept(sum: Option<Operand>) -> Asked
    ensures { result ≡ spec.asked_of sum }
{
    match sum {
        Some(sum) => Asked::Sum(sum),
        None => Asked::Other(Ask::Finish(0)),
    }
}
