// The run of a main that prints sums.

ghost use Rattle.std.specs.Prelude.{◌≡◌, All, IfOk};
ghost use Rattle.sy_onecopy.specs.Sequence.{IsRun, IsSerial};
ghost use Rattle.sy_onecopy.specs.State.{start};
ghost use Rattle.sy_sums.specs.Commands.{commands};
ghost use Rattle.sy_sums.specs.Sums.{sums_program};

use crate::host::{NoCommands, Sums};
use std::alloc::{AllocError, Global};
use sy_plain::run_plain;
use sy_tree::Unit;
use sy_work::End;

/// Runs the sums that a source prints, with so many turns for main: a sum that is printed takes one. Parts of the
/// source that are not of the form are passed over.
pub fn run_sums(alloc: Global, unit: &Unit, turns: u64) -> Result<End, AllocError>
    ensures run { IfOk result (λ e. IsRun (sums_program turns unit.now) e.order.items e.ending e.output e.copies) }
    ensures serial { IfOk result (λ e. IsSerial (sums_program turns unit.now) (start (sums_program turns unit.now)) e.order.items) }
    ensures main_alone { IfOk result (λ e. All (λ t. t ≡ 0) e.order.items) }
    ensures no_commands { IfOk result (λ e. commands (sums_program turns unit.now) e.order.items ≡ 0) }
{
    let main = Sums::new(alloc, unit, turns);
    run_plain(alloc, main, &NoCommands { alloc })
}
