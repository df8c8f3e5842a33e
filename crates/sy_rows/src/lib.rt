//! Worked rows: scripts of asks, each with what the one-copy machine makes of it. The plain program
//! plays them, and whatever else runs asks is compared with the same rows.
#![tactic(auto)]

ghost use Rattle.std.specs.Prelude.{IfOk};
ghost use Rattle.sy_onecopy.specs.Sequence.{IsRun, IsSerial};
ghost use Rattle.sy_onecopy.specs.State.{start};
ghost use Rattle.sy_rows.specs.Plays.{program_of};

use std::alloc::{AllocError, Global};
use sy_plain::run_plain;
use sy_scripted::{Script, Scripted, TableRow, Tabled};
use sy_work::End;

/// Plays scripts, of which the first is main's, over kernels that do what the table says.
pub fn play(alloc: Global, scripts: Vec<Script>, table: Vec<TableRow>) -> Result<End, AllocError>
    ensures run { IfOk result (λ e. IsRun (program_of scripts.items table.items) e.order.items e.ending e.output e.copies) }
    ensures serial { IfOk result (λ e. IsSerial (program_of scripts.items table.items) (start (program_of scripts.items table.items)) e.order.items) }
{
    let main = Scripted::new(alloc, scripts, 0, 0)?;
    let runner = Tabled::new(alloc, table);
    let end = run_plain(alloc, main, &runner)?;
    Ok(end)
}

#[cfg(test)]
mod asks;
#[cfg(test)]
mod tests;
