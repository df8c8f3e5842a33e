// The elements of one root as a command with these needs and this log leaves them.

ghost use Rattle.std.specs.Prelude.{◌≡◌, ℤ, ◌+◌, ◌<◌, ◌^◌, length};
ghost use Rattle.sy_access.specs.declared.cells.Cell.{Cell};
ghost use Rattle.sy_needs.specs.Each.{each_from};
ghost use Rattle.sy_work.specs.Moves.{writes_from};
ghost use Rattle.sy_copies.specs.Commands.{cells_after, start_of};
ghost use Rattle.sy_copies.specs.Parts.{zero_in, clear_in, clear_at, put_at, put_all_at};

use crate::needs::{is_written, keeps};
use crate::written::{Kind, Written};
use sy_access::{Cell, Log, Need};

/// The elements as the command leaves them, from those at its place, or from zeros.
pub fn renew(cells: &mut [i128], from_zeros: bool, root: u32, needs: &[Need], log: &Written)
    ensures { cells.new ≡ cells_after needs.now log.now root (start_of from_zeros (length cells.old) cells.old) }
{
    if from_zeros {
        zero_run(cells, 0, cells.len());
    } else {
        clear_unwanted(cells, root, needs);
    }
    put_written(cells, root, needs, log);
}

/// Sets the elements from `from` up to `to` to zero.
fn zero_run(cells: &mut [i128], from: usize, to: usize)
    ensures { cells.new ≡ each_from (zero_in from to) 0 cells.old }
{
    for i in from..to.min(cells.len()) {
        cells[i] = 0;
    }
}

/// Sets the elements from `from` up to `to` to zero, without those that a need keeps.
///
/// Each need that keeps some cuts the run in two, so it goes by runs and looks at no element twice.
fn clear_run(cells: &mut [i128], root: u32, from: usize, to: usize, needs: &[Need])
    ensures { cells.new ≡ each_from (clear_in needs.now root from to) 0 cells.old }
{
    if from >= to {
        return;
    }
    match needs.split_first() {
        None => zero_run(cells, from, to),
        Some((need, others)) => {
            if keeps(need, root) {
                clear_run(cells, root, from, to.min(need.from as usize), others);
                clear_run(cells, root, from.max(need.to as usize), to, others);
            } else {
                clear_run(cells, root, from, to, others);
            }
        }
    }
}

/// Sets the elements to zero that a writing need has and no need keeps.
fn clear_unwanted(cells: &mut [i128], root: u32, needs: &[Need])
    ensures { cells.new ≡ each_from (clear_at needs.now needs.now root) 0 cells.old }
{
    for need in needs {
        if need.buffer == root && need.mode.writes() {
            clear_run(cells, root, need.from as usize, need.to as usize, needs);
        }
    }
}

/// Puts in what is written to elements that a writing need has.
fn put_written(cells: &mut [i128], root: u32, needs: &[Need], log: &Written)
    ensures { cells.new ≡ each_from (put_all_at needs.now log.now root) 0 cells.old }
{
    match log.kind {
        Kind::Log(log) => put_log(cells, root, needs, log),
        Kind::Run(of, from, values) => put_run(cells, root, needs, of, from, values),
    }
}

/// Puts in the numbers of a run of the root `of`, as far as a writing need has its elements.
fn put_run(cells: &mut [i128], root: u32, needs: &[Need], of: u32, from: u32, values: &[i128])
    requires { from + length values.now < 2 ^ 32 }
    ensures { cells.new ≡ each_from (put_all_at needs.now (writes_from of from values.now) root) 0 cells.old }
{
    for (k, number) in values.iter().enumerate() {
        put(
            cells,
            root,
            needs,
            &Cell::Buffer(of, from + k as u32),
            *number,
        );
    }
}

/// Puts in what the log has for elements that a writing need has.
fn put_log(cells: &mut [i128], root: u32, needs: &[Need], log: &Log)
    ensures { cells.new ≡ each_from (put_all_at needs.now log.now root) 0 cells.old }
{
    for (cell, number) in log.items() {
        put(cells, root, needs, cell, *number);
    }
}

/// Puts in one number, where the cell is an element of the root that a writing need has.
fn put(cells: &mut [i128], root: u32, needs: &[Need], cell: &Cell, number: i128)
    ensures { cells.new ≡ each_from (put_at needs.now cell.now number root) 0 cells.old }
{
    let Cell::Buffer(r, i) = *cell else {
        return;
    };
    let i = i as usize;
    if r == root && i < cells.len() && is_written(needs, root, i) {
        cells[i] = number;
    }
}
