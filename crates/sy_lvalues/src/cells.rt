// Cells, in a work item: each touch is a step of the phase.

ghost use Rattle.std.specs.Prelude.{◌≡◌, ◌∷◌, ◌+◌, drop, List, Some, IfOk, MatchOption};
ghost use Rattle.sy_access.specs.Logs.{logged};
ghost use Rattle.sy_meaning.specs.declared.runs.Step.{Step};
ghost use Rattle.sy_meaning.specs.Locations.{number_at, own, read_cell, write_cell};

use std::alloc::{AllocError, Global};
use sy_access::Cell;
use sy_meaning::{Evaluated, Step, World};
use sy_num::Kind;
use sy_stack::Stack;
use sy_words::{Word, of_word, taken_as};

fn wrote(step: &Step, cell: Cell) -> Option<i128>
    ensures { MatchOption result
        ((earlier : List Step) → own (step.now ∷ earlier) cell ≡ own earlier cell)
        (λ num. (earlier : List Step) → own (step.now ∷ earlier) cell ≡ Some num) }
{
    match *step {
        Step::Read(_, _) => None,
        Step::Wrote(place, num, _) => { if place.is(&cell) { Some(num) } else { None } }
    }
}

fn wrote_at(steps: &Stack<Step>, at: usize, cell: Cell) -> Option<i128>
    ensures { MatchOption result
        (own (drop at steps.now) cell ≡ own (drop (at + 1) steps.now) cell)
        (λ num. own (drop at steps.now) cell ≡ Some num) }
{
    match steps.get(at) {
        Some(step) => wrote(step, cell),
        None => None,
    }
}

fn own(steps: &Stack<Step>, cell: Cell) -> Option<i128>
    ensures { result ≡ own steps.now cell }
{
    for at in 0..steps.len() {
        if let Some(num) = wrote_at(steps, at, cell) {
            return Some(num);
        }
    }
    None
}

fn logged(cells: &[(Cell, i128)], cell: Cell) -> Option<i128>
    ensures { result ≡ logged cells.now cell }
{
    let mut rest = cells;
    while let [(place, num), others @ ..] = rest {
        if place.is(&cell) {
            return Some(*num);
        }
        rest = others;
    }
    None
}

/// What an item sees in a cell: its own last write, else the store of its phase.
pub fn number_at(cell: Cell, world: &World) -> i128
    ensures { result ≡ number_at cell world.now }
{
    match own(&world.steps, cell) {
        Some(num) => num,
        None => match logged(world.store.cells.as_slice(), cell) {
            Some(num) => num,
            None => 0,
        },
    }
}

/// Reads a cell, as a step at the line.
pub fn read_cell(
    alloc: Global,
    world: &mut World,
    line: u32,
    kind: Kind,
    cell: Cell,
) -> Result<Evaluated, AllocError>
    ensures { IfOk result (λ value. (value, world.new) ≡ read_cell line kind cell world.old) }
{
    let object = taken_as(alloc, kind, number_at(cell, world))?;
    world.steps.push(Step::Read(cell, line))?;
    Ok(Evaluated::Gives(object))
}

/// Writes a cell, as a step at the line.
pub fn write_cell(
    alloc: Global,
    world: &mut World,
    line: u32,
    cell: Cell,
    word: Word,
) -> Result<Evaluated, AllocError>
    ensures { IfOk result (λ value. (value, world.new) ≡ write_cell line cell word world.old) }
{
    let object = of_word(alloc, word)?;
    world.steps.push(Step::Wrote(cell, word.num, line))?;
    Ok(Evaluated::Gives(object))
}
