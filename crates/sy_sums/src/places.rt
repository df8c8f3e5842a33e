// The next sum that a main prints.

ghost use Rattle.std.specs.Prelude.{◌≡◌, drop, filter_map, Some};
ghost use Rattle.sy_sums.specs.Hosts.{ahead, taken};
ghost use Rattle.sy_sums.specs.Sums.{operand_of};

use crate::sums::{Operand, operand_of, printed_by};
use sy_tree::{Printed, Stmt};

/// The next sum of a print, if there is one, and how many items of the print are done then.
#[derive(Clone, Copy)]
pub struct Taken {
    pub operand: Option<Operand>,
    pub done: usize,
}

/// The next sum, if there is one, with the statement that prints it, and how many items of that are done then.
#[derive(Clone, Copy)]
pub struct Found {
    pub operand: Option<Operand>,
    pub at: usize,
    pub done: usize,
}

/// The next sum of a print of which so many items are done.
fn next_printed(items: &[Printed], done: usize) -> Taken
    ensures { taken result.operand (filter_map operand_of (drop result.done items.now)) ≡ filter_map operand_of (drop done items.now) }
{
    for at in done..items.len() {
        if let Some(operand) = operand_of(&items[at]) {
            return Taken {
                operand: Some(operand),
                done: at + 1,
            };
        }
    }
    Taken {
        operand: None,
        done,
    }
}

/// The next sum from this statement on, of which so many items are done.
pub fn next_operand(statements: &[Stmt], at: usize, mut done: usize) -> Found
    ensures { taken result.operand (ahead result.done (drop result.at statements.now)) ≡ ahead done (drop at statements.now) }
{
    for k in at..statements.len() {
        let taken = next_printed(printed_by(&statements[k]), done);
        if let Some(operand) = taken.operand {
            return Found {
                operand: Some(operand),
                at: k,
                done: taken.done,
            };
        }
        done = 0;
    }
    Found {
        operand: None,
        at,
        done: 0,
    }
}
