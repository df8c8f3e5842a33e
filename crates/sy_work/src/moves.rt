// What a fill and a copy write.

ghost use Rattle.std.specs.Prelude.{◌≡◌, ◌+◌, ◌^◌, ◌≤◌, ℕ, ℤ, List, length, IfOk};
ghost use Rattle.sy_access.specs.Logs.{logged};
ghost use Rattle.sy_work.specs.Inputs.{number_in};
ghost use Rattle.sy_work.specs.Moves.{writes_from, fill_log, copy_log};

use std::alloc::{AllocError, Global};
use sy_access::{Cell, Log, Values};

/// The log of a fill of a target, given as the input of its need, with a number.
pub fn filled(alloc: Global, target: &(u32, u32, Values), number: i128) -> Result<Log, AllocError>
    requires { target.now.1 + length target.now.2 ≤ 2 ^ 32 }
    ensures { IfOk result (λ log. log ≡ fill_log target.now number) }
{
    let (root, from, values) = target;
    let numbers = vec![in alloc; number; values.items().len()]?;
    written(alloc, *root, *from, numbers.as_slice())
}

/// The log of a copy from a source to a target, given as the inputs of their needs.
pub fn copied(
    alloc: Global,
    source: &(u32, u32, Values),
    target: &(u32, u32, Values),
) -> Result<Log, AllocError>
    requires { target.now.1 + length target.now.2 ≤ 2 ^ 32 }
    ensures { IfOk result (λ log. log ≡ copy_log source.now target.now) }
{
    let (root, from, values) = target;
    let numbers = source.2.items();
    let count = values.items().len().min(numbers.len());
    written(alloc, *root, *from, &numbers[..count])
}

/// The log of numbers written to successive elements of a root.
fn written(alloc: Global, root: u32, from: u32, numbers: &[i128]) -> Result<Log, AllocError>
    requires { from + length numbers.now ≤ 2 ^ 32 }
    ensures { IfOk result (λ log. log ≡ writes_from root from numbers.now) }
{
    let mut items = Vec::with_capacity(alloc, numbers.len())?;
    for (k, number) in numbers.iter().enumerate() {
        items.push((Cell::Buffer(root, from + k as u32), *number))?;
    }
    Ok(Log::of(items))
}

/// A law: numbers written to successive elements are those that an input of these elements has.
pub fn moves_are_read_back()
    ensures { (root from : ℕ) (values : List ℤ) (r e : ℕ) → logged (writes_from root from values) (Cell.Buffer r e) ≡ number_in (root, from, values) r e }
{}
