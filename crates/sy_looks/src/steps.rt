//! Parts of a tree that go by value through what comes next, so that the trees are dropped in one place alone.

ghost use Rattle.std.specs.Prelude.{◌≡◌, Ok, Err, IfOk, IfErr};

use sqlite_items::Boxed;
use std::alloc::{AllocError, Global};

/// What was found before, and what this step finds.
pub fn beside<A: Drop, B: Drop, E: Drop>(found: A, step: Result<B, E>) -> Result<(A, B), E>
    ensures ok { IfOk result (λ both. (both.0 ≡ found) × (step ≡ Ok both.1)) }
    ensures stopped { IfErr result (λ stop. step ≡ Err stop) }
{
    match step {
        Ok(next) => Ok((found, next)),
        Err(stop) => Err(stop),
    }
}

/// Two parts in boxes.
pub fn pair<A: Drop, B: Drop>(
    alloc: Global,
    first: A,
    second: B,
) -> Result<(Boxed<A>, Boxed<B>), AllocError>
    ensures { IfOk result (λ boxes. boxes ≡ (first, second)) }
{
    let first = Boxed::new(alloc, first)?;
    let (first, second) = beside(first, Boxed::new(alloc, second))?;
    Ok((first, second))
}

/// Three parts in boxes.
pub fn triple<A: Drop, B: Drop, C: Drop>(
    alloc: Global,
    first: A,
    second: B,
    third: C,
) -> Result<(Boxed<A>, Boxed<B>, Boxed<C>), AllocError>
    ensures { IfOk result (λ boxes. boxes ≡ (first, second, third)) }
{
    let both = pair(alloc, first, second)?;
    let ((first, second), third) = beside(both, Boxed::new(alloc, third))?;
    Ok((first, second, third))
}
