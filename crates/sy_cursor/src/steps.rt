//! Steps of a reader that holds parts of a tree. A part goes through a step by value, so that the reader itself drops
//! none where the step stops it.

ghost use Rattle.std.specs.Prelude.{◌≡◌, Ok, Err, IfOk, IfErr};

use sqlite_items::Boxed;
use std::alloc::{AllocError, Global};

/// What was found before, and what this step finds.
pub fn beside<A: Drop, B: Drop, E: Drop>(found: A, step: Result<B, E>) -> Result<(A, B), E>
    ensures ok { IfOk result (λ both. (both.0 ≡ found) × (step ≡ Ok both.1)) }
    ensures stopped { IfErr result (λ stop. step ≡ Err stop) }
{
    match step {
        Ok(next) => Ok((found, next)),
        Err(stop) => Err(stop),
    }
}

/// Two parts in boxes.
pub fn pair<A: Drop, B: Drop>(
    alloc: Global,
    first: A,
    second: B,
) -> Result<(Boxed<A>, Boxed<B>), AllocError>
    ensures { IfOk result (λ boxes. boxes ≡ (first, second)) }
{
    let first = Boxed::new(alloc, first)?;
    let second = Boxed::new(alloc, second)?;
    Ok((first, second))
}

/// Three parts in boxes.
pub fn triple<A: Drop, B: Drop, C: Drop>(
    alloc: Global,
    first: A,
    second: B,
    third: C,
) -> Result<(Boxed<A>, (Boxed<B>, Boxed<C>)), AllocError>
    ensures { IfOk result (λ boxes. boxes ≡ (first, (second, third))) }
{
    let first = Boxed::new(alloc, first)?;
    let others = pair(alloc, second, third)?;
    Ok((first, others))
}

/// A part in a box, if there is one.
pub fn maybe_boxed<A: Drop>(alloc: Global, part: Option<A>) -> Result<Option<Boxed<A>>, AllocError>
    ensures { IfOk result (λ found. found ≡ part) }
{
    match part {
        None => Ok(None),
        Some(part) => {
            let part = Boxed::new(alloc, part)?;
            Ok(Some(part))
        }
    }
}
