// Vectors (C++17, "Class template vector").

ghost use Rattle.std.specs.Prelude.{◌≡◌, ◌+◌, length, nat_lt, replicate, IfOk, OnOk};
ghost use Rattle.sy_meaning.specs.Making.{add_row, counted_values, length_limit, make_team, make_vector};
ghost use Rattle.sy_meaning.specs.declared.outcomes.Evaluated.TheVariants as evaluated;
ghost use Rattle.sy_num.specs.declared.Kind.{Kind};
ghost use Rattle.sy_work.specs.declared.asks.Ask.TheVariants as asks;
ghost use Rattle.sy_work.specs.declared.asks.Halt.TheVariants as halt;
ghost use Rattle.sy_work.specs.declared.asks.Why.TheVariants as why;

use std::alloc::{AllocError, Global};
use sy_access::Values;
use sy_meaning::{Evaluated, Row, World};
use sy_num::Kind;
use sy_state::elements;
use sy_words::{count_of, nothing, number_as, of_natural};
use sy_work::{Ask, Halt, Why};

/// How many elements the vectors of integers of a thread may have together.
pub fn length_limit() -> u64
    ensures { result ≡ length_limit }
{
    1 << 20
}

/// Whether so many and so many more are more than the limit.
pub fn passes(limit: u64, held: u64, more: u64) -> bool
    ensures { result ≡ nat_lt limit (held + more) }
{
    match held.checked_add(more) {
        Some(total) => total > limit,
        None => true,
    }
}

fn too_long() -> Evaluated
    ensures { result ≡ evaluated.Stopped (asks.Halt (halt.Terminated why.Length)) }
{
    Evaluated::Stopped(Ask::Halt(Halt::Terminated(Why::Length)))
}

fn add_row(world: &mut World, counts: bool, values: Values) -> Result<(), AllocError>
    ensures { OnOk result (world.new ≡ add_row counts values world.old) }
{
    world.rows.push(Row {
        values,
        counts,
        leased: None,
    })?;
    Ok(())
}

/// A vector of these elements.
pub fn make_vector(
    alloc: Global,
    world: &mut World,
    values: Values,
) -> Result<Evaluated, AllocError>
    ensures { IfOk result (λ value. (value, world.new) ≡ make_vector values world.old) }
{
    if passes(length_limit(), elements(world)?, values.len() as u64) {
        return Ok(too_long());
    }
    let object = of_natural(alloc, world.rows.len() as u64)?;
    add_row(world, true, values)?;
    Ok(Evaluated::Gives(object))
}

/// A vector of threads, which has none yet.
pub fn make_team(alloc: Global, world: &mut World) -> Result<Evaluated, AllocError>
    ensures { IfOk result (λ value. (value, world.new) ≡ make_team world.old) }
{
    let object = of_natural(alloc, world.rows.len() as u64)?;
    add_row(world, false, nothing(alloc))?;
    Ok(Evaluated::Gives(object))
}

fn repeated(alloc: Global, count: u64, num: i128) -> Result<Values, AllocError>
    ensures { IfOk result (λ values. values ≡ replicate count num) }
{
    Ok(Values::of(vec![in alloc; num; count as usize]?))
}

/// The elements that arguments in parentheses say: a count of zeros, or of a value.
pub fn counted_values(alloc: Global, kind: Kind, objects: &[Values]) -> Result<Values, AllocError>
    ensures { IfOk result (λ values. values ≡ counted_values kind objects.now) }
{
    match objects {
        [] => Ok(nothing(alloc)),
        [count] => repeated(alloc, count_of(count.items())?, 0),
        [count, value, ..] => {
            repeated(
                alloc,
                count_of(count.items())?,
                number_as(kind, value.items()),
            )
        }
    }
}

#[tactic(auto, using(crate::proofs::LengthLemmas::repeated_length))]
fn counted_length(objects: &[Values]) -> Result<u64, AllocError>
    ensures { IfOk result (λ n. (k : Kind) → n ≡ length (counted_values k objects.now)) }
{
    match objects {
        [] => Ok(0),
        [count, ..] => count_of(count.items()),
    }
}

/// A vector whose elements are said by arguments in parentheses. A count past the limit takes no memory.
pub fn make_counted(
    alloc: Global,
    world: &mut World,
    kind: Kind,
    objects: &[Values],
) -> Result<Evaluated, AllocError>
    ensures { IfOk result (λ value. (value, world.new) ≡ make_vector (counted_values kind objects.now) world.old) }
{
    if passes(length_limit(), elements(world)?, counted_length(objects)?) {
        return Ok(too_long());
    }
    make_vector(alloc, world, counted_values(alloc, kind, objects)?)
}
