// Vectors (C++17, "Class template vector").

ghost use Rattle.std.specs.Prelude.{◌≡◌, ◌++◌, ◌+◌, [], ◌∷◌, if◌then◌else◌, nat_lt, IfOk, OnOk};
ghost use Rattle.sy_meaning.specs.Frame.{elements, put_values, row_at};
ghost use Rattle.sy_meaning.specs.Library.{push_back};
ghost use Rattle.sy_meaning.specs.Making.{length_limit};
ghost use Rattle.sy_meaning.specs.Outcomes.{gives, halts};
ghost use Rattle.sy_meaning.specs.Words.{nothing};
ghost use Rattle.sy_work.specs.declared.asks.Why.TheVariants as why;

use crate::waits::halted;
use std::alloc::{AllocError, Global};
use sy_access::Values;
use sy_making::{length_limit, trapped};
use sy_meaning::{Evaluated, Row, World};
use sy_num::Kind;
use sy_requests::plus;
use sy_state::{elements, is_leased, no_row};
use sy_words::{nothing, number_as};
use sy_work::{Cause, Why};

fn with_last(values: Values, num: i128) -> Result<Values, AllocError>
    ensures { IfOk result (λ made. made ≡ values ++ num ∷ []) }
{
    let mut items = values.into_items();
    items.push(num)?;
    Ok(Values::of(items))
}

fn put_last(alloc: Global, world: &mut World, v: u32, num: i128) -> Result<(), AllocError>
    ensures { OnOk result (world.new ≡ put_values v ((row_at v world.old).values ++ num ∷ []) world.old) }
{
    let held = world.rows.exchange(v as usize, no_row(alloc));
    let row = Row {
        values: with_last(held.values, num)?,
        counts: held.counts,
        leased: held.leased,
    };
    world.rows.set(v as usize, row);
    Ok(())
}

fn push_free(alloc: Global, world: &mut World, v: u32, num: i128) -> Result<Evaluated, AllocError>
    ensures { IfOk result
        (λ value.
        (value, world.new)
        ≡ (if nat_lt length_limit (elements world.old + 1)
        then halts why.Length world.old
        else gives nothing (put_values v ((row_at v world.old).values ++ num ∷ []) world.old))) }
{
    if length_limit() < plus(elements(world)?, 1)? {
        return Ok(halted(Why::Length));
    }
    put_last(alloc, world, v, num)?;
    Ok(Evaluated::Gives(nothing(alloc)))
}

/// Adds a number at the end of a vector: a trap where it is leased, and the end of the run where it would be too long.
pub fn push_back(
    alloc: Global,
    world: &mut World,
    line: u32,
    kind: Kind,
    v: u32,
    object: &[i128],
) -> Result<Evaluated, AllocError>
    ensures { IfOk result (λ value. (value, world.new) ≡ push_back line kind v object.now world.old) }
{
    if is_leased(world, v) {
        Ok(trapped(Cause::Leased, line))
    } else {
        push_free(alloc, world, v, number_as(kind, object))
    }
}
