// Elements of accessors and of vectors.

ghost use Rattle.std.specs.Prelude.{◌≡◌, slice_get, slice_set, IfOk};
ghost use Rattle.sy_meaning.specs.declared.outcomes.Evaluated.TheVariants as evaluated;
ghost use Rattle.sy_meaning.specs.Frame.{access_at, put_access, put_values, row_at};
ghost use Rattle.sy_meaning.specs.Locations.{picked, read_area, read_element, replaced, write_area, write_element};
ghost use Rattle.sy_meaning.specs.declared.runs.Area.TheVariants as areas;
ghost use Rattle.sy_meaning.specs.declared.runs.World.{World};
ghost use Rattle.sy_meaning.specs.Outcomes.{trap_ask};

use crate::cells::{read_cell, write_cell};
use sqlite_items::at;
use std::alloc::{AllocError, Global};
use sy_access::{Cell, Values};
use sy_meaning::{Area, Evaluated, Row, World};
use sy_num::Kind;
use sy_state::{access_at, is_leased, no_row, row_values, trap_ask};
use sy_words::{Word, nothing, of_word, taken_as, word};
use sy_work::Cause;

/// What an expression comes to that ends in a trap.
pub fn trapped(cause: Cause, line: u32) -> Evaluated
    ensures { result ≡ evaluated.Stopped (trap_ask cause line) }
{
    Evaluated::Stopped(trap_ask(cause, line))
}

fn cell_index(index: u64) -> Result<u32, AllocError>
    ensures { IfOk result (λ i. i ≡ index) }
{
    if index <= u32::MAX as u64 {
        Ok(index as u32)
    } else {
        Err(AllocError)
    }
}

fn replaced(values: Values, index: usize, num: i128) -> Values
    ensures { result ≡ slice_set values index num }
{
    let mut items = values.into_items();
    if index < items.len() {
        items[index] = num;
    }
    Values::of(items)
}

fn set_in_access(alloc: Global, world: &mut World, k: u32, index: usize, num: i128)
    ensures { world.new ≡ put_access k (slice_set (access_at k world.old) index num) world.old }
{
    let held = world.accesses.exchange(k as usize, nothing(alloc));
    world.accesses.set(k as usize, replaced(held, index, num));
}

fn set_in_row(alloc: Global, world: &mut World, v: u32, index: usize, num: i128)
    ensures { world.new ≡ put_values v (slice_set (row_at v world.old).values index num) world.old }
{
    let held = world.rows.exchange(v as usize, no_row(alloc));
    let row = Row {
        values: replaced(held.values, index, num),
        counts: held.counts,
        leased: held.leased,
    };
    world.rows.set(v as usize, row);
}

fn read_access(
    alloc: Global,
    world: &World,
    line: u32,
    kind: Kind,
    k: u32,
    index: u64,
) -> Result<Evaluated, AllocError>
    ensures { IfOk result (λ value. (value, world.now) ≡ read_area line kind areas.Access k index world.now) }
{
    let num = word(access_at(world, k), index as usize);
    Ok(Evaluated::Gives(taken_as(alloc, kind, num)?))
}

/// Reads an element of an accessor, by the number of its owner.
pub fn read_area(
    alloc: Global,
    world: &mut World,
    line: u32,
    kind: Kind,
    area: Area,
    owner: u32,
    index: u64,
) -> Result<Evaluated, AllocError>
    ensures { IfOk result (λ value. (value, world.new) ≡ read_area line kind area owner index world.old) }
{
    match area {
        Area::Root => {
            let cell = Cell::Buffer(owner, cell_index(index)?);
            read_cell(alloc, world, line, kind, cell)
        }
        Area::Local => {
            let cell = Cell::Local(owner, cell_index(index)?);
            read_cell(alloc, world, line, kind, cell)
        }
        Area::Access => read_access(alloc, world, line, kind, owner, index),
    }
}

fn write_access(
    alloc: Global,
    world: &mut World,
    line: u32,
    k: u32,
    index: u64,
    word: Word,
) -> Result<Evaluated, AllocError>
    ensures { IfOk result (λ value. (value, world.new) ≡ write_area line areas.Access k index word world.old) }
{
    let object = of_word(alloc, word)?;
    set_in_access(alloc, world, k, index as usize, word.num);
    Ok(Evaluated::Gives(object))
}

/// Writes an element of an accessor, by the number of its owner.
pub fn write_area(
    alloc: Global,
    world: &mut World,
    line: u32,
    area: Area,
    owner: u32,
    index: u64,
    word: Word,
) -> Result<Evaluated, AllocError>
    ensures { IfOk result (λ value. (value, world.new) ≡ write_area line area owner index word world.old) }
{
    match area {
        Area::Root => {
            let cell = Cell::Buffer(owner, cell_index(index)?);
            write_cell(alloc, world, line, cell, word)
        }
        Area::Local => {
            let cell = Cell::Local(owner, cell_index(index)?);
            write_cell(alloc, world, line, cell, word)
        }
        Area::Access => write_access(alloc, world, line, owner, index, word),
    }
}

fn picked(
    alloc: Global,
    line: u32,
    kind: Kind,
    values: &[i128],
    index: u64,
) -> Result<Evaluated, AllocError>
    ensures { IfOk result (λ value. (w : World) → (value, w) ≡ picked line kind (slice_get values.now index) w) }
{
    match at(values, index as usize) {
        Some(num) => Ok(Evaluated::Gives(taken_as(alloc, kind, *num)?)),
        None => Ok(trapped(Cause::Index, line)),
    }
}

/// Reads an element of a vector: a trap where the vector is leased or has no such element.
pub fn read_element(
    alloc: Global,
    world: &World,
    line: u32,
    kind: Kind,
    v: u32,
    index: u64,
) -> Result<Evaluated, AllocError>
    ensures { IfOk result (λ value. (value, world.now) ≡ read_element line kind v index world.now) }
{
    if is_leased(world, v) {
        Ok(trapped(Cause::Leased, line))
    } else {
        picked(alloc, line, kind, row_values(world, v), index)
    }
}

fn write_free(
    alloc: Global,
    world: &mut World,
    line: u32,
    v: u32,
    index: u64,
    word: Word,
) -> Result<Evaluated, AllocError>
    ensures { IfOk result (λ value. (value, world.new) ≡ replaced line v index word (row_at v world.old) world.old) }
{
    if index < row_values(world, v).len() as u64 {
        let object = of_word(alloc, word)?;
        set_in_row(alloc, world, v, index as usize, word.num);
        Ok(Evaluated::Gives(object))
    } else {
        Ok(trapped(Cause::Index, line))
    }
}

/// Writes an element of a vector: a trap where the vector is leased or has no such element.
pub fn write_element(
    alloc: Global,
    world: &mut World,
    line: u32,
    v: u32,
    index: u64,
    word: Word,
) -> Result<Evaluated, AllocError>
    ensures { IfOk result (λ value. (value, world.new) ≡ write_element line v index word world.old) }
{
    if is_leased(world, v) {
        Ok(trapped(Cause::Leased, line))
    } else {
        write_free(alloc, world, line, v, index, word)
    }
}
