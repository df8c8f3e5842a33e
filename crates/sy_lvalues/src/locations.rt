// What an lvalue holds.

ghost use Rattle.std.specs.Prelude.{◌≡◌, IfOk};
ghost use Rattle.sy_meaning.specs.declared.runs.Location.TheVariants as location;
ghost use Rattle.sy_meaning.specs.Frame.{local, put};
ghost use Rattle.sy_meaning.specs.Locations.{load, store};
ghost use Rattle.sy_meaning.specs.Outcomes.{gives};
ghost use Rattle.sy_meaning.specs.Words.{of_scalar};

use crate::elements::{read_area, read_element, write_area, write_element};
use std::alloc::{AllocError, Global};
use sy_access::Values;
use sy_meaning::{Area, Evaluated, Location, Run};
use sy_num::Kind;
use sy_state::{local, put};
use sy_words::{
    Word, accessor_first, accessor_owner, copy_of, element_index, element_vector, of_word,
};

fn load_local(alloc: Global, run: &Run, n: u32) -> Result<Evaluated, AllocError>
    ensures { IfOk result (λ value. (value, run.now) ≡ gives (local n run.now) run.now) }
{
    Ok(Evaluated::Gives(copy_of(alloc, local(run, n))?))
}

fn load_element(
    alloc: Global,
    run: &Run,
    line: u32,
    kind: Kind,
    object: &[i128],
) -> Result<Evaluated, AllocError>
    ensures { IfOk result (λ value. (value, run.now) ≡ load line kind location.Element object.now run.now) }
{
    let v = element_vector(object)?;
    let index = element_index(object)?;
    read_element(alloc, &run.world, line, kind, v, index)
}

fn load_cell(
    alloc: Global,
    run: &mut Run,
    line: u32,
    kind: Kind,
    area: Area,
    object: &[i128],
) -> Result<Evaluated, AllocError>
    ensures { IfOk result (λ value. (value, run.new) ≡ load line kind (location.Cell area) object.now run.old) }
{
    let owner = accessor_owner(object)?;
    let index = accessor_first(object)?;
    read_area(alloc, &mut run.world, line, kind, area, owner, index)
}

/// The value of an lvalue, whose object says which element it is; a value alone is the object.
pub fn load(
    alloc: Global,
    run: &mut Run,
    line: u32,
    kind: Kind,
    place: Location,
    object: Values,
) -> Result<Evaluated, AllocError>
    ensures { IfOk result (λ value. (value, run.new) ≡ load line kind place object run.old) }
{
    match place {
        Location::Nowhere => Ok(Evaluated::Gives(object)),
        Location::Local(n) => load_local(alloc, run, n),
        Location::Element => load_element(alloc, run, line, kind, object.items()),
        Location::Cell(area) => load_cell(alloc, run, line, kind, area, object.items()),
    }
}

fn store_local(alloc: Global, run: &mut Run, n: u32, word: Word) -> Result<Evaluated, AllocError>
    ensures { IfOk result (λ value. (value, run.new) ≡ gives (of_scalar word) (put n (of_scalar word) run.old)) }
{
    put(alloc, run, n, of_word(alloc, word)?)?;
    Ok(Evaluated::Gives(of_word(alloc, word)?))
}

fn store_element(
    alloc: Global,
    run: &mut Run,
    line: u32,
    object: &[i128],
    word: Word,
) -> Result<Evaluated, AllocError>
    ensures { IfOk result (λ value. (value, run.new) ≡ store line location.Element object.now word run.old) }
{
    let v = element_vector(object)?;
    let index = element_index(object)?;
    write_element(alloc, &mut run.world, line, v, index, word)
}

fn store_cell(
    alloc: Global,
    run: &mut Run,
    line: u32,
    area: Area,
    object: &[i128],
    word: Word,
) -> Result<Evaluated, AllocError>
    ensures { IfOk result (λ value. (value, run.new) ≡ store line (location.Cell area) object.now word run.old) }
{
    let owner = accessor_owner(object)?;
    let index = accessor_first(object)?;
    write_area(alloc, &mut run.world, line, area, owner, index, word)
}

/// Gives an lvalue a number, and has it as value.
pub fn store(
    alloc: Global,
    run: &mut Run,
    line: u32,
    place: Location,
    object: &[i128],
    word: Word,
) -> Result<Evaluated, AllocError>
    ensures { IfOk result (λ value. (value, run.new) ≡ store line place object.now word run.old) }
{
    match place {
        Location::Nowhere => Ok(Evaluated::Gives(of_word(alloc, word)?)),
        Location::Local(n) => store_local(alloc, run, n, word),
        Location::Element => store_element(alloc, run, line, object, word),
        Location::Cell(area) => store_cell(alloc, run, line, area, object, word),
    }
}
