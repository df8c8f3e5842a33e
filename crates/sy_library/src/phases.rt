// Barriers and what a group computes: a new phase begins (SYCL 2020, "Group functions").

ghost use Rattle.std.specs.Prelude.{◌≡◌, [], ◌∷◌, IfOk, MatchOption};
ghost use Rattle.sy_meaning.specs.Library.{barrier, collect, next_phase};

use crate::waits::asked_done;
use sqlite_items::Items;
use std::alloc::{AllocError, Global};
use sy_making::asked_contents;
use sy_meaning::{Evaluated, Store, World};
use sy_note::Spot;
use sy_stack::Stack;
use sy_words::{nothing, taken_as, word};
use sy_work::{Ask, Collect};

fn take_first(stores: &mut Items<Store>) -> Option<Store>
    ensures { MatchOption result ((stores.old ≡ []) × (stores.new ≡ [])) (λ first. stores.old ≡ first ∷ stores.new) }
{
    if stores.len() == 0 {
        None
    } else {
        Some(stores.remove(0))
    }
}

/// Goes on to the next phase, which has no steps yet; after the last one the store stays.
pub fn next_phase(alloc: Global, world: &mut World)
    ensures { world.new ≡ next_phase world.old }
{
    if let Some(store) = take_first(&mut world.later) {
        world.store = store;
    }
    world.steps = Stack::new(alloc);
}

/// Asks for a barrier, behind which the next phase begins.
pub fn barrier(alloc: Global, world: &mut World, at: Spot) -> Result<Evaluated, AllocError>
    ensures { IfOk result (λ value. (value, world.new) ≡ barrier at world.old) }
{
    match asked_done(alloc, world, at.line, Ask::Barrier(at.column, at.line))? {
        Ok(_unit) => {
            next_phase(alloc, world);
            Ok(Evaluated::Gives(nothing(alloc)))
        }
        Err(end) => Ok(end),
    }
}

/// Asks for what the group computes, behind which the next phase begins.
pub fn collect(
    alloc: Global,
    world: &mut World,
    at: Spot,
    call: Collect,
) -> Result<Evaluated, AllocError>
    ensures { IfOk result (λ value. (value, world.new) ≡ collect at call.form call.op call.kind call.num world.old) }
{
    let asked = Ask::Collect(at.column, at.line, call);
    match asked_contents(alloc, world, at.line, asked)? {
        Ok(values) => {
            let object = taken_as(alloc, call.kind, word(values.items(), 0))?;
            next_phase(alloc, world);
            Ok(Evaluated::Gives(object))
        }
        Err(end) => Ok(end),
    }
}
