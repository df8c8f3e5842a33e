//! Whole sources. (C++17, [basic.link], [basic.start.main]; SYCL 2020, "Language restrictions for device functions")

ghost use Rattle.std.specs.Prelude.{◌≡◌, [], None, Some, IfOk, OnOk, IsErrOf, map};
ghost use Rattle.sy_findings.specs.Told.{told};
ghost use Rattle.sy_items.specs.Files.{kept_of, with_pieces};
ghost use Rattle.sy_note.specs.declared.Diagnostic.{Diagnostic as Broken};
ghost use Rattle.sy_note.specs.declared.FrontStop.TheVariants as stop;
ghost use Rattle.sy_rules.specs.Faults.{first_broken};
ghost use Rattle.sy_rules.specs.Outcome.{in_turn};
ghost use Rattle.sy_rules.specs.Units.{Accepted, at_start, broken_rules, constants_of, function_items, functions_of, looked_at, one_item, place_of_main, program_of};

use crate::knot::{DEPTH, walk_block, walk_constant};
use std::alloc::{AllocError, Global};
use sy_closures::Bodies;
use sy_findings::Findings;
use sy_found::Found;
use sy_items::{File, FileItems, narrowed};
use sy_looks::Walk;
use sy_names::Names;
use sy_note::FrontStop;
use sy_tree::{FileItem, Unit};
use sy_typed::Program;
use sy_units::{count_functions, held_back, no_main, place_of_main};

/// All items, behind the rules that were told before them.
fn items_looked_at(alloc: Global, items: &[FileItem], first: Findings) -> Result<File, AllocError>
    ensures { IfOk result (λ f. kept_of f ≡ with_pieces (in_turn (map one_item items.now) (at_start (function_items items.now))) (record { constants = []; functions = []; notes = []; first = first })) }
{
    let count = narrowed(count_functions(items))?;
    let mut w = Walk {
        alloc,
        names: Names::new(alloc, count),
        found: Found::new(alloc),
        place: None,
    };
    let mut file = File::new(alloc, first);
    let bodies = Bodies {
        depth: DEPTH,
        block: walk_block,
    };
    FileItems {
        bodies,
        constant: walk_constant,
    }
    .all(&mut w, &mut file, items)?;
    Ok(file)
}

/// The typed constants and functions of a source, and the broken rule that is told first.
fn looked_at(alloc: Global, unit: &Unit) -> Result<File, AllocError>
    ensures first { IfOk result (λ f. f.first ≡ told None (broken_rules unit.now)) }
    ensures constants { IfOk result (λ f. f.constants ≡ constants_of (looked_at unit.now).what) }
    ensures functions { IfOk result (λ f. f.functions ≡ functions_of (looked_at unit.now).what) }
{
    let mut first = Findings::new();
    no_main(&mut first, unit.items.as_slice());
    let mut file = items_looked_at(alloc, unit.items.as_slice(), first)?;
    held_back(alloc, &mut file.first, true, &file.found)?;
    held_back(alloc, &mut file.first, false, &file.found)?;
    Ok(file)
}

fn program(unit: &Unit, file: File) -> Result<Program, AllocError>
    ensures { IfOk result (λ p. p ≡ record { constants = file.constants; functions = file.functions; main = place_of_main (function_items unit.now.items) }) }
{
    let main = narrowed(place_of_main(unit.items.as_slice()))?;
    let File {
        constants,
        functions,
        found: _,
        first: _,
    } = file;
    Ok(Program {
        constants,
        functions,
        main,
    })
}

/// What a source comes to, of which this is kept.
fn judged(unit: &Unit, file: File) -> Result<Program, FrontStop>
    ensures unbroken { OnOk result (file.first ≡ None) }
    ensures typed { IfOk result (λ p. p ≡ record { constants = file.constants; functions = file.functions; main = place_of_main (function_items unit.now.items) }) }
    ensures refused { (d : Broken) → IsErrOf result (stop.Refused d) → file.first ≡ Some d }
{
    match file.first.first() {
        Some(d) => Err(FrontStop::Refused(d)),
        None => match program(unit, file) {
            Ok(typed) => Ok(typed),
            Err(_) => Err(FrontStop::Memory),
        },
    }
}

/// The typed program of a source that breaks no rule of typing; else the rule that is told first, with its place.
pub fn check(alloc: Global, unit: &Unit) -> Result<Program, FrontStop>
    ensures unbroken { OnOk result (Accepted unit.now) }
    ensures typed { IfOk result (λ p. p ≡ program_of unit.now) }
    ensures refused { (d : Broken) → IsErrOf result (stop.Refused d) → first_broken (broken_rules unit.now) ≡ Some d }
{
    match looked_at(alloc, unit) {
        Ok(file) => match judged(unit, file) {
            Ok(typed) => Ok(typed),
            Err(stop) => Err(stop),
        },
        Err(_) => Err(FrontStop::Memory),
    }
}

/// Nothing where a source breaks no rule of typing; else the rule that is told first, with its place.
pub fn accept(alloc: Global, unit: &Unit) -> Result<(), FrontStop>
    ensures unbroken { OnOk result (Accepted unit.now) }
    ensures refused { (d : Broken) → IsErrOf result (stop.Refused d) → first_broken (broken_rules unit.now) ≡ Some d }
{
    match check(alloc, unit) {
        Ok(_) => Ok(()),
        Err(stop) => Err(stop),
    }
}
