//! What is kept of the items of a file.

ghost use Rattle.std.specs.Prelude.{◌≡◌, [], List, None, OnOk};
ghost use Rattle.sy_findings.specs.Told.{told};
ghost use Rattle.sy_found.specs.Noted.{nothing_noted};
ghost use Rattle.sy_items.specs.Files.{kept_of, with_piece};
ghost use Rattle.sy_note.specs.declared.Diagnostic.{Diagnostic as Broken};
ghost use Rattle.sy_rules.specs.Outcome.{Finding};
ghost use Rattle.sy_rules.specs.Units.{a_constant, a_function};
ghost use Rattle.sy_units.specs.Calls.{noted_of};

use sqlite_items::Items;
use std::alloc::{AllocError, Global};
use std::mem;
use sy_findings::Findings;
use sy_found::Found;
use sy_looks::Walk;
use sy_typed::{TypedConstant, TypedFunction};

/// The typed constants and functions of a file, what was found in each function, and the broken rule that is told first.
#[derive(Drop)]
pub struct File {
    pub constants: Items<TypedConstant>,
    pub functions: Items<TypedFunction>,
    pub found: Vec<Found>,
    pub first: Findings,
}

impl File {
    /// A file without items, of which these rules were told.
    pub fn new(alloc: Global, first: Findings) -> File
        ensures { kept_of result ≡ record { constants = []; functions = []; notes = []; first = first } }
    {
        File {
            constants: Items::new(alloc),
            functions: Items::new(alloc),
            found: Vec::new(alloc),
            first,
        }
    }
}

/// Tells the rule of an item that is told first.
fn tell_first(findings: &mut Findings, own: &Found)
    ensures { (ds : List Broken) → own.now.first ≡ told None ds → findings.new ≡ told findings.old ds }
{
    match own.first() {
        None => {}
        Some(d) => findings.tell(d.code, d.spot),
    }
}

/// What was found so far; from here on nothing is.
pub fn begin_anew(w: &mut Walk) -> Found
    ensures found { result ≡ w.old.found }
    ensures anew { w.new ≡ record w.old { found = nothing_noted } }
{
    mem::replace(&mut w.found, Found::new(w.alloc))
}

/// Adds a constant, in which these were found.
pub fn keep_constant(file: &mut File, y: TypedConstant, own: Found) -> Result<(), AllocError>
    ensures { OnOk result ((xs : List Finding) → own ≡ noted_of xs → kept_of file.new ≡ with_piece (a_constant y) xs (kept_of file.old)) }
{
    tell_first(&mut file.first, &own);
    file.constants.push(y)?;
    Ok(())
}

/// Adds a function, in which these were found.
pub fn keep_function(file: &mut File, y: TypedFunction, own: Found) -> Result<(), AllocError>
    ensures { OnOk result ((xs : List Finding) → own ≡ noted_of xs → kept_of file.new ≡ with_piece (a_function y xs) xs (kept_of file.old)) }
{
    tell_first(&mut file.first, &own);
    file.functions.push(y)?;
    file.found.push(own)?;
    Ok(())
}
