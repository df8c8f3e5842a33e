//! One expression by itself. (C++17, [expr])

ghost use Rattle.std.specs.Prelude.{◌≡◌, [], None, Some, IfOk, OnOk, IsErrOf};
ghost use Rattle.sy_check.specs.Breaks.{broken_in};
ghost use Rattle.sy_findings.specs.Told.{told};
ghost use Rattle.sy_note.specs.declared.Diagnostic.{Diagnostic as Broken};
ghost use Rattle.sy_note.specs.declared.FrontStop.TheVariants as stop;
ghost use Rattle.sy_rules.specs.Faults.{first_broken};
ghost use Rattle.sy_rules.specs.Walk.{expr};

use crate::knot::{DEPTH, walk_expr};
use std::alloc::{AllocError, Global};
use sy_found::{Found, Place};
use sy_looks::{Part, Walk};
use sy_names::Names;
use sy_note::{Diagnostic, FrontStop, Spot};
use sy_tree::Expr;

/// What is known of an expression, and the rule that is told first.
fn expression_looked_at(
    alloc: Global,
    names: Names,
    statement: Spot,
    e: &Expr,
) -> Result<(Part, Option<Diagnostic>), AllocError>
    ensures known { IfOk result (λ r. r.0 ≡ (expr e.now names).what) }
    ensures first { IfOk result (λ r. r.1 ≡ told None (broken_in names statement e.now)) }
{
    let within = names.setting().within;
    let mut w = Walk {
        alloc,
        names,
        found: Found::new(alloc),
        place: Some(Place { within, statement }),
    };
    let part = walk_expr(&mut w, DEPTH, e)?;
    Ok((part, w.found.first()))
}

/// What is seen of an expression, and its typed tree, if it breaks no rule of typing; else the rule that is told first,
/// with its place. The names are those that are declared before it, with the setting of the statement round it, which
/// begins at `statement`.
pub fn type_of(alloc: Global, names: Names, statement: Spot, e: &Expr) -> Result<Part, FrontStop>
    ensures unbroken { OnOk result (broken_in names statement e.now ≡ []) }
    ensures typed { IfOk result (λ p. p ≡ (expr e.now names).what) }
    ensures refused { (d : Broken) → IsErrOf result (stop.Refused d) → first_broken (broken_in names statement e.now) ≡ Some d }
{
    match expression_looked_at(alloc, names, statement, e) {
        Ok((part, None)) => Ok(part),
        Ok((_, Some(d))) => Err(FrontStop::Refused(d)),
        Err(_) => Err(FrontStop::Memory),
    }
}
