//! Full expressions. (C++17, [expr.ass]; SYCL 2020, "reducer class")

ghost use Rattle.std.specs.Prelude.{◌≡◌};
ghost use Rattle.sy_findings.specs.Told.{told};
ghost use Rattle.sy_note.specs.declared.Code.TheVariants as code;
ghost use Rattle.sy_note.specs.declared.Spot.{Spot};
ghost use Rattle.sy_rules.specs.Faults.{at};
ghost use Rattle.sy_rules.specs.StmtRules.{combines_as, is_plain, wrong_target, bad_mode, no_target_in_full, full_faults};
ghost use Rattle.sy_tree.specs.declared.tree.Argument.TheOpen.{FullExpression-F};

use sy_findings::{Findings, no_integer, no_target, unread, unwritten};
use sy_note::Code;
use sy_rules::Seen;
use sy_tree::{AssignmentOperator, FunctionObject};
use sy_typed::Thing;

/// The operator combines as the reduction does.
fn combines_as(f: FunctionObject, op: AssignmentOperator) -> bool
    ensures { result ≡ combines_as f op }
{
    match (f, op) {
        (FunctionObject::Plus, AssignmentOperator::Add) => true,
        (FunctionObject::Multiplies, AssignmentOperator::Mul) => true,
        (FunctionObject::BitAnd, AssignmentOperator::And) => true,
        (FunctionObject::BitOr, AssignmentOperator::Or) => true,
        (FunctionObject::BitXor, AssignmentOperator::Xor) => true,
        _ => false,
    }
}

fn is_plain(op: AssignmentOperator) -> bool
    ensures { result ≡ is_plain op }
{
    matches!(op, AssignmentOperator::Assign)
}

/// WrongOperand: what `+=` and its kin change is an integer, or a reduction's variable that they combine into.
fn wrong_target(findings: &mut Findings, op: AssignmentOperator, t: Seen)
    ensures { findings.new ≡ told findings.old (at code.WrongOperand (wrong_target op t t.what)) }
{
    match t.what {
        None => {}
        Some(Thing::Reducer(_, f)) => {
            findings.tell_if(!combines_as(f, op), Code::WrongOperand, t.first);
        }
        Some(_) => {
            if !is_plain(op) {
                no_integer(findings, t);
            }
        }
    }
}

/// NotAssignable, but at a reduction's variable.
fn no_assignable(findings: &mut Findings, op: AssignmentOperator, t: Seen, v: Seen)
    ensures { (s : Spot) → findings.new ≡ told findings.old (at code.NotAssignable (no_target_in_full (FullExpression-F.Assignment t s op v))) }
{
    match t.what {
        Some(Thing::Reducer(_, _)) => {}
        _ => no_target(findings, t),
    }
}

/// ModeBroken: the target of `=` is written, that of `+=` and its kin read too.
fn bad_mode(findings: &mut Findings, op: AssignmentOperator, t: Seen)
    ensures { findings.new ≡ told findings.old (at code.ModeBroken (bad_mode op t)) }
{
    match op {
        AssignmentOperator::Assign => unwritten(findings, t),
        _ => {
            unread(findings, t);
            unwritten(findings, t);
        }
    }
}

/// What an expression that stands by itself breaks beside its parts.
pub fn expression(findings: &mut Findings, a: Seen)
    ensures { findings.new ≡ told findings.old (full_faults (FullExpression-F.Plain a)) }
{
    unread(findings, a);
}

/// What an assignment breaks beside its parts.
pub fn assignment(findings: &mut Findings, t: Seen, op: AssignmentOperator, v: Seen)
    ensures { (s : Spot) → findings.new ≡ told findings.old (full_faults (FullExpression-F.Assignment t s op v)) }
{
    wrong_target(findings, op, t);
    no_integer(findings, v);
    no_assignable(findings, op, t, v);
    bad_mode(findings, op, t);
    unread(findings, v);
}
