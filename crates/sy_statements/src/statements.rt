//! Statements. (C++17, [stmt.stmt])

ghost use Rattle.std.specs.Prelude.{◌≡◌, Option, None, Some};
ghost use Rattle.sy_findings.specs.Told.{told};
ghost use Rattle.sy_note.specs.declared.Spot.{Spot};
ghost use Rattle.sy_rules.specs.declared.names.Setting.{Setting};
ghost use Rattle.sy_rules.specs.Layers.{Skipped};
ghost use Rattle.sy_rules.specs.StmtRules.{stmt_faults};
ghost use Rattle.sy_tree.specs.declared.tree.Argument.TheOpen.{Stmt-F};

use sy_findings::{Findings, no_integer, unread};
use sy_note::{Code, Spot};
use sy_rules::{Seen, Setting};

/// What a condition breaks: it has to be an integer, and is read.
pub fn condition(findings: &mut Findings, a: Seen)
    ensures at_if { (t : Setting) (s : Spot) (x : Skipped) (y : Option Skipped) → findings.new ≡ told findings.old (stmt_faults t (Stmt-F.If s a x y)) }
    ensures at_while { (t : Setting) (s : Spot) (x : Skipped) → findings.new ≡ told findings.old (stmt_faults t (Stmt-F.While s a x)) }
    ensures at_do { (t : Setting) (s e : Spot) (x : Skipped) → findings.new ≡ told findings.old (stmt_faults t (Stmt-F.Do s x a e)) }
    ensures at_for { (t : Setting) (s : Spot) (i x : Skipped) (f : Option Skipped) → findings.new ≡ told findings.old (stmt_faults t (Stmt-F.For s i (Some a) f x)) }
{
    no_integer(findings, a);
    unread(findings, a);
}

/// A `return` with this value, or without one.
pub fn return_from(findings: &mut Findings, setting: Setting, s: Spot, value: Option<Seen>)
    ensures { (e : Spot) → findings.new ≡ told findings.old (stmt_faults setting (Stmt-F.Return s value e)) }
{
    match value {
        None => findings.tell_if(setting.returned.is_some(), Code::BadReturn, s),
        Some(a) => {
            no_integer(findings, a);
            unread(findings, a);
            findings.tell_if(setting.returned.is_none(), Code::BadReturn, s);
        }
    }
}

/// A `break` or `continue`.
pub fn leave_loop(findings: &mut Findings, setting: Setting, s: Spot)
    ensures at_break { (e : Spot) → findings.new ≡ told findings.old (stmt_faults setting (Stmt-F.Break s e)) }
    ensures at_continue { (e : Spot) → findings.new ≡ told findings.old (stmt_faults setting (Stmt-F.Continue s e)) }
{
    findings.tell_if(!setting.in_loop, Code::LoopWord, s);
}
