//! Statements whose parts were looked at: what they break by themselves, and their typed trees.

ghost use Rattle.std.specs.Prelude.{◌≡◌, Option, None};
ghost use Rattle.sy_findings.specs.Told.{told};
ghost use Rattle.sy_looks.specs.Looked.{looked};
ghost use Rattle.sy_note.specs.declared.Spot.{Spot as TheSpot};
ghost use Rattle.sy_rules.specs.declared.names.Setting.{Setting as TheSetting};
ghost use Rattle.sy_rules.specs.Layers.{Skipped};
ghost use Rattle.sy_rules.specs.StmtRules.{stmt_faults};
ghost use Rattle.sy_rules.specs.Walk.{stmt_judged, first_seen, first_typed, full_typed};
ghost use Rattle.sy_tree.specs.declared.tree.Argument.TheOpen.{Stmt-F};
ghost use Rattle.sy_typed.specs.declared.tree.TypedStmt.TheVariants as typed;

use sqlite_items::Boxed;
use sy_findings::Findings;
use sy_looks::{Part, Walk};
use sy_note::Spot;
use sy_rules::Seen;
use sy_statements::{condition, leave_loop, return_from};
use sy_typed::{Typed, TypedFull, TypedStmt};

/// What is seen of a part that may be left out, and its tree.
fn apart(p: Option<Part>) -> (Option<Seen>, Option<Typed>)
    ensures seen { result.0 ≡ first_seen p }
    ensures tree { result.1 ≡ first_typed p }
{
    match p {
        None => (None, None),
        Some((seen, tree)) => (Some(seen), Some(tree)),
    }
}

fn full_tree(p: Option<(Spot, TypedFull)>) -> Option<TypedFull>
    ensures { result ≡ full_typed p }
{
    match p {
        None => None,
        Some((_, tree)) => Some(tree),
    }
}

/// What the condition of a `for` breaks, if it has one.
fn maybe_condition(own: &mut Findings, a: Option<Seen>)
    ensures { (t : TheSetting) (s : TheSpot) (i x : Skipped) (f : Option Skipped) → own.new ≡ told own.old (stmt_faults t (Stmt-F.For s i a f x)) }
{
    match a {
        None => {}
        Some(a) => condition(own, a),
    }
}

/// `break;`, which ends at e.
pub fn judge_break(w: &mut Walk, s: Spot, e: Spot) -> TypedStmt
    ensures { (result, w.new) ≡ looked (stmt_judged (Stmt-F.Break s e) (typed.Break s e)) w.old }
{
    let mut own = Findings::new();
    leave_loop(&mut own, w.names.setting(), s);
    w.found.add(own);
    TypedStmt::Break(s, e)
}

/// `continue;`, which ends at e.
pub fn judge_continue(w: &mut Walk, s: Spot, e: Spot) -> TypedStmt
    ensures { (result, w.new) ≡ looked (stmt_judged (Stmt-F.Continue s e) (typed.Continue s e)) w.old }
{
    let mut own = Findings::new();
    leave_loop(&mut own, w.names.setting(), s);
    w.found.add(own);
    TypedStmt::Continue(s, e)
}

/// A `return` with this value, or without one.
pub fn judge_return(w: &mut Walk, s: Spot, p: Option<Part>, e: Spot) -> TypedStmt
    ensures { (result, w.new) ≡ looked (stmt_judged (Stmt-F.Return s (first_seen p) e) (typed.Return s (first_typed p) e)) w.old }
{
    let (seen, value) = apart(p);
    let mut own = Findings::new();
    return_from(&mut own, w.names.setting(), s, seen);
    w.found.add(own);
    TypedStmt::Return(s, value, e)
}

pub fn judge_if(
    w: &mut Walk,
    s: Spot,
    c: Part,
    x: Boxed<TypedStmt>,
    y: Option<Boxed<TypedStmt>>,
) -> TypedStmt
    ensures { (result, w.new) ≡ looked (stmt_judged (Stmt-F.If s c.0 tt None) (typed.If s c.1 x y)) w.old }
{
    let (seen, test) = c;
    let mut own = Findings::new();
    condition(&mut own, seen);
    w.found.add(own);
    TypedStmt::If(s, test, x, y)
}

pub fn judge_while(w: &mut Walk, s: Spot, c: Part, x: Boxed<TypedStmt>) -> TypedStmt
    ensures { (result, w.new) ≡ looked (stmt_judged (Stmt-F.While s c.0 tt) (typed.While s c.1 x)) w.old }
{
    let (seen, test) = c;
    let mut own = Findings::new();
    condition(&mut own, seen);
    w.found.add(own);
    TypedStmt::While(s, test, x)
}

pub fn judge_do(w: &mut Walk, s: Spot, x: Boxed<TypedStmt>, c: Part, e: Spot) -> TypedStmt
    ensures { (result, w.new) ≡ looked (stmt_judged (Stmt-F.Do s tt c.0 e) (typed.Do s x c.1 e)) w.old }
{
    let (seen, test) = c;
    let mut own = Findings::new();
    condition(&mut own, seen);
    w.found.add(own);
    TypedStmt::Do(s, x, test, e)
}

/// A `for` that begins with x, and whose condition and step may be left out.
pub fn judge_for(
    w: &mut Walk,
    s: Spot,
    x: Boxed<TypedStmt>,
    p: Option<Part>,
    q: Option<(Spot, TypedFull)>,
    y: Boxed<TypedStmt>,
) -> TypedStmt
    ensures { (result, w.new) ≡ looked (stmt_judged (Stmt-F.For s tt (first_seen p) None tt) (typed.For s x (first_typed p) (full_typed q) y)) w.old }
{
    let (seen, test) = apart(p);
    let step = full_tree(q);
    let mut own = Findings::new();
    maybe_condition(&mut own, seen);
    w.found.add(own);
    TypedStmt::For(s, x, test, step, y)
}
