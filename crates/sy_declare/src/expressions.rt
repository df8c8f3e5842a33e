//! Full expressions. (C++17, [intro.execution], [expr.ass])

ghost use Rattle.std.specs.Prelude.{◌≡◌};
ghost use Rattle.sy_declare.specs.Trees.{full};
ghost use Rattle.sy_looks.specs.Looked.{Looked, looked};
ghost use Rattle.sy_rules.specs.Walk.{expr, full_judged, full_step};
ghost use Rattle.sy_tree.specs.declared.tree.Argument.TheOpen.{FullExpression-F};
ghost use Rattle.sy_typed.specs.declared.tree.TypedFull.TheVariants as typed_full;
ghost use Rattle.sy_walk.specs.Below.{LooksBelow};

use std::alloc::AllocError;
use sy_constructs::taken_as;
use sy_findings::Findings;
use sy_looks::{Part, Walk, beside};
use sy_note::Spot;
use sy_rules::{Role, SeenLambda, Taken};
use sy_statements::{assignment, expression};
use sy_tree::{AssignmentOperator, Expr, FullExpression, Lambda};
use sy_typed::{TypedFull, TypedLambda};
use sy_walk::Below;

/// An expression that is no assignment, once it was looked at.
fn judge_plain(w: &mut Walk, a: Part) -> (Spot, TypedFull)
    ensures { (result, w.new) ≡ looked (full_judged a.0.first (FullExpression-F.Plain a.0) (typed_full.Plain a.1)) w.old }
{
    let (seen, tree) = a;
    let mut own = Findings::new();
    expression(&mut own, seen);
    w.found.add(own);
    (seen.first, TypedFull::Plain(tree))
}

/// An assignment, once its sides were looked at.
fn judge_assignment(
    w: &mut Walk,
    t: Part,
    s: Spot,
    op: AssignmentOperator,
    v: Part,
) -> (Spot, TypedFull)
    ensures { (result, w.new) ≡ looked (full_judged t.0.first (FullExpression-F.Assignment t.0 s op v.0) (typed_full.Assignment t.1 s op v.1)) w.old }
{
    let (target, left) = t;
    let (value, right) = v;
    let mut own = Findings::new();
    assignment(&mut own, target, op, value);
    w.found.add(own);
    (target.first, TypedFull::Assignment(left, s, op, right))
}

fn plain_expression<
    E: Fn(&mut Walk, usize, &Expr) -> Result<Part, AllocError>,
    L: Fn(&mut Walk, usize, Role, &Lambda) -> Result<(SeenLambda, TypedLambda), AllocError>,
>(
    below: &Below<E, L>,
    w: &mut Walk,
    stands: bool,
    a: &Expr,
) -> Result<(Spot, TypedFull), AllocError>
    requires { LooksBelow below.now.depth (E.pre below.now.expr) (E.post below.now.expr) (L.pre below.now.lambda) (L.post below.now.lambda) }
    ensures { Looked (full_step (FullExpression-F.Plain (expr a.now)) stands) w.old result w.new }
{
    let a = below.part(w, taken_as(Taken::Statement, stands), a)?;
    Ok(judge_plain(w, a))
}

/// The target is looked at before the value.
fn assigning_expression<
    E: Fn(&mut Walk, usize, &Expr) -> Result<Part, AllocError>,
    L: Fn(&mut Walk, usize, Role, &Lambda) -> Result<(SeenLambda, TypedLambda), AllocError>,
>(
    below: &Below<E, L>,
    w: &mut Walk,
    stands: bool,
    t: &Expr,
    s: Spot,
    op: AssignmentOperator,
    v: &Expr,
) -> Result<(Spot, TypedFull), AllocError>
    requires { LooksBelow below.now.depth (E.pre below.now.expr) (E.post below.now.expr) (L.pre below.now.lambda) (L.post below.now.lambda) }
    ensures { Looked (full_step (FullExpression-F.Assignment (expr t.now) s op (expr v.now)) stands) w.old result w.new }
{
    let t = below.part(w, taken_as(Taken::Reducer, stands), t)?;
    let (t, v) = beside(t, below.part(w, Taken::Nothing, v))?;
    Ok(judge_assignment(w, t, s, op, v))
}

/// A full expression, with its first token. `stands` says that it is a statement by itself.
pub fn full<
    E: Fn(&mut Walk, usize, &Expr) -> Result<Part, AllocError>,
    L: Fn(&mut Walk, usize, Role, &Lambda) -> Result<(SeenLambda, TypedLambda), AllocError>,
>(
    below: &Below<E, L>,
    w: &mut Walk,
    stands: bool,
    f: &FullExpression,
) -> Result<(Spot, TypedFull), AllocError>
    requires { LooksBelow below.now.depth (E.pre below.now.expr) (E.post below.now.expr) (L.pre below.now.lambda) (L.post below.now.lambda) }
    ensures { Looked (full f.now stands) w.old result w.new }
{
    match f {
        FullExpression::Plain(a) => plain_expression(below, w, stands, a),
        FullExpression::Assignment(t, s, op, v) => {
            assigning_expression(below, w, stands, t, *s, *op, v)
        }
    }
}
