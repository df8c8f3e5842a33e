//! What is known of a lambda once its body was looked at. (C++17, [expr.prim.lambda]; SYCL 2020, "Command group function
//! objects", "Defining kernels as lambdas")

ghost use Rattle.std.specs.Prelude.{◌≡◌, ◌≤◌, List, Option, None, IfOk, drop, length};
ghost use Rattle.sy_found.specs.Noted.{Notes, found_in};
ghost use Rattle.sy_found.specs.declared.parts.Place.{Place};
ghost use Rattle.sy_placing.specs.Placing.{HavePlaces};
ghost use Rattle.sy_rules.specs.Lambdas.{captures_given};
ghost use Rattle.sy_rules.specs.Outcome.{Finding, all_broken};
ghost use Rattle.sy_rules.specs.Walk.{lambda_found, seen_lambda};
ghost use Rattle.sy_typed.specs.declared.tree.TypedLambda.{roll-TypedLambda};

use sqlite_items::Items;
use std::alloc::{AllocError, Global};
use sy_captures::{bad_lambda, captures_given, seen_lambda};
use sy_findings::Findings;
use sy_found::Found;
use sy_note::Spot;
use sy_rules::{Role, SeenLambda};
use sy_tree::{Capture, LambdaParameter};
use sy_typed::{TypedBlock, TypedCapture, TypedLambda, Variable};

/// Adds BadLambda, if it is told, and puts back what was put aside before the lambda.
pub fn judge_lambda(
    found: &mut Found,
    role: Role,
    s: Spot,
    cs: &[Capture],
    ps: &[LambdaParameter],
    aside: Findings,
) -> SeenLambda
    ensures found { (p : Option Place) (t : Notes) (xs : List Finding) → HavePlaces xs → aside ≡ t.first → found.old ≡ found_in p (record t { first = None }) xs → found.new ≡ found_in p t (lambda_found role s cs.now ps.now xs) }
    ensures seen { (p : Option Place) (t : Notes) (xs : List Finding) → HavePlaces xs → found.old ≡ found_in p (record t { first = None }) xs → result ≡ seen_lambda ps.now (all_broken (lambda_found role s cs.now ps.now xs)) }
{
    let mut own = Findings::new();
    bad_lambda(&mut own, role, s, cs, ps, found.first());
    found.add(own);
    let seen = seen_lambda(ps, found.first());
    found.put_back(aside);
    seen
}

/// What a lambda is given, by the uses that were found from this one on.
pub fn given(
    alloc: Global,
    found: &Found,
    role: Role,
    start: u32,
    listed: Vec<TypedCapture>,
    first_use: usize,
) -> Result<Items<TypedCapture>, AllocError>
    requires { first_use ≤ length found.now.used }
    ensures { IfOk result (λ cs. cs ≡ captures_given role start listed.items (drop first_use found.now.used)) }
{
    let (_before, used) = found.used().split_at(first_use);
    let captures = captures_given(alloc, role, start, listed, used)?;
    Ok(Items::from_vec(captures))
}

/// The typed tree of a lambda at `s`, with the number of its body.
pub fn typed_lambda(
    s: Spot,
    number: u32,
    captures: Items<TypedCapture>,
    inside: (Items<Variable>, TypedBlock),
) -> TypedLambda
    ensures { result ≡ roll-TypedLambda (record { spot = s; number = number; captures = captures; parameters = inside.0; body = inside.1 }) }
{
    let (parameters, body) = inside;
    TypedLambda {
        spot: s,
        number,
        captures,
        parameters,
        body,
    }
}
