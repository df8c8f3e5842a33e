//! Constants of the file. (C++17, [dcl.constexpr])

ghost use Rattle.std.specs.Prelude.{Some};
ghost use Rattle.sy_looks.specs.Looked.{Looked};
ghost use Rattle.sy_rules.specs.Outcome.{and_then};
ghost use Rattle.sy_rules.specs.Units.{constant_as, constant_by};
ghost use Rattle.sy_rules.specs.Walk.{declarator_of, expr, part};
ghost use Rattle.sy_tree.specs.declared.tree.Argument.TheOpen.{Declarator-F};
ghost use Rattle.sy_walk.specs.Below.{LooksBelow};

use std::alloc::AllocError;
use sy_constructs::typed;
use sy_looks::{Part, Walk, beside};
use sy_rules::{Role, SeenLambda, Taken};
use sy_statements::Given;
use sy_tree::{Constant, Declarator, Expr, Lambda, Lexeme};
use sy_typed::{Typed, TypedConstant, TypedLambda, TypedNode};
use sy_walk::Below;

/// Declares a constant whose initializer was looked at.
fn declare_constant(
    w: &mut Walk,
    c: &Constant,
    x: &Lexeme,
    given: Given,
    initializer: Typed,
) -> Result<TypedConstant, AllocError>
    ensures { Looked (constant_as c.now x.now given initializer) w.old result w.new }
{
    let (initializer, variable) = beside(
        initializer,
        sy_units::constant(&mut w.found, &mut w.names, c, x, given),
    )?;
    Ok(TypedConstant {
        variable,
        initializer,
    })
}

/// A constant without an initializer, which is refused.
fn undefined_constant(w: &mut Walk, c: &Constant, x: &Lexeme) -> Result<TypedConstant, AllocError>
    ensures { Looked (constant_by c.now (Declarator-F.Uninitialized x.now)) w.old result w.new }
{
    let nothing = typed(TypedNode::Boolean(false), None, x.spot);
    declare_constant(w, c, x, None, nothing)
}

/// A constant whose initializer stands behind `=`, or in brackets.
fn defined_constant<
    E: Fn(&mut Walk, usize, &Expr) -> Result<Part, AllocError>,
    L: Fn(&mut Walk, usize, Role, &Lambda) -> Result<(SeenLambda, TypedLambda), AllocError>,
>(
    below: &Below<E, L>,
    w: &mut Walk,
    c: &Constant,
    x: &Lexeme,
    equal: bool,
    a: &Expr,
) -> Result<TypedConstant, AllocError>
    requires { LooksBelow below.now.depth (E.pre below.now.expr) (E.post below.now.expr) (L.pre below.now.lambda) (L.post below.now.lambda) }
    ensures { Looked (λ n. and_then (part (expr a.now) n) (λ p. constant_as c.now x.now (Some (p.0, equal)) p.1)) w.old result w.new }
{
    let (seen, tree) = below.part(w, Taken::Nothing, a)?;
    declare_constant(w, c, x, Some((seen, equal)), tree)
}

/// A constant of the file.
pub fn constant<
    E: Fn(&mut Walk, usize, &Expr) -> Result<Part, AllocError>,
    L: Fn(&mut Walk, usize, Role, &Lambda) -> Result<(SeenLambda, TypedLambda), AllocError>,
>(below: &Below<E, L>, w: &mut Walk, c: &Constant) -> Result<TypedConstant, AllocError>
    requires { LooksBelow below.now.depth (E.pre below.now.expr) (E.post below.now.expr) (L.pre below.now.lambda) (L.post below.now.lambda) }
    ensures { Looked (constant_by c.now (declarator_of c.now.declarator)) w.old result w.new }
{
    match &c.declarator {
        Declarator::Uninitialized(x) => undefined_constant(w, c, x),
        Declarator::Equal(x, _, a) => defined_constant(below, w, c, x, true, a),
        Declarator::Bracketed(x, _, _, a, _) => defined_constant(below, w, c, x, false, a),
    }
}
