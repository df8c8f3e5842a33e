//! Declarations. (C++17, [dcl.dcl])

ghost use Rattle.std.specs.Prelude.{◌≡◌, map};
ghost use Rattle.sy_declare.specs.Trees.{declaration};
ghost use Rattle.sy_looks.specs.Looked.{Looked};
ghost use Rattle.sy_rules.specs.Walk.{declaration_step, declarator_of, is_constexpr, start_of, start_of_type};
ghost use Rattle.sy_tree.specs.declared.tree.Argument.TheOpen.{Declaration-F};
ghost use Rattle.sy_walk.specs.Below.{LooksBelow};

use crate::declarators::declarators;
use crate::objects::{
    device_vector_declaration, object_declaration, thread_declaration, thread_vector_declaration,
    vector_declaration,
};
use std::alloc::AllocError;
use sy_looks::{Part, Walk};
use sy_note::Spot;
use sy_rules::{Role, SeenLambda};
use sy_statements::Specifiers;
use sy_tree::{ConstSpecifier, Declaration, Declarator, Expr, Lambda, TypeSpecifier};
use sy_typed::{TypedDeclaration, TypedLambda};
use sy_walk::Below;

fn is_constexpr(specifier: Option<ConstSpecifier>) -> bool
    ensures { result ≡ is_constexpr specifier }
{
    match specifier {
        Some(ConstSpecifier::Constexpr(_)) => true,
        _ => false,
    }
}

fn start_of_type(of: TypeSpecifier) -> Spot
    ensures { result ≡ start_of_type of }
{
    match of {
        TypeSpecifier::Auto(s) => s,
        TypeSpecifier::Integer(t) => t.spot,
    }
}

/// The first token of a declaration of integers.
fn start_of(specifier: Option<ConstSpecifier>, of: TypeSpecifier) -> Spot
    ensures { result ≡ start_of specifier of }
{
    match specifier {
        Some(ConstSpecifier::Const(s)) => s,
        Some(ConstSpecifier::Constexpr(s)) => s,
        None => start_of_type(of),
    }
}

/// Integers, or what `auto` takes.
fn integer_declaration<
    E: Fn(&mut Walk, usize, &Expr) -> Result<Part, AllocError>,
    L: Fn(&mut Walk, usize, Role, &Lambda) -> Result<(SeenLambda, TypedLambda), AllocError>,
>(
    below: &Below<E, L>,
    w: &mut Walk,
    c: Option<ConstSpecifier>,
    t: TypeSpecifier,
    xs: &[Declarator],
    e: Spot,
) -> Result<(Spot, TypedDeclaration), AllocError>
    requires { LooksBelow below.now.depth (E.pre below.now.expr) (E.post below.now.expr) (L.pre below.now.lambda) (L.post below.now.lambda) }
    ensures { Looked (declaration_step (Declaration-F.Integers c t (map declarator_of xs.now) e)) w.old result w.new }
{
    let d = Specifiers {
        is_constant: is_constexpr(c),
        specifier: c,
        of: t,
    };
    let trees = declarators(below, w, d, xs)?;
    Ok((start_of(c, t), TypedDeclaration::Values(trees, e)))
}

/// A declaration, with its first token.
pub fn declaration<
    E: Fn(&mut Walk, usize, &Expr) -> Result<Part, AllocError>,
    L: Fn(&mut Walk, usize, Role, &Lambda) -> Result<(SeenLambda, TypedLambda), AllocError>,
>(
    below: &Below<E, L>,
    w: &mut Walk,
    d: &Declaration,
) -> Result<(Spot, TypedDeclaration), AllocError>
    requires { LooksBelow below.now.depth (E.pre below.now.expr) (E.post below.now.expr) (L.pre below.now.lambda) (L.post below.now.lambda) }
    ensures { Looked (declaration d.now) w.old result w.new }
{
    match d {
        Declaration::Integers(c, t, xs, e) => {
            integer_declaration(below, w, *c, *t, xs.as_slice(), *e)
        }
        Declaration::Vector(q, t, x, i, e) => vector_declaration(below, w, *q, *t, x, i, *e),
        Declaration::DeviceVector(q, x, i, e) => {
            device_vector_declaration(below, w, *q, x, i, *e)
        }
        Declaration::ThreadVector(q, x, e) => thread_vector_declaration(w, *q, x, *e),
        Declaration::Thread(q, x, b, l, e) => thread_declaration(below, w, *q, x, *b, l, *e),
        Declaration::Object(t, x, i, e) => object_declaration(below, w, t, x, i, *e),
    }
}
