//! Declared integers. (C++17, [dcl.decl], [dcl.spec.auto])

ghost use Rattle.std.specs.Prelude.{map};
ghost use Rattle.sy_looks.specs.Looked.{Looked};
ghost use Rattle.sy_note.specs.declared.Spot.{Spot as ThePlace};
ghost use Rattle.sy_rules.specs.Walk.{declarator_of, declarators, expr, one_declarator};
ghost use Rattle.sy_rules.specs.declared.statements.Shared.TheVariants as sharing;
ghost use Rattle.sy_tree.specs.declared.parts.Brackets.{Brackets as TheBrackets};
ghost use Rattle.sy_tree.specs.declared.tree.Argument.TheOpen.{Declarator-F};
ghost use Rattle.sy_walk.specs.Below.{LooksBelow};

use crate::names::declare_value;
use sqlite_items::Items;
use std::alloc::AllocError;
use sy_looks::{Part, Walk, beside};
use sy_note::Spot;
use sy_rules::{Role, SeenLambda, Shared, Taken};
use sy_statements::{Specifiers, shared_after};
use sy_tree::{Declarator, Expr, Lambda, Lexeme};
use sy_typed::{Thing, TypedDeclarator, TypedLambda};
use sy_walk::Below;

/// A declared name with its type.
type Declared = (Option<Thing>, TypedDeclarator);

/// `x`.
fn plain_declarator(
    w: &mut Walk,
    d: Specifiers,
    first: Shared,
    x: &Lexeme,
) -> Result<Declared, AllocError>
    ensures { Looked (one_declarator d.is_constant d.specifier d.of first (Declarator-F.Uninitialized x.now)) w.old result w.new }
{
    let (what, v) = declare_value(w, d, first, x, None)?;
    Ok((what, TypedDeclarator::Uninitialized(v)))
}

/// `x = a`. The name is declared after its initializer.
fn equal_declarator<
    E: Fn(&mut Walk, usize, &Expr) -> Result<Part, AllocError>,
    L: Fn(&mut Walk, usize, Role, &Lambda) -> Result<(SeenLambda, TypedLambda), AllocError>,
>(
    below: &Below<E, L>,
    w: &mut Walk,
    d: Specifiers,
    first: Shared,
    x: &Lexeme,
    a: &Expr,
) -> Result<Declared, AllocError>
    requires { LooksBelow below.now.depth (E.pre below.now.expr) (E.post below.now.expr) (L.pre below.now.lambda) (L.post below.now.lambda) }
    ensures { (s : ThePlace) → Looked (one_declarator d.is_constant d.specifier d.of first (Declarator-F.Equal x.now s (expr a.now))) w.old result w.new }
{
    let (seen, tree) = below.part(w, Taken::Nothing, a)?;
    let given = Some((seen, true));
    let (tree, (what, v)) = beside(tree, declare_value(w, d, first, x, given))?;
    Ok((what, TypedDeclarator::Equal(v, tree)))
}

/// `x(a)` or `x{a}`, up to the bracket at e.
fn bracketed_declarator<
    E: Fn(&mut Walk, usize, &Expr) -> Result<Part, AllocError>,
    L: Fn(&mut Walk, usize, Role, &Lambda) -> Result<(SeenLambda, TypedLambda), AllocError>,
>(
    below: &Below<E, L>,
    w: &mut Walk,
    d: Specifiers,
    first: Shared,
    x: &Lexeme,
    a: &Expr,
    e: Spot,
) -> Result<Declared, AllocError>
    requires { LooksBelow below.now.depth (E.pre below.now.expr) (E.post below.now.expr) (L.pre below.now.lambda) (L.post below.now.lambda) }
    ensures { (b : TheBrackets) (s : ThePlace) → Looked (one_declarator d.is_constant d.specifier d.of first (Declarator-F.Bracketed x.now b s (expr a.now) e)) w.old result w.new }
{
    let (seen, tree) = below.part(w, Taken::Nothing, a)?;
    let given = Some((seen, false));
    let (tree, (what, v)) = beside(tree, declare_value(w, d, first, x, given))?;
    Ok((what, TypedDeclarator::Bracketed(v, tree, e)))
}

fn one_declarator<
    E: Fn(&mut Walk, usize, &Expr) -> Result<Part, AllocError>,
    L: Fn(&mut Walk, usize, Role, &Lambda) -> Result<(SeenLambda, TypedLambda), AllocError>,
>(
    below: &Below<E, L>,
    w: &mut Walk,
    d: Specifiers,
    first: Shared,
    x: &Declarator,
) -> Result<Declared, AllocError>
    requires { LooksBelow below.now.depth (E.pre below.now.expr) (E.post below.now.expr) (L.pre below.now.lambda) (L.post below.now.lambda) }
    ensures { Looked (one_declarator d.is_constant d.specifier d.of first (declarator_of x.now)) w.old result w.new }
{
    match x {
        Declarator::Uninitialized(x) => plain_declarator(w, d, first, x),
        Declarator::Equal(x, _, a) => equal_declarator(below, w, d, first, x, a),
        Declarator::Bracketed(x, _, _, a, e) => {
            bracketed_declarator(below, w, d, first, x, a, *e)
        }
    }
}

/// The names of one declaration. Each is compared with what those before it share.
pub fn declarators<
    E: Fn(&mut Walk, usize, &Expr) -> Result<Part, AllocError>,
    L: Fn(&mut Walk, usize, Role, &Lambda) -> Result<(SeenLambda, TypedLambda), AllocError>,
>(
    below: &Below<E, L>,
    w: &mut Walk,
    d: Specifiers,
    xs: &[Declarator],
) -> Result<Items<TypedDeclarator>, AllocError>
    requires { LooksBelow below.now.depth (E.pre below.now.expr) (E.post below.now.expr) (L.pre below.now.lambda) (L.post below.now.lambda) }
    ensures { Looked (declarators d.is_constant d.specifier d.of sharing.Unknown (map declarator_of xs.now)) w.old result w.new }
{
    let mut trees = Items::new(w.alloc);
    let mut first = Shared::Unknown;
    for x in xs {
        let (what, tree) = one_declarator(below, w, d, first, x)?;
        trees.push(tree)?;
        first = shared_after(first, what);
    }
    Ok(trees)
}
