//! Initializers of the library's objects. (C++17, [dcl.init])

ghost use Rattle.std.specs.Prelude.{map};
ghost use Rattle.sy_declare.specs.Trees.{initializer_of, maybe_initializer};
ghost use Rattle.sy_looks.specs.Looked.{Looked};
ghost use Rattle.sy_note.specs.declared.Spot.{Spot as ThePlace};
ghost use Rattle.sy_rules.specs.Walk.{expr, initialized, one_initializer};
ghost use Rattle.sy_tree.specs.declared.tree.Argument.TheOpen.{Initializer-F};
ghost use Rattle.sy_walk.specs.Below.{LooksBelow};
ghost use Rattle.sy_walk.specs.Trees.{argument};

use std::alloc::AllocError;
use sy_looks::{Part, Walk};
use sy_note::Spot;
use sy_rules::{Role, SeenInitializer, SeenLambda, Taken};
use sy_tree::{Argument, Brackets, Expr, Initializer, Lambda};
use sy_typed::{TypedInitializer, TypedLambda};
use sy_walk::Below;

/// What is seen of an initializer, if there is one, and its typed tree.
pub type Initialized = (Option<SeenInitializer>, Option<TypedInitializer>);

/// `= a`.
fn copy_initializer<
    E: Fn(&mut Walk, usize, &Expr) -> Result<Part, AllocError>,
    L: Fn(&mut Walk, usize, Role, &Lambda) -> Result<(SeenLambda, TypedLambda), AllocError>,
>(below: &Below<E, L>, w: &mut Walk, taken: Taken, a: &Expr) -> Result<Initialized, AllocError>
    requires { LooksBelow below.now.depth (E.pre below.now.expr) (E.post below.now.expr) (L.pre below.now.lambda) (L.post below.now.lambda) }
    ensures { (s : ThePlace) → Looked (one_initializer taken (Initializer-F.Copy s (expr a.now))) w.old result w.new }
{
    let (seen, tree) = below.part(w, taken, a)?;
    let seen = Some(SeenInitializer::Copy(seen));
    Ok((seen, Some(TypedInitializer::Copy(tree))))
}

/// Arguments in brackets, up to the bracket at e.
fn direct_initializer<
    E: Fn(&mut Walk, usize, &Expr) -> Result<Part, AllocError>,
    L: Fn(&mut Walk, usize, Role, &Lambda) -> Result<(SeenLambda, TypedLambda), AllocError>,
>(
    below: &Below<E, L>,
    w: &mut Walk,
    taken: Taken,
    b: Brackets,
    xs: &[Argument],
    e: Spot,
) -> Result<Initialized, AllocError>
    requires { LooksBelow below.now.depth (E.pre below.now.expr) (E.post below.now.expr) (L.pre below.now.lambda) (L.post below.now.lambda) }
    ensures { (s : ThePlace) → Looked (one_initializer taken (Initializer-F.Direct b s (map argument xs.now) e)) w.old result w.new }
{
    let (seen, trees) = below.arguments(w, taken, xs)?;
    let seen = Some(SeenInitializer::Direct(b, seen));
    Ok((seen, Some(TypedInitializer::Direct(b, trees, e))))
}

fn one_initializer<
    E: Fn(&mut Walk, usize, &Expr) -> Result<Part, AllocError>,
    L: Fn(&mut Walk, usize, Role, &Lambda) -> Result<(SeenLambda, TypedLambda), AllocError>,
>(
    below: &Below<E, L>,
    w: &mut Walk,
    taken: Taken,
    i: &Initializer,
) -> Result<Initialized, AllocError>
    requires { LooksBelow below.now.depth (E.pre below.now.expr) (E.post below.now.expr) (L.pre below.now.lambda) (L.post below.now.lambda) }
    ensures { Looked (one_initializer taken (initializer_of i.now)) w.old result w.new }
{
    match i {
        Initializer::Copy(_, a) => copy_initializer(below, w, taken, a),
        Initializer::Direct(b, _, xs, e) => {
            direct_initializer(below, w, taken, *b, xs.as_slice(), *e)
        }
    }
}

/// An initializer, if there is one, whose arguments may be what `taken` says.
pub fn maybe_initializer<
    E: Fn(&mut Walk, usize, &Expr) -> Result<Part, AllocError>,
    L: Fn(&mut Walk, usize, Role, &Lambda) -> Result<(SeenLambda, TypedLambda), AllocError>,
>(
    below: &Below<E, L>,
    w: &mut Walk,
    taken: Taken,
    i: &Option<Initializer>,
) -> Result<Initialized, AllocError>
    requires { LooksBelow below.now.depth (E.pre below.now.expr) (E.post below.now.expr) (L.pre below.now.lambda) (L.post below.now.lambda) }
    ensures { Looked (initialized taken (maybe_initializer i.now)) w.old result w.new }
{
    match i {
        None => Ok((None, None)),
        Some(i) => one_initializer(below, w, taken, i),
    }
}
