//! Declared objects. (SYCL 2020, "SYCL programming interface"; C++17, [vector], [thread.thread.class])

ghost use Rattle.sy_declare.specs.Declared.{made};
ghost use Rattle.sy_declare.specs.Trees.{maybe_initializer};
ghost use Rattle.sy_looks.specs.Looked.{Looked};
ghost use Rattle.sy_note.specs.declared.Spot.{Spot as ThePlace};
ghost use Rattle.sy_rules.specs.Foreign.{is_made_in};
ghost use Rattle.sy_rules.specs.Objects.{arguments_of, object_row};
ghost use Rattle.sy_rules.specs.StmtRules.{object_faults};
ghost use Rattle.sy_rules.specs.Walk.{declaration_step, declared_object, foreign_object};
ghost use Rattle.sy_tree.specs.declared.tree.Argument.TheOpen.{Declaration-F};
ghost use Rattle.sy_typed.specs.declared.tree.TypedDeclaration.{TypedDeclaration as TheDeclaration};
ghost use Rattle.sy_typed.specs.declared.tree.Variable.{Variable as TheVariable};
ghost use Rattle.sy_walk.specs.Below.{LooksBelow};
ghost use Rattle.sy_walk.specs.Trees.{lambda};

use crate::initializers::maybe_initializer;
use crate::names::{declare_in_host, declare_object};
use std::alloc::AllocError;
use sy_constructs::{foreign_object, taken_by_object};
use sy_findings::Findings;
use sy_looks::{Part, Walk, beside};
use sy_note::Spot;
use sy_objects::{initialized_row, is_made_in, type_start};
use sy_rules::{Role, SeenInitializer, SeenLambda, Taken};
use sy_statements::{device_vector, object, redeclaration, vector};
use sy_tree::{Brackets, Expr, Initializer, IntegerType, Lambda, Lexeme, ObjectType, Qualified};
use sy_typed::{Thing, TypedDeclaration, TypedLambda, Variable};
use sy_walk::Below;

/// A vector of integers.
pub fn vector_declaration<
    E: Fn(&mut Walk, usize, &Expr) -> Result<Part, AllocError>,
    L: Fn(&mut Walk, usize, Role, &Lambda) -> Result<(SeenLambda, TypedLambda), AllocError>,
>(
    below: &Below<E, L>,
    w: &mut Walk,
    q: Qualified,
    t: IntegerType,
    x: &Lexeme,
    i: &Option<Initializer>,
    e: Spot,
) -> Result<(Spot, TypedDeclaration), AllocError>
    requires { LooksBelow below.now.depth (E.pre below.now.expr) (E.post below.now.expr) (L.pre below.now.lambda) (L.post below.now.lambda) }
    ensures { Looked (declaration_step (Declaration-F.Vector q t x.now (maybe_initializer i.now) e)) w.old result w.new }
{
    let (seen, tree) = maybe_initializer(below, w, Taken::Nothing, i)?;
    let mut own = Findings::new();
    vector(&mut own, &w.names, t.kind, x, &seen);
    let (tree, v) = beside(tree, declare_in_host(w, own, Thing::Vector(t.kind), x))?;
    Ok((q.namespace, TypedDeclaration::Vector(v, tree, e)))
}

/// A vector of devices.
pub fn device_vector_declaration<
    E: Fn(&mut Walk, usize, &Expr) -> Result<Part, AllocError>,
    L: Fn(&mut Walk, usize, Role, &Lambda) -> Result<(SeenLambda, TypedLambda), AllocError>,
>(
    below: &Below<E, L>,
    w: &mut Walk,
    q: Qualified,
    x: &Lexeme,
    i: &Option<Initializer>,
    e: Spot,
) -> Result<(Spot, TypedDeclaration), AllocError>
    requires { LooksBelow below.now.depth (E.pre below.now.expr) (E.post below.now.expr) (L.pre below.now.lambda) (L.post below.now.lambda) }
    ensures { Looked (declaration_step (Declaration-F.DeviceVector q x.now (maybe_initializer i.now) e)) w.old result w.new }
{
    let (seen, tree) = maybe_initializer(below, w, Taken::Nothing, i)?;
    let mut own = Findings::new();
    device_vector(&mut own, &w.names, x, &seen);
    let (tree, v) = beside(tree, declare_in_host(w, own, Thing::DeviceVector, x))?;
    Ok((q.namespace, TypedDeclaration::DeviceVector(v, tree, e)))
}

/// A vector of threads.
pub fn thread_vector_declaration(
    w: &mut Walk,
    q: Qualified,
    x: &Lexeme,
    e: Spot,
) -> Result<(Spot, TypedDeclaration), AllocError>
    ensures { Looked (declaration_step (Declaration-F.ThreadVector q x.now e)) w.old result w.new }
{
    let mut own = Findings::new();
    redeclaration(&mut own, &w.names, x);
    let v = declare_in_host(w, own, Thing::ThreadVector, x)?;
    Ok((q.namespace, TypedDeclaration::ThreadVector(v, e)))
}

/// A thread, whose lambda is looked at before its name is declared.
pub fn thread_declaration<
    E: Fn(&mut Walk, usize, &Expr) -> Result<Part, AllocError>,
    L: Fn(&mut Walk, usize, Role, &Lambda) -> Result<(SeenLambda, TypedLambda), AllocError>,
>(
    below: &Below<E, L>,
    w: &mut Walk,
    q: Qualified,
    x: &Lexeme,
    b: Brackets,
    l: &Lambda,
    e: Spot,
) -> Result<(Spot, TypedDeclaration), AllocError>
    requires { LooksBelow below.now.depth (E.pre below.now.expr) (E.post below.now.expr) (L.pre below.now.lambda) (L.post below.now.lambda) }
    ensures { Looked (declaration_step (Declaration-F.Thread q x.now b (lambda l.now) e)) w.old result w.new }
{
    let role = Role::Thread(w.names.next());
    let (_seen, tree) = below.sub_lambda(w, role, l)?;
    let mut own = Findings::new();
    redeclaration(&mut own, &w.names, x);
    let (tree, v) = beside(tree, declare_in_host(w, own, Thing::Thread, x))?;
    Ok((q.namespace, TypedDeclaration::Thread(v, tree, e)))
}

/// Declares an object of the library whose initializer was looked at.
fn declare_library_object(
    w: &mut Walk,
    t: &ObjectType,
    x: &Lexeme,
    seen: &Option<SeenInitializer>,
) -> Result<Variable, AllocError>
    ensures { (s : ThePlace) (make : TheVariable → TheDeclaration) → Looked (λ n. declared_object (is_made_in n.setting.within t.now) (object_faults n t.now x.now seen.now) (foreign_object t.now) (object_row t.now (arguments_of seen.now)).gives s x.now make n) w.old (made s make result) w.new }
{
    let mut own = Findings::new();
    object(&mut own, &w.names, t, x, seen);
    let allowed = is_made_in(w.names.setting().within, t);
    let foreign = foreign_object(t);
    let what = initialized_row(t, seen).gives;
    declare_object(w, allowed, own, foreign, what, x)
}

/// An object of the library.
pub fn object_declaration<
    E: Fn(&mut Walk, usize, &Expr) -> Result<Part, AllocError>,
    L: Fn(&mut Walk, usize, Role, &Lambda) -> Result<(SeenLambda, TypedLambda), AllocError>,
>(
    below: &Below<E, L>,
    w: &mut Walk,
    t: &ObjectType,
    x: &Lexeme,
    i: &Option<Initializer>,
    e: Spot,
) -> Result<(Spot, TypedDeclaration), AllocError>
    requires { LooksBelow below.now.depth (E.pre below.now.expr) (E.post below.now.expr) (L.pre below.now.lambda) (L.post below.now.lambda) }
    ensures { Looked (declaration_step (Declaration-F.Object t.now x.now (maybe_initializer i.now) e)) w.old result w.new }
{
    let (seen, tree) = maybe_initializer(below, w, taken_by_object(t), i)?;
    let (tree, v) = beside(tree, declare_library_object(w, t, x, &seen))?;
    Ok((type_start(t), TypedDeclaration::Object(v, tree, e)))
}
