//! Functions of a file. (C++17, [dcl.fct.def])

ghost use Rattle.std.specs.Prelude.{◌≡◌, IfOk, length, map};
ghost use Rattle.sy_closures.specs.Bodies.{BlocksBelow};
ghost use Rattle.sy_looks.specs.Looked.{Looked};
ghost use Rattle.sy_rules.specs.Names.{in_setting, scoped};
ghost use Rattle.sy_rules.specs.Outcome.{in_turn, known_as};
ghost use Rattle.sy_rules.specs.Units.{function_inside, in_function, one_function, one_parameter, parameters_then_body, typed_function};
ghost use Rattle.sy_rules.specs.Walk.{block};

use sqlite_items::Items;
use std::alloc::AllocError;
use sy_closures::Bodies;
use sy_findings::Findings;
use sy_looks::{Walk, beside};
use sy_statements::redeclaration;
use sy_tree::{Block, Function, Parameter};
use sy_typed::{TypedBlock, TypedFunction, Variable};
use sy_units::{declare_function, in_function, parameter, returned_kind};

/// The same number where it has 32 bits; else want of memory.
pub fn narrowed(n: usize) -> Result<u32, AllocError>
    ensures { IfOk result (λ m. m ≡ n) }
{
    if n > 4294967295 {
        return Err(AllocError);
    }
    Ok(n as u32)
}

fn function_parameter(w: &mut Walk, p: &Parameter) -> Result<Variable, AllocError>
    ensures { Looked (one_parameter p.now) w.old result w.new }
{
    let v = parameter(&mut w.found, &mut w.names, p)?;
    Ok(v)
}

fn parameters(w: &mut Walk, ps: &[Parameter]) -> Result<Items<Variable>, AllocError>
    ensures { Looked (in_turn (map one_parameter ps.now)) w.old result w.new }
{
    let mut vs = Items::new(w.alloc);
    for p in ps {
        let v = function_parameter(w, p)?;
        vs.push(v)?;
    }
    Ok(vs)
}

/// The parameters belong to the scope of the body.
fn parameters_then_body<B: Fn(&mut Walk, usize, &Block) -> Result<TypedBlock, AllocError>>(
    bodies: &Bodies<B>,
    w: &mut Walk,
    ps: &[Parameter],
    b: &Block,
) -> Result<(Items<Variable>, TypedBlock), AllocError>
    requires { BlocksBelow bodies.now.depth (B.pre bodies.now.block) (B.post bodies.now.block) }
    ensures { Looked (parameters_then_body ps.now (block b.now)) w.old result w.new }
{
    let vs = parameters(w, ps)?;
    let (vs, y) = beside(vs, bodies.sub_block(w, b))?;
    Ok((vs, y))
}

fn in_scope<B: Fn(&mut Walk, usize, &Block) -> Result<TypedBlock, AllocError>>(
    bodies: &Bodies<B>,
    w: &mut Walk,
    ps: &[Parameter],
    b: &Block,
) -> Result<(Items<Variable>, TypedBlock), AllocError>
    requires { BlocksBelow bodies.now.depth (B.pre bodies.now.block) (B.post bodies.now.block) }
    ensures { Looked (scoped (parameters_then_body ps.now (block b.now))) w.old result w.new }
{
    w.names.enter()?;
    let found = parameters_then_body(bodies, w, ps, b)?;
    w.names.leave();
    Ok(found)
}

/// The parameters and the body of the function with this place.
fn in_its_setting<B: Fn(&mut Walk, usize, &Block) -> Result<TypedBlock, AllocError>>(
    bodies: &Bodies<B>,
    w: &mut Walk,
    f: &Function,
    place: u32,
) -> Result<(Items<Variable>, TypedBlock), AllocError>
    requires { BlocksBelow bodies.now.depth (B.pre bodies.now.block) (B.post bodies.now.block) }
    ensures { Looked (in_setting (in_function place f.now) (λ m. scoped (parameters_then_body f.now.parameters (block f.now.body)) m)) w.old result w.new }
{
    let setting = w.names.setting();
    w.names.set(in_function(place, f));
    let found = in_scope(bodies, w, f.parameters.as_slice(), &f.body)?;
    w.names.set(setting);
    Ok(found)
}

fn typed_function(f: &Function, inside: (Items<Variable>, TypedBlock)) -> TypedFunction
    ensures { result ≡ typed_function f.now inside }
{
    let (parameters, body) = inside;
    TypedFunction {
        spot: f.name.spot,
        returned: returned_kind(f.returned),
        parameters,
        body,
    }
}

fn function_inside<B: Fn(&mut Walk, usize, &Block) -> Result<TypedBlock, AllocError>>(
    bodies: &Bodies<B>,
    w: &mut Walk,
    f: &Function,
    place: u32,
) -> Result<TypedFunction, AllocError>
    requires { BlocksBelow bodies.now.depth (B.pre bodies.now.block) (B.post bodies.now.block) }
    ensures { Looked (function_inside f.now (block f.now.body) place) w.old result w.new }
{
    let inside = in_its_setting(bodies, w, f, place)?;
    Ok(typed_function(f, inside))
}

/// A function of the file, which is declared before its body.
pub fn function<B: Fn(&mut Walk, usize, &Block) -> Result<TypedBlock, AllocError>>(
    bodies: &Bodies<B>,
    w: &mut Walk,
    f: &Function,
) -> Result<TypedFunction, AllocError>
    requires { BlocksBelow bodies.now.depth (B.pre bodies.now.block) (B.post bodies.now.block) }
    ensures { Looked (one_function f.now (block f.now.body)) w.old result w.new }
{
    let place = narrowed(w.names.functions().len())?;
    let mut own = Findings::new();
    redeclaration(&mut own, &w.names, &f.name);
    w.found.add(own);
    declare_function(w.alloc, &mut w.names, f, place)?;
    let y = function_inside(bodies, w, f, place)?;
    Ok(y)
}
