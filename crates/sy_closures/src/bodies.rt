//! The parameters and the body of a lambda, which stand in a scope and a setting of their own.
//! (C++17, [expr.prim.lambda]; SYCL 2020, "Command group function objects", "Defining kernels as lambdas")

ghost use Rattle.std.specs.Prelude.{◌≡◌, Option, OnOk, IfOk, map};
ghost use Rattle.sy_closures.specs.Bodies.{BlocksBelow};
ghost use Rattle.sy_found.specs.Noted.{found_in};
ghost use Rattle.sy_found.specs.declared.parts.Place.{Place};
ghost use Rattle.sy_looks.specs.Looked.{Looked};
ghost use Rattle.sy_rules.specs.Names.{in_setting, scoped};
ghost use Rattle.sy_rules.specs.Outcome.{in_turn};
ghost use Rattle.sy_rules.specs.Walk.{block, inside, one_lambda_parameter, parameters_and_body};

use sqlite_items::Items;
use std::alloc::AllocError;
use sy_captures::inside;
use sy_constructs::variable;
use sy_findings::Findings;
use sy_found::Found;
use sy_lambdas::{parameter, parameter_type};
use sy_looks::{Walk, beside};
use sy_names::{Declared, Names};
use sy_rules::{Constant, Role};
use sy_tree::{Block, LambdaParameter};
use sy_typed::{TypedBlock, Variable};

/// A lambda's or a function's body, over the walk of the blocks in it.
#[derive(Clone, Copy)]
pub struct Bodies<B> {
    /// How deep trees may still nest.
    pub depth: usize,
    pub block: B,
}

/// Declares a parameter of a lambda with this role, and adds what it breaks.
fn add_parameter(
    found: &mut Found,
    names: &mut Names,
    role: Role,
    p: &LambdaParameter,
) -> Result<Variable, AllocError>
    ensures found { (at : Option Place) → found.new ≡ found_in at found.old (one_lambda_parameter role p.now names.old).found }
    ensures names { OnOk result (names.new ≡ (one_lambda_parameter role p.now names.old).names) }
    ensures value { IfOk result (λ v. v ≡ (one_lambda_parameter role p.now names.old).what) }
{
    let mut own = Findings::new();
    parameter(&mut own, names, p);
    found.add(own);
    let what = parameter_type(role, &p.of);
    let number = names.add(
        &p.name,
        Declared {
            what,
            fixed: false,
            constant: Constant::Varying,
            names_element: false,
        },
    )?;
    Ok(variable(number, what, p.name.spot))
}

fn lambda_parameter(w: &mut Walk, role: Role, p: &LambdaParameter) -> Result<Variable, AllocError>
    ensures { Looked (one_lambda_parameter role p.now) w.old result w.new }
{
    let v = add_parameter(&mut w.found, &mut w.names, role, p)?;
    Ok(v)
}

fn parameters(
    w: &mut Walk,
    role: Role,
    ps: &[LambdaParameter],
) -> Result<Items<Variable>, AllocError>
    ensures { Looked (in_turn (map (one_lambda_parameter role) ps.now)) w.old result w.new }
{
    let mut vs = Items::new(w.alloc);
    for p in ps {
        let v = lambda_parameter(w, role, p)?;
        vs.push(v)?;
    }
    Ok(vs)
}

impl<B: Fn(&mut Walk, usize, &Block) -> Result<TypedBlock, AllocError>> Bodies<B> {
    /// A block that stands in the scope round it.
    pub fn sub_block(&self, w: &mut Walk, b: &Block) -> Result<TypedBlock, AllocError>
        requires { BlocksBelow self.now.depth (B.pre self.now.block) (B.post self.now.block) }
        ensures { Looked (block b.now) w.old result w.new }
    {
        (self.block)(w, self.depth, b)
    }

    /// The parameters belong to the scope of the body.
    fn parameters_and_body(
        &self,
        w: &mut Walk,
        role: Role,
        ps: &[LambdaParameter],
        b: &Block,
    ) -> Result<(Items<Variable>, TypedBlock), AllocError>
        requires { BlocksBelow self.now.depth (B.pre self.now.block) (B.post self.now.block) }
        ensures { Looked (parameters_and_body role ps.now (block b.now)) w.old result w.new }
    {
        let vs = parameters(w, role, ps)?;
        let (vs, y) = beside(vs, self.sub_block(w, b))?;
        Ok((vs, y))
    }

    fn in_scope(
        &self,
        w: &mut Walk,
        role: Role,
        ps: &[LambdaParameter],
        b: &Block,
    ) -> Result<(Items<Variable>, TypedBlock), AllocError>
        requires { BlocksBelow self.now.depth (B.pre self.now.block) (B.post self.now.block) }
        ensures { Looked (scoped (parameters_and_body role ps.now (block b.now))) w.old result w.new }
    {
        w.names.enter()?;
        let found = self.parameters_and_body(w, role, ps, b)?;
        w.names.leave();
        Ok(found)
    }

    /// The parameters and the body of a lambda with so many scopes outside it.
    pub fn lambda_inside(
        &self,
        w: &mut Walk,
        role: Role,
        outside: u32,
        ps: &[LambdaParameter],
        b: &Block,
    ) -> Result<(Items<Variable>, TypedBlock), AllocError>
        requires { BlocksBelow self.now.depth (B.pre self.now.block) (B.post self.now.block) }
        ensures { Looked (in_setting (inside role outside) (λ m. scoped (parameters_and_body role ps.now (block b.now)) m)) w.old result w.new }
    {
        let setting = w.names.setting();
        w.names.set(inside(role, outside, setting));
        let found = self.in_scope(w, role, ps, b)?;
        w.names.set(setting);
        Ok(found)
    }
}
