//! A whole lambda. (C++17, [expr.prim.lambda]; SYCL 2020, "Command group function objects", "Defining kernels as lambdas")

ghost use Rattle.std.specs.Prelude.{◌≡◌, IfOk};
ghost use Rattle.sy_closures.specs.Bodies.{BlocksBelow, parts_of_lambda};
ghost use Rattle.sy_looks.specs.Looked.{Looked, looked};
ghost use Rattle.sy_rules.specs.Lambdas.{listed};
ghost use Rattle.sy_rules.specs.Walk.{block, lambda_judged};
ghost use Rattle.sy_walk.specs.Trees.{lambda};

use crate::bodies::Bodies;
use crate::captures::{enter_lambda, leave_lambda, listed_names};
use crate::judged::{given, judge_lambda, typed_lambda};
use sqlite_items::Items;
use std::alloc::AllocError;
use sy_captures::thread_scope;
use sy_looks::{Walk, beside};
use sy_note::Spot;
use sy_rules::{Role, SeenLambda};
use sy_tree::{Block, Capture, Lambda, LambdaParameter};
use sy_typed::{TypedBlock, TypedCapture, TypedLambda, Variable};

/// The parts of a lambda that were looked at: the number of its body, what its list takes, and what stands inside.
#[derive(Drop)]
struct LambdaParts {
    number: u32,
    listed: Vec<TypedCapture>,
    inside: (Items<Variable>, TypedBlock),
}

/// The parameters between the parentheses, which may be left out.
fn parameters_of(written: &Option<Items<LambdaParameter>>) -> &[LambdaParameter]
    ensures { result.now ≡ listed written.now }
{
    match written {
        None => &[],
        Some(ps) => ps.as_slice(),
    }
}

impl<B: Fn(&mut Walk, usize, &Block) -> Result<TypedBlock, AllocError>> Bodies<B> {
    fn parts(
        &self,
        w: &mut Walk,
        role: Role,
        cs: &[Capture],
        ps: &[LambdaParameter],
        b: &Block,
    ) -> Result<LambdaParts, AllocError>
        requires { BlocksBelow self.now.depth (B.pre self.now.block) (B.post self.now.block) }
        ensures looked { IfOk result (λ parts. ((parts.listed.items, parts.inside), w.new) ≡ looked (parts_of_lambda role cs.now ps.now (block b.now)) w.old) }
        ensures number { IfOk result (λ parts. parts.number ≡ w.old.names.next_body) }
    {
        let t = thread_scope(&w.names, role, cs);
        let scopes = w.names.depth();
        let (listed, outside) = listed_names(w, t, cs)?;
        let number = w.names.take_body()?;
        enter_lambda(w, t, cs, &outside)?;
        let (listed, inside) = beside(listed, self.lambda_inside(w, role, scopes, ps, b))?;
        leave_lambda(w, t);
        Ok(LambdaParts {
            number,
            listed,
            inside,
        })
    }

    fn lambda_at(
        &self,
        w: &mut Walk,
        role: Role,
        s: Spot,
        cs: &[Capture],
        ps: &[LambdaParameter],
        b: &Block,
    ) -> Result<(SeenLambda, TypedLambda), AllocError>
        requires { BlocksBelow self.now.depth (B.pre self.now.block) (B.post self.now.block) }
        ensures { Looked (λ n. lambda_judged role s cs.now ps.now n (parts_of_lambda role cs.now ps.now (block b.now) n)) w.old result w.new }
    {
        let start = w.names.next();
        let first_use = w.found.used().len();
        let aside = w.found.set_aside();
        let parts = self.parts(w, role, cs, ps, b)?;
        let LambdaParts {
            number,
            listed,
            inside,
        } = parts;
        let (inside, captures) = beside(
            inside,
            given(w.alloc, &w.found, role, start, listed, first_use),
        )?;
        let seen = judge_lambda(&mut w.found, role, s, cs, ps, aside);
        Ok((seen, typed_lambda(s, number, captures, inside)))
    }

    /// A lambda with this role.
    pub fn lambda(
        &self,
        w: &mut Walk,
        role: Role,
        l: &Lambda,
    ) -> Result<(SeenLambda, TypedLambda), AllocError>
        requires { BlocksBelow self.now.depth (B.pre self.now.block) (B.post self.now.block) }
        ensures { Looked (lambda l.now role) w.old result w.new }
    {
        let ps = parameters_of(&l.parameters);
        self.lambda_at(w, role, l.spot, l.captures.as_slice(), ps, &l.body)
    }
}
