//! Arguments of objects, members and functions of the library. (C++17, [expr.call]; SYCL 2020, "Command group handler class")

ghost use Rattle.std.specs.Prelude.{◌≡◌, [], map};
ghost use Rattle.sy_looks.specs.Looked.{Looked};
ghost use Rattle.sy_rules.specs.Walk.{arguments, no_role, one_argument, role_for, untaken};
ghost use Rattle.sy_rules.specs.declared.names.Taken.{Taken as Takes};
ghost use Rattle.sy_tree.specs.declared.tree.Argument.TheOpen.{Argument-F};
ghost use Rattle.sy_walk.specs.Below.{LooksBelow};
ghost use Rattle.sy_walk.specs.Trees.{argument, lambda};

use crate::below::Below;
use crate::values::push_both;
use sqlite_items::Items;
use std::alloc::{AllocError, Global};
use sy_looks::{Arguments, Part, Walk};
use sy_members::member_role;
use sy_note::Spot;
use sy_rules::{Role, SeenArgument, SeenLambda, Taken};
use sy_tree::{Argument, Expr, Lambda};
use sy_typed::{Member, Thing, TypedArgument, TypedBlock, TypedLambda};

/// What stands for a lambda where none is taken: such a lambda isn't looked at.
fn untaken(alloc: Global) -> (SeenArgument, TypedArgument)
    ensures { result ≡ untaken }
{
    let nowhere = Spot { line: 1, column: 1 };
    let body = TypedBlock {
        statements: Items::new(alloc),
        close: nowhere,
    };
    let lambda = TypedLambda {
        spot: nowhere,
        number: 0,
        captures: Items::new(alloc),
        parameters: Items::new(alloc),
        body,
    };
    let seen = SeenLambda {
        is_sound: true,
        dimensions: None,
    };
    (SeenArgument::Lambda(seen), TypedArgument::Lambda(lambda))
}

/// What a lambda is given for as an argument behind these. The member's object is the variable with this number.
fn role_for(
    object: Option<Thing>,
    variable: u32,
    member: Option<Member>,
    before: &[SeenArgument],
) -> Option<Role>
    ensures { result ≡ role_for object variable member before.now }
{
    match (object, member) {
        (Some(object), Some(member)) => member_role(object, variable, member, before),
        _ => None,
    }
}

impl<
    E: Fn(&mut Walk, usize, &Expr) -> Result<Part, AllocError>,
    L: Fn(&mut Walk, usize, Role, &Lambda) -> Result<(SeenLambda, TypedLambda), AllocError>,
> Below<E, L> {
    /// A lambda, where one with this role is taken, or none.
    fn lambda_argument(
        &self,
        w: &mut Walk,
        role: Option<Role>,
        l: &Lambda,
    ) -> Result<(SeenArgument, TypedArgument), AllocError>
        requires { LooksBelow self.now.depth (E.pre self.now.expr) (E.post self.now.expr) (L.pre self.now.lambda) (L.post self.now.lambda) }
        ensures { (taken : Takes) → Looked (one_argument taken role (Argument-F.Lambda (lambda l.now))) w.old result w.new }
    {
        match role {
            None => Ok(untaken(w.alloc)),
            Some(role) => {
                let (seen, tree) = self.sub_lambda(w, role, l)?;
                Ok((SeenArgument::Lambda(seen), TypedArgument::Lambda(tree)))
            }
        }
    }

    /// An argument whose place takes this, and a lambda with that role.
    fn one_argument(
        &self,
        w: &mut Walk,
        taken: Taken,
        role: Option<Role>,
        x: &Argument,
    ) -> Result<(SeenArgument, TypedArgument), AllocError>
        requires { LooksBelow self.now.depth (E.pre self.now.expr) (E.post self.now.expr) (L.pre self.now.lambda) (L.post self.now.lambda) }
        ensures { Looked (one_argument taken role (argument x.now)) w.old result w.new }
    {
        match x {
            Argument::Value(a) => {
                let (seen, tree) = self.part(w, taken, a)?;
                Ok((SeenArgument::Value(seen), TypedArgument::Value(tree)))
            }
            Argument::Braced(_open, xs, close) => {
                let (seen, trees) = self.values(w, xs.as_slice())?;
                Ok((
                    SeenArgument::Braced(seen),
                    TypedArgument::Braced(trees, *close),
                ))
            }
            Argument::Lambda(l) => self.lambda_argument(w, role, l),
        }
    }

    /// Arguments of a member, whose object has this type and is the variable with this number.
    pub fn arguments_for(
        &self,
        w: &mut Walk,
        taken: Taken,
        object: Option<Thing>,
        variable: u32,
        member: Option<Member>,
        xs: &[Argument],
    ) -> Result<Arguments, AllocError>
        requires { LooksBelow self.now.depth (E.pre self.now.expr) (E.post self.now.expr) (L.pre self.now.lambda) (L.post self.now.lambda) }
        ensures { Looked (arguments taken (role_for object variable member) [] (map argument xs.now)) w.old result w.new }
    {
        let mut seen = Items::new(w.alloc);
        let mut trees = Items::new(w.alloc);
        for x in xs {
            let role = role_for(object, variable, member, seen.as_slice());
            let both = self.one_argument(w, taken, role, x)?;
            push_both(&mut seen, &mut trees, both)?;
        }
        Ok((seen, trees))
    }

    /// Arguments where no lambda is taken.
    pub fn arguments(
        &self,
        w: &mut Walk,
        taken: Taken,
        xs: &[Argument],
    ) -> Result<Arguments, AllocError>
        requires { LooksBelow self.now.depth (E.pre self.now.expr) (E.post self.now.expr) (L.pre self.now.lambda) (L.post self.now.lambda) }
        ensures { Looked (arguments taken no_role [] (map argument xs.now)) w.old result w.new }
    {
        self.arguments_for(w, taken, None, 0, None, xs)
    }
}
