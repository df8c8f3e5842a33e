//! The walks over what stands in a form.

ghost use Rattle.std.specs.Prelude.{◌≡◌};
ghost use Rattle.sy_looks.specs.Looked.{Looked};
ghost use Rattle.sy_rules.specs.Names.{where_taken};
ghost use Rattle.sy_rules.specs.Walk.{expr};
ghost use Rattle.sy_walk.specs.Below.{LooksBelow};
ghost use Rattle.sy_walk.specs.Trees.{lambda};

use std::alloc::AllocError;
use sy_looks::{Part, Walk};
use sy_rules::{Role, SeenLambda, Setting, Taken};
use sy_tree::{Expr, Lambda};
use sy_typed::TypedLambda;

/// A form of an expression, over the walks of the expressions and lambdas in it.
#[derive(Clone, Copy)]
pub struct Below<E, L> {
    /// How deep trees may still nest.
    pub depth: usize,
    pub expr: E,
    pub lambda: L,
}

/// The setting where a place takes this.
fn with_taken(setting: Setting, taken: Taken) -> Setting
    ensures { result ≡ record setting { taken = taken } }
{
    Setting {
        within: setting.within,
        function: setting.function,
        returned: setting.returned,
        in_loop: setting.in_loop,
        kernel: setting.kernel,
        taken,
    }
}

impl<
    E: Fn(&mut Walk, usize, &Expr) -> Result<Part, AllocError>,
    L: Fn(&mut Walk, usize, Role, &Lambda) -> Result<(SeenLambda, TypedLambda), AllocError>,
> Below<E, L> {
    fn sub_expr(&self, w: &mut Walk, e: &Expr) -> Result<Part, AllocError>
        requires { LooksBelow self.now.depth (E.pre self.now.expr) (E.post self.now.expr) (L.pre self.now.lambda) (L.post self.now.lambda) }
        ensures { Looked (expr e.now) w.old result w.new }
    {
        (self.expr)(w, self.depth, e)
    }

    /// A lambda with this role.
    pub fn sub_lambda(
        &self,
        w: &mut Walk,
        role: Role,
        l: &Lambda,
    ) -> Result<(SeenLambda, TypedLambda), AllocError>
        requires { LooksBelow self.now.depth (E.pre self.now.expr) (E.post self.now.expr) (L.pre self.now.lambda) (L.post self.now.lambda) }
        ensures { Looked (lambda l.now role) w.old result w.new }
    {
        (self.lambda)(w, self.depth, role, l)
    }

    /// An expression whose place takes this.
    pub fn part(&self, w: &mut Walk, taken: Taken, e: &Expr) -> Result<Part, AllocError>
        requires { LooksBelow self.now.depth (E.pre self.now.expr) (E.post self.now.expr) (L.pre self.now.lambda) (L.post self.now.lambda) }
        ensures { Looked (where_taken taken (expr e.now)) w.old result w.new }
    {
        let setting = w.names.setting();
        w.names.set(with_taken(setting, taken));
        let found = self.sub_expr(w, e)?;
        w.names.set(setting);
        Ok(found)
    }
}
