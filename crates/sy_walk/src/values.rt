//! Values that are looked at from left to right. (C++17, [expr.call], [dcl.init.list])

ghost use Rattle.std.specs.Prelude.{◌≡◌, [], ◌∷◌, ◌++◌, map, OnOk};
ghost use Rattle.sy_looks.specs.Looked.{Looked};
ghost use Rattle.sy_rules.specs.Walk.{expr};
ghost use Rattle.sy_walk.specs.Below.{LooksBelow};
ghost use Rattle.sy_walk.specs.Values.{values};

use crate::below::Below;
use sqlite_items::Items;
use std::alloc::AllocError;
use sy_looks::{Part, Parts, Walk};
use sy_rules::{Role, SeenLambda, Taken};
use sy_tree::{Expr, Lambda};
use sy_typed::TypedLambda;

/// Pushes what is seen of a part, and its typed tree.
pub fn push_both<A: Drop, B: Drop>(
    seen: &mut Items<A>,
    trees: &mut Items<B>,
    both: (A, B),
) -> Result<(), AllocError>
    ensures seen { OnOk result (seen.new ≡ seen.old ++ both.0 ∷ []) }
    ensures trees { OnOk result (trees.new ≡ trees.old ++ both.1 ∷ []) }
{
    let (one, tree) = both;
    trees.push(tree)?;
    seen.push(one)?;
    Ok(())
}

impl<
    E: Fn(&mut Walk, usize, &Expr) -> Result<Part, AllocError>,
    L: Fn(&mut Walk, usize, Role, &Lambda) -> Result<(SeenLambda, TypedLambda), AllocError>,
> Below<E, L> {
    /// Values of which each stands where a value is taken.
    pub fn values(&self, w: &mut Walk, xs: &[Expr]) -> Result<Parts, AllocError>
        requires { LooksBelow self.now.depth (E.pre self.now.expr) (E.post self.now.expr) (L.pre self.now.lambda) (L.post self.now.lambda) }
        ensures { Looked (values (map expr xs.now)) w.old result w.new }
    {
        let mut seen = Items::new(w.alloc);
        let mut trees = Items::new(w.alloc);
        for x in xs {
            let both = self.part(w, Taken::Nothing, x)?;
            push_both(&mut seen, &mut trees, both)?;
        }
        Ok((seen, trees))
    }
}
