//! Statements that hold no other statement. (C++17, [stmt.expr], [stmt.dcl], [stmt.jump])

ghost use Rattle.std.specs.Prelude.{true, map};
ghost use Rattle.sy_bodies.specs.Inside.{LooksInside};
ghost use Rattle.sy_bodies.specs.Trees.{maybe_expr};
ghost use Rattle.sy_declare.specs.Trees.{declaration, full, printed};
ghost use Rattle.sy_looks.specs.Looked.{Looked};
ghost use Rattle.sy_rules.specs.declared.names.Within.TheVariants as within;
ghost use Rattle.sy_rules.specs.Outcome.{after, known_as, in_turn, foreign_in};
ghost use Rattle.sy_rules.specs.Walk.{declared_at, expressed_at, placed_at, returning};
ghost use Rattle.sy_typed.specs.declared.tree.TypedStmt.TheVariants as typed;

use crate::inner::Inner;
use crate::judged::judge_return;
use crate::places::begin_statement;
use crate::starts::{declaration_start, full_start};
use sqlite_items::Items;
use std::alloc::AllocError;
use sy_looks::{Part, Walk};
use sy_note::Spot;
use sy_rules::{Role, SeenLambda, Standing, Within};
use sy_tree::{Block, Declaration, Expr, FullExpression, Lambda, Printed, Qualified, Stmt};
use sy_typed::{TypedBlock, TypedLambda, TypedStmt};

impl<
    E: Fn(&mut Walk, usize, &Expr) -> Result<Part, AllocError>,
    L: Fn(&mut Walk, usize, Role, &Lambda) -> Result<(SeenLambda, TypedLambda), AllocError>,
    S: Fn(&mut Walk, usize, Standing, &Stmt) -> Result<TypedStmt, AllocError>,
    B: Fn(&mut Walk, usize, &Block) -> Result<TypedBlock, AllocError>,
> Inner<E, L, S, B> {
    pub fn declaration_statement(
        &self,
        w: &mut Walk,
        own: Standing,
        d: &Declaration,
    ) -> Result<TypedStmt, AllocError>
        requires { LooksInside self.now.below.depth (E.pre self.now.below.expr) (E.post self.now.below.expr) (L.pre self.now.below.lambda) (L.post self.now.below.lambda) (S.pre self.now.stmt) (S.post self.now.stmt) (B.pre self.now.block) (B.post self.now.block) }
        ensures { Looked (λ n. declared_at own n (declaration d.now n)) w.old result w.new }
    {
        let outside = begin_statement(w, own, declaration_start(d));
        let found = self.sub_declaration(w, d)?;
        w.place = outside;
        let (_start, tree) = found;
        Ok(TypedStmt::Declaration(tree))
    }

    /// A full expression that ends at e.
    pub fn expression_statement(
        &self,
        w: &mut Walk,
        own: Standing,
        f: &FullExpression,
        e: Spot,
    ) -> Result<TypedStmt, AllocError>
        requires { LooksInside self.now.below.depth (E.pre self.now.below.expr) (E.post self.now.below.expr) (L.pre self.now.below.lambda) (L.post self.now.below.lambda) (S.pre self.now.stmt) (S.post self.now.stmt) (B.pre self.now.block) (B.post self.now.block) }
        ensures { Looked (λ n. expressed_at own e n (full f.now true n)) w.old result w.new }
    {
        let start = full_start(f)?;
        let outside = begin_statement(w, own, start);
        let found = self.sub_full(w, true, f)?;
        w.place = outside;
        let (_start, tree) = found;
        Ok(TypedStmt::Expression(tree, e))
    }

    /// Output to `std::cout`, which q names, up to the `;` at e.
    pub fn print_statement(
        &self,
        w: &mut Walk,
        own: Standing,
        q: Qualified,
        xs: &Items<Printed>,
        e: Spot,
    ) -> Result<TypedStmt, AllocError>
        requires { LooksInside self.now.below.depth (E.pre self.now.below.expr) (E.post self.now.below.expr) (L.pre self.now.below.lambda) (L.post self.now.below.lambda) (S.pre self.now.stmt) (S.post self.now.stmt) (B.pre self.now.block) (B.post self.now.block) }
        ensures { Looked (λ n. placed_at own q.namespace n (after (foreign_in true within.Kernel) (known_as (λ ps. typed.Print ps e) (in_turn (map printed xs.now) n)))) w.old result w.new }
    {
        let outside = begin_statement(w, own, q.namespace);
        w.found.add_use_against(w.place, Within::Kernel);
        let items = self.printed_items(w, xs.as_slice())?;
        w.place = outside;
        Ok(TypedStmt::Print(items, e))
    }

    pub fn return_statement(
        &self,
        w: &mut Walk,
        own: Standing,
        s: Spot,
        a: &Option<Expr>,
        e: Spot,
    ) -> Result<TypedStmt, AllocError>
        requires { LooksInside self.now.below.depth (E.pre self.now.below.expr) (E.post self.now.below.expr) (L.pre self.now.below.lambda) (L.post self.now.below.lambda) (S.pre self.now.stmt) (S.post self.now.stmt) (B.pre self.now.block) (B.post self.now.block) }
        ensures { Looked (λ n. placed_at own s n (returning s (maybe_expr a.now) e n)) w.old result w.new }
    {
        let outside = begin_statement(w, own, s);
        let value = self.maybe_part(w, a)?;
        let tree = judge_return(w, s, value, e);
        w.place = outside;
        Ok(tree)
    }
}
