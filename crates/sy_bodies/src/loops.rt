//! Loops. (C++17, [stmt.iter])

ghost use Rattle.sy_bodies.specs.Inside.{LooksInside};
ghost use Rattle.sy_bodies.specs.Trees.{maybe_expr, maybe_full};
ghost use Rattle.sy_looks.specs.Looked.{Looked};
ghost use Rattle.sy_rules.specs.Names.{scoped};
ghost use Rattle.sy_rules.specs.Walk.{expr, stmt, placed_at, while_loop, do_loop, for_loop, range_for};

use crate::inner::Inner;
use crate::judged::{judge_do, judge_for, judge_while};
use crate::places::begin_statement;
use sqlite_items::Boxed;
use std::alloc::AllocError;
use sy_captures::{Element, add_head, declare_element, ranged_variable};
use sy_looks::{Part, Walk, beside};
use sy_note::Spot;
use sy_rules::{Role, SeenLambda, Standing};
use sy_tree::{Block, Expr, FullExpression, Lambda, Lexeme, Stmt};
use sy_typed::{TypedBlock, TypedLambda, TypedStmt};

impl<
    E: Fn(&mut Walk, usize, &Expr) -> Result<Part, AllocError>,
    L: Fn(&mut Walk, usize, Role, &Lambda) -> Result<(SeenLambda, TypedLambda), AllocError>,
    S: Fn(&mut Walk, usize, Standing, &Stmt) -> Result<TypedStmt, AllocError>,
    B: Fn(&mut Walk, usize, &Block) -> Result<TypedBlock, AllocError>,
> Inner<E, L, S, B> {
    pub fn while_statement(
        &self,
        w: &mut Walk,
        own: Standing,
        s: Spot,
        c: &Expr,
        a: &Boxed<Stmt>,
    ) -> Result<TypedStmt, AllocError>
        requires { LooksInside self.now.below.depth (E.pre self.now.below.expr) (E.post self.now.below.expr) (L.pre self.now.below.lambda) (L.post self.now.below.lambda) (S.pre self.now.stmt) (S.post self.now.stmt) (B.pre self.now.block) (B.post self.now.block) }
        ensures { Looked (λ n. placed_at own s n (while_loop s (expr c.now) (stmt a.now) n)) w.old result w.new }
    {
        let outside = begin_statement(w, own, s);
        let test = self.part(w, c)?;
        let (test, inside) = beside(test, self.looped_body(w, a))?;
        let tree = judge_while(w, s, test, inside);
        w.place = outside;
        Ok(tree)
    }

    pub fn do_statement(
        &self,
        w: &mut Walk,
        own: Standing,
        s: Spot,
        a: &Boxed<Stmt>,
        c: &Expr,
        e: Spot,
    ) -> Result<TypedStmt, AllocError>
        requires { LooksInside self.now.below.depth (E.pre self.now.below.expr) (E.post self.now.below.expr) (L.pre self.now.below.lambda) (L.post self.now.below.lambda) (S.pre self.now.stmt) (S.post self.now.stmt) (B.pre self.now.block) (B.post self.now.block) }
        ensures { Looked (λ n. placed_at own s n (do_loop s (stmt a.now) (expr c.now) e n)) w.old result w.new }
    {
        let outside = begin_statement(w, own, s);
        let inside = self.looped_body(w, a)?;
        let (inside, test) = beside(inside, self.part(w, c))?;
        let tree = judge_do(w, s, inside, test, e);
        w.place = outside;
        Ok(tree)
    }

    /// A `for` in the scope of its head. Its condition, its step or both may be left out.
    fn for_loop(
        &self,
        w: &mut Walk,
        s: Spot,
        i: &Boxed<Stmt>,
        c: &Option<Expr>,
        f: &Option<FullExpression>,
        a: &Boxed<Stmt>,
    ) -> Result<TypedStmt, AllocError>
        requires { LooksInside self.now.below.depth (E.pre self.now.below.expr) (E.post self.now.below.expr) (L.pre self.now.below.lambda) (L.post self.now.below.lambda) (S.pre self.now.stmt) (S.post self.now.stmt) (B.pre self.now.block) (B.post self.now.block) }
        ensures { Looked (for_loop s (stmt i.now) (maybe_expr c.now) (maybe_full f.now) (stmt a.now)) w.old result w.new }
    {
        let head = self.boxed_stmt(w, Standing::InHead, i)?;
        let (head, test) = beside(head, self.maybe_part(w, c))?;
        let ((head, test), step) = beside((head, test), self.maybe_full(w, f))?;
        let ((head, test, step), inside) = beside((head, test, step), self.looped(w, a))?;
        Ok(judge_for(w, s, head, test, step, inside))
    }

    pub fn for_statement(
        &self,
        w: &mut Walk,
        own: Standing,
        s: Spot,
        i: &Boxed<Stmt>,
        c: &Option<Expr>,
        f: &Option<FullExpression>,
        a: &Boxed<Stmt>,
    ) -> Result<TypedStmt, AllocError>
        requires { LooksInside self.now.below.depth (E.pre self.now.below.expr) (E.post self.now.below.expr) (L.pre self.now.below.lambda) (L.post self.now.below.lambda) (S.pre self.now.stmt) (S.post self.now.stmt) (B.pre self.now.block) (B.post self.now.block) }
        ensures { Looked (λ n. placed_at own s n (scoped (for_loop s (stmt i.now) (maybe_expr c.now) (maybe_full f.now) (stmt a.now)) n)) w.old result w.new }
    {
        let outside = begin_statement(w, own, s);
        w.names.enter()?;
        let tree = self.for_loop(w, s, i, c, f, a)?;
        w.names.leave();
        w.place = outside;
        Ok(tree)
    }

    /// A range-for in the scope of its head: x names the element, and v what the loop goes over.
    fn range_for(
        &self,
        w: &mut Walk,
        s: Spot,
        e: Element,
        x: &Lexeme,
        v: &Lexeme,
        a: &Boxed<Stmt>,
    ) -> Result<TypedStmt, AllocError>
        requires { LooksInside self.now.below.depth (E.pre self.now.below.expr) (E.post self.now.below.expr) (L.pre self.now.below.lambda) (L.post self.now.below.lambda) (S.pre self.now.stmt) (S.post self.now.stmt) (B.pre self.now.block) (B.post self.now.block) }
        ensures { Looked (range_for s e.is_const e.of e.by_reference x.now v.now (stmt a.now)) w.old result w.new }
    {
        let named = w.names.find(v.text.items());
        add_head(&mut w.found, w.place, &w.names, e, x, v, named)?;
        let element = declare_element(&mut w.names, e, x, named)?;
        let inside = self.looped(w, a)?;
        let whole = ranged_variable(named, v.spot);
        Ok(TypedStmt::RangeFor(s, element, e.by_reference, whole, inside))
    }

    pub fn range_for_statement(
        &self,
        w: &mut Walk,
        own: Standing,
        s: Spot,
        e: Element,
        x: &Lexeme,
        v: &Lexeme,
        a: &Boxed<Stmt>,
    ) -> Result<TypedStmt, AllocError>
        requires { LooksInside self.now.below.depth (E.pre self.now.below.expr) (E.post self.now.below.expr) (L.pre self.now.below.lambda) (L.post self.now.below.lambda) (S.pre self.now.stmt) (S.post self.now.stmt) (B.pre self.now.block) (B.post self.now.block) }
        ensures { Looked (λ n. placed_at own s n (scoped (range_for s e.is_const e.of e.by_reference x.now v.now (stmt a.now)) n)) w.old result w.new }
    {
        let outside = begin_statement(w, own, s);
        w.names.enter()?;
        let tree = self.range_for(w, s, e, x, v, a)?;
        w.names.leave();
        w.place = outside;
        Ok(tree)
    }
}
