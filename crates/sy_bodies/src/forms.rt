//! All forms of a statement. (C++17, [stmt.stmt])

ghost use Rattle.sy_bodies.specs.Inside.{LooksInside};
ghost use Rattle.sy_looks.specs.Looked.{Looked};
ghost use Rattle.sy_rules.specs.Outcome.{known_as};
ghost use Rattle.sy_rules.specs.Walk.{stmt, block, block_as};
ghost use Rattle.sy_typed.specs.declared.tree.TypedStmt.TheVariants as typed;

use crate::inner::Inner;
use crate::judged::{judge_break, judge_continue};
use std::alloc::AllocError;
use sy_captures::Element;
use sy_looks::{Part, Walk};
use sy_rules::{Role, SeenLambda, Standing};
use sy_tree::{Block, Expr, Lambda, Stmt};
use sy_typed::{TypedBlock, TypedLambda, TypedStmt};

impl<
    E: Fn(&mut Walk, usize, &Expr) -> Result<Part, AllocError>,
    L: Fn(&mut Walk, usize, Role, &Lambda) -> Result<(SeenLambda, TypedLambda), AllocError>,
    S: Fn(&mut Walk, usize, Standing, &Stmt) -> Result<TypedStmt, AllocError>,
    B: Fn(&mut Walk, usize, &Block) -> Result<TypedBlock, AllocError>,
> Inner<E, L, S, B> {
    fn compound(&self, w: &mut Walk, own: Standing, b: &Block) -> Result<TypedStmt, AllocError>
        requires { LooksInside self.now.below.depth (E.pre self.now.below.expr) (E.post self.now.below.expr) (L.pre self.now.below.lambda) (L.post self.now.below.lambda) (S.pre self.now.stmt) (S.post self.now.stmt) (B.pre self.now.block) (B.post self.now.block) }
        ensures { Looked (λ n. known_as (λ b. typed.Compound b) (block_as own (block b.now) n)) w.old result w.new }
    {
        let tree = self.block_as(w, own, b)?;
        Ok(TypedStmt::Compound(tree))
    }

    /// A statement that stands so, with all that stands in it.
    pub fn form(
        &self,
        w: &mut Walk,
        standing: Standing,
        tree: &Stmt,
    ) -> Result<TypedStmt, AllocError>
        requires { LooksInside self.now.below.depth (E.pre self.now.below.expr) (E.post self.now.below.expr) (L.pre self.now.below.lambda) (L.post self.now.below.lambda) (S.pre self.now.stmt) (S.post self.now.stmt) (B.pre self.now.block) (B.post self.now.block) }
        ensures { Looked (stmt tree.now standing) w.old result w.new }
    {
        match tree {
            Stmt::Compound(b) => self.compound(w, standing, b),
            Stmt::Null(s) => Ok(TypedStmt::Null(*s)),
            Stmt::Declaration(d) => self.declaration_statement(w, standing, d),
            Stmt::Expression(f, e) => self.expression_statement(w, standing, f, *e),
            Stmt::Print(q, xs, e) => self.print_statement(w, standing, *q, xs, *e),
            Stmt::Break(s, e) => Ok(judge_break(w, *s, *e)),
            Stmt::Continue(s, e) => Ok(judge_continue(w, *s, *e)),
            Stmt::Return(s, a, e) => self.return_statement(w, standing, *s, a, *e),
            Stmt::If(s, c, a, b) => self.if_statement(w, standing, *s, c, a, b),
            Stmt::While(s, c, a) => self.while_statement(w, standing, *s, c, a),
            Stmt::Do(s, a, c, e) => self.do_statement(w, standing, *s, a, c, *e),
            Stmt::For(s, i, c, f, a) => self.for_statement(w, standing, *s, i, c, f, a),
            Stmt::RangeFor(s, c, t, r, x, v, a) => {
                let e = Element {
                    is_const: *c,
                    of: *t,
                    by_reference: *r,
                };
                self.range_for_statement(w, standing, *s, e, x, v, a)
            }
            Stmt::Try(s, a, x, b) => self.try_statement(w, standing, *s, a, x, b),
        }
    }
}
