//! Operators, casts, parentheses and indexes. (C++17, "Expressions")

ghost use Rattle.std.specs.Prelude.{◌≡◌};
ghost use Rattle.sy_looks.specs.Looked.{Looked};
ghost use Rattle.sy_rules.specs.Walk.{expr, one_part, two_parts, three_parts, taken_inside, taken_beside};
ghost use Rattle.sy_rules.specs.declared.names.Taken.TheVariants as takes;
ghost use Rattle.sy_tree.specs.declared.tree.Argument.TheOpen.{Expr-F};
ghost use Rattle.sy_typed.specs.declared.tree.TypedNode.TheVariants as node;
ghost use Rattle.sy_walk.specs.Below.{LooksBelow};

use crate::below::Below;
use std::alloc::AllocError;
use sy_constructs::{taken_beside, taken_inside};
use sy_looks::{
    Part, Walk, beside, judge_binary, judge_cast, judge_conditional, judge_functional_cast,
    judge_group_barrier, judge_parenthesized, judge_postfix, judge_prefix, judge_static_cast,
    judge_subscript, judge_unary,
};
use sy_note::Spot;
use sy_num::UnOp;
use sy_rules::{Role, SeenLambda, Taken};
use sy_tree::{Expr, IntegerType, Lambda, Operator, Qualified, Step};
use sy_typed::TypedLambda;

impl<
    E: Fn(&mut Walk, usize, &Expr) -> Result<Part, AllocError>,
    L: Fn(&mut Walk, usize, Role, &Lambda) -> Result<(SeenLambda, TypedLambda), AllocError>,
> Below<E, L> {
    /// `static_cast<t>(a)`.
    pub fn static_cast(
        &self,
        w: &mut Walk,
        s: Spot,
        t: IntegerType,
        a: &Expr,
        e: Spot,
    ) -> Result<Part, AllocError>
        requires { LooksBelow self.now.depth (E.pre self.now.expr) (E.post self.now.expr) (L.pre self.now.lambda) (L.post self.now.lambda) }
        ensures { Looked (one_part takes.Nothing (expr a.now) (λ a. Expr-F.StaticCast s t a e) (λ a. node.StaticCast a e) s) w.old result w.new }
    {
        let a = self.part(w, Taken::Nothing, a)?;
        judge_static_cast(w, s, t, a, e)
    }

    /// `t(a)`.
    pub fn functional_cast(
        &self,
        w: &mut Walk,
        t: IntegerType,
        a: &Expr,
        e: Spot,
    ) -> Result<Part, AllocError>
        requires { LooksBelow self.now.depth (E.pre self.now.expr) (E.post self.now.expr) (L.pre self.now.lambda) (L.post self.now.lambda) }
        ensures { Looked (one_part takes.Nothing (expr a.now) (λ a. Expr-F.FunctionalCast t a e) (λ a. node.FunctionalCast a e) t.spot) w.old result w.new }
    {
        let a = self.part(w, Taken::Nothing, a)?;
        judge_functional_cast(w, t, a, e)
    }

    /// `(t) a`.
    pub fn cast(&self, w: &mut Walk, s: Spot, t: IntegerType, a: &Expr) -> Result<Part, AllocError>
        requires { LooksBelow self.now.depth (E.pre self.now.expr) (E.post self.now.expr) (L.pre self.now.lambda) (L.post self.now.lambda) }
        ensures { Looked (one_part takes.Nothing (expr a.now) (λ a. Expr-F.Cast s t a) (λ a. node.Cast a) s) w.old result w.new }
    {
        let a = self.part(w, Taken::Nothing, a)?;
        judge_cast(w, s, t, a)
    }

    /// `op a`.
    pub fn unary(&self, w: &mut Walk, s: Spot, op: UnOp, a: &Expr) -> Result<Part, AllocError>
        requires { LooksBelow self.now.depth (E.pre self.now.expr) (E.post self.now.expr) (L.pre self.now.lambda) (L.post self.now.lambda) }
        ensures { Looked (one_part takes.Nothing (expr a.now) (λ a. Expr-F.Unary s op a) (λ a. node.Unary op a) s) w.old result w.new }
    {
        let a = self.part(w, Taken::Nothing, a)?;
        judge_unary(w, s, op, a)
    }

    /// `++a` or `--a`.
    pub fn prefix(&self, w: &mut Walk, s: Spot, step: Step, a: &Expr) -> Result<Part, AllocError>
        requires { LooksBelow self.now.depth (E.pre self.now.expr) (E.post self.now.expr) (L.pre self.now.lambda) (L.post self.now.lambda) }
        ensures { Looked (one_part takes.Nothing (expr a.now) (λ a. Expr-F.Prefix s step a) (λ a. node.Prefix step a) s) w.old result w.new }
    {
        let a = self.part(w, Taken::Nothing, a)?;
        judge_prefix(w, s, step, a)
    }

    /// `a++` or `a--`.
    pub fn postfix(&self, w: &mut Walk, a: &Expr, s: Spot, step: Step) -> Result<Part, AllocError>
        requires { LooksBelow self.now.depth (E.pre self.now.expr) (E.post self.now.expr) (L.pre self.now.lambda) (L.post self.now.lambda) }
        ensures { Looked (one_part takes.Nothing (expr a.now) (λ a. Expr-F.Postfix a s step) (λ a. node.Postfix a step) s) w.old result w.new }
    {
        let a = self.part(w, Taken::Nothing, a)?;
        judge_postfix(w, a, s, step)
    }

    /// `group_barrier(a)`.
    pub fn group_barrier(
        &self,
        w: &mut Walk,
        q: Qualified,
        a: &Expr,
        e: Spot,
    ) -> Result<Part, AllocError>
        requires { LooksBelow self.now.depth (E.pre self.now.expr) (E.post self.now.expr) (L.pre self.now.lambda) (L.post self.now.lambda) }
        ensures { Looked (one_part takes.Nothing (expr a.now) (λ a. Expr-F.GroupBarrier q a e) (λ a. node.GroupBarrier a e) q.name) w.old result w.new }
    {
        let a = self.part(w, Taken::Nothing, a)?;
        judge_group_barrier(w, q, a, e)
    }

    /// `(a)`.
    pub fn parenthesized(
        &self,
        w: &mut Walk,
        s: Spot,
        a: &Expr,
        e: Spot,
    ) -> Result<Part, AllocError>
        requires { LooksBelow self.now.depth (E.pre self.now.expr) (E.post self.now.expr) (L.pre self.now.lambda) (L.post self.now.lambda) }
        ensures { Looked (λ n. one_part (taken_inside n.setting.taken) (expr a.now) (λ a. Expr-F.Parenthesized s a e) (λ a. node.Parenthesized a e) s n) w.old result w.new }
    {
        let taken = taken_inside(w.names.setting().taken);
        let a = self.part(w, taken, a)?;
        judge_parenthesized(w, s, a, e)
    }

    /// `a op b`.
    pub fn binary(
        &self,
        w: &mut Walk,
        a: &Expr,
        s: Spot,
        op: Operator,
        b: &Expr,
    ) -> Result<Part, AllocError>
        requires { LooksBelow self.now.depth (E.pre self.now.expr) (E.post self.now.expr) (L.pre self.now.lambda) (L.post self.now.lambda) }
        ensures { Looked (two_parts (taken_beside op) (expr a.now) (expr b.now) (λ a b. Expr-F.Binary a s op b) (λ a b. node.Binary a op b) s) w.old result w.new }
    {
        let taken = taken_beside(op);
        let a = self.part(w, taken, a)?;
        let (a, b) = beside(a, self.part(w, taken, b))?;
        judge_binary(w, a, s, op, b)
    }

    /// `a[i]`.
    pub fn subscript(
        &self,
        w: &mut Walk,
        a: &Expr,
        s: Spot,
        i: &Expr,
        e: Spot,
    ) -> Result<Part, AllocError>
        requires { LooksBelow self.now.depth (E.pre self.now.expr) (E.post self.now.expr) (L.pre self.now.lambda) (L.post self.now.lambda) }
        ensures { Looked (two_parts takes.Nothing (expr a.now) (expr i.now) (λ a i. Expr-F.Subscript a s i e) (λ a i. node.Subscript a i e) s) w.old result w.new }
    {
        let a = self.part(w, Taken::Nothing, a)?;
        let (a, i) = beside(a, self.part(w, Taken::Nothing, i))?;
        judge_subscript(w, a, s, i, e)
    }

    /// `a ? b : c`.
    pub fn conditional(
        &self,
        w: &mut Walk,
        a: &Expr,
        s: Spot,
        b: &Expr,
        c: &Expr,
    ) -> Result<Part, AllocError>
        requires { LooksBelow self.now.depth (E.pre self.now.expr) (E.post self.now.expr) (L.pre self.now.lambda) (L.post self.now.lambda) }
        ensures { Looked (three_parts (expr a.now) (expr b.now) (expr c.now) (λ a b c. Expr-F.Conditional a s b c) (λ a b c. node.Conditional a b c) s) w.old result w.new }
    {
        let a = self.part(w, Taken::Nothing, a)?;
        let (a, b) = beside(a, self.part(w, Taken::Nothing, b))?;
        let ((a, b), c) = beside((a, b), self.part(w, Taken::Nothing, c))?;
        judge_conditional(w, a, s, b, c)
    }
}
