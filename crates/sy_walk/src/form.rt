//! Any expression. (C++17, "Expressions")

ghost use Rattle.sy_looks.specs.Looked.{Looked};
ghost use Rattle.sy_rules.specs.Walk.{expr};
ghost use Rattle.sy_walk.specs.Below.{LooksBelow};

use crate::below::Below;
use std::alloc::AllocError;
use sy_looks::{
    Part, Walk, judge_access_tag, judge_boolean, judge_character, judge_error_code,
    judge_function_object, judge_in_order, judge_initialize_to_identity, judge_integer, judge_name,
};
use sy_rules::{Role, SeenLambda};
use sy_tree::{Expr, Lambda};
use sy_typed::TypedLambda;

impl<
    E: Fn(&mut Walk, usize, &Expr) -> Result<Part, AllocError>,
    L: Fn(&mut Walk, usize, Role, &Lambda) -> Result<(SeenLambda, TypedLambda), AllocError>,
> Below<E, L> {
    /// An expression, over the walks of the expressions and lambdas in it.
    pub fn form(&self, w: &mut Walk, e: &Expr) -> Result<Part, AllocError>
        requires { LooksBelow self.now.depth (E.pre self.now.expr) (E.post self.now.expr) (L.pre self.now.lambda) (L.post self.now.lambda) }
        ensures { Looked (expr e.now) w.old result w.new }
    {
        match e {
            Expr::Integer(x) => Ok(judge_integer(w, x)),
            Expr::Character(x) => Ok(judge_character(w, x)),
            Expr::Boolean(s, b) => Ok(judge_boolean(w, *s, *b)),
            Expr::Name(x) => judge_name(w, x),
            Expr::Call(f, xs, end) => self.call(w, f.get(), xs.as_slice(), *end),
            Expr::Parenthesized(s, a, end) => self.parenthesized(w, *s, a.get(), *end),
            Expr::StaticCast(s, t, a, end) => self.static_cast(w, *s, *t, a.get(), *end),
            Expr::FunctionalCast(t, a, end) => self.functional_cast(w, *t, a.get(), *end),
            Expr::Construct(t, b, s, xs, end) => {
                self.construct(w, t.get(), *b, *s, xs.get().as_slice(), *end)
            }
            Expr::GroupBarrier(q, a, end) => self.group_barrier(w, *q, a.get(), *end),
            Expr::AccessTag(q, t) => Ok(judge_access_tag(w, *q, *t)),
            Expr::InOrder(q, b, end) => Ok(judge_in_order(w, *q, *b, *end)),
            Expr::ErrorCode(q, x) => Ok(judge_error_code(w, *q, x.get())),
            Expr::InitializeToIdentity(q, b, end) => {
                Ok(judge_initialize_to_identity(w, *q, *b, *end))
            }
            Expr::FunctionObject(q, f, t, b, end) => {
                Ok(judge_function_object(w, *q, *f, *t, *b, *end))
            }
            Expr::LibraryCall(q, f, xs, end) => self.library_call(w, *q, *f, xs.as_slice(), *end),
            Expr::Subscript(a, s, i, end) => self.subscript(w, a.get(), *s, i.get(), *end),
            Expr::MemberCall(a, x, t, xs, end) => {
                self.member_call(w, a.get(), x.get(), t, xs.get().as_slice(), *end)
            }
            Expr::Postfix(a, s, step) => self.postfix(w, a.get(), *s, *step),
            Expr::Prefix(s, step, a) => self.prefix(w, *s, *step, a.get()),
            Expr::Unary(s, op, a) => self.unary(w, *s, *op, a.get()),
            Expr::Cast(s, t, a) => self.cast(w, *s, *t, a.get()),
            Expr::Binary(a, s, op, b) => self.binary(w, a.get(), *s, *op, b.get()),
            Expr::Conditional(a, s, b, c) => { self.conditional(w, a.get(), *s, b.get(), c.get()) }
        }
    }
}
