//! Calls, and objects without a name. (C++17, [expr.call]; SYCL 2020, "SYCL programming interface")

ghost use Rattle.std.specs.Prelude.{[], map};
ghost use Rattle.sy_looks.specs.Looked.{Looked};
ghost use Rattle.sy_rules.specs.Walk.{arguments, call, construct, expr, library_call, member_call, role_in, taken_by_member};
ghost use Rattle.sy_walk.specs.Below.{LooksBelow};
ghost use Rattle.sy_walk.specs.Trees.{argument};

use crate::below::Below;
use sqlite_items::Boxed;
use std::alloc::AllocError;
use sy_constructs::{taken_before_member, taken_by_library, taken_by_member, taken_by_object};
use sy_looks::{
    Arguments, Part, Walk, beside, judge_call, judge_construct, judge_library_call,
    judge_member_call,
};
use sy_members::member_named;
use sy_note::Spot;
use sy_rules::{Role, Seen, SeenLambda};
use sy_tree::{
    Argument, Brackets, Expr, Lambda, Lexeme, LibraryFunction, ObjectType, Qualified,
    TemplateArgument,
};
use sy_typed::{Member, TypedLambda};

impl<
    E: Fn(&mut Walk, usize, &Expr) -> Result<Part, AllocError>,
    L: Fn(&mut Walk, usize, Role, &Lambda) -> Result<(SeenLambda, TypedLambda), AllocError>,
> Below<E, L> {
    /// `f(..)`, a function of the source.
    pub fn call(&self, w: &mut Walk, f: &Lexeme, xs: &[Expr], e: Spot) -> Result<Part, AllocError>
        requires { LooksBelow self.now.depth (E.pre self.now.expr) (E.post self.now.expr) (L.pre self.now.lambda) (L.post self.now.lambda) }
        ensures { Looked (call f.now (map expr xs.now) e) w.old result w.new }
    {
        let xs = self.values(w, xs)?;
        judge_call(w, f, xs, e)
    }

    /// `t{..}` or `t(..)`.
    pub fn construct(
        &self,
        w: &mut Walk,
        t: &ObjectType,
        b: Brackets,
        s: Spot,
        xs: &[Argument],
        e: Spot,
    ) -> Result<Part, AllocError>
        requires { LooksBelow self.now.depth (E.pre self.now.expr) (E.post self.now.expr) (L.pre self.now.lambda) (L.post self.now.lambda) }
        ensures { Looked (construct t.now b s (map argument xs.now) e) w.old result w.new }
    {
        let taken = taken_by_object(t);
        let xs = self.arguments(w, taken, xs)?;
        Ok(judge_construct(w, t, b, s, xs, e))
    }

    /// A call of a function of the library.
    pub fn library_call(
        &self,
        w: &mut Walk,
        q: Qualified,
        f: LibraryFunction,
        xs: &[Argument],
        e: Spot,
    ) -> Result<Part, AllocError>
        requires { LooksBelow self.now.depth (E.pre self.now.expr) (E.post self.now.expr) (L.pre self.now.lambda) (L.post self.now.lambda) }
        ensures { Looked (library_call q f (map argument xs.now) e) w.old result w.new }
    {
        let taken = taken_by_library(f);
        let xs = self.arguments(w, taken, xs)?;
        Ok(judge_library_call(w, q, f, xs, e))
    }

    /// Arguments of a member of this object.
    fn member_arguments(
        &self,
        w: &mut Walk,
        object: Seen,
        member: Option<Member>,
        xs: &[Argument],
    ) -> Result<Arguments, AllocError>
        requires { LooksBelow self.now.depth (E.pre self.now.expr) (E.post self.now.expr) (L.pre self.now.lambda) (L.post self.now.lambda) }
        ensures { Looked (arguments (taken_by_member member) (role_in object member) [] (map argument xs.now)) w.old result w.new }
    {
        let taken = taken_by_member(member);
        let variable = object.variable.unwrap_or(0);
        self.arguments_for(w, taken, object.what, variable, member, xs)
    }

    /// `a.x<t>(..)`.
    pub fn member_call(
        &self,
        w: &mut Walk,
        a: &Expr,
        x: &Lexeme,
        t: &Option<Boxed<TemplateArgument>>,
        xs: &[Argument],
        e: Spot,
    ) -> Result<Part, AllocError>
        requires { LooksBelow self.now.depth (E.pre self.now.expr) (E.post self.now.expr) (L.pre self.now.lambda) (L.post self.now.lambda) }
        ensures { Looked (member_call (expr a.now) x.now t.now (map argument xs.now) e) w.old result w.new }
    {
        let member = member_named(x.text.items());
        let taken = taken_before_member(w.names.setting().taken, member);
        let object = self.part(w, taken, a)?;
        let seen = object.0;
        let (object, xs) = beside(object, self.member_arguments(w, seen, member, xs))?;
        judge_member_call(w, object, x, t, xs, e)
    }
}
