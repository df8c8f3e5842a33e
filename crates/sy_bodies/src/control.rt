//! Branches, and blocks whose exceptions are caught. (C++17, [stmt.if], [except])

ghost use Rattle.std.specs.Prelude.{◌≡◌, true, Some, OnOk, IfOk};
ghost use Rattle.sy_bodies.specs.Inside.{LooksInside};
ghost use Rattle.sy_bodies.specs.Trees.{maybe_stmt};
ghost use Rattle.sy_looks.specs.Looked.{Looked};
ghost use Rattle.sy_rules.specs.ExprTypes.{variable};
ghost use Rattle.sy_rules.specs.Names.{scoped, declared_variable};
ghost use Rattle.sy_rules.specs.Walk.{expr, stmt, block, placed_at, branching, trying, handler};
ghost use Rattle.sy_typed.specs.declared.things.Thing.TheVariants as thing;

use crate::inner::Inner;
use crate::judged::judge_if;
use crate::places::begin_statement;
use sqlite_items::Boxed;
use std::alloc::AllocError;
use sy_constructs::{Foreign, variable};
use sy_looks::{Part, Walk, beside};
use sy_names::{Declared, Names};
use sy_note::Spot;
use sy_rules::{Constant, Role, SeenLambda, Standing};
use sy_tree::{Block, Expr, Lambda, Lexeme, Stmt};
use sy_typed::{Thing, TypedBlock, TypedLambda, TypedStmt, Variable};

/// Declares the exception that a handler catches by a constant reference.
fn declare_exception(names: &mut Names, x: &Lexeme) -> Result<Variable, AllocError>
    ensures names { OnOk result (names.new ≡ declared_variable x.now (Some thing.Exception) true names.old) }
    ensures value { IfOk result (λ v. v ≡ variable names.old.next (Some thing.Exception) x.now.spot) }
{
    let told = Declared {
        what: Some(Thing::Exception),
        fixed: true,
        constant: Constant::Varying,
        names_element: false,
    };
    let number = names.add(x, told)?;
    Ok(variable(number, Some(Thing::Exception), x.spot))
}

impl<
    E: Fn(&mut Walk, usize, &Expr) -> Result<Part, AllocError>,
    L: Fn(&mut Walk, usize, Role, &Lambda) -> Result<(SeenLambda, TypedLambda), AllocError>,
    S: Fn(&mut Walk, usize, Standing, &Stmt) -> Result<TypedStmt, AllocError>,
    B: Fn(&mut Walk, usize, &Block) -> Result<TypedBlock, AllocError>,
> Inner<E, L, S, B> {
    pub fn if_statement(
        &self,
        w: &mut Walk,
        own: Standing,
        s: Spot,
        c: &Expr,
        a: &Boxed<Stmt>,
        b: &Option<Boxed<Stmt>>,
    ) -> Result<TypedStmt, AllocError>
        requires { LooksInside self.now.below.depth (E.pre self.now.below.expr) (E.post self.now.below.expr) (L.pre self.now.below.lambda) (L.post self.now.below.lambda) (S.pre self.now.stmt) (S.post self.now.stmt) (B.pre self.now.block) (B.post self.now.block) }
        ensures { Looked (λ n. placed_at own s n (branching s (expr c.now) (stmt a.now) (maybe_stmt b.now) n)) w.old result w.new }
    {
        let outside = begin_statement(w, own, s);
        let test = self.part(w, c)?;
        let (test, yes) = beside(test, self.body(w, a))?;
        let ((test, yes), no) = beside((test, yes), self.else_branch(w, b))?;
        let tree = judge_if(w, s, test, yes, no);
        w.place = outside;
        Ok(tree)
    }

    /// A handler, whose exception x belongs to the scope of its block.
    fn handler(
        &self,
        w: &mut Walk,
        x: &Lexeme,
        b: &Block,
    ) -> Result<(Variable, TypedBlock), AllocError>
        requires { LooksInside self.now.below.depth (E.pre self.now.below.expr) (E.post self.now.below.expr) (L.pre self.now.below.lambda) (L.post self.now.below.lambda) (S.pre self.now.stmt) (S.post self.now.stmt) (B.pre self.now.block) (B.post self.now.block) }
        ensures { Looked (scoped (handler x.now (block b.now))) w.old result w.new }
    {
        w.names.enter()?;
        let caught = declare_exception(&mut w.names, x)?;
        let tree = self.sub_block(w, b)?;
        w.names.leave();
        Ok((caught, tree))
    }

    /// A `try`, which kernels and groups may not have.
    pub fn try_statement(
        &self,
        w: &mut Walk,
        own: Standing,
        s: Spot,
        a: &Block,
        x: &Lexeme,
        b: &Block,
    ) -> Result<TypedStmt, AllocError>
        requires { LooksInside self.now.below.depth (E.pre self.now.below.expr) (E.post self.now.below.expr) (L.pre self.now.below.lambda) (L.post self.now.below.lambda) (S.pre self.now.stmt) (S.post self.now.stmt) (B.pre self.now.block) (B.post self.now.block) }
        ensures { Looked (λ n. placed_at own s n (trying s (block a.now) x.now (block b.now) n)) w.old result w.new }
    {
        let outside = begin_statement(w, own, s);
        let everywhere = Foreign {
            to_kernels: true,
            to_groups: true,
        };
        w.found.add_foreign(w.place, everywhere);
        let tried = self.scoped_block(w, a)?;
        let (tried, whole) = beside(tried, self.handler(w, x, b))?;
        let (caught, handled) = whole;
        w.place = outside;
        Ok(TypedStmt::Try(s, tried, caught, handled))
    }
}
