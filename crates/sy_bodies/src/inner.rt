//! The walks over what stands in a statement, with the scopes and settings that it opens.

ghost use Rattle.std.specs.Prelude.{false, map};
ghost use Rattle.sy_bodies.specs.Inside.{LooksInside};
ghost use Rattle.sy_bodies.specs.Trees.{maybe_expr, maybe_full, maybe_stmt};
ghost use Rattle.sy_declare.specs.Trees.{declaration, full, printed};
ghost use Rattle.sy_looks.specs.Looked.{Looked};
ghost use Rattle.sy_rules.specs.declared.statements.Standing.TheVariants as standing;
ghost use Rattle.sy_rules.specs.Names.{scoped};
ghost use Rattle.sy_rules.specs.Outcome.{in_turn};
ghost use Rattle.sy_rules.specs.Walk.{expr, stmt, block, part, body, looped, maybe, block_as};

use crate::places::in_a_loop;
use sqlite_items::{Boxed, Items};
use std::alloc::AllocError;
use sy_declare::{declaration, full, printed};
use sy_looks::{Part, Walk};
use sy_note::Spot;
use sy_rules::{Role, SeenLambda, Standing, Taken};
use sy_tree::{Block, Declaration, Expr, FullExpression, Lambda, Printed, Stmt};
use sy_typed::{TypedBlock, TypedDeclaration, TypedFull, TypedLambda, TypedPrinted, TypedStmt};
use sy_walk::Below;

/// A statement, over the walks of the expressions, lambdas, statements and blocks in it.
#[derive(Clone, Copy)]
pub struct Inner<E, L, S, B> {
    pub below: Below<E, L>,
    pub stmt: S,
    pub block: B,
}

impl<
    E: Fn(&mut Walk, usize, &Expr) -> Result<Part, AllocError>,
    L: Fn(&mut Walk, usize, Role, &Lambda) -> Result<(SeenLambda, TypedLambda), AllocError>,
    S: Fn(&mut Walk, usize, Standing, &Stmt) -> Result<TypedStmt, AllocError>,
    B: Fn(&mut Walk, usize, &Block) -> Result<TypedBlock, AllocError>,
> Inner<E, L, S, B> {
    /// An expression whose place takes nothing beyond values.
    pub fn part(&self, w: &mut Walk, a: &Expr) -> Result<Part, AllocError>
        requires { LooksInside self.now.below.depth (E.pre self.now.below.expr) (E.post self.now.below.expr) (L.pre self.now.below.lambda) (L.post self.now.below.lambda) (S.pre self.now.stmt) (S.post self.now.stmt) (B.pre self.now.block) (B.post self.now.block) }
        ensures { Looked (part (expr a.now)) w.old result w.new }
    {
        self.below.part(w, Taken::Nothing, a)
    }

    /// A declaration, with the place of its first token.
    pub fn sub_declaration(
        &self,
        w: &mut Walk,
        d: &Declaration,
    ) -> Result<(Spot, TypedDeclaration), AllocError>
        requires { LooksInside self.now.below.depth (E.pre self.now.below.expr) (E.post self.now.below.expr) (L.pre self.now.below.lambda) (L.post self.now.below.lambda) (S.pre self.now.stmt) (S.post self.now.stmt) (B.pre self.now.block) (B.post self.now.block) }
        ensures { Looked (declaration d.now) w.old result w.new }
    {
        declaration(&self.below, w, d)
    }

    /// A full expression, with the place of its first token. The flag says whether it stands as a statement.
    pub fn sub_full(
        &self,
        w: &mut Walk,
        stands: bool,
        f: &FullExpression,
    ) -> Result<(Spot, TypedFull), AllocError>
        requires { LooksInside self.now.below.depth (E.pre self.now.below.expr) (E.post self.now.below.expr) (L.pre self.now.below.lambda) (L.post self.now.below.lambda) (S.pre self.now.stmt) (S.post self.now.stmt) (B.pre self.now.block) (B.post self.now.block) }
        ensures { Looked (full f.now stands) w.old result w.new }
    {
        full(&self.below, w, stands, f)
    }

    fn sub_printed(&self, w: &mut Walk, x: &Printed) -> Result<TypedPrinted, AllocError>
        requires { LooksInside self.now.below.depth (E.pre self.now.below.expr) (E.post self.now.below.expr) (L.pre self.now.below.lambda) (L.post self.now.below.lambda) (S.pre self.now.stmt) (S.post self.now.stmt) (B.pre self.now.block) (B.post self.now.block) }
        ensures { Looked (printed x.now) w.old result w.new }
    {
        printed(&self.below, w, x)
    }

    fn sub_stmt(&self, w: &mut Walk, own: Standing, s: &Stmt) -> Result<TypedStmt, AllocError>
        requires { LooksInside self.now.below.depth (E.pre self.now.below.expr) (E.post self.now.below.expr) (L.pre self.now.below.lambda) (L.post self.now.below.lambda) (S.pre self.now.stmt) (S.post self.now.stmt) (B.pre self.now.block) (B.post self.now.block) }
        ensures { Looked (stmt s.now own) w.old result w.new }
    {
        (self.stmt)(w, self.below.depth, own, s)
    }

    pub fn sub_block(&self, w: &mut Walk, b: &Block) -> Result<TypedBlock, AllocError>
        requires { LooksInside self.now.below.depth (E.pre self.now.below.expr) (E.post self.now.below.expr) (L.pre self.now.below.lambda) (L.post self.now.below.lambda) (S.pre self.now.stmt) (S.post self.now.stmt) (B.pre self.now.block) (B.post self.now.block) }
        ensures { Looked (block b.now) w.old result w.new }
    {
        (self.block)(w, self.below.depth, b)
    }

    // ---- parts that may be left out

    pub fn maybe_part(&self, w: &mut Walk, a: &Option<Expr>) -> Result<Option<Part>, AllocError>
        requires { LooksInside self.now.below.depth (E.pre self.now.below.expr) (E.post self.now.below.expr) (L.pre self.now.below.lambda) (L.post self.now.below.lambda) (S.pre self.now.stmt) (S.post self.now.stmt) (B.pre self.now.block) (B.post self.now.block) }
        ensures { Looked (maybe part (maybe_expr a.now)) w.old result w.new }
    {
        match a {
            None => Ok(None),
            Some(a) => {
                let found = self.part(w, a)?;
                Ok(Some(found))
            }
        }
    }

    /// The step of a `for`.
    pub fn maybe_full(
        &self,
        w: &mut Walk,
        f: &Option<FullExpression>,
    ) -> Result<Option<(Spot, TypedFull)>, AllocError>
        requires { LooksInside self.now.below.depth (E.pre self.now.below.expr) (E.post self.now.below.expr) (L.pre self.now.below.lambda) (L.post self.now.below.lambda) (S.pre self.now.stmt) (S.post self.now.stmt) (B.pre self.now.block) (B.post self.now.block) }
        ensures { Looked (maybe (λ g. g false) (maybe_full f.now)) w.old result w.new }
    {
        match f {
            None => Ok(None),
            Some(f) => {
                let found = self.sub_full(w, false, f)?;
                Ok(Some(found))
            }
        }
    }

    /// The branch behind an `else`.
    pub fn else_branch(
        &self,
        w: &mut Walk,
        s: &Option<Boxed<Stmt>>,
    ) -> Result<Option<Boxed<TypedStmt>>, AllocError>
        requires { LooksInside self.now.below.depth (E.pre self.now.below.expr) (E.post self.now.below.expr) (L.pre self.now.below.lambda) (L.post self.now.below.lambda) (S.pre self.now.stmt) (S.post self.now.stmt) (B.pre self.now.block) (B.post self.now.block) }
        ensures { Looked (maybe body (maybe_stmt s.now)) w.old result w.new }
    {
        match s {
            None => Ok(None),
            Some(s) => {
                let found = self.body(w, s)?;
                Ok(Some(found))
            }
        }
    }

    // ---- statements in a statement, in boxes

    pub fn boxed_stmt(
        &self,
        w: &mut Walk,
        own: Standing,
        s: &Boxed<Stmt>,
    ) -> Result<Boxed<TypedStmt>, AllocError>
        requires { LooksInside self.now.below.depth (E.pre self.now.below.expr) (E.post self.now.below.expr) (L.pre self.now.below.lambda) (L.post self.now.below.lambda) (S.pre self.now.stmt) (S.post self.now.stmt) (B.pre self.now.block) (B.post self.now.block) }
        ensures { Looked (stmt s.now own) w.old result w.new }
    {
        let tree = self.sub_stmt(w, own, s.get())?;
        let boxed = Boxed::new(w.alloc, tree)?;
        Ok(boxed)
    }

    /// A body, which is a scope, be it a block or not. (C++17, [stmt.select], [stmt.iter])
    pub fn body(&self, w: &mut Walk, s: &Boxed<Stmt>) -> Result<Boxed<TypedStmt>, AllocError>
        requires { LooksInside self.now.below.depth (E.pre self.now.below.expr) (E.post self.now.below.expr) (L.pre self.now.below.lambda) (L.post self.now.below.lambda) (S.pre self.now.stmt) (S.post self.now.stmt) (B.pre self.now.block) (B.post self.now.block) }
        ensures { Looked (body (stmt s.now)) w.old result w.new }
    {
        w.names.enter()?;
        let tree = self.boxed_stmt(w, Standing::AsBody, s)?;
        w.names.leave();
        Ok(tree)
    }

    /// The body of a loop that is a scope of its own.
    pub fn looped_body(&self, w: &mut Walk, s: &Boxed<Stmt>) -> Result<Boxed<TypedStmt>, AllocError>
        requires { LooksInside self.now.below.depth (E.pre self.now.below.expr) (E.post self.now.below.expr) (L.pre self.now.below.lambda) (L.post self.now.below.lambda) (S.pre self.now.stmt) (S.post self.now.stmt) (B.pre self.now.block) (B.post self.now.block) }
        ensures { Looked (looped (body (stmt s.now))) w.old result w.new }
    {
        let setting = w.names.setting();
        w.names.set(in_a_loop(setting));
        let tree = self.body(w, s)?;
        w.names.set(setting);
        Ok(tree)
    }

    /// The body of a loop whose head has the scope.
    pub fn looped(&self, w: &mut Walk, s: &Boxed<Stmt>) -> Result<Boxed<TypedStmt>, AllocError>
        requires { LooksInside self.now.below.depth (E.pre self.now.below.expr) (E.post self.now.below.expr) (L.pre self.now.below.lambda) (L.post self.now.below.lambda) (S.pre self.now.stmt) (S.post self.now.stmt) (B.pre self.now.block) (B.post self.now.block) }
        ensures { Looked (looped (stmt s.now standing.AsBody)) w.old result w.new }
    {
        let setting = w.names.setting();
        w.names.set(in_a_loop(setting));
        let tree = self.boxed_stmt(w, Standing::AsBody, s)?;
        w.names.set(setting);
        Ok(tree)
    }

    // ---- blocks and lists

    pub fn scoped_block(&self, w: &mut Walk, b: &Block) -> Result<TypedBlock, AllocError>
        requires { LooksInside self.now.below.depth (E.pre self.now.below.expr) (E.post self.now.below.expr) (L.pre self.now.below.lambda) (L.post self.now.below.lambda) (S.pre self.now.stmt) (S.post self.now.stmt) (B.pre self.now.block) (B.post self.now.block) }
        ensures { Looked (scoped (block b.now)) w.old result w.new }
    {
        w.names.enter()?;
        let tree = self.sub_block(w, b)?;
        w.names.leave();
        Ok(tree)
    }

    /// A block, which opens a scope unless it is the body of a statement that has opened one.
    pub fn block_as(&self, w: &mut Walk, own: Standing, b: &Block) -> Result<TypedBlock, AllocError>
        requires { LooksInside self.now.below.depth (E.pre self.now.below.expr) (E.post self.now.below.expr) (L.pre self.now.below.lambda) (L.post self.now.below.lambda) (S.pre self.now.stmt) (S.post self.now.stmt) (B.pre self.now.block) (B.post self.now.block) }
        ensures { Looked (block_as own (block b.now)) w.old result w.new }
    {
        match own {
            Standing::AsBody => self.sub_block(w, b),
            Standing::InList => self.scoped_block(w, b),
            Standing::InHead => self.scoped_block(w, b),
        }
    }

    /// What is printed, from left to right.
    pub fn printed_items(
        &self,
        w: &mut Walk,
        xs: &[Printed],
    ) -> Result<Items<TypedPrinted>, AllocError>
        requires { LooksInside self.now.below.depth (E.pre self.now.below.expr) (E.post self.now.below.expr) (L.pre self.now.below.lambda) (L.post self.now.below.lambda) (S.pre self.now.stmt) (S.post self.now.stmt) (B.pre self.now.block) (B.post self.now.block) }
        ensures { Looked (in_turn (map printed xs.now)) w.old result w.new }
    {
        let mut all = Items::new(w.alloc);
        for x in xs {
            let item = self.sub_printed(w, x)?;
            all.push(item)?;
        }
        Ok(all)
    }
}
