//! The rules of `for`.

ghost use Rattle.std.specs.Prelude.{◌≡◌};
ghost use Rattle.sy_reading.specs.Reading.{read_expr, read_stmt};
ghost use Rattle.sy_cursor.specs.Reads.{Reads};
ghost use Rattle.sy_grammar.specs.Nests.{Nests};
ghost use Rattle.sy_reading.specs.Stmts as stmts;

use crate::statements::Statements;
use sqlite_items::Boxed;
use sy_control::{Control, range_header};
use sy_cursor::{Stop, Tokens, WithHeight, beside};
use sy_grammar::stmt_node;
use sy_lex::{Row, Token};
use sy_note::Spot;
use sy_stmts::PlainStatements;
use sy_tree::{Expr, Stmt};

impl<
    E: Fn(&mut Tokens<'_>, usize, u8) -> Result<WithHeight<Expr>, Stop> + Copy,
    S: Fn(&mut Tokens<'_>, usize) -> Result<WithHeight<Stmt>, Stop> + Copy,
> Statements<E, S> {
    /// What a `for` begins with, in a box.
    pub fn init(&self, tokens: &mut Tokens<'_>) -> Result<WithHeight<Boxed<Stmt>>, Stop>
        requires { Nests self.now.below.depth (E.pre self.now.below.expr) (E.post self.now.below.expr) (S.pre self.now.below.stmt) (S.post self.now.below.stmt) }
        ensures { Reads (stmts.simple (read_expr self.now.below.depth) (read_stmt self.now.below.depth) tokens.old.rest.now) result tokens.new.rest.now }
    {
        let (tree, height) = self.simple(tokens)?;
        let init = Boxed::new(tokens.alloc, tree)?;
        Ok((init, height))
    }

    #[tactic(auto, unfolding(sy_reading::specs::Stmts::plain_for))]
    pub fn plain_for(&self, tokens: &mut Tokens<'_>, spot: Spot) -> Result<WithHeight<Stmt>, Stop>
        requires { Nests self.now.below.depth (E.pre self.now.below.expr) (E.post self.now.below.expr) (S.pre self.now.below.stmt) (S.post self.now.below.stmt) }
        ensures { Reads (stmts.plain_for (read_expr self.now.below.depth) (read_stmt self.now.below.depth) spot tokens.old.rest.now) result tokens.new.rest.now }
    {
        let init = self.init(tokens)?;
        let (init, test) = beside(
            init,
            PlainStatements { below: self.below }.maybe_expr(tokens),
        )?;
        let ((init, test), _semicolon) = beside((init, test), tokens.expect(Row::Mark, b";"))?;
        let ((init, test), step) = beside(
            (init, test),
            PlainStatements { below: self.below }.maybe_full(tokens),
        )?;
        let ((init, test, step), _close) = beside(
            (init, test, step),
            tokens.expect(Row::Mark, b")"),
        )?;
        let ((init, test, step), body) = beside(
            (init, test, step),
            Control { below: self.below }.body(tokens),
        )?;
        let (init, init_height) = init;
        let (test, test_height) = test;
        let (step, step_height) = step;
        let (body, body_height) = body;
        let tree = Stmt::For(spot, init, test, step, body);
        let height = init_height
            .max(test_height)
            .max(step_height.max(body_height));
        stmt_node(tokens, tree, height)
    }

    /// The same where the header of a range-for was tried first. If neither fits, the cursor stands where the one that
    /// came further was stopped.
    pub fn plain_for_instead<'a>(
        &self,
        tokens: &mut Tokens<'a>,
        spot: Spot,
        reached: &'a [Token],
    ) -> Result<WithHeight<Stmt>, Stop>
        requires { Nests self.now.below.depth (E.pre self.now.below.expr) (E.post self.now.below.expr) (S.pre self.now.below.stmt) (S.post self.now.below.stmt) }
        ensures { Reads (stmts.plain_for (read_expr self.now.below.depth) (read_stmt self.now.below.depth) spot tokens.old.rest.now) result tokens.new.rest.now }
    {
        match self.plain_for(tokens, spot) {
            Ok(found) => Ok(found),
            Err(stop) => {
                if reached.len() < tokens.count_left() {
                    tokens.rest = reached;
                }
                Err(stop)
            }
        }
    }

    #[tactic(auto, unfolding(sy_reading::specs::Stmts::maybe_range_header, sy_reading::specs::Stmts::for_loop))]
    pub fn for_loop(&self, tokens: &mut Tokens<'_>) -> Result<WithHeight<Stmt>, Stop>
        requires { Nests self.now.below.depth (E.pre self.now.below.expr) (E.post self.now.below.expr) (S.pre self.now.below.stmt) (S.post self.now.below.stmt) }
        ensures { Reads (stmts.for_loop (read_expr self.now.below.depth) (read_stmt self.now.below.depth) tokens.old.rest.now) result tokens.new.rest.now }
    {
        let spot = tokens.expect(Row::Reserved, b"for")?;
        tokens.expect(Row::Mark, b"(")?;
        let mut ahead = Tokens::new(tokens.alloc, tokens.rest);
        match range_header(&mut ahead) {
            Ok(header) => {
                tokens.rest = ahead.rest;
                Control { below: self.below }.range_for(tokens, spot, header)
            }
            Err(Stop::Grammar) => self.plain_for_instead(tokens, spot, ahead.rest),
            Err(Stop::Memory) => Err(Stop::Memory),
        }
    }
}
