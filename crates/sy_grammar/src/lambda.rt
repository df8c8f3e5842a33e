//! Blocks and lambdas.

ghost use Rattle.std.specs.Prelude.{[], length};
ghost use Rattle.sy_cursor.specs.Reads.{Reads};
ghost use Rattle.sy_grammar.specs.Nests.{Nests};
ghost use Rattle.sy_reading.specs.Exprs as exprs;
ghost use Rattle.sy_reading.specs.Reading.{read_expr, read_stmt};

use crate::grammar::Grammar;
use sqlite_items::Items;
use sy_cursor::{Stop, Tokens, WithHeight, beside, captures, check_height, maybe_parameters};
use sy_lex::Row;
use sy_tree::{Block, Expr, Lambda, Stmt};

impl<
    E: Fn(&mut Tokens<'_>, usize, u8) -> Result<WithHeight<Expr>, Stop>,
    S: Fn(&mut Tokens<'_>, usize) -> Result<WithHeight<Stmt>, Stop>,
> Grammar<E, S> {
    fn statements(&self, tokens: &mut Tokens<'_>) -> Result<WithHeight<Items<Stmt>>, Stop>
        requires { Nests self.now.depth (E.pre self.now.expr) (E.post self.now.expr) (S.pre self.now.stmt) (S.post self.now.stmt) }
        ensures { Reads (exprs.statements (read_expr self.now.depth) (read_stmt self.now.depth) (length tokens.old.rest.now) [] 0 tokens.old.rest.now) result tokens.new.rest.now }
    {
        let mut items = Items::new(tokens.alloc);
        let mut height = 0;
        for _turn in 0..tokens.count_left() {
            if tokens.sees(Row::Mark, b"}") {
                return Ok((items, height));
            }
            let (item, tall) = self.sub_stmt(tokens)?;
            items.push(item)?;
            height = height.max(tall);
        }
        Err(Stop::Grammar)
    }

    /// Statements in braces.
    #[tactic(auto, unfolding(sy_reading::specs::Exprs::one_block))]
    pub fn one_block(&self, tokens: &mut Tokens<'_>) -> Result<WithHeight<Block>, Stop>
        requires { Nests self.now.depth (E.pre self.now.expr) (E.post self.now.expr) (S.pre self.now.stmt) (S.post self.now.stmt) }
        ensures { Reads (exprs.one_block (read_expr self.now.depth) (read_stmt self.now.depth) tokens.old.rest.now) result tokens.new.rest.now }
    {
        let spot = tokens.expect(Row::Mark, b"{")?;
        let list = self.statements(tokens)?;
        let ((statements, height), close) = beside(list, tokens.expect(Row::Mark, b"}"))?;
        let block = Block {
            spot,
            statements,
            close,
        };
        check_height(tokens, block, height)
    }

    /// Captures in brackets, parameters or none, and a block.
    #[tactic(auto, unfolding(sy_reading::specs::Exprs::one_lambda))]
    pub fn one_lambda(&self, tokens: &mut Tokens<'_>) -> Result<WithHeight<Lambda>, Stop>
        requires { Nests self.now.depth (E.pre self.now.expr) (E.post self.now.expr) (S.pre self.now.stmt) (S.post self.now.stmt) }
        ensures { Reads (exprs.one_lambda (read_expr self.now.depth) (read_stmt self.now.depth) tokens.old.rest.now) result tokens.new.rest.now }
    {
        let spot = tokens.expect(Row::Mark, b"[")?;
        let captures = captures(tokens)?;
        let (captures, _close) = beside(captures, tokens.expect(Row::Mark, b"]"))?;
        let (captures, parameters) = beside(captures, maybe_parameters(tokens))?;
        let ((captures, parameters), body) = beside(
            (captures, parameters),
            self.one_block(tokens),
        )?;
        let (captures, _none) = captures;
        let (body, height) = body;
        let lambda = Lambda {
            spot,
            captures,
            parameters,
            body,
        };
        check_height(tokens, lambda, height)
    }
}
