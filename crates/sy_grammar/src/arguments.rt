//! Arguments of calls, and expressions in parentheses.

ghost use Rattle.std.specs.Prelude.{[], length};
ghost use Rattle.sy_cursor.specs.Reads.{Reads};
ghost use Rattle.sy_grammar.specs.Nests.{Nests};
ghost use Rattle.sy_reading.specs.Exprs as exprs;
ghost use Rattle.sy_reading.specs.Input as input;
ghost use Rattle.sy_reading.specs.Parts as parts;
ghost use Rattle.sy_reading.specs.Reading.{read_expr, read_stmt};

use crate::grammar::Grammar;
use sqlite_items::Items;
use sy_cursor::{Stop, Tokens, WithHeight, beside, closing_text};
use sy_lex::Row;
use sy_note::Spot;
use sy_tree::{Argument, Brackets, Expr, Stmt};

impl<
    E: Fn(&mut Tokens<'_>, usize, u8) -> Result<WithHeight<Expr>, Stop>,
    S: Fn(&mut Tokens<'_>, usize) -> Result<WithHeight<Stmt>, Stop>,
> Grammar<E, S> {
    fn expr_list(&self, tokens: &mut Tokens<'_>) -> Result<WithHeight<Items<Expr>>, Stop>
        requires { Nests self.now.depth (E.pre self.now.expr) (E.post self.now.expr) (S.pre self.now.stmt) (S.post self.now.stmt) }
        ensures { Reads (input.comma_list_from (read_expr self.now.depth 1) (length tokens.old.rest.now) [] 0 tokens.old.rest.now) result tokens.new.rest.now }
    {
        let mut items = Items::new(tokens.alloc);
        let mut height = 0;
        for _turn in 0..tokens.count_left() {
            let (item, tall) = self.sub_expr(tokens, 1)?;
            items.push(item)?;
            height = height.max(tall);
            if !tokens.eat(Row::Mark, b",") {
                return Ok((items, height));
            }
        }
        Err(Stop::Grammar)
    }

    /// Expressions separated by commas or none, up to the mark that closes them, which isn't taken.
    #[tactic(auto, unfolding(sy_reading::specs::Input::maybe_comma_list))]
    pub fn maybe_exprs(
        &self,
        tokens: &mut Tokens<'_>,
        close: &[u8],
    ) -> Result<WithHeight<Items<Expr>>, Stop>
        requires { Nests self.now.depth (E.pre self.now.expr) (E.post self.now.expr) (S.pre self.now.stmt) (S.post self.now.stmt) }
        ensures { Reads (input.maybe_comma_list (read_expr self.now.depth 1) close.now tokens.old.rest.now) result tokens.new.rest.now }
    {
        if tokens.sees(Row::Mark, close) {
            return Ok((Items::new(tokens.alloc), 0));
        }
        self.expr_list(tokens)
    }

    #[tactic(auto, unfolding(sy_reading::specs::Exprs::braced_list))]
    fn braced_list(&self, tokens: &mut Tokens<'_>) -> Result<WithHeight<Argument>, Stop>
        requires { Nests self.now.depth (E.pre self.now.expr) (E.post self.now.expr) (S.pre self.now.stmt) (S.post self.now.stmt) }
        ensures { Reads (exprs.braced_list (read_expr self.now.depth) (read_stmt self.now.depth) tokens.old.rest.now) result tokens.new.rest.now }
    {
        let spot = tokens.expect(Row::Mark, b"{")?;
        let list = self.expr_list(tokens)?;
        let ((items, height), close) = beside(list, tokens.expect(Row::Mark, b"}"))?;
        Ok((Argument::Braced(spot, items, close), height))
    }

    #[tactic(auto, unfolding(sy_reading::specs::Exprs::one_argument))]
    fn one_argument(&self, tokens: &mut Tokens<'_>) -> Result<WithHeight<Argument>, Stop>
        requires { Nests self.now.depth (E.pre self.now.expr) (E.post self.now.expr) (S.pre self.now.stmt) (S.post self.now.stmt) }
        ensures { Reads (exprs.one_argument (read_expr self.now.depth) (read_stmt self.now.depth) tokens.old.rest.now) result tokens.new.rest.now }
    {
        if tokens.sees(Row::Mark, b"{") {
            self.braced_list(tokens)
        } else if tokens.sees(Row::Mark, b"[") {
            let (lambda, height) = self.one_lambda(tokens)?;
            Ok((Argument::Lambda(lambda), height))
        } else {
            let (value, height) = self.sub_expr(tokens, 1)?;
            Ok((Argument::Value(value), height))
        }
    }

    /// One argument or more, separated by commas.
    pub fn argument_list(
        &self,
        tokens: &mut Tokens<'_>,
    ) -> Result<WithHeight<Items<Argument>>, Stop>
        requires { Nests self.now.depth (E.pre self.now.expr) (E.post self.now.expr) (S.pre self.now.stmt) (S.post self.now.stmt) }
        ensures { Reads (input.comma_list_from (exprs.one_argument (read_expr self.now.depth) (read_stmt self.now.depth)) (length tokens.old.rest.now) [] 0 tokens.old.rest.now) result tokens.new.rest.now }
    {
        let mut items = Items::new(tokens.alloc);
        let mut height = 0;
        for _turn in 0..tokens.count_left() {
            let (item, tall) = self.one_argument(tokens)?;
            items.push(item)?;
            height = height.max(tall);
            if !tokens.eat(Row::Mark, b",") {
                return Ok((items, height));
            }
        }
        Err(Stop::Grammar)
    }

    /// Arguments or none, up to the mark that closes them, which isn't taken.
    #[tactic(auto, unfolding(sy_reading::specs::Exprs::arguments, sy_reading::specs::Input::maybe_comma_list))]
    pub fn arguments(
        &self,
        tokens: &mut Tokens<'_>,
        close: &[u8],
    ) -> Result<WithHeight<Items<Argument>>, Stop>
        requires { Nests self.now.depth (E.pre self.now.expr) (E.post self.now.expr) (S.pre self.now.stmt) (S.post self.now.stmt) }
        ensures { Reads (exprs.arguments (read_expr self.now.depth) (read_stmt self.now.depth) close.now tokens.old.rest.now) result tokens.new.rest.now }
    {
        if tokens.sees(Row::Mark, close) {
            return Ok((Items::new(tokens.alloc), 0));
        }
        self.argument_list(tokens)
    }

    /// Arguments or none, in brackets of that kind that are open.
    pub fn arguments_within(
        &self,
        tokens: &mut Tokens<'_>,
        brackets: Brackets,
    ) -> Result<WithHeight<Items<Argument>>, Stop>
        requires { Nests self.now.depth (E.pre self.now.expr) (E.post self.now.expr) (S.pre self.now.stmt) (S.post self.now.stmt) }
        ensures { Reads (exprs.arguments (read_expr self.now.depth) (read_stmt self.now.depth) (parts.closing_text brackets) tokens.old.rest.now) result tokens.new.rest.now }
    {
        self.arguments(tokens, closing_text(brackets))
    }

    /// An expression in parentheses, with the place of the one that closes.
    #[tactic(auto, unfolding(sy_reading::specs::Exprs::parenthesis))]
    pub fn parenthesis(&self, tokens: &mut Tokens<'_>) -> Result<(WithHeight<Expr>, Spot), Stop>
        requires { Nests self.now.depth (E.pre self.now.expr) (E.post self.now.expr) (S.pre self.now.stmt) (S.post self.now.stmt) }
        ensures { Reads (exprs.parenthesis (read_expr self.now.depth) (read_stmt self.now.depth) tokens.old.rest.now) result tokens.new.rest.now }
    {
        tokens.expect(Row::Mark, b"(")?;
        let inner = self.sub_expr(tokens, 1)?;
        beside(inner, tokens.expect(Row::Mark, b")"))
    }
}
