//! The rule of expressions: operands, and the operators between them.

ghost use Rattle.std.specs.Prelude.{◌≡◌};
ghost use Rattle.sy_cursor.specs.Reads.{Reads};
ghost use Rattle.sy_grammar.specs.Nests.{Nests};
ghost use Rattle.sy_reading.specs.Exprs as exprs;
ghost use Rattle.sy_reading.specs.Reading.{read_expr, read_stmt};

use sy_cursor::{Stop, Tokens, WithHeight, step_of, unary_of};
use sy_exprs::Primaries;
use sy_grammar::Grammar;
use sy_operators::{Operators, sees_cast};
use sy_postfix::PostfixExpressions;
use sy_tree::{Expr, Stmt};

/// The rule of expressions, over the parsers of what stands below.
#[derive(Clone, Copy)]
pub struct Expressions<E, S> {
    pub below: Grammar<E, S>,
}

impl<
    E: Fn(&mut Tokens<'_>, usize, u8) -> Result<WithHeight<Expr>, Stop> + Copy,
    S: Fn(&mut Tokens<'_>, usize) -> Result<WithHeight<Stmt>, Stop> + Copy,
> Expressions<E, S> {
    /// A primary expression, with all that goes on with it.
    #[tactic(auto, unfolding(sy_reading::specs::Exprs::whole_postfix))]
    fn whole_postfix(&self, tokens: &mut Tokens<'_>) -> Result<WithHeight<Expr>, Stop>
        requires { Nests self.now.below.depth (E.pre self.now.below.expr) (E.post self.now.below.expr) (S.pre self.now.below.stmt) (S.post self.now.below.stmt) }
        ensures { Reads (exprs.whole_postfix (read_expr self.now.below.depth) (read_stmt self.now.below.depth) tokens.old.rest.now) result tokens.new.rest.now }
    {
        let base = Primaries { below: self.below }.primary(tokens)?;
        PostfixExpressions { below: self.below }.postfixes(tokens, base)
    }

    #[tactic(auto, unfolding(sy_reading::specs::Exprs::cast_or_postfix))]
    fn cast_or_postfix(&self, tokens: &mut Tokens<'_>) -> Result<WithHeight<Expr>, Stop>
        requires { Nests self.now.below.depth (E.pre self.now.below.expr) (E.post self.now.below.expr) (S.pre self.now.below.stmt) (S.post self.now.below.stmt) }
        ensures { Reads (exprs.cast_or_postfix (read_expr self.now.below.depth) (read_stmt self.now.below.depth) tokens.old.rest.now) result tokens.new.rest.now }
    {
        if sees_cast(tokens) {
            Operators { below: self.below }.cast(tokens)
        } else {
            self.whole_postfix(tokens)
        }
    }

    #[tactic(auto, unfolding(sy_reading::specs::Exprs::prefix))]
    fn prefix(&self, tokens: &mut Tokens<'_>) -> Result<WithHeight<Expr>, Stop>
        requires { Nests self.now.below.depth (E.pre self.now.below.expr) (E.post self.now.below.expr) (S.pre self.now.below.stmt) (S.post self.now.below.stmt) }
        ensures { Reads (exprs.prefix (read_expr self.now.below.depth) (read_stmt self.now.below.depth) tokens.old.rest.now) result tokens.new.rest.now }
    {
        let mark = tokens.mark();
        if let Some(step) = step_of(mark) {
            return Operators { below: self.below }.prefix_step(tokens, step);
        }
        match unary_of(mark) {
            Some(operator) => Operators { below: self.below }.unary(tokens, operator),
            None => self.cast_or_postfix(tokens),
        }
    }

    /// An expression whose loosest operator is of that level or tighter. Level 1 is any expression, 2 to 11 are those of the
    /// operators with two operands, and 12 is a unary expression.
    #[tactic(auto, unfolding(sy_reading::specs::Exprs::chain))]
    pub fn chain(&self, tokens: &mut Tokens<'_>, least: u8) -> Result<WithHeight<Expr>, Stop>
        requires { Nests self.now.below.depth (E.pre self.now.below.expr) (E.post self.now.below.expr) (S.pre self.now.below.stmt) (S.post self.now.below.stmt) }
        ensures { Reads (exprs.chain (read_expr self.now.below.depth) (read_stmt self.now.below.depth) least tokens.old.rest.now) result tokens.new.rest.now }
    {
        let first = self.prefix(tokens)?;
        Operators { below: self.below }.climb(tokens, least, first)
    }
}
