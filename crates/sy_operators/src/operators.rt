//! Casts, operators with one operand, and operators with two by precedence climbing.

ghost use Rattle.std.specs.Prelude.{◌≡◌};
ghost use Rattle.sy_cursor.specs.Reads.{Reads};
ghost use Rattle.sy_grammar.specs.Nests.{Nests};
ghost use Rattle.sy_reading.specs.Exprs as exprs;
ghost use Rattle.sy_reading.specs.Reading.{read_expr, read_stmt};

use sqlite_items::Boxed;
use sy_cursor::{
    Stop, Tokens, WithHeight, beside, integral, level, operator_of, pair, sees_type, triple,
};
use sy_grammar::{Grammar, TURNS, binds, expr_node};
use sy_lex::Row;
use sy_num::UnOp;
use sy_tree::{Expr, Operator, Step, Stmt};

/// The rules of operators, over the parsers of what stands below.
#[derive(Clone, Copy)]
pub struct Operators<E, S> {
    pub below: Grammar<E, S>,
}

/// Whether a cast comes next, and not an expression in parentheses.
#[tactic(auto, unfolding(sy_reading::specs::Exprs::sees_cast))]
pub fn sees_cast(tokens: &Tokens<'_>) -> bool
    ensures { result ≡ exprs.sees_cast tokens.now.rest.now }
{
    let behind = tokens.behind();
    tokens.sees(Row::Mark, b"(") && sees_type(&behind) && !behind.behind().sees(Row::Mark, b"(")
}

impl<
    E: Fn(&mut Tokens<'_>, usize, u8) -> Result<WithHeight<Expr>, Stop>,
    S: Fn(&mut Tokens<'_>, usize) -> Result<WithHeight<Stmt>, Stop>,
> Operators<E, S> {
    /// A cast by a type in parentheses, with its operand.
    #[tactic(auto, unfolding(sy_reading::specs::Exprs::cast))]
    pub fn cast(&self, tokens: &mut Tokens<'_>) -> Result<WithHeight<Expr>, Stop>
        requires { Nests self.now.below.depth (E.pre self.now.below.expr) (E.post self.now.below.expr) (S.pre self.now.below.stmt) (S.post self.now.below.stmt) }
        ensures { Reads (exprs.cast (read_expr self.now.below.depth) (read_stmt self.now.below.depth) tokens.old.rest.now) result tokens.new.rest.now }
    {
        let spot = tokens.expect(Row::Mark, b"(")?;
        let target = integral(tokens)?;
        tokens.expect(Row::Mark, b")")?;
        let (value, height) = self.below.sub_expr(tokens, 12)?;
        let tree = Expr::Cast(spot, target, Boxed::new(tokens.alloc, value)?);
        expr_node(tokens, tree, height)
    }

    /// `++` or `--` before its operand; the mark is taken, whatever it is.
    #[tactic(auto, unfolding(sy_reading::specs::Exprs::prefix_step))]
    pub fn prefix_step(
        &self,
        tokens: &mut Tokens<'_>,
        operator: Step,
    ) -> Result<WithHeight<Expr>, Stop>
        requires { Nests self.now.below.depth (E.pre self.now.below.expr) (E.post self.now.below.expr) (S.pre self.now.below.stmt) (S.post self.now.below.stmt) }
        ensures { Reads (exprs.prefix_step (read_expr self.now.below.depth) (read_stmt self.now.below.depth) operator tokens.old.rest.now) result tokens.new.rest.now }
    {
        let spot = tokens.advance()?;
        let (operand, height) = self.below.sub_expr(tokens, 12)?;
        let tree = Expr::Prefix(spot, operator, Boxed::new(tokens.alloc, operand)?);
        expr_node(tokens, tree, height)
    }

    /// An operator before its one operand; the mark is taken, whatever it is.
    #[tactic(auto, unfolding(sy_reading::specs::Exprs::unary))]
    pub fn unary(&self, tokens: &mut Tokens<'_>, operator: UnOp) -> Result<WithHeight<Expr>, Stop>
        requires { Nests self.now.below.depth (E.pre self.now.below.expr) (E.post self.now.below.expr) (S.pre self.now.below.stmt) (S.post self.now.below.stmt) }
        ensures { Reads (exprs.unary (read_expr self.now.below.depth) (read_stmt self.now.below.depth) operator tokens.old.rest.now) result tokens.new.rest.now }
    {
        let spot = tokens.advance()?;
        let (operand, height) = self.below.sub_expr(tokens, 12)?;
        let tree = Expr::Unary(spot, operator, Boxed::new(tokens.alloc, operand)?);
        expr_node(tokens, tree, height)
    }

    #[tactic(auto, unfolding(sy_reading::specs::Exprs::binary))]
    fn binary(
        &self,
        tokens: &mut Tokens<'_>,
        operator: Operator,
        left: WithHeight<Expr>,
    ) -> Result<WithHeight<Expr>, Stop>
        requires { Nests self.now.below.depth (E.pre self.now.below.expr) (E.post self.now.below.expr) (S.pre self.now.below.stmt) (S.post self.now.below.stmt) }
        ensures { Reads (exprs.binary (read_expr self.now.below.depth) (read_stmt self.now.below.depth) operator left tokens.old.rest.now) result tokens.new.rest.now }
    {
        let (left, spot) = beside(left, tokens.advance())?;
        let (left, right) = beside(left, self.below.sub_expr(tokens, level(operator) + 1))?;
        let (first, height) = left;
        let (second, tall) = right;
        let (first, second) = pair(tokens.alloc, first, second)?;
        let tree = Expr::Binary(first, spot, operator, second);
        expr_node(tokens, tree, height.max(tall))
    }

    #[tactic(auto, unfolding(sy_reading::specs::Exprs::conditional))]
    fn conditional(
        &self,
        tokens: &mut Tokens<'_>,
        tested: WithHeight<Expr>,
    ) -> Result<WithHeight<Expr>, Stop>
        requires { Nests self.now.below.depth (E.pre self.now.below.expr) (E.post self.now.below.expr) (S.pre self.now.below.stmt) (S.post self.now.below.stmt) }
        ensures { Reads (exprs.conditional (read_expr self.now.below.depth) (read_stmt self.now.below.depth) tested tokens.old.rest.now) result tokens.new.rest.now }
    {
        let (tested, spot) = beside(tested, tokens.expect(Row::Mark, b"?"))?;
        let (tested, yes) = beside(tested, self.below.sub_expr(tokens, 1))?;
        let ((tested, yes), _colon) = beside((tested, yes), tokens.expect(Row::Mark, b":"))?;
        let ((tested, yes), no) = beside((tested, yes), self.below.sub_expr(tokens, 1))?;
        let (test, height) = tested;
        let (yes, yes_height) = yes;
        let (no, no_height) = no;
        let (test, (yes, no)) = triple(tokens.alloc, test, yes, no)?;
        let tree = Expr::Conditional(test, spot, yes, no);
        expr_node(tokens, tree, height.max(yes_height.max(no_height)))
    }

    #[tactic(auto, unfolding(sy_reading::specs::Exprs::operation))]
    fn operation(
        &self,
        tokens: &mut Tokens<'_>,
        left: WithHeight<Expr>,
    ) -> Result<WithHeight<Expr>, Stop>
        requires { Nests self.now.below.depth (E.pre self.now.below.expr) (E.post self.now.below.expr) (S.pre self.now.below.stmt) (S.post self.now.below.stmt) }
        ensures { Reads (exprs.operation (read_expr self.now.below.depth) (read_stmt self.now.below.depth) left tokens.old.rest.now) result tokens.new.rest.now }
    {
        if tokens.sees(Row::Mark, b"?") {
            return self.conditional(tokens, left);
        }
        match operator_of(tokens.mark()) {
            Some(operator) => self.binary(tokens, operator, left),
            None => Err(Stop::Grammar),
        }
    }

    /// The operators of that level or tighter that go on with the expression that has been read, with their right sides.
    pub fn climb(
        &self,
        tokens: &mut Tokens<'_>,
        least: u8,
        mut left: WithHeight<Expr>,
    ) -> Result<WithHeight<Expr>, Stop>
        requires { Nests self.now.below.depth (E.pre self.now.below.expr) (E.post self.now.below.expr) (S.pre self.now.below.stmt) (S.post self.now.below.stmt) }
        ensures { Reads (exprs.climb (read_expr self.now.below.depth) (read_stmt self.now.below.depth) 65 least left tokens.old.rest.now) result tokens.new.rest.now }
    {
        for _turn in 0..TURNS {
            if binds(tokens) < least {
                return Ok(left);
            }
            left = self.operation(tokens, left)?;
        }
        Err(Stop::Grammar)
    }
}
