//! The rules of statements that hold no other statement and declare nothing.

ghost use Rattle.std.specs.Prelude.{◌≡◌, [], length, Some};
ghost use Rattle.sy_reading.specs.Reading.{read_expr, read_stmt};
ghost use Rattle.sy_cursor.specs.Reads.{Reads};
ghost use Rattle.sy_stmts.specs.Rests as rests;
ghost use Rattle.sy_grammar.specs.Nests.{Nests};
ghost use Rattle.sy_reading.specs.Stmts as stmts;

use sqlite_items::Items;
use sy_cursor::{Stop, Tokens, WithHeight, assignment_of, beside, check_height};
use sy_grammar::{Grammar, stmt_node};
use sy_lex::Row;
use sy_tree::{AssignmentOperator, Expr, FullExpression, Printed, Stmt};

/// The rules of these statements and of their parts, over the parsers of what stands below.
#[derive(Clone, Copy)]
pub struct PlainStatements<E, S> {
    pub below: Grammar<E, S>,
}

/// The statement of an expression that has been read, up to its `;`.
fn expression_rest(
    tokens: &mut Tokens<'_>,
    found: WithHeight<FullExpression>,
) -> Result<WithHeight<Stmt>, Stop>
    ensures { Reads (rests.expression_rest found tokens.old.rest.now) result tokens.new.rest.now }
{
    let ((expression, height), end) = beside(found, tokens.expect(Row::Mark, b";"))?;
    stmt_node(tokens, Stmt::Expression(expression, end), height)
}

impl<
    E: Fn(&mut Tokens<'_>, usize, u8) -> Result<WithHeight<Expr>, Stop>,
    S: Fn(&mut Tokens<'_>, usize) -> Result<WithHeight<Stmt>, Stop>,
> PlainStatements<E, S> {
    /// The rest of an assignment, whose target has been read.
    fn assignment_rest(
        &self,
        tokens: &mut Tokens<'_>,
        target: WithHeight<Expr>,
        operator: AssignmentOperator,
    ) -> Result<WithHeight<FullExpression>, Stop>
        requires { Nests self.now.below.depth (E.pre self.now.below.expr) (E.post self.now.below.expr) (S.pre self.now.below.stmt) (S.post self.now.below.stmt) }
        ensures { Reads (stmts.assignment_rest (read_expr self.now.below.depth) (read_stmt self.now.below.depth) target (Some operator) tokens.old.rest.now) result tokens.new.rest.now }
    {
        let (target, spot) = beside(target, tokens.advance())?;
        let (target, value) = beside(target, self.below.sub_expr(tokens, 1))?;
        let (target, height) = target;
        let (value, tall) = value;
        let found = FullExpression::Assignment(target, spot, operator, value);
        Ok((found, height.max(tall)))
    }

    /// The parts of an expression that is evaluated by itself, with the height of what it holds.
    #[tactic(auto, unfolding(sy_reading::specs::Stmts::full_parts))]
    fn full_parts(&self, tokens: &mut Tokens<'_>) -> Result<WithHeight<FullExpression>, Stop>
        requires { Nests self.now.below.depth (E.pre self.now.below.expr) (E.post self.now.below.expr) (S.pre self.now.below.stmt) (S.post self.now.below.stmt) }
        ensures { Reads (stmts.full_parts (read_expr self.now.below.depth) (read_stmt self.now.below.depth) tokens.old.rest.now) result tokens.new.rest.now }
    {
        let target = self.below.sub_expr(tokens, 1)?;
        match assignment_of(tokens.mark()) {
            None => {
                let (target, height) = target;
                Ok((FullExpression::Plain(target), height))
            }
            Some(operator) => self.assignment_rest(tokens, target, operator),
        }
    }

    #[tactic(auto, unfolding(sy_reading::specs::Stmts::full))]
    fn full(&self, tokens: &mut Tokens<'_>) -> Result<WithHeight<FullExpression>, Stop>
        requires { Nests self.now.below.depth (E.pre self.now.below.expr) (E.post self.now.below.expr) (S.pre self.now.below.stmt) (S.post self.now.below.stmt) }
        ensures { Reads (stmts.full (read_expr self.now.below.depth) (read_stmt self.now.below.depth) tokens.old.rest.now) result tokens.new.rest.now }
    {
        let (found, height) = self.full_parts(tokens)?;
        check_height(tokens, found, height)
    }

    /// An expression or an assignment, up to its `;`.
    #[tactic(auto, unfolding(sy_reading::specs::Stmts::expression))]
    pub fn expression(&self, tokens: &mut Tokens<'_>) -> Result<WithHeight<Stmt>, Stop>
        requires { Nests self.now.below.depth (E.pre self.now.below.expr) (E.post self.now.below.expr) (S.pre self.now.below.stmt) (S.post self.now.below.stmt) }
        ensures { Reads (stmts.expression (read_expr self.now.below.depth) (read_stmt self.now.below.depth) tokens.old.rest.now) result tokens.new.rest.now }
    {
        let found = self.full_parts(tokens)?;
        expression_rest(tokens, found)
    }

    /// `;` by itself.
    #[tactic(auto, unfolding(sy_reading::specs::Stmts::null))]
    pub fn null(&self, tokens: &mut Tokens<'_>) -> Result<WithHeight<Stmt>, Stop>
        requires { Nests self.now.below.depth (E.pre self.now.below.expr) (E.post self.now.below.expr) (S.pre self.now.below.stmt) (S.post self.now.below.stmt) }
        ensures { Reads (stmts.null (read_expr self.now.below.depth) (read_stmt self.now.below.depth) tokens.old.rest.now) result tokens.new.rest.now }
    {
        let spot = tokens.expect(Row::Mark, b";")?;
        stmt_node(tokens, Stmt::Null(spot), 0)
    }

    #[tactic(auto, unfolding(sy_reading::specs::Stmts::one_print_item))]
    fn one_print_item(&self, tokens: &mut Tokens<'_>) -> Result<WithHeight<Printed>, Stop>
        requires { Nests self.now.below.depth (E.pre self.now.below.expr) (E.post self.now.below.expr) (S.pre self.now.below.stmt) (S.post self.now.below.stmt) }
        ensures { Reads (stmts.one_print_item (read_expr self.now.below.depth) (read_stmt self.now.below.depth) tokens.old.rest.now) result tokens.new.rest.now }
    {
        let spot = tokens.expect(Row::Mark, b"<<")?;
        if tokens.sees_row(Row::Str) {
            let text = tokens.expect_row(Row::Str)?;
            Ok((Printed::Text(spot, text), 0))
        } else if tokens.sees_namespace(b"std") {
            let name = tokens.within(b"std", b"endl")?;
            Ok((Printed::EndLine(spot, name), 0))
        } else {
            let (operand, height) = self.below.sub_expr(tokens, 10)?;
            Ok((Printed::Operand(spot, operand), height))
        }
    }

    fn print_items(&self, tokens: &mut Tokens<'_>) -> Result<WithHeight<Items<Printed>>, Stop>
        requires { Nests self.now.below.depth (E.pre self.now.below.expr) (E.post self.now.below.expr) (S.pre self.now.below.stmt) (S.post self.now.below.stmt) }
        ensures { Reads (stmts.print_items_from (read_expr self.now.below.depth) (read_stmt self.now.below.depth) (length tokens.old.rest.now) [] 0 tokens.old.rest.now) result tokens.new.rest.now }
    {
        let mut items = Items::new(tokens.alloc);
        let mut height = 0;
        for _turn in 0..tokens.count_left() {
            let (item, tall) = self.one_print_item(tokens)?;
            items.push(item)?;
            height = height.max(tall);
            if !tokens.sees(Row::Mark, b"<<") {
                return Ok((items, height));
            }
        }
        Err(Stop::Grammar)
    }

    /// What is written to `std::cout`, up to its `;`.
    #[tactic(auto, unfolding(sy_reading::specs::Stmts::print))]
    pub fn print(&self, tokens: &mut Tokens<'_>) -> Result<WithHeight<Stmt>, Stop>
        requires { Nests self.now.below.depth (E.pre self.now.below.expr) (E.post self.now.below.expr) (S.pre self.now.below.stmt) (S.post self.now.below.stmt) }
        ensures { Reads (stmts.print (read_expr self.now.below.depth) (read_stmt self.now.below.depth) tokens.old.rest.now) result tokens.new.rest.now }
    {
        let name = tokens.within(b"std", b"cout")?;
        let items = self.print_items(tokens)?;
        let ((items, height), end) = beside(items, tokens.expect(Row::Mark, b";"))?;
        stmt_node(tokens, Stmt::Print(name, items, end), height)
    }

    /// `break` with its `;`.
    #[tactic(auto, unfolding(sy_reading::specs::Stmts::break_loop))]
    pub fn break_loop(&self, tokens: &mut Tokens<'_>) -> Result<WithHeight<Stmt>, Stop>
        requires { Nests self.now.below.depth (E.pre self.now.below.expr) (E.post self.now.below.expr) (S.pre self.now.below.stmt) (S.post self.now.below.stmt) }
        ensures { Reads (stmts.break_loop (read_expr self.now.below.depth) (read_stmt self.now.below.depth) tokens.old.rest.now) result tokens.new.rest.now }
    {
        let spot = tokens.expect(Row::Reserved, b"break")?;
        let end = tokens.expect(Row::Mark, b";")?;
        stmt_node(tokens, Stmt::Break(spot, end), 0)
    }

    /// `continue` with its `;`.
    #[tactic(auto, unfolding(sy_reading::specs::Stmts::continue_loop))]
    pub fn continue_loop(&self, tokens: &mut Tokens<'_>) -> Result<WithHeight<Stmt>, Stop>
        requires { Nests self.now.below.depth (E.pre self.now.below.expr) (E.post self.now.below.expr) (S.pre self.now.below.stmt) (S.post self.now.below.stmt) }
        ensures { Reads (stmts.continue_loop (read_expr self.now.below.depth) (read_stmt self.now.below.depth) tokens.old.rest.now) result tokens.new.rest.now }
    {
        let spot = tokens.expect(Row::Reserved, b"continue")?;
        let end = tokens.expect(Row::Mark, b";")?;
        stmt_node(tokens, Stmt::Continue(spot, end), 0)
    }

    /// An expression, unless a `;` comes next, which isn't taken.
    #[tactic(auto, unfolding(sy_reading::specs::Stmts::maybe_expr))]
    pub fn maybe_expr(&self, tokens: &mut Tokens<'_>) -> Result<WithHeight<Option<Expr>>, Stop>
        requires { Nests self.now.below.depth (E.pre self.now.below.expr) (E.post self.now.below.expr) (S.pre self.now.below.stmt) (S.post self.now.below.stmt) }
        ensures { Reads (stmts.maybe_expr (read_expr self.now.below.depth) (read_stmt self.now.below.depth) tokens.old.rest.now) result tokens.new.rest.now }
    {
        if tokens.sees(Row::Mark, b";") {
            Ok((None, 0))
        } else {
            let (found, height) = self.below.sub_expr(tokens, 1)?;
            Ok((Some(found), height))
        }
    }

    /// An expression or an assignment, unless a `)` comes next, which isn't taken.
    #[tactic(auto, unfolding(sy_reading::specs::Stmts::maybe_full))]
    pub fn maybe_full(
        &self,
        tokens: &mut Tokens<'_>,
    ) -> Result<WithHeight<Option<FullExpression>>, Stop>
        requires { Nests self.now.below.depth (E.pre self.now.below.expr) (E.post self.now.below.expr) (S.pre self.now.below.stmt) (S.post self.now.below.stmt) }
        ensures { Reads (stmts.maybe_full (read_expr self.now.below.depth) (read_stmt self.now.below.depth) tokens.old.rest.now) result tokens.new.rest.now }
    {
        if tokens.sees(Row::Mark, b")") {
            Ok((None, 0))
        } else {
            let (found, height) = self.full(tokens)?;
            Ok((Some(found), height))
        }
    }

    /// `return`, with its value if there is one, and its `;`.
    #[tactic(auto, unfolding(sy_reading::specs::Stmts::return_value))]
    pub fn return_value(&self, tokens: &mut Tokens<'_>) -> Result<WithHeight<Stmt>, Stop>
        requires { Nests self.now.below.depth (E.pre self.now.below.expr) (E.post self.now.below.expr) (S.pre self.now.below.stmt) (S.post self.now.below.stmt) }
        ensures { Reads (stmts.return_value (read_expr self.now.below.depth) (read_stmt self.now.below.depth) tokens.old.rest.now) result tokens.new.rest.now }
    {
        let spot = tokens.expect(Row::Reserved, b"return")?;
        let value = self.maybe_expr(tokens)?;
        let ((value, height), end) = beside(value, tokens.expect(Row::Mark, b";"))?;
        stmt_node(tokens, Stmt::Return(spot, value, end), height)
    }
}
