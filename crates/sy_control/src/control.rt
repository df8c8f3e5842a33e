//! The rules of branches, loops and `try` over the statements that they hold.

ghost use Rattle.std.specs.Prelude.{◌≡◌};
ghost use Rattle.sy_reading.specs.Reading.{read_expr, read_stmt};
ghost use Rattle.sy_cursor.specs.Reads.{Reads};
ghost use Rattle.sy_grammar.specs.Nests.{Nests};
ghost use Rattle.sy_reading.specs.Stmts as stmts;

use sqlite_items::Boxed;
use sy_cursor::{Stop, Tokens, WithHeight, beside, type_specifier};
use sy_grammar::{Grammar, stmt_node};
use sy_lex::Row;
use sy_note::Spot;
use sy_tree::{Expr, Lexeme, Stmt, TypeSpecifier};

/// What a range-for begins with: whether the element is const and its type, whether it is a reference and its name.
pub type RangeHeader = ((bool, TypeSpecifier), (bool, Lexeme));

/// What a range-for begins with, up to its colon.
#[tactic(auto, unfolding(sy_reading::specs::Stmts::range_header))]
pub fn range_header(tokens: &mut Tokens<'_>) -> Result<RangeHeader, Stop>
    ensures { Reads (stmts.range_header tokens.old.rest.now) result tokens.new.rest.now }
{
    let fixed = tokens.eat(Row::Reserved, b"const");
    let element = type_specifier(tokens)?;
    let by_reference = tokens.eat(Row::Mark, b"&");
    let name = tokens.expect_row(Row::Ident)?;
    let (name, _colon) = beside(name, tokens.expect(Row::Mark, b":"))?;
    Ok(((fixed, element), (by_reference, name)))
}

/// The rules of branches, loops and `try`, over the parsers of what stands below.
#[derive(Clone, Copy)]
pub struct Control<E, S> {
    pub below: Grammar<E, S>,
}

impl<
    E: Fn(&mut Tokens<'_>, usize, u8) -> Result<WithHeight<Expr>, Stop>,
    S: Fn(&mut Tokens<'_>, usize) -> Result<WithHeight<Stmt>, Stop>,
> Control<E, S> {
    /// The statement that a branch or a loop holds, in a box.
    pub fn body(&self, tokens: &mut Tokens<'_>) -> Result<WithHeight<Boxed<Stmt>>, Stop>
        requires { Nests self.now.below.depth (E.pre self.now.below.expr) (E.post self.now.below.expr) (S.pre self.now.below.stmt) (S.post self.now.below.stmt) }
        ensures { Reads (read_stmt self.now.below.depth tokens.old.rest.now) result tokens.new.rest.now }
    {
        let (tree, height) = self.below.sub_stmt(tokens)?;
        let body = Boxed::new(tokens.alloc, tree)?;
        Ok((body, height))
    }

    #[tactic(auto, unfolding(sy_reading::specs::Stmts::condition))]
    fn condition(&self, tokens: &mut Tokens<'_>) -> Result<WithHeight<Expr>, Stop>
        requires { Nests self.now.below.depth (E.pre self.now.below.expr) (E.post self.now.below.expr) (S.pre self.now.below.stmt) (S.post self.now.below.stmt) }
        ensures { Reads (stmts.condition (read_expr self.now.below.depth) (read_stmt self.now.below.depth) tokens.old.rest.now) result tokens.new.rest.now }
    {
        tokens.expect(Row::Mark, b"(")?;
        let found = self.below.sub_expr(tokens, 1)?;
        let (found, _close) = beside(found, tokens.expect(Row::Mark, b")"))?;
        Ok(found)
    }

    #[tactic(auto, unfolding(sy_reading::specs::Stmts::else_branch))]
    fn else_branch(
        &self,
        tokens: &mut Tokens<'_>,
        spot: Spot,
        test: WithHeight<Expr>,
        yes: WithHeight<Boxed<Stmt>>,
    ) -> Result<WithHeight<Stmt>, Stop>
        requires { Nests self.now.below.depth (E.pre self.now.below.expr) (E.post self.now.below.expr) (S.pre self.now.below.stmt) (S.post self.now.below.stmt) }
        ensures { Reads (stmts.else_branch (read_expr self.now.below.depth) (read_stmt self.now.below.depth) spot test yes tokens.old.rest.now) result tokens.new.rest.now }
    {
        if tokens.eat(Row::Reserved, b"else") {
            let ((test, yes), no) = beside((test, yes), self.body(tokens))?;
            let (test, test_height) = test;
            let (yes, yes_height) = yes;
            let (no, no_height) = no;
            let tree = Stmt::If(spot, test, yes, Some(no));
            stmt_node(tokens, tree, test_height.max(yes_height.max(no_height)))
        } else {
            let (test, test_height) = test;
            let (yes, yes_height) = yes;
            let tree = Stmt::If(spot, test, yes, None);
            stmt_node(tokens, tree, test_height.max(yes_height))
        }
    }

    /// `if`, with its `else` if one comes next.
    #[tactic(auto, unfolding(sy_reading::specs::Stmts::branch))]
    pub fn branch(&self, tokens: &mut Tokens<'_>) -> Result<WithHeight<Stmt>, Stop>
        requires { Nests self.now.below.depth (E.pre self.now.below.expr) (E.post self.now.below.expr) (S.pre self.now.below.stmt) (S.post self.now.below.stmt) }
        ensures { Reads (stmts.branch (read_expr self.now.below.depth) (read_stmt self.now.below.depth) tokens.old.rest.now) result tokens.new.rest.now }
    {
        let spot = tokens.expect(Row::Reserved, b"if")?;
        let test = self.condition(tokens)?;
        let (test, yes) = beside(test, self.body(tokens))?;
        self.else_branch(tokens, spot, test, yes)
    }

    /// A `while` loop.
    #[tactic(auto, unfolding(sy_reading::specs::Stmts::while_loop))]
    pub fn while_loop(&self, tokens: &mut Tokens<'_>) -> Result<WithHeight<Stmt>, Stop>
        requires { Nests self.now.below.depth (E.pre self.now.below.expr) (E.post self.now.below.expr) (S.pre self.now.below.stmt) (S.post self.now.below.stmt) }
        ensures { Reads (stmts.while_loop (read_expr self.now.below.depth) (read_stmt self.now.below.depth) tokens.old.rest.now) result tokens.new.rest.now }
    {
        let spot = tokens.expect(Row::Reserved, b"while")?;
        let test = self.condition(tokens)?;
        let (test, body) = beside(test, self.body(tokens))?;
        let (test, height) = test;
        let (body, tall) = body;
        stmt_node(tokens, Stmt::While(spot, test, body), height.max(tall))
    }

    /// A `do` loop, up to its `;`.
    #[tactic(auto, unfolding(sy_reading::specs::Stmts::do_loop))]
    pub fn do_loop(&self, tokens: &mut Tokens<'_>) -> Result<WithHeight<Stmt>, Stop>
        requires { Nests self.now.below.depth (E.pre self.now.below.expr) (E.post self.now.below.expr) (S.pre self.now.below.stmt) (S.post self.now.below.stmt) }
        ensures { Reads (stmts.do_loop (read_expr self.now.below.depth) (read_stmt self.now.below.depth) tokens.old.rest.now) result tokens.new.rest.now }
    {
        let spot = tokens.expect(Row::Reserved, b"do")?;
        let body = self.body(tokens)?;
        let (body, _while) = beside(body, tokens.expect(Row::Reserved, b"while"))?;
        let (body, test) = beside(body, self.condition(tokens))?;
        let ((body, test), end) = beside((body, test), tokens.expect(Row::Mark, b";"))?;
        let (body, tall) = body;
        let (test, height) = test;
        stmt_node(tokens, Stmt::Do(spot, body, test, end), tall.max(height))
    }

    /// A `for` over a range, after its header.
    #[tactic(auto, unfolding(sy_reading::specs::Stmts::range_for))]
    pub fn range_for(
        &self,
        tokens: &mut Tokens<'_>,
        spot: Spot,
        header: RangeHeader,
    ) -> Result<WithHeight<Stmt>, Stop>
        requires { Nests self.now.below.depth (E.pre self.now.below.expr) (E.post self.now.below.expr) (S.pre self.now.below.stmt) (S.post self.now.below.stmt) }
        ensures { Reads (stmts.range_for (read_expr self.now.below.depth) (read_stmt self.now.below.depth) spot header tokens.old.rest.now) result tokens.new.rest.now }
    {
        let ((fixed, element), (by_reference, name)) = header;
        let (name, range) = beside(name, tokens.expect_row(Row::Ident))?;
        let ((name, range), _close) = beside((name, range), tokens.expect(Row::Mark, b")"))?;
        let ((name, range), body) = beside((name, range), self.body(tokens))?;
        let (body, height) = body;
        let tree = Stmt::RangeFor(spot, fixed, element, by_reference, name, range, body);
        stmt_node(tokens, tree, height)
    }

    #[tactic(auto, unfolding(sy_reading::specs::Stmts::handler))]
    fn handler(&self, tokens: &mut Tokens<'_>) -> Result<Lexeme, Stop>
        requires { Nests self.now.below.depth (E.pre self.now.below.expr) (E.post self.now.below.expr) (S.pre self.now.below.stmt) (S.post self.now.below.stmt) }
        ensures { Reads (stmts.handler (read_expr self.now.below.depth) (read_stmt self.now.below.depth) tokens.old.rest.now) result tokens.new.rest.now }
    {
        tokens.expect(Row::Reserved, b"catch")?;
        tokens.expect(Row::Mark, b"(")?;
        tokens.expect(Row::Reserved, b"const")?;
        tokens.within(b"sycl", b"exception")?;
        tokens.expect(Row::Mark, b"&")?;
        let name = tokens.expect_row(Row::Ident)?;
        let (name, _close) = beside(name, tokens.expect(Row::Mark, b")"))?;
        Ok(name)
    }

    /// `try` with its block, and the one handler of exceptions.
    #[tactic(auto, unfolding(sy_reading::specs::Stmts::try_block))]
    pub fn try_block(&self, tokens: &mut Tokens<'_>) -> Result<WithHeight<Stmt>, Stop>
        requires { Nests self.now.below.depth (E.pre self.now.below.expr) (E.post self.now.below.expr) (S.pre self.now.below.stmt) (S.post self.now.below.stmt) }
        ensures { Reads (stmts.try_block (read_expr self.now.below.depth) (read_stmt self.now.below.depth) tokens.old.rest.now) result tokens.new.rest.now }
    {
        let spot = tokens.expect(Row::Reserved, b"try")?;
        let block = self.below.one_block(tokens)?;
        let (block, name) = beside(block, self.handler(tokens))?;
        let ((block, name), caught) = beside((block, name), self.below.one_block(tokens))?;
        let (block, height) = block;
        let (caught, tall) = caught;
        let tree = Stmt::Try(spot, block, name, caught);
        stmt_node(tokens, tree, height.max(tall))
    }
}
