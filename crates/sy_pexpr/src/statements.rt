//! The rules of statements. They take the parsers of the expressions and statements below as parameters, so that each
//! is proved by itself.

ghost use Rattle.std.specs.Prelude.{◌≡◌};
ghost use Rattle.sy_reading.specs.Reading.{read_expr, read_stmt};
ghost use Rattle.sy_cursor.specs.Reads.{Reads};
ghost use Rattle.sy_grammar.specs.Nests.{Nests};
ghost use Rattle.sy_reading.specs.Stmts as stmts;

use sy_control::Control;
use sy_cursor::{Stop, Tokens, WithHeight, declares_object, sees_type};
use sy_decls::Declarations;
use sy_grammar::{Grammar, stmt_node};
use sy_lex::Row;
use sy_stmts::PlainStatements;
use sy_tree::{Expr, Stmt};

/// The rules of declarations and statements, over those of expressions.
#[derive(Clone, Copy)]
pub struct Statements<E, S> {
    pub below: Grammar<E, S>,
}

/// Whether `std::cout` comes next.
#[tactic(auto, unfolding(sy_reading::specs::Stmts::sees_print))]
fn sees_print(tokens: &Tokens<'_>) -> bool
    ensures { result ≡ stmts.sees_print tokens.now.rest.now }
{
    tokens.sees_namespace(b"std") && tokens.behind().behind().sees(Row::Ident, b"cout")
}

/// Whether a declaration of integers begins, and no cast.
#[tactic(auto, unfolding(sy_reading::specs::Stmts::declares_integers))]
fn declares_integers(tokens: &Tokens<'_>) -> bool
    ensures { result ≡ stmts.declares_integers tokens.now.rest.now }
{
    tokens.sees(Row::Reserved, b"const")
        || tokens.sees(Row::Reserved, b"constexpr")
        || tokens.sees(Row::Reserved, b"auto")
        || (sees_type(tokens) && !tokens.behind().sees(Row::Mark, b"("))
}

impl<
    E: Fn(&mut Tokens<'_>, usize, u8) -> Result<WithHeight<Expr>, Stop> + Copy,
    S: Fn(&mut Tokens<'_>, usize) -> Result<WithHeight<Stmt>, Stop> + Copy,
> Statements<E, S> {
    #[tactic(auto, unfolding(sy_reading::specs::Stmts::compound))]
    pub fn compound(&self, tokens: &mut Tokens<'_>) -> Result<WithHeight<Stmt>, Stop>
        requires { Nests self.now.below.depth (E.pre self.now.below.expr) (E.post self.now.below.expr) (S.pre self.now.below.stmt) (S.post self.now.below.stmt) }
        ensures { Reads (stmts.compound (read_expr self.now.below.depth) (read_stmt self.now.below.depth) tokens.old.rest.now) result tokens.new.rest.now }
    {
        let (block, height) = self.below.one_block(tokens)?;
        Ok((Stmt::Compound(block), height))
    }

    #[tactic(auto, unfolding(sy_reading::specs::Stmts::library_statement))]
    pub fn library_statement(&self, tokens: &mut Tokens<'_>) -> Result<WithHeight<Stmt>, Stop>
        requires { Nests self.now.below.depth (E.pre self.now.below.expr) (E.post self.now.below.expr) (S.pre self.now.below.stmt) (S.post self.now.below.stmt) }
        ensures { Reads (stmts.library_statement (read_expr self.now.below.depth) (read_stmt self.now.below.depth) tokens.old.rest.now) result tokens.new.rest.now }
    {
        if declares_object(tokens)? {
            let (declaration, height) = Declarations { below: self.below }.object_declaration(
                tokens,
            )?;
            stmt_node(tokens, Stmt::Declaration(declaration), height)
        } else {
            PlainStatements { below: self.below }.expression(tokens)
        }
    }

    /// A declaration, an expression or `;`.
    #[tactic(auto, unfolding(sy_reading::specs::Stmts::simple))]
    pub fn simple(&self, tokens: &mut Tokens<'_>) -> Result<WithHeight<Stmt>, Stop>
        requires { Nests self.now.below.depth (E.pre self.now.below.expr) (E.post self.now.below.expr) (S.pre self.now.below.stmt) (S.post self.now.below.stmt) }
        ensures { Reads (stmts.simple (read_expr self.now.below.depth) (read_stmt self.now.below.depth) tokens.old.rest.now) result tokens.new.rest.now }
    {
        if tokens.sees(Row::Mark, b";") {
            PlainStatements { below: self.below }.null(tokens)
        } else if declares_integers(tokens) {
            let (declaration, height) = Declarations { below: self.below }.integers(tokens)?;
            stmt_node(tokens, Stmt::Declaration(declaration), height)
        } else if tokens.sees_namespace(b"std") {
            let (declaration, height) = Declarations { below: self.below }.standard_declaration(
                tokens,
            )?;
            stmt_node(tokens, Stmt::Declaration(declaration), height)
        } else if tokens.sees_namespace(b"sycl") {
            self.library_statement(tokens)
        } else {
            PlainStatements { below: self.below }.expression(tokens)
        }
    }

    #[tactic(auto, unfolding(sy_reading::specs::Stmts::loop_or_try))]
    pub fn loop_or_try(&self, tokens: &mut Tokens<'_>) -> Result<WithHeight<Stmt>, Stop>
        requires { Nests self.now.below.depth (E.pre self.now.below.expr) (E.post self.now.below.expr) (S.pre self.now.below.stmt) (S.post self.now.below.stmt) }
        ensures { Reads (stmts.loop_or_try (read_expr self.now.below.depth) (read_stmt self.now.below.depth) tokens.old.rest.now) result tokens.new.rest.now }
    {
        if tokens.sees(Row::Reserved, b"while") {
            Control { below: self.below }.while_loop(tokens)
        } else if tokens.sees(Row::Reserved, b"do") {
            Control { below: self.below }.do_loop(tokens)
        } else if tokens.sees(Row::Reserved, b"for") {
            self.for_loop(tokens)
        } else if tokens.sees(Row::Reserved, b"try") {
            Control { below: self.below }.try_block(tokens)
        } else {
            self.simple(tokens)
        }
    }

    #[tactic(auto, unfolding(sy_reading::specs::Stmts::reserved_stmt))]
    pub fn reserved_stmt(&self, tokens: &mut Tokens<'_>) -> Result<WithHeight<Stmt>, Stop>
        requires { Nests self.now.below.depth (E.pre self.now.below.expr) (E.post self.now.below.expr) (S.pre self.now.below.stmt) (S.post self.now.below.stmt) }
        ensures { Reads (stmts.reserved_stmt (read_expr self.now.below.depth) (read_stmt self.now.below.depth) tokens.old.rest.now) result tokens.new.rest.now }
    {
        if tokens.sees(Row::Reserved, b"if") {
            Control { below: self.below }.branch(tokens)
        } else if tokens.sees(Row::Reserved, b"break") {
            PlainStatements { below: self.below }.break_loop(tokens)
        } else if tokens.sees(Row::Reserved, b"continue") {
            PlainStatements { below: self.below }.continue_loop(tokens)
        } else if tokens.sees(Row::Reserved, b"return") {
            PlainStatements { below: self.below }.return_value(tokens)
        } else {
            self.loop_or_try(tokens)
        }
    }

    #[tactic(auto, unfolding(sy_reading::specs::Stmts::one_stmt))]
    pub fn one_stmt(&self, tokens: &mut Tokens<'_>) -> Result<WithHeight<Stmt>, Stop>
        requires { Nests self.now.below.depth (E.pre self.now.below.expr) (E.post self.now.below.expr) (S.pre self.now.below.stmt) (S.post self.now.below.stmt) }
        ensures { Reads (stmts.one_stmt (read_expr self.now.below.depth) (read_stmt self.now.below.depth) tokens.old.rest.now) result tokens.new.rest.now }
    {
        if tokens.sees(Row::Mark, b"{") {
            self.compound(tokens)
        } else if tokens.sees_row(Row::Reserved) {
            self.reserved_stmt(tokens)
        } else if sees_print(tokens) {
            PlainStatements { below: self.below }.print(tokens)
        } else {
            self.simple(tokens)
        }
    }
}
