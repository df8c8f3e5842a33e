//! Primary expressions.

ghost use Rattle.sy_cursor.specs.Reads.{Reads};
ghost use Rattle.sy_grammar.specs.Nests.{Nests};
ghost use Rattle.sy_reading.specs.Exprs as exprs;
ghost use Rattle.sy_reading.specs.Reading.{read_expr, read_stmt};

use sqlite_items::Boxed;
use sy_cursor::{
    Stop, Tokens, WithHeight, beside, empty_brackets, expect_close, expect_open, function_of,
    integral, object_by, object_of, one_word, pair, qualified_name, tag_of,
};
use sy_grammar::{Grammar, expr_node};
use sy_lex::Row;
use sy_tree::{Expr, FunctionObject, IntegerType, Lexeme, LibraryFunction, Qualified, Stmt};

/// The rules of primary expressions, over the parsers of what stands below.
#[derive(Clone, Copy)]
pub struct Primaries<E, S> {
    pub below: Grammar<E, S>,
}

impl<
    E: Fn(&mut Tokens<'_>, usize, u8) -> Result<WithHeight<Expr>, Stop>,
    S: Fn(&mut Tokens<'_>, usize) -> Result<WithHeight<Stmt>, Stop>,
> Primaries<E, S> {
    #[tactic(auto, unfolding(sy_reading::specs::Exprs::parenthesis_expr))]
    fn parenthesis_expr(&self, tokens: &mut Tokens<'_>) -> Result<WithHeight<Expr>, Stop>
        requires { Nests self.now.below.depth (E.pre self.now.below.expr) (E.post self.now.below.expr) (S.pre self.now.below.stmt) (S.post self.now.below.stmt) }
        ensures { Reads (exprs.parenthesis_expr (read_expr self.now.below.depth) (read_stmt self.now.below.depth) tokens.old.rest.now) result tokens.new.rest.now }
    {
        let spot = tokens.expect(Row::Mark, b"(")?;
        let inner = self.below.sub_expr(tokens, 1)?;
        let ((inner, height), close) = beside(inner, tokens.expect(Row::Mark, b")"))?;
        let tree = Expr::Parenthesized(spot, Boxed::new(tokens.alloc, inner)?, close);
        expr_node(tokens, tree, height)
    }

    #[tactic(auto, unfolding(sy_reading::specs::Exprs::function_call))]
    fn function_call(
        &self,
        tokens: &mut Tokens<'_>,
        function: Lexeme,
    ) -> Result<WithHeight<Expr>, Stop>
        requires { Nests self.now.below.depth (E.pre self.now.below.expr) (E.post self.now.below.expr) (S.pre self.now.below.stmt) (S.post self.now.below.stmt) }
        ensures { Reads (exprs.function_call (read_expr self.now.below.depth) (read_stmt self.now.below.depth) function tokens.old.rest.now) result tokens.new.rest.now }
    {
        let (function, _open) = beside(function, tokens.expect(Row::Mark, b"("))?;
        let (function, items) = beside(function, self.below.maybe_exprs(tokens, b")"))?;
        let ((function, items), close) = beside((function, items), tokens.expect(Row::Mark, b")"))?;
        let (items, function) = beside(items, Boxed::new(tokens.alloc, function))?;
        let (items, height) = items;
        expr_node(tokens, Expr::Call(function, items, close), height)
    }

    #[tactic(auto, unfolding(sy_reading::specs::Exprs::named_primary))]
    fn named_primary(&self, tokens: &mut Tokens<'_>) -> Result<WithHeight<Expr>, Stop>
        requires { Nests self.now.below.depth (E.pre self.now.below.expr) (E.post self.now.below.expr) (S.pre self.now.below.stmt) (S.post self.now.below.stmt) }
        ensures { Reads (exprs.named_primary (read_expr self.now.below.depth) (read_stmt self.now.below.depth) tokens.old.rest.now) result tokens.new.rest.now }
    {
        let name = tokens.expect_row(Row::Ident)?;
        if tokens.sees(Row::Mark, b"(") {
            self.function_call(tokens, name)
        } else {
            expr_node(tokens, Expr::Name(name), 0)
        }
    }

    #[tactic(auto, unfolding(sy_reading::specs::Exprs::static_cast))]
    fn static_cast(&self, tokens: &mut Tokens<'_>) -> Result<WithHeight<Expr>, Stop>
        requires { Nests self.now.below.depth (E.pre self.now.below.expr) (E.post self.now.below.expr) (S.pre self.now.below.stmt) (S.post self.now.below.stmt) }
        ensures { Reads (exprs.static_cast (read_expr self.now.below.depth) (read_stmt self.now.below.depth) tokens.old.rest.now) result tokens.new.rest.now }
    {
        let spot = tokens.expect(Row::Reserved, b"static_cast")?;
        tokens.expect(Row::Mark, b"<")?;
        let target = integral(tokens)?;
        tokens.expect(Row::Mark, b">")?;
        let ((inner, height), close) = self.below.parenthesis(tokens)?;
        let tree = Expr::StaticCast(spot, target, Boxed::new(tokens.alloc, inner)?, close);
        expr_node(tokens, tree, height)
    }

    #[tactic(auto, unfolding(sy_reading::specs::Exprs::functional_cast))]
    fn functional_cast(&self, tokens: &mut Tokens<'_>) -> Result<WithHeight<Expr>, Stop>
        requires { Nests self.now.below.depth (E.pre self.now.below.expr) (E.post self.now.below.expr) (S.pre self.now.below.stmt) (S.post self.now.below.stmt) }
        ensures { Reads (exprs.functional_cast (read_expr self.now.below.depth) (read_stmt self.now.below.depth) tokens.old.rest.now) result tokens.new.rest.now }
    {
        let target = one_word(tokens)?;
        let ((inner, height), close) = self.below.parenthesis(tokens)?;
        let tree = Expr::FunctionalCast(target, Boxed::new(tokens.alloc, inner)?, close);
        expr_node(tokens, tree, height)
    }

    #[tactic(auto, unfolding(sy_reading::specs::Exprs::reserved_primary))]
    fn reserved_primary(&self, tokens: &mut Tokens<'_>) -> Result<WithHeight<Expr>, Stop>
        requires { Nests self.now.below.depth (E.pre self.now.below.expr) (E.post self.now.below.expr) (S.pre self.now.below.stmt) (S.post self.now.below.stmt) }
        ensures { Reads (exprs.reserved_primary (read_expr self.now.below.depth) (read_stmt self.now.below.depth) tokens.old.rest.now) result tokens.new.rest.now }
    {
        if tokens.sees(Row::Reserved, b"true") {
            let spot = tokens.expect(Row::Reserved, b"true")?;
            expr_node(tokens, Expr::Boolean(spot, true), 0)
        } else if tokens.sees(Row::Reserved, b"false") {
            let spot = tokens.expect(Row::Reserved, b"false")?;
            expr_node(tokens, Expr::Boolean(spot, false), 0)
        } else if tokens.sees(Row::Reserved, b"static_cast") {
            self.static_cast(tokens)
        } else {
            self.functional_cast(tokens)
        }
    }

    #[tactic(auto, unfolding(sy_reading::specs::Exprs::construct))]
    fn construct(
        &self,
        tokens: &mut Tokens<'_>,
        name: Qualified,
        text: &[u8],
    ) -> Result<WithHeight<Expr>, Stop>
        requires { Nests self.now.below.depth (E.pre self.now.below.expr) (E.post self.now.below.expr) (S.pre self.now.below.stmt) (S.post self.now.below.stmt) }
        ensures { Reads (exprs.construct (read_expr self.now.below.depth) (read_stmt self.now.below.depth) name text.now tokens.old.rest.now) result tokens.new.rest.now }
    {
        let object = object_by(tokens, name, text)?;
        let (object, (brackets, open)) = beside(object, expect_open(tokens))?;
        let (object, items) = beside(object, self.below.arguments_within(tokens, brackets))?;
        let ((object, items), close) = beside((object, items), expect_close(tokens, brackets))?;
        let (items, height) = items;
        let (object, items) = pair(tokens.alloc, object, items)?;
        let tree = Expr::Construct(object, brackets, open, items, close);
        expr_node(tokens, tree, height)
    }

    #[tactic(auto, unfolding(sy_reading::specs::Exprs::in_order))]
    fn in_order(&self, tokens: &mut Tokens<'_>, name: Qualified) -> Result<WithHeight<Expr>, Stop>
        requires { Nests self.now.below.depth (E.pre self.now.below.expr) (E.post self.now.below.expr) (S.pre self.now.below.stmt) (S.post self.now.below.stmt) }
        ensures { Reads (exprs.in_order (read_expr self.now.below.depth) (read_stmt self.now.below.depth) name tokens.old.rest.now) result tokens.new.rest.now }
    {
        tokens.expect(Row::Ident, b"queue")?;
        tokens.expect(Row::Mark, b"::")?;
        tokens.expect(Row::Ident, b"in_order")?;
        let (brackets, close) = empty_brackets(tokens)?;
        expr_node(tokens, Expr::InOrder(name, brackets, close), 0)
    }

    #[tactic(auto, unfolding(sy_reading::specs::Exprs::initialize_to_identity))]
    fn initialize_to_identity(
        &self,
        tokens: &mut Tokens<'_>,
        name: Qualified,
    ) -> Result<WithHeight<Expr>, Stop>
        requires { Nests self.now.below.depth (E.pre self.now.below.expr) (E.post self.now.below.expr) (S.pre self.now.below.stmt) (S.post self.now.below.stmt) }
        ensures { Reads (exprs.initialize_to_identity (read_expr self.now.below.depth) (read_stmt self.now.below.depth) name tokens.old.rest.now) result tokens.new.rest.now }
    {
        tokens.expect(Row::Ident, b"reduction")?;
        tokens.expect(Row::Mark, b"::")?;
        tokens.expect(Row::Ident, b"initialize_to_identity")?;
        let (brackets, close) = empty_brackets(tokens)?;
        expr_node(tokens, Expr::InitializeToIdentity(name, brackets, close), 0)
    }

    #[tactic(auto, unfolding(sy_reading::specs::Exprs::property))]
    fn property(&self, tokens: &mut Tokens<'_>, name: Qualified) -> Result<WithHeight<Expr>, Stop>
        requires { Nests self.now.below.depth (E.pre self.now.below.expr) (E.post self.now.below.expr) (S.pre self.now.below.stmt) (S.post self.now.below.stmt) }
        ensures { Reads (exprs.property (read_expr self.now.below.depth) (read_stmt self.now.below.depth) name tokens.old.rest.now) result tokens.new.rest.now }
    {
        tokens.expect(Row::Mark, b"::")?;
        if tokens.sees(Row::Ident, b"queue") {
            self.in_order(tokens, name)
        } else {
            self.initialize_to_identity(tokens, name)
        }
    }

    #[tactic(auto, unfolding(sy_reading::specs::Exprs::group_barrier))]
    fn group_barrier(
        &self,
        tokens: &mut Tokens<'_>,
        name: Qualified,
    ) -> Result<WithHeight<Expr>, Stop>
        requires { Nests self.now.below.depth (E.pre self.now.below.expr) (E.post self.now.below.expr) (S.pre self.now.below.stmt) (S.post self.now.below.stmt) }
        ensures { Reads (exprs.group_barrier (read_expr self.now.below.depth) (read_stmt self.now.below.depth) name tokens.old.rest.now) result tokens.new.rest.now }
    {
        let ((inner, height), close) = self.below.parenthesis(tokens)?;
        let tree = Expr::GroupBarrier(name, Boxed::new(tokens.alloc, inner)?, close);
        expr_node(tokens, tree, height)
    }

    #[tactic(auto, unfolding(sy_reading::specs::Exprs::error_code))]
    fn error_code(&self, tokens: &mut Tokens<'_>, name: Qualified) -> Result<WithHeight<Expr>, Stop>
        requires { Nests self.now.below.depth (E.pre self.now.below.expr) (E.post self.now.below.expr) (S.pre self.now.below.stmt) (S.post self.now.below.stmt) }
        ensures { Reads (exprs.error_code (read_expr self.now.below.depth) (read_stmt self.now.below.depth) name tokens.old.rest.now) result tokens.new.rest.now }
    {
        tokens.expect(Row::Mark, b"::")?;
        let error = tokens.expect_row(Row::Ident)?;
        let error = Boxed::new(tokens.alloc, error)?;
        expr_node(tokens, Expr::ErrorCode(name, error), 0)
    }

    #[tactic(auto, unfolding(sy_reading::specs::Exprs::maybe_integral))]
    fn maybe_integral(&self, tokens: &mut Tokens<'_>) -> Result<Option<IntegerType>, Stop>
        requires { Nests self.now.below.depth (E.pre self.now.below.expr) (E.post self.now.below.expr) (S.pre self.now.below.stmt) (S.post self.now.below.stmt) }
        ensures { Reads (exprs.maybe_integral (read_expr self.now.below.depth) (read_stmt self.now.below.depth) tokens.old.rest.now) result tokens.new.rest.now }
    {
        if tokens.sees(Row::Mark, b">") {
            Ok(None)
        } else {
            let found = integral(tokens)?;
            Ok(Some(found))
        }
    }

    #[tactic(auto, unfolding(sy_reading::specs::Exprs::function_object))]
    fn function_object(
        &self,
        tokens: &mut Tokens<'_>,
        name: Qualified,
        function: FunctionObject,
    ) -> Result<WithHeight<Expr>, Stop>
        requires { Nests self.now.below.depth (E.pre self.now.below.expr) (E.post self.now.below.expr) (S.pre self.now.below.stmt) (S.post self.now.below.stmt) }
        ensures { Reads (exprs.function_object (read_expr self.now.below.depth) (read_stmt self.now.below.depth) name function tokens.old.rest.now) result tokens.new.rest.now }
    {
        tokens.expect(Row::Mark, b"<")?;
        let kind = self.maybe_integral(tokens)?;
        tokens.expect(Row::Mark, b">")?;
        let (brackets, close) = empty_brackets(tokens)?;
        let tree = Expr::FunctionObject(name, function, kind, brackets, close);
        expr_node(tokens, tree, 0)
    }

    #[tactic(auto, unfolding(sy_reading::specs::Exprs::library_call))]
    fn library_call(
        &self,
        tokens: &mut Tokens<'_>,
        name: Qualified,
        function: LibraryFunction,
    ) -> Result<WithHeight<Expr>, Stop>
        requires { Nests self.now.below.depth (E.pre self.now.below.expr) (E.post self.now.below.expr) (S.pre self.now.below.stmt) (S.post self.now.below.stmt) }
        ensures { Reads (exprs.library_call (read_expr self.now.below.depth) (read_stmt self.now.below.depth) name function tokens.old.rest.now) result tokens.new.rest.now }
    {
        tokens.expect(Row::Mark, b"(")?;
        let items = self.below.arguments(tokens, b")")?;
        let ((items, height), close) = beside(items, tokens.expect(Row::Mark, b")"))?;
        let tree = Expr::LibraryCall(name, function, items, close);
        expr_node(tokens, tree, height)
    }

    /// A name of the library that is no access tag, no function object and no function with a value.
    #[tactic(auto, unfolding(sy_reading::specs::Exprs::other_name))]
    fn other_name(
        &self,
        tokens: &mut Tokens<'_>,
        name: Qualified,
        text: &[u8],
    ) -> Result<WithHeight<Expr>, Stop>
        requires { Nests self.now.below.depth (E.pre self.now.below.expr) (E.post self.now.below.expr) (S.pre self.now.below.stmt) (S.post self.now.below.stmt) }
        ensures { Reads (exprs.other_name (read_expr self.now.below.depth) (read_stmt self.now.below.depth) name text.now tokens.old.rest.now) result tokens.new.rest.now }
    {
        if text == b"group_barrier".as_slice() {
            self.group_barrier(tokens, name)
        } else if text == b"property".as_slice() {
            self.property(tokens, name)
        } else if text == b"errc".as_slice() {
            self.error_code(tokens, name)
        } else {
            self.construct(tokens, name, text)
        }
    }

    #[tactic(auto, unfolding(sy_reading::specs::Exprs::library_by))]
    fn library_by(
        &self,
        tokens: &mut Tokens<'_>,
        name: Qualified,
        text: &[u8],
    ) -> Result<WithHeight<Expr>, Stop>
        requires { Nests self.now.below.depth (E.pre self.now.below.expr) (E.post self.now.below.expr) (S.pre self.now.below.stmt) (S.post self.now.below.stmt) }
        ensures { Reads (exprs.library_by (read_expr self.now.below.depth) (read_stmt self.now.below.depth) name text.now tokens.old.rest.now) result tokens.new.rest.now }
    {
        if let Some(tag) = tag_of(text) {
            return expr_node(tokens, Expr::AccessTag(name, tag), 0);
        }
        if let Some(function) = object_of(text) {
            return self.function_object(tokens, name, function);
        }
        match function_of(text) {
            Some(function) => self.library_call(tokens, name, function),
            None => self.other_name(tokens, name, text),
        }
    }

    #[tactic(auto, unfolding(sy_reading::specs::Exprs::library))]
    fn library(&self, tokens: &mut Tokens<'_>) -> Result<WithHeight<Expr>, Stop>
        requires { Nests self.now.below.depth (E.pre self.now.below.expr) (E.post self.now.below.expr) (S.pre self.now.below.stmt) (S.post self.now.below.stmt) }
        ensures { Reads (exprs.library (read_expr self.now.below.depth) (read_stmt self.now.below.depth) tokens.old.rest.now) result tokens.new.rest.now }
    {
        let (namespace, name) = tokens.expect_name(b"sycl")?;
        self.library_by(tokens, qualified_name(namespace, &name), name.text.items())
    }

    /// A literal, a name, a call, an expression in parentheses, or what begins with a word of a type or a name of the library.
    #[tactic(auto, unfolding(sy_reading::specs::Exprs::primary))]
    pub fn primary(&self, tokens: &mut Tokens<'_>) -> Result<WithHeight<Expr>, Stop>
        requires { Nests self.now.below.depth (E.pre self.now.below.expr) (E.post self.now.below.expr) (S.pre self.now.below.stmt) (S.post self.now.below.stmt) }
        ensures { Reads (exprs.primary (read_expr self.now.below.depth) (read_stmt self.now.below.depth) tokens.old.rest.now) result tokens.new.rest.now }
    {
        if tokens.sees_row(Row::Int) {
            let literal = tokens.expect_row(Row::Int)?;
            expr_node(tokens, Expr::Integer(literal), 0)
        } else if tokens.sees_row(Row::Char) {
            let literal = tokens.expect_row(Row::Char)?;
            expr_node(tokens, Expr::Character(literal), 0)
        } else if tokens.sees_row(Row::Reserved) {
            self.reserved_primary(tokens)
        } else if tokens.sees(Row::Mark, b"(") {
            self.parenthesis_expr(tokens)
        } else if tokens.sees_namespace(b"sycl") {
            self.library(tokens)
        } else {
            self.named_primary(tokens)
        }
    }
}
