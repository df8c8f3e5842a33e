//! The rules of declarations.

ghost use Rattle.std.specs.Prelude.{◌≡◌, [], length};
ghost use Rattle.sy_reading.specs.Input as input;
ghost use Rattle.sy_reading.specs.Reading.{read_expr, read_stmt};
ghost use Rattle.sy_cursor.specs.Reads.{Reads};
ghost use Rattle.sy_grammar.specs.Nests.{Nests};
ghost use Rattle.sy_reading.specs.Stmts as stmts;
ghost use Rattle.sy_decls.specs.StandardNames as names;

use sqlite_items::Items;
use sy_cursor::{
    Stop, Tokens, WithHeight, beside, const_specifier, expect_close, expect_open, integral,
    object_type, qualified_name, type_specifier,
};
use sy_grammar::Grammar;
use sy_lex::Row;
use sy_tree::{
    Argument, Brackets, Declaration, Declarator, Expr, Initializer, Lexeme, Qualified, Stmt,
};

/// The rules of declarations, over the parsers of what stands below.
#[derive(Clone, Copy)]
pub struct Declarations<E, S> {
    pub below: Grammar<E, S>,
}

impl<
    E: Fn(&mut Tokens<'_>, usize, u8) -> Result<WithHeight<Expr>, Stop>,
    S: Fn(&mut Tokens<'_>, usize) -> Result<WithHeight<Stmt>, Stop>,
> Declarations<E, S> {
    #[tactic(auto, unfolding(sy_reading::specs::Stmts::bracketed_declarator))]
    fn bracketed_declarator(
        &self,
        tokens: &mut Tokens<'_>,
        name: Lexeme,
    ) -> Result<WithHeight<Declarator>, Stop>
        requires { Nests self.now.below.depth (E.pre self.now.below.expr) (E.post self.now.below.expr) (S.pre self.now.below.stmt) (S.post self.now.below.stmt) }
        ensures { Reads (stmts.bracketed_declarator (read_expr self.now.below.depth) (read_stmt self.now.below.depth) name tokens.old.rest.now) result tokens.new.rest.now }
    {
        let (name, (brackets, open)) = beside(name, expect_open(tokens))?;
        let (name, value) = beside(name, self.below.sub_expr(tokens, 1))?;
        let ((name, value), close) = beside((name, value), expect_close(tokens, brackets))?;
        let (value, height) = value;
        let declarator = Declarator::Bracketed(name, brackets, open, value, close);
        Ok((declarator, height))
    }

    #[tactic(auto, unfolding(sy_reading::specs::Stmts::equal_declarator))]
    fn equal_declarator(
        &self,
        tokens: &mut Tokens<'_>,
        name: Lexeme,
    ) -> Result<WithHeight<Declarator>, Stop>
        requires { Nests self.now.below.depth (E.pre self.now.below.expr) (E.post self.now.below.expr) (S.pre self.now.below.stmt) (S.post self.now.below.stmt) }
        ensures { Reads (stmts.equal_declarator (read_expr self.now.below.depth) (read_stmt self.now.below.depth) name tokens.old.rest.now) result tokens.new.rest.now }
    {
        let (name, spot) = beside(name, tokens.expect(Row::Mark, b"="))?;
        let (name, (value, height)) = beside(name, self.below.sub_expr(tokens, 1))?;
        Ok((Declarator::Equal(name, spot, value), height))
    }

    #[tactic(auto, unfolding(sy_reading::specs::Stmts::one_declarator))]
    fn one_declarator(&self, tokens: &mut Tokens<'_>) -> Result<WithHeight<Declarator>, Stop>
        requires { Nests self.now.below.depth (E.pre self.now.below.expr) (E.post self.now.below.expr) (S.pre self.now.below.stmt) (S.post self.now.below.stmt) }
        ensures { Reads (stmts.one_declarator (read_expr self.now.below.depth) (read_stmt self.now.below.depth) tokens.old.rest.now) result tokens.new.rest.now }
    {
        let name = tokens.expect_row(Row::Ident)?;
        if tokens.sees(Row::Mark, b"=") {
            self.equal_declarator(tokens, name)
        } else if tokens.sees(Row::Mark, b"(") || tokens.sees(Row::Mark, b"{") {
            self.bracketed_declarator(tokens, name)
        } else {
            Ok((Declarator::Uninitialized(name), 0))
        }
    }

    fn declarator_list(
        &self,
        tokens: &mut Tokens<'_>,
    ) -> Result<WithHeight<Items<Declarator>>, Stop>
        requires { Nests self.now.below.depth (E.pre self.now.below.expr) (E.post self.now.below.expr) (S.pre self.now.below.stmt) (S.post self.now.below.stmt) }
        ensures { Reads (input.comma_list_from (stmts.one_declarator (read_expr self.now.below.depth) (read_stmt self.now.below.depth)) (length tokens.old.rest.now) [] 0 tokens.old.rest.now) result tokens.new.rest.now }
    {
        let mut items = Items::new(tokens.alloc);
        let mut height = 0;
        for _turn in 0..tokens.count_left() {
            let (item, tall) = self.one_declarator(tokens)?;
            items.push(item)?;
            height = height.max(tall);
            if !tokens.eat(Row::Mark, b",") {
                return Ok((items, height));
            }
        }
        Err(Stop::Grammar)
    }

    /// A declaration of integers, up to its `;`.
    #[tactic(auto, unfolding(sy_reading::specs::Stmts::integers))]
    pub fn integers(&self, tokens: &mut Tokens<'_>) -> Result<WithHeight<Declaration>, Stop>
        requires { Nests self.now.below.depth (E.pre self.now.below.expr) (E.post self.now.below.expr) (S.pre self.now.below.stmt) (S.post self.now.below.stmt) }
        ensures { Reads (stmts.integers (read_expr self.now.below.depth) (read_stmt self.now.below.depth) tokens.old.rest.now) result tokens.new.rest.now }
    {
        let specifier = const_specifier(tokens)?;
        let of = type_specifier(tokens)?;
        let items = self.declarator_list(tokens)?;
        let ((items, height), end) = beside(items, tokens.expect(Row::Mark, b";"))?;
        Ok((Declaration::Integers(specifier, of, items, end), height))
    }

    /// The arguments of an initializer: none only in braces.
    #[tactic(auto, unfolding(sy_reading::specs::Stmts::direct_arguments))]
    fn direct_arguments(
        &self,
        tokens: &mut Tokens<'_>,
        brackets: Brackets,
    ) -> Result<WithHeight<Items<Argument>>, Stop>
        requires { Nests self.now.below.depth (E.pre self.now.below.expr) (E.post self.now.below.expr) (S.pre self.now.below.stmt) (S.post self.now.below.stmt) }
        ensures { Reads (stmts.direct_arguments (read_expr self.now.below.depth) (read_stmt self.now.below.depth) brackets tokens.old.rest.now) result tokens.new.rest.now }
    {
        match brackets {
            Brackets::Parentheses => self.below.argument_list(tokens),
            Brackets::Braces => self.below.arguments(tokens, b"}"),
        }
    }

    #[tactic(auto, unfolding(sy_reading::specs::Stmts::direct_initializer))]
    fn direct_initializer(&self, tokens: &mut Tokens<'_>) -> Result<WithHeight<Initializer>, Stop>
        requires { Nests self.now.below.depth (E.pre self.now.below.expr) (E.post self.now.below.expr) (S.pre self.now.below.stmt) (S.post self.now.below.stmt) }
        ensures { Reads (stmts.direct_initializer (read_expr self.now.below.depth) (read_stmt self.now.below.depth) tokens.old.rest.now) result tokens.new.rest.now }
    {
        let (brackets, open) = expect_open(tokens)?;
        let items = self.direct_arguments(tokens, brackets)?;
        let ((items, height), close) = beside(items, expect_close(tokens, brackets))?;
        Ok((Initializer::Direct(brackets, open, items, close), height))
    }

    #[tactic(auto, unfolding(sy_reading::specs::Stmts::maybe_initializer))]
    fn maybe_initializer(
        &self,
        tokens: &mut Tokens<'_>,
    ) -> Result<WithHeight<Option<Initializer>>, Stop>
        requires { Nests self.now.below.depth (E.pre self.now.below.expr) (E.post self.now.below.expr) (S.pre self.now.below.stmt) (S.post self.now.below.stmt) }
        ensures { Reads (stmts.maybe_initializer (read_expr self.now.below.depth) (read_stmt self.now.below.depth) tokens.old.rest.now) result tokens.new.rest.now }
    {
        if tokens.sees(Row::Mark, b"=") {
            let spot = tokens.expect(Row::Mark, b"=")?;
            let (value, height) = self.below.sub_expr(tokens, 1)?;
            Ok((Some(Initializer::Copy(spot, value)), height))
        } else if tokens.sees(Row::Mark, b"(") || tokens.sees(Row::Mark, b"{") {
            let (initializer, height) = self.direct_initializer(tokens)?;
            Ok((Some(initializer), height))
        } else {
            Ok((None, 0))
        }
    }

    /// A declaration of an object of the library, up to its `;`.
    #[tactic(auto, unfolding(sy_reading::specs::Stmts::object_declaration))]
    pub fn object_declaration(
        &self,
        tokens: &mut Tokens<'_>,
    ) -> Result<WithHeight<Declaration>, Stop>
        requires { Nests self.now.below.depth (E.pre self.now.below.expr) (E.post self.now.below.expr) (S.pre self.now.below.stmt) (S.post self.now.below.stmt) }
        ensures { Reads (stmts.object_declaration (read_expr self.now.below.depth) (read_stmt self.now.below.depth) tokens.old.rest.now) result tokens.new.rest.now }
    {
        let object = object_type(tokens)?;
        let (object, name) = beside(object, tokens.expect_row(Row::Ident))?;
        let ((object, name), initializer) = beside((object, name), self.maybe_initializer(tokens))?;
        let ((object, name, initializer), end) = beside(
            (object, name, initializer),
            tokens.expect(Row::Mark, b";"),
        )?;
        let (initializer, height) = initializer;
        Ok((Declaration::Object(object, name, initializer, end), height))
    }

    #[tactic(auto, unfolding(sy_reading::specs::Stmts::integer_vector))]
    fn integer_vector(
        &self,
        tokens: &mut Tokens<'_>,
        vector: Qualified,
    ) -> Result<WithHeight<Declaration>, Stop>
        requires { Nests self.now.below.depth (E.pre self.now.below.expr) (E.post self.now.below.expr) (S.pre self.now.below.stmt) (S.post self.now.below.stmt) }
        ensures { Reads (stmts.integer_vector (read_expr self.now.below.depth) (read_stmt self.now.below.depth) vector tokens.old.rest.now) result tokens.new.rest.now }
    {
        let element = integral(tokens)?;
        tokens.expect(Row::Mark, b">")?;
        let name = tokens.expect_row(Row::Ident)?;
        let (name, initializer) = beside(name, self.maybe_initializer(tokens))?;
        let ((name, initializer), end) = beside(
            (name, initializer),
            tokens.expect(Row::Mark, b";"),
        )?;
        let (initializer, height) = initializer;
        let declaration = Declaration::Vector(vector, element, name, initializer, end);
        Ok((declaration, height))
    }

    #[tactic(auto, unfolding(sy_reading::specs::Stmts::device_vector))]
    fn device_vector(
        &self,
        tokens: &mut Tokens<'_>,
        vector: Qualified,
    ) -> Result<WithHeight<Declaration>, Stop>
        requires { Nests self.now.below.depth (E.pre self.now.below.expr) (E.post self.now.below.expr) (S.pre self.now.below.stmt) (S.post self.now.below.stmt) }
        ensures { Reads (stmts.device_vector (read_expr self.now.below.depth) (read_stmt self.now.below.depth) vector tokens.old.rest.now) result tokens.new.rest.now }
    {
        tokens.within(b"sycl", b"device")?;
        tokens.expect(Row::Mark, b">")?;
        let name = tokens.expect_row(Row::Ident)?;
        let (name, initializer) = beside(name, self.maybe_initializer(tokens))?;
        let ((name, initializer), end) = beside(
            (name, initializer),
            tokens.expect(Row::Mark, b";"),
        )?;
        let (initializer, height) = initializer;
        let declaration = Declaration::DeviceVector(vector, name, initializer, end);
        Ok((declaration, height))
    }

    #[tactic(auto, unfolding(sy_reading::specs::Stmts::thread_vector))]
    fn thread_vector(
        &self,
        tokens: &mut Tokens<'_>,
        vector: Qualified,
    ) -> Result<WithHeight<Declaration>, Stop>
        requires { Nests self.now.below.depth (E.pre self.now.below.expr) (E.post self.now.below.expr) (S.pre self.now.below.stmt) (S.post self.now.below.stmt) }
        ensures { Reads (stmts.thread_vector (read_expr self.now.below.depth) (read_stmt self.now.below.depth) vector tokens.old.rest.now) result tokens.new.rest.now }
    {
        tokens.within(b"std", b"thread")?;
        tokens.expect(Row::Mark, b">")?;
        let name = tokens.expect_row(Row::Ident)?;
        let (name, end) = beside(name, tokens.expect(Row::Mark, b";"))?;
        Ok((Declaration::ThreadVector(vector, name, end), 0))
    }

    #[tactic(auto, unfolding(sy_reading::specs::Stmts::vector))]
    fn vector(
        &self,
        tokens: &mut Tokens<'_>,
        name: Qualified,
    ) -> Result<WithHeight<Declaration>, Stop>
        requires { Nests self.now.below.depth (E.pre self.now.below.expr) (E.post self.now.below.expr) (S.pre self.now.below.stmt) (S.post self.now.below.stmt) }
        ensures { Reads (stmts.vector (read_expr self.now.below.depth) (read_stmt self.now.below.depth) name tokens.old.rest.now) result tokens.new.rest.now }
    {
        tokens.expect(Row::Mark, b"<")?;
        if tokens.sees_namespace(b"std") {
            self.thread_vector(tokens, name)
        } else if tokens.sees_namespace(b"sycl") {
            self.device_vector(tokens, name)
        } else {
            self.integer_vector(tokens, name)
        }
    }

    #[tactic(auto, unfolding(sy_reading::specs::Stmts::thread))]
    fn thread(
        &self,
        tokens: &mut Tokens<'_>,
        name: Qualified,
    ) -> Result<WithHeight<Declaration>, Stop>
        requires { Nests self.now.below.depth (E.pre self.now.below.expr) (E.post self.now.below.expr) (S.pre self.now.below.stmt) (S.post self.now.below.stmt) }
        ensures { Reads (stmts.thread (read_expr self.now.below.depth) (read_stmt self.now.below.depth) name tokens.old.rest.now) result tokens.new.rest.now }
    {
        let variable = tokens.expect_row(Row::Ident)?;
        let (variable, (brackets, _open)) = beside(variable, expect_open(tokens))?;
        let (variable, lambda) = beside(variable, self.below.one_lambda(tokens))?;
        let ((variable, lambda), _close) = beside(
            (variable, lambda),
            expect_close(tokens, brackets),
        )?;
        let ((variable, lambda), end) = beside((variable, lambda), tokens.expect(Row::Mark, b";"))?;
        let (lambda, height) = lambda;
        let declaration = Declaration::Thread(name, variable, brackets, lambda, end);
        Ok((declaration, height))
    }

    /// What that name of the library of C++ declares.
    #[tactic(auto, unfolding(crate::specs::StandardNames::standard_by))]
    fn standard_by(
        &self,
        tokens: &mut Tokens<'_>,
        name: Qualified,
        text: &[u8],
    ) -> Result<WithHeight<Declaration>, Stop>
        requires { Nests self.now.below.depth (E.pre self.now.below.expr) (E.post self.now.below.expr) (S.pre self.now.below.stmt) (S.post self.now.below.stmt) }
        ensures { Reads (names.standard_by (read_expr self.now.below.depth) (read_stmt self.now.below.depth) name text.now tokens.old.rest.now) result tokens.new.rest.now }
    {
        if text == b"vector".as_slice() {
            self.vector(tokens, name)
        } else if text == b"thread".as_slice() {
            self.thread(tokens, name)
        } else {
            Err(tokens.refusal())
        }
    }

    /// A declaration whose type is of the library of C++.
    #[tactic(auto, unfolding(sy_reading::specs::Stmts::standard_declaration, crate::specs::StandardNames::standard_by))]
    pub fn standard_declaration(
        &self,
        tokens: &mut Tokens<'_>,
    ) -> Result<WithHeight<Declaration>, Stop>
        requires { Nests self.now.below.depth (E.pre self.now.below.expr) (E.post self.now.below.expr) (S.pre self.now.below.stmt) (S.post self.now.below.stmt) }
        ensures { Reads (stmts.standard_declaration (read_expr self.now.below.depth) (read_stmt self.now.below.depth) tokens.old.rest.now) result tokens.new.rest.now }
    {
        let (namespace, name) = tokens.expect_name(b"std")?;
        self.standard_by(tokens, qualified_name(namespace, &name), name.text.items())
    }
}
