//! What goes on with a primary expression: subscripts, calls of members, and steps behind it.

ghost use Rattle.sy_cursor.specs.Reads.{Reads};
ghost use Rattle.sy_postfix.specs.Brackets as brackets;
ghost use Rattle.sy_grammar.specs.Nests.{Nests};
ghost use Rattle.sy_reading.specs.Exprs as exprs;
ghost use Rattle.sy_reading.specs.Reading.{read_expr, read_stmt};

use sqlite_items::{Boxed, Items};
use sy_cursor::{
    Stop, Tokens, WithHeight, beside, maybe_boxed, maybe_template_argument, pair, step_of,
};
use sy_grammar::{Grammar, TURNS, binds, expr_node};
use sy_lex::Row;
use sy_note::Spot;
use sy_tree::{Argument, Expr, Lexeme, Stmt, TemplateArgument};

/// The rules of what goes on with a primary expression, over the parsers of what stands below.
#[derive(Clone, Copy)]
pub struct PostfixExpressions<E, S> {
    pub below: Grammar<E, S>,
}

/// The name of a member that is called, and its template argument.
type Member = (Boxed<Lexeme>, Option<Boxed<TemplateArgument>>);

#[tactic(auto, unfolding(crate::specs::Brackets::member_name))]
fn member_name(tokens: &mut Tokens<'_>) -> Result<Member, Stop>
    ensures { Reads (brackets.member_name tokens.old.rest.now) result tokens.new.rest.now }
{
    let name = tokens.expect_row(Row::Ident)?;
    let template = maybe_template_argument(tokens, name.text.items());
    let (name, template) = beside(name, template)?;
    let (template, name) = beside(template, Boxed::new(tokens.alloc, name))?;
    let (name, template) = beside(name, maybe_boxed(tokens.alloc, template))?;
    Ok((name, template))
}

impl<
    E: Fn(&mut Tokens<'_>, usize, u8) -> Result<WithHeight<Expr>, Stop>,
    S: Fn(&mut Tokens<'_>, usize) -> Result<WithHeight<Stmt>, Stop>,
> PostfixExpressions<E, S> {
    /// An expression in brackets, with their places.
    #[tactic(auto, unfolding(crate::specs::Brackets::subscript_index))]
    fn subscript_index(
        &self,
        tokens: &mut Tokens<'_>,
    ) -> Result<(WithHeight<Expr>, (Spot, Spot)), Stop>
        requires { Nests self.now.below.depth (E.pre self.now.below.expr) (E.post self.now.below.expr) (S.pre self.now.below.stmt) (S.post self.now.below.stmt) }
        ensures { Reads (brackets.subscript_index (read_expr self.now.below.depth) tokens.old.rest.now) result tokens.new.rest.now }
    {
        let spot = tokens.expect(Row::Mark, b"[")?;
        let inner = self.below.sub_expr(tokens, 1)?;
        let (inner, close) = beside(inner, tokens.expect(Row::Mark, b"]"))?;
        Ok((inner, (spot, close)))
    }

    #[tactic(auto, unfolding(sy_reading::specs::Exprs::subscript, crate::specs::Brackets::subscript_index))]
    fn subscript(
        &self,
        tokens: &mut Tokens<'_>,
        base: WithHeight<Expr>,
    ) -> Result<WithHeight<Expr>, Stop>
        requires { Nests self.now.below.depth (E.pre self.now.below.expr) (E.post self.now.below.expr) (S.pre self.now.below.stmt) (S.post self.now.below.stmt) }
        ensures { Reads (exprs.subscript (read_expr self.now.below.depth) (read_stmt self.now.below.depth) base tokens.old.rest.now) result tokens.new.rest.now }
    {
        let (base, (inner, (spot, close))) = beside(base, self.subscript_index(tokens))?;
        let (object, height) = base;
        let (index, tall) = inner;
        let (object, index) = pair(tokens.alloc, object, index)?;
        expr_node(
            tokens,
            Expr::Subscript(object, spot, index, close),
            height.max(tall),
        )
    }

    /// Arguments in parentheses, with the place of the parenthesis that closes.
    #[tactic(auto, unfolding(crate::specs::Brackets::call_arguments))]
    fn call_arguments(
        &self,
        tokens: &mut Tokens<'_>,
    ) -> Result<(WithHeight<Items<Argument>>, Spot), Stop>
        requires { Nests self.now.below.depth (E.pre self.now.below.expr) (E.post self.now.below.expr) (S.pre self.now.below.stmt) (S.post self.now.below.stmt) }
        ensures { Reads (brackets.call_arguments (read_expr self.now.below.depth) (read_stmt self.now.below.depth) tokens.old.rest.now) result tokens.new.rest.now }
    {
        tokens.expect(Row::Mark, b"(")?;
        let items = self.below.arguments(tokens, b")")?;
        beside(items, tokens.expect(Row::Mark, b")"))
    }

    /// The call of a member whose name has been read.
    #[tactic(auto, unfolding(crate::specs::Brackets::member_call, crate::specs::Brackets::call_arguments))]
    fn member_call(
        &self,
        tokens: &mut Tokens<'_>,
        base: WithHeight<Expr>,
        member: Member,
    ) -> Result<WithHeight<Expr>, Stop>
        requires { Nests self.now.below.depth (E.pre self.now.below.expr) (E.post self.now.below.expr) (S.pre self.now.below.stmt) (S.post self.now.below.stmt) }
        ensures { Reads (brackets.member_call (read_expr self.now.below.depth) (read_stmt self.now.below.depth) base member tokens.old.rest.now) result tokens.new.rest.now }
    {
        let ((base, member), (items, close)) = beside((base, member), self.call_arguments(tokens))?;
        let (object, height) = base;
        let (items, tall) = items;
        let (member, (object, items)) = beside(member, pair(tokens.alloc, object, items))?;
        let (name, template) = member;
        let tree = Expr::MemberCall(object, name, template, items, close);
        expr_node(tokens, tree, height.max(tall))
    }

    #[tactic(auto, unfolding(sy_reading::specs::Exprs::member))]
    fn member(
        &self,
        tokens: &mut Tokens<'_>,
        base: WithHeight<Expr>,
    ) -> Result<WithHeight<Expr>, Stop>
        requires { Nests self.now.below.depth (E.pre self.now.below.expr) (E.post self.now.below.expr) (S.pre self.now.below.stmt) (S.post self.now.below.stmt) }
        ensures { Reads (exprs.member (read_expr self.now.below.depth) (read_stmt self.now.below.depth) base tokens.old.rest.now) result tokens.new.rest.now }
    {
        let (base, _dot) = beside(base, tokens.expect(Row::Mark, b"."))?;
        let (base, member) = beside(base, member_name(tokens))?;
        self.member_call(tokens, base, member)
    }

    #[tactic(auto, unfolding(sy_reading::specs::Exprs::postfix_step))]
    fn postfix_step(
        &self,
        tokens: &mut Tokens<'_>,
        base: WithHeight<Expr>,
    ) -> Result<WithHeight<Expr>, Stop>
        requires { Nests self.now.below.depth (E.pre self.now.below.expr) (E.post self.now.below.expr) (S.pre self.now.below.stmt) (S.post self.now.below.stmt) }
        ensures { Reads (exprs.postfix_step (read_expr self.now.below.depth) (read_stmt self.now.below.depth) base tokens.old.rest.now) result tokens.new.rest.now }
    {
        match step_of(tokens.mark()) {
            None => Err(Stop::Grammar),
            Some(step) => {
                let (base, spot) = beside(base, tokens.advance())?;
                let (object, height) = base;
                let tree = Expr::Postfix(Boxed::new(tokens.alloc, object)?, spot, step);
                expr_node(tokens, tree, height)
            }
        }
    }

    #[tactic(auto, unfolding(sy_reading::specs::Exprs::postfix))]
    fn postfix(
        &self,
        tokens: &mut Tokens<'_>,
        base: WithHeight<Expr>,
    ) -> Result<WithHeight<Expr>, Stop>
        requires { Nests self.now.below.depth (E.pre self.now.below.expr) (E.post self.now.below.expr) (S.pre self.now.below.stmt) (S.post self.now.below.stmt) }
        ensures { Reads (exprs.postfix (read_expr self.now.below.depth) (read_stmt self.now.below.depth) base tokens.old.rest.now) result tokens.new.rest.now }
    {
        if tokens.sees(Row::Mark, b"[") {
            self.subscript(tokens, base)
        } else if tokens.sees(Row::Mark, b".") {
            self.member(tokens, base)
        } else {
            self.postfix_step(tokens, base)
        }
    }

    /// All that goes on with the primary expression that has been read.
    pub fn postfixes(
        &self,
        tokens: &mut Tokens<'_>,
        mut base: WithHeight<Expr>,
    ) -> Result<WithHeight<Expr>, Stop>
        requires { Nests self.now.below.depth (E.pre self.now.below.expr) (E.post self.now.below.expr) (S.pre self.now.below.stmt) (S.post self.now.below.stmt) }
        ensures { Reads (exprs.postfixes (read_expr self.now.below.depth) (read_stmt self.now.below.depth) 65 base tokens.old.rest.now) result tokens.new.rest.now }
    {
        for _turn in 0..TURNS {
            if binds(tokens) < 13 {
                return Ok(base);
            }
            base = self.postfix(tokens, base)?;
        }
        Err(Stop::Grammar)
    }
}
