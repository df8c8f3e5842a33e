//! The parser of expressions, statements and blocks, which hold one another.
#![tactic(auto)]

ghost use Rattle.std.specs.Prelude.{◌≡◌, IfOk, IsErrOf};
ghost use Rattle.sy_note.specs.declared.Diagnostic.{Diagnostic};
ghost use Rattle.sy_tree.specs.Units.{IsExpression, IsBlock};
ghost use Rattle.sy_pexpr.specs.Runs.{IsOnlyExpression, IsOnlyBlock, HasNoExpression, HasNoBlock};

mod expressions;
mod for_loops;
mod recursion;
mod statements;

pub use recursion::{read_block, read_expr};
use std::alloc::Global;
use sy_cursor::{Stop, Tokens};
use sy_lex::Token;
use sy_note::{Code, Diagnostic, FrontStop, Spot};
use sy_tree::{Block, Expr};

/// The place behind a token.
fn place_after(token: &Token) -> Spot {
    let len = token.to.saturating_sub(token.from);
    Spot {
        line: token.spot.line,
        column: token.spot.column.saturating_add(len),
    }
}

/// That the tokens don't fit the grammar, at the one with so many left, or behind the last.
fn refusal(toks: &[Token], left: usize) -> Diagnostic
    ensures { result.code ≡ Code.Grammar }
{
    let spot = match toks.get(toks.len().saturating_sub(left)) {
        Some(token) => token.spot,
        None => match toks.last() {
            Some(token) => place_after(token),
            None => Spot::START,
        },
    };
    Diagnostic {
        spot,
        code: Code::Grammar,
    }
}

/// The expression that begins at `at` and is followed by what ends one, and the place after it. Where there is none,
/// the diagnostic names the token that doesn't fit.
pub fn expr(alloc: Global, toks: &[Token], at: usize) -> Result<(Expr, usize), FrontStop>
    ensures found { IfOk result (λ f. IsExpression toks.now at f.0 f.1) }
    ensures only { IfOk result (λ f. IsOnlyExpression toks.now at f.0 f.1) }
    ensures refused { (d : Diagnostic) → IsErrOf result (FrontStop.Refused d) → (d.code ≡ Code.Grammar) × HasNoExpression toks.now at }
{
    if at > toks.len() {
        return Err(FrontStop::Refused(refusal(toks, 0)));
    }
    let (_before, rest) = toks.split_at(at);
    let mut tokens = Tokens::new(alloc, rest);
    match read_expr(&mut tokens, 64, 1) {
        Ok((tree, _height)) => {
            if tokens.ends() {
                Ok((tree, toks.len().saturating_sub(tokens.count_left())))
            } else {
                Err(FrontStop::Refused(refusal(toks, tokens.count_left())))
            }
        }
        Err(Stop::Grammar) => Err(FrontStop::Refused(refusal(toks, tokens.count_left()))),
        Err(Stop::Memory) => Err(FrontStop::Memory),
    }
}

/// The block that begins at `at`, and the place after it. Where there is none, the diagnostic names the token that
/// doesn't fit.
pub fn block(alloc: Global, toks: &[Token], at: usize) -> Result<(Block, usize), FrontStop>
    ensures found { IfOk result (λ f. IsBlock toks.now at f.0 f.1) }
    ensures only { IfOk result (λ f. IsOnlyBlock toks.now at f.0 f.1) }
    ensures refused { (d : Diagnostic) → IsErrOf result (FrontStop.Refused d) → (d.code ≡ Code.Grammar) × HasNoBlock toks.now at }
{
    if at > toks.len() {
        return Err(FrontStop::Refused(refusal(toks, 0)));
    }
    let (_before, rest) = toks.split_at(at);
    let mut tokens = Tokens::new(alloc, rest);
    match read_block(&mut tokens) {
        Ok((tree, _height)) => Ok((tree, toks.len().saturating_sub(tokens.count_left()))),
        Err(Stop::Grammar) => Err(FrontStop::Refused(refusal(toks, tokens.count_left()))),
        Err(Stop::Memory) => Err(FrontStop::Memory),
    }
}
