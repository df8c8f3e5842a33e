//! How tightly a token binds what stands before it.

ghost use Rattle.std.specs.Prelude.{◌≡◌};
ghost use Rattle.sy_reading.specs.Exprs as exprs;

use sy_cursor::{Tokens, level, operator_of};

/// How tightly a mark binds what stands before it: 1 `?`, 2 to 11 the operators with two operands, 13 what goes on with
/// a primary expression, and 0 what doesn't go on with an expression.
#[tactic(auto, unfolding(sy_reading::specs::Exprs::binds_by))]
fn binds_by(text: &[u8]) -> u8
    ensures { result ≡ exprs.binds_by text.now }
{
    match operator_of(text) {
        Some(operator) => level(operator),
        None => {
            if text == b"?".as_slice() {
                1
            } else if text == b"(".as_slice()
                || text == b"[".as_slice()
                || text == b".".as_slice()
                || text == b"::".as_slice()
                || text == b"++".as_slice()
                || text == b"--".as_slice()
            {
                13
            } else {
                0
            }
        }
    }
}

/// How tightly the next token binds what stands before it.
#[tactic(auto, unfolding(sy_reading::specs::Exprs::binds))]
pub fn binds(tokens: &Tokens<'_>) -> u8
    ensures { result ≡ exprs.binds tokens.now.rest.now }
{
    binds_by(tokens.mark())
}
