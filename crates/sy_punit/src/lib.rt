//! The parser of whole sources: it writes out the names of the library, and reads the lines at the head, the constants
//! and the functions. Expressions and blocks are the crate's below.
#![tactic(auto)]

ghost use Rattle.std.specs.Prelude.{◌≡◌, IfOk, IsErrOf};
ghost use Rattle.sy_note.specs.declared.Diagnostic.{Diagnostic};
ghost use Rattle.sy_tree.specs.declared.tree.Unit.{Unit as SourceUnit};
ghost use Rattle.sy_tree.specs.Units.{IsUnit};

mod items;
mod names;
mod parameters;
#[cfg(test)]
mod tests;
mod unit;

use names::qualify;
use std::alloc::Global;
use sy_cursor::{Stop, Tokens};
use sy_lex::Token;
use sy_note::{Code, Diagnostic, FrontStop, Spot};
use sy_tree::Unit;
use unit::read_unit;

/// The place after a byte.
fn after_byte(spot: Spot, byte: u8) -> Spot {
    if byte == b'\n' {
        Spot {
            line: spot.line.saturating_add(1),
            column: 1,
        }
    } else {
        Spot {
            line: spot.line,
            column: spot.column.saturating_add(1),
        }
    }
}

/// The place after the last byte.
fn end_of(bytes: &[u8]) -> Spot {
    let mut spot = Spot::START;
    for byte in bytes {
        spot = after_byte(spot, *byte);
    }
    spot
}

/// Where the tokens don't fit: at the next one, or at the end of the text.
fn refusal(bytes: &[u8], rest: &[Token]) -> FrontStop
    ensures { (d : Diagnostic) × (result ≡ FrontStop.Refused d) × (d.code ≡ Code.Grammar) }
{
    let spot = match rest {
        [] => end_of(bytes),
        [first, ..] => first.spot,
    };
    FrontStop::Refused(Diagnostic {
        spot,
        code: Code::Grammar,
    })
}

/// The unit that the tokens of a source are. Where they are none, the diagnostic says [`Code::Grammar`] and names the
/// furthest token at which nothing went on, or the end of the text, which is what the bytes are for.
pub fn parse(alloc: Global, bytes: &[u8], toks: Vec<Token>) -> Result<Unit, FrontStop>
    ensures found { IfOk result (λ u. IsUnit toks.items u) }
    ensures only { IfOk result (λ u. (v : SourceUnit) → IsUnit toks.items v → v ≡ u) }
    ensures refused { (d : Diagnostic) → IsErrOf result (FrontStop.Refused d) → (d.code ≡ Code.Grammar) × ((v : SourceUnit) → IsUnit toks.items v → ⊥) }
{
    let qualified = match qualify(alloc, toks) {
        Ok(qualified) => qualified,
        Err(_) => return Err(FrontStop::Memory),
    };
    let mut tokens = Tokens::new(alloc, qualified.as_slice());
    match read_unit(&mut tokens) {
        Ok(unit) => Ok(unit),
        Err(Stop::Grammar) => Err(refusal(bytes, tokens.rest)),
        Err(Stop::Memory) => Err(FrontStop::Memory),
    }
}
