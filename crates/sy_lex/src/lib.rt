//! Cuts a source text into tokens. Where several tokens fit, the longest counts; blanks and comments leave no trace.
#![tactic(auto)]

ghost use Rattle.std.specs.Prelude.{◌≡◌, ◌<◌, ◌≤◌, ◌+◌, ◌^◌, ◌++◌, [], ◌∷◌, length, IfOk, OnOk, IsErrOf};
ghost use Rattle.sy_lex.specs.Front.{step, after, token_at};
ghost use Rattle.sy_lex.specs.Tokens.{HasTokens, IsOnly, HasNoTokens, IsStuck};

mod few;
mod reserved;
mod scan;
#[cfg(test)]
mod tests;

use few::Few;
use scan::{Front, look};
use std::alloc::{AllocError, Global};
use std::marker::Model;
use sy_note::{Code, Diagnostic, FrontStop, Spot};

/// A row of the table of tokens. `Reserved` is a reserved word, and `Mark` a punctuator.
#[derive(Clone, Copy, PartialEq, Eq, Debug)]
pub enum Row {
    Ident,
    Reserved,
    Int,
    Char,
    Str,
    Include,
    Mark,
}

/// Where the bytes of a text lie: in a vector, or inside where they are few.
#[derive(Debug, Drop)]
enum Kept {
    Vector(Vec<u8>),
    Inside(Few),
}

/// The bytes of a token, as the source has them. Those of a short one take no allocation.
#[derive(Debug, Drop)]
pub struct Text {
    kept: Kept,
}

impl Model for Text {
    ghost use Rattle.std.specs.Prelude.{List, ℕ};
    ghost use Rattle.sy_lex.specs.Texts.{kept_bytes};

    ghost Value = { List ℕ };

    ghost view = { λ t. kept_bytes t.kept };
}

impl Text {
    pub fn of(items: Vec<u8>) -> Text
        ensures { result ≡ items.items }
    {
        Text {
            kept: Kept::Vector(items),
        }
    }

    /// The same bytes in a text of its own.
    pub fn copied(alloc: Global, bytes: &[u8]) -> Result<Text, AllocError>
        ensures { IfOk result (λ text. text ≡ bytes.now) }
    {
        let kept = match Few::of(bytes) {
            Some(few) => Kept::Inside(few),
            None => Kept::Vector(Vec::from_slice(alloc, bytes)?),
        };
        Ok(Text { kept })
    }

    pub fn items(&self) -> &[u8]
        ensures { result.now ≡ self.now }
    {
        match &self.kept {
            Kept::Vector(items) => items.as_slice(),
            Kept::Inside(items) => items.as_slice(),
        }
    }
}

/// What a token is: its row and its bytes.
#[derive(Debug, Drop)]
pub struct Word {
    pub row: Row,
    pub text: Text,
}

/// A token, with the place of its first byte: `from` and `to` count the bytes of the source that stand before it and
/// before what follows it.
#[derive(Debug, Drop)]
pub struct Token {
    pub word: Word,
    pub from: u32,
    pub to: u32,
    pub spot: Spot,
}

/// The place after a byte.
fn after_byte(spot: Spot, b: u8) -> Spot
    requires line { spot.line + 1 < 2 ^ 32 }
    requires column { spot.column + 1 < 2 ^ 32 }
    ensures value { result ≡ step spot b }
    ensures line { result.line ≤ spot.line + 1 }
    ensures column { result.column ≤ spot.column + 1 }
{
    if b == b'\n' {
        Spot {
            line: spot.line + 1,
            column: 1,
        }
    } else {
        Spot {
            line: spot.line,
            column: spot.column + 1,
        }
    }
}

/// The place after some bytes.
fn advance(spot: Spot, bytes: &[u8]) -> Spot
    requires line { spot.line + length bytes.now < 2 ^ 32 }
    requires column { spot.column + length bytes.now < 2 ^ 32 }
    ensures value { result ≡ after spot bytes.now }
    ensures line { result.line ≤ spot.line + length bytes.now }
    ensures column { result.column ≤ spot.column + length bytes.now }
{
    let mut at = spot;
    for b in bytes {
        at = after_byte(at, *b);
    }
    at
}

/// Copies the bytes of a token, and puts it behind the others.
fn keep(
    alloc: Global,
    out: &mut Vec<Token>,
    row: Row,
    front: &[u8],
    from: u32,
    spot: Spot,
) -> Result<(), AllocError>
    requires { from + length front.now < 2 ^ 32 }
    ensures { OnOk result (out.new.items ≡ out.old.items ++ token_at row front.now from spot ∷ []) }
{
    let text = Text::copied(alloc, front)?;
    let word = Word { row, text };
    let to = from + front.len() as u32;
    out.push(Token {
        word,
        from,
        to,
        spot,
    })?;
    Ok(())
}

/// The tokens of a source. Where it can't be cut into tokens, the diagnostic says [`Code::Lexical`] and names the place
/// at which nothing fits.
pub fn tokens(alloc: Global, bytes: &[u8]) -> Result<Vec<Token>, FrontStop>
    requires { length bytes.now ≤ 1048576 }
    ensures found { IfOk result (λ v. HasTokens bytes.now v.items) }
    ensures only { IfOk result (λ v. IsOnly bytes.now v.items) }
    ensures refused { (d : Diagnostic) → IsErrOf result (FrontStop.Refused d) → HasNoTokens bytes.now }
    ensures lexical { (d : Diagnostic) → IsErrOf result (FrontStop.Refused d) → d.code ≡ Code.Lexical }
    ensures place { (d : Diagnostic) → IsErrOf result (FrontStop.Refused d) → IsStuck bytes.now d.spot }
{
    let mut out = Vec::new(alloc);
    let mut rest = bytes;
    let mut from: u32 = 0;
    let mut spot = Spot::START;
    while !rest.is_empty() {
        match look(rest) {
            Front::Stuck => {
                return Err(FrontStop::Refused(Diagnostic {
                    spot,
                    code: Code::Lexical,
                }));
            }
            Front::Skip(len) => {
                let (front, others) = rest.split_at(len);
                spot = advance(spot, front);
                from += len as u32;
                rest = others;
            }
            Front::Found(row, len) => {
                let (front, others) = rest.split_at(len);
                match keep(alloc, &mut out, row, front, from, spot) {
                    Ok(()) => {}
                    Err(_) => return Err(FrontStop::Memory),
                }
                spot = advance(spot, front);
                from += len as u32;
                rest = others;
            }
        }
    }
    Ok(out)
}
