//! The bytes that a string literal stands for. (C++17, [lex.string])

ghost use Rattle.std.specs.Prelude.{◌≡◌, IfOk, drop};
ghost use Rattle.sy_rules.specs.Literals.{escaped, string_bytes_of};

use sqlite_items::Items;
use std::alloc::{AllocError, Global};

fn escaped(b: u8) -> u8
    ensures { result ≡ escaped b }
{
    match b {
        b'n' => 10,
        b't' => 9,
        b'r' => 13,
        b'0' => 0,
        _ => b,
    }
}

/// What follows the opening quote.
fn behind_quote(text: &[u8]) -> &[u8]
    ensures { result.now ≡ drop 1 text.now }
{
    match text {
        [] => text,
        [_, rest @ ..] => rest,
    }
}

/// The bytes that a string literal with its quotes stands for.
pub fn string_bytes(alloc: Global, text: &[u8]) -> Result<Items<u8>, AllocError>
    ensures { IfOk result (λ bytes. bytes ≡ string_bytes_of text.now) }
{
    let mut bytes = Items::new(alloc);
    let mut rest = behind_quote(text);
    while let [first, next, others @ ..] = rest {
        if *first == b'\\' {
            bytes.push(escaped(*next))?;
            rest = others;
        } else {
            bytes.push(*first)?;
            rest = &rest[1..];
        }
    }
    Ok(bytes)
}
