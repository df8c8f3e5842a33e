//! Names of the library written out, as the grammar has them.

ghost use Rattle.std.specs.Prelude.{◌≡◌, ◌++◌, [], ◌∷◌, ◌<◌, length, IsTrue, IfOk, OnOk, OnSome, MatchOption, codes, ◌&&◌, ◌||◌, not, if◌then◌else◌};
ghost use Rattle.std.specs.List.{list_any};
ghost use Rattle.std.specs.Str.{bytes_eq};
ghost use Rattle.sy_tree.specs.Qualification as spec;
ghost use Rattle.sy_punit.specs.Qualifying.{drops_std, with_namespace_if, type_names, value_names, function_names};

use std::alloc::{AllocError, Global};
use std::collections::VecDeque;
use sy_lex::{Row, Text, Token, Word};

macro_rules! is_one_of {
    ($text:expr; $($word:literal),+) => {
        $($text == $word.as_slice())||+
    };
}

fn is_std(word: &Word) -> bool
    ensures { result ≡ spec.is_std word.now }
{
    matches!(word.row, Row::Ident) && word.text.items() == b"std".as_slice()
}

fn is_scope(word: &Word) -> bool
    ensures { result ≡ spec.is_scope word.now }
{
    matches!(word.row, Row::Mark) && word.text.items() == b"::".as_slice()
}

fn is_selector(word: &Word) -> bool
    ensures { result ≡ spec.is_selector word.now }
{
    let text = word.text.items();
    matches!(word.row, Row::Mark) && is_one_of!(text; b".", b"::")
}

fn is_using(word: &Word) -> bool
    ensures { result ≡ spec.is_using word.now }
{
    matches!(word.row, Row::Reserved) && word.text.items() == b"using".as_slice()
}

fn is_type_word(word: &Word) -> bool
    ensures { result ≡ spec.is_type_word word.now }
{
    let text = word.text.items();
    matches!(word.row, Row::Reserved)
        && is_one_of!(
            text;
            b"size_t",
            b"int8_t",
            b"int16_t",
            b"int32_t",
            b"int64_t",
            b"uint8_t",
            b"uint16_t",
            b"uint32_t",
            b"uint64_t"
        )
}

fn is_type_name(text: &[u8]) -> bool
    ensures { result ≡ list_any (bytes_eq text.now) type_names }
{
    is_one_of!(
        text;
        b"buffer",
        b"accessor",
        b"host_accessor",
        b"local_accessor",
        b"queue",
        b"device",
        b"context",
        b"handler",
        b"event",
        b"range",
        b"id",
        b"nd_range",
        b"item",
        b"nd_item",
        b"group",
        b"group_barrier"
    )
}

fn is_value_name(text: &[u8]) -> bool
    ensures { result ≡ list_any (bytes_eq text.now) value_names }
{
    is_one_of!(
        text;
        b"read_only",
        b"write_only",
        b"read_write",
        b"no_init",
        b"property",
        b"info",
        b"exception",
        b"errc"
    )
}

fn is_function_name(text: &[u8]) -> bool
    ensures { result ≡ list_any (bytes_eq text.now) function_names }
{
    is_one_of!(
        text;
        b"reduction",
        b"plus",
        b"multiplies",
        b"minimum",
        b"maximum",
        b"bit_and",
        b"bit_or",
        b"bit_xor",
        b"reduce_over_group",
        b"exclusive_scan_over_group",
        b"inclusive_scan_over_group",
        b"group_broadcast"
    )
}

#[tactic(auto, using(crate::proofs::KeepLemmas::library_name))]
fn is_library_name(word: &Word) -> bool
    ensures { result ≡ spec.is_library_name word.now }
{
    let text = word.text.items();
    matches!(word.row, Row::Ident)
        && (is_type_name(text) || is_value_name(text) || is_function_name(text))
}

/// Whether a name gets its namespace.
fn gets_namespace(used: bool, selected: bool, word: &Word) -> bool
    ensures { result ≡ used && not selected && spec.is_library_name word.now }
{
    used && !selected && is_library_name(word)
}

/// Whether a `using` stands before what follows the word.
fn is_used(used: bool, word: &Word) -> bool
    ensures { result ≡ used || spec.is_using word.now }
{
    used || is_using(word)
}

/// A token of its own with that row and text, at the place of another.
fn beside(alloc: Global, token: &Token, row: Row, text: &[u8]) -> Result<Token, AllocError>
    ensures { IfOk result (λ t. t ≡ spec.beside token.now (record { row = row; text = text.now })) }
{
    let text = Text::copied(alloc, text)?;
    Ok(Token {
        word: Word { row, text },
        from: token.from,
        to: token.to,
        spot: token.spot,
    })
}

/// Puts a token behind the others, with its namespace before it.
fn keep_with_namespace(alloc: Global, out: &mut Vec<Token>, token: Token) -> Result<(), AllocError>
    ensures { OnOk result (out.new.items ≡ out.old.items ++ spec.with_namespace token) }
{
    let namespace = beside(alloc, &token, Row::Ident, b"sycl")?;
    let scope = beside(alloc, &token, Row::Mark, b"::")?;
    out.push(namespace)?;
    out.push(scope)?;
    out.push(token)?;
    Ok(())
}

/// Puts a token behind the others, with its namespace before it if it is to have one.
fn keep(alloc: Global, out: &mut Vec<Token>, token: Token, named: bool) -> Result<(), AllocError>
    ensures { OnOk result (out.new.items ≡ out.old.items ++ with_namespace_if named token) }
{
    if named {
        keep_with_namespace(alloc, out, token)
    } else {
        out.push(token)?;
        Ok(())
    }
}

/// Whether these are `std::` and a name of an integer type.
fn are_std_type(first: &Token, second: &Token, third: &Token) -> bool
    ensures { result ≡ spec.is_std first.now.word && spec.is_scope second.now.word && spec.is_type_word third.now.word }
{
    is_std(&first.word) && is_scope(&second.word) && is_type_word(&third.word)
}

/// Whether `std::` and a name of an integer type come next.
fn drops_std(rest: &[Token]) -> bool
    ensures { result ≡ drops_std rest.now }
{
    match rest {
        [first, second, third, ..] => are_std_type(first, second, third),
        _ => false,
    }
}

/// The same of tokens that leave their list one after the other.
fn std_leaves(rest: &VecDeque<Token>) -> bool
    ensures { result ≡ drops_std rest.now.items }
{
    rest.len() >= 3 && are_std_type(&rest[0], &rest[1], &rest[2])
}

/// Takes the next token that is kept. Where `std::` is dropped before it, it has the place of that `std`.
fn take_kept(rest: &mut VecDeque<Token>) -> Option<Token>
    ensures kept { MatchOption result (spec.without_std rest.old.items ≡ []) (λ t. spec.without_std rest.old.items ≡ t ∷ spec.without_std rest.new.items) }
    ensures fewer { OnSome result (length rest.new.items < length rest.old.items) }
{
    if !std_leaves(rest) {
        return rest.pop_front();
    }
    let std = rest.pop_front()?;
    let _scope = rest.pop_front()?;
    let name = rest.pop_front()?;
    Some(Token {
        word: name.word,
        from: std.from,
        to: std.to,
        spot: std.spot,
    })
}

/// Whether nothing is to be written out.
fn is_written_out(toks: &[Token]) -> bool
    ensures { IsTrue result → spec.qualified toks.now ≡ toks.now }
{
    let mut rest = toks;
    let mut used = false;
    let mut selected = false;
    while let [token, others @ ..] = rest {
        if drops_std(rest) || gets_namespace(used, selected, &token.word) {
            return false;
        }
        used = is_used(used, &token.word);
        selected = is_selector(&token.word);
        rest = others;
    }
    true
}

/// The tokens in a new list, with each name of the library written out.
fn write_out(alloc: Global, toks: Vec<Token>) -> Result<Vec<Token>, AllocError>
    ensures { IfOk result (λ v. v.items ≡ spec.qualified toks.items) }
{
    let mut out = Vec::with_capacity(alloc, toks.len())?;
    let mut rest = VecDeque::from(toks);
    let mut used = false;
    let mut selected = false;
    while let Some(token) = take_kept(&mut rest) {
        let named = gets_namespace(used, selected, &token.word);
        used = is_used(used, &token.word);
        selected = is_selector(&token.word);
        keep(alloc, &mut out, token, named)?;
    }
    Ok(out)
}

/// The tokens of a source with each name of the library written out: `std::` is dropped before the name of an integer
/// type, and after `using namespace sycl;` the names of the library get their namespace. Where there is nothing to
/// write out, it is the same list.
pub fn qualify(alloc: Global, toks: Vec<Token>) -> Result<Vec<Token>, AllocError>
    ensures { IfOk result (λ v. v.items ≡ spec.qualified toks.items) }
{
    if is_written_out(toks.as_slice()) {
        Ok(toks)
    } else {
        write_out(alloc, toks)
    }
}
