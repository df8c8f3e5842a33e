//! What stands at the front of a text, by its first byte.

ghost use Rattle.std.specs.Prelude.{◌≡◌, ◌<◌, ◌≤◌, ◌+◌, length, IfSome};
ghost use Rattle.std.specs.List.{prefix_len};
ghost use Rattle.sy_lex.specs.Rows as rows;
ghost use Rattle.sy_lex.specs.Tokens as spec;
ghost use Rattle.sy_lex.specs.Front as front;

use crate::Row;
use crate::reserved::is_reserved;

/// Something to drop or a token, of that many bytes, or neither.
#[derive(Clone, Copy)]
pub enum Front {
    Skip(usize),
    Found(Row, usize),
    Stuck,
}

fn is_space(b: u8) -> bool
    ensures { result ≡ rows.is_space b }
{
    matches!(b, b' ' | b'\t' | b'\r')
}

fn is_blank(b: u8) -> bool
    ensures { result ≡ rows.is_blank b }
{
    is_space(b) || b == b'\n'
}

fn is_digit(b: u8) -> bool
    ensures { result ≡ rows.is_digit b }
{
    matches!(b, b'0'..=b'9')
}

fn is_octal_digit(b: u8) -> bool
    ensures { result ≡ rows.is_octal_digit b }
{
    matches!(b, b'0'..=b'7')
}

fn is_binary_digit(b: u8) -> bool
    ensures { result ≡ rows.is_binary_digit b }
{
    matches!(b, b'0' | b'1')
}

fn is_hexadecimal_digit(b: u8) -> bool
    ensures { result ≡ rows.is_hexadecimal_digit b }
{
    matches!(b, b'0'..=b'9' | b'A'..=b'F' | b'a'..=b'f')
}

/// A letter or `_`.
fn is_nondigit(b: u8) -> bool
    ensures { result ≡ rows.is_nondigit b }
{
    matches!(b, b'a'..=b'z' | b'A'..=b'Z' | b'_')
}

fn is_word(b: u8) -> bool
    ensures { result ≡ rows.is_word b }
{
    is_nondigit(b) || is_digit(b)
}

fn is_character_byte(b: u8) -> bool
    ensures { result ≡ rows.is_character_byte b }
{
    matches!(b, b' '..=b'~') && b != b'\'' && b != b'\\'
}

fn is_string_byte(b: u8) -> bool
    ensures { result ≡ rows.is_string_byte b }
{
    matches!(b, b' '..=b'~' | 0x80..=0xff) && b != b'"' && b != b'\\'
}

/// What may follow a backslash.
fn is_escape_code(b: u8) -> bool
    ensures { result ≡ rows.is_escape_code b }
{
    matches!(b, b'n' | b't' | b'r' | b'0' | b'\\' | b'\'' | b'"')
}

/// How many letters, digits and `_` stand in front.
fn word_len(bytes: &[u8]) -> usize
    ensures value { result ≡ prefix_len rows.is_word bytes.now }
    ensures within { result ≤ length bytes.now }
{
    bytes.iter().take_while(|b| is_word(**b)).count()
}

fn spaces_len(bytes: &[u8]) -> usize
    ensures value { result ≡ prefix_len rows.is_space bytes.now }
    ensures within { result ≤ length bytes.now }
{
    bytes.iter().take_while(|b| is_space(**b)).count()
}

fn digits_len(bytes: &[u8]) -> usize
    ensures value { result ≡ prefix_len rows.is_digit bytes.now }
    ensures within { result ≤ length bytes.now }
{
    bytes.iter().take_while(|b| is_digit(**b)).count()
}

fn octal_digits_len(bytes: &[u8]) -> usize
    ensures value { result ≡ prefix_len rows.is_octal_digit bytes.now }
    ensures within { result ≤ length bytes.now }
{
    bytes.iter().take_while(|b| is_octal_digit(**b)).count()
}

fn binary_digits_len(bytes: &[u8]) -> usize
    ensures value { result ≡ prefix_len rows.is_binary_digit bytes.now }
    ensures within { result ≤ length bytes.now }
{
    bytes.iter().take_while(|b| is_binary_digit(**b)).count()
}

fn hexadecimal_digits_len(bytes: &[u8]) -> usize
    ensures value { result ≡ prefix_len rows.is_hexadecimal_digit bytes.now }
    ensures within { result ≤ length bytes.now }
{
    bytes
        .iter()
        .take_while(|b| is_hexadecimal_digit(**b))
        .count()
}

fn line_len(bytes: &[u8]) -> usize
    ensures value { result ≡ prefix_len spec.in_line bytes.now }
    ensures within { result ≤ length bytes.now }
{
    bytes.iter().take_while(|b| **b != b'\n').count()
}

/// An identifier or a reserved word.
fn name(bytes: &[u8]) -> Front
    ensures { result ≡ front.name_at (prefix_len rows.is_word bytes.now) bytes.now }
{
    let len = word_len(bytes);
    if is_reserved(&bytes[..len]) {
        Front::Found(Row::Reserved, len)
    } else {
        Front::Found(Row::Ident, len)
    }
}

/// Nothing or an integer-suffix, [lex.icon].
fn is_suffix(text: &[u8]) -> bool
    ensures { result ≡ rows.is_suffix text.now }
{
    matches!(
        text,
        b"" | b"u"
            | b"U"
            | b"l"
            | b"L"
            | b"ll"
            | b"LL"
            | b"ul"
            | b"uL"
            | b"Ul"
            | b"UL"
            | b"ull"
            | b"uLL"
            | b"Ull"
            | b"ULL"
            | b"lu"
            | b"lU"
            | b"Lu"
            | b"LU"
            | b"llu"
            | b"llU"
            | b"LLu"
            | b"LLU"
    )
}

/// The digits and the suffix of an integer that begins with `0`, after that `0`.
fn after_zero(text: &[u8]) -> bool
    ensures { result ≡ front.after_zero text.now }
{
    match text {
        [] => true,
        [b'x' | b'X', digits @ ..] => {
            let len = hexadecimal_digits_len(digits);
            0 < len && is_suffix(&digits[len..])
        }
        [b'b' | b'B', digits @ ..] => {
            let len = binary_digits_len(digits);
            0 < len && is_suffix(&digits[len..])
        }
        digits => {
            let len = octal_digits_len(digits);
            is_suffix(&digits[len..])
        }
    }
}

/// Whether a text that begins with a digit is an integer.
fn is_integer(text: &[u8]) -> bool
    ensures { result ≡ front.is_integer text.now }
{
    match text {
        [] => false,
        [b'0', digits @ ..] => after_zero(digits),
        [_, digits @ ..] => {
            let len = digits_len(digits);
            is_suffix(&digits[len..])
        }
    }
}

fn integer(bytes: &[u8]) -> Front
    ensures { result ≡ front.integer_at (prefix_len rows.is_word bytes.now) bytes.now }
{
    let len = word_len(bytes);
    if is_integer(&bytes[..len]) {
        Front::Found(Row::Int, len)
    } else {
        Front::Stuck
    }
}

/// How many bytes a character literal has, by the bytes after its first quote.
fn character_len(text: &[u8]) -> Option<usize>
    ensures { result ≡ front.character_len text.now }
{
    match text {
        [b, b'\'', ..] if is_character_byte(*b) => Some(3),
        [b'\\', code, b'\'', ..] if is_escape_code(*code) => Some(4),
        _ => None,
    }
}

/// How many bytes a string literal has, by the bytes after its first quote.
fn string_len(text: &[u8]) -> Option<usize>
    requires { length text.now ≤ 1048576 }
    ensures { result ≡ front.string_from 1 text.now }
{
    let mut rest = text;
    let mut len = 1;
    while let [first, others @ ..] = rest {
        if *first == b'"' {
            return Some(len + 1);
        }
        match others {
            _ if is_string_byte(*first) => {
                rest = others;
                len += 1;
            }
            [code, others @ ..] if *first == b'\\' && is_escape_code(*code) => {
                rest = others;
                len += 2;
            }
            _ => return None,
        }
    }
    None
}

/// How many bytes the header in front has.
fn header_len(text: &[u8]) -> Option<usize>
    ensures value { result ≡ front.header_len text.now }
    ensures short { IfSome result (λ n. n ≤ 15) }
{
    if text.starts_with(b"<sycl/sycl.hpp>") {
        Some(15)
    } else if text.starts_with(b"<iostream>") {
        Some(10)
    } else if text.starts_with(b"<vector>") || text.starts_with(b"<thread>") {
        Some(8)
    } else if text.starts_with(b"<cstdint>") {
        Some(9)
    } else {
        None
    }
}

/// How many bytes a directive has, by the bytes after its `#`.
fn include_len(text: &[u8]) -> Option<usize>
    requires { length text.now ≤ 1048576 }
    ensures { result ≡ front.include_len text.now }
{
    let left = spaces_len(text);
    let named = &text[left..];
    if !named.starts_with(b"include") {
        return None;
    }
    let spaced = &named[7..];
    let right = spaces_len(spaced);
    let header = header_len(&spaced[right..])?;
    Some(1 + left + 7 + right + header)
}

fn literal(row: Row, len: Option<usize>) -> Front
    ensures { result ≡ front.literal_at row len }
{
    match len {
        None => Front::Stuck,
        Some(len) => Front::Found(row, len),
    }
}

fn is_single(b: u8) -> bool
    ensures { result ≡ front.is_single b }
{
    matches!(
        b,
        b'{' | b'}'
            | b'('
            | b')'
            | b'['
            | b']'
            | b';'
            | b':'
            | b','
            | b'.'
            | b'?'
            | b'+'
            | b'-'
            | b'*'
            | b'/'
            | b'%'
            | b'&'
            | b'|'
            | b'^'
            | b'~'
            | b'!'
            | b'='
            | b'<'
            | b'>'
    )
}

/// A punctuator of two bytes: `=` behind an operator, or an operator twice.
fn is_pair(b: u8, c: u8) -> bool
    ensures { result ≡ front.is_pair b c }
{
    if c == b'=' {
        matches!(
            b,
            b'+' | b'-' | b'*' | b'/' | b'%' | b'&' | b'|' | b'^' | b'=' | b'!' | b'<' | b'>'
        )
    } else {
        b == c && matches!(b, b':' | b'<' | b'>' | b'&' | b'|' | b'+' | b'-')
    }
}

/// The longest punctuator in front.
fn mark(bytes: &[u8]) -> Front
    ensures { result ≡ front.mark_at bytes.now }
{
    match bytes {
        [b, c, b'=', ..] if b == c && (*b == b'<' || *b == b'>') => Front::Found(Row::Mark, 3),
        [b, c, ..] if is_pair(*b, *c) => Front::Found(Row::Mark, 2),
        [b, ..] if is_single(*b) => Front::Found(Row::Mark, 1),
        _ => Front::Stuck,
    }
}

/// Where the first `*/` is.
fn close_at(bytes: &[u8]) -> Option<usize>
    ensures value { result ≡ front.pair_from 42 47 0 bytes.now }
    ensures within { IfSome result (λ at. at < length bytes.now) }
{
    let mut rest = bytes;
    let mut at = 0;
    while let [first, after @ ..] = rest {
        if let [second, ..] = after {
            if *first == b'*' && *second == b'/' {
                return Some(at);
            }
        }
        rest = after;
        at += 1;
    }
    None
}

/// A comment, or a punctuator that begins with a slash.
fn slash(bytes: &[u8], rest: &[u8]) -> Front
    requires less { length rest.now < length bytes.now }
    requires small { length bytes.now ≤ 1048576 }
    ensures { result ≡ front.slash_at bytes.now rest.now }
{
    match rest {
        [] => mark(bytes),
        [second, text @ ..] => {
            if *second == b'/' {
                Front::Skip(2 + line_len(text))
            } else if *second == b'*' {
                match close_at(text) {
                    None => Front::Stuck,
                    Some(at) => Front::Skip(at + 4),
                }
            } else {
                mark(bytes)
            }
        }
    }
}

/// What stands at the front of a text.
#[tactic(auto, unfolding(crate::specs::Front::front_of))]
pub fn look(bytes: &[u8]) -> Front
    requires { length bytes.now ≤ 1048576 }
    ensures { result ≡ front.front_of bytes.now }
{
    match bytes {
        [] => Front::Stuck,
        [first, rest @ ..] => {
            if is_blank(*first) {
                Front::Skip(1)
            } else if is_nondigit(*first) {
                name(bytes)
            } else if is_digit(*first) {
                integer(bytes)
            } else if *first == b'"' {
                literal(Row::Str, string_len(rest))
            } else if *first == b'\'' {
                literal(Row::Char, character_len(rest))
            } else if *first == b'#' {
                literal(Row::Include, include_len(rest))
            } else if *first == b'/' {
                slash(bytes, rest)
            } else {
                mark(bytes)
            }
        }
    }
}
