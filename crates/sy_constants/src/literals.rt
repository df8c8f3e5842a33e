//! What literals stand for. (C++17, [lex.icon], [lex.ccon], [lex.string])

ghost use Rattle.std.specs.Prelude.{◌≡◌, ◌^◌, ◌≤◌, ◌+◌, ◌*◌, ◌||◌, IfSome, IfNone, length, filter, find, pos};
ghost use Rattle.std.specs.List.{list_any};
ghost use Rattle.sy_num.specs.Kinds.{is_in_range};
ghost use Rattle.sy_rules.specs.Constants.{literal_value};
ghost use Rattle.sy_rules.specs.declared.seen.Constant.TheVariants as constant;
ghost use Rattle.sy_rules.specs.Literals.{is_u, is_l, digit, to_base, is_x, is_b, number_after_zero, number_written, is_decimal, signed_kinds, unsigned_kinds, all_kinds, kinds_of, literal_kind, dimensions_written, character_value, escaped};

use sy_num::Kind;
use sy_rules::Constant;
use sy_typed::Dimensions;

fn is_u(b: u8) -> bool
    ensures { result ≡ is_u b }
{
    b == b'u' || b == b'U'
}

fn is_l(b: u8) -> bool
    ensures { result ≡ is_l b }
{
    b == b'l' || b == b'L'
}

/// The value of a digit of base 16.
fn digit(b: u8) -> u8
    ensures { result ≡ digit b }
{
    if b <= b'9' {
        b.saturating_sub(48)
    } else if b <= b'F' {
        b - 55
    } else {
        b.saturating_sub(87)
    }
}

/// The number with one digit more, if it is below 2^64.
fn with_digit(base: u64, n: u64, b: u8) -> Option<u64>
    ensures found { IfSome result (λ m. m ≡ n * base + digit b) }
    ensures none { IfNone result (2 ^ 64 ≤ n * base + digit b) }
{
    n.checked_mul(base)?.checked_add(digit(b) as u64)
}

/// The byte begins a suffix.
fn is_suffix(b: u8) -> bool
    ensures { result ≡ (is_u b || is_l b) }
{
    is_u(b) || is_l(b)
}

/// What the digits before the suffix write, if it is below 2^64.
fn to_base(base: u64, bytes: &[u8]) -> Option<u64>
    requires { 1 ≤ base }
    ensures found { IfSome result (λ n. n ≡ to_base base bytes.now) }
    ensures none { IfNone result (2 ^ 64 ≤ to_base base bytes.now) }
{
    let mut n: u64 = 0;
    for b in bytes {
        if is_suffix(*b) {
            return Some(n);
        }
        let Some(more) = with_digit(base, n, *b) else {
            return None;
        };
        n = more;
    }
    Some(n)
}

fn number_after_zero(bytes: &[u8]) -> Option<u64>
    ensures found { IfSome result (λ n. n ≡ number_after_zero bytes.now) }
    ensures none { IfNone result (2 ^ 64 ≤ number_after_zero bytes.now) }
{
    match bytes {
        [] => Some(0),
        [b'x' | b'X', digits @ ..] => to_base(16, digits),
        [b'b' | b'B', digits @ ..] => to_base(2, digits),
        _ => to_base(8, bytes),
    }
}

/// The number that an integer literal writes, if it is below 2^64.
pub fn number_written(bytes: &[u8]) -> Option<u64>
    ensures found { IfSome result (λ n. n ≡ number_written bytes.now) }
    ensures none { IfNone result (2 ^ 64 ≤ number_written bytes.now) }
{
    match bytes {
        [] => Some(0),
        [b'0', more @ ..] => number_after_zero(more),
        _ => to_base(10, bytes),
    }
}

/// The dimensions that a literal between `<` and `>` writes.
pub fn dimensions_written(bytes: &[u8]) -> Option<Dimensions>
    ensures { result ≡ dimensions_written bytes.now }
{
    match number_written(bytes) {
        Some(1) => Some(Dimensions::One),
        Some(2) => Some(Dimensions::Two),
        Some(3) => Some(Dimensions::Three),
        _ => None,
    }
}

// ---- kinds

const SIGNED: [Kind; 3] = [Kind::Int, Kind::Long, Kind::LLong];

const UNSIGNED: [Kind; 3] = [Kind::UInt, Kind::ULong, Kind::ULLong];

const ALL: [Kind; 6] = [
    Kind::Int,
    Kind::UInt,
    Kind::Long,
    Kind::ULong,
    Kind::LLong,
    Kind::ULLong,
];

fn has_u(bytes: &[u8]) -> bool
    ensures { result ≡ list_any is_u bytes.now }
{
    for b in bytes {
        if is_u(*b) {
            return true;
        }
    }
    false
}

/// How often `l` stands in the literal.
fn count_of_l(bytes: &[u8]) -> usize
    ensures { result ≡ length (filter is_l bytes.now) }
{
    let mut count = 0;
    for b in bytes {
        if is_l(*b) {
            count += 1;
        }
    }
    count
}

fn is_decimal(bytes: &[u8]) -> bool
    ensures { result ≡ is_decimal bytes.now }
{
    match bytes {
        [] => false,
        [b, ..] => *b != b'0',
    }
}

fn signed_kinds(count: usize) -> &'static [Kind]
    ensures { result.now ≡ signed_kinds count }
{
    match count {
        0 => &SIGNED,
        1 => &SIGNED[1..],
        _ => &SIGNED[2..],
    }
}

fn unsigned_kinds(count: usize) -> &'static [Kind]
    ensures { result.now ≡ unsigned_kinds count }
{
    match count {
        0 => &UNSIGNED,
        1 => &UNSIGNED[1..],
        _ => &UNSIGNED[2..],
    }
}

fn all_kinds(count: usize) -> &'static [Kind]
    ensures { result.now ≡ all_kinds count }
{
    match count {
        0 => &ALL,
        1 => &ALL[2..],
        _ => &ALL[4..],
    }
}

/// The kinds that the literal may have, in the order in which they are tried.
fn kinds_of(bytes: &[u8]) -> &'static [Kind]
    ensures { result.now ≡ kinds_of bytes.now }
{
    if has_u(bytes) {
        unsigned_kinds(count_of_l(bytes))
    } else if is_decimal(bytes) {
        signed_kinds(count_of_l(bytes))
    } else {
        all_kinds(count_of_l(bytes))
    }
}

/// The first of the kinds that holds the number.
fn first_holding(kinds: &[Kind], n: u64) -> Option<Kind>
    ensures { result ≡ find (λ k. is_in_range k (pos n)) kinds.now }
{
    for kind in kinds {
        if kind.holds(n as i128) {
            return Some(*kind);
        }
    }
    None
}

/// The first kind of its list that holds the literal's number.
#[tactic(auto, using(crate::proofs::LiteralLemmas::held_by_none))]
pub fn literal_kind(bytes: &[u8]) -> Option<Kind>
    ensures { result ≡ literal_kind bytes.now }
{
    let Some(n) = number_written(bytes) else {
        return None;
    };
    first_holding(kinds_of(bytes), n)
}

fn number(n: u64) -> Constant
    ensures { result ≡ constant.Number (pos n) }
{
    Constant::Number(n as i128)
}

/// The value of an integer literal, if a kind of its list holds it.
pub fn literal_value(bytes: &[u8]) -> Constant
    ensures { result ≡ literal_value bytes.now }
{
    match literal_kind(bytes) {
        None => Constant::Undefined,
        Some(_) => match number_written(bytes) {
            None => Constant::Undefined,
            Some(n) => number(n),
        },
    }
}

// ---- characters

/// The byte that `\` and this one stand for.
fn escaped(b: u8) -> u8
    ensures { result ≡ escaped b }
{
    match b {
        b'n' => 10,
        b't' => 9,
        b'r' => 13,
        b'0' => 0,
        _ => b,
    }
}

/// The byte that a character's literal stands for.
pub fn character_value(bytes: &[u8]) -> u8
    ensures { result ≡ character_value bytes.now }
{
    match bytes {
        [_, b'\\', c, ..] => escaped(*c),
        [_, b, _, ..] => *b,
        _ => 0,
    }
}
