// The bytes of printed numbers (C++17, "Standard iostream objects").

ghost use Rattle.std.specs.Prelude.{◌≡◌, [], ◌∷◌, IfOk};
ghost use Rattle.std.specs.Fmt.{signed_decimal};
ghost use Rattle.sy_num.specs.Scalars.{bits_of};
ghost use Rattle.sy_num.specs.declared.Kind.TheVariants as kinds;
ghost use Rattle.sy_meaning.specs.Library.{printed};

use itoa::Buffer;
use std::alloc::{AllocError, Global};
use sy_access::Bytes;
use sy_num::{Kind, Value};

/// The low eight bits.
fn low_byte(number: i128) -> u8
    ensures { result ≡ bits_of kinds.UChar number }
{
    number.rem_euclid(256).unsigned_abs() as u8
}

fn one_byte(alloc: Global, number: i128) -> Result<Bytes, AllocError>
    ensures { IfOk result (λ bytes. bytes ≡ bits_of kinds.UChar number ∷ []) }
{
    let byte = low_byte(number);
    Ok(Bytes::of(vec![in alloc; byte]?))
}

fn decimal(alloc: Global, number: i128) -> Result<Bytes, AllocError>
    ensures { IfOk result (λ bytes. bytes ≡ signed_decimal number) }
{
    let mut digits = Buffer::new();
    let text = digits.format(number);
    Ok(Bytes::of(Vec::from_slice(alloc, text.as_bytes())?))
}

/// A value as it is printed: a number of a char kind is one byte, others are in decimal.
pub fn printed_bytes(alloc: Global, value: Value) -> Result<Bytes, AllocError>
    ensures { IfOk result (λ bytes. bytes ≡ printed value) }
{
    match value.kind() {
        Kind::Char => one_byte(alloc, value.num()),
        Kind::SChar => one_byte(alloc, value.num()),
        Kind::UChar => one_byte(alloc, value.num()),
        _ => decimal(alloc, value.num()),
    }
}
