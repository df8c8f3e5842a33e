// Decimal literals of a sum: 0, or up to 18 digits that don't begin with 0.

ghost use Rattle.std.specs.Prelude.{◌≡◌, ◌<◌, fold, IfSome, Some};
ghost use Rattle.sy_sums.specs.Numerals as spec;

fn is_digit(b: u8) -> bool
    ensures { result ≡ spec.is_digit b }
{
    b'0' <= b && b <= b'9'
}

/// The number so far, after one more digit.
fn push_digit(value: Option<u64>, b: u8) -> Option<u64>
    ensures value { result ≡ spec.push_digit value b }
    ensures small { IfSome result (λ n. n < 1000000000000000000) }
{
    match value {
        Some(n) => {
            if is_digit(b) && n < 100_000_000_000_000_000 {
                Some(10 * n + (b - b'0') as u64)
            } else {
                None
            }
        }
        None => None,
    }
}

/// The number that these digits write.
fn digits_value(text: &[u8]) -> Option<u64>
    ensures value { result ≡ fold spec.push_digit (Some 0) text.now }
    ensures small { IfSome result (λ n. n < 1000000000000000000) }
{
    let mut value = Some(0);
    for b in text {
        value = push_digit(value, *b);
    }
    value
}

/// The number that a literal writes, if it is one of a sum.
#[tactic(auto, unfolding(crate::specs::Numerals::number_of))]
pub fn number_of(text: &[u8]) -> Option<u64>
    ensures value { result ≡ spec.number_of text.now }
    ensures small { IfSome result (λ n. n < 1000000000000000000) }
{
    match text {
        [] => None,
        [first, rest @ ..] => {
            if *first != b'0' {
                digits_value(text)
            } else if rest.len() == 0 {
                Some(0)
            } else {
                None
            }
        }
    }
}
