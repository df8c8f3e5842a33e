// Extents and coordinates, place by place and as one number.

ghost use Rattle.std.specs.Prelude.{◌≡◌, ◌+◌, ◌*◌, ◌/◌, ◌%◌, ◌++◌, IfOk, OnOk};
ghost use Rattle.sy_range.specs.LinearIds.{product, linear_id};
ghost use Rattle.sy_range.specs.Shapes.{is_multiple, divides};
ghost use Rattle.sy_meaning.specs.Making.{both};
ghost use Rattle.sy_requests.specs.Pairs.{paired};

use std::alloc::{AllocError, Global};
use sy_range::Range;

/// A sum; want of memory from 2^64 on.
pub fn plus(a: u64, b: u64) -> Result<u64, AllocError>
    ensures { IfOk result (λ n. n ≡ a + b) }
{
    match a.checked_add(b) {
        Some(n) => Ok(n),
        None => Err(AllocError),
    }
}

/// A product; want of memory from 2^64 on.
pub fn times(a: u64, b: u64) -> Result<u64, AllocError>
    ensures { IfOk result (λ n. n ≡ a * b) }
{
    match a.checked_mul(b) {
        Some(n) => Ok(n),
        None => Err(AllocError),
    }
}

/// The quotient; 0 where the divisor is 0.
#[tactic(auto, using(crate::proofs::PairLemmas::quotient_by_zero))]
pub fn quotient(a: u64, b: u64) -> u64
    ensures { result ≡ a / b }
{
    if b == 0 { 0 } else { a / b }
}

/// The remainder; all of `a` where the divisor is 0.
#[tactic(auto, using(crate::proofs::PairLemmas::remainder_by_zero))]
pub fn remainder(a: u64, b: u64) -> u64
    ensures { result ≡ a % b }
{
    if b == 0 { a } else { a % b }
}

/// How many items a range of these extents has; want of memory where the extents from some place on have 2^64 or more.
pub fn product(extents: &[u64]) -> Result<u64, AllocError>
    ensures { IfOk result (λ n. n ≡ product extents.now) }
{
    match extents {
        [] => Ok(1),
        [first, rest @ ..] => times(*first, product(rest)?),
    }
}

/// The linear id of an item (SYCL 2020, "Linearization").
pub fn linear_id(ids: &[u64], extents: &[u64]) -> Result<u64, AllocError>
    ensures { IfOk result (λ n. n ≡ linear_id ids.now extents.now) }
{
    match ids {
        [] => Ok(0),
        [id, more_ids @ ..] => match extents {
            [] => Ok(0),
            [_, rest @ ..] => {
                let before = times(*id, product(rest)?)?;
                plus(before, linear_id(more_ids, rest)?)
            }
        },
    }
}

fn is_multiple(number: u64, part: u64) -> bool
    ensures { result ≡ is_multiple number part }
{
    part != 0 && number % part == 0
}

/// Whether each number is a multiple of the part at its place, which isn't 0, and there are as many of both.
pub fn divides(parts: &[u64], numbers: &[u64]) -> bool
    ensures { result ≡ divides parts.now numbers.now }
{
    match parts {
        [] => match numbers {
            [] => true,
            [_, ..] => false,
        },
        [part, more_parts @ ..] => match numbers {
            [] => false,
            [number, more_numbers @ ..] => {
                is_multiple(*number, *part) && divides(more_parts, more_numbers)
            }
        },
    }
}

/// What is computed of two numbers at one place: the remainder, the quotient, or the last coordinate of so many from
/// the first one on.
#[derive(Clone, Copy, PartialEq, Eq, Debug)]
pub enum Pairing {
    Remainder,
    Quotient,
    Last,
}

fn pair(pairing: Pairing, a: u64, b: u64) -> Result<u64, AllocError>
    ensures { IfOk result (λ n. n ≡ paired pairing a b) }
{
    match pairing {
        Pairing::Remainder => Ok(remainder(a, b)),
        Pairing::Quotient => Ok(quotient(a, b)),
        Pairing::Last => {
            let end = plus(a, b)?;
            Ok(end.saturating_sub(1))
        }
    }
}

/// Two lists place by place, as far as both go.
pub fn both(
    alloc: Global,
    pairing: Pairing,
    left: &[u64],
    right: &[u64],
) -> Result<Vec<u64>, AllocError>
    ensures { IfOk result (λ made. made.items ≡ both (paired pairing) left.now right.now) }
{
    let mut made = Vec::new(alloc);
    put_both(pairing, left, right, &mut made)?;
    Ok(made)
}

fn put_both(
    pairing: Pairing,
    left: &[u64],
    right: &[u64],
    made: &mut Vec<u64>,
) -> Result<(), AllocError>
    ensures { OnOk result (made.new.items ≡ made.old.items ++ both (paired pairing) left.now right.now) }
{
    match left {
        [] => Ok(()),
        [a, more_left @ ..] => match right {
            [] => Ok(()),
            [b, more_right @ ..] => {
                made.push(pair(pairing, *a, *b)?)?;
                put_both(pairing, more_left, more_right, made)?;
                Ok(())
            }
        },
    }
}

/// The range of these extents; want of memory unless there are one to three.
pub fn range_of(extents: &[u64]) -> Result<Range, AllocError>
    ensures { IfOk result (λ range. range ≡ extents.now) }
{
    if extents.len() == 0 || extents.len() > 3 {
        return Err(AllocError);
    }
    Ok(Range::new(extents))
}

/// The extents of a range.
pub fn extents_of(alloc: Global, range: &Range) -> Result<Vec<u64>, AllocError>
    ensures { IfOk result (λ extents. extents.items ≡ range.now) }
{
    let mut extents = Vec::new(alloc);
    for k in 0..range.dims() {
        extents.push(range.extent(k))?;
    }
    Ok(extents)
}
