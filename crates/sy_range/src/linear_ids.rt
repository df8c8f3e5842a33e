// The count of a range's items, and the linear ids by which they are numbered.

ghost use Rattle.std.specs.Prelude.{◌≡◌, ℕ, ◌<◌, ◌^◌, ◌↔◌, List, SomeIff};
ghost use Rattle.sy_range.specs.LinearIds.{product, linear_id, IsIn, IsBefore};

use crate::ranges::{Id, Range};
use crate::shape::Shape;

/// How many items the range has; none where they are 2^64 or more.
pub fn count(r: &Range) -> Option<u64>
    ensures { SomeIff result (product r.now < 2 ^ 64) (product r.now) }
{
    match r.extents {
        Shape::One(a) => Some(a),
        Shape::Two(a, b) => a.checked_mul(b),
        Shape::Three(a, b, 0) => Some(0),
        Shape::Three(a, b, c) => a.checked_mul(b)?.checked_mul(c),
    }
}

/// The linear id of an item in its range, in row-major order
/// (SYCL 2020, "Linearization").
pub fn linear(i: &Id, r: &Range) -> u64
    requires within { IsIn i.now r.now }
    requires counted { product r.now < 2 ^ 64 }
    ensures { result ≡ linear_id i.now r.now }
{
    match (i.coordinates, r.extents) {
        (Shape::Two(i, j), Shape::Two(_, b)) => i * b + j,
        (Shape::Three(i, j, k), Shape::Three(_, b, c)) => (i * b + j) * c + k,
        (Shape::One(i), _) => i,
        _ => unreachable!(),
    }
}

/// A law: the linear ids of a range's items are the numbers below its count, each of one item, in
/// the row-major order of the items.
pub fn linear_ids_number_a_range()
    ensures below { (i r : List ℕ) → IsIn i r → linear_id i r < product r }
    ensures one_to_one { (i j r : List ℕ) → IsIn i r → IsIn j r → linear_id i r ≡ linear_id j r → i ≡ j }
    ensures onto { (k : ℕ) (r : List ℕ) → k < product r → (i : List ℕ) × (IsIn i r × (linear_id i r ≡ k)) }
    ensures ordered { (i j r : List ℕ) → IsIn i r → IsIn j r → IsBefore i j ↔ (linear_id i r < linear_id j r) }
{}
