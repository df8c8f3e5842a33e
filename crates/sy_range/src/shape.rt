// One to three numbers, without memory of their own.

ghost use Rattle.std.specs.Prelude.{◌≡◌, ◌<◌, ◌≤◌, length, slice_index};
ghost use Rattle.sy_range.specs.Shapes.{listed, is_multiple, divides};

/// One to three numbers, the first dimension first.
#[derive(Clone, Copy, PartialEq, Eq, Debug)]
pub enum Shape {
    One(u64),
    Two(u64, u64),
    Three(u64, u64, u64),
}

impl Shape {
    pub fn new(numbers: &[u64]) -> Shape
        requires some { 1 ≤ length numbers.now }
        requires few { length numbers.now ≤ 3 }
        ensures { listed result ≡ numbers.now }
    {
        match *numbers {
            [a] => Shape::One(a),
            [a, b] => Shape::Two(a, b),
            [a, b, c] => Shape::Three(a, b, c),
            _ => unreachable!(),
        }
    }

    pub fn dims(&self) -> u32
        ensures count { result ≡ length (listed self.now) }
        ensures some { 1 ≤ result }
        ensures few { result ≤ 3 }
    {
        match self {
            Shape::One(_) => 1,
            Shape::Two(_, _) => 2,
            Shape::Three(_, _, _) => 3,
        }
    }

    pub fn at(&self, k: u32) -> u64
        requires { k < length (listed self.now) }
        ensures { result ≡ slice_index (listed self.now) k }
    {
        match (*self, k) {
            (Shape::One(a), _) => a,
            (Shape::Two(a, _), 0) => a,
            (Shape::Two(_, b), _) => b,
            (Shape::Three(a, _, _), 0) => a,
            (Shape::Three(_, b, _), 1) => b,
            (Shape::Three(_, _, c), _) => c,
        }
    }

    /// Whether each number is a multiple of the other shape's at its place, which isn't 0.
    pub fn is_multiple_of(&self, part: &Shape) -> bool
        ensures { result ≡ divides (listed part.now) (listed self.now) }
    {
        match (*self, *part) {
            (Shape::One(a), Shape::One(p)) => is_multiple(a, p),
            (Shape::Two(a, b), Shape::Two(p, q)) => is_multiple(a, p) && is_multiple(b, q),
            (Shape::Three(a, b, c), Shape::Three(p, q, r)) => {
                is_multiple(a, p) && is_multiple(b, q) && is_multiple(c, r)
            }
            _ => false,
        }
    }
}

fn is_multiple(n: u64, part: u64) -> bool
    ensures { result ≡ is_multiple n part }
{
    part != 0 && n % part == 0
}
