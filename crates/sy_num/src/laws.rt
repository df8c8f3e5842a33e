//! What a reader expects of the definitions. Each function's contract is a law, and its body is empty.

ghost use Rattle.std.specs.Prelude.{◌≡◌, ◌≢◌, ◌↔◌, ℕ, ◌+◌, ◌-◌, ◌%◌, ◌^◌, ◌<◌, min, max, true, false, ℤ, pos, ◌+ℤ◌, ◌-ℤ◌, ◌*ℤ◌, neg_ℤ, ◌<ℤ◌, ◌≤ℤ◌, IsTrue, IfOk, bit_and, bit_or, bit_xor};
ghost use Rattle.std.specs.Int.{int_rem_euclid, bit_at};
ghost use Rattle.sy_num.specs.declared.Kind.{Kind};
ghost use Rattle.sy_num.specs.declared.BinOp.{BinOp};
ghost use Rattle.sy_num.specs.declared.UnOp.{UnOp};
ghost use Rattle.sy_num.specs.declared.Undefined.{Undefined};
ghost use Rattle.sy_num.specs.Kinds.{bits, is_signed, InRange, is_in_range, represents_all, promoted, common_kind};
ghost use Rattle.sy_num.specs.Scalars.{Scalar, scalar, Congruent, modulus, converted_num, bits_of};
ghost use Rattle.sy_num.specs.Operators.{on_bits, flipped, truth, common_of, left_of, right_of, applied, applied_one, result_kind, result_kind_one};

/// The tests on ranges say what their names say.
pub fn tests_of_ranges()
    ensures in_range { (k : Kind) (z : ℤ) → IsTrue (is_in_range k z) ↔ InRange k z }
    ensures represents_all { (k j : Kind) → IsTrue (represents_all k j) ↔ ((z : ℤ) → InRange j z → InRange k z) }
{}

/// The common kind doesn't depend on the operands' order. It is a promoted kind, and that of a kind with
/// itself is its promotion.
pub fn common_kind_is_symmetric()
    ensures symmetric { (j k : Kind) → common_kind j k ≡ common_kind k j }
    ensures is_promoted { (j k : Kind) → promoted (common_kind j k) ≡ common_kind j k }
    ensures same { (k : Kind) → common_kind k k ≡ promoted k }
{}

/// A conversion keeps what the kind can represent. To a kind other than `Bool` it gives the one number in
/// range that is equal modulo 2^N, and to `Bool` it gives 0 for 0 alone. A promotion changes no number.
pub fn conversions_are_modular()
    ensures identity { (k : Kind) (z : ℤ) → InRange k z → converted_num k z ≡ z }
    ensures in_range { (k : Kind) (z : ℤ) → InRange k (converted_num k z) }
    ensures modular { (k : Kind) (z : ℤ) → k ≢ Kind.Bool → Congruent (2 ^ bits k) z (converted_num k z) }
    ensures only { (k : Kind) (z y : ℤ) → k ≢ Kind.Bool → InRange k y → Congruent (2 ^ bits k) z y → converted_num k z ≡ y }
    ensures to_bool { (z : ℤ) → (converted_num Kind.Bool z ≡ pos 0) ↔ (z ≡ pos 0) }
    ensures promotion { (k : Kind) (z : ℤ) → InRange k z → converted_num (promoted k) z ≡ z }
{}

/// On unsigned kinds `+`, `-` and `*` are those of the numbers modulo 2^N.
pub fn unsigned_arithmetic_is_modular()
    ensures sum { (a b : Scalar) → is_signed (common_of a b) ≡ false → applied BinOp.Add a b ≡ Ok (scalar (common_of a b) (int_rem_euclid (left_of a b +ℤ right_of a b) (modulus (common_of a b)))) }
    ensures difference { (a b : Scalar) → is_signed (common_of a b) ≡ false → applied BinOp.Sub a b ≡ Ok (scalar (common_of a b) (int_rem_euclid (left_of a b -ℤ right_of a b) (modulus (common_of a b)))) }
    ensures product { (a b : Scalar) → is_signed (common_of a b) ≡ false → applied BinOp.Mul a b ≡ Ok (scalar (common_of a b) (int_rem_euclid (left_of a b *ℤ right_of a b) (modulus (common_of a b)))) }
{}

/// `(a / b) * b + a % b` is `a`, and where one of `a / b` and `a % b` has no value, the other has none for
/// the same reason.
pub fn quotient_and_remainder()
    ensures whole { (a b q r : Scalar) → applied BinOp.Div a b ≡ Ok q → applied BinOp.Rem a b ≡ Ok r → q.num *ℤ right_of a b +ℤ r.num ≡ left_of a b }
    ensures together { (a b : Scalar) (why : Undefined) → (applied BinOp.Div a b ≡ Err why) ↔ (applied BinOp.Rem a b ≡ Err why) }
{}

/// A comparison is true exactly where the converted operands are so ordered.
pub fn comparisons_follow_the_order()
    ensures equal { (a b : Scalar) → (applied BinOp.Eq a b ≡ Ok (truth true)) ↔ (left_of a b ≡ right_of a b) }
    ensures not_equal { (a b : Scalar) → (applied BinOp.Ne a b ≡ Ok (truth true)) ↔ (left_of a b ≢ right_of a b) }
    ensures less { (a b : Scalar) → (applied BinOp.Lt a b ≡ Ok (truth true)) ↔ (left_of a b <ℤ right_of a b) }
    ensures at_most { (a b : Scalar) → (applied BinOp.Le a b ≡ Ok (truth true)) ↔ (left_of a b ≤ℤ right_of a b) }
    ensures greater { (a b : Scalar) → (applied BinOp.Gt a b ≡ Ok (truth true)) ↔ (right_of a b <ℤ left_of a b) }
    ensures at_least { (a b : Scalar) → (applied BinOp.Ge a b ≡ Ok (truth true)) ↔ (right_of a b ≤ℤ left_of a b) }
{}

/// Bit i of `&`, `|`, `^` and `~` is made of bit i of each operand.
pub fn bits_are_taken_singly()
    ensures and { (k : Kind) (x y : ℤ) (i : ℕ) → bit_at (bits_of k (on_bits bit_and k x y).num) i ≡ min (bit_at (bits_of k x) i) (bit_at (bits_of k y) i) }
    ensures or { (k : Kind) (x y : ℤ) (i : ℕ) → bit_at (bits_of k (on_bits bit_or k x y).num) i ≡ max (bit_at (bits_of k x) i) (bit_at (bits_of k y) i) }
    ensures xor { (k : Kind) (x y : ℤ) (i : ℕ) → bit_at (bits_of k (on_bits bit_xor k x y).num) i ≡ (bit_at (bits_of k x) i + bit_at (bits_of k y) i) % 2 }
    ensures not { (k : Kind) (x : ℤ) (i : ℕ) → i < bits k → bit_at (bits_of k (flipped k x).num) i ≡ 1 - bit_at (bits_of k x) i }
{}

/// The kind of a result follows from the kinds of the operands, and its number is in that kind's range.
pub fn results_have_their_kind()
    ensures kind { (op : BinOp) (a b : Scalar) → IfOk (applied op a b) (λ r. r.kind ≡ result_kind op a.kind b.kind) }
    ensures in_range { (op : BinOp) (a b : Scalar) → IfOk (applied op a b) (λ r. InRange r.kind r.num) }
    ensures kind_one { (op : UnOp) (a : Scalar) → IfOk (applied_one op a) (λ r. r.kind ≡ result_kind_one op a.kind) }
    ensures in_range_one { (op : UnOp) (a : Scalar) → IfOk (applied_one op a) (λ r. InRange r.kind r.num) }
{}
