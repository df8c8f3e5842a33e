// Objects as lists of words: how they are read, and how they are made.

ghost use Rattle.std.specs.Prelude.{◌≡◌, ◌++◌, [], ◌∷◌, pos, not, drop, map, unsigned_abs, IfOk, OnOk};
ghost use Rattle.sy_num.specs.Scalars.{converted_num};
ghost use Rattle.sy_meaning.specs.Words.{nothing, word, natural, naturals, of_naturals, of_scalar, taken_as, unsigned_long, truth_of, scalar_of, is_zero, number_as, count_of, sized, as_thing};
ghost use Rattle.sy_meaning.specs.Statements.{bound};
ghost use Rattle.sy_meaning.specs.Next.{object_from, converted_to, zero_of, finish_of};

use crate::numbers::{Word, converted_num, reduced, truth};
use crate::types::{kind_in, width};
use sqlite_items::at;
use std::alloc::{AllocError, Global};
use sy_access::Values;
use sy_num::Kind;
use sy_typed::Thing;

/// The word at an index; 0 where there is none.
pub fn word(object: &[i128], k: usize) -> i128
    ensures { result ≡ word k object.now }
{
    match at(object, k) {
        Some(num) => *num,
        None => 0,
    }
}

fn as_natural(num: i128) -> Result<u64, AllocError>
    ensures { IfOk result (λ n. n ≡ unsigned_abs num) }
{
    let size = num.unsigned_abs();
    if size <= u64::MAX as u128 {
        Ok(size as u64)
    } else {
        Err(AllocError)
    }
}

fn as_number(num: i128) -> Result<u32, AllocError>
    ensures { IfOk result (λ n. n ≡ unsigned_abs num) }
{
    let size = num.unsigned_abs();
    if size <= u32::MAX as u128 {
        Ok(size as u32)
    } else {
        Err(AllocError)
    }
}

/// The word at an index as a count or an index.
pub fn natural(object: &[i128], k: usize) -> Result<u64, AllocError>
    ensures { IfOk result (λ n. n ≡ natural k object.now) }
{
    as_natural(word(object, k))
}

/// The word at an index as the number of a buffer, a queue or the like.
pub fn number(object: &[i128], k: usize) -> Result<u32, AllocError>
    ensures { IfOk result (λ n. n ≡ natural k object.now) }
{
    as_number(word(object, k))
}

#[tactic(auto, using(crate::proofs::ObjectLemmas::none_behind))]
fn behind(object: &[i128], k: usize) -> &[i128]
    ensures { result.now ≡ drop k object.now }
{
    if k < object.len() { &object[k..] } else { &[] }
}

fn put_naturals(words: &[i128], made: &mut Vec<u64>) -> Result<(), AllocError>
    ensures { OnOk result (made.new.items ≡ made.old.items ++ map unsigned_abs words.now) }
{
    match words {
        [] => Ok(()),
        [first, rest @ ..] => {
            made.push(as_natural(*first)?)?;
            put_naturals(rest, made)?;
            Ok(())
        }
    }
}

/// The words from an index on as counts.
pub fn naturals(alloc: Global, object: &[i128], k: usize) -> Result<Vec<u64>, AllocError>
    ensures { IfOk result (λ ns. ns.items ≡ naturals k object.now) }
{
    let mut made = Vec::new(alloc);
    put_naturals(behind(object, k), &mut made)?;
    Ok(made)
}

/// The object without words.
pub fn nothing(alloc: Global) -> Values
    ensures { result ≡ nothing }
{
    Values::of(Vec::new(alloc))
}

/// The object of one word.
pub fn single(alloc: Global, num: i128) -> Result<Values, AllocError>
    ensures { IfOk result (λ object. object ≡ num ∷ []) }
{
    Ok(Values::of(vec![in alloc; num]?))
}

/// The same words in an object of their own.
pub fn copy_of(alloc: Global, object: &[i128]) -> Result<Values, AllocError>
    ensures { IfOk result (λ copy. copy ≡ object.now) }
{
    Ok(Values::of(Vec::from_slice(alloc, object)?))
}

/// The object of one count.
pub fn of_natural(alloc: Global, n: u64) -> Result<Values, AllocError>
    ensures { IfOk result (λ object. object ≡ of_naturals (n ∷ [])) }
{
    single(alloc, n as i128)
}

fn put_words(ns: &[u64], made: &mut Vec<i128>) -> Result<(), AllocError>
    ensures { OnOk result (made.new.items ≡ made.old.items ++ map pos ns.now) }
{
    match ns {
        [] => Ok(()),
        [first, rest @ ..] => {
            made.push(*first as i128)?;
            put_words(rest, made)?;
            Ok(())
        }
    }
}

/// The object of these counts.
pub fn of_naturals(alloc: Global, ns: &[u64]) -> Result<Values, AllocError>
    ensures { IfOk result (λ object. object ≡ of_naturals ns.now) }
{
    let mut made = Vec::new(alloc);
    put_words(ns, &mut made)?;
    Ok(Values::of(made))
}

/// The object of one number, whatever its kind.
pub fn of_word(alloc: Global, word: Word) -> Result<Values, AllocError>
    ensures { IfOk result (λ object. object ≡ of_scalar word) }
{
    single(alloc, word.num)
}

/// The object of a number that stands for a value of the kind.
pub fn taken_as(alloc: Global, kind: Kind, num: i128) -> Result<Values, AllocError>
    ensures { IfOk result (λ object. object ≡ taken_as kind num) }
{
    single(alloc, reduced(kind, num))
}

/// The object of a `size_t`.
pub fn unsigned_long(alloc: Global, n: u64) -> Result<Values, AllocError>
    ensures { IfOk result (λ object. object ≡ unsigned_long n) }
{
    taken_as(alloc, Kind::ULong, n as i128)
}

/// The object of a truth value.
pub fn truth_of(alloc: Global, holds: bool) -> Result<Values, AllocError>
    ensures { IfOk result (λ object. object ≡ truth_of holds) }
{
    of_word(alloc, truth(holds))
}

/// The integer that an object of the type is.
pub fn scalar_of(what: Thing, object: &[i128]) -> Word
    ensures { result ≡ scalar_of what object.now }
{
    Word {
        kind: kind_in(what),
        num: word(object, 0),
    }
}

/// Whether the object is false as a truth value.
pub fn is_zero(object: &[i128]) -> bool
    ensures { result ≡ is_zero object.now }
{
    word(object, 0) == 0
}

/// The object as a truth value.
pub fn as_truth(alloc: Global, object: &[i128]) -> Result<Values, AllocError>
    ensures { IfOk result (λ made. made ≡ truth_of (not (is_zero object.now))) }
{
    truth_of(alloc, !is_zero(object))
}

/// The object converted to an integer of the kind.
pub fn number_as(kind: Kind, object: &[i128]) -> i128
    ensures { result ≡ number_as kind object.now }
{
    converted_num(kind, word(object, 0))
}

/// The object converted to `size_t`.
pub fn count_of(object: &[i128]) -> Result<u64, AllocError>
    ensures { IfOk result (λ n. n ≡ count_of object.now) }
{
    as_natural(number_as(Kind::ULong, object))
}

fn put_zeros(count: u64, made: &mut Vec<i128>) -> Result<(), AllocError>
    ensures { OnOk result (made.new.items ≡ made.old.items ++ sized count []) }
{
    if count == 0 {
        return Ok(());
    }
    made.push(0)?;
    put_zeros(count - 1, made)?;
    Ok(())
}

fn put_sized(count: u64, words: &[i128], made: &mut Vec<i128>) -> Result<(), AllocError>
    ensures { OnOk result (made.new.items ≡ made.old.items ++ sized count words.now) }
{
    match words {
        [] => put_zeros(count, made),
        [first, rest @ ..] => {
            if count == 0 {
                return Ok(());
            }
            made.push(*first)?;
            put_sized(count - 1, rest, made)?;
            Ok(())
        }
    }
}

/// So many words of the object: cut, or filled up with zeros.
pub fn sized(alloc: Global, count: u64, object: &[i128]) -> Result<Values, AllocError>
    ensures { IfOk result (λ made. made ≡ sized count object.now) }
{
    let mut made = Vec::new(alloc);
    put_sized(count, object, &mut made)?;
    Ok(Values::of(made))
}

/// What an object of the type holds that is initialized with this one.
pub fn as_thing(alloc: Global, what: Thing, object: &[i128]) -> Result<Values, AllocError>
    ensures { IfOk result (λ made. made ≡ as_thing what object.now) }
{
    match what {
        Thing::Integer(kind) => single(alloc, number_as(kind, object)),
        _ => sized(alloc, width(what), object),
    }
}

/// What the name of a range-based `for` holds: which element it is where it is declared by reference, else its value.
pub fn bound(
    alloc: Global,
    what: Thing,
    by_reference: bool,
    object: Values,
) -> Result<Values, AllocError>
    ensures { IfOk result (λ made. made ≡ bound what by_reference object) }
{
    if by_reference {
        Ok(object)
    } else {
        as_thing(alloc, what, object.items())
    }
}

/// The object of the type whose words stand at the front of these.
pub fn object_from(alloc: Global, what: Thing, words: &[i128]) -> Result<Values, AllocError>
    ensures { IfOk result (λ made. made ≡ object_from what words.now) }
{
    match what {
        Thing::Integer(kind) => taken_as(alloc, kind, word(words, 0)),
        _ => sized(alloc, width(what), words),
    }
}

/// What a function that returns an integer of this kind gives for the object of its `return`.
pub fn converted_to(
    alloc: Global,
    returned: Option<Kind>,
    object: &[i128],
) -> Result<Values, AllocError>
    ensures { IfOk result (λ made. made ≡ converted_to returned object.now) }
{
    match returned {
        None => Ok(nothing(alloc)),
        Some(kind) => single(alloc, number_as(kind, object)),
    }
}

/// What a function without a `return` gives.
pub fn zero_of(alloc: Global, returned: Option<Kind>) -> Result<Values, AllocError>
    ensures { IfOk result (λ made. made ≡ zero_of returned) }
{
    match returned {
        None => Ok(nothing(alloc)),
        Some(_) => single(alloc, 0),
    }
}

/// The number with which a body ends.
pub fn finish_of(returned: Option<Kind>, object: &[i128]) -> i128
    ensures { result ≡ finish_of returned object.now }
{
    match returned {
        None => 0,
        Some(kind) => number_as(kind, object),
    }
}
