// Arguments with their types.

ghost use Rattle.std.specs.Prelude.{◌≡◌, ◌++◌, IfOk, OnOk};
ghost use Rattle.sy_meaning.specs.Lambdas.{is_identity_tag};
ghost use Rattle.sy_meaning.specs.Making.{counts_in, has_type, is_in_order, is_no_init, range_at, type_at, value_at};
ghost use Rattle.sy_making.specs.Tags.{is_tag};

use sqlite_items::at;
use std::alloc::{AllocError, Global};
use std::marker::Model;
use sy_access::Values;
use sy_tree::AccessTag;
use sy_typed::Thing;
use sy_words::{count_of, range_in};

/// An argument: its type, and the object that is its value.
#[derive(Drop)]
pub struct Given {
    pub what: Thing,
    pub object: Values,
}

impl Model for Given {
    ghost use Rattle.std.specs.Prelude.{List, ℤ};
    ghost use Rattle.sy_typed.specs.declared.things.Thing.{Thing};

    ghost Value = { Thing × List ℤ };

    ghost view = { λ g. (g.what, g.object) };
}

/// The type of the argument at an index; `Void` where there is none.
pub fn type_at(given: &[Given], k: usize) -> Thing
    ensures { result ≡ type_at k given.now }
{
    match at(given, k) {
        Some(one) => one.what,
        None => Thing::Void,
    }
}

/// The value of the argument at an index; empty where there is none.
pub fn value_at(given: &[Given], k: usize) -> &[i128]
    ensures { result.now ≡ value_at k given.now }
{
    match at(given, k) {
        Some(one) => one.object.items(),
        None => &[],
    }
}

/// The extents that the argument at an index says.
pub fn range_at(alloc: Global, given: &[Given], k: usize) -> Result<Vec<u64>, AllocError>
    ensures { IfOk result (λ extents. extents.items ≡ range_at k given.now) }
{
    range_in(alloc, type_at(given, k), value_at(given, k))
}

fn put_counts(given: &[Given], made: &mut Vec<u64>) -> Result<(), AllocError>
    ensures { OnOk result (made.new.items ≡ made.old.items ++ counts_in given.now) }
{
    match given {
        [] => Ok(()),
        [first, rest @ ..] => {
            made.push(count_of(first.object.items())?)?;
            put_counts(rest, made)?;
            Ok(())
        }
    }
}

/// Each argument as a count.
pub fn counts_in(alloc: Global, given: &[Given]) -> Result<Vec<u64>, AllocError>
    ensures { IfOk result (λ counts. counts.items ≡ counts_in given.now) }
{
    let mut made = Vec::new(alloc);
    put_counts(given, &mut made)?;
    Ok(made)
}

/// What stands for itself alone and is looked for among all arguments: `no_init`, `in_order`, and
/// `initialize_to_identity`.
#[derive(Clone, Copy)]
enum Tag {
    NoInit,
    InOrder,
    Identity,
}

fn is_tag(tag: Tag, what: Thing) -> bool
    ensures { result ≡ is_tag tag what }
{
    match tag {
        Tag::NoInit => matches!(what, Thing::AccessTag(AccessTag::NoInit)),
        Tag::InOrder => matches!(what, Thing::InOrder),
        Tag::Identity => matches!(what, Thing::InitializeToIdentity),
    }
}

fn has_tag(tag: Tag, given: &[Given]) -> bool
    ensures { result ≡ has_type (is_tag tag) given.now }
{
    match given {
        [] => false,
        [first, rest @ ..] => is_tag(tag, first.what) || has_tag(tag, rest),
    }
}

/// Whether `no_init` is among the arguments.
pub fn has_no_init_tag(given: &[Given]) -> bool
    ensures { result ≡ has_type is_no_init given.now }
{
    has_tag(Tag::NoInit, given)
}

/// Whether `property::queue::in_order` is among the arguments.
pub fn has_in_order_tag(given: &[Given]) -> bool
    ensures { result ≡ has_type is_in_order given.now }
{
    has_tag(Tag::InOrder, given)
}

/// Whether `property::reduction::initialize_to_identity` is among the arguments.
pub fn has_identity_tag(given: &[Given]) -> bool
    ensures { result ≡ has_type is_identity_tag given.now }
{
    has_tag(Tag::Identity, given)
}
