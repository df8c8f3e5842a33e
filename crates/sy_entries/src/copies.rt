// How many copies a run needs.

ghost use Rattle.std.specs.Prelude.{◌≡◌, ◌<◌, ◌≤◌, ◌^◌, ◌&&◌, ◌||◌, ◌==◌, not, nat_le, IfOk, OnOk, ℕ, List, length, suc};
ghost use Rattle.std.specs.List.{list_any, list_all};
ghost use Rattle.sy_onecopy.specs.Copies.{makes, names, uses, is_elsewhere, has_pair, with_pair, made_after, pairs_after, first_made, copies_of, copies};
ghost use Rattle.sy_needs.specs.Versions.{renews, covers, forgoes, replaces};

use std::alloc::{AllocError, Global};
use sy_access::Need;
use sy_onecopy::{Buffer, Entry, Origin};

/// Whether a need on the buffer writes.
#[tactic(auto, unfolding(sy_needs::specs::Versions::renews))]
fn renews(needs: &[Need], r: u32) -> bool
    ensures { result ≡ renews needs.now r }
{
    needs.iter().any(|n| n.buffer == r && n.mode.writes())
}

/// Whether the entry makes a new version of the buffer.
#[tactic(auto, unfolding(sy_onecopy::specs::Copies::makes))]
fn makes(e: &Entry, r: u32) -> bool
    ensures { result ≡ makes e.now r }
{
    renews(e.needs.items(), r)
}

fn names(e: &Entry, r: u32) -> bool
    ensures { result ≡ names e.now r }
{
    e.needs.items().iter().any(|n| n.buffer == r)
}

/// Whether a need has all of so many elements of the buffer.
#[tactic(auto, unfolding(sy_needs::specs::Versions::covers))]
fn covers(needs: &[Need], r: u32, count: usize) -> bool
    ensures { result ≡ covers needs.now r count }
{
    needs
        .iter()
        .any(|n| n.buffer == r && n.from == 0 && count <= n.to as usize)
}

/// Whether each need on the buffer has no_init.
#[tactic(auto, unfolding(sy_needs::specs::Versions::forgoes))]
fn forgoes(needs: &[Need], r: u32) -> bool
    ensures { result ≡ forgoes needs.now r }
{
    needs.iter().all(|n| n.buffer != r || n.no_init)
}

/// Whether the command does not need the current numbers of a buffer of so many elements.
#[tactic(auto, unfolding(sy_needs::specs::Versions::replaces))]
fn replaces(needs: &[Need], r: u32, count: usize) -> bool
    ensures { result ≡ replaces needs.now r count }
{
    covers(needs, r, count) && forgoes(needs, r)
}

/// Whether the entry needs the current version of a buffer of so many elements.
#[tactic(auto, unfolding(sy_onecopy::specs::Copies::uses))]
fn uses(e: &Entry, r: u32, count: usize) -> bool
    ensures { result ≡ uses e.now r count }
{
    names(e, r) && !replaces(e.needs.items(), r, count)
}

/// Whether a version was made at a place, or everywhere, and not at this place.
fn is_elsewhere(made: Option<u32>, place: u32) -> bool
    ensures { result ≡ is_elsewhere made place }
{
    match made {
        None => false,
        Some(made) => made != place,
    }
}

fn has_pair(pairs: &[(usize, u32)], version: usize, place: u32) -> bool
    ensures { result ≡ has_pair pairs.now (version, place) }
{
    pairs.iter().any(|y| y.0 == version && y.1 == place)
}

/// Where the first version is made: of a buffer over a vector at the host, of one from a range
/// everywhere.
fn first_made(origin: Origin) -> Option<u32>
    ensures { result ≡ first_made origin }
{
    match origin {
        Origin::Vector => Some(0),
        Origin::Range => None,
        Origin::Part => None,
    }
}

fn made_after(e: &Entry, r: u32, made: Option<u32>) -> Option<u32>
    ensures { result ≡ made_after e.now r made }
{
    if makes(e, r) { Some(e.place) } else { made }
}

/// Adds the pair of the version and the entry's place, where the version is copied there.
fn add_pair(
    pairs: &mut Vec<(usize, u32)>,
    e: &Entry,
    r: u32,
    count: usize,
    version: usize,
    made: Option<u32>,
) -> Result<(), AllocError>
    ensures { OnOk result (pairs.new.items ≡ pairs_after e.now r count version made pairs.old.items) }
{
    if uses(e, r, count)
        && is_elsewhere(made, e.place)
        && !has_pair(pairs.as_slice(), version, e.place)
    {
        pairs.insert(0, (version, e.place))?;
    }
    Ok(())
}

/// The copies of the versions of buffer r.
fn copies_of(alloc: Global, entries: &[Entry], r: u32, x: &Buffer) -> Result<usize, AllocError>
    ensures { IfOk result (λ n. n ≡ copies_of entries.now r x.now) }
{
    let count = x.values.items().len();
    let mut version: usize = 0;
    let mut made = first_made(x.origin);
    let mut pairs = Vec::new(alloc);
    for e in entries {
        add_pair(&mut pairs, e, r, count, version, made)?;
        made = made_after(e, r, made);
        if makes(e, r) {
            version += 1;
        }
    }
    Ok(pairs.len())
}

/// The copies of the versions of all buffers.
#[tactic(auto, unfolding(sy_onecopy::specs::Copies::copies))]
pub fn copies(alloc: Global, entries: &[Entry], buffers: &[Buffer]) -> Result<u64, AllocError>
    requires few { length buffers.now ≤ 2 ^ 32 }
    requires fits { copies entries.now buffers.now < 2 ^ 64 }
    ensures { IfOk result (λ n. n ≡ copies entries.now buffers.now) }
{
    let mut total: u64 = 0;
    for (r, x) in buffers.iter().enumerate() {
        total += copies_of(alloc, entries, r as u32, x)? as u64;
    }
    Ok(total)
}
