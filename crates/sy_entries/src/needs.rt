// Which asks hold together.

ghost use Rattle.std.specs.Prelude.{◌≡◌, ◌+◌, ◌*◌, ◌<◌, ◌≤◌, ◌^◌, All, length, slice_get, MatchOption, sum_by, if◌then◌else◌};
ghost use Rattle.sy_range.specs.LinearIds.{product};
ghost use Rattle.sy_onecopy.specs.Step.{is_part, is_root, count_of, writes_if_fresh, is_root_need, live_elements, has_count, is_alike, are_different, are_root_needs, are_below, is_cell_need, has_needs};
ghost use Rattle.sy_entries.specs.Sizes.{AreNumbered, Fitting};
ghost use Rattle.std.specs.List.{list_any, list_all};

use sy_access::{Need, Values};
use sy_onecopy::{Buffer, Origin};
use sy_range::{Range, count};
use sy_work::Command;

fn is_part(origin: Origin) -> bool
    ensures { result ≡ is_part origin }
{
    match origin {
        Origin::Vector => false,
        Origin::Range => false,
        Origin::Part => true,
    }
}

/// Whether the buffer is there, has not ended, and has elements of its own.
pub fn is_root(buffers: &[Buffer], r: u32) -> bool
    ensures { result ≡ is_root (slice_get buffers.now r) }
{
    match buffers.get(r as usize) {
        Some(x) => !x.ended && !is_part(x.origin),
        None => false,
    }
}

pub fn count_of(buffers: &[Buffer], r: u32) -> usize
    ensures { result ≡ count_of (slice_get buffers.now r) }
{
    match buffers.get(r as usize) {
        Some(x) => x.values.items().len(),
        None => 0,
    }
}

/// Whether the need writes if it has no_init.
fn writes_if_fresh(n: &Need) -> bool
    ensures { result ≡ writes_if_fresh n.now }
{
    n.mode.writes() || !n.no_init
}

/// Whether the need names a root and a run of its elements, and writes if it has no_init.
#[tactic(auto, unfolding(sy_onecopy::specs::Step::is_root_need))]
pub fn is_root_need(buffers: &[Buffer], n: &Need) -> bool
    ensures { result ≡ is_root_need buffers.now n.now }
{
    is_root(buffers, n.buffer)
        && (n.from <= n.to && (n.to as usize <= count_of(buffers, n.buffer) && writes_if_fresh(n)))
}

/// Whether the numbers that a buffer is over, if there are any, are as many as its range has.
pub fn has_count(range: &Range, init: &Option<Values>) -> bool
    ensures { result ≡ has_count (product range.now) init.now }
{
    match init {
        None => true,
        Some(values) => count(range) == Some(values.items().len() as u64),
    }
}

fn live_count(x: &Buffer) -> u64
    ensures { result ≡ (if x.now.ended then 0 else length x.now.values) }
{
    if x.ended {
        0
    } else {
        x.values.items().len() as u64
    }
}

/// The elements of the buffers that have not ended.
#[tactic(auto, unfolding(sy_onecopy::specs::Step::live_elements))]
fn live_elements(buffers: &[Buffer]) -> u64
    requires { live_elements buffers.now < 2 ^ 64 }
    ensures { result ≡ live_elements buffers.now }
{
    buffers.iter().map(live_count).sum()
}

fn is_alike(a: &Need, n: &Need) -> bool
    ensures { result ≡ is_alike a.now n.now }
{
    n.buffer == a.buffer && (n.from == a.from && n.to == a.to)
}

fn has_alike(n: &Need, needs: &[Need]) -> bool
    ensures { result ≡ list_any (is_alike n.now) needs.now }
{
    needs.iter().any(|a| is_alike(n, a))
}

/// Whether no two needs name one run of one buffer.
fn are_different(needs: &[Need]) -> bool
    ensures { result ≡ are_different needs.now }
{
    for (k, n) in needs.iter().enumerate() {
        if has_alike(n, &needs[k + 1..]) {
            return false;
        }
    }
    true
}

fn are_roots(buffers: &[Buffer], needs: &[Need]) -> bool
    ensures { result ≡ list_all (is_root_need buffers.now) needs.now }
{
    needs.iter().all(|n| is_root_need(buffers, n))
}

#[tactic(auto, unfolding(sy_onecopy::specs::Step::are_root_needs))]
pub fn are_root_needs(buffers: &[Buffer], needs: &[Need]) -> bool
    ensures { result ≡ are_root_needs buffers.now needs.now }
{
    are_roots(buffers, needs) && are_different(needs)
}

#[tactic(auto, unfolding(sy_onecopy::specs::Step::are_below))]
pub fn are_below(n: u32, numbers: &[u32]) -> bool
    ensures { result ≡ are_below n numbers.now }
{
    numbers.iter().all(|k| *k < n)
}

/// Whether the need there writes one element.
fn is_cell_need(needs: &[Need], k: u32) -> bool
    ensures { result ≡ is_cell_need (slice_get needs.now k) }
{
    match needs.get(k as usize) {
        Some(n) => n.mode.writes() && n.to as u64 == n.from as u64 + 1,
        None => false,
    }
}

/// Whether the places that the command names are among its needs.
#[tactic(auto, unfolding(sy_onecopy::specs::Step::has_needs))]
pub fn has_needs(needs: &[Need], command: &Command) -> bool
    ensures { result ≡ has_needs needs.now command.now }
{
    match command {
        Command::Single(_) => true,
        Command::Plain(_, _) => true,
        Command::Nd(_, _) => true,
        Command::Fill(target, _) => (*target as usize) < needs.len(),
        Command::Copy(source, target) => {
            (*source as usize) < needs.len() && (*target as usize) < needs.len()
        }
        Command::Reduce(reduction) => is_cell_need(needs, reduction.need),
    }
}

/// How many elements a range has, where they fit beside those of the buffers that have not ended.
pub fn fitting(buffers: &[Buffer], range: &Range) -> Option<usize>
    requires { AreNumbered buffers.now }
    ensures { Fitting (live_elements buffers.now) (product range.now) result }
{
    let elements = count(range)?;
    if live_elements(buffers).saturating_add(elements) <= 1 << 22 {
        return Some(elements as usize);
    }
    None
}
