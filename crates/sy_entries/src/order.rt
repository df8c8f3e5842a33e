// Which entries come before which.

ghost use Rattle.std.specs.Prelude.{◌≡◌, ◌≤◌, length};
ghost use Rattle.sy_onecopy.specs.Before.{meet, is_node, is_named, before, blocks, is_held, is_done, is_pending, is_free};
ghost use Rattle.sy_needs.specs.Order.{meets, both_on};

use sy_access::{Need, apart, conflicts};
use sy_onecopy::{Entry, Stage, Work};

/// Whether this is the node of that number.
pub fn is_node(work: &Work, n: u32) -> bool
    ensures { result ≡ is_node work.now n }
{
    match work {
        Work::Node(m, _, _) => *m == n,
        Work::Access(_, _) => false,
        Work::End(_, _) => false,
    }
}

pub fn is_done(stage: &Stage) -> bool
    ensures { result ≡ is_done stage.now }
{
    match stage {
        Stage::Pending => false,
        Stage::Granted => false,
        Stage::Done => true,
        Stage::Failed(_) => true,
    }
}

fn is_pending(stage: &Stage) -> bool
    ensures { result ≡ is_pending stage.now }
{
    match stage {
        Stage::Pending => true,
        Stage::Granted => false,
        Stage::Done => false,
        Stage::Failed(_) => false,
    }
}

/// Whether a need at a place and a need of another entry conflict or are apart.
fn meets(a: &Need, place: u32, y: &Entry) -> bool
    ensures { result ≡ meets a.now place y.now.needs y.now.place }
{
    y.needs
        .items()
        .iter()
        .any(|b| conflicts(a, b) || apart(a, place, b, y.place))
}

/// Whether a need of the one and a need of the other conflict or are apart.
#[tactic(auto, unfolding(sy_onecopy::specs::Before::meet))]
fn meet(x: &Entry, y: &Entry) -> bool
    ensures { result ≡ meet x.now y.now }
{
    x.needs.items().iter().any(|a| meets(a, x.place, y))
}

/// Whether both are nodes of one in-order queue.
fn both_on(a: Option<u32>, b: Option<u32>) -> bool
    ensures { result ≡ both_on a b }
{
    match (a, b) {
        (Some(p), Some(q)) => p == q,
        (Some(_), None) => false,
        (None, _) => false,
    }
}

#[tactic(auto, unfolding(sy_onecopy::specs::Before::is_named))]
fn is_named(work: &Work, numbers: &[u32]) -> bool
    ensures { result ≡ is_named work.now numbers.now }
{
    numbers.iter().any(|n| is_node(work, *n))
}

/// Whether the earlier entry x is before y.
#[tactic(auto, unfolding(sy_onecopy::specs::Before::before))]
fn before(x: &Entry, y: &Entry) -> bool
    ensures { result ≡ before x.now y.now }
{
    meet(x, y) || is_named(&x.work, y.after.items()) || both_on(x.in_order, y.in_order)
}

#[tactic(auto, unfolding(sy_onecopy::specs::Before::blocks))]
fn blocks(y: &Entry, x: &Entry) -> bool
    ensures { result ≡ blocks y.now x.now }
{
    !is_done(&x.stage) && before(x, y)
}

#[tactic(auto, unfolding(sy_onecopy::specs::Before::is_held))]
fn is_held(earlier: &[Entry], y: &Entry) -> bool
    ensures { result ≡ is_held earlier.now y.now }
{
    earlier.iter().any(|x| blocks(y, x))
}

/// Whether the entry at k, which is e, may take effect.
#[tactic(auto, unfolding(sy_onecopy::specs::Before::is_free))]
pub fn is_free(entries: &[Entry], k: usize, e: &Entry) -> bool
    requires { k ≤ length entries.now }
    ensures { result ≡ is_free entries.now k e.now }
{
    is_pending(&e.stage) && !is_held(&entries[..k], e)
}
