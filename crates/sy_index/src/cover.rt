// Which nodes take the place of which in the lists by root.

ghost use Rattle.std.specs.Prelude.{◌≡◌};
ghost use Rattle.sy_index.specs.Cover.{covers, covered, superseded};

use sy_access::Need;
use sy_graph::Node;

/// Whether all that meets the need `a`, of a node at the place `p`, meets the need `b`, of one at
/// the place `q`.
#[tactic(auto, unfolding(crate::specs::Cover::covers))]
fn covers(a: &Need, p: u32, b: &Need, q: u32) -> bool
    ensures { result ≡ covers a.now p b.now q }
{
    let within = p == q && a.from < a.to && b.from <= a.from && a.to <= b.to;
    a.buffer == b.buffer && b.mode.writes() && (b.to <= b.from || within)
}

/// Whether a need of `y` covers the need `a`, of a node at the place `p`.
#[tactic(auto, unfolding(crate::specs::Cover::covered))]
fn covered(a: &Need, p: u32, y: &Node) -> bool
    ensures { result ≡ covered a.now p y.now }
{
    y.needs.items().iter().any(|b| covers(a, p, b, y.place))
}

/// Whether `y` covers each need of `x` on the root.
#[tactic(auto, unfolding(crate::specs::Cover::superseded))]
pub fn superseded(x: &Node, root: u32, y: &Node) -> bool
    ensures { result ≡ superseded x.now root y.now }
{
    x.needs
        .items()
        .iter()
        .all(|a| a.buffer != root || covered(a, x.place, y))
}
