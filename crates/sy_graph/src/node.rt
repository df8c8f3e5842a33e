// Nodes, and which of them come before which.

ghost use Rattle.std.specs.Prelude.{◌≡◌};
ghost use Rattle.sy_graph.specs.Before.{meet, names, before};
ghost use Rattle.sy_needs.specs.Order.{meets_one, meets, both_on};

use sy_access::{Need, Needs, Numbers, apart, conflicts};

/// A submission: what it needs, the numbers of the nodes that it names by `depends_on`, the number
/// of its queue where that has the property in_order, and the place where it runs.
#[derive(Clone, Debug, Drop)]
pub struct Node {
    pub needs: Needs,
    pub after: Numbers,
    pub in_order: Option<u32>,
    pub place: u32,
}

impl Node {
    /// Whether a need of this node and the need `a`, of an entry at the place `p`, conflict or are
    /// apart.
    fn has_meeting(&self, p: u32, a: &Need) -> bool
        ensures { result ≡ meets a.now p self.now.needs self.now.place }
    {
        self.needs
            .items()
            .iter()
            .any(|b| conflicts(a, b) || apart(a, p, b, self.place))
    }

    /// Whether this node names the number `n` in its list `after`.
    #[tactic(auto, unfolding(crate::specs::Before::names))]
    fn names(&self, n: u32) -> bool
        ensures { result ≡ names self.now n }
    {
        self.after.items().iter().any(|m| *m == n)
    }
}

/// Whether a need of the one and a need of the other conflict or are apart.
#[tactic(auto, unfolding(crate::specs::Before::meet))]
fn meet(x: &Node, y: &Node) -> bool
    ensures { result ≡ meet x.now y.now }
{
    x.needs.items().iter().any(|a| y.has_meeting(x.place, a))
}

/// Whether both are nodes of one in-order queue.
fn both_on(a: Option<u32>, b: Option<u32>) -> bool
    ensures { result ≡ both_on a b }
{
    match (a, b) {
        (Some(p), Some(q)) => p == q,
        (Some(_), None) => false,
        (None, _) => false,
    }
}

/// Whether the earlier node `x`, whose number is `n`, comes before `y`.
#[tactic(auto, unfolding(crate::specs::Before::before))]
pub fn before(x: &Node, n: u32, y: &Node) -> bool
    ensures { result ≡ before x.now n y.now }
{
    meet(x, y) || y.names(n) || both_on(x.in_order, y.in_order)
}
