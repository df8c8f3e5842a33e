// What the needs of one command say of a root and of its elements.

ghost use Rattle.std.specs.Prelude.{◌≡◌};
ghost use Rattle.sy_copies.specs.Commands.{keeps};
ghost use Rattle.sy_needs.specs.Elements.{is_written};
ghost use Rattle.sy_needs.specs.Versions.{renews, covers, forgoes, replaces};

use sy_access::Need;

/// Whether a need that writes has the element.
#[tactic(auto, unfolding(sy_needs::specs::Elements::is_written))]
pub fn is_written(needs: &[Need], root: u32, i: usize) -> bool
    ensures { result ≡ is_written needs.now root i }
{
    needs.iter().any(|n| n.has(root, i) && n.mode.writes())
}

/// Whether a need on the root writes.
#[tactic(auto, unfolding(sy_needs::specs::Versions::renews))]
pub fn renews(needs: &[Need], root: u32) -> bool
    ensures { result ≡ renews needs.now root }
{
    needs.iter().any(|n| n.buffer == root && n.mode.writes())
}

/// Whether a need has all `len` elements of the root.
#[tactic(auto, unfolding(sy_needs::specs::Versions::covers))]
fn covers(needs: &[Need], root: u32, len: u64) -> bool
    ensures { result ≡ covers needs.now root len }
{
    needs
        .iter()
        .any(|n| n.buffer == root && n.from == 0 && len <= n.to as u64)
}

/// Whether all needs on the root have no_init.
#[tactic(auto, unfolding(sy_needs::specs::Versions::forgoes))]
fn forgoes(needs: &[Need], root: u32) -> bool
    ensures { result ≡ forgoes needs.now root }
{
    needs.iter().all(|n| n.buffer != root || n.no_init)
}

/// Whether the command has no use for the numbers of a root of `len` elements.
#[tactic(auto, unfolding(sy_needs::specs::Versions::replaces))]
pub fn replaces(needs: &[Need], root: u32, len: u64) -> bool
    ensures { result ≡ replaces needs.now root len }
{
    covers(needs, root, len) && forgoes(needs, root)
}

/// Whether the need has elements of the root whose numbers it wants.
pub fn keeps(need: &Need, root: u32) -> bool
    ensures { result ≡ keeps need.now root }
{
    need.buffer == root && !need.no_init && need.from < need.to
}
