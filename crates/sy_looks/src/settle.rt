//! A construct whose own rules were told.

ghost use Rattle.std.specs.Prelude.{◌≡◌, [], None};
ghost use Rattle.sy_constructs.specs.Uses.{foreign_found};
ghost use Rattle.sy_findings.specs.Told.{told};
ghost use Rattle.sy_looks.specs.Looked.{looked};
ghost use Rattle.sy_rules.specs.ExprRules.{faults};
ghost use Rattle.sy_rules.specs.ExprTypes.{seen_as, uses_of};
ghost use Rattle.sy_rules.specs.Foreign.{foreign_uses};
ghost use Rattle.sy_rules.specs.Layers.{SeenExpr};
ghost use Rattle.sy_rules.specs.Walk.{judged};

use crate::walk::Walk;
use sy_constructs::{Foreign, typed};
use sy_findings::Findings;
use sy_note::Spot;
use sy_rules::Seen;
use sy_typed::{Typed, TypedNode};

/// A construct that stands anywhere and uses no name. The rules that it breaks were told to `own`.
pub fn judge(w: &mut Walk, own: Findings, seen: Seen, node: TypedNode, spot: Spot) -> (Seen, Typed)
    ensures { (x : SeenExpr) → seen ≡ seen_as w.old.names x → own ≡ told None (faults w.old.names x) → foreign_uses w.old.names x ≡ [] → uses_of w.old.names x ≡ [] → (result, w.new) ≡ looked (judged x node spot) w.old }
{
    w.found.add(own);
    let tree = typed(node, seen.what, spot);
    (seen, tree)
}

/// A construct that kernels or groups may not have, and that uses no name.
pub fn judge_foreign(
    w: &mut Walk,
    own: Findings,
    foreign: Foreign,
    seen: Seen,
    node: TypedNode,
    spot: Spot,
) -> (Seen, Typed)
    ensures { (x : SeenExpr) → seen ≡ seen_as w.old.names x → own ≡ told None (faults w.old.names x) → foreign_uses w.old.names x ≡ foreign_found foreign → uses_of w.old.names x ≡ [] → (result, w.new) ≡ looked (judged x node spot) w.old }
{
    w.found.add(own);
    w.found.add_foreign(w.place, foreign);
    let tree = typed(node, seen.what, spot);
    (seen, tree)
}
