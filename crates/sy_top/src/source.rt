// From the bytes of a source to its tree, and whether it is accepted.

ghost use Rattle.std.specs.Prelude.{◌≡◌, ◌≤◌, [], length, IfOk, IsErrOf, Some};
ghost use Rattle.sy_note.specs.declared.Diagnostic.{Diagnostic};
ghost use Rattle.sy_rules.specs.Faults.{first_broken};
ghost use Rattle.sy_rules.specs.Units.{broken_rules};
ghost use Rattle.sy_tree.specs.declared.tree.Unit.{Unit as SourceUnit};
ghost use Rattle.sy_top.specs.Sources.{IsSource, IsNoSource, IsAcceptedSource, IsNotAccepted};

use std::alloc::Global;
use sy_check::accept;
use sy_lex::tokens;
use sy_note::FrontStop;
use sy_punit::parse;
use sy_tree::Unit;

/// The tree of a source.
pub fn tree_of(alloc: Global, bytes: &[u8]) -> Result<Unit, FrontStop>
    requires { length bytes.now ≤ 1048576 }
    ensures found { IfOk result (IsSource bytes.now) }
    ensures only { IfOk result (λ u. (v : SourceUnit) → IsSource bytes.now v → v ≡ u) }
    ensures refused { (d : Diagnostic) → IsErrOf result (FrontStop.Refused d) → IsNoSource bytes.now d }
{
    match tokens(alloc, bytes) {
        Ok(toks) => parse(alloc, bytes, toks),
        Err(stop) => Err(stop),
    }
}

/// The same tree, if it breaks no rule of typing.
fn unbroken(alloc: Global, unit: Unit) -> Result<Unit, FrontStop>
    ensures same { IfOk result (λ u. u ≡ unit) }
    ensures ok { IfOk result (λ u. broken_rules u ≡ []) }
    ensures refused { (d : Diagnostic) → IsErrOf result (FrontStop.Refused d) → first_broken (broken_rules unit) ≡ Some d }
{
    match accept(alloc, &unit) {
        Ok(()) => Ok(unit),
        Err(broken) => Err(broken),
    }
}

/// The tree of a source that breaks no rule of typing.
pub fn accepted_tree(alloc: Global, bytes: &[u8]) -> Result<Unit, FrontStop>
    requires { length bytes.now ≤ 1048576 }
    ensures found { IfOk result (IsAcceptedSource bytes.now) }
    ensures only { IfOk result (λ u. (v : SourceUnit) → IsAcceptedSource bytes.now v → v ≡ u) }
    ensures refused { (d : Diagnostic) → IsErrOf result (FrontStop.Refused d) → IsNotAccepted bytes.now d }
{
    match tree_of(alloc, bytes) {
        Ok(unit) => unbroken(alloc, unit),
        Err(stop) => Err(stop),
    }
}
