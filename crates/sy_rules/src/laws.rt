//! What the definitions promise. Each function's contract is a law, and its body is empty.

ghost use Rattle.std.specs.Prelude.{◌≡◌, ◌<◌, ◌≤◌, List, [], None, Some};
ghost use Rattle.sy_note.specs.declared.Diagnostic.{Diagnostic};
ghost use Rattle.sy_tree.specs.declared.tree.Unit.{Unit as SourceUnit};
ghost use Rattle.sy_rules.specs.Faults.{rank, first_broken};
ghost use Rattle.sy_rules.specs.Firsts.{IsFirst, NotBehind};
ghost use Rattle.sy_rules.specs.Units.{Accepted, broken_rules};
ghost use Rattle.sy_rules.specs.Worked.{Worked};

/// The first broken rule is there, and none is told sooner; there is none exactly where nothing is broken.
pub fn the_first_broken_rule_is_told()
    ensures first { (ds : List Diagnostic) (d : Diagnostic) → first_broken ds ≡ Some d → IsFirst ds d }
    ensures none { (ds : List Diagnostic) → first_broken ds ≡ None → ds ≡ [] }
{}

/// One rule is told no later than another where it stands before it in the source, or at the same place and not
/// behind it in the table. A column is a number of 32 bits.
pub fn rules_are_told_by_their_places()
    ensures { (d e : Diagnostic) → d.spot.column < 4294967296 → e.spot.column < 4294967296 → rank d ≤ rank e → NotBehind d e }
{}

/// A source is accepted exactly where it has no first broken rule.
pub fn accepted_sources_break_no_rule()
    ensures accepted { (u : SourceUnit) → first_broken (broken_rules u) ≡ None → Accepted u }
    ensures unbroken { (u : SourceUnit) → Accepted u → first_broken (broken_rules u) ≡ None }
{}

/// Small sources break what their readers expect: for each rule one that breaks it, with its place, and a neighbour
/// that breaks none. What only a group or kernel may use breaks another rule besides in host code, as nothing that it
/// takes is there. Two have the typed programs that stand beside them: a name by reference for an element is assigned
/// to, and a thread and a kernel are given copies of elements.
pub fn small_sources_break_their_rules()
    ensures { Worked }
{}
