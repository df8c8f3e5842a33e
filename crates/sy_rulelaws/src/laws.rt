//! Laws of the rules of typing, each the contract of a function without parameters.

ghost use Rattle.std.specs.Prelude.{◌≡◌, true, Some};
ghost use Rattle.sy_note.specs.declared.Diagnostic.{Diagnostic};
ghost use Rattle.sy_tree.specs.declared.tree.Unit.{Unit as SourceUnit};
ghost use Rattle.sy_rules.specs.Faults.{first_broken};
ghost use Rattle.sy_rules.specs.Units.{broken_rules};
ghost use Rattle.sy_rulelaws.specs.Typing.{is_typing};

/// The first broken rule of a source is one of typing: its code says neither that there is no token or no tree, nor that
/// a form isn't built.
pub fn broken_rules_are_of_typing()
    ensures { (u : SourceUnit) (d : Diagnostic) → first_broken (broken_rules u) ≡ Some d → is_typing d.code ≡ true }
{}
