//! What it comes to that rules are told one by one.

ghost use Rattle.std.specs.Prelude.{◌≡◌, ◌++◌, List, Option, None};
ghost use Rattle.sy_note.specs.declared.Diagnostic.{Diagnostic};
ghost use Rattle.sy_rules.specs.Faults.{first_broken, sooner};
ghost use Rattle.sy_findings.specs.Told.{told};

/// What is told in the end is the first broken rule of all, whatever was told in which call.
pub fn the_first_of_all_is_told()
    ensures first { (ds : List Diagnostic) → told None ds ≡ first_broken ds }
    ensures in_parts { (f : Option Diagnostic) (xs ys : List Diagnostic) → told f (xs ++ ys) ≡ told (told f xs) ys }
    ensures later { (f : Option Diagnostic) (ds : List Diagnostic) → told f ds ≡ sooner f (first_broken ds) }
{}
