//! How what is found in parts of a source comes together.

ghost use Rattle.std.specs.Prelude.{◌≡◌, ◌++◌, List, Option, Some, flat_map};
ghost use Rattle.sy_note.specs.declared.Spot.{Spot};
ghost use Rattle.sy_found.specs.Noted.{Notes, found_in, placed_by};
ghost use Rattle.sy_found.specs.declared.parts.Place.{Place};
ghost use Rattle.sy_findings.specs.Told.{told};
ghost use Rattle.sy_rules.specs.Outcome.{Finding, placed, all_broken};
ghost use Rattle.sy_rules.specs.declared.names.Within.{Within};

/// What is found in a list may be found in two parts of it; what is found in a statement of its own is found as if it
/// stood at that place alone; and the broken rule that is told first is that of the findings in their places.
pub fn findings_come_together()
    ensures in_parts { (p : Option Place) (t : Notes) (xs ys : List Finding) → found_in p t (xs ++ ys) ≡ found_in p (found_in p t xs) ys }
    ensures in_statements { (p : Option Place) (t : Notes) (w : Within) (s : Spot) (xs : List Finding) → found_in p t (flat_map (placed w s) xs) ≡ found_in (Some (record { within = w; statement = s })) t xs }
    ensures first { (p : Option Place) (t : Notes) (xs : List Finding) → (found_in p t xs).first ≡ told t.first (all_broken (flat_map (placed_by p) xs)) }
{}
