//! Laws of footprints, each the contract of a function without parameters.

ghost use Rattle.std.specs.List.{list_any};
ghost use Rattle.std.specs.Prelude.{◌≡◌, ◌+◌, ◌++◌, ◌<◌, ℕ, ℤ, [], List, None, Some, false, true, flat_map, is_some, length, pos, reverse, unwrap_or};
ghost use Rattle.sy_access.specs.Logs.{logged};
ghost use Rattle.sy_access.specs.declared.cells.Cell.{Cell};
ghost use Rattle.sy_access.specs.declared.cells.Cell.TheVariants.{Buffer};
ghost use Rattle.sy_foot.specs.Footprints.{Advances, Notes, after_read, after_write, kept, read_clashes, write_clashes, written_by, written_with};
ghost use Rattle.sy_foot.specs.GroupLogs.{cell_log};
ghost use Rattle.sy_foot.specs.Summaries.{meets_at, state_at, states_of, writes_of};
ghost use Rattle.sy_foot.specs.declared.earlier.EarlierGroups.{EarlierGroups};
ghost use Rattle.sy_foot.specs.declared.earlier.State.TheVariants.{Untouched};
ghost use Rattle.sy_foot.specs.Numbering.{number_at, shared_total};
ghost use Rattle.sy_foot.specs.Writes.{number_of};
ghost use Rattle.sy_foot.specs.declared.entry.Entry.{Entry};
ghost use Rattle.sy_foot.specs.declared.footprint.Footprint.{Footprint};
ghost use Rattle.sy_foot.specs.declared.numbering.CellNumbers.{CellNumbers};
ghost use Rattle.sy_meaning.specs.declared.runs.Step.TheVariants.{Read, Wrote};
ghost use Rattle.sy_meaning.specs.declared.runs.Step.{Step};
ghost use Rattle.sy_meaning.specs.Items.{cell_of, clashes, is_write, written};
ghost use Rattle.sy_meaning.specs.Locations.{own, own_or_stored};
ghost use Rattle.sy_meaning.specs.Items as phases;
ghost use Rattle.sy_meaning.specs.Kernels.{Done, Touched, all_touches, both_done, done_after, group_clash, log_of, nothing_done};
ghost use Rattle.sy_footlaws.specs.Courses.{Course, all_steps, item_ended, nothing_yet, phase_ended, with_step};
ghost use Rattle.sy_footlaws.specs.Groups.{Absorbs, AreNumbered, GroupsStandFor, IsLogOf, steps_of, writes_made};
ghost use Rattle.sy_footlaws.specs.Kernels.{AreShared, AreStepsOf, group_met};
ghost use Rattle.sy_footlaws.specs.Standing.{StandsFor};

/// A footprint stands for what its items did: for nothing at first, after each read and write for that step more, and
/// so on over the ends of items and phases.
pub fn a_footprint_stands_for_its_steps()
    ensures begins { (m : CellNumbers) (opening : Cell → ℤ) (f : Footprint) → ((c : ℕ) → kept f c ≡ None) → f.start ≡ 1 → f.turn ≡ 1 → StandsFor m opening f nothing_yet }
    ensures read { (m : CellNumbers) (opening : Cell → ℤ) (f g : Footprint) (r : Course) (c : Cell) (n line : ℕ) → StandsFor m opening f r → number_at m c ≡ Some n → Notes f g (after_read f n (opening c) (kept f n)) → StandsFor m opening g (with_step r (Read c line)) }
    ensures write { (m : CellNumbers) (opening : Cell → ℤ) (f g : Footprint) (r : Course) (c : Cell) (n line : ℕ) (x : ℤ) → StandsFor m opening f r → number_at m c ≡ Some n → write_clashes f (kept f n) ≡ false → Notes f g (after_write f n x) → StandsFor m opening g (with_step r (Wrote c x line)) }
    ensures item { (m : CellNumbers) (opening : Cell → ℤ) (f g : Footprint) (r : Course) → StandsFor m opening f r → Advances f g f.start (f.turn + 1) → StandsFor m opening g (item_ended r) }
    ensures phase { (m : CellNumbers) (opening : Cell → ℤ) (f g : Footprint) (r : Course) → StandsFor m opening f r → Advances f g (f.turn + 1) (f.turn + 1) → StandsFor m opening g (phase_ended r) }
{}

/// A touch is answered as a clash exactly where it clashes with a step of an earlier item in the phase.
pub fn a_clash_is_with_an_earlier_item()
    ensures read { (m : CellNumbers) (opening : Cell → ℤ) (f : Footprint) (r : Course) (c : Cell) (n line : ℕ) → StandsFor m opening f r → number_at m c ≡ Some n → read_clashes f (kept f n) ≡ list_any (clashes (Read c line)) r.earlier }
    ensures write { (m : CellNumbers) (opening : Cell → ℤ) (f : Footprint) (r : Course) (c : Cell) (n line : ℕ) (x : ℤ) → StandsFor m opening f r → number_at m c ≡ Some n → write_clashes f (kept f n) ≡ list_any (clashes (Wrote c x line)) r.earlier }
{}

/// A read that doesn't clash sees the number that the meaning gives the item: its own last write in the phase, or else
/// that of the phase's store, which is the opening one behind the writes of the phases before.
pub fn a_read_sees_the_phases_store()
    ensures number { (m : CellNumbers) (opening : Cell → ℤ) (f : Footprint) (r : Course) (c : Cell) (n : ℕ) (cells : List (Cell × ℤ)) → StandsFor m opening f r → number_at m c ≡ Some n → read_clashes f (kept f n) ≡ false → opening c ≡ unwrap_or (logged cells c) (pos 0) → number_of (opening c) (kept f n) ≡ own_or_stored (own (reverse r.own) c) (reverse (writes_made r.before) ++ cells) c }
    ensures store { (ss : List Step) (fs : List phases.Footprint) (cells : List (Cell × ℤ)) → written (record { cells = reverse (writes_made ss) ++ cells }) fs ≡ record { cells = reverse (writes_made (ss ++ steps_of fs)) ++ cells } }
{}

/// What a group writes to buffers is, at each step, the log of its steps by the kernel's meaning.
pub fn a_group_writes_its_log()
    ensures begins { (m : CellNumbers) (f : Footprint) → written_by f ≡ [] → IsLogOf m f nothing_yet }
    ensures read { (m : CellNumbers) (f g : Footprint) (r : Course) (c : Cell) (n line : ℕ) (z : ℤ) → IsLogOf m f r → written_by g ≡ written_by f → Notes f g (after_read f n z (kept f n)) → IsLogOf m g (with_step r (Read c line)) }
    ensures write { (m : CellNumbers) (f g : Footprint) (r : Course) (c : Cell) (n line : ℕ) (x : ℤ) → IsLogOf m f r → number_at m c ≡ Some n → written_by g ≡ written_with f n → Notes f g (after_write f n x) → IsLogOf m g (with_step r (Wrote c x line)) }
    ensures item { (m : CellNumbers) (f g : Footprint) (r : Course) (start turn : ℕ) → IsLogOf m f r → Advances f g start turn → IsLogOf m g (item_ended r) }
    ensures phase { (m : CellNumbers) (f g : Footprint) (r : Course) (start turn : ℕ) → IsLogOf m f r → Advances f g start turn → IsLogOf m g (phase_ended r) }
{}

/// The earlier groups' states and log stand for their steps: for none at first, and for those of a group more after it
/// is absorbed.
pub fn earlier_groups_stand_for_their_steps()
    ensures begins { (m : CellNumbers) (g : EarlierGroups) → length (states_of g) ≡ shared_total m → ((c : ℕ) → c < shared_total m → state_at g c ≡ Some Untouched) → writes_of g ≡ [] → GroupsStandFor m g [] }
    ensures absorbed { (m : CellNumbers) (opening : Cell → ℤ) (g h : EarlierGroups) (f : Footprint) (ss : List Step) (r : Course) → GroupsStandFor m g ss → StandsFor m opening f r → IsLogOf m f r → AreNumbered m (all_steps r) → Absorbs g h f → GroupsStandFor m h (ss ++ all_steps r) }
    ensures meets { (m : CellNumbers) (g : EarlierGroups) (ss : List Step) (s : Step) (root i n : ℕ) → GroupsStandFor m g ss → cell_of s ≡ Buffer root i → number_at m (Buffer root i) ≡ Some n → meets_at g n (is_write s) ≡ list_any (clashes s) ss }
{}

/// The touches and writes of groups, as the kernel's meaning has them, are those of the steps.
pub fn a_kernel_has_the_groups_steps()
    ensures begins { AreStepsOf nothing_done [] }
    ensures phase { (d : Done) (ss : List Step) (fs : List phases.Footprint) → AreStepsOf d ss → AreStepsOf (done_after d fs) (ss ++ steps_of fs) }
    ensures group { (d e : Done) (ss ts : List Step) → AreStepsOf d ss → AreStepsOf e ts → AreStepsOf (both_done d e) (ss ++ ts) }
{}

/// A group is absorbed exactly where no step of it clashes with an earlier group, by the kernel's meaning; the least item
/// that has such a step, and its first one, are those of which `meets` answers yes; and what the groups wrote is the
/// kernel's log.
pub fn absorbing_is_the_kernels()
    ensures calm { (m : CellNumbers) (opening : Cell → ℤ) (g : EarlierGroups) (f : Footprint) (ss : List Step) (r : Course) (before d : Done) → GroupsStandFor m g ss → StandsFor m opening f r → AreNumbered m (all_steps r) → AreStepsOf before ss → AreStepsOf d (all_steps r) → ((c : ℕ) (e : Entry) → kept f c ≡ Some e → meets_at g c e.wrote ≡ false) → group_clash (all_touches before) d.touches ≡ None }
    ensures clash { (m : CellNumbers) (opening : Cell → ℤ) (g : EarlierGroups) (f : Footprint) (ss : List Step) (r : Course) (before d : Done) → GroupsStandFor m g ss → StandsFor m opening f r → AreStepsOf before ss → AreStepsOf d (all_steps r) → (n : ℕ) (e : Entry) → kept f n ≡ Some e → meets_at g n e.wrote ≡ true → is_some (group_clash (all_touches before) d.touches) ≡ true }
    ensures least { (m : CellNumbers) (g : EarlierGroups) (ss : List Step) (before : Done) → GroupsStandFor m g ss → AreStepsOf before ss → (ts : List Touched) → AreShared m (flat_map (λ t. t.1) ts) → group_clash (all_touches before) ts ≡ group_met m g ts }
    ensures log { (m : CellNumbers) (g : EarlierGroups) (ss : List Step) (d : Done) → GroupsStandFor m g ss → AreStepsOf d ss → cell_log m (writes_of g) ≡ log_of d.writes }
{}
