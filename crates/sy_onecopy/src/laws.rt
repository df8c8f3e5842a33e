// Laws of the machine, each the contract of a function without parameters.

ghost use Rattle.std.specs.Prelude.{◌≡◌, ◌+◌, ◌++◌, ℕ, ℤ, List, [], ◌∷◌, false, true, Option, None, Some};
ghost use Rattle.sy_work.specs.declared.endings.Ending.{Ending};
ghost use Rattle.sy_work.specs.Programs.{OutcomeOf, Program};
ghost use Rattle.sy_access.specs.declared.access.Need.{Need};
ghost use Rattle.sy_access.specs.declared.cells.Cell.{Cell};
ghost use Rattle.sy_onecopy.specs.declared.Buffer.{Buffer};
ghost use Rattle.sy_onecopy.specs.Laws.{IsSettled};
ghost use Rattle.sy_needs.specs.Order.{needs_meet};
ghost use Rattle.sy_onecopy.specs.Outcome.{buffers_after, inputs};
ghost use Rattle.sy_onecopy.specs.Settle.{settle};
ghost use Rattle.sy_onecopy.specs.State.{Board, State, start};
ghost use Rattle.sy_onecopy.specs.Step.{step};
ghost use Rattle.sy_onecopy.specs.Sequence.{is_legal, first_thread, ending, IsRun, IsSerial};
ghost use Rattle.sy_onecopy.specs.declared.Entry.{Entry};
ghost use Rattle.sy_onecopy.specs.Copies.{pairs_from, pairs_after, version_from, made_from};

/// Each step adds one to the history.
pub fn steps_are_counted()
    ensures { (p : Program) (s : State) (t : ℕ) → (step p s t).board.steps ≡ s.board.steps + 1 }
{}

/// Where a run has ended no thread may step.
pub fn an_ending_is_final()
    ensures { (p : Program) (s : State) (e : Ending) (t : ℕ) → ending p s ≡ Some e → is_legal p s t ≡ false }
{}

/// One pass over the entries leaves none that could take effect, so another pass changes nothing.
pub fn one_pass_settles()
    ensures settled { (out : OutcomeOf) (b : Board) → IsSettled (settle out b) }
    ensures again { (out : OutcomeOf) (b : Board) → settle out (settle out b) ≡ settle out b }
{}

/// Two commands of which neither comes before the other leave the same in either order, and neither
/// changes what the other is given.
pub fn independent_outcomes_commute()
    ensures buffers { (xs ys : List Need) (p q : ℕ) (u v : List (Cell × ℤ)) (buffers : List Buffer) → needs_meet xs p ys q ≡ false → buffers_after xs u (buffers_after ys v buffers) ≡ buffers_after ys v (buffers_after xs u buffers) }
    ensures inputs { (xs ys : List Need) (p q : ℕ) (v : List (Cell × ℤ)) (buffers : List Buffer) → needs_meet xs p ys q ≡ false → inputs (buffers_after ys v buffers) xs ≡ inputs buffers xs }
{}

/// A state without an ending has a thread that may step, and the least of those that are ready to is one.
pub fn a_run_goes_on_until_it_ends()
    ensures { (p : Program) (s : State) → ending p s ≡ None → (t : ℕ) × (first_thread p s ≡ Some t) × (is_legal p s t ≡ true) }
{}

/// An order of steps decides how its run ends, what it prints and how many copies it needs. Two runs in
/// which the least thread makes each step have one order. So with one host thread all of this is fixed by
/// the program.
pub fn serial_runs_are_one()
    ensures order { (p : Program) (order : List ℕ) (e f : Ending) (v w : List ℕ) (m n : ℕ) → IsRun p order e v m → IsRun p order f w n → (f ≡ e) × (w ≡ v) × (n ≡ m) }
    ensures serial { (p : Program) (order other : List ℕ) (e f : Ending) (v w : List ℕ) (m n : ℕ) → IsRun p order e v m → IsSerial p (start p) order → IsRun p other f w n → IsSerial p (start p) other → (other ≡ order) × (f ≡ e) × (w ≡ v) × (n ≡ m) }
{}

/// The pairs of a version and a place that are counted for one entry more at the end: those of the
/// entries before it, and its own, if it has one.
pub fn one_entry_more_counts_its_pair()
    ensures { (r count : ℕ) (es : List Entry) (e : Entry) (version : ℕ) (made : Option ℕ) (pairs : List (ℕ × ℕ)) → pairs_from r count (es ++ e ∷ []) version made pairs ≡ pairs_after e r count (version_from r es version) (made_from r es made) (pairs_from r count es version made pairs) }
{}
