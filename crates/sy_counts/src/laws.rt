// Laws of counts, each the contract of a function without parameters.

ghost use Rattle.std.specs.Prelude.{◌≡◌, ◌+◌, ◌||◌, ◌&&◌, ◌==◌, ◌++◌, ℕ, Option, List, [], ◌∷◌, true, false, if◌then◌else◌, nat_lt, length, map, Some, None, slice_get};
ghost use Rattle.std.specs.List.{range_with_len};
ghost use Rattle.sy_work.specs.declared.commands.Command.{Command};
ghost use Rattle.sy_work.specs.declared.endings.Fault.{Fault};
ghost use Rattle.sy_onecopy.specs.declared.Buffer.{Buffer};
ghost use Rattle.sy_onecopy.specs.declared.Entry.{Entry};
ghost use Rattle.sy_onecopy.specs.declared.Work.TheVariants.{Node};
ghost use Rattle.sy_onecopy.specs.declared.Stage.{Stage};
ghost use Rattle.sy_onecopy.specs.declared.Stage.TheVariants.{Failed};
ghost use Rattle.sy_onecopy.specs.Each.{changed_at};
ghost use Rattle.sy_onecopy.specs.Before.{is_node, is_done};
ghost use Rattle.sy_onecopy.specs.Settle.{with_stage};
ghost use Rattle.sy_onecopy.specs.State.{Board};
ghost use Rattle.sy_onecopy.specs.Step.{accesses, is_access_of, access_from, is_access, error_on, error_in, or_later, node_done, queue_done, is_past, live_elements, with_end};
ghost use Rattle.sy_onecopy.specs.Sequence.{has_open_node_on, has_open_node, first_error, error_of};
ghost use Rattle.sy_settling.specs.Orderly.{shape};
ghost use Rattle.sy_sound.specs.Sound.{IsSound, node_numbers};
ghost use Rattle.sy_counts.specs.Counts.{one_if, is_open_on, is_open_node, open_on, open_nodes, open_below, lesser_error};

/// A count is 0 exactly where nothing is open. A wait for a queue that is asked for on a sound board
/// waits for all open nodes of the queue.
pub fn counts_tell_what_is_open()
    ensures on { (es : List Entry) (q : ℕ) → has_open_node_on es q ≡ nat_lt 0 (open_on es q) }
    ensures nodes { (es : List Entry) → has_open_node es ≡ nat_lt 0 (open_nodes es) }
    ensures below { (es : List Entry) (q n : ℕ) → queue_done es q n ≡ (open_below es q n == 0) }
    ensures asked { (b : Board) (q : ℕ) → IsSound b → open_below b.entries q b.nodes ≡ open_on b.entries q }
{}

/// One entry more adds what it is to each count, and stands last where entries are looked for.
pub fn one_entry_more_is_counted()
    ensures on { (es : List Entry) (e : Entry) (q : ℕ) → open_on (es ++ e ∷ []) q ≡ open_on es q + one_if (is_open_on q e) }
    ensures nodes { (es : List Entry) (e : Entry) → open_nodes (es ++ e ∷ []) ≡ open_nodes es + one_if (is_open_node e) }
    ensures below { (es : List Entry) (e : Entry) (q n : ℕ) → open_below (es ++ e ∷ []) q n ≡ open_below es q n + (if is_past q n e then 0 else 1) }
    ensures done { (es : List Entry) (e : Entry) (n : ℕ) → node_done (es ++ e ∷ []) n ≡ (node_done es n || (is_node e.work n && is_done e.stage)) }
    ensures accesses { (es : List Entry) (e : Entry) (t : ℕ) → accesses (es ++ e ∷ []) t ≡ accesses es t + one_if (is_access_of t e.work) }
    ensures found { (at j : ℕ) (es : List Entry) (e : Entry) (t k : ℕ) → access_from at es t k ≡ Some j → access_from at (es ++ e ∷ []) t k ≡ Some j }
    ensures added { (at : ℕ) (es : List Entry) (e : Entry) (t k : ℕ) → access_from at es t k ≡ None → access_from at (es ++ e ∷ []) t k ≡ (if is_access e.work t k then Some (at + length es) else None) }
    ensures error_on { (es : List Entry) (e : Entry) (q : ℕ) → error_on q (es ++ e ∷ []) ≡ or_later (error_on q es) (error_in q e.work e.stage) }
    ensures first_error { (es : List Entry) (e : Entry) → first_error (es ++ e ∷ []) ≡ or_later (first_error es) (error_of e.work e.stage) }
{}

/// An entry whose stage changes is taken from each count as it was and added as it is; what doesn't turn
/// on stages stays.
pub fn one_entry_changes_its_counts()
    ensures on { (s : Stage) (k : ℕ) (es : List Entry) (e : Entry) (q : ℕ) → slice_get es k ≡ Some e → open_on (changed_at (with_stage s) k es) q + one_if (is_open_on q e) ≡ open_on es q + one_if (is_open_on q (with_stage s e)) }
    ensures nodes { (s : Stage) (k : ℕ) (es : List Entry) (e : Entry) → slice_get es k ≡ Some e → open_nodes (changed_at (with_stage s) k es) + one_if (is_open_node e) ≡ open_nodes es + one_if (is_open_node (with_stage s e)) }
    ensures below { (s : Stage) (k : ℕ) (es : List Entry) (e : Entry) (q n : ℕ) → slice_get es k ≡ Some e → open_below (changed_at (with_stage s) k es) q n + (if is_past q n e then 0 else 1) ≡ open_below es q n + (if is_past q n (with_stage s e) then 0 else 1) }
    ensures done { (s : Stage) (k : ℕ) (es : List Entry) (e : Entry) (n : ℕ) → slice_get es k ≡ Some e → is_done e.stage ≡ false → node_done (changed_at (with_stage s) k es) n ≡ (node_done es n || (is_node e.work n && is_done s)) }
    ensures accesses { (s : Stage) (k : ℕ) (es : List Entry) (t : ℕ) → accesses (changed_at (with_stage s) k es) t ≡ accesses es t }
    ensures access_from { (s : Stage) (k at : ℕ) (es : List Entry) (t i : ℕ) → access_from at (changed_at (with_stage s) k es) t i ≡ access_from at es t i }
{}

/// The error of the least failed node, of a queue or of all, may be kept as nodes fail in any order,
/// where they are numbered in the order of their entries; a stage that is no failure changes it nowhere.
pub fn the_least_failed_node_is_kept()
    ensures on_queue { (k m q n : ℕ) (es : List Entry) (e : Entry) (c : Command) (f : Fault) → node_numbers es ≡ range_with_len 0 n → slice_get es k ≡ Some e → e.work ≡ Node m q c → is_done e.stage ≡ false → error_on q (changed_at (with_stage (Failed f)) k es) ≡ lesser_error (error_on q es) (Some (record { node = m; fault = f })) }
    ensures other_queue { (s : Stage) (k q : ℕ) (es : List Entry) (e : Entry) → slice_get es k ≡ Some e → error_in q e.work e.stage ≡ None → error_in q e.work s ≡ None → error_on q (changed_at (with_stage s) k es) ≡ error_on q es }
    ensures of_all { (k m q n : ℕ) (es : List Entry) (e : Entry) (c : Command) (f : Fault) → node_numbers es ≡ range_with_len 0 n → slice_get es k ≡ Some e → e.work ≡ Node m q c → is_done e.stage ≡ false → first_error (changed_at (with_stage (Failed f)) k es) ≡ lesser_error (first_error es) (Some (record { node = m; fault = f })) }
    ensures no_failure { (s : Stage) (k : ℕ) (es : List Entry) (e : Entry) → slice_get es k ≡ Some e → error_of e.work e.stage ≡ None → error_of e.work s ≡ None → first_error (changed_at (with_stage s) k es) ≡ first_error es }
{}

/// The elements of the buffers that haven't ended: a buffer more, one that ends, and elements that
/// change.
pub fn one_buffer_counts_once()
    ensures more { (xs : List Buffer) (x : Buffer) → live_elements (xs ++ x ∷ []) ≡ live_elements xs + (if x.ended then 0 else length x.values) }
    ensures ends { (r : ℕ) (xs : List Buffer) (x : Buffer) → slice_get xs r ≡ Some x → x.ended ≡ false → live_elements (changed_at with_end r xs) + length x.values ≡ live_elements xs }
    ensures stays { (xs ys : List Buffer) → map shape xs ≡ map shape ys → live_elements xs ≡ live_elements ys }
{}
