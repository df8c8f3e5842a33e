// Laws of the graph and of the copies beside the machine, each the contract of a function without parameters.

ghost use Rattle.std.specs.Prelude.{◌≡◌, ◌+◌, ◌<◌, ◌==◌, ◌++◌, All, slice_set, ℕ, ℤ, pos, List, [], ◌∷◌, None, true, false, length, Option, Some, slice_get};
ghost use Rattle.std.specs.List.{list_any, list_all};
ghost use Rattle.sy_access.specs.declared.access.Need.{Need};
ghost use Rattle.sy_access.specs.declared.cells.Cell.{Cell};
ghost use Rattle.sy_work.specs.Moves.{writes_from};
ghost use Rattle.sy_graph.specs.declared.node.Node.{Node};
ghost use Rattle.sy_graph.specs.Before.{is_ready};
ghost use Rattle.sy_onecopy.specs.declared.Entry.{Entry};
ghost use Rattle.sy_onecopy.specs.declared.Stage.{Stage};
ghost use Rattle.sy_onecopy.specs.Each.{changed_at};
ghost use Rattle.sy_onecopy.specs.Before.{is_free, is_pending, is_done, is_named};
ghost use Rattle.sy_onecopy.specs.Settle.{with_stage};
ghost use Rattle.sy_onecopy.specs.declared.Buffer.{Buffer};
ghost use Rattle.sy_onecopy.specs.State.{Board};
ghost use Rattle.sy_onecopy.specs.Step.{writes_if_fresh, put_back};
ghost use Rattle.sy_onecopy.specs.Copies.{makes, uses};
ghost use Rattle.sy_onecopy.specs.Outcome.{values_at, buffers_after};
ghost use Rattle.sy_needs.specs.Versions.{replaces};
ghost use Rattle.sy_sound.specs.Sound.{IsSound};
ghost use Rattle.sy_copies.specs.Calls.{version};
ghost use Rattle.sy_links.specs.Example.{odd_needs, sevens};
ghost use Rattle.sy_links.specs.Links.{IsNode, IsGraph, AreIndexes, indexes_of};

/// A pending entry may take effect exactly where the graph says that its node is ready.
pub fn ready_nodes_are_free_entries()
    ensures { (entries : List Entry) (nodes : List (Option Node)) (k : ℕ) (e : Entry) → IsGraph entries nodes → slice_get entries k ≡ Some e → is_pending e.stage ≡ true → is_free entries k e ≡ is_ready nodes k }
{}

/// What keeps the graph in step with the entries: a node added with an entry, and a node done with its
/// entry; when a host access is granted the graph stays. A node whose list is the indexes of the nodes
/// that its entry names, names what the entry names.
pub fn the_graph_goes_with_the_entries()
    ensures added { (entries : List Entry) (nodes : List (Option Node)) (e : Entry) (n : Node) → IsGraph entries nodes → is_done e.stage ≡ false → IsNode entries (length entries) e n → IsGraph (entries ++ e ∷ []) (nodes ++ Some n ∷ []) }
    ensures finished { (s : Stage) (k : ℕ) (entries : List Entry) (nodes : List (Option Node)) (e : Entry) → IsGraph entries nodes → slice_get entries k ≡ Some e → is_done e.stage ≡ false → is_done s ≡ true → IsGraph (changed_at (with_stage s) k entries) (slice_set nodes k None) }
    ensures granted { (s : Stage) (k : ℕ) (entries : List Entry) (nodes : List (Option Node)) (e : Entry) → IsGraph entries nodes → slice_get entries k ≡ Some e → is_done e.stage ≡ false → is_done s ≡ false → IsGraph (changed_at (with_stage s) k entries) nodes }
    ensures named { (entries : List Entry) (indexes after : List ℕ) (j : ℕ) (x : Entry) → AreIndexes entries indexes → slice_get entries j ≡ Some x → All (λ n. n < length indexes) after → list_any (λ m. m == j) (indexes_of indexes after) ≡ is_named x.work after }
{}

/// The version of a root that a command makes of its place's copy is what the machine's board has after
/// it, where the copy is current if the command needs it. Each need of it that has `no_init` has to
/// write, as the needs on a sound board do. What a closed host access gives back is what a command with
/// its need leaves whose log names each element.
pub fn versions_are_outcomes()
    ensures version { (e : Entry) (log : List (Cell × ℤ)) (buffers : List Buffer) (r : ℕ) (copy : Option (List ℤ)) → list_all writes_if_fresh e.needs ≡ true → makes e r ≡ true → (uses e r (length (values_at buffers r)) ≡ true → copy ≡ Some (values_at buffers r)) → version e.needs log r (length (values_at buffers r)) copy ≡ values_at (buffers_after e.needs log buffers) r }
    ensures sound { (b : Board) (k : ℕ) (e : Entry) → IsSound b → slice_get b.entries k ≡ Some e → list_all writes_if_fresh e.needs ≡ true }
    ensures put_back { (b : Board) (n : Need) (values : List ℤ) → n.from + length values ≡ n.to → (put_back b n values).buffers ≡ buffers_after (n ∷ []) (writes_from n.buffer n.from values) b.buffers }
{}

/// Why: a command that reads two elements with `no_init` and writes the first needs no copy of their
/// buffer by the count of copies. The machine keeps its second element, and the version that is made
/// without a copy doesn't have it.
pub fn a_need_with_no_init_has_to_write()
    ensures replaced { replaces odd_needs 0 2 ≡ true }
    ensures kept { values_at (buffers_after odd_needs [] sevens) 0 ≡ pos 0 ∷ pos 7 ∷ [] }
    ensures lost { version odd_needs [] 0 2 None ≡ pos 0 ∷ pos 0 ∷ [] }
{}
