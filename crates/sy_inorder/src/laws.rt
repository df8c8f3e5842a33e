// Laws over whole sequences of steps, each the contract of a function without parameters.

ghost use Rattle.std.specs.Prelude.{◌≡◌, ◌++◌, ◌<◌, ◌-◌, ℕ, suc, ℤ, List, [], ◌∷◌, true, false, length, take, drop, Some, slice_get};
ghost use Rattle.sy_access.specs.declared.access.Need.{Need};
ghost use Rattle.sy_access.specs.declared.cells.Cell.{Cell};
ghost use Rattle.sy_access.specs.declared.cells.Cell.TheVariants as cell;
ghost use Rattle.sy_access.specs.Logs.{logged};
ghost use Rattle.sy_access.specs.Needs.{has_cell, writes};
ghost use Rattle.sy_work.specs.declared.asks.Answer.TheVariants.{Contents};
ghost use Rattle.sy_work.specs.declared.asks.Ask.TheVariants.{OpenHost};
ghost use Rattle.sy_work.specs.declared.commands.Command.{Command};
ghost use Rattle.sy_work.specs.declared.commands.Outcome.TheVariants.{Wrote};
ghost use Rattle.sy_work.specs.Programs.{OutcomeOf, Program};
ghost use Rattle.sy_onecopy.specs.declared.Buffer.{Buffer};
ghost use Rattle.sy_onecopy.specs.declared.Entry.{Entry};
ghost use Rattle.sy_onecopy.specs.declared.Waits.TheVariants.{Due};
ghost use Rattle.sy_onecopy.specs.declared.Work.TheVariants.{Node, Access, End};
ghost use Rattle.sy_onecopy.specs.Before.{before, is_done, is_held, is_pending};
ghost use Rattle.sy_onecopy.specs.Outcome.{inputs, values_at};
ghost use Rattle.sy_needs.specs.Elements.{is_written};
ghost use Rattle.sy_onecopy.specs.Sequence.{is_legal, seq};
ghost use Rattle.sy_onecopy.specs.Settle.{first_of, settle_upto};
ghost use Rattle.sy_onecopy.specs.State.{Board, State, next_ask};
ghost use Rattle.sy_onecopy.specs.Step.{is_root_need};
ghost use Rattle.sy_inorder.specs.Effects.{TakesEffect, turned};
ghost use Rattle.sy_inorder.specs.Ledger.{Ledger, asked, closed_with, execute_done, execute_all, ledger_of};
ghost use Rattle.sy_inorder.specs.Reading.{all_keep_off, all_let_read, follows, follows_none, only_reads};
ghost use Rattle.sy_inorder.specs.Sequential.{Execution, element, numbers_of, some_has, some_writes, stage_by, execute};

/// Of two entries that only read, neither waits for the other, unless it names it or they are nodes
/// of one in-order queue. In each state of a legal sequence an entry that meets and follows none of
/// the earlier ones that aren't done has taken effect. So a host access that only reads is granted
/// where the earlier ones that aren't done only read: in the step that opens it its contents are due.
pub fn readers_do_not_wait()
    ensures pairs { (x y : Entry) → only_reads x.needs ≡ true → only_reads y.needs ≡ true → before x y ≡ follows y x }
    ensures held { (earlier : List Entry) (y : Entry) → all_keep_off y earlier ≡ true → follows_none y earlier ≡ true → is_held earlier y ≡ false }
    ensures off { (earlier : List Entry) (y : Entry) → only_reads y.needs ≡ true → all_let_read earlier ≡ true → all_keep_off y earlier ≡ true }
    ensures moves { (p : Program) (order : List ℕ) (s : State) (k : ℕ) (e : Entry) → seq p order ≡ Some s → slice_get s.board.entries k ≡ Some e → all_keep_off e (take k s.board.entries) ≡ true → follows_none e (take k s.board.entries) ≡ true → is_pending e.stage ≡ false }
    ensures granted { (p : Program) (order : List ℕ) (s : State) (k t i : ℕ) (e : Entry) → seq p order ≡ Some s → slice_get s.board.entries k ≡ Some e → e.work ≡ Access t i → only_reads e.needs ≡ true → all_let_read (take k s.board.entries) ≡ true → is_pending e.stage ≡ false }
    ensures opened { (p : Program) (order : List ℕ) (s : State) (t : ℕ) (n : Need) → seq p order ≡ Some s → is_legal p s t ≡ true → next_ask p s t ≡ OpenHost n → is_root_need s.board.buffers n ≡ true → only_reads (n ∷ []) ≡ true → all_let_read s.board.entries ≡ true → slice_get (turned p s t).waits t ≡ Some (Due (Contents (first_of (inputs s.board.buffers (n ∷ []))))) }
{}

/// In a sequential execution an element that no entry writes keeps its first number, and else it has what
/// the last entry that writes it left: for a command the number that its log has for the element,
/// and for a host access the one that it was closed with.
pub fn the_last_writer_decides()
    ensures first { (s : Execution) (k : ℕ) (entries : List Entry) (buffers : List Buffer) (b i : ℕ) → some_writes entries b i ≡ false → element (execute s k entries buffers) b i ≡ element buffers b i }
    ensures last { (out : OutcomeOf) (l : Ledger) (entries : List Entry) (j b i : ℕ) → some_writes (drop (suc j) entries) b i ≡ false → element (execute_all out l entries) b i ≡ element (execute_all out l (take (suc j) entries)) b i }
    ensures wrote { (out : OutcomeOf) (l : Ledger) (entries : List Entry) (j b i n q : ℕ) (e : Entry) (c : Command) (log : List (Cell × ℤ)) (v : ℤ) → slice_get entries j ≡ Some e → e.work ≡ Node n q c → out c (inputs (execute_all out l (take j entries)) e.needs) ≡ Wrote log → is_written e.needs b i ≡ true → logged log (cell.Buffer b i) ≡ Some v → i < length (values_at l.made b) → element (execute_all out l (take (suc j) entries)) b i ≡ Some v }
    ensures closed { (out : OutcomeOf) (l : Ledger) (entries : List Entry) (j b i t a : ℕ) (e : Entry) (n : Need) (v : ℤ) → slice_get entries j ≡ Some e → e.work ≡ Access t a → e.needs ≡ n ∷ [] → writes n.mode ≡ true → has_cell n b i ≡ true → slice_get (closed_with l.closings j) (i - n.from) ≡ Some v → i < length (values_at l.made b) → element (execute_all out l (take (suc j) entries)) b i ≡ Some v }
{}

/// In each state of a legal sequence the buffers hold what the entries that are done leave when they
/// are done one after another in their order, and each command that is done has succeeded or failed
/// as it does on what all the entries before it leave so. That is also what an entry is given when it
/// takes effect: of each element that it names, what the last one that writes the element left, or
/// its first number.
pub fn commands_run_as_if_in_order()
    ensures buffers { (p : Program) (order : List ℕ) (s : State) → seq p order ≡ Some s → numbers_of s.board.buffers ≡ numbers_of (execute_done p.outcome (ledger_of p order) s.board.entries) }
    ensures outcomes { (p : Program) (order : List ℕ) (s : State) (k n q : ℕ) (e : Entry) (c : Command) → seq p order ≡ Some s → slice_get s.board.entries k ≡ Some e → e.work ≡ Node n q c → is_done e.stage ≡ true → e.stage ≡ stage_by (p.outcome c (inputs (execute_all p.outcome (ledger_of p order) (take k s.board.entries)) e.needs)) }
    ensures inputs { (p : Program) (order : List ℕ) (s : State) (t k : ℕ) (e : Entry) (m : Board) → TakesEffect p order s t k e m → inputs m.buffers e.needs ≡ inputs (execute_all p.outcome (ledger_of p (order ++ t ∷ [])) (take k m.entries)) e.needs }
    ensures first { (p : Program) (order : List ℕ) (s : State) (t k b i : ℕ) (e : Entry) (m : Board) → TakesEffect p order s t k e m → some_has e.needs b i ≡ true → some_writes (take k m.entries) b i ≡ false → element m.buffers b i ≡ element (ledger_of p (order ++ t ∷ [])).made b i }
    ensures last { (p : Program) (order : List ℕ) (s : State) (t k j b i : ℕ) (e : Entry) (m : Board) → TakesEffect p order s t k e m → some_has e.needs b i ≡ true → some_writes (drop (suc j) (take k m.entries)) b i ≡ false → element m.buffers b i ≡ element (execute_all p.outcome (ledger_of p (order ++ t ∷ [])) (take (suc j) (take k m.entries))) b i }
{}

/// An entry that is pending as an ask leaves it, and no longer is after the turn, has taken effect on
/// the board of the pass at its place.
pub fn what_leaves_the_pending_ones_took_effect()
    ensures { (p : Program) (order : List ℕ) (s : State) (t k : ℕ) (e x : Entry) → seq p order ≡ Some s → is_legal p s t ≡ true → slice_get (asked s.board t (next_ask p s t)).entries k ≡ Some e → is_pending e.stage ≡ true → slice_get (turned p s t).entries k ≡ Some x → is_pending x.stage ≡ false → TakesEffect p order s t k e (settle_upto p.outcome (asked s.board t (next_ask p s t)) k) }
{}

/// A host access that is granted gets the numbers that all the entries before it leave when they are
/// done one after another in their order.
pub fn a_host_access_gets_what_the_last_writers_left()
    ensures { (p : Program) (order : List ℕ) (s : State) (t k u i : ℕ) (e : Entry) (m : Board) → TakesEffect p order s t k e m → e.work ≡ Access u i → slice_get (turned p s t).waits u ≡ Some (Due (Contents (first_of (inputs (execute_all p.outcome (ledger_of p (order ++ t ∷ [])) (take k m.entries)) e.needs)))) }
{}

/// When a buffer over a vector ends, the vector gets the numbers that all the entries before the end
/// leave when they are done one after another in their order.
pub fn a_vector_gets_what_the_last_writer_left()
    ensures { (p : Program) (order : List ℕ) (s : State) (t k u r : ℕ) (e : Entry) (m : Board) → TakesEffect p order s t k e m → e.work ≡ End u r → slice_get (turned p s t).waits u ≡ Some (Due (Contents (values_at (execute_all p.outcome (ledger_of p (order ++ t ∷ [])) (take k m.entries)) r))) }
{}
