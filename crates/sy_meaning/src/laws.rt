//! Laws of the meaning of a source, each the contract of a function without parameters.

ghost use Rattle.std.specs.Prelude.{◌≡◌, ◌++◌, ℕ, ℤ, List, [], ◌∷◌, true, Option, None, Some, Ok, Err, ◌+◌, ◌≤◌, length, slice_get};
ghost use Rattle.sy_access.specs.declared.cells.Cell.{Cell};
ghost use Rattle.sy_range.specs.declared.nd_ranges.Position.{Position};
ghost use Rattle.sy_work.specs.declared.commands.Kernel.{Kernel};
ghost use Rattle.sy_work.specs.declared.commands.Outcome.{Outcome};
ghost use Rattle.sy_work.specs.declared.asks.Answer.{Answer};
ghost use Rattle.sy_work.specs.declared.asks.Ask.{Ask};
ghost use Rattle.sy_work.specs.declared.endings.Fault.{Fault};
ghost use Rattle.sy_work.specs.Programs.{Input};
ghost use Rattle.sy_typed.specs.declared.things.Thing.{Thing};
ghost use Rattle.sy_typed.specs.declared.tree.Typed.{Typed};
ghost use Rattle.sy_typed.specs.declared.tree.TypedStmt.{TypedStmt};
ghost use Rattle.sy_typed.specs.declared.tree.Variable.{Variable};
ghost use Rattle.sy_meaning.specs.declared.runs.Store.{Store};
ghost use Rattle.sy_meaning.specs.Words.{Object, as_thing};
ghost use Rattle.sy_meaning.specs.Lambdas.{all_words};
ghost use Rattle.sy_meaning.specs.Next.{asks_before, calls_of, entered, item, means, means_with, next, objects_from};
ghost use Rattle.sy_meaning.specs.declared.outcomes.Evaluated.{Evaluated};
ghost use Rattle.sy_meaning.specs.declared.outcomes.Reply.{Reply};
ghost use Rattle.sy_meaning.specs.declared.runs.Run.{Run};
ghost use Rattle.sy_meaning.specs.declared.runs.World.{World};
ghost use Rattle.sy_meaning.specs.Outcomes.{Ex, St, ask, on_turn, spent, turn};
ghost use Rattle.sy_meaning.specs.Expressions.{Exp};
ghost use Rattle.sy_meaning.specs.Statements.{Statement, do_once, for_once, round, scoped, step_of, while_once};
ghost use Rattle.sy_meaning.specs.Bodies.{Body};
ghost use Rattle.sy_meaning.specs.Turns.{ExpLeads, IsEnd, IsRepeated, MaybeExp, MaybeStatement, StLeads, TakesTurn, Waits, expression, statement};
ghost use Rattle.sy_meaning.specs.Asks.{Fits, HoldTogether, answers_in};
ghost use Rattle.sy_meaning.specs.Captures.{HasType, AllHave};
ghost use Rattle.sy_meaning.specs.Items.{Came, Footprint, Item, footprint, phase, first_fault, written};
ghost use Rattle.sy_meaning.specs.Kernels.{Done, Items, all_touches, footprints, group_done, nothing_done, phases, run_kernel, store_of};
ghost use Rattle.sy_meaning.specs.Orders.{reordered, diverges, SameStore, SameLog, meets, Fails, Holds, KernelFails};

/// Where a phase doesn't fail, the items of the group may be taken in any order: none of them fails then, all
/// stand at one stop, and each cell has the same number in the next store.
pub fn items_may_go_in_any_order()
    ensures calm { (order : List ℕ) (items : List Footprint) → Holds (phase items) → first_fault [] (reordered order items) ≡ None }
    ensures stops { (order : List ℕ) (items : List Footprint) → Holds (phase items) → diverges (reordered order items) ≡ None }
    ensures store { (order : List ℕ) (items : List Footprint) (now : Store) → Holds (phase items) → SameStore (written now (reordered order items)) (written now items) }
{}

/// Where two items of a group touch one cell in a phase and one of them writes, the phase fails.
pub fn a_clash_fails_the_phase()
    ensures { (before : List Footprint) (f : Footprint) (between : List Footprint) (g : Footprint) (after : List Footprint) → meets g.steps f.steps ≡ true → Fails (phase (before ++ f ∷ (between ++ g ∷ after))) }
{}

/// Where a phase of a group fails, so does the group, and where a group fails, so does the kernel.
pub fn failures_rise()
    ensures group { (item : Item) (ps : List Position) (n : ℕ) (stores : List Store) (now : Store) (given : List (List Answer)) (done : Done) (f : Fault) → phase (footprints item ps (stores ++ now ∷ []) given) ≡ Came.failed f → phases item ps (n + 1) stores now given done ≡ Err f }
    ensures kernel { (items : Items) (k : Kernel) (inputs : List Input) (before : List (List Position)) (ps : List Position) (after : List (List Position)) (f : Fault) → group_done (items k) k.turns inputs ps ≡ Err f → KernelFails (run_kernel items k (before ++ ps ∷ after) inputs) }
{}

/// Where a kernel doesn't fail, its groups may be taken in any order: it doesn't fail then, and each cell has the
/// same number in what it wrote.
pub fn groups_may_go_in_any_order()
    ensures { (order : List ℕ) (items : Items) (k : Kernel) (inputs : List Input) (groups : List (List Position)) (log : List (Cell × ℤ)) → run_kernel items k groups inputs ≡ Outcome.Wrote log → (other : List (Cell × ℤ)) × (run_kernel items k (reordered order groups) inputs ≡ Outcome.Wrote other) × SameLog other log }
{}

/// Where two groups touch one cell of a buffer and one of them writes, the kernel fails.
pub fn a_clash_fails_the_kernel()
    ensures { (items : Items) (k : Kernel) (inputs : List Input) (before : List (List Position)) (one : List Position) (between : List (List Position)) (two : List Position) (after : List (List Position)) (d e : Done) → group_done (items k) k.turns inputs one ≡ Ok d → group_done (items k) k.turns inputs two ≡ Ok e → meets (all_touches e) (all_touches d) ≡ true → KernelFails (run_kernel items k (before ++ one ∷ (between ++ two ∷ after)) inputs) }
{}

/// What a body is given stands for the objects that were captured, and what a declaration holds is an object of its
/// type, which can be captured so.
pub fn captures_are_read_back()
    ensures given { (variables : List Variable) (objects : List Object) → AllHave variables objects → objects_from variables (all_words objects) ≡ objects }
    ensures declared { (t : Thing) (o : Object) → HasType t (as_thing t o) }
{}

/// A body takes the answers that it is given from the front, and each of them takes a turn: turns only fall. Where it
/// stands at an ask that waits, no answer is left, and that ask has taken a turn too. So with each statement and each
/// expression.
pub fn turns_only_fall()
    ensures body { (bodies : List Body) (limit : ℕ) (b : Body) → StLeads (means bodies limit b) }
    ensures statement { (bodies : List Body) (limit : ℕ) (s : TypedStmt) → StLeads (statement (calls_of bodies limit limit) limit s).run }
    ensures expression { (bodies : List Body) (limit : ℕ) (e : Typed) → ExpLeads (expression (calls_of bodies limit limit) limit e) }
{}

/// Where a body or an item stands at an ask that waits for its answer, the answers before it are fewer than the turns:
/// each of them took one, and the ask another.
pub fn an_ask_waits_after_all_answers()
    ensures body { (bodies : List Body) (limit body : ℕ) (captures : List ℤ) (answers : List Answer) → Waits (Some (next bodies limit body captures answers)) → length answers + 1 ≤ limit }
    ensures item { (bodies : List Body) (limit body : ℕ) (captures : List ℤ) (p : Position) (stores : List Store) (answers : List Answer) → Waits (Some (item bodies limit body captures p stores answers).0) → length answers + 1 ≤ limit }
{}

/// An answered ask has taken a turn and the first of the answers, a call begins with a turn less, or stops where none
/// is left, and a round after which a loop goes on has taken a turn.
pub fn each_ask_call_and_round_takes_a_turn()
    ensures ask { (line : ℕ) (a : Ask) (w v : World) (x : Answer) → ask line a w ≡ (Reply.Answered x, v) → (v.turns + 1 ≡ w.turns) × (w.feed ≡ x ∷ v.feed) }
    ensures call { (line : ℕ) (go : Ex) (r : Run) (n : ℕ) → r.world.turns ≡ n + 1 → on_turn line r (turn r.world) go ≡ go (record r { world = record (r.world) { turns = n } }) }
    ensures no_call { (line : ℕ) (go : Ex) (r : Run) → r.world.turns ≡ 0 → on_turn line r (turn r.world) go ≡ (Evaluated.Stopped (spent line r.world), r) }
    ensures round { (line : ℕ) (b : St) → StLeads b → TakesTurn (round line b) }
{}

/// A loop is one round, and then the loop: as each round takes a turn, the count of rounds that its definition goes
/// by is never met.
pub fn no_loop_counts_its_rounds()
    ensures while_loop { (line : ℕ) (c : Exp) (b : Statement) → ExpLeads c → StLeads b.run → IsRepeated (while_once line (Some c) (scoped b)) }
    ensures do_loop { (line : ℕ) (c : Exp) (b : Statement) → ExpLeads c → StLeads b.run → IsRepeated (do_once line c (scoped b)) }
    ensures for_loop { (line : ℕ) (c : Option Exp) (step : Option Statement) (b : Statement) → MaybeExp c → MaybeStatement step → StLeads b.run → IsRepeated (for_once line c (step_of step) (scoped b)) }
{}

/// A group of items for so many turns may have any greater number of phases: each phase takes a turn of its items, so
/// the count of phases that its definition goes by is never met.
pub fn no_group_counts_its_phases()
    ensures { (bodies : List Body) (limit body : ℕ) (captures : List ℤ) (n : ℕ) (ps : List Position) (inputs : List Input) → limit + 1 ≤ n → phases (item bodies limit body captures) ps n [] (store_of inputs) [] nothing_done ≡ group_done (item bodies limit body captures) limit inputs ps }
{}

/// A call runs the body of the function with the same calls again: as each call takes a turn, the depth of calls that
/// their definition goes by is never met. A body may have any depth that isn't less than its turns.
pub fn no_call_counts_its_depth()
    ensures call { (bodies : List Body) (limit n f : ℕ) (os : List Object) (r : Run) → r.world.turns + 1 ≤ n → calls_of bodies limit n f os r ≡ entered (means_with bodies limit (calls_of bodies limit n)) (slice_get bodies f) os r }
    ensures body { (bodies : List Body) (limit n : ℕ) (b : Body) (r : Run) → r.world.turns ≤ n → r.world.turns ≤ limit → means_with bodies limit (calls_of bodies limit n) b r ≡ means bodies limit b r }
{}

/// Where a body or an item has come to its end after some answers, its end is the same whatever answers follow, and so
/// are the steps of the item.
pub fn more_answers_change_no_end()
    ensures body { (bodies : List Body) (limit body : ℕ) (captures : List ℤ) (answers more : List Answer) → IsEnd (next bodies limit body captures answers) → next bodies limit body captures (answers ++ more) ≡ next bodies limit body captures answers }
    ensures item { (bodies : List Body) (limit body : ℕ) (captures : List ℤ) (p : Position) (stores : List Store) (answers more : List Answer) → IsEnd (item bodies limit body captures p stores answers).0 → footprint (item bodies limit body captures) p stores (answers ++ more) ≡ footprint (item bodies limit body captures) p stores answers }
{}

/// What a thread asks holds together, whatever it is answered: it closes only host accesses that it opened and ends
/// only buffers that it made, each once and the last made first. Only the temporaries of a declaration end before what
/// is declared, which was made after them. Each answer is noted with its ask.
pub fn asks_of_a_thread_hold_together()
    ensures answers { (bodies : List Body) (limit body : ℕ) (captures : List ℤ) (answers : List Answer) → Waits (Some (next bodies limit body captures answers)) → answers_in (asks_before bodies limit body captures answers) [] ≡ answers }
    ensures asks { (bodies : List Body) (limit body : ℕ) (captures : List ℤ) (answers : List Answer) → HoldTogether (asks_before bodies limit body captures answers) × Fits (asks_before bodies limit body captures answers) (next bodies limit body captures answers) }
{}
