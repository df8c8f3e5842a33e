// Laws of settling, each the contract of a function without parameters.

ghost use Rattle.std.specs.Prelude.{◌≡◌, ℕ, List, true, Some, slice_get};
ghost use Rattle.sy_work.specs.declared.asks.Ask.{Ask};
ghost use Rattle.sy_work.specs.Programs.{OutcomeOf, Program};
ghost use Rattle.sy_onecopy.specs.declared.Entry.{Entry};
ghost use Rattle.sy_onecopy.specs.declared.Waits.TheVariants.{Ready};
ghost use Rattle.sy_onecopy.specs.declared.Waits.{Waits};
ghost use Rattle.sy_onecopy.specs.Settle.{await, effect, settle};
ghost use Rattle.sy_onecopy.specs.State.{Board, State, next_ask, opening};
ghost use Rattle.sy_onecopy.specs.Step.{apply, begin_ask, give_all, given, once_heard, turn};
ghost use Rattle.sy_onecopy.specs.Sequence.{is_clear, is_legal, seq};
ghost use Rattle.sy_settling.specs.Orderly.{IsAlike, IsFreeAt, IsOrderly, MayAsk, quiesce, heard, is_idle};

/// An entry that may take effect does so, whichever it is, and then the board settles: that is settling.
pub fn one_effect_then_settling()
    ensures { (out : OutcomeOf) (b : Board) (k : ℕ) (e : Entry) → IsOrderly b → IsFreeAt b.entries k e → settle out (effect out b k e e.work) ≡ settle out b }
{}

/// An entry that may take effect before an ask has its effect may do so after it, and either order
/// leaves the same.
pub fn effects_commute_with_asks()
    ensures free { (b : Board) (k : ℕ) (e : Entry) (t : ℕ) (q : Ask) → IsOrderly b → IsFreeAt b.entries k e → MayAsk b t q → IsFreeAt (apply b t q).entries k e }
    ensures commutes { (out : OutcomeOf) (b : Board) (k : ℕ) (e : Entry) (t : ℕ) (q : Ask) → IsOrderly b → IsFreeAt b.entries k e → MayAsk b t q → effect out (apply b t q) k e e.work ≡ apply (effect out b k e e.work) t q }
{}

/// Settling before a thread's step is begun or its ask has its effect, and after it, is settling after it.
pub fn effects_commute_with_settling()
    ensures begin_ask { (out : OutcomeOf) (b : Board) (t : ℕ) → IsOrderly b → is_idle (slice_get b.waits t) ≡ true → settle out (begin_ask b t) ≡ begin_ask (settle out b) t }
    ensures settled { (out : OutcomeOf) (b : Board) (t : ℕ) (q : Ask) → IsOrderly b → MayAsk b t q → settle out (apply (settle out b) t q) ≡ settle out (apply b t q) }
    ensures given { (out : OutcomeOf) (b : Board) (t : ℕ) (q : Ask) → IsOrderly b → MayAsk b t q → give_all (settle out (apply (settle out b) t q)) ≡ give_all (settle out (apply b t q)) }
{}

/// Settling changes the elements of buffers, the stages of entries and what threads wait for, and
/// nothing else, so an ask gives the same answer before it and after it.
pub fn settling_keeps()
    ensures settled { (out : OutcomeOf) (b : Board) → IsAlike b (settle out b) }
    ensures asked { (out : OutcomeOf) (b : Board) (t : ℕ) (q : Ask) → IsOrderly b → MayAsk b t q → IsAlike (apply b t q) (apply (settle out b) t q) }
    ensures answer { (out : OutcomeOf) (b : Board) (t : ℕ) (q : Ask) → IsOrderly b → MayAsk b t q → slice_get (apply (settle out b) t q).waits t ≡ slice_get (apply b t q).waits t }
{}

/// On a board with deferred effects entries have not settled, or answers have not been given. A thread
/// whose wait is over may hear of it first, and a step with the effects deferred comes to the same as one
/// after them.
pub fn deferred_effects_keep_step()
    ensures heard { (out : OutcomeOf) (b : Board) (t : ℕ) (w : Waits) → IsOrderly b → slice_get b.waits t ≡ Some w → once_heard (given b w) ≡ Ready → quiesce out (await b t Ready) ≡ quiesce out b }
    ensures step { (out : OutcomeOf) (b : Board) (t : ℕ) (q : Ask) → IsOrderly b → slice_get b.waits t ≡ Some Ready → is_clear b q ≡ true → heard (turn out (quiesce out b) t q) ≡ heard (turn out b t q) }
{}

/// What the laws above ask of a board holds at the start, and goes on through effects, settling,
/// asks and answers.
pub fn order_is_kept()
    ensures opening { IsOrderly opening }
    ensures effect { (out : OutcomeOf) (b : Board) (k : ℕ) (e : Entry) → IsOrderly b → IsFreeAt b.entries k e → IsOrderly (effect out b k e e.work) }
    ensures may_ask { (out : OutcomeOf) (b : Board) (k : ℕ) (e : Entry) (t : ℕ) (q : Ask) → IsOrderly b → IsFreeAt b.entries k e → MayAsk b t q → MayAsk (effect out b k e e.work) t q }
    ensures settled { (out : OutcomeOf) (b : Board) → IsOrderly b → IsOrderly (settle out b) }
    ensures begin_ask { (b : Board) (t : ℕ) → IsOrderly b → is_idle (slice_get b.waits t) ≡ true → IsOrderly (begin_ask b t) }
    ensures asked { (b : Board) (t : ℕ) (q : Ask) → IsOrderly b → MayAsk b t q → IsOrderly (apply b t q) }
    ensures given { (b : Board) → IsOrderly b → IsOrderly (give_all b) }
    ensures heard { (b : Board) → IsOrderly b → IsOrderly (heard b) }
    ensures told { (b : Board) (t : ℕ) → IsOrderly b → is_idle (slice_get b.waits t) ≡ true → IsOrderly (await b t Ready) }
{}

/// The states of legal orders have what the laws above ask for.
pub fn legal_orders_are_orderly()
    ensures orderly { (p : Program) (order : List ℕ) (s : State) → seq p order ≡ Some s → IsOrderly s.board }
    ensures may_ask { (p : Program) (s : State) (t : ℕ) → is_legal p s t ≡ true → MayAsk (begin_ask s.board t) t (next_ask p s t) }
    ensures settled { (p : Program) (order : List ℕ) (s : State) (t : ℕ) (out : OutcomeOf) → seq p order ≡ Some s → is_legal p s t ≡ true → settle out (apply (settle out (begin_ask s.board t)) t (next_ask p s t)) ≡ settle out (apply (begin_ask s.board t) t (next_ask p s t)) }
{}
