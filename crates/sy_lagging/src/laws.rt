// Laws of states that lag behind, each the contract of a function without parameters.

ghost use Rattle.std.specs.Prelude.{◌≡◌, ◌++◌, ◌<◌, ◌^◌, ℕ, List, [], ◌∷◌, true, length, Some, slice_get};
ghost use Rattle.sy_work.specs.Programs.{OutcomeOf, Program};
ghost use Rattle.sy_work.specs.Answers.{Fits};
ghost use Rattle.sy_work.specs.declared.asks.Answer.{Answer};
ghost use Rattle.sy_onecopy.specs.declared.Waits.{Waits};
ghost use Rattle.sy_onecopy.specs.declared.Waits.TheVariants.{Ready, Due};
ghost use Rattle.sy_onecopy.specs.State.{State, Thread, ask_of};
ghost use Rattle.sy_onecopy.specs.Step.{given, once_heard};
ghost use Rattle.sy_onecopy.specs.Sequence.{is_clear, goes_on, seq};
ghost use Rattle.sy_settling.specs.Orderly.{IsOrderly};
ghost use Rattle.sy_lagging.specs.Lagging.{catch_up, after_hear, after_ask};
ghost use Rattle.sy_lagging.specs.LastAnswers.{LastFits};

/// A thread whose wait is over may hear of it before the board settles: the state that catches up is
/// the same.
pub fn threads_may_hear_first()
    ensures { (out : OutcomeOf) (s : State) (t : ℕ) (w : Waits) → IsOrderly s.board → slice_get s.board.waits t ≡ Some w → once_heard (given s.board w) ≡ Ready → catch_up out (after_hear s t w) ≡ catch_up out s }
{}

/// An ask that is made on a state which lags behind a legal order is the next step of that order.
pub fn asks_are_steps()
    ensures { (p : Program) (order : List ℕ) (s : State) (t : ℕ) (x : Thread) → seq p order ≡ Some (catch_up p.outcome s) → IsOrderly s.board → slice_get s.board.waits t ≡ Some Ready → is_clear s.board (ask_of p.next x) ≡ true → length s.threads ≡ length s.board.waits → slice_get s.threads t ≡ Some x → goes_on (catch_up p.outcome s).board ≡ true → s.board.steps < 2 ^ 24 → seq p (order ++ t ∷ []) ≡ Some (catch_up p.outcome (after_ask s t (ask_of p.next x))) }
{}

/// In each state of a legal order the last answer of each thread fits the ask that it answers; so does
/// what a thread is told on a state that lags behind.
pub fn answers_fit_their_asks()
    ensures last { (p : Program) (order : List ℕ) (s : State) → seq p order ≡ Some s → LastFits p s }
    ensures told { (p : Program) (order : List ℕ) (s : State) (t : ℕ) (w : Waits) (x : Thread) (a : Answer) → seq p order ≡ Some (catch_up p.outcome s) → IsOrderly s.board → slice_get s.board.waits t ≡ Some w → given s.board w ≡ Due a → slice_get s.threads t ≡ Some x → Fits (ask_of p.next x) a }
{}
