// Laws of whole runs, each the contract of a function without parameters.

ghost use Rattle.std.specs.Prelude.{◌≡◌, ◌++◌, ◌<◌, ℕ, ℤ, List, Some, true, length, slice_get, All};
ghost use Rattle.sy_work.specs.declared.asks.Ask.TheVariants.{Spawn};
ghost use Rattle.sy_work.specs.Programs.{Program};
ghost use Rattle.sy_work.specs.declared.endings.Ending.{Ending};
ghost use Rattle.sy_onecopy.specs.State.{State, Thread, start, new_thread, next_ask};
ghost use Rattle.sy_onecopy.specs.Step.{step};
ghost use Rattle.sy_onecopy.specs.Sequence.{is_legal, seq, IsRun};
ghost use Rattle.sy_answers.specs.Alone.{StartsNone};
ghost use Rattle.sy_answers.specs.Fitting.{Counted, StepFits, board_after, count_after, due_at};

/// In each state of a run there are as many threads as waits, and no answer is still due.
pub fn threads_are_counted()
    ensures { (p : Program) (order : List ℕ) (s : State) → seq p order ≡ Some s → Counted s }
{}

/// Each answer that a step gives fits what its thread asked, and only threads that wait are answered. The
/// end of a buffer over a vector is answered with as many numbers as the buffer has.
pub fn answers_fit()
    ensures { (p : Program) (order : List ℕ) (s : State) (t : ℕ) → seq p order ≡ Some s → is_legal p s t ≡ true → StepFits p s t }
{}

/// A step gives each thread the answer that is due to it, and nothing where none is. Nothing else of a
/// thread changes, and no thread is added but by a spawn.
pub fn due_answers_reach_their_threads()
    ensures told { (p : Program) (order : List ℕ) (s : State) (t u : ℕ) (x : Thread) → seq p order ≡ Some s → is_legal p s t ≡ true → slice_get s.threads u ≡ Some x → slice_get (step p s t).threads u ≡ Some (record x { answers = x.answers ++ due_at (slice_get (board_after p s t).waits u) }) }
    ensures started { (p : Program) (order : List ℕ) (s : State) (t body : ℕ) (captures : List ℤ) → seq p order ≡ Some s → is_legal p s t ≡ true → next_ask p s t ≡ Spawn body captures → length s.threads < 64 → slice_get (step p s t).threads (length s.threads) ≡ Some (new_thread body captures) }
    ensures count { (p : Program) (order : List ℕ) (s : State) (t : ℕ) → seq p order ≡ Some s → is_legal p s t ≡ true → length (step p s t).threads ≡ count_after (next_ask p s t) (length s.threads) }
{}

/// Where no step of thread 0 starts a thread, thread 0 makes every step, and every run of the program
/// that ends has this order.
pub fn one_thread_has_one_order()
    ensures alone { (p : Program) (order : List ℕ) (s : State) → seq p order ≡ Some s → StartsNone p (start p) order → All (λ t. t ≡ 0) order }
    ensures only { (p : Program) (order other : List ℕ) (e f : Ending) (v w : List ℕ) (m n : ℕ) → IsRun p order e v m → StartsNone p (start p) order → IsRun p other f w n → other ≡ order }
{}
