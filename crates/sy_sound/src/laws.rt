// Laws of the boards of a run, each the contract of a function without parameters.

ghost use Rattle.std.specs.Prelude.{◌≡◌, ℕ, ◌<◌, ◌≤◌, ◌*◌, ◌^◌, List, length, Some, slice_get, Bool, IsTrue};
ghost use Rattle.sy_sound.specs.Known.{AllKnown, Knows};
ghost use Rattle.sy_sound.specs.Agree.{AgreeOn, AskAlike};
ghost use Rattle.sy_work.specs.Inputs.{InputsFit};
ghost use Rattle.sy_work.specs.Programs.{OutcomeOf, Program};
ghost use Rattle.sy_work.specs.declared.asks.Ask.{Ask};
ghost use Rattle.sy_work.specs.declared.commands.Command.{Command};
ghost use Rattle.sy_onecopy.specs.declared.Entry.{Entry};
ghost use Rattle.sy_onecopy.specs.declared.Work.TheVariants.{Node};
ghost use Rattle.sy_onecopy.specs.Copies.{copies};
ghost use Rattle.sy_onecopy.specs.Outcome.{inputs};
ghost use Rattle.sy_onecopy.specs.Sequence.{seq};
ghost use Rattle.sy_onecopy.specs.State.{Board, State, opening, start};
ghost use Rattle.sy_onecopy.specs.Settle.{settle_upto};
ghost use Rattle.sy_onecopy.specs.Step.{apply, begin_ask, turn};
ghost use Rattle.sy_sound.specs.Sound.{IsSound};

/// A run's board is sound as it opens, when an ask has had its effect, at each point of a pass over its
/// entries, and after each turn.
pub fn turns_keep_boards_sound()
    ensures opens { IsSound opening }
    ensures asks { (b : Board) (t : ℕ) (q : Ask) → IsSound b → b.steps < 2 ^ 24 → IsSound (apply (begin_ask b t) t q) }
    ensures settles { (out : OutcomeOf) (b : Board) (k : ℕ) → IsSound b → IsSound (settle_upto out b k) }
    ensures turns { (out : OutcomeOf) (b : Board) (t : ℕ) (q : Ask) → IsSound b → b.steps < 2 ^ 24 → IsSound (turn out b t q) }
{}

/// After every legal order of steps the board is sound.
pub fn states_are_sound()
    ensures { (p : Program) (order : List ℕ) (s : State) → seq p order ≡ Some s → IsSound s.board }
{}

/// A node's number is below the count of nodes, and there are no more nodes than entries.
pub fn nodes_are_counted()
    ensures below { (b : Board) (k n q : ℕ) (e : Entry) (c : Command) → IsSound b → slice_get b.entries k ≡ Some e → e.work ≡ Node n q c → n < b.nodes }
    ensures few { (b : Board) → IsSound b → b.nodes ≤ length b.entries }
{}

/// What a node is given fits its command.
pub fn inputs_fit()
    ensures { (b : Board) (k n q : ℕ) (e : Entry) (c : Command) → IsSound b → slice_get b.entries k ≡ Some e → e.work ≡ Node n q c → InputsFit c (inputs b.buffers e.needs) }
{}

/// There are no more copies than pairs of a buffer and an entry.
pub fn copies_are_few()
    ensures { (b : Board) → IsSound b → copies b.entries b.buffers ≤ length b.buffers * length b.entries }
{}

/// If the commands that a program submits are known, those of the nodes of each of its states are.
pub fn commands_stay_known()
    ensures { (knows : Command → Bool) (p : Program) (order : List ℕ) (s : State) → Knows (λ c. IsTrue (knows c)) p → seq p order ≡ Some s → AllKnown (λ c. IsTrue (knows c)) s.board.entries }
{}

/// Two programs that ask the same in these steps, and whose outcomes agree on the known commands and on
/// inputs that fit them, come to the same state, or neither may make the steps.
pub fn programs_that_agree_run_alike()
    ensures { (knows : Command → Bool) (p q : Program) (order : List ℕ) → q.main ≡ p.main → AgreeOn (λ c. IsTrue (knows c)) q.outcome p.outcome → AskAlike (λ c. IsTrue (knows c)) p q (start p) order → seq q order ≡ seq p order }
{}
