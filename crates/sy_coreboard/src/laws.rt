// Laws of the core, each the contract of a function without parameters.

ghost use Rattle.std.specs.Prelude.{◌≡◌, ◌≢◌, ◌⊎◌, ◌+◌, ◌||◌, ◌&&◌, ◌==◌, ◌++◌, Bool, IsTrue, Option, ◌<◌, ◌^◌, ℕ, ℤ, List, [], ◌∷◌, true, false, if◌then◌else◌, length, Some, None, slice_get};
ghost use Rattle.sy_work.specs.Programs.{Program, Input};
ghost use Rattle.sy_work.specs.declared.commands.Command.{Command};
ghost use Rattle.sy_work.specs.declared.asks.Ask.{Ask};
ghost use Rattle.sy_work.specs.declared.asks.Ask.TheVariants.{CloseHost};
ghost use Rattle.sy_work.specs.declared.endings.Ending.{Ending};
ghost use Rattle.sy_work.specs.declared.endings.Ending.TheVariants.{Stuck, HistoryFull};
ghost use Rattle.sy_onecopy.specs.declared.Buffer.{Buffer};
ghost use Rattle.sy_onecopy.specs.declared.Entry.{Entry};
ghost use Rattle.sy_onecopy.specs.declared.Work.TheVariants.{Node};
ghost use Rattle.sy_onecopy.specs.declared.Waits.{Waits};
ghost use Rattle.sy_onecopy.specs.declared.Waits.TheVariants.{Ready};
ghost use Rattle.sy_onecopy.specs.Each.{changed_at};
ghost use Rattle.sy_onecopy.specs.State.{Board, State, Thread, ask_of, new_thread};
ghost use Rattle.sy_onecopy.specs.Step.{given, threads_after, hear, once_heard};
ghost use Rattle.sy_onecopy.specs.Sequence.{is_clear, is_command, goes_on, value_of_main, first_thread, has_open_node, first_error, ending_after_main, ending};
ghost use Rattle.sy_onecopy.specs.Copies.{makes, names, made_after, made_from, copies};
ghost use Rattle.sy_onecopy.specs.Laws.{IsSettled};
ghost use Rattle.sy_work.specs.Inputs.{InputsFit};
ghost use Rattle.sy_sound.specs.Known.{AllKnown, Knows};
ghost use Rattle.sy_settling.specs.Orderly.{IsAt, IsFreeAt, IsOrderly, IsAlike};
ghost use Rattle.sy_lagging.specs.Lagging.{state_of, catch_up};
ghost use Rattle.sy_coreboard.specs.Core.{Core, StandsFor, IsOut, IsMoving, HasCopies, is_used};
ghost use Rattle.sy_coreboard.specs.Events.{Begins, Moves, Installs, Finishes, CanAsk, Asks, keeps_copies, Closes, Takes, Hears, Drops};
ghost use Rattle.sy_coreboard.specs.Opening.{first_core};
ghost use Rattle.sy_coreboard.specs.Sources.{IsLive, HasSource};
ghost use Rattle.sy_coreboard.specs.Tally.{is_counted, needs_copy, adds, adds_from};
ghost use Rattle.sy_coreboard.specs.Over.{AllWait, WouldStep, IsAside};
ghost use Rattle.sy_coreboard.specs.Choice.{missing_root, IsQuiet, NothingMayBegin};

/// The core as it is made stands for each program before its first step.
pub fn a_new_core_stands()
    ensures { (p : Program) → StandsFor p [] (new_thread p.main [] ∷ []) first_core }
{}

/// A command that is out finishes, with the outcome that its program has on what it was given: the core
/// stands for what it stood for.
pub fn outcomes_keep_standing()
    ensures { (p : Program) (order : List ℕ) (xs : List Thread) (old new : Core) (k n q : ℕ) (e : Entry) (c : Command) (given : List Input) → StandsFor p order xs old → old.out k ≡ Some given → IsAt old.board.entries k e → e.work ≡ Node n q c → Finishes old new k e (p.outcome c given) → StandsFor p order xs new }
{}

/// A command, or a copy, that may begin does so, or a copy that is out is installed: the core stands for
/// what it stood for.
pub fn tasks_keep_standing()
    ensures command { (p : Program) (order : List ℕ) (xs : List Thread) (old new : Core) (k : ℕ) (given : List Input) → StandsFor p order xs old → IsOut old k given → Begins old new k given → StandsFor p order xs new }
    ensures copy { (p : Program) (order : List ℕ) (xs : List Thread) (old new : Core) (place buffer : ℕ) (values : List ℤ) → StandsFor p order xs old → IsMoving old place buffer values → Moves old new place buffer values → StandsFor p order xs new }
    ensures installed { (p : Program) (order : List ℕ) (xs : List Thread) (old new : Core) (place buffer : ℕ) (values : List ℤ) → StandsFor p order xs old → old.moving place buffer ≡ Some values → Installs old new place buffer values → StandsFor p order xs new }
{}

/// A thread makes its ask, and it changes no copies: the core stands for the longer order.
pub fn asks_keep_standing()
    ensures { (p : Program) (order : List ℕ) (xs : List Thread) (old new : Core) (t : ℕ) (q : Ask) → StandsFor p order xs old → CanAsk p xs old t q → keeps_copies q ≡ true → Asks old new t q → StandsFor p (order ++ t ∷ []) (threads_after new.board q xs) new }
{}

/// A thread closes a host access: the core stands for the longer order.
pub fn closes_keep_standing()
    ensures { (p : Program) (order : List ℕ) (xs : List Thread) (old new : Core) (t k : ℕ) (values : List ℤ) → StandsFor p order xs old → CanAsk p xs old t (CloseHost k values) → Closes old new t k values → StandsFor p (order ++ t ∷ []) xs new }
{}

/// A host access or the end of a buffer takes effect, or a thread hears that its wait is over: the core
/// stands for what it stood for.
pub fn answers_keep_standing()
    ensures takes { (p : Program) (order : List ℕ) (xs : List Thread) (old new : Core) (k : ℕ) (e : Entry) → StandsFor p order xs old → IsFreeAt old.board.entries k e → is_command e.work ≡ false → HasCopies old e → Takes old new k e → StandsFor p order xs new }
    ensures hears { (p : Program) (order : List ℕ) (xs : List Thread) (old new : Core) (t : ℕ) (w : Waits) → StandsFor p order xs old → slice_get old.board.waits t ≡ Some w → once_heard (given old.board w) ≡ Ready → Hears old new t → StandsFor p order (changed_at (hear (given old.board w)) t xs) new }
{}

/// A command that is out is one that the runner knows, if it knows those that the program submits, and
/// what it was given fits it.
pub fn tickets_suit_their_runner()
    ensures known { (knows : Command → Bool) (p : Program) (order : List ℕ) (xs : List Thread) (c : Core) → Knows (λ w. IsTrue (knows w)) p → StandsFor p order xs c → AllKnown (λ w. IsTrue (knows w)) c.board.entries }
    ensures fits { (p : Program) (order : List ℕ) (xs : List Thread) (c : Core) (k n q : ℕ) (e : Entry) (w : Command) (given : List Input) → StandsFor p order xs c → c.out k ≡ Some given → IsAt c.board.entries k e → e.work ≡ Node n q w → InputsFit w given }
{}

/// How the core's own board tells the ending of the state that it stands for. But for an ending by a
/// step or by a full history, no entry may be left that could take effect.
pub fn endings_are_told()
    ensures step { (p : Program) (s : State) (e : Ending) → s.board.ended ≡ Some e → ending p (catch_up p.outcome s) ≡ Some e }
    ensures main { (p : Program) (s : State) (v : ℤ) → IsOrderly s.board → s.board.ended ≡ None → value_of_main s.board.waits ≡ Some v → IsSettled s.board → ending p (catch_up p.outcome s) ≡ Some (if has_open_node s.board.entries then Stuck else ending_after_main v (first_error s.board.entries)) }
    ensures stuck { (p : Program) (xs : List Thread) (b : Board) → IsOrderly b → b.ended ≡ None → value_of_main b.waits ≡ None → IsSettled b → AllWait p xs b → ending p (catch_up p.outcome (state_of b xs)) ≡ Some Stuck }
    ensures full { (p : Program) (xs : List Thread) (b : Board) → IsOrderly b → b.ended ≡ None → value_of_main b.waits ≡ None → WouldStep p xs b → ending p (catch_up p.outcome (state_of b xs)) ≡ Some HistoryFull }
{}

/// The count of copies grows entry by entry; it doesn't turn on stages, elements, or buffers that no
/// entry names.
pub fn copies_are_tallied()
    ensures made { (r : ℕ) (es : List Entry) (e : Entry) (m : Option ℕ) → made_from r (es ++ e ∷ []) m ≡ made_after e r (made_from r es m) }
    ensures counted { (es : List Entry) (r : ℕ) (x : Buffer) (e : Entry) (p : ℕ) → is_counted (es ++ e ∷ []) r x p ≡ (if makes e r then false else (is_counted es r x p || (needs_copy es r x e && e.place == p))) }
    ensures copies { (es : List Entry) (e : Entry) (xs : List Buffer) → copies (es ++ e ∷ []) xs ≡ copies es xs + adds_from es e 0 xs }
    ensures unnamed { (es : List Entry) (r : ℕ) (x : Buffer) (e : Entry) → names e r ≡ false → adds es r x e ≡ 0 }
    ensures buffer { (es : List Entry) (xs : List Buffer) (x : Buffer) → ((k : ℕ) (e : Entry) → slice_get es k ≡ Some e → names e (length xs) ≡ false) → copies es (xs ++ x ∷ []) ≡ copies es xs }
    ensures alike { (b c : Board) → IsAlike b c → copies b.entries b.buffers ≡ copies c.entries c.buffers }
{}

/// An entry that misses no copy has its copies, and what it misses it needs. Where nothing is out and
/// nothing may begin, nothing could take effect.
pub fn quiet_cores_have_settled()
    ensures nothing { (c : Core) (e : Entry) → missing_root c e ≡ None → HasCopies c e }
    ensures missed { (c : Core) (e : Entry) (r : ℕ) → missing_root c e ≡ Some r → (is_used c.board e r ≡ true) × (c.copies e.place r ≡ None) }
    ensures settled { (c : Core) → IsQuiet c → NothingMayBegin c → IsSettled c.board }
{}

/// Where nothing could take effect, the least thread of the core that may step makes the next step of
/// the serial order.
pub fn the_serial_choice()
    ensures { (p : Program) (xs : List Thread) (b : Board) (t : ℕ) (x : Thread) → IsOrderly b → IsSettled b → slice_get b.waits t ≡ Some Ready → slice_get xs t ≡ Some x → is_clear b (ask_of p.next x) ≡ true → goes_on b ≡ true → ((j : ℕ) (w : Waits) → j < t → slice_get b.waits j ≡ Some w → (once_heard (given b w) ≢ Ready) ⊎ IsAside p xs b j w) → first_thread p (catch_up p.outcome (state_of b xs)) ≡ Some t }
{}

/// A root that a free entry needs is current at some place, so that a copy can be taken from there; and
/// the copies of a root that no entry may name any more can be dropped.
pub fn sources_are_kept()
    ensures source { (p : Program) (order : List ℕ) (xs : List Thread) (c : Core) (k : ℕ) (e : Entry) (r : ℕ) → StandsFor p order xs c → IsFreeAt c.board.entries k e → is_used c.board e r ≡ true → HasSource c.copies r }
    ensures dropped { (p : Program) (order : List ℕ) (xs : List Thread) (old new : Core) (buffer : ℕ) → StandsFor p order xs old → (IsLive old.board buffer → ⊥) → Drops old new buffer → StandsFor p order xs new }
{}
