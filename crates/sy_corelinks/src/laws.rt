// Laws of the copies beside the core, each the contract of a function without parameters.

ghost use Rattle.std.specs.Prelude.{◌≡◌, ℕ, ℤ, List, [], ◌∷◌, true, length, unwrap_or, Option, Some};
ghost use Rattle.sy_work.specs.Programs.{Input};
ghost use Rattle.sy_work.specs.declared.asks.Ask.{Ask};
ghost use Rattle.sy_work.specs.Moves.{writes_from};
ghost use Rattle.sy_work.specs.declared.commands.Command.{Command};
ghost use Rattle.sy_work.specs.declared.commands.Outcome.{Outcome};
ghost use Rattle.sy_onecopy.specs.declared.Buffer.{Buffer as Values};
ghost use Rattle.sy_onecopy.specs.Step.{apply, begin_ask, add_buffer};
ghost use Rattle.sy_copies.specs.Places.{zeros};
ghost use Rattle.sy_onecopy.specs.declared.Entry.{Entry};
ghost use Rattle.sy_onecopy.specs.declared.Work.TheVariants.{Node};
ghost use Rattle.sy_settling.specs.Orderly.{IsAt, IsFreeAt};
ghost use Rattle.sy_copies.specs.declared.buffer.Buffer.{Buffer};
ghost use Rattle.sy_copies.specs.Calls.{Makes, Installs as Puts, Publishes as Renews, Drops as Ends};
ghost use Rattle.sy_coreboard.specs.Core.{Core, IsKept};
ghost use Rattle.sy_coreboard.specs.Events.{Asks, keeps_copies, Installs, Finishes, Closes, ClosedAccess, closed_access, Drops, Takes, Hears};
ghost use Rattle.sy_coreboard.specs.Sources.{IsLive};
ghost use Rattle.sy_corelinks.specs.Shown.{Shows, log_by};

/// Copies that show a core show it after an event where they are changed by the call that goes with it:
/// a copy is installed; a command finishes, and what it wrote is published with its needs at its place;
/// a host access is closed, and its numbers are put back; an ask makes a buffer, and so do the copies,
/// or it makes none; the copies of a root that no entry may name any more are dropped.
pub fn copies_show_the_core()
    ensures installed { (old new : List (Option Buffer)) (c : Core) (place buffer : ℕ) (values : List ℤ) → Shows old c → Puts old new place buffer values → (d : Core) × (Installs c d place buffer values) × (Shows new d) }
    ensures finished { (old new : List (Option Buffer)) (c : Core) (k n q : ℕ) (e : Entry) (w : Command) (given : List Input) (o : Outcome) → IsKept c → c.out k ≡ Some given → IsAt c.board.entries k e → e.work ≡ Node n q w → Shows old c → Renews old new e.place e.needs (log_by o) → (d : Core) × (Finishes c d k e o) × (Shows new d) }
    ensures closed { (old new : List (Option Buffer)) (c : Core) (t k : ℕ) (values : List ℤ) (a : ClosedAccess) → IsKept c → closed_access c.board.entries t k values ≡ Some a → Shows old c → Renews old new a.entry.place (a.need ∷ []) (writes_from a.need.buffer a.need.from values) → (d : Core) × (Closes c d t k values) × (Shows new d) }
    ensures asked { (copies : List (Option Buffer)) (c : Core) (t : ℕ) (q : Ask) → keeps_copies q ≡ true → length (apply (begin_ask c.board t) t q).buffers ≡ length c.board.buffers → IsKept c → Shows copies c → (d : Core) × (Asks c d t q) × (Shows copies d) }
    ensures made { (old new : List (Option Buffer)) (c : Core) (t : ℕ) (q : Ask) (x : Values) (len : ℕ) (init : Option (List ℤ)) (n : ℕ) → keeps_copies q ≡ true → apply (begin_ask c.board t) t q ≡ add_buffer (begin_ask c.board t) t x → x.values ≡ unwrap_or init (zeros len) → length x.values ≡ len → IsKept c → Shows old c → Makes old new len init n → (d : Core) × (Asks c d t q) × (Shows new d) }
    ensures dropped { (old new : List (Option Buffer)) (c : Core) (buffer : ℕ) → (IsLive c.board buffer → ⊥) → Shows old c → Ends old new buffer → (d : Core) × (Drops c d buffer) × (Shows new d) }
{}

/// Copies that show a core show it after each event that changes none: a host access or the end of a
/// buffer takes effect, a thread hears, or a task begins.
pub fn copies_stay_shown()
    ensures takes { (copies : List (Option Buffer)) (c d : Core) (k : ℕ) (e : Entry) → IsFreeAt c.board.entries k e → Takes c d k e → Shows copies c → Shows copies d }
    ensures hears { (copies : List (Option Buffer)) (c d : Core) (t : ℕ) → Hears c d t → Shows copies c → Shows copies d }
    ensures stays { (copies : List (Option Buffer)) (c d : Core) → d.board.entries ≡ c.board.entries → d.board.buffers ≡ c.board.buffers → ((p r : ℕ) → d.copies p r ≡ c.copies p r) → Shows copies c → Shows copies d }
{}
