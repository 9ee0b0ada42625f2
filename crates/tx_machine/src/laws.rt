//! What holds of the machine after every schedule.
//!
//! Each law is the contract of a function without parameters, whose body is empty.
ghost use Rattle.std.specs.Prelude.{◌≡◌, ◌≢◌, ◌+◌, ◌<◌, ◌≤◌, ◌⊎◌, [], ◌∷◌, ℕ, List, Some, length, true};
ghost use Rattle.tx_sets.specs.Entries.{Entries, lookup, locations};
ghost use Rattle.tx_sets.specs.declared.access_set.TheConstants.{LOCATION_LIMIT};
ghost use Rattle.vlock_word.specs.declared.lock_word.LockWord.TheVariants.{Free, Locked};
ghost use Rattle.vlock_word.specs.LockWord.{version_of};
ghost use Rattle.tx_machine.specs.Actor.{Actor, Place, Begin, Open, Idle, Look, Lock, Check, Undo};
ghost use Rattle.tx_machine.specs.Requests.{Request, AskBeginRead, AskRead, AskWrite, AskLock};
ghost use Rattle.tx_machine.specs.World.{Memory, World, Event, Ask, Step, plan, happens, run};
ghost use Rattle.tx_machine.specs.Cells.{Cell, cell, word_of, becomes, learns};
ghost use Rattle.tx_machine.specs.Notices.{IsConflict, LockedAt, Quiet, notice, reply};
ghost use Rattle.tx_machine.specs.Refusals.{IsTrue, NamesPlace, IsRefused, IsEnding, IsCommitting};
ghost use Rattle.tx_machine.specs.Progress.{IsAlone, IsFree, step_limit, steps_left, steps_of, AsksNothing, IsAnsweredWithin};
ghost use Rattle.tx_machine.specs.Opacity.{
  IsRun,
  IsInOrder,
  IsLegal,
  IsNoneHalfDone,
  AllEnded,
  AllUpto,
  NoWriterHas,
  whose,
  after_events,
  memory_at,
  memory_after,
};

/// Opacity, for every opening clock, opening memory and schedule, of any number of actors.
///
/// The committed transactions, in the order of their numbers, are a run of the words: every reply is
/// the sequential one, and no two writers share a number. Each transaction, whether it commits, is
/// open or was aborted, saw the memory of the number at which it began: its calls so far are legal
/// there, now and whatever happens later, also if it then commits as a writer. Where no commit is
/// half done the words hold what the run leaves. From its lock to
/// its release no other actor changes a word that a transaction holds. A transaction begins at a
/// number that is not below any committed before, so transactions that don't overlap keep their
/// order in time. An idle actor holds no lock.
pub fn opacity()
    ensures in_order { (clock : ℕ) (memory : Memory) (events : List Event) → IsInOrder (after_events clock memory events).history }
    ensures serial { (clock : ℕ) (memory : Memory) (events : List Event) → IsRun memory (after_events clock memory events).history }
    ensures saw { (clock : ℕ) (memory : Memory) (events later : List Event) (a : ℕ) →
        let s = after_events clock memory events in
        IsLegal (memory_at (run later s) (s.actors a).rv) (s.actors a).calls }
    ensures aborted { (clock : ℕ) (memory : Memory) (events later : List Event) →
        let s = after_events clock memory events in
        AllEnded (λ e. IsLegal (memory_at (run later s) e.rv) e.calls) s.aborted }
    ensures words { (clock : ℕ) (memory : Memory) (events : List Event) →
        let s = after_events clock memory events in
        IsNoneHalfDone s → (l : ℕ) → s.values l ≡ memory_after memory s.history l }
    ensures owned { (clock : ℕ) (memory : Memory) (events : List Event) (event : Event) (a l k : ℕ) →
        let s = after_events clock memory events in
        lookup (s.actors a).held l ≡ Some k → a ≢ whose event →
        ((happens s event).locks l ≡ s.locks l) × ((happens s event).values l ≡ s.values l) }
    ensures begins { (clock : ℕ) (memory : Memory) (events : List Event) (a : ℕ) →
        let s = after_events clock memory events in
        (s.actors a).place ≡ Begin →
        ((happens s (Step a)).actors a).place ≡ Open →
        AllUpto ((happens s (Step a)).actors a).rv s.history }
    ensures idle { (clock : ℕ) (memory : Memory) (events : List Event) (a : ℕ) →
        let s = after_events clock memory events in
        (s.actors a).place ≡ Idle → (s.actors a).held ≡ [] }
{}

/// The clock is at least every number given so far: no record's number and no lock word's version is above it. A number that a transaction
/// got which then aborted is no writer's, now and at every later moment (one that aborts before it has a number counts as of 0, which
/// nobody gets).
pub fn numbers()
    ensures records { (clock : ℕ) (memory : Memory) (events : List Event) →
        let s = after_events clock memory events in
        AllUpto s.clock s.history }
    ensures versions { (clock : ℕ) (memory : Memory) (events : List Event) (l : ℕ) →
        let s = after_events clock memory events in
        version_of (s.locks l) ≤ s.clock }
    ensures unused { (clock : ℕ) (memory : Memory) (events later : List Event) (a : ℕ) →
        let s = after_events clock memory events in
        IsEnding (s.actors a).place → NoWriterHas (s.actors a).wv (run later s).history }
{}

/// An atomic step changes at most the one word that it touches. What that word becomes depends on what
/// it was, and what the actor's record becomes on that number and the record, alone. The other actors
/// are as they were. A request changes no word.
///
/// So a table of words shows the machine: to take a step is to load, store, exchange or add at one
/// word of it, and to change one's own record by the number found.
pub fn one_word()
    ensures others { (s : World) (a : ℕ) (word : Cell) →
        word_of (plan (s.actors a) (s.actors a).place) ≢ Some word → cell (happens s (Step a)) word ≡ cell s word }
    ensures own { (s : World) (a : ℕ) (word : Cell) →
        let deed = plan (s.actors a) (s.actors a).place in
        word_of deed ≡ Some word → cell (happens s (Step a)) word ≡ becomes deed (cell s word) }
    ensures actor { (s : World) (a : ℕ) (word : Cell) →
        let deed = plan (s.actors a) (s.actors a).place in
        word_of deed ≡ Some word → (happens s (Step a)).actors a ≡ learns deed (s.actors a) (cell s word) }
    ensures actors { (s : World) (a b : ℕ) → b ≢ a → (happens s (Step a)).actors b ≡ s.actors b }
    ensures ask { (s : World) (a : ℕ) (request : Request) (word : Cell) → cell (happens s (Ask a request)) word ≡ cell s word }
{}

/// Each refusal is true where it is answered. It names the location at which its actor stood, and the
/// word that its step found there.
///
/// A transaction that was refused for a conflict can only end: none of its steps stores a value, and
/// each gives a lock back as it was when it was taken (a held word keeps its old version until then,
/// and [`opacity`] says that nobody else changes it). An idle actor holds none. From its first value
/// store to its last release no step of a commit is refused.
pub fn refusals()
    ensures cause { (clock : ℕ) (memory : Memory) (events : List Event) (a : ℕ) →
        let s = after_events clock memory events in
        IsTrue s (s.actors a) (s.actors a).place (notice s (s.actors a) (s.actors a).place) }
    ensures located { (s : World) (x : Actor) (p : Place) → NamesPlace p (notice s x p) }
    ensures ends { (s : World) (a : ℕ) →
        IsConflict (notice s (s.actors a) (s.actors a).place) → IsEnding ((happens s (Step a)).actors a).place }
    ensures stays { (s : World) (event : Event) (a : ℕ) →
        IsEnding (s.actors a).place →
        IsEnding ((happens s event).actors a).place ⊎ (((happens s event).actors a).place ≡ Idle) }
    ensures stores_nothing { (s : World) (a l : ℕ) →
        IsEnding (s.actors a).place → (happens s (Step a)).values l ≡ s.values l }
    ensures locked { (clock : ℕ) (memory : Memory) (events : List Event) (a l k : ℕ) →
        let s = after_events clock memory events in
        lookup (s.actors a).held l ≡ Some k → s.locks l ≡ Locked k }
    ensures back { (s : World) (a l k : ℕ) (rest : Entries) →
        (s.actors a).place ≡ Undo → (s.actors a).held ≡ (l, k) ∷ rest →
        ((happens s (Step a)).locks l ≡ Free k) × (((happens s (Step a)).actors a).held ≡ rest) }
    ensures committed { (clock : ℕ) (memory : Memory) (events : List Event) (a : ℕ) →
        let s = after_events clock memory events in
        IsCommitting (s.actors a).place → IsRefused (notice s (s.actors a) (s.actors a).place) → ⊥ }
{}

/// A transaction beside which no other steps, and which begins with every lock free, is refused for
/// no conflict.
pub fn alone()
    ensures { (clock : ℕ) (memory : Memory) (events later : List Event) (a : ℕ) →
        let s = after_events clock memory events in
        let t = run later s in
        (s.actors a).place ≡ Begin → ((l : ℕ) → IsFree (s.locks l)) → IsAlone a later →
        IsConflict (notice t (t.actors a) (t.actors a).place) → ⊥ }
{}

/// Each request is answered within so many of its own steps as `steps_left` says, whatever the others
/// do between them; and with sets of at most 4,096 locations that is fewer than 1,000,000. A request
/// that is taken and not answered at once leaves a step to do.
pub fn progress()
    ensures due { (clock : ℕ) (memory : Memory) (events : List Event) (a : ℕ) (request : Request) →
        let s = after_events clock memory events in
        let t = happens s (Ask a request) in
        t.actors a ≢ s.actors a → reply (s.actors a) (s.actors a).place request ≡ Quiet →
        0 < steps_left (t.actors a) (t.actors a).place }
    ensures nearer { (clock : ℕ) (memory : Memory) (events : List Event) (a : ℕ) →
        let s = after_events clock memory events in
        let t = happens s (Step a) in
        0 < steps_left (s.actors a) (s.actors a).place →
        steps_left (t.actors a) (t.actors a).place < steps_left (s.actors a) (s.actors a).place }
    ensures answered { (clock : ℕ) (memory : Memory) (events later : List Event) (a : ℕ) →
        let s = after_events clock memory events in
        0 < steps_left (s.actors a) (s.actors a).place → AsksNothing a later →
        steps_left (s.actors a) (s.actors a).place ≤ steps_of a later → IsAnsweredWithin a later s }
    ensures few { (clock : ℕ) (memory : Memory) (events : List Event) (a : ℕ) →
        let s = after_events clock memory events in
        length (s.actors a).reads ≤ LOCATION_LIMIT → length (s.actors a).writes ≤ LOCATION_LIMIT →
        steps_left (s.actors a) (s.actors a).place < step_limit }
{}

/// The check of a commit is left out where no other commit took a number since its transaction began,
/// and only there. The fetch_add that takes its number then answers its lock.
pub fn quick_check()
    ensures left_out { (s : World) (a : ℕ) →
        (s.actors a).place ≡ Lock [] → (s.actors a).rv ≡ s.clock →
        notice s (s.actors a) (s.actors a).place ≡ LockedAt (s.clock + 1) }
    ensures made { (s : World) (a : ℕ) →
        (s.actors a).place ≡ Lock [] → (s.actors a).rv ≢ s.clock →
        ((happens s (Step a)).actors a).place ≡ Check (locations (s.actors a).reads) }
{}

/// A declared reader has neither set: each of its reads is of three loads, also of a location that it
/// has read before, and a write or a lock is not for it. It is a transaction like any other in
/// [`opacity`].
pub fn declared_readers()
    ensures begins { (s : World) (a : ℕ) →
        (s.actors a).place ≡ Idle → ((happens s (Ask a AskBeginRead)).actors a).declared ≡ true }
    ensures stays { (s : World) (a : ℕ) (event : Event) →
        (s.actors a).declared ≡ true → (s.actors a).place ≢ Idle → ((happens s event).actors a).declared ≡ true }
    ensures anew { (clock : ℕ) (memory : Memory) (events : List Event) (a l : ℕ) →
        let s = after_events clock memory events in
        (s.actors a).declared ≡ true → (s.actors a).place ≡ Open →
        ((happens s (Ask a (AskRead l))).actors a).place ≡ Look l }
    ensures write { (clock : ℕ) (memory : Memory) (events : List Event) (a l v : ℕ) →
        let s = after_events clock memory events in
        (s.actors a).declared ≡ true → (s.actors a).place ≡ Open →
        (happens s (Ask a (AskWrite l v))).actors a ≡ s.actors a }
    ensures lock { (clock : ℕ) (memory : Memory) (events : List Event) (a : ℕ) →
        let s = after_events clock memory events in
        (s.actors a).declared ≡ true → (s.actors a).place ≡ Open →
        (happens s (Ask a AskLock)).actors a ≡ s.actors a }
{}
