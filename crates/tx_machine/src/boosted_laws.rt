//! What holds of a world with collections after every list of actions.
//!
//! Each law is the contract of a function without parameters, whose body is empty.
ghost use Rattle.std.specs.Prelude.{◌≡◌, ◌≤◌, ℕ, ◌+◌, true, false, Some, List};
ghost use Rattle.tx_sets.specs.Entries.{lookup};
ghost use Rattle.tx_machine.specs.World.{Memory, Event};
ghost use Rattle.tx_machine.specs.Opacity.{IsInOrder, IsNoneHalfDone, IsRun, IsLegal, AllEnded, NoWriterHas, first_read, memory_after};
ghost use Rattle.tx_machine.specs.Opacity.{memory_at, after_events};
ghost use Rattle.tx_machine.specs.Refusals.{IsEnding};
ghost use Rattle.tx_machine.specs.Content.{Content, Frame};
ghost use Rattle.tx_machine.specs.Boosted.{Action, act_all};
ghost use Rattle.tx_machine.specs.Serial.{
  AreLegal,
  AreRun,
  AllAborted,
  IsRead,
  ended,
  edition_at,
  after_actions,
  view,
  views,
  words,
};

/// Opacity, for every content that keeps the frame laws, every opening and every list of actions of any number of actors.
///
/// The committed transactions, in the order of their numbers, are a run of the words and of the collections. Where no commit is
/// half done, the words and the parts of the collections are what it leaves. Each transaction, whether it commits, is open or
/// was aborted, got outcomes that are legal at the number at which it began, and this remains so whatever happens later. An
/// edition that it read is the opening's, and one more for each commit up to that number which writes there; a base with this
/// edition holds the part of that number. What the calls of a transaction read, it has copied, and read with the edition that it copied. No
/// edition has risen more often than the clock. The words are a world of the word machine, and their records are its.
pub fn opacity<X, Op, Out>()
    ensures in_order { (c : Content X Op Out) → Frame c → (clock : ℕ) (memory : Memory) (parts : ℕ → X) (actions : List (Action Op)) →
        IsInOrder (words (after_actions c clock memory parts actions).history) }
    ensures serial { (c : Content X Op Out) → Frame c → (clock : ℕ) (memory : Memory) (parts : ℕ → X) (actions : List (Action Op)) →
        let s = after_actions c clock memory parts actions in
        AreRun c parts s.history × IsRun memory (words s.history) }
    ensures left { (c : Content X Op Out) → Frame c → (clock : ℕ) (memory : Memory) (parts : ℕ → X) (actions : List (Action Op)) →
        let s = after_actions c clock memory parts actions in
        IsNoneHalfDone s.words → (l : ℕ) →
        (s.words.values l ≡ memory_after memory (words s.history) l)
        × (c.plain l ≡ false → s.parts l ≡ views c s.history parts l) }
    ensures saw { (c : Content X Op Out) → Frame c →
        (clock : ℕ) (memory : Memory) (parts : ℕ → X) (actions later : List (Action Op)) (a : ℕ) →
        let s = after_actions c clock memory parts actions in
        let t = act_all c later s in
        AreLegal c (view c t.history (s.words.actors a).rv parts) (s.shadows a).outcomes
        × IsLegal (memory_at t.words (s.words.actors a).rv) (s.words.actors a).calls }
    ensures aborted { (c : Content X Op Out) → Frame c → (clock : ℕ) (memory : Memory) (parts : ℕ → X) (actions : List (Action Op)) →
        let s = after_actions c clock memory parts actions in
        AllAborted (λ e. AreLegal c (view c s.history e.word.rv parts) e.outcomes) s.aborted
        × AllEnded (λ e. IsLegal (memory_at s.words e.rv) e.calls) (ended s.aborted) }
    ensures editions { (c : Content X Op Out) → Frame c →
        (clock : ℕ) (memory : Memory) (parts : ℕ → X) (actions later : List (Action Op)) (a l e : ℕ) →
        let s = after_actions c clock memory parts actions in
        let t = act_all c later s in
        let rv = (s.words.actors a).rv in
        c.plain l ≡ false → lookup (s.words.actors a).reads l ≡ Some e →
        (e ≡ memory l + edition_at c t.history rv l) × (t.editions l ≡ e → t.parts l ≡ view c t.history rv parts l) }
    ensures first_reads { (c : Content X Op Out) → Frame c →
        (clock : ℕ) (memory : Memory) (parts : ℕ → X) (actions later : List (Action Op)) (a l e : ℕ) →
        let s = after_actions c clock memory parts actions in
        let t = act_all c later s in
        let rv = (s.words.actors a).rv in
        c.plain l ≡ false → first_read (s.words.actors a).calls l ≡ Some e →
        (e ≡ memory l + edition_at c t.history rv l) × (t.editions l ≡ e → t.parts l ≡ view c t.history rv parts l) }
    ensures accepted { (c : Content X Op Out) → Frame c →
        (clock : ℕ) (memory : Memory) (parts : ℕ → X) (actions : List (Action Op)) (a l : ℕ) →
        let s = after_actions c clock memory parts actions in
        IsRead c l (s.shadows a).outcomes →
        ((s.shadows a).copied l ≡ true) × (first_read (s.words.actors a).calls l ≡ Some ((s.shadows a).editions l)) }
    ensures bounded { (c : Content X Op Out) → Frame c →
        (clock : ℕ) (memory : Memory) (parts : ℕ → X) (actions : List (Action Op)) (l : ℕ) →
        let s = after_actions c clock memory parts actions in
        c.plain l ≡ false → s.editions l ≤ memory l + s.words.clock }
    ensures worlds { (c : Content X Op Out) (clock : ℕ) (memory : Memory) (parts : ℕ → X) (actions : List (Action Op)) →
        (events : List Event) × ((after_actions c clock memory parts actions).words ≡ after_events clock memory events) }
    ensures records { (c : Content X Op Out) → Frame c → (clock : ℕ) (memory : Memory) (parts : ℕ → X) (actions : List (Action Op)) →
        let s = after_actions c clock memory parts actions in
        (words s.history ≡ s.words.history) × (ended s.aborted ≡ s.words.aborted) }
{}

/// A number that a transaction got which then aborted is no record's of a writer, now and at every later moment.
pub fn numbers<X, Op, Out>()
    ensures unused { (c : Content X Op Out) → Frame c →
        (clock : ℕ) (memory : Memory) (parts : ℕ → X) (actions later : List (Action Op)) (a : ℕ) →
        let s = after_actions c clock memory parts actions in
        IsEnding (s.words.actors a).place → NoWriterHas (s.words.actors a).wv (words (act_all c later s).history) }
{}
