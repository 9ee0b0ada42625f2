//! What one event does to a world, and on what it depends.
ghost use Rattle.std.specs.Prelude.{◌≡◌, ◌≢◌, ℕ, List, [], ◌∷◌, ◌++◌, ◌==◌, false, true, Some, None, if◌then◌else◌};
ghost use Rattle.tx_machine.specs.Actor.{Actor, Place};
ghost use Rattle.tx_machine.specs.World.{World as Words, plan};
ghost use Rattle.tx_machine.specs.Cells.{Cell, cell, word_of, becomes};
ghost use Rattle.tx_machine.specs.Notices.{notice};
ghost use Rattle.seq_model.specs.declared.held.Held.{Held};
ghost use Rattle.seq_model.specs.declared.event.Event.{Event};
ghost use Rattle.seq_model.specs.declared.event.Event.TheVariants.{Step};
ghost use Rattle.tx_machine.specs.Content.{Content, Frame};
ghost use Rattle.tx_machine.specs.Boosted.{Boosted, Action, acts, changes, is_actor, is_none, is_stored, is_committing};
ghost use Rattle.replay_log.specs.Contents.{CallWithOutcome, Block, HaveStripes, block_of, content, home_of};
ghost use Rattle.replay_log.specs.WorldProgress.{whose};
ghost use Rattle.replay_log.specs.Seats.{World, Beginning, actor_of};
ghost use Rattle.replay_log.specs.Worlds.{happens, opened, run};
ghost use Rattle.actor_laws.specs.Machine.{AlikeBelow, FindsBelow, SameBase};
ghost use Rattle.actor_laws.specs.Own.{Alike, SameAfter, Finds};
ghost use Rattle.actor_laws.specs.Steps.{IsOneAction, atomic_action, ready_at};
ghost use Rattle.actor_laws.specs.StepTargets.{Word, Gate, spot_at, deed_of, given};
ghost use Rattle.actor_laws.specs.Gates.{Tries, Puts, GoesHome, Gated, Homed};
ghost use Rattle.actor_laws.specs.Clock.{Grows};
ghost use Rattle.actor_laws.specs.StepAnswers.{tells};
ghost use Rattle.actor_laws.specs.Bases.{IsBaseOf, ShowsBase, IsFolded, changes_on, writes_on, log_changes, log_locations};
ghost use Rattle.replay_log.specs.declared.base.Base.{Base};

/// An event is at most one atomic action of its actor. A request, or a failed allocation, leaves all words, gates, bases and records and
/// all other actors as they are; a step does the action that is next at its stage, notes the transaction that it ends, and leaves
/// everything else but what is its actor's own.
pub fn one_action<V>()
    ensures { (v : World V) (event : Event V) → IsOneAction v event }
{}

/// What the other actors have of their own stands.
pub fn others_stand<V>()
    ensures { (v : World V) (event : Event V) (b : ℕ) → b ≢ whose event → Alike b v (happens v event).0 }
{}

/// A step changes one word or one gate at most: that which its stage names, a gate with the base of its collection.
pub fn one_spot<V>()
    ensures cells { (v : World V) (a : ℕ) (c : Cell) → spot_at a v (v.seats a).stage ≢ Word c →
        cell (happens v (Step a)).0.boosted.words c ≡ cell v.boosted.words c }
    ensures gates { (v : World V) (a k : ℕ) → spot_at a v (v.seats a).stage ≢ Gate k →
        (happens v (Step a)).0.boosted.gates k ≡ v.boosted.gates k }
    ensures parts { (v : World V) (a l : ℕ) → spot_at a v (v.seats a).stage ≢ Gate (home_of v.words v.blocks l) →
        (happens v (Step a)).0.boosted.parts l ≡ v.boosted.parts l }
    ensures editions { (v : World V) (a l : ℕ) → spot_at a v (v.seats a).stage ≢ Gate (home_of v.words v.blocks l) →
        (happens v (Step a)).0.boosted.editions l ≡ v.boosted.editions l }
{}

/// Which word or gate that is, and what is done there, depends on the actor's state alone.
pub fn due_by_own_part<V>()
    ensures spot { (a : ℕ) (v w : World V) → Alike a v w → spot_at a v (v.seats a).stage ≡ spot_at a w (w.seats a).stage }
    ensures action { (a : ℕ) (v w : World V) → Alike a v w → atomic_action a v (v.seats a).stage ≡ atomic_action a w (w.seats a).stage }
    ensures deed { (a : ℕ) (v w : World V) → Alike a v w →
        deed_of (ready_at a v (v.seats a).stage) a ≡ deed_of (ready_at a w (w.seats a).stage) a }
{}

/// That word becomes what the word machine's step makes of what it was. The clock grows no further than its actor may advance it.
pub fn word_becomes<V>()
    ensures word { (v : World V) (a : ℕ) (c : Cell) → spot_at a v (v.seats a).stage ≡ Word c →
        cell (happens v (Step a)).0.boosted.words c ≡ becomes (deed_of (ready_at a v (v.seats a).stage) a) (cell v.boosted.words c) }
    ensures clock { (v : World V) (a : ℕ) (c : Cell) → spot_at a v (v.seats a).stage ≡ Word c → Grows a v (happens v (Step a)).0 }
{}

/// A gate that is tried is its actor's, where it was free; one that is put back is free, with its base as it was, or with the changes of
/// its actor's transaction.
pub fn gate_becomes<V>()
    ensures tried { (v : World V) (a k : ℕ) → Tries v a k → is_committing (actor_of v a).place ≡ false →
        Gated a k v (happens v (Step a)).0 (if is_none (v.boosted.gates k) then Some a else v.boosted.gates k) }
    ensures back { (v : World V) (a k : ℕ) → Puts v a k → is_actor a (v.boosted.gates k) ≡ true →
        is_committing (actor_of v a).place ≡ false →
        Gated a k v (happens v (Step a)).0 None }
    ensures home { (v : World V) (a k : ℕ) → GoesHome v a k → is_actor a (v.boosted.gates k) ≡ true →
        is_stored (actor_of v a).place ≡ true →
        Homed a k v (happens v (Step a)).0 }
{}

/// The guards that [`gate_becomes`] asks for hold in each world that events have reached, and in each that is alike to the actor there.
pub fn gates_are_due<V>()
    ensures tried { (blocks : List Block) (clock : ℕ) (values : List ℕ) (held : List (Held V)) (events : List (Event V)) (a k : ℕ)
        (t : World V) →
        HaveStripes blocks → Alike a (run (opened blocks clock values held) events) t →
        Tries t a k → is_committing (actor_of t a).place ≡ false }
    ensures back { (blocks : List Block) (clock : ℕ) (values : List ℕ) (held : List (Held V)) (events : List (Event V)) (a k : ℕ)
        (t : World V) →
        HaveStripes blocks → Alike a (run (opened blocks clock values held) events) t →
        Puts t a k → (is_actor a (t.boosted.gates k) ≡ true) × (is_committing (actor_of t a).place ≡ false) }
    ensures home { (blocks : List Block) (clock : ℕ) (values : List ℕ) (held : List (Held V)) (events : List (Event V)) (a k : ℕ)
        (t : World V) →
        HaveStripes blocks → Alike a (run (opened blocks clock values held) events) t →
        GoesHome t a k → (is_actor a (t.boosted.gates k) ≡ true) × (is_stored (actor_of t a).place ≡ true) }
{}

/// What an event leaves of its actor's state, and what it answers, depends on that state and on what it finds alone: in two worlds that are
/// alike to the actor, an event that finds the same answers the same, and leaves worlds that are alike to it. So do the machine's actions.
pub fn own_part<V, X, Op, Out>()
    ensures events { (a : ℕ) (v u : World V) (event : Event V) → Alike a v u → Finds a v u event →
        SameAfter a (happens v event) (happens u event) }
    ensures actions { (c : Content X Op Out) (a : ℕ) (s t : Boosted X Out) (action : Action Op) →
        AlikeBelow a s t → FindsBelow c a s t action → AlikeBelow a (acts c s action) (acts c t action) }
{}

/// What a step of the words answers is a function of its actor's record and of the number that it finds, as what it leaves of that record
/// is (`tx_machine::laws::one_word`).
pub fn told_by_what_is_found()
    ensures found { (s : Words) (x : Actor) (p : Place) (c : Cell) → word_of (plan x p) ≡ Some c → notice s x p ≡ tells x p (cell s c) }
    ensures nothing { (s : Words) (x : Actor) (p : Place) → word_of (plan x p) ≡ None → notice s x p ≡ tells x p 0 }
{}

/// A step that begins a transaction, of a declared reader or not, takes nothing of the present world but the clock: no word, no gate,
/// and no base is copied.
pub fn begin_takes_the_clock<V>()
    ensures { (blocks : List Block) (clock : ℕ) (values : List ℕ) (held : List (Held V)) (events : List (Event V)) (a : ℕ) (u : World V) →
        HaveStripes blocks →
        let v = run (opened blocks clock values held) events in
        (v.seats a).stage ≡ Beginning → Alike a v u → v.boosted.words.clock ≡ u.boosted.words.clock →
        SameAfter a (happens v (Step a)) (happens u (Step a)) }
{}

/// So an actor's state is that of a world in which it is alone with what it found: where two worlds are alike to it, its step in the first
/// leaves and answers what its step in the second does, once the one word or gate that it touches is planted there.
pub fn alone_with_what_it_finds<V>()
    ensures { (a : ℕ) (v w : World V) → HaveStripes v.blocks → Alike a v w →
        SameAfter a (happens v (Step a)) (happens (given a v w) (Step a)) }
{}

/// A base is put back as a function of the base and of its actor's state: what a transaction's changes make of the parts of one collection
/// depends on those parts.
pub fn changes_at_home<V, X, Op, Out>()
    ensures parts { (c : Content X Op Out) → Frame c → (k : ℕ) (outcomes : List Out) (u v : ℕ → X) →
        ((l : ℕ) → c.plain l ≡ false → c.home l ≡ k → u l ≡ v l) →
        (l : ℕ) → c.plain l ≡ false → c.home l ≡ k → changes c outcomes u l ≡ changes c outcomes v l }
    ensures homes { (a k : ℕ) (v w : World V) → HaveStripes v.blocks → Alike a v w →
        SameBase (content v.words v.blocks) k v.boosted w.boosted →
        Homed a k v (happens v (Step a)).0 → Homed a k w (happens w (Step a)).0 →
        SameBase (content v.words v.blocks) k (happens v (Step a)).0.boosted (happens w (Step a)).0.boosted }
{}

/// A base that shows what its collection has, with the log of a transaction folded into it (`replay_log::Log::fold`), shows what the
/// collection has once it is put back: the parts, and the edition of each location that the log was pushed with one higher. The log is that
/// of the transaction's calls on the collection, one after another. So it is in a world that events have reached, and in each that is alike
/// to the actor there, as its lone one is.
pub fn goes_home_as_folded<V>()
    ensures home { (blocks : List Block) (clock : ℕ) (values : List ℕ) (held : List (Held V)) (events : List (Event V)) (a k : ℕ)
        (b : Block)
        (before now : Base V) (t : World V) → HaveStripes blocks → Alike a (run (opened blocks clock values held) events) t →
        let outcomes = (t.boosted.shadows a).outcomes in
        GoesHome t a k → block_of t.blocks k ≡ Some b → IsBaseOf b before → ShowsBase t.words t.blocks t k before →
        IsFolded (log_changes k b outcomes) (log_locations k b outcomes) before now →
        IsBaseOf b now × ShowsBase t.words t.blocks (happens t (Step a)).0 k now }
    ensures changes { (k : ℕ) (b : Block) (outcomes : List (CallWithOutcome V)) (outcome : CallWithOutcome V) →
        log_changes k b (outcomes ++ outcome ∷ [])
        ≡ log_changes k b outcomes ++ (if outcome.asked.collection == k then changes_on b outcome.outcome else []) }
    ensures locations { (k : ℕ) (b : Block) (outcomes : List (CallWithOutcome V)) (outcome : CallWithOutcome V) →
        log_locations k b (outcomes ++ outcome ∷ [])
        ≡ log_locations k b outcomes ++ (if outcome.asked.collection == k then writes_on b outcome.outcome else []) }
{}
