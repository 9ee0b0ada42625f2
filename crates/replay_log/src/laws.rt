//! The laws of the definitions that the contracts cite. Each function computes nothing: its contract is the law.
ghost use Rattle.std.specs.Prelude.{◌≡◌, ◌≢◌, ◌<◌, ◌≤◌, ◌+◌, ◌++◌, ℕ, List, [], ◌∷◌, Some, None, true, false, length, get_or, option_map};
ghost use Rattle.seq_model.specs.declared.event.Event.{Event};
ghost use Rattle.seq_model.specs.declared.event.Event.TheVariants.{Ask, Step, Starve};
ghost use Rattle.seq_model.specs.declared.event.Request.{Request};
ghost use Rattle.seq_model.specs.declared.event.Answer.TheVariants.{Begun};
ghost use Rattle.seq_model.specs.declared.event.Notice.TheVariants.{Quiet, Answered, Refused};
ghost use Rattle.seq_model.specs.declared.refusal.Refusal.TheVariants.{NoSuch, GateBusy, NotIdle, NoTransaction, TooLong};
ghost use Rattle.seq_model.specs.declared.call.Op.{Op};
ghost use Rattle.seq_model.specs.declared.limits.TheConstants.{CALL_LIMIT};
ghost use Rattle.seq_model.specs.declared.call.Call.{Call};
ghost use Rattle.seq_model.specs.declared.held.Held.{Held};
ghost use Rattle.tx_machine.specs.Opacity.{first_read};
ghost use Rattle.vlock_word.specs.declared.lock_word.LockWord.TheVariants.{Free, Locked};
ghost use Rattle.tx_sets.specs.Entries.{Entries, lookup};
ghost use Rattle.tx_sets.specs.declared.access_set.TheConstants.{LOCATION_LIMIT};
ghost use Rattle.tx_machine.specs.World.{put};
ghost use Rattle.tx_machine.specs.Progress.{step_limit};
ghost use Rattle.conflict.specs.declared.change.Change.{Change};
ghost use Rattle.conflict.specs.Rules.{FrameLaws};
ghost use Rattle.base_map.specs.Conflicts as map;
ghost use Rattle.base_bag.specs.Conflicts as bag;
ghost use Rattle.base_pq.specs.Conflicts as pq;
ghost use Rattle.base_queue.specs.Conflicts as queue;
ghost use Rattle.replay_log.specs.Base.{Shown, Commute, after};
ghost use Rattle.tx_machine.specs.Content.{Frame};
ghost use Rattle.tx_machine.specs.Boosted.{Action};
ghost use Rattle.tx_machine.specs.Serial.{after_actions};
ghost use Rattle.replay_log.specs.Contents.{Block, CollectionCall, HaveStripes, content, is_plain};
ghost use Rattle.replay_log.specs.Collections.{Suit, shown_at};
ghost use Rattle.replay_log.specs.Log.{RaisesEach, KeepsOthers};
ghost use Rattle.replay_log.specs.Parts.{AnswersByParts, ChangesAreWithinWrites, ChangesByPart, DisjointChangesCommute, IsWhole};
ghost use Rattle.replay_log.specs.Parts.{KnowsItsCalls, LeavesOtherParts};
ghost use Rattle.replay_log.specs.Worlds.{World, Idle, Open, Beginning, Cancelling, Leaving, is_change, actor_of, why, happens, half, run};
ghost use Rattle.replay_log.specs.Worlds.{Copying, gate_tries, has_room, opened};
ghost use Rattle.replay_log.specs.WorldTraces.{trace, is_half_done, committed_by, with_record, ended_by};
ghost use Rattle.seq_model.specs.Runs.{after_run as state_after};
ghost use Rattle.replay_log.specs.WorldRefusals.{HasCause, is_calling, is_ending};
ghost use Rattle.replay_log.specs.WorldStill.{Still, Same};
ghost use Rattle.replay_log.specs.WorldAnswers.{is_there, IsRefusal, IsRefusedAt, RefusedBy, IsStarved, Untouched, changes_at};
ghost use Rattle.replay_log.specs.WorldAnswers.{IsStale, IsTooLongUnless, copied_outcome};
ghost use Rattle.replay_log.specs.WorldReplies.{IsKept, IsMade, call_at};
ghost use Rattle.replay_log.specs.WorldAlone.{IsAlone, IsFree, TellsConflict, IsUnstarved, TellsMemory};
ghost use Rattle.replay_log.specs.WorldProgress.{AreSmall, IsAnswer, IsAnsweredWithin, IsQuiet, Nears, left_of, steps_of, whose};
ghost use Rattle.replay_log.specs.WorldTries.{InVain, tried_at};
ghost use Rattle.replay_log.specs.WorldSerial.{AreHalfDone, AreUpTo, HasWritten, IsSerial, SawAt, commits_at};
ghost use Rattle.seq_model.specs.Runs.{IsLegal, state_at};
ghost use Rattle.seq_model.specs.Contents.{Contents};
ghost use Rattle.replay_log.specs.WorldEditions.{IsReadBy, edition_at, is_undecided, part_at};
ghost use Rattle.replay_log.specs.Touches.{summed, summed_by, touched_by};
ghost use Rattle.replay_log.specs.Guards.{IsAllowed, IsAtRest, step_action};

use seq_model::Value;

/// What a call on a base answers depends on the locations that it reads alone, and what it changes is on those that it writes, for each
/// kind. So calls on one base that do not conflict commute, and changes that leave all parts but those of some locations commute with
/// changes that leave all but those of others, on whatever a base shows. The changes of an outcome leave all but those of the locations
/// that it writes.
pub fn frame_laws<V: Value>()
    ensures map { FrameLaws (map.rules V) }
    ensures bag { FrameLaws (bag.rules V) }
    ensures pq { FrameLaws (pq.rules V) }
    ensures queue { FrameLaws (queue.rules V) }
    ensures commute { (stripes : ℕ) (s : Shown V) → Commute stripes s }
    ensures changes { DisjointChangesCommute V }
    ensures within { ChangesAreWithinWrites V }
{}

/// A log folded is its changes one after another: what is folded in two parts is folded as one. Of the editions, each location
/// that was pushed has its own raised by one, and the others keep theirs.
pub fn fold_laws<V: Value>()
    ensures parts { (first second : List (Change V)) (s : Shown V) → after (first ++ second) s ≡ after second (after first s) }
    ensures each { RaisesEach }
    ensures others { KeepsOthers }
{}

/// What is touched of a map without the counts of its stripes is what is touched with them, summed: the counts add up to the number of
/// its keys.
pub fn touches<V: Value>()
    ensures summed { (n : ℕ) (op : Op V) (s : Shown V) → 0 < n → summed_by n op s ≡ option_map summed (touched_by n op s) }
{}

/// A base is the whole of its parts, one for each location. An outcome depends on the parts of the locations that it reads, and
/// whether there is one on the kind of the base alone; its changes leave the part of each location that it does not write, and
/// what changes make of a part depends on that part.
pub fn part_laws<V: Value>()
    ensures whole { IsWhole V }
    ensures answers { AnswersByParts V }
    ensures known { KnowsItsCalls V }
    ensures untouched { LeavesOtherParts V }
    ensures by_part { ChangesByPart V }
{}

/// The collections of a world, whose locations come after its words, one block after another, keep the frame laws of a content. So whatever
/// `tx_machine::boosted_laws` says of a world with collections holds of these four kinds, in any number and stripes.
pub fn contents<V: Value>()
    ensures frame { (words : ℕ) (blocks : List Block) → HaveStripes blocks → Frame (content {V = V} words blocks) }
{}

/// A world of words and collections whose transactions make requests, one atomic step at a time, goes through worlds of the
/// machine's actions alone, whatever its events. So what `tx_machine::boosted_laws` says of every list of actions holds of it.
pub fn requests<V: Value>()
    ensures actions { (blocks : List Block) (clock : ℕ) (values : List ℕ) (held : List (Held V)) (events : List (Event V)) →
        (actions : List (Action (CollectionCall V)))
        × ((run (opened blocks clock values held) events).boosted
        ≡ after_actions (content (length values) blocks) clock (λ l. get_or values l 0) (shown_at (length values) blocks held) actions) }
{}

/// Serial order of a world of words and collections, in which calls on both are mixed, for every opening, and over every list of
/// events of any number of actors.
///
/// The records, in commit order, are a run from the opening: no two writers share a number, and every reply of every call, on a
/// word or on a collection, is that of the sequential call, one whole transaction after another. Where no commit is half done,
/// words and collections are what the run leaves; a half-done commit is recorded. An open or aborted transaction was replied
/// what the state replies that the records up to its number leave, now and at every later moment, and so was one whose next step
/// commits, of all its calls. A transaction begins with a number that no record before it exceeds, so transactions that
/// don't overlap keep their order.
pub fn serial_worlds<V: Value>()
    ensures serial { (blocks : List Block) (clock : ℕ) (values : List ℕ) (held : List (Held V)) (events : List (Event V)) →
        HaveStripes blocks → Suit blocks held →
        IsSerial (record { words = values; held = held }) (run (opened blocks clock values held) events) }
    ensures stays { (blocks : List Block) (clock : ℕ) (values : List ℕ) (held : List (Held V)) (events later : List (Event V)) (a : ℕ) →
        HaveStripes blocks → Suit blocks held →
        let w = run (opened blocks clock values held) events in
        SawAt (record { words = values; held = held }) (run w later).records (w.seats a) (w.seats a).stage }
    ensures begins { (blocks : List Block) (clock : ℕ) (values : List ℕ) (held : List (Held V)) (events : List (Event V)) (a rv : ℕ) →
        HaveStripes blocks → Suit blocks held →
        let w = run (opened blocks clock values held) events in
        (w.seats a).stage ≡ Beginning → (happens w (Step a)).1 ≡ Answered a (Begun rv) → AreUpTo rv w.records }
    ensures committed { (blocks : List Block) (clock : ℕ) (values : List ℕ) (held : List (Held V)) (events later : List (Event V))
        (a : ℕ) → HaveStripes blocks → Suit blocks held →
        let w = run (opened blocks clock values held) events in
        let x = w.seats a in
        commits_at x.stage ≡ true → IsLegal x.calls (state_at x.rv (run w later).records (record { words = values; held = held })) }
{}

/// The trace of a world at a moment. Where no commit is half done, the words and collections that it shows, each collection put together of
/// the parts of its locations, are what its records leave, one whole transaction after another. A step commits by the first value store of
/// a writer, or by the load of the clock that ends a transaction without writes, and puts the record of all its calls into its place in
/// commit order; an aborted transaction is listed after those that ended before it, with its actor, its number, its calls and its cause.
/// Nothing else adds to the records or to the aborted transactions.
pub fn traces<V: Value>()
    ensures state { (blocks : List Block) (clock : ℕ) (values : List ℕ) (held : List (Held V)) (events : List (Event V)) →
        HaveStripes blocks → Suit blocks held →
        let w = run (opened blocks clock values held) events in
        ((a : ℕ) → is_half_done (w.seats a).stage ≡ false) →
        (trace w).state ≡ state_after (trace w).records (record { words = values; held = held }) }
    ensures commits { (w : World V) (a : ℕ) →
        (trace (happens w (Step a)).0).records ≡ with_record a (committed_by (w.seats a) (w.seats a).stage) (trace w).records }
    ensures ends { (w : World V) (a : ℕ) →
        (trace (happens w (Step a)).0).aborted ≡ (trace w).aborted ++ ended_by a (w.seats a) (w.seats a).stage }
    ensures asked { (w : World V) (a : ℕ) (q : Request V) →
        ((happens w (Ask a q)).0.records ≡ w.records) × ((happens w (Ask a q)).0.aborted ≡ w.aborted) }
    ensures starved { (w : World V) (a : ℕ) →
        ((happens w (Starve a)).0.records ≡ w.records) × ((happens w (Starve a)).0.aborted ≡ w.aborted) }
{}

/// A transaction has the calls that were asked for, each once, with the reply that was returned. A call that is asked is answered, refused,
/// or under way; each step of its answers it, leaves it under way, refuses it, or aborts its transaction; and it joins the calls by its
/// answer alone. Whatever else happens leaves the calls, until the transaction has ended; one that begins has none, and the number that was
/// returned. A commit returns the number of its record.
pub fn calls<V: Value>()
    ensures asked { (w : World V) (a t : ℕ) (op : Op V) → (w.seats a).stage ≡ Open →
        let call : Call V = record { target = t; op = op } in
        let r = happens w (Ask a (Request.Call call)) in
        IsMade a call (w.seats a) (r.0.seats a) r.1 }
    ensures stepped { (w : World V) (a : ℕ) (call : Call V) → call_at (w.seats a).stage ≡ Some call →
        let r = happens w (Step a) in
        IsMade a call (w.seats a) (r.0.seats a) r.1 }
    ensures kept { (w : World V) (a : ℕ) → call_at (w.seats a).stage ≡ None →
        let r = happens w (Step a) in
        IsKept a (w.seats a).stage (w.seats a) (r.0.seats a) r.1 }
    ensures requested { (w : World V) (a : ℕ) (q : Request V) → ((call : Call V) → q ≢ Request.Call call) →
        let r = happens w (Ask a q) in
        IsKept a (w.seats a).stage (w.seats a) (r.0.seats a) r.1 }
    ensures starved { (w : World V) (a : ℕ) →
        let r = happens w (Starve a) in
        IsKept a (w.seats a).stage (w.seats a) (r.0.seats a) r.1 }
{}

/// Half-done commits and numbers. The half-done commits are listed by their numbers, each once and rising; each is the number of a writer's
/// record, and of an actor that is between its first value store and its last release. A number that a commit took which is then aborted is
/// no writer's, from the step on that aborts it, while its gates and locks are put back, and at every later moment.
pub fn numbers<V: Value>()
    ensures half_done { (blocks : List Block) (clock : ℕ) (values : List ℕ) (held : List (Held V)) (events : List (Event V)) →
        HaveStripes blocks → Suit blocks held →
        let w = run (opened blocks clock values held) events in
        AreHalfDone w (half w) }
    ensures unused { (blocks : List Block) (clock : ℕ) (values : List ℕ) (held : List (Held V)) (events later : List (Event V)) (a : ℕ) →
        HaveStripes blocks →
        let w = run (opened blocks clock values held) events in
        is_ending (w.seats a).stage ≡ true → HasWritten (actor_of w a).wv (run w later).records → ⊥ }
{}

/// No guard of the machine refuses what a request does: wherever a request is under way, its next step does an action whose guard holds, at
/// a place where it is next. So a request is never stuck.
pub fn guards<V: Value>()
    ensures allowed { (blocks : List Block) (clock : ℕ) (values : List ℕ) (held : List (Held V)) (events : List (Event V)) (a : ℕ) →
        HaveStripes blocks →
        let w = run (opened blocks clock values held) events in
        IsAllowed w (w.seats a).stage (step_action w a (w.seats a).stage) }
{}

/// Each own step of a request answers it, or brings it nearer to its answer; a failed allocation of its actor, if it does not refuse it,
/// takes it no further from its answer; and what others do leaves it where it is. Both sets of a transaction have at most 4,096 locations
/// at every moment, and no request is ever 1,000,000 own steps from its answer, where no call reads more locations than a set may have.
/// What answers nothing leaves a step to take, and what a step or a failed allocation answers leaves none. So a request that is under way
/// at any moment is answered within 1,000,000 of its actor's steps, whatever the others do, and whoever is out of memory.
pub fn progress<V: Value>()
    ensures nearer { (blocks : List Block) (clock : ℕ) (values : List ℕ) (held : List (Held V)) (events : List (Event V)) (a : ℕ) →
        HaveStripes blocks → AreSmall blocks →
        let w = run (opened blocks clock values held) events in
        Nears a (left_of w a) (happens w (Step a)) }
    ensures others { (w : World V) (e : Event V) (a : ℕ) → a ≢ whose e → left_of (happens w e).0 a ≡ left_of w a }
    ensures sets { (blocks : List Block) (clock : ℕ) (values : List ℕ) (held : List (Held V)) (events : List (Event V)) (a : ℕ) →
        HaveStripes blocks →
        let w = run (opened blocks clock values held) events in
        (length (actor_of w a).reads ≤ LOCATION_LIMIT) × (length (actor_of w a).writes ≤ LOCATION_LIMIT) }
    ensures few { (blocks : List Block) (clock : ℕ) (values : List ℕ) (held : List (Held V)) (events : List (Event V)) (a : ℕ)
        (q : Request V) → HaveStripes blocks → AreSmall blocks →
        let w = run (opened blocks clock values held) events in
        Nears a step_limit (happens w (Ask a q)) }
    ensures due { (w : World V) (e : Event V) → IsQuiet (happens w e).1 → IsAtRest ((happens w e).0.seats (whose e)).stage → ⊥ }
    ensures rests { (w : World V) (e : Event V) (a : ℕ) → IsAnswer a e (happens w e).1 → IsAtRest ((happens w e).0.seats a).stage }
    ensures starved { (blocks : List Block) (clock : ℕ) (values : List ℕ) (held : List (Held V)) (events : List (Event V)) (a : ℕ) →
        HaveStripes blocks →
        let w = run (opened blocks clock values held) events in
        let r = happens w (Starve a) in
        IsQuiet r.1 → left_of r.0 a ≤ left_of w a }
    ensures always { (blocks : List Block) (clock : ℕ) (values : List ℕ) (held : List (Held V)) (events : List (Event V)) (a : ℕ) →
        HaveStripes blocks → AreSmall blocks → left_of (run (opened blocks clock values held) events) a < step_limit }
    ensures answered { (blocks : List Block) (clock : ℕ) (values : List ℕ) (held : List (Held V)) (events later : List (Event V))
        (a : ℕ) → HaveStripes blocks → AreSmall blocks →
        let w = run (opened blocks clock values held) events in
        (IsAtRest (w.seats a).stage → ⊥) → step_limit ≤ steps_of a later → IsAnsweredWithin a later w }
{}

/// A refusal is true. A step that begins to abort a transaction has found the cause that it notes: the word of which it loads or would
/// exchange is named with its location, and stops its request; or the edition that was copied for the call is not the one that the
/// transaction has read; or it is the last try on the gate, which another holds. The cause is unchanged until the last step of the request
/// returns it.
pub fn refusals<V: Value>()
    ensures causes { (blocks : List Block) (clock : ℕ) (values : List ℕ) (held : List (Held V)) (events : List (Event V)) (a : ℕ) →
        HaveStripes blocks →
        let w = run (opened blocks clock values held) events in
        is_ending (w.seats a).stage ≡ false → HasCause w a (w.seats a).stage (happens w (Step a)).0 }
    ensures stays { (w : World V) (a : ℕ) → is_ending (w.seats a).stage ≡ true → is_ending ((happens w (Step a)).0.seats a).stage ≡ true →
        ((happens w (Step a)).0.seats a).cause ≡ (w.seats a).cause }
    ensures told { (w : World V) (a : ℕ) → (w.seats a).stage ≡ Leaving → (happens w (Step a)).1 ≡ why a (w.seats a).cause }
{}

/// A gate is tried 64 times. Where a request tries a gate, and `n` tries are left after this one, the last steps of its actor before it, as
/// many as with this one and `n` make 64, all tried this gate, and each found it held by another. So a request that is aborted for a busy
/// gate has tried it 64 times, one step after another, and found it held by another each time.
pub fn tries<V: Value>()
    ensures before { (blocks : List Block) (clock : ℕ) (values : List ℕ) (held : List (Held V)) (events : List (Event V)) (a k n : ℕ) →
        HaveStripes blocks →
        let start = opened blocks clock values held in
        tried_at ((run start events).seats a).stage ≡ Some (k, n) → (m : ℕ) × (m + 1 + n ≡ gate_tries) × InVain start events a k m }
    ensures in_all { (blocks : List Block) (clock : ℕ) (values : List ℕ) (held : List (Held V)) (events : List (Event V)) (a k : ℕ) →
        HaveStripes blocks →
        let start = opened blocks clock values held in
        let w = run start events in
        let x = (happens w (Step a)).0.seats a in
        is_ending (w.seats a).stage ≡ false → is_ending x.stage ≡ true → x.cause ≡ Some (GateBusy k) →
        InVain start (events ++ Step a ∷ []) a k gate_tries }
{}

/// What a refusal means as it is answered. A request that is refused changes nothing. A step is refused where none is to be taken, as a
/// transaction begins at the limit of the clock, as a call that was copied for finds no room in the sets (its transaction is as before the
/// call, with the same pieces copied), and by the last step of a request, which returns the cause that was found; and nowhere else. So a
/// commit runs from its first value store to its last release. A failed allocation is refused where no request is under way. A begin is
/// refused for it at once, and any other request is aborted for it up to the first value store of a commit; from there on, and while a
/// transaction is being aborted, it changes nothing.
pub fn answers<V: Value>()
    ensures asked { (w : World V) (a : ℕ) (q : Request V) → IsRefusal (happens w (Ask a q)).1 → Same w (happens w (Ask a q)).0 }
    ensures stepped { (blocks : List Block) (clock : ℕ) (values : List ℕ) (held : List (Held V)) (events : List (Event V)) (a : ℕ) →
        HaveStripes blocks →
        let w = run (opened blocks clock values held) events in
        let r = happens w (Step a) in
        RefusedBy a (IsRefusedAt w a (w.seats a).stage r.0) r.1 }
    ensures goes_on { (w : World V) (a : ℕ) → is_half_done (w.seats a).stage ≡ true → IsQuiet (happens w (Step a)).1 →
        is_half_done ((happens w (Step a)).0.seats a).stage ≡ true }
    ensures starved { (w : World V) (a : ℕ) → IsStarved w a (w.seats a).stage (happens w (Starve a)) }
{}

/// Whether a call that has just been copied for finds room in the sets: it is TooLong exactly where its locations find none. They are
/// those of the outcome that it has of what its transaction has copied. But where this copy is found stale without a further step, as
/// a location that was read before has another edition by now, they are those of the outcome that it has of the bases as they are:
/// what was copied of that location before says nothing of the key that is copied now.
pub fn rooms<V: Value>()
    ensures copied { (w : World V) (a : ℕ) (asked : CollectionCall V) → (w.seats a).stage ≡ Copying asked →
        let c = content w.words w.blocks in
        let o = copied_outcome w a asked in
        (IsStale (actor_of w a).reads w.boosted.editions (c.reads o) → ⊥) →
        IsTooLongUnless a (has_room (actor_of w a) (c.reads o) (c.writes o)) (happens w (Step a)).1 }
    ensures stale { (w : World V) (a : ℕ) (asked : CollectionCall V) → (w.seats a).stage ≡ Copying asked →
        let c = content w.words w.blocks in
        let o = c.outcome w.boosted.parts asked in
        IsStale (actor_of w a).reads w.boosted.editions (c.reads (copied_outcome w a asked)) →
        IsTooLongUnless a (has_room (actor_of w a) (c.reads o) (c.writes o)) (happens w (Step a)).1 }
{}

/// When a request is refused as it is asked. While another is under way it is NotIdle, and so is one that begins where a transaction is
/// open; where none is open and it begins none, it is NoTransaction. A call of what is not there is NoSuch, whatever else would refuse it,
/// and only then one past the limit of calls is TooLong. None of them changes anything. Only an Abort aborts a transaction as it is asked.
pub fn asked<V: Value>()
    ensures under_way { (w : World V) (a : ℕ) (q : Request V) → (IsAtRest (w.seats a).stage → ⊥) →
        happens w (Ask a q) ≡ (w, Refused a NotIdle) }
    ensures open { (w : World V) (a : ℕ) → (w.seats a).stage ≡ Open →
        (happens w (Ask a Request.Begin) ≡ (w, Refused a NotIdle)) × (happens w (Ask a Request.BeginRead) ≡ (w, Refused a NotIdle)) }
    ensures idle { (w : World V) (a : ℕ) (q : Request V) → (w.seats a).stage ≡ Idle → q ≢ Request.Begin → q ≢ Request.BeginRead →
        happens w (Ask a q) ≡ (w, Refused a NoTransaction) }
    ensures no_such { (w : World V) (a t : ℕ) (op : Op V) → (w.seats a).stage ≡ Open → is_there w a t op ≡ false →
        happens w (Ask a (Request.Call record { target = t; op = op })) ≡ (w, Refused a NoSuch) }
    ensures too_long { (w : World V) (a t : ℕ) (op : Op V) → (w.seats a).stage ≡ Open → is_there w a t op ≡ true →
        CALL_LIMIT ≤ length (w.seats a).calls →
        happens w (Ask a (Request.Call record { target = t; op = op })) ≡ (w, Refused a TooLong) }
    ensures given_up { (blocks : List Block) (clock : ℕ) (values : List ℕ) (held : List (Held V)) (events : List (Event V)) (a : ℕ)
        (q : Request V) → HaveStripes blocks →
        let w = run (opened blocks clock values held) events in
        is_ending (w.seats a).stage ≡ false → is_ending ((happens w (Ask a q)).0.seats a).stage ≡ true → q ≡ Request.Abort }
{}

/// What a refusal leaves. A step stores a value only where a commit does, and changes a base only where a commit puts it back; so a
/// transaction that is being aborted leaves them. A lock that it holds keeps its old version until it is put back with it, one lock a step.
/// An idle actor holds no lock and no gate.
pub fn given_up<V: Value>()
    ensures untouched { (blocks : List Block) (clock : ℕ) (values : List ℕ) (held : List (Held V)) (events : List (Event V)) (a : ℕ) →
        HaveStripes blocks →
        let w = run (opened blocks clock values held) events in
        changes_at (w.seats a).stage ≡ false → Untouched w (happens w (Step a)).0 }
    ensures locked { (blocks : List Block) (clock : ℕ) (values : List ℕ) (held : List (Held V)) (events : List (Event V)) (a l k : ℕ) →
        HaveStripes blocks →
        let w = run (opened blocks clock values held) events in
        lookup (actor_of w a).held l ≡ Some k → w.boosted.words.locks l ≡ Locked k }
    ensures back { (blocks : List Block) (clock : ℕ) (values : List ℕ) (held : List (Held V)) (events : List (Event V)) (a l k : ℕ)
        (rest : Entries) → HaveStripes blocks →
        let w = run (opened blocks clock values held) events in
        let u = (happens w (Step a)).0 in
        (w.seats a).stage ≡ Cancelling → (actor_of w a).held ≡ (l, k) ∷ rest →
        (u.boosted.words.locks ≡ put w.boosted.words.locks l (Free k)) × ((actor_of u a).held ≡ rest) }
    ensures rests { (blocks : List Block) (clock : ℕ) (values : List ℕ) (held : List (Held V)) (events : List (Event V)) (a : ℕ) →
        HaveStripes blocks →
        let w = run (opened blocks clock values held) events in
        (w.seats a).stage ≡ Idle → ((actor_of w a).held ≡ []) × ((k : ℕ) → w.boosted.gates k ≢ Some a) }
{}

/// A transaction beside which no other actor steps between its begin and its end, and at whose begin no lock and no gate is held, is
/// refused for no conflict; and as Memory only where an allocation of its own actor fails. Meanwhile others may ask, and their allocations
/// fail.
pub fn alone<V: Value>()
    ensures never { (blocks : List Block) (clock : ℕ) (values : List ℕ) (held : List (Held V)) (events later : List (Event V)) (a : ℕ) →
        HaveStripes blocks →
        let w = run (opened blocks clock values held) events in
        (w.seats a).stage ≡ Beginning → IsFree w → IsAlone a later →
        (e : Event V) → whose e ≡ a → TellsConflict (happens (run w later) e).1 → ⊥ }
    ensures memory { (blocks : List Block) (clock : ℕ) (values : List ℕ) (held : List (Held V)) (events later : List (Event V)) (a : ℕ) →
        HaveStripes blocks →
        let w = run (opened blocks clock values held) events in
        (w.seats a).stage ≡ Beginning → IsFree w → IsAlone a later → IsUnstarved a later →
        (e : Event V) → whose e ≡ a → IsUnstarved a (e ∷ []) → TellsMemory (happens (run w later) e).1 → ⊥ }
{}

/// A request and a failed allocation do no atomic step: they leave the clock, the words and their locks, the gates, the bases and what the
/// other actors have copied.
pub fn without_steps<V: Value>()
    ensures asked { (w : World V) (a : ℕ) (q : Request V) → Still a w.boosted (happens w (Ask a q)).0.boosted }
    ensures starved { (w : World V) (a : ℕ) → Still a w.boosted (happens w (Starve a)).0.boosted }
{}

/// What a transaction has copied of a location that it has read is what the base has there, where the base has the edition that it
/// read. So another key of that location, copied later with the same edition, goes with those copied before.
pub fn copies<V: Value>()
    ensures same { (blocks : List Block) (clock : ℕ) (values : List ℕ) (held : List (Held V)) (events : List (Event V)) (a l e : ℕ) →
        HaveStripes blocks →
        let w = run (opened blocks clock values held) events in
        is_calling (w.seats a).stage ≡ true → is_plain w.words w.blocks l ≡ false → first_read (actor_of w a).calls l ≡ Some e →
        w.boosted.editions l ≡ e →
        (w.boosted.shadows a).parts l ≡ w.boosted.parts l }
{}

/// No number of a record, and no edition of a base, is above the clock: an edition opens as 0, and rises at most once for each
/// number.
pub fn bounds<V: Value>()
    ensures numbers { (blocks : List Block) (clock : ℕ) (values : List ℕ) (held : List (Held V)) (events : List (Event V)) →
        HaveStripes blocks → Suit blocks held →
        let w = run (opened blocks clock values held) events in
        AreUpTo w.boosted.words.clock w.records }
    ensures editions { (blocks : List Block) (clock : ℕ) (values : List ℕ) (held : List (Held V)) (events : List (Event V)) (l : ℕ) →
        HaveStripes blocks → Suit blocks held →
        let w = run (opened blocks clock values held) events in
        is_plain (length values) blocks l ≡ false → w.boosted.editions l ≤ w.boosted.words.clock }
{}

/// Editions. Each location that a call of an open transaction reads, at its place in the transaction, was read with the edition that the
/// location has at the number at which the transaction began: how many records up to that number have calls that write it, each at its
/// place in the run. So has whatever else it has read of a collection. Where a base has the edition that was read, it has the part that the
/// location has in the state which the records up to that number leave; and so has what the transaction copied there. All of it remains so
/// whatever happens later.
pub fn editions<V: Value>()
    ensures read { (blocks : List Block) (clock : ℕ) (values : List ℕ) (held : List (Held V)) (events later : List (Event V)) (a l : ℕ) →
        HaveStripes blocks → Suit blocks held →
        let w = run (opened blocks clock values held) events in
        let x = w.seats a in
        let opening : Contents V = record { words = values; held = held } in
        let records = (run w later).records in
        is_undecided x.stage ≡ true → IsReadBy (length values) blocks l x.calls (state_at x.rv records opening) →
        first_read (actor_of w a).calls l ≡ Some (edition_at (length values) blocks x.rv l records opening) }
    ensures counted { (blocks : List Block) (clock : ℕ) (values : List ℕ) (held : List (Held V)) (events later : List (Event V))
        (a l e : ℕ) → HaveStripes blocks → Suit blocks held →
        let w = run (opened blocks clock values held) events in
        let x = w.seats a in
        let opening : Contents V = record { words = values; held = held } in
        is_undecided x.stage ≡ true → is_plain (length values) blocks l ≡ false → first_read (actor_of w a).calls l ≡ Some e →
        e ≡ edition_at (length values) blocks x.rv l (run w later).records opening }
    ensures part { (blocks : List Block) (clock : ℕ) (values : List ℕ) (held : List (Held V)) (events later : List (Event V))
        (a l e : ℕ) → HaveStripes blocks → Suit blocks held →
        let w = run (opened blocks clock values held) events in
        let u = run w later in
        let x = w.seats a in
        let opening : Contents V = record { words = values; held = held } in
        is_undecided x.stage ≡ true → is_plain (length values) blocks l ≡ false → first_read (actor_of w a).calls l ≡ Some e →
        u.boosted.editions l ≡ e → u.boosted.parts l ≡ part_at (length values) blocks (state_at x.rv u.records opening) l }
    ensures copied { (blocks : List Block) (clock : ℕ) (values : List ℕ) (held : List (Held V)) (events later : List (Event V)) (a l : ℕ) →
        HaveStripes blocks → Suit blocks held →
        let w = run (opened blocks clock values held) events in
        let x = w.seats a in
        let opening : Contents V = record { words = values; held = held } in
        let seen = state_at x.rv (run w later).records opening in
        is_undecided x.stage ≡ true → IsReadBy (length values) blocks l x.calls seen →
        (w.boosted.shadows a).parts l ≡ part_at (length values) blocks seen l }
{}

/// A change that a declared reader asks for is NoSuch at once, whatever else would refuse it, and changes nothing. A declared
/// reader has no sets, so each of its calls reads its locations anew.
pub fn declared_readers<V: Value>()
    ensures changes { (w : World V) (a : ℕ) (call : Call V) → (actor_of w a).declared ≡ true → (w.seats a).stage ≡ Open →
        is_change call.op ≡ true →
        happens w (Ask a (Request.Call call)) ≡ (w, Refused a NoSuch) }
    ensures sets { (blocks : List Block) (clock : ℕ) (values : List ℕ) (held : List (Held V)) (events : List (Event V)) (a : ℕ) →
        HaveStripes blocks →
        let w = run (opened blocks clock values held) events in
        is_calling (w.seats a).stage ≡ true → (actor_of w a).declared ≡ true → ((actor_of w a).reads ≡ []) × ((actor_of w a).writes ≡ []) }
{}
