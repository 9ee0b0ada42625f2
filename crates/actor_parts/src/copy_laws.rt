//! The laws of the definitions that the contracts cite.
ghost use Rattle.std.specs.Prelude.{◌≡◌, ◌≢◌, ◌+◌, ◌<◌, ◌≤◌, ℕ, All, Bool, Contains, List, Option, Some, length, slice_index, true};
ghost use Rattle.std.specs.Prelude.{if◌then◌else◌};
ghost use Rattle.seq_model.specs.declared.call.Op.{Op};
ghost use Rattle.conflict.specs.RoomMap.{Room};
ghost use Rattle.conflict.specs.declared.change.Change.{Change};
ghost use Rattle.conflict.specs.declared.outcome.Outcome.{Outcome};
ghost use Rattle.tx_machine.specs.Boosted.{Shadow, changes, longer};
ghost use Rattle.replay_log.specs.declared.base.Base.{Base};
ghost use Rattle.replay_log.specs.Base.{Shown, editions_of, locations_of, outcome_of, reads_of, shown_of, stripes_of};
ghost use Rattle.replay_log.specs.Collections.{Suit};
ghost use Rattle.actor_laws.specs.Bases.{IsBaseOf, ShowsBase, log_changes, log_locations};
ghost use Rattle.replay_log.specs.Parts.{kind_of, part};
ghost use Rattle.replay_log.specs.Pieces.{piece_of};
ghost use Rattle.replay_log.specs.declared.touch.Touch.{Touch};
ghost use Rattle.replay_log.specs.declared.touch.TouchedKey.{TouchedKey};
ghost use Rattle.replay_log.specs.Touches.{summed_by, touched_locations};
ghost use Rattle.shadow.specs.Memo.{IsAlike, MemoView, holds};
ghost use Rattle.replay_log.specs.Contents.{CallWithOutcome, Block, HaveStripes, block_of, content, first_of};
ghost use Rattle.actor_parts.specs.declared.copies.PrivateCopy.{PrivateCopy};
ghost use Rattle.actor_parts.specs.declared.copies.PrivateCopy.TheVariants.{Keys};
ghost use Rattle.actor_parts.specs.PrivateCopy.{IsAccepted, IsCopied, IsLearnt, IsOf, ShowParts};
ghost use Rattle.actor_parts.specs.PrivateCopy.{answer_of, answered_on, changes_in, has_piece};
ghost use Rattle.actor_parts.specs.PrivateCopy.{holds_call, locations_in};
ghost use Rattle.actor_parts.specs.Accepts.{PutsBack};
ghost use Rattle.seq_model.specs.declared.event.Event.{Event};
ghost use Rattle.seq_model.specs.declared.held.Held.{Held};
ghost use Rattle.replay_log.specs.Worlds.{Open, World, actor_of, opened, run};
ghost use Rattle.tx_machine.specs.Opacity.{first_read};
ghost use Rattle.actor_parts.specs.CopyAtGate.{BeginsWithNothing, IsReadOf};
ghost use Rattle.actor_parts.specs.First.{FirstCopies};
ghost use Rattle.actor_parts.specs.CopyInWorld.{AnswersHeld, IsOwnCopy};
ghost use Rattle.actor_parts.specs.Owns.{MayCall};

use seq_model::Value;

/// The first copy of what was found of a base is of what the base shows.
pub fn first_copies<V: Value>()
    ensures { FirstCopies V }
{}

/// At the store of a call's gate its actor's shadow gets the parts that the call touches, but for those that have been read.
pub fn puts_back_as_worlds<V>()
    ensures { PutsBack V }
{}

/// A call that is held takes no gate: it is judged with the editions that what there is of its collection was copied with, in every
/// world in which that is the transaction's own; one whose locations don't fit the sets is TooLong.
pub fn answers_held_as_worlds<V>()
    ensures { AnswersHeld V }
{}

/// What a transaction has of a collection answers a call that it holds as the world does, after its own calls; and once it has accepted
/// the outcome, it has what its shadow has with one outcome more. An outcome on another collection leaves it. What it learns of the
/// same collection it has too; and what it has of single keys is of each collection that answers alike what it holds. It holds a call
/// where it has the piece that the call touches.
pub fn copies_follow<V: Value>()
    ensures answered { (n : ℕ) (bs : List Block) (k : ℕ) (b : Block) (x : Shadow (Shown V) (CallWithOutcome V)) (c : PrivateCopy V)
        (op : Op V) (o : Outcome V) → HaveStripes bs → block_of bs k ≡ Some b → IsCopied b (first_of n bs k) k x c →
        holds_call c op ≡ true → answer_of c op ≡ Some o →
        (content n bs).outcome (changes (content n bs) x.outcomes x.parts) (record { collection = k; op = op }) ≡ answered_on k op o }
    ensures accepted { (b : Block) (f k : ℕ) (x : Shadow (Shown V) (CallWithOutcome V)) (c d : PrivateCopy V) (o : Outcome V) →
        IsCopied b f k x c → holds_call c o.op ≡ true → answer_of c o.op ≡ Some o → IsAccepted o c d →
        IsCopied b f k (longer x (answered_on k o.op o)) d }
    ensures learnt { (b : Block) (s : Shown V) (changes : List (Change V)) (locations : List ℕ) (c d : PrivateCopy V) (op : Op V)
        (t : Touch V) →
        0 < b.stripes → IsOf b s changes locations c → summed_by b.stripes op s ≡ Some t.held → IsLearnt t c d →
        IsOf b s changes locations d }
    ensures pieces { (m : MemoView V) (es : Room ℕ) (op : Op V) (o : Outcome V) → outcome_of op (shown_of m.blank) ≡ Some o →
        holds_call (Keys m es) op ≡ has_piece (Keys m es) (piece_of (kind_of (shown_of m.blank)) op) }
    ensures moved { (b : Block) (s u : Shown V) (changes : List (Change V)) (locations : List ℕ) (m : MemoView V) (es : Room ℕ) →
        IsOf b s changes locations (Keys m es) → IsAlike (shown_of m.blank) m.entries m.copies m.total s u →
        IsOf b u changes locations (Keys m es) }
    ensures others { (b : Block) (f k : ℕ) (x : Shadow (Shown V) (CallWithOutcome V)) (c : PrivateCopy V) (o : CallWithOutcome V) →
        IsCopied b f k x c → o.asked.collection ≢ k → IsCopied b f k (longer x o) c }
{}

/// What a commit folds in. The log of what a transaction has of a collection is that of its calls there; each location in it is in each
/// base of the collection's block, and in no world that events have reached has such a base an edition there above the clock.
pub fn logs_as_worlds<V: Value>()
    ensures log { (w : World V) (a k : ℕ) (b : Block) (f : ℕ) (c : PrivateCopy V) → IsOwnCopy w a k b f c →
        let outcomes = (w.boosted.shadows a).outcomes in
        (changes_in c ≡ log_changes k b outcomes) × (locations_in c ≡ log_locations k b outcomes) }
    ensures within { (k : ℕ) (b : Block) (outcomes : List (CallWithOutcome V)) (base : Base V) → 0 < b.stripes → IsBaseOf b base →
        All (λ i. i < locations_of (stripes_of base) (shown_of base)) (log_locations k b outcomes) }
    ensures editions { (blocks : List Block) (clock : ℕ) (values : List ℕ) (held : List (Held V)) (events : List (Event V)) (k : ℕ)
        (b : Block) (outcomes : List (CallWithOutcome V)) (base : Base V) → HaveStripes blocks → Suit blocks held
        → block_of blocks k ≡ Some b →
        let w = run (opened blocks clock values held) events in
        ShowsBase (length values) blocks w k base →
        All (λ i. slice_index (editions_of base) i ≤ w.boosted.words.clock) (log_locations k b outcomes) }
{}

/// What copying for a call leaves. A memo's keys are answered alike by a collection that has the parts which they are read from; the
/// parts of a collection, some of them replaced by those of another of its kind, are those of a third; and what a call touches is
/// the same where the parts that it is touched from are.
pub fn copies_found<V: Value>()
    ensures alike { (n : ℕ) (s t : Shown V) (m : MemoView V) → 0 < n → kind_of t ≡ kind_of s →
        ((op : Op V) (o : Outcome V) → holds m op ≡ true → outcome_of op s ≡ Some o → (i : ℕ) → Contains (reads_of n o s) i →
        part n i s ≡ part n i t) → IsAlike (shown_of m.blank) m.entries m.copies m.total s t }
    ensures mixed { (b : Block) (f : ℕ) (parts now : ℕ → Shown V) (s t : Shown V) (taken : ℕ → Bool) → 0 < b.stripes →
        ShowParts b f parts s → ShowParts b f now t → (u : Shown V) × ShowParts b f (λ l. if taken l then now l else parts l) u }
    ensures touched { (n : ℕ) (op : Op V) (s t : Shown V) → 0 < n → kind_of s ≡ kind_of t →
        ((h : TouchedKey V) → summed_by n op t ≡ Some h → (i : ℕ) → Contains (touched_locations n h) i → part n i t ≡ part n i s) →
        summed_by n op s ≡ summed_by n op t }
{}

/// In every world that events have reached, an actor that is idle in its transaction may call: a call whose locations have all been read
/// with the copied editions may be accepted, and a location that is to be read next has not been written.
pub fn calls_as_worlds<V: Value>()
    ensures { (blocks : List Block) (clock : ℕ) (values : List ℕ) (held : List (Held V)) (events : List (Event V)) (a : ℕ) →
        HaveStripes blocks →
        let w = run (opened blocks clock values held) events in
        (w.seats a).stage ≡ Open → MayCall w a }
{}

/// A transaction that begins has nothing of any collection, wherever events have led: its shadow shows the collections of the opening,
/// with no call, and it has read no location.
pub fn begins_with_nothing<V: Value>()
    ensures { BeginsWithNothing V }
{}

/// What has been read of what a transaction has of a collection depends on how the locations are laid out and on what it read there;
/// further reads keep it where there is something, and so does an accepted outcome.
pub fn reads_stay<V: Value>()
    ensures same { (w v : World V) (a k : ℕ) (c : Option (PrivateCopy V)) → v.words ≡ w.words → v.blocks ≡ w.blocks →
        ((i : ℕ) → first_read (actor_of v a).calls (first_of w.words w.blocks k + i)
        ≡ first_read (actor_of w a).calls (first_of w.words w.blocks k + i)) →
        IsReadOf w a k c → IsReadOf v a k c }
    ensures more { (w v : World V) (a k : ℕ) (c : PrivateCopy V) → v.words ≡ w.words → v.blocks ≡ w.blocks →
        ((l e : ℕ) → first_read (actor_of w a).calls l ≡ Some e → first_read (actor_of v a).calls l ≡ Some e) →
        IsReadOf w a k (Some c) → IsReadOf v a k (Some c) }
    ensures accepted { (w : World V) (a k : ℕ) (c d : PrivateCopy V) (o : Outcome V) → holds_call c o.op ≡ true → IsAccepted o c d →
        IsReadOf w a k (Some c) → IsReadOf w a k (Some d) }
{}
