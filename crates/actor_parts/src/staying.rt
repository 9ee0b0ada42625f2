//! What remains a transaction's own as events follow.
ghost use Rattle.std.specs.Prelude.{◌≡◌, ◌≢◌, ℕ, Option};
ghost use Rattle.seq_model.specs.declared.event.Event.{Event};
ghost use Rattle.replay_log.specs.Contents.{CallWithOutcome, CollectionCall};
ghost use Rattle.replay_log.specs.WorldProgress.{whose};
ghost use Rattle.replay_log.specs.Worlds.{World, actor_of, happens};
ghost use Rattle.actor_parts.specs.Shows.{put_back};
ghost use Rattle.actor_parts.specs.declared.copies.PrivateCopy.{PrivateCopy};
ghost use Rattle.actor_parts.specs.CopyAtGate.{IsReadOf};
ghost use Rattle.actor_parts.specs.Owns.{IsOwn};
ghost use Rattle.actor_parts.specs.CopiesAfterEvent.{EventsStay, Joins, Stays};

use seq_model::Value;

/// What an event leaves of what a transaction has of collections, and of what it has read of them. An event of another actor leaves all of
/// it. In every world that events have reached, so does a request, a step or a failed allocation of its own, but for a call on a collection
/// that is answered, whose outcome joins those of its shadow, and for the three steps that are on copies: one that begins it, the store of
/// a call's gate, and a load of a call's location, which reads nothing of another collection. Where all of it is unchanged, what there was
/// of a collection is the transaction's own still, and read; and so it is of another collection than the one whose call is answered, or
/// whose gate is put back.
pub fn copies_stay<V: Value>()
    ensures others { (w : World V) (e : Event V) (a : ℕ) → a ≢ whose e →
        let v = (happens w e).0 in
        (v.seats a ≡ w.seats a) × (actor_of v a ≡ actor_of w a) × Stays w v a }
    ensures events { EventsStay V }
    ensures stays { (w v : World V) (a k : ℕ) (c : Option (PrivateCopy V)) → Stays w v a →
        (IsOwn w a k c → IsOwn v a k c) × (IsReadOf w a k c → IsReadOf v a k c) }
    ensures joins { (w v : World V) (a k : ℕ) (o : CallWithOutcome V) (c : Option (PrivateCopy V)) → Joins w v a o →
        (o.asked.collection ≢ k → IsOwn w a k c → IsOwn v a k c) × (IsReadOf w a k c → IsReadOf v a k c) }
    ensures back { (w : World V) (a k : ℕ) (asked : CollectionCall V) (c : Option (PrivateCopy V)) →
        (k ≢ asked.collection → IsOwn w a k c → IsOwn (put_back a w asked) a k c)
        × (IsReadOf w a k c → IsReadOf (put_back a w asked) a k c) }
{}
