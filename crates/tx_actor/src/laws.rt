//! The laws of the definitions that the contracts cite.
ghost use Rattle.std.specs.Prelude.{◌≡◌, ◌≢◌, ◌<◌, ℕ, [], None, Option, Some, slice_get};
ghost use Rattle.conflict.specs.declared.outcome.Outcome.{Outcome};
ghost use Rattle.tx_machine.specs.Boosted.{longer};
ghost use Rattle.replay_log.specs.Contents.{HaveStripes};
ghost use Rattle.actor_parts.specs.PrivateCopy.{answer_of, answered_on};
ghost use Rattle.replay_log.specs.Worlds.{World, actor_of};
ghost use Rattle.tx_actor.specs.LoadInWorld.{KeepsCall, MayHear};
ghost use Rattle.actor_parts.specs.LoadInWorld.{LoadsReached};
ghost use Rattle.tx_actor.specs.Seated.{SeatsActors};
ghost use Rattle.actor_parts.specs.declared.copies.CopyOfCollection.{CopyOfCollection};
ghost use Rattle.tx_actor.specs.declared.actor.TxActor.{TxActor};
ghost use Rattle.tx_actor.specs.Answers.{IsAcceptedAt};
ghost use Rattle.actor_parts.specs.Blocks.{BlocksView, IsLaid};
ghost use Rattle.actor_parts.specs.Owns.{AreOfBlocks, IsOwn};
ghost use Rattle.actor_parts.specs.declared.copies.PrivateCopy.{PrivateCopy};
ghost use Rattle.actor_parts.specs.CopyAtGate.{IsReadOf};
ghost use Rattle.actor_parts.specs.CopiesAfterEvent.{Stays};
ghost use Rattle.tx_actor.specs.CopiesByStage.{HasCopies, KeepsCopies, OwnsAll, ReadsStill};
ghost use Rattle.tx_actor.specs.ActorBounds.{IsRunning};
ghost use Rattle.tx_actor.specs.Reading.{LoadsKeep};
ghost use Rattle.tx_actor.specs.Owns.{OwnsCopies};
ghost use Rattle.tx_actor.specs.CopiesAfterStep.{CopiesStayOwn, LoadsStayOwn};
ghost use Rattle.tx_actor.specs.Trying.{HoldsGates};

use crate::actor::Stage;
use actor_parts::{copies_put_back, copies_stay};
use seq_model::Value;

/// Wherever events have led: where the load of a call's last location answered the copied edition, the acceptance is allowed, and the
/// world's outcome is the one of its stage; where another location is to be read next, no set has it. So the load may be heard by an actor
/// whose call stands on its own copy, or has a location that was read with another edition before, and is then not accepted; what is left
/// to be judged stands on that copy too.
pub fn loads_as_worlds<V: Value>()
    ensures reached { LoadsReached V }
    ensures heard { MayHear V }
    ensures kept { KeepsCall V }
{}

/// While a call's locations are read, a step of the word actor answers nothing, and is in a load of the same location, with the room as it
/// was; or it has read the edition, and there is room for the other locations and for the writes; or the location has moved.
pub fn loads_keep_running<V: Value>()
    ensures { LoadsKeep V }
{}

/// In a world that shows an actor its seat does next what the actor does, and a failed allocation, or what a load answered, makes of it
/// what it makes of the actor's own, which it is but for the outcome of a call whose locations are read.
pub fn seats_as_actors<V>()
    ensures { SeatsActors V }
{}

/// What an actor has of all collections is its own in a world: nothing, where its transaction has nothing of each. It depends on how the
/// locations are laid out and on the actor's own shadow alone, so nothing else that happens changes it. An accepted outcome keeps it. The
/// copies are then of the kind and the stripes of their blocks.
pub fn copies_stay_own<V: Value>()
    ensures begun { (r : TxActor V) (w : World V) (a : ℕ) → r.copies.items ≡ [] → HaveStripes w.blocks →
        ((k : ℕ) → IsOwn w a k None) → OwnsCopies r w a }
    ensures same { (r u : TxActor V) (w v : World V) (a : ℕ) → u.copies.items ≡ r.copies.items → v.words ≡ w.words → v.blocks ≡ w.blocks →
        v.boosted.shadows a ≡ w.boosted.shadows a → OwnsCopies r w a → OwnsCopies u v a }
    ensures accepted { (r u : TxActor V) (w v : World V) (a i j : ℕ) (o : Outcome V) → v.words ≡ w.words → v.blocks ≡ w.blocks →
        v.boosted.shadows a ≡ longer (w.boosted.shadows a) (answered_on j o.op o) →
        IsAcceptedAt i (Some o) r.copies.items u.copies.items →
        ((c : CopyOfCollection V) → slice_get r.copies.items i ≡ Some c → (c.collection ≡ j) × (answer_of c.copied o.op ≡ Some o)) →
        OwnsCopies r w a → OwnsCopies u v a }
    ensures blocks { (v : BlocksView) (r : TxActor V) (w : World V) (a : ℕ) → IsLaid v w → OwnsCopies r w a → AreOfBlocks v r.copies.items }
{}

/// What an actor has of collections remains its own from stage to stage. A step, or a failed allocation, that leaves its copies as the next
/// stage asks for them leaves it, where its event leaves all that its transaction has; one that begins has nothing. Another actor's event
/// leaves it. Where the actor is idle, what a request leaves of its copies has been read where they were; and where all is its own, so is
/// what a call reads for that it has made ready.
pub fn copies_by_stage<V: Value>()
    ensures steps { (r u : TxActor V) (w v : World V) (a : ℕ) → r.stage ≢ Stage.Beginning → KeepsCopies r u → Stays w v a →
        HasCopies r w a → HasCopies u v a }
    ensures begun { (r u : TxActor V) (v : World V) (a : ℕ) → r.stage ≡ Stage.Beginning → KeepsCopies r u → HaveStripes v.blocks →
        (u.stage ≡ Stage.Open → (k : ℕ) → IsOwn v a k None × IsReadOf v a k None) → HasCopies u v a }
    ensures others { (r : TxActor V) (w v : World V) (a : ℕ) → actor_of v a ≡ actor_of w a → Stays w v a → HasCopies r w a →
        HasCopies r v a }
    ensures asked { (r u : TxActor V) (w v : World V) (a : ℕ) → ReadsStill r.copies.items u.copies.items →
        ((k : ℕ) (c : Option (PrivateCopy V)) → IsReadOf w a k c → IsReadOf v a k c) → OwnsAll r w a → OwnsCopies u v a → OwnsAll u v a }
    ensures all { (b : BlocksView) (r : TxActor V) (w : World V) (a : ℕ) → IsLaid b w → IsRunning b r → OwnsAll r w a → HasCopies r w a }
{
    copies_stay::<V>();
}

/// What an actor has of collections remains its own while a call's locations are read: where the call is accepted its copy follows, and
/// where a location is read next it still stands on that copy, or was read with another edition.
pub fn loads_stay_own<V: Value>()
    ensures { LoadsStayOwn V }
{
    copies_stay::<V>();
}

/// So it is where a call's part of a base is copied: what was there is unchanged, and what is taken is its own, or one of its locations was
/// read with another edition, so that the call is never accepted.
pub fn taken_parts_are_own<V: Value>()
    ensures { CopiesStayOwn V }
{
    copies_stay::<V>();
    copies_put_back::<V>();
}

/// A gate that was tried for a call, and found free, is held.
pub fn free_gates_are_held<V: Value>()
    ensures { HoldsGates V }
{}
