//! The laws of the definitions that the contracts cite.
ghost use Rattle.std.specs.Prelude.{◌<◌, ℕ, List};
ghost use Rattle.replay_log.specs.Contents.{Block, HaveStripes};
ghost use Rattle.actor_parts.specs.Accepts.{Accepts};
ghost use Rattle.seq_model.specs.declared.event.Event.{Event};
ghost use Rattle.seq_model.specs.declared.held.Held.{Held};
ghost use Rattle.replay_log.specs.Worlds.{opened, run};
ghost use Rattle.actor_parts.specs.Dispatch.{AreSteps, MayGoOn};
ghost use Rattle.actor_parts.specs.Guarded.{committed_at};
ghost use Rattle.actor_parts.specs.Judged.{IsJudged};
ghost use Rattle.actor_parts.specs.Shows.{GivesUp, AsksStores, CopiesForCall, ReadsNext};

use seq_model::Value;

/// What judging by the read set alone results in is what a world makes of the call, from the load that judges an edition on.
pub fn judges_as_worlds<V>()
    ensures { IsJudged V }
{}

/// A transaction that is aborted holds no gate: the word actor cancels and leaves, in every world that shows it.
pub fn gives_up_as_worlds<V>()
    ensures { GivesUp V }
{}

/// Where all is locked, checked and held, the request of the stores makes of the word actor what it makes of it in every world that
/// shows it, and the step is then the word actor's next.
pub fn asks_stores_as_worlds<V>()
    ensures { AsksStores V }
{}

/// At the store of a call's gate the locations are judged with the editions of the base, in every world that shows the actor.
pub fn judges_at_gate_as_worlds<V>()
    ensures { CopiesForCall V }
{}

/// A location that no set has is read next, in every world that shows the actor.
pub fn reads_next_as_worlds<V>()
    ensures { ReadsNext V }
{}

/// A step of the definitions is the atomic action that is next, on the word or the gate that [`crate::Next`] names, and then what the
/// methods of the stages make of it; the load of a call's location apart.
pub fn steps_as_worlds<V>()
    ensures { AreSteps V }
{}

/// What the steps of a commit ask of their world before the locks are given back holds wherever events have led: their actor holds no
/// gate of a written location any more.
pub fn goes_on_as_worlds<V: Value>()
    ensures { (blocks : List Block) (clock : ℕ) (values : List ℕ) (held : List (Held V)) (events : List (Event V)) (a : ℕ) →
        HaveStripes blocks →
        let w = run (opened blocks clock values held) events in
        MayGoOn a (committed_at w a (w.seats a).stage) (w.seats a).stage }
{}

/// Where a call may be accepted, its acceptance asks the word actor for the writes, and appends the outcome to those of its shadow.
pub fn accepts_as_worlds<V>()
    ensures { Accepts V }
{}
