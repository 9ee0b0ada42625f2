//! The laws of an actor whose calls are on words, on keys of maps and at the ends of queues. The functions compute nothing: their
//! contracts are the laws.
ghost use Rattle.std.specs.Prelude.{◌≡◌, ◌≤◌, ℕ, List, length, false};
ghost use Rattle.seq_model.specs.declared.event.Event.{Event};
ghost use Rattle.seq_model.specs.declared.held.Held.{Held};
ghost use Rattle.replay_log.specs.Contents.{Block, HaveStripes};
ghost use Rattle.replay_log.specs.WorldProgress.{whose};
ghost use Rattle.replay_log.specs.Worlds.{Open, actor_of, happens, opened, run};
ghost use Rattle.actor_laws.specs.Alone.{IsNeverRefused, weights};
ghost use Rattle.actor_laws.specs.Beside.{AreFitting, BeginsNoReader, IsFitting, RefusesAsMistaken};

use seq_model::Value;

/// Where one actor alone has done anything since a world opened, by calls on words, on keys of maps and at the ends of queues, and has
/// begun no declared reader, aborted nothing and run out of memory nowhere, its clock is not above the opening one and its commits
/// together, and no set is larger than the weight of its calls. So its begin is refused only at the limit of the clock, such a call only
/// where there is nothing that it asks of, or after as many calls or locations as there may be, and its commit never.
pub fn alone<V: Value>()
    ensures { IsNeverRefused V }
{}

/// Beside others too, whatever they do, an actor whose calls are on words, on keys of maps and at the ends of queues has no more locations
/// in a set than its calls weigh together, also where it begins declared readers, aborts transactions or is out of memory. So where each
/// call that it asks for is of what is there, after no more calls and on no more locations than there may be, none of its requests is ever
/// answered NoSuch or TooLong. One that begins no declared reader is none.
pub fn beside_others<V: Value>()
    ensures sets { (blocks : List Block) (clock : ℕ) (values : List ℕ) (held : List (Held V)) (events : List (Event V)) (a : ℕ) →
        HaveStripes blocks → AreFitting (opened blocks clock values held) a events →
        let w = run (opened blocks clock values held) events in
        (w.seats a).stage ≡ Open →
        (length (actor_of w a).reads ≤ weights (w.seats a).calls) × (length (actor_of w a).writes ≤ weights (w.seats a).calls) }
    ensures never { (blocks : List Block) (clock : ℕ) (values : List ℕ) (held : List (Held V)) (events : List (Event V)) (a : ℕ) →
        HaveStripes blocks → AreFitting (opened blocks clock values held) a events →
        let w = run (opened blocks clock values held) events in
        (e : Event V) → whose e ≡ a → IsFitting w a e → RefusesAsMistaken (happens w e).1 → ⊥ }
    ensures undeclared { (blocks : List Block) (clock : ℕ) (values : List ℕ) (held : List (Held V)) (events : List (Event V)) (a : ℕ) →
        BeginsNoReader a events → (actor_of (run (opened blocks clock values held) events) a).declared ≡ false }
{}
