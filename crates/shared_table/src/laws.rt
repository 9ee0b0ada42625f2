//! The laws of the table's rule. Each step has one event appended to those that reach the table's world, after what its seat has asked; a
//! split, a join and a load of the clock leave the world as it is.
ghost use Rattle.shared_table.specs.declared.view.TheConstants.{SHARES};
ghost use Rattle.std.specs.Prelude.{◌≡◌, ◌+◌, ◌<◌, ◌≤◌, ◌==◌, ◌∷◌, ℕ, List, Option, [], Some, None, false, length};
ghost use mathlib.Core.Option.{some, Option as Home};
ghost use lib.ListN.{get_elem?};
ghost use prog.Atomic.{either};
ghost use Rattle.atomic_table.specs.Table.{Me, State, Allows, Splits, Joins};
ghost use Rattle.tx_machine.specs.Actor.{clock_limit};
ghost use Rattle.tx_machine.specs.Cells.{Cell, ClockCell, cell, becomes};
ghost use Rattle.seq_model.specs.declared.event.Event.{Event};
ghost use Rattle.seq_model.specs.declared.event.Event.TheVariants.{Step};
ghost use Rattle.seq_model.specs.declared.held.Held.{Held};
ghost use Rattle.seq_model.specs.declared.record.Record.{Record};
ghost use Rattle.tx_machine.specs.Boosted.{is_actor};
ghost use Rattle.replay_log.specs.declared.base.Base.{Base};
ghost use Rattle.replay_log.specs.Contents.{Block, HaveStripes, block_of, end_of};
ghost use Rattle.replay_log.specs.Collections.{Suit};
ghost use Rattle.replay_log.specs.Seats.{World};
ghost use Rattle.replay_log.specs.Worlds.{happens, opened};
ghost use Rattle.replay_log.specs.WorldTraces.{is_half_done};
ghost use Rattle.actor_laws.specs.Bases.{IsBaseOf, ShowsBase, IsFolded, log_changes, log_locations};
ghost use Rattle.actor_laws.specs.Gates.{Tries, Puts, GoesHome};
ghost use Rattle.actor_laws.specs.Own.{Alike, SameAfter};
ghost use Rattle.actor_laws.specs.StepTargets.{Word, Gate, deed_of};
ghost use Rattle.actor_laws.specs.Steps.{ready_at};
ghost use Rattle.shared_table.specs.Layout.{address, gate_address, IsInside};
ghost use Rattle.shared_table.specs.Turns.{spot, found_at, ends, asked_all, lone, stage_of};
ghost use Rattle.shared_table.specs.Shown.{
  highest_clock,
  total,
  Rule,
  Shows,
  Steps,
  looking,
  Told,
  Took,
  IsBaseAt,
  SeatKnowledge,
  Slot,
  IsOpening,
  Closes,
  left_of,
  right_of,
  both_of,
  spent_of,
  Table,
  first as first_view,
};

use replay_log::laws::{bounds, serial_worlds};
use seq_model::Value;

/// A step on a word leaves an actor what it leaves it alone, with the number that it found, and answers the same. The records grow by what
/// the step commits, by any weight.
pub fn turns<V>()
    ensures word { (a : ℕ) (v w : World V) (c : Cell) (b : Option (Base V)) → Alike a v w → spot a v ≡ Word c →
        SameAfter a (happens v (Step a)) (happens (found_at a w (Word c) (cell v.boosted.words c) b) (Step a)) }
    ensures records { (h : (a : ℕ) × Record V → ℕ) (a : ℕ) (v : World V) →
        total h (happens v (Step a)).0.records ≡ total h v.records + total h (ends a v) }
{}

/// A step on a word of the table, whatever the table is by then: the word becomes what the machine says, the seat takes note of what it
/// found, and what it has asked and the step follow the events. On the clock it finds room, and the seat knows what it left there.
pub fn word_steps<V>()
    ensures any { (o : World V) (slots id : ℕ) (m : Me (Slot V) (SeatKnowledge V)) (asks : List (Event V)) (c : Cell) (f : ℕ → ℕ) →
        let alone = asked_all id (lone id o m.0.turns) asks in
        0 < m.0.shares → spot id alone ≡ Word c → IsInside (end_of o.words o.blocks) c →
        ((k : ℕ) → becomes (deed_of (ready_at id alone (stage_of alone id)) id) k ≡ f k) →
        Steps o slots id m asks (address (end_of o.words o.blocks) c) f
        (λ found t. Told o id asks m.0.clock m found None t.0 × (t.1 ≡ m.1)) }
    ensures clock { (o : World V) (slots id : ℕ) (m : Me (Slot V) (SeatKnowledge V)) (asks : List (Event V)) (f left : ℕ → ℕ) →
        let alone = asked_all id (lone id o m.0.turns) asks in
        0 < m.0.shares → spot id alone ≡ Word ClockCell →
        ((k : ℕ) → k ≤ highest_clock → becomes (deed_of (ready_at id alone (stage_of alone id)) id) k ≡ f k) →
        ((k : ℕ) → k ≤ highest_clock → left k ≡ f k) →
        Steps o slots id m asks 0 f
        (λ found t. Told o id asks (left found) m found None t.0 × (t.1 ≡ m.1) × (m.0.clock ≤ found) × (found ≤ highest_clock)) }
{}

/// A step on a gate of a table that was opened, likewise. A gate that is tried and found free goes to the seat with its base. One that is
/// put back puts its base back: as in the actor's lone world then, or with the log of the transaction folded into what the lone world
/// had. Which step is next in the lone world is all that a seat has to know; the machine's guards hold.
pub fn gate_steps<V>()
    ensures take { (blocks : List Block) (clock : ℕ) (values : List ℕ) (held : List (Held V)) → HaveStripes blocks →
        let o = opened blocks clock values held in
        (slots id : ℕ) (m : Me (Slot V) (SeatKnowledge V)) (asks : List (Event V)) (k : ℕ) → 0 < m.0.shares → k < length blocks →
        Tries (asked_all id (lone id o m.0.turns) asks) id k →
        Steps o slots id m asks (gate_address (end_of o.words blocks) k) (λ n. either (n == 0) 1 n) (Took o id asks m k) }
    ensures put { (blocks : List Block) (clock : ℕ) (values : List ℕ) (held : List (Held V)) → HaveStripes blocks →
        let o = opened blocks clock values held in
        (slots id : ℕ) (m : Me (Slot V) (SeatKnowledge V)) (asks : List (Event V)) (k : ℕ) (b : Base V) (others : List ((i : ℕ) × Slot V)) →
        let alone = asked_all id (lone id o m.0.turns) asks in
        0 < m.0.shares → k < length blocks → m.1 ≡ (k, Some b) ∷ others → Puts alone id k → IsBaseAt blocks k b →
        ShowsBase o.words blocks (happens (found_at id alone (Gate k) 1 None) (Step id)).0 k b →
        Steps o slots id m asks (gate_address (end_of o.words blocks) k) (λ _. 0)
        (λ _ t. Told o id asks m.0.clock m 1 None t.0 × (t.1 ≡ others)) }
    ensures home { (blocks : List Block) (clock : ℕ) (values : List ℕ) (held : List (Held V)) → HaveStripes blocks →
        let o = opened blocks clock values held in
        (slots id : ℕ) (m : Me (Slot V) (SeatKnowledge V)) (asks : List (Event V)) (k : ℕ) (b : Block) (before now : Base V)
        (others : List ((i : ℕ) × Slot V)) →
        let alone = asked_all id (lone id o m.0.turns) asks in
        let outcomes = (alone.boosted.shadows id).outcomes in
        0 < m.0.shares → k < length blocks → m.1 ≡ (k, Some now) ∷ others → GoesHome alone id k → block_of blocks k ≡ Some b →
        IsBaseOf b before → ShowsBase o.words blocks alone k before →
        IsFolded (log_changes k b outcomes) (log_locations k b outcomes) before now →
        Steps o slots id m asks (gate_address (end_of o.words blocks) k) (λ _. 0)
        (λ _ t. Told o id asks m.0.clock m 1 None t.0 × (t.1 ≡ others)) }
{}

/// A table that shows the opening meets the rule. A seat that is cut in two, two that become one, and one that loads the clock for no
/// transaction leave the world that the table shows.
pub fn shares<V>()
    ensures opened { (o : World V) (words : List ℕ) (homes : List (Home (Slot V))) → IsOpening o → o.boosted.words.clock ≤ clock_limit →
        o.records ≡ [] → Table o.words o.blocks o words homes → Rule o (record { words = words; homes = homes; views = first_view ∷ [] }) }
    ensures split { (o w : World V) (id k : ℕ) (v : SeatKnowledge V) → IsOpening o → 0 < k → k < v.shares →
        Splits (Shows o w) id v (left_of k v) (right_of k v) }
    ensures look { (o w : World V) (slots id : ℕ) (m : Me (Slot V) (SeatKnowledge V)) →
        Allows (Shows o w) slots id m 0 (λ k. k)
        (λ found t. (t ≡ (looking m.0 found, m.1)) × (m.0.clock ≤ found) × (found ≤ highest_clock)) }
    ensures join { (o w : World V) (id other : ℕ) (v u : SeatKnowledge V) → 0 < v.shares → 0 < u.shares →
        is_half_done (stage_of (lone other o u.turns) other) ≡ false →
        ((k : ℕ) → is_actor other ((lone other o u.turns).boosted.gates k) ≡ false) →
        Joins (Shows o w) id v other u (both_of v other u) (spent_of u) }
{}

/// What a table leaves whose seat has all shares: its receipts, in commit order, are a run of the sequential model from the opening,
/// words and bases are what that run leaves.
pub fn closed_tables<V: Value>()
    ensures { (blocks : List Block) (clock : ℕ) (values : List ℕ) (held : List (Held V)) → HaveStripes blocks → Suit blocks held →
        let o = opened blocks clock values held in
        (id : ℕ) (v : SeatKnowledge V) (s : State (Slot V) (SeatKnowledge V)) → Rule o s → get_elem? s.views id ≡ some v
        → v.shares ≡ SHARES →
        is_half_done (stage_of (lone id o v.turns) id) ≡ false → ((k : ℕ) → is_actor id ((lone id o v.turns).boosted.gates k) ≡ false) →
        Closes (length values) blocks (record { words = values; held = held }) v s.words s.homes }
{
    serial_worlds::<V>();
    bounds::<V>();
}
