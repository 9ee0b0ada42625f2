//! The conflict abstraction: what a collection answers, reads, writes and changes, and the laws of these.
ghost use Rattle.std.specs.Prelude.{◌≡◌, ◌<◌, ◌≤◌, ℕ, [], Some, None, IsOk, IfOk, IfErr, length};
ghost use Rattle.seq_model.specs.Calls.{IsRefusal};
ghost use Rattle.conflict.specs.Rules.{Rules, FrameLaws};

use crate::change::Changes;
use crate::loc_set::LocSet;
use crate::outcome::Outcome;
use seq_model::{Memory, Op, Refusal, Value};

/// A collection whose calls read and write locations (Proust, 2017). Contracts see what it shows, and `rules` says of all that
/// it may show what calls answer, read, write and change. The frame laws hold of the rules.
pub trait Conflict<V: Value>: Drop {
    ghost Shown: { Type 0 };

    ghost Point: { Type 0 };

    ghost Answer: { Type 0 };

    ghost rules: { Rules V Shown Point Answer };

    ghost shown: { Self → Shown };

    ghost stripes: { Self → ℕ };

    /// The outcome that the call has here. A call of another kind of collection is refused as NoSuch. The collection is unchanged.
    fn outcome(&self, op: &Op<V>) -> Result<Outcome<V>, Refusal>
        ensures ok { IfOk result (λ outcome. rules.outcome op.now (shown self.now) ≡ Some outcome) }
        ensures refused { IfErr result (λ refusal. IsRefusal refusal (rules.outcome op.now (shown self.now) ≡ None)) };

    /// The locations that the outcome reads. Up to eight are never refused.
    fn reads(&self, outcome: &Outcome<V>) -> Result<LocSet, Memory>
        ensures locations { IfOk result (λ set. set ≡ rules.reads (stripes self.now) outcome.now) }
        ensures served { length (rules.reads (stripes self.now) outcome.now) ≤ 8 → IsOk result };

    /// The locations that the outcome writes, all of which it reads. They are never refused.
    fn writes(&self, outcome: &Outcome<V>) -> Result<LocSet, Memory>
        ensures locations { IfOk result (λ set. set ≡ rules.writes (stripes self.now) outcome.now) }
        ensures served { IsOk result };

    /// What the outcome changes, in order. Where that is nothing, it is never refused.
    fn changes(&self, outcome: &Outcome<V>) -> Result<Changes<V>, Memory>
        ensures changes { IfOk result (λ changes. changes.items ≡ rules.changes outcome.now) }
        ensures served { rules.changes outcome.now ≡ [] → IsOk result };

    ghost laws: { FrameLaws rules };
}
