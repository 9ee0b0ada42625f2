//! A transaction's own copy of a collection.
ghost use Rattle.std.specs.Prelude.{◌≡◌, ◌++◌, ◌<◌, ◌^◌, [], All, None, Some, IfOk, IfErr, OnOk, slice_index};
ghost use Rattle.seq_model.specs.Calls.{IsRefusal};
ghost use Rattle.replay_log.specs.Base.{IsPreparedFor, after, changes_of, editions_of, locations_of, outcome_of, shown_of, stripes_of};
ghost use Rattle.replay_log.specs.Base.{writes_of};
ghost use Rattle.replay_log.specs.Log.{AreRaised};
ghost use Rattle.shadow.specs.Shadow.{IsReadyFor};

use conflict::{Change, LocSet, Outcome};
use replay_log::{Base, Log};
use seq_model::{Memory, Op, Refusal, Value};
use std::alloc::Global;
use std::marker::Model;
use std::mem;

/// A copy of a base with the changes of the accepted calls, and their log.
#[derive(Drop)]
pub struct Shadow<V> {
    alloc: Global,
    base: Base<V>,
    log: Log<V>,
    /// What the next acceptance makes on the copy, in a list that serves each call, and what it appends to the log, in another.
    own: Vec<Change<V>>,
    logged: Vec<Change<V>>,
    /// The locations that these changes write, once they are ready.
    ready: Option<LocSet>,
    none: LocSet,
}

impl<V> Model for Shadow<V> {
    ghost use Rattle.std.specs.Prelude.{◌≡◌, [], option_map};
    ghost use Rattle.std.specs.Coded.{codes, coded_ℕ};
    ghost use Rattle.std.specs.FinMap as map;
    ghost use Rattle.std.specs.Ordering.{nat_cmp};
    ghost use Rattle.base_pq.specs.Conflicts as pq;
    ghost use Rattle.base_queue.specs.Conflicts as queue;
    ghost use Rattle.shadow.specs.Shadow.{ShadowView, IsKept};

    ghost Value = { ShadowView V };

    ghost coded = { Prim.hlevel (
      codes,
      map.code {R = nat_cmp} coded_ℕ V.code,
      map.code {R = nat_cmp} coded_ℕ coded_ℕ,
      pq.shown_code,
      queue.shown_code,
    ) };

    ghost view = { λ a. record {
      base = a.base;
      changes = a.log.changes;
      locations = a.log.locations;
      ready = option_map (λ w. record { changes = a.logged.items; locations = w }) a.ready;
    } };

    ghost invariant = { λ a. (a.none ≡ []) × IsKept a.base a.log a.own.items a.logged.items a.ready };
}

impl<V: Drop> Shadow<V> {
    /// The log of the accepted changes.
    pub fn log(self) -> Log<V>
        ensures changes { result.changes ≡ self.changes }
        ensures locations { result.locations ≡ self.locations }
    {
        let Shadow { log, .. } = self;
        log
    }

    /// Hands the log of the accepted changes out. The other memory is kept.
    pub fn take_log(&mut self) -> Log<V>
        ensures changes { result.changes ≡ self.old.changes }
        ensures locations { result.locations ≡ self.old.locations }
    {
        self.ready = None;
        mem::replace(&mut self.log, Log::new(self.alloc))
    }
}

impl<V: Value> Shadow<V> {
    /// The shadow of a copy, with no call yet.
    pub fn of_copy(alloc: Global, base: Base<V>) -> Shadow<V>
        ensures base { result.base ≡ base }
        ensures changes { result.changes ≡ [] }
        ensures locations { result.locations ≡ [] }
    {
        Shadow {
            alloc,
            base,
            log: Log::new(alloc),
            own: Vec::new(alloc),
            logged: Vec::new(alloc),
            ready: None,
            none: LocSet::empty(alloc),
        }
    }

    /// The shadow of the copy as it is, with no call yet, in the memory of a log, whatever that keeps.
    pub fn renew(&mut self, log: Log<V>)
        ensures base { self.new.base ≡ self.old.base }
        ensures changes { self.new.changes ≡ [] }
        ensures locations { self.new.locations ≡ [] }
    {
        self.ready = None;
        self.log = log;
        self.log.clear();
    }

    /// The copy becomes one of this base, in the memory that it has as far as that suffices. Where an allocation fails, what it shows is
    /// left open. The log of other calls is kept, so this is for one that is renewed then.
    pub fn copy_from(&mut self, base: &Base<V>) -> Result<(), Memory>
        ensures shown { OnOk result (shown_of self.new.base ≡ shown_of base.now) }
        ensures stripes { OnOk result (stripes_of self.new.base ≡ stripes_of base.now) }
        ensures editions { OnOk result (editions_of self.new.base ≡ editions_of base.now) }
    {
        self.ready = None;
        self.base.copy_from(base)
    }

    /// The copy with the accepted changes, whose editions are those of the copy.
    pub fn base(&self) -> &Base<V>
        ensures { result.now ≡ self.now.base }
    {
        &self.base
    }

    /// The outcome that the call has after the accepted ones. A call of another kind of collection is refused as NoSuch.
    pub fn answer(&self, op: &Op<V>) -> Result<Outcome<V>, Refusal>
        ensures ok { IfOk result (λ outcome. outcome_of op.now (shown_of self.now.base) ≡ Some outcome) }
        ensures refused { IfErr result (λ refusal. IsRefusal refusal (outcome_of op.now (shown_of self.now.base) ≡ None)) }
    {
        self.base.outcome(op)
    }

    /// Makes ready what accepting the outcome will take. What the shadow shows, its editions and its log are unchanged, also where an
    /// allocation fails.
    pub fn ready(&mut self, outcome: &Outcome<V>) -> Result<(), Memory>
        ensures ok { OnOk result (IsReadyFor outcome.now self.new) }
        ensures shown { shown_of self.new.base ≡ shown_of self.old.base }
        ensures stripes { stripes_of self.new.base ≡ stripes_of self.old.base }
        ensures editions { editions_of self.new.base ≡ editions_of self.old.base }
        ensures changes { self.new.changes ≡ self.old.changes }
        ensures locations { self.new.locations ≡ self.old.locations }
    {
        self.ready = None;
        self.base.changes_into(outcome, &mut self.own)?;
        self.base.changes_into(outcome, &mut self.logged)?;
        let written = self.base.writes(outcome)?;
        self.base.prepare(self.own.as_slice())?;
        self.log
            .reserve(self.logged.len().max(written.as_slice().len()))?;
        self.ready = Some(written);
        Ok(())
    }

    /// Accepts the outcome, which has been made ready: its changes are made on the copy and appended to the log. It takes no memory and is
    /// never refused. The editions are those of the copy.
    pub fn accept(&mut self, outcome: Outcome<V>)
        requires ready { IsReadyFor outcome self.old }
        ensures shown { shown_of self.new.base ≡ after (changes_of outcome (shown_of self.old.base)) (shown_of self.old.base) }
        ensures stripes { stripes_of self.new.base ≡ stripes_of self.old.base }
        ensures editions { editions_of self.new.base ≡ editions_of self.old.base }
        ensures changes { self.new.changes ≡ self.old.changes ++ changes_of outcome (shown_of self.old.base) }
        ensures locations { self.new.locations
            ≡ self.old.locations ++ writes_of (stripes_of self.old.base) outcome (shown_of self.old.base) }
    {
        self.accept_in_place(&outcome);
    }

    /// What `accept` does, of an outcome that is left in its place.
    pub fn accept_in_place(&mut self, outcome: &Outcome<V>)
        requires ready { IsReadyFor outcome.now self.old }
        ensures shown { shown_of self.new.base ≡ after (changes_of outcome.now (shown_of self.old.base)) (shown_of self.old.base) }
        ensures stripes { stripes_of self.new.base ≡ stripes_of self.old.base }
        ensures editions { editions_of self.new.base ≡ editions_of self.old.base }
        ensures changes { self.new.changes ≡ self.old.changes ++ changes_of outcome.now (shown_of self.old.base) }
        ensures locations { self.new.locations
            ≡ self.old.locations ++ writes_of (stripes_of self.old.base) outcome.now (shown_of self.old.base) }
    {
        if let Some(written) = self.ready.take() {
            self.base.replay_from(&mut self.own, &self.none);
            self.log.append_from(&mut self.logged, &written);
        }
    }

    /// The accepted changes, in order: what a base has to be prepared for.
    pub fn changes(&self) -> &[Change<V>]
        ensures { result.now ≡ self.now.changes }
    {
        self.log.changes()
    }

    /// The accepted changes are made in a base that was prepared for them, and the editions of the locations that they write are raised by
    /// one. It takes no memory and is never refused. The log is left open, in its memory.
    pub fn fold(&mut self, base: &mut Base<V>)
        requires prepared { IsPreparedFor self.old.changes base.old }
        requires within { All (λ location. location < locations_of (stripes_of base.old) (shown_of base.old)) self.old.locations }
        requires below { All (λ location. slice_index (editions_of base.old) location < 2 ^ 63) self.old.locations }
        ensures shown { shown_of base.new ≡ after self.old.changes (shown_of base.old) }
        ensures stripes { stripes_of base.new ≡ stripes_of base.old }
        ensures editions { AreRaised self.old.locations (editions_of base.old) (editions_of base.new) }
    {
        self.ready = None;
        self.log.fold(base);
    }
}
