//! What a transaction keeps of the single keys that it touched, and of the number of all keys.
ghost use Rattle.std.specs.Prelude.{◌≡◌, ◌<◌, ◌≤◌, ◌++◌, ◌^◌, ◌+◌, ◌-◌, ℕ, [], ◌∷◌, Some, None, length, option_to_list, unwrap_or};
ghost use Rattle.std.specs.Prelude.{All, IfOk, IfErr, IfSome, IsSome, OnOk, OnErr, slice_index};
ghost use Rattle.std.specs.FinMap as map;
ghost use Rattle.std.specs.List.{sum};
ghost use Rattle.seq_model.specs.Calls.{IsRefusal, value_reply};
ghost use Rattle.seq_model.specs.Counts.{copies};
ghost use Rattle.seq_model.specs.declared.call.Op.TheVariants.{Remove};
ghost use Rattle.seq_model.specs.declared.call.Reply.{Reply};
ghost use Rattle.conflict.specs.Footprints.{all_below, key_location};
ghost use Rattle.conflict.specs.Refusals.{IsTooLong, IsStripeCount};
ghost use Rattle.base_bag.specs.Conflicts as bag;
ghost use Rattle.replay_log.specs.Base.{IsPreparedFor, after, changes_of, editions_of, empty_of, locations_of, reads_of, shown_of};
ghost use Rattle.replay_log.specs.Base.{stripes_of, writes_of};
ghost use Rattle.replay_log.specs.Log.{AreRaised};
ghost use Rattle.replay_log.specs.declared.touch.TouchedKey.TheVariants.{Entry};
ghost use Rattle.shadow.specs.KeyLocation.{written_there};
ghost use Rattle.shadow.specs.Memo.{HasKeys, HasPlace, IsReadyFor, answer_with, copies_after, copies_kept, copies_without};
ghost use Rattle.shadow.specs.Memo.{entries_after, entries_kept};
ghost use Rattle.shadow.specs.Memo.{known_entry, put_as, put_of};
ghost use Rattle.shadow.specs.Memo.{entries_without, grown_after, grown_kept, holds, kind_room, map_answer, shape, shrunk_after};
ghost use Rattle.shadow.specs.Memo.{shrunk_kept, total_without, with_count, with_entry, with_key, with_number, with_total, IsTold};

use crate::changes::{copies_location, count_put, entry_location, entry_replies, put_change};
use conflict::{Change, FewKeys, LocSet, Note, Outcome, is_stripe_count};
use replay_log::{Base, Log, Touch, TouchedKey};
use seq_model::{COPY_LIMIT, Items, Kind, Memory, Op, Refusal, Reply, Value};
use std::alloc::Global;
use std::marker::Model;
use std::mem;

/// More keys than a memory can hold.
const KEY_LIMIT: u64 = 1 << 63;

/// The kinds of collection of which single keys are kept.
#[derive(Clone, Copy)]
pub enum MemoKind {
    Map,
    Bag,
}

/// The location of a key, and whether a call on the key writes it.
#[derive(Clone, Copy)]
pub struct KeyLocation {
    pub location: u32,
    pub written: bool,
}

/// The keys that were touched, with what they have after the changes of the accepted calls, and the log of these. Of a map also the
/// number of its keys, where that was touched, and by how many the accepted calls made it grow and shrink.
pub struct Memo<V> {
    kind: MemoKind,
    stripes: u32,
    alloc: Global,
    entries: FewKeys<Option<V>>,
    copies: FewKeys<u64>,
    total: Option<u64>,
    grown: u64,
    shrunk: u64,
    log: Log<V>,
    // Whether the log was handed out, and none came in its place.
    is_lent: bool,
    // Whether the next acceptance is ready: the change that it appends, and the location that it writes. Else both are unused.
    is_ready: bool,
    change: Option<Change<V>>,
    written: Option<u32>,
}

impl<V: Drop> Drop for Memo<V> {
    fn drop(self) {
        let Memo {
            kind: _,
            stripes: _,
            alloc: _,
            entries: _,
            copies: _,
            total: _,
            grown: _,
            shrunk: _,
            log: _,
            is_lent: _,
            is_ready: _,
            change: _,
            written: _,
        } = self;
    }
}

impl<V> Model for Memo<V> {
    ghost use Rattle.std.specs.Prelude.{◌≡◌, ◌≤◌, ◌^◌, [], Some, None, if◌then◌else◌, option_to_list};
    ghost use Rattle.std.specs.Coded.{codes, coded_ℕ, coded_option};
    ghost use Rattle.std.specs.FinMap as map;
    ghost use Rattle.std.specs.Ordering.{nat_cmp};
    ghost use Rattle.base_pq.specs.Conflicts as pq;
    ghost use Rattle.base_queue.specs.Conflicts as queue;
    ghost use Rattle.conflict.specs.Refusals.{IsStripeCount};
    ghost use Rattle.shadow.specs.Memo.{MemoView, IsKept, IsTold, blank_of};

    ghost Value = { MemoView V };

    ghost coded = { Prim.hlevel (
      codes,
      map.code {R = nat_cmp} coded_ℕ V.code,
      map.code {R = nat_cmp} coded_ℕ (coded_option V.code),
      map.code {R = nat_cmp} coded_ℕ coded_ℕ,
      pq.shown_code,
      queue.shown_code,
    ) };

    ghost view = { λ a. record {
      blank = blank_of a.kind a.stripes;
      entries = a.entries.contents;
      copies = a.copies.contents;
      total = a.total;
      grown = a.grown;
      shrunk = a.shrunk;
      changes = a.log.changes;
      locations = a.log.locations;
      ready = if a.is_ready then Some (record { changes = option_to_list a.change; locations = option_to_list a.written }) else None;
    } };

    ghost invariant = { λ a.
        IsStripeCount a.stripes × IsKept a.kind a.entries.room a.copies.room a.grown a.shrunk a.log a.is_ready a.change a.written
        × IsTold a.total × (a.grown ≤ 2 ^ 63) };
}

impl<V: Drop> Memo<V> {
    /// Keeps no key any more, and no accepted call. The memory is kept.
    pub fn clear(&mut self)
        ensures blank { self.new.blank ≡ self.old.blank }
        ensures entries { self.new.entries ≡ map.empty }
        ensures copies { self.new.copies ≡ map.empty }
        ensures total { self.new.total ≡ None }
        ensures grown { self.new.grown ≡ 0 }
        ensures shrunk { self.new.shrunk ≡ 0 }
        ensures changes { self.new.changes ≡ [] }
        ensures locations { self.new.locations ≡ [] }
    {
        self.is_ready = false;
        self.entries.clear();
        self.copies.clear();
        self.total = None;
        self.grown = 0;
        self.shrunk = 0;
        self.log.clear();
    }

    /// Whether its log was handed out, so that it has no memory for the next one.
    pub fn lacks_log(&self) -> bool {
        self.is_lent
    }

    /// Has from now on the memory of this log, whatever that keeps: it is for a memo that is renewed then.
    pub fn take_memory(&mut self, log: Log<V>) {
        self.is_ready = false;
        self.is_lent = false;
        self.log = log;
    }

    /// Hands the log of the accepted changes out, and keeps no key any more. The other memory is kept.
    pub fn take_log(&mut self) -> Log<V>
        ensures changes { result.changes ≡ self.old.changes }
        ensures locations { result.locations ≡ self.old.locations }
    {
        self.is_ready = false;
        self.is_lent = true;
        let log = mem::replace(&mut self.log, Log::new(self.alloc));
        self.clear();
        log
    }
}

impl<V: Value> Memo<V> {
    /// A memo of a map or a multiset in so many stripes, with no key yet. A number of stripes outside 1 to `STRIPE_LIMIT` is refused
    /// as TooLong. There is none of a priority queue or a queue, as each of their calls touches the whole.
    pub fn new(alloc: Global, stripes: u32, kind: Kind) -> Result<Memo<V>, Refusal>
        requires { HasKeys kind }
        ensures blank { IfOk result (λ memo. shown_of memo.blank ≡ empty_of kind) }
        ensures stripes { IfOk result (λ memo. stripes_of memo.blank ≡ stripes) }
        ensures entries { IfOk result (λ memo. memo.entries ≡ map.empty) }
        ensures copies { IfOk result (λ memo. memo.copies ≡ map.empty) }
        ensures total { IfOk result (λ memo. memo.total ≡ None) }
        ensures grown { IfOk result (λ memo. memo.grown ≡ 0) }
        ensures shrunk { IfOk result (λ memo. memo.shrunk ≡ 0) }
        ensures changes { IfOk result (λ memo. memo.changes ≡ []) }
        ensures locations { IfOk result (λ memo. memo.locations ≡ []) }
        ensures refused { IfErr result (λ refusal. IsTooLong refusal (IsStripeCount stripes)) }
    {
        match kind {
            Kind::Map => Memo::empty(alloc, stripes, MemoKind::Map),
            Kind::Bag => Memo::empty(alloc, stripes, MemoKind::Bag),
            Kind::Pq | Kind::Queue => unreachable!(),
        }
    }

    /// What `new` makes, by a kind that has keys.
    pub fn empty(alloc: Global, stripes: u32, kind: MemoKind) -> Result<Memo<V>, Refusal>
        ensures blank { IfOk result (λ memo. shown_of memo.blank ≡ shape kind) }
        ensures stripes { IfOk result (λ memo. stripes_of memo.blank ≡ stripes) }
        ensures entries { IfOk result (λ memo. memo.entries ≡ map.empty) }
        ensures copies { IfOk result (λ memo. memo.copies ≡ map.empty) }
        ensures total { IfOk result (λ memo. memo.total ≡ None) }
        ensures grown { IfOk result (λ memo. memo.grown ≡ 0) }
        ensures shrunk { IfOk result (λ memo. memo.shrunk ≡ 0) }
        ensures changes { IfOk result (λ memo. memo.changes ≡ []) }
        ensures locations { IfOk result (λ memo. memo.locations ≡ []) }
        ensures refused { IfErr result (λ refusal. IsTooLong refusal (IsStripeCount stripes)) }
    {
        if !is_stripe_count(stripes) {
            return Err(Refusal::TooLong);
        }
        Ok(Memo {
            kind,
            stripes,
            alloc,
            entries: FewKeys::new(alloc),
            copies: FewKeys::new(alloc),
            total: None,
            grown: 0,
            shrunk: 0,
            log: Log::new(alloc),
            is_lent: false,
            is_ready: false,
            change: None,
            written: None,
        })
    }

    /// Is from now on what `empty` makes, in its own memory, whatever it keeps.
    pub fn renew(&mut self, stripes: u32, kind: MemoKind) -> Result<(), Refusal>
        ensures blank { OnOk result (shown_of self.new.blank ≡ shape kind) }
        ensures stripes { OnOk result (stripes_of self.new.blank ≡ stripes) }
        ensures entries { OnOk result (self.new.entries ≡ map.empty) }
        ensures copies { OnOk result (self.new.copies ≡ map.empty) }
        ensures total { OnOk result (self.new.total ≡ None) }
        ensures grown { OnOk result (self.new.grown ≡ 0) }
        ensures shrunk { OnOk result (self.new.shrunk ≡ 0) }
        ensures changes { OnOk result (self.new.changes ≡ []) }
        ensures locations { OnOk result (self.new.locations ≡ []) }
        ensures refused { IfErr result (λ refusal. IsTooLong refusal (IsStripeCount stripes)) }
    {
        if !is_stripe_count(stripes) {
            return Err(Refusal::TooLong);
        }
        self.is_ready = false;
        self.kind = kind;
        self.stripes = stripes;
        self.clear();
        Ok(())
    }

    /// The location that a map has for the key.
    #[inline(always)]
    pub fn entry_location(&self, key: u64) -> u32
        ensures { result ≡ key_location (stripes_of self.now.blank) key }
    {
        match self.kind {
            MemoKind::Map => base_map::location_in(self.stripes, key),
            MemoKind::Bag => base_map::location_in(self.stripes, key),
        }
    }

    /// The key gets the value, and the log of the accepted changes the put, at this location. Answers what a put on the key replies, twice:
    /// what the key had. `Memory`, where an allocation fails, leaves what is kept. What was made ready is so no more.
    #[inline(always)]
    pub fn put_entry(
        &mut self,
        key: u64,
        value: &V,
        location: u32,
    ) -> Result<(Reply<V>, Reply<V>), Memory>
        ensures replies { IfOk result (λ replies. let had : Reply V = value_reply (known_entry self.old.entries key) in
            (replies.0 ≡ had) × (replies.1 ≡ had)) }
        ensures entries { OnOk result (self.new.entries ≡ map.insert self.old.entries key (Some value.now)) }
        ensures changes { OnOk result (self.new.changes ≡ self.old.changes ++ put_as key value.now ∷ []) }
        ensures locations { OnOk result (self.new.locations ≡ self.old.locations ++ location ∷ []) }
        ensures grown { OnOk result (self.new.grown
            ≡ grown_after (put_of key value.now) (value_reply (known_entry self.old.entries key)) self.old.grown) }
        ensures copies { self.new.copies ≡ self.old.copies }
        ensures total { self.new.total ≡ self.old.total }
        ensures shrunk { self.new.shrunk ≡ self.old.shrunk }
        ensures blank { self.new.blank ≡ self.old.blank }
        ensures err { OnErr result ((self.new.entries ≡ self.old.entries) × (self.new.grown ≡ self.old.grown)
            × (self.new.changes ≡ self.old.changes) × (self.new.locations ≡ self.old.locations)) }
    {
        self.is_ready = false;
        if self.grown >= KEY_LIMIT {
            return Err(Memory);
        }
        let replies = entry_replies(&self.entries, key)?;
        let held = value.try_copy()?;
        let change = Change::Put(key, value.try_copy()?);
        self.log.reserve(1)?;
        self.entries.reserve(1)?;
        self.log
            .append_one(Some(change), &LocSet::single(self.alloc, location));
        count_put(&mut self.grown, &replies.0);
        self.entries.insert_reserved(key, Some(held));
        Ok(replies)
    }

    /// Whether the key of the call is held, or the number of all. It takes no memory.
    pub fn holds(&self, op: &Op<V>) -> bool
        ensures { result ≡ holds self.now op.now }
    {
        match (self.kind, op) {
            (MemoKind::Map, Op::Get(key) | Op::Put(key, _) | Op::Remove(key)) => {
                self.entries.get(*key).is_some()
            }
            (MemoKind::Bag, Op::Count(element) | Op::Add(element) | Op::Take(element)) => {
                self.copies.get(*element).is_some()
            }
            (MemoKind::Map, Op::Len) => self.total.is_some(),
            _ => false,
        }
    }

    /// Holds from now on the key that was touched, or the number of all; what is held is unchanged, and what was made ready is so no more.
    /// `Memory`, where an allocation fails or the map has 2^63 keys or more, leaves what is held.
    pub fn add(&mut self, touch: Touch<V>) -> Result<(), Memory>
        ensures blank { self.new.blank ≡ self.old.blank }
        ensures entries { OnOk result (self.new.entries ≡ with_entry touch.held self.old.entries) }
        ensures copies { OnOk result (self.new.copies ≡ with_count touch.held self.old.copies) }
        ensures changes { self.new.changes ≡ self.old.changes }
        ensures locations { self.new.locations ≡ self.old.locations }
        ensures total { OnOk result (self.new.total ≡ with_total touch.held self.old.total) }
        ensures grown { self.new.grown ≡ self.old.grown }
        ensures shrunk { self.new.shrunk ≡ self.old.shrunk }
        ensures err { OnErr result
            ((self.new.entries ≡ self.old.entries) × (self.new.copies ≡ self.old.copies) × (self.new.total ≡ self.old.total)) }
    {
        self.add_held(touch.held)
    }

    /// What `add` does, of what was touched without its editions.
    pub fn add_held(&mut self, held: TouchedKey<V>) -> Result<(), Memory>
        ensures blank { self.new.blank ≡ self.old.blank }
        ensures entries { OnOk result (self.new.entries ≡ with_entry held self.old.entries) }
        ensures copies { OnOk result (self.new.copies ≡ with_count held self.old.copies) }
        ensures changes { self.new.changes ≡ self.old.changes }
        ensures locations { self.new.locations ≡ self.old.locations }
        ensures total { OnOk result (self.new.total ≡ with_total held self.old.total) }
        ensures grown { self.new.grown ≡ self.old.grown }
        ensures shrunk { self.new.shrunk ≡ self.old.shrunk }
        ensures err { OnErr result
            ((self.new.entries ≡ self.old.entries) × (self.new.copies ≡ self.old.copies) × (self.new.total ≡ self.old.total)) }
    {
        self.is_ready = false;
        match held {
            TouchedKey::Entry(key, value) => hold(&mut self.entries, key, value),
            TouchedKey::Copies(element, copies) => hold(&mut self.copies, element, copies),
            TouchedKey::Counts(counts) => hold_sum(&mut self.total, &counts),
            TouchedKey::Total(number) => hold_total(&mut self.total, number),
        }
    }

    /// What `add` does, of a map's key with its value, if it has one.
    #[inline(always)]
    pub fn add_entry(&mut self, key: u64, value: Option<V>) -> Result<(), Memory>
        ensures blank { self.new.blank ≡ self.old.blank }
        ensures entries { OnOk result (self.new.entries ≡ with_entry (Entry key value) self.old.entries) }
        ensures copies { self.new.copies ≡ self.old.copies }
        ensures changes { self.new.changes ≡ self.old.changes }
        ensures locations { self.new.locations ≡ self.old.locations }
        ensures total { self.new.total ≡ self.old.total }
        ensures grown { self.new.grown ≡ self.old.grown }
        ensures shrunk { self.new.shrunk ≡ self.old.shrunk }
        ensures err { OnErr result (self.new.entries ≡ self.old.entries) }
    {
        self.is_ready = false;
        hold(&mut self.entries, key, value)
    }

    /// Holds no more the key of the call, or the number of all: takes back what was added for a call that is not made.
    /// It takes no memory.
    pub fn forget(&mut self, op: &Op<V>)
        ensures blank { self.new.blank ≡ self.old.blank }
        ensures entries { self.new.entries ≡ entries_without op.now self.old.entries }
        ensures copies { self.new.copies ≡ copies_without op.now self.old.copies }
        ensures total { self.new.total ≡ total_without op.now self.old.total }
        ensures grown { self.new.grown ≡ self.old.grown }
        ensures shrunk { self.new.shrunk ≡ self.old.shrunk }
        ensures changes { self.new.changes ≡ self.old.changes }
        ensures locations { self.new.locations ≡ self.old.locations }
    {
        self.is_ready = false;
        match op {
            Op::Get(key) | Op::Put(key, _) | Op::Remove(key) => self.entries.remove(*key),
            Op::Count(element) | Op::Add(element) | Op::Take(element) => {
                self.copies.remove(*element)
            }
            Op::Len => self.total = None,
            _ => {}
        }
    }

    /// What the call answers by what is kept of its key, or of the number of all. What isn't held is answered as if it were absent: ask
    /// `holds` first. A call of another kind than the memo's is refused as NoSuch.
    pub fn answer(&self, op: &Op<V>) -> Result<Outcome<V>, Refusal>
        ensures ok { IfOk result (λ outcome.
            answer_with (shown_of self.now.blank) self.now.entries self.now.copies self.now.total self.now.grown self.now.shrunk op.now
            ≡ Some outcome) }
        ensures refused { IfErr result (λ refusal. IsRefusal refusal
            (answer_with (shown_of self.now.blank) self.now.entries self.now.copies self.now.total self.now.grown self.now.shrunk op.now
            ≡ None)) }
    {
        let mut outcome = None;
        self.answer_into(op, &mut outcome)?;
        Ok(outcome.unwrap())
    }

    /// What `answer` does, into this place, whatever it holds.
    pub fn answer_into(&self, op: &Op<V>, outcome: &mut Option<Outcome<V>>) -> Result<(), Refusal>
        ensures ok { OnOk result
            (answer_with (shown_of self.now.blank) self.now.entries self.now.copies self.now.total self.now.grown self.now.shrunk op.now
            ≡ outcome.new) }
        ensures some { OnOk result (IsSome outcome.new) }
        ensures refused { IfErr result (λ refusal. IsRefusal refusal
            (answer_with (shown_of self.now.blank) self.now.entries self.now.copies self.now.total self.now.grown self.now.shrunk op.now
            ≡ None)) }
    {
        match (self.kind, op) {
            (MemoKind::Map, Op::Len) => {
                *outcome = Some(Outcome {
                    op: Op::Len,
                    reply: Reply::Number(self.keys()),
                    note: Note::Plain,
                });
                Ok(())
            }
            (MemoKind::Map, _) => entry_outcome(&self.entries, op, outcome),
            (MemoKind::Bag, _) => count_outcome(&self.copies, op, outcome),
        }
    }

    // How many keys there are after the accepted calls, where that is held.
    fn keys(&self) -> u64
        ensures { result ≡ unwrap_or self.now.total 0 + self.now.grown - self.now.shrunk }
    {
        (self.total.unwrap_or(0) + self.grown).saturating_sub(self.shrunk)
    }

    /// Makes ready what accepting the outcome will take. But for that the memo is unchanged, also where an allocation fails.
    pub fn ready(&mut self, outcome: &Outcome<V>) -> Result<(), Memory>
        ensures ok { OnOk result (IsReadyFor outcome.now self.new) }
        ensures blank { self.new.blank ≡ self.old.blank }
        ensures entries { self.new.entries ≡ self.old.entries }
        ensures copies { self.new.copies ≡ self.old.copies }
        ensures total { self.new.total ≡ self.old.total }
        ensures grown { self.new.grown ≡ self.old.grown }
        ensures shrunk { self.new.shrunk ≡ self.old.shrunk }
        ensures changes { self.new.changes ≡ self.old.changes }
        ensures locations { self.new.locations ≡ self.old.locations }
    {
        self.is_ready = false;
        if self.grown >= KEY_LIMIT || self.shrunk >= KEY_LIMIT {
            return Err(Memory);
        }
        self.written = put_change(&mut self.change, self.kind, self.stripes, outcome)?;
        make_room(self.kind, &mut self.entries, &mut self.copies)?;
        if self.written.is_some() {
            self.log.reserve(1)?;
        }
        self.is_ready = true;
        Ok(())
    }

    /// Accepts the outcome, which has been made ready: its change is made on what is kept of its key and appended to the log. It takes
    /// no memory and is never refused.
    pub fn accept(&mut self, outcome: Outcome<V>)
        requires ready { IsReadyFor outcome self.old }
        ensures entries { self.new.entries ≡ entries_kept (shown_of self.old.blank) outcome self.old.entries }
        ensures copies { self.new.copies ≡ copies_kept (shown_of self.old.blank) outcome self.old.copies }
        ensures total { self.new.total ≡ self.old.total }
        ensures grown { self.new.grown ≡ grown_kept (shown_of self.old.blank) outcome self.old.grown }
        ensures shrunk { self.new.shrunk ≡ shrunk_kept (shown_of self.old.blank) outcome self.old.shrunk }
        ensures blank { self.new.blank ≡ self.old.blank }
        ensures changes { self.new.changes ≡ self.old.changes ++ changes_of outcome (shown_of self.old.blank) }
        ensures locations { self.new.locations
            ≡ self.old.locations ++ writes_of (stripes_of self.old.blank) outcome (shown_of self.old.blank) }
    {
        let mut outcome = outcome;
        self.accept_in_place(&mut outcome);
    }

    /// What `accept` does, of an outcome that is lent: its reply is unchanged, its operation is left open.
    pub fn accept_in_place(&mut self, outcome: &mut Outcome<V>)
        requires ready { IsReadyFor outcome.old self.old }
        ensures entries { self.new.entries ≡ entries_kept (shown_of self.old.blank) outcome.old self.old.entries }
        ensures copies { self.new.copies ≡ copies_kept (shown_of self.old.blank) outcome.old self.old.copies }
        ensures total { self.new.total ≡ self.old.total }
        ensures grown { self.new.grown ≡ grown_kept (shown_of self.old.blank) outcome.old self.old.grown }
        ensures shrunk { self.new.shrunk ≡ shrunk_kept (shown_of self.old.blank) outcome.old self.old.shrunk }
        ensures blank { self.new.blank ≡ self.old.blank }
        ensures changes { self.new.changes ≡ self.old.changes ++ changes_of outcome.old (shown_of self.old.blank) }
        ensures locations { self.new.locations
            ≡ self.old.locations ++ writes_of (stripes_of self.old.blank) outcome.old (shown_of self.old.blank) }
        ensures reply { outcome.new.reply ≡ outcome.old.reply }
    {
        if self.is_ready {
            self.is_ready = false;
            append(&mut self.log, self.alloc, &mut self.change, self.written);
            match self.kind {
                MemoKind::Map => {
                    count_entry(&mut self.grown, &mut self.shrunk, outcome);
                    keep_entry(&mut self.entries, outcome);
                }
                MemoKind::Bag => keep_copies(&mut self.copies, outcome),
            }
        }
    }

    /// The locations that an outcome reads, as in an empty collection of its kind and stripes. `Memory` where an allocation fails; up to
    /// eight locations take none.
    pub fn reads(&self, outcome: &Outcome<V>) -> Result<LocSet, Memory>
        ensures { IfOk result (λ set. set ≡ reads_of (stripes_of self.now.blank) outcome.now (shown_of self.now.blank)) }
    {
        match self.kind {
            MemoKind::Map => base_map::reads_in(self.alloc, self.stripes, outcome),
            MemoKind::Bag => base_bag::reads_in(self.alloc, self.stripes, outcome),
        }
    }

    /// The number of stripes, where an outcome reads them all: they take no set.
    pub fn all_read(&self, outcome: &Outcome<V>) -> Option<u32>
        ensures { IfSome result (λ count.
            reads_of (stripes_of self.now.blank) outcome.now (shown_of self.now.blank) ≡ all_below count) }
    {
        match (self.kind, &outcome.op) {
            (MemoKind::Map, Op::Len) => Some(self.stripes),
            _ => None,
        }
    }

    /// The locations that an outcome writes there, one at most. They take no memory.
    pub fn writes(&self, outcome: &Outcome<V>) -> Result<LocSet, Memory>
        ensures { IfOk result (λ set. set ≡ writes_of (stripes_of self.now.blank) outcome.now (shown_of self.now.blank)) }
    {
        match self.kind {
            MemoKind::Map => base_map::writes_in(self.alloc, self.stripes, outcome),
            MemoKind::Bag => base_bag::writes_in(self.alloc, self.stripes, outcome),
        }
    }

    /// The location of the key of an outcome, which is all that it reads, and whether it writes there, which is all that it writes; none
    /// for an outcome on no key.
    pub fn key_location(&self, outcome: &Outcome<V>) -> Option<KeyLocation>
        ensures reads { IfSome result (λ at.
            reads_of (stripes_of self.now.blank) outcome.now (shown_of self.now.blank) ≡ at.location ∷ []) }
        ensures writes { IfSome result (λ at.
            writes_of (stripes_of self.now.blank) outcome.now (shown_of self.now.blank) ≡ written_there at) }
    {
        match self.kind {
            MemoKind::Map => entry_location(self.stripes, outcome),
            MemoKind::Bag => copies_location(self.stripes, outcome),
        }
    }

    /// The accepted changes, in order: what a base has to be prepared for.
    pub fn changes(&self) -> &[Change<V>]
        ensures { result.now ≡ self.now.changes }
    {
        self.log.changes()
    }

    /// The accepted changes are made in a base that was prepared for them, and the editions of the locations that they write are raised by
    /// one. It takes no memory and is never refused. What is kept is left open, in its memory.
    pub fn fold(&mut self, base: &mut Base<V>)
        requires prepared { IsPreparedFor self.old.changes base.old }
        requires within { All (λ location. location < locations_of (stripes_of base.old) (shown_of base.old)) self.old.locations }
        requires below { All (λ location. slice_index (editions_of base.old) location < 2 ^ 63) self.old.locations }
        ensures shown { shown_of base.new ≡ after self.old.changes (shown_of base.old) }
        ensures stripes { stripes_of base.new ≡ stripes_of base.old }
        ensures editions { AreRaised self.old.locations (editions_of base.old) (editions_of base.new) }
    {
        self.is_ready = false;
        self.log.fold(base);
    }

    /// The log of the accepted changes.
    pub fn log(self) -> Log<V>
        ensures changes { result.changes ≡ self.changes }
        ensures locations { result.locations ≡ self.locations }
    {
        let mut memo = self;
        memo.take_log()
    }
}

// What is ready joins the log.
fn append<V: Value>(
    log: &mut Log<V>,
    alloc: Global,
    change: &mut Option<Change<V>>,
    written: Option<u32>,
)
    requires { HasPlace log.old change.old written }
    ensures changes { log.new.changes ≡ log.old.changes ++ option_to_list change.old }
    ensures locations { log.new.locations ≡ log.old.locations ++ option_to_list written }
{
    if let Some(location) = written {
        log.append_one(change.take(), &LocSet::single(alloc, location));
    }
}

// Makes room for one more key in the table of the kind.
fn make_room<V: Value>(
    kind: MemoKind,
    entries: &mut FewKeys<Option<V>>,
    copies: &mut FewKeys<u64>,
) -> Result<(), Memory>
    ensures room { OnOk result (0 < kind_room kind entries.new.room copies.new.room) }
    ensures entries { entries.new.contents ≡ entries.old.contents }
    ensures copies { copies.new.contents ≡ copies.old.contents }
{
    match kind {
        MemoKind::Map => entries.reserve(1)?,
        MemoKind::Bag => copies.reserve(1)?,
    }
    Ok(())
}

fn hold<A: Drop>(known: &mut FewKeys<A>, key: u64, value: A) -> Result<(), Memory>
    ensures ok { OnOk result (known.new.contents ≡ with_key known.old.contents key value) }
    ensures err { OnErr result (known.new.contents ≡ known.old.contents) }
{
    if known.get(key).is_none() {
        known.reserve(1)?;
        known.insert_reserved(key, value);
    }
    Ok(())
}

// More keys than a memory can hold are refused.
fn hold_total(total: &mut Option<u64>, number: u64) -> Result<(), Memory>
    ensures ok { OnOk result (total.new ≡ with_number number total.old) }
    ensures err { OnErr result (total.new ≡ total.old) }
    ensures small { IsTold total.old → IsTold total.new }
{
    if total.is_none() {
        if number >= KEY_LIMIT {
            return Err(Memory);
        }
        *total = Some(number);
    }
    Ok(())
}

fn hold_sum(total: &mut Option<u64>, counts: &Items<u64>) -> Result<(), Memory>
    ensures ok { OnOk result (total.new ≡ with_number (sum counts.now) total.old) }
    ensures err { OnErr result (total.new ≡ total.old) }
    ensures small { IsTold total.old → IsTold total.new }
{
    let number = sum_of(counts)?;
    hold_total(total, number)
}

// How many keys there are by these counts.
fn sum_of(counts: &Items<u64>) -> Result<u64, Memory>
    ensures { IfOk result (λ total. total ≡ sum counts.now) }
{
    let mut total: u64 = 0;
    for count in counts.as_slice() {
        total = total.checked_add(*count).ok_or(Memory)?;
    }
    Ok(total)
}

fn entry_outcome<V: Value>(
    entries: &FewKeys<Option<V>>,
    op: &Op<V>,
    outcome: &mut Option<Outcome<V>>,
) -> Result<(), Refusal>
    ensures ok { OnOk result (map_answer op.now entries.now.contents ≡ outcome.new) }
    ensures some { OnOk result (IsSome outcome.new) }
    ensures refused { IfErr result (λ refusal. IsRefusal refusal (map_answer op.now entries.now.contents ≡ None)) }
{
    let reply = match op {
        Op::Get(key) | Op::Put(key, _) | Op::Remove(key) => match entries.get(*key) {
            Some(Some(value)) => Reply::Value(value.try_copy()?),
            _ => Reply::Nothing,
        },
        _ => return Err(Refusal::NoSuch),
    };
    let op = match op {
        Op::Get(key) => Op::Get(*key),
        _ => op.try_copy()?,
    };
    *outcome = Some(Outcome {
        op,
        reply,
        note: Note::Plain,
    });
    Ok(())
}

fn count_outcome<V: Value>(
    copies: &FewKeys<u64>,
    op: &Op<V>,
    outcome: &mut Option<Outcome<V>>,
) -> Result<(), Refusal>
    ensures ok { OnOk result (bag.outcome_of op.now copies.now.contents ≡ outcome.new) }
    ensures some { OnOk result (IsSome outcome.new) }
    ensures refused { IfErr result (λ refusal. IsRefusal refusal (bag.outcome_of op.now copies.now.contents ≡ None)) }
{
    let reply = match op {
        Op::Count(element) => Reply::Number(count_of(copies, *element)),
        Op::Add(element) if count_of(copies, *element) >= COPY_LIMIT => Reply::Full,
        Op::Take(element) if count_of(copies, *element) == 0 => Reply::No,
        Op::Add(_) => Reply::Done,
        Op::Take(_) => Reply::Yes,
        _ => return Err(Refusal::NoSuch),
    };
    let op = op.try_copy()?;
    *outcome = Some(Outcome {
        op,
        reply,
        note: Note::Plain,
    });
    Ok(())
}

fn count_of(table: &FewKeys<u64>, element: u64) -> u64
    ensures { result ≡ copies table.now.contents element }
{
    table.get(element).copied().unwrap_or(0)
}

fn count_entry<V: Drop>(grown: &mut u64, shrunk: &mut u64, outcome: &Outcome<V>)
    requires grown { grown.old < 2 ^ 63 }
    requires shrunk { shrunk.old < 2 ^ 63 }
    ensures grown { grown.new ≡ grown_after outcome.now.op outcome.now.reply grown.old }
    ensures shrunk { shrunk.new ≡ shrunk_after outcome.now.op outcome.now.reply shrunk.old }
    ensures small { grown.new ≤ 2 ^ 63 }
{
    match (&outcome.op, &outcome.reply) {
        (Op::Put(_, _), Reply::Nothing) => *grown += 1,
        (Op::Remove(_), Reply::Value(_)) => *shrunk += 1,
        _ => {}
    }
}

fn keep_entry<V: Drop>(entries: &mut FewKeys<Option<V>>, outcome: &mut Outcome<V>)
    requires { 0 < entries.old.room }
    ensures entries { entries.new.contents ≡ entries_after outcome.old.op outcome.old.reply entries.old.contents }
    ensures reply { outcome.new.reply ≡ outcome.old.reply }
{
    if let Op::Get(_) = &outcome.op {
        return;
    }
    let op = mem::replace(&mut outcome.op, Op::Read);
    match op {
        Op::Put(key, value) => entries.insert_reserved(key, Some(value)),
        Op::Remove(key) => keep_removed(entries, key, &outcome.reply),
        _ => {}
    }
}

fn keep_removed<V: Drop>(entries: &mut FewKeys<Option<V>>, key: u64, reply: &Reply<V>)
    requires { 0 < entries.old.room }
    ensures { entries.new.contents ≡ entries_after (Remove key) reply.now entries.old.contents }
{
    if let Reply::Value(_) = reply {
        entries.insert_reserved(key, None);
    }
}

fn keep_copies<V: Drop>(counts: &mut FewKeys<u64>, outcome: &Outcome<V>)
    requires { 0 < counts.old.room }
    ensures { counts.new.contents ≡ copies_after outcome.now.op outcome.now.reply counts.old.contents }
{
    match (&outcome.op, &outcome.reply) {
        (Op::Add(element), Reply::Done) => {
            let count = count_of(counts, *element);
            if count < COPY_LIMIT {
                counts.insert_reserved(*element, count + 1);
            } else {
                counts.insert_reserved(*element, count);
            }
        }
        (Op::Take(element), Reply::Yes) => {
            let count = count_of(counts, *element);
            counts.insert_reserved(*element, count.saturating_sub(1));
        }
        _ => {}
    }
}
