//! Memory that served a transaction at its seat, to serve the next one there.
ghost use Rattle.std.specs.Prelude.{◌≡◌, ◌<◌, [], IfOk, IfSome, Some, length};
ghost use Rattle.std.specs.FinMap as map;
ghost use Rattle.replay_log.specs.Base.{editions_of, shown_of, stripes_of};
ghost use Rattle.replay_log.specs.Touches.{editions_at, summed_by, touched_locations};
ghost use Rattle.actor_parts.specs.PrivateCopy.{changes_in, locations_in};
ghost use Rattle.actor_parts.specs.First.{IsBlank};

use crate::boxed::Boxed;
use crate::copies::{CopyOfCollection, PrivateCopy};
use conflict::FewKeys;
use replay_log::{Base, LocationEditions, Log, Touch};
use seq_model::{Memory, Op, Refusal, Value};
use shadow::{Memo, MemoKind, Shadow};
use std::alloc::Global;
use std::collections::VecDeque;
use std::marker::Model;
use std::mem;

/// A memo, with the table of editions beside it, in the boxes in which both serve again.
#[derive(Drop)]
pub(crate) struct Spare<V> {
    pub memo: Boxed<Memo<V>>,
    pub editions: Boxed<FewKeys<u64>>,
}

/// What the transactions of a seat took of memory for what they had of collections, and need no more: the next one takes it from here.
/// Contracts see nothing of it.
pub struct Spares<V> {
    kept: Vec<Spare<V>>,
    wholes: Vec<Boxed<Shadow<V>>>,
    logs: Vec<Log<V>>,
    left: VecDeque<(u32, u64)>,
    homes: VecDeque<u32>,
    editions: LocationEditions,
}

impl<V: Drop> Drop for Spares<V> {
    fn drop(self) {
        let Spares {
            kept: _,
            wholes: _,
            logs: _,
            left: _,
            homes: _,
            editions: _,
        } = self;
    }
}

impl<V> Model for Spares<V> {
    ghost use Rattle.std.specs.Prelude.{⊤};

    ghost Value = { ⊤ };

    ghost view = { λ _. tt };
}

impl<V: Drop> Spares<V> {
    /// None yet. It takes no memory.
    pub fn new(alloc: Global) -> Spares<V> {
        Spares {
            kept: Vec::new(alloc),
            wholes: Vec::new(alloc),
            logs: Vec::new(alloc),
            left: VecDeque::new(alloc),
            homes: VecDeque::new(alloc),
            editions: LocationEditions::new(alloc),
        }
    }

    /// Makes room to keep what so many copies take, which then takes no memory.
    pub(crate) fn reserve(&mut self, copies: usize) -> Result<(), Memory> {
        self.kept.reserve(copies)?;
        self.wholes.reserve(copies)?;
        self.logs.reserve(copies)?;
        Ok(())
    }

    // Keeps what an emptied memo took. Where there is no room for it, it goes.
    fn keep(&mut self, memo: Boxed<Memo<V>>, editions: Boxed<FewKeys<u64>>) {
        let mut editions = editions;
        editions.get_mut().clear();
        if self.kept.len() < self.kept.capacity() {
            self.kept.push_reserved(Spare { memo, editions });
        }
    }

    // Keeps a copy whose log was handed out, likewise.
    fn keep_whole(&mut self, shadow: Boxed<Shadow<V>>) {
        if self.wholes.len() < self.wholes.capacity() {
            self.wholes.push_reserved(shadow);
        }
    }

    /// The log of what a transaction had of a collection. The other memory is kept. It is not refused.
    pub fn log_of(&mut self, copied: PrivateCopy<V>) -> Log<V>
        ensures changes { result.changes ≡ changes_in copied }
        ensures locations { result.locations ≡ locations_in copied }
    {
        match copied {
            PrivateCopy::Keys(memo, editions) => {
                let mut memo = memo;
                let log = memo.get_mut().take_log();
                self.keep(memo, editions);
                log
            }
            PrivateCopy::Whole(shadow) => {
                let mut shadow = shadow;
                let log = shadow.get_mut().take_log();
                self.keep_whole(shadow);
                log
            }
        }
    }

    /// Keeps the memory of a log, whose changes go. Where there is no room for it, it goes as well. It takes no memory.
    pub fn keep_log(&mut self, log: Log<V>) {
        let mut log = log;
        log.clear();
        if self.logs.len() < self.logs.capacity() {
            self.logs.push_reserved(log);
        }
    }

    /// A log in kept memory, where there is some. What it holds is unused.
    pub(crate) fn log(&mut self, alloc: Global) -> Log<V> {
        match self.logs.pop() {
            Some(log) => log,
            None => Log::new(alloc),
        }
    }

    // A memo whose log was handed out has the memory of a kept one, where there is some.
    fn lend_log(&mut self, memo: &mut Memo<V>) {
        if memo.lacks_log() {
            if let Some(log) = self.logs.pop() {
                memo.take_memory(log);
            }
        }
    }

    /// Keeps the memory of what a transaction had of a collection, which goes. It is not refused.
    pub fn keep_copied(&mut self, copied: PrivateCopy<V>) {
        match copied {
            PrivateCopy::Keys(memo, editions) => {
                let mut memo = memo;
                memo.get_mut().clear();
                self.keep(memo, editions);
            }
            PrivateCopy::Whole(shadow) => {
                let log = self.log_of(PrivateCopy::Whole(shadow));
                self.keep_log(log);
            }
        }
    }

    /// What a transaction had of collections goes, and its memory is kept. It is not refused.
    pub fn clear(&mut self, copies: &mut Vec<CopyOfCollection<V>>)
        ensures { copies.new.items ≡ [] }
    {
        while let Some(copy) = copies.pop() {
            self.keep_copied(copy.copied);
        }
    }

    /// A list for locations with editions, in the memory of the one that was kept last. What it holds is unused.
    pub fn left(&mut self, alloc: Global) -> VecDeque<(u32, u64)> {
        mem::replace(&mut self.left, VecDeque::new(alloc))
    }

    /// Keeps the memory of such a list.
    pub fn keep_left(&mut self, left: VecDeque<(u32, u64)>) {
        self.left = left;
    }

    /// A list for collections, likewise.
    pub fn homes(&mut self, alloc: Global) -> VecDeque<u32> {
        mem::replace(&mut self.homes, VecDeque::new(alloc))
    }

    /// Keeps the memory of such a list.
    pub fn keep_homes(&mut self, homes: VecDeque<u32>) {
        self.homes = homes;
    }

    /// Keeps the memory of editions that were learnt, where it is more than what is kept.
    pub(crate) fn keep_editions(&mut self, editions: LocationEditions) {
        if editions.capacity() > self.editions.capacity() {
            self.editions = editions;
        }
    }
}

impl<V: Value> Spares<V> {
    /// A memo of a map or a multiset in so many stripes with no key, and no edition, in kept memory where there is some. A number of
    /// stripes outside 1 to `STRIPE_LIMIT` is refused as TooLong.
    pub(crate) fn blank(
        &mut self,
        alloc: Global,
        stripes: u32,
        kind: MemoKind,
    ) -> Result<Spare<V>, Refusal>
        ensures memo { IfOk result (λ spare. IsBlank stripes kind spare.memo) }
        ensures editions { IfOk result (λ spare. spare.editions.contents ≡ map.empty) }
    {
        match self.kept.pop() {
            Some(spare) => {
                let Spare {
                    mut memo,
                    mut editions,
                } = spare;
                editions.get_mut().clear();
                self.lend_log(memo.get_mut());
                memo.get_mut().renew(stripes, kind)?;
                Ok(Spare { memo, editions })
            }
            None => first_spare(alloc, stripes, kind),
        }
    }

    /// What the call touches of a map or a multiset, in kept memory where there is some. Another call is refused as NoSuch.
    pub(crate) fn touch(&mut self, base: &Base<V>, op: &Op<V>) -> Result<Touch<V>, Refusal>
        ensures editions { IfOk result (λ touch. touch.editions
            ≡ editions_at (touched_locations (stripes_of base.now) touch.held) (editions_of base.now)) }
        ensures held { IfOk result (λ touch. summed_by (stripes_of base.now) op.now (shown_of base.now) ≡ Some touch.held) }
    {
        base.touch_summed(op, &mut self.editions)
    }

    /// A copy of the base, in kept memory where there is some. The calls that its shadow has are unused.
    #[inline(never)]
    pub(crate) fn whole(
        &mut self,
        alloc: Global,
        base: &Base<V>,
    ) -> Result<Boxed<Shadow<V>>, Memory>
        ensures shown { IfOk result (λ shadow. shown_of shadow.base ≡ shown_of base.now) }
        ensures stripes { IfOk result (λ shadow. stripes_of shadow.base ≡ stripes_of base.now) }
        ensures editions { IfOk result (λ shadow. editions_of shadow.base ≡ editions_of base.now) }
    {
        match take_like(&mut self.wholes, base) {
            Some(shadow) => {
                let mut shadow = shadow;
                shadow.get_mut().copy_from(base)?;
                Ok(shadow)
            }
            None => first_whole(alloc, base),
        }
    }
}

// Where a copy stands of a collection of the same kind and in as many stripes.
fn place_like<V: Value>(wholes: &[Boxed<Shadow<V>>], base: &Base<V>) -> Option<usize>
    ensures { IfSome result (λ place. place < length wholes.now) }
{
    for place in 0..wholes.len() {
        if wholes[place].get().base().is_like(base) {
            return Some(place);
        }
    }
    None
}

// Such a copy, where there is one, and else the last.
fn take_like<V: Value>(
    wholes: &mut Vec<Boxed<Shadow<V>>>,
    base: &Base<V>,
) -> Option<Boxed<Shadow<V>>> {
    match place_like(wholes, base) {
        Some(place) => Some(wholes.swap_remove(place)),
        None => wholes.pop(),
    }
}

fn first_whole<V: Value>(alloc: Global, base: &Base<V>) -> Result<Boxed<Shadow<V>>, Memory>
    ensures shown { IfOk result (λ shadow. shown_of shadow.base ≡ shown_of base.now) }
    ensures stripes { IfOk result (λ shadow. stripes_of shadow.base ≡ stripes_of base.now) }
    ensures editions { IfOk result (λ shadow. editions_of shadow.base ≡ editions_of base.now) }
{
    let shadow = Shadow::of_copy(alloc, base.try_copy()?);
    let boxed = Boxed::new(alloc, shadow)?;
    Ok(boxed)
}

#[inline(never)]
fn first_spare<V: Value>(alloc: Global, stripes: u32, kind: MemoKind) -> Result<Spare<V>, Refusal>
    ensures memo { IfOk result (λ spare. IsBlank stripes kind spare.memo) }
    ensures editions { IfOk result (λ spare. spare.editions.contents ≡ map.empty) }
{
    let memo = Boxed::new(alloc, Memo::empty(alloc, stripes, kind)?)?;
    let editions = Boxed::new(alloc, FewKeys::new(alloc))?;
    Ok(Spare { memo, editions })
}
