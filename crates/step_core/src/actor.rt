//! An actor with its transaction, and what each step makes of its own record.
//!
//! A step finds one word, and what it then makes of the actor depends on the actor and that word
//! alone. So each kind of step is a method here, which is given the word, and [`crate::machine`] has
//! the loads and the stores.
ghost use Rattle.std.specs.Prelude.{◌≡◌, ◌≢◌, false, ℕ, ◌+◌, ◌^◌, ◌<◌, ◌≤◌, Ok, drop, length, slice_index_or, nat_lt, if◌then◌else◌};
ghost use Rattle.std.specs.Vec.{vec_len, vec_capacity};
ghost use Rattle.std.specs.VecDeque.{deque_len, deque_capacity};
ghost use Rattle.vlock_word.specs.LockWord.{unbits};
ghost use Rattle.tx_sets.specs.Entries.{lookup, locations};
ghost use Rattle.tx_machine.specs.Actor as machine;
ghost use Rattle.tx_machine.specs.Actor.{clock_limit, goes, begun, with_read, seen, seen_again, seen_to_lock, taken, to_check};
ghost use Rattle.tx_machine.specs.Actor.{stamped_at, seen_in_check, freed, after_release};
ghost use Rattle.tx_machine.specs.Notices as notice;
ghost use Rattle.tx_machine.specs.Notices.{begin_notice, look_notice, again_notice, lock_notice, check_notice, when_none_left};
ghost use Rattle.step_core.specs.Answers.{result_of};
ghost use Rattle.step_core.specs.Blank.{IsBlank};
ghost use Rattle.step_core.specs.Shown.{actor_of};
ghost use Rattle.step_core.specs.Sound.{HasRoom, Fits, FitsPlace, Keeps, KeepsRoom, owed, due};
ghost use Rattle.step_core.specs.declared.actor.Place.TheVariants.{Look, Fetch, Again, Lock, Take, Check, First, Store, Release, Undo};
ghost use Rattle.step_core.specs.declared.answer.WordRefusal.TheVariants.{Invalid};

use crate::answer::{WordAnswer, WordRefusal};
use crate::record::{WordCall, WordCalls};
use std::alloc::Global;
use std::collections::VecDeque;
use std::mem;
use tx_sets::{LOCATION_LIMIT, ReadSet, WriteSet};
use vlock_word::LockWord;

mod asks;

/// The clock from which on no transaction begins.
pub const CLOCK_LIMIT: u64 = 4_611_686_018_427_387_904;

/// Where an actor stands: the atomic step that is next, or none, as it is idle.
///
/// A number in place of a list of locations is an index into the read or the write set.
#[derive(Clone, Copy)]
pub enum Place {
    Idle,
    Begin,
    Open,
    Look(u32),
    Fetch(u32, u64),
    Again(u32, u64, u64),
    Lock(usize),
    Take(u32, u64, usize),
    Check(usize),
    Broken,
    First,
    Store(usize),
    Release,
    Undo,
    Leave,
    Close,
}

/// An actor with its transaction.
#[derive(Drop)]
pub struct Actor {
    pub place: Place,
    /// Whether it began as a reader, which writes nothing and keeps no read set.
    pub declared: bool,
    /// The reading of the clock with which the transaction began.
    pub rv: u64,
    /// The number of its commit.
    pub wv: u64,
    /// The locations that it read, with the values that it found.
    pub reads: ReadSet,
    /// The locations that it wrote, with the values to be stored.
    pub writes: WriteSet,
    /// The locks that it holds, with their old versions, in the order in which it took them.
    pub held: VecDeque<(u32, u64)>,
    /// Its reads and writes so far.
    pub calls: Vec<WordCall>,
    /// The same, for the record of a commit that was asked for.
    pub ready: Vec<WordCall>,
}

/// Puts a value that was read into its set, which has the room. A declared reader keeps none.
fn keep(reads: &mut ReadSet, declared: bool, location: u32, value: u64)
    requires room { declared ≡ false → 0 < reads.old.room }
    requires limit { length reads.old.entries < LOCATION_LIMIT }
    ensures entries { reads.new.entries ≡ with_read declared reads.old.entries location value }
    ensures room { reads.old.room ≤ reads.new.room + 1 }
{
    if declared {
        return;
    }
    let _ = reads.put(location, value);
}

impl Actor {
    /// An actor without a transaction.
    pub fn new(alloc: Global) -> Actor
        ensures { IsBlank result }
    {
        Actor {
            place: Place::Idle,
            declared: false,
            rv: 0,
            wv: 0,
            reads: ReadSet::new(alloc),
            writes: WriteSet::new(alloc),
            held: VecDeque::new(alloc),
            calls: Vec::new(alloc),
            ready: Vec::new(alloc),
        }
    }

    /// An entry of the read set.
    pub fn read_at(&self, i: usize) -> (u32, u64)
        requires inside { i < length self.now.reads.entries }
        ensures { result ≡ slice_index_or self.now.reads.entries i result }
    {
        self.reads.in_order()[i]
    }

    /// An entry of the write set.
    pub fn write_at(&self, i: usize) -> (u32, u64)
        requires inside { i < length self.now.writes.entries }
        ensures { result ≡ slice_index_or self.now.writes.entries i result }
    {
        self.writes.in_order()[i]
    }

    /// The load of the clock that begins a transaction, at this reading (TL2, DISC 2006). `Exhausted` from `CLOCK_LIMIT` on, which leaves
    /// the actor without a transaction.
    pub fn begin(&mut self, clock: u64) -> Result<Option<WordAnswer>, WordRefusal>
        ensures actor { actor_of self.new ≡ begun (actor_of self.old) clock }
        ensures answer { result ≡ result_of (begin_notice clock) }
        ensures fits { (n : ℕ) → Fits n self.old → Fits n self.new }
        ensures owed { owed self.new.place ≤ (if nat_lt clock clock_limit then 1 else 0) }
        ensures due { due self.new.place ≤ 1 }
    {
        if clock >= CLOCK_LIMIT {
            self.place = Place::Idle;
            return Err(WordRefusal::Exhausted { clock });
        }
        self.place = Place::Open;
        self.rv = clock;
        self.wv = 0;
        self.reads.clear();
        self.writes.clear();
        self.held.clear();
        self.calls.clear();
        Ok(Some(WordAnswer::Begun(clock)))
    }

    /// The first load of a lock word. `Moved` where it is locked, or newer than the transaction, which is then to be undone.
    pub fn look(&mut self, location: u32, word: u64) -> Result<Option<WordAnswer>, WordRefusal>
        requires place { self.old.place ≡ Look location }
        ensures actor { actor_of self.new ≡ seen (actor_of self.old) location (unbits word) }
        ensures answer { result ≡ result_of (look_notice self.old.rv location (unbits word)) }
        ensures keeps { Keeps self.old self.new }
        ensures room { KeepsRoom self.old self.new }
    {
        match LockWord::read(word) {
            LockWord::Free(version) if version <= self.rv => {
                self.place = Place::Fetch(location, version);
                Ok(None)
            }
            _ => {
                self.place = Place::Undo;
                Err(WordRefusal::Moved { location, word })
            }
        }
    }

    /// The load of a value. It is never refused.
    pub fn fetch(
        &mut self,
        location: u32,
        version: u64,
        value: u64,
    ) -> Result<Option<WordAnswer>, WordRefusal>
        requires place { self.old.place ≡ Fetch location version }
        ensures actor { actor_of self.new ≡ goes (actor_of self.old) (machine.Again location version value) }
        ensures answer { result ≡ result_of notice.Quiet }
        ensures keeps { Keeps self.old self.new }
        ensures room { KeepsRoom self.old self.new }
    {
        self.place = Place::Again(location, version, value);
        Ok(None)
    }

    /// The second load of a lock word: the read is kept. `Moved` where the word is not free at the version of the first load; the
    /// transaction is then to be undone.
    #[inline(always)]
    pub fn again(
        &mut self,
        location: u32,
        version: u64,
        value: u64,
        word: u64,
    ) -> Result<Option<WordAnswer>, WordRefusal>
        requires place { self.old.place ≡ Again location version value }
        requires room { HasRoom self.old }
        requires limit { length self.old.reads.entries < LOCATION_LIMIT }
        requires calls { vec_len self.old.calls < vec_capacity self.old.calls }
        ensures actor { actor_of self.new ≡ seen_again (actor_of self.old) location version value (unbits word) }
        ensures answer { result ≡ result_of (again_notice location version value (unbits word)) }
        ensures keeps { Keeps self.old self.new }
        ensures room { KeepsRoom self.old self.new }
    {
        match LockWord::read(word) {
            LockWord::Free(found) if found == version => {
                keep(&mut self.reads, self.declared, location, value);
                self.calls.push_reserved(WordCall::Read(location, value));
                self.place = Place::Open;
                Ok(Some(WordAnswer::Number(value)))
            }
            _ => {
                self.place = Place::Undo;
                Err(WordRefusal::Moved { location, word })
            }
        }
    }

    /// The load of a lock word of the write set, which is to be locked next. `Busy` where it is locked; the locks taken so far are then to
    /// be given back.
    pub fn to_lock(
        &mut self,
        location: u32,
        i: usize,
        word: u64,
    ) -> Result<Option<WordAnswer>, WordRefusal>
        requires place { self.old.place ≡ Lock i }
        requires inside { i < length self.old.writes.entries }
        requires location { (n : ℕ) → Fits n self.old → location < n }
        requires next { i + 1 < 2 ^ 64 }
        ensures actor { actor_of self.new ≡ seen_to_lock (actor_of self.old) location
            (drop (i + 1) (locations self.old.writes.entries)) (unbits word) }
        ensures answer { result ≡ result_of (lock_notice location (unbits word)) }
        ensures keeps { Keeps self.old self.new }
    {
        match LockWord::read(word) {
            LockWord::Free(version) => {
                self.place = Place::Take(location, version, i + 1);
                Ok(None)
            }
            LockWord::Locked(_) => {
                self.place = Place::Broken;
                Err(WordRefusal::Busy { location, word })
            }
        }
    }

    /// Where the check begins that a commit of this number has to make: after the last entry of the read set where no other commit took a
    /// number since the transaction began.
    fn first_to_check(&self, clock: u64) -> usize
        requires positive { 0 < clock }
        ensures left { drop result (locations self.now.reads.entries) ≡ to_check (actor_of self.now) clock }
        ensures inside { result ≤ length self.now.reads.entries }
    {
        if self.rv == clock - 1 {
            self.reads.len()
        } else {
            0
        }
    }

    /// The number of the commit, which the clock has now. Where no other commit took a number since the transaction began, nothing is to be
    /// checked. It is never refused.
    pub fn stamp(&mut self, clock: u64) -> Result<Option<WordAnswer>, WordRefusal>
        requires clock { clock < 2 ^ 63 }
        requires positive { 0 < clock }
        ensures actor { actor_of self.new ≡ stamped_at (actor_of self.old) clock }
        ensures answer { result ≡ result_of (when_none_left (to_check (actor_of self.old) clock) (notice.LockedAt clock)) }
        ensures fits { (n : ℕ) → Fits n self.old → Fits n self.new }
        ensures owed { owed self.new.place ≡ 0 }
        ensures due { due self.new.place ≤ 1 }
    {
        let first = self.first_to_check(clock);
        self.place = Place::Check(first);
        self.wv = clock;
        if first == self.reads.len() {
            Ok(Some(WordAnswer::Locked(clock)))
        } else {
            Ok(None)
        }
    }

    /// A lock that was taken.
    pub fn take(&mut self, location: u32, version: u64, i: usize)
        requires place { self.old.place ≡ Take location version i }
        requires held { deque_len self.old.held < deque_capacity self.old.held }
        ensures actor { actor_of self.new ≡ taken (actor_of self.old) location version (drop i (locations self.old.writes.entries)) }
        ensures keeps { Keeps self.old self.new }
    {
        self.held.push_back_reserved((location, version));
        self.place = Place::Lock(i);
    }

    /// The next place of a check that has passed, and its answer.
    fn pass(&mut self, i: usize) -> Option<WordAnswer>
        requires place { self.old.place ≡ Check i }
        requires inside { i < length self.old.reads.entries }
        requires next { i + 1 < 2 ^ 64 }
        ensures actor { actor_of self.new ≡ goes (actor_of self.old) (machine.Check (drop (i + 1) (locations self.old.reads.entries))) }
        ensures answer { Ok result ≡ result_of (when_none_left (drop (i + 1) (locations self.old.reads.entries))
            (notice.LockedAt self.old.wv)) }
        ensures keeps { Keeps self.old self.new }
    {
        self.place = Place::Check(i + 1);
        if i + 1 == self.reads.len() {
            Some(WordAnswer::Locked(self.wv))
        } else {
            None
        }
    }

    /// A check that failed.
    fn fail(&mut self, location: u32, word: u64) -> WordRefusal
        requires due { due self.old.place ≡ 1 }
        ensures actor { actor_of self.new ≡ goes (actor_of self.old) machine.Broken }
        ensures answer { result ≡ Invalid location word }
        ensures keeps { Keeps self.old self.new }
    {
        self.place = Place::Broken;
        WordRefusal::Invalid { location, word }
    }

    /// The load of a lock word of the read set. `Invalid` where it is newer than the transaction, or locked by another; the locks are then
    /// to be given back.
    pub fn check(
        &mut self,
        location: u32,
        i: usize,
        word: u64,
    ) -> Result<Option<WordAnswer>, WordRefusal>
        requires place { self.old.place ≡ Check i }
        requires inside { i < length self.old.reads.entries }
        requires next { i + 1 < 2 ^ 64 }
        ensures actor { actor_of self.new ≡ seen_in_check (actor_of self.old)
            (drop (i + 1) (locations self.old.reads.entries)) (unbits word)
            (lookup self.old.writes.entries location) }
        ensures answer { result ≡ result_of (check_notice self.old.rv self.old.wv location (drop (i + 1) (locations self.old.reads.entries))
            (unbits word) (lookup self.old.writes.entries location)) }
        ensures keeps { Keeps self.old self.new }
    {
        match LockWord::read(word) {
            LockWord::Free(version) => {
                if version <= self.rv {
                    Ok(self.pass(i))
                } else {
                    Err(self.fail(location, word))
                }
            }
            LockWord::Locked(version) => {
                match self.writes.find(location) {
                    Some(_) => {
                        if version <= self.rv {
                            Ok(self.pass(i))
                        } else {
                            Err(self.fail(location, word))
                        }
                    }
                    None => Err(self.fail(location, word)),
                }
            }
        }
    }

    /// The place after the first value store, which commits, and its answer.
    pub fn first(&mut self) -> Option<WordAnswer>
        requires place { self.old.place ≡ First }
        requires some { 0 < length self.old.writes.entries }
        ensures actor { actor_of self.new ≡ goes (actor_of self.old) (machine.Store (drop 1 (locations self.old.writes.entries))) }
        ensures answer { Ok result ≡ result_of (when_none_left (drop 1 (locations self.old.writes.entries)) notice.Stored) }
        ensures keeps { Keeps self.old self.new }
        ensures rest { (self.new.place ≡ Store 1) × (self.new.ready ≡ self.old.ready) }
    {
        self.place = Place::Store(1);
        if self.writes.len() == 1 {
            Some(WordAnswer::Stored)
        } else {
            None
        }
    }

    /// The place after a value store, and its answer.
    pub fn store(&mut self, i: usize) -> Option<WordAnswer>
        requires place { self.old.place ≡ Store i }
        requires inside { i < length self.old.writes.entries }
        requires next { i + 1 < 2 ^ 64 }
        ensures actor { actor_of self.new ≡ goes (actor_of self.old) (machine.Store (drop (i + 1) (locations self.old.writes.entries))) }
        ensures answer { Ok result ≡ result_of (when_none_left (drop (i + 1) (locations self.old.writes.entries)) notice.Stored) }
        ensures keeps { Keeps self.old self.new }
    {
        self.place = Place::Store(i + 1);
        if i + 1 == self.writes.len() {
            Some(WordAnswer::Stored)
        } else {
            None
        }
    }

    /// The place after a lock was given back by a commit, and its answer.
    pub fn release(&mut self) -> Option<WordAnswer>
        requires place { self.old.place ≡ Release }
        requires held { 0 < deque_len self.old.held }
        ensures actor { actor_of self.new ≡ freed (actor_of self.old) (drop 1 self.old.held.items)
            (after_release (drop 1 self.old.held.items)) }
        ensures answer { Ok result ≡ result_of (when_none_left (drop 1 self.old.held.items) notice.Released) }
        ensures keeps { Keeps self.old self.new }
    {
        let _ = self.held.pop_front();
        if self.held.is_empty() {
            self.place = Place::Idle;
            return Some(WordAnswer::Released);
        }
        None
    }

    /// What is left once a lock was given back by a cancel, and its answer.
    pub fn undo(&mut self) -> Option<WordAnswer>
        requires place { self.old.place ≡ Undo }
        requires held { 0 < deque_len self.old.held }
        ensures actor { actor_of self.new ≡ freed (actor_of self.old) (drop 1 self.old.held.items) machine.Undo }
        ensures answer { Ok result ≡ result_of (when_none_left (drop 1 self.old.held.items) notice.Cancelled) }
        ensures keeps { Keeps self.old self.new }
    {
        let _ = self.held.pop_front();
        if self.held.is_empty() {
            Some(WordAnswer::Cancelled)
        } else {
            None
        }
    }
    /// Its calls, for the record of a commit that was asked for.
    pub fn take_ready(&mut self) -> WordCalls
        ensures calls { result ≡ self.old.ready.items }
        ensures actor { actor_of self.new ≡ actor_of self.old }
        ensures place { self.new.place ≡ self.old.place }
        ensures fits { (n : ℕ) → FitsPlace n self.new self.new.place → Fits n self.old → Fits n self.new }
    {
        let alloc = *self.calls.allocator();
        WordCalls::from_vec(mem::replace(&mut self.ready, Vec::new(alloc)))
    }
}
