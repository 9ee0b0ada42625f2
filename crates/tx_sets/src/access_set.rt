//! The values that a transaction read or is to write, by location.
ghost use Rattle.std.specs.Prelude.{◌≡◌, ◌↔◌, ◌+◌, ◌<◌, ◌≤◌, [], false, true, count_by, insert, length, nat_lt};
ghost use Rattle.std.specs.Prelude.{Err, IfErr, IsOk, IsSome, None, Ok, OnErr, OnOk};
ghost use Rattle.std.specs.Vec.{vec_capacity, vec_len};
ghost use Rattle.tx_sets.specs.Entries.{IsRising, lookup, with_entry};
ghost use Rattle.tx_sets.specs.AccessSet.{AreLinked, AreOrderly, IsBeyondLimit, IsHead, IsLast, IsPositionOf, LacksLink, LacksRoom};
ghost use Rattle.tx_sets.specs.AccessSet.{chain_of};
ghost use Rattle.tx_sets.specs.declared.set_refusal.SetRefusal.TheVariants.{Memory as OutOfMemory, TooLong};

use crate::set_refusal::SetRefusal;
use std::alloc::{AllocError, Global};
use std::marker::{Model, PhantomData};

/// How many locations a set has at most.
pub const LOCATION_LIMIT: usize = 4096;

// Up to so many entries a location is sought among all of them.
const FEW: usize = 32;

// By how many entries a set grows at least.
const LEAST: usize = 8;

// In how many chains the locations of a set are linked.
const CHAINS: usize = 256;

// 2^32 divided by the golden ratio, as in Fibonacci hashing: its multiples are far from one another.
const SPREAD: u32 = 2_654_435_769;

/// Marks the set of what a transaction read.
#[derive(Clone, Copy, Debug)]
pub struct Reads;

/// Marks the set of what a transaction is to write.
#[derive(Clone, Copy, Debug)]
pub struct Writes;

/// The locations that a transaction read, each with the value that it read.
pub type ReadSet = AccessSet<Reads>;

/// The locations that a transaction is to write, each with the value that it last wrote.
pub type WriteSet = AccessSet<Writes>;

/// A finite map from locations to values, of at most `LOCATION_LIMIT` entries.
pub struct AccessSet<Role> {
    entries: Vec<(u32, u64)>,
    // The locations as they were put, each with one more than the position of the one before it in its
    // chain, or 0. `find` searches the entries for these alone.
    links: Vec<(u32, u16)>,
    // Of each chain that has a location, one more than the position of its last one. What stands for
    // the other chains says nothing, so `clear` leaves it.
    heads: [u16; CHAINS],
    // Where the location is that was sought last, or where it would go.
    sought: usize,
    role: PhantomData<Role>,
}

impl<Role: Drop> Drop for AccessSet<Role> {
    fn drop(self) {
        let AccessSet {
            entries: _,
            links: _,
            heads: _,
            sought: _,
            role: _,
        } = self;
    }
}

impl<Role> Model for AccessSet<Role> {
    ghost use Rattle.std.specs.Prelude.{◌≡◌, ◌≤◌, ◌-◌};
    ghost use Rattle.std.specs.Vec.{vec_capacity, vec_len};
    ghost use Rattle.tx_sets.specs.AccessSet.{HasLinks, SetView};

    ghost Value = { SetView };

    ghost view = { λ a. record { entries = a.entries.items; room = vec_capacity a.entries - vec_len a.entries } };

    ghost invariant = { λ a. HasLinks a.heads a.links.items a.entries.items
        × (vec_len a.links ≡ vec_len a.entries) × (vec_capacity a.entries ≤ vec_capacity a.links) };
}

impl<Role> AccessSet<Role> {
    /// The empty set. It allocates nothing.
    pub fn new(alloc: Global) -> AccessSet<Role>
        ensures entries { result.entries ≡ [] }
        ensures room { result.room ≡ 0 }
    {
        AccessSet {
            entries: Vec::new(alloc),
            links: Vec::new(alloc),
            heads: [0; CHAINS],
            sought: 0,
            role: PhantomData,
        }
    }

    /// How many locations there are.
    pub fn len(&self) -> usize
        ensures { result ≡ length self.now.entries }
    {
        self.entries.len()
    }

    /// The entries, rising by location, `LOCATION_LIMIT` at most.
    pub fn in_order(&self) -> &[(u32, u64)]
        ensures entries { result.now ≡ self.now.entries }
        ensures orderly { AreOrderly self.now.entries }
    {
        self.entries.as_slice()
    }

    /// Whether a location is there. No entry is searched for it.
    #[inline(always)]
    pub fn contains(&self, location: u32) -> bool
        ensures { (result ≡ false) ↔ (lookup self.now.entries location ≡ None) }
    {
        let chain = chain_of(location);
        let last = last_of(&self.links, chain, self.heads[chain]);
        is_linked(&self.links, location, last)
    }

    /// The value of a location.
    #[inline(always)]
    pub fn find(&self, location: u32) -> Option<u64>
        ensures { result ≡ lookup self.now.entries location }
    {
        if !self.contains(location) {
            return None;
        }
        value_in(&self.entries, location, self.position_of(location))
    }

    /// The value of a location, like `find`. A `put` of it that comes next searches no more.
    pub fn seek(&mut self, location: u32) -> Option<u64>
        ensures found { result ≡ lookup self.old.entries location }
        ensures same { self.new ≡ self.old }
    {
        let place = self.position_of(location);
        self.sought = match place {
            Ok(at) => at,
            Err(at) => at,
        };
        value_in(&self.entries, location, place)
    }

    /// Sets the value of a location. Only a new location can be refused: `TooLong` beyond
    /// `LOCATION_LIMIT` of them, and `Memory` where none was reserved. A refusal leaves the set
    /// as it was.
    pub fn put(&mut self, location: u32, value: u64) -> Result<(), SetRefusal>
        ensures ok { OnOk result (self.new.entries ≡ with_entry self.old.entries location value) }
        ensures too_long { (result ≡ Err TooLong) ↔ IsBeyondLimit self.old location }
        ensures memory { result ≡ Err OutOfMemory → LacksRoom self.old location }
        ensures err { OnErr result (self.new ≡ self.old) }

        // It takes the room of one entry at most, and none where the location is there.
        ensures there { IsSome (lookup self.old.entries location) → IsOk result }
        ensures reserved { 0 < self.old.room → length self.old.entries < LOCATION_LIMIT → IsOk result }
        ensures room { self.old.room ≤ self.new.room + 1 }
        ensures room_there { IsSome (lookup self.old.entries location) → self.new.room ≡ self.old.room }
    {
        match self.position_to_put(location) {
            Ok(at) => self.entries[at].1 = value,
            Err(at) => {
                if self.entries.len() >= LOCATION_LIMIT {
                    return Err(SetRefusal::TooLong);
                }
                reserve_both(&mut self.links, &mut self.entries, 1)?;
                insert_reserved(&mut self.entries, at, (location, value));
                let chain = chain_of(location);
                let before = last_of(&self.links, chain, self.heads[chain]);
                self.links.push_reserved((location, before));
                self.heads[chain] = self.links.len() as u16;
            }
        }
        Ok(())
    }

    /// Makes room for `more` further locations: within the limit, they are put without memory. `Memory`, where none is given,
    /// leaves the set as it was.
    pub fn reserve(&mut self, more: usize) -> Result<(), SetRefusal>
        ensures entries { self.new.entries ≡ self.old.entries }
        ensures ok { OnOk result (more ≤ self.new.room) }
        ensures room { self.old.room ≤ self.new.room }
        ensures reserved { more ≤ self.old.room → IsOk result }
        ensures memory { IfErr result (λ refusal. refusal ≡ OutOfMemory) }
        ensures err { OnErr result (self.new ≡ self.old) }
    {
        reserve_both(&mut self.links, &mut self.entries, more)?;
        Ok(())
    }

    /// Takes all entries out, for the next transaction. The memory is kept.
    pub fn clear(&mut self)
        ensures entries { self.new.entries ≡ [] }
        ensures room { self.new.room ≡ self.old.room + length self.old.entries }
    {
        self.entries.clear();
        self.links.clear();
    }

    // Where the location is, or where it would go. Locations often come in rising order, so the
    // end is tried first.
    fn position_of(&self, location: u32) -> Result<usize, usize>
        ensures { IsPositionOf location self.now.entries result }
    {
        let count = self.entries.len();
        if count == 0 || self.entries[count - 1].0 < location {
            return Err(count);
        }
        if count <= FEW {
            return position_among_few(&self.entries, location);
        }
        self.entries
            .binary_search_by_key(&location, |entry| entry.0)
    }

    // The same, without a search where the location was sought just before.
    fn position_to_put(&self, location: u32) -> Result<usize, usize>
        ensures { IsPositionOf location self.now.entries result }
    {
        if is_at(&self.entries, location, self.sought) {
            return Ok(self.sought);
        }
        if goes_to(&self.entries, location, self.sought) {
            return Err(self.sought);
        }
        self.position_of(location)
    }
}

// The value of a location that was sought.
fn value_in(entries: &[(u32, u64)], location: u32, place: Result<usize, usize>) -> Option<u64>
    requires rising { IsRising entries.now }
    requires place { IsPositionOf location entries.now place }
    ensures { result ≡ lookup entries.now location }
{
    match place {
        Ok(at) => Some(entries[at].1),
        Err(_) => None,
    }
}

// Whether a location is there.
fn is_at(entries: &[(u32, u64)], location: u32, at: usize) -> bool
    ensures { result ≡ true → IsPositionOf location entries.now (Ok at) }
{
    at < entries.len() && entries[at].0 == location
}

// Whether a location goes there: it is above the entry before that position, and below the one after it.
fn goes_to(entries: &[(u32, u64)], location: u32, at: usize) -> bool
    requires { IsRising entries.now }
    ensures { result ≡ true → IsPositionOf location entries.now (Err at) }
{
    if at > entries.len() {
        return false;
    }
    if at > 0 && entries[at - 1].0 >= location {
        return false;
    }
    if at < entries.len() && location >= entries[at].0 {
        return false;
    }
    true
}

// The position of a location by the number of entries below it. All entries are compared, but no
// comparison decides which is next, as in a search by halves, where the processor guesses wrongly.
fn position_among_few(entries: &[(u32, u64)], location: u32) -> Result<usize, usize>
    requires { IsRising entries.now }
    ensures { IsPositionOf location entries.now result }
{
    let at = count_below(entries, location);
    if at < entries.len() && entries[at].0 == location {
        return Ok(at);
    }
    Err(at)
}

fn count_below(entries: &[(u32, u64)], location: u32) -> usize
    ensures { result ≡ count_by (λ entry. nat_lt entry.0 location) entries.now }
{
    let mut count = 0;
    for entry in entries {
        count += usize::from(entry.0 < location);
    }
    count
}

// Inserts an entry in the room that there is. The end is the most frequent place by far.
fn insert_reserved(entries: &mut Vec<(u32, u64)>, at: usize, entry: (u32, u64))
    requires place { at ≤ vec_len entries.old }
    requires room { vec_len entries.old < vec_capacity entries.old }
    ensures items { entries.new.items ≡ insert entries.old.items at entry }
    ensures len { vec_len entries.new ≡ vec_len entries.old + 1 }
    ensures capacity { vec_capacity entries.new ≡ vec_capacity entries.old }
{
    if at == entries.len() {
        entries.push_reserved(entry);
    } else {
        entries.insert(at, entry).unwrap();
    }
}

// The chain of a location. Locations at equal distances are spread over all chains.
#[inline(always)]
#[tactic(auto, unfolding(crate::specs::AccessSet::chain_of))]
fn chain_of(location: u32) -> usize
    ensures chain { result ≡ chain_of location }
    ensures within { result < CHAINS }
{
    (location.wrapping_mul(SPREAD) / 0x100_0000) as usize
}

// One more than the position of the last location of this chain, or 0. The head of the chain may be
// that of an earlier transaction.
#[inline(always)]
fn last_of(links: &[(u32, u16)], chain: usize, head: u16) -> u16
    requires { IsHead links.now chain head }
    ensures { IsLast links.now chain (length links.now) result }
{
    let place = head as usize;
    if place == 0 || place > links.len() {
        return 0;
    }
    if chain_of(links[place - 1].0) != chain {
        return 0;
    }
    head
}

// Whether a location is linked. It is sought from the last one of its chain.
fn is_linked(links: &[(u32, u16)], location: u32, last: u16) -> bool
    requires linked { AreLinked links.now }
    requires last { IsLast links.now (chain_of location) (length links.now) last }
    ensures { (result ≡ false) ↔ LacksLink location links.now }
{
    let mut next = last as usize;
    while next > 0 {
        let link = links[next - 1];
        if link.0 == location {
            return true;
        }
        next = link.1 as usize;
    }
    false
}

// Makes room for `more` further entries, and for as many links at least.
#[inline(always)]
fn reserve_both(
    links: &mut Vec<(u32, u16)>,
    entries: &mut Vec<(u32, u64)>,
    more: usize,
) -> Result<(), AllocError>
    requires lens { vec_len links.old ≡ vec_len entries.old }
    requires capacities { vec_capacity entries.old ≤ vec_capacity links.old }
    ensures links { links.new.items ≡ links.old.items }
    ensures links_len { vec_len links.new ≡ vec_len links.old }
    ensures items { entries.new.items ≡ entries.old.items }
    ensures len { vec_len entries.new ≡ vec_len entries.old }
    ensures ok { OnOk result (vec_len entries.new + more ≤ vec_capacity entries.new) }
    ensures capacity { vec_capacity entries.old ≤ vec_capacity entries.new }
    ensures both { vec_capacity entries.new ≤ vec_capacity links.new }
    ensures succeeds { vec_len entries.old + more ≤ vec_capacity entries.old → IsOk result }
    ensures full { OnErr result (vec_capacity entries.old < vec_len entries.old + more) }
    ensures err { OnErr result (vec_capacity entries.new ≡ vec_capacity entries.old) }
{
    let len = entries.len();
    if more <= entries.capacity() - len {
        return Ok(());
    }
    grow_both(links, entries, growth(len, more))
}

// Makes room for so many more. It is seldom called, so it is kept out of what each put does.
#[inline(never)]
fn grow_both(
    links: &mut Vec<(u32, u16)>,
    entries: &mut Vec<(u32, u64)>,
    more: usize,
) -> Result<(), AllocError>
    requires lens { vec_len links.old ≡ vec_len entries.old }
    requires capacities { vec_capacity entries.old ≤ vec_capacity links.old }
    ensures links { links.new.items ≡ links.old.items }
    ensures links_len { vec_len links.new ≡ vec_len links.old }
    ensures items { entries.new.items ≡ entries.old.items }
    ensures len { vec_len entries.new ≡ vec_len entries.old }
    ensures ok { OnOk result (vec_len entries.new + more ≤ vec_capacity entries.new) }
    ensures capacity { vec_capacity entries.old ≤ vec_capacity entries.new }
    ensures both { vec_capacity entries.new ≤ vec_capacity links.new }
    ensures err { OnErr result (vec_capacity entries.new ≡ vec_capacity entries.old) }
{
    links.reserve_exact(more)?;
    entries.reserve_exact(more)
}

// By how many entries a set of so many grows: it doubles at least.
fn growth(len: usize, more: usize) -> usize
    ensures { more ≤ result }
{
    if more < LEAST && len < LEAST {
        return LEAST;
    }
    if more < len {
        return len;
    }
    more
}
