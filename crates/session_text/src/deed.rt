//! What a step does.
use actor_parts::{Blocks, Next};
use step_core::{Actor, Cells, Place};
use step_world::Parts;

/// What a step does, and what it finds. A lock word stands as it is: twice the version, and one more where it is locked.
#[derive(Clone, Copy, Debug)]
pub enum Deed {
    /// Nothing: no step is next.
    Nothing,
    /// A load of the clock.
    LoadClock(u64),
    /// The fetch_add of the clock, which was this number.
    AddClock(u64),
    /// A load of the lock word of a location.
    LoadLock(u32, u64),
    /// A compare_exchange of the lock word of a location, which was this one, and whether it takes the lock.
    TakeLock(u32, u64, bool),
    /// A store of the lock word of a location.
    StoreLock(u32, u64),
    /// A load of a word.
    LoadWord(u32, u64),
    /// A store of a word.
    StoreWord(u32, u64),
    /// A load of the edition at a location of a collection.
    LoadEdition(u32, u64),
    /// A store of the edition at a location of a collection.
    StoreEdition(u32, u64),
    /// A try of the gate of a collection, which this actor held; none where that is 0.
    TryGate(u32, u32),
    /// A store of the gate of a collection, what a call touches having been copied.
    CopyAtGate(u32),
    /// A store of the gate of a collection, whose base is put back with the changes of a commit.
    ChangeAtGate(u32),
    /// A store of the gate of a collection, whose base is put back as it was.
    PutGate(u32),
}

/// What the next step of the actor of this number is going to do.
pub fn deed_of(parts: &Parts<u64>, actor: u32) -> Deed {
    let place = (actor as usize).wrapping_sub(1);
    let Some(running) = parts.actors.get(place) else {
        return Deed::Nothing;
    };
    match running.next() {
        Next::Nothing => Deed::Nothing,
        Next::Word => word_deed(&parts.table.cells, &parts.blocks, &running.words),
        Next::FirstStore => store_deed(&parts.blocks, &running.words, 0),
        Next::TryGate(collection) => {
            let holder = parts.table.gates.get(collection as usize);
            Deed::TryGate(collection, holder.copied().unwrap_or(0))
        }
        Next::Copy(collection) => Deed::CopyAtGate(collection),
        Next::GoHome(collection) => Deed::ChangeAtGate(collection),
        Next::PutGate(collection) => Deed::PutGate(collection),
    }
}

fn word_deed(cells: &Cells, blocks: &Blocks, actor: &Actor) -> Deed {
    match actor.place {
        Place::Begin | Place::Leave | Place::Close => Deed::LoadClock(cells.clock),
        Place::Look(location) | Place::Again(location, _, _) => lock_load(cells, location),
        Place::Fetch(location, _) => value_load(cells, blocks, location),
        Place::Lock(i) => match actor.writes.in_order().get(i) {
            Some(entry) => lock_load(cells, entry.0),
            None => Deed::AddClock(cells.clock),
        },
        Place::Take(location, version, _) => {
            let word = word_at(&cells.locks, location);
            Deed::TakeLock(location, word, word == version.saturating_mul(2))
        }
        Place::Check(i) => match actor.reads.in_order().get(i) {
            Some(entry) => lock_load(cells, entry.0),
            None => Deed::Nothing,
        },
        Place::First => store_deed(blocks, actor, 0),
        Place::Store(i) => store_deed(blocks, actor, i),
        Place::Release | Place::Undo => unlock_deed(actor),
        Place::Idle | Place::Open | Place::Broken => Deed::Nothing,
    }
}

fn word_at(words: &[u64], location: u32) -> u64 {
    words.get(location as usize).copied().unwrap_or(0)
}

fn lock_load(cells: &Cells, location: u32) -> Deed {
    Deed::LoadLock(location, word_at(&cells.locks, location))
}

fn value_load(cells: &Cells, blocks: &Blocks, location: u32) -> Deed {
    let value = word_at(&cells.values, location);
    match blocks.home_of(location) {
        Some(_) => Deed::LoadEdition(location, value),
        None => Deed::LoadWord(location, value),
    }
}

fn store_deed(blocks: &Blocks, actor: &Actor, i: usize) -> Deed {
    let Some(entry) = actor.writes.in_order().get(i) else {
        return Deed::Nothing;
    };
    match blocks.home_of(entry.0) {
        Some(_) => Deed::StoreEdition(entry.0, entry.1),
        None => Deed::StoreWord(entry.0, entry.1),
    }
}

/// The first lock that is held gets the commit's number, or the version that it had.
fn unlock_deed(actor: &Actor) -> Deed {
    let Some(entry) = actor.held.front() else {
        return Deed::Nothing;
    };
    let version = match actor.place {
        Place::Release => actor.wv,
        _ => entry.1,
    };
    Deed::StoreLock(entry.0, version.saturating_mul(2))
}
