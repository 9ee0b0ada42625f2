//! Changes of the tables that are not made yet.
//!
//! An action works on changes beside the tables, which are unchanged until nothing can be refused any more.
ghost use Rattle.std.specs.Prelude.{◌≡◌, ◌≢◌, ℕ, None, OnOk};
ghost use Rattle.std.specs.Option.{option_copied};
ghost use Rattle.std.specs.FinMap as map;
ghost use Rattle.vac_model.specs.Overlays.{laid, no_changes, without, HasPlaces, AreElsewhereAlike};

use crate::each::Each;
use crate::item::{Customer, Item, Ticket};
use crate::moves::Moves;
use seq_model::{Entries, Items, Memory, Value};
use std::alloc::Global;

/// What is to stand at some keys of the tables' maps, or that nothing is; and what is moved in the queues.
#[derive(Drop)]
pub(crate) struct TableChanges {
    pub(crate) items: Each<Entries<Option<Item>>>,
    pub(crate) customers: Entries<Option<Customer>>,
    pub(crate) tickets: Entries<Option<Ticket>>,
    pub(crate) waiting: Each<Moves>,
    pub(crate) next: u64,
}

impl TableChanges {
    pub(crate) fn none(alloc: Global, next: u64) -> TableChanges
        ensures { result ≡ no_changes next }
    {
        TableChanges {
            items: Each {
                car: Entries::new(alloc),
                flight: Entries::new(alloc),
                room: Entries::new(alloc),
            },
            customers: Entries::new(alloc),
            tickets: Entries::new(alloc),
            waiting: Each {
                car: Moves::none(alloc),
                flight: Moves::none(alloc),
                room: Moves::none(alloc),
            },
            next,
        }
    }
}

/// What stands at a key with the changes made.
pub(crate) fn look<'a, T>(
    below: &'a Entries<T>,
    changes: &'a Entries<Option<T>>,
    key: u64,
) -> Option<&'a T>
    ensures { option_copied result ≡ map.get (laid below.now changes.now) key }
{
    match changes.get(key) {
        Some(change) => change.as_ref(),
        None => below.get(key),
    }
}

pub(crate) fn put<T: Drop>(
    below: &Entries<T>,
    changes: &mut Entries<Option<T>>,
    key: u64,
    value: T,
) -> Result<(), Memory>
    ensures { OnOk result (laid below.now changes.new ≡ map.insert (laid below.now changes.old) key value) }
{
    changes.insert(key, Some(value))?;
    Ok(())
}

pub(crate) fn take<T: Drop>(
    below: &Entries<T>,
    changes: &mut Entries<Option<T>>,
    key: u64,
) -> Result<(), Memory>
    ensures { OnOk result (laid below.now changes.new ≡ map.remove (laid below.now changes.old) key) }
{
    changes.insert(key, None)?;
    Ok(())
}

/// Adds an entry whose key is new, and notes the key.
fn admit_one<T: Value>(
    below: &mut Entries<T>,
    key: u64,
    value: &T,
    added: &mut Items<u64>,
) -> Result<(), Memory>
    ensures back { without below.new added.new ≡ without below.old added.old }
    ensures elsewhere { (k : ℕ) → k ≢ key → map.get below.new k ≡ map.get below.old k }
    ensures stays { (k : ℕ) → map.get below.old k ≢ None → map.get below.new k ≢ None }
    ensures ok { OnOk result (map.get below.new key ≢ None) }
{
    if below.get(key).is_none() {
        added.push(key)?;
        below.insert(key, value.try_copy()?)?;
    }
    Ok(())
}

/// Adds each entry whose key is new, and notes the keys: those for which an allocation can fail.
pub(crate) fn admit<T: Value>(
    below: &mut Entries<T>,
    changes: &Entries<Option<T>>,
    added: &mut Items<u64>,
) -> Result<(), Memory>
    ensures back { without below.new added.new ≡ without below.old added.old }
    ensures elsewhere { AreElsewhereAlike changes.now below.old below.new }
    ensures ok { OnOk result (HasPlaces below.new changes.now) }
{
    for (key, change) in changes.iter() {
        if let Some(value) = change {
            admit_one(below, *key, value, added)?;
        }
    }
    Ok(())
}

/// Takes the entries of these keys out again.
pub(crate) fn withdraw<T: Drop>(below: &mut Entries<T>, added: &[u64])
    ensures { below.new ≡ without below.old added.now }
{
    for key in added {
        below.remove(*key);
    }
}

/// Replaces the value at a key, which takes no memory.
fn replace<T: Drop>(below: &mut Entries<T>, key: u64, value: T)
    requires { map.get below.old key ≢ None }
    ensures { below.new ≡ map.insert below.old key value }
{
    let _replaced = below.insert(key, value);
}

/// Makes the changes, each of which has its place.
pub(crate) fn settle<T: Drop>(below: &mut Entries<T>, changes: Entries<Option<T>>)
    requires { HasPlaces below.old changes }
    ensures { below.new ≡ laid below.old changes }
{
    for (key, change) in changes.into_iter() {
        match change {
            Some(value) => replace(below, key, value),
            None => {
                below.remove(key);
            }
        }
    }
}
