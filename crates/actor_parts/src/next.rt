//! What an actor's next step does.
ghost use Rattle.std.specs.Prelude.{◌≡◌, drop};
ghost use Rattle.actor_parts.specs.Dispatch.{first, next_home, next_load, next_put, next_try};

use std::collections::VecDeque;

/// What an actor's next step does.
#[derive(Clone, Copy)]
pub enum Next {
    /// There is no step to take.
    Nothing,
    /// The next step of its word actor.
    Word,
    /// A try on the gate of this collection.
    TryGate(u32),
    /// The gate of this collection is held: what a call touches is copied, and the gate put back.
    Copy(u32),
    /// The first value store, which commits.
    FirstStore,
    /// The base of this collection is put back with its changes, and so is its gate.
    GoHome(u32),
    /// The gate of this collection is put back, its base unchanged.
    PutGate(u32),
}

/// The one at this position, where there is one.
pub fn at_place(homes: &VecDeque<u32>, i: usize) -> Option<u32>
    ensures { result ≡ first (drop i homes.now.items) }
{
    if i < homes.len() {
        Some(homes[i])
    } else {
        None
    }
}

/// A try on the gate of this collection, where there is one.
pub fn next_try(k: Option<u32>) -> Next
    ensures { result ≡ next_try k }
{
    match k {
        Some(k) => Next::TryGate(k),
        None => Next::Nothing,
    }
}

/// The base of this collection is put back, where there is one.
pub fn next_home(k: Option<u32>) -> Next
    ensures { result ≡ next_home k }
{
    match k {
        Some(k) => Next::GoHome(k),
        None => Next::Nothing,
    }
}

/// The gate of this collection is put back, where there is one.
pub fn next_put(k: Option<u32>) -> Next
    ensures { result ≡ next_put k }
{
    match k {
        Some(k) => Next::PutGate(k),
        None => Next::Nothing,
    }
}

/// The load of a call's next location, where there is one.
pub fn next_load(left: &VecDeque<(u32, u64)>) -> Next
    ensures { result ≡ next_load left.now.items }
{
    if left.is_empty() {
        Next::Nothing
    } else {
        Next::Word
    }
}
