//! The limits of what a state holds and of a clock.

/// At most this many copies of one element are in a multiset or a priority queue.
pub const COPY_LIMIT: u64 = 4_294_967_295;

/// The index past the last item of a queue is at most this.
pub const INDEX_LIMIT: u64 = 4_611_686_018_427_387_904;

/// No transaction begins at this clock or above it, and no table opens above it.
pub const CLOCK_LIMIT: u64 = 4_611_686_018_427_387_904;

/// A transaction makes at most this many calls.
pub const CALL_LIMIT: usize = 4096;

/// Actors are numbered from 1 to this.
pub const ACTOR_LIMIT: u32 = 64;

/// Lists by actor have so many entries: an actor's number is its position, and the first is no actor's.
pub const SEATS: usize = ACTOR_LIMIT as usize + 1;
