//! What a script says.

use seq_model::{Held, Items, Request};

/// At most this many steps are the work of one line.
pub const STEP_LIMIT: u64 = 1_000_000;

/// A collection of a script's header.
pub struct Collection {
    pub stripes: u32,
    pub held: Held<u64>,
}

impl Drop for Collection {
    fn drop(self) {
        let Collection {
            stripes: _,
            held: _,
        } = self;
    }
}

/// A line of a script's events.
#[derive(Drop)]
pub enum EventLine {
    /// One request, and no step.
    Ask(u32, Request<u64>),
    /// A request, and steps of its actor until it is answered.
    Do(u32, Request<u64>),
    /// At most so many steps of an actor, up to the first that answers something.
    Steps(u32, u64),
    Starve(u32),
    /// Steps of two actors in turn, until neither has an unanswered request.
    Alternate(u32, u32),
}

/// A step script: what its world opens with, and what happens in it.
pub struct Script {
    pub words: Items<u64>,
    pub clock: u64,
    pub collections: Items<Collection>,
    pub lines: Items<EventLine>,
}

impl Drop for Script {
    fn drop(self) {
        let Script {
            words: _,
            clock: _,
            collections: _,
            lines: _,
        } = self;
    }
}
