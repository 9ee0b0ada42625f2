//! What is moved in a waiting queue, before it is.
ghost use Rattle.std.specs.Prelude.{◌≡◌, ◌++◌, ◌∷◌, [], ◌<◌, OnOk};
ghost use Rattle.seq_model.specs.Queues.{first_of};
ghost use Rattle.vac_model.specs.Actions.{without_first};
ghost use Rattle.vac_model.specs.declared.queue.Queue.{Queue as Line};
ghost use Rattle.vac_model.specs.Overlays.{moved, no_moves};

use crate::limits::TICKET_LIMIT;
use crate::queue::Queue;
use seq_model::{Memory, QueueItems};
use std::alloc::Global;

/// The tickets that are taken off the front of a queue, and those that are given out at its end.
#[derive(Drop)]
pub(crate) struct Moves {
    /// How often a ticket is taken off.
    pub(crate) off: u64,
    /// How many of them are the queue's own, and not given out before.
    pub(crate) taken: usize,
    pub(crate) given: QueueItems,
}

impl Moves {
    pub(crate) fn none(alloc: Global) -> Moves
        ensures { result ≡ no_moves }
    {
        Moves {
            off: 0,
            taken: 0,
            given: QueueItems::new(alloc),
        }
    }

    /// The first ticket of the queue with the moves made.
    pub(crate) fn first(&self, line: &Queue) -> Option<u64>
        ensures { result ≡ first_of (moved line.now self.now).tickets }
    {
        if self.taken < line.tickets.len() {
            line.tickets.get(self.taken)
        } else {
            self.given.first()
        }
    }

    /// Takes the first ticket off.
    pub(crate) fn take_off(&mut self, line: &Queue)
        requires { (moved line.now self.old).head < TICKET_LIMIT }
        ensures { moved line.now self.new ≡ without_first (moved line.now self.old) }
    {
        self.off += 1;
        if self.taken < line.tickets.len() {
            self.taken += 1;
        } else {
            self.given.take_first();
        }
    }

    /// Puts a ticket at the end.
    pub(crate) fn give(&mut self, number: u64) -> Result<(), Memory>
        ensures { OnOk result ((line : Line) →
            moved line self.new ≡ record (moved line self.old) { tickets = (moved line self.old).tickets ++ number ∷ [] }) }
    {
        self.given.push(number)?;
        Ok(())
    }
}
