//! The shortest script among those of runs that are alike: that differ only by the order of steps that are apart.
//!
//! Their scripts have the same requests. What makes one longer than another are its lines of steps alone: a request that another's step
//! interrupts has one for each of its parts. So the search is for the schedule with the fewest such lines, by two rules:
//!
//! - An actor that can be answered without a step of another takes these steps first: so they interrupt no request, and nothing
//!   interrupts them.
//! - Where none can, some request has to be interrupted. Then one actor takes all steps that it can before a step of another: were some of
//!   them taken later, its request would have as many parts, or more.
//!
//! So only which actor that is has to be searched for. Beginnings of schedules are continued in the order of their lines of steps, so the
//! first that is whole has the fewest. At most [`BEGINNING_LIMIT`] of them are continued; where none of these is whole, the script is that
//! of the run.
use crate::actors::ACTOR_LIMIT;
use crate::order::{Order, StepCounts};
use seq_model::Memory;
use std::alloc::Global;

/// At most so many beginnings of schedules are continued.
const BEGINNING_LIMIT: usize = 1_000;

/// The beginning of a schedule, after which no actor can be answered without a step of another.
#[derive(Drop)]
struct Beginning {
    /// The actor that takes each step.
    schedule: Vec<usize>,
    /// How many steps each actor takes.
    taken: StepCounts,
    /// How many lines of steps alone its script has, with those that the requests it interrupts are still to have.
    step_lines: usize,
}

/// The schedule of the fewest lines of steps among those that keep this order, where these are fewer than so many.
pub(crate) fn shortest_schedule(
    alloc: Global,
    order: &Order,
    limit: usize,
) -> Result<Option<Vec<usize>>, Memory> {
    let mut beginnings = Vec::new(alloc);
    beginnings.push(Beginning::new(alloc, order)?)?;
    for step_lines in 0..limit {
        for index in 0..BEGINNING_LIMIT {
            if index >= beginnings.len() {
                break;
            }
            if beginnings[index].step_lines == step_lines {
                if beginnings[index].is_whole(order) {
                    let schedule = Vec::from_slice(alloc, beginnings[index].schedule.as_slice())?;
                    return Ok(Some(schedule));
                }
                extend(alloc, order, &mut beginnings, index)?;
            }
        }
    }
    Ok(None)
}

/// Adds the beginnings that continue the one of this index.
fn extend(
    alloc: Global,
    order: &Order,
    beginnings: &mut Vec<Beginning>,
    index: usize,
) -> Result<(), Memory> {
    for actor in 0..ACTOR_LIMIT {
        if let Some(longer) = continued(alloc, order, beginnings.as_slice(), index, actor)? {
            beginnings.push(longer)?;
        }
    }
    Ok(())
}

/// The beginning of this index, continued by steps of this actor; none where it has no step to take.
fn continued(
    alloc: Global,
    order: &Order,
    beginnings: &[Beginning],
    index: usize,
    actor: usize,
) -> Result<Option<Beginning>, Memory> {
    let Some(beginning) = beginnings.get(index) else {
        return Ok(None);
    };
    let mut longer = beginning.try_copy(alloc)?;
    if !longer.interrupt(order, actor)? {
        return Ok(None);
    }
    longer.answer_all(order)?;
    Ok(Some(longer))
}

impl Beginning {
    fn new(alloc: Global, order: &Order) -> Result<Beginning, Memory> {
        let mut beginning = Beginning {
            schedule: Vec::new(alloc),
            taken: StepCounts::none(),
            step_lines: 0,
        };
        beginning.answer_all(order)?;
        Ok(beginning)
    }

    fn try_copy(&self, alloc: Global) -> Result<Beginning, Memory> {
        Ok(Beginning {
            schedule: Vec::from_slice(alloc, self.schedule.as_slice())?,
            taken: self.taken,
            step_lines: self.step_lines,
        })
    }

    /// Whether no actor has a step left.
    fn is_whole(&self, order: &Order) -> bool {
        for actor in 0..ACTOR_LIMIT {
            if order.step(actor, self.taken.of(actor)).is_some() {
                return false;
            }
        }
        true
    }

    /// The actors take all steps by which one of them is answered without a step of another.
    fn answer_all(&mut self, order: &Order) -> Result<(), Memory> {
        for _round in 0..u64::MAX {
            let before = self.schedule.len();
            for actor in 0..ACTOR_LIMIT {
                self.answer(order, actor)?;
            }
            if self.schedule.len() == before {
                return Ok(());
            }
        }
        Ok(())
    }

    /// The same of one actor.
    fn answer(&mut self, order: &Order, actor: usize) -> Result<(), Memory> {
        for _request in 0..u64::MAX {
            let (end, is_answered) = self.reach(order, actor);
            if !is_answered {
                return Ok(());
            }
            self.take(actor, end)?;
        }
        Ok(())
    }

    /// The actor takes as many steps as it can before one of another. `false` where it has none.
    fn interrupt(&mut self, order: &Order, actor: usize) -> Result<bool, Memory> {
        let start = self.taken.of(actor);
        let (end, _) = self.reach(order, actor);
        if end == start {
            return Ok(false);
        }
        let more = if is_first(order, actor, start) { 2 } else { 1 };
        self.step_lines = self.step_lines.saturating_add(more);
        self.take(actor, end)?;
        Ok(true)
    }

    /// How many steps the actor has taken once it is answered, or has to wait for a step of another; and whether it is answered.
    fn reach(&self, order: &Order, actor: usize) -> (usize, bool) {
        let mut taken = self.taken;
        for _step in 0..u64::MAX {
            let count = taken.of(actor);
            match order.step(actor, count) {
                Some(step) if taken.covers(&step.after) => {
                    taken.add(actor);
                    if step.answers {
                        return (taken.of(actor), true);
                    }
                }
                _ => return (count, false),
            }
        }
        (self.taken.of(actor), false)
    }

    /// The actor takes its steps up to this count.
    fn take(&mut self, actor: usize, end: usize) -> Result<(), Memory> {
        for _step in self.taken.of(actor)..end {
            self.schedule.push(actor)?;
        }
        self.taken.set(actor, end);
        Ok(())
    }
}

/// Whether the actor's step of this index is the first of a request.
fn is_first(order: &Order, actor: usize, index: usize) -> bool {
    index == 0 || matches!(order.step(actor, index - 1), Some(step) if step.answers)
}
