//! Which steps of a run have to keep their order.
use crate::actors::ACTOR_LIMIT;
use crate::touches::are_apart;
use seq_model::Memory;
use session_text::Deed;
use std::alloc::Global;

/// A step of a run.
#[derive(Clone, Copy)]
pub(crate) struct RunStep {
    /// The actor that takes it, by the index of its program.
    pub actor: usize,
    pub deed: Deed,
    /// Whether it has answered the actor's request.
    pub answers: bool,
}

/// A number of steps of each actor.
#[derive(Clone, Copy)]
pub(crate) struct StepCounts {
    counts: [usize; ACTOR_LIMIT],
}

impl StepCounts {
    pub(crate) fn none() -> StepCounts {
        StepCounts {
            counts: [0; ACTOR_LIMIT],
        }
    }

    pub(crate) fn of(&self, actor: usize) -> usize {
        self.counts.get(actor).copied().unwrap_or(0)
    }

    pub(crate) fn set(&mut self, actor: usize, count: usize) {
        if actor < ACTOR_LIMIT {
            self.counts[actor] = count;
        }
    }

    pub(crate) fn add(&mut self, actor: usize) {
        let count = self.of(actor).saturating_add(1);
        self.set(actor, count);
    }

    /// Whether no actor has fewer than in the other.
    pub(crate) fn covers(&self, other: &StepCounts) -> bool {
        for actor in 0..ACTOR_LIMIT {
            if self.of(actor) < other.of(actor) {
                return false;
            }
        }
        true
    }
}

/// A step, and what comes before it.
#[derive(Clone, Copy)]
pub(crate) struct OrderedStep {
    /// So many steps of each actor.
    pub after: StepCounts,
    pub answers: bool,
}

/// The steps of a run by actor. In all runs that are alike, the same steps that aren't apart come before each of them.
#[derive(Drop)]
pub(crate) struct Order {
    lanes: Vec<Vec<OrderedStep>>,
}

impl Order {
    pub(crate) fn new(alloc: Global, steps: &[RunStep]) -> Result<Order, Memory> {
        let mut lanes: Vec<Vec<OrderedStep>> = Vec::with_capacity(alloc, ACTOR_LIMIT)?;
        for _actor in 0..ACTOR_LIMIT {
            lanes.push(Vec::new(alloc))?;
        }
        for index in 0..steps.len() {
            let step = steps[index];
            let after = counts_before(&steps[..index], &step);
            if step.actor < lanes.len() {
                lanes[step.actor].push(OrderedStep {
                    after,
                    answers: step.answers,
                })?;
            }
        }
        Ok(Order { lanes })
    }

    /// The actor's step of this index.
    pub(crate) fn step(&self, actor: usize, index: usize) -> Option<OrderedStep> {
        match self.lanes.get(actor) {
            Some(lane) => lane.get(index).copied(),
            None => None,
        }
    }
}

/// How many of the earlier steps of each actor have to come before this one.
fn counts_before(earlier: &[RunStep], step: &RunStep) -> StepCounts {
    let mut taken = StepCounts::none();
    let mut before = StepCounts::none();
    for other in earlier {
        taken.add(other.actor);
        if other.actor == step.actor || !are_apart(other.deed, step.deed) {
            before.set(other.actor, taken.of(other.actor));
        }
    }
    before
}
