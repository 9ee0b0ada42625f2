//! Schedules, one after another, in the order of a search that goes deep first.
use crate::actors::Actors;
use crate::exploring::Schedules;
use seq_model::Memory;
use std::alloc::Global;

/// What is tried as one step of a schedule.
#[derive(Clone, Copy)]
pub(crate) struct Choice {
    /// The actor that takes the step, by the index of its program.
    pub chosen: usize,
    /// The actors that have a step.
    pub ready: Actors,
    /// Those whose step needs no try here, and those for which all schedules were run.
    pub asleep: Actors,
}

/// A schedule up to where its run was broken off or ended.
#[derive(Drop)]
pub(crate) struct Path {
    pub choices: Vec<Choice>,
    schedules: Schedules,
}

impl Path {
    pub(crate) fn new(alloc: Global, schedules: Schedules) -> Path {
        Path {
            choices: Vec::new(alloc),
            schedules,
        }
    }

    /// Whether actors may sleep.
    pub(crate) fn has_sleep(&self) -> bool {
        matches!(self.schedules, Schedules::Apart)
    }

    /// Changes the last choice that leaves something to try, and drops those after it. `false` where none does.
    pub(crate) fn turn(&mut self) -> Result<bool, Memory> {
        while let Some(choice) = self.choices.pop() {
            let mut choice = choice;
            choice.asleep.add(choice.chosen);
            if let Some(chosen) = choice.ready.first_without(&choice.asleep, choice.chosen) {
                choice.chosen = chosen;
                self.choices.push(choice)?;
                return Ok(true);
            }
        }
        Ok(false)
    }
}
