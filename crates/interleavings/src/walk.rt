//! One run of a script's programs, step by step as a schedule says.
ghost use Rattle.std.specs.Prelude.{IfErr, IfOk, OnOk};
ghost use Rattle.step_world.specs.Parts.{HasWorld};
ghost use Rattle.session_text.specs.Scripts.{IsRefusedScript};

use crate::actors::Actors;
use crate::course::Course;
use crate::opening::{feed, open};
use crate::order::RunStep;
use crate::programs::Program;
use crate::touches::{are_apart, is_waiting};
use seq_model::{Event, Memory, Notice, Refusal};
use session_text::{Deed, deed_of};
use std::alloc::Global;
use step_world::Parts;
use text_formats::{EventLine, Script};

/// An actor makes at most so many tries of a gate one after another.
const TRIES: u64 = 64;

/// A run that was made.
#[derive(Drop)]
pub(crate) struct Run {
    /// The lines of a script that leads where it does.
    pub lines: Vec<EventLine>,
    pub steps: Vec<RunStep>,
}

/// A run under way.
pub(crate) struct Walk<'a> {
    parts: Parts<u64>,
    course: Course<'a>,
    steps: Vec<RunStep>,
}

impl<'a> Drop for Walk<'a> {
    fn drop(self) {
        let Walk {
            parts: _,
            course: _,
            steps: _,
        } = self;
    }
}

impl<'a> Walk<'a> {
    /// The world of the script's header, in which each actor has asked up to its first request that takes a step.
    pub(crate) fn open(
        alloc: Global,
        script: &Script,
        programs: &'a [Program],
    ) -> Result<Walk<'a>, Refusal>
        ensures world { IfOk result (λ walk. HasWorld walk.parts) }
        ensures refused { IfErr result (IsRefusedScript script.now) }
    {
        let parts = open(alloc, script)?;
        let course = Course::new(alloc, programs)?;
        let steps = Vec::new(alloc);
        let mut walk = Walk {
            parts,
            course,
            steps,
        };
        walk.ask_all()?;
        Ok(walk)
    }

    fn ask_all(&mut self) -> Result<(), Memory>
        requires { HasWorld self.old.parts }
        ensures { OnOk result (HasWorld self.new.parts) }
    {
        for index in 0..self.course.actor_count() {
            self.ask(index)?;
        }
        Ok(())
    }

    /// The actors that have a step to take.
    pub(crate) fn ready(&self) -> Actors {
        let mut ready = Actors::none();
        for index in 0..self.course.actor_count() {
            if !matches!(self.deed(index), Deed::Nothing) {
                ready.add(index);
            }
        }
        ready
    }

    /// Those of these actors whose next step is apart from that of the actor at this index.
    pub(crate) fn apart_from(&self, index: usize, actors: &Actors) -> Actors {
        let deed = self.deed(index);
        let mut apart = Actors::none();
        for other in 0..self.course.actor_count() {
            if other != index && actors.has(other) && are_apart(deed, self.deed(other)) {
                apart.add(other);
            }
        }
        apart
    }

    /// What the next step of the actor at this index is going to do.
    fn deed(&self, index: usize) -> Deed {
        deed_of(&self.parts, self.course.actor(index))
    }

    /// The next step of the actor at this index; all its tries of a gate that another holds.
    pub(crate) fn take(&mut self, index: usize) -> Result<(), Memory>
        requires { HasWorld self.old.parts }
        ensures { OnOk result (HasWorld self.new.parts) }
    {
        let deed = self.deed(index);
        let answers = if is_waiting(deed) {
            self.make_tries(index)?
        } else {
            self.step(index)?
        };
        self.steps.push(RunStep {
            actor: index,
            deed,
            answers,
        })?;
        Ok(())
    }

    /// All tries of a gate that another holds. Whether the last has answered the request.
    fn make_tries(&mut self, index: usize) -> Result<bool, Memory>
        requires { HasWorld self.old.parts }
        ensures { OnOk result (HasWorld self.new.parts) }
    {
        for _try in 0..TRIES {
            if self.step(index)? {
                return Ok(true);
            }
        }
        Ok(false)
    }

    /// Whether the step has answered the request.
    fn step(&mut self, index: usize) -> Result<bool, Memory>
        requires { HasWorld self.old.parts }
        ensures { OnOk result (HasWorld self.new.parts) }
    {
        self.course.step(index)?;
        let actor = self.course.actor(index);
        match feed(&mut self.parts, Event::Step(actor))? {
            Notice::Quiet => return Ok(false),
            Notice::Refused(_, refusal) if ends_transaction(&refusal) => {
                self.course.refuse(index)?;
            }
            Notice::Answered(_, _) | Notice::Refused(_, _) => self.course.answer()?,
        }
        self.ask(index)?;
        Ok(true)
    }

    /// The actor at this index asks its next requests, up to the first that takes a step.
    fn ask(&mut self, index: usize) -> Result<(), Memory>
        requires { HasWorld self.old.parts }
        ensures { OnOk result (HasWorld self.new.parts) }
    {
        let actor = self.course.actor(index);
        for _asked in 0..u64::MAX {
            let Some(request) = self.course.next_request(index)? else {
                return Ok(());
            };
            if let Notice::Quiet = feed(&mut self.parts, Event::Ask(actor, request))? {
                return Ok(());
            }
        }
        Ok(())
    }

    /// The run up to here.
    pub(crate) fn into_run(self) -> Result<Run, Memory> {
        let Walk {
            parts: _,
            course,
            steps,
        } = self;
        let lines = course.into_lines()?;
        Ok(Run { lines, steps })
    }
}

/// Whether no transaction is open once a step has refused a request so.
fn ends_transaction(refusal: &Refusal) -> bool {
    !matches!(refusal, Refusal::TooLong | Refusal::NoSuch)
}
