//! How far the programs have come in a run, and the lines of a script that leads there.
use crate::lines::Lines;
use crate::programs::Program;
use seq_model::{Memory, Request};
use std::alloc::Global;
use text_formats::EventLine;

/// How far an actor has come in its program.
#[derive(Clone, Copy)]
struct Standing {
    /// The first request that has no line yet.
    unwritten: usize,
    /// The first request that was not asked.
    next: usize,
}

/// How far all have come. An actor is named by the index of its program; one that has none asks nothing.
#[derive(Drop)]
pub(crate) struct Course<'a> {
    programs: &'a [Program],
    standings: Vec<Standing>,
    lines: Lines,
}

impl<'a> Course<'a> {
    pub(crate) fn new(alloc: Global, programs: &'a [Program]) -> Result<Course<'a>, Memory> {
        let mut standings = Vec::with_capacity(alloc, programs.len())?;
        for _program in programs {
            standings.push(Standing {
                unwritten: 0,
                next: 0,
            })?;
        }
        Ok(Course {
            programs,
            standings,
            lines: Lines::new(alloc),
        })
    }

    pub(crate) fn actor_count(&self) -> usize {
        self.programs.len()
    }

    /// The number of the actor; 0 where there is none.
    pub(crate) fn actor(&self, index: usize) -> u32 {
        match self.programs.get(index) {
            Some(program) => program.actor,
            None => 0,
        }
    }

    /// The next request of the actor, which is asked now; none at the end of its program.
    pub(crate) fn next_request(&mut self, index: usize) -> Result<Option<Request<u64>>, Memory> {
        let Standing { unwritten, next } = self.standing(index);
        let Some(request) = self.request(index, next)? else {
            return Ok(None);
        };
        let next = next.saturating_add(1);
        self.stand(index, Standing { unwritten, next });
        Ok(Some(request))
    }

    /// The actor takes a step.
    pub(crate) fn step(&mut self, index: usize) -> Result<(), Memory> {
        let actor = self.actor(index);
        if !self.lines.goes_on(actor) {
            self.lines.interrupt()?;
            let asked = self.write_asked(index)?;
            self.lines.begin(actor, asked);
        }
        self.lines.step();
        Ok(())
    }

    /// The last step answered the request of its actor.
    pub(crate) fn answer(&mut self) -> Result<(), Memory> {
        self.lines.answer()
    }

    /// The last step refused the request of this actor, and so ended the transaction: the actor continues with its next one.
    pub(crate) fn refuse(&mut self, index: usize) -> Result<(), Memory> {
        self.lines.answer()?;
        let next = match self.programs.get(index) {
            Some(program) => program.next_begin(self.standing(index).next),
            None => 0,
        };
        self.stand_at(index, next);
        Ok(())
    }

    /// The lines of a script that has led here, with the requests that no step follows.
    pub(crate) fn into_lines(self) -> Result<Vec<EventLine>, Memory> {
        let mut course = self;
        course.lines.interrupt()?;
        for index in 0..course.programs.len() {
            let end = course.standing(index).next;
            course.write_up_to(index, end)?;
        }
        Ok(course.lines.into_lines())
    }

    fn standing(&self, index: usize) -> Standing {
        match self.standings.get(index) {
            Some(standing) => *standing,
            None => Standing {
                unwritten: 0,
                next: 0,
            },
        }
    }

    fn stand(&mut self, index: usize, standing: Standing) {
        if index < self.standings.len() {
            self.standings[index] = standing;
        }
    }

    /// All requests before this one are written.
    fn stand_at(&mut self, index: usize, next: usize) {
        let unwritten = next;
        self.stand(index, Standing { unwritten, next });
    }

    fn request(&self, index: usize, at: usize) -> Result<Option<Request<u64>>, Memory> {
        let Some(program) = self.programs.get(index) else {
            return Ok(None);
        };
        match program.requests.get(at) {
            Some(request) => Ok(Some(request.try_copy()?)),
            None => Ok(None),
        }
    }

    /// Writes the requests that were asked since the actor's last step, but for the last of them: the steps that follow are its.
    fn write_asked(&mut self, index: usize) -> Result<Option<Request<u64>>, Memory> {
        let Standing { unwritten, next } = self.standing(index);
        if unwritten >= next {
            return Ok(None);
        }
        let last = next - 1;
        self.write_up_to(index, last)?;
        self.stand_at(index, next);
        self.request(index, last)
    }

    fn write_up_to(&mut self, index: usize, end: usize) -> Result<(), Memory> {
        let actor = self.actor(index);
        for at in self.standing(index).unwritten..end {
            if let Some(request) = self.request(index, at)? {
                self.lines.answered_at_once(actor, request)?;
            }
        }
        Ok(())
    }
}
