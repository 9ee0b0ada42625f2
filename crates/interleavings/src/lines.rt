//! The lines of a script that leads where a schedule does.
//!
//! A request stands right before its first step. Where no other actor takes a step before it is answered, its line is `A do REQUEST`; else
//! `A REQUEST`, and the steps are lines of their own, `A step K` or, up to the answer, `A go`.
use seq_model::{Memory, Request};
use std::alloc::Global;
use std::mem;
use text_formats::{EventLine, STEP_LIMIT};

/// Steps of an actor that no other's step has interrupted so far.
#[derive(Drop)]
struct Segment {
    actor: u32,
    /// The request that is asked before them, if one is.
    asked: Option<Request<u64>>,
    steps: u64,
}

/// The lines so far.
#[derive(Drop)]
pub(crate) struct Lines {
    lines: Vec<EventLine>,
    last: Option<Segment>,
}

impl Lines {
    pub(crate) fn new(alloc: Global) -> Lines {
        Lines {
            lines: Vec::new(alloc),
            last: None,
        }
    }

    /// Whether the next step of this actor continues the last steps.
    pub(crate) fn goes_on(&self, actor: u32) -> bool {
        match &self.last {
            Some(segment) => segment.actor == actor && segment.steps < STEP_LIMIT,
            None => false,
        }
    }

    /// A request that is answered at once, while no steps are under way.
    pub(crate) fn answered_at_once(
        &mut self,
        actor: u32,
        request: Request<u64>,
    ) -> Result<(), Memory> {
        self.lines.push(EventLine::Do(actor, request))?;
        Ok(())
    }

    /// Steps of this actor follow, after this request if there is one.
    pub(crate) fn begin(&mut self, actor: u32, asked: Option<Request<u64>>) {
        self.last = Some(Segment {
            actor,
            asked,
            steps: 0,
        });
    }

    /// A step.
    pub(crate) fn step(&mut self) {
        if let Some(segment) = &mut self.last {
            segment.steps = segment.steps.saturating_add(1);
        }
    }

    /// The last step answered the request.
    pub(crate) fn answer(&mut self) -> Result<(), Memory> {
        if let Some(segment) = mem::replace(&mut self.last, None) {
            let Segment {
                actor,
                asked,
                steps: _,
            } = segment;
            self.lines.push(match asked {
                Some(request) => EventLine::Do(actor, request),
                None => EventLine::Steps(actor, STEP_LIMIT),
            })?;
        }
        Ok(())
    }

    /// No step follows that continues the last ones.
    pub(crate) fn interrupt(&mut self) -> Result<(), Memory> {
        if let Some(segment) = mem::replace(&mut self.last, None) {
            let Segment {
                actor,
                asked,
                steps,
            } = segment;
            if let Some(request) = asked {
                self.lines.push(EventLine::Ask(actor, request))?;
            }
            if steps > 0 {
                self.lines.push(EventLine::Steps(actor, steps))?;
            }
        }
        Ok(())
    }

    pub(crate) fn into_lines(self) -> Vec<EventLine> {
        let Lines { lines, last: _ } = self;
        lines
    }
}
