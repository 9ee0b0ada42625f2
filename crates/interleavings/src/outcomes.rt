//! The outcomes that were found.
ghost use Rattle.std.specs.Prelude.{◌≡◌, ◌<◌, ◌≤◌, ◌+◌, ◌^◌, [], All, IfErr, IfOk, IfSome, OnOk, length};
ghost use Rattle.text_formats.specs.declared.script.Script.{Script as Spelled};
ghost use Rattle.interleavings.specs.Explorations.{HasHeaderOf, IsCounted, IsOutcomeOf};
ghost use Rattle.interleavings.specs.Faults.{IsScriptFault};

use crate::keys::key_of;
use crate::order::{Order, RunStep};
use crate::programs::Program;
use crate::running::lines_along;
use crate::shortest::shortest_schedule;
use crate::walk::Run;
use seq_model::{Items, Memory};
use session_text::{RunFault, ScriptRun, audit_run, print_trace, run_script};
use std::alloc::Global;
use text_formats::{Collection, EventLine, Script};

/// An outcome.
pub struct Outcome {
    /// The shortest script that leads to it, of the runs that have and those that are alike.
    pub script: Script,
    /// The run of this script.
    pub run: ScriptRun,
    /// What distinguishes it from others: what the run prints, with the answers of each actor together.
    pub key: Vec<u8>,
    /// How many of the runs have led to it.
    pub count: u64,
}

impl Drop for Outcome {
    fn drop(self) {
        let Outcome {
            script: _,
            run: _,
            key: _,
            count: _,
        } = self;
    }
}

/// What was found.
pub struct Exploration {
    /// The outcomes, as they were found.
    pub outcomes: Vec<Outcome>,
    /// How many runs came to their end.
    pub interleavings: u64,
    /// Whether no run was left to make.
    pub is_complete: bool,
}

impl Drop for Exploration {
    fn drop(self) {
        let Exploration {
            outcomes: _,
            interleavings: _,
            is_complete: _,
        } = self;
    }
}

impl Exploration {
    pub(crate) fn new(alloc: Global) -> Exploration
        ensures outcomes { result.outcomes.items ≡ [] }
        ensures runs { result.interleavings ≡ 0 }
    {
        Exploration {
            outcomes: Vec::new(alloc),
            interleavings: 0,
            is_complete: false,
        }
    }

    /// One more run resulted in this outcome.
    fn add(&mut self, found: Outcome) -> Result<(), Memory>
        requires { found.count ≡ 1 }
        ensures runs { OnOk result (self.new.interleavings ≤ self.old.interleavings + 1) }
        ensures counted { OnOk result (IsCounted self.old → self.old.interleavings + 1 < 2 ^ 64 → IsCounted self.new) }
        ensures outcomes { OnOk result ((script : Spelled) → All (IsOutcomeOf script) self.old.outcomes.items → IsOutcomeOf script found
            → All (IsOutcomeOf script) self.new.outcomes.items) }
    {
        self.interleavings = self.interleavings.saturating_add(1);
        match self.index_of(found.key.as_slice()) {
            Some(index) => self.outcomes[index].join(found),
            None => self.outcomes.push(found)?,
        }
        Ok(())
    }

    /// One more run, or none where it was broken off.
    pub(crate) fn count(
        &mut self,
        alloc: Global,
        header: &Script,
        programs: &[Program],
        made: Option<Run>,
    ) -> Result<(), RunFault>
        ensures runs { OnOk result (self.new.interleavings ≤ self.old.interleavings + 1) }
        ensures counted { OnOk result (IsCounted self.old → self.old.interleavings + 1 < 2 ^ 64 → IsCounted self.new) }
        ensures outcomes { OnOk result (All (IsOutcomeOf header.now) self.old.outcomes.items
            → All (IsOutcomeOf header.now) self.new.outcomes.items) }
        ensures refused { IfErr result (IsScriptFault header.now) }
    {
        let Some(made) = made else {
            return Ok(());
        };
        let Run { lines, steps } = made;
        let outcome = outcome_of(alloc, header, programs, lines)?;
        let limit = self.fewest_step_lines(&outcome);
        let shortest = shortened(alloc, header, programs, outcome, steps.as_slice(), limit)?;
        self.add(shortest)?;
        Ok(())
    }

    /// The fewest lines of steps of a script that has led to this outcome, this run's among them.
    fn fewest_step_lines(&self, found: &Outcome) -> usize {
        let own = found.step_lines();
        match self.index_of(found.key.as_slice()) {
            Some(index) => own.min(self.outcomes[index].step_lines()),
            None => own,
        }
    }

    /// The index of the outcome that this distinguishes.
    pub fn index_of(&self, key: &[u8]) -> Option<usize>
        ensures { IfSome result (λ index. index < length self.now.outcomes.items) }
    {
        self.outcomes
            .iter()
            .position(|outcome| outcome.key.as_slice() == key)
    }
}

impl Outcome {
    /// The same outcome once more. The shorter script is kept.
    fn join(&mut self, other: Outcome)
        ensures count { self.old.count + other.count < 2 ^ 64 → self.new.count ≡ self.old.count + other.count }
        ensures outcome { (script : Spelled) → IsOutcomeOf script self.old → IsOutcomeOf script other → IsOutcomeOf script self.new }
    {
        let Outcome {
            script,
            run,
            key: _,
            count,
        } = other;
        self.count = self.count.saturating_add(count);
        if script.lines.len() < self.script.lines.len() {
            self.script = script;
            self.run = run;
        }
    }

    /// Whether it is the same outcome, of a shorter script.
    fn is_shorter(&self, other: &Outcome) -> bool {
        self.key.as_slice() == other.key.as_slice()
            && self.script.lines.len() < other.script.lines.len()
    }

    /// How many lines of its script are steps alone.
    fn step_lines(&self) -> usize {
        let lines = self.script.lines.as_slice();
        lines.iter().filter(|line| is_of_steps(*line)).count()
    }
}

fn is_of_steps(line: &EventLine) -> bool {
    matches!(line, EventLine::Steps(_, _))
}

/// The outcome of a run of these steps, with the shortest script of all runs that are alike where that has fewer lines of steps than this.
fn shortened(
    alloc: Global,
    header: &Script,
    programs: &[Program],
    outcome: Outcome,
    steps: &[RunStep],
    limit: usize,
) -> Result<Outcome, RunFault>
    requires outcome { IsOutcomeOf header.now outcome }
    requires one { outcome.count ≡ 1 }
    ensures outcome { IfOk result (IsOutcomeOf header.now) }
    ensures one { IfOk result (λ shortest. shortest.count ≡ 1) }
    ensures refused { IfErr result (IsScriptFault header.now) }
{
    if limit == 0 {
        return Ok(outcome);
    }
    let order = Order::new(alloc, steps)?;
    let Some(schedule) = shortest_schedule(alloc, &order, limit)? else {
        return Ok(outcome);
    };
    let lines = lines_along(alloc, header, programs, schedule.as_slice())?;
    let other = outcome_of(alloc, header, programs, lines)?;
    if other.is_shorter(&outcome) {
        Ok(other)
    } else {
        Ok(outcome)
    }
}

/// The outcome of the script of this header and these lines, whose run is audited.
fn outcome_of(
    alloc: Global,
    header: &Script,
    programs: &[Program],
    lines: Vec<EventLine>,
) -> Result<Outcome, RunFault>
    ensures outcome { IfOk result (IsOutcomeOf header.now) }
    ensures one { IfOk result (λ outcome. outcome.count ≡ 1) }
    ensures refused { IfErr result (IsScriptFault header.now) }
{
    let script = with_lines(alloc, header, lines)?;
    let run = run_script(alloc, &script)?;
    audit_run(alloc, &run)?;
    let printed = print_trace(alloc, &run)?;
    let key = key_of(alloc, programs, printed.as_slice())?;
    Ok(Outcome {
        script,
        run,
        key,
        count: 1,
    })
}

/// The script of this header and these lines.
fn with_lines(alloc: Global, header: &Script, lines: Vec<EventLine>) -> Result<Script, Memory>
    ensures header { IfOk result (HasHeaderOf header.now) }
    ensures lines { IfOk result (λ script. script.lines ≡ lines.items) }
{
    let collections = copy_of_collections(alloc, header.collections.as_slice())?;
    Ok(Script {
        words: header.words.try_copy()?,
        clock: header.clock,
        collections,
        lines: Items::from_vec(lines),
    })
}

fn copy_of_collections(
    alloc: Global,
    collections: &[Collection],
) -> Result<Items<Collection>, Memory>
    ensures { IfOk result (λ copy. copy ≡ collections.now) }
{
    let mut copy = Vec::with_capacity(alloc, collections.len())?;
    for collection in collections {
        let stripes = collection.stripes;
        let held = collection.held.try_copy(alloc)?;
        copy.push(Collection { stripes, held })?;
    }
    Ok(Items::from_vec(copy))
}
