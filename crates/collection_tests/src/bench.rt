//! A collection and the sequential model beside it, and the calls on them.
ghost use Rattle.std.specs.Prelude.{◌≡◌, [], IfOk};

use crate::changes::{changes_of, print_log, print_outcome};
use crate::memos::answer_remembered;
use crate::parts::{Footprint, tell_conflict};
use conflict::{Changes, LocSet};
use replay_log::{Base, Log};
use row_parts::{
    from_index, location_in, print_base, print_held, print_reply, script_of, split, state_of,
};
use seq_model::{Call, Memory, Op, Refusal, Reply, Request, State};
use shadow::Shadow;
use std::alloc::{AllocError, Global};
use text_formats::{EventLine, Script};

/// A collection, and the state of the sequential model after the same calls.
pub struct Bench {
    base: Base<u64>,
    state: State<u64>,
}

impl Drop for Bench {
    fn drop(self) {
        let Bench { base: _, state: _ } = self;
    }
}

impl Bench {
    /// Opens the script's first collection, a queue from the index that its clock says.
    pub fn open(alloc: Global, script: &Script) -> Result<Bench, Refusal> {
        let Some(collection) = script.collections.as_slice().first() else {
            return Err(Refusal::NoSuch);
        };
        let held = from_index(collection.held.try_copy(alloc)?, script.clock);
        let base = Base::open(alloc, collection.stripes, held)?;
        let state = state_of(alloc, script, script.clock)?;
        Ok(Bench { base, state })
    }

    /// Answers a row that speaks of this collection.
    pub fn answer(&mut self, text: &mut String, row: &str) -> Result<(), Refusal> {
        let (verb, others) = row.split_once(' ').unwrap_or((row, ""));
        match verb {
            "holds" => print_base(text, &self.base),
            "model" => {
                for held in self.state.held() {
                    print_held(text, held)?;
                }
                Ok(())
            }
            "copied" => self.copy(*text.allocator())?.make_and_hold(text, others),
            "beside" => {
                let mut copy = self.copy(*text.allocator())?;
                self.answer_beside(text, &mut copy, others)
            }
            "shadowed" => answer_shadowed(text, &self.base, others),
            "remembered" => answer_remembered(text, &self.base, others),
            "conflict" => answer_conflict(text, &self.base, others),
            "replay" => replay(text, &mut self.base, others),
            "reopened" => self.reopen(text, others),
            _ => self.make_all(text, row),
        }
    }

    // A call that a script only asks is looked at.
    fn make_all(&mut self, text: &mut String, calls: &str) -> Result<(), Refusal> {
        let script = script_of(*text.allocator(), calls)?;
        let mut first = true;
        for line in script.lines.as_slice() {
            if !first {
                text.push_str("; ")?;
            }
            first = false;
            let made = match line {
                EventLine::Ask(_, Request::Call(asked)) => look(text, &self.base, &asked.op),
                EventLine::Do(_, Request::Call(asked)) => self.make(text, asked),
                _ => Err(Refusal::NoSuch),
            };
            made?;
        }
        Ok(())
    }

    fn make(&mut self, text: &mut String, asked: &Call<u64>) -> Result<(), Refusal> {
        look(text, &self.base, &asked.op)?;
        let reply = call(*text.allocator(), &mut self.base, &asked.op)?;
        let wanted = self.state.apply(asked)?;
        if reply.same(&wanted) {
            return Ok(());
        }
        Ok(print_wanted(text, &wanted)?)
    }

    fn copy(&self, alloc: Global) -> Result<Bench, Memory> {
        let base = self.base.try_copy()?;
        let state = self.state.try_copy(alloc)?;
        Ok(Bench { base, state })
    }

    // While there is a copy, both are changed.
    fn answer_beside(
        &mut self,
        text: &mut String,
        copy: &mut Bench,
        calls: &str,
    ) -> Result<(), Refusal> {
        let (of_copy, own) = split(calls, " | ")?;
        copy.make_all(text, of_copy)?;
        text.push_str("; ")?;
        self.make_and_hold(text, own)?;
        text.push_str(", the copy ")?;
        print_base(text, &copy.base)
    }

    fn make_and_hold(&mut self, text: &mut String, calls: &str) -> Result<(), Refusal> {
        self.make_all(text, calls)?;
        text.push_str(", holds ")?;
        print_base(text, &self.base)
    }

    fn reopen(&mut self, text: &mut String, stripes: &str) -> Result<(), Refusal> {
        let stripes = location_in(stripes)?;
        let copy = self.base.try_copy()?;
        let held = copy.held();
        drop(copy);
        self.base = Base::open(*text.allocator(), stripes, held?)?;
        Ok(text.push_str("opened")?)
    }
}

fn print_wanted(text: &mut String, wanted: &Reply<u64>) -> Result<(), AllocError> {
    text.push_str(", but the model ")?;
    print_reply(text, wanted)
}

fn replay(text: &mut String, base: &mut Base<u64>, changes: &str) -> Result<(), Refusal> {
    let alloc = *text.allocator();
    let changes = changes_of(alloc, changes)?;
    base.prepare(changes.as_slice())?;
    let none = LocSet::empty(alloc);
    base.replay(changes, &none);
    Ok(text.push_str("done")?)
}

fn look(text: &mut String, base: &Base<u64>, op: &Op<u64>) -> Result<(), Refusal> {
    let outcome = base.outcome(op)?;
    Ok(print_outcome(text, base, &outcome)?)
}

fn log_of(alloc: Global, changes: Changes<u64>) -> Result<Log<u64>, Memory>
    ensures { IfOk result (λ log. log.locations ≡ []) }
{
    let none = LocSet::empty(alloc);
    let mut log = Log::new(alloc);
    log.reserve(changes.len())?;
    log.append(changes, &none);
    Ok(log)
}

// Makes the call, and folds its changes in at once by a log of their own, which raises no edition.
fn call(alloc: Global, base: &mut Base<u64>, op: &Op<u64>) -> Result<Reply<u64>, Refusal> {
    let outcome = base.outcome(op)?;
    let log = log_of(alloc, base.changes(&outcome)?)?;
    base.prepare(log.changes())?;
    log.fold_into(base);
    Ok(outcome.reply)
}

fn shadow_call(text: &mut String, shadow: &mut Shadow<u64>, op: &Op<u64>) -> Result<(), Refusal> {
    let outcome = shadow.answer(op)?;
    print_outcome(text, shadow.base(), &outcome)?;
    text.push_str("; ")?;
    shadow.ready(&outcome)?;
    shadow.accept(outcome);
    Ok(())
}

fn answer_shadowed(text: &mut String, base: &Base<u64>, calls: &str) -> Result<(), Refusal> {
    let alloc = *text.allocator();
    let script = script_of(alloc, calls)?;
    let mut shadow = Shadow::of_copy(alloc, base.try_copy()?);
    match shadow_all(text, &mut shadow, script.lines.as_slice()) {
        Ok(()) => Ok(print_log(text, shadow.log())?),
        Err(refusal) => {
            drop(shadow);
            Err(refusal)
        }
    }
}

fn shadow_all(
    text: &mut String,
    shadow: &mut Shadow<u64>,
    lines: &[EventLine],
) -> Result<(), Refusal> {
    for line in lines {
        match line {
            EventLine::Do(_, Request::Call(asked)) => shadow_call(text, shadow, &asked.op)?,
            _ => return Err(Refusal::NoSuch),
        }
    }
    Ok(())
}

fn footprint_of(base: &Base<u64>, op: &Op<u64>) -> Result<Footprint, Refusal> {
    let outcome = base.outcome(op)?;
    let reads = base.reads(&outcome)?;
    let writes = base.writes(&outcome)?;
    Ok(Footprint { reads, writes })
}

fn answer_conflict(text: &mut String, base: &Base<u64>, calls: &str) -> Result<(), Refusal> {
    let script = script_of(*text.allocator(), calls)?;
    match script.lines.as_slice() {
        [
            EventLine::Ask(_, Request::Call(one)),
            EventLine::Ask(_, Request::Call(other)),
        ] => {
            let one = footprint_of(base, &one.op)?;
            let other = footprint_of(base, &other.op)?;
            tell_conflict(text, &one, &other)
        }
        _ => Err(Refusal::NoSuch),
    }
}
