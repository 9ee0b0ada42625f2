//! A whole run of events.
ghost use Rattle.std.specs.Prelude.{◌↔◌, IfErr, IfOk, IsTrue};
ghost use Rattle.conflict.specs.Refusals.{IsStripeCount};
ghost use Rattle.seq_model.specs.Refusals.{IsTooLong};
ghost use Rattle.vac_model.specs.Balanced.{IsBalanced};
ghost use Rattle.vacation_core.specs.PlayOpenings.{unplayed_on};
ghost use Rattle.vacation_core.specs.Plays.{AreAllowed, MayHappen, Play, played_all};
ghost use Rattle.vacation_core.specs.Running.{HasPlay, IsPlay};
ghost use Rattle.vacation_core.specs.Traces.{IsVacTrace};

use crate::events::VacEvent;
use crate::tables::tables_left;
use crate::told::tell_all;
use crate::world::VacWorld;
use conflict::is_stripe_count;
use seq_model::{Items, Memory, Refusal};
use std::alloc::Global;
use vac_model::{ActionReply, Tables};

/// The result of events.
#[derive(Drop)]
pub struct VacTrace {
    /// The sessions that committed, in commit order, half-done ones too: the actor, the number of the commit, whether it wrote, and what
    /// the session answered.
    pub done: Items<(u32, u64, bool, ActionReply)>,
    /// Those that ended without a commit, in the order of their ending; a start that was refused ended at once.
    pub aborted: Items<(u32, Refusal)>,
    /// What words and collections hold.
    pub tables: Tables,
    /// The numbers of the commits whose last release hasn't been done, rising.
    pub half: Items<u64>,
}

/// Whether the action that is begun is allowed, where one is.
fn is_allowed(event: &VacEvent) -> bool
    ensures { IsTrue result ↔ MayHappen event.now }
{
    match event {
        VacEvent::Start(_, action) => action.is_allowed(),
        _ => true,
    }
}

/// Whether each action that is begun is allowed.
fn are_allowed(events: &[VacEvent]) -> bool
    ensures { IsTrue result ↔ AreAllowed events.now }
{
    let mut left = events;
    while let Some((event, later)) = left.split_first() {
        if !is_allowed(event) {
            return false;
        }
        left = later;
    }
    true
}

impl VacWorld {
    /// The result of the events so far.
    fn into_trace(self, alloc: Global) -> Result<VacTrace, Memory>
        requires { HasPlay self }
        ensures { IfOk result (λ trace. (p : Play) → IsPlay self p → IsVacTrace p trace) }
    {
        let VacWorld {
            world,
            clients,
            aborted,
            ..
        } = self;
        let trace = world.into_trace()?;
        let done = tell_all(alloc, &clients, trace.records.as_slice())?;
        let tables = tables_left(alloc, &trace.state)?;
        Ok(VacTrace {
            done: Items::from_vec(done),
            aborted,
            tables,
            half: trace.half,
        })
    }

    /// The result of these events, each of its client, in a world that opens on these tables, in so many stripes.
    ///
    /// The tables are what words and collections hold in the end: where no commit is half done, what the sessions that committed leave,
    /// balanced. `TooLong` where a collection can't have so many stripes, or an action is beyond its limits: nothing has run then; and
    /// `Memory` where an allocation failed.
    pub fn run(
        alloc: Global,
        tables: Tables,
        stripes: u32,
        events: &[VacEvent],
    ) -> Result<VacTrace, Refusal>
        requires { IsBalanced tables }
        ensures trace { IfOk result (IsVacTrace (played_all (unplayed_on stripes tables) events.now)) }
        ensures refused { IfErr result (λ refusal. IsTooLong refusal (IsStripeCount stripes × AreAllowed events.now)) }
    {
        if !is_stripe_count(stripes) {
            return Err(Refusal::TooLong);
        }
        if !are_allowed(events) {
            return Err(Refusal::TooLong);
        }
        let mut world = VacWorld::open(alloc, &tables, stripes)?;
        world.play_all(events)?;
        let trace = world.into_trace(alloc)?;
        Ok(trace)
    }
}
