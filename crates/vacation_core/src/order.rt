//! The sessions of a list of actions, in its order.
ghost use Rattle.std.specs.Prelude.{◌≡◌, ◌<◌, ℕ, List, All, IfErr, IfOk, OnOk, length, map};
ghost use Rattle.conflict.specs.Refusals.{IsStripeCount};
ghost use Rattle.tx_machine.specs.Actor.{clock_limit};
ghost use Rattle.seq_model.specs.Refusals.{IsTooLong};
ghost use Rattle.vac_model.specs.declared.action.Action.{Action as AnAction};
ghost use Rattle.vac_model.specs.Actions.{IsAllowed};
ghost use Rattle.vac_model.specs.Balanced.{IsBalanced};
ghost use Rattle.vac_model.specs.Holdings.{Holdings};
ghost use Rattle.vacation_core.specs.Orders.{AreReceipts};
ghost use Rattle.vacation_core.specs.Turns.{HasOpened, IsAtRest, RunsAll};

use crate::opening::open;
use crate::session::run_session;
use crate::sessions::{are_allowed, session_of};
use client_sessions::{Entry, NoProgress, Progress};
use conflict::is_stripe_count;
use seq_model::{Items, Memory, Record, Refusal, State};
use std::alloc::Global;
use step_world::World;
use vac_model::{Action, Tables};

/// The result of the sessions of a list of actions.
#[derive(Drop)]
pub struct Ordered {
    /// One for each action, in order.
    pub receipts: Items<Record<Entry>>,
    /// The state that they leave.
    pub state: State<Entry>,
}

/// The records without their actors. They are moved, not copied.
#[tactic(auto, using(crate::proofs::OrderLemmas::moved, crate::proofs::OrderLemmas::moved_all))]
fn receipts_of(
    alloc: Global,
    records: Items<(u32, Record<Entry>)>,
) -> Result<Vec<Record<Entry>>, Memory>
    ensures { IfOk result (λ receipts. receipts.items ≡ map (λ r. r.1) records) }
{
    let mut receipts = Vec::with_capacity(alloc, records.len())?;
    for (_, receipt) in records.into_vec() {
        receipts.push(receipt)?;
    }
    Ok(receipts)
}

/// Runs the session of each action in turn.
fn run_all<P: Progress>(
    alloc: Global,
    world: &mut World<Entry>,
    actions: &[Action],
    progress: &P,
) -> Result<(), Memory>
    requires few { length actions.now < clock_limit }
    requires allowed { All IsAllowed actions.now }
    requires opened { (tables : Holdings) × HasOpened tables world.old.parts }
    ensures { OnOk result (RunsAll actions.now world.old.parts world.new.parts) }
{
    let mut count = 0u64;
    for action in actions {
        let session = session_of(alloc, action)?;
        run_session(alloc, world, &session)?;
        count = count.saturating_add(1);
        progress.receipts(count, actions.len() as u64);
    }
    Ok(())
}

/// The receipts of all sessions, and the state that they leave.
fn finish(alloc: Global, world: World<Entry>) -> Result<Ordered, Memory>
    ensures { IfOk result (λ ordered. (tables : Holdings) (n : ℕ) (last : AnAction) (done : List AnAction)
        → IsAtRest tables n last done world.parts → AreReceipts tables done ordered.receipts ordered.state) }
{
    let trace = world.into_trace()?;
    let receipts = receipts_of(alloc, trace.records)?;
    Ok(Ordered {
        receipts: Items::from_vec(receipts),
        state: trace.state,
    })
}

/// Runs the sessions of these actions, one after another, on a world that opens on these tables, each collection in so many stripes.
///
/// `TooLong` where a collection can't have so many stripes, or an action isn't allowed, which is found before anything runs; and
/// `Memory` where an allocation failed.
pub fn run_in_order(
    alloc: Global,
    tables: Tables,
    stripes: u32,
    actions: &[Action],
) -> Result<Ordered, Refusal>
    requires { IsBalanced tables }
    ensures ordered { IfOk result (λ ordered. AreReceipts tables actions.now ordered.receipts ordered.state) }
    ensures refused { IfErr result (λ refusal. IsTooLong refusal (IsStripeCount stripes × All IsAllowed actions.now)) }
{
    run_in_order_with(alloc, tables, stripes, actions, &NoProgress)
}

/// What `run_in_order` does; after each session `progress` is called with how many there were.
pub fn run_in_order_with<P: Progress>(
    alloc: Global,
    tables: Tables,
    stripes: u32,
    actions: &[Action],
    progress: &P,
) -> Result<Ordered, Refusal>
    requires { IsBalanced tables }
    ensures ordered { IfOk result (λ ordered. AreReceipts tables actions.now ordered.receipts ordered.state) }
    ensures refused { IfErr result (λ refusal. IsTooLong refusal (IsStripeCount stripes × All IsAllowed actions.now)) }
{
    if !is_stripe_count(stripes) {
        return Err(Refusal::TooLong);
    }
    if !are_allowed(actions) {
        return Err(Refusal::TooLong);
    }
    let mut world = open(alloc, &tables, stripes)?;
    run_all(alloc, &mut world, actions, progress)?;
    let ordered = finish(alloc, world)?;
    Ok(ordered)
}
