//! The sessions of a worker.
ghost use Rattle.std.specs.Prelude.{◌≡◌, ◌≤◌, ◌<◌, IfOk, All, length};
ghost use Rattle.rand.specs.Draw.{Gives};
ghost use Rattle.vac_model.specs.Actions.{IsAllowed, IsAmountWithin, IsListed};
ghost use Rattle.text_formats.specs.Draws.{times};
ghost use Rattle.text_formats.specs.Options.{AreWithin, count_of};
ghost use Rattle.text_formats.specs.DrawnActions.{ask_drawn, change_drawn, delete_drawn, reserve_drawn, session_drawn, sessions_of};
ghost use Rattle.text_formats.specs.DrawnActions.{update_drawn};

use crate::draws::{below, kind, price, up_to};
use crate::options::Options;
use rand_core::Rng;
use rand_pcg::Pcg32;
use seq_model::{Items, Memory};
use std::alloc::Global;
use vac_model::{Action, Ask, Change, Kind};

/// The sessions of a worker, of which the first is 1, each within its limits: reservations of one unit, deletions and updates.
pub fn generate(
    alloc: Global,
    seed: u64,
    worker: u64,
    options: &Options,
) -> Result<Vec<Action>, Memory>
    requires within { AreWithin options.now }
    requires worker { (1 ≤ worker) × (worker ≤ options.now.clients) }
    ensures drawn { IfOk result (λ actions. actions.items ≡ sessions_of seed worker options.now) }
    ensures count { IfOk result (λ actions. length actions.items ≡ count_of options.now worker) }
    ensures allowed { IfOk result (λ actions. All IsAllowed actions.items) }
{
    let mut random = Pcg32::new(seed, worker);
    let mut actions = Vec::new(alloc);
    for _ in 0..options.count_of(worker) {
        actions.push(session(alloc, &mut random, options)?)?;
    }
    Ok(actions)
}

fn session<R: Rng>(alloc: Global, random: &mut R, options: &Options) -> Result<Action, Memory>
    requires { AreWithin options.now }
    ensures drawn { IfOk result (λ action. Gives (session_drawn options.now) (R.stream random.old) action (R.stream random.new)) }
    ensures allowed { IfOk result IsAllowed }
{
    let greatest = options.greatest_id();
    let share = below(random, 100);
    if share < u64::from(options.percent_user) {
        reservation(alloc, random, options.queries, greatest)
    } else if share % 2 == 1 {
        Ok(deletion(random, greatest))
    } else {
        update(alloc, random, options.queries, greatest)
    }
}

fn reservation<R: Rng>(
    alloc: Global,
    random: &mut R,
    queries: u32,
    greatest: u64,
) -> Result<Action, Memory>
    requires some { 0 < greatest }
    requires listed { IsListed queries }
    ensures drawn { IfOk result (λ action. Gives (reserve_drawn queries greatest) (R.stream random.old) action (R.stream random.new)) }
    ensures allowed { IfOk result IsAllowed }
{
    let customer = up_to(random, greatest);
    let mut asks = Items::new(alloc);
    for _ in 0..queries {
        asks.push(ask(random, greatest))?;
    }
    Ok(Action::Reserve(customer, 1, asks))
}

fn ask<R: Rng>(random: &mut R, greatest: u64) -> Ask
    requires { 0 < greatest }
    ensures { Gives (ask_drawn greatest) (R.stream random.old) result (R.stream random.new) }
{
    Ask {
        kind: kind(random),
        id: up_to(random, greatest),
    }
}

fn deletion<R: Rng>(random: &mut R, greatest: u64) -> Action
    requires { 0 < greatest }
    ensures { Gives (delete_drawn greatest) (R.stream random.old) result (R.stream random.new) }
{
    Action::Delete(up_to(random, greatest))
}

fn update<R: Rng>(
    alloc: Global,
    random: &mut R,
    queries: u32,
    greatest: u64,
) -> Result<Action, Memory>
    requires some { 0 < greatest }
    requires listed { IsListed queries }
    ensures drawn { IfOk result (λ action. Gives (update_drawn queries greatest) (R.stream random.old) action (R.stream random.new)) }
    ensures allowed { IfOk result IsAllowed }
{
    let mut changes = Items::new(alloc);
    for _ in 0..queries {
        changes.push(change(random, greatest))?;
    }
    Ok(Action::Update(changes))
}

/// A hundred units more of an item, at a new price, or a hundred fewer; a flight is dropped instead.
fn change<R: Rng>(random: &mut R, greatest: u64) -> Change
    requires { 0 < greatest }
    ensures drawn { Gives (change_drawn greatest) (R.stream random.old) result (R.stream random.new) }
    ensures within { IsAmountWithin result }
{
    let kind = kind(random);
    let id = up_to(random, greatest);
    if below(random, 2) == 1 {
        return Change::Add(kind, id, 100, price(random));
    }
    match kind {
        Kind::Car => Change::TakeCar(id, 100),
        Kind::Flight => Change::DropFlight(id),
        Kind::Room => Change::TakeRoom(id, 100),
    }
}
