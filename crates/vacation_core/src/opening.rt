//! The world that sessions run on.
ghost use Rattle.std.specs.Prelude.{IfOk};
ghost use Rattle.conflict.specs.Refusals.{IsStripeCount};
ghost use Rattle.step_world.specs.Parts.{IsWorld};
ghost use Rattle.vac_model.specs.Balanced.{IsBalanced};
ghost use Rattle.client_sessions.specs.Holding as holding;
ghost use Rattle.actor_parts.specs.Openings.{world_of};
ghost use Rattle.vacation_core.specs.Stripes.{eight};

use client_sessions::{Entry, state_of};
use seq_model::{Items, Memory, Refusal, Shape};
use std::alloc::Global;
use step_world::World;
use vac_model::Tables;

/// A world on these tables, with this number of stripes for each of the five maps and three queues, whose clock is 0.
pub fn open(alloc: Global, tables: &Tables, stripes: u32) -> Result<World<Entry>, Memory>
    requires balanced { IsBalanced tables.now }
    requires stripes { IsStripeCount stripes }
    ensures { IfOk result (λ world. IsWorld world.parts (world_of (eight stripes) 0 (holding.state_of tables.now))) }
{
    let state = state_of(alloc, tables)?;
    let stripes = vec![in alloc; stripes; 8]?;
    let shape = Shape {
        stripes: Items::from_vec(stripes),
        clock: 0,
    };
    match World::open(alloc, &shape, state) {
        Ok(world) => Ok(world),
        Err(refusal) => match refusal {
            Refusal::Memory => Err(Memory),
            _ => unreachable!(),
        },
    }
}
