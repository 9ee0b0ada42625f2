//! The tables that a run of sessions leaves.
ghost use Rattle.std.specs.Prelude.{◌≡◌, IfOk};
ghost use Rattle.vac_model.specs.Holdings.{Holdings};
ghost use Rattle.client_sessions.specs.Holding as holding;
ghost use Rattle.client_sessions.specs.Holding.{HoldsTables};

use client_sessions::{Entry, tables_of};
use seq_model::{Memory, Refusal, State};
use std::alloc::Global;
use vac_model::Tables;

/// The tables of a state that holds some; no others have this state.
pub fn tables_left(alloc: Global, state: &State<Entry>) -> Result<Tables, Memory>
    requires { HoldsTables state.now }
    ensures held { IfOk result (λ tables. state.now ≡ holding.state_of tables) }
    ensures inverse { (tables : Holdings) → state.now ≡ holding.state_of tables → IfOk result (λ same. same ≡ tables) }
{
    match tables_of(alloc, state) {
        Ok(tables) => Ok(tables),
        Err(Refusal::Memory) => Err(Memory),
        Err(_) => unreachable!(),
    }
}
