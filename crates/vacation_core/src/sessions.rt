//! The sessions of actions that are allowed.
ghost use Rattle.std.specs.Prelude.{◌≡◌, ◌↔◌, All, IfOk, IsTrue};
ghost use Rattle.vac_model.specs.Actions.{IsAllowed};

use client_sessions::Session;
use seq_model::{Memory, Refusal};
use std::alloc::Global;
use vac_model::Action;

/// Whether each of these actions is allowed.
pub fn are_allowed(actions: &[Action]) -> bool
    ensures { IsTrue result ↔ All IsAllowed actions.now }
{
    for action in actions {
        if !action.is_allowed() {
            return false;
        }
    }
    true
}

/// The session of an action that is allowed.
pub fn session_of(alloc: Global, action: &Action) -> Result<Session, Memory>
    requires { IsAllowed action.now }
    ensures { IfOk result (λ session. session ≡ action.now) }
{
    match Session::new(alloc, action) {
        Ok(session) => Ok(session),
        Err(refusal) => match refusal {
            Refusal::Memory => Err(Memory),
            _ => unreachable!(),
        },
    }
}

/// The sessions of actions that are allowed, in their order.
pub fn sessions_of(alloc: Global, actions: &[Action]) -> Result<Vec<Session>, Memory>
    requires { All IsAllowed actions.now }
    ensures { IfOk result (λ sessions. sessions.items ≡ actions.now) }
{
    let mut sessions = Vec::with_capacity(alloc, actions.len())?;
    for action in actions {
        sessions.push(session_of(alloc, action)?)?;
    }
    Ok(sessions)
}
