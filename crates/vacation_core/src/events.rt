//! What happens to the clients of a world.

use vac_model::Action;

/// What happens to a client: it begins the session of an action, or one atomic step of its session, or it is out of memory.
#[derive(Drop)]
pub enum VacEvent {
    Start(u32, Action),
    Step(u32),
    /// The session is refused as `Memory`, where it may still be.
    Starve(u32),
}
