//! The law of what sessions cost. The function computes nothing: its contract is the law.
ghost use Rattle.vacation_core.specs.Costs.{SessionsFit};

/// The session of an allowed action asks at most 4,096 calls, on word 0, on a key of one of the five maps, or at an end of one of the three
/// queues; and all of them read no more than 4,096 locations, and write no more.
pub fn sessions_fit()
    ensures { SessionsFit }
{}
