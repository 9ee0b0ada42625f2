//! The laws of the definitions that the contracts cite. The function computes nothing: its contract is the laws.
ghost use Rattle.conflict.specs.Rules.{FrameLaws, Commute};
ghost use Rattle.base_map.specs.Conflicts.{rules};

use seq_model::Value;

/// What a call on a map answers depends on the locations that it reads alone, and what it changes is on those that it writes. Calls that do
/// not conflict commute.
pub fn frame_laws<V: Value>()
    ensures laws { FrameLaws (rules V) }
    ensures commute { Commute (rules V) }
{}
