//! What the entries of a set are.
ghost use Rattle.tx_sets.specs.Entries.{AreFiniteMaps};

/// Entries in the order of their locations are finite maps: `lookup` answers what was put last at a
/// location, and two lists on which it answers the same are one list.
pub fn finite_maps()
    ensures { AreFiniteMaps }
{}
