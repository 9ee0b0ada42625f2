//! What follows from the frame laws, for every collection that has them, and what a replay does to editions. The functions
//! compute nothing: their contracts are the laws.
ghost use Rattle.conflict.specs.Editions.{RaisesWritten, KeepsOthers};
ghost use Rattle.conflict.specs.Rules.{Commute, DisjointChangesCommute};

use crate::conflict::Conflict;
use seq_model::Value;

/// Legal outcomes that do not conflict commute: each is legal after the other, and both orders end in one. Changes within
/// disjoint locations commute on everything that the collection may show.
pub fn commute<V: Value, C: Conflict<V>>()
    ensures outcomes { Commute C.rules }
    ensures changes { DisjointChangesCommute C.rules }
{}

/// A replay raises the edition of each location that it writes by one, and that of no other.
pub fn raised_by_one()
    ensures written { RaisesWritten }
    ensures others { KeepsOthers }
{}
