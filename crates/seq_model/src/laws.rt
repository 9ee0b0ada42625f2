//! What follows from the definitions of runs and audits. The functions compute nothing: their contracts are the laws.
ghost use Rattle.std.specs.Prelude.{◌≡◌, ◌+◌, ◌^◌};
ghost use Rattle.seq_model.specs.declared.limits.TheConstants.{COPY_LIMIT, INDEX_LIMIT, CLOCK_LIMIT, CALL_LIMIT, ACTOR_LIMIT, SEATS};
ghost use Rattle.seq_model.specs.Laws.{
  CallsDetermineReplies,
  CallsCompose,
  RunsCompose,
  ReadersLeaveTheState,
  InsertingKeepsTheOrder,
  InsertingAReaderKeepsTheRun,
  RunsHaveNoFault,
  FaultsAreDetermined,
};

/// Transactions and runs. From a state, the calls of a legal transaction determine its replies. Legality and result compose over calls
/// after calls, and over records after records. A legal transaction that changes nothing leaves the state. A record whose number no other
/// writer has goes into commit order; a reader that is legal at the end of a run is legal in its place, where those after it are readers,
/// and the run's result is the same.
pub fn run_laws<V>()
    ensures replies { CallsDetermineReplies V }
    ensures calls { CallsCompose V }
    ensures runs { RunsCompose V }
    ensures readers { ReadersLeaveTheState V }
    ensures order { InsertingKeepsTheOrder V }
    ensures reader { InsertingAReaderKeepsTheRun V }
{}

/// An audit for which no allocation fails has one answer: no fault where the records are a run between the two states, and else the one
/// fault whose definition holds.
pub fn audit_laws<V>()
    ensures run { RunsHaveNoFault V }
    ensures fault { FaultsAreDetermined V }
{}

/// The limits, as numbers.
pub fn limit_laws()
    ensures copies { COPY_LIMIT + 1 ≡ 2 ^ 32 }
    ensures indexes { INDEX_LIMIT ≡ 2 ^ 62 }
    ensures clock { CLOCK_LIMIT ≡ 2 ^ 62 }
    ensures calls { CALL_LIMIT ≡ 2 ^ 12 }
    ensures actors { ACTOR_LIMIT ≡ 2 ^ 6 }
    ensures seats { SEATS ≡ ACTOR_LIMIT + 1 }
{}
