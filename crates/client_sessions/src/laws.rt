//! Laws of the sessions.
ghost use Rattle.vac_model.specs.Balanced.{IsBalanced};
ghost use Rattle.vac_model.specs.Holdings.{Holdings};
ghost use Rattle.client_sessions.specs.Holding.{HaveIndexes};
ghost use Rattle.client_sessions.specs.Laws.{EndsAsAction, NeverGivesUp, AsksLegalCalls, StatesTellTables};
ghost use Rattle.client_sessions.specs.Runs.{EachNumberHoldsTables, NoneGivesUp, RunsAreActions};

/// A session over balanced tables is its action: what it answers, and what it leaves. It never aborts, and each call
/// that it asks has an answer.
pub fn sessions_are_actions()
    ensures ends { EndsAsAction }
    ensures goes_on { NeverGivesUp }
    ensures legal { AsksLegalCalls }
{}

/// A run of records from the state of balanced tables, each of a whole session, is the actions of these sessions, one after another:
/// the replies are theirs, and it leaves the state of the tables that they leave, balanced. What the records up to a number leave, where
/// they are in commit order, is the state of balanced tables, too; so a session that saw such a state doesn't abort.
pub fn runs_are_actions()
    ensures runs { RunsAreActions }
    ensures numbers { EachNumberHoldsTables }
    ensures goes_on { NoneGivesUp }
{}

/// The indexes of the queues of balanced tables are within the limit of a state, so that a state holds the tables.
pub fn balanced_tables_have_a_state()
    ensures { (tables : Holdings) → IsBalanced tables → HaveIndexes tables }
{}

/// No two tables have one state.
pub fn states_tell_tables()
    ensures { StatesTellTables }
{}
