//! Laws of receipts. The functions compute nothing: their contracts are the laws.
ghost use Rattle.vacation_core.specs.Served.{JobsAreActions, ReceiptsAreActions, RepliesAreTold};

/// Receipts in commit order that are a run from the state of balanced tables, each of which has all calls of the session of its action:
/// they are these actions, one after another. Each session answered as its action is on the tables that those before it leave, and the
/// run results in the state of the tables that all of them leave, balanced. What a session answers in its receipt is that reply.
pub fn jobs_are_actions()
    ensures actions { JobsAreActions }
    ensures told { RepliesAreTold }
{}

/// The same of receipts in any order, each with its action, and of the same receipts in commit order: so they are what they are in that
/// order, each of its own action.
pub fn receipts_are_actions()
    ensures { ReceiptsAreActions }
{}
