//! The commit of a transaction.
ghost use Rattle.std.specs.Prelude.{◌≡◌, MatchResult, None, Some};
ghost use Rattle.shared_table.specs.Seated.{opening_of};
ghost use Rattle.tx_turns.specs.Begins.{begins_of};
ghost use Rattle.tx_engine.specs.Ready.{CanDrive};
ghost use Rattle.tx_engine.specs.Requests.{CommitsTo, HasAskedFor, IsCommitTold, IsOpen};

use crate::calls::ask_open;
use actor_parts::Boxed;
use replay_log::Base;
use seq_model::{Record, Refusal, Request, Value};
use shared_table::{Seat, TxTable};
use std::alloc::Global;
use tx_actor::{ActorNotice, TxActor};
use tx_turns::drive_commit;

/// The result of a commit that is answered so, with this receipt.
fn commit_told<V: Value>(
    told: ActorNotice<V>,
    receipt: Option<Record<V>>,
) -> Result<Record<V>, Refusal>
    requires { IsCommitTold told receipt }
    ensures { MatchResult result (λ made. receipt ≡ Some made) (λ cause. (receipt ≡ None) × (told ≡ ActorNotice.Refused cause)) }
{
    match receipt {
        Some(receipt) => Ok(receipt),
        None => match told {
            ActorNotice::Refused(cause) => Err(cause),
            _ => unreachable!(),
        },
    }
}

/// An open transaction commits, like [`crate::Tx::commit`].
pub(crate) fn commit<V: Value>(
    alloc: Global,
    table: &TxTable<V>,
    seat: &mut Seat<V>,
    actor: &mut TxActor<V>,
    bases: &mut Vec<Boxed<Base<V>>>,
) -> Result<Record<V>, Refusal>
    requires drives { CanDrive table.now seat.old actor.old }
    requires open { IsOpen (opening_of table.now) seat.old }
    ensures drives { CanDrive table.now seat.new actor.new }
    ensures last { seat.new.last ≡ seat.old.last }
    ensures commits { CommitsTo (opening_of table.now) seat.old seat.new result }
    ensures begins { begins_of seat.new ≡ begins_of seat.old }
    ensures asks { HasAskedFor seat.old Request.Commit result seat.new }
{
    let _ = ask_open(alloc, table, seat, actor, bases, Request::Commit)?;
    let (told, receipt) = drive_commit(alloc, table, seat, actor, bases);
    commit_told(told, receipt)
}
