//! What all kinds of clients run bodies by: a seat, and the counts of its attempts.
ghost use Rattle.std.specs.Prelude.{◌≡◌, IsSome, Some};
ghost use Rattle.tx_client.specs.Backs.{shares_at};
ghost use Rattle.tx_client.specs.Clients.{IsAtClient, last_at, shown_at};
ghost use Rattle.tx_client.specs.Runners.{HasLearnt, HasRun};

use crate::attempts::retry;
use crate::body::Body;
use crate::caller::Caller;
use crate::scope::Scope;
use crate::tally::Tally;
use actor_parts::Boxed;
use seq_model::{Failure, Refusal, Value};
use shared_table::TxTable;
use tx_engine::{Receipt, TxSeat};

/// A seat that runs bodies, and the counts of its attempts.
#[derive(Drop)]
pub struct Runner<V> {
    pub caller: Caller,
    /// It is `None` only while a transaction runs.
    pub seat: Option<Boxed<TxSeat<V>>>,
    pub tally: Tally,
}

impl<V: Value> Runner<V> {
    /// Attempts a body at its table until it commits, as a declared reader or not.
    pub fn run<S: Scope<V>, B: Body<V>>(
        &mut self,
        table: &TxTable<V>,
        tries: u64,
        body: &B,
        declared: bool,
    ) -> Result<(B::Out, Receipt<V>), Failure<B::Error>>
        requires at { IsAtClient S.frame table.now self.old.seat }
        ensures at { IsAtClient S.frame table.now self.new.seat }
        ensures shares { shares_at self.new.seat ≡ shares_at self.old.seat }
        ensures ran { HasRun (B.makes body.now) (B.aborts body.now) declared tries
            (shown_at S.frame self.old.seat self.old.tally) (shown_at S.frame self.new.seat self.new.tally) result }
    {
        match self.seat.take() {
            Some(seat) => {
                let (seat, tally, ended) = retry(
                    table,
                    self.caller,
                    seat,
                    self.tally,
                    body,
                    declared,
                    tries,
                );
                self.seat = Some(seat);
                self.tally = tally;
                ended
            }
            None => unreachable!(),
        }
    }

    pub fn last_number(&self) -> u64
        requires there { IsSome self.now.seat }
        ensures { result ≡ last_at self.now.seat }
    {
        match &self.seat {
            Some(seat) => seat.get().last_number(),
            None => unreachable!(),
        }
    }

    pub fn learn<S: Scope<V>>(&mut self, table: &TxTable<V>, number: u64) -> Result<(), Refusal>
        requires at { IsAtClient S.frame table.now self.old.seat }
        ensures at { IsAtClient S.frame table.now self.new.seat }
        ensures shares { shares_at self.new.seat ≡ shares_at self.old.seat }
        ensures learnt { HasLearnt number (shown_at S.frame self.old.seat self.old.tally) (shown_at S.frame self.new.seat self.new.tally)
            result }
    {
        match self.seat.take() {
            Some(seat) => {
                let mut seat = seat;
                let learnt = seat.get_mut().learn(table, number);
                self.seat = Some(seat);
                learnt
            }
            None => unreachable!(),
        }
    }
}
