//! A client that is lent to any thread.
ghost use Rattle.std.specs.Prelude.{◌≡◌, ◌<◌, ◌≤◌, ◌∷◌, ◌++◌, [], IfErr, IfOk, OnErr, OnOk, false, max, true};
ghost use Rattle.std.specs.Arc.{arc_value};
ghost use Rattle.seq_model.specs.declared.refusal.Refusal.TheVariants.{Ahead};
ghost use Rattle.shared_table.specs.Seated.{view};
ghost use Rattle.tx_engine.specs.Ready.{IsReady};
ghost use Rattle.tx_client.specs.RequestKinds.{HasAsked};
ghost use Rattle.tx_client.specs.Ends.{IsAbortBy};
ghost use Rattle.tx_client.specs.Runners.{HasRun};
ghost use Rattle.tx_client.specs.Tallies.{AreCounted};

use crate::homes::Own;
use crate::sessions::{Session, serve_one};
use actor_parts::Boxed;
use seq_model::{Failure, Refusal, Value};
use std::marker::{Brand, Model};
use tx_client::{Body, Caller, Runner, Tally};
use tx_engine::{Receipt, TxSeat};

/// A client of a lender's store ([`crate::Lender::client`]), for any thread: it borrows nothing. Its calls are those of [`crate::Client`].
///
/// Dropped, wherever that is and whatever it did, it leaves its receipts where [`crate::Lender::take_back`] finds them.
///
/// Contracts see of it what they see of a [`crate::Client`].
pub struct LentClient<V> {
    own: Own<V>,
    runner: Runner<V>,
}

impl<V> Model for LentClient<V> {
    ghost use Rattle.std.specs.Arc.{arc_value};
    ghost use Rattle.tx_client.specs.Ends.{ClientShown};

    ghost Value = { ClientShown V };

    ghost use Rattle.tx_client.specs.Backs.{IsLent};
    ghost use Rattle.std.specs.Prelude.{None};
    ghost use Rattle.tx_client.specs.Clients.{shown_at};

    ghost view = { λ a. shown_at None a.runner.seat a.runner.tally };

    ghost invariant = { λ a. IsLent (arc_value a.own.table) a.runner.seat };
}

impl<V: Drop> Drop for LentClient<V> {
    #[tactic(auto, using(crate::proofs::LenderLemmas::fits_home))]
    fn drop(self) {
        let LentClient { own, runner } = self;
        let Own { table, home } = own;
        let Runner {
            caller: _,
            seat,
            tally: _,
        } = runner;
        // The lender may end as soon as the seat is back: this owner of the table goes first.
        drop(table);
        match seat {
            Some(seat) => home.leave(seat.into_inner()),
            None => unreachable!(),
        }
    }
}

impl<V: Value> LentClient<V> {
    pub(crate) fn of(own: Own<V>, caller: Caller, seat: Boxed<TxSeat<V>>) -> LentClient<V>
        requires ready { IsReady (arc_value own.table) seat }
        requires share { (view seat.seat).shares ≡ 1 }
        requires none { (view seat.seat).receipts ≡ [] }
        ensures { result.receipts ≡ [] }
    {
        LentClient {
            own,
            runner: Runner {
                caller,
                seat: Some(seat),
                tally: Tally::new(),
            },
        }
    }

    /// Runs the body as one transaction, which may write, like [`crate::Client::atomically`].
    ///
    /// ```
    /// let mut client = lender.client()?;
    /// let (held, written) = client.atomically(1_000, &Count(word))?;
    /// ```
    pub fn atomically<B: Body<V>>(
        &mut self,
        tries: u64,
        body: &B,
    ) -> Result<(B::Out, Receipt<V>), Failure<B::Error>>
        ensures same { self.new.actor ≡ self.old.actor }
        ensures one { IfOk result (λ done. self.new.receipts ≡ self.old.receipts ++ (self.old.actor, done.1) ∷ []) }
        ensures made { IfOk result (λ done. B.makes body.now done.0 done.1.calls) }
        ensures last { IfOk result (λ done. (self.old.last ≤ done.1.number) × (self.new.last ≡ done.1.number)) }
        ensures none { OnErr result ((self.new.receipts ≡ self.old.receipts) × (self.new.last ≡ self.old.last)) }
        ensures aborts { IfErr result (IsAbortBy (B.aborts body.now)) }
        ensures asks { HasAsked false self.old.asked self.new.asked }
        ensures counted { AreCounted tries self.old.tally self.new.tally result }
    {
        self.run(tries, body, false)
    }

    /// Runs the body as one declared reader, like [`crate::Client::look`].
    ///
    /// ```
    /// let (held, written) = client.atomically(1_000, &Count(word))?;
    /// let (then, read) = client.look(1_000, &Held(word))?;
    /// let same = read.number == written.number; // true
    /// ```
    pub fn look<B: Body<V>>(
        &mut self,
        tries: u64,
        body: &B,
    ) -> Result<(B::Out, Receipt<V>), Failure<B::Error>>
        ensures same { self.new.actor ≡ self.old.actor }
        ensures one { IfOk result (λ done. self.new.receipts ≡ self.old.receipts ++ (self.old.actor, done.1) ∷ []) }
        ensures made { IfOk result (λ done. B.makes body.now done.0 done.1.calls) }
        ensures last { IfOk result (λ done. (self.old.last ≤ done.1.number) × (self.new.last ≡ done.1.number)) }
        ensures none { OnErr result ((self.new.receipts ≡ self.old.receipts) × (self.new.last ≡ self.old.last)) }
        ensures aborts { IfErr result (IsAbortBy (B.aborts body.now)) }
        ensures asks { HasAsked true self.old.asked self.new.asked }
        ensures counted { AreCounted tries self.old.tally self.new.tally result }
        ensures reads { IfOk result (λ done. done.1.writes ≡ false) }
    {
        self.run(tries, body, true)
    }

    fn run<B: Body<V>>(
        &mut self,
        tries: u64,
        body: &B,
        declared: bool,
    ) -> Result<(B::Out, Receipt<V>), Failure<B::Error>>
        ensures ran { HasRun (B.makes body.now) (B.aborts body.now) declared tries self.old self.new result }
    {
        self.runner
            .run::<Brand, B>(&self.own.table, tries, body, declared)
    }

    fn played<N: Session<V> + Drop>(self, session: N) -> (N::Out, LentClient<V>)
        requires new { self.receipts ≡ [] }
        ensures served { N.serves session result.0 result.1.receipts }
        ensures counts { result.1.tally ≡ self.tally }
    {
        let LentClient { own, runner } = self;
        let Runner {
            caller,
            seat,
            tally,
        } = runner;
        match seat {
            Some(seat) => {
                let (seat, out) = serve_one(&own.table, caller, seat, session);
                let runner = Runner {
                    caller,
                    seat: Some(seat),
                    tally,
                };
                (out, LentClient { own, runner })
            }
            None => unreachable!(),
        }
    }

    /// Serves a session, and is put back with its receipts.
    pub(crate) fn serve<N: Session<V> + Drop>(self, session: N) -> N::Out
        requires new { self.receipts ≡ [] }
        ensures served { (receipts : _) × N.serves session result receipts }
    {
        let (out, client) = self.played(session);
        drop(client);
        out
    }

    /// How the attempts of this client ended, counted.
    ///
    /// ```
    /// let (then, read) = client.look(1_000, &Held(word))?;
    /// let refusals = client.tally().refusals(); // 0
    /// ```
    pub fn tally(&self) -> Tally
        ensures { result ≡ self.now.tally }
    {
        self.runner.tally
    }

    /// The greatest number that this client committed or learnt; 0 at first.
    ///
    /// ```
    /// let (then, read) = client.look(1_000, &Held(word))?;
    /// let last = client.last_number() == read.number; // true
    /// ```
    pub fn last_number(&self) -> u64
        ensures { result ≡ self.now.last }
    {
        self.runner.last_number()
    }

    /// Learns the number of a commit at this store, like [`crate::Client::learn`].
    ///
    /// ```
    /// let (held, written) = client.atomically(1_000, &Count(word))?;
    /// let ahead = client.learn(99); // Err(Ahead { clock: 4 })
    /// ```
    pub fn learn(&mut self, number: u64) -> Result<(), Refusal>
        ensures same { self.new.actor ≡ self.old.actor }
        ensures receipts { self.new.receipts ≡ self.old.receipts }
        ensures asks { self.new.asked ≡ self.old.asked }
        ensures counts { self.new.tally ≡ self.old.tally }
        ensures learns { OnOk result (self.new.last ≡ max self.old.last number) }
        ensures none { OnErr result (self.new.last ≡ self.old.last) }
        ensures ahead { IfErr result (λ cause. (clock : _) × ((cause ≡ Ahead clock) × (clock < number))) }
    {
        self.runner.learn::<Brand>(&self.own.table, number)
    }
}
