//! A client of a store.
ghost use Rattle.std.specs.Prelude.{◌≡◌, ◌<◌, ◌≤◌, ◌∷◌, ◌++◌, [], IfErr, IfOk, IfSome, OnErr, OnOk, Some, false, max, true};
ghost use Rattle.seq_model.specs.declared.refusal.Refusal.TheVariants.{Ahead};
ghost use Rattle.shared_table.specs.Seated.{view};
ghost use Rattle.tx_engine.specs.Ready.{IsReady};
ghost use Rattle.tx_client.specs.RequestKinds.{HasAsked};
ghost use Rattle.tx_client.specs.Ends.{IsAbortBy};
ghost use Rattle.tx_client.specs.Frames.{ComesBack, HasGrown, later};
ghost use Rattle.tx_client.specs.Runners.{HasRun};
ghost use Rattle.tx_client.specs.Tallies.{AreCounted};

use crate::body::Body;
use crate::caller::Caller;
use crate::runner::Runner;
use crate::scope::Scope;
use crate::tally::Tally;
use actor_parts::Boxed;
use seq_model::{Failure, Refusal, Value};
use shared_table::TxTable;
use std::marker::{Model, PhantomData};
use tx_engine::{Receipt, TxSeat};

/// A client of a store, which runs one transaction after another. Each session of a store has one.
///
/// Contracts see the number of its actor (each client has its own), the last number that it committed or learnt, its receipts (the first
/// one first), the requests of its actor, and the counts of its attempts.
pub struct Client<'t, V, S: Scope<V>> {
    pub(crate) table: &'t TxTable<V>,
    pub(crate) runner: Runner<V>,
    pub(crate) scope: PhantomData<S>,
}

impl<'t, V: Drop, S: Scope<V> + Drop> Drop for Client<'t, V, S> {
    fn drop(self) {
        let Client {
            table: _,
            runner: _,
            scope: _,
        } = self;
    }
}

impl<'t, V, S: Scope<V>> Model for Client<'t, V, S> {
    ghost use Rattle.tx_client.specs.Ends.{ClientShown};

    ghost Value = { ClientShown V };

    ghost use Rattle.tx_client.specs.Clients.{IsAtClient, shown_at};

    ghost view = { λ a. shown_at S.frame a.runner.seat a.runner.tally };

    ghost invariant = { λ a. IsAtClient S.frame a.table.now a.runner.seat };
}

impl<'t, V: Value, S: Scope<V>> Client<'t, V, S> {
    /// The seat, with the client's receipts.
    fn into_seat(self) -> Boxed<TxSeat<V>>
        ensures back { IfSome S.frame (ComesBack result) }
        ensures receipts { self.entry.receipts ≡ later S.frame (view result.seat).receipts }
        ensures grown { HasGrown S.frame result.seat }
    {
        let Client {
            table: _,
            runner,
            scope: _,
        } = self;
        let Runner {
            caller: _,
            seat,
            tally: _,
        } = runner;
        match seat {
            Some(seat) => seat,
            None => unreachable!(),
        }
    }

    /// Runs the body as one transaction, which may write, and returns what the body returned, with the transaction's receipt.
    ///
    /// After a conflict ([`Refusal::is_conflict`]) it waits and attempts the body again, `tries` times in all, and once at least. Any other
    /// refusal, and an error of the body's own, is returned at once ([`Failure`]). Then the transaction has changed nothing, and the client
    /// has no receipt more.
    ///
    /// ```
    /// let (held, receipt) = client.atomically(1_000, &Count(word))?;
    /// let last = client.last_number() == receipt.number; // true
    /// ```
    pub fn atomically<B: Body<V>>(
        &mut self,
        tries: u64,
        body: &B,
    ) -> Result<(B::Out, Receipt<V>), Failure<B::Error>>
        ensures same { self.new.actor ≡ self.old.actor }
        ensures one { IfOk result (λ done. self.new.receipts ≡ self.old.receipts ++ (self.old.actor, done.1) ∷ []) }
        ensures made { IfOk result (λ done. B.makes body.now done.0 done.1.calls) }
        ensures last { IfOk result (λ done. (self.old.last ≤ done.1.number) × (self.new.last ≡ done.1.number)) }
        ensures none { OnErr result ((self.new.receipts ≡ self.old.receipts) × (self.new.last ≡ self.old.last)) }
        ensures aborts { IfErr result (IsAbortBy (B.aborts body.now)) }
        ensures asks { HasAsked false self.old.asked self.new.asked }
        ensures counted { AreCounted tries self.old.tally self.new.tally result }
    {
        self.retry_as(tries, body, false)
    }

    /// Runs the body as one declared reader, otherwise like [`Client::atomically`]. A call that changes something is `NoSuch` in it. It
    /// keeps no read set, so it may read as much as its calls allow, and it commits without a lock; but a location that others change
    /// meanwhile refuses it (`Moved`), so a long reader beside many writers needs more tries. Its receipt says that nothing was
    /// written.
    ///
    /// ```
    /// let (then, reader) = client.look(1_000, &Held(word))?;
    /// let writes = reader.writes; // false
    /// ```
    pub fn look<B: Body<V>>(
        &mut self,
        tries: u64,
        body: &B,
    ) -> Result<(B::Out, Receipt<V>), Failure<B::Error>>
        ensures same { self.new.actor ≡ self.old.actor }
        ensures one { IfOk result (λ done. self.new.receipts ≡ self.old.receipts ++ (self.old.actor, done.1) ∷ []) }
        ensures made { IfOk result (λ done. B.makes body.now done.0 done.1.calls) }
        ensures last { IfOk result (λ done. (self.old.last ≤ done.1.number) × (self.new.last ≡ done.1.number)) }
        ensures none { OnErr result ((self.new.receipts ≡ self.old.receipts) × (self.new.last ≡ self.old.last)) }
        ensures aborts { IfErr result (IsAbortBy (B.aborts body.now)) }
        ensures asks { HasAsked true self.old.asked self.new.asked }
        ensures counted { AreCounted tries self.old.tally self.new.tally result }
        ensures reads { IfOk result (λ done. done.1.writes ≡ false) }
    {
        self.retry_as(tries, body, true)
    }

    fn retry_as<B: Body<V>>(
        &mut self,
        tries: u64,
        body: &B,
        declared: bool,
    ) -> Result<(B::Out, Receipt<V>), Failure<B::Error>>
        ensures ran { HasRun (B.makes body.now) (B.aborts body.now) declared tries self.old self.new result }
    {
        self.runner.run::<S, B>(self.table, tries, body, declared)
    }

    /// How the attempts of this client ended, counted.
    ///
    /// ```
    /// let (then, reader) = client.look(1_000, &Held(word))?;
    /// let committed = client.tally().committed; // 2
    /// ```
    pub fn tally(&self) -> Tally
        ensures { result ≡ self.now.tally }
    {
        self.runner.tally
    }

    /// The greatest number that this client committed or learnt; 0 at first. Numbers are in commit order: what has this number, or a lower
    /// one, is seen by the client's next transaction.
    ///
    /// ```
    /// let first = client.last_number(); // 0
    /// let (held, receipt) = client.atomically(1_000, &Count(word))?;
    /// let last = client.last_number() == receipt.number; // true
    /// ```
    pub fn last_number(&self) -> u64
        ensures { result ≡ self.now.last }
    {
        self.runner.last_number()
    }

    /// Learns the number of a commit of another client of this store: the client's next transaction begins at it or above, so it sees that
    /// commit. `Ahead` where the store's clock is below the number, which is of no commit here; then nothing is learnt.
    ///
    /// ```
    /// let (held, receipt) = client.atomically(1_000, &Count(word))?;
    /// let learnt = client.learn(receipt.number); // Ok(())
    /// ```
    pub fn learn(&mut self, number: u64) -> Result<(), Refusal>
        ensures same { self.new.actor ≡ self.old.actor }
        ensures receipts { self.new.receipts ≡ self.old.receipts }
        ensures asks { self.new.asked ≡ self.old.asked }
        ensures counts { self.new.tally ≡ self.old.tally }
        ensures learns { OnOk result (self.new.last ≡ max self.old.last number) }
        ensures none { OnErr result (self.new.last ≡ self.old.last) }
        ensures ahead { IfErr result (λ cause. (clock : _) × ((cause ≡ Ahead clock) × (clock < number))) }
    {
        self.runner.learn::<S>(self.table, number)
    }
}

/// A client with this seat, for what gives clients to sessions. It has none of the receipts that the seat has already. A service has no
/// seat, and gets its clients ready made.
pub fn client_of<'t, V: Value, S: Scope<V>>(
    table: &'t TxTable<V>,
    caller: Caller,
    seat: Boxed<TxSeat<V>>,
) -> Client<'t, V, S>
    requires ready { IsReady table.now seat }
    requires frame { S.frame ≡ Some (record { table = table.now; begun = Some seat }) }
    ensures new { result.receipts ≡ [] }
{
    Client {
        table,
        runner: Runner {
            caller,
            seat: Some(seat),
            tally: Tally::new(),
        },
        scope: PhantomData,
    }
}

/// The seat of a client that has served, with its receipts, for what gave it the seat.
pub fn seat_of<'t, V: Value, S: Scope<V>>(client: Client<'t, V, S>) -> Boxed<TxSeat<V>>
    ensures back { IfSome S.frame (ComesBack result) }
    ensures receipts { client.entry.receipts ≡ later S.frame (view result.seat).receipts }
    ensures grown { HasGrown S.frame result.seat }
{
    client.into_seat()
}
