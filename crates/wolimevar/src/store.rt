//! A store, which runs transactions itself and lends clients to sessions.
ghost use Rattle.std.specs.Prelude.{◌≡◌, ◌<◌, ◌≤◌, ◌++◌, ◌∷◌, [], IfErr, IfOk, OnErr, OnOk, false, length, max, true};
ghost use Rattle.seq_model.specs.declared.refusal.Refusal.TheVariants.{Ahead};
ghost use Rattle.shared_table.specs.declared.view.TheConstants.{SHARES};
ghost use Rattle.tx_client.specs.RequestKinds.{HasAsked};
ghost use Rattle.tx_client.specs.Ends.{IsAbortBy};
ghost use Rattle.wolimevar.specs.Sessions.{HaveServed, IsWhy};
ghost use Rattle.wolimevar.specs.Stores.{IsLeftBy};
ghost use Rattle.tx_client.specs.Tallies.{AreCounted};

use crate::lender::Lender;
use crate::sessions::{Session, serve};
use crate::unread::Unread;
use actor_parts::Boxed;
use seq_model::{Failure, Refusal, Value};
use shared_table::TxTable;
use std::alloc::Global;
use std::marker::Model;
use std::sync::Arc;
use std::thread::Threads;
use tx_client::{Body, Caller, Contents, Tally, retry};
use tx_engine::{Receipt, TxSeat};

/// Words and collections, on which transactions run. [`crate::Layout::open`] opens it, [`Store::close`] ends it.
///
/// Contracts see its number, what it opened with, the receipts of all its transactions, and of those that it runs itself the last number
/// that it committed or learnt, the requests, and the counts of attempts. Between two calls it has all its shares, so it can always be
/// closed.
pub struct Store<V> {
    pub(crate) alloc: Global,
    pub(crate) number: u32,
    pub(crate) table: TxTable<V>,
    /// It is `None` only while a transaction or sessions run.
    pub(crate) seat: Option<Boxed<TxSeat<V>>>,
    pub(crate) tally: Tally,
}

impl<V: Drop> Drop for Store<V> {
    fn drop(self) {
        let Store {
            alloc: _,
            number: _,
            table: _,
            seat: _,
            tally: _,
        } = self;
    }
}

impl<V> Model for Store<V> {
    ghost use Rattle.std.specs.Coded.{codes};
    ghost use Rattle.seq_model.specs.Contents.{contents_code};
    ghost use Rattle.wolimevar.specs.Stores.{StoreShown};

    ghost Value = { StoreShown V };

    ghost coded = { Prim.hlevel (codes, contents_code V.code) };

    ghost use Rattle.wolimevar.specs.StoreSeats.{IsAtStore, store_at};

    ghost view = { λ a. store_at a.number a.table a.seat a.tally };

    ghost invariant = { λ a. IsAtStore a.table a.seat };
}

impl<V: Value> Store<V> {
    /// Runs the body as one transaction, which may write, like [`crate::Client::atomically`].
    ///
    /// ```
    /// let (held, receipt) = store.atomically(1_000, &Count(word))?;
    /// let (number, calls) = (receipt.number, receipt.calls.len()); // 1, 2
    /// ```
    pub fn atomically<B: Body<V>>(
        &mut self,
        tries: u64,
        body: &B,
    ) -> Result<(B::Out, Receipt<V>), Failure<B::Error>>
        ensures number { self.new.number ≡ self.old.number }
        ensures opening { self.new.opening ≡ self.old.opening }
        ensures one { IfOk result (λ done. (a : _) × (self.new.receipts ≡ self.old.receipts ++ (a, done.1) ∷ [])) }
        ensures made { IfOk result (λ done. B.makes body.now done.0 done.1.calls) }
        ensures last { IfOk result (λ done. (self.old.last ≤ done.1.number) × (self.new.last ≡ done.1.number)) }
        ensures none { OnErr result ((self.new.receipts ≡ self.old.receipts) × (self.new.last ≡ self.old.last)) }
        ensures aborts { IfErr result (IsAbortBy (B.aborts body.now)) }
        ensures asks { HasAsked false self.old.asked self.new.asked }
        ensures counted { AreCounted tries self.old.tally self.new.tally result }
    {
        self.retry_as(tries, body, false)
    }

    /// Runs the body as one declared reader, like [`crate::Client::look`].
    ///
    /// ```
    /// let (held, receipt) = store.atomically(1_000, &Count(word))?;
    /// let (then, reader) = store.look(1_000, &Held(word))?;
    /// let same = reader.number == receipt.number; // true
    /// ```
    pub fn look<B: Body<V>>(
        &mut self,
        tries: u64,
        body: &B,
    ) -> Result<(B::Out, Receipt<V>), Failure<B::Error>>
        ensures number { self.new.number ≡ self.old.number }
        ensures opening { self.new.opening ≡ self.old.opening }
        ensures one { IfOk result (λ done. (a : _) × (self.new.receipts ≡ self.old.receipts ++ (a, done.1) ∷ [])) }
        ensures made { IfOk result (λ done. B.makes body.now done.0 done.1.calls) }
        ensures last { IfOk result (λ done. (self.old.last ≤ done.1.number) × (self.new.last ≡ done.1.number)) }
        ensures none { OnErr result ((self.new.receipts ≡ self.old.receipts) × (self.new.last ≡ self.old.last)) }
        ensures aborts { IfErr result (IsAbortBy (B.aborts body.now)) }
        ensures asks { HasAsked true self.old.asked self.new.asked }
        ensures counted { AreCounted tries self.old.tally self.new.tally result }
        ensures reads { IfOk result (λ done. done.1.writes ≡ false) }
    {
        self.retry_as(tries, body, true)
    }

    fn retry_as<B: Body<V>>(
        &mut self,
        tries: u64,
        body: &B,
        declared: bool,
    ) -> Result<(B::Out, Receipt<V>), Failure<B::Error>>
        ensures number { self.new.number ≡ self.old.number }
        ensures opening { self.new.opening ≡ self.old.opening }
        ensures one { IfOk result (λ done. (a : _) × (self.new.receipts ≡ self.old.receipts ++ (a, done.1) ∷ [])) }
        ensures made { IfOk result (λ done. B.makes body.now done.0 done.1.calls) }
        ensures last { IfOk result (λ done. (self.old.last ≤ done.1.number) × (self.new.last ≡ done.1.number)) }
        ensures none { OnErr result ((self.new.receipts ≡ self.old.receipts) × (self.new.last ≡ self.old.last)) }
        ensures aborts { IfErr result (IsAbortBy (B.aborts body.now)) }
        ensures asks { HasAsked declared self.old.asked self.new.asked }
        ensures counted { AreCounted tries self.old.tally self.new.tally result }
        ensures reads { IfOk result (λ done. declared ≡ true → done.1.writes ≡ false) }
    {
        match self.seat.take() {
            Some(seat) => {
                let (seat, tally, ended) = retry(
                    &self.table,
                    Caller::new(self.number, 0),
                    seat,
                    self.tally,
                    body,
                    declared,
                    tries,
                );
                self.seat = Some(seat);
                self.tally = tally;
                ended
            }
            None => unreachable!(),
        }
    }

    /// How the attempts of the store itself ended, counted. Those of a session are counted by its client.
    ///
    /// ```
    /// let tally = store.tally();
    /// let (attempts, committed) = (tally.attempts(), tally.committed); // 2, 2
    /// ```
    pub fn tally(&self) -> Tally
        ensures { result ≡ self.now.tally }
    {
        self.tally
    }

    /// The greatest number that the store, or a session of a `run`, committed or learnt; 0 at first.
    ///
    /// ```
    /// let (held, receipt) = store.atomically(1_000, &Count(word))?;
    /// let last = store.last_number(); // 1
    /// ```
    pub fn last_number(&self) -> u64
        ensures { result ≡ self.now.last }
    {
        match &self.seat {
            Some(seat) => seat.get().last_number(),
            None => unreachable!(),
        }
    }

    /// Learns the number of a commit at this store, like [`crate::Client::learn`].
    ///
    /// ```
    /// let last = store.last_number(); // 1
    /// let learnt = store.learn(last); // Ok(())
    /// let ahead = store.learn(99); // Err(Ahead { clock: 1 })
    /// ```
    pub fn learn(&mut self, number: u64) -> Result<(), Refusal>
        ensures number { self.new.number ≡ self.old.number }
        ensures opening { self.new.opening ≡ self.old.opening }
        ensures receipts { self.new.receipts ≡ self.old.receipts }
        ensures asks { self.new.asked ≡ self.old.asked }
        ensures counts { self.new.tally ≡ self.old.tally }
        ensures learns { OnOk result (self.new.last ≡ max self.old.last number) }
        ensures none { OnErr result (self.new.last ≡ self.old.last) }
        ensures ahead { IfErr result (λ cause. (clock : _) × ((cause ≡ Ahead clock) × (clock < number))) }
    {
        match self.seat.take() {
            Some(seat) => {
                let mut seat = seat;
                let learnt = seat.get_mut().learn(&self.table, number);
                self.seat = Some(seat);
                learnt
            }
            None => unreachable!(),
        }
    }

    /// Serves each session in a thread of its own where one can be started, with a client of its own, and returns what they returned, in
    /// order, once all have ended. The receipts of the sessions are added to the store's, those of one session after those of another.
    ///
    /// `TooLong` beyond 64 sessions, and `Memory` where an allocation fails: then no session was served, and the store is unchanged. Of 64
    /// the first one's client is the store's own actor, with its own counts.
    ///
    /// Where a thread can't be started, its session is served after others; so a session that waits for another one to do something may
    /// wait forever.
    ///
    /// ```
    /// let visits = vec![in alloc; Visit { alloc, word }]?;
    /// let outs = store.run(rt, visits)?;
    /// ```
    pub fn run<R: Threads + Sync, N: Session<V> + Drop + Send>(
        &mut self,
        rt: &R,
        sessions: Vec<N>,
    ) -> Result<Vec<N::Out>, Refusal>
    where
        V: Send + Sync,
        N::Out: Send,
        ensures number { self.new.number ≡ self.old.number }
        ensures opening { self.new.opening ≡ self.old.opening }
        ensures all { IfOk result (λ outs. HaveServed N.serves sessions.items outs.items self.old.receipts self.new.receipts) }
        ensures last { self.old.last ≤ self.new.last }
        ensures asks { length sessions.items < SHARES → self.new.asked ≡ self.old.asked }
        ensures counts { self.new.tally ≡ self.old.tally }
        ensures none { OnErr result (self.new ≡ self.old) }
        ensures why { IfErr result (IsWhy (length sessions.items)) }
    {
        match self.seat.take() {
            Some(seat) => {
                let (seat, served) = serve(
                    rt,
                    self.alloc,
                    &self.table,
                    self.number,
                    seat,
                    sessions,
                );
                self.seat = Some(seat);
                served
            }
            None => unreachable!(),
        }
    }

    /// Makes it a lender of clients, for threads that `run` doesn't start. Where an allocation fails it is the store, unchanged.
    ///
    /// ```
    /// let Ok(mut lender) = store.lend() else {
    ///     return Err(Refusal::Memory);
    /// };
    /// let mut client = lender.client()?;
    /// ```
    pub fn lend(self) -> Result<Lender<V>, Store<V>>
        ensures lender { IfOk result (λ lender. lender ≡ record { store = self; shares = SHARES }) }
        ensures store { IfErr result (λ store. store ≡ self) }
    {
        let Store {
            alloc,
            number,
            table,
            seat,
            tally,
        } = self;
        match (Arc::new(alloc, table), seat) {
            (Ok(table), Some(seat)) => Ok(Lender {
                alloc,
                number,
                table,
                seat,
                tally,
                homes: Vec::new(alloc),
            }),
            (Err(refused), seat) => Err(Store {
                alloc,
                number,
                table: refused.value,
                seat,
                tally,
            }),
            _ => unreachable!(),
        }
    }

    /// Ends the store, and returns what it holds: what its receipts leave, one transaction after another in commit order. Where an
    /// allocation fails, it returns an [`Unread`], which still has all that; `?` makes this `Memory`, and drops it.
    ///
    /// ```
    /// let contents = store.close()?;
    /// let left = contents.word(word); // Some(11)
    /// ```
    pub fn close(self) -> Result<Contents<V>, Unread<V>>
        ensures number { IfOk result (λ contents. contents.store ≡ self.number) }
        ensures left { IfOk result (λ contents. IsLeftBy self contents.state) }
        ensures unread { IfErr result (λ unread. (unread.number ≡ self.number) × IsLeftBy self unread.state) }
    {
        self.end().read()
    }

    /// Ends the store, which takes no memory.
    fn end(self) -> Unread<V>
        ensures number { result.number ≡ self.number }
        ensures left { IsLeftBy self result.state }
    {
        let Store {
            alloc,
            number,
            table,
            seat,
            tally: _,
        } = self;
        match seat {
            Some(seat) => {
                let words = table.words();
                match seat.into_inner().close(table) {
                    Ok(closed) => Unread {
                        alloc,
                        number,
                        words,
                        closed,
                    },
                    Err(_) => unreachable!(),
                }
            }
            None => unreachable!(),
        }
    }
}
