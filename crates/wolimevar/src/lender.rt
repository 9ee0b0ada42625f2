//! A store that lends clients.
//!
//! A lender is a store whose table has several owners: itself, and the clients that it has lent. A client that is dropped leaves its
//! seat in its home ([`crate::homes`]), from which the lender takes it back. Once all are back, the lender is a store again.
ghost use Rattle.std.specs.Prelude.{◌≡◌, ◌⊎◌, ◌+◌, ◌-◌, ◌<◌, ◌≤◌, ◌++◌, [], All, IfErr, IfOk, IfSome, OnErr, OnOk};
ghost use Rattle.std.specs.Arc.{arc_value};
ghost use Rattle.seq_model.specs.declared.refusal.Refusal.TheVariants.{Memory as OutOfMemory, TooLong};
ghost use Rattle.shared_table.specs.Seated.{view};
ghost use Rattle.shared_table.specs.declared.view.TheConstants.{SHARES};
ghost use Rattle.tx_turns.specs.RequestHistory.{requests_of};
ghost use Rattle.tx_engine.specs.Ready.{IsReady};
ghost use Rattle.tx_client.specs.Backs.{IsBack, shares_at};
ghost use Rattle.wolimevar.specs.Homes.{IsHomeOf};
ghost use Rattle.wolimevar.specs.Lenders.{HasBack, HasTakenBack};
ghost use Rattle.tx_client.specs.Frames.{receipts_at};
ghost use Rattle.wolimevar.specs.Splits.{HasLeft, IsUnused};

use crate::homes::{Home, Own, home_for};
use crate::lent::LentClient;
use crate::seats::{join_unused, split_off};
use crate::serving::Serving;
use crate::sessions::Session;
use crate::store::Store;
use actor_parts::Boxed;
use seq_model::{Memory, Refusal, Value};
use shared_table::{SHARES, TxTable};
use std::alloc::Global;
use std::marker::Model;
use std::sync::Arc;
use std::thread::Threads;
use tx_client::{Caller, Tally};
use tx_engine::TxSeat;

/// A store that lends clients to threads of the caller's own. [`crate::Store::lend`] makes it, [`Lender::end`] gives the store back.
///
/// Contracts see it as the store, whose receipts are those that it had and those of the clients that were taken back, and see how many of
/// the 64 shares it has. A client that is out has one.
pub struct Lender<V> {
    pub(crate) alloc: Global,
    pub(crate) number: u32,
    pub(crate) table: Arc<TxTable<V>>,
    pub(crate) seat: Boxed<TxSeat<V>>,
    pub(crate) tally: Tally,
    pub(crate) homes: Vec<Home<V>>,
}

impl<V: Drop> Drop for Lender<V> {
    fn drop(self) {
        let Lender {
            alloc: _,
            number: _,
            table: _,
            seat: _,
            tally: _,
            homes: _,
        } = self;
    }
}

impl<V> Model for Lender<V> {
    ghost use Rattle.std.specs.Arc.{arc_value};
    ghost use Rattle.std.specs.Coded.{codes};
    ghost use Rattle.seq_model.specs.Contents.{contents_code};
    ghost use Rattle.wolimevar.specs.Lenders.{IsAtLender, LenderShown, lender_at};

    ghost Value = { LenderShown V };

    ghost coded = { Prim.hlevel (codes, contents_code V.code) };

    ghost view = { λ a. lender_at a.number (arc_value a.table) a.seat a.tally };

    ghost invariant = { λ a. IsAtLender (arc_value a.table) a.seat a.homes.items };
}

/// A lender that can't end yet, since clients are out.
#[derive(Drop)]
pub struct StillLent<V> {
    pub lender: Lender<V>,
    /// How many clients are out.
    pub clients: u64,
}

impl<V: Value> Lender<V> {
    /// A client for any thread.
    ///
    /// `TooLong` where 63 are out, or were not taken back yet, and `Memory` where an allocation fails: then the lender is unchanged.
    ///
    /// ```
    /// let mut client = lender.client()?;
    /// let (held, written) = client.atomically(1_000, &Count(word))?;
    /// ```
    #[tactic(auto, using(crate::proofs::LenderLemmas::share_less))]
    pub fn client(&mut self) -> Result<LentClient<V>, Refusal>
        ensures same { self.new.store ≡ self.old.store }
        ensures share { IfOk result (λ _. self.new.shares + 1 ≡ self.old.shares) }
        ensures new { IfOk result (λ client. client.receipts ≡ []) }
        ensures none { OnErr result (self.new ≡ self.old) }
        ensures why { IfErr result (λ cause. ((cause ≡ TooLong) × (self.old.shares ≤ 1)) ⊎ (cause ≡ OutOfMemory)) }
    {
        if self.seat.get().shares() <= 1 {
            return Err(Refusal::TooLong);
        }
        let Ok(table) = Arc::try_clone(&self.table) else {
            return Err(Refusal::Memory);
        };
        let seat = self.seat.get_mut();
        let Ok((own, home)) = lend_out(self.alloc, &self.table, seat, &mut self.homes) else {
            return Err(Refusal::Memory);
        };
        let caller = Caller::new(self.number, self.seat.get().shares());
        Ok(LentClient::of(Own { table, home }, caller, own))
    }

    /// Has a client serve the session in a thread of its own. Where no thread can be started, it is served before this returns.
    ///
    /// Refused like [`Lender::client`]: then the session was not served, and the lender is unchanged.
    ///
    /// ```
    /// let serving = lender.spawn(rt, Visit { alloc, word })?;
    /// let answers = serving.join(rt);
    /// ```
    pub fn spawn<R: Threads, N: Session<V> + Drop + Send + 'static>(
        &mut self,
        rt: &R,
        session: N,
    ) -> Result<Serving<V, N>, Refusal>
    where
        V: Send + Sync + 'static,
        N::Out: Send + 'static,
        ensures same { self.new.store ≡ self.old.store }
        ensures share { IfOk result (λ _. self.new.shares + 1 ≡ self.old.shares) }
        ensures session { IfOk result (λ serving. serving ≡ session) }
        ensures none { OnErr result (self.new ≡ self.old) }
        ensures why { IfErr result (λ cause. ((cause ≡ TooLong) × (self.old.shares ≤ 1)) ⊎ (cause ≡ OutOfMemory)) }
    {
        let client = self.client()?;
        Ok(Serving::start(rt, client, session))
    }

    /// Takes back the clients that were dropped, and returns how many are still out. Their receipts are added to the store's, those of one
    /// client after those of another.
    ///
    /// No clause says which clients it finds. A client whose drop has returned is found, if that drop came before, as where its thread was
    /// joined.
    ///
    /// ```
    /// drop(client);
    /// let out = lender.take_back(); // 0
    /// ```
    #[tactic(auto, using(crate::proofs::LenderLemmas::taken_back))]
    pub fn take_back(&mut self) -> u64
        ensures back { HasTakenBack self.old self.new }
        ensures out { result ≡ SHARES - self.new.shares }
    {
        join_all(&self.table, self.seat.get_mut(), self.homes.as_slice());
        SHARES.saturating_sub(self.seat.get().shares())
    }

    /// Takes back the clients that were dropped, and gives the store back, which has the receipts of all. While a client is out, or is just
    /// being dropped, it gives back the lender, with what was taken back. No clause says that `clients` is above 0 then.
    ///
    /// ```
    /// let Ok(store) = lender.end() else {
    ///     return Err(Refusal::NotIdle);
    /// };
    /// let contents = store.close()?;
    /// ```
    pub fn end(mut self) -> Result<Store<V>, StillLent<V>>
        ensures store { IfOk result (λ store. HasTakenBack self (record { store = store; shares = SHARES })) }
        ensures lender { IfErr result (λ still. HasTakenBack self still.lender) }
        ensures out { IfErr result (λ still. still.clients ≡ SHARES - still.lender.shares) }
    {
        let clients = self.take_back();
        match self.into_store() {
            Ok(store) => Ok(store),
            Err(lender) => Err(StillLent { lender, clients }),
        }
    }

    #[tactic(auto, using(crate::proofs::LenderLemmas::lender_ends))]
    fn into_store(self) -> Result<Store<V>, Lender<V>>
        ensures store { IfOk result (λ store. self ≡ record { store = store; shares = SHARES }) }
        ensures lender { IfErr result (λ lender. lender ≡ self) }
    {
        if self.seat.get().shares() != SHARES {
            return Err(self);
        }
        let Lender {
            alloc,
            number,
            table,
            seat,
            tally,
            homes,
        } = self;
        match Arc::try_unwrap(table) {
            Ok(table) => Ok(Store {
                alloc,
                number,
                table,
                seat: Some(seat),
                tally,
            }),
            Err(table) => Err(Lender {
                alloc,
                number,
                table,
                seat,
                tally,
                homes,
            }),
        }
    }
}

/// Splits a seat of one share off, and finds a home for it.
fn lend_out<V: Value>(
    alloc: Global,
    table: &TxTable<V>,
    seat: &mut TxSeat<V>,
    homes: &mut Vec<Home<V>>,
) -> Result<(Boxed<TxSeat<V>>, Home<V>), Memory>
    requires ready { IsReady table.now seat.old }
    requires fewer { 1 < (view seat.old.seat).shares }
    requires own { All (IsHomeOf table.now) homes.old.items }
    ensures ready { IsReady table.now seat.new }
    ensures own { All (IsHomeOf table.now) homes.new.items }
    ensures unused { IfOk result (λ lent. IsUnused table.now lent.0) }
    ensures home { IfOk result (λ lent. IsHomeOf table.now lent.1) }
    ensures left { OnOk result (HasLeft 1 seat.old.seat seat.new.seat) }
    ensures none { OnErr result (HasLeft 0 seat.old.seat seat.new.seat) }
{
    let own = split_off(alloc, table, seat)?;
    match home_for(alloc, table, homes) {
        Ok(home) => Ok((own, home)),
        Err(memory) => {
            join_unused(table, seat, own.into_inner());
            Err(memory)
        }
    }
}

/// Joins a seat that has come back, if there is one.
fn join_back<V: Value>(table: &TxTable<V>, seat: &mut TxSeat<V>, back: Option<TxSeat<V>>)
    requires ready { IsReady table.now seat.old }
    requires back { IfSome back (IsBack table.now) }
    ensures ready { IsReady table.now seat.new }
    ensures shares { (view seat.new.seat).shares ≡ (view seat.old.seat).shares + shares_at back }
    ensures receipts { (view seat.new.seat).receipts ≡ (view seat.old.seat).receipts ++ receipts_at back }
    ensures last { seat.old.seat.last ≤ seat.new.seat.last }
    ensures asks { requests_of seat.new.seat ≡ requests_of seat.old.seat }
{
    if let Some(other) = back {
        seat.join(table, other);
    }
}

/// Joins all seats that have come back.
fn join_all<V: Value>(table: &TxTable<V>, seat: &mut TxSeat<V>, homes: &[Home<V>])
    requires ready { IsReady table.now seat.old }
    requires own { All (IsHomeOf table.now) homes.now }
    ensures ready { IsReady table.now seat.new }
    ensures back { HasBack seat.old.seat seat.new.seat }
{
    'homes: for home in homes {
        join_back(table, seat, home.take());
    }
}
