//! A transaction that borrows the seat at which it runs.
ghost use Rattle.std.specs.Prelude.{◌≡◌, ◌<◌, IfErr, IfOk, OnErr, OnOk, false, max, true};
ghost use Rattle.std.specs.Borrow.{RestsIfErr, sem};
ghost use Rattle.seq_model.specs.declared.call.Op.TheVariants as op;
ghost use Rattle.seq_model.specs.declared.refusal.Refusal.TheVariants.{Ahead};
ghost use Rattle.shared_table.specs.Seated.{opening_of, view};
ghost use Rattle.tx_engine.specs.contracts.seats.TxSeat.{the_row};
ghost use Rattle.tx_engine.specs.Borrowed.{IsAborted, IsBegunSince, IsRefusedBegin};
ghost use Rattle.tx_turns.specs.Driven.{standing};
ghost use Rattle.tx_engine.specs.Ready.{HasBegunSince, HasCalled, HasFinished, IsReady};
ghost use Rattle.tx_engine.specs.Requests.{KeepsReceipts, OnlyKnows};

use crate::seats::TxSeat;
use seq_model::{Call, Op, Record, Refusal, Reply, Request, Value};
use shared_table::TxTable;

/// What a commit gives: the record of its transaction, which is called so where it stands among others.
pub type Receipt<V> = Record<V>;

/// A transaction at a seat of a table. One that is dropped while it is open holds no lock and no gate; it is open until its seat begins
/// the next one, which aborts it first, and [`resume`] gives it again.
#[derive(Drop)]
pub struct Tx<'a, V> {
    pub(crate) table: &'a TxTable<V>,
    pub(crate) seat: &'a mut TxSeat<V>,
}

/// A transaction begins; one that was left open at the seat is aborted first. `Exhausted` at the limit of the clock: none is open then, and
/// the seat has its receipts and its last number.
pub fn begin<'a, V: Value>(
    seat: &'a mut TxSeat<V>,
    table: &'a TxTable<V>,
) -> Result<Tx<'a, V>, Refusal>
    requires ready { IsReady table.now seat.old }
    ensures* refused { sem 𝓛 (RestsIfErr (the_row V.row) seat.entry (λ tx. tx.seat.ghost_name) result
        (IsRefusedBegin false table.now seat.old result)) }
    ensures same_reference { IfOk result (λ tx. tx.seat.ghost_name ≡ seat.entry.ghost_name) }
    ensures same_table { IfOk result (λ tx. tx.table.now ≡ table.now) }
    ensures ready { IfOk result (λ tx. IsReady table.now tx.seat.now) }
    ensures since { IfOk result (λ tx. HasBegunSince table.now tx.seat.now) }
    ensures keeps { IfOk result (λ tx. KeepsReceipts seat.old.seat tx.seat.now.seat) }
    ensures begun { IfOk result (λ tx. IsBegunSince false (opening_of table.now) seat.old tx.seat.now) }
{
    seat.begin(table)?;
    Ok(resume(seat, table))
}

/// A transaction begins that writes nothing, by the rules of `begin`: a change is `NoSuch` in it. It keeps no read set, so that its reads
/// are as many as its calls may be.
pub fn begin_read<'a, V: Value>(
    seat: &'a mut TxSeat<V>,
    table: &'a TxTable<V>,
) -> Result<Tx<'a, V>, Refusal>
    requires ready { IsReady table.now seat.old }
    ensures* refused { sem 𝓛 (RestsIfErr (the_row V.row) seat.entry (λ tx. tx.seat.ghost_name) result
        (IsRefusedBegin true table.now seat.old result)) }
    ensures same_reference { IfOk result (λ tx. tx.seat.ghost_name ≡ seat.entry.ghost_name) }
    ensures same_table { IfOk result (λ tx. tx.table.now ≡ table.now) }
    ensures ready { IfOk result (λ tx. IsReady table.now tx.seat.now) }
    ensures since { IfOk result (λ tx. HasBegunSince table.now tx.seat.now) }
    ensures keeps { IfOk result (λ tx. KeepsReceipts seat.old.seat tx.seat.now.seat) }
    ensures begun { IfOk result (λ tx. IsBegunSince true (opening_of table.now) seat.old tx.seat.now) }
{
    seat.begin_read(table)?;
    Ok(resume(seat, table))
}

/// The transaction that is open at the seat, whose last `Tx` was dropped. Where none is open, each request is refused as `NoTransaction`.
pub fn resume<'a, V: Value>(seat: &'a mut TxSeat<V>, table: &'a TxTable<V>) -> Tx<'a, V>
    ensures same_reference { result.seat.ghost_name ≡ seat.entry.ghost_name }
    ensures same_table { result.table.now ≡ table.now }
    ensures same_seat { result.seat.now ≡ seat.old }
{
    Tx { table, seat }
}

/// The seat learns of a commit with this number, like `TxSeat::learn`.
pub fn learn<V: Value>(table: &TxTable<V>, seat: &mut TxSeat<V>, number: u64) -> Result<(), Refusal>
    requires ready { IsReady table.now seat.old }
    ensures ready { IsReady table.now seat.new }
    ensures knows { OnlyKnows (opening_of table.now) seat.old.seat seat.new.seat }
    ensures stays { standing (opening_of table.now) seat.new.seat ≡ standing (opening_of table.now) seat.old.seat }
    ensures learns { OnOk result (seat.new.seat.last ≡ max seat.old.seat.last number) }
    ensures ahead { IfErr result (λ cause. (cause ≡ Ahead (view seat.new.seat).clock) × ((view seat.new.seat).clock < number)) }
    ensures last { OnErr result (seat.new.seat.last ≡ seat.old.seat.last) }
{
    seat.learn(table, number)
}

impl<'a, V: Value> Tx<'a, V> {
    /// The number at which the transaction has begun: it sees what was committed up to that number.
    pub fn began_at(&self) -> u64
        ensures { result ≡ self.now.seat.now.actor.rv }
    {
        self.seat.actor.rv
    }

    /// A call on a word or on a collection, with its reply. What it changes is seen by others once the transaction commits. `target` is the
    /// number of a word for `Read` and `Write`, and else of a collection.
    ///
    /// `NoTransaction` where none is open; then `NoSuch` where there is no such word or collection, or it is of another kind, and for a
    /// change in a declared reader; then `TooLong` past the limit of calls, or where what it reads or writes doesn't fit the sets: the
    /// transaction is as it was. `Moved` where a word or a location of a collection is locked, was changed since the transaction began, or
    /// changed between the two loads of a read (TL2, DISC 2006), `Stale` where what it copied of a collection has not the edition with
    /// which it is read, `GateBusy` where another seat held the collection's gate at each of 64 tries, and `Memory`: the transaction
    /// is ended.
    pub fn call(&mut self, op: Op<V>, target: u32) -> Result<Reply<V>, Refusal>
        requires ready { IsReady self.old.table.now self.old.seat.now }
        requires since { HasBegunSince self.old.table.now self.old.seat.now }
        ensures same_reference { self.new.seat.ghost_name ≡ self.old.seat.ghost_name }
        ensures same_table { self.new.table.now ≡ self.old.table.now }
        ensures called { HasCalled self.old.table.now self.old.seat.now self.new.seat.now
            (record { target = target; op = op }) result }
    {
        self.seat.call(self.table, Call { target, op })
    }

    /// A word is read, by the rules of `call`: refused as `NoTransaction`, `NoSuch`, `TooLong`, `Memory` or `Moved`.
    pub fn read(&mut self, word: u32) -> Result<Reply<V>, Refusal>
        requires ready { IsReady self.old.table.now self.old.seat.now }
        requires since { HasBegunSince self.old.table.now self.old.seat.now }
        ensures same_reference { self.new.seat.ghost_name ≡ self.old.seat.ghost_name }
        ensures same_table { self.new.table.now ≡ self.old.table.now }
        ensures called { HasCalled self.old.table.now self.old.seat.now self.new.seat.now
            (record { target = word; op = op.Read }) result }
    {
        self.seat.read(self.table, word)
    }

    /// A word is written, once the transaction commits, by the rules of `call`: refused as `NoTransaction`, `NoSuch`, `TooLong` or
    /// `Memory`.
    pub fn write(&mut self, word: u32, value: u64) -> Result<Reply<V>, Refusal>
        requires ready { IsReady self.old.table.now self.old.seat.now }
        requires since { HasBegunSince self.old.table.now self.old.seat.now }
        ensures same_reference { self.new.seat.ghost_name ≡ self.old.seat.ghost_name }
        ensures same_table { self.new.table.now ≡ self.old.table.now }
        ensures called { HasCalled self.old.table.now self.old.seat.now self.new.seat.now
            (record { target = word; op = op.Write value }) result }
    {
        self.seat.write(self.table, word, value)
    }

    /// The transaction commits: all its words are written, its changes to collections are made, and what it read is as it read it, at one
    /// moment. Its receipt has its calls with their replies, and its number is the last number of the seat from then on.
    ///
    /// `NoTransaction` where none is open. `Busy` where a location to be written is locked or was changed, `Invalid` where one that was
    /// read is locked by another or was changed (TL2, DISC 2006), `GateBusy` where another seat held the gate of a collection to be written
    /// at each of 64 tries, and `Memory`: the transaction is ended, and has written nothing.
    pub fn commit(self) -> Result<Receipt<V>, Refusal>
        requires ready { IsReady self.table.now self.seat.now }
        requires since { HasBegunSince self.table.now self.seat.now }
        ensures finished { HasFinished self.entry.table.now self.entry.seat.now self.exit.1.0.now result }
    {
        let Tx { table, seat } = self;
        seat.commit(table)
    }

    /// The transaction ends without a commit. Where it has ended already, nothing is done.
    pub fn abort(self)
        requires ready { IsReady self.table.now self.seat.now }
        ensures { IsAborted self.entry.table.now self.entry.seat.now self.exit.1.0.now }
    {
        let Tx { table, seat } = self;
        seat.abort(table);
    }
}
