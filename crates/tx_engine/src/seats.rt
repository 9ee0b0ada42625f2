//! A seat of a table, with the actor that runs there.
ghost use Rattle.std.specs.Prelude.{◌≡◌, ◌≢◌, ◌+◌, ◌<◌, ◌≤◌, [], ◌∷◌, ◌++◌, IfErr, IfOk, MatchBool, None, OnErr, OnOk, false, max, true};
ghost use Rattle.seq_model.specs.declared.call.Op.TheVariants as op;
ghost use Rattle.seq_model.specs.declared.refusal.Refusal.TheVariants.{Ahead};
ghost use Rattle.shared_table.specs.Seated.{opening_of, view};
ghost use Rattle.actor_laws.specs.KnownStages.{Rests};
ghost use Rattle.tx_turns.specs.Begins.{begins_of};
ghost use Rattle.tx_turns.specs.Driven.{is_declared, standing};
ghost use Rattle.tx_turns.specs.RequestHistory.{requests_of};
ghost use Rattle.tx_engine.specs.Ready.{HasBegunSince, HasCalled, HasFinished, HasOpened, IsNew, IsReady};
ghost use Rattle.tx_engine.specs.Requests.{HasAborted, HasAskedToBegin, HasSameAborted, IsBegun, IsLastAborted, IsNotBegun, IsOpen};
ghost use Rattle.tx_engine.specs.Requests.{KeepsReceipts, OnlyKnows};

use crate::reply_room::ReplyRoom;
use actor_parts::Boxed;
use replay_log::Base;
use seq_model::{Call, Op, Record, Refusal, Reply, Request, Value};
use shared_table::{Seat, TxTable};
use std::alloc::Global;
use tx_actor::{Stage, TxActor};

/// A seat of a table, with the actor that runs its transactions there, one at a time. Their requests are made by a [`crate::Tx`].
pub struct TxSeat<V> {
    pub(crate) seat: Seat<V>,
    pub(crate) actor: TxActor<V>,
    /// The bases that a request takes on its way are stored here. Between requests there are none, and the room is kept.
    pub(crate) bases: Vec<Boxed<Base<V>>>,
    // The replies to a job are stored here while it is attempted.
    pub(crate) replies: ReplyRoom<V>,
    pub(crate) alloc: Global,
}

impl<V: Drop> Drop for TxSeat<V> {
    fn drop(self) {
        let TxSeat {
            seat: _,
            actor: _,
            bases: _,
            replies: _,
            alloc: _,
        } = self;
    }
}

impl<V: Value> TxSeat<V> {
    /// Its seat alone, for a table that closes.
    pub(crate) fn into_seat(self) -> Seat<V>
        ensures { result ≡ self.seat }
    {
        let TxSeat {
            seat,
            actor,
            bases,
            replies,
            alloc: _,
        } = self;
        drop(replies);
        drop(bases);
        drop(actor);
        seat
    }

    /// A seat that opened with its table, or was split from another, gets its actor. It takes no memory.
    pub(crate) fn new(alloc: Global, table: &TxTable<V>, seat: Seat<V>) -> TxSeat<V>
        requires opened { HasOpened table.now }
        requires new { IsNew table.now seat }
        ensures ready { IsReady table.now result }
        ensures seat { result.seat ≡ seat }
    {
        let _ = table;
        TxSeat {
            seat,
            actor: TxActor::new(alloc),
            bases: Vec::new(alloc),
            replies: ReplyRoom::new(alloc),
            alloc,
        }
    }

    /// An empty list for the replies to a job, which has the room that the one before had, once that was handed back (`keep_replies`).
    pub(crate) fn take_replies(&mut self) -> Vec<Reply<V>>
        ensures empty { result.items ≡ [] }
        ensures same { (self.new.seat ≡ self.old.seat) × (self.new.actor ≡ self.old.actor) }
    {
        self.replies.take(self.alloc)
    }

    /// Keeps the list of an attempt for the next one, and clears it.
    pub(crate) fn keep_replies(&mut self, replies: Vec<Reply<V>>)
        ensures same { (self.new.seat ≡ self.old.seat) × (self.new.actor ≡ self.old.actor) }
    {
        self.replies.keep(replies);
    }

    /// Whether a transaction is open.
    pub fn is_open(&self) -> bool
        ensures { MatchBool result (self.now.actor.stage ≡ Stage.Open) (self.now.actor.stage ≢ Stage.Open) }
    {
        matches!(&self.actor.stage, Stage::Open)
    }

    /// An abort, like [`crate::Tx::abort`].
    pub(crate) fn abort(&mut self, table: &TxTable<V>)
        requires ready { IsReady table.now self.old }
        ensures ready { IsReady table.now self.new }
        ensures rests { standing (opening_of table.now) self.new.seat ≡ Rests }
        ensures keeps { KeepsReceipts self.old.seat self.new.seat }
        ensures aborted { IsOpen (opening_of table.now) self.old.seat → HasAborted (opening_of table.now) self.old.seat self.new.seat }
        ensures noted { IsOpen (opening_of table.now) self.old.seat →
            IsLastAborted (opening_of table.now) self.old.seat self.new.seat None }
        ensures none { standing (opening_of table.now) self.old.seat ≡ Rests → self.new ≡ self.old }
        ensures begins { begins_of self.new.seat ≡ begins_of self.old.seat }
        ensures asks { IsOpen (opening_of table.now) self.old.seat →
            requests_of self.new.seat ≡ requests_of self.old.seat ++ Request.Abort ∷ [] }
    {
        if self.is_open() {
            crate::requests::abort(
                self.alloc,
                table,
                &mut self.seat,
                &mut self.actor,
                &mut self.bases,
            );
        }
    }

    /// A begin, like [`crate::begin`], with the number at which the transaction has begun.
    pub(crate) fn begin(&mut self, table: &TxTable<V>) -> Result<u64, Refusal>
        requires ready { IsReady table.now self.old }
        ensures ready { IsReady table.now self.new }
        ensures since { HasBegunSince table.now self.new }
        ensures keeps { KeepsReceipts self.old.seat self.new.seat }
        ensures begun { IfOk result (IsBegun false (opening_of table.now) self.old.seat self.new.seat) }
        ensures last { IfOk result (λ rv. self.old.seat.last ≤ rv) }
        ensures refused { IfErr result (IsNotBegun (opening_of table.now) self.old.seat self.new.seat) }
        ensures aborted { IsOpen (opening_of table.now) self.old.seat → HasAborted (opening_of table.now) self.old.seat self.new.seat }
        ensures noted { IsOpen (opening_of table.now) self.old.seat →
            IsLastAborted (opening_of table.now) self.old.seat self.new.seat None }
        ensures same { standing (opening_of table.now) self.old.seat ≡ Rests →
            HasSameAborted (opening_of table.now) self.old.seat self.new.seat }
        ensures begins { begins_of self.new.seat ≡ begins_of self.old.seat + 1 }
        ensures asks { HasAskedToBegin false (opening_of table.now) self.old.seat self.new.seat }
    {
        self.abort(table);
        crate::requests::begin(
            self.alloc,
            table,
            &mut self.seat,
            &mut self.actor,
            &mut self.bases,
        )
    }

    /// A declared reader's begin, like [`crate::begin_read`].
    pub(crate) fn begin_read(&mut self, table: &TxTable<V>) -> Result<u64, Refusal>
        requires ready { IsReady table.now self.old }
        ensures ready { IsReady table.now self.new }
        ensures since { HasBegunSince table.now self.new }
        ensures keeps { KeepsReceipts self.old.seat self.new.seat }
        ensures begun { IfOk result (IsBegun true (opening_of table.now) self.old.seat self.new.seat) }
        ensures last { IfOk result (λ rv. self.old.seat.last ≤ rv) }
        ensures refused { IfErr result (IsNotBegun (opening_of table.now) self.old.seat self.new.seat) }
        ensures aborted { IsOpen (opening_of table.now) self.old.seat → HasAborted (opening_of table.now) self.old.seat self.new.seat }
        ensures noted { IsOpen (opening_of table.now) self.old.seat →
            IsLastAborted (opening_of table.now) self.old.seat self.new.seat None }
        ensures same { standing (opening_of table.now) self.old.seat ≡ Rests →
            HasSameAborted (opening_of table.now) self.old.seat self.new.seat }
        ensures begins { begins_of self.new.seat ≡ begins_of self.old.seat + 1 }
        ensures asks { HasAskedToBegin true (opening_of table.now) self.old.seat self.new.seat }
        ensures reader { is_declared (opening_of table.now) self.new.seat ≡ true }
    {
        self.abort(table);
        crate::requests::begin_read(
            self.alloc,
            table,
            &mut self.seat,
            &mut self.actor,
            &mut self.bases,
        )
    }

    /// A word is read, like [`crate::Tx::read`].
    pub(crate) fn read(&mut self, table: &TxTable<V>, word: u32) -> Result<Reply<V>, Refusal>
        requires ready { IsReady table.now self.old }
        requires since { HasBegunSince table.now self.old }
        ensures called { HasCalled table.now self.old self.new (record { target = word; op = op.Read }) result }
    {
        let call = Call {
            target: word,
            op: Op::Read,
        };
        self.call(table, call)
    }

    /// A word is written, like [`crate::Tx::write`].
    pub(crate) fn write(
        &mut self,
        table: &TxTable<V>,
        word: u32,
        value: u64,
    ) -> Result<Reply<V>, Refusal>
        requires ready { IsReady table.now self.old }
        requires since { HasBegunSince table.now self.old }
        ensures called { HasCalled table.now self.old self.new (record { target = word; op = op.Write value }) result }
    {
        let call = Call {
            target: word,
            op: Op::Write(value),
        };
        self.call(table, call)
    }

    /// A commit, like [`crate::Tx::commit`].
    pub(crate) fn commit(&mut self, table: &TxTable<V>) -> Result<Record<V>, Refusal>
        requires ready { IsReady table.now self.old }
        requires since { HasBegunSince table.now self.old }
        ensures finished { HasFinished table.now self.old self.new result }
    {
        if !self.is_open() {
            return Err(Refusal::NoTransaction);
        }
        let receipt = crate::commits::commit(
            self.alloc,
            table,
            &mut self.seat,
            &mut self.actor,
            &mut self.bases,
        )?;
        self.seat.note(receipt.number);
        Ok(receipt)
    }

    /// The seat learns of a commit with this number, which other seats made: its next transaction begins at that number, or above it.
    /// The clock is loaded first, once. `Ahead` where it is below the number, and the number is not learnt. An open transaction is still
    /// open; one that began below a number that was learnt may only be aborted.
    pub fn learn(&mut self, table: &TxTable<V>, number: u64) -> Result<(), Refusal>
        requires ready { IsReady table.now self.old }
        ensures ready { IsReady table.now self.new }
        ensures knows { OnlyKnows (opening_of table.now) self.old.seat self.new.seat }
        ensures stays { standing (opening_of table.now) self.new.seat ≡ standing (opening_of table.now) self.old.seat }
        ensures learns { OnOk result (self.new.seat.last ≡ max self.old.seat.last number) }
        ensures ahead { IfErr result (λ cause. (cause ≡ Ahead (view self.new.seat).clock) × ((view self.new.seat).clock < number)) }
        ensures last { OnErr result (self.new.seat.last ≡ self.old.seat.last) }
    {
        let clock = table.look(&mut self.seat);
        if clock < number {
            return Err(Refusal::Ahead { clock });
        }
        self.seat.note(number);
        Ok(())
    }

    /// The greatest number that this seat committed or learnt; 0 at first.
    pub fn last_number(&self) -> u64
        ensures { result ≡ self.now.seat.last }
    {
        self.seat.last_number()
    }
}
