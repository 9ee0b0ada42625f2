//! The walk along a session's program by the replies so far: each call of the program takes its reply off, or is what is asked next.
ghost use Rattle.std.specs.Prelude.{◌≡◌, ◌≤◌, ◌*◌, ◌∷◌, ℕ, List, [], Option, true, false, length, drop};
ghost use Rattle.std.specs.Prelude.{IsTrue, IfOk, IfNone, IfSome, MatchOption};
ghost use Rattle.std.specs.List.{list_all};
ghost use Rattle.std.specs.Option.{option_copied};
ghost use Rattle.seq_model.specs.declared.call.Op.TheVariants.{Get as Got};
ghost use Rattle.seq_model.specs.declared.call.Reply.{Reply as AReply};
ghost use Rattle.seq_model.specs.Programs.{Answers, after, asked};
ghost use Rattle.seq_model.specs.Programs.{Asks as Due};
ghost use Rattle.vac_model.specs.Balanced.{IsItemSound};
ghost use Rattle.vac_model.specs.declared.item.Item.{Item as AnItem};
ghost use Rattle.vac_model.specs.declared.item.Customer.{Customer as ACustomer};
ghost use Rattle.vac_model.specs.declared.item.Ticket.{Ticket as ATicket};
ghost use Rattle.client_sessions.specs.declared.entry.Entry.{Entry as AnEntry};
ghost use Rattle.client_sessions.specs.declared.walk.Stop.TheVariants.{Memory as OutOfMemory};
ghost use Rattle.client_sessions.specs.Sessions as programs;
ghost use Rattle.client_sessions.specs.Sessions.{SessionProgram};
ghost use Rattle.client_sessions.specs.Gets.{get_due, tells_item};
ghost use Rattle.client_sessions.specs.Left.{replies_in};
ghost use Rattle.client_sessions.specs.Walks.{Comes, IsStop};

use crate::entry::Entry;
use crate::shared::SharedCustomer;
use crate::split::SplitCustomer;
use seq_model::{Ask, Call, Memory, Op, Reply};
use std::alloc::{AllocError, Global};
use std::marker::Model;
use vac_model::{ActionReply, Ask as ItemAsk, Item, Kind, TICKET_LIMIT, Ticket, is_item_sound};

/// Why a walk does not reach the end of its program.
#[derive(Drop)]
pub(crate) enum Stop {
    /// This call is asked next.
    Asks(Call<Entry>),
    /// No balanced tables answer so.
    GivesUp,
    /// An allocation failed.
    Memory,
}

impl From<Memory> for Stop {
    ghost from_gives = { λ _ stop. stop ≡ OutOfMemory };

    fn from(_error: Memory) -> Stop {
        Stop::Memory
    }
}

impl From<AllocError> for Stop {
    ghost from_gives = { λ _ stop. stop ≡ OutOfMemory };

    fn from(_error: AllocError) -> Stop {
        Stop::Memory
    }
}

/// The replies that no call was found for yet: alone, or each after its call.
#[derive(Clone, Copy)]
pub(crate) enum Left<'a> {
    Replies(&'a [Reply<Entry>]),
    Calls(&'a [(Call<Entry>, Reply<Entry>)]),
}

/// A walk along a program by the replies to its calls.
#[derive(Drop)]
pub(crate) struct Walk<'a> {
    alloc: Global,
    left: Left<'a>,
}

impl<'a> Model for Walk<'a> {
    ghost use Rattle.std.specs.Prelude.{List};
    ghost use Rattle.seq_model.specs.declared.call.Reply.{Reply as AReply};
    ghost use Rattle.client_sessions.specs.declared.entry.Entry.{Entry as AnEntry};
    ghost use Rattle.client_sessions.specs.Left.{replies_in};

    ghost Value = { List (AReply AnEntry) };

    ghost view = { λ a. replies_in a.left };
}

/// What a session asks where this is the result of its walk.
#[inline(always)]
pub(crate) fn ask_of(came: Result<ActionReply, Stop>) -> Result<Ask<Entry>, Memory>
    ensures { (p : SessionProgram) → Comes p came (λ reply. Answers reply) → IfOk result (λ ask. ask ≡ asked p) }
{
    match came {
        Ok(_) => Ok(Ask::Done),
        Err(Stop::Asks(call)) => Ok(Ask::Call(call)),
        Err(Stop::GivesUp) => Ok(Ask::GiveUp),
        Err(Stop::Memory) => Err(Memory),
    }
}

// The numbers of the maps of customers and of tickets, and of the word that is the next ticket.
const CUSTOMERS: u32 = 3;

const TICKETS: u32 = 4;

const NEXT_TICKET: u32 = 0;

/// The number of the map of a kind's items.
pub(crate) fn map_of(kind: Kind) -> u32
    ensures { result ≡ programs.map_of kind }
{
    match kind {
        Kind::Car => 0,
        Kind::Flight => 1,
        Kind::Room => 2,
    }
}

/// The number of the queue of a kind.
fn queue_of(kind: Kind) -> u32
    ensures { result ≡ programs.queue_of kind }
{
    match kind {
        Kind::Car => 5,
        Kind::Flight => 6,
        Kind::Room => 7,
    }
}

// ---- what a reply says: the program aborts where no balanced tables answer it

pub(crate) fn item_in(reply: &Reply<Entry>) -> Result<Option<Item>, Stop>
    ensures comes { (next : Option AnItem → SessionProgram) (left : List (AReply AnEntry))
        → Comes (after (programs.item_in reply.now next) left) result (λ item. after (next item) left) }
    ensures sound { IfOk result (λ item. (i : AnItem) → item ≡ Some i → IsItemSound i) }
{
    match reply {
        Reply::Nothing => Ok(None),
        Reply::Value(Entry::Item(item)) => {
            if is_item_sound(item) {
                Ok(Some(*item))
            } else {
                Err(Stop::GivesUp)
            }
        }
        _ => Err(Stop::GivesUp),
    }
}

/// Whether the reply is an item, or says that there is none.
fn tells_item(reply: &Reply<Entry>) -> bool
    ensures { result ≡ tells_item reply.now }
{
    match reply {
        Reply::Nothing => true,
        Reply::Value(Entry::Item(item)) => is_item_sound(item),
        _ => false,
    }
}

pub(crate) fn tell_items(replies: &[Reply<Entry>]) -> bool
    ensures { result ≡ list_all tells_item replies.now }
{
    for reply in replies {
        if !tells_item(reply) {
            return false;
        }
    }
    true
}

fn customer_in(reply: &Reply<Entry>) -> Result<Option<&SplitCustomer>, Stop>
    ensures comes { (next : Option ACustomer → SessionProgram) (left : List (AReply AnEntry))
        → Comes (after (programs.customer_in reply.now next) left) result (λ who. after (next (option_copied who)) left) }
    ensures within { IfOk result (λ who. (w : ACustomer) → option_copied who ≡ Some w → programs.is_customer_within w ≡ true) }
{
    match reply {
        Reply::Nothing => Ok(None),
        Reply::Value(Entry::Customer(who)) => {
            if who.is_within() {
                Ok(Some(who.get()))
            } else {
                Err(Stop::GivesUp)
            }
        }
        _ => Err(Stop::GivesUp),
    }
}

fn ticket_in(reply: &Reply<Entry>) -> Result<Option<Ticket>, Stop>
    ensures { (next : Option ATicket → SessionProgram) (left : List (AReply AnEntry))
        → Comes (after (programs.ticket_in reply.now next) left) result (λ ticket. after (next ticket) left) }
{
    match reply {
        Reply::Nothing => Ok(None),
        Reply::Value(Entry::Ticket(ticket)) => Ok(Some(*ticket)),
        _ => Err(Stop::GivesUp),
    }
}

fn first_in(reply: &Reply<Entry>) -> Result<Option<u64>, Stop>
    ensures { (next : Option ℕ → SessionProgram) (left : List (AReply AnEntry))
        → Comes (after (programs.first_in reply.now next) left) result (λ first. after (next first) left) }
{
    match reply {
        Reply::Nothing => Ok(None),
        Reply::Found(first) => Ok(Some(*first)),
        _ => Err(Stop::GivesUp),
    }
}

fn next_in(reply: &Reply<Entry>) -> Result<u64, Stop>
    ensures comes { (next : ℕ → SessionProgram) (left : List (AReply AnEntry))
        → Comes (after (programs.next_in reply.now next) left) result (λ number. after (next number) left) }
    ensures within { IfOk result (λ number. number ≤ TICKET_LIMIT) }
{
    match reply {
        Reply::Number(number) => {
            if *number <= TICKET_LIMIT {
                Ok(*number)
            } else {
                Err(Stop::GivesUp)
            }
        }
        _ => Err(Stop::GivesUp),
    }
}

/// How many pairs there are among the replies, up to this many, and what is left after these.
fn behind_pairs(replies: &[Reply<Entry>], most: usize) -> (usize, &[Reply<Entry>])
    ensures few { result.0 ≤ most }
    ensures count { 2 * result.0 ≤ length replies.now }
    ensures left { result.1.now ≡ drop (2 * result.0) replies.now }
{
    let half = replies.len() / 2;
    let pairs = if half < most { half } else { most };
    let (_, left) = replies.split_at(2 * pairs);
    (pairs, left)
}

/// The call that gets an item.
pub(crate) fn get_of(ask: ItemAsk) -> Call<Entry>
    ensures { result ≡ get_due ask }
{
    Call {
        target: map_of(ask.kind),
        op: Op::Get(ask.id),
    }
}

/// What a map holds at a key is asked next. It stands apart, so that what is asked weighs on no reply that is passed.
#[cold]
#[inline(never)]
pub(crate) fn asks_get(target: u32, key: u64) -> Stop
    ensures { (next : AReply AnEntry → SessionProgram) → IsStop result (Due (programs.on target (Got key)) next) }
{
    Stop::Asks(Call {
        target,
        op: Op::Get(key),
    })
}

/// An item is to be put.
pub(crate) fn asks_put(kind: Kind, id: u64, item: Item) -> Stop
    ensures { (next : SessionProgram) → IsStop result (programs.put_item kind id item next) }
{
    Stop::Asks(Call {
        target: map_of(kind),
        op: Op::Put(id, Entry::Item(item)),
    })
}

/// A customer is to be put.
pub(crate) fn put_customer(customer: u64, who: SharedCustomer) -> Stop
    ensures { (next : SessionProgram) → IsStop result (programs.put_customer customer who next) }
{
    let op = Op::Put(customer, Entry::Customer(who));
    Stop::Asks(Call {
        target: CUSTOMERS,
        op,
    })
}

impl<'a> Walk<'a> {
    pub(crate) fn new(alloc: Global, left: Left<'a>) -> Walk<'a>
        ensures { result ≡ replies_in left.entry }
    {
        Walk { alloc, left }
    }

    pub(crate) fn allocator(&self) -> Global {
        self.alloc
    }

    /// The replies, of which so many are taken off, where there are as many, and they stand alone.
    pub(crate) fn take(&mut self, count: usize) -> Option<&'a [Reply<Entry>]>
        ensures none { IfNone result (self.new ≡ self.old) }
        ensures told { IfSome result (λ told. told.now ≡ self.old) }
        ensures count { IfSome result (λ told. count ≤ length told.now) }
        ensures taken { IfSome result (λ told. self.new ≡ drop count told.now) }
    {
        if let Left::Replies(replies) = self.left {
            if count <= replies.len() {
                let (_, left) = replies.split_at(count);
                self.left = Left::Replies(left);
                return Some(replies);
            }
        }
        None
    }

    /// Takes off the replies that stand two by two, so many pairs at most, where they stand alone: how many pairs, and all replies.
    pub(crate) fn take_pairs(&mut self, most: usize) -> Option<(usize, &'a [Reply<Entry>])>
        ensures none { IfNone result (self.new ≡ self.old) }
        ensures told { IfSome result (λ told. told.1.now ≡ self.old) }
        ensures few { IfSome result (λ told. told.0 ≤ most) }
        ensures count { IfSome result (λ told. 2 * told.0 ≤ length told.1.now) }
        ensures taken { IfSome result (λ told. self.new ≡ drop (2 * told.0) told.1.now) }
    {
        let Left::Replies(replies) = self.left else {
            return None;
        };
        let (pairs, left) = behind_pairs(replies, most);
        self.left = Left::Replies(left);
        Some((pairs, replies))
    }

    /// Takes off as many replies as there are, so many at most, where they stand alone: how many.
    pub(crate) fn skip(&mut self, most: usize) -> usize
        ensures few { result ≤ most }
        ensures told { result ≤ length self.old }
        ensures taken { self.new ≡ drop result self.old }
    {
        let Left::Replies(replies) = self.left else {
            return 0;
        };
        let count = replies.len().min(most);
        let (_, left) = replies.split_at(count);
        self.left = Left::Replies(left);
        count
    }

    /// Takes the next reply off, where there is one.
    pub(crate) fn next(&mut self) -> Option<&'a Reply<Entry>>
        ensures { MatchOption result ((self.old ≡ []) × (self.new ≡ [])) (λ reply. self.old ≡ reply.now ∷ self.new) }
    {
        let left = self.left;
        match left {
            Left::Replies([reply, left @ ..]) => {
                self.left = Left::Replies(left);
                Some(reply)
            }
            Left::Calls([(_, reply), left @ ..]) => {
                self.left = Left::Calls(left);
                Some(reply)
            }
            _ => None,
        }
    }

    /// The reply to a call; without one, this is what is asked.
    fn reply(&mut self, target: u32, op: Op<Entry>) -> Result<&'a Reply<Entry>, Stop>
        ensures { (next : AReply AnEntry → SessionProgram)
            → Comes (after (Due (programs.on target op) next) self.old) result (λ reply. after (next reply.now) self.new) }
    {
        match self.next() {
            Some(reply) => Ok(reply),
            None => Err(Stop::Asks(Call { target, op })),
        }
    }

    // ---- items

    pub(crate) fn get_item(&mut self, kind: Kind, id: u64) -> Result<Option<Item>, Stop>
        ensures comes { (next : Option AnItem → SessionProgram)
            → Comes (after (programs.get_item kind id next) self.old) result (λ item. after (next item) self.new) }
        ensures sound { IfOk result (λ item. (i : AnItem) → item ≡ Some i → IsItemSound i) }
    {
        match self.next() {
            Some(reply) => item_in(reply),
            None => Err(asks_get(map_of(kind), id)),
        }
    }

    pub(crate) fn put_item(&mut self, kind: Kind, id: u64, item: Item) -> Result<(), Stop>
        ensures { (next : SessionProgram) → Comes (after (programs.put_item kind id item next) self.old) result (λ _. after next self.new) }
    {
        if self.passes() {
            return Ok(());
        }
        Err(asks_put(kind, id, item))
    }

    pub(crate) fn remove_item(&mut self, kind: Kind, id: u64) -> Result<(), Stop>
        ensures { (next : SessionProgram) → Comes (after (programs.remove_item kind id next) self.old) result (λ _. after next self.new) }
    {
        self.reply(map_of(kind), Op::Remove(id))?;
        Ok(())
    }

    // ---- customers

    pub(crate) fn get_customer(&mut self, customer: u64) -> Result<Option<&'a SplitCustomer>, Stop>
        ensures comes { (next : Option ACustomer → SessionProgram)
            → Comes (after (programs.get_customer customer next) self.old) result (λ who. after (next (option_copied who)) self.new) }
        ensures within { IfOk result (λ who. (w : ACustomer) → option_copied who ≡ Some w → programs.is_customer_within w ≡ true) }
    {
        match self.next() {
            Some(reply) => customer_in(reply),
            None => Err(asks_get(CUSTOMERS, customer)),
        }
    }

    /// Whether the call that is next has its reply: then it is passed over. So what the call would put is made only to be asked.
    pub(crate) fn passes(&mut self) -> bool
        ensures passed { IsTrue result → (reply : AReply AnEntry) × (self.old ≡ reply ∷ self.new) }
        ensures due { result ≡ false → self.old ≡ [] }
    {
        self.next().is_some()
    }

    pub(crate) fn remove_customer(&mut self, customer: u64) -> Result<(), Stop>
        ensures { (next : SessionProgram)
            → Comes (after (programs.remove_customer customer next) self.old) result (λ _. after next self.new) }
    {
        self.reply(CUSTOMERS, Op::Remove(customer))?;
        Ok(())
    }

    // ---- tickets and queues

    pub(crate) fn get_ticket(&mut self, number: u64) -> Result<Option<Ticket>, Stop>
        ensures { (next : Option ATicket → SessionProgram)
            → Comes (after (programs.get_ticket number next) self.old) result (λ ticket. after (next ticket) self.new) }
    {
        let reply = self.reply(TICKETS, Op::Get(number))?;
        ticket_in(reply)
    }

    pub(crate) fn put_ticket(&mut self, number: u64, ticket: Ticket) -> Result<(), Stop>
        ensures { (next : SessionProgram)
            → Comes (after (programs.put_ticket number ticket next) self.old) result (λ _. after next self.new) }
    {
        self.reply(TICKETS, Op::Put(number, Entry::Ticket(ticket)))?;
        Ok(())
    }

    pub(crate) fn remove_ticket(&mut self, number: u64) -> Result<(), Stop>
        ensures { (next : SessionProgram) → Comes (after (programs.remove_ticket number next) self.old) result (λ _. after next self.new) }
    {
        self.reply(TICKETS, Op::Remove(number))?;
        Ok(())
    }

    pub(crate) fn read_next(&mut self) -> Result<u64, Stop>
        ensures comes { (next : ℕ → SessionProgram)
            → Comes (after (programs.read_next next) self.old) result (λ number. after (next number) self.new) }
        ensures within { IfOk result (λ number. number ≤ TICKET_LIMIT) }
    {
        let reply = self.reply(NEXT_TICKET, Op::Read)?;
        next_in(reply)
    }

    pub(crate) fn write_next(&mut self, number: u64) -> Result<(), Stop>
        ensures { (next : SessionProgram) → Comes (after (programs.write_next number next) self.old) result (λ _. after next self.new) }
    {
        self.reply(NEXT_TICKET, Op::Write(number))?;
        Ok(())
    }

    pub(crate) fn enqueue(&mut self, kind: Kind, number: u64) -> Result<(), Stop>
        ensures { (next : SessionProgram) → Comes (after (programs.enqueue kind number next) self.old) result (λ _. after next self.new) }
    {
        self.reply(queue_of(kind), Op::Enqueue(number))?;
        Ok(())
    }

    pub(crate) fn dequeue(&mut self, kind: Kind) -> Result<(), Stop>
        ensures { (next : SessionProgram) → Comes (after (programs.dequeue kind next) self.old) result (λ _. after next self.new) }
    {
        self.reply(queue_of(kind), Op::Dequeue)?;
        Ok(())
    }

    pub(crate) fn peek(&mut self, kind: Kind) -> Result<Option<u64>, Stop>
        ensures { (next : Option ℕ → SessionProgram)
            → Comes (after (programs.peek kind next) self.old) result (λ first. after (next first) self.new) }
    {
        let reply = self.reply(queue_of(kind), Op::Peek)?;
        first_in(reply)
    }
}
