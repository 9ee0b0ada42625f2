//! The program of a deletion, walked.
ghost use Rattle.std.specs.Prelude.{◌≡◌, ◌≤◌, ◌*◌, ◌∷◌, ℕ, Option, Some, IfOk, IfSome, true, false, length, drop};
ghost use Rattle.std.specs.Option.{option_copied};
ghost use Rattle.seq_model.specs.Programs.{after, asked, Answers};
ghost use Rattle.seq_model.specs.declared.job.Ask.TheVariants.{GiveUp};
ghost use Rattle.vac_model.specs.Balanced.{IsItemSound};
ghost use Rattle.client_sessions.specs.Sessions as programs;
ghost use Rattle.client_sessions.specs.Sessions.{SessionProgram};
ghost use Rattle.client_sessions.specs.Walks.{Comes};
ghost use Rattle.client_sessions.specs.Serving.{serves_on, waiter, IsServed};
ghost use Rattle.client_sessions.specs.GivenBack.{is_given_back, once_given_back};
ghost use Rattle.client_sessions.specs.Noted.{ArePassed, HasGivenBack};
ghost use Rattle.client_sessions.specs.declared.entry.Entry.TheVariants.{Customer as Client};
ghost use Rattle.seq_model.specs.Places.{IsPlaceIn};
ghost use Rattle.seq_model.specs.declared.call.Reply.TheVariants.{Value as AValue};

use crate::entry::Entry;
use crate::shared::SharedCustomer;
use crate::split::SplitCustomer;
use crate::walk::{Left, Stop, Walk, ask_of, put_customer};
use seq_model::{Ask, JobPlace, Memory, Reply};
use std::alloc::Global;
use vac_model::{ActionReply, Booking, Item, Kind, SERVE_LIMIT, Ticket, Wait, is_item_sound};

/// A customer whose wait ended, with a booking in its place where the item is there.
fn served(
    alloc: Global,
    found: Option<&SplitCustomer>,
    ticket: u64,
    booking: Option<Booking>,
) -> Result<SplitCustomer, Memory>
    ensures { IfOk result (λ who. who ≡ waiter ticket booking (option_copied found.entry)) }
{
    let mut who = match found {
        Some(found) => found.to_change(alloc, 1)?,
        None => SplitCustomer::new(alloc, 1)?,
    };
    who.end_wait(alloc, ticket)?;
    if let Some(booking) = booking {
        who.book(booking)?;
    }
    Ok(who)
}

/// Whether the reply is the item that a booking is of, with at least as many units used.
fn is_given_back(booking: &Booking, reply: &Reply<Entry>) -> bool
    ensures { result ≡ is_given_back booking.now reply.now }
{
    match reply {
        Reply::Value(Entry::Item(item)) => is_item_sound(item) && booking.units <= item.used,
        _ => false,
    }
}

/// The same of the first bookings, each of which has two calls and their replies: its item is got, and put.
fn are_given_back(bookings: &[Booking], replies: &[Reply<Entry>], count: usize) -> bool
    requires few { count ≤ length bookings.now }
    requires told { 2 * count ≤ length replies.now }
    ensures given { result ≡ true → (next : SessionProgram) → after (programs.give_all_back bookings.now next) replies.now
        ≡ after (programs.give_all_back (drop count bookings.now) next) (drop (2 * count) replies.now) }
    ensures gives_up { result ≡ false → (next : SessionProgram)
        → asked (after (programs.give_all_back bookings.now next) replies.now) ≡ GiveUp }
{
    for i in 0..count {
        if !is_given_back(&bookings[i], &replies[2 * i]) {
            return false;
        }
    }
    true
}

impl<'a> Walk<'a> {
    /// Makes the units of a booking free again.
    fn give_back(&mut self, booking: Booking) -> Result<(), Stop>
        ensures { (next : SessionProgram)
            → Comes (after (programs.get_item booking.kind booking.id (λ o. programs.give_back booking o next)) self.old) result
            (λ _. after next self.new) }
    {
        let item = match self.get_item(booking.kind, booking.id)? {
            Some(item) => item,
            None => return Err(Stop::GivesUp),
        };
        if item.used < booking.units {
            return Err(Stop::GivesUp);
        }
        let more = Item {
            used: item.used - booking.units,
            free: item.free + booking.units,
            ..item
        };
        self.put_item(booking.kind, booking.id, more)
    }

    /// Passes the replies to the calls that make the units of bookings free again, in one pass along both, and says of how many bookings
    /// both calls have theirs.
    fn pass_back(&mut self, bookings: &[Booking]) -> Result<usize, Stop>
        ensures few { IfOk result (λ passed. passed ≤ length bookings.now) }
        ensures comes { (next : SessionProgram) → Comes (after (programs.give_all_back bookings.now next) self.old) result
            (λ passed. after (programs.give_all_back (drop passed bookings.now) next) self.new) }
    {
        let Some((count, replies)) = self.take_pairs(bookings.len()) else {
            return Ok(0);
        };
        if are_given_back(bookings, replies, count) {
            Ok(count)
        } else {
            Err(Stop::GivesUp)
        }
    }

    fn give_list_back(&mut self, bookings: &[Booking]) -> Result<(), Stop>
        ensures { (next : SessionProgram)
            → Comes (after (programs.give_all_back bookings.now next) self.old) result (λ _. after next self.new) }
    {
        let passed = self.pass_back(bookings)?;
        for i in passed..bookings.len() {
            self.give_back(bookings[i])?;
        }
        Ok(())
    }

    /// Makes the units of the bookings from the one with this number on free again.
    fn give_back_from(&mut self, who: &SplitCustomer, from: usize) -> Result<(), Stop>
        ensures { (next : SessionProgram)
            → Comes (after (programs.give_all_back (drop from who.now.bookings) next) self.old) result (λ _. after next self.new) }
    {
        let (earlier, later) = who.bookings_from(from);
        self.give_list_back(earlier)?;
        self.give_list_back(later)
    }

    fn forget_all(&mut self, waits: &[Wait]) -> Result<(), Stop>
        ensures { (next : SessionProgram) → Comes (after (programs.forget_all waits.now next) self.old) result (λ _. after next self.new) }
    {
        let passed = self.skip(waits.len());
        for i in passed..waits.len() {
            self.remove_ticket(waits[i].ticket)?;
        }
        Ok(())
    }

    /// Takes the first ticket, which is this one, off its queue and out of the map.
    fn end_wait(&mut self, kind: Kind, ticket: u64) -> Result<(), Stop>
        ensures { (next : SessionProgram) → Comes (after (programs.end_wait kind ticket next) self.old) result (λ _. after next self.new) }
    {
        self.dequeue(kind)?;
        self.remove_ticket(ticket)
    }

    /// The customer of a ticket loses the wait, and gains a booking where there is one.
    fn change_waiter(
        &mut self,
        customer: u64,
        ticket: u64,
        booking: Option<Booking>,
    ) -> Result<(), Stop>
        ensures { (next : SessionProgram)
            → Comes (after (programs.get_customer customer
            (λ o. programs.put_customer customer (waiter ticket booking o) next)) self.old) result
            (λ _. after next self.new) }
    {
        let found = self.get_customer(customer)?;
        if self.passes() {
            return Ok(());
        }
        let who = served(self.allocator(), found, ticket, booking)?;
        let shared = SharedCustomer::new(self.allocator(), who)?;
        Err(put_customer(customer, shared))
    }

    /// Serves a ticket that is in the map: how many it books, `None` where serving ends.
    fn serve_item(&mut self, kind: Kind, ticket: u64, waiting: Ticket) -> Result<Option<u64>, Stop>
        ensures comes { (later : ℕ → SessionProgram) (end : SessionProgram)
            → Comes (after (programs.serve_ticket kind ticket (Some waiting) later end) self.old) result
            (λ served. after (serves_on served later end) self.new) }
        ensures one { IfOk result (λ served. IsServed served) }
    {
        match self.get_item(waiting.kind, waiting.id)? {
            Some(item) => self.serve_from(kind, ticket, waiting, item),
            None => {
                self.end_wait(kind, ticket)?;
                self.change_waiter(waiting.customer, ticket, None)?;
                Ok(Some(0))
            }
        }
    }

    /// Books the units of a ticket, where as many are free.
    fn serve_from(
        &mut self,
        kind: Kind,
        ticket: u64,
        waiting: Ticket,
        item: Item,
    ) -> Result<Option<u64>, Stop>
        requires { IsItemSound item }
        ensures comes { (later : ℕ → SessionProgram) (end : SessionProgram)
            → Comes (after (programs.serve_item kind ticket waiting (Some item) later end) self.old) result
            (λ served. after (serves_on served later end) self.new) }
        ensures one { IfOk result (λ served. IsServed served) }
    {
        if waiting.units > item.free {
            return Ok(None);
        }
        let booked = Item {
            used: item.used + waiting.units,
            free: item.free - waiting.units,
            ..item
        };
        let booking = Booking {
            kind: waiting.kind,
            id: waiting.id,
            units: waiting.units,
            price: item.price,
        };
        self.end_wait(kind, ticket)?;
        self.put_item(waiting.kind, waiting.id, booked)?;
        self.change_waiter(waiting.customer, ticket, Some(booking))?;
        Ok(Some(1))
    }

    /// One step of serving: how many tickets it books, `None` where serving ends.
    fn serve_one(&mut self, kind: Kind) -> Result<Option<u64>, Stop>
        ensures comes { (later : ℕ → SessionProgram) (end : SessionProgram)
            → Comes (after (programs.peek kind (λ o. programs.serve_first kind o later end)) self.old) result
            (λ served. after (serves_on served later end) self.new) }
        ensures one { IfOk result (λ served. IsServed served) }
    {
        match self.peek(kind)? {
            Some(ticket) => self.serve_ticket(kind, ticket),
            None => Ok(None),
        }
    }

    /// Serves the first ticket of a queue.
    fn serve_ticket(&mut self, kind: Kind, ticket: u64) -> Result<Option<u64>, Stop>
        ensures comes { (later : ℕ → SessionProgram) (end : SessionProgram)
            → Comes (after (programs.serve_first kind (Some ticket) later end) self.old) result
            (λ served. after (serves_on served later end) self.new) }
        ensures one { IfOk result (λ served. IsServed served) }
    {
        match self.get_ticket(ticket)? {
            Some(waiting) => self.serve_item(kind, ticket, waiting),
            None => {
                self.dequeue(kind)?;
                Ok(Some(0))
            }
        }
    }

    /// Serves a queue until serving ends, or so many tickets were taken off: how many were booked.
    fn serve(&mut self, kind: Kind, most: u64) -> Result<u64, Stop>
        ensures comes { (next : ℕ → SessionProgram)
            → Comes (after (programs.serve most kind next) self.old) result (λ served. after (next served) self.new) }
        ensures few { IfOk result (λ served. served ≤ most) }
    {
        if most == 0 {
            return Ok(0);
        }
        match self.serve_one(kind)? {
            Some(one) => {
                let more = self.serve(kind, most - 1)?;
                Ok(one + more)
            }
            None => Ok(0),
        }
    }

    fn serve_freed(&mut self, who: &SplitCustomer, kind: Kind) -> Result<u64, Stop>
        ensures comes { (next : ℕ → SessionProgram)
            → Comes (after (programs.serve_freed who.now.bookings kind next) self.old) result (λ served. after (next served) self.new) }
        ensures few { IfOk result (λ served. served ≤ SERVE_LIMIT) }
    {
        if who.has_kind(kind) {
            self.serve(kind, SERVE_LIMIT)
        } else {
            Ok(0)
        }
    }

    fn serve_all(&mut self, who: &SplitCustomer) -> Result<u64, Stop>
        ensures { (next : ℕ → SessionProgram)
            → Comes (after (programs.serve_all who.now.bookings next) self.old) result (λ served. after (next served) self.new) }
    {
        let car = self.serve_freed(who, Kind::Car)?;
        let flight = self.serve_freed(who, Kind::Flight)?;
        let room = self.serve_freed(who, Kind::Room)?;
        Ok(car + flight + room)
    }

    pub(crate) fn delete(&mut self, customer: u64) -> Result<ActionReply, Stop>
        ensures { Comes (after (programs.delete customer) self.old) result (λ reply. Answers reply) }
    {
        match self.get_customer(customer)? {
            Some(who) => self.delete_from(customer, who, 0),
            None => Ok(ActionReply::Absent),
        }
    }

    /// A deletion from the booking with this number on.
    fn delete_from(
        &mut self,
        customer: u64,
        who: &SplitCustomer,
        from: usize,
    ) -> Result<ActionReply, Stop>
        requires { programs.is_customer_within who.now ≡ true }
        ensures { Comes (after (programs.give_all_back (drop from who.now.bookings) (once_given_back customer who.now)) self.old) result
            (λ reply. Answers reply) }
    {
        self.give_back_from(who, from)?;
        self.forget_all(who.waits())?;
        self.remove_customer(customer)?;
        let served = self.serve_all(who)?;
        Ok(ActionReply::Deleted(who.bill(), served))
    }
}

/// Passes the bookings whose two calls have their replies: whether each of them is given back.
fn pass_pairs(who: &SplitCustomer, replies: &[Reply<Entry>], passed: &mut usize) -> bool
    requires { ArePassed who.now replies.now passed.old }
    ensures passed { ArePassed who.now replies.now passed.new }
    ensures gives_up { result ≡ false → (next : SessionProgram)
        → asked (after (programs.give_all_back who.now.bookings next) replies.now) ≡ GiveUp }
{
    let count = replies.len() / 2;
    'pairs: while *passed < count {
        let Some(booking) = who.booking(*passed) else {
            return true;
        };
        if !is_given_back(&booking, &replies[2 * *passed]) {
            return false;
        }
        *passed += 1;
    }
    true
}

/// What a deletion asks, once it has its customer, and what it notes.
fn ask_found(
    alloc: Global,
    customer: u64,
    who: &SplitCustomer,
    rest: &[Reply<Entry>],
    place: &mut JobPlace,
) -> Result<Ask<Entry>, Memory>
    requires within { programs.is_customer_within who.now ≡ true }
    requires place { IsPlaceIn (λ told noted. HasGivenBack told noted.heard) (AValue (Client who.now) ∷ rest.now) place.old }
    ensures ask { IfOk result (λ ask. ask ≡ asked (after (programs.delete_found customer (Some who.now)) rest.now)) }
    ensures place { IsPlaceIn (λ told noted. HasGivenBack told noted.heard) (AValue (Client who.now) ∷ rest.now) place.new }
{
    let mut passed = place.heard / 2;
    let given_back = pass_pairs(who, rest, &mut passed);
    place.heard = 2 * passed + 1;
    if !given_back {
        return Ok(Ask::GiveUp);
    }
    let (_, left) = rest.split_at(2 * passed);
    let mut walk = Walk::new(alloc, Left::Replies(left));
    ask_of(walk.delete_from(customer, who, passed))
}

/// The customer that the first reply names, where the session continues with it, and the replies after that one.
fn customer_first(replies: &[Reply<Entry>]) -> Option<(&SplitCustomer, &[Reply<Entry>])>
    ensures told { IfSome result (λ told. replies.now ≡ AValue (Client told.0.now) ∷ told.1.now) }
    ensures within { IfSome result (λ told. programs.is_customer_within told.0.now ≡ true) }
{
    let [Reply::Value(Entry::Customer(shared)), rest @ ..] = replies else {
        return None;
    };
    if shared.is_within() {
        Some((shared.get(), rest))
    } else {
        None
    }
}

/// What a deletion asks. It notes how many bookings were given back.
pub(crate) fn ask_deletion(
    alloc: Global,
    customer: u64,
    replies: &[Reply<Entry>],
    place: &mut JobPlace,
) -> Result<Ask<Entry>, Memory>
    requires { IsPlaceIn (λ told noted. HasGivenBack told noted.heard) replies.now place.old }
    ensures ask { IfOk result (λ ask. ask ≡ asked (after (programs.delete customer) replies.now)) }
    ensures place { IsPlaceIn (λ told noted. HasGivenBack told noted.heard) replies.now place.new }
{
    match customer_first(replies) {
        Some((who, rest)) => ask_found(alloc, customer, who, rest, place),
        None => {
            let mut walk = Walk::new(alloc, Left::Replies(replies));
            ask_of(walk.delete(customer))
        }
    }
}
