//! The program of a reservation, walked.
ghost use Rattle.std.specs.Prelude.{◌≡◌, ◌≤◌, ℕ, Option, Some, None, IfOk, IfSome, OnOk, ◌||◌, unwrap_or, is_none, ◌&&◌, if◌then◌else◌};
ghost use Rattle.std.specs.Prelude.{length, drop, true, false};
ghost use Rattle.std.specs.Option.{option_copied};
ghost use Rattle.seq_model.specs.Programs.{after, asked, Answers};
ghost use Rattle.seq_model.specs.declared.job.Ask.TheVariants.{Call as NextCall, GiveUp};
ghost use Rattle.vac_model.specs.Actions as actions;
ghost use Rattle.vac_model.specs.declared.item.Item.{Item as AnItem};
ghost use Rattle.vac_model.specs.declared.item.Customer.{Customer as ACustomer};
ghost use Rattle.vac_model.specs.declared.item.Kind.TheVariants.{Car, Flight, Room};
ghost use Rattle.vac_model.specs.declared.action.KindReply.{KindReply as APart};
ghost use Rattle.vac_model.specs.Holdings.{newcomer};
ghost use Rattle.client_sessions.specs.Sessions as programs;
ghost use Rattle.client_sessions.specs.Sessions.{SessionProgram};
ghost use Rattle.client_sessions.specs.Walks.{Comes, IsStop, with_part};
ghost use Rattle.client_sessions.specs.Drafts.{drafted, added, adds, is_changed, part_for, AreSound, IsSound};
ghost use Rattle.vac_model.specs.Balanced.{IsItemSound};
ghost use Rattle.client_sessions.specs.Gets.{get_due, tells_item, item_told};
ghost use Rattle.vac_model.specs.Actions.{take_units};

use crate::entry::Entry;
use crate::shared::SharedCustomer;
use crate::split::SplitCustomer;
use crate::walk::{Stop, Walk, asks_get, asks_put, map_of, put_customer, tell_items};
use seq_model::{Memory, Reply};
use std::alloc::Global;
use vac_model::{
    ActionReply, Ask, Booking, Each, Item, Kind, KindReply, TICKET_LIMIT, Ticket, Wait,
    is_item_sound,
};

/// A customer with what was decided so far, which is not put yet.
#[derive(Clone, Copy)]
struct Draft<'a> {
    number: u64,
    units: u64,
    found: Option<&'a SplitCustomer>,
    car: KindReply,
    flight: KindReply,
    room: KindReply,
}

/// Whether the part adds a booking or a wait.
fn is_change(part: KindReply) -> bool
    ensures { result ≡ programs.is_change part }
{
    matches!(part, KindReply::Booked(..) | KindReply::Waits(..))
}

/// Whether the part adds a booking of the item or a wait for it.
fn adds(part: KindReply, id: u64) -> bool
    ensures { result ≡ adds id part }
{
    match part {
        KindReply::Booked(booked, ..) => booked == id,
        KindReply::Waits(awaited, _) => awaited == id,
        _ => false,
    }
}

/// Whether the customer held or awaited the item.
fn has_found(found: Option<&SplitCustomer>, kind: Kind, id: u64) -> bool
    ensures { result ≡ actions.has (unwrap_or (option_copied found.entry) newcomer) kind id }
{
    match found {
        Some(who) => who.has(kind, id),
        None => false,
    }
}

fn add_part(who: &mut SplitCustomer, units: u64, kind: Kind, part: KindReply) -> Result<(), Memory>
    ensures { OnOk result (who.new ≡ with_part units kind part who.old) }
{
    match part {
        KindReply::Booked(id, _, price) => who.book(Booking {
            kind,
            id,
            units,
            price,
        }),
        KindReply::Waits(id, ticket) => who.wait(Wait {
            kind,
            id,
            units,
            ticket,
        }),
        _ => Ok(()),
    }
}

impl Draft<'_> {
    /// What was decided for a kind.
    fn part(&self, kind: Kind) -> KindReply
        ensures { result ≡ part_for kind self.now }
    {
        match kind {
            Kind::Car => self.car,
            Kind::Flight => self.flight,
            Kind::Room => self.room,
        }
    }

    /// Whether the customer holds or awaits the item.
    fn has(&self, kind: Kind, id: u64) -> bool
        ensures { result ≡ actions.has (drafted self.now) kind id }
    {
        let had = has_found(self.found, kind, id);
        if had {
            return true;
        }
        let part = self.part(kind);
        adds(part, id)
    }

    /// Whether there is no place for a further booking or wait.
    fn is_full(&self) -> bool
        ensures { result ≡ actions.is_full (drafted self.now) }
    {
        match self.found {
            Some(who) => !who.has_places(self.added() as u64 + 1),
            None => false,
        }
    }

    /// Whether something was decided that changes the customer.
    fn is_changed(&self) -> bool
        ensures { result ≡ is_changed self.now }
    {
        is_change(self.car) || is_change(self.flight) || is_change(self.room)
    }

    /// Whether the customer is put, as one that is new or changed is.
    fn is_put(&self) -> bool
        ensures { (next : SessionProgram)
            → programs.put_changed self.now.number (option_copied self.now.found) (is_changed self.now) (drafted self.now) next
            ≡ (if result then programs.put_customer self.now.number (drafted self.now) next else next) }
    {
        self.found.is_none() || self.is_changed()
    }

    /// How many bookings and waits were decided.
    fn added(&self) -> usize
        ensures { result ≡ added self.now }
    {
        is_change(self.car) as usize
            + is_change(self.flight) as usize
            + is_change(self.room) as usize
    }

    /// The customer, to be put.
    fn customer(&self, alloc: Global) -> Result<SplitCustomer, Memory>
        ensures { IfOk result (λ who. who ≡ drafted self.now) }
    {
        let mut who = match self.found {
            Some(who) => who.to_change(alloc, self.added())?,
            None => SplitCustomer::new(alloc, self.added())?,
        };
        add_part(&mut who, self.units, Kind::Car, self.car)?;
        add_part(&mut who, self.units, Kind::Flight, self.flight)?;
        add_part(&mut who, self.units, Kind::Room, self.room)?;
        Ok(who)
    }
}

/// The best candidate of a kind, with what an ask of that kind found.
fn improve(best: &mut Option<(u64, Item)>, id: u64, item: &Item)
    requires item_sound { IsItemSound item.now }
    requires best_sound { IsSound best.old }
    ensures better { best.new ≡ actions.dearer best.old (Some (id, item.now)) }
    ensures sound { IsSound best.new }
{
    let dearer = match best {
        Some((_, had)) => had.price < item.price,
        None => true,
    };
    if dearer {
        *best = Some((id, *item));
    }
}

/// The best candidates of the three kinds, with what an ask found.
fn improve_kind(best: &mut Each<Option<(u64, Item)>>, ask: &Ask, item: &Item)
    requires item_sound { IsItemSound item.now }
    requires best_sound { AreSound best.old }
    ensures car { best.new.car ≡ programs.better Car ask.now (Some item.now) best.old.car }
    ensures flight { best.new.flight ≡ programs.better Flight ask.now (Some item.now) best.old.flight }
    ensures room { best.new.room ≡ programs.better Room ask.now (Some item.now) best.old.room }
    ensures sound { AreSound best.new }
{
    match ask.kind {
        Kind::Car => improve(&mut best.car, ask.id, item),
        Kind::Flight => improve(&mut best.flight, ask.id, item),
        Kind::Room => improve(&mut best.room, ask.id, item),
    }
}

/// The best candidates of the three kinds, with what the reply to an ask says: whether it is an item, or that there is none.
#[inline(always)]
fn improve_told(best: &mut Each<Option<(u64, Item)>>, ask: &Ask, reply: &Reply<Entry>) -> bool
    requires { AreSound best.old }
    ensures tells { result ≡ tells_item reply.now }
    ensures car { result ≡ true → best.new.car ≡ programs.better Car ask.now (item_told reply.now) best.old.car }
    ensures flight { result ≡ true → best.new.flight ≡ programs.better Flight ask.now (item_told reply.now) best.old.flight }
    ensures room { result ≡ true → best.new.room ≡ programs.better Room ask.now (item_told reply.now) best.old.room }
    ensures sound { AreSound best.new }
{
    match reply {
        Reply::Nothing => true,
        Reply::Value(Entry::Item(item)) => {
            let sound = is_item_sound(item);
            if sound {
                improve_kind(best, ask, item);
            }
            sound
        }
        _ => false,
    }
}

/// The best candidates of the three kinds, with the replies to all asks: whether each is an item, or says that there is none. It stands
/// apart, so that the candidates are in memory, and are not moved about at each ask.
#[inline(never)]
fn improve_all(best: &mut Each<Option<(u64, Item)>>, asks: &[Ask], replies: &[Reply<Entry>]) -> bool
    requires sound { AreSound best.old }
    requires told { length asks.now ≤ length replies.now }
    ensures gathers { result ≡ true → (next : Option (ℕ × AnItem) → Option (ℕ × AnItem) → Option (ℕ × AnItem) → SessionProgram)
        → after (programs.gather asks.now best.old.car best.old.flight best.old.room next) replies.now
        ≡ after (next best.new.car best.new.flight best.new.room) (drop (length asks.now) replies.now) }
    ensures gives_up { result ≡ false → (next : Option (ℕ × AnItem) → Option (ℕ × AnItem) → Option (ℕ × AnItem) → SessionProgram)
        → asked (after (programs.gather asks.now best.old.car best.old.flight best.old.room next) replies.now) ≡ GiveUp }
    ensures sound { AreSound best.new }
{
    for i in 0..asks.len() {
        if !improve_told(best, &asks[i], &replies[i]) {
            return false;
        }
    }
    true
}

/// Whether none of the items asked for exists.
fn no_candidate(best: &Each<Option<(u64, Item)>>) -> bool
    ensures { result ≡ (is_none best.now.car && (is_none best.now.flight && is_none best.now.room)) }
{
    best.car.is_none() && best.flight.is_none() && best.room.is_none()
}

/// The ask whose get comes next, where there are fewer replies than asks, each of which is an item or says that there is none.
pub(crate) fn due_of(asks: &[Ask], replies: &[Reply<Entry>]) -> Option<Ask>
    ensures { (customer units : ℕ) → IfSome result (λ due.
        asked (after (programs.reserve customer units asks.now) replies.now) ≡ NextCall (get_due due)) }
{
    let count = replies.len();
    if count < asks.len() && tell_items(replies) {
        Some(asks[count])
    } else {
        None
    }
}

/// The item is to be put with so many of its free units used. It stands apart, so that what is asked weighs on no reply that is passed.
#[cold]
#[inline(never)]
fn asks_units(kind: Kind, id: u64, units: u64, item: &Item) -> Stop
    requires sound { IsItemSound item.now }
    requires free { units ≤ item.now.free }
    ensures { (next : SessionProgram) → IsStop result (programs.put_item kind id (take_units units item.now) next) }
{
    let booked = Item {
        used: item.used + units,
        free: item.free - units,
        ..*item
    };
    asks_put(kind, id, booked)
}

impl<'a> Walk<'a> {
    /// The candidates of the three kinds, where not each ask has its reply, or each reply stands after its call.
    #[cold]
    #[inline(never)]
    fn gather_each(
        &mut self,
        asks: &[Ask],
        best: &mut Each<Option<(u64, Item)>>,
    ) -> Result<(), Stop>
        requires { AreSound best.old }
        ensures comes { (next : Option (ℕ × AnItem) → Option (ℕ × AnItem) → Option (ℕ × AnItem) → SessionProgram)
            → Comes (after (programs.gather asks.now best.old.car best.old.flight best.old.room next) self.old) result
            (λ _. after (next best.new.car best.new.flight best.new.room) self.new) }
        ensures sound { AreSound best.new }
    {
        for ask in asks {
            match self.next() {
                Some(reply) => {
                    if !improve_told(best, ask, reply) {
                        return Err(Stop::GivesUp);
                    }
                }
                None => return Err(asks_get(map_of(ask.kind), ask.id)),
            }
        }
        Ok(())
    }

    /// The candidates of the three kinds.
    fn gather(&mut self, asks: &[Ask], best: &mut Each<Option<(u64, Item)>>) -> Result<(), Stop>
        requires { AreSound best.old }
        ensures comes { (next : Option (ℕ × AnItem) → Option (ℕ × AnItem) → Option (ℕ × AnItem) → SessionProgram)
            → Comes (after (programs.gather asks.now best.old.car best.old.flight best.old.room next) self.old) result
            (λ _. after (next best.new.car best.new.flight best.new.room) self.new) }
        ensures sound { AreSound best.new }
    {
        match self.take(asks.len()) {
            Some(replies) => {
                if improve_all(best, asks, replies) {
                    Ok(())
                } else {
                    Err(Stop::GivesUp)
                }
            }
            None => self.gather_each(asks, best),
        }
    }

    /// A wait for the item, where there is a ticket for it.
    #[cold]
    #[inline(never)]
    fn line_up(&mut self, draft: &Draft<'_>, kind: Kind, id: u64) -> Result<KindReply, Stop>
        ensures { (next : APart → ACustomer → SessionProgram)
            → Comes (after (programs.read_next
            (programs.line_up draft.now.number draft.now.units kind id (drafted draft.now) next)) self.old)
            result (λ part. after (next part (with_part draft.now.units kind part (drafted draft.now))) self.new) }
    {
        let ticket = self.read_next()?;
        if ticket == TICKET_LIMIT {
            return Ok(KindReply::NoFree(id));
        }
        let wait = Ticket {
            customer: draft.number,
            kind,
            id,
            units: draft.units,
        };
        self.write_next(ticket + 1)?;
        self.put_ticket(ticket, wait)?;
        self.enqueue(kind, ticket)?;
        Ok(KindReply::Waits(id, ticket))
    }

    /// What becomes of the candidate of a kind.
    #[inline(always)]
    fn decide(
        &mut self,
        draft: &Draft<'_>,
        kind: Kind,
        candidate: &Option<(u64, Item)>,
    ) -> Result<KindReply, Stop>
        requires { IsSound candidate.now }
        ensures { (next : APart → ACustomer → SessionProgram)
            → Comes (after (programs.decide draft.now.number draft.now.units kind candidate.now (drafted draft.now) next) self.old)
            result (λ part. after (next part (with_part draft.now.units kind part (drafted draft.now))) self.new) }
    {
        let Some((id, item)) = candidate else {
            return Ok(KindReply::Nothing);
        };
        let id = *id;
        if draft.has(kind, id) {
            return Ok(KindReply::Already(id));
        }
        if draft.is_full() {
            return Ok(KindReply::Full(id));
        }
        let units = draft.units;
        if units > item.free {
            return self.line_up(draft, kind, id);
        }
        if self.passes() {
            return Ok(KindReply::Booked(id, units, item.price));
        }
        Err(asks_units(kind, id, units, item))
    }

    /// Puts the customer where it is new or changed.
    fn put_changed(&mut self, draft: &Draft<'_>) -> Result<(), Stop>
        ensures { (next : SessionProgram)
            → Comes (after (programs.put_changed draft.now.number (option_copied draft.now.found) (is_changed draft.now)
            (drafted draft.now) next) self.old) result (λ _. after next self.new) }
    {
        if !draft.is_put() || self.passes() {
            return Ok(());
        }
        let who = draft.customer(self.allocator())?;
        let shared = SharedCustomer::new(self.allocator(), who)?;
        Err(put_customer(draft.number, shared))
    }

    fn decide_all(
        &mut self,
        number: u64,
        units: u64,
        best: &Each<Option<(u64, Item)>>,
        found: Option<&SplitCustomer>,
    ) -> Result<ActionReply, Stop>
        requires { AreSound best.now }
        ensures { Comes (after (programs.decide_all number units best.now.car best.now.flight best.now.room
            (option_copied found.entry)) self.old) result (λ reply. Answers reply) }
    {
        let mut draft = Draft {
            number,
            units,
            found,
            car: KindReply::Nothing,
            flight: KindReply::Nothing,
            room: KindReply::Nothing,
        };
        draft.car = self.decide(&draft, Kind::Car, &best.car)?;
        draft.flight = self.decide(&draft, Kind::Flight, &best.flight)?;
        draft.room = self.decide(&draft, Kind::Room, &best.room)?;
        self.put_changed(&draft)?;
        Ok(ActionReply::Reserved(Each {
            car: draft.car,
            flight: draft.flight,
            room: draft.room,
        }))
    }

    /// What is left of a reservation once it has its candidates.
    pub(crate) fn reserve_among(
        &mut self,
        customer: u64,
        units: u64,
        best: &Each<Option<(u64, Item)>>,
    ) -> Result<ActionReply, Stop>
        requires { AreSound best.now }
        ensures { Comes (after (programs.reserve_among customer units best.now.car best.now.flight best.now.room) self.old) result
            (λ reply. Answers reply) }
    {
        if no_candidate(best) {
            return Ok(ActionReply::Reserved(Each {
                car: KindReply::Nothing,
                flight: KindReply::Nothing,
                room: KindReply::Nothing,
            }));
        }
        let found = self.get_customer(customer)?;
        self.decide_all(customer, units, best, found)
    }

    pub(crate) fn reserve(
        &mut self,
        customer: u64,
        units: u64,
        asks: &[Ask],
    ) -> Result<ActionReply, Stop>
        ensures { Comes (after (programs.reserve customer units asks.now) self.old) result (λ reply. Answers reply) }
    {
        let mut best = Each {
            car: None,
            flight: None,
            room: None,
        };
        self.gather(asks, &mut best)?;
        self.reserve_among(customer, units, &best)
    }
}
