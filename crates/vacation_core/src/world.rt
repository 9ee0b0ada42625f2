//! The world of the clients, event by event.
ghost use Rattle.std.specs.Prelude.{◌≡◌, ℕ, ◌+◌, ◌<◌, length, IfOk, OnOk};
ghost use Rattle.conflict.specs.Refusals.{IsStripeCount};
ghost use Rattle.seq_model.specs.declared.call.Call.{Call as ACall};
ghost use Rattle.seq_model.specs.declared.event.Answer.TheVariants as answer;
ghost use Rattle.seq_model.specs.declared.event.Notice.TheVariants.{Answered, Refused};
ghost use Rattle.step_world.specs.Feeds.{Feeds, IsPositionOf};
ghost use Rattle.seq_model.specs.declared.job.Ask.TheVariants as ask;
ghost use Rattle.actor_laws.specs.KnownStages.{Rests, known_stage};
ghost use Rattle.vac_model.specs.Actions.{IsAllowed};
ghost use Rattle.vac_model.specs.Balanced.{IsBalanced};
ghost use Rattle.vacation_core.specs.declared.events.VacEvent.TheVariants as happening;
ghost use Rattle.vacation_core.specs.PlayOpenings.{AreNew, unplayed_on};
ghost use Rattle.vacation_core.specs.Plays.{AreAllowed, IsMoveOf, MayHappen, Play, begins, ends, hears, played, played_all, seat_in};
ghost use Rattle.vacation_core.specs.Plays.{takes, takes_if_actor};
ghost use Rattle.vacation_core.specs.Running.{AsksNext, AsksOn, Abandons, Called, GoesOn, HasPosition};
ghost use Rattle.vacation_core.specs.Running.{HasPlay, Hears, IsPlay, Mistaken, Refusing};

use crate::client::Client;
use crate::events::VacEvent;
use crate::opening::open;
use crate::sessions::session_of;
use client_sessions::Entry;
use seq_model::{Answer, Ask, Call, Event, Items, Memory, Notice, Refusal, Request};
use std::alloc::Global;
use step_world::{ACTORS, World};
use vac_model::{Action, Tables};

/// At most this many requests of a session are answered at once, one for each call that a transaction may have.
const REQUEST_LIMIT: u32 = 4097;

/// The clients of a world, which are its actors 1 to 64, and the sessions that ended without a commit.
#[derive(Drop)]
pub struct VacWorld {
    pub(crate) alloc: Global,
    pub(crate) world: World<Entry>,
    /// Each at the position before its number.
    pub(crate) clients: Vec<Client>,
    pub(crate) aborted: Items<(u32, Refusal)>,
}

/// The position of the client of this number, where it is one of the actors.
fn position_of(actor: u32) -> Option<usize>
    ensures { IsPositionOf actor result }
{
    let number = actor as usize;
    if number == 0 || number > ACTORS {
        return None;
    }
    Some(number - 1)
}

/// The number of the client at this position.
fn actor_at(i: usize) -> u32
    requires { i < ACTORS }
    ensures { result ≡ i + 1 }
{
    i as u32 + 1
}

/// Whether a call with this refusal was mistaken: such a refusal leaves its transaction open.
fn is_mistaken(cause: Refusal) -> bool
    ensures { Mistaken cause result }
{
    matches!(cause, Refusal::NoSuch | Refusal::TooLong)
}

/// The clients of a world, none of which has begun a session.
fn clients(alloc: Global) -> Result<Vec<Client>, Memory>
    ensures count { IfOk result (λ clients. length clients.items ≡ ACTORS) }
    ensures new { IfOk result (λ clients. AreNew clients.items) }
{
    let mut clients = Vec::with_capacity(alloc, ACTORS)?;
    for _ in 0..ACTORS {
        clients.push(Client::new(alloc))?;
    }
    Ok(clients)
}

impl VacWorld {
    /// The clients of a world that opens on these tables, in so many stripes.
    pub(crate) fn open(alloc: Global, tables: &Tables, stripes: u32) -> Result<VacWorld, Memory>
        requires balanced { IsBalanced tables.now }
        requires stripes { IsStripeCount stripes }
        ensures { IfOk result (λ world. IsPlay world (unplayed_on stripes tables.now)) }
    {
        let world = open(alloc, tables, stripes)?;
        Ok(VacWorld {
            alloc,
            world,
            clients: clients(alloc)?,
            aborted: Items::new(alloc),
        })
    }

    /// A session of this client ends without a commit.
    fn end(&mut self, actor: u32, cause: Refusal) -> Result<(), Memory>
        ensures { OnOk result ((p : Play) → IsPlay self.old p → IsPlay self.new (ends actor cause p)) }
    {
        self.aborted.push((actor, cause))
    }

    /// An event of the world, and its answer.
    fn feed(&mut self, event: Event<Entry>) -> Result<Notice<Entry>, Memory>
        ensures fed { IfOk result (Feeds self.old.world.parts event self.new.world.parts) }
        ensures clients { self.new.clients.items ≡ self.old.clients.items }
        ensures aborted { self.new.aborted ≡ self.old.aborted }
    {
        self.world.feed(event)
    }

    /// A call of the session at this position was refused, for which it aborts its transaction, where it has one.
    fn give_up(&mut self, i: usize, cause: Refusal) -> Result<bool, Memory>
        requires { HasPosition i self.old }
        ensures ok { IfOk result (λ gives_up. (p : Play) → Refusing i self.old p → Abandons i cause p gives_up self.new) }
        ensures place { HasPosition i self.new }
    {
        let actor = actor_at(i);
        let notice = self.feed(Event::Ask(actor, Request::Abort))?;
        match notice {
            Notice::Quiet => {}
            _ => return Ok(false),
        }
        self.clients[i].fail(cause);
        Ok(true)
    }

    /// A call of the session at this position has this answer at once: whether it is a reply.
    fn replied(&mut self, i: usize, answer: Answer<Entry>) -> Result<bool, Memory>
        requires { HasPosition i self.old }
        ensures ok { IfOk result (λ more. (k b : ℕ) (call : ACall Entry) (to : Play) → Called i k call (Answered b answer) self.old to
            → GoesOn i k to more self.new) }
        ensures place { HasPosition i self.new }
    {
        match answer {
            Answer::Replied(reply) => {
                self.clients[i].join(reply)?;
                Ok(true)
            }
            _ => Ok(false),
        }
    }

    /// A call of the session at this position has this notice at once: whether it is a reply.
    fn called(&mut self, i: usize, notice: Notice<Entry>) -> Result<bool, Memory>
        requires { HasPosition i self.old }
        ensures ok { IfOk result (λ more. (k : ℕ) (call : ACall Entry) (to : Play) → Called i k call notice self.old to
            → GoesOn i k to more self.new) }
        ensures place { HasPosition i self.new }
    {
        match notice {
            Notice::Quiet => Ok(false),
            Notice::Answered(_, answer) => self.replied(i, answer),
            Notice::Refused(_, cause) => {
                self.give_up(i, cause)?;
                Ok(false)
            }
        }
    }

    /// A call of the session at this position: whether it was answered at once.
    fn call(&mut self, i: usize, call: Call<Entry>) -> Result<bool, Memory>
        requires place { HasPosition i self.old }
        requires asks { AsksNext i self.old (ask.Call call) }
        ensures ok { IfOk result (λ more. (k : ℕ) (to : Play) → AsksOn i k self.old to → GoesOn i k to more self.new) }
        ensures place { HasPosition i self.new }
    {
        let actor = actor_at(i);
        let notice = self.feed(Event::Ask(actor, Request::Call(call)))?;
        self.called(i, notice)
    }

    fn commit(&mut self, i: usize) -> Result<(), Memory>
        requires place { HasPosition i self.old }
        requires asks { AsksNext i self.old ask.Done }
        ensures ok { OnOk result ((k : ℕ) (to : Play) → AsksOn i k self.old to → IsPlay self.new to) }
        ensures place { HasPosition i self.new }
    {
        let actor = actor_at(i);
        let _notice = self.feed(Event::Ask(actor, Request::Commit))?;
        Ok(())
    }

    /// The next request of the session at this position: whether it was answered at once.
    fn ask_next(&mut self, i: usize) -> Result<bool, Memory>
        requires { HasPosition i self.old }
        ensures ok { IfOk result (λ more. (k : ℕ) (to : Play) → AsksOn i k self.old to → GoesOn i k to more self.new) }
        ensures place { HasPosition i self.new }
    {
        let ask = self.clients[i].next()?;
        match ask {
            Ask::Call(call) => self.call(i, call),
            Ask::Done => {
                self.commit(i)?;
                Ok(false)
            }
            Ask::GiveUp => Ok(false),
        }
    }

    /// The requests of the session at this position, up to the first that is not answered at once. There are no more of them than a
    /// transaction may have calls, and one.
    fn go_on(&mut self, i: usize) -> Result<(), Memory>
        requires { HasPosition i self.old }
        ensures { OnOk result ((to : Play) → AsksOn i 0 self.old to → IsPlay self.new to) }
    {
        for _ in 0..REQUEST_LIMIT {
            let more = self.ask_next(i)?;
            if !more {
                return Ok(());
            }
        }
        Ok(())
    }

    /// The transaction of the session at this position was aborted, as it asked for.
    fn hear_end(&mut self, i: usize) -> Result<(), Memory>
        requires { HasPosition i self.old }
        ensures { OnOk result ((p : Play) (b : ℕ) → Hears i (Answered b answer.Aborted) self.old p
            → IsPlay self.new (hears (i + 1) (Answered b answer.Aborted) p)) }
    {
        let actor = actor_at(i);
        match self.clients[i].leave() {
            Some(cause) => self.end(actor, cause),
            None => Ok(()),
        }
    }

    /// The session at this position has committed.
    fn hear_commit(&mut self, i: usize) -> Result<(), Memory>
        requires { HasPosition i self.old }
        ensures { OnOk result ((p : Play) (b n : ℕ) → Hears i (Answered b (answer.Committed n)) self.old p
            → IsPlay self.new (hears (i + 1) (Answered b (answer.Committed n)) p)) }
    {
        self.clients[i].finish()
    }

    fn hear_answer(&mut self, i: usize, actor: u32, answer: Answer<Entry>) -> Result<(), Memory>
        requires { HasPosition i self.old }
        ensures { OnOk result ((p : Play) → Hears i (Answered actor answer) self.old p
            → IsPlay self.new (hears (i + 1) (Answered actor answer) p)) }
    {
        match answer {
            Answer::Begun(_) => self.go_on(i),
            Answer::Replied(reply) => {
                self.clients[i].join(reply)?;
                self.go_on(i)
            }
            Answer::Committed(_) => self.hear_commit(i),
            Answer::Aborted => self.hear_end(i),
        }
    }

    /// The session at this position, whose request was refused, has ended without a commit.
    fn end_refused(&mut self, i: usize, cause: Refusal) -> Result<(), Memory>
        requires { HasPosition i self.old }
        ensures { OnOk result ((p : Play) → known_stage (seat_in (i + 1) p) ≡ Rests → Refusing i self.old p
            → IsPlay self.new (ends (i + 1) cause p)) }
    {
        let actor = actor_at(i);
        self.clients[i].leave();
        self.end(actor, cause)
    }

    /// A refusal of a call that leaves the transaction open.
    fn hear_mistake(&mut self, i: usize, actor: u32, cause: Refusal) -> Result<(), Memory>
        requires { HasPosition i self.old }
        ensures { OnOk result ((p : Play) → Hears i (Refused actor cause) self.old p
            → IsPlay self.new (hears (i + 1) (Refused actor cause) p)) }
    {
        let gives_up = self.give_up(i, cause)?;
        if gives_up {
            return Ok(());
        }
        self.end_refused(i, cause)
    }

    fn hear_refusal(&mut self, i: usize, actor: u32, cause: Refusal) -> Result<(), Memory>
        requires { HasPosition i self.old }
        ensures { OnOk result ((p : Play) → Hears i (Refused actor cause) self.old p
            → IsPlay self.new (hears (i + 1) (Refused actor cause) p)) }
    {
        if is_mistaken(cause) {
            return self.hear_mistake(i, actor, cause);
        }
        self.end_refused(i, cause)
    }

    /// What the client at this position does after this notice.
    fn hear(&mut self, i: usize, notice: Notice<Entry>) -> Result<(), Memory>
        requires { HasPosition i self.old }
        ensures { OnOk result ((p : Play) → Hears i notice self.old p → IsPlay self.new (hears (i + 1) notice p)) }
    {
        match notice {
            Notice::Quiet => Ok(()),
            Notice::Answered(actor, answer) => self.hear_answer(i, actor, answer),
            Notice::Refused(actor, cause) => self.hear_refusal(i, actor, cause),
        }
    }

    /// An event of the session that is under way at this position.
    fn take_at(&mut self, i: usize, event: Event<Entry>) -> Result<(), Memory>
        requires place { HasPosition i self.old }
        requires own { IsMoveOf (i + 1) event }
        ensures { OnOk result ((p : Play) → IsPlay self.old p → IsPlay self.new (takes (i + 1) event p)) }
    {
        if self.clients[i].is_busy() {
            let notice = self.feed(event)?;
            return self.hear(i, notice);
        }
        Ok(())
    }

    /// An event of the session of this client, where there is such a client.
    fn take(&mut self, actor: u32, event: Event<Entry>) -> Result<(), Memory>
        requires play { HasPlay self.old }
        requires own { IsMoveOf actor event }
        ensures { OnOk result ((p : Play) → IsPlay self.old p → IsPlay self.new (takes_if_actor actor event p)) }
    {
        match position_of(actor) {
            Some(i) => self.take_at(i, event),
            None => Ok(()),
        }
    }

    fn begin(&mut self, i: usize, action: &Action) -> Result<(), Memory>
        requires place { HasPosition i self.old }
        requires allowed { IsAllowed action.now }
        ensures { OnOk result ((p : Play) → IsPlay self.old p → IsPlay self.new (begins (i + 1) action.now p)) }
    {
        let actor = actor_at(i);
        if self.clients[i].is_busy() {
            return self.end(actor, Refusal::NotIdle);
        }
        let session = session_of(self.alloc, action)?;
        let _notice = self.feed(Event::Ask(actor, Request::Begin))?;
        self.clients[i].begin(self.alloc, session);
        Ok(())
    }

    fn start(&mut self, actor: u32, action: &Action) -> Result<(), Memory>
        requires play { HasPlay self.old }
        requires allowed { IsAllowed action.now }
        ensures { OnOk result ((p : Play) → IsPlay self.old p → IsPlay self.new (played p (happening.Start actor action.now))) }
    {
        match position_of(actor) {
            Some(i) => self.begin(i, action),
            None => self.end(actor, Refusal::NoSuch),
        }
    }

    /// Applies this event to the clients and to their world.
    fn play(&mut self, event: &VacEvent) -> Result<(), Memory>
        requires play { HasPlay self.old }
        requires allowed { MayHappen event.now }
        ensures { OnOk result ((p : Play) → IsPlay self.old p → IsPlay self.new (played p event.now)) }
    {
        match event {
            VacEvent::Start(actor, action) => self.start(*actor, action),
            VacEvent::Step(actor) => self.take(*actor, Event::Step(*actor)),
            VacEvent::Starve(actor) => self.take(*actor, Event::Starve(*actor)),
        }
    }

    /// Applies these events to them, one after another.
    pub(crate) fn play_all(&mut self, events: &[VacEvent]) -> Result<(), Memory>
        requires play { HasPlay self.old }
        requires allowed { AreAllowed events.now }
        ensures { OnOk result ((p : Play) → IsPlay self.old p → IsPlay self.new (played_all p events.now)) }
    {
        let mut left = events;
        while let Some((event, later)) = left.split_first() {
            self.play(event)?;
            left = later;
        }
        Ok(())
    }
}
