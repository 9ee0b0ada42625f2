//! What an event makes of the parts of a world.
ghost use Rattle.std.specs.Prelude.{◌≡◌, ◌+◌, ◌<◌, [], length, IfOk, IsOk, OnErr};
ghost use Rattle.seq_model.specs.declared.event.Event.TheVariants.{Ask, Starve, Step};
ghost use Rattle.tx_actor.specs.Running.{notice_of};
ghost use Rattle.step_world.specs.Feeds.{AllocatesNothing, Feeds, IsPositionOf, MayAllocate};
ghost use Rattle.step_world.specs.Parts.{Happens, HasWorld, IsDue, IsStarved};

use crate::opening::ACTORS;
use crate::parts::Parts;
use actor_parts::Next;
use seq_model::{Event, Memory, Notice, Refusal, Request, Value};
use tx_actor::{ActorNotice, Stage};

/// The position of the actor of this number, where it is one of the actors 1 to 64.
fn position_of(actor: u32) -> Option<usize>
    ensures { IsPositionOf actor result }
{
    let number = actor as usize;
    if number == 0 || number > ACTORS {
        return None;
    }
    Some(number - 1)
}

fn notice<V>(actor: u32, told: ActorNotice<V>) -> Notice<V>
    ensures { result ≡ notice_of actor told }
{
    match told {
        ActorNotice::Quiet => Notice::Quiet,
        ActorNotice::Answered(answer) => Notice::Answered(actor, answer),
        ActorNotice::Refused(refusal) => Notice::Refused(actor, refusal),
    }
}

impl<V: Value> Parts<V> {
    /// The next step of the words of the actor at this position.
    fn step_words(&mut self, i: usize) -> Result<ActorNotice<V>, Memory>
        requires inside { i < length self.old.actors.items }
        requires world { HasWorld self.old }
        requires due { IsDue self.old i Next.Word }
        ensures ok { IfOk result (λ told. Happens self.old (Step (i + 1)) self.new told) }
        ensures err { OnErr result (IsStarved self.old i self.new) }
        ensures wants { OnErr result (MayAllocate self.old i) }
    {
        match self.actors[i].stage {
            Stage::Closing => self.close(i),
            Stage::Leaving => self.leave(i),
            Stage::Loading(_, _) => Ok(self.load(i)),
            _ => Ok(self.move_on(i)),
        }
    }

    /// The next step of the actor at this position. Where there is no memory for what it would leave, its request is refused as `Memory`.
    fn step(&mut self, i: usize) -> Result<ActorNotice<V>, Memory>
        requires inside { i < length self.old.actors.items }
        requires world { HasWorld self.old }
        ensures ok { IfOk result (λ told. Happens self.old (Step (i + 1)) self.new told) }
        ensures err { OnErr result (IsStarved self.old i self.new) }
        ensures wants { OnErr result (MayAllocate self.old i) }
    {
        match self.actors[i].next() {
            Next::Nothing => Ok(ActorNotice::Refused(Refusal::NoTransaction)),
            Next::Word => self.step_words(i),
            Next::FirstStore => self.commit(i),
            Next::TryGate(k) => Ok(self.try_gate(i, k)),
            Next::PutGate(k) => Ok(self.put_gate(i, k)),
            Next::Copy(k) => self.copy(i, k),
            Next::GoHome(k) => Ok(self.go_home(i, k)),
        }
    }

    fn feed_ask(&mut self, actor: u32, request: Request<V>) -> Result<Notice<V>, Memory>
        requires world { HasWorld self.old }
        ensures { IfOk result (Feeds self.old (Ask actor request) self.new) }
    {
        let Some(i) = position_of(actor) else {
            return Ok(Notice::Refused(actor, Refusal::NoSuch));
        };
        let told = self.ask(i, request)?;
        Ok(notice(actor, told))
    }

    fn feed_step(&mut self, actor: u32) -> Result<Notice<V>, Memory>
        requires world { HasWorld self.old }
        ensures ok { IfOk result (Feeds self.old (Step actor) self.new) }
        ensures served { AllocatesNothing self.old (Step actor) → IsOk result }
    {
        let Some(i) = position_of(actor) else {
            return Ok(Notice::Refused(actor, Refusal::NoSuch));
        };
        let told = self.step(i)?;
        Ok(notice(actor, told))
    }

    fn feed_starve(&mut self, actor: u32) -> Notice<V>
        requires world { HasWorld self.old }
        ensures { Feeds self.old (Starve actor) self.new result }
    {
        let Some(i) = position_of(actor) else {
            return Notice::Refused(actor, Refusal::NoSuch);
        };
        let told = self.starve(i);
        notice(actor, told)
    }

    /// An event, and its notice. `NoSuch` where its actor is not one of the actors 1 to 64, which changes nothing. `Memory` only for an
    /// event that takes some.
    pub fn feed(&mut self, event: Event<V>) -> Result<Notice<V>, Memory>
        requires world { HasWorld self.old }
        ensures ok { IfOk result (Feeds self.old event self.new) }
        ensures served { AllocatesNothing self.old event → IsOk result }
    {
        match event {
            Event::Ask(actor, request) => self.feed_ask(actor, request),
            Event::Step(actor) => self.feed_step(actor),
            Event::Starve(actor) => Ok(self.feed_starve(actor)),
        }
    }
}
