//! The session of one action.
ghost use Rattle.std.specs.Prelude.{◌≡◌, IfOk, IfErr, IfSome};
ghost use Rattle.seq_model.specs.Places.{IsPlaceIn};
ghost use Rattle.seq_model.specs.Programs.{after, asked, replies_of, Answers};
ghost use Rattle.vac_model.specs.Actions.{IsAllowed};
ghost use Rattle.client_sessions.specs.Sessions as programs;
ghost use Rattle.client_sessions.specs.Walks.{Comes};
ghost use Rattle.client_sessions.specs.Left.{replies_in};
ghost use Rattle.client_sessions.specs.Gets.{get_due};
ghost use Rattle.client_sessions.specs.Refusals.{IsSessionRefusal};
ghost use Rattle.client_sessions.specs.Weighed.{AreWeighed, weighed_in};
ghost use Rattle.seq_model.specs.declared.job.Ask.TheVariants as ask;

use crate::delete::ask_deletion;
use crate::entry::Entry;
use crate::reserve::due_of;
use crate::update::ask_update;
use crate::walk::{Left, Stop, Walk, ask_of, get_of};
use crate::weighed::Weighed;
use seq_model::{Ask, Items, Job, JobPlace, Memory, Record, Refusal, Reply};
use std::alloc::Global;
use std::marker::Model;
use vac_model::{Action, ActionReply, Ask as ItemAsk, Kind};

/// The transaction of one action, which is within its limits. It keeps nothing between its calls but what it notes in its place.
#[derive(Drop)]
pub struct Session {
    alloc: Global,
    action: Action,
}

impl Model for Session {
    ghost use Rattle.vac_model.specs.declared.action.Action.{Action as AnAction};
    ghost use Rattle.vac_model.specs.Actions.{IsAllowed};

    ghost Value = { AnAction };

    ghost view = { λ a. a.action };

    ghost invariant = { λ a. IsAllowed a.action };
}

fn copy_of(alloc: Global, action: &Action) -> Result<Action, Memory>
    ensures { IfOk result (λ copy. copy ≡ action.now) }
{
    Ok(match action {
        Action::Reserve(customer, units, asks) => Action::Reserve(
            *customer,
            *units,
            Items::from_vec(Vec::from_slice(alloc, asks.as_slice())?),
        ),
        Action::Delete(customer) => Action::Delete(*customer),
        Action::Update(changes) => Action::Update(Items::from_vec(Vec::from_slice(
            alloc,
            changes.as_slice(),
        )?)),
        Action::QueryItem(kind, id) => Action::QueryItem(*kind, *id),
        Action::QueryBill(customer) => Action::QueryBill(*customer),
    })
}

impl<'a> Walk<'a> {
    fn query_item(&mut self, kind: Kind, id: u64) -> Result<ActionReply, Stop>
        ensures { Comes (after (programs.query_item kind id) self.old) result (λ reply. Answers reply) }
    {
        match self.get_item(kind, id)? {
            Some(item) => Ok(ActionReply::Found(item)),
            None => Ok(ActionReply::Absent),
        }
    }

    fn query_bill(&mut self, customer: u64) -> Result<ActionReply, Stop>
        ensures { Comes (after (programs.query_bill customer) self.old) result (λ reply. Answers reply) }
    {
        match self.get_customer(customer)? {
            Some(who) => Ok(ActionReply::Bill(who.bill())),
            None => Ok(ActionReply::Absent),
        }
    }
}

/// What a reservation asks. It notes which of the replies so far names the candidate of each kind.
fn ask_reservation(
    alloc: Global,
    customer: u64,
    units: u64,
    asks: &[ItemAsk],
    replies: &[Reply<Entry>],
    place: &mut JobPlace,
) -> Result<Ask<Entry>, Memory>
    requires { IsPlaceIn (λ told noted. AreWeighed asks.now told (weighed_in noted)) replies.now place.old }
    ensures ask { IfOk result (λ ask. ask ≡ asked (after (programs.reserve customer units asks.now) replies.now)) }
    ensures place { IsPlaceIn (λ told noted. AreWeighed asks.now told (weighed_in noted)) replies.now place.new }
{
    let mut weighed = Weighed::in_place(place);
    let told = weighed.weigh_all(asks, replies);
    weighed.note(place);
    if !told {
        return Ok(Ask::GiveUp);
    }
    if weighed.count < asks.len() {
        return Ok(Ask::Call(get_of(asks[weighed.count])));
    }
    let (_, left) = replies.split_at(weighed.count);
    let mut walk = Walk::new(alloc, Left::Replies(left));
    let best = weighed.all_named(asks, replies);
    ask_of(walk.reserve_among(customer, units, &best))
}

impl Session {
    /// The session of this action.
    ///
    /// `TooLong` where the action isn't allowed, and `Memory` where an allocation failed.
    pub fn new(alloc: Global, action: &Action) -> Result<Session, Refusal>
        ensures ok { IfOk result (λ session. session ≡ action.now) }
        ensures refused { IfErr result (λ refusal. IsSessionRefusal refusal (¬ IsAllowed action.now)) }
    {
        if !action.is_allowed() {
            return Err(Refusal::TooLong);
        }
        let action = copy_of(alloc, action)?;
        Ok(Session { alloc, action })
    }

    /// Where the replies so far lead.
    fn play(&self, left: Left<'_>) -> Result<ActionReply, Stop>
        ensures { Comes (after (programs.session self.now) (replies_in left.entry)) result (λ reply. Answers reply) }
    {
        let mut walk = Walk::new(self.alloc, left);
        match &self.action {
            Action::Reserve(customer, units, asks) => walk.reserve(
                *customer,
                *units,
                asks.as_slice(),
            ),
            Action::Delete(customer) => walk.delete(*customer),
            Action::Update(changes) => walk.answer_update(changes.as_slice()),
            Action::QueryItem(kind, id) => walk.query_item(*kind, *id),
            Action::QueryBill(customer) => walk.query_bill(*customer),
        }
    }

    /// What the replies so far lead to, walked from the first.
    #[inline(always)]
    fn walked(&self, replies: &[Reply<Entry>]) -> Result<Ask<Entry>, Memory>
        ensures { IfOk result (λ ask. ask ≡ asked (after (programs.session self.now) replies.now)) }
    {
        ask_of(self.play(Left::Replies(replies)))
    }

    /// The item that a reservation gets next, while not all that it asks for are got: no candidate is weighed for that.
    fn due(&self, replies: &[Reply<Entry>]) -> Option<ItemAsk>
        ensures { IfSome result (λ due. asked (after (programs.session self.now) replies.now) ≡ ask.Call (get_due due)) }
    {
        match &self.action {
            Action::Reserve(_, _, asks) => due_of(asks.as_slice(), replies),
            _ => None,
        }
    }

    /// What the session answered in this receipt, which is one of its own.
    pub fn reply(&self, receipt: &Record<Entry>) -> Result<ActionReply, Memory>
        requires { asked (after (programs.session self.now) (replies_of receipt.now.calls)) ≡ ask.Done }
        ensures { IfOk result (λ reply. after (programs.session self.now) (replies_of receipt.now.calls) ≡ Answers reply) }
    {
        match self.play(Left::Calls(receipt.calls.as_slice())) {
            Ok(reply) => Ok(reply),
            Err(Stop::Memory) => Err(Memory),
            Err(_) => unreachable!(),
        }
    }
}

impl Job<Entry> for Session {
    ghost use Rattle.seq_model.specs.Programs.{after, asked};
    ghost use Rattle.client_sessions.specs.Sessions as programs;
    ghost use Rattle.client_sessions.specs.Noted.{HasNoted};

    ghost asks = { λ action replies ask. ask ≡ asked (after (programs.session action) replies) };

    ghost stands = { λ action replies place. HasNoted action replies place };

    /// What the session asks after these replies: it aborts where no balanced tables answer so.
    #[inline(always)]
    fn ask(&self, replies: &[Reply<Entry>]) -> Result<Ask<Entry>, Memory> {
        if let Some(due) = self.due(replies) {
            return Ok(Ask::Call(get_of(due)));
        }
        self.walked(replies)
    }

    /// The same. No reply to an ask, to the calls of a booking that is given back, or to those of a change is looked at twice.
    #[inline(always)]
    fn ask_on(&self, replies: &[Reply<Entry>], place: &mut JobPlace) -> Result<Ask<Entry>, Memory> {
        match &self.action {
            Action::Reserve(customer, units, asks) => ask_reservation(
                self.alloc,
                *customer,
                *units,
                asks.as_slice(),
                replies,
                place,
            ),
            Action::Delete(customer) => ask_deletion(self.alloc, *customer, replies, place),
            Action::Update(changes) => ask_update(self.alloc, changes.as_slice(), replies, place),
            _ => self.walked(replies),
        }
    }
}
